// Cases of Speed: moves on a table whose pack is in order, refused restores, other trails, and three openings.
ghost use Rattle.worked_cases.specs.SpeedCases.{FitsOnCard0};

// The definitions give the cases of fitting cards.
pub fn cards_that_fit()
    ensures { FitsOnCard0 }
{}

#[cfg(test)]
mod tests {
    use interface::answers::Refusal;
    use interface::digest::digest;
    use interface::game::Game;
    use interface::input::InputKind;
    use speed::cards_fit;
    use speed::game::Speed;
    use speed::moves::Move;
    use std::process::Abort;
    use std::test::*;

    // A pack in order, dealt: hands 30 to 34 and 35 to 39, tops 50 and 51; four words more, as restoring takes 72.
    const IN_ORDER: [u32; 72] = [
        0, 1, 2, 3, 4, 5, 6, 7, 8, 9, 10, 11, 12, 13, 14, 15, 16, 17, 18, 19, 20, 21, 22, 23, 24,
        25, 26, 27, 28, 29, 30, 31, 32, 33, 34, 35, 36, 37, 38, 39, 40, 41, 42, 43, 44, 45, 46, 47,
        48, 49, 50, 51, 30, 31, 32, 33, 34, 35, 36, 37, 38, 39, 15, 15, 5, 50, 51, 0, 7, 7, 7, 7,
    ];

    // A frame: words changed before it, the codes of both seats, and words changed by it.
    struct Case {
        name: &'static str,
        before: &'static [(usize, u32)],
        codes: (u16, u16),
        after: &'static [(usize, u32)],
    }

    const CASES: [Case; 20] = [
        Case {
            name: "over for seat 1's want of cards",
            before: &[
                (57, 52),
                (58, 52),
                (59, 52),
                (60, 52),
                (61, 52),
                (63, 0),
                (62, 0),
                (52, 10),
            ],
            codes: (1, 0),
            after: &[],
        },
        Case {
            name: "an empty hand with cards to draw",
            before: &[(52, 52), (53, 52), (54, 52), (55, 52), (56, 52)],
            codes: (0, 3),
            after: &[(58, 15), (63, 14), (65, 36), (67, 1)],
        },
        Case {
            name: "seat 0 plays its last card, and seat 1 still plays",
            before: &[
                (62, 0),
                (52, 10),
                (53, 52),
                (54, 52),
                (55, 52),
                (56, 52),
                (57, 9),
            ],
            codes: (1, 1),
            after: &[(52, 52), (57, 15), (63, 14), (65, 9), (67, 1)],
        },
        Case {
            name: "the last sides",
            before: &[(64, 1)],
            codes: (11, 11),
            after: &[(64, 0), (65, 44), (66, 49), (67, 1)],
        },
        Case {
            name: "seat 1 calls alone",
            before: &[],
            codes: (0, 11),
            after: &[(67, 1)],
        },
        Case {
            name: "seat 0 refills",
            before: &[(52, 49), (62, 14), (64, 0)],
            codes: (1, 0),
            after: &[(52, 1), (62, 13), (65, 49), (67, 1)],
        },
        Case {
            name: "idle",
            before: &[],
            codes: (0, 0),
            after: &[(67, 1)],
        },
        Case {
            name: "parity flips back",
            before: &[(67, 1)],
            codes: (0, 0),
            after: &[(67, 0)],
        },
        Case {
            name: "refill from the draw",
            before: &[],
            codes: (0, 3),
            after: &[(58, 15), (63, 14), (65, 36), (67, 1)],
        },
        Case {
            name: "no draw left",
            before: &[(63, 0)],
            codes: (0, 3),
            after: &[(58, 52), (65, 36), (67, 1)],
        },
        Case {
            name: "last card to draw",
            before: &[(63, 1)],
            codes: (0, 3),
            after: &[(58, 29), (63, 0), (65, 36), (67, 1)],
        },
        Case {
            name: "misfit",
            before: &[],
            codes: (1, 0),
            after: &[(67, 1)],
        },
        Case {
            name: "empty slot",
            before: &[(52, 52)],
            codes: (2, 0),
            after: &[(67, 1)],
        },
        Case {
            name: "12 apart fits",
            before: &[],
            codes: (0, 10),
            after: &[(61, 15), (63, 14), (66, 39), (67, 1)],
        },
        Case {
            name: "both onto the left pile, seat 0 first",
            before: &[(62, 0), (52, 10), (57, 9)],
            codes: (1, 1),
            after: &[(52, 52), (57, 15), (63, 14), (65, 9), (67, 1)],
        },
        Case {
            name: "both onto the left pile, seat 1 first",
            before: &[(62, 0), (52, 10), (57, 9), (67, 1)],
            codes: (1, 1),
            after: &[(52, 52), (65, 10), (67, 0)],
        },
        Case {
            name: "both call",
            before: &[],
            codes: (11, 11),
            after: &[(64, 4), (65, 40), (66, 45), (67, 1)],
        },
        Case {
            name: "both call, no sides",
            before: &[(64, 0)],
            codes: (11, 11),
            after: &[(67, 1)],
        },
        Case {
            name: "one calls alone",
            before: &[],
            codes: (11, 0),
            after: &[(67, 1)],
        },
        Case {
            name: "over",
            before: &[(52, 52), (53, 52), (54, 52), (55, 52), (56, 52), (62, 0)],
            codes: (0, 3),
            after: &[],
        },
    ];

    // Changes of the dealt pack that make it unlawful.
    const REFUSED: [(&str, &[(usize, u32)]); 13] = [
        ("a card twice in the order", &[(0, 1)]),
        ("a card twice in the order, not in play", &[(62, 0), (0, 1)]),
        ("a card 52 in the order", &[(62, 0), (0, 52)]),
        ("a hand card that is undrawn", &[(52, 14)]),
        ("a hand card that is an unturned side", &[(57, 44)]),
        ("a hand card that is an unturned right side", &[(57, 49)]),
        ("a top that is in a hand", &[(65, 34)]),
        ("a hand card 53", &[(56, 53)]),
        ("draws of seat 0", &[(62, 16)]),
        ("draws of seat 1", &[(62, 0), (63, 16)]),
        ("sides", &[(64, 6)]),
        ("a top 52", &[(66, 52)]),
        ("parity", &[(67, 2)]),
    ];

    // The first 68 words of three openings, worked out by tools/speed_opening.py.
    const OPENINGS: [(u32, [u32; 68]); 3] = [
        (
            0,
            [
                21, 34, 22, 25, 10, 48, 19, 44, 51, 35, 37, 0, 17, 41, 29, 11, 45, 47, 31, 3, 2,
                36, 15, 42, 23, 4, 33, 46, 16, 14, 6, 28, 9, 7, 20, 38, 40, 24, 43, 27, 39, 50, 30,
                13, 5, 32, 1, 18, 12, 8, 49, 26, 6, 28, 9, 7, 20, 38, 40, 24, 43, 27, 15, 15, 5,
                49, 26, 0,
            ],
        ),
        (
            1,
            [
                34, 13, 16, 21, 41, 19, 1, 27, 39, 45, 9, 17, 20, 48, 40, 29, 12, 22, 43, 50, 4,
                10, 32, 44, 8, 6, 28, 23, 18, 3, 30, 35, 14, 25, 2, 7, 42, 38, 15, 31, 5, 33, 49,
                24, 47, 36, 11, 51, 37, 46, 26, 0, 30, 35, 14, 25, 2, 7, 42, 38, 15, 31, 15, 15, 5,
                26, 0, 0,
            ],
        ),
        (
            4294967295,
            [
                19, 3, 0, 49, 29, 28, 14, 44, 41, 5, 21, 27, 31, 33, 47, 43, 48, 22, 9, 7, 16, 30,
                51, 11, 25, 40, 32, 39, 15, 26, 46, 17, 34, 23, 4, 50, 42, 18, 12, 24, 45, 8, 6, 2,
                10, 13, 38, 37, 36, 35, 20, 1, 46, 17, 34, 23, 4, 50, 42, 18, 12, 24, 15, 15, 5,
                20, 1, 0,
            ],
        ),
    ];

    fn changed(words: &[u32; 72], changes: &[(usize, u32)]) -> [u32; 72] {
        let mut result = *words;
        for &(place, value) in changes {
            if place < 72 {
                result[place] = value;
            }
        }
        result
    }

    fn restored(words: &[u32; 72]) -> Result<Speed, Fail> {
        let mut game = Speed::open(0);
        game.restore(words)
            .map_err(|_| Fail::new("restore refused"))?;
        Ok(game)
    }

    fn next_number(z: u32) -> u32 {
        z.wrapping_mul(1_664_525).wrapping_add(1_013_904_223)
    }

    // The words of a state, in a case that the note names.
    fn check_words(rt: &impl Abort, game: &Speed, words: &[u32; 72], note: &str) {
        for (k, word) in words[..68].iter().enumerate() {
            assert_eq!(rt; game.word(k as u32), Some(*word), "{note}");
        }
        assert_eq!(rt; game.word(68), None, "{note}");
    }

    #[test]
    fn fitting_cards(rt: HostRuntime) -> Result<(), Fail> {
        assert!(rt; cards_fit(12, 0) && cards_fit(14, 0));
        assert!(rt; !cards_fit(2, 0) && !cards_fit(13, 0));
        Ok(())
    }

    #[test]
    fn frames(rt: HostRuntime) -> Result<(), Fail> {
        for case in &CASES {
            let before = changed(&IN_ORDER, case.before);
            let mut game = restored(&before)?;
            let first = Move::read(case.codes.0).ok_or("code")?;
            let second = Move::read(case.codes.1).ok_or("code")?;
            let trail = game.step(first, second);
            check_words(&rt, &game, &changed(&before, case.after), case.name);
            assert!(rt; game.undo(&trail).is_ok(), "{}", case.name);
            check_words(&rt, &game, &before, case.name);
        }
        Ok(())
    }

    #[test]
    fn codes_that_read(rt: HostRuntime) -> Result<(), Fail> {
        for code in 0..=300u16 {
            match Move::read(code) {
                Some(play) => {
                    assert!(rt; code < 12);
                    assert_eq!(rt; play.code(), code);
                }
                None => assert!(rt; code > 11),
            }
        }
        assert!(rt; Move::read(u16::MAX).is_none());
        Ok(())
    }

    #[test]
    fn refused_restores(rt: HostRuntime) -> Result<(), Fail> {
        for (name, changes) in &REFUSED {
            let mut game = restored(&IN_ORDER)?;
            let answer = game.restore(&changed(&IN_ORDER, changes));
            assert_eq!(rt; answer.map_err(Refusal::number), Err(16), "{}", *name);
            check_words(&rt, &game, &IN_ORDER, name);
        }
        Ok(())
    }

    #[test]
    fn other_trails(rt: HostRuntime) -> Result<(), Fail> {
        let mut game = restored(&IN_ORDER)?;
        let [first, second, _, _] = game.step(Move::idle(), Move::idle());
        let now = changed(&IN_ORDER, &[(67, 1)]);
        for trail in [
            [0, 0, 0, 0],
            [u32::MAX; 4],
            [first, second, 6, 0],
            [first, second, 5, 2],
        ] {
            assert_eq!(rt; game.undo(&trail).map_err(Refusal::number), Err(16));
            check_words(&rt, &game, &now, "another trail");
        }
        assert!(rt; game.undo(&[first, second, 3, 1]).is_ok());
        check_words(&rt, &game, &changed(&IN_ORDER, &[(64, 3), (67, 1)]), "left");
        Ok(())
    }

    // The digests of a game after 100, 200 and 300 frames were worked out by tools/speed_play.py; it is over by then.
    // Undoing all frames leads back to the opening.
    #[test]
    fn whole_game(rt: HostRuntime) -> Result<(), Fail> {
        assert_eq!(rt; Speed::W, 68);
        let mut game = Speed::open(7);
        let opening = digest(&game);
        let mut trails = [[0; 4]; 300];
        let mut z = 7;
        for (n, trail) in trails.iter_mut().enumerate() {
            let y = next_number(z);
            z = next_number(y);
            let first = Move::read((y / 65_536 % 12) as u16).ok_or("code")?;
            let second = Move::read((z / 65_536 % 12) as u16).ok_or("code")?;
            *trail = game.step(first, second);
            match n {
                99 => assert_eq!(rt; digest(&game), 111_614),
                199 => assert_eq!(rt; digest(&game), 124_314),
                299 => assert_eq!(rt; digest(&game), 133_016),
                _ => {}
            }
        }
        for trail in trails.iter().rev() {
            assert!(rt; game.undo(trail).is_ok());
        }
        assert_eq!(rt; digest(&game), opening);
        Ok(())
    }

    #[test]
    fn openings(rt: HostRuntime) -> Result<(), Fail> {
        for (seed, words) in &OPENINGS {
            let game = Speed::open(*seed);
            for (k, word) in words.iter().enumerate() {
                assert_eq!(rt; game.word(k as u32), Some(*word));
            }
        }
        Ok(())
    }
}
