// Duel.
ghost use Rattle.worked_cases.specs.DuelCases.{DuelWorked};

// The worked cases, computed from the rules.
pub fn duel_worked()
    ensures { DuelWorked }
{}

#[cfg(test)]
mod tests {
    use duel::input::DuelInput;
    use duel::state::Duel;
    use interface::answers::Refusal;
    use interface::digest::digest;
    use interface::game::Game;
    use interface::input::InputKind;
    use std::process::Abort;
    use std::test::*;

    // The number of a refusal, or 0.
    fn answer(r: Result<(), Refusal>) -> u32 {
        r.map_or_else(Refusal::number, |()| 0)
    }

    fn coded(code: u16) -> DuelInput {
        DuelInput::read(code).unwrap_or(DuelInput::idle())
    }

    // The words of a state, in a case that the note names.
    fn sums(rt: &impl Abort, duel: &Duel, words: [u32; 10], note: &str) {
        for (k, word) in (0..10).zip(words) {
            assert_eq!(rt; duel.word(k), Some(word), "{note}");
        }
        assert_eq!(rt; duel.word(10), None, "{note}");
        assert_eq!(rt; duel.word(u32::MAX), None, "{note}");
    }

    #[test]
    fn opening_and_first_frame(rt: HostRuntime) -> Result<(), Fail> {
        let mut duel = Duel::open(0);
        sums(&rt, &duel, [0, 0, 2, 0, 7, 7, 4, 0, 0, 0], "the opening");
        assert_eq!(rt; digest(&duel), 202);
        assert_eq!(rt; Duel::W, 10);
        let trail = duel.step(coded(2), coded(1));
        sums(
            &rt,
            &duel,
            [1, 0, 2, 0, 7, 6, 1, 0, 0, 0],
            "the first frame",
        );
        assert_eq!(rt; digest(&duel), 153);
        assert_eq!(rt; answer(duel.undo(&trail)), 0);
        sums(&rt, &duel, [0, 0, 2, 0, 7, 7, 4, 0, 0, 0], "taken back");
        sums(
            &rt,
            &Duel::open(u32::MAX),
            [0, 0, 2, 0, 7, 7, 4, 0, 0xffff_fffe, 0x7fff_ffff],
            "the opening of the greatest seed",
        );
        sums(
            &rt,
            &Duel::open(0x8001_0003),
            [0, 0, 2, 0, 7, 7, 4, 0, 0x8001_0002, 0x0003_8001],
            "the opening of a seed with bits in both halves",
        );
        Ok(())
    }

    #[test]
    fn codes_that_read(rt: HostRuntime) -> Result<(), Fail> {
        for code in 0..=300u16 {
            match DuelInput::read(code) {
                Some(input) => {
                    assert!(rt; code % 8 < 5 && code < 16);
                    assert_eq!(rt; input.code(), code);
                }
                None => assert!(rt; code % 8 > 4 || code > 15),
            }
        }
        assert_eq!(rt; DuelInput::read(u16::MAX), None);
        assert_eq!(rt; DuelInput::read(256), None);
        Ok(())
    }

    // What restoring ten words answers, and the words then: those, or the old ones.
    fn restores(rt: &impl Abort, words: [u32; 10], expected: u32, note: &str) {
        let mut from = [7u32; 72];
        from[..10].copy_from_slice(&words);
        let mut duel = Duel::open(0);
        assert_eq!(rt; answer(duel.restore(&from)), expected, "{note}");
        sums(
            rt,
            &duel,
            if expected == 0 {
                words
            } else {
                [0, 0, 2, 0, 7, 7, 4, 0, 0, 0]
            },
            note,
        )
    }

    // The same, with one word of a lawful ten changed.
    fn restores_with(rt: &impl Abort, place: usize, word: u32, expected: u32) {
        let mut words = [2, 2, 2, 2, 5, 5, 3, 3, 0, 0];
        assert!(rt; place < 10);
        words[place] = word;
        restores(rt, words, expected, "a word at its edge");
    }

    #[test]
    fn restore_at_the_edges(rt: HostRuntime) -> Result<(), Fail> {
        restores(
            &rt,
            [7, 7, 1, 65_535, 6, 7, 4, 65_535, 0, 0],
            0,
            "the greatest scores",
        );
        restores(
            &rt,
            [3, 4, 4, 0, 4, 4, 1, 0, 0xffff_ffff, 0xffff_ffe7],
            0,
            "walls but for two cells",
        );
        for (place, low, high) in [
            (0, 0, 8),
            (1, 0, 8),
            (2, 1, 5),
            (3, 0, 65_536),
            (4, 0, 8),
            (5, 0, 8),
            (6, 1, 5),
            (7, 0, 65_536),
        ] {
            restores_with(&rt, place, low, 0);
            restores_with(&rt, place, high - 1, 0);
            restores_with(&rt, place, high, 16);
            restores_with(&rt, place, u32::MAX, 16);
        }
        restores(&rt, [2, 2, 0, 2, 5, 5, 3, 3, 0, 0], 16, "facing 0");
        restores(
            &rt,
            [2, 2, 2, 2, 5, 5, 0, 3, 0, 0],
            16,
            "facing 0 of seat 1",
        );
        restores(&rt, [5, 5, 2, 2, 5, 5, 3, 3, 0, 0], 16, "one cell");
        restores(
            &rt,
            [2, 3, 2, 2, 5, 5, 3, 3, 1 << 26, 0],
            16,
            "seat 0 in a wall",
        );
        restores(
            &rt,
            [2, 3, 2, 2, 5, 5, 3, 3, 0, 1 << 13],
            16,
            "seat 1 in a wall",
        );
        restores(
            &rt,
            [2, 3, 2, 2, 5, 5, 3, 3, 0, 1 << 26],
            0,
            "a wall in the other half",
        );
        Ok(())
    }

    #[test]
    fn undo_with_any_words(rt: HostRuntime) -> Result<(), Fail> {
        let mut duel = Duel::open(0);
        // Seat 0 at column 3 and row 2 facing down, seat 1 as it stands.
        assert_eq!(rt; answer(duel.undo(&[3 + 16 + 192, 9, 63 + 256, 65_535])), 0);
        sums(&rt, &duel, [3, 2, 3, 9, 7, 7, 4, 65_535, 0, 0], "led back");
        for trail in [
            [63 + 64, 0, 63 + 64, 0],
            [64, 65_536, 63 + 256, 0],
            [64 + 320, 0, 63 + 256, 0],
            [63, 0, 319, 0],
            [u32::MAX, 0, 0, 0],
        ] {
            assert_eq!(rt; answer(duel.undo(&trail)), 16);
            sums(&rt, &duel, [3, 2, 3, 9, 7, 7, 4, 65_535, 0, 0], "kept");
        }
        Ok(())
    }

    // Plays frames of codes from ten words, and compares the words then.
    fn plays(
        rt: &impl Abort,
        from: [u32; 10],
        codes: &[(u16, u16)],
        expected: [u32; 10],
        note: &str,
    ) -> Result<(), Fail> {
        let mut duel = Duel::from_words(&from).ok_or_else(|| Fail::new("unlawful"))?;
        for &(first, second) in codes {
            let _ = duel.step(coded(first), coded(second));
        }
        sums(rt, &duel, expected, note);
        Ok(())
    }

    #[test]
    fn frames(rt: HostRuntime) -> Result<(), Fail> {
        let open = [0, 0, 2, 0, 7, 7, 4, 0, 0, 0];
        let six = [(0, 1), (0, 1), (0, 1), (0, 1), (0, 1), (0, 1), (8, 1)];
        plays(
            &rt,
            open,
            &six,
            [0, 0, 2, 1, 7, 0, 1, 0, 0, 0],
            "seat 0 fires in frame 6",
        )?;
        let five = [(0, 1), (0, 1), (0, 1), (0, 1), (0, 1), (8, 1), (0, 1)];
        plays(
            &rt,
            open,
            &five,
            [0, 0, 2, 0, 7, 0, 1, 0, 0, 0],
            "seat 0 fires in frame 5",
        )?;
        plays(
            &rt,
            open,
            &[(1, 3)],
            [0, 0, 1, 0, 7, 7, 3, 0, 0, 0],
            "off the grid both face and stay",
        )?;
        plays(
            &rt,
            open,
            &[(4, 2)],
            [0, 0, 4, 0, 7, 7, 2, 0, 0, 0],
            "off the grid, the other way",
        )?;
        plays(
            &rt,
            [2, 2, 1, 0, 4, 2, 1, 0, 0, 0],
            &[(2, 4)],
            [2, 2, 2, 0, 4, 2, 4, 0, 0, 0],
            "both aim at one cell",
        )?;
        plays(
            &rt,
            [2, 2, 1, 0, 3, 2, 1, 0, 0, 0],
            &[(2, 2)],
            [2, 2, 2, 0, 4, 2, 2, 0, 0, 0],
            "the cell was the other's before the frame",
        )?;
        plays(
            &rt,
            [2, 2, 1, 0, 3, 2, 1, 0, 0, 0],
            &[(2, 4)],
            [2, 2, 2, 0, 3, 2, 4, 0, 0, 0],
            "no exchange",
        )?;
        plays(
            &rt,
            [2, 2, 1, 0, 5, 5, 1, 0, 1 << 19, 0],
            &[(2, 0)],
            [2, 2, 2, 0, 5, 5, 1, 0, 1 << 19, 0],
            "into a wall",
        )?;
        plays(
            &rt,
            [2, 2, 2, 0, 5, 2, 4, 0, 1 << 19, 0],
            &[(8, 8)],
            [2, 2, 2, 0, 5, 2, 4, 0, 1 << 19, 0],
            "a wall between",
        )?;
        plays(
            &rt,
            [2, 2, 2, 0, 5, 2, 4, 0, 0, 0],
            &[(8, 8)],
            [2, 2, 2, 1, 5, 2, 4, 1, 0, 0],
            "both hit",
        )?;
        plays(
            &rt,
            [2, 2, 2, 65_535, 3, 2, 4, 7, 0, 0],
            &[(8, 0)],
            [2, 2, 2, 65_535, 3, 2, 4, 7, 0, 0],
            "a score at its top",
        )?;
        plays(
            &rt,
            [2, 2, 1, 0, 3, 5, 1, 0, 0, 0],
            &[(2, 9)],
            [3, 2, 2, 0, 3, 4, 1, 1, 0, 0],
            "fire from the new cell at the new cell",
        )
    }
}
