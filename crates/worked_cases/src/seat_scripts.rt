// A seat by itself: scripts of presses, sends and forged datagrams for every answer at its edge, at both seats, with both
// games, keepers and guess rules.
use crate::seat_tests::{Bytes, Forged, GOOD, Lent, Queue, Report, TestSeat};
use duel::state::Duel;
use interface::answers::{Acceptance, Refusal};
use interface::game::Game;
use interface::guess::GuessRule;
use interface::keeper::Keeper;
use keepers::guesses::{Hold, Still};
use keepers::snapshots::Snapshots;
use keepers::trails::Trails;
use speed::game::Speed;
use std::process::Abort;
use std::test::*;

// A way to damage the bytes of a datagram.
#[derive(Clone, Copy, Debug)]
enum Damage {
    // Bits turned in the byte at a place.
    Turned(usize, u8),
    // So many bytes left out at the end.
    Cut(usize),
}

impl Damage {
    fn done_to(self, bytes: &mut Bytes) {
        match self {
            Damage::Turned(place, bits) => {
                if let Some(byte) = bytes.buffer.get_mut(place) {
                    *byte ^= bits;
                }
            }
            Damage::Cut(left_out) => bytes.length = bytes.length.saturating_sub(left_out),
        }
    }
}

// A step of a script, and what it must answer.
#[derive(Clone, Copy, Debug)]
enum Step {
    // A code pressed so many times: the last answer.
    Press(u16, u32, Result<(), Refusal>),
    // A datagram taken: how it is accepted and the frames replayed.
    Take(Forged<'static>, Result<(Acceptance, u32), Refusal>),
    // A datagram taken whose bytes are damaged.
    Damaged(Forged<'static>, &'static [Damage], Refusal),
    // A datagram accepted that brings nothing.
    Late(Forged<'static>),
    // A send into a buffer of some length: the datagram's length.
    Send(usize, Result<u32, Refusal>),
    // So many times eight known inputs of the other seat, all own inputs acknowledged, and eight presses.
    Ahead(u32),
    // Every call with half the slots of one queue is refused.
    Unlent(Queue),
    // P, R and A.
    Counts(u32, u32, u32),
}

impl Step {
    // Whether it must leave the seat and its slots as they were.
    fn leaves_all(self) -> bool {
        match self {
            Step::Press(_, _, answer) => answer.is_err(),
            Step::Take(_, answer) => answer.is_err(),
            Step::Ahead(_) => false,
            Step::Damaged(..)
            | Step::Late(_)
            | Step::Send(..)
            | Step::Unlent(_)
            | Step::Counts(..) => true,
        }
    }
}

// Which calls a seat is asked by.
#[derive(Clone, Copy, Debug)]
enum Asked {
    // `try_press` and `try_take`, which answer Results.
    ForResults,
    // `press` and `take`, which tell the numbers of the table.
    ForNumbers,
}

// Steps that are made from a fresh seat on.
struct Script {
    name: &'static str,
    steps: &'static [Step],
}

// What a failed assertion names.
#[derive(Clone, Copy, Debug)]
struct Case {
    keeper: &'static str,
    rule: &'static str,
    second: bool,
    asked: Asked,
    script: &'static str,
    step: Step,
}

// Every answer at its edge, and of two that are due the first.
static SCRIPTS: [Script; 7] = [
    // At P 3, R 0 and A 0.
    Script {
        name: "refusals at P 3, R 0 and A 0, and after parting",
        steps: &[
            Step::Press(0, 3, Ok(())),
            Step::Damaged(GOOD, &[Damage::Cut(1)], Refusal::BadLength),
            Step::Damaged(GOOD, &[Damage::Cut(21)], Refusal::BadLength),
            Step::Damaged(GOOD, &[Damage::Turned(10, 33)], Refusal::BadLength),
            Step::Damaged(GOOD, &[Damage::Turned(10, 1)], Refusal::BadLength),
            Step::Damaged(
                GOOD,
                &[Damage::Turned(0, 1), Damage::Cut(1)],
                Refusal::BadLength,
            ),
            Step::Damaged(GOOD, &[Damage::Turned(0, 1)], Refusal::BadMark),
            Step::Damaged(GOOD, &[Damage::Turned(3, 3)], Refusal::BadMark),
            Step::Damaged(GOOD, &[Damage::Turned(4, 1)], Refusal::BadMark),
            Step::Damaged(GOOD, &[Damage::Turned(20, 1)], Refusal::BadCheckWord),
            Step::Damaged(GOOD, &[Damage::Turned(15, 255)], Refusal::BadCheckWord),
            Step::Damaged(
                Forged {
                    match_number: 8,
                    ..GOOD
                },
                &[Damage::Turned(19, 1)],
                Refusal::BadCheckWord,
            ),
            Step::Take(
                Forged {
                    match_number: 8,
                    ..GOOD
                },
                Err(Refusal::NotOurs),
            ),
            Step::Take(Forged { sender: 1, ..GOOD }, Err(Refusal::NotOurs)),
            Step::Take(Forged { sender: 2, ..GOOD }, Err(Refusal::NotOurs)),
            Step::Take(
                Forged {
                    match_number: 8,
                    codes: &[999],
                    ..GOOD
                },
                Err(Refusal::NotOurs),
            ),
            Step::Take(
                Forged {
                    codes: &[999],
                    ..GOOD
                },
                Err(Refusal::UnreadCode),
            ),
            Step::Take(
                Forged {
                    start: 1,
                    codes: &[999],
                    ..GOOD
                },
                Err(Refusal::UnreadCode),
            ),
            Step::Take(Forged { start: 1, ..GOOD }, Err(Refusal::StartTooLate)),
            Step::Take(
                Forged {
                    start: 1,
                    codes: &[0; 12],
                    ..GOOD
                },
                Err(Refusal::StartTooLate),
            ),
            Step::Take(
                Forged {
                    codes: &[0; 12],
                    ..GOOD
                },
                Err(Refusal::EndTooLate),
            ),
            Step::Take(
                Forged {
                    codes: &[0; 12],
                    acknowledgement: 4,
                    ..GOOD
                },
                Err(Refusal::EndTooLate),
            ),
            Step::Take(
                Forged {
                    acknowledgement: 4,
                    ..GOOD
                },
                Err(Refusal::AcknowledgementTooLate),
            ),
            Step::Take(
                Forged {
                    acknowledgement: 4,
                    report_frame: 4,
                    ..GOOD
                },
                Err(Refusal::AcknowledgementTooLate),
            ),
            Step::Take(
                Forged {
                    codes: &[0; 11],
                    report_frame: 4,
                    ..GOOD
                },
                Err(Refusal::ReportTooLate),
            ),
            Step::Take(
                Forged {
                    report_frame: 1,
                    ..GOOD
                },
                Err(Refusal::ReportTooLate),
            ),
            Step::Take(
                Forged {
                    codes: &[0; 2],
                    report_frame: 3,
                    ..GOOD
                },
                Err(Refusal::ReportTooLate),
            ),
            Step::Unlent(Queue::Own),
            Step::Unlent(Queue::Other),
            Step::Unlent(Queue::Digests),
            Step::Press(999, 1, Err(Refusal::UnreadCode)),
            Step::Counts(3, 0, 0),
            Step::Take(
                Forged {
                    codes: &[0; 11],
                    acknowledgement: 3,
                    report_frame: 3,
                    ..GOOD
                },
                Ok((Acceptance::Accepted, 0)),
            ),
            Step::Counts(3, 11, 3),
            // A code that is not read is refused as the last of three too, and where the frames are known.
            Step::Take(
                Forged {
                    codes: &[0, 0, 999],
                    ..GOOD
                },
                Err(Refusal::UnreadCode),
            ),
            Step::Take(
                Forged {
                    codes: &[13],
                    ..GOOD
                },
                Err(Refusal::UnreadCode),
            ),
            Step::Late(GOOD),
            Step::Late(Forged {
                codes: &[2; 3],
                ..GOOD
            }),
            Step::Late(Forged {
                start: 2,
                codes: &[3; 9],
                acknowledgement: 1,
                ..GOOD
            }),
            Step::Send(20, Err(Refusal::BufferTooShort)),
            Step::Send(21, Ok(21)),
            Step::Send(100, Ok(21)),
            Step::Take(
                Forged {
                    digest: Report::Held(1),
                    ..GOOD
                },
                Ok((Acceptance::AcceptedAndParted, 0)),
            ),
            Step::Counts(3, 11, 3),
            Step::Press(2, 1, Err(Refusal::Parted)),
            Step::Press(999, 1, Err(Refusal::Parted)),
            Step::Take(GOOD, Err(Refusal::Parted)),
            Step::Damaged(GOOD, &[Damage::Cut(1)], Refusal::Parted),
            Step::Unlent(Queue::Own),
            Step::Unlent(Queue::Digests),
            Step::Send(20, Err(Refusal::BufferTooShort)),
            Step::Send(21, Ok(21)),
        ],
    },
    // The lowest changed frame, known or guessed: codes 0 and 0 from frame 0 change none.
    Script {
        name: "codes that were guessed",
        steps: &[
            Step::Press(0, 3, Ok(())),
            Step::Take(
                Forged {
                    codes: &[0; 2],
                    ..GOOD
                },
                Ok((Acceptance::Accepted, 0)),
            ),
        ],
    },
    Script {
        name: "codes that were guessed, with the report on the datagram's end",
        steps: &[
            Step::Press(0, 3, Ok(())),
            Step::Take(
                Forged {
                    codes: &[0; 2],
                    report_frame: 2,
                    ..GOOD
                },
                Ok((Acceptance::Accepted, 0)),
            ),
        ],
    },
    // Codes 0 and 1 from frame 0 change frames 1 and 2.
    Script {
        name: "codes that were not guessed",
        steps: &[
            Step::Press(0, 3, Ok(())),
            Step::Take(
                Forged {
                    codes: &[0, 1],
                    ..GOOD
                },
                Ok((Acceptance::Accepted, 2)),
            ),
            // Other codes for known frames are neither kept nor compared.
            Step::Late(Forged {
                codes: &[3; 2],
                ..GOOD
            }),
            Step::Counts(3, 2, 0),
            // A report is on R at most, where the datagram ends before it.
            Step::Late(Forged {
                report_frame: 2,
                ..GOOD
            }),
            Step::Take(
                Forged {
                    report_frame: 3,
                    ..GOOD
                },
                Err(Refusal::ReportTooLate),
            ),
            Step::Take(
                Forged {
                    start: 2,
                    codes: &[3],
                    ..GOOD
                },
                Ok((Acceptance::Accepted, 1)),
            ),
            Step::Take(
                Forged {
                    start: 3,
                    codes: &[2; 8],
                    acknowledgement: 3,
                    ..GOOD
                },
                Ok((Acceptance::Accepted, 0)),
            ),
            Step::Press(2, 8, Ok(())),
            Step::Counts(11, 11, 3),
        ],
    },
    // No input known for 8 frames, and parted with all 8 replayed.
    Script {
        name: "no input known for 8 frames",
        steps: &[
            Step::Press(2, 8, Ok(())),
            Step::Press(2, 1, Err(Refusal::TooFarAhead)),
            Step::Press(999, 1, Err(Refusal::UnreadCode)),
            Step::Send(36, Err(Refusal::BufferTooShort)),
            Step::Send(37, Ok(37)),
            Step::Send(100, Ok(37)),
            Step::Take(
                Forged {
                    codes: &[2; 3],
                    digest: Report::Held(1),
                    ..GOOD
                },
                Ok((Acceptance::AcceptedAndParted, 8)),
            ),
            Step::Counts(8, 3, 0),
            Step::Take(Forged { start: 4, ..GOOD }, Err(Refusal::Parted)),
            Step::Send(37, Ok(37)),
        ],
    },
    // Own inputs that are never acknowledged: too far ahead comes before unacknowledged.
    Script {
        name: "own inputs that are never acknowledged",
        steps: &[
            Step::Take(
                Forged {
                    codes: &[0; 8],
                    ..GOOD
                },
                Ok((Acceptance::Accepted, 0)),
            ),
            Step::Press(2, 8, Ok(())),
            Step::Take(
                Forged {
                    start: 8,
                    codes: &[0; 8],
                    ..GOOD
                },
                Ok((Acceptance::Accepted, 0)),
            ),
            Step::Press(2, 8, Ok(())),
            Step::Take(
                Forged {
                    start: 16,
                    codes: &[0; 8],
                    ..GOOD
                },
                Ok((Acceptance::Accepted, 0)),
            ),
            Step::Press(2, 8, Ok(())),
            Step::Press(2, 8, Ok(())),
            Step::Press(2, 1, Err(Refusal::TooFarAhead)),
            Step::Take(
                Forged {
                    start: 24,
                    codes: &[0; 8],
                    report_frame: 1,
                    ..GOOD
                },
                Ok((Acceptance::Accepted, 0)),
            ),
            Step::Press(2, 1, Err(Refusal::Unacknowledged)),
            Step::Send(84, Err(Refusal::BufferTooShort)),
            Step::Send(85, Ok(85)),
            Step::Take(
                Forged {
                    acknowledgement: 1,
                    ..GOOD
                },
                Ok((Acceptance::Accepted, 0)),
            ),
            Step::Counts(32, 32, 1),
            Step::Press(2, 1, Ok(())),
            Step::Press(2, 1, Err(Refusal::Unacknowledged)),
        ],
    },
    // A report is judged from P − 31 on.
    Script {
        name: "a report on a late state",
        steps: &[
            Step::Ahead(5),
            Step::Counts(40, 40, 32),
            Step::Late(Forged {
                codes: &[2; 32],
                ..GOOD
            }),
            Step::Late(Forged {
                report_frame: 8,
                digest: Report::Held(1),
                ..GOOD
            }),
            Step::Late(Forged {
                report_frame: 9,
                ..GOOD
            }),
            Step::Take(
                Forged {
                    report_frame: 9,
                    digest: Report::Held(1),
                    ..GOOD
                },
                Ok((Acceptance::AcceptedAndParted, 0)),
            ),
            Step::Take(
                Forged {
                    report_frame: 9,
                    ..GOOD
                },
                Err(Refusal::Parted),
            ),
        ],
    },
];

// The end of the match: an unread code comes before the end, and the end before too far ahead.
static LONG: Script = Script {
    name: "the end of the match",
    steps: &[
        Step::Ahead(7_499),
        Step::Counts(59_992, 59_992, 59_984),
        Step::Press(2, 8, Ok(())),
        Step::Press(2, 1, Err(Refusal::MatchOver)),
        Step::Press(999, 1, Err(Refusal::UnreadCode)),
        Step::Take(
            Forged {
                start: 59_992,
                codes: &[0; 9],
                ..GOOD
            },
            Err(Refusal::EndTooLate),
        ),
        Step::Take(
            Forged {
                start: 59_992,
                codes: &[0; 8],
                acknowledgement: 59_999,
                report_frame: 60_000,
                ..GOOD
            },
            Ok((Acceptance::Accepted, 0)),
        ),
        Step::Press(2, 1, Err(Refusal::MatchOver)),
        Step::Take(
            Forged {
                start: 60_000,
                codes: &[0],
                ..GOOD
            },
            Err(Refusal::EndTooLate),
        ),
        Step::Late(Forged {
            start: 60_000,
            report_frame: 60_000,
            ..GOOD
        }),
        Step::Counts(60_000, 60_000, 59_999),
    ],
};

// Press, take and send with half the slots of one queue.
fn unlent<G: Game, K: Keeper<G>, H: GuessRule<G::Input>>(
    rt: &impl Abort,
    seat: &mut TestSeat<G, K, H>,
    queue: Queue,
    case: Case,
) -> Result<(), Fail> {
    assert_eq!(rt;
        seat.seat.try_press(seat.lent.halved(queue), 0),
        Err(Refusal::BadFrame),
        "{case:?}: a press"
    );
    assert_eq!(rt;
        seat.seat.press(seat.lent.halved(queue), 0),
        20,
        "{case:?}: a press by its number"
    );
    for sender in [0, 1] {
        let bytes = seat.forge(Forged { sender, ..GOOD })?;
        assert_eq!(rt;
            seat.seat
                .try_take(seat.lent.halved(queue), bytes.as_slice()),
            Err(Refusal::BadFrame),
            "{case:?}: a take, sender {sender}"
        );
        assert_eq!(rt;
            seat.seat.take(seat.lent.halved(queue), bytes.as_slice()),
            (20, 0),
            "{case:?}: a take by its number, sender {sender}"
        );
    }
    let mut buffer = [170; 100];
    assert_eq!(rt;
        seat.seat
            .try_send(seat.lent.halved(queue), &mut buffer[..85]),
        Err(Refusal::BadFrame),
        "{case:?}: a send"
    );
    assert_eq!(rt;
        seat.seat.send(seat.lent.halved(queue), &mut buffer[..85]),
        (20, 0),
        "{case:?}: a send by its number"
    );
    assert_eq!(rt; buffer, [170; 100], "{case:?}: a send");
    Ok(())
}

// Presses a code so many times: each but the last is accepted.
fn presses<G: Game, K: Keeper<G>, H: GuessRule<G::Input>>(
    rt: &impl Abort,
    seat: &mut TestSeat<G, K, H>,
    (code, times): (u16, u32),
    answer: Result<(), Refusal>,
    case: Case,
) {
    for time in 1..=times {
        let answer = if time < times { Ok(()) } else { answer };
        match case.asked {
            Asked::ForResults => {
                assert_eq!(rt; seat.try_press(code), answer, "{case:?}: press {time}")
            }
            Asked::ForNumbers => {
                let number = answer.map_or_else(Refusal::number, |()| 0);
                assert_eq!(rt; seat.press(code), number, "{case:?}: press {time}");
            }
        }
    }
}

// Takes the bytes of a datagram.
fn takes<G: Game, K: Keeper<G>, H: GuessRule<G::Input>>(
    rt: &impl Abort,
    seat: &mut TestSeat<G, K, H>,
    bytes: &[u8],
    answer: Result<(Acceptance, u32), Refusal>,
    case: Case,
) {
    match case.asked {
        Asked::ForResults => assert_eq!(rt; seat.try_take(bytes), answer, "{case:?}"),
        Asked::ForNumbers => {
            let numbers = match answer {
                Ok((how, frames)) => (how.number(), frames),
                Err(why) => (why.number(), 0),
            };
            assert_eq!(rt; seat.take(bytes), numbers, "{case:?}");
        }
    }
}

// Eight known inputs of the other seat, all own inputs acknowledged, and eight presses.
fn ahead<G: Game, K: Keeper<G>, H: GuessRule<G::Input>>(
    rt: &impl Abort,
    seat: &mut TestSeat<G, K, H>,
    case: Case,
) -> Result<(), Fail> {
    let (played, known, _) = seat.counts();
    let bytes = seat.forge(Forged {
        start: u16::try_from(known)?,
        codes: &[0; 8],
        acknowledgement: u16::try_from(played)?,
        ..GOOD
    })?;
    let accepted = Ok((Acceptance::Accepted, 0));
    takes(rt, seat, bytes.as_slice(), accepted, case);
    presses(rt, seat, (2, 8), Ok(()), case);
    Ok(())
}

// Makes a step, and checks its answer.
fn answers<G: Game, K: Keeper<G>, H: GuessRule<G::Input>>(
    rt: &impl Abort,
    seat: &mut TestSeat<G, K, H>,
    case: Case,
) -> Result<(), Fail> {
    match case.step {
        Step::Press(code, times, answer) => presses(rt, seat, (code, times), answer, case),
        Step::Take(forged, answer) => {
            let bytes = seat.forge(forged)?;
            takes(rt, seat, bytes.as_slice(), answer, case);
        }
        Step::Damaged(forged, damages, why) => {
            let mut bytes = seat.forge(forged)?;
            for damage in damages {
                damage.done_to(&mut bytes);
            }
            takes(rt, seat, bytes.as_slice(), Err(why), case);
        }
        Step::Late(forged) => {
            let bytes = seat.forge(forged)?;
            let accepted = Ok((Acceptance::Accepted, 0));
            takes(rt, seat, bytes.as_slice(), accepted, case);
        }
        Step::Send(room, answer) => {
            let mut buffer = [170; 100];
            let room = room.min(buffer.len());
            assert_eq!(rt; seat.try_send(&mut buffer[..room]), answer, "{case:?}");
            let number = answer.map_or_else(Refusal::number, |_| 0);
            assert_eq!(rt;
                seat.send(&mut buffer[..room]),
                (number, answer.unwrap_or(0)),
                "{case:?} by its number"
            );
            for byte in buffer.iter().skip(answer.unwrap_or(0) as usize) {
                assert_eq!(rt; *byte, 170, "{case:?} writes past the datagram");
            }
        }
        Step::Ahead(times) => {
            for _ in 0..times {
                ahead(rt, seat, case)?;
            }
        }
        Step::Unlent(queue) => unlent(rt, seat, queue, case)?,
        Step::Counts(played, known, acknowledged) => {
            assert_eq!(rt; seat.counts(), (played, known, acknowledged), "{case:?}");
        }
    }
    Ok(())
}

// Makes the steps of a script on a fresh seat.
fn run<G: Game, K: Keeper<G> + Drop, H: GuessRule<G::Input> + Drop>(
    rt: &impl Abort,
    keeper: &'static str,
    rule: &'static str,
    second: bool,
    asked: Asked,
    lent: Lent<G::Input>,
    script: &Script,
) -> Result<Lent<G::Input>, Fail> {
    let mut seat = TestSeat::<G, K, H>::open(second, 0, lent)?;
    for step in script.steps {
        let case = Case {
            keeper,
            rule,
            second,
            asked,
            script: script.name,
            step: *step,
        };
        let before = seat.seen();
        answers(rt, &mut seat, case)?;
        if step.leaves_all() {
            assert_eq!(rt; seat.seen(), before, "{case:?} changes the seat");
        }
    }
    Ok(seat.into_lent())
}

// The scripts at both seats, by both kinds of calls.
fn both_seats<G: Game, K: Keeper<G> + Drop, H: GuessRule<G::Input> + Drop>(
    rt: &impl Abort,
    keeper: &'static str,
    rule: &'static str,
    mut lent: Lent<G::Input>,
) -> Result<Lent<G::Input>, Fail> {
    for asked in [Asked::ForResults, Asked::ForNumbers] {
        for second in [false, true] {
            for script in &SCRIPTS {
                lent = run::<G, K, H>(rt, keeper, rule, second, asked, lent, script)?;
            }
        }
    }
    Ok(lent)
}

// The scripts at both seats with both guess rules. The keeper is a parameter, since one made of a game `G` would owe that it is not too
// large.
fn both_rules<G: Game, K: Keeper<G> + Drop>(
    rt: &impl Abort,
    keeper: &'static str,
    mut lent: Lent<G::Input>,
) -> Result<Lent<G::Input>, Fail> {
    lent = both_seats::<G, K, Hold>(rt, keeper, "hold", lent)?;
    both_seats::<G, K, Still>(rt, keeper, "still", lent)
}

#[test]
fn duel_seats(rt: HostRuntime) -> Result<(), Fail> {
    let mut lent = Lent::new(rt.alloc())?;
    lent = both_rules::<Duel, Snapshots<Duel>>(&rt, "snapshots", lent)?;
    lent = both_rules::<Duel, Trails<Duel>>(&rt, "trails", lent)?;
    for asked in [Asked::ForResults, Asked::ForNumbers] {
        lent = run::<Duel, Trails<Duel>, Hold>(&rt, "trails", "hold", true, asked, lent, &LONG)?;
    }
    Ok(())
}

#[test]
fn speed_seats(rt: HostRuntime) -> Result<(), Fail> {
    let mut lent = Lent::new(rt.alloc())?;
    lent = both_rules::<Speed, Snapshots<Speed>>(&rt, "snapshots", lent)?;
    lent = both_rules::<Speed, Trails<Speed>>(&rt, "trails", lent)?;
    for asked in [Asked::ForResults, Asked::ForNumbers] {
        lent = run::<Speed, Snapshots<Speed>, Still>(
            &rt,
            "snapshots",
            "still",
            false,
            asked,
            lent,
            &LONG,
        )?;
    }
    Ok(())
}

// Seat 0 of match 7 at seed 0, after presses 2 and 10: the datagram byte for byte.
#[test]
fn worked_send(rt: HostRuntime) -> Result<(), Fail> {
    let mut seat = TestSeat::<Duel, Snapshots<Duel>, Hold>::open(false, 0, Lent::new(rt.alloc())?)?;
    for code in [2, 10] {
        assert_eq!(rt; seat.press(code), 0, "code {code}");
    }
    let mut buffer = [170; 26];
    assert_eq!(rt; seat.send(&mut buffer), (0, 25));
    assert_eq!(rt;
        buffer,
        [
            82, 66, 75, 1, 0, 0, 7, 0, 0, 0, 2, 0, 0, 0, 0, 202, 0, 0, 0, 2, 0, 10, 0, 166, 15, 170,
        ]
    );
    Ok(())
}

// The answers of the scripts have these numbers in the table.
#[test]
fn numbers_in_the_table(rt: HostRuntime) -> Result<(), Fail> {
    for (how, number) in [
        (Acceptance::Accepted, 0),
        (Acceptance::AcceptedAndParted, 30),
    ] {
        assert_eq!(rt; how.number(), number, "{how:?}");
    }
    for (why, number) in [
        (Refusal::BadLength, 1),
        (Refusal::BadMark, 2),
        (Refusal::BadCheckWord, 3),
        (Refusal::NotOurs, 4),
        (Refusal::UnreadCode, 5),
        (Refusal::StartTooLate, 6),
        (Refusal::EndTooLate, 7),
        (Refusal::AcknowledgementTooLate, 8),
        (Refusal::ReportTooLate, 9),
        (Refusal::Parted, 10),
        (Refusal::MatchOver, 11),
        (Refusal::TooFarAhead, 12),
        (Refusal::Unacknowledged, 13),
        (Refusal::BufferTooShort, 14),
        (Refusal::BadFrame, 20),
    ] {
        assert_eq!(rt; why.number(), number, "{why:?}");
    }
    Ok(())
}
