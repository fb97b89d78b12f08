// A seat by itself: the marked cases, and forged datagrams for every refusal at its edge, each answer told by its number
// in the table.
use crate::seat_tests::{Forged, GOOD, Lent, Report, TestSeat};
use duel::state::Duel;
use interface::game::Game;
use interface::guess::GuessRule;
use interface::keeper::Keeper;
use keepers::guesses::{Hold, Still};
use keepers::snapshots::Snapshots;
use keepers::trails::Trails;
use seat::state::Slots;
use speed::game::Speed;
use std::process::Abort;
use std::test::*;

// Takes a forged datagram: the code and the frames replayed.
fn takes<G: Game, K: Keeper<G>, H: GuessRule<G::Input>>(
    rt: &impl Abort,
    seat: &mut TestSeat<G, K, H>,
    forged: Forged<'_>,
    answer: (u32, u32),
) -> Result<(), Fail> {
    let bytes = seat.forge(forged)?;
    let other = seat.other();
    assert_eq!(rt;
        seat.take(bytes.as_slice()),
        answer,
        "of seat {other}: {forged:?}"
    );
    Ok(())
}

// Presses a code so many times, each time accepted.
fn presses<G: Game, K: Keeper<G>, H: GuessRule<G::Input>>(
    rt: &impl Abort,
    seat: &mut TestSeat<G, K, H>,
    code: u16,
    times: u32,
) {
    let other = seat.other();
    for k in 0..times {
        assert_eq!(rt;
            seat.press(code),
            0,
            "press {k} of code {code} against seat {other}"
        );
    }
}

// At P 3, R 0 and A 0: each refusal at its edge leaves the counts and the state.
fn refused<G: Game, K: Keeper<G>, H: GuessRule<G::Input>>(
    rt: &impl Abort,
    seat: &mut TestSeat<G, K, H>,
    good: Forged<'_>,
) -> Result<(), Fail> {
    let newest = seat.seat.digest();
    let other = seat.other();
    for (forged, answer) in [
        (
            Forged {
                match_number: 8,
                ..good
            },
            4,
        ),
        (Forged { sender: 1, ..good }, 4),
        (
            Forged {
                sender: 2 ^ other,
                ..good
            },
            4,
        ),
        (
            Forged {
                codes: &[999],
                ..good
            },
            5,
        ),
        (Forged { start: 1, ..good }, 6),
        (
            Forged {
                codes: &[0; 12],
                ..good
            },
            7,
        ),
        (
            Forged {
                acknowledgement: 4,
                ..good
            },
            8,
        ),
        (
            Forged {
                report_frame: 4,
                ..good
            },
            9,
        ),
        (
            Forged {
                report_frame: 1,
                ..good
            },
            9,
        ),
        (
            Forged {
                report_frame: 3,
                codes: &[0; 2],
                ..good
            },
            9,
        ),
    ] {
        takes(rt, seat, forged, (answer, 0))?;
        assert_eq!(rt;
            seat.counts(),
            (3, 0, 0),
            "after {forged:?} of seat {other}"
        );
        assert_eq!(rt;
            seat.seat.digest(),
            newest,
            "after {forged:?} of seat {other}"
        );
    }
    Ok(())
}

// Damaged bytes, at any counts.
fn damaged<G: Game, K: Keeper<G>, H: GuessRule<G::Input>>(
    rt: &impl Abort,
    seat: &mut TestSeat<G, K, H>,
    good: Forged<'_>,
) -> Result<(), Fail> {
    let whole = seat.forge(good)?;
    for (place, byte, length, answer) in [
        (0, 82, 20, 1),
        (10, 33, 21, 1),
        (10, 1, 21, 1),
        (0, 83, 21, 2),
        (3, 2, 21, 2),
        (20, 255, 21, 3),
        (15, 255, 21, 3),
    ] {
        let mut bytes = whole;
        bytes.buffer[place] = byte;
        bytes.length = length;
        assert_eq!(rt;
            seat.take(bytes.as_slice()),
            (answer, 0),
            "byte {place} made {byte}, of {length} bytes"
        );
    }
    let mut few = [0; 31];
    let slots = Slots {
        digests: &mut few,
        ..seat.lent.slots()
    };
    assert_eq!(rt;
        seat.seat.take(slots, whole.as_slice()),
        (20, 0),
        "31 digests"
    );
    Ok(())
}

// A seat against forged datagrams: refused, accepted, and parted.
fn forged_datagrams<G: Game, K: Keeper<G> + Drop, H: GuessRule<G::Input> + Drop>(
    rt: &impl Abort,
    second: bool,
    lent: Lent<G::Input>,
    code: u16,
) -> Result<Lent<G::Input>, Fail> {
    let mut seat = TestSeat::<G, K, H>::open(second, 5, lent)?;
    let opening = seat.seat.digest();
    let good = Forged {
        digest: Report::Digest(opening),
        ..GOOD
    };
    presses(rt, &mut seat, 0, 3);
    refused(rt, &mut seat, good)?;
    damaged(rt, &mut seat, good)?;
    takes(
        rt,
        &mut seat,
        Forged {
            codes: &[0; 11],
            acknowledgement: 3,
            ..good
        },
        (0, 0),
    )?;
    assert_eq!(rt;
        seat.counts(),
        (3, 11, 3),
        "eleven codes, second seat: {second}"
    );
    // A late datagram lowers nothing.
    takes(rt, &mut seat, good, (0, 0))?;
    assert_eq!(rt;
        seat.counts(),
        (3, 11, 3),
        "a late datagram, second seat: {second}"
    );
    takes(
        rt,
        &mut seat,
        Forged {
            digest: Report::Digest(opening ^ 1),
            ..good
        },
        (30, 0),
    )?;
    assert!(rt; seat.seat.has_parted(), "second seat: {second}");
    takes(rt, &mut seat, good, (10, 0))?;
    assert_eq!(rt;
        seat.press(code),
        10,
        "a press after parting, second seat: {second}"
    );
    Ok(seat.into_lent())
}

// A seat that guessed wrong and is told another digest: parted, with frames replayed.
fn parted_after_replay<G: Game, K: Keeper<G> + Drop, H: GuessRule<G::Input> + Drop>(
    rt: &impl Abort,
    second: bool,
    lent: Lent<G::Input>,
    code: u16,
) -> Result<Lent<G::Input>, Fail> {
    let mut seat = TestSeat::<G, K, H>::open(second, 5, lent)?;
    let opening = seat.seat.digest();
    presses(rt, &mut seat, code, 8);
    assert_eq!(rt;
        seat.press(code),
        12,
        "a press too far ahead, second seat: {second}"
    );
    assert_eq!(rt;
        seat.press(999),
        5,
        "a press that does not read, second seat: {second}"
    );
    let codes = [code; 3];
    let forged = Forged {
        codes: &codes,
        digest: Report::Digest(opening ^ 1),
        ..GOOD
    };
    takes(rt, &mut seat, forged, (30, 8))?;
    assert_eq!(rt; seat.counts(), (8, 3, 0), "parted, second seat: {second}");
    Ok(seat.into_lent())
}

// A seat whose inputs are never acknowledged: 13 at A + 32.
fn unacknowledged<G: Game, K: Keeper<G> + Drop, H: GuessRule<G::Input> + Drop>(
    rt: &impl Abort,
    second: bool,
    lent: Lent<G::Input>,
    code: u16,
) -> Result<Lent<G::Input>, Fail> {
    let mut seat = TestSeat::<G, K, H>::open(second, 5, lent)?;
    let good = Forged {
        digest: Report::Digest(seat.seat.digest()),
        ..GOOD
    };
    for start in [0, 8, 16, 24] {
        takes(
            rt,
            &mut seat,
            Forged {
                start,
                codes: &[0; 8],
                ..good
            },
            (0, 0),
        )?;
        presses(rt, &mut seat, code, 8);
    }
    assert_eq!(rt;
        seat.press(code),
        13,
        "a press at A + 32, second seat: {second}"
    );
    takes(
        rt,
        &mut seat,
        Forged {
            acknowledgement: 1,
            ..good
        },
        (0, 0),
    )?;
    assert_eq!(rt;
        seat.press(code),
        0,
        "a press at A + 31, second seat: {second}"
    );
    Ok(seat.into_lent())
}

// All of these for one game, keeper and rule, at one seat.
fn seat_holds<G: Game, K: Keeper<G> + Drop, H: GuessRule<G::Input> + Drop>(
    rt: &impl Abort,
    second: bool,
    lent: Lent<G::Input>,
    code: u16,
) -> Result<(), Fail> {
    let lent = forged_datagrams::<G, K, H>(rt, second, lent, code)?;
    let lent = parted_after_replay::<G, K, H>(rt, second, lent, code)?;
    let _ = unacknowledged::<G, K, H>(rt, second, lent, code)?;
    Ok(())
}

#[test]
fn duel_seats(rt: HostRuntime) -> Result<(), Fail> {
    seat_holds::<Duel, Snapshots<Duel>, Hold>(&rt, false, Lent::new(rt.alloc())?, 8)?;
    seat_holds::<Duel, Trails<Duel>, Still>(&rt, true, Lent::new(rt.alloc())?, 2)
}

#[test]
fn speed_seats(rt: HostRuntime) -> Result<(), Fail> {
    seat_holds::<Speed, Trails<Speed>, Hold>(&rt, true, Lent::new(rt.alloc())?, 11)?;
    seat_holds::<Speed, Snapshots<Speed>, Still>(&rt, false, Lent::new(rt.alloc())?, 3)
}

// Hold, at P 3 and R 0: codes 0 and 1 from frame 0 replay two frames, codes 0 and 0 none.
#[test]
fn hold_replays_from_the_change(rt: HostRuntime) -> Result<(), Fail> {
    for (last, frames) in [(1, 2), (0, 0)] {
        let mut seat = TestSeat::<Duel, Snapshots<Duel>, Hold>::open(
            false,
            0,
            Lent::new(rt.alloc())?,
        )?;
        presses(&rt, &mut seat, 0, 3);
        let codes = [0, last];
        let forged = Forged {
            codes: &codes,
            digest: Report::Digest(202),
            ..GOOD
        };
        takes(&rt, &mut seat, forged, (0, frames))?;
    }
    Ok(())
}
