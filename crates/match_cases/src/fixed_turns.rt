// Fixed turns: the order of the answers, what a refusal leaves, and a short match by hand.
use crate::calling::{BothLent, Lent, SLOTS, UNTOLD, call, open};
use duel::input::DuelInput;
use duel::state::Duel;
use interface::answers::Refusal;
use interface::keeper::Keeper;
use keepers::guesses::{Hold, Still};
use keepers::snapshots::Snapshots;
use keepers::trails::Trails;
use match_engine::log::Record;
use match_engine::state::Match;
use play::playing::play;
use play::turns::{Call, Told, Turn};
use std::process::Abort;
use std::test::Fail;

type DuelMatch = Match<Duel, Snapshots<Duel>, Trails<Duel>, Hold, Still>;

// Code, frames replayed, P and R.
type Row = (u32, u32, u32, u32);

// A turn that is lent its slots, and 2 records.
fn turn(seat: u32, call: Call) -> Turn {
    Turn {
        seat,
        call,
        own: 32,
        other: 32,
        digests: 32,
        records: 2,
    }
}

fn press(seat: u32, code: u16) -> Turn {
    turn(seat, Call::Press(code))
}

fn send(seat: u32) -> Turn {
    turn(seat, Call::Send)
}

fn take(seat: u32, k: u32) -> Turn {
    turn(seat, Call::Take(k))
}

// A turn that is lent other numbers of slots and records.
fn lent(turn: Turn, own: usize, other: usize, digests: usize, records: usize) -> Turn {
    Turn {
        own,
        other,
        digests,
        records,
        ..turn
    }
}

// Plays turns of Duel with 40 slots of each kind and 2 records, and compares what is told.
fn play_rows(rt: &impl Abort, turns: &[Turn], rows: &[Row]) -> Result<DuelMatch, Fail> {
    let mut slots = BothLent::new();
    let mut log = [Record::empty(); 2];
    let mut told = [UNTOLD; 40];
    let game = play::<Duel, Snapshots<Duel>, Trails<Duel>, Hold, Still>(
        7,
        0,
        slots.first.front(SLOTS, SLOTS, SLOTS),
        slots.second.front(SLOTS, SLOTS, SLOTS),
        &mut log,
        turns,
        &mut told,
    )
    .map_err(|why| Fail::new(why.number()))?;
    same_rows(rt, &told, rows);
    Ok(game)
}

// What is told, row by row, and nothing after.
fn same_rows(rt: &impl Abort, told: &[Told], rows: &[Row]) {
    for (i, told) in told.iter().enumerate() {
        let row = rows.get(i).map_or(
            UNTOLD,
            |&(code, frames, played, known)| Told {
                code,
                frames,
                played,
                known,
            },
        );
        assert_eq!(rt; *told, row, "turn {i}");
    }
}

#[test]
fn worked_match(rt: HostRuntime) -> Result<(), Fail> {
    let game = play_rows(
        &rt,
        &[
            press(0, 2),
            press(0, 10),
            send(0),
            take(1, 0),
            press(1, 1),
            send(1),
            take(0, 1),
        ],
        &[
            (0, 0, 1, 0),
            (0, 0, 2, 0),
            (0, 0, 2, 0),
            (0, 0, 0, 2),
            (0, 0, 1, 2),
            (0, 0, 1, 2),
            (0, 2, 2, 1),
        ],
    )?;
    let seat = game.first();
    assert_eq!(rt;
        (seat.played(), seat.known(), seat.acknowledged()),
        (2, 1, 2)
    );
    assert_eq!(rt; (seat.confirmed(), seat.digest()), (1, 143));
    let seat = game.second();
    assert_eq!(rt;
        (seat.played(), seat.known(), seat.acknowledged()),
        (1, 2, 0)
    );
    assert_eq!(rt; (seat.confirmed(), seat.digest()), (1, 153));
    Ok(())
}

// The seat's number before the slots, and these before the log and the code.
#[test]
fn answers_in_order(rt: HostRuntime) -> Result<(), Fail> {
    let _ = play_rows(
        &rt,
        &[
            lent(press(2, 999), 0, 0, 0, 0),
            lent(send(2), 31, 32, 32, 0),
            take(u32::MAX, 9),
            lent(press(0, 999), 31, 32, 32, 2),
            lent(send(0), 32, 33, 32, 0),
            lent(take(1, 5), 32, 32, 0, 0),
            lent(take(1, 5), 32, 32, 33, 0),
            lent(send(1), 0, 0, 0, 2),
            press(0, 999),
            lent(send(0), 32, 32, 32, 0),
            take(1, 0),
        ],
        &[
            (21, 0, 0, 0),
            (21, 0, 0, 0),
            (21, 0, 0, 0),
            (20, 0, 0, 0),
            (20, 0, 0, 0),
            (20, 0, 0, 0),
            (20, 0, 0, 0),
            (20, 0, 0, 0),
            (5, 0, 0, 0),
            (18, 0, 0, 0),
            (17, 0, 0, 0),
        ],
    )?;
    Ok(())
}

// A log of 2 records, and of fewer.
#[test]
fn log_of_two(rt: HostRuntime) -> Result<(), Fail> {
    let game = play_rows(
        &rt,
        &[
            send(0),
            take(1, 1),
            take(0, 0),
            lent(take(1, 0), 32, 32, 32, 0),
            lent(take(1, 0), 32, 32, 32, 1),
            lent(send(1), 32, 32, 32, 1),
            press(1, 1),
            send(1),
            send(0),
            lent(send(0), 32, 32, 32, 9),
            lent(take(0, 1), 32, 32, 32, 1),
            take(0, 1),
            take(0, 1),
            take(1, 1),
            take(0, 2),
            take(1, u32::MAX),
        ],
        &[
            (0, 0, 0, 0),
            (17, 0, 0, 0),
            (17, 0, 0, 0),
            (17, 0, 0, 0),
            (0, 0, 0, 0),
            (18, 0, 0, 0),
            (0, 0, 1, 0),
            (0, 0, 1, 0),
            (18, 0, 0, 0),
            (18, 0, 0, 0),
            (17, 0, 0, 0),
            (0, 0, 0, 1),
            (0, 0, 0, 1),
            (17, 0, 1, 0),
            (17, 0, 0, 1),
            (17, 0, 1, 0),
        ],
    )?;
    assert_eq!(rt; game.sent(), 2);
    Ok(())
}

// A seat plays 8 frames past the inputs that it knows, and replays them all. A code that does not read comes before 12.
#[test]
fn eight_frames_ahead(rt: HostRuntime) -> Result<(), Fail> {
    let _ = play_rows(
        &rt,
        &[
            press(1, 8),
            send(1),
            press(0, 1),
            press(0, 1),
            press(0, 1),
            press(0, 1),
            press(0, 1),
            press(0, 1),
            press(0, 1),
            press(0, 1),
            press(0, 1),
            press(0, 5),
            take(0, 0),
            press(0, 1),
            press(0, 1),
        ],
        &[
            (0, 0, 1, 0),
            (0, 0, 1, 0),
            (0, 0, 1, 0),
            (0, 0, 2, 0),
            (0, 0, 3, 0),
            (0, 0, 4, 0),
            (0, 0, 5, 0),
            (0, 0, 6, 0),
            (0, 0, 7, 0),
            (0, 0, 8, 0),
            (12, 0, 8, 0),
            (5, 0, 8, 0),
            (0, 8, 8, 1),
            (0, 0, 9, 1),
            (12, 0, 9, 1),
        ],
    )?;
    Ok(())
}

// P, R and A of both seats, and how many datagrams were sent.
fn counts(game: &DuelMatch) -> ([u32; 6], usize) {
    let first = game.first();
    let second = game.second();
    (
        [
            first.played(),
            first.known(),
            first.acknowledged(),
            second.played(),
            second.known(),
            second.acknowledged(),
        ],
        game.sent(),
    )
}

fn digests(game: &DuelMatch) -> (u32, u32) {
    (game.first().digest(), game.second().digest())
}

// Makes a turn that is refused: all is as it was.
fn refused(
    rt: &impl Abort,
    game: &mut DuelMatch,
    turn: Turn,
    code: u32,
    slots: &mut BothLent<DuelInput>,
    log: &mut [Record; 2],
) {
    let before = (counts(game), digests(game));
    let kept = *slots;
    let records = *log;
    let Turn { seat, .. } = turn;
    assert_eq!(rt; call(game, turn, slots, log), (code, 0), "seat {seat}");
    assert_eq!(rt;
        (counts(game), digests(game)),
        before,
        "seat {seat}, code {code}"
    );
    assert!(rt;
        slots.first == kept.first,
        "slots of seat 0, seat {seat}, code {code}"
    );
    assert!(rt;
        slots.second == kept.second,
        "slots of seat 1, seat {seat}, code {code}"
    );
    assert!(rt; *log == records, "log, seat {seat}, code {code}");
}

// At P 8 of seat 0 and two datagrams sent by it, in a log of two.
fn refused_turns(
    rt: &impl Abort,
    game: &mut DuelMatch,
    slots: &mut BothLent<DuelInput>,
    log: &mut [Record; 2],
) {
    let refusals = [
        (press(2, 1), 21),
        (lent(send(7), 0, 0, 0, 0), 21),
        (lent(press(0, 1), 31, 32, 32, 2), 20),
        (lent(send(0), 32, 0, 32, 2), 20),
        (lent(take(0, 1), 32, 32, 33, 2), 20),
        (press(0, 5), 5),
        (press(0, 1), 12),
        (send(0), 18),
        (take(0, 1), 17),
        (take(0, 2), 17),
        (press(1, 999), 5),
        (send(1), 18),
        (take(1, 2), 17),
        (take(1, u32::MAX), 17),
        (lent(take(1, 1), 32, 32, 32, 1), 17),
        (lent(take(1, 1), 33, 32, 32, 2), 20),
    ];
    for (turn, code) in refusals {
        refused(rt, game, turn, code, slots, log);
    }
}

#[test]
fn refusals_leave_all(rt: HostRuntime) -> Result<(), Fail> {
    let mut slots = BothLent::new();
    let mut log = [Record::empty(); 2];
    let mut game = open::<Duel, Snapshots<Duel>, Trails<Duel>, Hold, Still>(3, &mut slots)?;
    assert_eq!(rt; call(&mut game, send(0), &mut slots, &mut log), (0, 0));
    for code in [1, 2, 3, 4, 9, 10, 11, 12] {
        let answer = call(&mut game, press(0, code), &mut slots, &mut []);
        assert_eq!(rt; answer, (0, 0), "code {code}");
    }
    assert_eq!(rt; call(&mut game, send(0), &mut slots, &mut log), (0, 0));
    assert_eq!(rt; counts(&game), ([8, 0, 0, 0, 0, 0], 2));
    refused_turns(&rt, &mut game, &mut slots, &mut log);
    assert_eq!(rt; call(&mut game, take(1, 1), &mut slots, &mut log), (0, 0));
    assert_eq!(rt; counts(&game), ([8, 0, 0, 0, 8, 0], 2));
    Ok(())
}

const FIRE: DuelInput = DuelInput {
    steer: None,
    fire: true,
};

// Slots and a record with something in them.
fn marked_slots() -> Lent<DuelInput> {
    Lent {
        own: [FIRE; SLOTS],
        other: [FIRE; SLOTS],
        digests: [9; SLOTS],
    }
}

fn marked_record() -> Record {
    let mut record = Record::empty();
    record.sender = true;
    record.len = 4;
    record
}

// Presses and sends at seat 0, with so many slots of each kind. The number of the refusal, or 0.
fn press_and_send(
    numbers: [usize; 6],
    slots: &mut BothLent<DuelInput>,
    log: &mut [Record],
    told: &mut [Told],
) -> u32 {
    let [own_0, other_0, digests_0, own_1, other_1, digests_1] = numbers;
    play::<Duel, Snapshots<Duel>, Trails<Duel>, Hold, Still>(
        7,
        0,
        slots.first.front(own_0, other_0, digests_0),
        slots.second.front(own_1, other_1, digests_1),
        log,
        &[press(0, 1), send(0)],
        told,
    )
    .err()
    .map_or(0, Refusal::number)
}

// Two turns are played with room to tell of so many; refused, they leave all as it was.
fn plays_with(rt: &impl Abort, numbers: [usize; 6], room: usize, code: u32) {
    let mut slots = BothLent {
        first: marked_slots(),
        second: marked_slots(),
    };
    let mut log = [marked_record(); 2];
    let mut told = [UNTOLD; 4];
    let room = room.min(told.len());
    let found = press_and_send(numbers, &mut slots, &mut log, &mut told[..room]);
    assert_eq!(rt; found, code, "{numbers:?}");
    if code == 0 {
        assert_eq!(rt; log[0].len, 23, "{numbers:?}");
        assert!(rt; slots.first != marked_slots(), "{numbers:?}");
        same_rows(rt, &told, &[(0, 0, 1, 0), (0, 0, 1, 0)]);
        return;
    }
    assert!(rt;
        slots.first == marked_slots(),
        "slots of seat 0, {numbers:?}"
    );
    assert!(rt;
        slots.second == marked_slots(),
        "slots of seat 1, {numbers:?}"
    );
    assert!(rt; log == [marked_record(); 2], "log, {numbers:?}");
    same_rows(rt, &told, &[]);
}

#[test]
fn play_refused(rt: HostRuntime) {
    // Each number stands in each of the six places in turn.
    for i in 0..6usize {
        for (number, code) in [(0, 20), (31, 20), (32, 0), (33, 0), (40, 0)] {
            let mut numbers = [32; 6];
            numbers[i] = number;
            plays_with(&rt, numbers, 2, code);
        }
    }
    plays_with(&rt, [32; 6], 0, 14);
    plays_with(&rt, [32; 6], 1, 14);
    plays_with(&rt, [32; 6], 3, 0);
    plays_with(&rt, [32, 32, 32, 32, 32, 31], 1, 20);
}
