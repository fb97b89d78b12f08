// A match and the slots that are lent to it.
use interface::game::Game;
use interface::guess::GuessRule;
use interface::input::InputKind;
use interface::keeper::Keeper;
use match_engine::log::Record;
use match_engine::state::Match;
use play::turns::{Call, Told, Turn};
use seat::state::Slots;
use std::test::Fail;

// Slots of each kind: more than a seat has.
pub const SLOTS: usize = 40;

// What stands where no turn is told.
pub const UNTOLD: Told = Told {
    code: 99,
    frames: 99,
    played: 99,
    known: 99,
};

fn front_of<T>(slots: &mut [T], number: usize) -> &mut [T] {
    let number = number.min(slots.len());
    &mut slots[..number]
}

// A seat's slots.
#[derive(Clone, Copy, PartialEq)]
pub struct Lent<I> {
    pub own: [I; SLOTS],
    pub other: [I; SLOTS],
    pub digests: [u32; SLOTS],
}

impl<I: InputKind> Lent<I> {
    pub fn new() -> Self {
        Lent {
            own: [I::idle(); SLOTS],
            other: [I::idle(); SLOTS],
            digests: [0; SLOTS],
        }
    }

    // The first so many slots of each kind; all, where there are fewer.
    pub fn front(&mut self, own: usize, other: usize, digests: usize) -> Slots<'_, I> {
        // The field first, and then a slice of it: the borrow checker covers no array of a type parameter that is sliced in its struct.
        let own_slots = &mut self.own;
        let other_slots = &mut self.other;
        let digest_slots = &mut self.digests;
        Slots {
            own: front_of(&mut own_slots[..], own),
            other: front_of(&mut other_slots[..], other),
            digests: front_of(&mut digest_slots[..], digests),
        }
    }
}

// The slots of both seats. A test makes them for its game, since an array of a type parameter may be too large.
#[derive(Clone, Copy)]
pub struct BothLent<I> {
    pub first: Lent<I>,
    pub second: Lent<I>,
}

impl<I: InputKind> BothLent<I> {
    pub fn new() -> Self {
        BothLent {
            first: Lent::new(),
            second: Lent::new(),
        }
    }
}

// Makes a turn's call with the front of its seat's slots and of the log. A seat that is none is lent those of seat 0.
pub fn call<
    G: Game,
    K0: Keeper<G>,
    K1: Keeper<G>,
    H0: GuessRule<G::Input>,
    H1: GuessRule<G::Input>,
>(
    game: &mut Match<G, K0, K1, H0, H1>,
    turn: Turn,
    lent: &mut BothLent<G::Input>,
    log: &mut [Record],
) -> (u32, u32) {
    let seat = if turn.seat == 1 {
        &mut lent.second
    } else {
        &mut lent.first
    };
    let slots = seat.front(turn.own, turn.other, turn.digests);
    let records = turn.records.min(log.len());
    match turn.call {
        Call::Press(code) => (game.press(turn.seat, slots, code), 0),
        Call::Send => (game.send(turn.seat, slots, &mut log[..records]), 0),
        Call::Take(k) => game.take(turn.seat, slots, &log[..records], k),
    }
}

// Opens a match with the first 32 slots of each kind.
pub fn open<
    G: Game,
    K0: Keeper<G> + Drop,
    K1: Keeper<G> + Drop,
    H0: GuessRule<G::Input> + Drop,
    H1: GuessRule<G::Input> + Drop,
>(seed: u32, lent: &mut BothLent<G::Input>) -> Result<Match<G, K0, K1, H0, H1>, Fail> {
    let first = lent.first.front(32, 32, 32);
    let second = lent.second.front(32, 32, 32);
    Match::open(7, seed, first, second).map_err(|why| Fail::new(why.number()))
}
