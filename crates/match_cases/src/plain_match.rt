// The plain match, with no slots, bytes or keepers: states are stepped from the opening each time. Its answers are the numbers of
// docs/ANSWERS.md, written out, so that nothing here leans on the engine's own table.
use crate::plain_seat::PlainSeat;
use interface::game::Game;
use interface::guess::GuessRule;
use interface::input::InputKind;
use play::turns::{Call, Told, Turn};
use std::alloc::{AllocError, Global};
use std::marker::PhantomData;

// An accepted send: who sent, and its P, R and A.
#[derive(Clone, Copy)]
pub struct Note {
    pub second: bool,
    pub played: u32,
    pub known: u32,
    pub acknowledged: u32,
}

// An accepted call, with what it puts in: the input, or the note taken.
#[derive(Clone, Copy)]
enum Accepted<I> {
    Press(I),
    Send,
    Take(Note),
}

// Where a match stands: its seed, and how many turns were made.
#[derive(Clone, Copy, Debug)]
pub struct Place {
    pub seed: u32,
    pub turns: u32,
}

#[derive(Drop)]
pub struct PlainMatch<G: Game, H0, H1> {
    place: Place,
    opening: G,
    first: PlainSeat<G::Input>,
    second: PlainSeat<G::Input>,
    pub notes: Vec<Note>,
    // How many records the log has.
    pub records: usize,
    rules: PhantomData<(H0, H1)>,
}

impl<G: Game, H0: GuessRule<G::Input>, H1: GuessRule<G::Input>> PlainMatch<G, H0, H1> {
    pub fn new(heap: Global, seed: u32, records: usize) -> Self {
        PlainMatch {
            place: Place { seed, turns: 0 },
            opening: G::open(seed),
            first: PlainSeat::new(heap),
            second: PlainSeat::new(heap),
            notes: Vec::new(heap),
            records,
            rules: PhantomData,
        }
    }

    pub fn place(&self) -> Place {
        self.place
    }

    // Seat 1, or seat 0.
    pub fn seat(&self, second: bool) -> &PlainSeat<G::Input> {
        if second { &self.second } else { &self.first }
    }

    fn seat_mut(&mut self, second: bool) -> &mut PlainSeat<G::Input> {
        if second {
            &mut self.second
        } else {
            &mut self.first
        }
    }

    pub fn sent(&self) -> u32 {
        u32::try_from(self.notes.len()).unwrap_or(u32::MAX)
    }

    // What a seat plays for the other's input in a frame, if it knows the first so many of these.
    fn played_for(&self, second: bool, known: u32, frame: u32) -> G::Input {
        let other = self.seat(!second);
        if frame < known {
            return other.input(frame);
        }
        let last = other.last_known(known);
        let gap = frame.saturating_add(1).saturating_sub(known);
        if second {
            H1::guess(last, gap)
        } else {
            H0::guess(last, gap)
        }
    }

    // A seat's plain state n.
    pub fn state(&self, second: bool, n: u32) -> G {
        let own = self.seat(second);
        let mut state = self.opening;
        // By frame: a state comes of the one before, and the inputs of two lists.
        for frame in 0..n {
            let other = self.played_for(second, own.known, frame);
            let _ = if second {
                state.step(other, own.input(frame))
            } else {
                state.step(own.input(frame), other)
            };
        }
        state
    }

    // The true state n.
    pub fn true_state(&self, n: u32) -> G {
        let mut state = self.opening;
        for frame in 0..n {
            let _ = state.step(self.first.input(frame), self.second.input(frame));
        }
        state
    }

    // How many frames a seat replays that knows more of the other's inputs than before.
    fn replayed(&self, second: bool, before: u32, after: u32) -> u32 {
        let played = self.seat(second).played();
        (0..played)
            .find(|&frame| {
                let old = self.played_for(second, before, frame);
                let new = self.played_for(second, after, frame);
                old.code() != new.code()
            })
            .map_or(0, |frame| played.saturating_sub(frame))
    }

    // The note that a seat may take as datagram k.
    fn note(&self, second: bool, k: u32, records: usize) -> Option<Note> {
        let notes = self.notes.get(..records).unwrap_or(&self.notes);
        notes
            .get(k as usize)
            .copied()
            .filter(|note| note.second != second)
    }

    // What a turn is to do, or the first refusal that applies.
    fn accepted(&self, turn: Turn) -> Result<Accepted<G::Input>, u32> {
        if turn.seat > 1 {
            return Err(21);
        }
        if (turn.own, turn.other, turn.digests) != (32, 32, 32) {
            return Err(20);
        }
        let second = turn.seat == 1;
        let records = turn.records.min(self.records);
        match turn.call {
            Call::Press(code) => Ok(Accepted::Press(self.seat(second).pressed(code)?)),
            Call::Send if self.notes.len() >= records => Err(18),
            Call::Send => Ok(Accepted::Send),
            Call::Take(k) => {
                let note = self.note(second, k, records).ok_or(17u32)?;
                Ok(Accepted::Take(note))
            }
        }
    }

    fn send(&mut self, second: bool) -> Result<(), AllocError> {
        let seat = self.seat(second);
        let note = Note {
            second,
            played: seat.played(),
            known: seat.known,
            acknowledged: seat.acknowledged,
        };
        self.notes.push(note)?;
        Ok(())
    }

    // Takes a note, and gives the frames replayed.
    fn take(&mut self, second: bool, note: Note) -> u32 {
        let seat = self.seat_mut(second);
        let before = seat.known;
        let after = before.max(note.played);
        seat.known = after;
        seat.acknowledged = seat.acknowledged.max(note.known);
        self.replayed(second, before, after)
    }

    // Makes an accepted call of a seat, and gives the frames replayed.
    fn accept(&mut self, second: bool, call: Accepted<G::Input>) -> Result<u32, AllocError> {
        match call {
            Accepted::Press(input) => self.seat_mut(second).play(input)?,
            Accepted::Send => self.send(second)?,
            Accepted::Take(note) => return Ok(self.take(second, note)),
        }
        Ok(0)
    }

    // Makes a turn, and tells of it.
    pub fn make(&mut self, turn: Turn) -> Result<Told, AllocError> {
        let second = turn.seat == 1;
        let (code, frames) = match self.accepted(turn) {
            Ok(call) => (0, self.accept(second, call)?),
            Err(code) => (code, 0),
        };
        self.place.turns = self.place.turns.saturating_add(1);
        let seat = self.seat(second);
        Ok(Told {
            code,
            frames,
            played: seat.played(),
            known: seat.known,
        })
    }
}
