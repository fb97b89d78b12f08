// For tests: a seat with the slots that it is lent, and datagrams forged in the name of the other seat.
use datagram::forms::{Codes, Datagram};
use interface::answers::{Acceptance, Refusal};
use interface::game::Game;
use interface::guess::GuessRule;
use interface::input::InputKind;
use interface::keeper::Keeper;
use interface::limits::QUEUE_SLOTS;
use seat::state::{Seat, Slots};
use std::alloc::{AllocError, Global};
use std::test::Fail;

pub const MATCH: u16 = 7;

// The bytes of the longest datagram.
pub const MOST_BYTES: usize = 85;

// The digest that a forged datagram reports.
#[derive(Clone, Copy, Debug)]
pub enum Report {
    Digest(u32),
    // That which the slots have for the report frame, with these bits turned.
    Held(u32),
}

// What a forged datagram says.
#[derive(Clone, Copy, Debug)]
pub struct Forged<'a> {
    // The bits turned in the byte of the other seat.
    pub sender: u8,
    pub match_number: u16,
    pub start: u16,
    pub codes: &'a [u16],
    pub acknowledgement: u16,
    pub report_frame: u16,
    pub digest: Report,
}

// No codes, and the report on state 0: a seat accepts it at any counts.
pub const GOOD: Forged<'static> = Forged {
    sender: 0,
    match_number: MATCH,
    start: 0,
    codes: &[],
    acknowledgement: 0,
    report_frame: 0,
    digest: Report::Held(0),
};

// The bytes of a datagram. The length stands beside them, so that a datagram is damaged as a plain copy, in its bytes or its length.
#[derive(Clone, Copy)]
pub struct Bytes {
    pub buffer: [u8; MOST_BYTES],
    pub length: usize,
}

impl Bytes {
    pub fn as_slice(&self) -> &[u8] {
        &self.buffer[..self.length.min(MOST_BYTES)]
    }
}

#[derive(Clone, Copy, Debug)]
pub enum Queue {
    Own,
    Other,
    Digests,
}

fn half_of<T>(slots: &mut [T]) -> &mut [T] {
    let half = slots.len() / 2;
    &mut slots[..half]
}

// The slots of the three queues of a seat.
#[derive(Drop)]
pub struct Lent<I> {
    own: Vec<I>,
    other: Vec<I>,
    digests: [u32; QUEUE_SLOTS],
}

impl<I: InputKind> Lent<I> {
    pub fn new(heap: Global) -> Result<Self, AllocError> {
        Ok(Lent {
            own: vec![in heap; I::idle(); QUEUE_SLOTS]?,
            other: vec![in heap; I::idle(); QUEUE_SLOTS]?,
            digests: [0; QUEUE_SLOTS],
        })
    }

    pub fn slots(&mut self) -> Slots<'_, I> {
        let Lent {
            own,
            other,
            digests,
        } = self;
        Slots {
            own: own.as_mut_slice(),
            other: other.as_mut_slice(),
            digests: &mut digests[..],
        }
    }

    // The slots, but of one queue half of them.
    pub fn halved(&mut self, queue: Queue) -> Slots<'_, I> {
        let Slots {
            own,
            other,
            digests,
        } = self.slots();
        match queue {
            Queue::Own => Slots {
                own: half_of(own),
                other,
                digests,
            },
            Queue::Other => Slots {
                own,
                other: half_of(other),
                digests,
            },
            Queue::Digests => Slots {
                own,
                other,
                digests: half_of(digests),
            },
        }
    }
}

// The codes of the inputs in slots.
fn codes_in<I: InputKind>(slots: &[I]) -> [u16; QUEUE_SLOTS] {
    let mut codes = [0; QUEUE_SLOTS];
    for (code, input) in codes.iter_mut().zip(slots) {
        *code = input.code();
    }
    codes
}

// All that a caller can see of a seat and its slots.
#[derive(Clone, Copy, PartialEq, Debug)]
pub struct Seen {
    own: [u16; QUEUE_SLOTS],
    other: [u16; QUEUE_SLOTS],
    digests: [u32; QUEUE_SLOTS],
    counts: (u32, u32, u32),
    newest: u32,
    parted: bool,
}

// A seat, and the slots that it is lent, on the heap: arrays of a type parameter would owe that they are not too large.
#[derive(Drop)]
pub struct TestSeat<G: Game, K, H> {
    second: bool,
    pub seat: Seat<G, K, H>,
    pub lent: Lent<G::Input>,
}

impl<G: Game, K: Keeper<G>, H: GuessRule<G::Input>> TestSeat<G, K, H> {
    pub fn press(&mut self, code: u16) -> u32 {
        self.seat.press(self.lent.slots(), code)
    }

    pub fn try_press(&mut self, code: u16) -> Result<(), Refusal> {
        self.seat.try_press(self.lent.slots(), code)
    }

    pub fn take(&mut self, bytes: &[u8]) -> (u32, u32) {
        self.seat.take(self.lent.slots(), bytes)
    }

    pub fn try_take(&mut self, bytes: &[u8]) -> Result<(Acceptance, u32), Refusal> {
        self.seat.try_take(self.lent.slots(), bytes)
    }

    pub fn send(&mut self, buffer: &mut [u8]) -> (u32, u32) {
        self.seat.send(self.lent.slots(), buffer)
    }

    pub fn try_send(&mut self, buffer: &mut [u8]) -> Result<u32, Refusal> {
        self.seat.try_send(self.lent.slots(), buffer)
    }

    // The number of the other seat.
    pub fn other(&self) -> u8 {
        u8::from(!self.second)
    }

    // P, R and A.
    pub fn counts(&self) -> (u32, u32, u32) {
        let seat = &self.seat;
        (seat.played(), seat.known(), seat.acknowledged())
    }

    pub fn seen(&self) -> Seen {
        let Lent {
            own,
            other,
            digests,
        } = &self.lent;
        Seen {
            own: codes_in(own.as_slice()),
            other: codes_in(other.as_slice()),
            digests: *digests,
            counts: self.counts(),
            newest: self.seat.digest(),
            parted: self.seat.has_parted(),
        }
    }

    // The bytes of a forged datagram.
    pub fn forge(&self, forged: Forged<'_>) -> Result<Bytes, Fail> {
        let mut codes = Codes::new();
        for code in forged.codes {
            codes.push(*code).map_err(|_| Fail::new("too many codes"))?;
        }
        let digest = match forged.digest {
            Report::Digest(digest) => digest,
            Report::Held(turned) => {
                self.lent.digests[usize::from(forged.report_frame) % QUEUE_SLOTS] ^ turned
            }
        };
        let datagram = Datagram {
            sender: forged.sender ^ self.other(),
            match_number: forged.match_number,
            start: forged.start,
            codes,
            acknowledgement: forged.acknowledgement,
            report_frame: forged.report_frame,
            digest,
        };
        let mut buffer = [0; MOST_BYTES];
        let length = datagram.write(&mut buffer)? as usize;
        Ok(Bytes { buffer, length })
    }
}

impl<G: Game, K: Keeper<G> + Drop, H: GuessRule<G::Input> + Drop> TestSeat<G, K, H> {
    // Opens a seat on slots as they are.
    pub fn open(second: bool, seed: u32, mut lent: Lent<G::Input>) -> Result<Self, Fail> {
        let seat = Seat::open(second, MATCH, seed, lent.slots())?;
        Ok(TestSeat { second, seat, lent })
    }

    // The slots, for the next seat.
    pub fn into_lent(self) -> Lent<G::Input> {
        let TestSeat { lent, .. } = self;
        lent
    }
}
