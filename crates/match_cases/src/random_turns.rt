// Turns that look random, over a line that loses, repeats, delays and reorders.
use crate::plain_match::PlainMatch;
use interface::game::Game;
use interface::guess::GuessRule;
use play::turns::{Call, Turn};

// Numbers that look random.
#[derive(Clone, Copy)]
struct Dice {
    z: u32,
}

impl Dice {
    fn new(seed: u32) -> Self {
        Dice { z: seed }
    }

    // A number below `sides`, at most 65,536.
    fn roll(&mut self, sides: u32) -> u32 {
        self.z = self.z.wrapping_mul(1_664_525).wrapping_add(1_013_904_223);
        self.z / 65_536 % sides.max(1)
    }

    // Whether one of so many cases comes.
    fn one_in(&mut self, cases: u32) -> bool {
        self.roll(cases) == 0
    }

    // A phase, with a code below this number that is pressed often.
    fn phase(&mut self, codes: u32) -> Phase {
        let mut phase = PHASES[self.roll(6) as usize % 6];
        phase.held = (self.roll(codes) & 0xff) as u16;
        phase
    }

    // Slots: nearly always 32.
    fn slots(&mut self) -> usize {
        if !self.one_in(60) {
            return 32;
        }
        match self.roll(3) {
            0 => 0,
            1 => 31,
            _ => 33,
        }
    }

    // Records: nearly always all. Else about as many as the call needs.
    fn records(&mut self, call: Call, sent: u32, all: usize) -> usize {
        if !self.one_in(20) {
            return all;
        }
        let needed = match call {
            Call::Take(k) => k,
            _ => sent,
        };
        needed.saturating_add(self.roll(3)).saturating_sub(1) as usize
    }
}

// What goes on for some turns.
#[derive(Clone, Copy)]
struct Phase {
    // Of 100 turns, how many are seat 1's.
    second: u32,
    // Of 100 turns, how many are presses, and how many presses or sends.
    presses: u32,
    sends: u32,
    // How many of the newest datagrams are taken.
    late: u32,
    // A code that is pressed often.
    held: u16,
}

// The phases: both seats play; one of them runs ahead; datagrams come late and in any order; both catch up.
const PHASES: [Phase; 6] = [
    Phase {
        second: 50,
        presses: 40,
        sends: 65,
        late: 3,
        held: 0,
    },
    Phase {
        second: 8,
        presses: 80,
        sends: 90,
        late: 4,
        held: 0,
    },
    Phase {
        second: 92,
        presses: 80,
        sends: 90,
        late: 4,
        held: 0,
    },
    Phase {
        second: 50,
        presses: 35,
        sends: 55,
        late: 200,
        held: 0,
    },
    Phase {
        second: 50,
        presses: 10,
        sends: 40,
        late: 1,
        held: 0,
    },
    Phase {
        second: 50,
        presses: 60,
        sends: 75,
        late: 8,
        held: 0,
    },
];

// How many turns a phase has.
pub const PHASE: u32 = 32;

// The turns of a match, one after another.
#[derive(Clone, Copy)]
pub struct Source {
    dice: Dice,
    phase: Phase,
    // How many turns are left of the phase.
    left: u32,
    // Codes are mostly below this number.
    codes: u32,
}

impl Source {
    pub fn new(seed: u32, codes: u32) -> Self {
        let mut dice = Dice::new(seed);
        Source {
            phase: dice.phase(codes),
            dice,
            left: PHASE,
            codes,
        }
    }

    // A code: the phase's, any of the first so many, or one that is hardly read.
    fn code(&mut self) -> u16 {
        if self.dice.one_in(40) {
            return 65_535;
        }
        if self.dice.one_in(2) {
            return self.phase.held;
        }
        (self.dice.roll(self.codes) & 0xff) as u16
    }

    // A datagram's number: one of the newest, or seldom one that was not sent.
    fn datagram(&mut self, sent: u32) -> u32 {
        if self.dice.one_in(30) {
            return sent.saturating_add(self.dice.roll(3));
        }
        if self.dice.one_in(200) {
            return u32::MAX;
        }
        sent.saturating_sub(1)
            .saturating_sub(self.dice.roll(self.phase.late))
    }

    fn call(&mut self, sent: u32) -> Call {
        let kind = self.dice.roll(100);
        if kind < self.phase.presses {
            return Call::Press(self.code());
        }
        if kind < self.phase.sends {
            return Call::Send;
        }
        Call::Take(self.datagram(sent))
    }

    fn seat(&mut self) -> u32 {
        if self.dice.one_in(50) {
            return self.dice.roll(4);
        }
        u32::from(self.dice.roll(100) < self.phase.second)
    }

    // The next turn, after those that the plain match has made.
    pub fn next<G: Game, H0: GuessRule<G::Input>, H1: GuessRule<G::Input>>(
        &mut self,
        plain: &PlainMatch<G, H0, H1>,
    ) -> Turn {
        if self.left == 0 {
            self.phase = self.dice.phase(self.codes);
            self.left = PHASE;
        }
        self.left = self.left.saturating_sub(1);
        let sent = plain.sent();
        let seat = self.seat();
        let call = self.call(sent);
        Turn {
            seat,
            call,
            own: self.dice.slots(),
            other: self.dice.slots(),
            digests: self.dice.slots(),
            records: self.dice.records(call, sent, plain.records),
        }
    }
}
