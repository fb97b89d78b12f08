// A small game for tests: a running total in which each seat's input counts differently, and a dial of ten places.
ghost use Rattle.std.specs.Prelude.{◌<◌, [], ◌∷◌};
ghost use Rattle.worked_cases.specs.Counters.{press_code, press_of, dial_lawful, counter_next, counter_undone};
ghost use Rattle.worked_cases.specs.declared.counter_game.Press.TheVariants.{Rest};
ghost use Rattle.std.proofs.Common.{rules, arith};

use interface::answers::Refusal;
use interface::game::{Game, Trail};
use interface::input::InputKind;

#[derive(Clone, Copy, Debug)]
pub enum Press {
    Rest = 0,
    Tap = 1,
    Push = 2,
}

impl InputKind for Press {
    ghost code = { press_code };

    ghost reads = { press_of };

    ghost idle = { Rest };

    ghost code_fits = { Prim.search rules };

    ghost reads_back = { Prim.search rules };

    ghost code_of_read = { Prim.search rules };

    ghost idle_reads = { Prim.search rules };

    fn read(number: u16) -> Option<Self> {
        match number {
            0 => Some(Press::Rest),
            1 => Some(Press::Tap),
            2 => Some(Press::Push),
            _ => None,
        }
    }

    fn code(self) -> u16 {
        self as u16
    }

    fn idle() -> Self {
        Press::Rest
    }
}

#[derive(Clone, Copy)]
pub struct Counter {
    total: u32,
    dial: u32,
    ghost turned: { dial < 10 },
}

impl Game for Counter {
    type Input = Press;

    const W: u32 = 2;

    ghost W = { 2 };

    ghost words = { λ g. g.total ∷ (g.dial ∷ []) };

    ghost lawful = { dial_lawful };

    ghost opening = { λ seed. seed ∷ (0 ∷ []) };

    ghost next = { counter_next };

    ghost undone = { counter_undone };

    ghost some_words = { first_of (Prim.search rules, Prim.grind (arith, Self.row.coded.inj)) };

    ghost few_words = { first_of (Prim.search rules, Prim.grind (arith, Self.row.coded.inj)) };

    ghost always_wide = { first_of (Prim.search rules, Prim.grind (arith, Self.row.coded.inj)) };

    ghost always_lawful = { first_of (Prim.search rules, Prim.grind (arith, Self.row.coded.inj)) };

    fn open(seed: u32) -> Self {
        Counter {
            total: seed,
            dial: 0,
        }
    }

    fn step(&mut self, first: Press, second: Press) -> Trail {
        let trail = [self.total, self.dial, 0, 0];
        let pressed = 2 * first.code() as u32 + second.code() as u32;
        self.total = self.total.wrapping_mul(4).wrapping_add(pressed);
        self.dial = (self.dial + 1) % 10;
        trail
    }

    fn undo(&mut self, trail: &Trail) -> Result<(), Refusal> {
        if trail[1] >= 10 {
            return Err(Refusal::Unlawful);
        }
        *self = Counter {
            total: trail[0],
            dial: trail[1],
        };
        Ok(())
    }

    fn word(&self, k: u32) -> Option<u32> {
        match k {
            0 => Some(self.total),
            1 => Some(self.dial),
            _ => None,
        }
    }

    fn restore(&mut self, from: &[u32; 72]) -> Result<(), Refusal> {
        if from[1] >= 10 {
            return Err(Refusal::Unlawful);
        }
        *self = Counter {
            total: from[0],
            dial: from[1],
        };
        Ok(())
    }
}
