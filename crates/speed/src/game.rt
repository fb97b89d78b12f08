// The game of Speed: its state and its calls.
ghost use Rattle.std.specs.Prelude.{◌≡◌, ℕ, ◌-◌, ◌<◌, true, List, length, take, IfSome, Some};
ghost use Rattle.speed.specs.declared.moves.Move.{Move as SpeedMove};
ghost use Rattle.speed.specs.Places.{parity};
ghost use Rattle.speed.specs.Lawful.{times, in_play, permutation, lawful_state};
ghost use Rattle.speed.specs.Opening.{opening_state};
ghost use Rattle.speed.specs.Rules.{next_state};
ghost use Rattle.speed.specs.Trails.{undone_state};
ghost use Rattle.speed.specs.Laws.{GoesOn, Kept, run};
ghost use Rattle.std.proofs.Common.{rules};

use crate::lawful::{is_lawful, is_playable};
use crate::moves::Move;
use crate::pack::{deal, shuffled_pack};
use crate::places::Words;
use crate::trails::restore_trail;
use interface::answers::Refusal;
use interface::game::{Game, Trail};

// A lawful state.
#[derive(Clone, Copy)]
pub struct Speed {
    pub(crate) words: Words,
    ghost wide: { length words ≡ 68 },
    ghost lawful: { lawful_state words ≡ true },
}

impl Speed {
    // The opening of a seed. Each card of the pack is in play once.
    pub fn new(seed: u32) -> Self
        ensures opening { result.words ≡ opening_state seed }
        ensures shuffled { permutation (take 52 result.words) ≡ true }
        ensures whole_pack { (card : ℕ) → card < 52 → times card (in_play result.words) ≡ 1 }
    {
        let order = shuffled_pack(seed);
        Speed {
            words: deal(&order),
        }
    }

    // One frame, with the moves of seats 0 and 1. Whatever is played later, no card is created, no count rises, and
    // a game that is over stays as it is; in a game that goes on, the seats take turns in playing first.
    pub fn frame(&mut self, first: Move, second: Move) -> Trail
        ensures state { self.new.words ≡ next_state self.old.words first second }
        ensures trail { undone_state self.new.words result ≡ Some self.old.words }
        ensures kept { (later : List (SpeedMove × SpeedMove)) → Kept self.old.words (run self.new.words later) }
        ensures alternates { GoesOn self.old.words → parity self.new.words ≡ 1 - parity self.old.words }
    {
        let trail = self.record_trail(first, second);
        self.advance(first, second);
        trail
    }

    // The words that a trail leads back to, if they are lawful. No trail changes the order of the pack, so the rest is tested.
    fn undone_words(&self, trail: &Trail) -> Option<Words>
        ensures state { result ≡ undone_state self.now.words trail.now }
        ensures lawful { IfSome result (λ before. (length before ≡ 68) × (lawful_state before ≡ true)) }
    {
        let mut before = self.words;
        restore_trail(&mut before, trail);
        is_playable(&before).then_some(before)
    }
}

impl Game for Speed {
    type Input = Move;

    const W: u32 = 68;

    ghost W = { 68 };

    ghost words = { λ g. g.words };

    ghost lawful = { lawful_state };

    ghost opening = { opening_state };

    ghost next = { next_state };

    ghost undone = { undone_state };

    ghost some_words = { Prim.search rules };

    ghost few_words = { Prim.search rules };

    ghost always_wide = { Prim.search rules };

    ghost always_lawful = { Prim.search rules };

    fn open(seed: u32) -> Speed {
        Speed::new(seed)
    }

    fn step(&mut self, first: Move, second: Move) -> Trail {
        self.frame(first, second)
    }

    fn undo(&mut self, trail: &Trail) -> Result<(), Refusal> {
        self.words = self.undone_words(trail).ok_or(Refusal::Unlawful)?;
        Ok(())
    }

    fn word(&self, k: u32) -> Option<u32> {
        self.words.get(k as usize).copied()
    }

    fn restore(&mut self, from: &[u32; 72]) -> Result<(), Refusal> {
        let mut words = [0; 68];
        words.copy_from_slice(&from[0..68]);
        // A guard: `then_some(words).ok_or(..)?` would say no more.
        if !is_lawful(&words) {
            return Err(Refusal::Unlawful);
        }
        self.words = words;
        Ok(())
    }
}
