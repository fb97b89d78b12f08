// A game: a state of W words, stepped by the inputs of two seats, and taken back by the trail of a step.
ghost use Rattle.std.specs.Prelude.{◌≡◌, ℕ, ◌<◌, ◌≤◌, Bool, true, false, List, length, take, is_ok, Some, Option};
ghost use Rattle.std.specs.List.{slice_get};
ghost use Rattle.interface.specs.Games.{State, or_unlawful, or_kept, if_lawful};
ghost use Rattle.interface.specs.Limits.{most_words};

use crate::answers::Refusal;
use crate::input::InputKind;

// What a step leaves behind for an undo.
pub type Trail = [u32; 4];

pub trait Game: Copy {
    type Input: InputKind;

    // The number of words, 1 to 72, for code and for clauses.
    const W: u32;

    ghost W: { ℕ };

    // What a value means. Two values with the same words are the same state.
    ghost words: { Self → State };

    ghost lawful: { State → Bool };

    // The state that a seed opens with.
    ghost opening: { ℕ → State };

    // The state after a frame with the inputs of seats 0 and 1.
    ghost next: { State → Self.Input → Self.Input → State };

    // The state that a trail leads back to, or nothing where that is unlawful.
    ghost undone: { State → List ℕ → Option State };

    fn open(seed: u32) -> Self
        ensures { words result ≡ opening seed };

    fn step(&mut self, first: Self::Input, second: Self::Input) -> Trail
        ensures state { words self.new ≡ next (words self.old) first second }
        ensures trail { undone (words self.new) result ≡ Some (words self.old) };

    fn undo(&mut self, trail: &Trail) -> Result<(), Refusal>
        ensures answer { result ≡ or_unlawful (undone (words self.old) trail.now) }
        ensures state { words self.new ≡ or_kept (undone (words self.old) trail.now) (words self.old) }
        ensures same { is_ok result ≡ false → self.new ≡ self.old };

    // Word k, or nothing from W on.
    fn word(&self, k: u32) -> Option<u32>
        ensures { result ≡ slice_get (words self.now) k };

    // The state of the first W words, if that is lawful.
    fn restore(&mut self, from: &[u32; 72]) -> Result<(), Refusal>
        ensures answer { result ≡ or_unlawful (if_lawful lawful (take W from.now)) }
        ensures state { words self.new ≡ or_kept (if_lawful lawful (take W from.now)) (words self.old) }
        ensures same { is_ok result ≡ false → self.new ≡ self.old };

    ghost some_words: { 0 < W };

    ghost few_words: { W ≤ most_words };

    ghost always_wide: { (g : Self) → length (words g) ≡ W };

    ghost always_lawful: { (g : Self) → lawful (words g) ≡ true };
}
