// A guess rule: what a seat plays for the other seat's input while that is not known.
ghost use Rattle.std.specs.Prelude.{◌≡◌, ℕ};

use crate::input::InputKind;

pub trait GuessRule<I: InputKind> {
    // The guess from the last known input and the gap: how many frames after that input the guessed one lies.
    ghost guessed: { I → ℕ → I };

    fn guess(last: I, gap: u32) -> I
        ensures { result ≡ guessed last gap };
}
