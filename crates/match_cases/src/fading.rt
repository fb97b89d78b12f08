// A guess rule that heeds the gap: the other seat goes on for three frames, and then does nothing.
ghost use Rattle.std.specs.Prelude.{if◌then◌else◌, nat_lt};

use interface::guess::GuessRule;
use interface::input::InputKind;

#[derive(Clone, Copy)]
pub struct Fading;

impl<I: InputKind> GuessRule<I> for Fading {
    ghost guessed = { λ last gap. (if nat_lt gap 4 then last else I.idle) };

    fn guess(last: I, gap: u32) -> I {
        if gap < 4 { last } else { I::idle() }
    }
}
