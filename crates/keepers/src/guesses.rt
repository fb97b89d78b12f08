// Two guess rules, over any input kind.
use interface::guess::GuessRule;
use interface::input::InputKind;

// The other seat goes on with its last known input.
#[derive(Clone, Copy, Debug)]
pub struct Hold;

impl<I: InputKind> GuessRule<I> for Hold {
    ghost guessed = { λ last gap. last };

    fn guess(last: I, gap: u32) -> I {
        last
    }
}

// The other seat does nothing.
#[derive(Clone, Copy, Debug)]
pub struct Still;

impl<I: InputKind> GuessRule<I> for Still {
    ghost guessed = { λ last gap. I.idle };

    fn guess(last: I, gap: u32) -> I {
        I::idle()
    }
}
