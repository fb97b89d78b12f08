// The inputs of both seats, as one seat holds them.
ghost use Rattle.std.specs.Prelude.{◌≡◌, ◌<◌, ◌≤◌};
ghost use Rattle.std.specs.Option.{unwrap_or};
ghost use Rattle.frames.specs.Queue.{held};
ghost use Rattle.interface.specs.Limits.{top_frame};
ghost use Rattle.rollback.specs.Inputs.{setting, other_at, pair_at, in_order};
ghost use Rattle.rollback.specs.Meanings.{inputs_of};

use frames::queue::FrameQueue;
use interface::game::Game;
use interface::guess::GuessRule;
use interface::input::InputKind;

// A queue of inputs with the slots that it is lent, to be read.
#[derive(Clone, Copy)]
pub struct Window<'a, I> {
    pub queue: FrameQueue,
    pub slots: &'a [I],
}

impl<I: InputKind> Window<'_, I> {
    // The input of a frame, or idle where it is not held.
    pub fn input_at(&self, frame: u32) -> I
        ensures { result ≡ unwrap_or (held self.now.slots.now self.now.queue.next frame) I.idle }
    {
        self.queue.get(self.slots, frame).unwrap_or(I::idle())
    }
}

// A seat's own inputs (next P) and the other seat's (next R).
#[derive(Clone, Copy)]
pub struct Held<'a, I> {
    pub own: Window<'a, I>,
    pub other: Window<'a, I>,
}

// The other seat's input for a frame: known below R, and from R on the guess from the last known. A frame is a bare number, as in every
// call: a type for frames up to the last would be made anew at each step.
pub fn other_at<G: Game, H: GuessRule<G::Input>>(
    inputs: &Held<'_, G::Input>,
    frame: u32,
) -> G::Input
    requires { frame ≤ top_frame }
    ensures { result ≡ other_at (setting G.next G.Input.idle G.Input.reads G.Input.code H.guessed) (inputs_of inputs.now) frame }
{
    let known = inputs.other.queue.next();
    if frame < known {
        return inputs.other.input_at(frame);
    }
    let last = inputs.other.input_at(known.saturating_sub(1));
    H::guess(last, frame + 1 - known)
}

// The pair fetch: both inputs of a frame, own first.
pub fn pair_at<G: Game, H: GuessRule<G::Input>>(
    inputs: &Held<'_, G::Input>,
    frame: u32,
) -> (G::Input, G::Input)
    requires { frame ≤ top_frame }
    ensures { result ≡ pair_at (setting G.next G.Input.idle G.Input.reads G.Input.code H.guessed) (inputs_of inputs.now) frame }
{
    let own = inputs.own.input_at(frame);
    (own, other_at::<G, H>(inputs, frame))
}

// A pair with own first, in the order of the seats.
pub fn in_order<I: Copy>(second: bool, own: I, other: I) -> (I, I)
    ensures { result ≡ in_order second (own, other) }
{
    if second { (other, own) } else { (own, other) }
}
