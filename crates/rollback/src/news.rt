// What a datagram of the other seat brings.
ghost use Rattle.std.specs.Prelude.{◌≡◌, ◌+◌, ◌-◌, ◌<◌, ◌≤◌, max, length};
ghost use Rattle.interface.specs.Limits.{top_frame, queue_slots, most_codes};
ghost use Rattle.rollback.specs.Inputs.{setting, sent, other_at, put_all, caught_up, lowest_change};
ghost use Rattle.rollback.specs.Meanings.{inputs_of, codes_in, end_of};

use crate::inputs::{Held, other_at};
use datagram::forms::Datagram;
use frames::queue::FrameQueue;
use interface::game::Game;
use interface::guess::GuessRule;
use interface::input::InputKind;

// The input that the datagram has for a frame, or idle where it has none.
pub fn sent_at<I: InputKind>(datagram: &Datagram<&[u8]>, frame: u32) -> I
    ensures { result ≡ sent I.reads I.idle (codes_in datagram.now) datagram.now.start frame }
{
    let place = frame.saturating_sub(u32::from(datagram.start));
    let Some(code) = datagram.code(place as usize) else {
        return I::idle();
    };
    // `and_then(I::read)` gets no proof: the result of `read` names a type parameter that its argument does not.
    I::read(code).unwrap_or(I::idle())
}

// The frame after the last that the datagram has a code for. That the codes are few is asked here and below, and not by the datagram's type:
// its `count` and `code`, and `sent_at`, hold for any number of them.
pub fn end_of(datagram: &Datagram<&[u8]>) -> u32
    requires { length (codes_in datagram.now) ≤ most_codes }
    ensures { result ≡ end_of datagram.now }
{
    u32::from(datagram.start) + datagram.count() as u32
}

// The other seat's input for a frame from R on, once the datagram's codes are kept.
pub fn fresh_at<G: Game, H: GuessRule<G::Input>>(
    inputs: &Held<'_, G::Input>,
    datagram: &Datagram<&[u8]>,
    frame: u32,
) -> G::Input
    requires whole { length inputs.now.other.slots.now ≡ queue_slots }
    requires few { length (codes_in datagram.now) ≤ most_codes }
    requires start { datagram.now.start ≤ inputs.now.other.queue.next }
    requires new { inputs.now.other.queue.next ≤ frame }
    requires top { frame ≤ top_frame }
    ensures { result ≡ other_at (setting G.next G.Input.idle G.Input.reads G.Input.code H.guessed) (caught_up (setting G.next G.Input.idle G.Input.reads G.Input.code H.guessed) (inputs_of inputs.now) (codes_in datagram.now) datagram.now.start) frame }
{
    let end = end_of(datagram);
    if frame < end {
        return sent_at(datagram, frame);
    }
    if inputs.other.queue.next() < end {
        return H::guess(sent_at(datagram, end - 1), frame + 1 - end);
    }
    other_at::<G, H>(inputs, frame)
}

// The lowest frame from R to P − 1 that was played with another input of the other seat; no lower one than P where none was. A loop: the
// closure of a `find` would ask again all that `fresh_at` asks.
pub fn lowest_change<G: Game, H: GuessRule<G::Input>>(
    inputs: &Held<'_, G::Input>,
    datagram: &Datagram<&[u8]>,
) -> u32
    requires whole { length inputs.now.other.slots.now ≡ queue_slots }
    requires few { length (codes_in datagram.now) ≤ most_codes }
    requires start { datagram.now.start ≤ inputs.now.other.queue.next }
    requires top { inputs.now.own.queue.next ≤ top_frame }
    ensures { result ≡ lowest_change (setting G.next G.Input.idle G.Input.reads G.Input.code H.guessed) (inputs_of inputs.now) (caught_up (setting G.next G.Input.idle G.Input.reads G.Input.code H.guessed) (inputs_of inputs.now) (codes_in datagram.now) datagram.now.start) }
{
    let known = inputs.other.queue.next();
    let played = inputs.own.queue.next();
    for frame in known..played {
        if other_at::<G, H>(inputs, frame).code()
            != fresh_at::<G, H>(inputs, datagram, frame).code()
        {
            return frame;
        }
    }
    known.max(played)
}

// Keeps the datagram's codes for frames from R on.
pub fn keep_codes<I: InputKind>(queue: &mut FrameQueue, slots: &mut [I], datagram: &Datagram<&[u8]>)
    requires whole { length slots.old ≡ queue_slots }
    requires few { length (codes_in datagram.now) ≤ most_codes }
    requires top { end_of datagram.now ≤ top_frame }
    ensures slots { slots.new ≡ put_all slots.old queue.old.next (end_of datagram.now - queue.old.next) (sent I.reads I.idle (codes_in datagram.now) datagram.now.start) }
    ensures next { queue.new.next ≡ max queue.old.next (end_of datagram.now) }
{
    let end = end_of(datagram);
    for frame in queue.next()..end {
        let _ = queue.put(slots, frame, sent_at(datagram, frame));
    }
}
