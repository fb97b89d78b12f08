// Stepping a keeper through frames.
ghost use Rattle.std.specs.Prelude.{◌≡◌, ◌+◌, ◌-◌, ◌<◌, ◌≤◌, max, length};
ghost use Rattle.interface.specs.Limits.{top_frame, queue_slots};
ghost use Rattle.rollback.specs.Inputs.{setting};
ghost use Rattle.rollback.specs.Meanings.{inputs_of};
ghost use Rattle.rollback.specs.Replay.{kept_states, frame_at, frames_from};

use crate::inputs::{Held, in_order, pair_at};
use frames::queue::FrameQueue;
use interface::debt::Debt;
use interface::game::Game;
use interface::guess::GuessRule;
use interface::keeper::{Keeper, replay};

// Plays a frame, and puts the digest of the state after it. The keeper and the digests are lent one by one, here and below: a struct of
// `&mut`s would want a clause for each that it stays the same reference. And slots are lent as slices of which 32 are asked: arrays of
// 32 would have to be made of the caller's slices three times in each call of a seat.
pub fn play_frame<G: Game, K: Keeper<G>, H: GuessRule<G::Input>>(
    keeper: &mut K,
    second: bool,
    inputs: &Held<'_, G::Input>,
    digests: &mut FrameQueue,
    slots: &mut [u32],
    frame: u32,
)
    requires whole { length slots.old ≡ queue_slots }
    requires low { frame < digests.old.next }
    requires near { digests.old.next ≤ frame + queue_slots }
    requires top { frame < top_frame }
    ensures kept { kept_states (K.kept keeper.new).states slots.new ≡ frame_at (setting G.next G.Input.idle G.Input.reads G.Input.code H.guessed) second (inputs_of inputs.now) frame (kept_states (K.kept keeper.old).states slots.old) }
    ensures next { digests.new.next ≡ max digests.old.next (frame + 2) }
{
    let (own, other) = pair_at::<G, H>(inputs, frame);
    let (first, second) = in_order(second, own, other);
    keeper.advance(first, second);
    let _ = digests.put(slots, frame + 1, keeper.digest());
}

// Plays a frame again that was gone back over, which pays one of the debt, and replaces the digest of the state after it. A closure for the
// step, shared with `play_frame`, would want a clause that says what it leaves, longer than these lines.
fn replay_frame<G: Game, K: Keeper<G>, H: GuessRule<G::Input>>(
    keeper: &mut K,
    debt: &mut Debt,
    second: bool,
    inputs: &Held<'_, G::Input>,
    digests: &mut FrameQueue,
    slots: &mut [u32],
    frame: u32,
)
    requires owed { 0 < debt.old.owed }
    requires whole { length slots.old ≡ queue_slots }
    requires low { frame < digests.old.next }
    requires near { digests.old.next ≤ frame + queue_slots }
    requires top { frame < top_frame }
    ensures kept { kept_states (K.kept keeper.new).states slots.new ≡ frame_at (setting G.next G.Input.idle G.Input.reads G.Input.code H.guessed) second (inputs_of inputs.now) frame (kept_states (K.kept keeper.old).states slots.old) }
    ensures next { digests.new.next ≡ max digests.old.next (frame + 2) }
    ensures debt { debt.new.owed ≡ debt.old.owed - 1 }
{
    let (own, other) = pair_at::<G, H>(inputs, frame);
    let (first, second) = in_order(second, own, other);
    replay(keeper, debt, first, second);
    let after = frame + 1;
    let _ = digests.put(slots, after, keeper.digest());
}

// Plays the frames that are owed, from a frame on.
pub fn pay_off<G: Game, K: Keeper<G>, H: GuessRule<G::Input>>(
    keeper: &mut K,
    mut debt: Debt,
    second: bool,
    inputs: &Held<'_, G::Input>,
    digests: &mut FrameQueue,
    slots: &mut [u32],
    from: u32,
)
    requires whole { length slots.old ≡ queue_slots }
    requires low { from + debt.owed < digests.old.next }
    requires near { digests.old.next ≤ from + queue_slots }
    requires top { from + debt.owed ≤ top_frame }
    ensures kept { kept_states (K.kept keeper.new).states slots.new ≡ frames_from (setting G.next G.Input.idle G.Input.reads G.Input.code H.guessed) second (inputs_of inputs.now) from debt.owed (kept_states (K.kept keeper.old).states slots.old) }
    ensures next { digests.new.next ≡ digests.old.next }
{
    for frame in from..from + debt.owed() {
        replay_frame::<G, K, H>(keeper, &mut debt, second, inputs, digests, slots, frame);
    }
}
