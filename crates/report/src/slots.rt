// A seat's slots.
ghost use Rattle.std.specs.Prelude.{◌≡◌, replicate, IfOk, vec_items};
ghost use Rattle.interface.specs.Limits.{queue_slots};
ghost use Rattle.refine.specs.Memory.{slot_lists};
ghost use Rattle.report.specs.Replays.{empty_slots};

use interface::input::InputKind;
use interface::limits::QUEUE_SLOTS;
use seat::state::Slots;
use std::alloc::{AllocError, Global};

// On the heap, since an array of a type parameter may be too large.
#[derive(Drop)]
pub(crate) struct SeatSlots<I> {
    own: Vec<I>,
    other: Vec<I>,
    digests: Vec<u32>,
}

// The inputs of 32 frames in which nothing is done.
fn idle_inputs<I: InputKind>(heap: Global) -> Result<Vec<I>, AllocError>
    ensures { IfOk result (λ v. v.items ≡ replicate queue_slots I.idle) }
{
    (0..QUEUE_SLOTS).map(|_| I::idle()).collect(heap)
}

impl<I: InputKind> SeatSlots<I> {
    // With nothing in them.
    pub(crate) fn new(heap: Global) -> Result<Self, AllocError>
        ensures { IfOk result (λ x. slot_lists (vec_items x.own) (vec_items x.other) (vec_items x.digests) ≡ empty_slots I.idle) }
    {
        Ok(SeatSlots {
            own: idle_inputs(heap)?,
            other: idle_inputs(heap)?,
            digests: vec![in heap; 0; QUEUE_SLOTS]?,
        })
    }

    pub(crate) fn lend(&mut self) -> Slots<'_, I>
        ensures { slot_lists result.own.now result.other.now result.digests.now ≡ slot_lists (vec_items self.old.own) (vec_items self.old.other) (vec_items self.old.digests) }
    {
        Slots {
            own: &mut self.own,
            other: &mut self.other,
            digests: &mut self.digests,
        }
    }
}
