// A queue of frames. It holds only the next frame's number: its 32 slots come with each call, and frame f lies in slot f mod 32.
ghost use Rattle.std.specs.Prelude.{◌≡◌, ℕ, ◌+◌, ◌≤◌, true, ◌&&◌, is_some, is_ok};
ghost use Rattle.interface.specs.Limits.{top_frame};
ghost use Rattle.frames.specs.Queue.{whole, in_reach, held, may_put, put_answer, next_after, slots_after, read_after};

use interface::answers::Refusal;
use interface::limits::{QUEUE_SLOTS, TOP_FRAME};

#[derive(Clone, Copy, Debug)]
pub struct FrameQueue {
    next: u32,
    // No frame above the last that a queue takes was ever put.
    ghost low: { next ≤ top_frame + 1 },
}

impl FrameQueue {
    // A queue that holds no frame yet.
    pub fn new() -> Self
        ensures { result.next ≡ 0 }
    {
        FrameQueue { next: 0 }
    }

    // The frame that comes next.
    pub fn next(&self) -> u32
        ensures { result ≡ self.now.next }
    {
        self.next
    }

    // Whether a frame is one of the 32 before the next.
    fn reaches(&self, frame: u32) -> bool
        ensures { result ≡ in_reach self.now.next frame }
    {
        frame < self.next && (self.next - frame) as usize <= QUEUE_SLOTS
    }

    // The value of a frame, or nothing where it is not held or the slots are not 32.
    pub fn get<T: Copy>(&self, slots: &[T], frame: u32) -> Option<T>
        ensures value { result ≡ held slots.now self.now.next frame }
        ensures exact { is_some result ≡ (whole slots.now && in_reach self.now.next frame) }
    {
        if slots.len() != QUEUE_SLOTS || !self.reaches(frame) {
            return None;
        }
        Some(slots[frame as usize % QUEUE_SLOTS])
    }

    // Replaces the value of a held frame, or takes the next frame and lets the oldest of 32 go.
    pub fn put<T: Copy>(&mut self, slots: &mut [T], frame: u32, value: T) -> Result<(), Refusal>
        ensures answer { result ≡ put_answer (may_put slots.old self.old.next frame) }
        ensures next { self.new.next ≡ next_after (may_put slots.old self.old.next frame) self.old.next frame }
        ensures slots { slots.new ≡ slots_after (may_put slots.old self.old.next frame) slots.old frame value }
        ensures reads { is_ok result ≡ true → (f : ℕ) → held slots.new self.new.next f ≡ read_after (held slots.old self.old.next) self.new.next frame value f }
    {
        if slots.len() != QUEUE_SLOTS
            || frame > TOP_FRAME
            || !(self.reaches(frame) || frame == self.next)
        {
            return Err(Refusal::BadFrame);
        }
        slots[frame as usize % QUEUE_SLOTS] = value;
        self.next = self.next.max(frame + 1);
        Ok(())
    }
}
