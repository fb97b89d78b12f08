// What a seat holds, and the slots that it is lent.
ghost use Rattle.std.specs.Prelude.{◌≡◌, ◌+◌, ◌≤◌, ◌&&◌, nat_le, length};
ghost use Rattle.interface.specs.Limits.{queue_slots};
ghost use Rattle.frames.specs.Queue.{whole};

use frames::queue::FrameQueue;
use interface::limits::QUEUE_SLOTS;
use std::marker::PhantomData;

// The slots of a seat's three queues, lent for one call.
#[derive(Drop)]
pub struct Slots<'a, I> {
    pub own: &'a mut [I],
    pub other: &'a mut [I],
    pub digests: &'a mut [u32],
}

impl<I> Slots<'_, I> {
    // Whether there are 32 slots of each kind.
    pub fn are_whole(&self) -> bool
        ensures { result ≡ (whole self.now.own.now && whole self.now.other.now && whole self.now.digests.now) }
    {
        self.own.len() == QUEUE_SLOTS
            && self.other.len() == QUEUE_SLOTS
            && self.digests.len() == QUEUE_SLOTS
    }

    // Whether there are 32 slots of each kind, or more.
    pub fn are_enough(&self) -> bool
        ensures { result ≡ (nat_le queue_slots (length self.now.own.now) && nat_le queue_slots (length self.now.other.now) && nat_le queue_slots (length self.now.digests.now)) }
    {
        self.own.len() >= QUEUE_SLOTS
            && self.other.len() >= QUEUE_SLOTS
            && self.digests.len() >= QUEUE_SLOTS
    }
}

#[derive(Drop)]
pub struct Seat<G, K, H> {
    // Seat 1, else seat 0: a truth value, as in all that is said of matches, so that no clause has to convert it.
    pub(crate) second: bool,
    pub(crate) match_number: u16,
    // The seat's own inputs: the next frame is P.
    pub(crate) own: FrameQueue,
    // The other seat's: the next frame is R.
    pub(crate) other: FrameQueue,
    // The digests of states: the next is P + 1.
    pub(crate) digests: FrameQueue,
    // A.
    pub(crate) acknowledged: u32,
    pub(crate) parted: bool,
    pub(crate) keeper: K,
    pub(crate) rules: PhantomData<(G, H)>,
    ghost digested: { digests.next ≡ own.next + 1 },
    ghost within: { own.next ≤ 60000 },
    ghost known_within: { other.next ≤ 60000 },
    ghost lead: { own.next ≤ other.next + 8 },
    ghost news: { other.next ≤ own.next + 8 },
    ghost acknowledged_within: { acknowledged ≤ own.next },
    ghost unacknowledged: { own.next ≤ acknowledged + 32 },
}
