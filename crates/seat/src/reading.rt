// Opening a seat, and what can be read of it.
ghost use Rattle.std.specs.Prelude.{◌≡◌, min, ◌&&◌, is_ok, MatchResult};
ghost use Rattle.frames.specs.Queue.{whole};
ghost use Rattle.std.specs.List.{slice_get};
ghost use Rattle.interface.specs.Digest.{digest_of};
ghost use Rattle.interface.specs.Keepers.{newest};
ghost use Rattle.interface.specs.declared.answers.Refusal.TheVariants.{BadFrame};
ghost use Rattle.seat.specs.Calls.{opened};
ghost use Rattle.seat.specs.Meaning.{view};

use crate::state::{Seat, Slots};
use frames::queue::FrameQueue;
use interface::answers::Refusal;
use interface::game::Game;
use interface::guess::GuessRule;
use interface::input::InputKind;
use interface::keeper::Keeper;
use std::marker::PhantomData;

impl<G: Game, K: Keeper<G>, H: GuessRule<G::Input>> Seat<G, K, H> {
    // Opens seat 0, or seat 1 where `second`, and puts the digest of state 0. The match's number stays with the seat and the seed goes to the
    // game, so they are two parameters here and above.
    pub fn open(
        second: bool,
        match_number: u16,
        seed: u32,
        slots: Slots<'_, G::Input>,
    ) -> Result<Self, Refusal>
        ensures answer { is_ok result ≡ (whole slots.entry.own.now && whole slots.entry.other.now && whole slots.entry.digests.now) }
        ensures seat { MatchResult result (λ s. view K.kept s slots.exit.0.now slots.exit.1.0.now slots.exit.1.1.0.now ≡ opened second match_number (G.opening seed) slots.entry.own.now slots.entry.other.now slots.entry.digests.now) (λ why. (why ≡ BadFrame) × (slots.exit.0.now ≡ slots.entry.own.now) × (slots.exit.1.0.now ≡ slots.entry.other.now) × (slots.exit.1.1.0.now ≡ slots.entry.digests.now)) }
    {
        if !slots.are_whole() {
            return Err(Refusal::BadFrame);
        }
        let Slots { digests: held, .. } = slots;
        let keeper = K::open(seed);
        let mut digests = FrameQueue::new();
        let _ = digests.put(held, 0, keeper.digest());
        Ok(Seat {
            second,
            match_number,
            own: FrameQueue::new(),
            other: FrameQueue::new(),
            digests,
            acknowledged: 0,
            parted: false,
            keeper,
            rules: PhantomData,
        })
    }

    // P: the frames played.
    pub fn played(&self) -> u32
        ensures { result ≡ self.now.own.next }
    {
        self.own.next()
    }

    // R: the other seat's inputs that are known.
    pub fn known(&self) -> u32
        ensures { result ≡ self.now.other.next }
    {
        self.other.next()
    }

    // A: the own inputs that are acknowledged.
    pub fn acknowledged(&self) -> u32
        ensures { result ≡ self.now.acknowledged }
    {
        self.acknowledged
    }

    // C: states 0 to C are confirmed.
    pub fn confirmed(&self) -> u32
        ensures { result ≡ min self.now.own.next self.now.other.next }
    {
        self.played().min(self.known())
    }

    pub fn has_parted(&self) -> bool
        ensures { result ≡ self.now.parted }
    {
        self.parted
    }

    // Word k of the newest state, or nothing past its end.
    pub fn word(&self, k: u32) -> Option<u32>
        ensures { result ≡ slice_get (newest (K.kept self.now.keeper).states) k }
    {
        self.keeper.word(k)
    }

    // The digest of the newest state.
    pub fn digest(&self) -> u32
        ensures { result ≡ digest_of (newest (K.kept self.now.keeper).states) }
    {
        self.keeper.digest()
    }
}
