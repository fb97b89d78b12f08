// Opening a match, and what can be read of it.
ghost use Rattle.std.specs.Prelude.{◌≡◌, true, ◌&&◌, List, [], is_ok, MatchResult};
ghost use Rattle.interface.specs.declared.answers.Refusal.TheVariants.{BadFrame};
ghost use Rattle.refine.specs.Setup.{setup};
ghost use Rattle.refine.specs.Memory.{Entry, SlotLists, slot_lists, sent_part};
ghost use Rattle.refine.specs.Laws.{opened};
ghost use Rattle.refine.specs.Standing.{Stands};
ghost use Rattle.match_engine.specs.Meaning.{seat_view, whole_memory, whole_slots};

use crate::state::Match;
use interface::answers::Refusal;
use interface::game::Game;
use interface::guess::GuessRule;
use interface::input::InputKind;
use interface::keeper::Keeper;
use seat::state::{Seat, Slots};

impl<G: Game, K0: Keeper<G>, K1: Keeper<G>, H0: GuessRule<G::Input>, H1: GuessRule<G::Input>> Match<
    G,
    K0,
    K1,
    H0,
    H1,
> {
    // Opens both seats, of which each is brought its slots; they are taken apart as in `press_by`.
    pub fn open(
        match_number: u16,
        seed: u32,
        first: Slots<'_, G::Input>,
        second: Slots<'_, G::Input>,
    ) -> Result<Self, Refusal>
        ensures answer { is_ok result ≡ (whole_slots (slot_lists first.entry.own.now first.entry.other.now first.entry.digests.now) && whole_slots (slot_lists second.entry.own.now second.entry.other.now second.entry.digests.now)) }
        ensures leaves { MatchResult result (λ m. ((log : List Entry) → whole_memory K0.kept K1.kept m (slot_lists first.exit.0.now first.exit.1.0.now first.exit.1.1.0.now) (slot_lists second.exit.0.now second.exit.1.0.now second.exit.1.1.0.now) log ≡ opened (G.opening seed) match_number (slot_lists first.entry.own.now first.entry.other.now first.entry.digests.now) (slot_lists second.entry.own.now second.entry.other.now second.entry.digests.now) log)) (λ why. (why ≡ BadFrame) × (slot_lists first.exit.0.now first.exit.1.0.now first.exit.1.1.0.now ≡ slot_lists first.entry.own.now first.entry.other.now first.entry.digests.now) × (slot_lists second.exit.0.now second.exit.1.0.now second.exit.1.1.0.now ≡ slot_lists second.entry.own.now second.entry.other.now second.entry.digests.now)) }
        ensures stands { MatchResult result (λ m. ((log : List Entry) → Stands (setup (G.opening seed) G.next G.Input.idle G.Input.reads G.Input.code H0.guessed H1.guessed) match_number [] (sent_part (whole_memory K0.kept K1.kept m (slot_lists first.exit.0.now first.exit.1.0.now first.exit.1.1.0.now) (slot_lists second.exit.0.now second.exit.1.0.now second.exit.1.1.0.now) log)))) (λ _. Unit) }
    {
        if !first.are_whole() || !second.are_whole() {
            return Err(Refusal::BadFrame);
        }
        let Slots {
            own,
            other,
            digests,
        } = first;
        let lent = Slots {
            own,
            other,
            digests,
        };
        let seat_0 = Seat::open(false, match_number, seed, lent).unwrap();
        let Slots {
            own: own_1,
            other: other_1,
            digests: digests_1,
        } = second;
        let lent_1 = Slots {
            own: own_1,
            other: other_1,
            digests: digests_1,
        };
        let seat_1 = Seat::open(true, match_number, seed, lent_1).unwrap();
        Ok(Match {
            first: seat_0,
            second: seat_1,
            sent: 0,
        })
    }

    // Seat 0, to be read.
    pub fn first(&self) -> &Seat<G, K0, H0>
        ensures { result.now ≡ self.now.first }
    {
        &self.first
    }

    // Seat 1.
    pub fn second(&self) -> &Seat<G, K1, H1>
        ensures { result.now ≡ self.now.second }
    {
        &self.second
    }

    // How many datagrams were sent.
    pub fn sent(&self) -> usize
        ensures { result ≡ self.now.sent }
    {
        self.sent
    }

    // P of seat 1, or of seat 0: each by its own name, since the seats have different types.
    pub fn played(&self, second: bool) -> u32
        ensures { (x : SlotLists G.Input) → result ≡ (seat_view K0.kept K1.kept self.now second x).played }
    {
        if second {
            return self.second.played();
        }
        self.first.played()
    }

    // R of seat 1, or of seat 0, as `played` finds P.
    pub fn known(&self, second: bool) -> u32
        ensures { (x : SlotLists G.Input) → result ≡ (seat_view K0.kept K1.kept self.now second x).known }
    {
        if second {
            return self.second.known();
        }
        self.first.known()
    }
}
