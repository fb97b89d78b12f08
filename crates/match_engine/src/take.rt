// Take: a datagram of the log, handed to a seat.
ghost use Rattle.std.specs.Prelude.{◌≡◌, false, is_ok, if◌then◌else◌};
ghost use Rattle.interface.specs.Games.{State};
ghost use Rattle.rollback.specs.Inputs.{setting};
ghost use Rattle.seat.specs.Laws.{Refused};
ghost use Rattle.seat.specs.Calls.{or_refused, take_refusal, take_accepted, take_leaves};
ghost use Rattle.refine.specs.Setup.{setup};
ghost use Rattle.refine.specs.Memory.{SlotLists, slot_lists};
ghost use Rattle.refine.specs.Outcomes.{Taking, outcome};
ghost use Rattle.match_engine.specs.Calls.{Does};
ghost use Rattle.match_engine.specs.Log.{entries};
ghost use Rattle.match_engine.specs.Meaning.{seat_view, memory, KeepsRest};

use crate::log::Record;
use crate::state::Match;
use interface::answers::{Acceptance, Refusal};
use interface::game::Game;
use interface::guess::GuessRule;
use interface::input::InputKind;
use interface::keeper::Keeper;
use seat::state::Slots;

impl<G: Game, K0: Keeper<G>, K1: Keeper<G>, H0: GuessRule<G::Input>, H1: GuessRule<G::Input>> Match<
    G,
    K0,
    K1,
    H0,
    H1,
> {
    // Takes bytes at seat 1, or at seat 0, by the seat as in `press_by`.
    fn take_by(
        &mut self,
        second: bool,
        slots: Slots<'_, G::Input>,
        bytes: &[u8],
    ) -> Result<(Acceptance, u32), Refusal>
        ensures answer { result ≡ or_refused (take_refusal (setting G.next G.Input.idle G.Input.reads G.Input.code (if second then H1.guessed else H0.guessed)) (seat_view K0.kept K1.kept self.old second (slot_lists slots.entry.own.now slots.entry.other.now slots.entry.digests.now)) bytes.now) (take_accepted (setting G.next G.Input.idle G.Input.reads G.Input.code (if second then H1.guessed else H0.guessed)) (seat_view K0.kept K1.kept self.old second (slot_lists slots.entry.own.now slots.entry.other.now slots.entry.digests.now)) bytes.now) }
        ensures leaves { seat_view K0.kept K1.kept self.new second (slot_lists slots.exit.0.now slots.exit.1.0.now slots.exit.1.1.0.now) ≡ take_leaves (setting G.next G.Input.idle G.Input.reads G.Input.code (if second then H1.guessed else H0.guessed)) (seat_view K0.kept K1.kept self.old second (slot_lists slots.entry.own.now slots.entry.other.now slots.entry.digests.now)) bytes.now }
        ensures same { is_ok result ≡ false → self.new ≡ self.old }
        ensures rest { KeepsRest G.Input K0.kept K1.kept self.old self.new second }
    {
        let Slots {
            own,
            other,
            digests,
        } = slots;
        let lent = Slots {
            own,
            other,
            digests,
        };
        if second {
            return self.second.try_take(lent, bytes);
        }
        let answer = self.first.try_take(lent, bytes);
        answer
    }

    // Takes datagram k of the log at a seat, and answers the code and the frames replayed. Seat and code are numbers as in `press`.
    pub fn take(
        &mut self,
        seat: u32,
        slots: Slots<'_, G::Input>,
        log: &[Record],
        k: u32,
    ) -> (u32, u32)
        ensures does { (opening : State) (rest : SlotLists G.Input) → Does (setup opening G.next G.Input.idle G.Input.reads G.Input.code H0.guessed H1.guessed) (memory K0.kept K1.kept self.old seat (slot_lists slots.entry.own.now slots.entry.other.now slots.entry.digests.now) rest (entries log.now)) seat (Taking k) (outcome (memory K0.kept K1.kept self.new seat (slot_lists slots.exit.0.now slots.exit.1.0.now slots.exit.1.1.0.now) rest (entries log.now)) result.0 result.1) }
        ensures same { Refused result.0 → self.new ≡ self.old }
    {
        if seat > 1 {
            return (Refusal::NoSuchSeat.number(), 0);
        }
        if !slots.are_whole() {
            return (Refusal::BadFrame.number(), 0);
        }
        let Slots {
            own,
            other,
            digests,
        } = slots;
        let at = k as usize;
        if at >= log.len() || at >= self.sent || log[at].sender == (seat == 1) {
            return (Refusal::NoSuchDatagram.number(), 0);
        }
        let lent = Slots {
            own,
            other,
            digests,
        };
        match self.take_by(seat == 1, lent, log[at].datagram()) {
            Ok((how, frames)) => (how.number(), frames),
            Err(why) => (why.number(), 0),
        }
    }
}
