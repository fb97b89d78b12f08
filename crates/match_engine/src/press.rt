// Press: an input of one seat.
ghost use Rattle.std.specs.Prelude.{◌≡◌, false, is_ok, List, if◌then◌else◌};
ghost use Rattle.interface.specs.Games.{State};
ghost use Rattle.rollback.specs.Inputs.{setting};
ghost use Rattle.seat.specs.Laws.{Refused};
ghost use Rattle.seat.specs.Calls.{or_refused, press_refusal, press_leaves};
ghost use Rattle.refine.specs.Setup.{setup};
ghost use Rattle.refine.specs.Memory.{Entry, SlotLists, slot_lists};
ghost use Rattle.refine.specs.Outcomes.{Pressing, outcome};
ghost use Rattle.match_engine.specs.Calls.{Does};
ghost use Rattle.match_engine.specs.Meaning.{seat_view, memory, KeepsRest};

use crate::state::Match;
use interface::answers::{Acceptance, Refusal};
use interface::game::Game;
use interface::guess::GuessRule;
use interface::input::InputKind;
use interface::keeper::Keeper;
use seat::state::Slots;

impl<G: Game, K0: Keeper<G>, K1: Keeper<G>, H0: GuessRule<G::Input>, H1: GuessRule<G::Input>> Match<
    G,
    K0,
    K1,
    H0,
    H1,
> {
    // Presses at seat 1, or at seat 0; the seats have different types, so no reference stands for either. The slots are taken apart, and
    // the last answer has a name: else nothing is proved of what they leave.
    fn press_by(
        &mut self,
        second: bool,
        slots: Slots<'_, G::Input>,
        code: u16,
    ) -> Result<(), Refusal>
        ensures answer { result ≡ or_refused (press_refusal (setting G.next G.Input.idle G.Input.reads G.Input.code (if second then H1.guessed else H0.guessed)) (seat_view K0.kept K1.kept self.old second (slot_lists slots.entry.own.now slots.entry.other.now slots.entry.digests.now)) code) tt }
        ensures leaves { seat_view K0.kept K1.kept self.new second (slot_lists slots.exit.0.now slots.exit.1.0.now slots.exit.1.1.0.now) ≡ press_leaves (setting G.next G.Input.idle G.Input.reads G.Input.code (if second then H1.guessed else H0.guessed)) (seat_view K0.kept K1.kept self.old second (slot_lists slots.entry.own.now slots.entry.other.now slots.entry.digests.now)) code }
        ensures same { is_ok result ≡ false → self.new ≡ self.old }
        ensures rest { KeepsRest G.Input K0.kept K1.kept self.old self.new second }
    {
        let Slots {
            own,
            other,
            digests,
        } = slots;
        let lent = Slots {
            own,
            other,
            digests,
        };
        if second {
            return self.second.try_press(lent, code);
        }
        let answer = self.first.try_press(lent, code);
        answer
    }

    // Presses a code at a seat. The seat comes as any number, and the answer is one of the table, as in every outermost call.
    pub fn press(&mut self, seat: u32, slots: Slots<'_, G::Input>, code: u16) -> u32
        ensures does { (opening : State) (rest : SlotLists G.Input) (log : List Entry) → Does (setup opening G.next G.Input.idle G.Input.reads G.Input.code H0.guessed H1.guessed) (memory K0.kept K1.kept self.old seat (slot_lists slots.entry.own.now slots.entry.other.now slots.entry.digests.now) rest log) seat (Pressing code) (outcome (memory K0.kept K1.kept self.new seat (slot_lists slots.exit.0.now slots.exit.1.0.now slots.exit.1.1.0.now) rest log) result 0) }
        ensures same { Refused result → self.new ≡ self.old }
    {
        let Slots {
            own,
            other,
            digests,
        } = slots;
        let lent = Slots {
            own,
            other,
            digests,
        };
        if seat > 1 {
            return Refusal::NoSuchSeat.number();
        }
        match self.press_by(seat == 1, lent, code) {
            Ok(()) => Acceptance::Accepted.number(),
            Err(why) => why.number(),
        }
    }
}
