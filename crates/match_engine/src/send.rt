// Send: a seat's datagram, appended to the log.
ghost use Rattle.std.specs.Prelude.{◌≡◌, length, if◌then◌else◌};
ghost use Rattle.interface.specs.Games.{State};
ghost use Rattle.rollback.specs.Inputs.{setting};
ghost use Rattle.seat.specs.Laws.{Refused};
ghost use Rattle.seat.specs.Calls.{or_refused, send_refusal};
ghost use Rattle.seat.specs.Meaning.{view};
ghost use Rattle.refine.specs.Setup.{setup};
ghost use Rattle.refine.specs.Memory.{SlotLists, slot_lists};
ghost use Rattle.refine.specs.Outcomes.{Sending, outcome};
ghost use Rattle.match_engine.specs.Calls.{Does};
ghost use Rattle.match_engine.specs.Log.{entries, entry_of, sent_entry};
ghost use Rattle.match_engine.specs.Meaning.{seat_view, memory};

use crate::log::Record;
use crate::state::Match;
use interface::answers::{Acceptance, Refusal};
use interface::game::Game;
use interface::guess::GuessRule;
use interface::input::InputKind;
use interface::keeper::Keeper;
use seat::state::{Seat, Slots};

// Writes a seat's datagram into a record, where the seat sends. The slots are taken apart as in `press_by`, here and below.
fn write_record<G: Game, K: Keeper<G>, H: GuessRule<G::Input>>(
    seat: &Seat<G, K, H>,
    second: bool,
    slots: Slots<'_, G::Input>,
    to: &mut Record,
) -> Result<(), Refusal>
    ensures answer { result ≡ or_refused (send_refusal (setting G.next G.Input.idle G.Input.reads G.Input.code H.guessed) (view K.kept seat.now slots.entry.own.now slots.entry.other.now slots.entry.digests.now) to.old.bytes) tt }
    ensures written { entry_of to.new ≡ sent_entry (setting G.next G.Input.idle G.Input.reads G.Input.code H.guessed) (view K.kept seat.now slots.entry.own.now slots.entry.other.now slots.entry.digests.now) second (entry_of to.old) }
    ensures slots { slot_lists slots.exit.0.now slots.exit.1.0.now slots.exit.1.1.0.now ≡ slot_lists slots.entry.own.now slots.entry.other.now slots.entry.digests.now }
    ensures room { length to.old.bytes ≡ 85 }
{
    let Slots {
        own,
        other,
        digests,
    } = slots;
    let lent = Slots {
        own,
        other,
        digests,
    };
    to.len = seat.try_send(lent, &mut to.bytes)?;
    to.sender = second;
    Ok(())
}

impl<G: Game, K0: Keeper<G>, K1: Keeper<G>, H0: GuessRule<G::Input>, H1: GuessRule<G::Input>> Match<
    G,
    K0,
    K1,
    H0,
    H1,
> {
    // Writes the datagram of seat 1, or of seat 0, into a record, by the seat as in `press_by`.
    fn send_by(
        &self,
        second: bool,
        slots: Slots<'_, G::Input>,
        to: &mut Record,
    ) -> Result<(), Refusal>
        ensures answer { result ≡ or_refused (send_refusal (setting G.next G.Input.idle G.Input.reads G.Input.code (if second then H1.guessed else H0.guessed)) (seat_view K0.kept K1.kept self.now second (slot_lists slots.entry.own.now slots.entry.other.now slots.entry.digests.now)) to.old.bytes) tt }
        ensures written { entry_of to.new ≡ sent_entry (setting G.next G.Input.idle G.Input.reads G.Input.code (if second then H1.guessed else H0.guessed)) (seat_view K0.kept K1.kept self.now second (slot_lists slots.entry.own.now slots.entry.other.now slots.entry.digests.now)) second (entry_of to.old) }
        ensures slots { slot_lists slots.exit.0.now slots.exit.1.0.now slots.exit.1.1.0.now ≡ slot_lists slots.entry.own.now slots.entry.other.now slots.entry.digests.now }
        ensures room { length to.old.bytes ≡ 85 }
    {
        let Slots {
            own,
            other,
            digests,
        } = slots;
        let lent = Slots {
            own,
            other,
            digests,
        };
        if second {
            return write_record(&self.second, true, lent, to);
        }
        let answer = write_record(&self.first, false, lent, to);
        answer
    }

    // Sends at a seat: its datagram joins the log. Seat and answer are numbers as in `press`.
    pub fn send(&mut self, seat: u32, slots: Slots<'_, G::Input>, log: &mut [Record]) -> u32
        ensures does { (opening : State) (rest : SlotLists G.Input) → Does (setup opening G.next G.Input.idle G.Input.reads G.Input.code H0.guessed H1.guessed) (memory K0.kept K1.kept self.old seat (slot_lists slots.entry.own.now slots.entry.other.now slots.entry.digests.now) rest (entries log.old)) seat Sending (outcome (memory K0.kept K1.kept self.new seat (slot_lists slots.exit.0.now slots.exit.1.0.now slots.exit.1.1.0.now) rest (entries log.new)) result 0) }
        ensures same { Refused result → self.new ≡ self.old }
    {
        if seat > 1 {
            return Refusal::NoSuchSeat.number();
        }
        if !slots.are_whole() {
            return Refusal::BadFrame.number();
        }
        if self.sent >= log.len() {
            return Refusal::LogFull.number();
        }
        let Slots {
            own,
            other,
            digests,
        } = slots;
        let lent = Slots {
            own,
            other,
            digests,
        };
        let sent = self.send_by(seat == 1, lent, &mut log[self.sent]);
        if let Err(why) = sent {
            return why.number();
        }
        self.sent += 1;
        Acceptance::Accepted.number()
    }
}
