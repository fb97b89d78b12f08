// Take: a datagram of the other seat, as any bytes.
ghost use Rattle.std.specs.Prelude.{◌≡◌, ◌+◌, ◌≤◌, false, [], length, is_ok, IfOk};
ghost use Rattle.interface.specs.Limits.{queue_slots, most_codes, match_length, most_lead};
ghost use Rattle.rollback.specs.Inputs.{setting};
ghost use Rattle.rollback.specs.Meanings.{codes_in, end_of};
ghost use Rattle.datagram.specs.Meanings.{answered, fields_read};
ghost use Rattle.plain.specs.Match.{unless_refused};
ghost use Rattle.seat.specs.Calls.{or_refused, all_read, take_checked, reach_check, frames_replayed, caught, acceptance, report_differs, judged, take_refusal, take_accepted, take_answer, take_leaves};
ghost use Rattle.seat.specs.Laws.{Replays, Refused};
ghost use Rattle.seat.specs.Meaning.{view};

use crate::state::{Seat, Slots};
use datagram::forms::Datagram;
use datagram::read::read;
use interface::answers::{Acceptance, Refusal};
use interface::game::Game;
use interface::guess::GuessRule;
use interface::input::InputKind;
use interface::keeper::Keeper;
use interface::limits::{MATCH_LENGTH, MOST_LEAD};
use rollback::inputs::{Held, Window};
use rollback::news::{end_of, keep_codes, lowest_change};
use rollback::replaying::pay_off;

// Whether every code of the datagram reads, asked before anything is changed.
fn all_read<I: InputKind>(datagram: &Datagram<&[u8]>) -> bool
    ensures { result ≡ all_read I.reads (codes_in datagram.now) }
{
    for code in datagram.codes() {
        let Some(_) = I::read(code) else {
            return false;
        };
    }
    true
}

impl<G: Game, K: Keeper<G>, H: GuessRule<G::Input>> Seat<G, K, H> {
    // The datagram that the bytes are, or the first check that fails.
    fn check_take<'a>(&self, bytes: &'a [u8]) -> Result<Datagram<&'a [u8]>, Refusal>
        ensures answer { answered result ≡ take_checked (setting G.next G.Input.idle G.Input.reads G.Input.code H.guessed) (view K.kept self.now [] [] []) bytes.now }
        ensures few { IfOk result (λ d. length (codes_in d) ≤ most_codes) }
    {
        if self.parted {
            return Err(Refusal::Parted);
        }
        let datagram = read(bytes)?;
        let played = self.own.next();
        let known = self.other.next();
        let end = end_of(&datagram);
        let report = u32::from(datagram.report_frame);
        if datagram.match_number != self.match_number || datagram.sender != u8::from(!self.second) {
            return Err(Refusal::NotOurs);
        }
        if !all_read::<G::Input>(&datagram) {
            return Err(Refusal::UnreadCode);
        }
        if u32::from(datagram.start) > known {
            return Err(Refusal::StartTooLate);
        }
        if end > played + MOST_LEAD || end > MATCH_LENGTH {
            return Err(Refusal::EndTooLate);
        }
        if u32::from(datagram.acknowledgement) > played {
            return Err(Refusal::AcknowledgementTooLate);
        }
        if report > played || report > known.max(end) {
            return Err(Refusal::ReportTooLate);
        }
        Ok(datagram)
    }

    // Keeps the datagram's codes from R on, and replays the frames that were guessed wrong; answers how many.
    fn catch_up(
        &mut self,
        own: &[G::Input],
        other: &mut [G::Input],
        digests: &mut [u32],
        datagram: &Datagram<&[u8]>,
    ) -> Result<u32, Refusal>
        requires other { length other.old ≡ queue_slots }
        requires digests { length digests.old ≡ queue_slots }
        requires few { length (codes_in datagram.now) ≤ most_codes }
        requires start { datagram.now.start ≤ self.old.other.next }
        requires near { end_of datagram.now ≤ self.old.own.next + most_lead }
        requires within { end_of datagram.now ≤ match_length }
        requires acknowledgement { datagram.now.acknowledgement ≤ self.old.own.next }
        ensures answer { result ≡ or_refused (reach_check (setting G.next G.Input.idle G.Input.reads G.Input.code H.guessed) (view K.kept self.old own.now other.old digests.old) (fields_read datagram.now)) (frames_replayed (setting G.next G.Input.idle G.Input.reads G.Input.code H.guessed) (view K.kept self.old own.now other.old digests.old) (fields_read datagram.now)) }
        ensures leaves { view K.kept self.new own.now other.new digests.new ≡ unless_refused (reach_check (setting G.next G.Input.idle G.Input.reads G.Input.code H.guessed) (view K.kept self.old own.now other.old digests.old) (fields_read datagram.now)) (view K.kept self.old own.now other.old digests.old) (caught (setting G.next G.Input.idle G.Input.reads G.Input.code H.guessed) (view K.kept self.old own.now other.old digests.old) (fields_read datagram.now)) }
        ensures same { is_ok result ≡ false → self.new ≡ self.old }
    {
        let played = self.own.next();
        let before = Held {
            own: Window {
                queue: self.own,
                slots: own,
            },
            other: Window {
                queue: self.other,
                slots: other,
            },
        };
        let frames = played.saturating_sub(lowest_change::<G, H>(&before, datagram));
        let debt = self.keeper.go_back(frames)?;
        keep_codes(&mut self.other, other, datagram);
        self.acknowledged = self.acknowledged.max(u32::from(datagram.acknowledgement));
        let after = Held {
            own: Window {
                queue: self.own,
                slots: own,
            },
            other: Window {
                queue: self.other,
                slots: other,
            },
        };
        pay_off::<G, K, H>(
            &mut self.keeper,
            debt,
            self.second,
            &after,
            &mut self.digests,
            digests,
            played - frames,
        );
        Ok(frames)
    }

    // Whether the report is recent and differs from the digest held.
    fn report_differs(&self, digests: &[u32], datagram: &Datagram<&[u8]>) -> bool
        ensures { result ≡ report_differs (setting G.next G.Input.idle G.Input.reads G.Input.code H.guessed) (view K.kept self.now [] [] []) (fields_read datagram.now) digests.now }
    {
        let report = u32::from(datagram.report_frame);
        if self.own.next() > report + 31 {
            return false;
        }
        match self.digests.get(digests, report) {
            Some(held) => held != datagram.digest,
            None => false,
        }
    }

    // Judges the report last: the seat has parted where it differs.
    fn judge(&mut self, digests: &[u32], datagram: &Datagram<&[u8]>) -> Acceptance
        ensures how { result ≡ acceptance (report_differs (setting G.next G.Input.idle G.Input.reads G.Input.code H.guessed) (view K.kept self.old [] [] []) (fields_read datagram.now) digests.now) }
        ensures leaves { view {I = G.Input} K.kept self.new [] [] [] ≡ judged (view K.kept self.old [] [] []) (report_differs (setting G.next G.Input.idle G.Input.reads G.Input.code H.guessed) (view K.kept self.old [] [] []) (fields_read datagram.now) digests.now) }
    {
        self.parted = self.report_differs(digests, datagram);
        if self.parted {
            Acceptance::AcceptedAndParted
        } else {
            Acceptance::Accepted
        }
    }

    // Takes a datagram, and answers how it was accepted and the frames replayed.
    pub fn try_take(
        &mut self,
        slots: Slots<'_, G::Input>,
        bytes: &[u8],
    ) -> Result<(Acceptance, u32), Refusal>
        ensures answer { result ≡ or_refused (take_refusal (setting G.next G.Input.idle G.Input.reads G.Input.code H.guessed) (view K.kept self.old slots.entry.own.now slots.entry.other.now slots.entry.digests.now) bytes.now) (take_accepted (setting G.next G.Input.idle G.Input.reads G.Input.code H.guessed) (view K.kept self.old slots.entry.own.now slots.entry.other.now slots.entry.digests.now) bytes.now) }
        ensures leaves { view K.kept self.new slots.exit.0.now slots.exit.1.0.now slots.exit.1.1.0.now ≡ take_leaves (setting G.next G.Input.idle G.Input.reads G.Input.code H.guessed) (view K.kept self.old slots.entry.own.now slots.entry.other.now slots.entry.digests.now) bytes.now }
        ensures replays { IfOk result (λ x. Replays (setting G.next G.Input.idle G.Input.reads G.Input.code H.guessed) (view K.kept self.old slots.entry.own.now slots.entry.other.now slots.entry.digests.now) (view K.kept self.new slots.exit.0.now slots.exit.1.0.now slots.exit.1.1.0.now) x.1) }
        ensures same { is_ok result ≡ false → self.new ≡ self.old }
    {
        if !slots.are_whole() {
            return Err(Refusal::BadFrame);
        }
        let datagram = self.check_take(bytes)?;
        let Slots {
            own,
            other,
            digests,
        } = slots;
        let frames = self.catch_up(own, other, digests, &datagram)?;
        Ok((self.judge(digests, &datagram), frames))
    }

    // The same, told by its number in the table, with slots taken apart as in `press`: the code and the frames replayed.
    pub fn take(&mut self, slots: Slots<'_, G::Input>, bytes: &[u8]) -> (u32, u32)
        ensures answer { result ≡ take_answer (setting G.next G.Input.idle G.Input.reads G.Input.code H.guessed) (view K.kept self.old slots.entry.own.now slots.entry.other.now slots.entry.digests.now) bytes.now }
        ensures leaves { view K.kept self.new slots.exit.0.now slots.exit.1.0.now slots.exit.1.1.0.now ≡ take_leaves (setting G.next G.Input.idle G.Input.reads G.Input.code H.guessed) (view K.kept self.old slots.entry.own.now slots.entry.other.now slots.entry.digests.now) bytes.now }
        ensures replays { Replays (setting G.next G.Input.idle G.Input.reads G.Input.code H.guessed) (view K.kept self.old slots.entry.own.now slots.entry.other.now slots.entry.digests.now) (view K.kept self.new slots.exit.0.now slots.exit.1.0.now slots.exit.1.1.0.now) result.1 }
        ensures same { Refused result.0 → self.new ≡ self.old }
    {
        let Slots {
            own,
            other,
            digests,
        } = slots;
        let lent = Slots {
            own,
            other,
            digests,
        };
        match self.try_take(lent, bytes) {
            Ok((how, frames)) => (how.number(), frames),
            Err(why) => (why.number(), 0),
        }
    }
}
