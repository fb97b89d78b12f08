// Press: the own input of a seat for the next frame.
ghost use Rattle.std.specs.Prelude.{◌≡◌, ◌+◌, ◌<◌, false, [], length, is_ok};
ghost use Rattle.std.specs.Option.{unwrap_or};
ghost use Rattle.interface.specs.Limits.{queue_slots, match_length, most_lead, most_unacknowledged};
ghost use Rattle.rollback.specs.Inputs.{setting};
ghost use Rattle.seat.specs.Calls.{or_refused, press_check, press_refusal, pressed, press_answer, press_leaves};
ghost use Rattle.seat.specs.Laws.{Refused};
ghost use Rattle.seat.specs.Meaning.{view};

use crate::state::{Seat, Slots};
use interface::answers::{Acceptance, Refusal};
use interface::game::Game;
use interface::guess::GuessRule;
use interface::input::InputKind;
use interface::keeper::Keeper;
use interface::limits::{MATCH_LENGTH, MOST_LEAD, MOST_UNACKNOWLEDGED};
use rollback::inputs::{Held, Window};
use rollback::replaying::play_frame;

impl<G: Game, K: Keeper<G>, H: GuessRule<G::Input>> Seat<G, K, H> {
    // The input that a press would play, or the first check that fails.
    fn check_press(&self, code: u16) -> Result<G::Input, Refusal>
        ensures { result ≡ or_refused (press_check (setting G.next G.Input.idle G.Input.reads G.Input.code H.guessed) (view K.kept self.now [] [] []) code) (unwrap_or (G.Input.reads code) G.Input.idle) }
    {
        if self.parted {
            return Err(Refusal::Parted);
        }
        // Here by `let .. else`: the input is used below, and a code that does not read is refused before anything is changed.
        let Some(input) = G::Input::read(code) else {
            return Err(Refusal::UnreadCode);
        };
        let played = self.own.next();
        if played == MATCH_LENGTH {
            return Err(Refusal::MatchOver);
        }
        if played == self.other.next() + MOST_LEAD {
            return Err(Refusal::TooFarAhead);
        }
        if played == self.acknowledged + MOST_UNACKNOWLEDGED {
            return Err(Refusal::Unacknowledged);
        }
        Ok(input)
    }

    // Plays frame P with an input of the seat's own.
    fn play(
        &mut self,
        own: &mut [G::Input],
        other: &[G::Input],
        digests: &mut [u32],
        input: G::Input,
    )
        requires own { length own.old ≡ queue_slots }
        requires digests { length digests.old ≡ queue_slots }
        requires length { self.old.own.next < match_length }
        requires lead { self.old.own.next < self.old.other.next + most_lead }
        requires unacknowledged { self.old.own.next < self.old.acknowledged + most_unacknowledged }
        ensures { view K.kept self.new own.new other.now digests.new ≡ pressed (setting G.next G.Input.idle G.Input.reads G.Input.code H.guessed) (view K.kept self.old own.old other.now digests.old) input }
    {
        let frame = self.own.next();
        let _ = self.own.put(own, frame, input);
        let inputs = Held {
            own: Window {
                queue: self.own,
                slots: own,
            },
            other: Window {
                queue: self.other,
                slots: other,
            },
        };
        play_frame::<G, K, H>(
            &mut self.keeper,
            self.second,
            &inputs,
            &mut self.digests,
            digests,
            frame,
        );
    }

    // Presses a code: it becomes the seat's input for frame P, which is then played.
    pub fn try_press(&mut self, slots: Slots<'_, G::Input>, code: u16) -> Result<(), Refusal>
        ensures answer { result ≡ or_refused (press_refusal (setting G.next G.Input.idle G.Input.reads G.Input.code H.guessed) (view K.kept self.old slots.entry.own.now slots.entry.other.now slots.entry.digests.now) code) tt }
        ensures leaves { view K.kept self.new slots.exit.0.now slots.exit.1.0.now slots.exit.1.1.0.now ≡ press_leaves (setting G.next G.Input.idle G.Input.reads G.Input.code H.guessed) (view K.kept self.old slots.entry.own.now slots.entry.other.now slots.entry.digests.now) code }
        ensures same { is_ok result ≡ false → self.new ≡ self.old }
    {
        if !slots.are_whole() {
            return Err(Refusal::BadFrame);
        }
        let input = self.check_press(code)?;
        let Slots {
            own,
            other,
            digests,
        } = slots;
        self.play(own, other, digests, input);
        Ok(())
    }

    // The same, told by its number in the table, as every outermost call is. The slots are taken apart first: of a struct of `&mut`
    // that is handed on whole, nothing is proved of what it leaves.
    pub fn press(&mut self, slots: Slots<'_, G::Input>, code: u16) -> u32
        ensures answer { result ≡ press_answer (setting G.next G.Input.idle G.Input.reads G.Input.code H.guessed) (view K.kept self.old slots.entry.own.now slots.entry.other.now slots.entry.digests.now) code }
        ensures leaves { view K.kept self.new slots.exit.0.now slots.exit.1.0.now slots.exit.1.1.0.now ≡ press_leaves (setting G.next G.Input.idle G.Input.reads G.Input.code H.guessed) (view K.kept self.old slots.entry.own.now slots.entry.other.now slots.entry.digests.now) code }
        ensures same { Refused result → self.new ≡ self.old }
    {
        let Slots {
            own,
            other,
            digests,
        } = slots;
        let lent = Slots {
            own,
            other,
            digests,
        };
        match self.try_press(lent, code) {
            Ok(()) => Acceptance::Accepted.number(),
            Err(why) => why.number(),
        }
    }
}
