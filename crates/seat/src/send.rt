// Send: what the other seat has not acknowledged, as a datagram.
ghost use Rattle.std.specs.Prelude.{◌≡◌, true, [], length};
ghost use Rattle.rollback.specs.Inputs.{setting};
ghost use Rattle.datagram.specs.Layout.{bytes_of};
ghost use Rattle.seat.specs.Views.{digest_at, rightly_lent};
ghost use Rattle.seat.specs.Calls.{or_refused, unacknowledged_codes, to_send, send_refusal, send_answer, send_leaves};
ghost use Rattle.seat.specs.Laws.{SendsHeld};
ghost use Rattle.seat.specs.Meaning.{view};

use crate::state::{Seat, Slots};
use datagram::codes::Codes;
use datagram::forms::Datagram;
use interface::answers::{Acceptance, Refusal};
use interface::game::Game;
use interface::guess::GuessRule;
use interface::input::InputKind;
use interface::keeper::Keeper;
use rollback::inputs::Window;

impl<G: Game, K: Keeper<G>, H: GuessRule<G::Input>> Seat<G, K, H> {
    // The codes of the own inputs from A to P − 1.
    fn unacknowledged_codes(&self, own: &[G::Input]) -> Codes
        ensures { result ≡ unacknowledged_codes (setting G.next G.Input.idle G.Input.reads G.Input.code H.guessed) (view K.kept self.now own.now [] []) }
    {
        let inputs = Window {
            queue: self.own,
            slots: own,
        };
        let mut codes = Codes::new();
        for frame in self.acknowledged..self.own.next() {
            let _ = codes.push(inputs.input_at(frame).code());
        }
        codes
    }

    // The digest held for a state, or 0.
    fn digest_at(&self, digests: &[u32], state: u32) -> u32
        ensures { result ≡ digest_at (view {I = G.Input} K.kept self.now [] [] digests.now) state }
    {
        self.digests.get(digests, state).unwrap_or(0)
    }

    // Writes the datagram into a buffer, and answers its length.
    pub fn try_send(&self, slots: Slots<'_, G::Input>, buffer: &mut [u8]) -> Result<u32, Refusal>
        ensures answer { result ≡ or_refused (send_refusal (setting G.next G.Input.idle G.Input.reads G.Input.code H.guessed) (view K.kept self.now slots.entry.own.now slots.entry.other.now slots.entry.digests.now) buffer.old) (length (bytes_of (to_send (setting G.next G.Input.idle G.Input.reads G.Input.code H.guessed) (view K.kept self.now slots.entry.own.now slots.entry.other.now slots.entry.digests.now)))) }
        ensures bytes { buffer.new ≡ send_leaves (setting G.next G.Input.idle G.Input.reads G.Input.code H.guessed) (view K.kept self.now slots.entry.own.now slots.entry.other.now slots.entry.digests.now) buffer.old }
        ensures slots { (slots.exit.0.now ≡ slots.entry.own.now) × (slots.exit.1.0.now ≡ slots.entry.other.now) × (slots.exit.1.1.0.now ≡ slots.entry.digests.now) }
        ensures held { rightly_lent (view K.kept self.now slots.entry.own.now slots.entry.other.now slots.entry.digests.now) ≡ true → SendsHeld (setting G.next G.Input.idle G.Input.reads G.Input.code H.guessed) (view K.kept self.now slots.entry.own.now slots.entry.other.now slots.entry.digests.now) }
    {
        if !slots.are_whole() {
            return Err(Refusal::BadFrame);
        }
        let Slots { own, digests, .. } = slots;
        let confirmed = self.confirmed();
        let datagram = Datagram {
            sender: u8::from(self.second),
            match_number: self.match_number,
            start: self.acknowledged as u16,
            codes: self.unacknowledged_codes(own),
            acknowledgement: self.other.next() as u16,
            report_frame: confirmed as u16,
            digest: self.digest_at(digests, confirmed),
        };
        datagram.write(buffer)
    }

    // The same, told by its number in the table, with slots taken apart as in `press`: 0 and the datagram's length, or a refusal's number and 0.
    pub fn send(&self, slots: Slots<'_, G::Input>, buffer: &mut [u8]) -> (u32, u32)
        ensures answer { result ≡ send_answer (setting G.next G.Input.idle G.Input.reads G.Input.code H.guessed) (view K.kept self.now slots.entry.own.now slots.entry.other.now slots.entry.digests.now) buffer.old }
        ensures bytes { buffer.new ≡ send_leaves (setting G.next G.Input.idle G.Input.reads G.Input.code H.guessed) (view K.kept self.now slots.entry.own.now slots.entry.other.now slots.entry.digests.now) buffer.old }
        ensures slots { (slots.exit.0.now ≡ slots.entry.own.now) × (slots.exit.1.0.now ≡ slots.entry.other.now) × (slots.exit.1.1.0.now ≡ slots.entry.digests.now) }
        ensures held { rightly_lent (view K.kept self.now slots.entry.own.now slots.entry.other.now slots.entry.digests.now) ≡ true → SendsHeld (setting G.next G.Input.idle G.Input.reads G.Input.code H.guessed) (view K.kept self.now slots.entry.own.now slots.entry.other.now slots.entry.digests.now) }
    {
        let Slots {
            own,
            other,
            digests,
        } = slots;
        let lent = Slots {
            own,
            other,
            digests,
        };
        match self.try_send(lent, buffer) {
            Ok(length) => (Acceptance::Accepted.number(), length),
            Err(why) => (why.number(), 0),
        }
    }
}
