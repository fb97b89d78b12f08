// The trail of a frame: the old values of all words that the frame can change, in four words.
ghost use Rattle.std.specs.Prelude.{◌≡◌};
ghost use Rattle.speed.specs.Places.{seat_number};
ghost use Rattle.speed.specs.Trails.{slot_of, seat_trail, trail_of, seat_back, put_back};

use crate::game::Speed;
use crate::moves::Move;
use crate::places::{DRAWS, HANDS, PARITY, SIDES, Seat, TOPS, Words};
use interface::game::Trail;

// The slot that a move can change.
fn changed_slot(choice: Move) -> usize
    ensures { result ≡ slot_of choice }
{
    match choice {
        Move::Play { slot, .. } => slot.number(),
        Move::Idle | Move::CallTurn => 0,
    }
}

impl Speed {
    // A seat's word: a slot, its card, the seat's draws, and the top of the pile of the seat's number.
    fn seat_word(&self, seat: Seat, choice: Move) -> u32
        ensures { result ≡ seat_trail self.now.words (seat_number seat) choice }
    {
        let slot = changed_slot(choice);
        let card = self.words[HANDS + 5 * seat as usize + slot];
        let draws = self.words[DRAWS + seat as usize];
        slot as u32 + 5 * (card + 64 * (draws + 16 * self.words[TOPS + seat as usize]))
    }

    // The trail that a frame with these moves leaves.
    #[tactic(auto, unfolding(crate::specs::Trails::trail_of))]
    pub(crate) fn record_trail(&self, first: Move, second: Move) -> Trail
        ensures { result ≡ trail_of self.now.words first second }
    {
        [
            self.seat_word(Seat::Zero, first),
            self.seat_word(Seat::One, second),
            self.words[SIDES],
            self.words[PARITY],
        ]
    }
}

// Puts back what a seat's word holds.
fn restore_seat(words: &mut Words, seat: Seat, trail: u32)
    ensures { words.new ≡ seat_back words.old (seat_number seat) trail }
{
    words[HANDS + 5 * seat as usize + (trail % 5) as usize] = trail / 5 % 64;
    words[DRAWS + seat as usize] = trail / 5 / 64 % 16;
    words[TOPS + seat as usize] = trail / 5 / 64 / 16;
}

// Puts back what a trail holds. The words need not be lawful afterwards.
#[tactic(auto, unfolding(crate::specs::Trails::put_back))]
pub(crate) fn restore_trail(words: &mut Words, trail: &Trail)
    ensures { words.new ≡ put_back words.old trail.now }
{
    let [first, second, sides, parity] = *trail;
    words[SIDES] = sides;
    words[PARITY] = parity;
    restore_seat(words, Seat::Zero, first);
    restore_seat(words, Seat::One, second);
}
