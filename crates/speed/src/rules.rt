// The rules of a frame, over the words of a state.
ghost use Rattle.std.specs.Prelude.{◌≡◌};
ghost use Rattle.speed.specs.Places.{seat_number, hand};
ghost use Rattle.speed.specs.Rules.{fits, refill, moved, both_moved, turns, sides_turned, out_of_cards, over, next_state};

use crate::game::Speed;
use crate::moves::{Move, Pile, Slot};
use crate::places::{DRAWS, EMPTY, HANDS, PARITY, SIDES, Seat, TOPS};

// Cards fit when their ranks differ by 1 or 12.
pub fn cards_fit(card: u32, top: u32) -> bool
    ensures { result ≡ fits card top }
{
    let gap = (card % 13).abs_diff(top % 13);
    gap == 1 || gap == 12
}

// The moves of seats 0 and 1 go as two parameters, as `Game::step` gets them.
impl Speed {
    // The card that a seat draws next, or an empty slot.
    fn next_card(&self, seat: Seat) -> u32
        ensures { result ≡ refill self.now.words (seat_number seat) }
    {
        match self.words[DRAWS + seat as usize] as usize {
            0 => EMPTY,
            left => self.words[15 * (seat as usize + 1) - left],
        }
    }

    // The card of a slot goes onto a pile if it fits, and its slot refills.
    fn play(&mut self, seat: Seat, slot: Slot, pile: Pile)
        ensures { self.new.words ≡ moved self.old.words (seat_number seat) (Move.Play slot pile) }
    {
        let place = HANDS + 5 * seat as usize + slot as usize;
        let draws = DRAWS + seat as usize;
        let top = TOPS + pile as usize;
        let card = self.words[place];
        if card == EMPTY || !cards_fit(card, self.words[top]) {
            return;
        }
        let left = self.words[draws];
        self.words[place] = self.next_card(seat);
        self.words[draws] = left.saturating_sub(1);
        self.words[top] = card;
    }

    // One seat's move.
    #[tactic(auto, unfolding(crate::specs::Rules::moved))]
    fn make_move(&mut self, seat: Seat, choice: Move)
        ensures { self.new.words ≡ moved self.old.words (seat_number seat) choice }
    {
        if let Move::Play { slot, pile } = choice {
            self.play(seat, slot, pile);
        }
    }

    // Both seats' moves: the seat that the parity names plays first, the other against the new tops. Two branches of two calls
    // are plainer than a loop over pairs that are turned round.
    fn make_moves(&mut self, first: Move, second: Move)
        ensures { self.new.words ≡ both_moved self.old.words first second }
    {
        if self.words[PARITY] == 0 {
            self.make_move(Seat::Zero, first);
            self.make_move(Seat::One, second);
        } else {
            self.make_move(Seat::One, second);
            self.make_move(Seat::Zero, first);
        }
    }

    // The sides are turned where both seats call and there are sides.
    fn sides_turn(&self, first: Move, second: Move) -> bool
        ensures { result ≡ turns self.now.words first second }
    {
        first.calls_turn() && second.calls_turn() && self.words[SIDES] != 0
    }

    // Both sides' next cards become the tops, where the sides are turned.
    fn turn_sides(&mut self, first: Move, second: Move)
        ensures { self.new.words ≡ sides_turned self.old.words first second }
    {
        if self.sides_turn(first, second) {
            let sides = self.words[SIDES];
            let left = self.words[45 - sides as usize];
            let right = self.words[50 - sides as usize];
            self.words[TOPS] = left;
            self.words[TOPS + 1] = right;
            self.words[SIDES] = sides - 1;
        }
    }

    // The five slots of a seat.
    fn hand(&self, seat: Seat) -> &[u32]
        ensures { result.now ≡ hand self.now.words (seat_number seat) }
    {
        let start = HANDS + 5 * seat as usize;
        &self.words[start..start + 5]
    }

    // No card in hand and none to draw.
    fn is_out(&self, seat: Seat) -> bool
        ensures { result ≡ out_of_cards self.now.words (seat_number seat) }
    {
        self.words[DRAWS + seat as usize] == 0 && self.hand(seat).iter().all(|card| *card == EMPTY)
    }

    // A seat is out of cards.
    #[tactic(auto, unfolding(crate::specs::Rules::over))]
    fn is_over(&self) -> bool
        ensures { result ≡ over self.now.words }
    {
        self.is_out(Seat::Zero) || self.is_out(Seat::One)
    }

    // One frame.
    pub(crate) fn advance(&mut self, first: Move, second: Move)
        ensures { self.new.words ≡ next_state self.old.words first second }
    {
        if self.is_over() {
            return;
        }
        self.make_moves(first, second);
        self.turn_sides(first, second);
        self.words[PARITY] = 1 - self.words[PARITY];
    }
}
