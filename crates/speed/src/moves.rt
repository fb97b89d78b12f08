// What a seat may do in one frame of Speed, and the codes that stand for it.
ghost use Rattle.std.specs.Prelude.{◌≡◌};
ghost use Rattle.speed.specs.Moves.{slot_number, pile_number, code_of, read_code, idle_move, calls};
ghost use Rattle.std.proofs.Common.{rules};

use interface::input::InputKind;

// One of the five cards of a hand.
#[derive(Clone, Copy, PartialEq, Eq, Debug)]
pub enum Slot {
    First = 0,
    Second = 1,
    Third = 2,
    Fourth = 3,
    Fifth = 4,
}

impl Slot {
    // All slots, each at the place of its number.
    // By number: a number leads to no case by a cast.
    const ALL: [Slot; 5] = [
        Slot::First,
        Slot::Second,
        Slot::Third,
        Slot::Fourth,
        Slot::Fifth,
    ];

    // The slot's place in the hand, from 0.
    pub fn number(self) -> usize
        ensures { result ≡ slot_number self }
    {
        self as usize
    }
}

// One of the two piles in the middle.
#[derive(Clone, Copy, PartialEq, Eq, Debug)]
pub enum Pile {
    Left = 0,
    Right = 1,
}

impl Pile {
    // Both piles, each at the place of its number.
    // By number, as `Slot::ALL`.
    const BOTH: [Pile; 2] = [Pile::Left, Pile::Right];

    // 0 for left, 1 for right. A trait of this and the slot's number would be longer than both.
    pub fn number(self) -> usize
        ensures { result ≡ pile_number self }
    {
        self as usize
    }
}

#[derive(Clone, Copy, PartialEq, Eq, Debug)]
pub enum Move {
    Idle,
    // The card of a slot is to go onto a pile.
    Play { slot: Slot, pile: Pile },
    // The seat asks that the side cards be turned.
    CallTurn,
}

impl Move {
    // Whether the seat asks that the side cards be turned.
    pub fn calls_turn(self) -> bool
        ensures { result ≡ calls self }
    {
        matches!(self, Move::CallTurn)
    }
}

impl InputKind for Move {
    ghost code = { code_of };

    ghost reads = { read_code };

    ghost idle = { idle_move };

    ghost code_fits = { Prim.search rules };

    ghost reads_back = { Prim.search rules };

    ghost code_of_read = { Prim.search rules };

    ghost idle_reads = { Prim.search rules };

    fn read(number: u16) -> Option<Move> {
        match number {
            0 => Some(Move::Idle),
            1..=10 => {
                let play = number as usize - 1;
                Some(Move::Play {
                    slot: Slot::ALL[play / 2],
                    pile: Pile::BOTH[play % 2],
                })
            }
            11 => Some(Move::CallTurn),
            _ => None,
        }
    }

    fn code(self) -> u16 {
        match self {
            Move::Idle => 0,
            Move::Play { slot, pile } => 1 + 2 * slot as u16 + pile as u16,
            Move::CallTurn => 11,
        }
    }

    fn idle() -> Move {
        Self::Idle
    }
}
