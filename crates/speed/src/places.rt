// Where the words of a state stand, and the two seats. specs/Places.antt has the same numbers for contracts.
//
// A state is the array of its 68 words with named places, and not a struct of named fields: reading a word, restoring,
// undoing and the digest all speak of words, so nothing has to be encoded, and a step writes the few words that change in place.
pub type Words = [u32; 68];

// An empty slot. Cards are 0 to 51. It is a number and no Option, since a slot is a word of the state.
pub const EMPTY: u32 = 52;

// Words 52 to 61: both hands, five slots each.
pub const HANDS: usize = 52;

// Words 62 and 63: how many cards each seat has to draw.
pub const DRAWS: usize = 62;

// Word 64: how many cards each side has.
pub const SIDES: usize = 64;

// Words 65 and 66: the tops of the left and the right pile.
pub const TOPS: usize = 65;

// Word 67: the seat that plays first in the next frame.
pub const PARITY: usize = 67;

// Seats 0 and 1.
#[derive(Clone, Copy)]
pub enum Seat {
    Zero,
    One,
}
