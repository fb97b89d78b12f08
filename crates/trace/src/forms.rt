// What a trace says.
use interface::answers::Refusal;

// The game that a trace names.
#[derive(Clone, Copy, Debug, PartialEq, Eq)]
pub enum GameName {
    Duel,
    Speed,
}

// The first line.
#[derive(Clone, Copy, Debug, PartialEq, Eq)]
pub struct First {
    pub game: GameName,
    pub match_number: u16,
    pub seed: u32,
}

// What a seat is told to do: as a turn of `play` is, but in the numbers that a line can hold, while a match may be asked for any.
#[derive(Clone, Copy, Debug, PartialEq, Eq)]
pub enum TraceCall {
    // Play a frame with this code.
    Press(u16),
    Send,
    // Take the datagram of this number in the log.
    Take(u16),
}

// A line of the match. The seat is `true` for seat 1, as in all that is said of matches.
#[derive(Clone, Copy, Debug, PartialEq, Eq)]
pub struct TraceTurn {
    pub seat: bool,
    pub call: TraceCall,
}

// What is wrong with a trace: the line counts from 1, the byte's place from 0.
#[derive(Clone, Copy, Debug, PartialEq, Eq)]
pub struct Fault {
    pub why: Refusal,
    pub line: usize,
    pub at: usize,
}

// All that a text says: its first line, the turns before its first fault, turn i on line i + 2, and that fault. No
// Result, since what stands before a fault is told with it.
#[derive(Debug, PartialEq, Eq, Drop)]
pub struct Trace {
    pub first: Option<First>,
    pub turns: Vec<TraceTurn>,
    pub fault: Option<Fault>,
}
