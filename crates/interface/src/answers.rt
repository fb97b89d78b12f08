// The table of answers: 0 and 30 accept, and each other number is one refusal.
ghost use Rattle.std.specs.Prelude.{◌≡◌};
ghost use Rattle.interface.specs.Answers.{acceptance_number, number_of};

// How a call was accepted, with its number in the table.
#[derive(Clone, Copy, PartialEq, Eq, Debug)]
pub enum Acceptance {
    Accepted = 0,
    // The seat has parted from the other.
    AcceptedAndParted = 30,
}

impl Acceptance {
    pub fn number(self) -> u32
        ensures { result ≡ acceptance_number self }
    {
        self as u32
    }
}

// Why a call refused, with its number in the table of docs/ANSWERS.md.
#[derive(Clone, Copy, PartialEq, Eq, Debug)]
pub enum Refusal {
    // A datagram under 21 bytes, with more than 32 codes, or of a length that its count does not give.
    BadLength = 1,
    // A datagram with another mark or version.
    BadMark = 2,
    // A datagram with another check word.
    BadCheckWord = 3,
    // A datagram of another match, or not of the other seat.
    NotOurs = 4,
    // A code that the input kind does not read.
    UnreadCode = 5,
    // A datagram that starts above the known inputs.
    StartTooLate = 6,
    // A datagram that ends too far ahead.
    EndTooLate = 7,
    // An acknowledgement of frames not played.
    AcknowledgementTooLate = 8,
    // A report on a state that is not played or not confirmed.
    ReportTooLate = 9,
    // The seat has parted.
    Parted = 10,
    // The match has its last frame.
    MatchOver = 11,
    // Eight frames are played on guesses.
    TooFarAhead = 12,
    // Thirty-two inputs are not acknowledged.
    Unacknowledged = 13,
    // A buffer shorter than the datagram.
    BufferTooShort = 14,
    // Going back past what the keeper holds.
    OutOfReach = 15,
    // A state that the game's rule forbids.
    Unlawful = 16,
    // No such datagram in the log, or the taking seat sent it itself.
    NoSuchDatagram = 17,
    // The log has no free record.
    LogFull = 18,
    // Not 32 slots, or a frame that is neither held nor next, or is above 65,535.
    BadFrame = 20,
    // A seat that is neither 0 nor 1.
    NoSuchSeat = 21,
    // A trace whose first line is missing or wrong.
    BadFirstLine = 24,
    // A trace line with no such first word and number of words.
    BadLine = 25,
    // A number of a trace line that is malformed or out of range.
    BadNumber = 26,
    // A trace line without its line feed, a trace without `end`, or a line after it.
    BadEnding = 27,
    // A trace that is too long for the program.
    TraceTooLong = 28,
}

impl Refusal {
    pub fn number(self) -> u32
        ensures { result ≡ number_of self }
    {
        self as u32
    }
}
