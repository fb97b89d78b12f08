// The limits of a match. docs/ENGINE.md says what each is for, and specs/Limits.antt has them for contracts.
ghost use Rattle.std.specs.Prelude.{◌≡◌};
ghost use Rattle.interface.specs.Limits.{match_length, most_lead, most_unacknowledged, most_codes, queue_slots, top_frame, most_listed, most_words};

// A match has no frame from this number on.
pub const MATCH_LENGTH: u32 = 60_000;

// How many frames a seat may play past the other seat's known inputs.
pub const MOST_LEAD: u32 = 8;

// How many of its own inputs a seat may have that are not acknowledged.
pub const MOST_UNACKNOWLEDGED: u32 = 32;

// How many codes a datagram may carry.
pub const MOST_CODES: usize = 32;

// How many slots a frame queue has.
pub const QUEUE_SLOTS: usize = 32;

// The highest frame that a queue takes.
pub const TOP_FRAME: u32 = 65_535;

// How many states a keeper lists at most.
pub const MOST_LISTED: usize = 9;

// How many words a game may have.
pub const MOST_WORDS: usize = 72;

// The numbers above are those that contracts speak of.
pub fn limits() -> (u32, u32, u32, usize, usize, u32, usize, usize)
    ensures { result ≡ (match_length, most_lead, most_unacknowledged, most_codes, queue_slots, top_frame, most_listed, most_words) }
{
    (
        MATCH_LENGTH,
        MOST_LEAD,
        MOST_UNACKNOWLEDGED,
        MOST_CODES,
        QUEUE_SLOTS,
        TOP_FRAME,
        MOST_LISTED,
        MOST_WORDS,
    )
}
