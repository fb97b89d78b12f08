// The turns of a list, and what is told of each.

// What a turn asks for.
#[derive(Clone, Copy, PartialEq, Eq, Debug)]
pub enum Call {
    // Press this code.
    Press(u16),
    Send,
    // Take the datagram with this number.
    Take(u32),
}

// A turn: the seat's number, as the match takes it and refuses all but two, the call, and how many slots of each queue and how many records it is lent, from the front; all, where there are fewer.
#[derive(Clone, Copy, PartialEq, Eq, Debug)]
pub struct Turn {
    pub seat: u32,
    pub call: Call,
    pub own: usize,
    pub other: usize,
    pub digests: usize,
    pub records: usize,
}

// What a turn answers, by its number in the table, and the seat's P and R after it.
#[derive(Clone, Copy, PartialEq, Eq, Debug)]
pub struct Told {
    pub code: u32,
    pub frames: u32,
    pub played: u32,
    pub known: u32,
}
