// A datagram, and the codes that go into one.
pub use crate::codes::Codes;

// What a seat tells the other; docs/DATAGRAM.md has its bytes. The codes are `Codes` in one that is to be
// written, and the part of the bytes that they are, two to a code, in one that was read.
#[derive(Clone, Copy)]
pub struct Datagram<C> {
    // The seat that sends it, 0 or 1.
    pub sender: u8,
    pub match_number: u16,
    // The frame of the first code.
    pub start: u16,
    // The codes of the sender's inputs from that frame on.
    pub codes: C,
    // How many of the other seat's inputs the sender knows.
    pub acknowledgement: u16,
    pub report_frame: u16,
    // Of the sender's state at the report frame.
    pub digest: u32,
}
