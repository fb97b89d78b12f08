// The log of sent datagrams: records that the caller brings.
ghost use Rattle.std.specs.Prelude.{◌≡◌, false, length, take, replicate};

// A record with room for any datagram.
#[derive(Clone, Copy, PartialEq, Eq)]
pub struct Record {
    // Seat 1, else seat 0, as in a seat.
    pub sender: bool,
    // How many of the bytes are the datagram: the caller brings the record, so its bytes are no vector.
    pub len: u32,
    pub bytes: [u8; 85],
    ghost room: { length bytes ≡ 85 },
}

impl Record {
    // A record with no datagram.
    pub fn empty() -> Record
        ensures { (result.sender ≡ false) × (result.len ≡ 0) × (result.bytes ≡ replicate 85 0) }
    {
        Record {
            sender: false,
            len: 0,
            bytes: [0; 85],
        }
    }

    // The datagram that was written.
    pub fn datagram(&self) -> &[u8]
        ensures { result.now ≡ take self.now.len self.now.bytes }
    {
        let len = self.bytes.len().min(self.len as usize);
        &self.bytes[..len]
    }
}
