// A datagram as bytes.
ghost use Rattle.std.specs.Prelude.{◌≡◌, IfOk, ◌+◌, ◌*◌, ◌^◌, ◌<◌, ◌≤◌, ◌++◌, length, drop, OnOk};
ghost use Rattle.std.specs.List.{AllByRecursion};
ghost use Rattle.datagram.specs.Fields.{HeaderFits};
ghost use Rattle.datagram.specs.Layout.{header_bytes, code_bytes, bytes_of};
ghost use Rattle.datagram.specs.Writing.{spliced, write_answer, write_leaves};
ghost use Rattle.datagram.specs.Meanings.{fields_of};
ghost use Rattle.datagram.specs.Laws.{Readable};

use crate::check::check_word;
use crate::codes::Codes;
use crate::forms::Datagram;
use interface::answers::Refusal;

// Puts `part` at a place of the buffer.
fn put(buffer: &mut [u8], at: usize, part: &[u8])
    requires { at + length part.now ≤ length buffer.old }
    ensures { buffer.new ≡ spliced buffer.old at part.now }
{
    buffer[at..at + part.len()].copy_from_slice(part);
}

// Puts the codes at a place of the buffer, two bytes to each.
fn put_codes(buffer: &mut [u8], at: usize, codes: &[u16])
    requires { at + 2 * length codes.now ≤ length buffer.old }
    ensures bytes { buffer.new ≡ spliced buffer.old at (code_bytes codes.now) }
    ensures fits { AllByRecursion (λ c. c < 2 ^ 16) codes.now }
{
    // By place, since what `chunks_exact_mut` lends leaves nothing known of the bytes written.
    for (k, code) in codes.iter().enumerate() {
        put(buffer, at + 2 * k, &code.to_le_bytes());
    }
}

impl Datagram<Codes> {
    // The bytes before the codes.
    fn header(&self) -> [u8; 19]
        ensures bytes { result ≡ header_bytes (fields_of self.now) }
        ensures fits { HeaderFits (fields_of self.now) }
    {
        let Datagram {
            sender,
            match_number,
            start,
            codes,
            acknowledgement,
            report_frame,
            digest,
        } = self;
        let [number_0, number_1] = match_number.to_le_bytes();
        let [start_0, start_1] = start.to_le_bytes();
        let [acknowledgement_0, acknowledgement_1] = acknowledgement.to_le_bytes();
        let [report_0, report_1] = report_frame.to_le_bytes();
        let [digest_0, digest_1, digest_2, digest_3] = digest.to_le_bytes();
        [
            b'R',
            b'B',
            b'K',
            1,
            0,
            *sender,
            number_0,
            number_1,
            start_0,
            start_1,
            codes.as_slice().len() as u8,
            acknowledgement_0,
            acknowledgement_1,
            report_0,
            report_1,
            digest_0,
            digest_1,
            digest_2,
            digest_3,
        ]
    }

    // How many bytes it has.
    fn length(&self) -> usize
        ensures all { result ≡ length (bytes_of (fields_of self.now)) }
        ensures sum { result ≡ 21 + 2 * length self.now.codes }
        ensures few { result ≤ 85 }
    {
        21 + 2 * self.codes.as_slice().len()
    }

    // Puts the datagram at the start of a buffer that is long enough.
    fn put_all(&self, buffer: &mut [u8])
        requires { 21 + 2 * length self.now.codes ≤ length buffer.old }
        ensures bytes { buffer.new ≡ bytes_of (fields_of self.now) ++ drop (length (bytes_of (fields_of self.now))) buffer.old }
        ensures readable { Readable (fields_of self.now) buffer.new }
    {
        let codes = self.codes.as_slice();
        let end = 19 + 2 * codes.len();
        put(buffer, 0, &self.header());
        put_codes(buffer, 19, codes);
        let word = check_word(&buffer[0..end]);
        put(buffer, end, &word.to_le_bytes());
    }

    // Puts the datagram at the start of the buffer, and answers its length; bytes past it are left.
    pub fn write(&self, buffer: &mut [u8]) -> Result<u32, Refusal>
        ensures answer { result ≡ write_answer (fields_of self.now) buffer.old }
        ensures bytes { buffer.new ≡ write_leaves (fields_of self.now) buffer.old }
        ensures readable { OnOk result (Readable (fields_of self.now) buffer.new) }
        ensures few { IfOk result (λ n. n ≤ 85) }
    {
        let length = self.length();
        if buffer.len() < length {
            return Err(Refusal::BufferTooShort);
        }
        self.put_all(buffer);
        Ok(length as u32)
    }
}
