// A datagram out of bytes.
ghost use Rattle.std.specs.Prelude.{◌≡◌, IfOk};
ghost use Rattle.datagram.specs.Reading.{codes_part, taken_apart, read_of};
ghost use Rattle.datagram.specs.Meanings.{answered};
ghost use Rattle.datagram.specs.Laws.{Faithful};

use crate::check::check_word;
use crate::forms::Datagram;
use interface::answers::Refusal;
use interface::limits::MOST_CODES;

// The fields at their places, if the length and the mark are right. That the codes are the bytes' own is said here and by both functions
// below: the other clause tells what they are, not where they lie.
fn take_apart(bytes: &[u8]) -> Result<Datagram<&[u8]>, Refusal>
    ensures answer { answered result ≡ taken_apart bytes.now }
    ensures part { IfOk result (λ d. d.codes.now ≡ codes_part bytes.now) }
{
    let [
        _,
        _,
        _,
        _,
        _,
        sender,
        number_0,
        number_1,
        start_0,
        start_1,
        count,
        acknowledgement_0,
        acknowledgement_1,
        report_0,
        report_1,
        digest_0,
        digest_1,
        digest_2,
        digest_3,
        codes @ ..,
        _,
        _,
    ] = bytes
    else {
        return Err(Refusal::BadLength);
    };
    let count = usize::from(*count);
    if count > MOST_CODES || codes.len() != 2 * count {
        return Err(Refusal::BadLength);
    }
    let [b'R', b'B', b'K', 1, 0, ..] = bytes else {
        return Err(Refusal::BadMark);
    };
    Ok(Datagram {
        sender: *sender,
        match_number: u16::from_le_bytes([*number_0, *number_1]),
        start: u16::from_le_bytes([*start_0, *start_1]),
        codes,
        acknowledgement: u16::from_le_bytes([*acknowledgement_0, *acknowledgement_1]),
        report_frame: u16::from_le_bytes([*report_0, *report_1]),
        digest: u32::from_le_bytes([*digest_0, *digest_1, *digest_2, *digest_3]),
    })
}

// All the checks, one after another; apart from `read`, whose laws follow from the answer, wherever in the checks it is given.
fn checked(bytes: &[u8]) -> Result<Datagram<&[u8]>, Refusal>
    ensures answer { answered result ≡ read_of bytes.now }
    ensures part { IfOk result (λ d. d.codes.now ≡ codes_part bytes.now) }
{
    let datagram = take_apart(bytes)?;
    // By place: of the parts of `split_last_chunk` the proof lacks where they lie.
    let end = bytes.len() - 2;
    if check_word(&bytes[0..end]) != u16::from_le_bytes([bytes[end], bytes[end + 1]]) {
        return Err(Refusal::BadCheckWord);
    }
    if datagram.sender > 1 {
        return Err(Refusal::NotOurs);
    }
    Ok(datagram)
}

// The datagram that the bytes are, or the first check that fails.
pub fn read(bytes: &[u8]) -> Result<Datagram<&[u8]>, Refusal>
    ensures answer { answered result ≡ read_of bytes.now }
    ensures part { IfOk result (λ d. d.codes.now ≡ codes_part bytes.now) }
    ensures laws { Faithful bytes.now (answered result) }
{
    checked(bytes)
}
