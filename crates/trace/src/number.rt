// Numbers in decimal.
ghost use Rattle.std.specs.Prelude.{◌≡◌, Some};
ghost use Rattle.trace.specs.Numbers.{most_32, no_leading_zero, with_digit, digits_after, number};

// Something stands there, and nothing follows a leading zero.
fn no_leading_zero(word: &[u8]) -> bool
    ensures { result ≡ no_leading_zero word.now }
{
    match word {
        [] => false,
        [_] => true,
        [first, ..] => *first != b'0',
    }
}

// A number with one digit more, or nothing where the byte is no digit or the number passes 32 bits.
fn with_digit(value: u32, digit: u8) -> Option<u32>
    ensures { result ≡ with_digit (Some value) digit }
{
    if !digit.is_ascii_digit() {
        return None;
    }
    value.checked_mul(10)?.checked_add(u32::from(digit - b'0'))
}

// The number of the digits. One pass, which ends at the first byte that is no digit and where the number passes 32 bits: every word of a
// trace is read so, and to ask for digits first and then for `parse` of the text went over it three times.
fn digits(word: &[u8]) -> Option<u32>
    ensures { result ≡ digits_after (Some 0) word.now }
{
    let mut value = 0;
    for digit in word {
        value = with_digit(value, *digit)?;
    }
    Some(value)
}

// The number of at most 32 bits that the word is: digits alone, and no zero before others.
pub(crate) fn decimal(word: &[u8]) -> Option<u32>
    ensures { result ≡ number most_32 word.now }
{
    if !no_leading_zero(word) {
        return None;
    }
    digits(word)
}
