// Codes put one after another, and read one by one.
ghost use Rattle.std.specs.Prelude.{◌≡◌, ℕ, ◌≤◌, List, [], ◌∷◌, ◌++◌, length, take, is_ok, if◌then◌else◌, nat_lt};
ghost use Rattle.std.specs.List.{slice_get};
ghost use Rattle.std.specs.Iterator.{YieldsFirst, item_count};
ghost use Rattle.interface.specs.Limits.{most_codes};
ghost use Rattle.datagram.specs.Reading.{codes_of};

use crate::forms::Datagram;
use interface::limits::MOST_CODES;
use std::marker::Model;

// Codes in order, at most 32. They lie in an array with their number: the engine has no heap, and the library's ArrayVec cannot be copied.
#[derive(Clone, Copy)]
pub struct Codes {
    codes: [u16; MOST_CODES],
    len: usize,
}

// Clauses see the list of the codes. The array is idle past them, so the list gives it back.
impl Model for Codes {
    ghost use Rattle.std.specs.Prelude.{List, ℕ, length, take};
    ghost use Rattle.datagram.specs.Padding.{padded, IsPadded, padded_back};

    ghost Value = { List ℕ };

    ghost view = { λ c. take c.len c.codes };

    ghost invariant = { λ c. IsPadded c.codes c.len };

    ghost inverse = { λ cs. record { codes = padded cs; len = length cs } };

    ghost inverse_ok = { λ c h i. record { codes = (padded_back c.codes c.len h).0 i; len = (padded_back c.codes c.len h).1 i } };
}

// There are as many codes as a datagram carries.
#[derive(Clone, Copy, Debug, PartialEq, Eq)]
pub struct Full;

impl Codes {
    // No code.
    pub fn new() -> Self
        ensures { result ≡ [] }
    {
        Codes {
            codes: [0; MOST_CODES],
            len: 0,
        }
    }

    pub fn as_slice(&self) -> &[u16]
        ensures codes { result.now ≡ self.now }
        ensures few { length result.now ≤ most_codes }
    {
        &self.codes[..self.len]
    }

    // One code more. Where there are 32 it is refused, and nothing is changed.
    pub fn push(&mut self, code: u16) -> Result<(), Full>
        ensures answer { is_ok result ≡ nat_lt (length self.old) most_codes }
        ensures codes { self.new ≡ (if is_ok result then self.old ++ code ∷ [] else self.old) }
    {
        if self.len >= MOST_CODES {
            return Err(Full);
        }
        self.codes[self.len] = code;
        self.len += 1;
        Ok(())
    }
}

// The codes of a datagram that was read, one after another.
#[derive(Drop)]
pub struct ReadCodes<'a> {
    bytes: &'a [u8],
}

// Clauses see the list of the codes that are left.
impl<'a> Model for ReadCodes<'a> {
    ghost Value = { List ℕ };

    ghost view = { λ c. codes_of c.bytes.now };
}

impl<'a> Iterator for ReadCodes<'a> {
    type Item = u16;

    ghost next_gives = { YieldsFirst (λ left. left) };

    ghost remaining = { item_count (λ left. left) };

    fn next(&mut self) -> Option<u16> {
        let (pair, rest) = self.bytes.split_first_chunk()?;
        self.bytes = rest;
        Some(u16::from_le_bytes(*pair))
    }
}

impl<'a> Datagram<&'a [u8]> {
    // The codes, first to last.
    pub fn codes(&self) -> ReadCodes<'a>
        ensures { result ≡ codes_of self.now.codes.now }
    {
        ReadCodes { bytes: self.codes }
    }

    // How many codes there are.
    pub fn count(&self) -> usize
        ensures { result ≡ length (codes_of self.now.codes.now) }
    {
        self.codes.len() / 2
    }

    // Code k, or nothing from the count on. By place, so that the codes before it are not read.
    pub fn code(&self, k: usize) -> Option<u16>
        ensures { result ≡ slice_get (codes_of self.now.codes.now) k }
    {
        if k >= self.codes.len() / 2 {
            return None;
        }
        Some(u16::from_le_bytes([self.codes[2 * k], self.codes[2 * k + 1]]))
    }
}
