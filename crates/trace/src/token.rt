// The words of a line.
ghost use Rattle.std.specs.Prelude.{◌≡◌};
ghost use Rattle.trace.specs.Tokens.{lexeme, spelling, place, says, number_in, seat_in, short_in};
ghost use Rattle.trace.specs.Numbers.{most_32};
ghost use Rattle.trace.specs.Meanings.{piece};
ghost use Rattle.trace.specs.Kept.{kept};

use crate::number::decimal;
use crate::part::Part;

// A word of the trace, as the part of the text that it is, with its place; and its value where it is a number. Two cases, and no Option of a
// value: every line is judged by which words are numbers.
#[derive(Clone, Copy, Debug)]
pub(crate) enum Token<'a> {
    Word {
        text: &'a [u8],
        at: usize,
    },
    Number {
        text: &'a [u8],
        at: usize,
        value: u32,
    },
}

impl<'a> From<Part<'a>> for Token<'a> {
    ghost from_gives = { λ part token. kept token ≡ lexeme (piece part) };

    fn from(part: Part<'a>) -> Token<'a> {
        let Part { bytes: text, at } = part;
        match decimal(text) {
            Some(value) => Token::Number { text, at, value },
            None => Token::Word { text, at },
        }
    }
}

impl<'a> Token<'a> {
    // The word as it stands.
    fn text(self) -> &'a [u8]
        ensures { result.now ≡ spelling (kept self.entry) }
    {
        match self {
            Token::Word { text, .. } | Token::Number { text, .. } => text,
        }
    }

    // Whether the word is this text.
    pub(crate) fn is(self, word: &[u8]) -> bool
        ensures { result ≡ says word.now (kept self.entry) }
    {
        self.text() == word
    }

    // Where the word begins.
    pub(crate) fn place(self) -> usize
        ensures { result ≡ place (kept self.entry) }
    {
        match self {
            Token::Word { at, .. } | Token::Number { at, .. } => at,
        }
    }

    // The number that the word is, if it is one of 32 bits.
    pub(crate) fn number(self) -> Option<u32>
        ensures { result ≡ number_in most_32 (kept self.entry) }
    {
        match self {
            Token::Word { .. } => None,
            Token::Number { value, .. } => Some(value),
        }
    }

    // The same, of 16 bits.
    pub(crate) fn short(self) -> Option<u16>
        ensures { result ≡ short_in (kept self.entry) }
    {
        u16::try_from(self.number()?).ok()
    }

    // The seat that the word names: `true` for seat 1.
    pub(crate) fn seat(self) -> Option<bool>
        ensures { result ≡ seat_in (kept self.entry) }
    {
        match self.number()? {
            0 => Some(false),
            1 => Some(true),
            _ => None,
        }
    }
}
