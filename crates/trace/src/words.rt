// The words of a line, one after another.
ghost use Rattle.std.specs.Prelude.{◌≡◌};
ghost use Rattle.trace.specs.Tokens.{words};
ghost use Rattle.trace.specs.Meanings.{piece};

use crate::part::Part;
use crate::token::Token;

// What is left of a line: nothing after its last word.
#[derive(Drop)]
pub(crate) struct Words<'a> {
    rest: Option<Part<'a>>,
}

impl<'a> Words<'a> {
    ghost use Rattle.trace.specs.Left.{left};

    pub(crate) fn new(line: Part<'a>) -> Words<'a>
        ensures { left result ≡ words (piece line.entry) }
    {
        Words { rest: Some(line) }
    }
}

impl<'a> Iterator for Words<'a> {
    ghost use Rattle.std.specs.Iterator.{YieldsFirstBy, item_count};
    ghost use Rattle.trace.specs.Kept.{kept};
    ghost use Rattle.trace.specs.Left.{left};

    type Item = Token<'a>;

    ghost next_gives = { YieldsFirstBy kept left };

    ghost remaining = { item_count left };

    fn next(&mut self) -> Option<Token<'a>> {
        let (word, rest) = self.rest?.split(b' ');
        self.rest = rest;
        Some(Token::from(word))
    }
}
