// A trace as text.
ghost use Rattle.std.specs.Prelude.{◌≡◌, [], ◌∷◌, ◌++◌, IfOk, Some, string_bytes, OnOk};
ghost use Rattle.trace.specs.Pieces.{line_feed};
ghost use Rattle.trace.specs.Reading.{read_text};
ghost use Rattle.trace.specs.Laws.{TurnFits, FirstFits, says_all};
ghost use Rattle.trace.specs.Writing.{game_word, first_words, turn_words, line_of, text_of};

use crate::forms::{First, GameName, TraceCall, TraceTurn};
use std::alloc::{AllocError, Global};
use std::fmt;

impl fmt::Display for GameName {
    ghost output = { λ game. Some (game_word game) };

    fn fmt<W: fmt::Write>(&self, f: &mut fmt::Formatter<W>) -> fmt::Result {
        match self {
            GameName::Duel => write!(f, "duel"),
            GameName::Speed => write!(f, "speed"),
        }
    }
}

// The first line, without its line feed.
impl fmt::Display for First {
    ghost output = { λ first. Some (line_of (first_words first)) };

    fn fmt<W: fmt::Write>(&self, f: &mut fmt::Formatter<W>) -> fmt::Result {
        let First {
            game,
            match_number,
            seed,
        } = *self;
        write!(f, "RBT 1 {game} {match_number} {seed}")
    }
}

// The line of a turn, without its line feed.
impl fmt::Display for TraceTurn {
    ghost output = { λ turn. Some (line_of (turn_words turn)) };

    fn fmt<W: fmt::Write>(&self, f: &mut fmt::Formatter<W>) -> fmt::Result {
        let seat = u8::from(self.seat);
        match self.call {
            TraceCall::Press(code) => write!(f, "press {seat} {code}"),
            TraceCall::Send => write!(f, "send {seat}"),
            TraceCall::Take(datagram) => write!(f, "take {seat} {datagram}"),
        }
    }
}

// The first line, with its line feed.
pub fn first_text(first: First, heap: Global) -> Result<String, AllocError>
    ensures line { IfOk result (λ s. string_bytes s ≡ line_of (first_words first) ++ line_feed ∷ []) }
    ensures fits { FirstFits first }
{
    format!(in heap; "{first}\n")
}

// Puts the line of a turn, with its line feed, behind the text.
fn push_line(text: &mut String, turn: TraceTurn) -> Result<(), AllocError>
    ensures line { OnOk result (string_bytes text.new ≡ string_bytes text.old ++ (line_of (turn_words turn) ++ line_feed ∷ [])) }
    ensures fits { TurnFits turn }
{
    writeln!(text, "{turn}")
}

// The text of a trace with this first line and these turns. It reads back to them.
pub fn write(first: First, turns: &[TraceTurn], heap: Global) -> Result<Vec<u8>, AllocError>
    ensures text { IfOk result (λ v. v.items ≡ text_of first turns.now) }
    ensures reads { IfOk result (λ v. read_text v.items ≡ says_all (Some first) turns.now) }
{
    let mut text = first_text(first, heap)?;
    for turn in turns {
        push_line(&mut text, *turn)?;
    }
    text.push_str("end\n")?;
    Ok(text.into_bytes())
}
