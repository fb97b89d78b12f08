// The lines of a text, one after another.
ghost use Rattle.std.specs.Prelude.{◌≡◌, ◌≤◌};
ghost use Rattle.std.specs.Option.{ForSome};
ghost use Rattle.trace.specs.Pieces.{line_feed};
ghost use Rattle.trace.specs.Lines.{verdict};
ghost use Rattle.trace.specs.Reading.{out_of_place, after_end, read_text};
ghost use Rattle.trace.specs.Meanings.{piece, parted};

use crate::forms::{Fault, First, TraceTurn};
use crate::line::{Mistake, first_line, judge};
use crate::part::Part;
use interface::answers::Refusal;

// What is left of a text after its first line, and the number of the next line. Nothing is left after the line `end` or a fault.
#[derive(Drop)]
pub(crate) struct Reader<'a> {
    rest: Option<Part<'a>>,
    line: usize,
    ghost lines: { ForSome rest (λ p. line ≤ p.at) },
}

// What is wrong with a line that lacks its line feed, or stands after `end`.
fn out_of_place(line: Part) -> Refusal
    ensures { result ≡ out_of_place (verdict (piece line.entry)) }
{
    match judge(line) {
        Err(Mistake::Misshapen) => Refusal::BadLine,
        _ => Refusal::BadEnding,
    }
}

// What is wrong after the line `end`: nothing may follow.
fn finish(rest: Part, line: usize) -> Option<Fault>
    ensures { result ≡ (after_end line (parted line_feed rest.entry)).fault }
{
    if rest.bytes.is_empty() {
        return None;
    }
    let (part, _) = rest.split(b'\n');
    Some(Fault {
        why: out_of_place(part),
        line,
        at: part.at,
    })
}

impl<'a> Reader<'a> {
    ghost use Rattle.trace.specs.Ahead.{unended, Opened};

    // The first line, and a reader of those after it; or the fault of the first line.
    pub(crate) fn open(text: &'a [u8]) -> Result<(First, Reader<'a>), Fault>
        ensures { Opened result (read_text text.now) }
    {
        let fault = Fault {
            why: Refusal::BadFirstLine,
            line: 1,
            at: 0,
        };
        let (line, Some(rest)) = Part { bytes: text, at: 0 }.split(b'\n') else {
            return Err(fault);
        };
        let first = first_line(line).ok_or(fault)?;
        Ok((
            first,
            Reader {
                rest: Some(rest),
                line: 2,
            },
        ))
    }

    // The text after the last line feed: nothing, or a line without its line feed.
    fn cut_short(&self, part: Part) -> Fault
        ensures { result ≡ unended self.now.line (piece part.entry) }
    {
        let why = if part.bytes.is_empty() {
            Refusal::BadEnding
        } else {
            out_of_place(part)
        };
        Fault {
            why,
            line: self.line,
            at: part.at,
        }
    }
}

impl<'a> Iterator for Reader<'a> {
    ghost use Rattle.std.specs.Iterator.{YieldsFirst, item_count};
    ghost use Rattle.trace.specs.Ahead.{items_ahead};

    type Item = Result<TraceTurn, Fault>;

    ghost next_gives = { YieldsFirst items_ahead };

    ghost remaining = { item_count items_ahead };

    fn next(&mut self) -> Option<Result<TraceTurn, Fault>> {
        let (part, rest) = self.rest.take()?.split(b'\n');
        let Some(rest) = rest else {
            return Some(Err(self.cut_short(part)));
        };
        let line = self.line;
        match judge(part) {
            Ok(Some(turn)) => {
                self.rest = Some(rest);
                self.line += 1;
                Some(Ok(turn))
            }
            Ok(None) => Some(Err(finish(rest, line + 1)?)),
            Err(Mistake::Misshapen) => Some(Err(Fault {
                why: Refusal::BadLine,
                line,
                at: part.at,
            })),
            Err(Mistake::BadNumber(at)) => Some(Err(Fault {
                why: Refusal::BadNumber,
                line,
                at,
            })),
        }
    }
}
