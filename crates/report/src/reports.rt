// The report on a trace.
ghost use Rattle.std.specs.Prelude.{Some};
ghost use Rattle.report.specs.Texts.{line_text};

use crate::ends::SeatEnd;
use play::turns::Told;
use std::fmt;
use trace::forms::{Fault, First};

// How a seat ends, and the frames that it has replayed in all.
#[derive(Clone, Copy)]
pub struct SeatLine {
    pub end: SeatEnd,
    pub replayed: u128,
}

impl fmt::Display for SeatLine {
    ghost output = { λ x. Some (line_text x) };

    fn fmt<W: fmt::Write>(&self, f: &mut fmt::Formatter<W>) -> fmt::Result {
        write!(f, "{} {}", self.end, self.replayed)
    }
}

// The first line; what is told of the turn on line 2, line 3 and so on; and the fault, or the line of each seat. Two Options and no Result:
// `render` answers a report with neither, or with both, as well.
#[derive(Drop)]
pub struct Report {
    pub first: Option<First>,
    pub lines: Vec<Told>,
    pub fault: Option<Fault>,
    pub seats: Option<(SeatLine, SeatLine)>,
}
