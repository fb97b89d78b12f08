// A seat at the end of a match, and a match that was replayed.
ghost use Rattle.std.specs.Prelude.{Some};
ghost use Rattle.report.specs.Texts.{end_text};

use play::turns::Told;
use std::fmt;

#[derive(Clone, Copy)]
pub struct SeatEnd {
    // P, R, A and C.
    pub played: u32,
    pub known: u32,
    pub acknowledged: u32,
    pub confirmed: u32,
    // Of the newest state.
    pub digest: u32,
}

impl fmt::Display for SeatEnd {
    ghost output = { λ x. Some (end_text x) };

    fn fmt<W: fmt::Write>(&self, f: &mut fmt::Formatter<W>) -> fmt::Result {
        write!(
            f,
            "{} {} {} {} {}",
            self.played, self.known, self.acknowledged, self.confirmed, self.digest
        )
    }
}

// A match that was replayed: what is told of each turn, and both seats at the end, each by its name, as in a match.
#[derive(Drop)]
pub(crate) struct Replayed {
    pub(crate) lines: Vec<Told>,
    pub(crate) first: SeatEnd,
    pub(crate) second: SeatEnd,
}
