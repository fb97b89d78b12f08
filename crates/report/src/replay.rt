// The replay of a trace: from its text to the report.
ghost use Rattle.std.specs.Prelude.{◌≡◌, length, IfOk, Some, MatchResult};
ghost use Rattle.match_engine.specs.Log.{entries};
ghost use Rattle.report.specs.Games.{log_by};
ghost use Rattle.report.specs.Replays.{tale_of};
ghost use Rattle.report.specs.Reports.{reported, seat_lines, by_first, report_on, log_on};

use crate::ends::Replayed;
use crate::games::replay_match;
use crate::reports::{Report, SeatLine};
use crate::totals::total_of;
use match_engine::log::Record;
use std::alloc::{AllocError, Global};
use trace::forms::{Fault, First, TraceTurn};
use trace::read::read;

// The lines of both seats.
fn seat_lines(turns: &[TraceTurn], replayed: &Replayed) -> (SeatLine, SeatLine)
    ensures { result ≡ seat_lines turns.now (tale_of replayed.now) }
{
    (
        SeatLine {
            end: replayed.first,
            replayed: total_of(turns, &replayed.lines, false),
        },
        SeatLine {
            end: replayed.second,
            replayed: total_of(turns, &replayed.lines, true),
        },
    )
}

// The report on the turns of a trace with a good first line.
fn report_turns(
    first: First,
    turns: &[TraceTurn],
    fault: Option<Fault>,
    log: &mut [Record],
    heap: Global,
) -> Result<Report, AllocError>
    ensures told { IfOk result (λ x. reported x ≡ by_first (length log.old) (Some first) turns.now fault) }
    ensures log { MatchResult result (λ _. entries log.new ≡ log_by first.game first.seed first.match_number (entries log.old) turns.now) (λ _. log.new ≡ log.old) }
{
    let replayed = replay_match(first, turns, log, heap)?;
    let seats = match fault {
        None => Some(seat_lines(turns, &replayed)),
        Some(_) => None,
    };
    Ok(Report {
        first: Some(first),
        lines: replayed.lines,
        fault,
        seats,
    })
}

// Replays a text of any length, with a log of any number of records.
pub fn replay(text: &[u8], log: &mut [Record], heap: Global) -> Result<Report, AllocError>
    ensures told { IfOk result (λ x. reported x ≡ report_on text.now (length log.old)) }
    ensures log { MatchResult result (λ _. entries log.new ≡ log_on text.now (entries log.old)) (λ _. log.new ≡ log.old) }
{
    let trace = read(text, heap)?;
    let Some(first) = trace.first else {
        return Ok(Report {
            first: None,
            lines: Vec::new(heap),
            fault: trace.fault,
            seats: None,
        });
    };
    report_turns(first, &trace.turns, trace.fault, log, heap)
}
