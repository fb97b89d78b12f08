// The turns of a trace, as a match is made them: each with its seat's slots and the whole log.
ghost use Rattle.std.specs.Prelude.{◌≡◌, map, IfOk};
ghost use Rattle.report.specs.Turns.{lent_turn};

use interface::limits::QUEUE_SLOTS;
use play::turns::{Call, Turn};
use std::alloc::{AllocError, Global};
use trace::forms::{TraceCall, TraceTurn};

// A function and no `From`, since both types are of other crates.
fn turn_of(turn: TraceTurn, records: usize) -> Turn
    ensures { result ≡ lent_turn records turn }
{
    Turn {
        seat: u32::from(turn.seat),
        call: match turn.call {
            TraceCall::Press(code) => Call::Press(code),
            TraceCall::Send => Call::Send,
            TraceCall::Take(k) => Call::Take(u32::from(k)),
        },
        own: QUEUE_SLOTS,
        other: QUEUE_SLOTS,
        digests: QUEUE_SLOTS,
        records,
    }
}

// All the turns, each lent so many records.
pub(crate) fn turns_of(
    turns: &[TraceTurn],
    records: usize,
    heap: Global,
) -> Result<Vec<Turn>, AllocError>
    ensures { IfOk result (λ v. v.items ≡ map (lent_turn records) turns.now) }
{
    turns
        .iter()
        .map(|turn| turn_of(*turn, records))
        .collect(heap)
}
