// What the replay program answers to its input: the report, by a log of 512 records, of at most 65,536 bytes.
ghost use Rattle.std.specs.Prelude.{◌≡◌, IfOk, string_bytes};
ghost use Rattle.report.specs.Program.{program_text};

use crate::replay::replay;
use crate::text::{fault_text, render};
use interface::answers::Refusal;
use match_engine::log::Record;
use std::alloc::{AllocError, Global};
use trace::forms::Fault;

// The longest input.
pub const MOST_BYTES: usize = 65_536;

// How many datagrams the log has room for.
pub const LOG_RECORDS: usize = 512;

// The whole output for an input.
pub fn answer(text: &[u8], heap: Global) -> Result<String, AllocError>
    ensures { IfOk result (λ s. string_bytes s ≡ program_text text.now) }
{
    if text.len() > MOST_BYTES {
        let fault = Fault {
            why: Refusal::TraceTooLong,
            line: 0,
            at: 0,
        };
        return fault_text(fault, heap);
    }
    let mut log = vec![in heap; Record::empty(); LOG_RECORDS]?;
    let report = replay(text, &mut log, heap)?;
    render(&report, heap)
}
