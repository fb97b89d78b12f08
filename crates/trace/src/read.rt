// A whole text read.
ghost use Rattle.std.specs.Prelude.{◌≡◌, IfOk};
ghost use Rattle.trace.specs.Reading.{read_text};
ghost use Rattle.trace.specs.Ahead.{ahead};
ghost use Rattle.trace.specs.Laws.{Faithful};
ghost use Rattle.trace.specs.Whole.{rest_of, reading_of};

use crate::forms::{Fault, Trace, TraceTurn};
use crate::reader::Reader;
use std::alloc::{AllocError, Global};

// The turns ahead of a reader, and the fault that ends them.
fn read_turns(reader: Reader, heap: Global) -> Result<(Vec<TraceTurn>, Option<Fault>), AllocError>
    ensures { IfOk result (λ x. rest_of x ≡ ahead reader.entry) }
{
    let mut turns = Vec::new(heap);
    for turn in reader {
        match turn {
            Ok(turn) => turns.push(turn)?,
            Err(fault) => return Ok((turns, Some(fault))),
        }
    }
    Ok((turns, None))
}

// The first line of the text, its turns, and its fault if it has one.
pub fn read(text: &[u8], heap: Global) -> Result<Trace, AllocError>
    ensures reading { IfOk result (λ t. reading_of t ≡ read_text text.now) }
    ensures laws { IfOk result (λ t. Faithful text.now (reading_of t)) }
{
    match Reader::open(text) {
        Ok((first, reader)) => {
            let (turns, fault) = read_turns(reader, heap)?;
            Ok(Trace {
                first: Some(first),
                turns,
                fault,
            })
        }
        Err(fault) => Ok(Trace {
            first: None,
            turns: Vec::new(heap),
            fault: Some(fault),
        }),
    }
}
