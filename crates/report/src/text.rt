// A report as text.
ghost use Rattle.std.specs.Prelude.{◌≡◌, ◌++◌, map, IfOk, OnOk, string_bytes};
ghost use Rattle.play.specs.Turns.{told_of};
ghost use Rattle.report.specs.Reports.{reported};
ghost use Rattle.report.specs.Texts.{first_text, turn_texts, fault_text, ending_text, report_text};

use crate::reports::{Report, SeatLine};
use play::turns::Told;
use std::alloc::{AllocError, Global};
use std::fmt::Write;
use trace::forms::{Fault, First};
use trace::write::first_text;

fn head(first: Option<First>, heap: Global) -> Result<String, AllocError>
    ensures { IfOk result (λ s. string_bytes s ≡ first_text first) }
{
    match first {
        Some(first) => first_text(first, heap),
        None => Ok(String::new(heap)),
    }
}

// Writes the lines of the turns. By no `Display`: what is told and a fault belong to other crates, and only a report words them so.
fn write_turns(text: &mut String, lines: &[Told]) -> Result<(), AllocError>
    ensures { OnOk result (string_bytes text.new ≡ string_bytes text.old ++ turn_texts 2 (map told_of lines.now)) }
{
    for (i, told) in lines.iter().enumerate() {
        let line = i + 2;
        writeln!(
            text,
            "{line} {} {} {} {}",
            told.code, told.frames, told.played, told.known
        )?;
    }
    Ok(())
}

// The line of a fault.
pub fn fault_text(fault: Fault, heap: Global) -> Result<String, AllocError>
    ensures { IfOk result (λ s. string_bytes s ≡ fault_text fault) }
{
    let number = fault.why.number();
    format!(in heap; "fault {number} line {} byte {}\n", fault.line, fault.at)
}

// The fault, or else the lines of both seats.
fn ending_text(
    fault: Option<Fault>,
    seats: Option<(SeatLine, SeatLine)>,
    heap: Global,
) -> Result<String, AllocError>
    ensures { IfOk result (λ s. string_bytes s ≡ ending_text fault seats) }
{
    match (fault, seats) {
        (Some(fault), _) => fault_text(fault, heap),
        (None, Some((first, second))) => format!(in heap; "seat 0 {first}\nseat 1 {second}\n"),
        (None, None) => Ok(String::new(heap)),
    }
}

// The report's lines.
pub fn render(report: &Report, heap: Global) -> Result<String, AllocError>
    ensures { IfOk result (λ s. string_bytes s ≡ report_text (reported report.now)) }
{
    let mut text = head(report.first, heap)?;
    write_turns(&mut text, &report.lines)?;
    text.push_str(&ending_text(report.fault, report.seats, heap)?)?;
    Ok(text)
}
