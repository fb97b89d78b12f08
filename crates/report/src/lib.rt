// The replay of a trace: from its text to a report.
#![tactic(auto)]

pub mod ends;
mod games;
pub mod program;
pub mod replay;
mod replaying;
pub mod reports;
mod rerun;
mod slots;
pub mod text;
mod totals;
mod turning;
