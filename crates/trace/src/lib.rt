// The text of a match trace: read into its first line and turns, and written from them.
#![tactic(auto)]

pub mod forms;
mod line;
mod number;
mod part;
pub mod read;
mod reader;
mod token;
mod words;
pub mod write;
