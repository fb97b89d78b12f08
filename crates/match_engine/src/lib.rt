// A match: two seats of one game, and the log of the datagrams that they sent.
#![tactic(auto)]

pub mod log;
pub mod press;
pub mod reading;
pub mod send;
pub mod state;
pub mod take;
