// A seat: press, send and take for any game, keeper and guess rule, and for any bytes.
//
// In clauses a seat plays by `setting ..`, the words of its game and of its guess rule: a trait for the pair would be named in each clause as well.
#![tactic(auto)]

pub mod press;
pub mod reading;
pub mod send;
pub mod state;
pub mod take;
