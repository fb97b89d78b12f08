// What every part of the engine agrees on: the table of answers, what an input kind, a game, a rollback keeper
// and a guess rule are, and the digest of a state.
#![tactic(auto)]

pub mod answers;
pub mod debt;
pub mod digest;
pub mod game;
pub mod guess;
pub mod input;
pub mod keeper;
pub mod limits;
