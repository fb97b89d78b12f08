// A fresh match, and a whole list of turns made of it.
#![tactic(auto)]

pub mod playing;
pub mod step;
pub mod turns;
