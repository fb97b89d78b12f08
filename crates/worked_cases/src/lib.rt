// Worked cases of the rules: those that are computed from the definitions in a contract, theorems over whole scripts, and
// tests that run the code.
#![tactic(auto)]

mod counter_game;
pub mod datagrams;
pub mod duel_cases;
#[cfg(test)]
mod keeper_cases;
mod keeper_scripts;
pub mod plain_match;
#[cfg(test)]
mod queue_cases;
#[cfg(test)]
mod seat_cases;
#[cfg(test)]
mod seat_scripts;
#[cfg(test)]
mod seat_tests;
pub mod speed_cases;
