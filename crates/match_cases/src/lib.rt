// Tests of a whole match: against the plain match as a program, and with fixed turns.
#![tactic(auto)]

#[cfg(test)]
mod calling;
#[cfg(test)]
mod comparing;
#[cfg(test)]
mod fading;
#[cfg(test)]
mod fixed_turns;
#[cfg(test)]
mod plain_match;
#[cfg(test)]
mod plain_seat;
#[cfg(test)]
mod random_lists;
#[cfg(test)]
mod random_matches;
#[cfg(test)]
mod random_turns;
