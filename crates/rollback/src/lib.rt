// What lies under a seat's calls, for any game, keeper and guess rule: both inputs of a frame, the lowest frame
// that was guessed wrong, and going back and replaying from it.
#![tactic(auto)]

pub mod inputs;
pub mod news;
pub mod replaying;
