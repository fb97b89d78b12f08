// Two rollback keepers that stand over any game, two guess rules that stand over any input kind,
// and going back and replaying with any keeper.
#![tactic(auto)]

pub mod guesses;
pub mod replaying;
mod ring;
pub mod snapshots;
pub mod trails;
