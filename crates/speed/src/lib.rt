// Speed: two seats play cards from their hands onto two piles, as fast as they can. docs/GAMES.md has the rules.
#![tactic(auto)]

pub mod game;
mod lawful;
pub mod moves;
mod pack;
mod places;
mod rules;
mod trails;

pub use rules::cards_fit;
