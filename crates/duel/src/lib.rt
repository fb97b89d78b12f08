// Duel: two players on a grid of 8 by 8 cells with walls, who steer and fire.
#![tactic(auto)]

pub mod board;
pub mod input;
pub mod play;
pub mod state;
