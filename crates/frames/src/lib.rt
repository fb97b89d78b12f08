// The queue of frames: the values of the last 32 frames, in slots that the caller lends.
#![tactic(auto)]

pub mod queue;
