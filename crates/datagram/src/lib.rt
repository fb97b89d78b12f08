// The datagram by which one seat tells the other its inputs: written into bytes, and read from them.
#![tactic(auto)]

mod check;
pub mod codes;
pub mod forms;
pub mod read;
pub mod write;
