// The registers and pins of 1 to 16 devices, in lent state: where they lie, what a write stores, what a read shows and what a clear sets.
#![tactic(auto)]

pub mod clear;
mod dten;
pub mod read;
pub mod state;
pub mod write;
