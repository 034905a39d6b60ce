// Frames: the one table of commands, groups on the wire, and the frame writer.
#![tactic(auto)]

pub mod commands;
pub mod groups;
pub mod size;
pub mod writer;
