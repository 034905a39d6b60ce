// The host reader and the marks of a reply.
#![tactic(auto)]

pub mod marks;
pub mod reader;
