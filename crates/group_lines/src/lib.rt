//! What lines leave that make a link more or one fewer in a group of a file.
#![tactic(auto)]

pub mod laws;
