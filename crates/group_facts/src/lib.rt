//! Laws that join what is read of a group, how its links are laid out anew, and what a plan does.
#![tactic(auto)]

pub mod heap_laws;
pub mod laws;
