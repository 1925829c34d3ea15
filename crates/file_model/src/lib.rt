//! What the bytes of an HDF5 file hold: definitions and their laws.
#![tactic(auto)]

pub mod edits;
pub mod laws;
