//! The lines of a script, read from a source in pieces of a fixed size, and text written to a sink.
#![tactic(auto)]

mod pieces;
mod printing;
mod reader;

pub use printing::print;
pub use reader::{LineReader, NextLine, ReadStop};
