//! What the program does, over any store, source, sinks and clock.
#![tactic(auto)]

mod asked;
mod creating;
mod ending;
mod files;
mod looking;
mod running;
mod telling;
mod words;

pub use ending::Ending;
pub use running::{Finished, run};
pub use words::WordFault;
