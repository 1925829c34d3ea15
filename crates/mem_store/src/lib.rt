//! A store, a source, a sink and a clock in memory, each with a list of its calls that fail.
#![tactic(auto)]

mod arena;
mod clock;
mod given;
mod memory;
mod numbered;
mod sink;
mod source;
mod table;
mod tally;

pub use clock::ListClock;
pub use given::{Fail, NamedBytes, Room};
pub use memory::MemStore;
pub use sink::VecSink;
pub use source::VecSource;
pub use table::{Op, Tally};
