//! The store over a folder, the source and the sinks over any reader and writer, and the clock of the system.
#![tactic(auto)]

mod entry;
mod folder;
mod terminal;

pub use folder::DirStore;
pub use terminal::{StdSink, StdSource, SysClock};
