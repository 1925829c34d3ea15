//! Takes the blocks of a dataset's elements into the catalogue of a file's blocks: the one block of a contiguous
//! dataset, or the nodes and chunks of a chunk index. No element is read.
#![tactic(auto)]

mod child;
mod chunks;
mod ends;
mod form;
mod nodes;
mod storage;

pub use storage::{Elements, adopt_storage};
