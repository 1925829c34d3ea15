//! Reads the header of an object, of version 1 with its continuations, gathers its messages, and says which object they
//! make: a group, a dataset or another (HDF5 File Format Specification 3.0, IV.A).
#![tactic(auto)]

mod first;
mod kept;
mod messages;
mod reading;
mod walk;

pub use reading::{Header, read_header};
