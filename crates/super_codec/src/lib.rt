//! The superblock of an HDF5 file, versions 0 and 1, read and written (HDF5 File Format Specification 3.0, II.A).
#![tactic(auto)]

mod reading;
mod superblock;
mod writing;

pub use reading::read_super;
pub use superblock::{KValues, RootEntry, SuperStop, Superblock};
pub use writing::write_super;
