//! A catalogue of the blocks of an HDF5 file, by address, over any space of addresses. What reads a file takes each
//! block into it and reads it through it, or the file is refused.
#![tactic(auto)]

mod applying;
mod blocks;
mod catalogue;
mod getting;
mod neighbours;
mod plan;
mod regions;
mod reserving;
mod writing;

pub use applying::{ends_behind_needs, planned_stays};
pub use blocks::Blocks;
pub use catalogue::Catalogue;
pub use plan::{EditPlan, Needs, PlanStop, ReserveStop, Take};
pub use reserving::{reserved_covers, room_in_any_order};

/// What `Blocks::adopt` answers of a block that isn't taken in: a refusal, or want of memory.
pub type AdoptStop = h5_base::Stop;
