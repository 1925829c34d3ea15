//! A name is put into the local heap of a group, or what is free of a heap is told anew.
#![tactic(auto)]

mod freeing;
mod heap;
mod naming;
mod spelling;
mod used;

pub use freeing::tell_free;
pub use heap::{Heap, HeapEdit};
pub use naming::put_name;
pub use used::{base_of, is_used, used_len};
