//! Object headers of version 1: the prefix, the messages, data layouts and fill values, read exactly, and the headers
//! of a new group and a new dataset, written (HDF5 File Format Specification 3.0, IV.A).
#![tactic(auto)]

mod fill_codec;
mod headers;
mod layout_codec;
mod types;
mod writing;

pub use fill_codec::read_fill;
pub use headers::{read_message, read_prefix};
pub use layout_codec::{is_chunk, read_layout};
pub use types::{Fill, Layout, Message, NewHeader, Prefix};
pub use writing::write_header;
