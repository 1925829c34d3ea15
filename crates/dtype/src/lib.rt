//! Datatypes and dataspaces of datasets, read and written, and the bytes and texts of elements.
#![tactic(auto)]

mod dims;
mod escapes;
mod numbers;
mod shape_codec;
mod texts;
mod type_codec;
mod types;
mod values;

pub use dims::Dims;
pub use escapes::{append, append_escape, is_plain};
pub use shape_codec::{read_shape, write_shape};
pub use type_codec::{read_type, write_type};
pub use types::{ElemType, Pad, PartStop, Shape, Value, ValueStop};
pub use values::{can_hold, encode_value, print_value};
