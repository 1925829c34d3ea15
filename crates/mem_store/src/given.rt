use crate::Op;
use h5_base::{Bytes, Name};

/// A file that is there at first.
#[derive(Debug, Drop)]
pub struct NamedBytes {
    pub name: Name,
    pub bytes: Bytes,
}

/// A call that fails: the nth of this kind on this file, from 1.
#[derive(Debug, Drop)]
pub struct Fail {
    pub name: Name,
    pub op: Op,
    pub nth: u64,
}

/// How many calls there may be, and how many bytes the files' lengths and all that is written may add up to.
#[derive(Clone, Copy, Debug, PartialEq, Eq)]
pub struct Room {
    pub calls: u64,
    pub bytes: u64,
}
