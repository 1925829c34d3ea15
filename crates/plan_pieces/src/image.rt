use h5_base::{BlockKind, Bytes, MemClass};

/// The bytes that stand from an address on once an edit is done.
#[derive(Debug, Drop)]
pub struct Image {
    pub at: u64,
    pub bytes: Bytes,
}

/// A block that an edit takes, with all its bytes, at the address that it will have.
#[derive(Debug, Drop)]
pub struct NewBlock {
    pub class: MemClass,
    pub kind: BlockKind,
    pub image: Image,
}
