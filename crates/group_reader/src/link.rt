use h5_base::{Bytes, LinkName};

/// What a link leads to.
#[derive(Debug, Drop)]
pub enum LinkTarget {
    /// An object, by the address of its header.
    Object { header_at: u64 },
    /// A soft link's value.
    Soft { text: Bytes },
}

/// A link of a group.
#[derive(Debug, Drop)]
pub struct FoundLink {
    pub name: LinkName,
    pub target: LinkTarget,
}
