/// The kind of a block, as a refusal of malformed bytes names it.
#[derive(Clone, Copy, Debug, PartialEq, Eq)]
pub enum BlockKind {
    Super,
    Driver,
    Header,
    Message,
    Tree,
    Snod,
    Heap,
    Raw,
}

/// What a file asks for that isn't supported.
#[derive(Clone, Copy, Debug, PartialEq, Eq)]
pub enum What {
    UserBlock,
    Sizes,
    Superblock,
    K,
    Driver,
    Root,
    Header,
    Heap,
}
