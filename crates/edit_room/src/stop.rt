use thiserror::Error;

/// Why an edit isn't made.
#[derive(Clone, Copy, Debug, PartialEq, Eq, Error)]
pub enum RoomStop {
    /// The file would have too many blocks, a heap too long a segment, or the file with the revisions too many bytes.
    #[error("limit")]
    Limit,
    /// A region ends at `end`, and hasn't room for `need` bytes more.
    #[error("full")]
    Full { end: u64, need: u64 },
    #[error("out of memory")]
    NoMemory,
}
