use crate::named::Named;

/// What a run gave.
#[derive(Drop)]
pub struct Outcome {
    pub status: u8,
    pub out: Vec<u8>,
    pub err: Vec<u8>,
    /// How many bytes of the script were not taken.
    pub unread: usize,
    /// The files as the run leaves them.
    pub files: Vec<Named>,
    /// How many calls there were, for each limit that is wanted; none over a folder.
    pub calls: Vec<u64>,
}
