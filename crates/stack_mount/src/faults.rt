use h5_base::Stop;

/// Why a file isn't mounted: a refusal, the first that applies of `Absent`, `Malformed` or `Unsupported` (its
/// superblock) and `Truncated`; a call of the store that failed; or want of memory.
pub type MountFault = Stop;

/// The store in which a file wasn't mounted, and why.
#[derive(Drop)]
pub struct MountRefused<S> {
    pub store: S,
    pub fault: MountFault,
}
