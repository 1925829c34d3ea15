ghost use Rattle.group_reader.specs.Texts.{EndTexts};

use super_codec::KValues;

/// The table of a group while it is read: the K values of its file, and its local heap.
#[derive(Clone, Copy)]
pub(crate) struct Table<'a> {
    pub(crate) ks: KValues,
    /// The address of the heap's header.
    pub(crate) heap_at: u64,
    /// The heap's data segment.
    pub(crate) segment: &'a [u8],
    /// The offset behind the last NUL of the segment.
    pub(crate) texts_end: usize,
    ghost ends: { EndTexts segment.now texts_end },
}
