//! The bytes of an empty HDF5 file: one group without links.
#![tactic(auto)]

ghost use Rattle.std.specs.Prelude.{◌≡◌, length};
ghost use Rattle.empty_file.specs.Empty.{empty_file};

mod blocks;

/// The length of an empty file of one region without driver information, in bytes.
pub const EMPTY_LEN: usize = 800;

/// Writes the empty file of one region without driver information over the whole of `out`.
#[tactic(auto, unfolding(crate::specs::Empty::empty_file))]
pub fn write_empty_file(out: &mut [u8])
    requires { length out.old ≡ EMPTY_LEN }
    ensures { out.new ≡ empty_file }
{
    let (group, heap) = out.split_at_mut(680);
    blocks::write_group(group);
    blocks::write_heap(heap);
}
