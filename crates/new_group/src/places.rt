ghost use Rattle.std.specs.Prelude.{◌+◌, ◌^◌, ◌<◌};
ghost use Rattle.block_space.specs.Blocks.{space_of};
ghost use Rattle.block_space.specs.Plans.{all_needed, rounded};
ghost use Rattle.node_codec.specs.GroupNodes.{group_node_len};
ghost use Rattle.new_group.specs.Placed.{ArePlaces, IsNext};

use block_space::{Blocks, Needs};
use h5_base::MemClass;
use node_codec::group_node_size;
use outside::Space;
use plan_pieces::with_block;
use super_codec::KValues;

/// Where the blocks of a new group begin.
#[derive(Clone, Copy, Debug)]
pub(crate) struct Places {
    pub header_at: u64,
    /// The root node of its B-tree.
    pub tree_at: u64,
    /// The header of its local heap.
    pub heap_at: u64,
    /// The heap's data segment.
    pub segment_at: u64,
}

/// Where a block of a class begins that is taken behind what is ahead; it is ahead too from then on.
fn next_block<V: Space>(blocks: &Blocks<V>, ahead: &mut Needs, class: MemClass, len: u64) -> u64
    requires room { all_needed ahead.old + rounded len < 2 ^ 64 }
    requires few { ahead.old.blocks + 1 < 2 ^ 32 }
    ensures { IsNext (V.view (space_of blocks.now)) class len ahead.old result ahead.new }
{
    let at = blocks.next(class, ahead);
    *ahead = with_block(ahead, class, len);
    at
}

/// Where the blocks of a new group begin that is taken behind what is ahead; it is ahead too from then on.
pub(crate) fn find_places<V: Space>(blocks: &Blocks<V>, ks: KValues, ahead: &mut Needs) -> Places
    requires small { all_needed ahead.old < 2 ^ 63 }
    requires few { ahead.old.blocks < 2 ^ 31 }
    ensures { ArePlaces (V.view (space_of blocks.now)) ks ahead.old result ahead.new }
{
    let node_len = group_node_size(ks.internal) as u64;
    let header_at = next_block(blocks, ahead, MemClass::Header, 40);
    let tree_at = next_block(blocks, ahead, MemClass::Tree, node_len);
    let heap_at = next_block(blocks, ahead, MemClass::LocalHeap, 32);
    let segment_at = next_block(blocks, ahead, MemClass::LocalHeap, 88);
    Places {
        header_at,
        tree_at,
        heap_at,
        segment_at,
    }
}
