ghost use Rattle.std.specs.Prelude.{◌≡◌, ◌∷◌, [], IsTrue, IfOk, IfErr, OnOk, IsErrOf};
ghost use Rattle.outside.specs.Causes.{OneRose};
ghost use Rattle.node_codec.specs.GroupNodes.{FitsGroupNode};
ghost use Rattle.block_space.specs.Blocks.{Refuses, array_of, space_of};
ghost use Rattle.file_model.specs.Groups.{node_block};
ghost use Rattle.group_reader.specs.Reading.{TakesJust, IsNodeAt, IsHeadRefused};

use block_space::Blocks;
use h5_base::{BlockKind, CodecStop, Stop};
use node_codec::{GroupNode, group_node_size, read_group_node};
use outside::Space;
use std::alloc::Global;
use super_codec::KValues;

/// Reads a node of the B-tree, of any level.
pub(crate) fn read_node<V: Space>(
    alloc: Global,
    blocks: &mut Blocks<V>,
    ks: KValues,
    at: u64,
) -> Result<GroupNode, Stop>
    requires stands { V.Stands (space_of blocks.old) }
    ensures found { IsTrue V.tells → IfOk result (IsNodeAt (array_of V.view blocks.old) ks at) }
    ensures fits { IfOk result (FitsGroupNode ks.internal) }
    ensures taken { OnOk result (TakesJust V.view blocks.old blocks.new (node_block ks at ∷ [])) }
    ensures refused { IsTrue V.tells → IfErr result
        (Refuses V.view blocks.old (λ e met. IsHeadRefused (array_of V.view blocks.old) e ks met at)) }
    ensures alike { V.Alike (space_of blocks.old) (space_of blocks.new) }
    ensures failed { IsErrOf result Stop.Failed
        → OneRose (V.faults (space_of blocks.old)) (V.faults (space_of blocks.new)) }
    ensures calm { ¬ IsErrOf result Stop.Failed
        → V.faults (space_of blocks.new) ≡ V.faults (space_of blocks.old) }
{
    let bytes = blocks.adopt_bytes(alloc, at, group_node_size(ks.internal), BlockKind::Tree)?;
    match read_group_node(alloc, &bytes, ks.internal) {
        Ok(node) => Ok(node),
        Err(CodecStop::NotThis) => Err(Stop::malformed(at, BlockKind::Tree)),
        Err(CodecStop::NoMemory) => Err(Stop::NoMemory),
    }
}
