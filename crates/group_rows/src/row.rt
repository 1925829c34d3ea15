ghost use Rattle.std.specs.Prelude.{◌≡◌, ◌+◌, ◌≤◌, ◌∷◌, ◌++◌, [], IsTrue, IfOk, IfErr, OnOk, length};
ghost use Rattle.block_space.specs.Blocks.{array_of, space_of};
ghost use Rattle.block_space.specs.declared.plan.PlanStop.TheVariants.{NoMemory};
ghost use Rattle.group_rows.specs.Rows.{node_at, row_children, IsNodeThere, IsRow};
ghost use Rattle.group_rows.specs.Gathering.{IsMalformed, Reads, AddsNodes};

use crate::block::read_block;
use crate::gathered::{Gathered, keep};
use crate::offsets::{greater, greatest_key};
use block_space::{Blocks, PlanStop};
use h5_base::{BlockKind, Bytes, CodecStop, List};
use node_codec::{GroupNode, group_node_size, read_group_node};
use outside::Space;
use plan_pieces::Image;
use std::alloc::Global;

/// Reads a node of the B-tree, of any level (III.A.1), whose children may all be named.
pub(crate) fn read_node<V: Space>(
    alloc: Global,
    blocks: &mut Blocks<V>,
    k: u16,
    at: u64,
    gathered: &mut Gathered,
) -> Result<GroupNode, PlanStop>
    requires stands { V.Stands (space_of blocks.old) }
    ensures found { IsTrue V.tells → IfOk result (λ node. node ≡ node_at (array_of V.view blocks.old) k at) }
    ensures adds { IsTrue V.tells → OnOk result
        (AddsNodes (array_of V.view blocks.old) k (at ∷ []) gathered.old gathered.new) }
    ensures left { IfOk result (λ node. length node.children + gathered.new.left ≡ gathered.old.left) }
    ensures whole { IsTrue V.tells → IsNodeThere (array_of V.view blocks.old) k at
        → length (node_at (array_of V.view blocks.old) k at).children ≤ gathered.old.left
        → IfErr result (λ stop. ¬ IsMalformed stop) }
    ensures reads { Reads V.view V.Alike V.faults blocks.old blocks.new result }
{
    let bytes = read_block(alloc, blocks, at, group_node_size(k), BlockKind::Tree)?;
    match read_group_node(alloc, &bytes, k) {
        Ok(node) if node.children.len() <= gathered.left => {
            let bytes = Bytes::from_vec(bytes);
            keep(&mut gathered.images, Image { at, bytes })?;
            gathered.last = greater(gathered.last, greatest_key(&node));
            gathered.left -= node.children.len();
            Ok(node)
        }
        Err(CodecStop::NoMemory) => Err(PlanStop::NoMemory),
        _ => Err(PlanStop::Malformed {
            at,
            kind: BlockKind::Tree,
        }),
    }
}

/// Keeps numbers behind the others.
fn extend(numbers: &mut Vec<u64>, more: &[u64]) -> Result<(), PlanStop>
    ensures kept { OnOk result (numbers.new.items ≡ numbers.old.items ++ more.now) }
    ensures memory { IfErr result (λ stop. stop ≡ NoMemory) }
{
    match numbers.extend_from_slice(more) {
        Ok(()) => Ok(()),
        Err(_) => Err(PlanStop::NoMemory),
    }
}

/// Reads the nodes of a row, from left to right, each of which has to be of this level: the addresses of their
/// children.
pub(crate) fn read_row<V: Space>(
    alloc: Global,
    blocks: &mut Blocks<V>,
    k: u16,
    level: u8,
    ats: &[u64],
    gathered: &mut Gathered,
) -> Result<List<u64>, PlanStop>
    requires stands { V.Stands (space_of blocks.old) }
    ensures found { IsTrue V.tells → IfOk result
        (λ children. children ≡ row_children (array_of V.view blocks.old) k ats.now) }
    ensures adds { IsTrue V.tells → OnOk result
        (AddsNodes (array_of V.view blocks.old) k ats.now gathered.old gathered.new) }
    ensures left { IfOk result (λ children. length children + gathered.new.left ≡ gathered.old.left) }
    ensures whole { IsTrue V.tells → IsRow (array_of V.view blocks.old) k level ats.now
        → length (row_children (array_of V.view blocks.old) k ats.now) ≤ gathered.old.left
        → IfErr result (λ stop. ¬ IsMalformed stop) }
    ensures reads { Reads V.view V.Alike V.faults blocks.old blocks.new result }
{
    let mut children = Vec::new(alloc);
    for at in ats {
        let node = read_node(alloc, blocks, k, *at, gathered)?;
        if node.level != level {
            return Err(PlanStop::Malformed {
                at: *at,
                kind: BlockKind::Tree,
            });
        }
        extend(&mut children, node.children.as_slice())?;
    }
    Ok(List::from_vec(children))
}
