ghost use Rattle.std.specs.Prelude.{◌≡◌, ◌∷◌, ◌++◌, [], All, IsTrue, IfOk, IfErr, OnOk};
ghost use Rattle.block_space.specs.Blocks.{array_of, space_of};
ghost use Rattle.node_codec.specs.Snod.{IsCache};
ghost use Rattle.group_rows.specs.Rows.{entries_at, row_entries, IsLeafThere};
ghost use Rattle.group_rows.specs.Gathering.{IsMalformed, Reads, AddsLeaves};
ghost use Rattle.block_space.specs.declared.plan.PlanStop.TheVariants.{NoMemory};

use crate::block::read_block;
use crate::gathered::{Gathered, keep};
use crate::offsets::{greater, greatest};
use block_space::{Blocks, PlanStop};
use h5_base::{BlockKind, Bytes, CodecStop};
use node_codec::{SnodEntry, read_snod, snod_size};
use outside::Space;
use plan_pieces::Image;
use std::alloc::Global;

/// Reads a symbol table node (III.B).
fn read_leaf<V: Space>(
    alloc: Global,
    blocks: &mut Blocks<V>,
    k: u16,
    at: u64,
    gathered: &mut Gathered,
) -> Result<Vec<SnodEntry>, PlanStop>
    requires stands { V.Stands (space_of blocks.old) }
    ensures found { IsTrue V.tells → IfOk result
        (λ entries. entries.items ≡ entries_at (array_of V.view blocks.old) k at) }
    ensures caches { IfOk result (λ entries. All IsCache entries.items) }
    ensures adds { IsTrue V.tells → OnOk result
        (AddsLeaves (array_of V.view blocks.old) k (at ∷ []) gathered.old gathered.new) }
    ensures whole { IsTrue V.tells → IsLeafThere (array_of V.view blocks.old) k at
        → IfErr result (λ stop. ¬ IsMalformed stop) }
    ensures reads { Reads V.view V.Alike V.faults blocks.old blocks.new result }
{
    let bytes = read_block(alloc, blocks, at, snod_size(k), BlockKind::Snod)?;
    match read_snod(alloc, &bytes, k) {
        Ok(entries) => {
            let bytes = Bytes::from_vec(bytes);
            keep(&mut gathered.images, Image { at, bytes })?;
            gathered.last = greater(gathered.last, greatest(&entries));
            Ok(entries)
        }
        Err(CodecStop::NoMemory) => Err(PlanStop::NoMemory),
        Err(CodecStop::NotThis) => Err(PlanStop::Malformed {
            at,
            kind: BlockKind::Snod,
        }),
    }
}

/// Keeps entries behind the others.
fn extend(entries: &mut Vec<SnodEntry>, more: &[SnodEntry]) -> Result<(), PlanStop>
    ensures kept { OnOk result (entries.new.items ≡ entries.old.items ++ more.now) }
    ensures memory { IfErr result (λ stop. stop ≡ NoMemory) }
{
    match entries.extend_from_slice(more) {
        Ok(()) => Ok(()),
        Err(_) => Err(PlanStop::NoMemory),
    }
}

/// Reads symbol table nodes, from left to right: their entries.
pub(crate) fn read_leaves<V: Space>(
    alloc: Global,
    blocks: &mut Blocks<V>,
    k: u16,
    ats: &[u64],
    gathered: &mut Gathered,
) -> Result<Vec<SnodEntry>, PlanStop>
    requires stands { V.Stands (space_of blocks.old) }
    ensures found { IsTrue V.tells → IfOk result
        (λ entries. entries.items ≡ row_entries (array_of V.view blocks.old) k ats.now) }
    ensures caches { IfOk result (λ entries. All IsCache entries.items) }
    ensures adds { IsTrue V.tells → OnOk result
        (AddsLeaves (array_of V.view blocks.old) k ats.now gathered.old gathered.new) }
    ensures whole { IsTrue V.tells → All (IsLeafThere (array_of V.view blocks.old) k) ats.now
        → IfErr result (λ stop. ¬ IsMalformed stop) }
    ensures reads { Reads V.view V.Alike V.faults blocks.old blocks.new result }
{
    let mut entries = Vec::new(alloc);
    for at in ats {
        let more = read_leaf(alloc, blocks, k, *at, gathered)?;
        extend(&mut entries, &more)?;
    }
    Ok(entries)
}
