ghost use Rattle.std.specs.Prelude.{◌≡◌, IsTrue, IfErr, OnOk, IsErrOf};
ghost use Rattle.outside.specs.Causes.{OneRose};
ghost use Rattle.block_space.specs.Blocks.{Takes, Refuses, array_of, space_of};
ghost use Rattle.file_model.specs.Groups.{StandsAt};
ghost use Rattle.file_model.specs.RefusedGroups.{IsLeafRefused};
ghost use Rattle.group_reader.specs.Links.{Adds};

use crate::entries::push_entries;
use crate::gathered::Gathered;
use crate::table::Table;
use block_space::Blocks;
use h5_base::{BlockKind, CodecStop, Stop};
use node_codec::{read_snod, snod_size};
use outside::Space;
use std::alloc::Global;

/// Reads a symbol table node, and keeps the links that its entries tell.
pub(crate) fn read_leaf<V: Space>(
    alloc: Global,
    blocks: &mut Blocks<V>,
    table: &Table<'_>,
    at: u64,
    gathered: &mut Gathered,
) -> Result<(), Stop>
    requires stands { V.Stands (space_of blocks.old) }
    ensures adds { OnOk result (Adds gathered.old gathered.new (λ fs. Takes V.view blocks.old blocks.new (λ bs.
        IsTrue V.tells → StandsAt (array_of V.view blocks.old) table.now.ks table.now.segment.now 0 at fs bs))) }
    ensures refused { IsTrue V.tells → IfErr result (Refuses V.view blocks.old (λ e met. IsLeafRefused
        (array_of V.view blocks.old) e table.now.ks table.now.segment.now table.now.heap_at met at)) }
    ensures alike { V.Alike (space_of blocks.old) (space_of blocks.new) }
    ensures failed { IsErrOf result Stop.Failed
        → OneRose (V.faults (space_of blocks.old)) (V.faults (space_of blocks.new)) }
    ensures calm { ¬ IsErrOf result Stop.Failed
        → V.faults (space_of blocks.new) ≡ V.faults (space_of blocks.old) }
{
    let k = table.ks.leaf;
    let bytes = blocks.adopt_bytes(alloc, at, snod_size(k), BlockKind::Snod)?;
    let entries = match read_snod(alloc, &bytes, k) {
        Ok(entries) => entries,
        Err(CodecStop::NotThis) => return Err(Stop::malformed(at, BlockKind::Snod)),
        Err(CodecStop::NoMemory) => return Err(Stop::NoMemory),
    };
    push_entries(alloc, table, at, &entries, gathered)
}
