ghost use Rattle.std.specs.Prelude.{◌≡◌, List, IsTrue, IfOk, IfErr, IsErrOf};
ghost use Rattle.outside.specs.Blocks.{Block};
ghost use Rattle.outside.specs.Causes.{OneRose};
ghost use Rattle.block_space.specs.Blocks.{Keeps, array_of, space_of};
ghost use Rattle.file_model.specs.Groups.{Found, HasLinks};
ghost use Rattle.group_reader.specs.Links.{links_of};
ghost use Rattle.group_rows.specs.Gathering.{IsMalformed};
ghost use Rattle.group_room.specs.Index.{AreSmall};
ghost use Rattle.group_rows.specs.Reading.{IsHeld};

use crate::group::GroupAt;
use crate::link::read_entries;
use crate::reading::read_group;
use block_space::{Blocks, PlanStop};
use group_reader::FoundLink;
use outside::Space;
use std::alloc::Global;

/// The links of a group whose blocks are in the catalogue already, in the order of their names (HDF5 File Format
/// Specification 3.0, III.C and III.D).
///
/// Where the space doesn't tell its bytes, `Malformed` comes also where a name or a soft link's value isn't in the
/// heap.
pub fn list_links<V: Space>(
    alloc: Global,
    blocks: &mut Blocks<V>,
    group: &GroupAt,
) -> Result<Vec<FoundLink>, PlanStop>
    requires stands { V.Stands (space_of blocks.old) }
    requires ks { AreSmall group.now.ks }
    requires listed { (met : List Block) × Keeps V.view blocks.old met }
    requires held { IsTrue V.tells → IsHeld V.view blocks.old group.now }
    ensures links { IsTrue V.tells → (fs : List Found) (bs : List Block)
        (h : HasLinks (array_of V.view blocks.old) group.now.ks group.now.tree_at group.now.heap_at fs bs)
        → IfOk result (λ links. links_of links.items ≡ fs) }
    ensures whole { IsTrue V.tells → IfErr result (λ stop. ¬ IsMalformed stop) }
    ensures kept { (met : List Block) → Keeps V.view blocks.old met → Keeps V.view blocks.new met }
    ensures alike { V.Alike (space_of blocks.old) (space_of blocks.new) }
    ensures failed { IsErrOf result PlanStop.Failed
        → OneRose (V.faults (space_of blocks.old)) (V.faults (space_of blocks.new)) }
    ensures calm { ¬ IsErrOf result PlanStop.Failed
        → V.faults (space_of blocks.new) ≡ V.faults (space_of blocks.old) }
{
    let read = read_group(alloc, blocks, group)?;
    read_entries(alloc, &read.heap, &read.entries)
}
