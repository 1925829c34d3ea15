ghost use Rattle.std.specs.Prelude.{◌≡◌, ◌+◌, ℕ, suc, List, IsTrue, IfOk, IfErr, OnOk, OnErr, IsErrOf};
ghost use Rattle.outside.specs.Blocks.{Block};
ghost use Rattle.outside.specs.Causes.{OneRose};
ghost use Rattle.object_model.specs.Tree.{AreOrdered};
ghost use Rattle.block_space.specs.Blocks.{Keeps, Takes, Refuses, array_of, space_of};
ghost use Rattle.file_model.specs.Groups.{HasLinks, StandsAt};
ghost use Rattle.file_model.specs.Limits.{IsSmallHeap, text_bytes};
ghost use Rattle.file_model.specs.RefusedGroups.{names_of, root_level, IsIndexRefused, IsTableRefused};
ghost use Rattle.group_reader.specs.Links.{links_of, Adds};

use crate::budget::TextBudget;
use crate::gathered::Gathered;
use crate::heap::{read_head, read_segment};
use crate::index::read_children;
use crate::link::FoundLink;
use crate::node::read_node;
use crate::table::Table;
use crate::text::texts_end;
use block_space::Blocks;
use h5_base::Stop;
use outside::Space;
use std::alloc::Global;
use super_codec::KValues;

/// Reads a B-tree from its root on, whose level is any; keeps the links.
fn read_tree<V: Space>(
    alloc: Global,
    blocks: &mut Blocks<V>,
    table: &Table<'_>,
    tree_at: u64,
    gathered: &mut Gathered,
) -> Result<(), Stop>
    requires stands { V.Stands (space_of blocks.old) }
    ensures adds { OnOk result (Adds gathered.old gathered.new (λ fs. Takes V.view blocks.old blocks.new (λ bs.
        IsTrue V.tells → StandsAt (array_of V.view blocks.old) table.now.ks table.now.segment.now
        (suc (root_level (array_of V.view blocks.old) table.now.ks tree_at)) tree_at fs bs))) }
    ensures refused { IsTrue V.tells → IfErr result (Refuses V.view blocks.old (λ e met. IsIndexRefused
        (array_of V.view blocks.old) e table.now.ks table.now.segment.now table.now.heap_at
        (suc (root_level (array_of V.view blocks.old) table.now.ks tree_at)) met tree_at)) }
    ensures alike { V.Alike (space_of blocks.old) (space_of blocks.new) }
    ensures failed { IsErrOf result Stop.Failed
        → OneRose (V.faults (space_of blocks.old)) (V.faults (space_of blocks.new)) }
    ensures calm { ¬ IsErrOf result Stop.Failed
        → V.faults (space_of blocks.new) ≡ V.faults (space_of blocks.old) }
{
    let root = read_node(alloc, blocks, table.ks, tree_at)?;
    read_children(alloc, blocks, table, tree_at, &root, gathered)
}

/// Reads the links of the group whose B-tree and local heap begin at these addresses, in the order of their names, and
/// takes the blocks of both into the catalogue (HDF5 File Format Specification 3.0, III.A.1, III.B to III.D). The bytes
/// of the names and of soft links' values are taken from the budget of the file.
///
/// The heap is refused first, then the nodes, each with all under it from left to right, and of each entry its name,
/// then the name's order, then a soft link's value: `Malformed` where bytes don't spell the kind of block that is
/// wanted there or a block leaves its region, where a name, a key or a soft link's value isn't in the heap, or where
/// names don't ascend or don't lie between the keys beside them; `LinkedTwice` and `Overlap` where a block shares bytes
/// with one that was met before; `TooMany` past the last block that a catalogue takes; and `Unsupported` where the
/// heap's segment has more than 16,777,216 bytes. `NoMemory` comes for want of memory, and where the texts need more
/// than is left of the budget.
pub fn read_links<V: Space>(
    alloc: Global,
    blocks: &mut Blocks<V>,
    texts: &mut TextBudget,
    ks: KValues,
    tree_at: u64,
    heap_at: u64,
) -> Result<Vec<FoundLink>, Stop>
    requires stands { V.Stands (space_of blocks.old) }
    requires listed { (met : List Block) × Keeps V.view blocks.old met }
    ensures found { IsTrue V.tells → IfOk result (λ links. Takes V.view blocks.old blocks.new
        (HasLinks (array_of V.view blocks.old) ks tree_at heap_at (links_of links.items))) }
    ensures small { IsTrue V.tells → OnOk result (IsSmallHeap (array_of V.view blocks.old) heap_at) }
    ensures refused { IsTrue V.tells → IfErr result (Refuses V.view blocks.old (λ e met r.
        IsTableRefused (array_of V.view blocks.old) e ks met tree_at heap_at r)) }
    ensures ordered { IfOk result (λ links. AreOrdered (names_of (links_of links.items))) }
    ensures spent { IfOk result (λ links. text_bytes (links_of links.items) + texts.new.left ≡ texts.old.left) }
    ensures same { OnErr result (texts.new.left ≡ texts.old.left) }
    ensures alike { V.Alike (space_of blocks.old) (space_of blocks.new) }
    ensures listed { OnOk result ((met : List Block) × Keeps V.view blocks.new met) }
    ensures failed { IsErrOf result Stop.Failed
        → OneRose (V.faults (space_of blocks.old)) (V.faults (space_of blocks.new)) }
    ensures calm { ¬ IsErrOf result Stop.Failed
        → V.faults (space_of blocks.new) ≡ V.faults (space_of blocks.old) }
{
    let head = read_head(alloc, blocks, heap_at)?;
    let segment = read_segment(alloc, blocks, head)?;
    let table = Table {
        ks,
        heap_at,
        segment: &segment,
        texts_end: texts_end(&segment),
    };
    let mut gathered = Gathered {
        links: Vec::new(alloc),
        texts: TextBudget { left: texts.left },
    };
    read_tree(alloc, blocks, &table, tree_at, &mut gathered)?;
    texts.left = gathered.texts.left;
    Ok(gathered.links)
}
