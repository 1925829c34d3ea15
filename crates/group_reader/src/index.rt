ghost use Rattle.std.specs.Prelude.{◌≡◌, ◌+◌, [], suc, IsTrue, IfErr, OnOk, IsErrOf, length};
ghost use Rattle.outside.specs.Causes.{OneRose};
ghost use Rattle.block_space.specs.Blocks.{Takes, Refuses, array_of, space_of};
ghost use Rattle.file_model.specs.Groups.{StandsAt};
ghost use Rattle.file_model.specs.RefusedGroups.{AreChildrenRefused, IsIndexRefused};
ghost use Rattle.group_reader.specs.Links.{Adds};
ghost use Rattle.group_reader.specs.Reading.{AreChildren};

use crate::gathered::Gathered;
use crate::keys::{check_keys, parts_at};
use crate::leaf::read_leaf;
use crate::node::read_node;
use crate::table::Table;
use block_space::Blocks;
use h5_base::{BlockKind, Stop};
use node_codec::GroupNode;
use outside::Space;
use std::alloc::Global;

/// Reads a node that has to be of this level, and all under it; keeps the links.
#[cycle(index)]
fn read_index<V: Space>(
    alloc: Global,
    blocks: &mut Blocks<V>,
    table: &Table<'_>,
    level: u8,
    at: u64,
    gathered: &mut Gathered,
) -> Result<(), Stop>
    requires stands { V.Stands (space_of blocks.old) }
    ensures adds { OnOk result (Adds gathered.old gathered.new (λ fs. Takes V.view blocks.old blocks.new (λ bs.
        IsTrue V.tells → StandsAt (array_of V.view blocks.old) table.now.ks table.now.segment.now (suc level) at
        fs bs))) }
    ensures refused { IsTrue V.tells → IfErr result (Refuses V.view blocks.old (λ e met. IsIndexRefused
        (array_of V.view blocks.old) e table.now.ks table.now.segment.now table.now.heap_at (suc level) met at)) }
    ensures alike { V.Alike (space_of blocks.old) (space_of blocks.new) }
    ensures failed { IsErrOf result Stop.Failed
        → OneRose (V.faults (space_of blocks.old)) (V.faults (space_of blocks.new)) }
    ensures calm { ¬ IsErrOf result Stop.Failed
        → V.faults (space_of blocks.new) ≡ V.faults (space_of blocks.old) }
{
    let node = read_node(alloc, blocks, table.ks, at)?;
    if node.level != level {
        return Err(Stop::malformed(at, BlockKind::Tree));
    }
    read_children(alloc, blocks, table, at, &node, gathered)
}

/// Reads all under a child of a node of this level: a symbol table node under level 0, else a node of the level below.
#[cycle(index)]
fn read_child<V: Space>(
    alloc: Global,
    blocks: &mut Blocks<V>,
    table: &Table<'_>,
    level: u8,
    at: u64,
    gathered: &mut Gathered,
) -> Result<(), Stop>
    requires stands { V.Stands (space_of blocks.old) }
    ensures adds { OnOk result (Adds gathered.old gathered.new (λ fs. Takes V.view blocks.old blocks.new (λ bs.
        IsTrue V.tells → StandsAt (array_of V.view blocks.old) table.now.ks table.now.segment.now level at
        fs bs))) }
    ensures refused { IsTrue V.tells → IfErr result (Refuses V.view blocks.old (λ e met. IsIndexRefused
        (array_of V.view blocks.old) e table.now.ks table.now.segment.now table.now.heap_at level met at)) }
    ensures alike { V.Alike (space_of blocks.old) (space_of blocks.new) }
    ensures failed { IsErrOf result Stop.Failed
        → OneRose (V.faults (space_of blocks.old)) (V.faults (space_of blocks.new)) }
    ensures calm { ¬ IsErrOf result Stop.Failed
        → V.faults (space_of blocks.new) ≡ V.faults (space_of blocks.old) }
{
    if level == 0 {
        read_leaf(alloc, blocks, table, at, gathered)
    } else {
        read_index(alloc, blocks, table, level - 1, at, gathered)
    }
}

/// Reads all under the children of the node at `node_at`, from left to right; keeps the links.
#[cycle(index)]
pub(crate) fn read_children<V: Space>(
    alloc: Global,
    blocks: &mut Blocks<V>,
    table: &Table<'_>,
    node_at: u64,
    node: &GroupNode,
    gathered: &mut Gathered,
) -> Result<(), Stop>
    requires stands { V.Stands (space_of blocks.old) }
    requires one_more { length node.now.keys ≡ length node.now.children + 1 }
    ensures adds { OnOk result (Adds gathered.old gathered.new (λ fs. Takes V.view blocks.old blocks.new (λ bs.
        IsTrue V.tells → AreChildren table.now.segment.now
        (StandsAt (array_of V.view blocks.old) table.now.ks table.now.segment.now node.now.level)
        node.now.keys node.now.children fs bs))) }
    ensures refused { IsTrue V.tells → IfErr result (Refuses V.view blocks.old (λ e met. AreChildrenRefused e
        table.now.segment.now table.now.heap_at node_at
        (StandsAt (array_of V.view blocks.old) table.now.ks table.now.segment.now node.now.level)
        (IsIndexRefused (array_of V.view blocks.old) e table.now.ks table.now.segment.now table.now.heap_at
        node.now.level)
        node.now.keys node.now.children [] met)) }
    ensures alike { V.Alike (space_of blocks.old) (space_of blocks.new) }
    ensures failed { IsErrOf result Stop.Failed
        → OneRose (V.faults (space_of blocks.old)) (V.faults (space_of blocks.new)) }
    ensures calm { ¬ IsErrOf result Stop.Failed
        → V.faults (space_of blocks.new) ≡ V.faults (space_of blocks.old) }
{
    let (keys, children) = (node.keys.as_slice(), node.children.as_slice());
    let begin = gathered.links.len();
    for (i, child) in children.iter().enumerate() {
        let middle = gathered.links.len();
        read_child(alloc, blocks, table, node.level, *child, gathered)?;
        let (done, here) = parts_at(&gathered.links, begin, middle);
        check_keys(table, node_at, keys[i], keys[i + 1], done, here)?;
    }
    Ok(())
}
