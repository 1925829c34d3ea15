ghost use Rattle.std.specs.Prelude.{◌≡◌, ◌≤◌, ◌++◌, List, map, IsTrue, IfErr, OnOk, IsErrOf};
ghost use Rattle.outside.specs.Blocks.{Block};
ghost use Rattle.outside.specs.Causes.{OneRose};
ghost use Rattle.block_space.specs.Blocks.{Keeps, Refuses, array_of, space_of};
ghost use Rattle.file_model.specs.Groups.{Header, HasLinks};
ghost use Rattle.file_model.specs.Holds.{Full, FullLinks, founds, blocks_of, blocks_in};
ghost use Rattle.file_model.specs.Limits.{IsSmallHeap, most_objects};
ghost use Rattle.file_model.specs.RefusedTree.{IsTargetRefused, AreLinksRefused, IsObjectRefused};
ghost use Rattle.group_reader.specs.Links.{target_of, found_of};
ghost use Rattle.object_model.specs.Tree.{AreOrdered};
ghost use Rattle.tree_nodes.specs.Entries.{LacksLink, object_count};
ghost use Rattle.tree_nodes.specs.Shown.{Keyed, KeyedLinks};
ghost use Rattle.object_tree.specs.Sound.{HasSoundNodes};
ghost use Rattle.object_tree.specs.Grown.{Grows, Adds, LinksAscend, AreOpened, IsOpenedAt, IsBareGroup, IsGroupRefused};

use crate::growing::{Opening, Place, Table, add, table_of};
use crate::nodes::read_node;
use block_space::Blocks;
use group_reader::{FoundLink, LinkTarget, read_links};
use h5_base::{LinkName, Refusal, Stop};
use outside::Space;
use std::alloc::Global;
use tree_nodes::Node;

// Reads the object that a link of a group leads to, with all below it.
#[cycle(opening)]
fn open_object<V: Space>(
    alloc: Global,
    blocks: &mut Blocks<V>,
    opening: &mut Opening,
    place: Place,
    name: LinkName,
    at: u64,
) -> Result<(), Stop>
    requires stands { V.Stands (space_of blocks.old) }
    requires listed { (met : List Block) × Keeps V.view blocks.old met }
    requires lacks { LacksLink opening.old.tree place.group name }
    requires ordered { LinksAscend opening.old.tree place.group.key }
    requires few { object_count opening.old.tree ≤ most_objects }
    requires sound { HasSoundNodes opening.old.tree }
    ensures opened { OnOk result ((t : Keyed) × Adds opening.old.tree opening.new.tree place.group.key name t
        × (IsTrue V.tells → (met : List Block) → Keeps V.view blocks.old met → (u : Full)
        × IsOpenedAt (array_of V.view blocks.old) place.ks place.levels (Header at) t u
        × Keeps V.view blocks.new (met ++ blocks_of u))) }
    ensures few { OnOk result (object_count opening.new.tree ≤ most_objects) }
    ensures sound { OnOk result (HasSoundNodes opening.new.tree) }
    ensures refused { IsTrue V.tells → IfErr result (Refuses V.view blocks.old (λ e met.
        IsObjectRefused (array_of V.view blocks.old) e place.ks place.levels (object_count opening.old.tree) met at)) }
    ensures alike { V.Alike (space_of blocks.old) (space_of blocks.new) }
    ensures listed { OnOk result ((met : List Block) × Keeps V.view blocks.new met) }
    ensures failed { IsErrOf result Stop.Failed
        → OneRose (V.faults (space_of blocks.old)) (V.faults (space_of blocks.new)) }
    ensures calm { ¬ IsErrOf result Stop.Failed
        → V.faults (space_of blocks.new) ≡ V.faults (space_of blocks.old) }
{
    if place.levels == 0 {
        return Err(Stop::Refused {
            why: Refusal::TooDeep,
        });
    }
    let node = match read_node(alloc, blocks, place.ks, at, opening.tree.objects()) {
        Ok(node) => node,
        Err(stop) => return Err(stop),
    };
    let table = table_of(&node);
    let id = match add(&mut opening.tree, place.group, name, node) {
        Ok(id) => id,
        Err(stop) => return Err(stop),
    };
    let below = Place {
        ks: place.ks,
        group: id,
        levels: place.levels - 1,
    };
    match table {
        Some(table) => open_links(alloc, blocks, opening, below, table),
        None => Ok(()),
    }
}

// Reads what a link of a group leads to, with all below it.
#[cycle(opening)]
fn open_link<V: Space>(
    alloc: Global,
    blocks: &mut Blocks<V>,
    opening: &mut Opening,
    place: Place,
    link: FoundLink,
) -> Result<(), Stop>
    requires stands { V.Stands (space_of blocks.old) }
    requires listed { (met : List Block) × Keeps V.view blocks.old met }
    requires lacks { LacksLink opening.old.tree place.group link.name }
    requires ordered { LinksAscend opening.old.tree place.group.key }
    requires few { object_count opening.old.tree ≤ most_objects }
    requires sound { HasSoundNodes opening.old.tree }
    ensures opened { OnOk result ((t : Keyed) × Adds opening.old.tree opening.new.tree place.group.key link.name t
        × (IsTrue V.tells → (met : List Block) → Keeps V.view blocks.old met → (u : Full)
        × IsOpenedAt (array_of V.view blocks.old) place.ks place.levels (target_of link.target) t u
        × Keeps V.view blocks.new (met ++ blocks_of u))) }
    ensures few { OnOk result (object_count opening.new.tree ≤ most_objects) }
    ensures sound { OnOk result (HasSoundNodes opening.new.tree) }
    ensures refused { IsTrue V.tells → IfErr result (Refuses V.view blocks.old (λ e met. IsTargetRefused
        (IsObjectRefused (array_of V.view blocks.old) e place.ks place.levels) (object_count opening.old.tree) met
        (target_of link.target))) }
    ensures alike { V.Alike (space_of blocks.old) (space_of blocks.new) }
    ensures listed { OnOk result ((met : List Block) × Keeps V.view blocks.new met) }
    ensures failed { IsErrOf result Stop.Failed
        → OneRose (V.faults (space_of blocks.old)) (V.faults (space_of blocks.new)) }
    ensures calm { ¬ IsErrOf result Stop.Failed
        → V.faults (space_of blocks.new) ≡ V.faults (space_of blocks.old) }
{
    let FoundLink { name, target } = link;
    match target {
        LinkTarget::Object { header_at } => {
            open_object(alloc, blocks, opening, place, name, header_at)
        }
        LinkTarget::Soft { text } => {
            match add(&mut opening.tree, place.group, name, Node::Soft { text }) {
                Ok(_) => Ok(()),
                Err(stop) => Err(stop),
            }
        }
    }
}

// Reads what all links of a group lead to, in the order of their names.
#[cycle(opening)]
fn open_each<V: Space>(
    alloc: Global,
    blocks: &mut Blocks<V>,
    opening: &mut Opening,
    place: Place,
    links: Vec<FoundLink>,
) -> Result<(), Stop>
    requires stands { V.Stands (space_of blocks.old) }
    requires listed { (met : List Block) × Keeps V.view blocks.old met }
    requires bare { IsBareGroup opening.old.tree place.group.key }
    requires few { object_count opening.old.tree ≤ most_objects }
    requires sound { HasSoundNodes opening.old.tree }
    requires ordered { AreOrdered (map (λ l. l.name) links.items) }
    ensures opened { OnOk result ((kls : KeyedLinks)
        × Grows opening.old.tree opening.new.tree place.group.key kls
        × (IsTrue V.tells → (met : List Block) → Keeps V.view blocks.old met → (ls : FullLinks)
        × AreOpened (array_of V.view blocks.old) place.ks place.levels kls ls
        × (founds ls ≡ map found_of links.items) × Keeps V.view blocks.new (met ++ blocks_in ls))) }
    ensures few { OnOk result (object_count opening.new.tree ≤ most_objects) }
    ensures sound { OnOk result (HasSoundNodes opening.new.tree) }
    ensures refused { IsTrue V.tells → IfErr result (Refuses V.view blocks.old (λ e met. AreLinksRefused
        (IsObjectRefused (array_of V.view blocks.old) e place.ks place.levels) (array_of V.view blocks.old) e place.ks
        place.levels (object_count opening.old.tree) met (map found_of links.items))) }
    ensures alike { V.Alike (space_of blocks.old) (space_of blocks.new) }
    ensures listed { OnOk result ((met : List Block) × Keeps V.view blocks.new met) }
    ensures failed { IsErrOf result Stop.Failed
        → OneRose (V.faults (space_of blocks.old)) (V.faults (space_of blocks.new)) }
    ensures calm { ¬ IsErrOf result Stop.Failed
        → V.faults (space_of blocks.new) ≡ V.faults (space_of blocks.old) }
{
    for link in links {
        match open_link(alloc, blocks, opening, place, link) {
            Ok(()) => {}
            Err(stop) => return Err(stop),
        }
    }
    Ok(())
}

// Reads the links of a group and what they lead to, with all below it.
#[cycle(opening)]
pub(crate) fn open_links<V: Space>(
    alloc: Global,
    blocks: &mut Blocks<V>,
    opening: &mut Opening,
    place: Place,
    table: Table,
) -> Result<(), Stop>
    requires stands { V.Stands (space_of blocks.old) }
    requires listed { (met : List Block) × Keeps V.view blocks.old met }
    requires bare { IsBareGroup opening.old.tree place.group.key }
    requires few { object_count opening.old.tree ≤ most_objects }
    requires sound { HasSoundNodes opening.old.tree }
    ensures opened { OnOk result ((kls : KeyedLinks)
        × Grows opening.old.tree opening.new.tree place.group.key kls
        × (IsTrue V.tells → (met : List Block) → Keeps V.view blocks.old met → (index : List Block) × (ls : FullLinks)
        × HasLinks (array_of V.view blocks.old) place.ks table.tree_at table.heap_at (founds ls) index
        × IsSmallHeap (array_of V.view blocks.old) table.heap_at
        × AreOpened (array_of V.view blocks.old) place.ks place.levels kls ls
        × Keeps V.view blocks.new (met ++ (index ++ blocks_in ls)))) }
    ensures few { OnOk result (object_count opening.new.tree ≤ most_objects) }
    ensures sound { OnOk result (HasSoundNodes opening.new.tree) }
    ensures refused { IsTrue V.tells → IfErr result (Refuses V.view blocks.old (λ e met. IsGroupRefused
        (array_of V.view blocks.old) e place.ks place.levels (object_count opening.old.tree) met table.tree_at
        table.heap_at)) }
    ensures alike { V.Alike (space_of blocks.old) (space_of blocks.new) }
    ensures listed { OnOk result ((met : List Block) × Keeps V.view blocks.new met) }
    ensures failed { IsErrOf result Stop.Failed
        → OneRose (V.faults (space_of blocks.old)) (V.faults (space_of blocks.new)) }
    ensures calm { ¬ IsErrOf result Stop.Failed
        → V.faults (space_of blocks.new) ≡ V.faults (space_of blocks.old) }
{
    match read_links(
        alloc,
        blocks,
        &mut opening.texts,
        place.ks,
        table.tree_at,
        table.heap_at,
    ) {
        Ok(links) => open_each(alloc, blocks, opening, place, links),
        Err(stop) => Err(stop),
    }
}
