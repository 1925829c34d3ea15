ghost use Rattle.std.specs.Prelude.{◌≡◌, ◌+◌, ◌*◌, ◌<◌, ◌≤◌, ◌++◌, [], ◌∷◌, length, take, drop, map, All, IfOk};
ghost use Rattle.std.specs.Result.{OnOk};
ghost use Rattle.outside.specs.Array.{Array};
ghost use Rattle.h5_base.specs.Fields.{undefined};
ghost use Rattle.node_codec.specs.Snod.{IsCache};
ghost use Rattle.file_model.specs.Groups.{leaf_block, node_block};
ghost use Rattle.group_room.specs.Room.{leaf_take, node_take};
ghost use Rattle.plan_pieces.specs.Images.{HaveImages, image_blocks, images_of, takes_of};
ghost use Rattle.group_layout.specs.Rows.{keys_above, HaveRoom};
ghost use Rattle.group_layout.specs.Nodes.{nodes_above, AreNodesSpelled};
ghost use Rattle.group_layout.specs.Leaves.{AreLeavesSpelled, leaf_keys};
ghost use Rattle.group_room.specs.Index.{AreSmall};
ghost use Rattle.group_layout.specs.Laying.{IsSpelledOut, ats_of, rows_of, old_blocks, new_blocks, new_takes};
ghost use Rattle.group_layout.specs.Placing.{Adds, IsPlaced, AreLaid, laid_images};

use crate::keys::{keys_above, leaf_keys};
use crate::leaves::leaf_images;
use crate::nodes::{node_images, nodes_above};
use crate::row::{IndexRows, Laid, Row, joined, root_row};
use h5_base::{BlockKind, MemClass, NoMemory};
use node_codec::SnodEntry;
use plan_pieces::{Image, NewBlock};
use std::alloc::Global;
use super_codec::KValues;

/// A level, as the one above it sees it.
#[derive(Drop)]
struct Below {
    ats: Vec<u64>,
    /// The key before each node, and the one behind the last.
    keys: Vec<u64>,
    ghost one_more: { length keys.items ≡ length ats.items + 1 },
}

/// Adds the blocks of a level, of which so many are there.
fn place(laid: &mut Laid, kind: BlockKind, images: Vec<Image>, old: usize) -> Result<(), NoMemory>
    ensures { OnOk result (IsPlaced kind old images.items laid.old laid.new) }
{
    let mut left = old;
    for image in images {
        if left > 0 {
            left -= 1;
            let Ok(()) = laid.writes.push(image) else {
                return Err(NoMemory);
            };
        } else {
            let class = MemClass::Tree;
            let Ok(()) = laid.fills.push(NewBlock { class, kind, image }) else {
                return Err(NoMemory);
            };
        }
    }
    Ok(())
}

/// Adds the symbol table nodes.
fn lay_leaves(
    alloc: Global,
    ks: KValues,
    base: u64,
    row: &Row,
    entries: &[SnodEntry],
    laid: &mut Laid,
) -> Result<Below, NoMemory>
    requires k { ks.leaf ≤ 1024 }
    requires caches { All IsCache entries.now }
    ensures adds { OnOk result (Adds laid.old laid.new (map (leaf_block ks) row.now.old)
        (map (leaf_block ks) row.now.new) (map (λ _. leaf_take ks) row.now.new)) }
    ensures spelled { OnOk result ((b : Array) → HaveImages b (laid_images laid.new)
        → AreLeavesSpelled b ks (ats_of row.now) entries.now) }
    ensures ats { IfOk result (λ r. r.ats.items ≡ ats_of row.now) }
    ensures keys { IfOk result (λ r. r.keys.items ≡ leaf_keys (2 * ks.leaf) base (ats_of row.now) entries.now) }
{
    let ats = joined(alloc, row)?;
    let images = leaf_images(alloc, ks, ats.as_slice(), entries)?;
    place(laid, BlockKind::Snod, images, row.old.len())?;
    let keys = leaf_keys(alloc, 2 * ks.leaf as usize, base, ats.as_slice(), entries)?;
    Ok(Below { ats, keys })
}

/// The blocks of B-tree nodes at these addresses, over a level.
fn row_images(
    alloc: Global,
    ks: KValues,
    level: u8,
    ats: &[u64],
    below: &Below,
) -> Result<Vec<Image>, NoMemory>
    requires { ks.internal ≤ 1024 }
    ensures blocks { IfOk result (λ v. image_blocks v.items ≡ map (node_block ks) ats.now) }
    ensures spelled { IfOk result (λ v. (b : Array) → HaveImages b v.items → AreNodesSpelled b ks ats.now
        (nodes_above level (2 * ks.internal) undefined ats.now below.now.keys.items below.now.ats.items)) }
{
    let room = 2 * ks.internal as usize;
    let nodes = nodes_above(
        alloc,
        level,
        room,
        ats,
        below.keys.as_slice(),
        below.ats.as_slice(),
    )?;
    node_images(alloc, ks, ats, nodes.as_slice())
}

/// Adds a row of B-tree nodes.
fn lay_row(
    alloc: Global,
    ks: KValues,
    level: u8,
    row: &Row,
    below: &Below,
    laid: &mut Laid,
) -> Result<Below, NoMemory>
    requires k { ks.internal ≤ 1024 }
    ensures adds { OnOk result (Adds laid.old laid.new (map (node_block ks) row.now.old)
        (map (node_block ks) row.now.new) (map (λ _. node_take ks) row.now.new)) }
    ensures spelled { OnOk result ((b : Array) → HaveImages b (laid_images laid.new)
        → AreNodesSpelled b ks (ats_of row.now)
        (nodes_above level (2 * ks.internal) undefined (ats_of row.now) below.now.keys.items below.now.ats.items)) }
    ensures ats { IfOk result (λ r. r.ats.items ≡ ats_of row.now) }
    ensures keys { IfOk result (λ r. r.keys.items ≡ keys_above (2 * ks.internal) (ats_of row.now)
        below.now.keys.items below.now.ats.items) }
{
    let ats = joined(alloc, row)?;
    let images = row_images(alloc, ks, level, ats.as_slice(), below)?;
    place(laid, BlockKind::Tree, images, row.old.len())?;
    let room = 2 * ks.internal as usize;
    let keys = keys_above(
        alloc,
        room,
        ats.as_slice(),
        below.keys.as_slice(),
        below.ats.as_slice(),
    )?;
    Ok(Below { ats, keys })
}

/// Adds the rows of B-tree nodes below the root.
fn lay_rows(
    alloc: Global,
    ks: KValues,
    rows: &[Row],
    leaves: Below,
    laid: &mut Laid,
) -> Result<Below, NoMemory>
    requires k { ks.internal ≤ 1024 }
    requires levels { length rows.now < 256 }
    ensures { IfOk result (λ top. AreLaid ks rows.now laid.old laid.new leaves.keys.items leaves.ats.items
        top.keys.items top.ats.items) }
{
    let mut below = leaves;
    for (level, row) in rows.iter().enumerate() {
        below = lay_row(alloc, ks, level as u8, row, &below, laid)?;
    }
    Ok(below)
}

/// Adds the root.
fn lay_root(
    alloc: Global,
    ks: KValues,
    level: u8,
    tree: u64,
    below: &Below,
    laid: &mut Laid,
) -> Result<(), NoMemory>
    requires k { ks.internal ≤ 1024 }
    ensures adds { OnOk result (Adds laid.old laid.new (node_block ks tree ∷ []) [] []) }
    ensures spelled { OnOk result ((b : Array) → HaveImages b (laid_images laid.new)
        → AreNodesSpelled b ks (tree ∷ [])
        (nodes_above level (2 * ks.internal) undefined (tree ∷ []) below.now.keys.items below.now.ats.items)) }
{
    let root = root_row(alloc, tree)?;
    lay_row(alloc, ks, level, &root, below, laid)?;
    Ok(())
}

/// The blocks of a group's index that is laid over nodes at hand: each level is filled from the left, and the keys
/// beside its nodes are those of the row below, the first of all at `base` (HDF5 File Format Specification 3.0,
/// III.A.1 and III.B). A node's image stands at the node's address.
pub fn lay(
    alloc: Global,
    ks: KValues,
    base: u64,
    index: &IndexRows,
    entries: &[SnodEntry],
) -> Result<Laid, NoMemory>
    requires ks { AreSmall ks }
    requires caches { All IsCache entries.now }
    // No entry and no node is left over.
    requires leaves { length entries.now ≤ 2 * ks.leaf * length (ats_of index.now.leaves) }
    requires rows { HaveRoom (2 * ks.internal) (length (ats_of index.now.leaves)) (rows_of index.now) }
    requires levels { length index.now.rows < 256 }
    ensures spelled { IfOk result (λ l. (b : Array) → HaveImages b (l.writes.items ++ images_of l.fills.items)
        → IsSpelledOut b ks base index.now entries.now) }
    ensures writes { IfOk result (λ l. image_blocks l.writes.items ≡ old_blocks ks index.now) }
    ensures blocks { IfOk result (λ l. image_blocks (images_of l.fills.items) ≡ new_blocks ks index.now) }
    ensures takes { IfOk result (λ l. takes_of l.fills.items ≡ new_takes ks index.now) }
{
    let mut laid = Laid {
        writes: Vec::new(alloc),
        fills: Vec::new(alloc),
    };
    let leaves = lay_leaves(alloc, ks, base, &index.leaves, entries, &mut laid)?;
    let top = lay_rows(alloc, ks, index.rows.as_slice(), leaves, &mut laid)?;
    lay_root(
        alloc,
        ks,
        index.rows.len() as u8,
        index.tree,
        &top,
        &mut laid,
    )?;
    Ok(laid)
}
