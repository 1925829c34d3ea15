ghost use Rattle.std.specs.Prelude.{◌≡◌, ◌+◌, ◌≤◌, drop, length, map, All, IfOk};
ghost use Rattle.outside.specs.Array.{Array};
ghost use Rattle.h5_base.specs.Fields.{undefined};
ghost use Rattle.node_codec.specs.GroupNodes.{FitsGroupNode};
ghost use Rattle.file_model.specs.Index.{next_of};
ghost use Rattle.file_model.specs.Groups.{node_block};
ghost use Rattle.plan_pieces.specs.Images.{HaveImages, image_blocks};
ghost use Rattle.group_layout.specs.Nodes.{nodes_above, AreNodesSpelled};
ghost use Rattle.group_layout.specs.Placing.{IsNodeImage};

use crate::keys::part_end;
use crate::leaves::blank;
use h5_base::{Bytes, List, NoMemory};
use node_codec::{GroupNode, group_node_size, write_group_node};
use plan_pieces::Image;
use std::alloc::Global;
use super_codec::KValues;

/// The address at this place, all ones behind the last.
fn at_or_none(ats: &[u64], i: usize) -> u64
    ensures { result ≡ next_of (λ a. a) (drop i ats.now) }
{
    if i < ats.len() { ats[i] } else { u64::MAX }
}

/// A node with these siblings.
fn node_of(
    alloc: Global,
    level: u8,
    left: u64,
    right: u64,
    keys: &[u64],
    children: &[u64],
) -> Result<GroupNode, NoMemory>
    ensures { IfOk result (λ n. n ≡ record {
      level = level;
      left = left;
      right = right;
      keys = keys.now;
      children = children.now;
    }) }
{
    let Ok(keys) = Vec::from_slice(alloc, keys) else {
        return Err(NoMemory);
    };
    let Ok(children) = Vec::from_slice(alloc, children) else {
        return Err(NoMemory);
    };
    Ok(GroupNode {
        level,
        left,
        right,
        keys: List::from_vec(keys),
        children: List::from_vec(children),
    })
}

/// The nodes at these addresses, each with so many of the row below, filled from the left.
pub fn nodes_above(
    alloc: Global,
    level: u8,
    room: usize,
    ats: &[u64],
    keys: &[u64],
    below: &[u64],
) -> Result<Vec<GroupNode>, NoMemory>
    requires { length keys.now ≡ length below.now + 1 }
    ensures { IfOk result (λ v. v.items ≡ nodes_above level room undefined ats.now keys.now below.now) }
{
    let mut nodes = Vec::new(alloc);
    let mut left = u64::MAX;
    let mut from = 0;
    for (i, at) in ats.iter().enumerate() {
        let to = part_end(from, room, below.len());
        let right = at_or_none(ats, i + 1);
        let node = node_of(
            alloc,
            level,
            left,
            right,
            &keys[from..to + 1],
            &below[from..to],
        )?;
        let Ok(()) = nodes.push(node) else {
            return Err(NoMemory);
        };
        left = *at;
        from = to;
    }
    Ok(nodes)
}

/// The block of a node.
fn node_image(alloc: Global, k: u16, at: u64, node: &GroupNode) -> Result<Image, NoMemory>
    requires k { k ≤ 1024 }
    requires fits { FitsGroupNode k node.now }
    ensures { IfOk result (λ image. IsNodeImage k at node.now image) }
{
    let mut bytes = blank(alloc, group_node_size(k))?;
    write_group_node(node, k, bytes.as_mut_slice());
    Ok(Image {
        at,
        bytes: Bytes::from_vec(bytes),
    })
}

/// The blocks of these nodes.
pub fn node_images(
    alloc: Global,
    ks: KValues,
    ats: &[u64],
    nodes: &[GroupNode],
) -> Result<Vec<Image>, NoMemory>
    requires k { ks.internal ≤ 1024 }
    requires fit { All (FitsGroupNode ks.internal) nodes.now }
    requires counts { length ats.now ≡ length nodes.now }
    ensures blocks { IfOk result (λ v. image_blocks v.items ≡ map (node_block ks) ats.now) }
    ensures spelled { IfOk result (λ v. (b : Array) → HaveImages b v.items
        → AreNodesSpelled b ks ats.now nodes.now) }
{
    let mut images = Vec::new(alloc);
    for (i, node) in nodes.iter().enumerate() {
        let image = node_image(alloc, ks.internal, ats[i], node)?;
        let Ok(()) = images.push(image) else {
            return Err(NoMemory);
        };
    }
    Ok(images)
}
