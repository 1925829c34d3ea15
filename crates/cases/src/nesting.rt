use crate::items::{add_items, number};
use crate::stop::Stop;
use std::alloc::Global;

/// The bytes before the root's header, and those of a group, which has room for two links.
const SUPERBLOCK_LEN: u64 = 96;

const GROUP_LEN: u64 = 240;

// Superblock of version 0 with both K of groups 1.
fn add_superblock(alloc: Global, end: u64, bytes: &mut Vec<u8>) -> Result<(), Stop> {
    let text = format!(in alloc;
        "89 'HDF' 0D0A1A0A 00*5 08 08 00 u16:1 u16:1 00*12 FF*8 u64:{end} FF*8 00*8 u64:96 u32:1 00*4 u64:136 u64:200"
    )?;
    add_items(alloc, text.as_str(), &[], bytes)
}

// The header of a group with a symbol table message, its B-tree node and its heap.
fn add_header(alloc: Global, at: u64, bytes: &mut Vec<u8>) -> Result<(), Stop> {
    let (tree, heap) = (at.wrapping_add(40), at.wrapping_add(104));
    let (segment, node) = (at.wrapping_add(136), at.wrapping_add(152));
    let text = format!(in alloc;
        "01 00 u16:1 u32:1 u32:24 00*4 u16:17 u16:16 00*4 u64:{tree} u64:{heap}
        'TREE' 00 00 u16:1 FF*16 u64:0 u64:{node} u64:8 00*16
        'HEAP' 00*4 u64:16 u64:1 u64:{segment}"
    )?;
    add_items(alloc, text.as_str(), &[], bytes)
}

// The heap's segment with the name `a`, and the symbol table node with so many links, one or none.
fn add_links(alloc: Global, links: u64, object: u64, bytes: &mut Vec<u8>) -> Result<(), Stop> {
    let text = format!(in alloc;
        "00*8 'a' 00*7 'SNOD' 01 00 u16:{links} u64:8 u64:{object} 00*64"
    )?;
    add_items(alloc, text.as_str(), &[], bytes)
}

// Adds the groups, each of whose links leads to what follows it.
fn add_groups(alloc: Global, groups: u64, bytes: &mut Vec<u8>) -> Result<(), Stop> {
    let mut at = SUPERBLOCK_LEN;
    for i in 0..groups {
        let links = u64::from(i + 1 < groups);
        add_header(alloc, at, bytes)?;
        at = at.wrapping_add(GROUP_LEN);
        add_links(alloc, links, at, bytes)?;
    }
    Ok(())
}

/// Makes a file of so many groups, each but the root behind a link `a` of the one before it: their headers stand at 96,
/// 336 and so on, each 240 bytes behind the last. The last group has no links.
pub fn nested(alloc: Global, groups: &str, bytes: &mut Vec<u8>) -> Result<(), Stop> {
    let groups = number(groups)?;
    if groups == 0 || groups > 65_535 {
        return Err(Stop::Wrong("not from 1 to 65,535"));
    }
    bytes.clear();
    add_superblock(alloc, SUPERBLOCK_LEN + GROUP_LEN * groups, bytes)?;
    add_groups(alloc, groups, bytes)
}
