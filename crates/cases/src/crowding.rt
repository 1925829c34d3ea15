use crate::items::{add_items, number};
use crate::stop::Stop;
use std::alloc::Global;

/// The most objects that one B-tree node of 32 children has room for.
const MOST: u64 = 65_536;

/// So many links stand in one symbol table node.
const IN_NODE: u32 = 2048;

/// The first name, the first symbol table node, and the bytes of each.
const NAMES_AT: u64 = 720;

const NODES_AT: u64 = 328_400;

const NODE_LEN: u64 = 81_928;

// The heap of the root: its segment has 327,688 bytes from 712 on, and no free block.
const HEAP: [u8; 26] = *b"HEAP\0\0\0\0\x08\0\x05\0\0\0\0\0\x01\0\0\0\0\0\0\0\xC8\x02";

// Puts the bytes from `at` on. What lies behind the end is left out.
fn put(file: &mut [u8], at: u64, bytes: &[u8]) {
    for (i, byte) in bytes.iter().enumerate() {
        if let Some(place) = file.get_mut((at as usize).saturating_add(i)) {
            *place = *byte;
        }
    }
}

fn put_number(file: &mut [u8], at: u64, n: u64) {
    put(file, at, &n.to_le_bytes());
}

// A letter from `a` to `p` for the low four bits.
fn letter(n: u32) -> u8 {
    b'a' + (n % 16) as u8
}

// The offset of the name of link i in the heap's segment: names have four letters and a NUL.
fn name_at(i: u32) -> u64 {
    8 + 5 * u64::from(i)
}

fn node_at(node: u32) -> u64 {
    NODES_AT + NODE_LEN * u64::from(node)
}

// Superblock of version 0 with a leaf K of 1024 and an internal K of 16, the root's header, and its B-tree node up to
// the first child.
fn add_root(alloc: Global, end: u64, nodes: u32, file: &mut Vec<u8>) -> Result<(), Stop> {
    let text = format!(in alloc;
        "89 'HDF' 0D0A1A0A 00*5 08 08 00 u16:1024 u16:16 00*12 FF*8 u64:{end} FF*8 00*8 u64:96 00*24
        01 00 u16:1 u32:1 u32:24 00*4 u16:17 u16:16 00*4 u64:136 u64:680
        'TREE' 00 00 u16:{nodes} FF*16 u64:0"
    )?;
    add_items(alloc, text.as_str(), &[], file)
}

// Symbol table node with so many links, as a child of the root's B-tree node whose last name is that of link `last`.
fn put_node(file: &mut [u8], node: u32, links: u32, last: u32) {
    let at = node_at(node);
    put(file, at, b"SNOD\x01");
    put(file, at.wrapping_add(6), &links.to_le_bytes());
    put_number(file, 168 + 16 * u64::from(node), at);
    put_number(file, 176 + 16 * u64::from(node), name_at(last));
}

// The symbol table nodes of so many links, of which the last may have fewer.
fn put_nodes(file: &mut [u8], objects: u32) {
    for node in 0..objects.div_ceil(IN_NODE) {
        let left = objects.saturating_sub(node.saturating_mul(IN_NODE));
        let links = left.min(IN_NODE);
        let last = objects.saturating_sub(left).saturating_add(links);
        put_node(file, node, links, last.saturating_sub(1));
    }
}

// Link i with its name and its object, a header without messages.
fn put_link(file: &mut [u8], i: u32, object: u64) {
    let name = [letter(i / 4096), letter(i / 256), letter(i / 16), letter(i)];
    let entry = node_at(i / IN_NODE).wrapping_add(8 + 40 * u64::from(i % IN_NODE));
    put(file, NAMES_AT + 5 * u64::from(i), &name);
    put_number(file, entry, name_at(i));
    put_number(file, entry.wrapping_add(8), object);
    put(file, object, b"\x01\0\0\0\x01");
}

fn put_links(file: &mut [u8], objects: u32, first: u64) {
    let mut object = first;
    for i in 0..objects {
        put_link(file, i, object);
        object = object.wrapping_add(16);
    }
}

fn put_rest(file: &mut [u8], objects: u32, first: u64) {
    put(file, 680, &HEAP);
    put_nodes(file, objects);
    put_links(file, objects, first);
}

// A number of links.
fn links(text: &str) -> Result<u32, Stop> {
    let n = number(text)?;
    if n > MOST {
        return Err(Stop::Wrong("more than 65,536"));
    }
    Ok(n as u32)
}

/// Makes a file whose root has so many links, from `aaaa` on, each to an object of its own: the nodes stand from 328400
/// on, each 81,928 bytes, and the objects behind them, each 16 bytes. 65,536 are with the root one object more than a
/// file may have.
pub fn crowd(alloc: Global, objects: &str, file: &mut Vec<u8>) -> Result<(), Stop> {
    let objects = links(objects)?;
    let nodes = objects.div_ceil(IN_NODE);
    let first = node_at(nodes);
    let end = first.saturating_add(16 * u64::from(objects));
    file.clear();
    add_root(alloc, end, nodes, file)?;
    file.resize(end as usize, 0)?;
    put_rest(file.as_mut_slice(), objects, first);
    Ok(())
}
