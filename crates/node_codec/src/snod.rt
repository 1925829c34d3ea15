ghost use Rattle.std.specs.Prelude.{◌≡◌, ◌+◌, ◌*◌, ◌≤◌, ◌↔◌, List, length, flat_map, All, IsTrue, IfOk};
ghost use Rattle.h5_base.specs.Fields.{bytes_at, Puts};
ghost use Rattle.node_codec.specs.Snod.{SpellsSnod, FitsSnod, soft_value_at, IsSnod, IsCache, EntryInRange, entry_of};
ghost use Rattle.node_codec.specs.Snod.{entries_of, entry_bytes, snod_bytes, snod_len};

use h5_base::{CodecStop, put_bytes, put_u16, put_u32, put_u64, u16_of, u32_of, u64_of};
use std::alloc::Global;

/// An entry of a symbol table node: a link of a group (HDF5 File Format Specification 3.0, III.C).
#[derive(Clone, Copy, Debug, PartialEq, Eq)]
pub struct SnodEntry {
    /// The offset of the link's name in the group's local heap.
    pub name_at: u64,
    /// The address of the object's header.
    pub header_at: u64,
    /// 0 where nothing is cached, 1 for a group, 2 for a soft link.
    pub cache: u32,
    /// The first eight bytes of the scratch pad: with cache type 1 the address of the group's B-tree.
    pub tree_at: u64,
    /// The last eight bytes of the scratch pad: with cache type 1 the address of the group's local heap.
    pub heap_at: u64,
}

impl SnodEntry {
    /// The offset of a soft link's value in the group's local heap, which an entry of cache type 2 holds in the first
    /// four bytes of its scratch pad.
    pub fn soft_value_at(&self) -> u32
        ensures { result ≡ soft_value_at self.now }
    {
        u32_of(&self.tree_at.to_le_bytes(), 0)
    }
}

const SIGNATURE: [u8; 4] = *b"SNOD";

/// The bytes of the block of a symbol table node that has room for 2k entries, 328 for a leaf K of 4.
pub fn snod_size(k: u16) -> usize
    ensures { result ≡ snod_len k }
{
    8 + 80 * k as usize
}

fn is_snod(bytes: &[u8], k: u16) -> bool
    ensures { IsTrue result ↔ IsSnod k bytes.now }
{
    bytes.len() == snod_size(k)
        && &bytes[..4] == SIGNATURE.as_slice()
        && bytes[4] == 1
        && u16_of(bytes, 6) as usize <= 2 * k as usize
}

fn read_entry(bytes: &[u8], at: usize) -> SnodEntry
    requires { at + 40 ≤ length bytes.now }
    ensures { result ≡ entry_of (bytes_at bytes.now at 40) }
{
    let cell = &bytes[at..at + 40];
    SnodEntry {
        name_at: u64_of(cell, 0),
        header_at: u64_of(cell, 8),
        cache: u32_of(cell, 16),
        tree_at: u64_of(cell, 24),
        heap_at: u64_of(cell, 32),
    }
}

/// The first `count` entries.
fn read_entries(alloc: Global, bytes: &[u8], count: usize) -> Result<Vec<SnodEntry>, CodecStop>
    requires { 8 + 40 * count ≤ length bytes.now }
    ensures found { IfOk result (λ v. v.items ≡ entries_of bytes.now count) }
    ensures caches { IfOk result (λ v. All IsCache v.items) }
    ensures only { result ≡ Err CodecStop.NotThis → ¬ All IsCache (entries_of bytes.now count) }
{
    let mut entries = Vec::new(alloc);
    for i in 0..count {
        let entry = read_entry(bytes, 8 + 40 * i);
        if entry.cache > 2 {
            return Err(CodecStop::NotThis);
        }
        match entries.push(entry) {
            Ok(()) => {}
            Err(_) => return Err(CodecStop::NoMemory),
        }
    }
    Ok(entries)
}

/// The entries of the symbol table node that the whole block spells, which has room for 2k of them (HDF5 File Format
/// Specification 3.0, III.B). `NotThis` comes exactly where it spells none: another length, signature or version, more
/// than 2k entries, or a cache type other than 0, 1 and 2. Reserved bytes and cells past the used ones aren't looked
/// at.
pub fn read_snod(alloc: Global, bytes: &[u8], k: u16) -> Result<Vec<SnodEntry>, CodecStop>
    // What is read is spelled.
    ensures found { IfOk result (λ v. SpellsSnod k v.items bytes.now) }
    ensures fits { IfOk result (λ v. FitsSnod k v.items) }
    // What is spelled is not refused.
    ensures only { result ≡ Err CodecStop.NotThis → (es : List SnodEntry) → ¬ SpellsSnod k es bytes.now }
{
    if !is_snod(bytes, k) {
        return Err(CodecStop::NotThis);
    }
    read_entries(alloc, bytes, u16_of(bytes, 6) as usize)
}

/// Writes one entry from `at` on; the rest stays.
fn put_entry(out: &mut [u8], at: usize, entry: SnodEntry)
    requires { at + 40 ≤ length out.old }
    ensures put { Puts out.old out.new at (entry_bytes entry) }
    ensures range { EntryInRange entry }
{
    put_u64(out, at, entry.name_at);
    put_u64(out, at + 8, entry.header_at);
    put_u32(out, at + 16, entry.cache);
    put_u32(out, at + 20, 0);
    put_u64(out, at + 24, entry.tree_at);
    put_u64(out, at + 32, entry.heap_at);
}

/// Writes the entries one behind the other from `at` on; the rest stays.
fn put_entries(out: &mut [u8], at: usize, entries: &[SnodEntry])
    requires { at + 40 * length entries.now ≤ length out.old }
    ensures put { Puts out.old out.new at (flat_map entry_bytes entries.now) }
    ensures range { All EntryInRange entries.now }
{
    for (i, entry) in entries.iter().enumerate() {
        put_entry(out, at + 40 * i, *entry);
    }
}

/// Writes the entries into the whole block of a symbol table node, which has room for 2k of them; reserved bytes and
/// unused cells are 0. It takes no memory.
pub fn write_snod(v: &Vec<SnodEntry>, k: u16, out: &mut [u8])
    requires k { k ≤ 1024 }
    requires counts { FitsSnod k v.now.items }
    requires room { length out.old ≡ snod_len k }
    ensures bytes { out.new ≡ snod_bytes k v.now.items }
    // What is written is read again.
    ensures spelled { SpellsSnod k v.now.items out.new }
{
    out.fill(0);
    put_bytes(out, 0, &[0x53, 0x4E, 0x4F, 0x44, 1, 0]);
    let entries = v.as_slice();
    put_u16(out, 6, entries.len() as u16);
    put_entries(out, 8, entries);
}
