ghost use Rattle.std.specs.Prelude.{◌≡◌, ◌≤◌, length};
ghost use Rattle.super_codec.specs.Super.{Fits, InRange, Spells, super_len, super_bytes, head_bytes, chunk_k_bytes};
ghost use Rattle.super_codec.specs.Super.{rest_bytes, root_bytes};

use crate::reading::SIGNATURE;
use crate::superblock::{RootEntry, Superblock};
use h5_base::{put_bytes, put_u16, put_u32, put_u64};

/// Writes the superblock over the whole buffer: 96 bytes, or 100 in version 1. The base address and what is reserved
/// are 0, the sizes of offsets and lengths 8. (HDF5 File Format Specification 3.0, II.A.)
pub fn write_super(s: &Superblock, out: &mut [u8])
    requires fits { Fits s.now }
    requires room { length out.old ≡ super_len s.now.version }
    // Each byte that is written.
    ensures bytes { out.new ≡ super_bytes s.now }
    // It is read again as the same superblock.
    ensures spelled { Spells s.now out.new }
{
    in_range(*s);
    write_bytes(s, out);
}

fn in_range(s: Superblock)
    ensures { InRange s }
{}

fn write_bytes(s: &Superblock, out: &mut [u8])
    requires room { length out.old ≡ super_len s.now.version }
    ensures { out.new ≡ super_bytes s.now }
{
    write_head(s, &mut out[..24]);
    if s.version == 1 {
        put_u16(out, 24, s.chunk_k);
        put_u16(out, 26, 0);
        write_rest(s, &mut out[28..]);
    } else {
        write_rest(s, &mut out[24..]);
    }
}

fn write_head(s: &Superblock, out: &mut [u8])
    requires { length out.old ≡ 24 }
    ensures { out.new ≡ head_bytes s.now }
{
    put_bytes(out, 0, &SIGNATURE);
    put_bytes(out, 8, &[s.version, 0, 0, 0, 0, 8, 8, 0]);
    put_u16(out, 16, s.leaf_k);
    put_u16(out, 18, s.internal_k);
    put_u32(out, 20, s.flags);
}

fn write_rest(s: &Superblock, out: &mut [u8])
    requires { length out.old ≡ 72 }
    ensures { out.new ≡ rest_bytes s.now }
{
    put_u64(out, 0, 0);
    put_u64(out, 8, s.free_at);
    put_u64(out, 16, s.end_at);
    put_u64(out, 24, s.driver_at);
    write_root(&s.root, &mut out[32..]);
}

fn write_root(root: &RootEntry, out: &mut [u8])
    requires { length out.old ≡ 40 }
    ensures { out.new ≡ root_bytes root.now }
{
    put_u64(out, 0, 0);
    put_u64(out, 8, root.header_at);
    put_u32(out, 16, root.cache);
    put_u32(out, 20, 0);
    put_u64(out, 24, root.tree_at);
    put_u64(out, 32, root.heap_at);
}
