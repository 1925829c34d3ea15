ghost use Rattle.std.specs.Prelude.{◌≡◌, ◌+◌, ◌≤◌, ◌↔◌, length, slice_index, IsTrue, IfOk, IfErr, Ok};
ghost use Rattle.super_codec.specs.declared.superblock.Superblock.{Superblock};
ghost use Rattle.super_codec.specs.Super.{IsSuper, HasRest, Spells, Fits, base_at, super_len, fields, is_k, is_signed};
ghost use Rattle.super_codec.specs.Super.{has_wrong_version, has_wrong_sizes, has_wrong_base, has_wrong_k_at};
ghost use Rattle.super_codec.specs.Super.{has_wrong_k, unsupported_of, stop_of};

use crate::superblock::{RootEntry, SuperStop, Superblock};
use h5_base::{What, u16_of, u32_of, u64_of};

pub const SIGNATURE: [u8; 8] = [0x89, 0x48, 0x44, 0x46, 0x0D, 0x0A, 0x1A, 0x0A];

/// Reads the superblock that begins the bytes, which are those below the end of the first region, up to 100 of
/// them. A field counts as unsupported only where it lies whole in the bytes; they are judged in the order version,
/// sizes of offsets and lengths, base address, K values. (HDF5 File Format Specification 3.0, II.A.)
pub fn read_super(bytes: &[u8]) -> Result<Superblock, SuperStop>
    // What is read is spelled.
    ensures found { IfOk result (λ s. Spells s bytes.now) }
    // What is spelled is read.
    ensures only { (s : Superblock) → Spells s bytes.now → result ≡ Ok s }
    // Which refusal it is.
    ensures stop { IfErr result (λ e. e ≡ stop_of bytes.now) }
    // What is read can be written.
    ensures fits { IfOk result Fits }
{
    if !is_signed(bytes) {
        return Err(SuperStop::NotThis);
    }
    match find_unsupported(bytes) {
        Some(what) => Err(SuperStop::Unsupported { what }),
        None if has_rest(bytes) => Ok(read_fields(bytes)),
        None => Err(SuperStop::NotThis),
    }
}

fn is_signed(bytes: &[u8]) -> bool
    ensures { result ≡ is_signed bytes.now }
{
    bytes.len() >= 8 && &bytes[..8] == SIGNATURE.as_slice()
}

fn is_k(k: u16) -> bool
    ensures { result ≡ is_k k }
{
    1 <= k && k <= 1024
}

// The byte there, 0 past the end.
fn byte_of(bytes: &[u8], at: usize) -> u8
    ensures { result ≡ slice_index bytes.now at }
{
    if at < bytes.len() { bytes[at] } else { 0 }
}

fn base_at(version: u8) -> usize
    ensures { result ≡ base_at version }
{
    if version == 1 { 28 } else { 24 }
}

fn find_unsupported(bytes: &[u8]) -> Option<What>
    ensures { result ≡ unsupported_of bytes.now }
{
    if has_wrong_version(bytes) {
        Some(What::Superblock)
    } else if has_wrong_sizes(bytes) {
        Some(What::Sizes)
    } else if has_wrong_base(bytes) {
        Some(What::UserBlock)
    } else if has_wrong_k(bytes) {
        Some(What::K)
    } else {
        None
    }
}

fn has_wrong_version(bytes: &[u8]) -> bool
    ensures { result ≡ has_wrong_version bytes.now }
{
    bytes.len() >= 9 && bytes[8] > 1
}

fn has_wrong_sizes(bytes: &[u8]) -> bool
    ensures { result ≡ has_wrong_sizes bytes.now }
{
    (bytes.len() >= 14 && bytes[13] != 8) || (bytes.len() >= 15 && bytes[14] != 8)
}

fn has_wrong_base(bytes: &[u8]) -> bool
    ensures { result ≡ has_wrong_base bytes.now }
{
    let at = base_at(byte_of(bytes, 8));
    bytes.len() >= at + 8 && u64_of(&bytes[at..], 0) != 0
}

fn has_wrong_k_at(bytes: &[u8], at: usize) -> bool
    requires { at ≤ 24 }
    ensures { result ≡ has_wrong_k_at bytes.now at }
{
    bytes.len() >= at + 2 && !is_k(u16_of(bytes, at))
}

fn has_wrong_k(bytes: &[u8]) -> bool
    ensures { result ≡ has_wrong_k bytes.now }
{
    has_wrong_k_at(bytes, 16)
        || has_wrong_k_at(bytes, 18)
        || (byte_of(bytes, 8) == 1 && has_wrong_k_at(bytes, 24))
}

fn has_rest(bytes: &[u8]) -> bool
    ensures { IsTrue result ↔ HasRest bytes.now }
{
    bytes.len() >= base_at(byte_of(bytes, 8)) + 72
        && bytes[9] == 0
        && bytes[10] == 0
        && bytes[12] == 0
}

fn read_fields(bytes: &[u8]) -> Superblock
    requires { IsSuper bytes.now }
    ensures value { result ≡ fields bytes.now }
    ensures spelled { Spells result bytes.now }
{
    let version = bytes[8];
    let rest = &bytes[base_at(version)..];
    Superblock {
        version,
        leaf_k: u16_of(bytes, 16),
        internal_k: u16_of(bytes, 18),
        chunk_k: if version == 1 { u16_of(bytes, 24) } else { 32 },
        flags: u32_of(bytes, 20),
        free_at: u64_of(rest, 8),
        end_at: u64_of(rest, 16),
        driver_at: u64_of(rest, 24),
        root: RootEntry {
            header_at: u64_of(rest, 40),
            cache: u32_of(rest, 48),
            tree_at: u64_of(rest, 56),
            heap_at: u64_of(rest, 64),
        },
    }
}
