ghost use Rattle.std.specs.Prelude.{◌≡◌, ℕ, ◌+◌, ◌^◌, ◌<◌, ◌≤◌, IfOk, if◌then◌else◌, nat_le, length, replicate};
ghost use Rattle.block_space.specs.Plans.{rounded};
ghost use Rattle.h5_base.specs.Fields.{Puts};
ghost use Rattle.group_heap.specs.Spelled.{free_block, IsSpelled, IsHeadImage};

use h5_base::{Bytes, NoMemory, put_bytes, put_u64};
use node_codec::{HeapHead, write_heap};
use plan_pieces::Image;
use std::alloc::Global;

/// The least multiple of 8 that is `len` or more.
pub(crate) fn round_up(len: u64) -> u64
    requires { len + 7 < 2 ^ 64 }
    ensures { result ≡ rounded len }
{
    (len + 7) / 8 * 8
}

/// The head of the free list: `next`, where the free block from there on has room, else 1, which is none.
pub(crate) fn free_head(next: u64, len: u64) -> u64
    requires { next + 16 < 2 ^ 64 }
    ensures { result ≡ (if nat_le (next + 16) len then next else 1) }
{
    if next + 16 <= len { next } else { 1 }
}

/// The image of a header.
pub(crate) fn head_image(alloc: Global, at: u64, head: &HeapHead) -> Result<Image, NoMemory>
    ensures { IfOk result (λ i. IsHeadImage at head.now i) }
{
    let Ok(mut bytes) = vec![in alloc; 0u8; 32] else {
        return Err(NoMemory);
    };
    write_heap(head, &mut bytes);
    Ok(Image {
        at,
        bytes: Bytes::from_vec(bytes),
    })
}

/// Writes a free block of this size: no block follows it.
pub(crate) fn put_free(out: &mut [u8], at: usize, size: u64)
    requires { at + 16 ≤ length out.old }
    ensures { Puts out.old out.new at (free_block size) }
{
    put_u64(out, at, 1);
    put_u64(out, at + 8, size);
}

/// Writes over zeros: `front` first, the name at an offset, which is a multiple of 8, and behind it a free block of
/// this size, if it has room.
fn put_all(out: &mut [u8], front: &[u8], at: usize, name: &[u8], size: u64)
    requires zeros { out.old ≡ replicate (length out.old) 0 }
    requires behind { length front.now ≤ at }
    requires fits { at + length name.now + 1 ≤ length out.old }
    requires small { length out.old < 2 ^ 32 }
    ensures { IsSpelled front.now at name.now (length out.old) size out.new }
{
    put_bytes(out, 0, front);
    put_bytes(out, at, name);
    let next = round_up((at + name.len() + 1) as u64) as usize;
    if next + 16 <= out.len() {
        put_free(out, next, size);
    }
}

/// So many bytes that begin with `front` and have the name at an offset, which is a multiple of 8, and behind it a free
/// block of this size, if it has room.
pub(crate) fn spell(
    alloc: Global,
    front: &[u8],
    at: usize,
    name: &[u8],
    len: usize,
    size: u64,
) -> Result<Bytes, NoMemory>
    requires behind { length front.now ≤ at }
    requires fits { at + length name.now + 1 ≤ len }
    requires small { len < 2 ^ 32 }
    ensures { IfOk result (λ bytes. IsSpelled front.now at name.now len size bytes) }
{
    let Ok(mut bytes) = vec![in alloc; 0u8; len] else {
        return Err(NoMemory);
    };
    put_all(&mut bytes, front, at, name, size);
    Ok(Bytes::from_vec(bytes))
}
