ghost use Rattle.std.specs.Prelude.{◌≡◌, ◌+◌, ◌^◌, ◌<◌, ◌≤◌, ◌++◌, ◌∷◌, [], ℕ, List, Option, IsTrue, IfOk, IfErr};
ghost use Rattle.std.specs.Prelude.{IfSome, OnOk, IsErrOf};
ghost use Rattle.header_codec.specs.declared.types.Prefix.{Prefix};
ghost use Rattle.outside.specs.Array.{Array};
ghost use Rattle.outside.specs.Blocks.{Block};
ghost use Rattle.outside.specs.Causes.{OneRose};
ghost use Rattle.outside.specs.Space.{bounds_of};
ghost use Rattle.block_space.specs.Blocks.{Keeps, Refuses, Takes, array_of, space_of};
ghost use Rattle.h5_base.specs.Refusals.{refusal_of};
ghost use Rattle.file_model.specs.Headers.{AreWhole, IsHeader, Part, header_blocks, messages_of};
ghost use Rattle.file_model.specs.Limits.{header_bytes, most_header};
ghost use Rattle.file_model.specs.Refusals.{IsMessageRefused, IsHeaderRefused};
ghost use Rattle.header_reader.specs.Gathered.{Gathers};
ghost use Rattle.header_reader.specs.Found.{IsFound, IsSoundHeader};
ghost use Rattle.header_reader.specs.Walks.{HasPrefix, IsGathered};

use crate::first::{first_len, is_later, no_prefix};
use crate::messages::Messages;
use crate::walk::{MOST_BYTES, Walk};
use block_space::Blocks;
use h5_base::{BlockKind, NoMemory, Stop, What};
use header_codec::{Prefix, read_prefix};
use outside::Space;
use std::alloc::Global;
use tree_nodes::Node;

/// What stands where an object's header is.
#[derive(Debug, Drop)]
pub enum Header {
    /// A header that begins with `OHDR`, of a later version, which isn't read.
    Later,
    /// A header of version 1, and the object that it makes; never a soft link.
    Known { node: Node },
}

// Meets all messages of a header, whose own block is in the catalogue.
fn gather<V: Space>(
    alloc: Global,
    blocks: &mut Blocks<V>,
    at: u64,
    prefix: Prefix,
) -> Result<Messages, Stop>
    requires stands { V.Stands (space_of blocks.old) }
    requires short { 16 + prefix.size ≤ most_header }
    requires fits { at + 16 + prefix.size < 2 ^ 64 }
    ensures found { IfOk result (λ messages. (parts : List Part)
        × (IsTrue V.tells → IsGathered (array_of V.view blocks.old) at prefix messages parts)
        × ((met : List Block) → Keeps V.view blocks.old (met ++ record { start = at; len = 16 + prefix.size } ∷ [])
        → Keeps V.view blocks.new (met ++ header_blocks at prefix parts))) }
    ensures refused { IsTrue V.tells → IfErr result (λ stop. (met : List Block) (own : Option (List ℕ))
        → Keeps V.view blocks.old (met ++ record { start = at; len = 16 + prefix.size } ∷ [])
        → IfSome (refusal_of stop) (IsMessageRefused (array_of V.view blocks.old)
        (bounds_of (V.view (space_of blocks.old)) own) met at prefix)) }
    ensures alike { V.Alike (space_of blocks.old) (space_of blocks.new) }
    ensures failed { IsErrOf result Stop.Failed
        → OneRose (V.faults (space_of blocks.old)) (V.faults (space_of blocks.new)) }
    ensures calm { ¬ IsErrOf result Stop.Failed
        → V.faults (space_of blocks.new) ≡ V.faults (space_of blocks.old) }
{
    let mut walk = Walk::begin(alloc, at, prefix)?;
    'parts: while walk.wanted > 0 {
        let Some(part) = walk.waiting.pop_front() else {
            return Err(Stop::malformed(at, BlockKind::Header));
        };
        walk.read_part(alloc, blocks, part)?;
    }
    let Walk { messages, .. } = walk;
    Ok(messages)
}

// The object that the messages of the header at an address make.
fn known(alloc: Global, messages: Messages, at: u64) -> Result<Header, Stop>
    ensures made { IfOk result (λ x. (b : Array) (prefix : Prefix) (parts : List Part)
        → IsHeader b at prefix parts → Gathers messages (messages_of parts) → AreWhole (messages_of parts)
        → header_bytes at prefix parts ≤ most_header → IsFound b at x (header_blocks at prefix parts)) }
    ensures sound { IfOk result IsSoundHeader }
    ensures memory { IfErr result (λ stop. stop ≡ Stop.NoMemory) }
{
    match messages.node(alloc, at) {
        Ok(node) => Ok(Header::Known { node }),
        Err(NoMemory) => Err(Stop::NoMemory),
    }
}

// Reads the header whose prefix was read.
fn read_known<V: Space>(
    alloc: Global,
    blocks: &mut Blocks<V>,
    at: u64,
    prefix: Prefix,
) -> Result<Header, Stop>
    requires stands { V.Stands (space_of blocks.old) }
    requires listed { (met : List Block) × Keeps V.view blocks.old met }
    ensures found { IsTrue V.tells → HasPrefix (array_of V.view blocks.old) at prefix
        → IfOk result (λ x. Takes V.view blocks.old blocks.new (IsFound (array_of V.view blocks.old) at x)) }
    ensures refused { IsTrue V.tells → HasPrefix (array_of V.view blocks.old) at prefix
        → IfErr result (Refuses V.view blocks.old
        (λ e met r. IsHeaderRefused (array_of V.view blocks.old) e met at r)) }
    ensures sound { IfOk result IsSoundHeader }
    ensures alike { V.Alike (space_of blocks.old) (space_of blocks.new) }
    ensures listed { OnOk result ((met : List Block) × Keeps V.view blocks.new met) }
    ensures failed { IsErrOf result Stop.Failed
        → OneRose (V.faults (space_of blocks.old)) (V.faults (space_of blocks.new)) }
    ensures calm { ¬ IsErrOf result Stop.Failed
        → V.faults (space_of blocks.new) ≡ V.faults (space_of blocks.old) }
{
    let len = 16 + u64::from(prefix.size);
    if len > MOST_BYTES {
        return Err(Stop::unsupported(What::Header));
    }
    blocks.adopt(at, len, BlockKind::Header)?;
    let messages = gather(alloc, blocks, at, prefix)?;
    known(alloc, messages, at)
}

/// Reads the object header at an address, takes its blocks into the catalogue, and says which object it makes (HDF5
/// File Format Specification 3.0, IV.A.1.a, IV.A.2 and IV.A.2.q). Of a header that begins with `OHDR` only these 4
/// bytes are taken. `Unsupported` says that it has more than 1,048,576 bytes with its continuations, which is seen
/// before the block that has the bytes past the limit is taken; `Malformed` names the header, or the address of a
/// message in it.
pub fn read_header<V: Space>(alloc: Global, blocks: &mut Blocks<V>, at: u64) -> Result<Header, Stop>
    requires stands { V.Stands (space_of blocks.old) }
    requires listed { (met : List Block) × Keeps V.view blocks.old met }
    ensures found { IsTrue V.tells → IfOk result
        (λ x. Takes V.view blocks.old blocks.new (IsFound (array_of V.view blocks.old) at x)) }
    ensures refused { IsTrue V.tells → IfErr result (Refuses V.view blocks.old
        (λ e met r. IsHeaderRefused (array_of V.view blocks.old) e met at r)) }
    ensures sound { IfOk result IsSoundHeader }
    ensures alike { V.Alike (space_of blocks.old) (space_of blocks.new) }
    ensures listed { OnOk result ((met : List Block) × Keeps V.view blocks.new met) }
    ensures failed { IsErrOf result Stop.Failed
        → OneRose (V.faults (space_of blocks.old)) (V.faults (space_of blocks.new)) }
    ensures calm { ¬ IsErrOf result Stop.Failed
        → V.faults (space_of blocks.new) ≡ V.faults (space_of blocks.old) }
{
    let first = blocks.read_bytes(alloc, at, first_len(at))?;
    if is_later(first.as_slice()) {
        blocks.adopt(at, 4, BlockKind::Header)?;
        return Ok(Header::Later);
    }
    match read_prefix(first.as_slice()) {
        Some(prefix) => read_known(alloc, blocks, at, prefix),
        None => Err(no_prefix(blocks, at)),
    }
}
