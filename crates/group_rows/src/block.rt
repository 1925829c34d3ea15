ghost use Rattle.std.specs.Prelude.{◌≡◌, ◌+◌, ◌^◌, ◌<◌, IsTrue, IfOk, IfErr, length};
ghost use Rattle.outside.specs.Array.{bytes_of};
ghost use Rattle.block_space.specs.Blocks.{array_of, space_of};
ghost use Rattle.group_rows.specs.Gathering.{IsMalformed, Reads};

use block_space::{Blocks, PlanStop};
use h5_base::{BlockKind, Stop};
use outside::Space;
use std::alloc::Global;

/// Reads a block, where its addresses are numbers of 64 bits.
pub(crate) fn read_block<V: Space>(
    alloc: Global,
    blocks: &mut Blocks<V>,
    at: u64,
    len: usize,
    kind: BlockKind,
) -> Result<Vec<u8>, PlanStop>
    requires stands { V.Stands (space_of blocks.old) }
    ensures bytes { IsTrue V.tells → IfOk result
        (λ v. v.items ≡ bytes_of (array_of V.view blocks.old) at len) }
    ensures len { IfOk result (λ v. length v.items ≡ len) }
    ensures whole { at + len < 2 ^ 64 → IfErr result (λ stop. ¬ IsMalformed stop) }
    ensures reads { Reads V.view V.Alike V.faults blocks.old blocks.new result }
{
    if at > u64::MAX - len as u64 {
        return Err(PlanStop::Malformed { at, kind });
    }
    match blocks.read_bytes(alloc, at, len) {
        Ok(bytes) => Ok(bytes),
        Err(Stop::Failed) => Err(PlanStop::Failed),
        Err(_) => Err(PlanStop::NoMemory),
    }
}
