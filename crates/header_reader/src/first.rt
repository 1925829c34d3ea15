ghost use Rattle.std.specs.Prelude.{◌≡◌, ◌≢◌, ◌+◌, ◌^◌, ◌<◌, ◌≤◌, ◌↔◌, ◌⊎◌, ◌∷◌, [], IsTrue, length, take};
ghost use Rattle.outside.specs.Blocks.{IsBlockRefused, AreTaken};
ghost use Rattle.block_space.specs.Blocks.{Refuses, space_of};
ghost use Rattle.file_model.specs.Headers.{later_header};
ghost use Rattle.h5_base.specs.declared.refusal.Refusal.TheVariants.{Malformed};
ghost use Rattle.h5_base.specs.declared.kinds.BlockKind.TheVariants as block_kind;

use block_space::Blocks;
use h5_base::{BlockKind, Stop};
use outside::Space;

/// So many bytes say which version a header has: the 16 of a prefix, or 4 or none where these pass the last address.
pub(crate) fn first_len(at: u64) -> usize
    ensures fits { at + result ≤ 2 ^ 64 }
    ensures whole { at + 16 ≤ 2 ^ 64 → result ≡ 16 }
    ensures most { result ≤ 16 }
    ensures four { at + 4 ≤ 2 ^ 64 → 4 ≤ result }
{
    if at <= u64::MAX - 15 {
        16
    } else if at <= u64::MAX - 3 {
        4
    } else {
        0
    }
}

/// Whether the bytes begin with `OHDR`.
pub(crate) fn is_later(bytes: &[u8]) -> bool
    ensures { IsTrue result ↔ (4 ≤ length bytes.now) × (take 4 bytes.now ≡ later_header) }
{
    bytes.len() >= 4 && &bytes[..4] == b"OHDR".as_slice()
}

/// Why there is no prefix at an address where none is spelled.
pub(crate) fn no_prefix<V: Space>(blocks: &mut Blocks<V>, at: u64) -> Stop
    requires stands { V.Stands (space_of blocks.old) }
    ensures refused { Refuses V.view blocks.old (λ e met r.
        IsBlockRefused e met (record { start = at; len = 16 }) block_kind.Header r
        ⊎ (AreTaken e met (record { start = at; len = 16 } ∷ []) × (at + 16 < 2 ^ 64)
        × (r ≡ Malformed at block_kind.Header))) result }
    ensures no_fault { result ≢ Stop.Failed }
    ensures space { space_of blocks.new ≡ space_of blocks.old }
{
    match blocks.adopt(at, 16, BlockKind::Header) {
        Ok(()) => Stop::malformed(at, BlockKind::Header),
        Err(stop) => stop,
    }
}
