ghost use Rattle.std.specs.Prelude.{◌≡◌, ◌+◌, ◌<◌, ◌≤◌, ◌++◌, ◌∷◌, ◌==◌, length, take, drop, position, IfSome, IfNone};
ghost use Rattle.std.specs.Prelude.{IfOk, OnErr, IsTrue, [], vec_len, vec_capacity};
ghost use Rattle.outside.specs.Causes.{HasCause};
ghost use Rattle.script_lines.specs.Lines.{HasNoLf, most_kept};

use outside::{Failed, Source};

/// So many bytes of a line are kept.
pub(crate) const MOST_KEPT: usize = 65_537;

fn position_of_lf(bytes: &[u8]) -> Option<usize>
    ensures { result ≡ position (λ b. b == 10) bytes.now }
{
    bytes.iter().position(|b| *b == b'\n')
}

/// Where the first LF stands.
pub(crate) fn find_lf(bytes: &[u8]) -> Option<usize>
    ensures within { IfSome result (λ at. at < length bytes.now) }
    ensures before { IfSome result (λ at. HasNoLf (take at bytes.now)) }
    ensures found { IfSome result (λ at. bytes.now ≡ take at bytes.now ++ 10 ∷ drop (at + 1) bytes.now) }
    ensures none { IfNone result (HasNoLf bytes.now) }
{
    position_of_lf(bytes)
}

/// Appends as many bytes as are kept of a line. It has room for them, and takes no memory.
pub(crate) fn append_kept(line: &mut Vec<u8>, bytes: &[u8])
    requires short { vec_len line.old ≤ most_kept }
    requires room { most_kept ≤ vec_capacity line.old }
    ensures items { line.new.items ≡ take most_kept (line.old.items ++ bytes.now) }
    ensures short { vec_len line.new ≤ most_kept }
    ensures room { most_kept ≤ vec_capacity line.new }
{
    let count = (MOST_KEPT - line.len()).min(bytes.len());
    let _ = line.extend_from_slice(&bytes[..count]);
}

/// Reads into the front of a piece, at most so many bytes.
pub(crate) fn read_piece<I: Source>(
    source: &mut I,
    piece: &mut [u8],
    most: usize,
) -> Result<usize, Failed>
    requires some { 0 < most }
    requires inside { most ≤ length piece.old }
    ensures count { IfOk result (λ n. n ≤ most) }
    ensures bytes { IsTrue I.tells → IfOk result (λ n. I.left source.old ≡ take n piece.new ++ I.left source.new) }
    ensures end { IsTrue I.tells → IfOk result (λ n. n ≡ 0 → I.left source.old ≡ []) }
    ensures err { IsTrue I.tells → OnErr result (I.left source.new ≡ I.left source.old) }
    ensures cause { HasCause (I.faults source.old) (I.faults source.new) result }
{
    source.read(&mut piece[..most])
}
