ghost use Rattle.std.specs.Prelude.{◌≡◌, ◌^◌, ◌<◌, ◌≤◌, length, take, drop, Some, IsTrue, IfOk, OnOk};
ghost use Rattle.outside.specs.Array.{array_of, bytes_of};
ghost use Rattle.outside.specs.Causes.{HasCause};
ghost use Rattle.plain_space.specs.File.{file_in, seen, Looks};

use outside::{Failed, FileId, Store};

/// A store is asked for no byte from here on.
const LIMIT: u64 = 1 << 48;

// Asks for the bytes from `at` on, as far as they lie below 2^48, and answers how many there were.
fn read_below<S: Store>(store: &mut S, id: FileId, at: u64, out: &mut [u8]) -> Result<usize, Failed>
    requires given { 0 < length ((S.view store.old).names id.n) }
    ensures count { IfOk result (λ n. n ≤ length out.old) }
    ensures bytes { IsTrue S.tells_files → IfOk result (λ n.
        take n out.new ≡ take (length out.old) (drop at (seen (file_in (S.view store.old) id.n)))) }
    ensures looks { Looks S.tells_files S.tells_images id.n (S.view store.old) (S.view store.new) (S.leaves store.old)
        (S.leaves store.new) (S.past store.old) (S.past store.new) }
    ensures cause { HasCause ((S.view store.old).counts (Some id.n)) ((S.view store.new).counts (Some id.n)) result }
{
    if at >= LIMIT {
        return Ok(0);
    }
    let most = (LIMIT - at).min(out.len() as u64) as usize;
    store.read(id, at, &mut out[..most])
}

/// Reads the bytes of a file that are seen from `at` on, with zeros behind them, in at most one call.
pub fn read_part<S: Store>(store: &mut S, id: FileId, at: u64, out: &mut [u8]) -> Result<(), Failed>
    requires given { 0 < length ((S.view store.old).names id.n) }
    ensures bytes { IsTrue S.tells_files → OnOk result
        (out.new ≡ bytes_of (array_of (seen (file_in (S.view store.old) id.n))) at (length out.old)) }
    ensures looks { Looks S.tells_files S.tells_images id.n (S.view store.old) (S.view store.new) (S.leaves store.old)
        (S.leaves store.new) (S.past store.old) (S.past store.new) }
    ensures cause { HasCause ((S.view store.old).counts (Some id.n)) ((S.view store.new).counts (Some id.n)) result }
{
    let count = read_below(store, id, at, out)?;
    out[count..].fill(0);
    Ok(())
}
