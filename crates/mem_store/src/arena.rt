ghost use Rattle.std.specs.Prelude.{◌≡◌, ◌+◌, ◌-◌, ◌≤◌, ◌++◌, length, take, drop, replicate, max, vec_len};
ghost use Rattle.std.specs.Prelude.{vec_capacity, ◌<◌, ◌^◌, min};
ghost use Rattle.outside.specs.Files.{written, resized};

// Puts `n` zeros in at a place, within the memory that was taken before.
fn open(bytes: &mut Vec<u8>, at: usize, n: usize)
    requires within { at ≤ length bytes.old.items }
    requires room { length bytes.old.items + n ≤ vec_capacity bytes.old }
    ensures items { bytes.new.items ≡ take at bytes.old.items ++ replicate n 0 ++ drop at bytes.old.items }
    ensures capacity { vec_capacity bytes.old ≤ vec_capacity bytes.new }
{
    let len = bytes.len();
    match bytes.resize(len + n, 0) {
        Ok(()) => {}
        Err(_) => return,
    }
    bytes[at..].rotate_right(n);
}

// Takes `n` bytes out at a place.
fn close(bytes: &mut Vec<u8>, at: usize, n: usize)
    requires { at + n ≤ length bytes.old.items }
    ensures items { bytes.new.items ≡ take at bytes.old.items ++ drop (at + n) bytes.old.items }
    ensures capacity { vec_capacity bytes.old ≤ vec_capacity bytes.new }
{
    let len = bytes.len();
    bytes[at..].rotate_left(n);
    bytes.truncate(len - n);
}

fn cover(bytes: &mut Vec<u8>, at: usize, piece: &[u8])
    requires { at + length piece.now ≤ length bytes.old.items }
    ensures items { bytes.new.items ≡ take at bytes.old.items ++ piece.now ++ drop
        (at + length piece.now) bytes.old.items }
    ensures capacity { vec_capacity bytes.old ≤ vec_capacity bytes.new }
{
    bytes[at..at + piece.len()].copy_from_slice(piece);
}

/// Gives the `len` bytes from `start` on the length `n`: cut, or with zeros behind. It takes no memory.
pub fn refit(bytes: &mut Vec<u8>, start: usize, len: usize, n: usize)
    requires within { start + len ≤ length bytes.old.items }
    requires room { length bytes.old.items - len + n ≤ vec_capacity bytes.old }
    ensures items { bytes.new.items ≡ take start bytes.old.items ++ resized n
        (take len (drop start bytes.old.items)) ++ drop (start + len) bytes.old.items }
    ensures capacity { vec_capacity bytes.old ≤ vec_capacity bytes.new }
{
    if n > len {
        open(bytes, start + len, n - len);
    } else {
        close(bytes, start + n, len - n);
    }
}

/// Writes a piece over the `len` bytes from `start` on, which grow where it ends past them. It takes no memory.
pub fn overwrite(bytes: &mut Vec<u8>, start: usize, len: usize, at: usize, piece: &[u8])
    requires within { start + len ≤ length bytes.old.items }
    requires end { at + length piece.now < 2 ^ 64 }
    requires room { length bytes.old.items - len + max len (at + length piece.now) ≤ vec_capacity bytes.old }
    ensures items { bytes.new.items ≡ take start bytes.old.items ++ written at piece.now
        (take len (drop start bytes.old.items)) ++ drop (start + len) bytes.old.items }
    ensures capacity { vec_capacity bytes.old ≤ vec_capacity bytes.new }
{
    let end = len.max(at + piece.len());
    refit(bytes, start, len, end);
    cover(bytes, start + at, piece);
}

/// Copies what stands from an offset on, as much as there is room for: how many bytes.
pub fn copy_from(bytes: &[u8], at: usize, out: &mut [u8]) -> usize
    ensures count { result ≡ min (length out.old) (length bytes.now - at) }
    ensures bytes { take result out.new ≡ take (length out.old) (drop at bytes.now) }
{
    let from = at.min(bytes.len());
    let n = out.len().min(bytes.len() - from);
    out[..n].copy_from_slice(&bytes[from..from + n]);
    n
}
