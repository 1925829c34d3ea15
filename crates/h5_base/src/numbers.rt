ghost use Rattle.std.specs.Prelude.{◌≡◌, ◌+◌, ◌*◌, ◌≤◌, length, IfOk};
ghost use Rattle.h5_base.specs.Fields.{u64s_at, u64s_bytes, Puts};

use crate::NoMemory;
use crate::fields::{put_u64, u64_of};
use std::alloc::Global;

/// So many numbers of 8 bytes, each `step` bytes after the one before.
pub fn read_u64s(
    alloc: Global,
    bytes: &[u8],
    at: usize,
    step: usize,
    count: usize,
) -> Result<Vec<u64>, NoMemory>
    requires wide { 8 ≤ step }
    requires inside { at + step * count + 8 ≤ length bytes.now + step }
    ensures { IfOk result (λ v. v.items ≡ u64s_at bytes.now at step count) }
{
    let mut numbers = Vec::new(alloc);
    for i in 0..count {
        match numbers.push(u64_of(bytes, at + step * i)) {
            Ok(()) => {}
            Err(_) => return Err(NoMemory),
        }
    }
    Ok(numbers)
}

/// Writes the numbers one after the other, each as 8 bytes, from `at` on; the rest stays.
pub fn put_u64s(out: &mut [u8], at: usize, numbers: &[u64])
    requires { at + 8 * length numbers.now ≤ length out.old }
    ensures { Puts out.old out.new at (u64s_bytes numbers.now) }
{
    for (i, number) in numbers.iter().enumerate() {
        put_u64(out, at + 8 * i, *number);
    }
}
