ghost use Rattle.std.specs.Prelude.{◌≡◌, ◌+◌, ◌≤◌, ◌∷◌, [], length};
ghost use Rattle.std.specs.Option.{SomeIff};
ghost use Rattle.std.specs.Int.{w16, w32, w64, to_le_bytes};
ghost use Rattle.h5_base.specs.Fields.{u16_at, u32_at, u64_at, Puts};

/// The number of 2 bytes from `at` on.
#[tactic(auto, unfolding(crate::specs::Fields::u16_at))]
pub fn u16_of(bytes: &[u8], at: usize) -> u16
    requires { at + 2 ≤ length bytes.now }
    ensures { result ≡ u16_at bytes.now at }
{
    u16::from_le_bytes([bytes[at], bytes[at + 1]])
}

/// The number of 4 bytes from `at` on.
#[tactic(auto, unfolding(crate::specs::Fields::u32_at))]
pub fn u32_of(bytes: &[u8], at: usize) -> u32
    requires { at + 4 ≤ length bytes.now }
    ensures { result ≡ u32_at bytes.now at }
{
    u32::from_le_bytes([bytes[at], bytes[at + 1], bytes[at + 2], bytes[at + 3]])
}

/// The number of 8 bytes from `at` on.
#[tactic(auto, unfolding(crate::specs::Fields::u64_at))]
pub fn u64_of(bytes: &[u8], at: usize) -> u64
    requires { at + 8 ≤ length bytes.now }
    ensures { result ≡ u64_at bytes.now at }
{
    u64::from_le_bytes([
        bytes[at],
        bytes[at + 1],
        bytes[at + 2],
        bytes[at + 3],
        bytes[at + 4],
        bytes[at + 5],
        bytes[at + 6],
        bytes[at + 7],
    ])
}

/// The number of 2 bytes from `at` on, none where too few bytes follow.
pub fn get_u16(bytes: &[u8], at: usize) -> Option<u16>
    ensures { SomeIff result (at + 2 ≤ length bytes.now) (u16_at bytes.now at) }
{
    if at <= bytes.len() && bytes.len() - at >= 2 {
        Some(u16_of(bytes, at))
    } else {
        None
    }
}

/// The number of 4 bytes from `at` on, none where too few bytes follow.
pub fn get_u32(bytes: &[u8], at: usize) -> Option<u32>
    ensures { SomeIff result (at + 4 ≤ length bytes.now) (u32_at bytes.now at) }
{
    if at <= bytes.len() && bytes.len() - at >= 4 {
        Some(u32_of(bytes, at))
    } else {
        None
    }
}

/// The number of 8 bytes from `at` on, none where too few bytes follow.
pub fn get_u64(bytes: &[u8], at: usize) -> Option<u64>
    ensures { SomeIff result (at + 8 ≤ length bytes.now) (u64_at bytes.now at) }
{
    if at <= bytes.len() && bytes.len() - at >= 8 {
        Some(u64_of(bytes, at))
    } else {
        None
    }
}

/// Writes the bytes from `at` on; the rest stays.
pub fn put_bytes(out: &mut [u8], at: usize, bytes: &[u8])
    requires { at + length bytes.now ≤ length out.old }
    ensures { Puts out.old out.new at bytes.now }
{
    out[at..at + bytes.len()].copy_from_slice(bytes);
}

/// Writes the byte at `at`; the rest stays.
pub fn put_u8(out: &mut [u8], at: usize, v: u8)
    requires { at + 1 ≤ length out.old }
    ensures { Puts out.old out.new at (v ∷ []) }
{
    put_bytes(out, at, &[v]);
}

/// Writes the number as 2 bytes from `at` on; the rest stays.
pub fn put_u16(out: &mut [u8], at: usize, v: u16)
    requires { at + 2 ≤ length out.old }
    ensures { Puts out.old out.new at (to_le_bytes w16 v) }
{
    put_bytes(out, at, &v.to_le_bytes());
}

/// Writes the number as 4 bytes from `at` on; the rest stays.
pub fn put_u32(out: &mut [u8], at: usize, v: u32)
    requires { at + 4 ≤ length out.old }
    ensures { Puts out.old out.new at (to_le_bytes w32 v) }
{
    put_bytes(out, at, &v.to_le_bytes());
}

/// Writes the number as 8 bytes from `at` on; the rest stays.
pub fn put_u64(out: &mut [u8], at: usize, v: u64)
    requires { at + 8 ≤ length out.old }
    ensures { Puts out.old out.new at (to_le_bytes w64 v) }
{
    put_bytes(out, at, &v.to_le_bytes());
}
