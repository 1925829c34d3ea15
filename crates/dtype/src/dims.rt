ghost use Rattle.std.specs.Prelude.{◌≡◌, ◌↔◌, ◌-◌, ◌*◌, ◌^◌, ◌≤◌, IfOk, IsTrue, length};
ghost use Rattle.std.specs.Option.{SomeIff};
ghost use Rattle.dtype.specs.Products.{FitsFile, product};

use h5_base::NoMemory;
use smallvec::SmallVec;
use std::alloc::Global;
use std::marker::Model;

/// One size or offset for each dimension of a dataset, the slowest first. Up to four take no memory.
#[derive(Debug, Drop)]
pub struct Dims {
    sizes: SmallVec<u64, 4>,
}

impl Model for Dims {
    ghost use Rattle.std.specs.Prelude.{List, ℕ};

    ghost Value = { List ℕ };

    ghost view = { λ d. d.sizes.items };
}

impl Dims {
    /// A copy of these numbers.
    pub fn from_slice(alloc: Global, items: &[u64]) -> Result<Dims, NoMemory>
        ensures { IfOk result (λ d. d ≡ items.now) }
    {
        match SmallVec::from_slice(alloc, items) {
            Ok(sizes) => Ok(Dims { sizes }),
            Err(_) => Err(NoMemory),
        }
    }

    pub fn as_slice(&self) -> &[u64]
        ensures { result.now ≡ self.now }
    {
        self.sizes.as_slice()
    }

    /// The number of dimensions.
    pub fn len(&self) -> usize
        ensures { result ≡ length self.now }
    {
        self.sizes.as_slice().len()
    }

    /// The bytes that all elements of a dataset with these sizes have, none where they are more than 2^63 - 1.
    pub fn byte_len(&self, elem_size: u32) -> Option<u64>
        ensures { SomeIff result (FitsFile self.now elem_size) (product self.now * elem_size) }
    {
        bytes_of(self.as_slice(), elem_size)
    }
}

/// The most bytes that a dataset may have.
const MOST_BYTES: u64 = 0x7FFF_FFFF_FFFF_FFFF;

fn has_zero(sizes: &[u64]) -> bool
    ensures { IsTrue result ↔ (product sizes.now ≡ 0) }
{
    for size in sizes {
        if *size == 0 {
            return true;
        }
    }
    false
}

/// The product, none where it is more than a dataset may have.
fn multiply(bytes: u64, size: u64) -> Option<u64>
    ensures { SomeIff result (bytes * size ≤ 2 ^ 63 - 1) (bytes * size) }
{
    match bytes.checked_mul(size) {
        Some(product) if product <= MOST_BYTES => Some(product),
        _ => None,
    }
}

fn bytes_of(sizes: &[u64], elem_size: u32) -> Option<u64>
    ensures { SomeIff result (FitsFile sizes.now elem_size) (product sizes.now * elem_size) }
{
    if has_zero(sizes) {
        return Some(0);
    }
    let mut total = u64::from(elem_size);
    for size in sizes {
        match multiply(total, *size) {
            Some(more) => total = more,
            None => return None,
        }
    }
    Some(total)
}
