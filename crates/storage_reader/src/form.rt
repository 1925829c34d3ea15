ghost use Rattle.std.specs.Prelude.{◌≡◌, ◌↔◌, ◌+◌, ◌≤◌, length, take, IsTrue, All, IfOk};
ghost use Rattle.header_codec.specs.Layouts.{IsChunk};
ghost use Rattle.file_model.specs.Chunks.{AreMultiples};
ghost use Rattle.storage_reader.specs.Forms.{IsForm};

use dtype::Dims;
use h5_base::NoMemory;
use std::alloc::Global;

/// How the chunks of one dataset lie in their index.
#[derive(Debug, Drop)]
pub(crate) struct Form {
    // Half of the children for which a node has room.
    pub(crate) k: u16,

    // The dimensions of the dataset.
    pub(crate) rank: u8,

    // The sizes of a chunk, one for each dimension and then the size of an element.
    pub(crate) sizes: Dims,

    // The bytes of a chunk.
    pub(crate) bytes: u64,
}

impl Form {
    // The form of chunks of these sizes.
    pub(crate) fn new(alloc: Global, sizes: &Dims, k: u16) -> Result<Form, NoMemory>
        requires chunk { IsChunk sizes.now }
        ensures form { IfOk result (λ f. IsForm f) }
        ensures k { IfOk result (λ f. f.k ≡ k) }
        ensures sizes { IfOk result (λ f. f.sizes ≡ sizes.now) }
    {
        Ok(Form {
            k,
            rank: (sizes.len() - 1) as u8,
            sizes: Dims::from_slice(alloc, sizes.as_slice())?,
            bytes: sizes.byte_len(1).unwrap(),
        })
    }
}

// Whether each number is a multiple of the chunk's size in its dimension.
pub(crate) fn are_multiples(sizes: &[u64], offset: &[u64]) -> bool
    requires room { length offset.now ≤ length sizes.now }
    requires some { All (λ n. 1 ≤ n) sizes.now }
    ensures { IsTrue result ↔ AreMultiples (take (length offset.now) sizes.now) offset.now }
{
    for (i, n) in offset.iter().enumerate() {
        if *n % sizes[i] != 0 {
            return false;
        }
    }
    true
}
