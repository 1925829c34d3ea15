ghost use Rattle.std.specs.Prelude.{◌≡◌, ℕ, IfOk, length, replicate};
ghost use Rattle.dtype.specs.Types.{size_of};
ghost use Rattle.header_codec.specs.Layouts.{IsOfShape};
ghost use Rattle.file_model.specs.Objects.{DataInfo, fill_bytes, max_of};
ghost use Rattle.file_model.specs.Chunks.{chunk_of};
ghost use Rattle.header_reader.specs.Told.{IsSoundNode};
ghost use Rattle.tree_answers.specs.Kept.{stat_by, shown_by};

use dtype::{Dims, ElemType, Shape};
use h5_base::{Bytes, NoMemory};
use header_codec::{Fill, Layout};
use object_model::{Answer, Shown};
use std::alloc::Global;
use tree_nodes::Node;

fn copy_dims(alloc: Global, dims: &Dims) -> Result<Dims, NoMemory>
    ensures { IfOk result (λ d. d ≡ dims.now) }
{
    Dims::from_slice(alloc, dims.as_slice())
}

fn copy_bytes(alloc: Global, bytes: &Bytes) -> Result<Bytes, NoMemory>
    ensures { IfOk result (λ b. b ≡ bytes.now) }
{
    Bytes::from_slice(alloc, bytes.as_slice())
}

/// The maximum sizes: the sizes where none are given.
fn max_of(alloc: Global, shape: &Shape) -> Result<Dims, NoMemory>
    ensures { IfOk result (λ d. d ≡ max_of shape.now) }
{
    match &shape.max {
        Some(max) => copy_dims(alloc, max),
        None => copy_dims(alloc, &shape.dims),
    }
}

/// The sizes of a chunk of a dataset of this shape, none where it is contiguous.
fn chunk_of(alloc: Global, shape: &Shape, layout: &Layout) -> Result<Option<Dims>, NoMemory>
    requires { (size : ℕ) × IsOfShape (length shape.now.dims) size layout.now }
    ensures { (i : DataInfo) → i.shape ≡ shape.now → IfOk result (λ chunk. chunk ≡ chunk_of i layout.now) }
{
    match layout {
        Layout::Contiguous { .. } => Ok(None),
        Layout::Chunked { sizes, .. } => {
            let chunk = Dims::from_slice(alloc, &sizes.as_slice()[..shape.dims.len()])?;
            Ok(Some(chunk))
        }
    }
}

fn zeros(alloc: Global, size: usize) -> Result<Bytes, NoMemory>
    ensures { IfOk result (λ b. b ≡ replicate size 0) }
{
    match vec![in alloc; 0u8; size] {
        Ok(items) => Ok(Bytes::from_vec(items)),
        Err(_) => Err(NoMemory),
    }
}

fn elem_size(elem: ElemType) -> usize
    ensures { result ≡ size_of elem }
{
    match elem {
        ElemType::Int { size, .. } => usize::from(size),
        ElemType::Text { size, .. } => size as usize,
    }
}

/// The bytes of an element that was never written.
fn fill_of(alloc: Global, elem: ElemType, fill: &Fill) -> Result<Bytes, NoMemory>
    ensures { IfOk result (λ b. b ≡ fill_bytes (size_of elem) fill.now) }
{
    match fill {
        Fill::Zeros => zeros(alloc, elem_size(elem)),
        Fill::Value(bytes) => copy_bytes(alloc, bytes),
    }
}

/// What `stat` answers of a node with so many links.
pub(crate) fn stat_of(alloc: Global, node: &Node, links: u64) -> Result<Answer, NoMemory>
    requires { IsSoundNode node.now }
    ensures { IfOk result (λ a. a ≡ stat_by node.now links) }
{
    match node {
        Node::Group { .. } => Ok(Answer::Group { links }),
        Node::Dataset {
            shape,
            elem,
            fill,
            layout,
            filtered,
            ..
        } => Ok(Answer::Dataset {
            elem: *elem,
            dims: copy_dims(alloc, &shape.dims)?,
            max: max_of(alloc, shape)?,
            chunk: chunk_of(alloc, shape, layout)?,
            fill: fill_of(alloc, *elem, fill)?,
            filtered: *filtered,
        }),
        Node::Soft { text } => Ok(Answer::Soft {
            target: copy_bytes(alloc, text)?,
        }),
        Node::Other { .. } => Ok(Answer::Other),
    }
}

/// What `ls` shows of a link to a node.
pub(crate) fn shown_of(alloc: Global, node: &Node) -> Result<Shown, NoMemory>
    ensures { IfOk result (λ s. s ≡ shown_by node.now) }
{
    match node {
        Node::Group { .. } => Ok(Shown::Group),
        Node::Dataset { .. } => Ok(Shown::Dataset),
        Node::Soft { text } => Ok(Shown::Soft(copy_bytes(alloc, text)?)),
        Node::Other { .. } => Ok(Shown::Other),
    }
}
