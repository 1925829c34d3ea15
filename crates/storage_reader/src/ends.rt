ghost use Rattle.std.specs.Prelude.{◌≡◌, ◌↔◌, ◌++◌, ◌+◌, ◌<◌, ◌==◌, ℕ, List, IsTrue, IfOk, drop, length, true, false};
ghost use Rattle.outside.specs.Array.{Array};
ghost use Rattle.outside.specs.Blocks.{Block};
ghost use Rattle.h5_base.specs.declared.kinds.BlockKind.TheVariants.{Tree};
ghost use Rattle.file_model.specs.Chunks.{Chunk, AreAscending, IsFrom, IsBelow, comes_before};
ghost use Rattle.h5_base.specs.declared.refusal.Refusal.TheVariants.{Malformed};
ghost use Rattle.file_model.specs.RefusedChunks.{AreOffsetsRefused, IsInPlace};
ghost use Rattle.storage_reader.specs.Ends.{AreEnds, AreSpanned, HaveEnds};
ghost use Rattle.storage_reader.specs.Nodes.{AreChildren, child_at};
ghost use Rattle.storage_reader.specs.declared.form.Form.{Form};

use crate::child::Child;
use dtype::Dims;
use h5_base::NoMemory;
use node_codec::ChunkNode;
use std::alloc::Global;
use std::cmp::Ordering;

/// The first and the last offset of the chunks under a node, of which there are some.
#[derive(Debug, Drop)]
pub(crate) struct Ends {
    pub(crate) first: Dims,
    pub(crate) last: Dims,
}

// Whether one offset comes before another, by the first number in which they differ.
pub(crate) fn comes_before(a: &Dims, b: &Dims) -> bool
    ensures { result ≡ comes_before a.now b.now }
{
    a.as_slice().cmp(b.as_slice()) == Ordering::Less
}

// The ends of the chunks of a node of level 0.
pub(crate) fn ends_of(alloc: Global, node: &ChunkNode) -> Result<Option<Ends>, NoMemory>
    requires more { length node.now.keys ≡ length node.now.children + 1 }
    ensures { IfOk result (λ x. (b : Array) (f : Form) (cs : List Chunk) (bs : List Block)
        → AreChildren (child_at b f 0) true node.now.keys node.now.children cs bs → HaveEnds x cs) }
{
    let keys = node.keys.as_slice();
    let count = node.children.len();
    if count == 0 {
        return Ok(None);
    }
    Ok(Some(Ends {
        first: Dims::from_slice(alloc, keys[0].offset.as_slice())?,
        last: Dims::from_slice(alloc, keys[count - 1].offset.as_slice())?,
    }))
}

// The ends of two lists of chunks together.
pub(crate) fn join(before: Option<Ends>, here: Option<Ends>) -> Option<Ends>
    ensures { (done cs : List Chunk) → HaveEnds before done → HaveEnds here cs → HaveEnds result (done ++ cs) }
{
    match (before, here) {
        (None, here) => here,
        (before, None) => before,
        (Some(before), Some(here)) => Some(Ends {
            first: before.first,
            last: here.last,
        }),
    }
}

// Whether the key before a child is at most each offset under it, or is free.
fn is_from(is_first: bool, low: &Dims, ends: &Ends) -> bool
    ensures { (cs : List Chunk) → AreEnds ends.now.first ends.now.last cs → AreAscending cs
        → (IsTrue result ↔ IsFrom is_first low.now cs) }
{
    is_first || !comes_before(&ends.first, low)
}

// Whether the key behind child i is above each offset under it, or is free, as it is behind the last child.
fn is_below(node: &ChunkNode, i: usize, high: &Dims, ends: &Ends) -> bool
    requires { i < length node.now.children }
    ensures { (cs : List Chunk) → AreEnds ends.now.first ends.now.last cs → AreAscending cs
        → (IsTrue result ↔ IsBelow (drop (i + 1) node.now.children) high.now cs) }
{
    let count = node.children.len();
    i + 1 == count || comes_before(&ends.last, high)
}

// Whether the offsets under a child follow those before them.
fn follows(before: &Option<Ends>, ends: &Ends) -> bool
    ensures { (done cs : List Chunk) → AreSpanned before.now done → AreEnds ends.now.first ends.now.last cs
        → AreAscending cs → (IsTrue result ↔ AreAscending (done ++ cs)) }
{
    match before {
        None => true,
        Some(before) => comes_before(&before.last, &ends.first),
    }
}

// Whether the offsets under child i of a node stand between the keys on both sides of it and behind the offsets before
// them.
pub(crate) fn is_in_place(
    node: &ChunkNode,
    i: usize,
    child: Child,
    before: &Option<Ends>,
    here: &Option<Ends>,
) -> bool
    requires { i < length node.now.children }
    ensures yes { IsTrue result → (done cs : List Chunk) → AreSpanned before.now done → AreSpanned here.now cs
        → IsInPlace (i == 0) child.entry.low.now.offset child.entry.high.now.offset (drop (i + 1) node.now.children)
        done cs }
    ensures no { result ≡ false → (done cs : List Chunk) → AreSpanned before.now done → AreSpanned here.now cs
        → (at : ℕ) → AreOffsetsRefused at (i == 0) child.entry.low.now.offset child.entry.high.now.offset
        (drop (i + 1) node.now.children) done cs (Malformed at Tree) }
{
    let Some(ends) = here else {
        return true;
    };
    if !is_from(i == 0, &child.low.offset, ends) {
        return false;
    }
    if !is_below(node, i, &child.high.offset, ends) {
        return false;
    }
    follows(before, ends)
}
