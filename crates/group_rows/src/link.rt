ghost use Rattle.std.specs.Prelude.{◌∷◌, [], ℕ, List, All, IfOk, IfErr, IsErrOf};
ghost use Rattle.block_space.specs.declared.plan.PlanStop.TheVariants.{Failed};
ghost use Rattle.node_codec.specs.Snod.{IsCache};
ghost use Rattle.file_model.specs.Groups.{Found, Target, HasText, AreLinks, IsTarget};
ghost use Rattle.group_reader.specs.Links.{found_of, links_of, target_of};
ghost use Rattle.group_rows.specs.Gathering.{IsMalformed};

use crate::gathered::keep;
use block_space::PlanStop;
use group_heap::Heap;
use group_reader::{FoundLink, LinkTarget, text_at};
use h5_base::{BlockKind, Bytes, LinkName};
use node_codec::SnodEntry;
use std::alloc::Global;

/// A copy of the text at an offset of a heap's segment (III.D).
fn copy_text(alloc: Global, heap: &Heap, at: u64) -> Result<Bytes, PlanStop>
    ensures found { IfOk result (HasText heap.now.segment.items at) }
    ensures whole { (text : List ℕ) → HasText heap.now.segment.items at text
        → IfErr result (λ stop. ¬ IsMalformed stop) }
    ensures no_fault { ¬ IsErrOf result Failed }
{
    let Some(text) = text_at(&heap.segment, at) else {
        return Err(PlanStop::Malformed {
            at: heap.at,
            kind: BlockKind::Heap,
        });
    };
    match Bytes::from_slice(alloc, text) {
        Ok(copy) => Ok(copy),
        Err(_) => Err(PlanStop::NoMemory),
    }
}

/// What an entry leads to (III.C).
fn read_target(alloc: Global, heap: &Heap, entry: &SnodEntry) -> Result<LinkTarget, PlanStop>
    requires { IsCache entry.now }
    ensures found { IfOk result (λ target. IsTarget heap.now.segment.items entry.now (target_of target)) }
    ensures whole { (t : Target) → IsTarget heap.now.segment.items entry.now t
        → IfErr result (λ stop. ¬ IsMalformed stop) }
    ensures no_fault { ¬ IsErrOf result Failed }
{
    if entry.cache < 2 {
        return Ok(LinkTarget::Object {
            header_at: entry.header_at,
        });
    }
    let text = copy_text(alloc, heap, entry.soft_value_at() as u64)?;
    Ok(LinkTarget::Soft { text })
}

/// The link that an entry tells.
fn read_link(alloc: Global, heap: &Heap, entry: &SnodEntry) -> Result<FoundLink, PlanStop>
    requires { IsCache entry.now }
    ensures found { IfOk result
        (λ link. AreLinks heap.now.segment.items (entry.now ∷ []) (found_of link ∷ [])) }
    ensures whole { (f : Found) → AreLinks heap.now.segment.items (entry.now ∷ []) (f ∷ [])
        → IfErr result (λ stop. ¬ IsMalformed stop) }
    ensures no_fault { ¬ IsErrOf result Failed }
{
    let name = LinkName::from_bytes(copy_text(alloc, heap, entry.name_at)?);
    let target = read_target(alloc, heap, entry)?;
    Ok(FoundLink { name, target })
}

/// The links that entries tell, in their order.
pub(crate) fn read_entries(
    alloc: Global,
    heap: &Heap,
    entries: &[SnodEntry],
) -> Result<Vec<FoundLink>, PlanStop>
    requires { All IsCache entries.now }
    ensures found { IfOk result (λ links. AreLinks heap.now.segment.items entries.now (links_of links.items)) }
    ensures whole { (fs : List Found) → AreLinks heap.now.segment.items entries.now fs
        → IfErr result (λ stop. ¬ IsMalformed stop) }
    ensures no_fault { ¬ IsErrOf result Failed }
{
    let mut links = Vec::new(alloc);
    for entry in entries {
        let link = read_link(alloc, heap, entry)?;
        keep(&mut links, link)?;
    }
    Ok(links)
}
