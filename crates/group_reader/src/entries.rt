ghost use Rattle.std.specs.Prelude.{◌≡◌, ◌+◌, ◌≤◌, ◌++◌, ◌∷◌, ◌↔◌, [], IsTrue, All, IfOk, IfErr, IfSome, OnOk, IsErrOf};
ghost use Rattle.std.specs.Prelude.{length, drop};
ghost use Rattle.h5_base.specs.Refusals.{refusal_of};
ghost use Rattle.h5_base.specs.declared.refusal.Refusal.TheVariants.{Malformed};
ghost use Rattle.node_codec.specs.Snod.{IsCache, soft_value_at};
ghost use Rattle.object_model.specs.Tree.{AreOrdered};
ghost use Rattle.file_model.specs.Groups.{IsTarget, AreLinks};
ghost use Rattle.file_model.specs.Limits.{target_bytes};
ghost use Rattle.file_model.specs.RefusedGroups.{names_of, HasNoText, IsEntryRefused, AreEntriesRefused};
ghost use Rattle.group_reader.specs.Links.{target_of, links_of, IsTold, Adds};

use crate::budget::TextBudget;
use crate::gathered::Gathered;
use crate::link::{FoundLink, LinkTarget};
use crate::names::comes_before;
use crate::table::Table;
use crate::text::text_at;
use h5_base::{BlockKind, Bytes, LinkName, Stop};
use node_codec::SnodEntry;
use std::alloc::Global;

/// A copy of a text, which is taken from the budget before.
fn keep_text(alloc: Global, text: &[u8], texts: &mut TextBudget) -> Result<Bytes, Stop>
    ensures copied { IfOk result (λ kept. kept ≡ text.now) }
    ensures spent { OnOk result (length text.now + texts.new.left ≡ texts.old.left) }
    ensures memory { IfErr result (λ stop. stop ≡ Stop.NoMemory) }
{
    texts.take(text.len())?;
    Ok(Bytes::from_slice(alloc, text)?)
}

/// What an entry leads to.
fn read_target(
    alloc: Global,
    table: &Table<'_>,
    entry: &SnodEntry,
    texts: &mut TextBudget,
) -> Result<LinkTarget, Stop>
    requires { IsCache entry.now }
    ensures found { IfOk result (λ target. IsTarget table.now.segment.now entry.now (target_of target)) }
    ensures spent { IfOk result (λ target. target_bytes (target_of target) + texts.new.left ≡ texts.old.left) }
    ensures refused { IfErr result (λ stop. IfSome (refusal_of stop)
        (λ r. (entry.now.cache ≡ 2) × HasNoText table.now.segment.now (soft_value_at entry.now)
        × (r ≡ Malformed table.now.heap_at BlockKind.Heap))) }
    ensures no_fault { ¬ IsErrOf result Stop.Failed }
{
    if entry.cache < 2 {
        return Ok(LinkTarget::Object {
            header_at: entry.header_at,
        });
    }
    let Some(text) = text_at(table.segment, entry.soft_value_at() as u64) else {
        return Err(Stop::malformed(table.heap_at, BlockKind::Heap));
    };
    let text = keep_text(alloc, text, texts)?;
    Ok(LinkTarget::Soft { text })
}

/// Whether the name comes after the last link's.
fn comes_last(links: &[FoundLink], name: &[u8]) -> bool
    ensures { AreOrdered (names_of (links_of links.now))
        → IsTrue result ↔ AreOrdered (names_of (links_of links.now) ++ name.now ∷ []) }
{
    match links.last() {
        Some(last) => comes_before(last.name.as_slice(), name),
        None => true,
    }
}

/// Keeps the link that an entry of the symbol table node at `node_at` tells; the links from `begin` on are those that
/// the entries before it tell. Of the entry the name is read first, then its order is judged, then a soft link's value
/// is read, and nothing is copied before.
fn push_entry(
    alloc: Global,
    table: &Table<'_>,
    node_at: u64,
    entry: &SnodEntry,
    begin: usize,
    gathered: &mut Gathered,
) -> Result<(), Stop>
    requires cache { IsCache entry.now }
    requires begun { begin ≤ length gathered.old.links.items }
    requires ordered { AreOrdered (names_of (links_of (drop begin gathered.old.links.items))) }
    ensures adds { OnOk result (Adds gathered.old gathered.new
        (IsTold table.now.segment.now (links_of (drop begin gathered.old.links.items)) entry.now)) }
    ensures refused { IfErr result (λ stop. IfSome (refusal_of stop)
        (IsEntryRefused table.now.segment.now table.now.heap_at node_at
        (links_of (drop begin gathered.old.links.items)) entry.now)) }
    ensures no_fault { ¬ IsErrOf result Stop.Failed }
{
    let Some(name) = text_at(table.segment, entry.name_at) else {
        return Err(Stop::malformed(table.heap_at, BlockKind::Heap));
    };
    if !comes_last(&gathered.links[begin..], name) {
        return Err(Stop::malformed(node_at, BlockKind::Snod));
    }
    let target = read_target(alloc, table, entry, &mut gathered.texts)?;
    let name = LinkName::from_bytes(keep_text(alloc, name, &mut gathered.texts)?);
    gathered.links.push(FoundLink { name, target })?;
    Ok(())
}

/// Keeps the links that the entries of the symbol table node at `node_at` tell.
pub(crate) fn push_entries(
    alloc: Global,
    table: &Table<'_>,
    node_at: u64,
    entries: &[SnodEntry],
    gathered: &mut Gathered,
) -> Result<(), Stop>
    requires { All IsCache entries.now }
    ensures adds { OnOk result (Adds gathered.old gathered.new (AreLinks table.now.segment.now entries.now)) }
    ensures refused { IfErr result (λ stop. IfSome (refusal_of stop)
        (AreEntriesRefused table.now.segment.now table.now.heap_at node_at entries.now)) }
    ensures no_fault { ¬ IsErrOf result Stop.Failed }
{
    let begin = gathered.links.len();
    for entry in entries {
        push_entry(alloc, table, node_at, entry, begin, gathered)?;
    }
    Ok(())
}
