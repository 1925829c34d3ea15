ghost use Rattle.std.specs.Prelude.{◌≡◌, ◌↔◌, ◌≤◌, ℕ, IsTrue, List, length, map};
ghost use Rattle.object_model.specs.Tree.{name_lt, AreOrdered};
ghost use Rattle.file_model.specs.Groups.{Found, HasText, AreLinks};
ghost use Rattle.entry_list.specs.Places.{HasName, IsNamedAt, IsPlace};

use group_reader::{text_at, text_before};
use node_codec::SnodEntry;

/// Whether the text at an offset of a heap's segment comes before a name; false where the offset isn't within the
/// segment.
fn comes_before(segment: &[u8], at: u64, name: &[u8]) -> bool
    ensures { (text : List ℕ) → HasText segment.now at text → result ≡ name_lt text name.now }
{
    at <= segment.len() as u64 && text_before(segment, at, name)
}

/// How many of the entries, which ascend by their names, have a name that comes before this one. By halving: the names
/// are read where they stand in the heap's segment. It takes no memory.
pub fn place_of(segment: &[u8], entries: &[SnodEntry], name: &[u8]) -> usize
    ensures within { result ≤ length entries.now }
    ensures place { (fs : List Found) → AreLinks segment.now entries.now fs → AreOrdered (map (λ f. f.name) fs)
        → IsPlace fs name.now result }
{
    let mut low = 0;
    let mut high = entries.len();
    while low < high {
        let middle = low + (high - low) / 2;
        if comes_before(segment, entries[middle].name_at, name) {
            low = middle + 1;
        } else {
            high = middle;
        }
    }
    low
}

/// Whether this name stands at an offset of a heap's segment.
fn has_text(segment: &[u8], at: u64, name: &[u8]) -> bool
    ensures { IsTrue result ↔ HasText segment.now at name.now }
{
    match text_at(segment, at) {
        Some(text) => text == name,
        None => false,
    }
}

/// Whether the entry at a place has this name; not where there is none. It takes no memory.
pub fn is_named(segment: &[u8], entries: &[SnodEntry], place: usize, name: &[u8]) -> bool
    ensures named { IsTrue result ↔ IsNamedAt segment.now entries.now place name.now }
    ensures has { (fs : List Found) → AreLinks segment.now entries.now fs → AreOrdered (map (λ f. f.name) fs)
        → IsPlace fs name.now place → (IsTrue result ↔ HasName fs name.now) }
{
    place < entries.len() && has_text(segment, entries[place].name_at, name)
}
