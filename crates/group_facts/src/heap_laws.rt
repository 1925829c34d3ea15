//! Laws of a group's heap. Each function does nothing: its clause is the law.

ghost use Rattle.group_facts.specs.Heap.{LinksHaveTexts, LinksStay, NonemptyNames, TextStays, UsedTexts, UsedWithName};

/// Texts stand in each segment with the same used bytes.
pub fn texts_stay()
    ensures text { TextStays }
    ensures links { LinksStay }
{}

/// What entries and an index use of a heap are texts.
pub fn texts_used()
    ensures links { LinksHaveTexts }
    ensures index { UsedTexts }
{}

/// One more name behind the used bytes tells how far they go then.
pub fn used_with_name()
    ensures { UsedWithName }
{}

/// No link has the empty name.
pub fn nonempty_names()
    ensures { NonemptyNames }
{}
