//! Laws of entries and links with one more and one fewer. Each function does nothing: its clause is the law.

ghost use Rattle.entry_list.specs.Laws.{LinksInsert, LinksRemove, OrderInsert, OrderRemove, OneMore, OneFewer};
ghost use Rattle.entry_list.specs.Laws.{NameFound, NameLacking, OffsetsInsert, OffsetsRemove};

/// Entries with one more tell the links with its link at the same place.
pub fn links_insert()
    ensures { LinksInsert }
{}

/// Entries without one tell the links without the one at its place.
pub fn links_remove()
    ensures { LinksRemove }
{}

/// Names ascend with a new one at its place.
pub fn order_insert()
    ensures { OrderInsert }
{}

/// Names ascend with one fewer.
pub fn order_remove()
    ensures { OrderRemove }
{}

/// A link that is put in is one more.
pub fn one_more()
    ensures { OneMore }
{}

/// The links are one more than those without the one that is taken out.
pub fn one_fewer()
    ensures { OneFewer }
{}

/// A name that one of the links has is that of the link at the name's place.
pub fn name_found()
    ensures { NameFound }
{}

/// No link has a name that the link at its place, if there is one, hasn't.
pub fn name_lacking()
    ensures { NameLacking }
{}

/// With an entry more, an offset in use is one of its own, or was in use.
pub fn offsets_insert()
    ensures { OffsetsInsert }
{}

/// Without an entry, an offset in use was in use.
pub fn offsets_remove()
    ensures { OffsetsRemove }
{}
