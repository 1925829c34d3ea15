//! Laws of one link more and one fewer. Each function does nothing: its clause is the law.

ghost use Rattle.tree_places.specs.Held.{AddHeld, RemoveHeld};
ghost use Rattle.tree_places.specs.Laws.{AddIs, AddStep, RemoveStep, AddThere, RemoveThere, MatchesWalk};
ghost use Rattle.tree_places.specs.Laws.{MatchesToAdd, MatchesToRemove, MatchesEdit, MatchesAdd, MatchesRemove};
ghost use Rattle.tree_places.specs.Laws.{OpenedPlaces, SameStays, PlacesCount, AddLimits, RemoveLimits};
ghost use Rattle.tree_places.specs.Laws.{RootStays, InsertedLinks, RemovedLinks, NewGroupPlace, ShortStays};
ghost use Rattle.tree_places.specs.Laws.{FitsFrame, FitsEdit, FitLinks};

/// What a new link, `mkgroup` and `rm` come to is told by the tree of places: the first refusal, or the new tree.
pub fn steps()
    ensures adds { AddIs }
    ensures mkgroup { AddStep }
    ensures rm { RemoveStep }
{}

/// One link more or fewer is another group at the path's parent, and the root stays a group.
pub fn there()
    ensures adds { AddThere }
    ensures removes { RemoveThere }
    ensures root { RootStays }
{}

/// Where the path's parent has one link more or fewer in the file, and all beside it stays, the file holds the tree
/// with one place more or fewer.
pub fn held()
    ensures adds { AddHeld }
    ensures removes { RemoveHeld }
{}

/// The links that a group has after an edit of its bytes are those with the name at its place, and those without it.
pub fn edited_links()
    ensures inserted { InsertedLinks }
    ensures removed { RemovedLinks }
{}

/// In a tree with keys and a tree of places that match, the same is found.
pub fn matches_found()
    ensures walk { MatchesWalk }
    ensures to_add { MatchesToAdd }
    ensures to_remove { MatchesToRemove }
{}

/// They match after an edit, with one link more, and with one fewer.
pub fn matches_edited()
    ensures edit { MatchesEdit }
    ensures adds { MatchesAdd }
    ensures removes { MatchesRemove }
{}

/// The tree of an opened file is kept, and a new group's place is that of its node.
pub fn opened_places()
    ensures opened { OpenedPlaces }
    ensures group { NewGroupPlace }
{}

/// What was so of a tree is so of one in which all is kept.
pub fn same_stays()
    ensures { SameStays }
{}

/// How many objects the tree of places has, and how deep they lie, with one link more and one fewer; the tree that is
/// kept counts the same.
pub fn counts()
    ensures kept { PlacesCount }
    ensures adds { AddLimits }
    ensures removes { RemoveLimits }
{}

/// Headers and heaps stay within their limits where the bytes of their blocks stay: of one object with all below it, of
/// a tree with another object at the end of a path, and of links with one more and one fewer.
pub fn fits()
    ensures short { ShortStays }
    ensures frame { FitsFrame }
    ensures edit { FitsEdit }
    ensures links { FitLinks }
{}
