//! Laws of the tree that the program keeps, and of the commands that are given. Each function does nothing: its clause
//! is the law.

ghost use Rattle.tree_answers.specs.Laws.{Held, OpenedIs, SoundIs, PlacesAre, PlacesOf, OnlyLooks};

/// The bytes of an opened file hold a tree of objects, which is the one that is kept.
pub fn held()
    ensures { Held }
{}

/// Each tree that the bytes of an opened file hold is the one that is kept.
pub fn opened_is()
    ensures { OpenedIs }
{}

/// A sound tree is some tree of objects, also over a space that tells nothing.
pub fn sound_is()
    ensures { SoundIs }
{}

/// What is kept is a tree of objects just where it is a tree of places that is this tree without them.
pub fn places_are()
    ensures are { PlacesAre }
    ensures of { PlacesOf }
{}

/// A given command leaves the tree as it is.
pub fn only_looks()
    ensures { OnlyLooks }
{}
