//! Laws of the tree that an object tree shows. Each function does nothing: its clause is the law.

ghost use Rattle.tree_nodes.specs.Laws.{OneTree, EntryShown, KeptFrame, HasShown, LacksShown, LooseShown, DatasetShown};

/// An object tree shows at most one tree.
pub fn one_tree()
    ensures { OneTree }
{}

/// What a path leads to is kept under its key.
pub fn entry_shown()
    ensures { EntryShown }
{}

/// What is kept of a tree depends on what stands under its own keys alone.
pub fn kept_frame()
    ensures { KeptFrame }
{}

/// What a path leads to is in the tree.
pub fn has_shown()
    ensures { HasShown }
{}

/// Where a path leads to a group without a name, `insert` may be asked for it.
pub fn lacks_shown()
    ensures { LacksShown }
{}

/// Where a path leads to a group with a name behind which no links are, `remove` may be asked for it.
pub fn loose_shown()
    ensures { LooseShown }
{}

/// Where a path leads to a dataset, it may be set.
pub fn dataset_shown()
    ensures { DatasetShown }
{}
