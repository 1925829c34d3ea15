//! Laws of rows of nodes. Each function does nothing: its clause is the law.

ghost use Rattle.group_layout.specs.Laws.{LeavesInOrder, LeavesKept, RowAbove, RowsAbove, KeptAbove, RowsBlocks};
ghost use Rattle.group_layout.specs.Laws.{GroupLaid};
ghost use Rattle.group_layout.specs.Nodes.{NodesSuffice};
ghost use Rattle.group_layout.specs.Growth.{WiderFits, FewMore, NoneMore};

/// Symbol table nodes that are filled with links in order are a row in order, with these links.
pub fn leaves_in_order()
    ensures order { LeavesInOrder }
    ensures kept { LeavesKept }
{}

/// Rows that are laid over a row in order are in order, and have the same links.
pub fn rows_in_order()
    ensures one { RowAbove }
    ensures all { RowsAbove }
{}

/// Rows that are laid over a well kept row are well kept.
pub fn rows_kept()
    ensures { KeptAbove }
{}

/// Their blocks are those of the nodes at hand.
pub fn rows_blocks()
    ensures { RowsBlocks }
{}

/// Links that are laid over the nodes at hand are a group's, by an index in order.
pub fn group_laid()
    ensures { GroupLaid }
{}

/// Rows that grow for one more below them have room, by few nodes, and by none where each had room.
pub fn rows_grow()
    ensures fits { WiderFits }
    ensures few { FewMore }
    ensures none { NoneMore }
{}

/// The nodes of rows are told by the addresses of each row and its keys.
pub fn nodes_suffice()
    ensures { NodesSuffice }
{}
