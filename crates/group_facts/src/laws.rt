//! Each function does nothing: its clause is the law.

ghost use Rattle.group_facts.specs.Grown.{FewLevels};
ghost use Rattle.group_facts.specs.Places.{InARow, NothingAhead, OneAhead, TakenBehind};
ghost use Rattle.group_facts.specs.Rows.{LeavesHaveSpare, NothingBelow, RootsChildren, RowsAreBlocks, RowsHaveRoom};
ghost use Rattle.group_facts.specs.Rows.{RowsHaveSpare};

/// The rows of an index tell its blocks, and the room of its nodes.
pub fn rows_of_index()
    ensures blocks { RowsAreBlocks }
    ensures room { RowsHaveRoom }
{}

/// Where no node is full or empty, there is room for one more.
pub fn rows_spare()
    ensures rows { RowsHaveSpare }
    ensures leaves { LeavesHaveSpare }
{}

/// The uppermost row is that of the root's children.
pub fn root_row()
    ensures children { RootsChildren }
    ensures nothing { NothingBelow }
{}

/// Blocks are taken one behind the other, the first at the end of its region where nothing is ahead.
pub fn taken_places()
    ensures one { OneAhead }
    ensures row { InARow }
    ensures behind { TakenBehind }
    ensures nothing { NothingAhead }
{}

/// Few levels are enough.
pub fn few_levels()
    ensures { FewLevels }
{}
