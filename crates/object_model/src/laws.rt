//! Laws that show that the tree and the step of a command are what they should be. Each function does nothing: its
//! clause is the law.

ghost use Rattle.object_model.specs.Examples.{Groups, Boxes, Growth, Refusals};
ghost use Rattle.object_model.specs.Laws.{TestsValues, ReadsWritten, KeepsOthers, KeepsElements, FillsNew, KeepsOrder};
ghost use Rattle.object_model.specs.Laws.{ListsNewGroup, FindsInserted, FindsOthers, AnswersWritten};

/// The step's test of what a type can hold is right.
pub fn tests_values()
    ensures { TestsValues }
{}

/// What was written to a box is read there.
pub fn reads_written()
    ensures { ReadsWritten }
{}

/// A write leaves all other elements.
pub fn keeps_others()
    ensures { KeepsOthers }
{}

/// Where sizes grow, each element stays at its index.
pub fn keeps_elements()
    ensures { KeepsElements }
{}

/// Where sizes grow, new elements are the fill.
pub fn fills_new()
    ensures { FillsNew }
{}

/// The names of each group stay in order, whatever the command.
pub fn keeps_order()
    ensures { KeepsOrder }
{}

/// After `mkgroup`, `ls` lists one name more, at its place.
pub fn lists_new_group()
    ensures { ListsNewGroup }
{}

/// A new name leads to what was linked.
pub fn finds_inserted()
    ensures { FindsInserted }
{}

/// Each other name leads to what it led to.
pub fn finds_others()
    ensures { FindsOthers }
{}

/// A done `write` is what a `read` of its box answers.
pub fn answers_written()
    ensures { AnswersWritten }
{}

/// Worked scripts, line by line.
pub fn examples()
    ensures groups { Groups }
    ensures boxes { Boxes }
    ensures growth { Growth }
    ensures refusals { Refusals }
{}
