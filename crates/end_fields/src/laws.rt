//! Laws of the end field. Each function does nothing: its clauses are the laws.

ghost use Rattle.end_fields.specs.Laws.{BlocksStay, CommitPlan, EndHeld, FieldBeside, FieldCloses, FieldInSuper};
ghost use Rattle.end_fields.specs.Laws.{FieldsTold, FlushDoes, FlushIsDone, FlushIsOver, FlushPlan, LimitsStay, OneEnd};

/// There is one end to tell.
pub fn one_end()
    ensures { OneEnd }
{}

/// The end field lies in the block of the superblock, and all other blocks stay where it changes.
pub fn field_in_super()
    ensures inside { FieldInSuper }
    ensures beside { FieldBeside }
{}

/// Once the field tells the end, the same tree is held, and the end fields are right.
pub fn end_held()
    ensures held { EndHeld }
    ensures told { FieldsTold }
{}

/// Whatever the field tells, the blocks of the tree are the same, and it stays within the limits.
pub fn blocks_stay()
    ensures blocks { BlocksStay }
    ensures limits { LimitsStay }
{}

/// A flush has a plan that puts the field right and nothing else, and so has a commit behind writes.
pub fn end_plans()
    ensures flush { FlushPlan }
    ensures commit { CommitPlan }
{}

/// So the line of a script that flushes is answered: it is done where there is room for the pages.
pub fn flush_line()
    ensures done { FlushIsDone }
    ensures over { FlushIsOver }
{}

/// To put the field right does what a flush does, and what the end of a run does that edited a file.
pub fn end_put()
    ensures flush { FlushDoes }
    ensures close { FieldCloses }
{}
