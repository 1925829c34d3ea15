//! Laws of what the run of a script prints. Each function does nothing: its clause is the law.

ghost use Rattle.script_run.specs.Laws.{AnsweredInPart, StoppedInPart};

/// All answers of a script are some first part of them.
pub fn answered_in_part()
    ensures { AnsweredInPart }
{}

/// The answers to the lines whose LF was taken are some first part of a script's answers.
pub fn stopped_in_part()
    ensures { StoppedInPart }
{}
