ghost use Rattle.std.specs.Prelude.{◌≡◌, ◌⊎◌, ◌+◌, ◌^◌, ◌≤◌, [], length, IsTrue, IfOk, OnOk, IsErrOf};
ghost use Rattle.object_model.specs.Step.{Plain};
ghost use Rattle.object_tree.specs.Sound.{IsSoundTree};
ghost use Rattle.outside.specs.Causes.{Rose};
ghost use Rattle.script_run.specs.Run.{IsAnswered, IsStopped, IsInPart};
ghost use Rattle.tree_answers.specs.Shown.{IsTreeOf};

use crate::line::answer_line;
use crate::stop::{Ended, ScriptStop};
use outside::{Sink, Source};
use script_lines::{LineReader, NextLine, ReadStop};
use std::alloc::Global;
use tree_nodes::ObjectTree;

/// Answers a script line by line, over a tree, and prints each answer with an LF. A line whose LF was read is answered
/// before more of the script is asked for.
pub fn answer_script<I: Source, O: Sink>(
    alloc: Global,
    tree: &ObjectTree,
    input: &mut I,
    out: &mut O,
) -> Result<Ended, ScriptStop>
    // Each node can be shown, as it is of each tree that `open_tree` answers, whatever the space tells.
    requires { IsSoundTree tree.now }
    ensures answered { IsTrue I.tells → IfOk result (λ ended. (t : Plain) → IsTreeOf tree.now t
        → IsAnswered O.tells t (I.left input.old) ended (O.written out.old) (O.written out.new)) }
    ensures read { IsTrue I.tells → OnOk result (I.left input.new ≡ []) }
    // The lines whose LF was read are answered.
    ensures stopped { IsTrue I.tells → (IsErrOf result ScriptStop.Input ⊎ IsErrOf result ScriptStop.Limit) → (t : Plain)
        → IsTreeOf tree.now t
        → IsStopped O.tells t (I.left input.old) (I.left input.new) (O.written out.old) (O.written out.new) }
    ensures in_part { IsTrue I.tells → (IsErrOf result ScriptStop.Output ⊎ IsErrOf result ScriptStop.Memory)
        → (t : Plain) → IsTreeOf tree.now t
        → IsInPart O.tells t (I.left input.old) (O.written out.old) (O.written out.new) }
    ensures input { IsErrOf result ScriptStop.Input → Rose (I.faults input.old) (I.faults input.new) }
    ensures output { IsErrOf result ScriptStop.Output → Rose (O.faults out.old) (O.faults out.new) }
    // No fault is passed over.
    ensures input_calm { ¬ IsErrOf result ScriptStop.Input → I.faults input.new ≡ I.faults input.old }
    ensures output_calm { ¬ IsErrOf result ScriptStop.Output → O.faults out.new ≡ O.faults out.old }
    ensures limit { IsTrue I.tells → IsErrOf result ScriptStop.Limit
        → length (I.left input.old) ≡ 2 ^ 32 + length (I.left input.new) }
    ensures input_later { I.faults input.old ≤ I.faults input.new }
    ensures output_later { O.faults out.old ≤ O.faults out.new }
{
    let Ok(mut reader) = LineReader::new(alloc) else {
        return Err(ScriptStop::Memory);
    };
    let mut ended = Ended::AllDone;
    loop {
        let next = match reader.next(input) {
            Ok(next) => next,
            Err(ReadStop::Failed) => return Err(ScriptStop::Input),
            Err(ReadStop::Limit) => return Err(ScriptStop::Limit),
        };
        match next {
            NextLine::Line => ended = answer_line(alloc, tree, reader.line(), out, ended)?,
            NextLine::Last => return answer_line(alloc, tree, reader.line(), out, ended),
            NextLine::End => return Ok(ended),
        }
    }
}
