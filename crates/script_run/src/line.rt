ghost use Rattle.std.specs.Prelude.{◌≡◌, ◌≢◌, ◌≤◌, ◌++◌, ◌∷◌, [], Option, IsTrue, IfOk, OnOk, OnErr, IsErrOf};
ghost use Rattle.std.specs.Prelude.{if◌then◌else◌};
ghost use Rattle.object_model.specs.declared.command.Command.{Command};
ghost use Rattle.object_model.specs.Step.{Plain};
ghost use Rattle.object_tree.specs.Sound.{IsSoundTree};
ghost use Rattle.outside.specs.Causes.{Rose};
ghost use Rattle.script_lines.specs.Written.{WrittenInPart};
ghost use Rattle.script.specs.Print.{HasText, answer_text, text};
ghost use Rattle.script.specs.Script.{Means};
ghost use Rattle.script_run.specs.Run.{IsLineAnswered, IsLineCut, after};
ghost use Rattle.tree_answers.specs.Answers.{answer_to, is_done};
ghost use Rattle.tree_answers.specs.Shown.{IsTreeOf};

use crate::stop::{Ended, ScriptStop};
use h5_base::NoMemory;
use outside::Sink;
use script::{Answer, Code, LineStop, print_answer, read_line};
use script_lines::print;
use std::alloc::Global;
use tree_answers::answer;
use tree_nodes::ObjectTree;

/// What a line is answered, without its LF.
fn answer_of(alloc: Global, tree: &ObjectTree, line: &[u8]) -> Result<Answer, NoMemory>
    requires { IsSoundTree tree.now }
    ensures answered { IfOk result (λ a. (c : Option Command) × Means line.now c
        × ((t : Plain) → IsTreeOf tree.now t → a ≡ answer_to t c)) }
    ensures text { IfOk result HasText }
{
    match read_line(alloc, line) {
        Ok(command) => answer(alloc, tree, &command),
        Err(LineStop::BadLine) => Ok(Answer::No {
            code: Code::BadLine,
        }),
        Err(LineStop::NoMemory) => Err(NoMemory),
    }
}

/// The text of an answer, with an LF.
fn line_text(alloc: Global, answer: &Answer) -> Result<Vec<u8>, NoMemory>
    requires { HasText answer.now }
    ensures { IfOk result (λ v. v.items ≡ text (answer.now ∷ [])) }
{
    let mut text = print_answer(alloc, answer)?.into_vec();
    if text.push(b'\n').is_err() {
        return Err(NoMemory);
    }
    Ok(text)
}

/// Whether an answer says that the line was done.
fn is_done(answer: &Answer) -> bool
    ensures { result ≡ is_done answer.now }
{
    !matches!(answer, Answer::No { .. } | Answer::Full { .. })
}

/// What is printed for a line, with an LF, and whether the line was done.
#[derive(Drop)]
struct Reply {
    text: Vec<u8>,
    done: bool,
}

fn reply_to(alloc: Global, tree: &ObjectTree, line: &[u8]) -> Result<Reply, NoMemory>
    requires { IsSoundTree tree.now }
    ensures { IfOk result (λ r. (c : Option Command) × Means line.now c × ((t : Plain) → IsTreeOf tree.now t
        → (r.text.items ≡ text (answer_to t c ∷ [])) × (r.done ≡ is_done (answer_to t c)))) }
{
    let answer = answer_of(alloc, tree, line)?;
    Ok(Reply {
        text: line_text(alloc, &answer)?,
        done: is_done(&answer),
    })
}

/// What came of the lines so far, and of one more.
fn after(ended: Ended, done: bool) -> Ended
    ensures { result ≡ after ended done }
{
    if done { ended } else { Ended::SomeNot }
}

/// Answers a line, and prints its answer: what came of all lines so far.
pub(crate) fn answer_line<O: Sink>(
    alloc: Global,
    tree: &ObjectTree,
    line: &[u8],
    out: &mut O,
    ended: Ended,
) -> Result<Ended, ScriptStop>
    requires { IsSoundTree tree.now }
    ensures answered { (t : Plain) → IsTreeOf tree.now t
        → IfOk result (λ now. IsLineAnswered O.tells t line.now ended now (O.written out.old) (O.written out.new)) }
    ensures cut { (t : Plain) → IsTreeOf tree.now t → IsErrOf result ScriptStop.Output
        → IsLineCut O.tells t line.now (O.written out.old) (O.written out.new) }
    ensures same { IsTrue O.tells → IsErrOf result ScriptStop.Memory → O.written out.new ≡ O.written out.old }
    ensures no_input { IsErrOf result ScriptStop.Input → ⊥ }
    ensures no_limit { IsErrOf result ScriptStop.Limit → ⊥ }
    ensures output { IsErrOf result ScriptStop.Output → Rose (O.faults out.old) (O.faults out.new) }
    ensures calm { ¬ IsErrOf result ScriptStop.Output → O.faults out.new ≡ O.faults out.old }
    ensures later { O.faults out.old ≤ O.faults out.new }
{
    let Ok(reply) = reply_to(alloc, tree, line) else {
        return Err(ScriptStop::Memory);
    };
    if print(out, reply.text.as_slice()).is_err() {
        return Err(ScriptStop::Output);
    }
    Ok(after(ended, reply.done))
}
