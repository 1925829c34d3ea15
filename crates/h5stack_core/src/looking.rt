ghost use Rattle.std.specs.Prelude.{◌≡◌, ◌⊎◌, ◌≤◌, ℕ, IsTrue, None};
ghost use Rattle.outside.specs.Causes.{Rose, OneRose};
ghost use Rattle.outside.specs.Space.{bounds_of};
ghost use Rattle.h5_base.specs.declared.extent.MemClass.TheVariants as class;
ghost use Rattle.object_model.specs.Step.{Plain};
ghost use Rattle.object_tree.specs.Sound.{IsSoundTree};
ghost use Rattle.tree_answers.specs.Shown.{IsTreeOf};
ghost use Rattle.h5stack_core.specs.Endings.{IfNothingDone};
ghost use Rattle.h5stack_core.specs.declared.words.WordFault.{WordFault};
ghost use Rattle.h5stack_core.specs.Script.{HoldsWithin, IsRefusedTree, Answers, TreeAnswers, IfClosed, IsOfScript};

use crate::ending::{Ending, stopped};
use block_space::Blocks;
use object_tree::{ObjectTree, open_tree};
use outside::{Sink, Source, Space};
use script_run::{Ended, ScriptStop, answer_script};
use std::alloc::Global;

/// A space over which a script was run, and how that ended.
#[derive(Drop)]
pub struct Looked<V> {
    pub space: V,
    pub ending: Ending,
}

// Answers each line of a script over a tree.
fn answer_lines<I: Source, O: Sink>(
    alloc: Global,
    tree: &ObjectTree,
    input: &mut I,
    out: &mut O,
) -> Ending
    requires { IsSoundTree tree.now }
    ensures answers { (t : Plain) → IsTreeOf tree.now t → TreeAnswers t (record {
      reads = I.tells;
      prints = O.tells;
      script = I.left input.old;
      left = I.left input.new;
      old = O.written out.old;
      new = O.written out.new;
    }) result }
    ensures input_fault { result ≡ Ending.Input → Rose (I.faults input.old) (I.faults input.new) }
    ensures output_fault { result ≡ Ending.Output → Rose (O.faults out.old) (O.faults out.new) }
    ensures input_calm { ¬ (result ≡ Ending.Input) → I.faults input.new ≡ I.faults input.old }
    ensures output_calm { ¬ (result ≡ Ending.Output) → O.faults out.new ≡ O.faults out.old }
    ensures input { I.faults input.old ≤ I.faults input.new }
    ensures output { O.faults out.old ≤ O.faults out.new }
    ensures run { IsOfScript result }
{
    match answer_script(alloc, tree, input, out) {
        Ok(Ended::AllDone) => Ending::Done,
        Ok(Ended::SomeNot) => Ending::SomeNot,
        Err(ScriptStop::Input) => Ending::Input,
        Err(ScriptStop::Output) => Ending::Output,
        Err(ScriptStop::Limit) => Ending::Limit,
        Err(ScriptStop::Memory) => Ending::ScriptMemory,
    }
}

// Makes the files of a space last at the end of a run.
fn close<V: Space>(space: &mut V, ending: Ending) -> Ending
    requires stands { V.Stands space.old }
    requires writable { IsTrue (V.view space.old).writable }
    ensures ending { (result ≡ ending) ⊎ (result ≡ Ending.Store) }
    ensures rests { (result ≡ Ending.Store) ⊎ V.Rests space.new }
    ensures goes { V.GoesOn space.old space.new }
    ensures array { IsTrue V.tells → (V.view space.new).array ≡ (V.view space.old).array }
    ensures ends { (V.view space.new).ends ≡ (V.view space.old).ends }
    ensures rested { V.Rests space.old → V.Rests space.new }
    ensures fault { result ≡ Ending.Store → (ending ≡ Ending.Store) ⊎ OneRose (V.faults space.old) (V.faults space.new)
        ⊎ OneRose (V.copy_faults space.old) (V.copy_faults space.new) }
    ensures calm { ¬ (result ≡ Ending.Store) → (V.faults space.new ≡ V.faults space.old)
        × (V.copy_faults space.new ≡ V.copy_faults space.old) }
{
    match space.settle() {
        Ok(()) => ending,
        Err(_) => Ending::Store,
    }
}

/// Runs a script over a space: opens the tree of its file, answers each line, and makes the file last. Where the tree
/// isn't opened, the script isn't read, and nothing is printed.
pub fn look<V: Space, I: Source, O: Sink>(
    alloc: Global,
    space: V,
    input: &mut I,
    out: &mut O,
) -> Looked<V>
    requires stands { V.Stands space }
    requires first { ((V.view space).regions class.Super).start ≡ 0 }
    requires writable { IsTrue (V.view space).writable }
    ensures answers { IsTrue V.tells → Answers (HoldsWithin (V.view space).array (bounds_of (V.view space) None))
        (IsRefusedTree (V.view space).array (bounds_of (V.view space) None)) (record {
          reads = I.tells;
          prints = O.tells;
          script = I.left input.old;
          left = I.left input.new;
          old = O.written out.old;
          new = O.written out.new;
        }) result.ending }
    ensures unread { IfNothingDone result.ending (input.new ≡ input.old) }
    ensures silent { IfNothingDone result.ending (out.new ≡ out.old) }
    ensures store_fault { result.ending ≡ Ending.Store → OneRose (V.faults space) (V.faults result.space)
        ⊎ OneRose (V.copy_faults space) (V.copy_faults result.space) }
    ensures input_fault { result.ending ≡ Ending.Input → Rose (I.faults input.old) (I.faults input.new) }
    ensures output_fault { result.ending ≡ Ending.Output → Rose (O.faults out.old) (O.faults out.new) }
    // No fault is passed over; one of the store in the closing is told in place of another ending.
    ensures store_calm { ¬ (result.ending ≡ Ending.Store) → (V.faults result.space ≡ V.faults space)
        × (V.copy_faults result.space ≡ V.copy_faults space) }
    ensures input_calm { ¬ (result.ending ≡ Ending.Store) → ¬ (result.ending ≡ Ending.Input)
        → I.faults input.new ≡ I.faults input.old }
    ensures output_calm { ¬ (result.ending ≡ Ending.Store) → ¬ (result.ending ≡ Ending.Output)
        → O.faults out.new ≡ O.faults out.old }
    ensures goes { V.GoesOn space result.space }
    ensures array { IsTrue V.tells → (V.view result.space).array ≡ (V.view space).array }
    ensures ends { (V.view result.space).ends ≡ (V.view space).ends }
    ensures rests { IfClosed result.ending (V.Rests result.space) }
    ensures rested { V.Rests space → V.Rests result.space }
    ensures words { (fault : WordFault) → result.ending ≡ Ending.Words fault → ⊥ }
{
    let mut blocks = Blocks::new(alloc, space);
    match open_tree(alloc, &mut blocks) {
        Ok(tree) => {
            let ending = answer_lines(alloc, &tree, input, out);
            let mut space = blocks.finish();
            let ending = close(&mut space, ending);
            Looked { space, ending }
        }
        Err(stop) => Looked {
            space: blocks.finish(),
            ending: stopped(stop),
        },
    }
}
