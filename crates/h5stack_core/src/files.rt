ghost use Rattle.std.specs.Prelude.{◌≡◌};
ghost use Rattle.outside.specs.Causes.{Rose};
ghost use Rattle.outside.specs.Store.{Goes, SomeRose, NoneRose};
ghost use Rattle.h5stack_core.specs.Endings.{IfNothingDone};
ghost use Rattle.h5stack_core.specs.Files.{Opens, IsRefusedFile};
ghost use Rattle.h5stack_core.specs.Script.{Runs};
ghost use Rattle.h5stack_core.specs.declared.words.WordFault.{WordFault};

use crate::ending::{Ending, Performed, stopped};
use crate::looking::look;
use h5_base::Name;
use outside::{Sink, Source, Store};
use stack_mount::mount;
use std::alloc::Global;

/// Runs a script over a plain file: mounts it, opens its tree, answers each line, and makes it last. No file changes.
pub fn run_file<S: Store, I: Source, O: Sink>(
    alloc: Global,
    file: &Name,
    store: S,
    input: &mut I,
    out: &mut O,
) -> Performed<S>
    ensures goes { Goes S.tells_files (λ q. q ≡ file.now) (S.view store) (S.view result.store) }
    ensures run { Runs (record { files = S.tells_files; images = S.tells_images }) file.now
        (record { view = S.view store; leaves = S.leaves store; past = S.past store })
        (record { view = S.view result.store; leaves = S.leaves result.store; past = S.past result.store })
        (Opens ((S.view store).files file.now)) (IsRefusedFile ((S.view store).files file.now)) (record {
          reads = I.tells;
          prints = O.tells;
          script = I.left input.old;
          left = I.left input.new;
          old = O.written out.old;
          new = O.written out.new;
        }) result.ending }
    ensures words { (fault : WordFault) → result.ending ≡ Ending.Words fault → ⊥ }
    ensures unread { IfNothingDone result.ending (input.new ≡ input.old) }
    ensures silent { IfNothingDone result.ending (out.new ≡ out.old) }
    ensures store_fault { result.ending ≡ Ending.Store → SomeRose (S.view store) (S.view result.store) }
    ensures input_fault { result.ending ≡ Ending.Input → Rose (I.faults input.old) (I.faults input.new) }
    ensures output_fault { result.ending ≡ Ending.Output → Rose (O.faults out.old) (O.faults out.new) }
    ensures store_calm { ¬ (result.ending ≡ Ending.Store) → NoneRose (S.view store) (S.view result.store) }
    ensures input_calm { ¬ (result.ending ≡ Ending.Store) → ¬ (result.ending ≡ Ending.Input)
        → I.faults input.new ≡ I.faults input.old }
    ensures output_calm { ¬ (result.ending ≡ Ending.Store) → ¬ (result.ending ≡ Ending.Output)
        → O.faults out.new ≡ O.faults out.old }
{
    match mount(alloc, file, store) {
        Ok(space) => {
            let looked = look(alloc, space, input, out);
            Performed {
                store: looked.space.into_store(),
                ending: looked.ending,
            }
        }
        Err(refused) => Performed {
            store: refused.store,
            ending: stopped(refused.fault),
        },
    }
}
