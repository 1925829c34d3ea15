ghost use Rattle.std.specs.Prelude.{◌≡◌, ◌⊎◌, ◌++◌, ℕ, List, IsTrue, Ok, Err};
ghost use Rattle.outside.specs.Causes.{Rose};
ghost use Rattle.outside.specs.Store.{Goes, SomeRose, NoneRose};
ghost use Rattle.h5stack_core.specs.Complete.{CanBeDone, IsCalm, IsNamed, IsScripted, IsToBeRefused};
ghost use Rattle.h5stack_core.specs.Create.{Creates};
ghost use Rattle.h5stack_core.specs.Endings.{EndsDone, EndsRefused, IfNothingDone, told};
ghost use Rattle.h5stack_core.specs.Files.{Opens, IsRefusedFile};
ghost use Rattle.h5stack_core.specs.Script.{Runs};
ghost use Rattle.h5stack_core.specs.Stores.{SameFiles};
ghost use Rattle.h5stack_core.specs.Words.{asked_by, texts};
ghost use Rattle.h5stack_core.specs.declared.asked.Asked.{Asked};
ghost use Rattle.h5stack_core.specs.declared.words.WordFault.{WordFault};

use crate::asked::{Asked, read_words};
use crate::creating::create_file;
use crate::ending::{Ending, Performed};
use crate::files::run_file;
use crate::telling::tell;
use outside::{Clock, Sink, Source, Store};
use std::alloc::Global;

/// What is left when the program ends: its store, the exit status, and how it ended, which has that status.
#[derive(Drop)]
pub struct Finished<S> {
    pub store: S,
    pub status: u8,
    pub ending: Ending,
}

// Does what the words ask for.
fn perform<S: Store, I: Source, O: Sink>(
    alloc: Global,
    words: &Vec<String>,
    store: S,
    input: &mut I,
    out: &mut O,
) -> Performed<S>
    ensures goes { Goes S.tells_files (IsNamed (asked_by (texts words.now.items))) (S.view store)
        (S.view result.store) }
    ensures words { (fault : WordFault) → result.ending ≡ Ending.Words fault
        → asked_by (texts words.now.items) ≡ Err fault }
    ensures words_first { (fault : WordFault) → asked_by (texts words.now.items) ≡ Err fault
        → result.ending ≡ Ending.Words fault }
    ensures store_fault { result.ending ≡ Ending.Store → SomeRose (S.view store) (S.view result.store) }
    ensures input_fault { result.ending ≡ Ending.Input → Rose (I.faults input.old) (I.faults input.new) }
    ensures output_fault { result.ending ≡ Ending.Output → Rose (O.faults out.old) (O.faults out.new) }
    ensures store_calm { ¬ (result.ending ≡ Ending.Store) → NoneRose (S.view store) (S.view result.store) }
    ensures input_calm { ¬ (result.ending ≡ Ending.Store) → ¬ (result.ending ≡ Ending.Input)
        → I.faults input.new ≡ I.faults input.old }
    ensures output_calm { ¬ (result.ending ≡ Ending.Store) → ¬ (result.ending ≡ Ending.Output)
        → O.faults out.new ≡ O.faults out.old }
    ensures same { IfNothingDone result.ending (SameFiles S.tells_files (S.view store) (S.view result.store)) }
    ensures silent { IfNothingDone result.ending (out.new ≡ out.old) }
    ensures unread { IfNothingDone result.ending (input.new ≡ input.old) }
    ensures unasked { (IsScripted (asked_by (texts words.now.items)) → ⊥) → input.new ≡ input.old }
    ensures create { (file : List ℕ) → asked_by (texts words.now.items) ≡ Ok (Asked.Create file)
        → Creates (record { files = S.tells_files; images = S.tells_images }) file
        (record { view = S.view store; leaves = S.leaves store; past = S.past store })
        (record { view = S.view result.store; leaves = S.leaves result.store; past = S.past result.store })
        O.tells (O.written out.old) (O.written out.new) result.ending }
    ensures script { (file : List ℕ) → asked_by (texts words.now.items) ≡ Ok (Asked.Run file)
        → Runs (record { files = S.tells_files; images = S.tells_images }) file
        (record { view = S.view store; leaves = S.leaves store; past = S.past store })
        (record { view = S.view result.store; leaves = S.leaves result.store; past = S.past result.store })
        (Opens ((S.view store).files file)) (IsRefusedFile ((S.view store).files file)) (record {
          reads = I.tells;
          prints = O.tells;
          script = I.left input.old;
          left = I.left input.new;
          old = O.written out.old;
          new = O.written out.new;
        }) result.ending }
{
    match read_words(alloc, words) {
        Ok(Asked::Create { file }) => create_file(&file, store, out),
        Ok(Asked::Run { file }) => run_file(alloc, &file, store, input, out),
        Err(ending) => Performed { store, ending },
    }
}

/// What the program does: the words of its command line, over a store, a source, two sinks and a clock.
///
/// `create plain=F` writes the empty HDF5 file into F, which has to be empty, makes it last and prints `created`. `run
/// plain=F` opens the HDF5 file F, reads the whole tree of its objects and answers each line of the script that the
/// source gives; F is made to last, and stays as it is. How each way to end is told, by an exit status and a line on
/// standard error, is the table `told`; what each action leaves and prints by then are the files of its name (`Create`,
/// `Script`). A fault of standard error changes nothing.
pub fn run<S: Store, I: Source, O: Sink, E: Sink, C: Clock>(
    alloc: Global,
    words: &Vec<String>,
    store: S,
    input: &mut I,
    out: &mut O,
    err: &mut E,
    clock: &mut C,
) -> Finished<S>
    // The ending's status and line.
    ensures status { result.status ≡ (told result.ending).status }
    ensures told { IsTrue E.tells → (Rose (E.faults err.old) (E.faults err.new) → ⊥)
        → E.written err.new ≡ E.written err.old ++ (told result.ending).line }

    // The words: their first fault is told, exactly where they have one, or there is no memory to tell it.
    ensures words { (fault : WordFault) → result.ending ≡ Ending.Words fault
        → asked_by (texts words.now.items) ≡ Err fault }
    ensures words_first { (fault : WordFault) → asked_by (texts words.now.items) ≡ Err fault
        → (result.ending ≡ Ending.Words fault) ⊎ (result.ending ≡ Ending.Memory) }

    // The causes: a fault is answered only where a count of the store, of the source or of the output rose.
    ensures store_fault { result.ending ≡ Ending.Store → SomeRose (S.view store) (S.view result.store) }
    ensures input_fault { result.ending ≡ Ending.Input → Rose (I.faults input.old) (I.faults input.new) }
    ensures output_fault { result.ending ≡ Ending.Output → Rose (O.faults out.old) (O.faults out.new) }
    // And no fault is passed over: with any other ending no count of the store has changed, and those of the source
    // and of the output only where a fault of the store in the closing is told in place of theirs.
    ensures store_calm { ¬ (result.ending ≡ Ending.Store) → NoneRose (S.view store) (S.view result.store) }
    ensures input_calm { ¬ (result.ending ≡ Ending.Store) → ¬ (result.ending ≡ Ending.Input)
        → I.faults input.new ≡ I.faults input.old }
    ensures output_calm { ¬ (result.ending ≡ Ending.Store) → ¬ (result.ending ≡ Ending.Output)
        → O.faults out.new ≡ O.faults out.old }

    // What no ending may do: at most the file that the words name changes, no count falls, and ids stay. Where words or
    // files are refused, or there was no memory before anything was done, no file changes, nothing is printed, and the
    // script isn't read.
    ensures goes { Goes S.tells_files (IsNamed (asked_by (texts words.now.items))) (S.view store)
        (S.view result.store) }
    ensures same { IfNothingDone result.ending (SameFiles S.tells_files (S.view store) (S.view result.store)) }
    ensures silent { IfNothingDone result.ending (out.new ≡ out.old) }
    ensures unread { IfNothingDone result.ending (input.new ≡ input.old) }
    ensures unasked { (IsScripted (asked_by (texts words.now.items)) → ⊥) → input.new ≡ input.old }
    ensures clock { clock.new ≡ clock.old }

    // What each action leaves and prints, by how it ended.
    ensures create { (file : List ℕ) → asked_by (texts words.now.items) ≡ Ok (Asked.Create file)
        → Creates (record { files = S.tells_files; images = S.tells_images }) file
        (record { view = S.view store; leaves = S.leaves store; past = S.past store })
        (record { view = S.view result.store; leaves = S.leaves result.store; past = S.past result.store })
        O.tells (O.written out.old) (O.written out.new) result.ending }
    ensures script { (file : List ℕ) → asked_by (texts words.now.items) ≡ Ok (Asked.Run file)
        → Runs (record { files = S.tells_files; images = S.tells_images }) file
        (record { view = S.view store; leaves = S.leaves store; past = S.past store })
        (record { view = S.view result.store; leaves = S.leaves result.store; past = S.past result.store })
        (Opens ((S.view store).files file)) (IsRefusedFile ((S.view store).files file)) (record {
          reads = I.tells;
          prints = O.tells;
          script = I.left input.old;
          left = I.left input.new;
          old = O.written out.old;
          new = O.written out.new;
        }) result.ending }

    // Completeness: where no count rose, what can be done is done, and a file that is to be refused is, or there is no
    // memory.
    ensures complete { (asked : Asked) → asked_by (texts words.now.items) ≡ Ok asked → IsTrue S.tells_files
        → CanBeDone asked (S.view store).files I.tells (I.left input.old)
        → IsCalm (IsScripted (Ok asked)) (S.view store) (S.view result.store) (I.faults input.old) (I.faults input.new)
        (O.faults out.old) (O.faults out.new)
        → EndsDone result.ending }
    ensures complete_refused { (asked : Asked) → asked_by (texts words.now.items) ≡ Ok asked → IsTrue S.tells_files
        → IsToBeRefused asked (S.view store).files → (SomeRose (S.view store) (S.view result.store) → ⊥)
        → EndsRefused result.ending }
{
    let performed = perform(alloc, words, store, input, out);
    let ending = tell(alloc, performed.ending, err);
    Finished {
        store: performed.store,
        status: ending.status(),
        ending,
    }
}
