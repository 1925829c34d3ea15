ghost use Rattle.std.specs.Prelude.{◌≡◌, ◌<◌, ◌≤◌, ℕ, List, [], length, IsTrue, IsErr, IsErrOf, IfOk, OnOk, OnErr};
ghost use Rattle.outside.specs.Files.{Files, RestsAt};
ghost use Rattle.outside.specs.Store.{Goes, GoesOver, SomeRose, NoneRose};
ghost use Rattle.stack_mount.specs.Mounted.{IsOnlySeen};
ghost use Rattle.empty_file.specs.Empty.{empty_file};
ghost use Rattle.outside.specs.Causes.{Rose};
ghost use Rattle.h5stack_core.specs.Create.{Creates};
ghost use Rattle.h5stack_core.specs.Endings.{IfNothingDone};
ghost use Rattle.h5stack_core.specs.Stores.{SameFiles};

use crate::ending::{Ending, Performed};
use empty_file::{EMPTY_LEN, write_empty_file};
use h5_base::{Name, Refusal};
use outside::{Failed, FileId, FileStop, Sink, Store};
use script_lines::print;

/// Why no file was created.
#[derive(Clone, Copy, Debug, PartialEq, Eq)]
pub enum CreateStop {
    /// The file isn't empty.
    Exists,
    /// A call of the store failed.
    Failed,
    NoMemory,
}

/// The id of a file that has to be empty.
fn open_empty<S: Store>(store: &mut S, name: &Name) -> Result<FileId, CreateStop>
    ensures seen { IsOnlySeen S.tells_files S.tells_images name.now (S.view store.old) (S.view store.new)
        (S.leaves store.old) (S.leaves store.new) (S.past store.old) (S.past store.new) }
    ensures id { IfOk result (λ id. (S.view store.new).names id.n ≡ name.now) }
    ensures empty { IsTrue S.tells_files → OnOk result ((S.view store.old).files name.now ≡ []) }
    ensures exists { IsTrue S.tells_files → IsErrOf result CreateStop.Exists
        → 0 < length ((S.view store.old).files name.now) }
    ensures failed { IsErrOf result CreateStop.Failed → SomeRose (S.view store.old) (S.view store.new) }
    ensures calm { ¬ IsErrOf result CreateStop.Failed → NoneRose (S.view store.old) (S.view store.new) }
{
    let _text = name.as_slice();
    let id = match store.file(name) {
        Ok(id) => id,
        Err(FileStop::NoMemory) => return Err(CreateStop::NoMemory),
        Err(FileStop::Failed) => return Err(CreateStop::Failed),
    };
    match store.len(id) {
        Ok(0) => Ok(id),
        Ok(_) => Err(CreateStop::Exists),
        Err(Failed) => Err(CreateStop::Failed),
    }
}

/// Writes the empty file's bytes into an empty file, and makes them last.
fn write_empty<S: Store>(store: &mut S, id: FileId) -> Result<(), Failed>
    requires given { 0 < length ((S.view store.old).names id.n) }
    requires empty { IsTrue S.tells_files → (S.view store.old).files ((S.view store.old).names id.n) ≡ [] }
    ensures goes { Goes S.tells_files (λ q. q ≡ (S.view store.old).names id.n) (S.view store.old) (S.view store.new) }
    ensures over { IsTrue S.tells_images → GoesOver (λ q. q ≡ (S.view store.old).names id.n) (S.leaves store.old)
        (S.leaves store.new) (S.past store.old) (S.past store.new) }
    ensures bytes { IsTrue S.tells_files → OnOk result
        ((S.view store.new).files ((S.view store.old).names id.n) ≡ empty_file) }
    ensures durable { IsTrue S.tells_images → IsTrue S.tells_files → IsTrue (S.view store.old).honest
        → OnOk result (RestsAt ((S.view store.old).names id.n) empty_file (S.leaves store.new)) }
    ensures short { IsTrue S.tells_files
        → length ((S.view store.new).files ((S.view store.old).names id.n)) ≤ length empty_file }
    ensures failed { IsErr result → SomeRose (S.view store.old) (S.view store.new) }
    ensures calm { OnOk result (NoneRose (S.view store.old) (S.view store.new)) }
{
    let mut file = [0; EMPTY_LEN];
    write_empty_file(&mut file);
    store.write(id, 0, &file)?;
    store.sync(id)
}

/// Writes the empty file, where there is none yet.
pub fn create<S: Store>(store: &mut S, name: &Name) -> Result<(), CreateStop>
    ensures goes { Goes S.tells_files (λ q. q ≡ name.now) (S.view store.old) (S.view store.new) }
    ensures bytes { IsTrue S.tells_files → OnOk result ((S.view store.new).files name.now ≡ empty_file) }
    ensures durable { IsTrue S.tells_images → IsTrue S.tells_files → IsTrue (S.view store.old).honest
        → OnOk result (RestsAt name.now empty_file (S.leaves store.new)) }
    ensures was_empty { IsTrue S.tells_files → OnOk result ((S.view store.old).files name.now ≡ []) }
    ensures short { IsTrue S.tells_files → (S.view store.old).files name.now ≡ []
        → length ((S.view store.new).files name.now) ≤ length empty_file }
    ensures exists { IsTrue S.tells_files → IsErrOf result CreateStop.Exists
        → 0 < length ((S.view store.old).files name.now) }
    ensures kept { IsTrue S.tells_files → 0 < length ((S.view store.old).files name.now)
        → (S.view store.new).files name.now ≡ (S.view store.old).files name.now }
    ensures rested { IsTrue S.tells_files → IsTrue S.tells_images → 0 < length ((S.view store.old).files name.now)
        → (c : Files) → S.leaves store.new c → S.leaves store.old c }
    ensures images { IsTrue S.tells_images → GoesOver (λ q. q ≡ name.now) (S.leaves store.old) (S.leaves store.new)
        (S.past store.old) (S.past store.new) }
    ensures exists_same { IsErrOf result CreateStop.Exists
        → SameFiles S.tells_files (S.view store.old) (S.view store.new) }
    ensures memory_same { IsErrOf result CreateStop.NoMemory
        → SameFiles S.tells_files (S.view store.old) (S.view store.new) }
    ensures failed { IsErrOf result CreateStop.Failed → SomeRose (S.view store.old) (S.view store.new) }
    ensures calm { ¬ IsErrOf result CreateStop.Failed → NoneRose (S.view store.old) (S.view store.new) }
{
    let _text = name.as_slice();
    let id = open_empty(store, name)?;
    match write_empty(store, id) {
        Ok(()) => Ok(()),
        Err(Failed) => Err(CreateStop::Failed),
    }
}

/// Creates a file, and says so.
pub fn create_file<S: Store, O: Sink>(file: &Name, store: S, out: &mut O) -> Performed<S>
    ensures goes { Goes S.tells_files (λ q. q ≡ file.now) (S.view store) (S.view result.store) }
    ensures create { Creates (record { files = S.tells_files; images = S.tells_images }) file.now
        (record { view = S.view store; leaves = S.leaves store; past = S.past store })
        (record { view = S.view result.store; leaves = S.leaves result.store; past = S.past result.store })
        O.tells (O.written out.old) (O.written out.new) result.ending }
    ensures same { IfNothingDone result.ending (SameFiles S.tells_files (S.view store) (S.view result.store)) }
    ensures silent { IfNothingDone result.ending (out.new ≡ out.old) }
    ensures store_fault { result.ending ≡ Ending.Store → SomeRose (S.view store) (S.view result.store) }
    ensures output_fault { result.ending ≡ Ending.Output → Rose (O.faults out.old) (O.faults out.new) }
    ensures store_calm { ¬ (result.ending ≡ Ending.Store) → NoneRose (S.view store) (S.view result.store) }
    ensures output_calm { ¬ (result.ending ≡ Ending.Output) → O.faults out.new ≡ O.faults out.old }
{
    let mut store = store;
    let ending = match create(&mut store, file) {
        Ok(()) => match print(out, b"created\n") {
            Ok(()) => Ending::Done,
            Err(Failed) => Ending::Output,
        },
        Err(CreateStop::Exists) => Ending::Refused {
            why: Refusal::Exists,
        },
        Err(CreateStop::Failed) => Ending::Store,
        Err(CreateStop::NoMemory) => Ending::Memory,
    };
    Performed { store, ending }
}
