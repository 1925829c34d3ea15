ghost use Rattle.std.specs.Prelude.{◌≡◌, ◌≢◌, ◌≤◌, ℕ, [], length, Option, IsTrue, IfOk, IfErr, OnOk};
ghost use Rattle.h5_base.specs.Names.{IsName};
ghost use Rattle.h5_base.specs.declared.refusal.Refusal.{Refusal};
ghost use Rattle.outside.specs.Array.{array_of};
ghost use Rattle.outside.specs.Files.{Files};
ghost use Rattle.outside.specs.Store.{NoneRose, Goes, GoesOver};
ghost use Rattle.plain_space.specs.File.{seen, view_of};
ghost use Rattle.plain_space.specs.Plain.{store_of, id_of, end_of};
ghost use Rattle.stack_mount.specs.Mounted.{IsRefused, IsAdmitted, IsOnlySeen, IsCountOf, FileRose};
ghost use Rattle.stack_mount.specs.Mounted.{store_left};

use crate::faults::MountRefused;
use crate::judging::judge;
use h5_base::{Name, Stop};
use outside::{FileStop, Space, Store};
use plain_space::{OpenRefused, PlainSpace};
use std::alloc::Global;

// The file as a space, not judged yet.
fn open_file<S: Store>(
    alloc: Global,
    file: &Name,
    mut store: S,
) -> Result<PlainSpace<S>, MountRefused<S>>
    ensures stands { IfOk result (λ space. ⟦<PlainSpace<S> as Space>⟧.Stands space) }
    ensures name { IfOk result (λ space. (S.view (store_of space)).names (id_of space) ≡ file.now) }
    ensures view { IfOk result (λ space. ⟦<PlainSpace<S> as Space>⟧.view space ≡ view_of S.tells_files
        (S.view (store_of space)) (id_of space) (end_of space) []) }
    ensures end { IsTrue S.tells_files → IfOk result
        (λ space. end_of space ≡ length (seen ((S.view store).files file.now))) }
    ensures array { IsTrue S.tells_files → IfOk result
        (λ space. (⟦<PlainSpace<S> as Space>⟧.view space).array ≡ array_of (seen ((S.view store).files file.now))) }
    ensures no_line { IfErr result (λ refused. (why : Refusal) → refused.fault ≡ Stop.Refused why → ⊥) }
    ensures failed { IfErr result (λ refused. refused.fault ≡ Stop.Failed
        → FileRose file.now (S.view store) (S.view refused.store)) }
    ensures calm { IfOk result (λ space. NoneRose (S.view store) (S.view (store_of space))) }
    ensures calm_refused { IfErr result (λ refused. refused.fault ≢ Stop.Failed
        → NoneRose (S.view store) (S.view refused.store)) }
    ensures left { IsOnlySeen S.tells_files S.tells_images file.now (S.view store) (S.view (store_left result))
        (S.leaves store) (S.leaves (store_left result)) (S.past store) (S.past (store_left result)) }
{
    let _text = file.as_slice();
    let id = match store.file(file) {
        Ok(id) => id,
        Err(FileStop::NoMemory) => {
            return Err(MountRefused {
                store,
                fault: Stop::NoMemory,
            });
        }
        Err(FileStop::Failed) => {
            return Err(MountRefused {
                store,
                fault: Stop::Failed,
            });
        }
    };
    match PlainSpace::open(alloc, store, id) {
        Ok(space) => Ok(space),
        Err(OpenRefused { store }) => Err(MountRefused {
            store,
            fault: Stop::Failed,
        }),
    }
}

/// Mounts a plain file, which is judged by its superblock and its end: the space of its first 2^48 bytes, or the store
/// again with the first reason why it isn't mounted. The store is asked for the file's id, its length and at most 100
/// bytes. No file is made or changed. `Failed` comes only where the store's count of `file` or that of the file's id
/// rose, and where it isn't answered no count did; `NoMemory` comes where no memory is left.
pub fn mount<S: Store>(
    alloc: Global,
    file: &Name,
    store: S,
) -> Result<PlainSpace<S>, MountRefused<S>>
    // The space of the file.
    ensures stands { IfOk result (λ space. ⟦<PlainSpace<S> as Space>⟧.Stands space) }
    ensures name { IfOk result (λ space. (S.view (store_of space)).names (id_of space) ≡ file.now) }
    ensures view { IfOk result (λ space. ⟦<PlainSpace<S> as Space>⟧.view space ≡ view_of S.tells_files
        (S.view (store_of space)) (id_of space) (end_of space) []) }
    ensures array { IsTrue S.tells_files → IfOk result
        (λ space. (⟦<PlainSpace<S> as Space>⟧.view space).array ≡ array_of (seen ((S.view store).files file.now))) }
    ensures end { IsTrue S.tells_files → IfOk result
        (λ space. end_of space ≡ length (seen ((S.view store).files file.now))) }
    // What is judged.
    ensures admitted { IsTrue S.tells_files → OnOk result
        (IsAdmitted (array_of (seen ((S.view store).files file.now))) (length (seen ((S.view store).files file.now)))) }
    ensures refused { IsTrue S.tells_files → IfErr result (λ refused. (why : Refusal) → refused.fault ≡ Stop.Refused why
        → IsRefused (array_of (seen ((S.view store).files file.now)))
        (length (seen ((S.view store).files file.now))) why) }
    ensures failed { IfErr result (λ refused. refused.fault ≡ Stop.Failed
        → FileRose file.now (S.view store) (S.view refused.store)) }
    ensures calm { IfOk result (λ space. NoneRose (S.view store) (S.view (store_of space))) }
    ensures calm_refused { IfErr result (λ refused. refused.fault ≢ Stop.Failed
        → NoneRose (S.view store) (S.view refused.store)) }
    // The store that is left, in the space or in the refusal.
    ensures goes { Goes S.tells_files (λ _. ⊥) (S.view store) (S.view (store_left result)) }
    ensures others { (k : Option ℕ) → ¬ IsCountOf file.now (S.view (store_left result)) k
        → (S.view (store_left result)).counts k ≡ (S.view store).counts k }
    ensures fewer { IsTrue S.tells_images → (c : Files) → S.leaves (store_left result) c → S.leaves store c }
    ensures since { IsTrue S.tells_images → GoesOver (λ _. ⊥) (S.leaves store) (S.leaves (store_left result))
        (S.past store) (S.past (store_left result)) }
{
    let mut space = match open_file(alloc, file, store) {
        Ok(space) => space,
        Err(refused) => return Err(refused),
    };
    match judge(&mut space) {
        Ok(()) => Ok(space),
        Err(fault) => Err(MountRefused {
            store: space.into_store(),
            fault,
        }),
    }
}
