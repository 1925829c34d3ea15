// A file in memory as a space.
ghost use Rattle.std.specs.Prelude.{IfOk};

use h5_base::{Bytes, Name};
use mem_store::{Fail, MemStore, NamedBytes, Room};
use outside::{Space, Store};
use plain_space::PlainSpace;
use std::alloc::Global;
use std::test;

/// The name of the store's one file.
pub fn file_name(alloc: Global) -> Result<Name, test::Fail> {
    Ok(Name::new(alloc, "a")?)
}

/// A store with one file of these bytes, of whose calls those listed fail, and room for so many bytes.
pub fn store_of(
    alloc: Global,
    bytes: &[u8],
    fails: Vec<Fail>,
    room: u64,
) -> Result<MemStore, test::Fail> {
    let mut files = Vec::new(alloc);
    files.push(NamedBytes {
        name: file_name(alloc)?,
        bytes: Bytes::from_slice(alloc, bytes)?,
    })?;
    let room = Room {
        calls: 1000,
        bytes: room,
    };
    Ok(MemStore::new(alloc, files, fails, room)?)
}

/// A file of these bytes as a space, with room for small changes.
pub fn space_of_file(alloc: Global, bytes: &[u8]) -> Result<PlainSpace<MemStore>, test::Fail>
    ensures stands { IfOk result (λ space. ⟦<PlainSpace<MemStore> as Space>⟧.Stands space) }
{
    let name = file_name(alloc)?;
    let _text = name.as_slice();
    let mut store = store_of(alloc, bytes, Vec::new(alloc), 10_000)?;
    let id = store.file(&name)?;
    match PlainSpace::open(alloc, store, id) {
        Ok(space) => Ok(space),
        Err(_) => Err(test::Fail::new("not opened")),
    }
}

/// Whether the store's file has these bytes.
pub fn holds(alloc: Global, store: &MemStore, bytes: &[u8]) -> bool {
    match Name::new(alloc, "a") {
        Ok(name) => store.bytes_of(&name) == bytes,
        Err(_) => false,
    }
}
