// A file in memory as a space: reads, writes and raises, each with its preparation, through the bounds of any space.
ghost use Rattle.std.specs.Prelude.{◌≡◌, ◌+◌, ◌-◌, ◌^◌, ◌<◌, ◌≤◌, None, IsTrue, OnOk, length};
ghost use Rattle.outside.specs.Space.{AreCovered, LiesIn, SameKind};

use crate::files::{holds, space_of_file};
use h5_base::{Extent, MemClass};
use mem_store::MemStore;
use outside::Space;
use plain_space::PlainSpace;
use std::alloc::Global;
use std::test::Fail;

// Four bytes from an address up to 2^60 on.
fn read<V: Space>(space: &mut V, at: u64) -> Result<[u8; 4], Fail>
    requires stands { V.Stands space.old }
    ensures alike { V.Alike space.old space.new }
    ensures stands { OnOk result (V.Stands space.new) }
{
    if at > 1 << 60 {
        return Err(Fail::new("far"));
    }
    let mut out = [7; 4];
    space.read(at, &mut out)?;
    Ok(out)
}

// Makes room for so many bytes from `at` on, and for nothing else.
fn prepare<V: Space>(alloc: Global, space: &mut V, at: u64, len: u64) -> Result<(), Fail>
    requires stands { V.Stands space.old }
    requires fits { at + len < 2 ^ 64 }
    ensures stands { V.Stands space.new }
    ensures covered { OnOk result (AreCovered (V.view space.new).prepared at len) }
    ensures others { OnOk result (V.view space.new ≡ record
        (V.view space.old) { prepared = (V.view space.new).prepared }) }
{
    let mut ranges = Vec::new(alloc);
    ranges.push(Extent { start: at, len })?;
    space.prepare(&ranges)?;
    Ok(())
}

// Writes bytes below the end of a class.
fn write<V: Space>(
    alloc: Global,
    space: &mut V,
    class: MemClass,
    at: u64,
    bytes: &[u8],
) -> Result<(), Fail>
    requires stands { V.Stands space.old }
    requires writable { IsTrue (V.view space.old).writable }
    requires plain { (V.view space.old).committed ≡ None }
    requires inside { LiesIn (V.view space.old).regions (V.view space.old).ends class at
        (length bytes.now) }
    requires fits { at + length bytes.now < 2 ^ 64 }
    ensures stands { OnOk result (V.Stands space.new) }
    ensures ends { OnOk result ((V.view space.new).ends ≡ (V.view space.old).ends) }
    ensures kind { OnOk result (SameKind (V.view space.old) (V.view space.new)) }
{
    prepare(alloc, space, at, bytes.len() as u64)?;
    space.write(at, bytes)?;
    Ok(())
}

// Moves the end of a class up.
fn raise<V: Space>(alloc: Global, space: &mut V, class: MemClass, end: u64) -> Result<(), Fail>
    requires stands { V.Stands space.old }
    requires writable { IsTrue (V.view space.old).writable }
    requires plain { (V.view space.old).committed ≡ None }
    requires up { (V.view space.old).ends class ≤ end }
    requires below { end ≤ ((V.view space.old).regions class).limit }
    ensures stands { OnOk result (V.Stands space.new) }
    ensures ends { OnOk result ((V.view space.new).ends class ≡ end) }
    ensures kind { OnOk result (SameKind (V.view space.old) (V.view space.new)) }
{
    let old = space.end(class);
    prepare(alloc, space, old, end - old)?;
    space.raise(class, end)?;
    Ok(())
}

// A write and a raise in a file of six bytes, and what is read then across its old end.
fn change(alloc: Global, space: &mut PlainSpace<MemStore>) -> Result<[u8; 4], Fail>
    requires stands { ⟦<PlainSpace<MemStore> as Space>⟧.Stands space.old }
    requires end { space.old.end ≡ 6 }
{
    write(alloc, space, MemClass::Raw, 2, b"XYZ")?;
    raise(alloc, space, MemClass::Header, 9)?;
    space.settle()?;
    read(space, 4)
}

/// The file that is left has the bytes that were written, up to the new end.
#[test]
fn file_is_written(rt: HostRuntime) -> Result<(), Fail> {
    let alloc = rt.alloc();
    let mut space = space_of_file(alloc, b"abcdef")?;
    assert!(rt; space.end(MemClass::Raw) == 6);
    let out = change(alloc, &mut space)?;
    assert!(rt; out == *b"Zf\0\0");
    let store = space.into_store();
    assert!(rt; holds(alloc, &store, b"abXYZf\0\0\0"));
    Ok(())
}
