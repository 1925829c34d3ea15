// The calls of a store, a sink and a clock in memory.
ghost use Rattle.std.specs.Prelude.{◌<◌, length};

use crate::files::{file_name, holds, store_of};
use mem_store::{Fail, ListClock, Op, VecSink};
use outside::{Clock, Failed, FileId, Sink, Store};
use std::alloc::Global;
use std::test;

// Which of three writes are done: three bytes, two behind them, and one more.
fn writes<S: Store>(store: &mut S, id: FileId) -> [bool; 3]
    requires { 0 < length ((S.view store.old).names id.n) }
{
    [
        store.write(id, 0, b"xyz").is_ok(),
        store.write(id, 3, b"12").is_ok(),
        store.write(id, 0, b"1").is_ok(),
    ]
}

// Whether these of them are done and leave these bytes, in a file of four bytes in a store with this room.
fn is_left(
    alloc: Global,
    fails: Vec<Fail>,
    room: u64,
    done: [bool; 3],
    bytes: &[u8],
) -> Result<bool, test::Fail> {
    let mut store = store_of(alloc, b"abcd", fails, room)?;
    let name = file_name(alloc)?;
    let _text = name.as_slice();
    let id = store.file(&name)?;
    Ok(writes(&mut store, id) == done && holds(alloc, &store, bytes))
}

/// The lengths of the files and all that is written are ten bytes with the second write.
#[test]
fn room_ends(rt: HostRuntime) -> Result<(), test::Fail> {
    let alloc = rt.alloc();
    assert!(rt; is_left(alloc, Vec::new(alloc), 10, [true, true, false], b"xyz12")?);
    Ok(())
}

/// The second write is listed to fail, and changes nothing.
#[test]
fn listed_call_fails(rt: HostRuntime) -> Result<(), test::Fail> {
    let alloc = rt.alloc();
    let mut fails = Vec::new(alloc);
    fails.push(Fail {
        name: file_name(alloc)?,
        op: Op::Write,
        nth: 2,
    })?;
    assert!(rt; is_left(alloc, fails, 100, [true, false, true], b"1yzd")?);
    Ok(())
}

fn poured<S: Sink>(sink: &mut S) -> [Result<usize, Failed>; 3] {
    [sink.write(b"abc"), sink.write(b"de"), sink.write(b"f")]
}

/// Bytes go up to the room of four.
#[test]
fn sink_fills_up(rt: HostRuntime) -> Result<(), test::Fail> {
    let alloc = rt.alloc();
    let mut sink = VecSink::new(alloc, 4, Vec::new(alloc))?;
    let taken = poured(&mut sink);
    assert!(rt; taken == [Ok(3), Ok(1), Err(Failed)] && sink.as_slice() == b"abcd".as_slice());
    Ok(())
}

fn tell<C: Clock>(clock: &mut C) -> (i64, i64, i64) {
    (clock.now(), clock.now(), clock.now())
}

/// The last moment repeats.
#[test]
fn clock_repeats(rt: HostRuntime) -> Result<(), test::Fail> {
    let mut clock = ListClock::new(Vec::from_slice(rt.alloc(), &[5, -7])?);
    assert!(rt; tell(&mut clock) == (5, -7, -7));
    Ok(())
}
