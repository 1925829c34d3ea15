use crate::given::Given;
use crate::named::Named;
use crate::outcome::Outcome;
use crate::stop::Stop;
use crate::wanted::Limit;
use h5_base::{Bytes, Name};
use h5stack_core::run;
use mem_store::{Fail, ListClock, MemStore, NamedBytes, Room, VecSink, VecSource};
use outside::Source;
use std::alloc::{AllocError, Global};
use std::mem::replace;

/// How many bytes standard error takes.
const ERROR_ROOM: u64 = 1000;

// How many bytes the lengths of the files and all that is written to them may add up to.
fn room(files: &[Named]) -> Room {
    let mut bytes: u64 = 1 << 20;
    for file in files {
        bytes = bytes.saturating_add(file.bytes.len() as u64);
    }
    Room {
        calls: u64::MAX,
        bytes,
    }
}

// What a source has left.
fn count_left(input: &mut VecSource) -> usize {
    let mut buffer = [0; 4096];
    let mut left: usize = 0;
    for _ in 0..usize::MAX {
        match input.read(&mut buffer) {
            Ok(0) => break,
            Ok(n) => left = left.saturating_add(n),
            Err(_) => {}
        }
    }
    left
}

fn named_bytes(alloc: Global, file: &Named) -> Result<NamedBytes, Stop> {
    let name = Name::new(alloc, file.name.as_str())?;
    let bytes = Bytes::from_slice(alloc, file.bytes.as_slice())?;
    Ok(NamedBytes { name, bytes })
}

fn store_of(alloc: Global, files: &[Named], fails: Vec<Fail>) -> Result<MemStore, Stop> {
    let mut list = Vec::new(alloc);
    for file in files {
        list.push(named_bytes(alloc, file)?)?;
    }
    Ok(MemStore::new(alloc, list, fails, room(files))?)
}

// Takes a list out of its place.
fn taken<T: Drop>(alloc: Global, list: &mut Vec<T>) -> Vec<T> {
    replace(list, Vec::new(alloc))
}

// The script is copied, since the run may be made once more.
fn source_of(alloc: Global, given: &mut Given) -> Result<VecSource, Stop> {
    let script = Bytes::from_slice(alloc, given.script.as_slice())?;
    Ok(VecSource::new(script, taken(alloc, &mut given.input_fails)))
}

fn clock_of(alloc: Global, given: &Given) -> Result<ListClock, Stop> {
    Ok(ListClock::new(Vec::from_slice(alloc, given.clock.as_slice())?))
}

// The standard streams of a run in memory.
#[derive(Drop)]
struct Streams {
    input: VecSource,
    out: VecSink,
    err: VecSink,
}

// All that a run in memory is made over.
#[derive(Drop)]
struct Ports {
    store: MemStore,
    streams: Streams,
    clock: ListClock,
}

fn streams_of(alloc: Global, given: &mut Given) -> Result<Streams, Stop> {
    let output_fails = taken(alloc, &mut given.output_fails);
    let error_fails = taken(alloc, &mut given.error_fails);
    Ok(Streams {
        input: source_of(alloc, given)?,
        out: VecSink::new(alloc, given.room, output_fails)?,
        err: VecSink::new(alloc, ERROR_ROOM, error_fails)?,
    })
}

fn ports_of(alloc: Global, given: &mut Given, files: &[Named]) -> Result<Ports, Stop> {
    let fails = taken(alloc, &mut given.fails);
    Ok(Ports {
        store: store_of(alloc, files, fails)?,
        streams: streams_of(alloc, given)?,
        clock: clock_of(alloc, given)?,
    })
}

// Runs, and tells the status.
fn perform(alloc: Global, words: &Vec<String>, ports: Ports) -> (u8, Ports) {
    let Ports {
        store,
        mut streams,
        mut clock,
    } = ports;
    let ended = run(
        alloc,
        words,
        store,
        &mut streams.input,
        &mut streams.out,
        &mut streams.err,
        &mut clock,
    );
    let ports = Ports {
        store: ended.store,
        streams,
        clock,
    };
    (ended.status, ports)
}

fn files_of(alloc: Global, store: &MemStore, files: &[Named]) -> Result<Vec<Named>, Stop> {
    let mut list = Vec::new(alloc);
    for file in files {
        let name = Name::new(alloc, file.name.as_str())?;
        let bytes = store.bytes_of(&name);
        list.push(Named::copied(alloc, file.name.as_str(), bytes)?)?;
    }
    Ok(list)
}

fn count_calls(alloc: Global, store: &MemStore, file: &Named, limit: &Limit) -> Result<u64, Stop> {
    let name = Name::new(alloc, file.name.as_str())?;
    Ok(store.calls(&name, limit.op))
}

fn calls_of(
    alloc: Global,
    store: &MemStore,
    files: &[Named],
    limits: &[Limit],
) -> Result<Vec<u64>, Stop> {
    let mut list = Vec::new(alloc);
    for limit in limits {
        if let Some(file) = files.get(limit.file) {
            list.push(count_calls(alloc, store, file, limit)?)?;
        }
    }
    Ok(list)
}

fn copy_of(alloc: Global, sink: &VecSink) -> Result<Vec<u8>, AllocError> {
    Vec::from_slice(alloc, sink.as_slice())
}

/// Runs over a store in memory.
pub fn run_in_memory(
    alloc: Global,
    given: &mut Given,
    files: &[Named],
    limits: &[Limit],
) -> Result<Outcome, Stop> {
    let ports = ports_of(alloc, given, files)?;
    let (status, mut ports) = perform(alloc, &given.words, ports);
    Ok(Outcome {
        status,
        out: copy_of(alloc, &ports.streams.out)?,
        err: copy_of(alloc, &ports.streams.err)?,
        unread: count_left(&mut ports.streams.input),
        files: files_of(alloc, &ports.store, files)?,
        calls: calls_of(alloc, &ports.store, files, limits)?,
    })
}
