use crate::given::Given;
use crate::named::Named;
use crate::outcome::Outcome;
use crate::stop::Stop;
use h5stack_core::run;
use mem_store::ListClock;
use real_ports::{DirStore, StdSink, StdSource};
use std::alloc::{AllocError, Global};
use std::{fs, io};

/// The folder, below the current one, in which runs are made.
const FOLDER: &str = "run/";

fn path_of(alloc: Global, file: &Named) -> Result<String, AllocError> {
    let mut path = String::from_str(alloc, FOLDER)?;
    path.push_str(file.name.as_str())?;
    Ok(path)
}

fn remove_file(rt: &HostRuntime, path: &str) -> Result<(), Stop> {
    match fs::remove_file(rt, path) {
        Ok(()) => Ok(()),
        Err(e) if e.kind() == io::ErrorKind::NotFound => Ok(()),
        Err(_) => Err(Stop::System),
    }
}

// Removes the files of a case from the folder.
fn remove_files(rt: &HostRuntime, files: &[Named]) -> Result<(), Stop> {
    for file in files {
        let path = path_of(rt.alloc(), file)?;
        remove_file(rt, path.as_str())?;
    }
    Ok(())
}

// Removes the folder with the files of a case, beside which there may be none.
fn clear(rt: &HostRuntime, files: &[Named]) -> Result<(), Stop> {
    remove_files(rt, files)?;
    match fs::remove_dir(rt, FOLDER) {
        Ok(()) => Ok(()),
        Err(_) => Err(Stop::Wrong("the run leaves a file that the case doesn't name")),
    }
}

// An empty file isn't there.
fn lay_file(rt: &HostRuntime, file: &Named) -> Result<(), Stop> {
    if file.bytes.is_empty() {
        return Ok(());
    }
    let path = path_of(rt.alloc(), file)?;
    Ok(fs::write(rt, path.as_str(), file.bytes.as_slice())?)
}

// Writes the files into the folder.
fn lay_files(rt: &HostRuntime, files: &[Named]) -> Result<(), Stop> {
    fs::create_dir_all(rt, FOLDER)?;
    remove_files(rt, files)?;
    for file in files {
        lay_file(rt, file)?;
    }
    Ok(())
}

fn read_file(rt: &HostRuntime, path: &str) -> Result<Vec<u8>, Stop> {
    match fs::read(rt, path) {
        Ok(bytes) => Ok(bytes),
        Err(e) if e.kind() == io::ErrorKind::NotFound => Ok(Vec::new(rt.alloc())),
        Err(_) => Err(Stop::System),
    }
}

fn fetch_file(rt: &HostRuntime, file: &Named) -> Result<Named, Stop> {
    let path = path_of(rt.alloc(), file)?;
    let mut fetched = Named::new(rt.alloc(), file.name.as_str())?;
    fetched.bytes = read_file(rt, path.as_str())?;
    Ok(fetched)
}

fn fetch_files(rt: &HostRuntime, files: &[Named]) -> Result<Vec<Named>, Stop> {
    let mut list = Vec::new(rt.alloc());
    for file in files {
        list.push(fetch_file(rt, file)?)?;
    }
    Ok(list)
}

// Runs over the folder, and tells the status and how many bytes of the script were not taken.
fn perform(
    rt: HostRuntime,
    given: &Given,
    clock: ListClock,
    out: &mut Vec<u8>,
    err: &mut Vec<u8>,
) -> (u8, usize) {
    let alloc = rt.alloc();
    let mut clock = clock;
    let mut script = given.script.as_slice();
    let mut input = StdSource::new(&mut script);
    let mut out = StdSink::new(out);
    let mut err = StdSink::new(err);
    let store = DirStore::new(rt, FOLDER);
    let ended = run(
        alloc,
        &given.words,
        store,
        &mut input,
        &mut out,
        &mut err,
        &mut clock,
    );
    (ended.status, script.len())
}

// What a run over the folder gives, without the files.
fn outcome_of(rt: &HostRuntime, given: &Given) -> Result<Outcome, Stop> {
    let alloc = rt.alloc();
    let clock = ListClock::new(Vec::from_slice(alloc, given.clock.as_slice())?);
    let mut got = Outcome {
        status: 0,
        out: Vec::new(alloc),
        err: Vec::new(alloc),
        unread: 0,
        files: Vec::new(alloc),
        calls: Vec::new(alloc),
    };
    (got.status, got.unread) = perform(rt.clone()?, given, clock, &mut got.out, &mut got.err);
    Ok(got)
}

/// Runs over a folder in which nothing but these files stands.
pub fn run_in_folder(rt: &HostRuntime, given: &Given, files: &[Named]) -> Result<Outcome, Stop> {
    lay_files(rt, files)?;
    let mut got = outcome_of(rt, given)?;
    got.files = fetch_files(rt, files)?;
    clear(rt, files)?;
    Ok(got)
}
