//! Runs the cases of the files `*.case` in the current folder, in the order of their names: each run over a store in
//! memory and, where no call is to fail, once more over a real folder, which has to give the same. An argument is the
//! name of the one case to run. The last line says how many cases there were and how many differ; the status is 0 where
//! none does, else 1.
#![tactic(auto)]

mod crowding;
mod differing;
mod edits;
mod following;
mod given;
mod in_folder;
mod in_memory;
mod items;
mod named;
mod nesting;
mod outcome;
mod rows;
mod stop;
mod suite;
mod texts;
mod wanted;

use std::process::ExitCode;
use std::{env, fs};
use stop::Stop;
use suite::Suite;

// The names of the case files, sorted.
fn case_files(rt: &HostRuntime) -> Result<Vec<String>, Stop> {
    let mut names = Vec::new(rt.alloc());
    for entry in fs::read_dir(rt, ".")? {
        let entry = entry?;
        let name = entry.file_name();
        if name.ends_with(".case") {
            names.push(String::from_str(rt.alloc(), name)?)?;
        }
    }
    names.sort()?;
    Ok(names)
}

fn run_all(rt: &HostRuntime) -> Result<Suite, Stop> {
    let only = env::args(rt)?.nth(1);
    let mut suite = Suite::new(rt.clone()?, only);
    for name in case_files(rt)? {
        let text = fs::read_to_string(rt, name.as_str())?;
        suite.run_file(name, text.as_str())?;
    }
    Ok(suite)
}

// Tells how many cases there were; none is a failure too.
fn tell_all(rt: &HostRuntime, suite: &Suite) -> Result<ExitCode, Stop> {
    let (ran, differ) = (suite.ran(), suite.differ());
    println!(rt; "{ran} cases, {differ} differ")?;
    if ran == 0 {
        eprintln!(rt; "no case of this name, or no case at all")?;
    }
    Ok(if ran > 0 && differ == 0 {
        ExitCode::SUCCESS
    } else {
        ExitCode::FAILURE
    })
}

fn main(rt: HostRuntime) -> ExitCode {
    let done = match run_all(&rt) {
        Ok(suite) => tell_all(&rt, &suite),
        Err(stop) => Err(stop),
    };
    match done {
        Ok(code) => code,
        Err(stop) => {
            let why = stop.why();
            let _ = eprintln!(rt; "{why}");
            ExitCode::FAILURE
        }
    }
}
