//! The program: the words of its command line, over the current folder, the terminal and the clock.
#![tactic(auto)]

mod about;
mod arguments;

use h5stack_core::run;
use real_ports::{DirStore, StdSink, StdSource, SysClock};
use std::fs::File;
use std::process::ExitCode;

/// Ends with the status of `run`; with 8 where there is no memory for the words. `--help` and `--version`, one word
/// alone, are its own: it prints them and ends with 0, or with 6 where that fails.
fn main(rt: HostRuntime) -> ExitCode {
    let alloc = rt.alloc();
    // A stream that is closed at the start leaves its number to the next file that is opened, which what is printed
    // would then overwrite. So the folder takes the numbers that are free: reading and writing it fail.
    let _streams = [
        File::open(&rt, "."),
        File::open(&rt, "."),
        File::open(&rt, "."),
    ];
    let Ok(words) = arguments::words(&rt) else {
        let _ = eprintln!(rt; "fault: memory");
        return ExitCode::from(8);
    };
    if let Some(text) = about::about(&words) {
        return match print!(rt; "{text}") {
            Ok(()) => ExitCode::SUCCESS,
            Err(_) => ExitCode::from(6),
        };
    }
    let mut input = StdSource::new(rt.stdin());
    let mut out = StdSink::new(rt.stdout());
    let mut err = StdSink::new(rt.stderr());
    let mut clock = SysClock::new(rt);
    let store = DirStore::new(rt, "./");
    let finished = run(
        alloc, &words, store, &mut input, &mut out, &mut err, &mut clock,
    );
    ExitCode::from(finished.status)
}
