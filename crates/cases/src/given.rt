use crate::items::{count, number, split_word};
use crate::stop::Stop;
use h5_base::Name;
use mem_store::{Fail, Op};
use std::alloc::Global;

/// What a run is given beside its files.
#[derive(Drop)]
pub struct Given {
    pub words: Vec<String>,
    pub script: Vec<u8>,
    pub clock: Vec<i64>,
    pub fails: Vec<Fail>,
    pub input_fails: Vec<u64>,
    pub output_fails: Vec<u64>,
    pub error_fails: Vec<u64>,
    /// How many bytes the output takes.
    pub room: u64,
    /// Some call is to fail, so that the run is made in memory alone.
    pub has_faults: bool,
}

/// The kind of call that a word names.
pub fn op_of(kind: &str) -> Result<Op, Stop> {
    match kind {
        "len" => Ok(Op::Len),
        "read" => Ok(Op::Read),
        "write" => Ok(Op::Write),
        "set_len" => Ok(Op::SetLen),
        "sync" => Ok(Op::Sync),
        _ => Err(Stop::Wrong("unknown kind of call")),
    }
}

fn add_number(list: &mut Vec<u64>, text: &str) -> Result<(), Stop> {
    let n = number(text)?;
    Ok(list.push(n)?)
}

impl Given {
    /// Nothing yet.
    pub fn new(alloc: Global) -> Given {
        Given {
            words: Vec::new(alloc),
            script: Vec::new(alloc),
            clock: Vec::new(alloc),
            fails: Vec::new(alloc),
            input_fails: Vec::new(alloc),
            output_fails: Vec::new(alloc),
            error_fails: Vec::new(alloc),
            room: 1 << 20,
            has_faults: false,
        }
    }

    /// `KIND FILE N`, `input N`, `output N` or `error N`: this call fails.
    pub fn add_fail(&mut self, alloc: Global, line: &str) -> Result<(), Stop> {
        self.has_faults = true;
        let (kind, rest) = split_word(line);
        match kind {
            "input" => add_number(&mut self.input_fails, rest),
            "output" => add_number(&mut self.output_fails, rest),
            "error" => add_number(&mut self.error_fails, rest),
            _ => self.add_store_fail(alloc, kind, rest),
        }
    }

    fn add_store_fail(&mut self, alloc: Global, kind: &str, rest: &str) -> Result<(), Stop> {
        let op = op_of(kind)?;
        let (file, nth) = split_word(rest);
        let nth = number(nth)?;
        let name = Name::new(alloc, file)?;
        Ok(self.fails.push(Fail { name, op, nth })?)
    }

    /// How many bytes the output takes.
    pub fn set_room(&mut self, text: &str) -> Result<(), Stop> {
        self.has_faults = true;
        self.room = count(text)? as u64;
        Ok(())
    }

    /// Moments of the clock.
    pub fn add_moments(&mut self, text: &str) -> Result<(), Stop> {
        for word in text.split_ascii_whitespace() {
            let Ok(moment) = word.parse::<i64>() else {
                return Err(Stop::Wrong("not a number"));
            };
            self.clock.push(moment)?;
        }
        Ok(())
    }

    /// Words of the command line.
    pub fn add_words(&mut self, alloc: Global, text: &str) -> Result<(), Stop> {
        for word in text.split_ascii_whitespace() {
            self.words.push(String::from_str(alloc, word)?)?;
        }
        Ok(())
    }

    /// A line of the script, with what ends it.
    pub fn add_line(&mut self, text: &str, end: &str) -> Result<(), Stop> {
        self.script.extend_from_slice(text.as_bytes())?;
        Ok(self.script.extend_from_slice(end.as_bytes())?)
    }
}
