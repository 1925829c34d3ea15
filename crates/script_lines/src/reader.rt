ghost use Rattle.std.specs.Prelude.{◌≡◌, ◌⊎◌, ◌↔◌, ◌+◌, ◌<◌, ◌≤◌, ◌++◌, ◌∷◌, [], List, ℕ, length, take};
ghost use Rattle.std.specs.Prelude.{not, true, false, IsTrue, IfOk, OnErr, IsErrOf, Ok, Err};
ghost use Rattle.std.specs.List.{Contains};
ghost use Rattle.outside.specs.Causes.{Rose};
ghost use Rattle.script_lines.specs.Lines.{HasNoLf, HasReadAll, IsNext, most_kept, most_taken, spent};

use crate::pieces::{MOST_KEPT, append_kept, find_lf, read_piece};
use h5_base::NoMemory;
use outside::Source;
use std::alloc::Global;
use std::marker::Model;
use thiserror::Error;

/// A read asks for so many bytes at most.
const PIECE_BYTES: usize = 8_192;

/// So many bytes are taken of a source at most.
const MOST_TAKEN: u64 = 4_294_967_296;

/// Why no line was read.
#[derive(Clone, Copy, Debug, PartialEq, Eq, Error)]
pub enum ReadStop {
    #[error("fault")]
    Failed,
    /// 4,294,967,296 bytes were taken, and the source hasn't answered its end.
    #[error("too long")]
    Limit,
}

/// What came next in a script.
#[derive(Clone, Copy, Debug, PartialEq, Eq)]
pub enum NextLine {
    /// A line that an LF ends.
    Line,
    /// The last line, which has a byte and no LF. The source answered its end.
    Last,
    /// No further line. The source answered its end.
    End,
}

/// Reads one source line by line, and asks it no further once it answered its end. Memory is taken when it is made,
/// for one line and one piece; a line is kept to its first 65,537 bytes.
#[derive(Debug, Drop)]
pub struct LineReader {
    line: Vec<u8>,
    piece: Vec<u8>,
    at: usize,
    end: usize,
    taken: u64,
    ended: bool,
}

impl Model for LineReader {
    ghost use Rattle.std.specs.Prelude.{slice_range, vec_len, vec_capacity};
    ghost use Rattle.script_lines.specs.Lines.{Reading, AreKept, HasRoom};

    ghost Value = { Reading };

    ghost view = { λ r. record {
      line = r.line.items;
      held = slice_range r.piece.items r.at r.end;
      taken = r.taken;
      ended = r.ended;
    } };

    ghost invariant = { λ r. AreKept r.piece.items r.at r.end r.taken r.ended
        × HasRoom (vec_len r.line) (vec_capacity r.line) };
}

impl LineReader {
    /// A reader that holds nothing yet.
    pub fn new(alloc: Global) -> Result<LineReader, NoMemory>
        ensures { IfOk result (λ r. r ≡ record { line = []; held = []; taken = 0; ended = false }) }
    {
        let Ok(line) = Vec::with_capacity(alloc, MOST_KEPT) else {
            return Err(NoMemory);
        };
        let Ok(piece) = vec![in alloc; 0; PIECE_BYTES] else {
            return Err(NoMemory);
        };
        Ok(LineReader {
            line,
            piece,
            at: 0,
            end: 0,
            taken: 0,
            ended: false,
        })
    }

    /// The line found last, without its LF: its first 65,537 bytes.
    pub fn line(&self) -> &[u8]
        ensures { result.now ≡ self.now.line }
    {
        self.line.as_slice()
    }

    /// Moves what is held to the line, up to an LF, which is dropped: whether there was one.
    fn take_line(&mut self) -> bool
        ensures ended { result ≡ true → (front : List ℕ) × HasNoLf front × (self.old.held ≡ front ++ 10 ∷ self.new.held)
            × (self.new.line ≡ take most_kept (self.old.line ++ front)) }
        ensures open { result ≡ false → HasNoLf self.old.held × (self.new.held ≡ [])
            × (self.new.line ≡ take most_kept (self.old.line ++ self.old.held)) }
        ensures taken { self.new.taken ≡ self.old.taken }
        ensures same { self.new.ended ≡ self.old.ended }
        ensures bounded { self.new.taken ≤ most_taken }
        ensures within { length self.old.held ≤ self.old.taken }
    {
        let held = &self.piece[self.at..self.end];
        match find_lf(held) {
            Some(count) => {
                append_kept(&mut self.line, &held[..count]);
                self.at += count + 1;
                true
            }
            None => {
                append_kept(&mut self.line, held);
                self.at = self.end;
                false
            }
        }
    }

    /// Takes the next piece of the source, where nothing is held: whether there was one.
    fn fill<I: Source>(&mut self, source: &mut I) -> Result<bool, ReadStop>
        requires { self.old.held ≡ [] }
        ensures line { self.new.line ≡ self.old.line }
        ensures taken { self.new.taken ≡ self.old.taken + length self.new.held }
        ensures bounded { self.new.taken ≤ most_taken }
        ensures some { IfOk result (λ more. IsTrue more ↔ (0 < length self.new.held)) }
        ensures bytes { IsTrue I.tells → I.left source.old ≡ self.new.held ++ I.left source.new }
        ensures end { IsTrue I.tells → result ≡ Ok false → I.left source.old ≡ [] }
        ensures fewer { result ≡ Ok false → self.new.taken < most_taken }
        ensures ended { IfOk result (λ more. self.new.ended ≡ not more) }
        ensures stopped { OnErr result (self.new.held ≡ []) }
        ensures same { OnErr result (self.new.ended ≡ self.old.ended) }
        ensures limit { IsErrOf result ReadStop.Limit → self.new.taken ≡ most_taken }
        ensures failed { IsErrOf result ReadStop.Failed → Rose (I.faults source.old) (I.faults source.new) }
        ensures later { I.faults source.old ≤ I.faults source.new }
        ensures calm { ¬ IsErrOf result ReadStop.Failed → I.faults source.new ≡ I.faults source.old }
        // Once so many bytes were taken, the source isn't asked.
        ensures unasked { self.old.taken ≡ most_taken → (result ≡ Err ReadStop.Limit) × (source.new ≡ source.old) }
    {
        let room = MOST_TAKEN - self.taken;
        if room == 0 {
            return Err(ReadStop::Limit);
        }
        let most = room.min(PIECE_BYTES as u64) as usize;
        let Ok(count) = read_piece(source, self.piece.as_mut_slice(), most) else {
            return Err(ReadStop::Failed);
        };
        self.at = 0;
        self.end = count;
        self.taken += count as u64;
        self.ended = count == 0;
        Ok(count > 0)
    }

    /// Finds the next line of a source, always the same one. After `Last` and `End` each further call answers `End`
    /// and doesn't ask the source; after a stop, what was taken of the line that was begun is lost.
    pub fn next<I: Source>(&mut self, source: &mut I) -> Result<NextLine, ReadStop>
        // It is the source that was read before.
        requires { IsTrue I.tells → HasReadAll self.old (I.left source.old) }
        // The line is the next one of what is held and what the source has left.
        ensures next { IsTrue I.tells → IfOk result
            (λ n. IsNext n self.new.line (self.old.held ++ I.left source.old) (self.new.held ++ I.left source.new)) }
        // Where none is read, what was taken since the last line has no LF.
        ensures stopped { IsTrue I.tells → OnErr result ((begun : List ℕ) × HasNoLf begun
            × (self.old.held ++ I.left source.old ≡ begun ++ I.left source.new)) }
        ensures lost { OnErr result (self.new.held ≡ []) }
        // A fault is answered where the count of the source rose, and where none is answered it is as it was.
        ensures failed { IsErrOf result ReadStop.Failed → Rose (I.faults source.old) (I.faults source.new) }
        ensures later { I.faults source.old ≤ I.faults source.new }
        ensures calm { ¬ IsErrOf result ReadStop.Failed → I.faults source.new ≡ I.faults source.old }
        // Once 4,294,967,296 bytes were taken the source isn't asked, so that none of its faults is answered.
        ensures unasked { self.old.taken ≡ most_taken → source.new ≡ source.old }
        ensures asked_below { IsErrOf result ReadStop.Failed → self.new.taken < most_taken }

        // 4,294,967,296 bytes were taken before a read answered the end; with an end fewer were.
        ensures limit { IsErrOf result ReadStop.Limit → self.new.taken ≡ most_taken }
        ensures ended { (result ≡ Ok NextLine.Last) ⊎ (result ≡ Ok NextLine.End) → self.new.taken < most_taken }
        ensures known { (result ≡ Ok NextLine.Last) ⊎ (result ≡ Ok NextLine.End) → IsTrue self.new.ended }
        ensures counted { IsTrue I.tells → self.new.taken + length (I.left source.new) ≡ self.old.taken + length
            (I.left source.old) }

        // A line whose LF is held comes before the source is asked again.
        ensures held { Contains self.old.held 10 → (result ≡ Ok NextLine.Line) × (source.new ≡ source.old) }
        // A source that answered its end has nothing left, and isn't asked again.
        ensures read_all { IsTrue I.tells → HasReadAll self.new (I.left source.new) }
        ensures asked_once { IsTrue self.old.ended → (result ≡ Ok NextLine.End) × (source.new ≡ source.old) }
        // Each line takes at least one byte.
        ensures progress { result ≡ Ok NextLine.Line → spent self.old < spent self.new }
        ensures bounded { spent self.new ≤ most_taken }
    {
        self.line.clear();
        if self.ended {
            return Ok(NextLine::End);
        }
        loop {
            if self.take_line() {
                return Ok(NextLine::Line);
            }
            if !self.fill(source)? {
                return Ok(if self.line.is_empty() {
                    NextLine::End
                } else {
                    NextLine::Last
                });
            }
        }
    }
}
