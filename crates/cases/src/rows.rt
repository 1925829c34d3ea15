use crate::items::{number, split_word};
use crate::stop::Stop;
use std::alloc::{AllocError, Global};

/// A line of a case file, with its number from 1.
#[derive(Clone, Copy)]
pub struct Line<'a> {
    pub at: usize,
    pub text: &'a str,
}

/// `case NAME` or `bytes NAME`, the lines that belong to it, and its rows.
#[derive(Drop)]
pub struct Block<'a> {
    pub head: Line<'a>,
    pub lines: Vec<Line<'a>>,
    pub rows: Vec<Line<'a>>,
    pub has_rows: bool,
    /// Some line keeps bytes for later cases.
    pub keeps: bool,
}

impl<'a> Block<'a> {
    /// A block that begins with this line.
    pub fn new(alloc: Global, head: Line<'a>) -> Block<'a> {
        Block {
            head,
            lines: Vec::new(alloc),
            rows: Vec::new(alloc),
            has_rows: false,
            keeps: false,
        }
    }

    /// Takes a line; one that is empty or begins with `#` says nothing.
    pub fn add(&mut self, line: Line<'a>) -> Result<(), AllocError> {
        if line.text.is_empty() || line.text.starts_with('#') {
            return Ok(());
        }
        if line.text == "rows" {
            self.has_rows = true;
        } else if self.has_rows {
            self.rows.push(line)?;
        } else {
            let (word, _) = split_word(line.text);
            self.keeps = self.keeps || word == "keep";
            self.lines.push(line)?;
        }
        Ok(())
    }
}

// What stands behind a `$`, with the column in the place of the digit.
fn add_column(out: &mut String, piece: &str, columns: &[String]) -> Result<(), Stop> {
    let mut chars = piece.chars();
    let digit = chars.next().and_then(|c| c.to_digit(10)).unwrap_or(0);
    let column = match digit.checked_sub(1) {
        Some(k) => columns.get(k as usize),
        None => None,
    };
    let Some(column) = column else {
        return Err(Stop::Wrong("no such column"));
    };
    out.push_str(column.as_str())?;
    Ok(out.push_str(chars.as_str())?)
}

/// A text with its columns put in for `$1` to `$9`.
pub fn fill_in(alloc: Global, text: &str, columns: &[String]) -> Result<String, Stop> {
    let mut out = String::new(alloc);
    for (i, piece) in text.split('$').enumerate() {
        if i == 0 {
            out.push_str(piece)?;
        } else {
            add_column(&mut out, piece, columns)?;
        }
    }
    Ok(out)
}

/// The first column of a row.
pub fn first_column(row: &str) -> &str {
    let (first, _) = row.split_once(" | ").unwrap_or((row, ""));
    first.trim_ascii()
}

/// The first and the last number of `A..B`, where a text is that.
pub fn range(text: &str) -> Result<Option<(u64, u64)>, Stop> {
    let Some((low, high)) = text.split_once("..") else {
        return Ok(None);
    };
    let (low, high) = (number(low)?, number(high)?);
    if high < low {
        return Err(Stop::Wrong("no number in this range"));
    }
    Ok(Some((low, high)))
}

// Adds a column, which may name those before it.
fn push_column(alloc: Global, text: &str, list: &mut Vec<String>) -> Result<(), Stop> {
    let text = fill_in(alloc, text.trim_ascii(), list.as_slice())?;
    Ok(list.push(text)?)
}

/// The columns of a row, for which ` | ` stands between two, with this one as the first.
pub fn columns(alloc: Global, row: &str, first: String) -> Result<Vec<String>, Stop> {
    let mut list = Vec::new(alloc);
    list.push(first)?;
    for text in row.split(" | ").skip(1) {
        push_column(alloc, text, &mut list)?;
    }
    Ok(list)
}
