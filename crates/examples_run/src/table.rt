//! Rows of a text: each is a command line with what it reads, and what it is to print and to tell.

use script::hexadecimal;
use std::alloc::{AllocError, Global};

/// A row, as far as it was read: the words of a command line, what that reads, and what it is to print and to tell.
#[derive(Drop)]
pub struct Row<'a> {
    words: Vec<&'a str>,
    input: Vec<u8>,
    output: Vec<u8>,
    errors: Vec<u8>,
    is_end: bool,
    is_start: bool,
}

/// What a command line prints and tells, and its status.
#[derive(Drop)]
pub struct Done {
    pub output: Vec<u8>,
    pub errors: Vec<u8>,
    pub status: u8,
}

fn push_line(bytes: &mut Vec<u8>, line: &str) -> Result<(), AllocError> {
    bytes.extend_from_slice(line.as_bytes())?;
    bytes.push(b'\n')?;
    Ok(())
}

/// Adds a line as often as the number before it says.
fn push_often(bytes: &mut Vec<u8>, text: &str) -> Result<(), AllocError> {
    if let Some((count, line)) = text.split_once(' ') {
        for _ in 0..count.parse::<u32>().unwrap_or(0) {
            push_line(bytes, line)?;
        }
    }
    Ok(())
}

/// Adds the bytes that digits spell.
fn push_bytes(alloc: Global, bytes: &mut Vec<u8>, digits: &str) -> Result<(), AllocError> {
    if let Some(spelled) = hexadecimal(alloc, digits.as_bytes())? {
        bytes.extend_from_slice(&spelled)?;
    }
    Ok(())
}

impl<'a> Row<'a> {
    /// A row of which nothing was read.
    pub fn new(alloc: Global) -> Row<'a> {
        Row {
            words: Vec::new(alloc),
            input: Vec::new(alloc),
            output: Vec::new(alloc),
            errors: Vec::new(alloc),
            is_end: false,
            is_start: false,
        }
    }

    /// Takes a line that tells something of the row: by its mark the words of the command line, a line that is read, one
    /// that is read so often, bytes that are read, that only the end of what is printed or the start of what is told
    /// follows, a line that is printed or one that is told.
    pub fn learn(&mut self, alloc: Global, mark: &str, text: &'a str) -> Result<(), AllocError> {
        match mark {
            "$" => self.words = text.split('|').collect(alloc)?,
            "<" => push_line(&mut self.input, text)?,
            "*" => push_often(&mut self.input, text)?,
            "x" => push_bytes(alloc, &mut self.input, text)?,
            "~" => self.is_end = true,
            "^" => self.is_start = true,
            ">" => push_line(&mut self.output, text)?,
            "!" => push_line(&mut self.errors, text)?,
            _ => {}
        }
        Ok(())
    }

    /// The words of the command line.
    pub fn words(&self) -> &[&'a str] {
        &self.words
    }

    /// What it reads.
    pub fn input(&self) -> &[u8] {
        &self.input
    }

    /// Forgets what was read of the row.
    pub fn clear(&mut self) {
        self.words.clear();
        self.input.clear();
        self.output.clear();
        self.errors.clear();
        self.is_end = false;
        self.is_start = false;
    }

    /// Whether a command line that did this does what the row says, and ends with this status.
    pub fn is_met(&self, done: &Done, status: &str) -> bool {
        let printed = if self.is_end {
            done.output.as_slice().ends_with(&self.output)
        } else {
            done.output.as_slice() == self.output.as_slice()
        };
        let told = if self.is_start {
            done.errors.as_slice().starts_with(&self.errors)
        } else {
            done.errors.as_slice() == self.errors.as_slice()
        };
        printed && told && status.parse::<u8>() == Ok(done.status)
    }
}
