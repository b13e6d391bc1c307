//! Runs of `exprfmt` over a text, whose reads and writes may fail.

use exprfmt_run::run::{args_failed, is_bare, named, read_rest, run, usage, write_whole};
use rows::{with, words};
use std::alloc::Global;
use std::io::{self, Read, Write};
use syn_expr::{LitByteStr, Position, Result, parse_str};

/// What the words of a call ask for: the position, and whether `bare` comes after it.
fn asked(words: &str) -> Option<(Position, bool)> {
    match words.split_once(' ') {
        Some((word, more)) if is_bare(more) => Some((named(word)?, true)),
        Some(_) => None,
        None => Some((named(words)?, false)),
    }
}

/// What was written.
fn shown(bytes: &[u8]) -> &str {
    match str::from_utf8(bytes) {
        Ok(text) => text,
        Err(_) => "no text",
    }
}

/// The one line that is written: to the output with status 0, or to the errors with status 1 or 2.
fn written(alloc: Global, status: u8, output: &str, errors: &str) -> Result<String> {
    let (front, line) = match status {
        0 if errors.is_empty() && !output.starts_with("refused at ") => ("", output),
        1 if output.is_empty() => ("refused at ", errors),
        2 if output.is_empty() => ("usage: ", errors),
        _ => return words(alloc, "another status"),
    };
    match line.strip_suffix('\n') {
        Some(line) if line.starts_with(front) => words(alloc, line),
        _ => words(alloc, "another line"),
    }
}

/// The line for a text, or the usage where the words of the call ask for nothing.
pub fn exprfmt(alloc: Global, of: &str, text: &str) -> Result<String> {
    let mut input = text.as_bytes();
    let (mut output, mut errors) = (Vec::new(alloc), Vec::new(alloc));
    let read = || read_rest(alloc, &mut input);
    let mut write = |text: &[u8]| write_whole(&mut output, text);
    let mut report = |text: &[u8]| write_whole(&mut errors, text);
    let status = match asked(of) {
        Some((position, bare)) => run(alloc, position, bare, read, &mut write, &mut report),
        None => usage(&mut report),
    };
    let (output, errors) = (output.as_slice(), errors.as_slice());
    written(alloc, status, shown(output), shown(errors))
}

/// What a word of the arguments is.
pub fn word(alloc: Global, text: &str) -> Result<String> {
    match named(text) {
        Some(_) => words(alloc, "a position"),
        None => words(alloc, if is_bare(text) { "bare" } else { "no word" }),
    }
}

/// Gives one byte at a read, and fails at the read that has this number.
#[derive(Drop)]
struct Failing<'a> {
    bytes: &'a [u8],
    left: u32,
}

impl<'a> Read for Failing<'a> {
    fn read(&mut self, buf: &mut [u8]) -> io::Result<usize> {
        if self.left == 0 {
            return Err(io::ErrorKind::Other.into());
        }
        self.left -= 1;
        match (self.bytes.split_first(), buf.split_first_mut()) {
            (Some((byte, more)), Some((place, _))) => {
                *place = *byte;
                self.bytes = more;
                Ok(1)
            }
            _ => Ok(0),
        }
    }
}

/// Takes one byte at a write, and nothing at the write that has this number. That and each after it fails with this kind, or takes
/// nothing if there is none. Where it is interrupted, each second one after it is.
#[derive(Drop)]
struct Slow {
    taken: Vec<u8>,
    left: u32,
    fault: Option<io::ErrorKind>,
}

impl Slow {
    fn new(alloc: Global, left: u32, fault: &str) -> Slow {
        let fault = match fault {
            "interrupted" => Some(io::ErrorKind::Interrupted),
            "nothing" => None,
            _ => Some(io::ErrorKind::Other),
        };
        let taken = Vec::new(alloc);
        Slow { taken, left, fault }
    }
}

impl Write for Slow {
    fn write(&mut self, buf: &[u8]) -> io::Result<usize> {
        if self.left == 0 {
            let Some(kind) = self.fault else {
                return Ok(0);
            };
            if kind == io::ErrorKind::Interrupted {
                self.left = 1;
            }
            return Err(kind.into());
        }
        self.left -= 1;
        match buf.first() {
            Some(byte) => match self.taken.push(*byte) {
                Ok(()) => Ok(1),
                Err(_) => Err(io::ErrorKind::OutOfMemory.into()),
            },
            None => Ok(0),
        }
    }

    fn flush(&mut self) -> io::Result<()> {
        Ok(())
    }
}

/// The status of a run by itself over the bytes of a literal, its output and its errors, where the reads of the input, the writes
/// of the errors or those of the output end so at this number.
pub fn with_fault(alloc: Global, of: &str, literal: &str) -> Result<String> {
    let (fault, number) = of.split_once(' ').unwrap_or((of, ""));
    let number = number.parse::<u32>().unwrap_or(0);
    let (left, left_out, left_err) = match fault {
        "input" => (number, u32::MAX, u32::MAX),
        "errors" => (u32::MAX, u32::MAX, number),
        _ => (u32::MAX, number, u32::MAX),
    };
    let literal = parse_str::<LitByteStr>(alloc, literal);
    let Some(bytes) = with(literal, |it| Ok(it.value(alloc).ok()))? else {
        return words(alloc, "no bytes");
    };
    let bytes = bytes.as_slice();
    let mut output = Slow::new(alloc, left_out, fault);
    let mut errors = Slow::new(alloc, left_err, fault);
    let mut input = Failing { bytes, left };
    let read = || read_rest(alloc, &mut input);
    let mut write = |text: &[u8]| write_whole(&mut output, text);
    let mut report = |text: &[u8]| write_whole(&mut errors, text);
    let status = run(alloc, Position::Plain, false, read, &mut write, &mut report);
    let (output, errors) = (output.taken.as_slice(), errors.taken.as_slice());
    Ok(format!(in alloc; "{status}, {}, {}", shown(output), shown(errors))?)
}

/// The status and the errors where there are no arguments: since memory ran out, or since one is no text.
pub fn no_arguments(alloc: Global, why: &str) -> Result<String> {
    let kind = match why {
        "memory" => io::ErrorKind::OutOfMemory,
        _ => io::ErrorKind::InvalidData,
    };
    let mut errors = Vec::new(alloc);
    let mut report = |text: &[u8]| write_whole(&mut errors, text);
    let status = args_failed(&mut report, &kind.into());
    Ok(format!(in alloc; "{status}, {}", shown(errors.as_slice()))?)
}
