//! `exprs [OPTION].. [FILE]..`: reads many expressions, one a line or with blank lines between, from files or from standard
//! input, and prints each on a line for one position, as `exprfmt` prints one. `exprs --help` lists the options.
//!
//! An expression that is refused is reported on standard error with its file, its line and its column, and those after it
//! are printed all the same. Status 0: each was printed. Status 1: one was refused, memory ran out, or reading or writing
//! failed. Status 2: a word of the call is none of the program; the usage is on standard error.
#![tactic(auto)]

mod answer;
mod args;
mod kinds;
mod run;

use args::{Call, Settings};
use kinds::{Counts, NAMES};
use run::{write_counts, write_file};
use std::io::{Read, Write};
use std::process::ExitCode;
use std::{env, fs, io};

/// What the program is, as `--version` says.
const VERSION: &[u8] = b"exprs 0.1.0\n";

/// What `--help` says.
const HELP: &[u8] = b"usage: exprs [OPTION].. [FILE]..

Reads expressions, one a line, and prints each as its tokens with the parentheses
that it needs. Without FILE, or where FILE is -, standard input is read.

  --plain    by itself, as in delimiters (this is so where no position is given)
  --stmt     as a statement
  --cond     as a condition before a block
  --arm      as the body of a match arm
  --bare     without the parentheses that it has; those alone are printed that it needs
  --blocks   an expression may have several lines, and ends before a blank one
  --dump     shows each as its tree, and does not print it
  --tidy     with the white space that people write: a.b(&x)? and not a . b (& x) ?
  --kinds    counts the kinds of the expressions, and prints these counts alone
  --help     says this
  --version  says which version it is

Status 1: an expression was refused, or reading or writing failed. Those that were
read are printed all the same.
";

/// What is said where a word of the call is none of the program.
const USAGE: &[u8] = b"usage: exprs [OPTION].. [FILE]..; exprs --help lists the options\n";

fn main(rt: HostRuntime) -> ExitCode {
    let status = match answer_call(&rt) {
        Ok(status) => status,
        Err(e) => {
            let _ = writeln!(rt.stderr(), "exprs: {e}");
            1
        }
    };
    ExitCode::from(status)
}

/// Does what the words of the call ask. The result is the status.
fn answer_call(rt: &HostRuntime) -> io::Result<u8> {
    let mut words = env::args(rt)?;
    let _ = words.next();
    match args::asked(rt.alloc(), words)? {
        Call::Help => {
            io::writer(rt).write_all(HELP)?;
            Ok(0)
        }
        Call::Version => {
            io::writer(rt).write_all(VERSION)?;
            Ok(0)
        }
        Call::Unknown => {
            rt.stderr().write_all(USAGE)?;
            Ok(2)
        }
        Call::Run { settings, files } => run_files(rt, settings, files.as_slice()),
    }
}

/// Runs over each file, or over standard input where there is none.
fn run_files(rt: &HostRuntime, settings: Settings, files: &[String]) -> io::Result<u8> {
    let mut counts = Counts::new();
    let mut status = 0;
    if files.is_empty() && !run_file(rt, settings, "-", &mut counts)? {
        status = 1;
    }
    for file in files {
        if !run_file(rt, settings, file.as_str(), &mut counts)? {
            status = 1;
        }
    }
    if settings.kinds {
        write_counts(rt.alloc(), &counts.of, &NAMES, &mut io::writer(rt))?;
    }
    Ok(status)
}

/// Runs over one file. The result is whether each expression of it was read.
fn run_file(
    rt: &HostRuntime,
    settings: Settings,
    file: &str,
    counts: &mut Counts,
) -> io::Result<bool> {
    let read = if file == "-" {
        let mut bytes = Vec::new(rt.alloc());
        match rt.reader().read_to_end(&mut bytes) {
            Ok(_) => Ok(bytes),
            Err(e) => Err(e),
        }
    } else {
        fs::read(rt, file)
    };
    let bytes = match read {
        Ok(bytes) => bytes,
        Err(e) => {
            writeln!(rt.stderr(), "{file}: {e}")?;
            return Ok(false);
        }
    };
    let name = if file == "-" { "<stdin>" } else { file };
    write_file(
        rt.alloc(),
        settings,
        name,
        bytes.as_slice(),
        counts,
        &mut io::writer(rt),
        &mut rt.stderr(),
    )
}
