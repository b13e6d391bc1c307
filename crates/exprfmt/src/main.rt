//! `exprfmt plain|stmt|cond|arm [bare]`: reads the text of an expression from standard input and prints it for this
//! position, as its tokens with the parentheses that they need there: by itself, as a statement, as a condition before a
//! block, or as the body of a match arm. With `bare` it first loses the parentheses that it has, and is printed with
//! those alone that it needs.
//!
//! Status 0: the printed line is on standard output. Status 1: the input was refused, memory ran out, or reading or writing
//! failed; one line on standard error says so. Status 2: the arguments are no words of the program; the usage is on standard
//! error.
#![tactic(auto)]

use exprfmt_run::run::{args_failed, is_bare, named, read_rest, run, usage, write_whole};
use std::process::ExitCode;
use std::{env, io};
use syn_expr::print::Position;

fn main(rt: HostRuntime) -> ExitCode {
    let (mut input, mut stdout, mut stderr) = (rt.reader(), io::writer(&rt), rt.stderr());
    let read = || read_rest(rt.alloc(), &mut input);
    let mut output = |text: &[u8]| write_whole(&mut stdout, text);
    let mut errors = |text: &[u8]| write_whole(&mut stderr, text);
    let status = match env::args(&rt) {
        Ok(args) => match asked(args) {
            Some((position, bare)) => {
                run(rt.alloc(), position, bare, read, &mut output, &mut errors)
            }
            None => usage(&mut errors),
        },
        Err(e) => args_failed(&mut errors, &e),
    };
    ExitCode::from(status)
}

/// What the arguments ask for: the position, and whether `bare` comes after it.
fn asked(mut args: env::Args) -> Option<(Position, bool)> {
    let _ = args.next()?;
    let position = named(args.next()?.as_str())?;
    let bare = match args.next() {
        Some(word) if is_bare(word.as_str()) => true,
        Some(_) => return None,
        None => false,
    };
    if args.next().is_some() {
        return None;
    }
    Some((position, bare))
}
