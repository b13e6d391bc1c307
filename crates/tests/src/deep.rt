//! Trees that nest hundreds deep. They are no rows of `cases`: that program is built by Rattle's own compiler, too, which takes
//! more of the stack for a call.

use crate::small::flattened;
use rows::{with, words};
use std::alloc::Global;
use std::test::Fail;
use syn_expr::{
    Expr, FixupContext, Position, Result, expr_to_text, parse_str, print_counted, to_text,
};

/// What is printed of an expression of this many nodes, where each is visited at least once and at most twice.
fn counted(alloc: Global, nodes: u64, expr: &Expr) -> Result<String> {
    let (tokens, visits) = print_counted(alloc, expr, FixupContext::NONE)?;
    if nodes <= visits && visits <= nodes.saturating_mul(2) {
        to_text(&tokens)
    } else {
        words(alloc, "more or fewer visits")
    }
}

/// Checks what is printed of a text of this many nodes, as it is and without its parentheses.
fn check(alloc: Global, nodes: u64, text: &str, bare: &str) -> std::result::Result<(), Fail> {
    let own = with(
        parse_str(alloc, text),
        |expr| expr_to_text(alloc, expr, Position::Plain),
    )?;
    let printed = with(
        flattened(parse_str(alloc, text)),
        |expr| counted(alloc, nodes, expr),
    )?;
    if own.as_str() == text && printed.as_str() == bare {
        Ok(())
    } else {
        Err(Fail::new(format_args!(
            "{text} is printed as {own}, and without its parentheses as {printed}"
        )))
    }
}

#[test]
fn pairs(rt: HostRuntime) -> std::result::Result<(), Fail> {
    let (open, close) = ("(".repeat(rt.alloc(), 200)?, ")".repeat(rt.alloc(), 200)?);
    let text = format!(in rt.alloc(); "{open}x{close}")?;
    check(rt.alloc(), 1, text.as_str(), "x")
}

#[test]
fn sums(rt: HostRuntime) -> std::result::Result<(), Fail> {
    let terms = "x + ".repeat(rt.alloc(), 299)?;
    let text = format!(in rt.alloc(); "{terms}x")?;
    check(rt.alloc(), 599, text.as_str(), text.as_str())
}

#[test]
fn jumps(rt: HostRuntime) -> std::result::Result<(), Fail> {
    let jumps = "a + return ".repeat(rt.alloc(), 199)?;
    let text = format!(in rt.alloc(); "(a + return {jumps}x) + 1")?;
    let bare = format!(in rt.alloc(); "a + (return {jumps}x) + 1")?;
    check(rt.alloc(), 603, text.as_str(), bare.as_str())
}
