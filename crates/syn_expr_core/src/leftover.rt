//! Leftovers of indices: tokens in the brackets after a base that nothing reads, as the `b` of `x[a b]`. They are reported
//! last: only where everything after them can be read. `x[a b] + c` is refused at the `b`, and `x[a b] +` at its end.

ghost use Rattle.std.specs.Prelude.{◌≡◌};
ghost use Rattle.syn_tokens.specs.declared.error.ErrorKind.TheVariants.{OutOfMemory};

use crate::held::HeldExpr;
use crate::parse::expr_at;
use syn_expr_parse::leftover::without_leftover;
use syn_expr_spec::kinds::Place;
use syn_tokens::buffer::ParseBuffer;
use syn_tokens::error::{Error, ErrorKind, Result};
use syn_tokens::tree::{Span, TokenStream};

/// How many leftovers are skipped at most. Where there are more, the first is reported.
const MOST: u32 = 16;

/// Where a refusal at the end of the input is.
fn end_of(input: &ParseBuffer<'_>) -> Result<Span> {
    let mut end = input.fork()?;
    end.skip(input.len());
    Ok(end.span())
}

/// Reads the expression that a list begins with, by the rules of a place, and drops it. A refusal at the end of the list is
/// reported at `end`.
fn read_list(list: &TokenStream, place: Place, end: Span) -> Result<()> {
    let mut input = ParseBuffer::new(list)?;
    let end_of_list = end_of(&input)?;
    match expr_at(&mut input, place) {
        Ok(x) => {
            // The drop of an expression is proved once, for `HeldExpr`.
            let _held = HeldExpr {
                expr: Box::into_inner(x),
            };
            Ok(())
        }
        Err(e) if e.span == end_of_list => Err(Error::new(end, e.kind)),
        Err(e) => Err(e),
    }
}

/// Reads the expression at a place without the leftover that begins at `first`, and then without each further one at which
/// reading is refused. What is left is refused as it would be by itself. A token that nothing reads and that is no leftover
/// of an index is still there when it is read again, so that refusal stays.
fn read_without(input: &ParseBuffer<'_>, place: Place, first: Span) -> Result<()> {
    let end = end_of(input)?;
    let mut leftover = first;
    let mut list = without_leftover(input.alloc(), input.trees(), leftover)?;
    for _ in 0..MOST {
        match read_list(&list, place, end) {
            Err(e) if e.kind == ErrorKind::UnexpectedToken && e.span != leftover => {
                leftover = e.span;
                list = without_leftover(input.alloc(), list.trees(), leftover)?;
            }
            tried => return tried,
        }
    }
    Ok(())
}

/// The refusal to report where an expression at a place of the input is refused. It is the given one, unless that is at a
/// leftover of an index and what comes after the leftover is refused too: then it is the later one.
pub(crate) fn first_refusal(input: &ParseBuffer<'_>, place: Place, refusal: Error) -> Error
    ensures memory { refusal.kind ≡ OutOfMemory → result.kind ≡ OutOfMemory }
{
    match refusal.kind {
        ErrorKind::UnexpectedToken => match read_without(input, place, refusal.span) {
            Ok(()) => refusal,
            Err(later) => later,
        },
        _ => refusal,
    }
}
