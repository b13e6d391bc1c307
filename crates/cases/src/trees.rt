//! The trees that texts are read as, in every position and with invisible groups, what is shown of them and where they are.

use exprfmt_run::run::named;
use rows::groups::{printed, text_of, then, tokens_of, whole};
use rows::{are_equal, with, words};
use std::alloc::Global;
use syn_expr::{
    Expr, ParseBuffer, Position, Result, Spanned, expr_to_text, flatten, parse_str, tidy_text,
};

/// An expression that was read, without its parentheses.
pub fn flattened(read: Result<Expr>) -> Result<Expr> {
    match read {
        Ok(expr) => flatten(expr),
        Err(e) => Err(e),
    }
}

/// The expression that a whole text is, without its parentheses.
pub fn flat(alloc: Global, text: &str) -> Result<Expr> {
    flattened(whole(alloc, text))
}

/// The kind of an expression and its printed text, as in `Binary: a + b`.
pub fn described(alloc: Global, expr: &Expr) -> Result<String> {
    let (shown, printed) = (debug(alloc, expr)?, printed(alloc, expr)?);
    let (kind, _) = shown.as_str().split_once('(').unwrap_or(("", ""));
    Ok(format!(in alloc; "{kind}: {printed}")?)
}

/// The expression that is read in the position of this name.
pub fn read_in(position: &str, input: &mut ParseBuffer<'_>) -> Result<Expr> {
    named(position).unwrap_or(Position::Plain).parse(input)
}

/// The kind and the printed text of the expression that a text begins with in a position, then `then` and what is left.
pub fn start(alloc: Global, position: &str, text: &str) -> Result<String> {
    let tokens = tokens_of(alloc, text)?;
    let mut input = ParseBuffer::new(&tokens)?;
    let shown = with(read_in(position, &mut input), |expr| described(alloc, expr));
    then(shown, &input)
}

/// Whether two texts are read as the same tree, but for their parentheses.
pub fn same(alloc: Global, texts: &str) -> Result<String> {
    let (one, other) = texts.split_once('~').unwrap_or((texts, ""));
    let is_same = are_equal(flat(alloc, one), flat(alloc, other))?;
    words(alloc, if is_same { "equal" } else { "different" })
}

/// What is left behind the expression that a text begins with in a position, which has to be that of another text.
pub fn stops(alloc: Global, position: &str, texts: &str) -> Result<String> {
    let (text, tree) = texts.split_once('~').unwrap_or((texts, ""));
    let tokens = tokens_of(alloc, text)?;
    let mut input = ParseBuffer::new(&tokens)?;
    let read = flattened(read_in(position, &mut input));
    if are_equal(read, flat(alloc, tree))? {
        text_of(alloc, input.trees())
    } else {
        words(alloc, "another tree")
    }
}

/// What `Debug` shows of an expression.
pub fn debug(alloc: Global, expr: &Expr) -> Result<String> {
    Ok(format!(in alloc; "{expr:?}")?)
}

/// The tidy text of an expression in a position. It is read again: if `expr_to_text` then answers another text than before, the
/// answer is `another tree`.
pub fn tidied(alloc: Global, position: &str, expr: &Expr) -> Result<String> {
    let position = named(position).unwrap_or(Position::Plain);
    let printed = expr_to_text(alloc, expr, position)?;
    let text = tidy_text(alloc, expr, position)?;
    let read = parse_str::<Expr>(alloc, text.as_str());
    let again = with(read, |read| expr_to_text(alloc, read, position))?;
    if again.as_str() == printed.as_str() {
        Ok(text)
    } else {
        words(alloc, "another tree")
    }
}

/// Where an expression is.
pub fn span(alloc: Global, expr: &Expr) -> Result<String> {
    match expr.span(alloc)? {
        Some(span) => Ok(format!(in alloc; "{}..{}", span.lo, span.hi)?),
        None => words(alloc, "nowhere"),
    }
}
