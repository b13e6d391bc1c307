//! Trees as texts to look at.

ghost use Rattle.std.specs.Prelude.{◌≡◌, IfErr};

use std::alloc::Global;
use syn_expr_core::expr::Expr;
use syn_tokens::error::{ErrorKind, Result};

/// Whether a place begins at this line of what `{:#?}` shows.
fn begins_place(line: &str) -> bool {
    line == "span: Span {" || line == "spans: [" || line == "apostrophe: Span {"
}

/// Adds a line that is indented so. What closes a struct without fields comes at the end of the line that opens it.
fn push_line(text: &mut String, indent: &str, line: &str) -> Result<()>
    ensures memory { IfErr result (λ e. e.kind ≡ ErrorKind.OutOfMemory) }
{
    if line.starts_with('}') && text.ends_with("{\n") {
        text.pop();
    } else {
        text.push_str(indent)?;
    }
    text.push_str(line)?;
    text.push('\n')?;
    Ok(())
}

/// A tree as a text to look at: its kinds and fields, each on a line of its own, indented as `{:#?}` shows them, without places.
/// `-a` begins so:
///
/// ```text
/// Unary(
///     ExprUnaryOf {
///         attrs: [],
///         op: Neg(
///             Sign {},
///         ),
/// ```
///
/// Refused only where memory runs out (`OutOfMemory`).
pub fn dump(alloc: Global, expr: &Expr) -> Result<String>
    ensures memory { IfErr result (λ e. e.kind ≡ ErrorKind.OutOfMemory) }
{
    let shown = format!(in alloc; "{expr:#?}")?;
    let mut text = String::new(alloc);
    let mut place: Option<usize> = None;
    for whole in shown.lines() {
        let line = whole.trim_start();
        let depth = whole.len().saturating_sub(line.len());
        match place {
            Some(outer) if depth > outer => {}
            Some(_) => place = None,
            None if begins_place(line) => place = Some(depth),
            None => push_line(
                &mut text,
                whole.strip_suffix(line).unwrap_or_default(),
                line,
            )?,
        }
    }
    Ok(text)
}
