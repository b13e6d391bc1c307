//! A place of a text, shown with the line that it is in.

ghost use Rattle.std.specs.Prelude.{◌≡◌, ◌+◌, ◌<◌, ◌^◌, length, map, take, replicate, chars, string_bytes, encode_utf8_all, IfOk};
ghost use Rattle.syn_report.specs.Place.{first_line};
ghost use Rattle.syn_report.specs.Report as spec;

use crate::place::{LineColumn, Place};
use std::alloc::{AllocError, Global};
use std::iter::repeat_n;
use syn_tokens::tree::Span;

/// `c`, `count` times.
fn repeated(alloc: Global, c: char, count: usize) -> Result<String, AllocError>
    ensures { IfOk result (λ s. string_bytes s ≡ encode_utf8_all (replicate count c)) }
{
    repeat_n(c, count).collect(alloc)
}

/// A character of the text, as it is shown.
pub(crate) fn shown(c: char) -> char
    ensures { result ≡ spec.shown c }
{
    if c == '\r' { ' ' } else { c }
}

/// The first line of a text, as it is shown.
fn shown_line(alloc: Global, text: &str) -> Result<String, AllocError>
    ensures { IfOk result (λ s. string_bytes s ≡ encode_utf8_all (map spec.shown (first_line (chars text.now)))) }
{
    text.chars()
        .take_while(|c| *c != '\n')
        .map(|c| shown(c))
        .collect(alloc)
}

/// What stands below the first `count` characters of a text.
fn blanks(alloc: Global, text: &str, count: usize) -> Result<String, AllocError>
    ensures { IfOk result (λ s. string_bytes s ≡ encode_utf8_all (map spec.blank (take count (chars text.now)))) }
{
    text.chars()
        .take(count)
        .map(|c| if c == '\t' { '\t' } else { ' ' })
        .collect(alloc)
}

/// How many characters the first line of a text has.
fn first_line_len(text: &str) -> usize
    ensures { result ≡ length (first_line (chars text.now)) }
{
    text.chars().take_while(|c| *c != '\n').count()
}

/// How many characters of a span are on its first line. `behind` is the text from the start of the span on.
pub(crate) fn marked_len(behind: &str, span: Span) -> usize
    ensures { result ≡ spec.marked_len span (chars behind.now) }
{
    let marked = Place::of(behind, span.hi.saturating_sub(span.lo)).count;
    marked.min(first_line_len(behind))
}

/// As many spaces as the number of a line has digits.
fn margin(alloc: Global, line: usize) -> Result<String, AllocError>
    ensures { IfOk result (λ s. string_bytes s ≡ spec.margin line) }
{
    let number = format!(in alloc; "{line}")?;
    repeated(alloc, ' ', number.as_str().len())
}

/// The title, the message and the place.
fn heading(
    alloc: Global,
    margin: &str,
    at: LineColumn,
    title: &str,
    message: &str,
) -> Result<String, AllocError>
    requires { at.column + 1 < 2 ^ 64 }
    ensures { IfOk result (λ s. string_bytes s ≡ spec.heading margin.now at title.now message.now) }
{
    let LineColumn { line, column } = at;
    let column = column + 1;
    format!(in alloc; "{title}: {message}\n{margin}--> {line}:{column}")
}

/// The line of a place, and the carets below it.
fn quoted(
    alloc: Global,
    margin: &str,
    line: usize,
    place: &Place<'_>,
    span: Span,
) -> Result<String, AllocError>
    ensures { IfOk result (λ s. string_bytes s ≡ spec.quoted margin.now line place.now.at.column (chars place.now.line.now) (chars place.now.behind.now) span) }
{
    let source = shown_line(alloc, place.line)?;
    let below = blanks(alloc, place.line, place.at.column)?;
    let carets = repeated(alloc, '^', marked_len(place.behind, span).max(1))?;
    format!(in alloc; "{margin} |\n{line} | {source}\n{margin} | {below}{carets}")
}

/// As `report_at`, for a text that has `lines` lines of its file before it.
pub(crate) fn picture(
    alloc: Global,
    lines: usize,
    text: &str,
    span: Span,
    title: &str,
    message: &str,
) -> Result<String, AllocError>
    ensures { IfOk result (λ s. string_bytes s ≡ spec.picture lines (chars text.now) span title.now message.now) }
{
    let place = Place::of(text, span.lo);
    let line = place.at.line.saturating_add(lines);
    let column = place.at.column;
    let spaces = margin(alloc, line)?;
    let side = spaces.as_str();
    let heading = heading(alloc, side, LineColumn { line, column }, title, message)?;
    let quoted = quoted(alloc, side, line, &place, span)?;
    format!(in alloc; "{heading}\n{quoted}")
}

/// A message about a span of a text, laid out as rustc does it: a title, such as `warning`, and the message; the line and the
/// column, both from 1; the line itself; and a caret below each character of the span.
///
/// ```text
/// warning: a clone is cloned
///  --> 1:16
///   |
/// 1 | f(a, b.clone().clone())
///   |                ^^^^^
/// ```
///
/// The span counts bytes of the text. Only its first line is marked, and there is one caret at least, even at the end of the
/// text. A tab before the span is a tab in the line of carets, too, so the carets are right wherever tabs stop. Any other
/// character counts as one column, even a wide one. A `\r` is shown as a space. There is no line end after the last line. The
/// call fails only if memory runs out.
pub fn report_at(
    alloc: Global,
    text: &str,
    span: Span,
    title: &str,
    message: &str,
) -> Result<String, AllocError>
    ensures { IfOk result (λ s. string_bytes s ≡ spec.picture 0 (chars text.now) span title.now message.now) }
{
    picture(alloc, 0, text, span, title, message)
}
