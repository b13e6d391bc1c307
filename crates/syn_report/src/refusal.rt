//! Reports of errors: the token that was found, the other end of a delimiter, and what to write instead.

ghost use Rattle.std.specs.Prelude.{◌≡◌, ◌==◌, if◌then◌else◌, min, length, take, map, chars, string_bytes, encode_utf8_all, IfOk};
ghost use Rattle.syn_report.specs.Report as spec;

use crate::mistakes::{Site, help, is_malformed, is_of_token};
use crate::place::{Place, is_operator};
use crate::snippet::{marked_len, picture, shown};
use std::alloc::{AllocError, Global};
use syn_tokens::error::{Error, ErrorKind, LexError};
use syn_tokens::lexer::lex;
use syn_tokens::tree::Span;

/// How many characters of an operator a text begins with.
fn operator_len(text: &str) -> usize
    ensures { result ≡ length (spec.operator (chars text.now)) }
{
    text.chars().take_while(|c| is_operator(*c)).count()
}

/// How many characters of the operator at a place are before the place. There is no operator if none comes after it.
fn joined_before(place: &Place<'_>, len: usize) -> usize
    ensures { result ≡ (if len == 0 then 0 else place.now.joined) }
{
    if len == 0 { 0 } else { place.joined }
}

/// The span, widened to the whole operator in which it begins, if it begins in one.
fn whole(text: &str, span: Span) -> Span
    ensures { result ≡ spec.whole (chars text.now) span }
{
    let place = Place::of(text, span.lo);
    let len = operator_len(place.behind);
    Span {
        lo: span.lo.saturating_sub(joined_before(&place, len)),
        hi: span.hi.max(span.lo.saturating_add(len)),
    }
}

/// The first characters of a text, as they are shown.
fn front(alloc: Global, text: &str, count: usize) -> Result<String, AllocError>
    ensures { IfOk result (λ s. string_bytes s ≡ encode_utf8_all (map spec.shown (take count (chars text.now)))) }
{
    text.chars().take(count).map(|c| shown(c)).collect(alloc)
}

/// Whether a character is an opening delimiter (Rust Reference, "Delimiters").
fn is_opening(c: char) -> bool
    ensures { result ≡ spec.is_opening c }
{
    matches!(c, '(' | '[' | '{')
}

/// Whether a text begins with an opening delimiter.
fn opens(text: &str) -> bool
    ensures { result ≡ spec.opens (chars text.now) }
{
    text.chars().take(1).any(|c| is_opening(c))
}

/// How many characters name a token of `len` characters: for a group its opening delimiter alone.
fn named_len(text: &str, len: usize) -> usize
    ensures { result ≡ (if spec.opens (chars text.now) then min len 1 else len) }
{
    if opens(text) { len.min(1) } else { len }
}

/// The text above the carets; for a group its opening delimiter alone.
fn marked(alloc: Global, text: &str, span: Span) -> Result<String, AllocError>
    ensures { IfOk result (λ s. string_bytes s ≡ spec.marked (chars text.now) span) }
{
    let behind = Place::of(text, span.lo).behind;
    front(alloc, behind, named_len(behind, marked_len(behind, span)))
}

/// What is said after the carets.
fn found(alloc: Global, kind: ErrorKind, marked: &str) -> Result<String, AllocError>
    ensures { IfOk result (λ s. string_bytes s ≡ spec.found kind marked.now) }
{
    if !is_of_token(kind) {
        String::from_str(alloc, "")
    } else if marked.is_empty() {
        String::from_str(alloc, " found the end")
    } else {
        format!(in alloc; " found `{marked}`")
    }
}

/// The message with its picture, and the token that was found.
fn refused(
    alloc: Global,
    lines: usize,
    text: &str,
    span: Span,
    error: &Error,
) -> Result<String, AllocError>
    ensures { IfOk result (λ s. string_bytes s ≡ spec.refused lines (chars text.now) span error.now.kind) }
{
    let message = format!(in alloc; "{error}")?;
    let picture = picture(alloc, lines, text, span, "error", message.as_str())?;
    let marked = marked(alloc, text, span)?;
    let found = found(alloc, error.kind, marked.as_str())?;
    format!(in alloc; "{picture}{found}")
}

/// Where a text cannot be cut into tokens. If it has no other mistake, this is the delimiter that is still open at its end.
fn unlexed(alloc: Global, text: &str) -> Result<Option<Span>, AllocError> {
    match lex(alloc, text) {
        Ok(_) => Ok(None),
        Err(e) if e.kind == ErrorKind::OutOfMemory => Err(AllocError),
        Err(e) => Ok(Some(e.span)),
    }
}

/// The picture of the delimiter that is still open at an offset, where another one closes.
fn opening(alloc: Global, lines: usize, text: &str, offset: usize) -> Result<String, AllocError> {
    let before = text.strip_suffix(Place::of(text, offset).behind);
    match unlexed(alloc, before.unwrap_or(""))? {
        Some(span) => picture(
            alloc,
            lines,
            text,
            span,
            "note",
            "this delimiter is still open",
        ),
        None => String::from_str(alloc, "note: no delimiter is open here"),
    }
}

/// The picture of the end of a text.
fn closing(alloc: Global, lines: usize, text: &str) -> Result<String, AllocError> {
    let end = text.trim_end().len();
    let span = Span { lo: end, hi: end };
    picture(alloc, lines, text, span, "note", "the text ends here")
}

/// The other end of an unmatched delimiter; nothing for other errors.
fn other_end(alloc: Global, lines: usize, text: &str, error: &Error) -> Result<String, AllocError> {
    match error.kind {
        ErrorKind::Lex(LexError::UnexpectedClosingDelimiter) => {
            opening(alloc, lines, text, error.span.lo)
        }
        ErrorKind::Lex(LexError::UnclosedDelimiter) => closing(alloc, lines, text),
        _ => String::from_str(alloc, ""),
    }
}

/// The text of a span.
fn text_of(text: &str, span: Span) -> &str {
    let behind = Place::of(text, span.lo).behind;
    let rest = Place::of(text, span.hi).behind;
    behind.strip_suffix(rest).unwrap_or("")
}

/// Whether a literal has both quotes. It is then refused for a character in it.
fn is_quoted(alloc: Global, literal: &str) -> Result<bool, AllocError> {
    Ok(literal.contains(['\'', '"']) && unlexed(alloc, literal)?.is_none())
}

/// What to write instead, if that is known; else nothing.
fn advice(alloc: Global, text: &str, span: Span, kind: ErrorKind) -> Result<String, AllocError> {
    if is_malformed(kind) && is_quoted(alloc, text_of(text, span))? {
        return String::from_str(alloc, "");
    }
    let marked = marked(alloc, text, span)?;
    let place = Place::of(text, span.lo);
    let site = Site {
        before: place.line.strip_suffix(place.behind).unwrap_or(""),
        marked: marked.as_str(),
        behind: place.behind,
    };
    match help(kind, &site) {
        Some(help) => format!(in alloc; "help: {help}"),
        None => String::from_str(alloc, ""),
    }
}

/// A text on lines of its own. An empty text has none.
fn below(alloc: Global, text: &str) -> Result<String, AllocError>
    ensures { IfOk result (λ s. string_bytes s ≡ spec.below text.now) }
{
    if text.is_empty() {
        String::from_str(alloc, "")
    } else {
        format!(in alloc; "\n{text}")
    }
}

/// A note and a help, each on lines of its own.
fn further(alloc: Global, note: &str, help: &str) -> Result<String, AllocError>
    ensures { IfOk result (λ s. spec.AreFurther (string_bytes s)) }
{
    let first = below(alloc, note)?;
    let second = below(alloc, help)?;
    format!(in alloc; "{first}{second}")
}

/// The report of an error, laid out as rustc does it: the message; the line and the column, both from 1; the line itself; and
/// carets below the span.
///
/// ```text
/// error: unexpected token
///  --> 1:3
///   |
/// 1 | a and b
///   |   ^^^ found `and`
/// help: write `&&` instead of `and`
/// ```
///
/// If a token was refused, it is named after the carets: "found `b`", or "found the end". For a group this is its opening
/// delimiter. If the span begins in an operator, such as `===`, the carets cover the whole operator. For an unmatched
/// delimiter a `note` shows its other end: the delimiter that is still open, or the end of the text. For common mistakes a line
/// `help` says what to write instead.
///
/// Carets and lines are those of `report_at`. There is no line end after the report. The call fails only if memory runs out.
pub fn report(alloc: Global, text: &str, error: &Error) -> Result<String, AllocError>
    ensures { IfOk result (λ s. spec.IsReport 0 (chars text.now) error.now (string_bytes s)) }
{
    report_after(alloc, 0, text, error)
}

/// As `report`, for a text that is part of a file and has `lines` lines of the file before it: they are added to each line
/// number. The span of the error counts bytes of the text alone. A sum greater than `usize::MAX` is shown as that.
pub fn report_after(
    alloc: Global,
    lines: usize,
    text: &str,
    error: &Error,
) -> Result<String, AllocError>
    ensures { IfOk result (λ s. spec.IsReport lines (chars text.now) error.now (string_bytes s)) }
{
    let span = whole(text, error.span);
    let refused = refused(alloc, lines, text, span, error)?;
    let note = other_end(alloc, lines, text, error)?;
    let help = advice(alloc, text, span, error.kind)?;
    let further = further(alloc, note.as_str(), help.as_str())?;
    format!(in alloc; "{refused}{further}")
}
