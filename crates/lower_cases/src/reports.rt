//! Calls on refusals: their texts, lines and columns of their places, and reports of them.

use crate::groups::span_of;
use rows::words;
use std::alloc::Global;
use syn_report::{LineColumn, report, report_after, report_at};
use syn_tokens::token::{Comma, Gt, Or, Underscore, Yield};
use syn_tokens::{
    AfterCast, Delimiter, Error, ErrorKind, Expected, LexError, Part, Result, Span, Token, Wanted,
    WantedKind, lex,
};

/// What is refused. In parentheses are those that others hold.
macro_rules! kinds {
    ($($Kind:ident)*; $($Outer:ident($Inner:ident: $($Held:ident)*))*) => {
        &[$(ErrorKind::$Kind,)* $($(ErrorKind::$Outer($Inner::$Held),)*)*]
    };
}

/// What is refused. That of an expected token is not among these.
const KINDS: &[ErrorKind] = kinds!(
    OutOfMemory ExpectedExpression ExpectedBinaryOperator ChainedComparison LeftArrow
    RangeAttributes ExpectedLoopOrBlock ExpectedCommaOrSemi ParenthesesRequired ExpectedMember
    ExpectedUnsuffixedInteger IndexOutOfRange UnexpectedToken ModifierNotEmpty;
    Lex(LexError: DocComment UnterminatedComment ReservedRawIdentifier MalformedLiteral
        MalformedLifetime UnclosedDelimiter UnexpectedClosingDelimiter UnknownCharacter)
    AfterCast(AfterCast: Await MethodCall FieldAccess Question Indexing FunctionCall)
    ExpectedPart(Part: Literal Path Type Pattern Macro Attribute)
    ExpectedExprKind(WantedKind: Assign Await Binary Call Cast Field Index MethodCall Range Try
        Tuple)
);

/// What is shown of a refusal. That by the lexer has the same text.
fn text_of(alloc: Global, kind: ErrorKind) -> Result<String> {
    let text = format!(in alloc; "{}", Error::new(Span::call_site(), kind))?;
    match kind {
        ErrorKind::Lex(e) if e.text() != text.as_str() => words(alloc, "another text"),
        _ => Ok(text),
    }
}

/// What is shown of the refusal that has this name.
pub fn refusal(alloc: Global, name: &str) -> Result<String> {
    for kind in KINDS {
        if format!(in alloc; "{kind:?}")?.as_str() == name {
            return text_of(alloc, *kind);
        }
    }
    words(alloc, "not in the list")
}

/// What is wanted, by a word for it.
fn wanted(word: &str) -> Wanted {
    match word {
        "," => Comma::wanted(),
        "or" => Or::wanted(),
        ">" => Gt::wanted(),
        "yield" => Yield::wanted(),
        "_" => Underscore::wanted(),
        "lifetime" => Wanted::Lifetime,
        "(" => Wanted::Delimiter(Delimiter::Parenthesis),
        "[" => Wanted::Delimiter(Delimiter::Bracket),
        "{" => Wanted::Delimiter(Delimiter::Brace),
        "group" => Wanted::Delimiter(Delimiter::None),
        _ => Wanted::Identifier,
    }
}

/// What is shown where one of some things was expected; and then what is shown of what is in such a refusal, and of a lifetime.
pub fn expected(alloc: Global, call: &str, given: &str) -> Result<String> {
    let mut given = given.split_whitespace();
    let expected = match (given.next(), given.next(), given.next()) {
        (Some(a), Some(b), Some(c)) => Expected::Three(wanted(a), wanted(b), wanted(c)),
        (Some(a), Some(b), None) => Expected::Two(wanted(a), wanted(b)),
        (a, _, _) => Expected::One(wanted(a.unwrap_or(""))),
    };
    let error = Error::new(Span::call_site(), ErrorKind::ExpectedToken(expected));
    if call == "expected" {
        return Ok(format!(in alloc; "{error}")?);
    }
    let (kind, wanted) = (error.kind, Wanted::Lifetime);
    Ok(format!(in alloc; "{error}; {kind}; {expected}; {wanted}")?)
}

/// The line and the column of the offset before a text.
pub fn place(alloc: Global, row: &str) -> Result<String> {
    let (offset, text) = row.split_once(' ').unwrap_or((row, ""));
    let offset = offset.parse::<usize>().unwrap_or(0);
    let LineColumn { line, column } = LineColumn::of(text, offset);
    Ok(format!(in alloc; "{line}:{column}")?)
}

/// The kind with this name, or that of an expected token.
fn kind(alloc: Global, name: &str) -> Result<ErrorKind> {
    for kind in KINDS {
        if format!(in alloc; "{kind:?}")?.as_str() == name {
            return Ok(*kind);
        }
    }
    Ok(ErrorKind::ExpectedToken(Expected::One(wanted(name))))
}

/// A refusal of a text: that of the lexer, or of a kind at a place.
fn refused(alloc: Global, refusal: &str, text: &str) -> Result<Error> {
    let (place, name) = refusal.split_once(' ').unwrap_or((refusal, ""));
    match lex(alloc, text) {
        Err(e) if e.kind == ErrorKind::OutOfMemory => Err(e),
        Err(e) if place == "lex" => Ok(e),
        _ => Ok(Error::new(span_of(place), kind(alloc, name)?)),
    }
}

/// The report of a refusal of a text, with `lines` lines before the text.
pub fn reported(alloc: Global, lines: usize, refusal: &str, text: &str) -> Result<String> {
    let error = refused(alloc, refusal, text)?;
    if lines == 0 {
        return Ok(report(alloc, text, &error)?);
    }
    Ok(report_after(alloc, lines, text, &error)?)
}

/// What is shown of a finding at a place, with a title and a message.
pub fn found(alloc: Global, finding: &str, text: &str) -> Result<String> {
    let (place, more) = finding.split_once(' ').unwrap_or((finding, ""));
    let (title, message) = more.split_once(": ").unwrap_or((more, ""));
    Ok(report_at(alloc, text, span_of(place), title, message)?)
}
