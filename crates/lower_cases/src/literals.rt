//! Calls on literals: their kinds, their values, how they are made, copied and read again.

use crate::parts::of_part;
use rows::{put_read, verdict, with, words};
use std::alloc::Global;
use std::fmt::Debug;
use syn_lower::{
    Lit, LitBool, LitByte, LitByteStr, LitChar, LitError, LitErrorKind, LitInt, LitStr,
};
use syn_lower_leaves::leaf::{is_number, kind_of};
use syn_tokens::{Error, ErrorKind, Part, Result, Span, parse_str};

/// A text, with a word behind a blank.
fn pair(alloc: Global, text: Result<String>, word: &str) -> Result<String> {
    let text = text?;
    Ok(format!(in alloc; "{text} {word}")?)
}

/// The refusal of a value, as rows have it. Where memory ran out it is one of a row.
pub fn refused(alloc: Global, refusal: LitError) -> Result<String> {
    let LitError { span, kind } = refusal;
    match kind {
        LitErrorKind::OutOfMemory => Err(Error::new(span, ErrorKind::OutOfMemory)),
        _ => Ok(format!(in alloc; "{}..{} {kind}", span.lo, span.hi)?),
    }
}

/// The verdict of a literal's own kind, whose reader has to read it again where it passes, and its kind.
fn kind(alloc: Global, literal: &Lit) -> Result<String> {
    macro_rules! told {
        ($($Kind:ident)*) => {
            match literal {
                $(Lit::$Kind(it) => {
                    pair(alloc, verdict(alloc, it, it.is_read_back()), stringify!($Kind))
                })*
            }
        };
    }
    told!(Str ByteStr CStr Byte Char Int Float Bool)
}

/// The kinds whose own readers take a text. The others have to refuse it as no literal.
pub fn own_kinds(alloc: Global, text: &str) -> Result<String> {
    let mut names = String::new(alloc);
    for name in [
        "Str ", "ByteStr ", "CStr ", "Byte ", "Char ", "Int ", "Float ", "Bool ",
    ] {
        let reader = format!(in alloc; "Lit{}", name.trim())?;
        match of_part(alloc, "printed", reader.as_str(), text) {
            Ok(_) => names.push_str(name)?,
            Err(e) if e.kind == ErrorKind::ExpectedPart(Part::Literal) && e.span.lo == 0 => {}
            Err(e) => return Err(e),
        }
    }
    Ok(names)
}

/// The kind of a token by its text alone, and whether the text is that of a number.
pub fn kind_of_text(alloc: Global, text: &str) -> Result<String> {
    let number = if is_number(text) { ", a number" } else { "" };
    match kind_of(text) {
        Some(kind) => Ok(format!(in alloc; "{kind:?}{number}")?),
        None => words(alloc, "none"),
    }
}

/// A value, as it is shown, or its refusal.
fn shown<T: Debug + Drop>(
    alloc: Global,
    value: std::result::Result<T, LitError>,
) -> Result<String> {
    match value {
        Ok(value) => Ok(format!(in alloc; "{value:?}")?),
        Err(e) => refused(alloc, e),
    }
}

/// The digits of a number with its suffix, or their refusal.
fn digits(
    alloc: Global,
    digits: std::result::Result<String, LitError>,
    suffix: &str,
) -> Result<String> {
    match digits {
        Ok(digits) => Ok(format!(in alloc; "{digits} {suffix}")?),
        Err(e) => refused(alloc, e),
    }
}

/// The value of a literal, or its digits with the suffix.
fn value(alloc: Global, literal: &Lit) -> Result<String> {
    match literal {
        Lit::Str(it) => shown(alloc, it.value(alloc)),
        Lit::ByteStr(it) => shown(alloc, it.value(alloc)),
        Lit::Byte(it) => shown(alloc, it.value(alloc)),
        Lit::Char(it) => shown(alloc, it.value(alloc)),
        Lit::Bool(it) => shown(alloc, Ok(it.value())),
        Lit::Int(it) => digits(alloc, it.base10_digits(alloc), it.suffix()),
        Lit::Float(it) => digits(alloc, Ok(it.base10_digits(alloc)?), it.suffix()),
        Lit::CStr(_) => words(alloc, "not asked for here"),
    }
}

/// What is printed of a literal that is made of the value of one that was read.
fn made_of_value(alloc: Global, literal: &Lit) -> std::result::Result<Result<String>, LitError> {
    let span = Span::call_site();
    Ok(match literal {
        Lit::Str(it) => put_read(alloc, LitStr::new(alloc, it.value(alloc)?.as_str(), span)),
        Lit::ByteStr(it) => {
            put_read(
                alloc,
                LitByteStr::new(alloc, it.value(alloc)?.as_slice(), span),
            )
        }
        Lit::Byte(it) => put_read(alloc, LitByte::new(alloc, it.value(alloc)?, span)),
        Lit::Char(it) => put_read(alloc, LitChar::new(alloc, it.value(alloc)?, span)),
        Lit::Bool(it) => put_read(alloc, LitBool::new(alloc, it.value(), span)),
        _ => words(alloc, "not asked for here"),
    })
}

/// An integer, parsed as an `i8` and as a `u128`, or as a byte.
fn parsed(alloc: Global, call: &str, literal: &Lit) -> Result<String> {
    match literal {
        Lit::Int(number) if call == "parsed" => {
            let (small, large) = (number.base10_parse::<i8>(), number.base10_parse::<u128>());
            Ok(format!(in alloc; "{:?} {:?}", small.ok(), large.ok())?)
        }
        Lit::Int(number) => shown(alloc, number.base10_parse::<u8>()),
        _ => words(alloc, "no integer"),
    }
}

/// The texts of the refusal of a number as a byte: of the whole, of its kind, and without memory.
fn texts_of_refusal(alloc: Global, number: &LitInt) -> Result<String> {
    match number.base10_parse::<u8>() {
        Ok(_) => words(alloc, "a byte"),
        Err(error) => {
            let (kind, text) = (error.kind, error.kind.text());
            Ok(format!(in alloc; "{error}; {kind}; {text}")?)
        }
    }
}

/// What a call answers for the literal that a text is.
pub fn of_literal(alloc: Global, call: &str, text: &str) -> Result<String> {
    with(parse_str::<Lit>(alloc, text), |it| match call {
        "Lit::copy" => put_read(alloc, it.copy(alloc)),
        "kind" => kind(alloc, it),
        "parsed" | "LitInt::base10_parse" => parsed(alloc, call, it),
        "LitError::fmt" => match it {
            Lit::Int(number) => texts_of_refusal(alloc, number),
            _ => words(alloc, "no integer"),
        },
        _ if call.ends_with("::new") => match made_of_value(alloc, it) {
            Ok(made) => made,
            Err(e) => refused(alloc, e),
        },
        _ => value(alloc, it),
    })
}
