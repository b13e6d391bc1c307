//! Calls on attributes, modifiers, and on what has a reader of another name.

use rows::{left_behind, of_front, put, put_by, put_front, words};
use std::alloc::Global;
use syn_expr_tokens::limits::RangeLimits;
use syn_expr_tokens::modifiers::{BlockModifiers, ClosureModifiers, Label};
use syn_lower::{Attribute, Path, Type};
use syn_tokens::{ParseBuffer, Result, ToTokens, TokenStream, lex, parse_any_word};

/// The inner attributes at the front of a text, or the outer ones.
fn attributes(alloc: Global, style: &str, text: &str) -> Result<Vec<Attribute>> {
    let tokens = lex(alloc, text)?;
    let mut input = ParseBuffer::new(&tokens)?;
    if style == "inner" {
        Attribute::parse_inner(&mut input)
    } else {
        Attribute::parse_outer(&mut input)
    }
}

/// Puts the tokens of attributes behind a list.
fn put_all(attributes: &[Attribute], tokens: &mut TokenStream) -> Result<()> {
    for attribute in attributes {
        attribute.to_tokens(tokens)?;
    }
    Ok(())
}

/// Whether the outer attributes at the front of a text are equal to the ones behind `~`.
pub fn compared(alloc: Global, style: &str, text: &str) -> Result<String> {
    let (left, right) = text.split_once('~').unwrap_or((text, ""));
    let is_equal = attributes(alloc, "outer", left)? == attributes(alloc, style, right)?;
    words(alloc, if is_equal { "equal" } else { "different" })
}

/// The number of attributes at the front of a text, their printed text, and whether it is read as the same attributes.
pub fn again(alloc: Global, style: &str, text: &str) -> Result<String> {
    let old = attributes(alloc, style, text)?;
    let printed = put_by(alloc, |tokens| put_all(old.as_slice(), tokens))?;
    let is_same = attributes(alloc, style, printed.as_str())? == old;
    let verdict = if is_same { "same" } else { "another" };
    Ok(format!(in alloc; "{} {printed} {verdict}", old.len())?)
}

/// Whether there are no modifiers.
pub fn modifiers(alloc: Global) -> Result<String> {
    BlockModifiers::default().require_empty()?;
    ClosureModifiers::default().require_empty()?;
    words(alloc, "none")
}

/// What is printed of attributes that were read. A refusal has to leave all of the list.
fn put_attributes(
    tokens: &TokenStream,
    input: &ParseBuffer<'_>,
    read: Result<Vec<Attribute>>,
) -> Result<String> {
    of_front(tokens, input, read, |attributes| {
        put_by(tokens.alloc(), |list| put_all(attributes.as_slice(), list))
    })
}

/// The tokens that a reader leaves of a text, or the printed text of the part that it takes.
pub fn read(alloc: Global, call: &str, reader: &str, text: &str) -> Result<String> {
    let tokens = lex(alloc, text)?;
    let mut input = ParseBuffer::new(&tokens)?;
    macro_rules! told {
        ($put:ident, $reader:expr) => {{
            let read = $reader(&mut input);
            if call == "left_by" {
                left_behind(&tokens, &input, read)
            } else {
                $put(&tokens, &input, read)
            }
        }};
    }
    match reader {
        "parse_any_word" => told!(put_front, parse_any_word),
        "Attribute::parse_outer" => told!(put_attributes, Attribute::parse_outer),
        "Attribute::parse_inner" => told!(put_attributes, Attribute::parse_inner),
        "RangeLimits::parse_obsolete" => told!(put_front, RangeLimits::parse_obsolete),
        "Path::parse_mod_style" => told!(put_front, Path::parse_mod_style),
        "Type::without_plus" => told!(put_front, Type::without_plus),
        _ => {
            let read = Label::parse_optional(&mut input);
            of_front(&tokens, &input, read, |label| match label {
                Some(label) => put(alloc, label),
                None => words(alloc, "no label"),
            })
        }
    }
}
