//! Trees that no reader gives, each made of two that were read by changing a part of the one for that of the other. And
//! attributes in any order, put in place of those that were read.

use crate::trees::described;
use rows::{put, with, words};
use std::alloc::Global;
use std::mem::swap;
use syn_expr::{
    Attribute, Expr, ExprClosure, ExprLit, ExprMatch, ExprPath, ExprStruct, FieldValue,
    ParseBuffer, Pat, Result, ToTokens, TokenStream, Type, is_well_formed, lex, parse_str, to_text,
};

/// Changes a part of a struct expression for that of another: of a field after which there is no comma its colon.
fn swap_in_struct(part: &str, x: &mut ExprStruct, other: &mut Expr) {
    if let Expr::Struct(y) = other {
        match part {
            "rest" => swap(&mut x.rest, &mut y.rest),
            "fields" => swap(&mut x.fields, &mut y.fields),
            _ => swap_colon(&mut x.fields.last, &mut y.fields.last),
        }
    }
}

/// Changes the colon of a field for that of another.
fn swap_colon(field: &mut Option<Box<FieldValue>>, other: &mut Option<Box<FieldValue>>) {
    if let Some(x) = field {
        if let Some(y) = other {
            swap(&mut x.colon_token, &mut y.colon_token);
        }
    }
}

/// Changes a literal for that of the pattern of a `let`, which may have a sign.
fn swap_literal(x: &mut ExprLit, other: &mut Expr) {
    if let Expr::Let(y) = other {
        if let Pat::Lit(pat) = &mut *y.pat {
            swap(&mut x.lit, &mut pat.lit);
        }
    }
}

/// Changes a path for that of a cast's type, which may lack a `::`, or its attributes for those of a block, which may be inner ones.
fn swap_in_path(part: &str, x: &mut ExprPath, other: &mut Expr) {
    if part == "attributes" {
        if let Expr::Block(y) = other {
            swap(&mut x.attrs, &mut y.attrs);
        }
    } else if let Expr::Cast(y) = other {
        if let Type::Path(ty) = &mut *y.ty {
            swap(&mut x.path, &mut ty.path);
        }
    }
}

/// Changes the comma of the first arm for that of another.
fn swap_comma(x: &mut ExprMatch, other: &mut Expr) {
    if let Expr::Match(y) = other {
        if let Some(arm) = x.arms.first_mut() {
            if let Some(from) = y.arms.first_mut() {
                swap(&mut arm.comma, &mut from.comma);
            }
        }
    }
}

/// Changes the `use` of a closure for that of another, or its body for a whole expression.
fn swap_in_closure(part: &str, x: &mut ExprClosure, other: &mut Expr) {
    if part == "body" {
        swap(&mut *x.body, other);
    } else if let Expr::Closure(y) = other {
        swap(&mut x.modifiers.use_token, &mut y.modifiers.use_token);
    }
}

/// Changes a part of an expression for that of another, or for the whole other one.
fn swap_part(part: &str, expr: &mut Expr, other: &mut Expr) {
    macro_rules! swap_both {
        ($x:expr, $kind:ident, $field:ident) => {
            if let Expr::$kind(y) = other {
                swap(&mut $x.$field, &mut y.$field);
            }
        };
    }
    match expr {
        Expr::Binary(x) => swap(&mut *x.left, other),
        Expr::Closure(x) => swap_in_closure(part, x, other),
        Expr::If(x) => {
            if let Some((_, branch)) = &mut x.else_branch {
                swap(&mut **branch, other);
            }
        }
        Expr::Lit(x) => swap_literal(x, other),
        Expr::Match(x) => swap_comma(x, other),
        Expr::Path(x) => swap_in_path(part, x, other),
        Expr::Range(x) => swap_both!(x, Range, limits),
        Expr::Struct(x) => swap_in_struct(part, x, other),
        Expr::Tuple(x) => swap_both!(x, Array, elems),
        _ => {}
    }
}

/// What is printed of an expression, and whether it is well-formed.
pub fn told(alloc: Global, expr: &Expr) -> Result<String> {
    let printed = put(alloc, expr)?;
    let not = if is_well_formed(expr) { "" } else { "not " };
    Ok(format!(in alloc; "{printed} ~ {not}well-formed")?)
}

/// The description of the placeholder, or of an expression in which the placeholder stands in place of a part.
pub fn placeholder(alloc: Global, part: &str, expr: &mut Expr) -> Result<String> {
    let mut place = Expr::placeholder(alloc);
    if part.is_empty() {
        let (kind, told) = (described(alloc, &place)?, told(alloc, &place)?);
        return Ok(format!(in alloc; "{kind}{told}")?);
    }
    swap_part(part, expr, &mut place);
    told(alloc, expr)
}

/// Whether an expression is the one in a text.
fn is_read(alloc: Global, text: &str, expr: &Expr) -> Result<String> {
    let is_same = with(parse_str::<Expr>(alloc, text), |read| Ok(*read == *expr))?;
    words(alloc, if is_same { "equal" } else { "different" })
}

/// Changes a part of an expression for that of the expression in a text. Answers whether the result is the expression in a second
/// text; without one, its printed text and whether it is well-formed.
pub fn swapped(alloc: Global, part: &str, expr: &mut Expr, texts: &str) -> Result<String> {
    let (from, second) = texts.split_once('~').unwrap_or((texts, ""));
    let mut other = parse_str::<Expr>(alloc, from)?;
    swap_part(part, expr, &mut other);
    if second.is_empty() {
        told(alloc, expr)
    } else {
        is_read(alloc, second, expr)
    }
}

/// The attributes that a text is, all outer or all inner ones.
fn read(alloc: Global, text: &str) -> Result<Vec<Attribute>> {
    let tokens = lex(alloc, text)?;
    let mut input = ParseBuffer::new(&tokens)?;
    if text.starts_with("#!") {
        Attribute::parse_inner(&mut input)
    } else {
        Attribute::parse_outer(&mut input)
    }
}

/// Attributes in any order, with blanks between them.
fn attributes(alloc: Global, text: &str) -> Result<Vec<Attribute>> {
    let mut attrs = Vec::new(alloc);
    for attr in text.split_whitespace() {
        attrs.append(&mut read(alloc, attr)?)?;
    }
    Ok(attrs)
}

/// The text of attributes.
fn text_of(alloc: Global, attrs: &[Attribute]) -> Result<String> {
    let mut tokens = TokenStream::new(alloc);
    for attr in attrs {
        attr.to_tokens(&mut tokens)?;
    }
    to_text(&tokens)
}

/// What is printed of an expression with other attributes, and of those that it had.
pub fn replaced(alloc: Global, expr: &mut Expr, new: &str) -> Result<String> {
    let old = expr.replace_attrs(attributes(alloc, new)?);
    let (printed, old) = (put(alloc, expr)?, text_of(alloc, &old)?);
    Ok(format!(in alloc; "{printed} ~ {old}")?)
}

/// What is printed of a `match` with these attributes before its arm.
pub fn of_arm(alloc: Global, text: &str) -> Result<String> {
    let mut attrs = attributes(alloc, text)?;
    let mut expr = parse_str::<Expr>(alloc, "match x { #[k] a => b }")?;
    if let Expr::Match(x) = &mut expr {
        if let Some(arm) = x.arms.first_mut() {
            swap(&mut arm.attrs, &mut attrs);
        }
    }
    put(alloc, &expr)
}
