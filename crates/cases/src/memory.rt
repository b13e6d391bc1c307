//! The public functions of expressions that answer a `Result`, in rows whose requests for memory may be refused. What is printed
//! goes behind old tokens, which have to stay in front of it, and a read that is refused has to leave all of the text.

use crate::parts::same_kind;
use crate::trees::{flattened, read_in};
use exprfmt_run::run::named;
use rows::groups::tokens_of;
use rows::{front, of_front, printed, put, put_by, put_front, put_read, with, words};
use std::alloc::Global;
use std::mem::swap;
use syn_expr::{
    Arm, Expr, FieldPat, FieldPatKind, FieldValue, HeldExpr, Parse, ParseBuffer, Pat, Position,
    Result, ToTokens, TokenStream, dump, expr_to_text, flatten_in_place, lex, parse_str, parse2,
    print_counted, print_expr, read_back, read_back_before, tidy_text, to_text,
};

/// The expression that a list begins with, by the reader of a name, or by that of the position of a name.
fn expr_at(input: &mut ParseBuffer<'_>, name: &str, of: &str) -> Result<Expr> {
    match name {
        "Expr::parse" => Expr::parse(input),
        "Expr::parse_without_eager_brace" => Expr::parse_without_eager_brace(input),
        "Expr::parse_with_earlier_boundary_rule" => Expr::parse_with_earlier_boundary_rule(input),
        _ => read_in(of, input),
    }
}

/// Prints a `match` with these arms in place of its own.
fn put_arms(alloc: Global, arms: &mut Vec<Arm>) -> Result<String> {
    let mut expr = parse_str::<Expr>(alloc, "match x {}")?;
    if let Expr::Match(x) = &mut expr {
        swap(&mut x.arms, arms);
    }
    put(alloc, &expr)
}

/// What is printed of the part that a list begins with, by the reader of a name.
fn part(tokens: &TokenStream, name: &str, of: &str) -> Result<String> {
    let mut input = ParseBuffer::new(tokens)?;
    macro_rules! by {
        ($reader:expr) => {{
            let read = $reader;
            put_front(tokens, &input, read)
        }};
    }
    match name {
        "Arm::parse" => by!(Arm::parse(&mut input)),
        "Arm::parse_multiple" => {
            let read = Arm::parse_multiple(&mut input);
            of_front(tokens, &input, read, |arms| put_arms(tokens.alloc(), arms))
        }
        "FieldValue::parse" => by!(FieldValue::parse(&mut input)),
        "Pat::parse_single" => by!(Pat::parse_single(&mut input)),
        "Pat::parse_multi_with_leading_vert" => by!(Pat::parse_multi_with_leading_vert(&mut input)),
        _ => by!(expr_at(&mut input, name, of)),
    }
}

/// Prints a pattern by the printer of its kind.
fn put_kind(pat: &Pat, tokens: &mut TokenStream) -> Result<()> {
    macro_rules! each {
        ($($kind:ident)*) => {
            match pat {
                $(Pat::$kind(x) => x.to_tokens(tokens),)*
            }
        };
    }
    each!(
        Const Guard Ident Lit Macro Or Paren Path Range Reference Rest Slice Struct Tuple
        TupleStruct Typed Wild
    )
}

/// Prints a field of a pattern, what it holds, and that by the printer of its kind.
fn put_field(field: &FieldPat, tokens: &mut TokenStream) -> Result<()> {
    field.to_tokens(tokens)?;
    field.kind.to_tokens(tokens)?;
    match &field.kind {
        FieldPatKind::Short(x) => x.to_tokens(tokens),
        FieldPatKind::Full(x) => x.to_tokens(tokens),
    }
}

/// Prints a pattern by the printer of a type: that of all patterns, that of a part, or that of its kind.
fn put_pat(pat: &Pat, name: &str, tokens: &mut TokenStream) -> Result<()> {
    match (name, pat) {
        ("Pat", _) => pat.to_tokens(tokens),
        ("RangeBound", Pat::Range(x)) => match &x.start {
            Some(bound) => bound.to_tokens(tokens),
            None => Ok(()),
        },
        ("FieldPat", Pat::Struct(x)) => match x.fields.first() {
            Some(field) => put_field(field, tokens),
            None => Ok(()),
        },
        _ => put_kind(pat, tokens),
    }
}

/// The pattern of a `let`, the first argument of a closure, or the pattern of the first arm.
fn pat_in(expr: &Expr) -> Option<&Pat> {
    match expr {
        Expr::Let(x) => Some(&x.pat),
        Expr::Closure(x) => x.inputs.first(),
        Expr::Match(x) => Some(&x.arms.first()?.pat),
        _ => None,
    }
}

/// What is printed of the pattern in an expression.
fn pattern(alloc: Global, name: &str, expr: &Expr) -> Result<String> {
    match pat_in(expr) {
        Some(pat) => put_by(alloc, |tokens| put_pat(pat, name, tokens)),
        None => words(alloc, "no pattern"),
    }
}

/// The text of a value that was read, and of the tokens that are left.
fn put_both<T: ToTokens + Drop>(alloc: Global, read: Result<(T, TokenStream)>) -> Result<String> {
    let (value, left) = read?;
    let mut tokens = value.to_token_stream(alloc)?;
    tokens.append(left)?;
    to_text(&tokens)
}

/// What a call answers for a text.
pub fn of_text(alloc: Global, name: &str, of: &str, text: &str) -> Result<String> {
    match name {
        "parse_str" => printed::<Expr>(alloc, text),
        "parse2" => put_read(alloc, parse2::<Expr>(lex(alloc, text)?)),
        "flatten" => put_read(alloc, flattened(parse_str(alloc, text))),
        "HeldExpr::parse" => front::<HeldExpr>(alloc, text),
        _ => part(&tokens_of(alloc, text)?, name, of),
    }
}

/// What a call answers for an expression, and for the other text.
pub fn of_expr(alloc: Global, name: &str, of: &str, expr: &mut Expr, more: &str) -> Result<String> {
    let position = named(of).unwrap_or(Position::Plain);
    match name {
        "print_expr" => put_by(alloc, |tokens| print_expr(expr, tokens, position.fixup())),
        "print_counted" => to_text(&print_counted(alloc, expr, position.fixup())?.0),
        "expr_to_text" => expr_to_text(alloc, expr, position),
        "tidy_text" => tidy_text(alloc, expr, position),
        "read_back" => put_read(alloc, read_back(alloc, expr)),
        "read_back_before" => {
            let more = lex(alloc, more)?;
            put_both(alloc, read_back_before(alloc, position, expr, more))
        }
        "flatten_in_place" => {
            flatten_in_place(expr)?;
            put(alloc, expr)
        }
        "dump" => dump(alloc, expr),
        _ => match name.strip_suffix("::to_tokens") {
            Some(name) if name.starts_with("Expr") => same_kind(alloc, expr),
            Some(name) => pattern(alloc, name, expr),
            None => words(alloc, "no such call"),
        },
    }
}
