//! Reads rows of expressions, and prints each that does not hold. Each argument is a file of rows.
//!
//! What holds an expression by value is dear to prove, most where a `?` may return meanwhile. So an expression that was read, or
//! its refusal, goes as it is to a generic function, as `rows::with`, or on to `flatten`.
#![tactic(auto)]

mod changes;
mod makers;
mod memory;
mod parts;
mod places;
mod runs;
mod trees;
mod visits;

use rows::groups::whole;
use rows::{check_file, cuts, put_by, with};
use std::alloc::Global;
use std::{env, io};
use syn_expr::{Expr, HeldExpr, Result, lex, parse_str};
use trees::flat;

/// What a call answers.
fn answer(alloc: Global, call: &str, text: &str) -> Result<String> {
    let (name, of) = call.split_once(' ').unwrap_or((call, ""));
    match name {
        "read" => parts::alone(alloc, of, text),
        "made" => makers::answer::<HeldExpr>(alloc, text),
        "exprfmt" => runs::exprfmt(alloc, of, text),
        "failing" => runs::with_fault(alloc, of, text),
        "args_failed" => runs::no_arguments(alloc, of),
        "word" => runs::word(alloc, text),
        "cut" => cuts::cut::<Expr>(alloc, text),
        "front" => cuts::front::<Expr>(alloc, of, text),
        "note" => cuts::notes::<Expr>(alloc, text),
        "type" => places::ends_with_name(alloc, text),
        "begins" => places::begins(alloc, text),
        "start" => trees::start(alloc, of, text),
        "same" => trees::same(alloc, text),
        "stops" => trees::stops(alloc, of, text),
        "hash" => visits::hashed::<Expr>(alloc, text),
        "arm_attributes" => changes::of_arm(alloc, text),
        "part" if of == "member" => parts::member(alloc, text),
        "part" if of == "index" => parts::index(alloc, text),
        "part" if of == "label" => parts::behind_label(alloc, text),
        "part" if of == "inside" => parts::inside(alloc, text),
        _ if name == "flatten" || name.contains("parse") => memory::of_text(alloc, name, of, text),
        _ => of_texts(alloc, name, of, text),
    }
}

/// What a call answers for the expression in a text, or for the one in the first of two texts with `~` between them.
fn of_texts(alloc: Global, name: &str, of: &str, texts: &str) -> Result<String> {
    let (text, more) = texts.split_once('~').unwrap_or((texts, ""));
    let read = match name {
        "tree" | "formed" | "part" => whole(alloc, text),
        "flat" => flat(alloc, text),
        "verbatim" => Ok(Expr::Verbatim(lex(alloc, text)?)),
        _ if name.starts_with("Expr") => whole(alloc, text),
        _ => parse_str(alloc, text),
    };
    with(read, |expr| of_expr(alloc, name, of, expr, more))
}

/// What a call answers for an expression, and for the other text.
fn of_expr(alloc: Global, name: &str, of: &str, expr: &mut Expr, more: &str) -> Result<String> {
    match name {
        "tree" | "flat" => trees::described(alloc, expr),
        "debug" => trees::debug(alloc, expr),
        "tidy" => trees::tidied(alloc, of, expr),
        "operand" => places::operand(alloc, of, expr),
        "place" | "condition" => places::place(alloc, name, of, expr),
        "asked" => places::asked(alloc, expr),
        "part" if of == "modifiers" => parts::modifiers(alloc, expr),
        "part" if of == "kind" => parts::same_kind(alloc, expr),
        "part" => put_by(alloc, |tokens| parts::put_pieces(expr, tokens)),
        "swapped" => changes::swapped(alloc, of, expr, more),
        "formed" => changes::told(alloc, expr),
        "verbatim" if of == "formed" => changes::told(alloc, expr),
        "span" | "verbatim" => trees::span(alloc, expr),
        "placeholder" => changes::placeholder(alloc, of, expr),
        "attributes" => changes::replaced(alloc, expr, more),
        "copied" => visits::copied(alloc, of, expr),
        "visit" => visits::visit(alloc, of, expr),
        "any" => visits::questions(alloc, expr),
        "rewrite" | "operands" => visits::changed(alloc, name, of, expr),
        _ => memory::of_expr(alloc, name, of, expr, more),
    }
}

fn main(rt: HostRuntime) -> io::Result<()> {
    for file in env::args(&rt)?.skip(1) {
        check_file(&rt, file.as_str(), &answer)?;
    }
    Ok(())
}
