//! What the calls of `FixupContext` answer: whether an operand is left bare for its level, and which places put what is
//! there in parentheses. And what is asked of an expression, of a type, and of the tokens that are left.

use exprfmt_run::run::named;
use rows::{with, words};
use std::alloc::Global;
use syn_expr::{
    Expr, FixupContext, ParseBuffer, Position, Precedence, Result, Type, expr_leading_label,
    expr_trailing_brace, lex, parse_str, requires_comma_to_be_match_arm, requires_semi_to_be_stmt,
    trailing_unparameterized_path,
};

/// The level of this name.
fn level_of(name: &str) -> Precedence {
    macro_rules! by_name {
        ($($level:ident)*) => {
            match name {
                $(stringify!($level) => Precedence::$level,)*
                _ => Precedence::Unambiguous,
            }
        };
    }
    by_name!(Jump Assign Range Or And Let Compare BitOr BitXor BitAnd Shift Sum Product Cast Prefix)
}

/// The place on the left of an operator of this level.
fn on_left(fixup: FixupContext, level: Precedence, expr: &Expr) -> FixupContext {
    let (_, place) = fixup.leftmost_subexpression_with_operator(expr, false, false, level);
    place
}

/// A place of an expression in what is in another place: on the left of `+`, before a dot or a bracket, on the right of
/// `==`, as the value of `return` or of `break`, after `..`, `..=` or a `+` that is not looked at, and else the other place itself.
fn place_in(fixup: FixupContext, word: &str, expr: &Expr) -> FixupContext {
    match word {
        "left" => on_left(fixup, Precedence::Sum, expr),
        "index" => on_left(fixup, Precedence::Unambiguous, expr),
        "dot" => fixup.leftmost_subexpression_with_dot(expr).1,
        "right" => fixup.rightmost_subexpression(expr, Precedence::Compare).1,
        "jump" => fixup.rightmost_subexpression_fixup(true, false, Precedence::Jump),
        "break" => fixup.rightmost_subexpression_fixup(true, true, Precedence::Jump),
        "to" => fixup.rightmost_subexpression_fixup(false, true, Precedence::Range),
        "closed" => fixup.rightmost_subexpression_fixup(false, false, Precedence::Range),
        "operand" => fixup.rightmost_subexpression_fixup(false, false, Precedence::Sum),
        _ => fixup,
    }
}

/// The level of an operand on the right of an operator of this level, with `+` after it or not: none where two ways to ask differ.
fn right_level(level: Precedence, is_before: bool, expr: &Expr) -> Option<Precedence> {
    let fixup = match is_before {
        true => on_left(FixupContext::NONE, Precedence::Sum, expr),
        false => FixupContext::NONE,
    };
    let (told, _) = fixup.rightmost_subexpression(expr, level);
    let fixup = fixup.rightmost_subexpression_fixup(false, false, level);
    let again = fixup.rightmost_subexpression_precedence(expr);
    (told == again).then_some(told)
}

/// The level that an operand is given before a dot or a bracket, or at an operator, which may begin an expression or generic
/// arguments: whether that leaves it bare.
pub fn operand(alloc: Global, of: &str, expr: &Expr) -> Result<String> {
    let (side, more) = of.split_once(' ').unwrap_or((of, ""));
    let (level, more) = more.split_once(' ').unwrap_or((more, ""));
    let (end, level) = (FixupContext::NONE, level_of(level));
    let given = match side {
        "dot" => Some(end.leftmost_subexpression_with_dot(expr).0),
        "right" => right_level(level, more == "before", expr),
        _ => {
            let (is_expr, is_generics) = (more.contains("expr"), more.contains("generics"));
            let left = end.leftmost_subexpression_with_operator(expr, is_expr, is_generics, level);
            Some(left.0)
        }
    };
    match given {
        Some(Precedence::Unambiguous) => words(alloc, "bare"),
        Some(Precedence::Jump) => words(alloc, "in parentheses"),
        _ => words(alloc, "another level"),
    }
}

/// Whether an expression is put in parentheses in a place, or for `condition` whether the place is in a condition.
pub fn place(alloc: Global, call: &str, of: &str, expr: &Expr) -> Result<String> {
    let (position, word) = of.split_once(' ').unwrap_or((of, ""));
    let fixup = named(position).unwrap_or(Position::Plain).fixup();
    let place = place_in(fixup, word, expr);
    let (is_condition, is_put) = (place.context().condition, place.parenthesize(expr));
    let told = match call {
        "condition" if is_condition => "in a condition",
        "condition" => "elsewhere",
        _ if is_put => "in parentheses",
        _ => "bare",
    };
    words(alloc, told)
}

/// A word where it is so.
fn word(is_so: bool, word: &'static str) -> &'static str {
    if is_so { word } else { "-" }
}

/// What the queries answer for an expression.
pub fn asked(alloc: Global, expr: &Expr) -> Result<String> {
    let comma = word(requires_comma_to_be_match_arm(expr), "comma");
    let semi = word(requires_semi_to_be_stmt(expr), "semi");
    let label = word(expr_leading_label(expr), "label");
    let brace = word(expr_trailing_brace(expr), "brace");
    Ok(format!(in alloc; "{comma} {semi} {label} {brace}")?)
}

/// Whether a type ends with a name.
pub fn ends_with_name(alloc: Global, text: &str) -> Result<String> {
    let read = parse_str::<Type>(alloc, text);
    let is_name = with(read, |ty| Ok(trailing_unparameterized_path(ty)))?;
    words(alloc, word(is_name, "name"))
}

/// Whether an expression begins with the tokens of a text.
pub fn begins(alloc: Global, text: &str) -> Result<String> {
    let tokens = lex(alloc, text)?;
    let is_begun = Expr::peek(&ParseBuffer::new(&tokens)?);
    words(alloc, word(is_begun, "begins"))
}
