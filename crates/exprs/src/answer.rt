//! What is answered for one expression.

ghost use Rattle.std.specs.Prelude.{◌≡◌, ◌⊎◌, IfErr, IfOk, chars, string_bytes};
ghost use Rattle.exprs.specs.Line as spec;
ghost use Rattle.syn_expr.specs.Texts.{position_of, NothingStands};
ghost use Rattle.syn_expr_core.specs.View.{tree_of};

use crate::args::Settings;
use crate::kinds::kind_of;
use std::alloc::Global;
use syn_expr::{
    ErrorKind, Expr, Position, Result, dump, expr_to_text, flatten_in_place, parse_str, tidy_text,
};

/// Makes of an expression that was read what is printed of it: with `bare` it loses its parentheses.
fn prepare(bare: bool, expr: &mut Expr) -> Result<()>
    ensures tree { IfOk result (λ _. tree_of expr.new ≡ spec.meant bare (tree_of expr.old)) }
    ensures refused { IfErr result (λ e. e.kind ≡ ErrorKind.OutOfMemory) }
{
    if bare {
        flatten_in_place(expr)?;
    }
    Ok(())
}

/// The line of the printed expression, with its newline.
fn printed(alloc: Global, position: Position, expr: &Expr) -> Result<String>
    ensures value { IfOk result (λ s. spec.IsPrinted (position_of position) (tree_of expr.now) (string_bytes s)) }
    ensures refused { IfErr result (λ e. e.kind ≡ ErrorKind.OutOfMemory) }
{
    let mut line = expr_to_text(alloc, expr, position)?;
    line.push('\n')?;
    Ok(line)
}

/// The line of the expression that is printed as people write it, with its newline.
fn tidied(alloc: Global, position: Position, expr: &Expr) -> Result<String>
    ensures value { IfOk result (λ s. spec.IsTidied (position_of position) (tree_of expr.now) (string_bytes s)) }
    ensures refused { IfErr result (λ e. e.kind ≡ ErrorKind.OutOfMemory) }
{
    let mut line = tidy_text(alloc, expr, position)?;
    line.push('\n')?;
    Ok(line)
}

/// The line of an expression.
fn line_of(alloc: Global, settings: Settings, expr: &Expr) -> Result<String>
    ensures value { IfOk result (λ s. spec.IsLineOf settings.dump settings.tidy (position_of settings.position) (tree_of expr.now) (string_bytes s)) }
    ensures refused { IfErr result (λ e. e.kind ≡ ErrorKind.OutOfMemory) }
{
    if settings.dump {
        dump(alloc, expr)
    } else if settings.tidy {
        tidied(alloc, settings.position, expr)
    } else {
        printed(alloc, settings.position, expr)
    }
}

/// An expression that was read.
#[derive(Drop)]
pub struct Answer {
    /// The number of its kind.
    pub kind: usize,
    /// Its line, with its newline.
    pub line: String,
}

/// The answer for an expression.
pub fn answer_of(alloc: Global, settings: Settings, text: &str) -> Result<Answer>
    ensures value { IfOk result (λ a. spec.IsLine settings.dump settings.tidy (position_of settings.position) settings.bare (chars text.now) a.kind (string_bytes a.line)) }
    ensures refused { IfErr result (λ e. (e.kind ≡ ErrorKind.OutOfMemory) ⊎ NothingStands (chars text.now)) }
{
    let mut expr = parse_str::<Expr>(alloc, text)?;
    let kind = kind_of(&expr);
    prepare(settings.bare, &mut expr)?;
    let line = line_of(alloc, settings, &expr)?;
    Ok(Answer { kind, line })
}
