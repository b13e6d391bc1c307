//! Closures (Rust Reference, "Closure expressions").

use crate::expr::Expr;
use crate::pat::Pat;
use syn_expr_tokens::modifiers::ClosureModifiers;
use syn_lower::attr::Attribute;
use syn_lower::punctuated::Punctuated;
use syn_lower::ty::{BoundLifetimes, ReturnType};
use syn_tokens::token::{Async, Comma, Const, Move, Or};

/// `|a, b| a + b`, `move |a| -> T { .. }` (Rust Reference, "Closure expressions").
#[cycle(expr)]
#[derive(Debug, Drop, PartialEq, Eq, Hash)]
pub struct ExprClosure {
    /// The attributes.
    pub attrs: Vec<Attribute>,
    /// `for<'a>`
    pub lifetimes: Option<BoundLifetimes>,
    /// `static` and `use`, each or not. No reader gives `move` and `use` together, and no tree with both is well-formed.
    pub modifiers: ClosureModifiers,
    /// `const`
    pub constness: Option<Const>,
    /// `async`
    pub asyncness: Option<Async>,
    /// `move`
    pub capture: Option<Move>,
    /// The `|` before the arguments.
    pub inputs_begin: Or,
    /// The arguments.
    pub inputs: Punctuated<Pat, Comma>,
    /// The `|` after the arguments.
    pub inputs_end: Or,
    /// The type of its value; where one is given the body is a block.
    pub output: ReturnType,
    /// The body.
    pub body: Box<Expr>,
}
