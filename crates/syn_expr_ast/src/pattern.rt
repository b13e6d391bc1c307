//! The parts of what holds both expressions and patterns. The type of expressions makes its own structs of them: a struct
//! that is generic in both could not are in that type.

use syn_expr_tokens::modifiers::{ClosureModifiers, Label};
use syn_lower::attr::Attribute;
use syn_lower::punctuated::Punctuated;
use syn_lower::stmt::Block;
use syn_lower::ty::{BoundLifetimes, ReturnType};
use syn_tokens::token::{
    Async, Brace, Comma, Const, Eq, FatArrow, For, If, In, Let, Match, Move, Or,
};

/// `|a, b| a + b`, `move |a| -> T { .. }` (Rust Reference, "Closure expressions").
#[derive(Debug, Drop, PartialEq, Eq, Hash)]
pub struct ExprClosureOf<E, P> {
    /// The attributes.
    pub attrs: Vec<Attribute>,
    /// `for<'a>`
    pub lifetimes: Option<BoundLifetimes>,
    /// `static` and `use`, each or not.
    pub modifiers: ClosureModifiers,
    /// `const`
    pub constness: Option<Const>,
    /// `async`
    pub asyncness: Option<Async>,
    /// `move`
    pub capture: Option<Move>,
    /// The `|` before the arguments.
    pub inputs_begin: Or,
    /// The arguments.
    pub inputs: Punctuated<P, Comma>,
    /// The `|` after the arguments.
    pub inputs_end: Or,
    /// The type of its value; where one is given the body is a block.
    pub output: ReturnType,
    /// The body.
    pub body: Box<E>,
}

/// `for p in a { .. }` (Rust Reference, "Iterator loops").
#[derive(Debug, Drop, PartialEq, Eq, Hash)]
pub struct ExprForLoopOf<E, P> {
    /// The attributes: those before it, and those first in its braces.
    pub attrs: Vec<Attribute>,
    /// Its label.
    pub label: Option<Label>,
    /// `for`
    pub for_token: For,
    /// The pattern of each value.
    pub pat: Box<P>,
    /// `in`
    pub in_token: In,
    /// What gives the values.
    pub expr: Box<E>,
    /// The block that is repeated.
    pub body: Block,
}

/// `let p = a`, in a condition (Rust Reference, "`if let` patterns", "`while let` patterns").
#[derive(Debug, Drop, PartialEq, Eq, Hash)]
pub struct ExprLetOf<E, P> {
    /// The attributes.
    pub attrs: Vec<Attribute>,
    /// `let`
    pub let_token: Let,
    /// The pattern.
    pub pat: Box<P>,
    /// `=`
    pub eq_token: Eq,
    /// What is to match it.
    pub expr: Box<E>,
}

/// `match a { p => b, .. }` (Rust Reference, "Match expressions"), over the type of arms.
#[derive(Debug, Drop, PartialEq, Eq, Hash)]
pub struct ExprMatchOf<E, A> {
    /// The attributes: those before it, and those first in its braces.
    pub attrs: Vec<Attribute>,
    /// `match`
    pub match_token: Match,
    /// What is matched.
    pub expr: Box<E>,
    /// The braces.
    pub brace_token: Brace,
    /// The arms.
    pub arms: Vec<A>,
}

/// `p if a => b,` (Rust Reference, "Match expressions").
#[derive(Debug, Drop, PartialEq, Eq, Hash)]
pub struct ArmOf<E, P> {
    /// The attributes.
    pub attrs: Vec<Attribute>,
    /// The pattern, with its guard.
    pub pat: P,
    /// `=>`
    pub fat_arrow_token: FatArrow,
    /// The value where the pattern matches.
    pub body: Box<E>,
    /// `,`
    pub comma: Option<Comma>,
}

/// `p if a`, a pattern with a guard (Rust Reference, "Match guards").
#[derive(Debug, Drop, PartialEq, Eq, Hash)]
pub struct PatGuardOf<E, P> {
    /// The attributes.
    pub attrs: Vec<Attribute>,
    /// The pattern.
    pub pat: Box<P>,
    /// `if`
    pub if_token: If,
    /// The guard.
    pub guard: Box<E>,
}
