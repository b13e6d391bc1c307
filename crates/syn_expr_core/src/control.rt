//! Kinds where a pattern decides: `for`, `let` in a condition, and `match`.

use crate::expr::Expr;
use crate::pat::Pat;
use syn_expr_tokens::modifiers::Label;
use syn_lower::attr::Attribute;
use syn_lower::stmt::Block;
use syn_tokens::token::{Brace, Comma, Eq, FatArrow, For, In, Let, Match};

/// `for p in a { .. }` (Rust Reference, "Iterator loops").
#[cycle(expr)]
#[derive(Debug, Drop, PartialEq, Eq, Hash)]
pub struct ExprForLoop {
    /// The attributes: those before it, and those first in its braces.
    pub attrs: Vec<Attribute>,
    /// Its label.
    pub label: Option<Label>,
    /// `for`
    pub for_token: For,
    /// The pattern of each value.
    pub pat: Box<Pat>,
    /// `in`
    pub in_token: In,
    /// What gives the values.
    pub expr: Box<Expr>,
    /// The block that is repeated.
    pub body: Block,
}

/// `let p = a`, in a condition (Rust Reference, "`if let` patterns", "`while let` patterns").
#[cycle(expr)]
#[derive(Debug, Drop, PartialEq, Eq, Hash)]
pub struct ExprLet {
    /// The attributes.
    pub attrs: Vec<Attribute>,
    /// `let`
    pub let_token: Let,
    /// The pattern.
    pub pat: Box<Pat>,
    /// `=`
    pub eq_token: Eq,
    /// What is to match it.
    pub expr: Box<Expr>,
}

/// `match a { p => b, .. }` (Rust Reference, "Match expressions").
#[cycle(expr)]
#[derive(Debug, Drop, PartialEq, Eq, Hash)]
pub struct ExprMatch {
    /// The attributes: those before it, and those first in its braces.
    pub attrs: Vec<Attribute>,
    /// `match`
    pub match_token: Match,
    /// What is matched.
    pub expr: Box<Expr>,
    /// The braces.
    pub brace_token: Brace,
    /// The arms.
    pub arms: Vec<Arm>,
}

/// `p if a => b,` (Rust Reference, "Match expressions").
#[cycle(expr)]
#[derive(Debug, Drop, PartialEq, Eq, Hash)]
pub struct Arm {
    /// The attributes.
    pub attrs: Vec<Attribute>,
    /// The pattern; one with a guard is a `Pat::Guard`.
    pub pat: Pat,
    /// `=>`
    pub fat_arrow_token: FatArrow,
    /// The value where the pattern matches.
    pub body: Box<Expr>,
    /// `,`
    pub comma: Option<Comma>,
}
