//! The kinds of expressions (Rust Reference, "Expressions"), a struct each, as in syn.
//!
//! A struct that holds expressions is generic in them, so that it is below the type of expressions: `ExprCallOf<Expr>` is
//! syn's `ExprCall`. The kinds that hold patterns are beside that type.
#![tactic(auto)]

pub mod alone;
pub mod atom;
pub mod attrs;
pub mod block;
pub mod jump;
pub mod label;
pub mod node;
pub mod operation;
pub mod parse;
pub mod pattern;
pub mod put;
pub mod shape;
pub mod structure;
pub mod trailer;
