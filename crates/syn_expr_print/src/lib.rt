//! The printer of expressions, over that of the expressions inside.
#![tactic(auto)]

mod blocks;
mod ends;
pub mod frames;
pub mod match_expr;
pub mod operand;
pub mod print;
pub mod put;
pub mod single;
pub mod structure;
