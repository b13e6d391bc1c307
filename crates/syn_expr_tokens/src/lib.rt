//! `BinOp`, `UnOp`, `RangeLimits`, `Member`, `Index`, `Label` and modifiers, and what stands first where an expression may
//! begin, go on or end.
#![tactic(auto)]

pub mod atom;
pub mod limits;
pub mod member;
pub mod modifiers;
pub mod number;
pub mod op;
mod parse;
mod print;
pub mod reader;
pub mod same;
