//! The readers of what comes before, between and after the operands of expressions: leaves, the tokens before an operand,
//! those of a trailer, of a closure, of a field and of an arm.
#![tactic(auto)]

pub mod block;
pub mod closure;
pub mod leaf;
pub mod prefix;
pub mod word;
