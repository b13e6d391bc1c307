//! Copies of each kind of expression and of pattern, with their places. Each is refused only where memory runs out, and all
//! that was copied by then is dropped.
//!
//! They are generic in the types of expressions and of patterns, and take the copying of an operand: so each is proved by
//! itself. `syn_copy` puts `Expr` and `Pat` in.
#![tactic(auto)]

pub mod atom;
pub mod block;
pub mod both;
pub mod leaf;
pub mod list;
pub mod operand;
pub mod operation;
pub mod pat;
pub mod pat_part;
pub mod seen;
pub mod trailer;
