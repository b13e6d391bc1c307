//! Each kind of expression and of pattern that holds others, with each of these passed to a function that looks at it (`each`,
//! `each_pat`) or changes it (the other modules): over what goes through expressions, which ties the knot.
#![tactic(auto)]

pub mod atom;
pub mod block;
pub mod each;
pub mod each_pat;
pub mod jump;
pub mod laws;
pub mod operands;
pub mod operation;
pub mod pat;
pub mod structure;
pub mod trailer;
