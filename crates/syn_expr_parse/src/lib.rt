//! The reader of expressions, over that of the expressions inside.
//!
//! `Grammar` holds the reader of the expressions inside; a crate above ties the knot.
#![tactic(auto)]

pub mod atoms;
pub mod blocks;
pub mod kinds;
pub mod known;
pub mod leftover;
pub mod lists;
pub mod make;
pub mod operands;
pub mod operations;
pub mod structure;
pub mod trailers;
