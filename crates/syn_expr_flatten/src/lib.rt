//! `flatten`: an expression without the parentheses in it.
#![tactic(auto)]

pub mod atom;
pub mod attrs;
pub mod block;
pub mod jump;
pub mod knot;
pub mod laws;
mod members;
pub mod operation;
pub mod paren;
pub mod pat;
pub mod trailer;
mod whole;

pub use laws::{flattened_is_same, formed_parens_are_outer, read_parens_are_outer};
pub use whole::{flatten, flatten_in_place};
