//! The kinds of patterns, generic in the type of patterns, which is above.
#![tactic(auto)]

pub mod kinds;
pub mod pat;
pub mod print;
mod print_struct;
