//! The lexemes of a Rust text: what is at its front, and how long it is.
#![tactic(auto)]

pub mod error;
pub mod front;
mod number;
