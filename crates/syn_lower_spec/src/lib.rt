//! The lower parts of expressions: how each is spelled, and the laws of it.
#![tactic(auto)]

pub mod label;
pub mod laws;
