//! What the inside of a block means as a list of statements, and the laws of it.
#![tactic(auto)]

pub mod kinds;
pub mod laws;
