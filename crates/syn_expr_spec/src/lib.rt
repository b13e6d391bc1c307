//! What the reader and the printer of expressions are to mean, and the laws of it.
#![tactic(auto)]

pub mod kinds;
pub mod laws;
pub mod next;
pub mod printing;
pub mod queries;
pub mod summary;
pub mod trees;
