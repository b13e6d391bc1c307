//! Whether an expression is read back from its own tokens.
#![tactic(auto)]

mod expr;
pub mod fits;
pub mod heads;
pub mod own;
mod pat;
pub mod patterns;
pub mod slot;
mod verbatim;
pub mod walk;

pub use walk::is_well;
