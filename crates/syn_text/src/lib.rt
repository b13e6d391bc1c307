//! From text to text: which token streams a text falls into, and that their own text falls into them again.
#![tactic(auto)]

pub mod laws;
pub mod lexed;

pub use lexed::{is_lexed, reread};
