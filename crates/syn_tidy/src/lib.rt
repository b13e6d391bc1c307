//! Texts of token streams as people write them, and the layouts of a stream, each of which is lexed as it.
#![tactic(auto)]

pub mod laws;
pub mod layout;
mod taste;

pub use layout::tidy;
