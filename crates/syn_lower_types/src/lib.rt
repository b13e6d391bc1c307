//! The parts of expressions that hold types (paths and what is in them, macros, the kinds of types), generic in the type of
//! types, which is above.
#![tactic(auto)]

pub mod fits;
pub mod kinds;
pub mod mac;
pub mod path;
mod pieces;
pub mod print;
pub mod read_back;
mod readers;
pub mod ty;
pub mod types;
mod word;
