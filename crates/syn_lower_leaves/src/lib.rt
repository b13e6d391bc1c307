//! `Lit`, `Lifetime`, `Attribute`, `Punctuated` and the other lower parts that hold no types, and what the readers of all
//! lower parts share.
#![tactic(auto)]

pub mod ahead;
pub mod attr;
pub mod block;
mod copy;
pub mod error;
pub mod fits;
pub mod front;
pub mod laws;
pub mod leaf;
pub mod lifetime;
pub mod lit;
pub mod mac;
mod make;
mod number;
mod parse;
pub mod print;
pub mod punctuated;
mod quoted;
pub mod read_back;
pub mod readers;
pub mod same;
pub mod ty;
mod value;
