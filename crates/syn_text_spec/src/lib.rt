//! From tree to text: the tokens of a tree whose leaves are lexed are those that their own text falls into.
#![tactic(auto)]

pub mod laws;
