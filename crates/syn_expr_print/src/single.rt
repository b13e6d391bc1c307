//! Nodes printed by themselves, over any type of expressions.
//!
//! The printer of whole expressions goes through a node by its parts. Here a node's parts are borrowed from the struct of
//! its kind, and only its operands are expressions: a node is printed by its shape, after its attributes.

pub mod ends;
pub mod frames;
pub mod part;
mod summarized;
pub mod trails;
