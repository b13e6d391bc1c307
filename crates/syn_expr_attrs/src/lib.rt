//! Attributes put before an expression of each kind, which has none before it (Rust Reference, "Expression attributes").
#![tactic(auto, using(syn_expr_ast::proofs::Attributed::attributed))]

pub mod around;
pub mod before;
