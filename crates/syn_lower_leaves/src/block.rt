//! Blocks (Rust Reference, "Block expressions").

use syn_tokens::token::Brace;
use syn_tokens::tree::TokenStream;

/// A block. What is in the braces is kept as tokens.
#[derive(Debug, Drop, PartialEq, Eq, Hash)]
pub struct Block {
    /// The braces.
    pub brace_token: Brace,
    /// What they enclose.
    pub stmts: TokenStream,
}
