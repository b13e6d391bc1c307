//! Attributes (Rust Reference, "Attributes").

use syn_tokens::token::{Bracket, Not, Pound};
use syn_tokens::tree::TokenStream;

/// Whether an attribute comes before what it belongs to, or inside of it.
#[derive(Clone, Copy, Debug, PartialEq, Eq, Hash)]
pub enum AttrStyle {
    /// `#[..]`
    Outer,
    /// `#![..]`
    Inner(Not),
}

/// An attribute. What is in the brackets is kept as tokens.
#[derive(Debug, Drop, PartialEq, Eq, Hash)]
pub struct Attribute {
    /// `#`
    pub pound_token: Pound,
    /// Outer or inner.
    pub style: AttrStyle,
    /// The brackets.
    pub bracket_token: Bracket,
    /// What they enclose.
    pub tokens: TokenStream,
}
