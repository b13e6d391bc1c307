//! Lifetimes and loop labels (Rust Reference, "Lifetimes and loop labels").

use syn_tokens::tree::{Ident, Span};

/// A lifetime: an apostrophe and a word, which may be a reserved one.
#[derive(Debug, Drop)]
#[derive_where(PartialEq, Eq, Hash)]
pub struct Lifetime {
    /// Where the apostrophe is.
    #[derive_where(skip(EqHashOrd))]
    pub apostrophe: Span,
    /// The word.
    pub ident: Ident,
}
