//! What a printer knows of a node before it prints, so that it looks at each node twice and no more.

use crate::kinds::Precedence;

/// What a node is itself, as far as a place may not have it.
#[derive(Clone, Copy, Debug, PartialEq, Eq)]
pub enum Sort {
    /// A block without a label: a brace is first.
    Block,
    /// Another expression that ends with a block, or one after attributes.
    BlockLike,
    /// A macro called with braces.
    BracedMacro,
    /// A `let`.
    Let,
    /// A struct expression.
    Struct,
    /// Anything else.
    Other,
}

/// The ends of a node as printed, left bare.
#[derive(Clone, Copy, Debug, PartialEq, Eq)]
pub struct Summary {
    /// The lowest operator on its left edge, `Unambiguous` where there is none.
    pub low: Precedence,
    /// The classes of tokens that it must not have after it: a bit for each, in the order of `Next`.
    pub ends: u32,
    /// It is an assignment, a binary operation, a cast or a range, and has no attributes.
    pub operation: bool,
    /// It is a range, and has no attributes.
    pub range: bool,
    /// It is a comparison, and has no attributes.
    pub comparison: bool,
    /// A trailer after it would belong to it, or is refused there.
    pub carries: bool,
    /// A trailer may have it as its base.
    pub base: bool,
    /// It is a field with a name, and has no attributes.
    pub named_field: bool,
    /// Its first token is that of a label.
    pub labelled: bool,
    /// What it is itself.
    pub sort: Sort,
}
