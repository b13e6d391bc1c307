//! Labels that the parts of programs and the trees of specifications share.

/// Which literal a token is (Rust Reference, "Literal expressions").
#[derive(Clone, Copy, Debug, PartialEq, Eq)]
pub enum LitKind {
    /// A string literal, raw or not.
    Str,
    /// A byte string literal, raw or not.
    ByteStr,
    /// A C string literal, raw or not.
    CStr,
    /// A byte literal.
    Byte,
    /// A character literal.
    Char,
    /// An integer literal.
    Int,
    /// A floating-point literal.
    Float,
    /// The word `true` or `false`.
    Bool,
}

/// Where a path stands, which says how the arguments of its segments are spelled (Rust Reference, "Paths").
#[derive(Clone, Copy, Debug, PartialEq, Eq)]
pub enum PathStyle {
    /// In an expression or a pattern: `::` before `<`.
    Expr,
    /// In a type: `<` with or without `::` before it, or parentheses.
    Type,
    /// Without arguments.
    Mod,
}
