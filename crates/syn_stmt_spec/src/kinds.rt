//! Kinds of items, which the definitions and the code share.

/// Which item a statement is (Rust Reference, "Items").
#[derive(Clone, Copy, Debug, PartialEq, Eq, Hash)]
pub enum ItemKind {
    /// A function.
    Fn,
    /// A use declaration.
    Use,
    /// A static item.
    Static,
    /// A constant item.
    Const,
    /// A type alias.
    Type,
    /// An extern crate declaration.
    ExternCrate,
    /// An external block.
    ForeignMod,
    /// A module.
    Mod,
    /// A trait, or a trait alias.
    Trait,
    /// An implementation.
    Impl,
    /// A struct.
    Struct,
    /// An enumeration.
    Enum,
    /// A union.
    Union,
    /// A macro that `macro` declares.
    Macro2,
    /// A macro that is called with a name, as `macro_rules! m { .. }`.
    Macro,
}
