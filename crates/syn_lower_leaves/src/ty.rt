//! The parts of types that hold no types (Rust Reference, "Types").

use crate::lifetime::Lifetime;
use crate::lit::LitStr;
use crate::punctuated::Punctuated;
use syn_tokens::token::{Comma, Const, Extern, For, Gt, Lt, Mut};

/// Whether a pointer's target may be written (Rust Reference, "Pointer types").
#[derive(Clone, Copy, Debug, PartialEq, Eq, Hash)]
pub enum PointerMutability {
    /// `const`
    Const(Const),
    /// `mut`
    Mut(Mut),
}

/// `extern "C"` (Rust Reference, "Function pointer types").
#[derive(Debug, Drop, PartialEq, Eq, Hash)]
pub struct Abi {
    /// `extern`
    pub extern_token: Extern,
    /// Its name.
    pub name: Option<LitStr>,
}

/// `for<'a, 'b>` (Rust Reference, "Higher-ranked trait bounds").
#[derive(Debug, Drop, PartialEq, Eq, Hash)]
pub struct BoundLifetimes {
    /// `for`
    pub for_token: For,
    /// `<`
    pub lt_token: Lt,
    /// The lifetimes.
    pub lifetimes: Punctuated<Lifetime, Comma>,
    /// `>`
    pub gt_token: Gt,
}
