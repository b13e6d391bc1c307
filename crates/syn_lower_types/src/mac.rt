//! Calls of macros (Rust Reference, "Macro Invocation").

use crate::path::PathOf;
pub use syn_lower_leaves::mac::MacroDelimiter;
use syn_tokens::token::Not;
use syn_tokens::tree::TokenStream;

/// The call of a macro.
#[derive(Debug, Drop, PartialEq, Eq, Hash)]
pub struct MacroOf<T> {
    /// The macro's path, without arguments.
    pub path: PathOf<T>,
    /// `!`
    pub bang_token: Not,
    /// What encloses the tokens.
    pub delimiter: MacroDelimiter,
    /// The tokens.
    pub tokens: TokenStream,
}
