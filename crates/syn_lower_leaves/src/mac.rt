//! What encloses the tokens of a macro's call (Rust Reference, "Macro Invocation").

use syn_tokens::token::{Brace, Bracket, Paren};

/// What encloses the tokens of a macro's call.
#[derive(Clone, Copy, Debug, PartialEq, Eq, Hash)]
pub enum MacroDelimiter {
    /// `( .. )`
    Paren(Paren),
    /// `{ .. }`
    Brace(Brace),
    /// `[ .. ]`
    Bracket(Bracket),
}
