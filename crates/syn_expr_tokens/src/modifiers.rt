//! Labels of loops and blocks, and modifiers of closures and blocks (Rust Reference, "Loop labels").

ghost use Rattle.std.specs.Prelude.{◌≡◌, IsErrAnd, IsOk, MatchOption};
ghost use Rattle.syn_expr_tokens.specs.Refusal.{modifier_span};

use syn_lower_leaves::lifetime::Lifetime;
use syn_tokens::error::{Error, ErrorKind, Result};
use syn_tokens::token::{Colon, Static, Use};

/// The modifiers of a closure: the words before its arguments but `const`, `async` and `move`, which `ExprClosure` has itself.
/// Equality ignores places.
#[derive(Clone, Copy, Debug, Default, PartialEq, Eq, Hash)]
pub struct ClosureModifiers {
    /// `static`
    pub static_token: Option<Static>,
    /// `use`; no closure with `move` is read with it.
    pub use_token: Option<Use>,
}

impl ClosureModifiers {
    /// Whether there are none. They are refused as `ModifierNotEmpty`, at `static` where that is there, else at `use`.
    pub fn require_empty(&self) -> Result<()>
        ensures { MatchOption (modifier_span self.now) (IsOk result) (λ s. IsErrAnd result (λ e. (e.kind ≡ ErrorKind.ModifierNotEmpty) × (e.span ≡ s))) }
    {
        if let Some(token) = &self.static_token {
            return Err(Error::new(token.span, ErrorKind::ModifierNotEmpty));
        }
        if let Some(token) = &self.use_token {
            return Err(Error::new(token.span, ErrorKind::ModifierNotEmpty));
        }
        Ok(())
    }
}

/// The modifiers of a block: none.
#[derive(Clone, Copy, Debug, Default, PartialEq, Eq, Hash)]
pub struct BlockModifiers {}

impl BlockModifiers {
    /// Whether there are none, which is always so.
    pub fn require_empty(&self) -> Result<()>
        ensures { IsOk result }
    {
        Ok(())
    }
}

/// A label: a lifetime and `:`. Equality ignores places.
#[derive(Debug, Drop, PartialEq, Eq, Hash)]
pub struct Label {
    /// The name, an apostrophe and a word.
    pub name: Lifetime,
    /// `:`
    pub colon_token: Colon,
}
