//! Why a literal has no value, or none of the type that is asked for.

ghost use Rattle.std.specs.Prelude.{◌≡◌};
ghost use Rattle.syn_lower_leaves.specs.ErrorText as spec;
ghost use Rattle.syn_lower_leaves.specs.declared.error.LitErrorKind.TheVariants.{OutOfMemory};

use std::alloc::{AllocError, AllocFailed};
use std::fmt;
use syn_tokens::tree::Span;

/// A literal whose value is refused: what is wrong with it, and where it is. It takes no memory.
///
/// It is not a `syn_tokens::error::Error`, which says why tokens can't be read: no reader looks at a value. A function that
/// reads and asks for values has an error type of its own, with a `From` for each, or answers that of `anyhow`.
#[derive(Clone, Copy, Debug, PartialEq, Eq)]
pub struct LitError {
    /// Where: the token of the literal, without a sign before it.
    pub span: Span,
    /// What.
    pub kind: LitErrorKind,
}

/// What is wrong with a literal whose value is refused.
#[derive(Clone, Copy, Debug, PartialEq, Eq)]
pub enum LitErrorKind {
    /// Memory ran out; the place tells nothing.
    OutOfMemory,
    /// It has no value, as `'\q'`: the compiler refuses its text.
    Malformed,
    /// Its value is none of the type that was asked for.
    OutOfRange,
}

impl LitErrorKind {
    /// The text of the refusal.
    pub fn text(self) -> &'static str
        ensures { result.now ≡ spec.lit_error_text self }
    {
        match self {
            LitErrorKind::OutOfMemory => "out of memory",
            LitErrorKind::Malformed => "malformed literal",
            LitErrorKind::OutOfRange => "literal out of range",
        }
    }
}

impl From<AllocError> for LitError {
    ghost from_gives = { λ _ e. e.kind ≡ OutOfMemory };

    fn from(_e: AllocError) -> LitError {
        LitError {
            span: Span::call_site(),
            kind: LitErrorKind::OutOfMemory,
        }
    }
}

impl<T: Drop> From<AllocFailed<T>> for LitError {
    ghost from_gives = { λ _ e. e.kind ≡ OutOfMemory };

    fn from(_e: AllocFailed<T>) -> LitError {
        LitError {
            span: Span::call_site(),
            kind: LitErrorKind::OutOfMemory,
        }
    }
}

impl fmt::Display for LitErrorKind {
    ghost use Rattle.syn_lower_leaves.specs.ErrorText.{lit_error_text};
    ghost use Rattle.std.specs.Prelude.{Some};

    ghost output = { λ k. Some (lit_error_text k) };

    fn fmt<W: fmt::Write>(&self, f: &mut fmt::Formatter<W>) -> fmt::Result {
        f.write_str(self.text())
    }
}

impl fmt::Display for LitError {
    ghost use Rattle.syn_lower_leaves.specs.ErrorText.{lit_error_text};
    ghost use Rattle.std.specs.Prelude.{Some};

    ghost output = { λ e. Some (lit_error_text e.kind) };

    fn fmt<W: fmt::Write>(&self, f: &mut fmt::Formatter<W>) -> fmt::Result {
        f.write_str(self.kind.text())
    }
}

impl std::error::Error for LitError {}
