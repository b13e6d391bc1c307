//! Whether literals are read back from their own tokens.
//!
//! A literal is read back where the grammar of its type spells it by its own tokens; then it is read back before whatever
//! comes after it too (`laws::leaves_are_read_back`). Lifetimes, attributes and blocks always are, so they have no test.

ghost use Rattle.std.specs.Prelude.{◌≡◌};
ghost use Rattle.syn_lower_leaves.specs.View as view;
ghost use Rattle.syn_lower_spec.specs.Fits as spec;
ghost use Rattle.syn_lower_spec.specs.Text as text;
ghost use Rattle.syn_lower_spec.specs.declared.label.LitKind.TheVariants as kind;

use crate::leaf::{is_truth, kind_of};
use crate::lit::{Lit, LitBool, LitByte, LitByteStr, LitCStr, LitChar, LitFloat, LitInt, LitStr};
use syn_lower_spec::label::LitKind;
use syn_tokens::tree::Literal;

/// Whether a literal is of this kind.
fn has_kind(token: &Literal, kind: LitKind) -> bool
    ensures { result ≡ spec.has_kind (text.kind_of token.now) kind }
{
    match kind_of(token.as_str()) {
        Some(found) => found == kind,
        None => false,
    }
}

impl LitStr {
    /// Whether its token is a string literal.
    #[tactic(auto, unfolding(syn_lower_spec::specs::Fits::lit_fits))]
    pub fn is_read_back(&self) -> bool
        ensures { result ≡ spec.lit_fits (view.lit_str_of self.now) }
    {
        has_kind(&self.token, LitKind::Str)
    }
}

impl LitByteStr {
    /// Whether its token is a byte string literal.
    #[tactic(auto, unfolding(syn_lower_spec::specs::Fits::lit_fits))]
    pub fn is_read_back(&self) -> bool
        ensures { result ≡ spec.lit_fits (record { kind = kind.ByteStr; text = self.now.token }) }
    {
        has_kind(&self.token, LitKind::ByteStr)
    }
}

impl LitCStr {
    /// Whether its token is a C string literal.
    #[tactic(auto, unfolding(syn_lower_spec::specs::Fits::lit_fits))]
    pub fn is_read_back(&self) -> bool
        ensures { result ≡ spec.lit_fits (record { kind = kind.CStr; text = self.now.token }) }
    {
        has_kind(&self.token, LitKind::CStr)
    }
}

impl LitByte {
    /// Whether its token is a byte literal.
    #[tactic(auto, unfolding(syn_lower_spec::specs::Fits::lit_fits))]
    pub fn is_read_back(&self) -> bool
        ensures { result ≡ spec.lit_fits (record { kind = kind.Byte; text = self.now.token }) }
    {
        has_kind(&self.token, LitKind::Byte)
    }
}

impl LitChar {
    /// Whether its token is a character literal.
    #[tactic(auto, unfolding(syn_lower_spec::specs::Fits::lit_fits))]
    pub fn is_read_back(&self) -> bool
        ensures { result ≡ spec.lit_fits (record { kind = kind.Char; text = self.now.token }) }
    {
        has_kind(&self.token, LitKind::Char)
    }
}

impl LitInt {
    /// Whether its token is an integer literal and it has no sign: a number with a sign is read back as a `Lit` alone.
    #[tactic(auto, using(crate::proofs::Numbers::unsigned_by))]
    pub fn is_read_back(&self) -> bool
        ensures { result ≡ spec.of_kind_fits kind.Int (view.lit_int_of self.now) }
    {
        self.minus_token.is_none() && has_kind(&self.token, LitKind::Int)
    }
}

impl LitFloat {
    /// Whether its token is a floating-point literal and it has no sign: a number with a sign is read back as a `Lit`
    /// alone.
    #[tactic(auto, using(crate::proofs::Numbers::unsigned_by))]
    pub fn is_read_back(&self) -> bool
        ensures { result ≡ spec.of_kind_fits kind.Float (view.lit_float_of self.now) }
    {
        self.minus_token.is_none() && has_kind(&self.token, LitKind::Float)
    }
}

impl LitBool {
    /// Whether its word is `true` or `false`.
    #[tactic(auto, unfolding(syn_lower_spec::specs::Fits::lit_fits))]
    pub fn is_read_back(&self) -> bool
        ensures { result ≡ spec.lit_fits (record { kind = kind.Bool; text = self.now.word }) }
    {
        is_truth(self.word.as_str())
    }
}

impl Lit {
    /// Whether its token is one of its kind. A number may have a sign.
    #[tactic(auto, using(crate::proofs::Numbers::signed_by), unfolding(syn_lower_spec::specs::Fits::lit_fits))]
    pub fn is_read_back(&self) -> bool
        ensures { result ≡ spec.lit_fits (view.lit_of self.now) }
    {
        match self {
            Lit::Str(x) => x.is_read_back(),
            Lit::ByteStr(x) => x.is_read_back(),
            Lit::CStr(x) => x.is_read_back(),
            Lit::Byte(x) => x.is_read_back(),
            Lit::Char(x) => x.is_read_back(),
            Lit::Int(x) => has_kind(&x.token, LitKind::Int),
            Lit::Float(x) => has_kind(&x.token, LitKind::Float),
            Lit::Bool(x) => x.is_read_back(),
        }
    }
}
