//! Literals (Rust Reference, "Literal expressions").

ghost use Rattle.std.specs.Prelude.{◌≡◌, true, ◌++◌, [], IfErr, OnOk, OnErr};
ghost use Rattle.syn_lower_leaves.specs.Signed.{number_printed};
ghost use Rattle.syn_lower_spec.specs.Text.{is_number};
ghost use Rattle.syn_tokens.specs.Input.{IsFront};

use syn_tokens::buffer::ToTokens;
use syn_tokens::error::{ErrorKind, Result};
use syn_tokens::token::Minus;
use syn_tokens::tree::{Ident, Literal, TokenStream};

/// A literal.
#[derive(Debug, Drop, PartialEq, Eq, Hash)]
pub enum Lit {
    /// `"text"`, `r"text"`
    Str(LitStr),
    /// `b"text"`, `br"text"`
    ByteStr(LitByteStr),
    /// `c"text"`, `cr"text"`
    CStr(LitCStr),
    /// `b'a'`
    Byte(LitByte),
    /// `'a'`
    Char(LitChar),
    /// `1`, `0x1f`, `1u8`
    Int(LitInt),
    /// `1.5`, `1e3`, `1.5f32`
    Float(LitFloat),
    /// `true`, `false`
    Bool(LitBool),
}

/// A string literal.
#[derive(Debug, Drop, PartialEq, Eq, Hash)]
pub struct LitStr {
    pub(crate) token: Literal,
}

/// A byte string literal.
#[derive(Debug, Drop, PartialEq, Eq, Hash)]
pub struct LitByteStr {
    pub(crate) token: Literal,
}

/// A C string literal.
#[derive(Debug, Drop, PartialEq, Eq, Hash)]
pub struct LitCStr {
    pub(crate) token: Literal,
}

/// A byte literal.
#[derive(Debug, Drop, PartialEq, Eq, Hash)]
pub struct LitByte {
    pub(crate) token: Literal,
}

/// A character literal.
#[derive(Debug, Drop, PartialEq, Eq, Hash)]
pub struct LitChar {
    pub(crate) token: Literal,
}

/// An integer literal. Where a sign was read with it, it prints as two tokens.
#[derive(Debug, Drop, PartialEq, Eq, Hash)]
pub struct LitInt {
    pub(crate) minus_token: Option<Minus>,
    pub(crate) token: Literal,
    ghost number: { is_number token ≡ true },
}

/// A floating-point literal. Where a sign was read with it, it prints as two tokens.
#[derive(Debug, Drop, PartialEq, Eq, Hash)]
pub struct LitFloat {
    pub(crate) minus_token: Option<Minus>,
    pub(crate) token: Literal,
    ghost number: { is_number token ≡ true },
}

/// `true` or `false`.
#[derive(Debug, Drop, PartialEq, Eq, Hash)]
pub struct LitBool {
    pub(crate) word: Ident,
}

/// Prints a number, after its sign.
#[tactic(auto, using(syn_tokens::proofs::Fronts::fronts), unfolding(syn_tokens::specs::Sign::sign_text))]
fn print_number(minus: &Option<Minus>, token: &Literal, tokens: &mut TokenStream) -> Result<()>
    ensures ok { OnOk result (tokens.new ≡ tokens.old ++ number_printed minus.now token.now) }
    ensures err { OnErr result (IsFront tokens.old tokens.new) }
    ensures memory { IfErr result (λ e. e.kind ≡ ErrorKind.OutOfMemory) }
{
    if let Some(minus) = minus {
        minus.to_tokens(tokens)?;
    }
    token.to_tokens(tokens)
}

#[tactic(auto, unfolding(syn_lower_spec::specs::Own::lit_own))]
impl ToTokens for LitStr {
    ghost use Rattle.syn_lower_leaves.specs.View.{lit_str_of};
    ghost use Rattle.syn_lower_spec.specs.Own.{lit_own};

    ghost printed = { λ x. lit_own (lit_str_of x) [] };

    fn to_tokens(&self, tokens: &mut TokenStream) -> Result<()> {
        self.token.to_tokens(tokens)
    }
}

#[tactic(auto, unfolding(syn_lower_spec::specs::Own::lit_own))]
impl ToTokens for LitByteStr {
    ghost use Rattle.syn_lower_spec.specs.declared.label.LitKind.TheVariants as kind;
    ghost use Rattle.syn_lower_spec.specs.Own.{lit_own};

    ghost printed = { λ x. lit_own (record { kind = kind.ByteStr; text = x.token }) [] };

    fn to_tokens(&self, tokens: &mut TokenStream) -> Result<()> {
        self.token.to_tokens(tokens)
    }
}

#[tactic(auto, unfolding(syn_lower_spec::specs::Own::lit_own))]
impl ToTokens for LitCStr {
    ghost use Rattle.syn_lower_spec.specs.declared.label.LitKind.TheVariants as kind;
    ghost use Rattle.syn_lower_spec.specs.Own.{lit_own};

    ghost printed = { λ x. lit_own (record { kind = kind.CStr; text = x.token }) [] };

    fn to_tokens(&self, tokens: &mut TokenStream) -> Result<()> {
        self.token.to_tokens(tokens)
    }
}

#[tactic(auto, unfolding(syn_lower_spec::specs::Own::lit_own))]
impl ToTokens for LitByte {
    ghost use Rattle.syn_lower_spec.specs.declared.label.LitKind.TheVariants as kind;
    ghost use Rattle.syn_lower_spec.specs.Own.{lit_own};

    ghost printed = { λ x. lit_own (record { kind = kind.Byte; text = x.token }) [] };

    fn to_tokens(&self, tokens: &mut TokenStream) -> Result<()> {
        self.token.to_tokens(tokens)
    }
}

#[tactic(auto, unfolding(syn_lower_spec::specs::Own::lit_own))]
impl ToTokens for LitChar {
    ghost use Rattle.syn_lower_spec.specs.declared.label.LitKind.TheVariants as kind;
    ghost use Rattle.syn_lower_spec.specs.Own.{lit_own};

    ghost printed = { λ x. lit_own (record { kind = kind.Char; text = x.token }) [] };

    fn to_tokens(&self, tokens: &mut TokenStream) -> Result<()> {
        self.token.to_tokens(tokens)
    }
}

#[tactic(auto, using(crate::proofs::Numbers::numbers))]
impl ToTokens for LitInt {
    ghost use Rattle.syn_lower_leaves.specs.View.{lit_int_of};
    ghost use Rattle.syn_lower_spec.specs.Own.{lit_own};

    ghost printed = { λ x. lit_own (lit_int_of x) [] };

    fn to_tokens(&self, tokens: &mut TokenStream) -> Result<()> {
        print_number(&self.minus_token, &self.token, tokens)
    }
}

#[tactic(auto, using(crate::proofs::Numbers::numbers))]
impl ToTokens for LitFloat {
    ghost use Rattle.syn_lower_leaves.specs.View.{lit_float_of};
    ghost use Rattle.syn_lower_spec.specs.Own.{lit_own};

    ghost printed = { λ x. lit_own (lit_float_of x) [] };

    fn to_tokens(&self, tokens: &mut TokenStream) -> Result<()> {
        print_number(&self.minus_token, &self.token, tokens)
    }
}

#[tactic(auto, unfolding(syn_lower_spec::specs::Own::lit_own))]
impl ToTokens for LitBool {
    ghost use Rattle.syn_lower_spec.specs.declared.label.LitKind.TheVariants as kind;
    ghost use Rattle.syn_lower_spec.specs.Own.{lit_own};

    ghost printed = { λ x. lit_own (record { kind = kind.Bool; text = x.word }) [] };

    fn to_tokens(&self, tokens: &mut TokenStream) -> Result<()> {
        self.word.to_tokens(tokens)
    }
}

impl ToTokens for Lit {
    ghost use Rattle.syn_lower_leaves.specs.View.{lit_of};
    ghost use Rattle.syn_lower_spec.specs.Own.{lit_own};

    ghost printed = { λ x. lit_own (lit_of x) [] };

    fn to_tokens(&self, tokens: &mut TokenStream) -> Result<()> {
        match self {
            Lit::Str(x) => x.to_tokens(tokens),
            Lit::ByteStr(x) => x.to_tokens(tokens),
            Lit::CStr(x) => x.to_tokens(tokens),
            Lit::Byte(x) => x.to_tokens(tokens),
            Lit::Char(x) => x.to_tokens(tokens),
            Lit::Int(x) => x.to_tokens(tokens),
            Lit::Float(x) => x.to_tokens(tokens),
            Lit::Bool(x) => x.to_tokens(tokens),
        }
    }
}
