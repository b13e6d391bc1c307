//! The readers of the parts that hold no types, as the trait has them: each answers exactly what its form spells, and leaves
//! the rest.

ghost use Rattle.std.specs.Prelude.{◌≡◌, ◌⊎◌, ◌≤◌, IfErr, IfOk, Some, map};
ghost use Rattle.syn_lower_leaves.specs.Reads.{Reads, wanted_lifetime};
ghost use Rattle.syn_lower_leaves.specs.View.{attribute_of, lifetime_of, lit_of, lit_str_of, lit_int_of, lit_float_of};
ghost use Rattle.syn_lower_spec.specs.Kind as kinds;
ghost use Rattle.syn_lower_spec.specs.declared.label.LitKind.TheVariants as kind;
ghost use Rattle.syn_lower_spec.specs.Part as part;
ghost use Rattle.syn_tokens.specs.Input.{IsAfter};
ghost use Rattle.syn_tokens.specs.Tok.{weight};
ghost use Rattle.syn_tokens.specs.declared.error.ErrorKind.TheVariants.{OutOfMemory};
ghost use Rattle.syn_lower_leaves.specs.View as view;

use crate::ahead::{ReadByForm, ahead};
use crate::attr::Attribute;
use crate::block::Block;
use crate::leaf::{block, inner_attributes, lifetime, lit, outer_attributes, unsigned};
use crate::lifetime::Lifetime;
use crate::lit::{Lit, LitBool, LitByte, LitByteStr, LitCStr, LitChar, LitFloat, LitInt, LitStr};
use crate::readers::{lifetimes, maybe_abi, pointer_mutability};
use crate::ty::{Abi, BoundLifetimes, PointerMutability};
use syn_tokens::buffer::{Parse, ParseBuffer, Token};
use syn_tokens::error::{ErrorKind, Expected, Part, Result};
use syn_tokens::token::Extern;

#[tactic(auto, using(syn_lower_spec::proofs::Readable::readables))]
impl ReadByForm for Lifetime {
    ghost use Rattle.syn_lower_spec.specs.Text.{Text};

    ghost Seen = { Text };

    ghost seen = { lifetime_of };

    ghost form = { part.lifetime };

    ghost refuses = { λ _ k. (k ≡ OutOfMemory) ⊎ (k ≡ wanted_lifetime) };

    fn read(input: &mut ParseBuffer<'_>) -> Result<Self> {
        lifetime(input)
    }
}

#[tactic(auto, using(syn_lower_spec::proofs::Readable::readables))]
impl Parse for Lifetime {
    ghost use Rattle.syn_lower_spec.specs.Text.{Text};

    ghost Seen = { Text };

    ghost seen = { lifetime_of };

    /// An apostrophe and a word come before the rest.
    ghost spells = { λ l x rest. part.lifetime.behind x l ≡ Some rest };

    ghost least = { 1 };

    ghost refuses = { λ _ k. (k ≡ OutOfMemory) ⊎ (k ≡ wanted_lifetime) };

    /// Reads a lifetime (Rust Reference, "Lifetimes and loop labels"); it is refused as `ExpectedToken` of a lifetime.
    fn parse(input: &mut ParseBuffer<'_>) -> Result<Self> {
        ahead(input)
    }
}

#[tactic(auto, using(syn_lower_spec::proofs::Readable::readables))]
impl ReadByForm for Lit {
    ghost use Rattle.syn_lower_spec.specs.Tree.{LitTree};

    ghost Seen = { LitTree };

    ghost seen = { lit_of };

    ghost form = { part.lit };

    fn read(input: &mut ParseBuffer<'_>) -> Result<Self> {
        lit(input)
    }
}

#[tactic(auto, using(syn_lower_spec::proofs::Readable::readables))]
impl Parse for Lit {
    ghost use Rattle.syn_lower_spec.specs.Tree.{LitTree};

    ghost Seen = { LitTree };

    ghost seen = { lit_of };

    /// A literal, or `-` and a number, comes before the rest.
    ghost spells = { λ l x rest. part.lit.behind x l ≡ Some rest };

    ghost least = { 1 };

    /// Reads a literal, or `-` and a number (Rust Reference, "Literal expressions"); it is refused as `ExpectedPart` of
    /// a literal.
    fn parse(input: &mut ParseBuffer<'_>) -> Result<Self> {
        ahead(input)
    }
}

#[tactic(auto, unfolding(syn_lower_spec::specs::Part::unsigned, syn_lower_spec::specs::Kind::of_kind))]
impl ReadByForm for LitStr {
    ghost use Rattle.syn_lower_spec.specs.Tree.{LitTree};

    ghost Seen = { LitTree };

    ghost seen = { lit_str_of };

    ghost form = { kinds.of_kind kind.Str };

    fn read(input: &mut ParseBuffer<'_>) -> Result<Self> {
        let other = input.error(ErrorKind::ExpectedPart(Part::Literal));
        match unsigned(input)? {
            Lit::Str(x) => Ok(x),
            _ => Err(other),
        }
    }
}

#[tactic(auto, using(syn_lower_spec::proofs::Readable::readables))]
impl Parse for LitStr {
    ghost use Rattle.syn_lower_spec.specs.Tree.{LitTree};

    ghost Seen = { LitTree };

    ghost seen = { lit_str_of };

    /// A string literal comes before the rest.
    ghost spells = { λ l x rest. (kinds.of_kind kind.Str).behind x l ≡ Some rest };

    ghost least = { 1 };

    /// Reads a string literal (Rust Reference, "String literals", "Raw string literals"); it is refused as
    /// `ExpectedPart` of a literal.
    fn parse(input: &mut ParseBuffer<'_>) -> Result<Self> {
        ahead(input)
    }
}

#[tactic(auto, unfolding(syn_lower_spec::specs::Part::unsigned, syn_lower_spec::specs::Kind::of_kind))]
impl ReadByForm for LitByteStr {
    ghost use Rattle.syn_lower_spec.specs.Tree.{LitTree};

    ghost Seen = { LitTree };

    ghost seen = { λ x. record { kind = kind.ByteStr; text = x.token } };

    ghost form = { kinds.of_kind kind.ByteStr };

    fn read(input: &mut ParseBuffer<'_>) -> Result<Self> {
        let other = input.error(ErrorKind::ExpectedPart(Part::Literal));
        match unsigned(input)? {
            Lit::ByteStr(x) => Ok(x),
            _ => Err(other),
        }
    }
}

#[tactic(auto, using(syn_lower_spec::proofs::Readable::readables))]
impl Parse for LitByteStr {
    ghost use Rattle.syn_lower_spec.specs.Tree.{LitTree};

    ghost Seen = { LitTree };

    ghost seen = { λ x. record { kind = kind.ByteStr; text = x.token } };

    /// A byte string literal comes before the rest.
    ghost spells = { λ l x rest. (kinds.of_kind kind.ByteStr).behind x l ≡ Some rest };

    ghost least = { 1 };

    /// Reads a byte string literal (Rust Reference, "Byte string literals", "Raw byte string literals"); it is refused
    /// as `ExpectedPart` of a literal.
    fn parse(input: &mut ParseBuffer<'_>) -> Result<Self> {
        ahead(input)
    }
}

#[tactic(auto, unfolding(syn_lower_spec::specs::Part::unsigned, syn_lower_spec::specs::Kind::of_kind))]
impl ReadByForm for LitCStr {
    ghost use Rattle.syn_lower_spec.specs.Tree.{LitTree};

    ghost Seen = { LitTree };

    ghost seen = { λ x. record { kind = kind.CStr; text = x.token } };

    ghost form = { kinds.of_kind kind.CStr };

    fn read(input: &mut ParseBuffer<'_>) -> Result<Self> {
        let other = input.error(ErrorKind::ExpectedPart(Part::Literal));
        match unsigned(input)? {
            Lit::CStr(x) => Ok(x),
            _ => Err(other),
        }
    }
}

#[tactic(auto, using(syn_lower_spec::proofs::Readable::readables))]
impl Parse for LitCStr {
    ghost use Rattle.syn_lower_spec.specs.Tree.{LitTree};

    ghost Seen = { LitTree };

    ghost seen = { λ x. record { kind = kind.CStr; text = x.token } };

    /// A C string literal comes before the rest.
    ghost spells = { λ l x rest. (kinds.of_kind kind.CStr).behind x l ≡ Some rest };

    ghost least = { 1 };

    /// Reads a C string literal (Rust Reference, "C string literals", "Raw C string literals"); it is refused as
    /// `ExpectedPart` of a literal.
    fn parse(input: &mut ParseBuffer<'_>) -> Result<Self> {
        ahead(input)
    }
}

#[tactic(auto, unfolding(syn_lower_spec::specs::Part::unsigned, syn_lower_spec::specs::Kind::of_kind))]
impl ReadByForm for LitByte {
    ghost use Rattle.syn_lower_spec.specs.Tree.{LitTree};

    ghost Seen = { LitTree };

    ghost seen = { λ x. record { kind = kind.Byte; text = x.token } };

    ghost form = { kinds.of_kind kind.Byte };

    fn read(input: &mut ParseBuffer<'_>) -> Result<Self> {
        let other = input.error(ErrorKind::ExpectedPart(Part::Literal));
        match unsigned(input)? {
            Lit::Byte(x) => Ok(x),
            _ => Err(other),
        }
    }
}

#[tactic(auto, using(syn_lower_spec::proofs::Readable::readables))]
impl Parse for LitByte {
    ghost use Rattle.syn_lower_spec.specs.Tree.{LitTree};

    ghost Seen = { LitTree };

    ghost seen = { λ x. record { kind = kind.Byte; text = x.token } };

    /// A byte literal comes before the rest.
    ghost spells = { λ l x rest. (kinds.of_kind kind.Byte).behind x l ≡ Some rest };

    ghost least = { 1 };

    /// Reads a byte literal (Rust Reference, "Byte literals"); it is refused as `ExpectedPart` of a literal.
    fn parse(input: &mut ParseBuffer<'_>) -> Result<Self> {
        ahead(input)
    }
}

#[tactic(auto, unfolding(syn_lower_spec::specs::Part::unsigned, syn_lower_spec::specs::Kind::of_kind))]
impl ReadByForm for LitChar {
    ghost use Rattle.syn_lower_spec.specs.Tree.{LitTree};

    ghost Seen = { LitTree };

    ghost seen = { λ x. record { kind = kind.Char; text = x.token } };

    ghost form = { kinds.of_kind kind.Char };

    fn read(input: &mut ParseBuffer<'_>) -> Result<Self> {
        let other = input.error(ErrorKind::ExpectedPart(Part::Literal));
        match unsigned(input)? {
            Lit::Char(x) => Ok(x),
            _ => Err(other),
        }
    }
}

#[tactic(auto, using(syn_lower_spec::proofs::Readable::readables))]
impl Parse for LitChar {
    ghost use Rattle.syn_lower_spec.specs.Tree.{LitTree};

    ghost Seen = { LitTree };

    ghost seen = { λ x. record { kind = kind.Char; text = x.token } };

    /// A character literal comes before the rest.
    ghost spells = { λ l x rest. (kinds.of_kind kind.Char).behind x l ≡ Some rest };

    ghost least = { 1 };

    /// Reads a character literal (Rust Reference, "Character literals"); it is refused as `ExpectedPart` of a literal.
    fn parse(input: &mut ParseBuffer<'_>) -> Result<Self> {
        ahead(input)
    }
}

#[tactic(auto, unfolding(syn_lower_spec::specs::Part::unsigned, syn_lower_spec::specs::Kind::of_kind))]
impl ReadByForm for LitInt {
    ghost use Rattle.syn_lower_spec.specs.Tree.{LitTree};

    ghost Seen = { LitTree };

    ghost seen = { lit_int_of };

    ghost form = { kinds.of_kind kind.Int };

    fn read(input: &mut ParseBuffer<'_>) -> Result<Self> {
        let other = input.error(ErrorKind::ExpectedPart(Part::Literal));
        match unsigned(input)? {
            Lit::Int(x) => Ok(x),
            _ => Err(other),
        }
    }
}

#[tactic(auto, using(syn_lower_spec::proofs::Readable::readables))]
impl Parse for LitInt {
    ghost use Rattle.syn_lower_spec.specs.Tree.{LitTree};

    ghost Seen = { LitTree };

    ghost seen = { lit_int_of };

    /// An integer literal without a sign comes before the rest.
    ghost spells = { λ l x rest. (kinds.of_kind kind.Int).behind x l ≡ Some rest };

    ghost least = { 1 };

    /// Reads an integer literal without a sign (Rust Reference, "Integer literals"); it is refused as `ExpectedPart` of
    /// a literal.
    fn parse(input: &mut ParseBuffer<'_>) -> Result<Self> {
        ahead(input)
    }
}

#[tactic(auto, unfolding(syn_lower_spec::specs::Part::unsigned, syn_lower_spec::specs::Kind::of_kind))]
impl ReadByForm for LitFloat {
    ghost use Rattle.syn_lower_spec.specs.Tree.{LitTree};

    ghost Seen = { LitTree };

    ghost seen = { lit_float_of };

    ghost form = { kinds.of_kind kind.Float };

    fn read(input: &mut ParseBuffer<'_>) -> Result<Self> {
        let other = input.error(ErrorKind::ExpectedPart(Part::Literal));
        match unsigned(input)? {
            Lit::Float(x) => Ok(x),
            _ => Err(other),
        }
    }
}

#[tactic(auto, using(syn_lower_spec::proofs::Readable::readables))]
impl Parse for LitFloat {
    ghost use Rattle.syn_lower_spec.specs.Tree.{LitTree};

    ghost Seen = { LitTree };

    ghost seen = { lit_float_of };

    /// A floating-point literal without a sign comes before the rest.
    ghost spells = { λ l x rest. (kinds.of_kind kind.Float).behind x l ≡ Some rest };

    ghost least = { 1 };

    /// Reads a floating-point literal without a sign (Rust Reference, "Floating-point literals"); it is refused as
    /// `ExpectedPart` of a literal.
    fn parse(input: &mut ParseBuffer<'_>) -> Result<Self> {
        ahead(input)
    }
}

#[tactic(auto, unfolding(syn_lower_spec::specs::Part::unsigned, syn_lower_spec::specs::Kind::of_kind))]
impl ReadByForm for LitBool {
    ghost use Rattle.syn_lower_spec.specs.Tree.{LitTree};

    ghost Seen = { LitTree };

    ghost seen = { λ x. record { kind = kind.Bool; text = x.word } };

    ghost form = { kinds.of_kind kind.Bool };

    fn read(input: &mut ParseBuffer<'_>) -> Result<Self> {
        let other = input.error(ErrorKind::ExpectedPart(Part::Literal));
        match unsigned(input)? {
            Lit::Bool(x) => Ok(x),
            _ => Err(other),
        }
    }
}

#[tactic(auto, using(syn_lower_spec::proofs::Readable::readables))]
impl Parse for LitBool {
    ghost use Rattle.syn_lower_spec.specs.Tree.{LitTree};

    ghost Seen = { LitTree };

    ghost seen = { λ x. record { kind = kind.Bool; text = x.word } };

    /// `true` or `false` comes before the rest.
    ghost spells = { λ l x rest. (kinds.of_kind kind.Bool).behind x l ≡ Some rest };

    ghost least = { 1 };

    /// Reads `true` or `false` (Rust Reference, "Literal expressions"); it is refused as `ExpectedPart` of a literal.
    fn parse(input: &mut ParseBuffer<'_>) -> Result<Self> {
        ahead(input)
    }
}

#[tactic(auto, using(syn_lower_spec::proofs::Readable::readables))]
impl ReadByForm for Block {
    ghost use Rattle.std.specs.Prelude.{List};
    ghost use Rattle.syn_tokens.specs.Tok.{Tok};

    ghost Seen = { List Tok };

    ghost seen = { λ b. b.stmts };

    ghost form = { part.block };

    fn read(input: &mut ParseBuffer<'_>) -> Result<Self> {
        block(input)
    }
}

#[tactic(auto, using(syn_lower_spec::proofs::Readable::readables))]
impl Parse for Block {
    ghost use Rattle.std.specs.Prelude.{List};
    ghost use Rattle.syn_tokens.specs.Tok.{Tok};

    ghost Seen = { List Tok };

    ghost seen = { λ b. b.stmts };

    /// A brace group comes before the rest.
    ghost spells = { λ l x rest. part.block.behind x l ≡ Some rest };

    ghost least = { 1 };

    /// Reads a block, whose inside is kept as tokens (Rust Reference, "Block expressions"); it is refused as
    /// `ExpectedToken` of `{`.
    fn parse(input: &mut ParseBuffer<'_>) -> Result<Self> {
        ahead(input)
    }
}

#[tactic(auto, using(syn_lower_spec::proofs::Readable::readables))]
impl Attribute {
    /// Reads the outer attributes that come first, as many as there are (Rust Reference, "Attributes"). They are read
    /// exactly where they are, unless memory runs out; a `#` without brackets after it is refused as `ExpectedToken`
    /// of `[`. Where they are refused the input stays where it was.
    #[tactic(auto, using(crate::proofs::ReadingAttributes::outer_reading))]
    pub fn parse_outer(input: &mut ParseBuffer<'_>) -> Result<Vec<Attribute>>
        ensures value { Reads (λ v. map attribute_of v.items) (part.outer_attributes.reads input.old.rest) result input.new.rest }
        ensures noted { input.new.noted ≡ input.old.noted }
        ensures after { IsAfter input.old input.new }
        ensures stays { IfErr result (λ _. input.new ≡ input.old) }
        ensures moves { IfOk result (λ x. weight input.new.rest ≤ weight input.old.rest) }
    {
        let mut ahead = input.fork()?;
        let x = outer_attributes(&mut ahead)?;
        input.advance_to(&ahead);
        Ok(x)
    }

    /// Reads the inner attributes that come first, as many as there are (Rust Reference, "Attributes"). They are read
    /// exactly where they are, unless memory runs out; a `#` and a `!` without brackets after them are refused as
    /// `ExpectedToken` of `[`. Where they are refused the input stays where it was.
    #[tactic(auto, using(crate::proofs::ReadingAttributes::inner_reading))]
    pub fn parse_inner(input: &mut ParseBuffer<'_>) -> Result<Vec<Attribute>>
        ensures value { Reads (λ v. map attribute_of v.items) (part.inner_attributes.reads input.old.rest) result input.new.rest }
        ensures noted { input.new.noted ≡ input.old.noted }
        ensures after { IsAfter input.old input.new }
        ensures stays { IfErr result (λ _. input.new ≡ input.old) }
        ensures moves { IfOk result (λ x. weight input.new.rest ≤ weight input.old.rest) }
    {
        let mut ahead = input.fork()?;
        let x = inner_attributes(&mut ahead)?;
        input.advance_to(&ahead);
        Ok(x)
    }
}

#[tactic(auto, using(syn_lower_spec::proofs::Readable::readables))]
impl ReadByForm for BoundLifetimes {
    ghost use Rattle.syn_lower_spec.specs.Tree.{LifetimesTree};

    ghost Seen = { LifetimesTree };

    ghost seen = { view.lifetimes_of };

    ghost form = { part.lifetimes };

    fn read(input: &mut ParseBuffer<'_>) -> Result<Self> {
        lifetimes(input)
    }
}

#[tactic(auto, using(syn_lower_spec::proofs::Readable::readables))]
impl Parse for BoundLifetimes {
    ghost use Rattle.syn_lower_spec.specs.Tree.{LifetimesTree};

    ghost Seen = { LifetimesTree };

    ghost seen = { view.lifetimes_of };

    /// `for` and lifetimes between `<` and `>` come before the rest.
    ghost spells = { λ l x rest. part.lifetimes.behind x l ≡ Some rest };

    ghost least = { 1 };

    /// Reads `for` and lifetimes (Rust Reference, "Higher-ranked trait bounds"); it is refused as `ExpectedToken` of
    /// `for`, `<`, `>` or a lifetime.
    fn parse(input: &mut ParseBuffer<'_>) -> Result<Self> {
        ahead(input)
    }
}

#[tactic(auto, using(syn_lower_spec::proofs::Readable::readables))]
impl ReadByForm for PointerMutability {
    ghost use Rattle.std.specs.Prelude.{Bool};

    ghost Seen = { Bool };

    ghost seen = { view.is_mut };

    ghost form = { part.mutability };

    fn read(input: &mut ParseBuffer<'_>) -> Result<Self> {
        pointer_mutability(input)
    }
}

#[tactic(auto, using(syn_lower_spec::proofs::Readable::readables))]
impl Parse for PointerMutability {
    ghost use Rattle.std.specs.Prelude.{Bool};

    ghost Seen = { Bool };

    ghost seen = { view.is_mut };

    /// `mut` or `const` comes before the rest.
    ghost spells = { λ l x rest. part.mutability.behind x l ≡ Some rest };

    ghost least = { 1 };

    /// Reads `mut` or `const` (Rust Reference, "Pointer types"); it is refused as `ExpectedToken` of the two.
    fn parse(input: &mut ParseBuffer<'_>) -> Result<Self> {
        ahead(input)
    }
}

#[tactic(auto, using(syn_lower_spec::proofs::Readable::readables))]
impl ReadByForm for Abi {
    ghost use Rattle.std.specs.Prelude.{Option};
    ghost use Rattle.syn_lower_spec.specs.Tree.{LitTree};

    ghost Seen = { Option LitTree };

    ghost seen = { view.abi_of };

    ghost form = { part.abi };

    fn read(input: &mut ParseBuffer<'_>) -> Result<Self> {
        match maybe_abi(input)? {
            Some(abi) => Ok(abi),
            None => Err(input.error(ErrorKind::ExpectedToken(Expected::One(Extern::wanted())))),
        }
    }
}

#[tactic(auto, using(syn_lower_spec::proofs::Readable::readables))]
impl Parse for Abi {
    ghost use Rattle.std.specs.Prelude.{Option};
    ghost use Rattle.syn_lower_spec.specs.Tree.{LitTree};

    ghost Seen = { Option LitTree };

    ghost seen = { view.abi_of };

    /// `extern` comes before the rest, and a string after it where one is there.
    ghost spells = { λ l x rest. part.abi.behind x l ≡ Some rest };

    ghost least = { 1 };

    /// Reads `extern` and a string, if one is there (Rust Reference, "Function pointer types"); it is refused as
    /// `ExpectedToken` of `extern`.
    fn parse(input: &mut ParseBuffer<'_>) -> Result<Self> {
        ahead(input)
    }
}
