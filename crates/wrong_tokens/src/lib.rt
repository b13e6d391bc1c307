//! Readers of tokens and what a hasher is fed, each under its own contract once more. The bodies here pass the call on;
//! `must-fail` puts wrong ones in their place, which the contract alone has to refuse.
#![tactic(auto)]

ghost use Rattle.std.specs.Prelude.{◌≡◌, ◌≤◌, ◌+◌, List, [], None, IfOk, IfErr, fold};
ghost use Rattle.std.specs.Hash as fed;
ghost use Rattle.syn_tokens.specs.Input.{Gives, IfClear, IsAfter, IsRefused, Reaches, start_of};
ghost use Rattle.syn_tokens.specs.Sign.{Takes, sees};
ghost use Rattle.syn_tokens.specs.Tok.{Tok, weight};
ghost use Rattle.syn_tokens.specs.declared.error.Expected.TheVariants as expected;
ghost use Rattle.syn_tokens.specs.declared.error.Wanted.TheVariants as wanted;

use std::hash::{Hash, Hasher};
use syn_expr_tokens::member::Index;
use syn_tokens::buffer::{Parse, ParseBuffer};
use syn_tokens::error::{Error, ErrorKind, Result};
use syn_tokens::token::{AndAnd, Plus};
use syn_tokens::tree::TokenStream;

/// Reads a `T` from the whole list, under the contract of `parse2`.
// The body is right, and is not that of `parse2`. It is proved, so what the contract refuses is what is wrong, and not what
// is written otherwise.
pub fn read_list<T: Parse + Drop>(tokens: TokenStream) -> Result<T>
    ensures read { IfOk result (λ v. T.spells tokens (T.seen v) []) }
    ensures found { (s : T.Seen) → T.spells tokens s [] → Gives T.seen s result }
    ensures refused { IfErr result (λ e. IsRefused (T.refuses tokens) (T.spells tokens) (T.notes (start_of tokens)) e) }
{
    let mut input = ParseBuffer::new(&tokens)?;
    let value = input.parse::<T>()?;
    match input.leftover() {
        Some(span) => Err(Error::new(span, ErrorKind::UnexpectedToken)),
        None => Ok(value),
    }
}

/// Reads a `T` at the front, under the contract of `Parse::parse`.
pub fn read_front<T: Parse>(input: &mut ParseBuffer<'_>) -> Result<T>
    ensures read { IfOk result (λ v. IfClear T.keeps input.new.noted (T.spells input.old.rest (T.seen v) input.new.rest)) }
    ensures found { IfClear T.keeps input.old.noted ((s : T.Seen) (rest : List Tok) → T.spells input.old.rest s rest → Reaches T.seen s rest input.old.noted result input.new) }
    ensures after { IsAfter input.old input.new }
    ensures moves { IfOk result (λ v. T.least + weight input.new.rest ≤ weight input.old.rest) }
    ensures refused { IfErr result (λ e. T.refuses input.old.rest e.kind) }
    ensures notes { IfOk result (λ _. T.notes input.old input.new) }
    ensures stays { IfErr result (λ _. T.stays input.old input.new) }
{
    T::parse(input)
}

/// Reads `&&`, under the contract of `AndAnd::parse`.
pub fn read_and_and(input: &mut ParseBuffer<'_>) -> Result<AndAnd>
    ensures read { IfOk result (λ _. Takes (sees 2 1) 2 input.old.rest input.new.rest) }
    ensures found { (s : Unit {0}) (rest : List Tok) → Takes (sees 2 1) 2 input.old.rest rest → Reaches (λ _. tt) s rest input.old.noted result input.new }
    ensures after { IsAfter input.old input.new }
    ensures moves { IfOk result (λ _. 1 + weight input.new.rest ≤ weight input.old.rest) }
    ensures refused { IfErr result (λ e. e.kind ≡ ErrorKind.ExpectedToken (expected.One (wanted.Sign 1))) }
    ensures notes { IfOk result (λ _. input.new.noted ≡ input.old.noted) }
    ensures stays { IfErr result (λ _. input.new ≡ input.old) }
{
    AndAnd::parse(input)
}

/// Reads `+`, under the contract of `Plus::parse`.
pub fn read_plus(input: &mut ParseBuffer<'_>) -> Result<Plus>
    ensures read { IfOk result (λ _. Takes (sees 1 31) 1 input.old.rest input.new.rest) }
    ensures found { (s : Unit {0}) (rest : List Tok) → Takes (sees 1 31) 1 input.old.rest rest → Reaches (λ _. tt) s rest input.old.noted result input.new }
    ensures after { IsAfter input.old input.new }
    ensures moves { IfOk result (λ _. 1 + weight input.new.rest ≤ weight input.old.rest) }
    ensures refused { IfErr result (λ e. e.kind ≡ ErrorKind.ExpectedToken (expected.One (wanted.Sign 31))) }
    ensures notes { IfOk result (λ _. input.new.noted ≡ input.old.noted) }
    ensures stays { IfErr result (λ _. input.new ≡ input.old) }
{
    Plus::parse(input)
}

/// Feeds an index to a hasher, as what is fed of it says: its number alone.
pub fn feed_index<H: Hasher>(index: &Index, hasher: &mut H)
    ensures { hasher.new ≡ fold H.write hasher.old (fed.u32 index.now.index) }
{
    index.hash(hasher);
}
