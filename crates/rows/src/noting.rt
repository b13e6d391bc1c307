//! A reader that notes what a group has left, as no reader of the libraries does.

ghost use Rattle.std.specs.Prelude.{◌≡◌, ◌∷◌, [], List, ℕ, false, Some};
ghost use Rattle.syn_lexer.specs.Keywords.{is_reserved_word};
ghost use Rattle.syn_lexer.specs.declared.front.Delimiter.TheVariants as delimiter;
ghost use Rattle.syn_tokens.specs.Front.{group_at};
ghost use Rattle.syn_tokens.specs.Tok as tok;

use crate::words;
use std::alloc::Global;
use syn_tokens::{Ident, Parse, ParseBuffer, Result, parse_str};

/// A name in brackets.
#[derive(Drop)]
struct Bracketed {
    name: Ident,
}

#[tactic(auto, using(syn_tokens::proofs::Inputs::tail_after))]
impl Parse for Bracketed {
    ghost Seen = { List ℕ };

    ghost seen = { λ b. b.name };

    ghost spells = { λ ts name rest. (group_at delimiter.Bracket ts ≡ Some (tok.ident name ∷ [], rest)) × (is_reserved_word name ≡ false) };

    ghost least = { 1 };

    ghost keeps = { false };

    ghost notes = { λ _ _. Unit {0} };

    /// Takes brackets, and a name that they begin with. What is after it in them is noted.
    fn parse(input: &mut ParseBuffer<'_>) -> Result<Self> {
        let mut ahead = input.fork()?;
        let (_, mut content) = ahead.parse_brackets()?;
        let name = content.parse::<Ident>()?;
        ahead.close(content);
        input.advance_to(&ahead);
        Ok(Bracketed { name })
    }
}

/// The name in brackets that a text is.
pub fn name_in_brackets(alloc: Global, text: &str) -> Result<String> {
    let read = parse_str::<Bracketed>(alloc, text)?;
    words(alloc, read.name.as_str())
}
