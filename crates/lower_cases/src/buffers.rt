//! Calls on buffers and on tokens that no text has: what is seen behind some trees, and what is made by hand.

use crate::groups::span_of;
use rows::{put_read, rest, words};
use std::alloc::Global;
use syn_lower::Lifetime;
use syn_tokens::token::{Paren, PlusEq, Sign, Word};
use syn_tokens::{
    ErrorKind, Ident, ParseBuffer, Punct, Result, Spacing, Span, ToTokens, Token, TokenStream,
    TokenTree, lex, parse2, to_text,
};

/// Appends a name, and for each of the next three trees whether a `T` is seen there.
fn put_seen<T: Token>(out: &mut String, name: &str, input: &ParseBuffer<'_>) -> Result<()> {
    let (first, second, third) = (input.peek::<T>(), input.peek2::<T>(), input.peek3::<T>());
    write!(out, ", {name}: {first} {second} {third}")?;
    Ok(())
}

/// What a buffer tells: the trees that are left, how many and whether none, the place of the next, of all that is left over and
/// of an error there, and what is seen.
fn told(input: &ParseBuffer<'_>) -> Result<String> {
    let (Span { lo, hi }, error) = (input.span(), input.error(ErrorKind::LeftArrow).span);
    let (text, len, is_empty) = (rest(input)?, input.len(), input.is_empty());
    let is_first = input.first() == input.trees().first();
    let mut out = format!(in input.alloc();
        "{text}: {len} {is_empty} {lo}..{hi}, {:?} {}..{} {is_first}",
        input.leftover(),
        error.lo,
        error.hi
    )?;
    put_seen::<Ident>(&mut out, "word", input)?;
    put_seen::<PlusEq>(&mut out, "+=", input)?;
    put_seen::<Paren>(&mut out, "(", input)?;
    Ok(out)
}

/// How many trees a fork passes over and where they are, and what it tells then, as does the buffer that moves there.
#[tactic(auto, using(syn_tokens::proofs::Inputs::tail_after))]
pub fn behind(alloc: Global, count: &str, text: &str) -> Result<String> {
    let tokens = lex(alloc, text)?;
    let mut input = ParseBuffer::new(&tokens)?;
    let mut ahead = input.fork()?;
    ahead.skip(count.parse::<usize>().unwrap_or(0));
    let (passed, Span { lo, hi }) = (input.until(&ahead).len(), input.span_until(&ahead));
    input.advance_to(&ahead);
    let (here, by_fork) = (told(&input)?, told(&ahead)?);
    if here != by_fork {
        return words(alloc, "not the same");
    }
    Ok(format!(in alloc; "{passed} at {lo}..{hi}: {here}")?)
}

/// What is printed of a lifetime of a quote, alone or joint, and of a text.
pub fn quoted(alloc: Global, spacing: &str, text: &str) -> Result<String> {
    let spacing = if spacing == "joint" {
        Spacing::Joint
    } else {
        Spacing::Alone
    };
    let (ch, span) = ('\'', Span { lo: 3, hi: 4 });
    let mut tokens = TokenStream::new(alloc);
    tokens.push(TokenTree::Punct(Punct { ch, spacing, span }))?;
    tokens.append(lex(alloc, text)?)?;
    put_read(alloc, parse2::<Lifetime>(tokens))
}

/// Whether a sign that is in no list is seen, and the tokens of a text with those of it and of such a word behind them: none.
pub fn unlisted(alloc: Global, text: &str) -> Result<String> {
    let mut tokens = lex(alloc, text)?;
    let is_seen = ParseBuffer::new(&tokens)?.peek::<Sign<2, 31>>();
    Sign::<2, 31>::default().to_tokens(&mut tokens)?;
    Word::<29>::default().to_tokens(&mut tokens)?;
    Ok(format!(in alloc; "{is_seen} {}", to_text(&tokens)?)?)
}

/// The place from the first to the last byte of two places.
pub fn joined(alloc: Global, places: &str) -> Result<String> {
    let (one, other) = places.split_once(' ').unwrap_or((places, ""));
    let Span { lo, hi } = span_of(one).join(span_of(other));
    Ok(format!(in alloc; "{lo}..{hi}")?)
}
