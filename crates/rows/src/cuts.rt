//! Texts that are cut behind each of their top tokens: a front is refused, or printed as its own tokens. And forks: what one
//! reads, refuses or notes leaves its buffer alone, and the buffer that moves there takes its rest and its note, but for a
//! note that it had before.

ghost use Rattle.syn_tokens.specs.Input.{IsTail};

use crate::{put_read, words};
use std::alloc::Global;
use syn_tokens::{
    ErrorKind, Parse, ParseBuffer, Result, ToTokens, TokenStream, lex, parse2, to_text,
};

/// What is printed of the `T` that a whole list is read as. There is none where it is refused.
fn printed<T: Parse + ToTokens + Drop>(
    alloc: Global,
    tokens: TokenStream,
) -> Result<Option<String>> {
    match put_read(alloc, parse2::<T>(tokens)) {
        Ok(printed) => Ok(Some(printed)),
        Err(e) if e.kind == ErrorKind::OutOfMemory => Err(e),
        Err(_) => Ok(None),
    }
}

/// The first trees of a text.
fn first(alloc: Global, text: &str, count: usize) -> Result<TokenStream> {
    let mut tokens = lex(alloc, text)?;
    tokens.truncate(count);
    Ok(tokens)
}

/// Whether the first trees of a text, as many as the call says, are a `T`.
pub fn front<T: Parse + ToTokens + Drop>(alloc: Global, of: &str, text: &str) -> Result<String> {
    let tokens = first(alloc, text, of.parse::<usize>().unwrap_or(0))?;
    let is_read = printed::<T>(alloc, tokens)?.is_some();
    words(alloc, if is_read { "read" } else { "refused" })
}

/// Whether a text is a front of another: with its blanks, and without them as this list.
fn is_front_of(alloc: Global, text: &str, own: &str, cut: &str) -> Result<bool> {
    let is_solid_front = text.replace(alloc, ' ', "")? == cut.replace(alloc, ' ', "")?;
    Ok(is_solid_front && own.starts_with(text))
}

/// Whether the first trees of a text are refused, or are printed as a front of its own tokens.
fn is_front<T: Parse + ToTokens + Drop>(
    alloc: Global,
    text: &str,
    own: &str,
    count: usize,
) -> Result<bool> {
    let tokens = first(alloc, text, count)?;
    let cut = to_text(&tokens)?;
    match printed::<T>(alloc, tokens)? {
        Some(printed) => is_front_of(alloc, printed.as_str(), own, cut.as_str()),
        None => Ok(true),
    }
}

/// Whether each front of a text is one, and a fork that reads the text leaves its buffer alone.
fn is_cut<T: Parse + ToTokens + Drop>(
    alloc: Global,
    text: &str,
    own: &str,
    count: usize,
) -> Result<bool> {
    for count in 0..count {
        if !is_front::<T>(alloc, text, own, count)? {
            return Ok(false);
        }
    }
    is_left_alone::<T>(alloc, text)
}

/// What is printed of a text that is read whole, or that it is refused, once it is cut everywhere. After `~` comes the text
/// of the own tokens of one that is refused, where it is another.
pub fn cut<T: Parse + ToTokens + Drop>(alloc: Global, texts: &str) -> Result<String> {
    let (text, own) = texts.split_once('~').unwrap_or((texts, texts));
    let tokens = lex(alloc, text)?;
    let count = tokens.len();
    let printed = printed::<T>(alloc, tokens)?;
    let own = match &printed {
        Some(printed) => printed.as_str(),
        None => own.trim(),
    };
    if !is_cut::<T>(alloc, text, own, count)? {
        return words(alloc, "a front or a fork is another");
    }
    match printed {
        Some(printed) => Ok(printed),
        None => words(alloc, "refused"),
    }
}

/// Whether a buffer is left alone by a fork that reads a `T`, and is where the fork is once it moves there.
#[tactic(auto, using(syn_tokens::proofs::Inputs::tail_after))]
fn is_left_alone<T: Parse + Drop>(alloc: Global, text: &str) -> Result<bool> {
    let tokens = lex(alloc, text)?;
    let mut input = ParseBuffer::new(&tokens)?;
    let first = input.leftover();
    let mut fork = input.fork()?;
    let _ = fork.parse::<T>().is_ok();
    let is_alone = input.trees() == tokens.trees() && input.leftover() == first;
    input.advance_to(&fork);
    Ok(is_alone && input.trees() == fork.trees() && input.leftover() == fork.leftover())
}

/// Takes brackets, and a `T` that they begin with. What is after it in them is noted.
#[tactic(auto, using(syn_tokens::proofs::Inputs::tail_after))]
fn pass<T: Parse + Drop>(input: &mut ParseBuffer<'_>) -> Result<()>
    ensures tail { IsTail input.new.rest input.old.rest }
{
    let (_, mut content) = input.parse_brackets()?;
    let _ = content.parse::<T>().is_ok();
    input.close(content);
    Ok(())
}

/// What is left to a buffer after brackets, to its fork after further ones, to the buffer then, and once it moved there.
pub fn notes<T: Parse + Drop>(alloc: Global, text: &str) -> Result<String> {
    let tokens = lex(alloc, text)?;
    let mut input = ParseBuffer::new(&tokens)?;
    pass::<T>(&mut input)?;
    let before = input.leftover();
    let mut fork = input.fork()?;
    pass::<T>(&mut fork)?;
    let (noted, still) = (fork.leftover(), input.leftover());
    input.advance_to(&fork);
    let moved = input.leftover();
    Ok(format!(in alloc; "{before:?}, {noted:?}, {still:?}, {moved:?}")?)
}
