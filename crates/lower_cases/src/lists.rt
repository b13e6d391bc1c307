//! Calls on lists of trees and on lists with commas: how they grow and are cut.

use crate::texts::places_of;
use rows::{put, words};
use std::alloc::Global;
use syn_lower::Punctuated;
use syn_tokens::token::Comma;
use syn_tokens::{
    Ident, Result, Span, TokenStream, TokenTree, copy_ident, copy_tree, copy_trees, lex, to_text,
};

/// A word, then the tokens of a text, then those of an empty list.
fn list_of(alloc: Global, text: &str) -> Result<TokenStream> {
    let mut tokens = TokenStream::new(alloc);
    let word = Ident::new(alloc, "a", Span { lo: 3, hi: 4 })?;
    tokens.push(TokenTree::Ident(word))?;
    tokens.append(lex(alloc, text)?)?;
    tokens.append(TokenStream::new(alloc))?;
    Ok(tokens)
}

/// A list of a word and the tokens of a text, cut to so many trees: its text, its places, how many are left, and whether none.
pub fn cut(alloc: Global, count: &str, text: &str) -> Result<String> {
    let mut tokens = list_of(alloc, text)?;
    let old_len = tokens.len();
    tokens.truncate(count.parse::<usize>().unwrap_or(0));
    let (text, places) = (to_text(&tokens)?, places_of(&tokens)?);
    let (len, is_empty) = (tokens.len(), tokens.is_empty());
    Ok(format!(in alloc; "{text}: {places}{len} of {old_len}, empty: {is_empty}")?)
}

/// Puts other tokens behind a list, or a copy of the first tree alone.
fn extend(list: &mut TokenStream, by: &str, more: TokenStream) -> Result<()> {
    match more.trees() {
        [tree, ..] if by == "TokenStream::push" => list.push(copy_tree(list.alloc(), tree)?),
        _ => list.append(more),
    }
}

/// Grows a list by a text, and answers whether it is as it was where that is refused.
fn grow(list: &mut TokenStream, by: &str, text: &str) -> Result<bool> {
    let old = copy_trees(list.alloc(), list.trees())?;
    let more = lex(list.alloc(), text)?;
    match extend(list, by, more) {
        Err(e) if *list == old => Err(e),
        grown => Ok(grown.is_ok()),
    }
}

/// A list that grows by each of the texts between `~`. A refusal has to leave it as it was.
pub fn grown(alloc: Global, by: &str, texts: &str) -> Result<String> {
    let mut list = TokenStream::new(alloc);
    for text in texts.split('~') {
        if !grow(&mut list, by, text)? {
            return words(alloc, "refused, and the list is another");
        }
    }
    to_text(&list)
}

/// A list of words with commas.
type Words = Punctuated<Ident, Comma>;

/// Puts a word or a comma behind a list.
fn put_behind(list: &mut Words, by: &str, tree: &TokenTree) -> Result<()> {
    match tree {
        TokenTree::Ident(word) if by == "Punctuated::push" => {
            list.push(copy_ident(list.alloc(), word)?)
        }
        TokenTree::Ident(word) if list.empty_or_trailing() => {
            list.push_value(copy_ident(list.alloc(), word)?)
        }
        _ if list.empty_or_trailing() => Ok(()),
        _ => list.push_punct(Comma::default()),
    }
}

/// Puts a word or a comma behind a list, and answers whether it is as it was where that is refused.
fn separate(list: &mut Words, by: &str, tree: &TokenTree) -> Result<bool> {
    let old = put(list.alloc(), list)?;
    match put_behind(list, by, tree) {
        Err(e) if put(list.alloc(), list)? == old => Err(e),
        grown => Ok(grown.is_ok()),
    }
}

/// Appends what a list tells of itself: how many words there are, whether none, whether a comma is last, and whether the first and
/// the last are found; each word, by itself and in its pair, and whether a comma is behind it.
fn tell(out: &mut String, list: &Words) -> Result<()> {
    let (len, is_empty, is_trailing) = (list.len(), list.is_empty(), list.trailing_punct());
    let is_first = list.first() == list.get(0) && list.first() == list.iter().next();
    let is_last = list.last() == list.get(len.saturating_sub(1)) && list.get(len).is_none();
    write!(out, "{len} {is_empty} {is_trailing} {is_first} {is_last}")?;
    for (word, pair) in list.iter().zip(list.pairs()) {
        let (same, comma) = pair.into_tuple();
        write!(
            out,
            " {}={} {}",
            word.as_str(),
            same.as_str(),
            comma.is_some()
        )?;
    }
    Ok(())
}

/// Appends the word that is popped from a list, whether a comma was behind it, and what the list tells then.
fn pop(out: &mut String, list: &mut Words) -> Result<()> {
    match list.pop() {
        Some(pair) => {
            let (word, comma) = pair.into_tuple();
            write!(out, "; {} {} of ", word.as_str(), comma.is_some())?;
            tell(out, list)
        }
        None => Ok(out.push_str("; none")?),
    }
}

/// What a list tells of itself, and of three words that are popped.
fn popped(list: &mut Words) -> Result<String> {
    let mut out = String::new(list.alloc());
    tell(&mut out, list)?;
    for _ in 0..3 {
        pop(&mut out, list)?;
    }
    Ok(out)
}

/// What is printed of the one value of a list, or of the list.
fn one_or_all(alloc: Global, list: Words) -> Result<String> {
    match list.into_one() {
        Ok(value) => put(alloc, &*value),
        Err(list) => put(alloc, &list),
    }
}

/// Builds a list with commas from the words of a text, or from its words and commas. Answers the printed text of its only value,
/// or of the list if it has several; or what is popped. A push that is refused has to leave the list as it was.
pub fn separated(alloc: Global, by: &str, text: &str) -> Result<String> {
    let tokens = lex(alloc, text)?;
    let mut list = Words::new(alloc);
    for tree in tokens.trees() {
        if !separate(&mut list, by, tree)? {
            return words(alloc, "refused, and the list is another");
        }
    }
    if by == "Punctuated::pop" {
        popped(&mut list)
    } else {
        one_or_all(alloc, list)
    }
}
