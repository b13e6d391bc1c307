//! Invisible groups, which no text has: in rows `@` before parentheses makes them one.

use std::alloc::Global;
use syn_tokens::{
    Delimiter, Group, Parse, ParseBuffer, Punct, Result, ToTokens, TokenStream, TokenTree,
    copy_tree, copy_trees, lex, parse2, to_text,
};

/// Whether a tree is `@`.
fn is_mark(tree: &TokenTree) -> bool {
    matches!(tree, TokenTree::Punct(Punct { ch: '@', .. }))
}

/// Adds a group of these tokens: an invisible one after `@`, and parentheses after `@` for one that is invisible.
fn push_group(
    tokens: &mut TokenStream,
    group: &Group,
    stream: TokenStream,
    is_marked: bool,
) -> Result<()> {
    let (mut delimiter, span) = (group.delimiter, group.span);
    if delimiter == Delimiter::None {
        tokens.append(lex(tokens.alloc(), "@")?)?;
        delimiter = Delimiter::Parenthesis;
    } else if is_marked {
        delimiter = Delimiter::None;
    }
    tokens.push(TokenTree::Group(Group {
        delimiter,
        stream,
        span,
    }))
}

/// The tokens of a list with such groups for others, and without `@` before them, in groups in each other down to this depth.
fn exchanged(alloc: Global, trees: &[TokenTree], depth: u8) -> Result<TokenStream> {
    if depth == 0 {
        return copy_trees(alloc, trees);
    }
    let mut tokens = TokenStream::new(alloc);
    let mut is_marked = false;
    for tree in trees {
        if let TokenTree::Group(group) = tree {
            let stream = exchanged(alloc, group.stream.trees(), depth - 1)?;
            push_group(&mut tokens, group, stream, is_marked)?;
        } else if !is_mark(tree) {
            tokens.push(copy_tree(alloc, tree)?)?;
        }
        is_marked = is_mark(tree);
    }
    Ok(tokens)
}

/// The tokens of a text.
pub fn tokens_of(alloc: Global, text: &str) -> Result<TokenStream> {
    exchanged(alloc, lex(alloc, text)?.trees(), 3)
}

/// What a whole text is read as.
pub fn whole<T: Parse + Drop>(alloc: Global, text: &str) -> Result<T> {
    parse2(tokens_of(alloc, text)?)
}

/// The text of some trees.
pub fn text_of(alloc: Global, trees: &[TokenTree]) -> Result<String> {
    to_text(&exchanged(alloc, trees, 3)?)
}

/// What is printed of a value, with `@` for its invisible groups.
pub fn printed<T: ToTokens>(alloc: Global, value: &T) -> Result<String> {
    text_of(alloc, value.to_token_stream(alloc)?.trees())
}

/// What was read of a buffer, and after `then` what is left there.
pub fn then(read: Result<String>, input: &ParseBuffer<'_>) -> Result<String> {
    let (read, rest) = (read?, text_of(input.alloc(), input.trees())?);
    Ok(format!(in input.alloc(); "{read} then {rest}")?)
}
