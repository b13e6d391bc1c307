//! Calls on texts and on the tokens of a text.

use rows::words;
use std::alloc::Global;
use syn_expr_tokens::op::infix_at;
use syn_lexer::front::{front, is_ident, is_literal};
use syn_lower::Lifetime;
use syn_text::{is_lexed, reread};
use syn_tokens::{
    Ident, Literal, ParseBuffer, Result, Span, ToTokens, TokenStream, TokenTree, copy_ident,
    copy_literal, copy_tree, copy_trees, lex, parse_str, to_text,
};

/// The answer for whether something holds.
pub fn yes_or_no(alloc: Global, holds: bool) -> Result<String> {
    words(alloc, if holds { "yes" } else { "no" })
}

/// A place, and the text of what is there.
fn at(alloc: Global, Span { lo, hi }: Span, text: &str) -> Result<String> {
    Ok(format!(in alloc; "{lo}..{hi} {text}")?)
}

/// Places, each with a blank behind it.
fn places(alloc: Global, spans: &[Span]) -> Result<String> {
    let mut places = String::new(alloc);
    for Span { lo, hi } in spans {
        write!(places, "{lo}..{hi} ")?;
    }
    Ok(places)
}

/// The places of the trees in a list.
pub fn places_of(tokens: &TokenStream) -> Result<String> {
    let mut places = String::new(tokens.alloc());
    for tree in tokens.trees() {
        let Span { lo, hi } = tree.span();
        write!(places, "{lo}..{hi} ")?;
    }
    Ok(places)
}

/// What is read at the front of a text, or why nothing is, and how far it goes; or whether the whole text passes a test.
pub fn of_characters(alloc: Global, call: &str, text: &str) -> Result<String> {
    let chars = text.chars().collect::<Vec<char>>(alloc)?;
    match call {
        "is_ident" => yes_or_no(alloc, is_ident(chars.as_slice())),
        "is_literal" => yes_or_no(alloc, is_literal(chars.as_slice())),
        _ if chars.is_empty() => words(alloc, "no text"),
        _ => match front(chars.as_slice()) {
            Ok(lexeme) => Ok(format!(in alloc; "{:?} {}", lexeme.kind, lexeme.len)?),
            Err(refusal) => Ok(format!(in alloc; "{} {}", refusal.error.text(), refusal.len)?),
        },
    }
}

/// The text of the tokens of a text. It has no blank at an end, which a row would not tell.
pub fn lexed(alloc: Global, text: &str) -> Result<String> {
    let printed = to_text(&lex(alloc, text)?)?;
    if printed.as_str().trim() == printed.as_str() {
        Ok(printed)
    } else {
        words(alloc, "a blank at an end")
    }
}

/// Whether the first trees of a text are what some text is lexed as, and what their own text is lexed as.
pub fn lexed_again(alloc: Global, count: &str, text: &str) -> Result<String> {
    let mut tokens = lex(alloc, text)?;
    tokens.truncate(count.parse::<usize>().unwrap_or(0));
    let (is_lexed, is_same) = (is_lexed(&tokens)?, reread(&tokens)? == tokens);
    Ok(format!(in alloc; "{is_lexed} {is_same}")?)
}

/// The word that a program makes of a text.
pub fn ident(alloc: Global, text: &str) -> Result<String> {
    let word = Ident::new(alloc, text, Span { lo: 3, hi: 4 })?;
    at(alloc, word.span(), word.as_str())
}

/// The literal that a program makes of a text.
pub fn literal(alloc: Global, text: &str) -> Result<String> {
    let literal = Literal::new(alloc, text, Span { lo: 3, hi: 4 })?;
    words(alloc, literal.as_str())
}

/// Whether the word of a text is that behind `~`.
pub fn is_named(alloc: Global, text: &str) -> Result<String> {
    let (ident, name) = text.split_once('~').unwrap_or((text, ""));
    let is_named = parse_str::<Ident>(alloc, ident)?.is(name.trim());
    yes_or_no(alloc, is_named)
}

/// What there is in front of a list: a lifetime, and what is second.
fn peeked(alloc: Global, input: &ParseBuffer<'_>) -> Result<String> {
    let is_first = input.peek::<Lifetime>();
    let first = if is_first { "lifetime " } else { "" };
    let second = match (input.peek2::<Lifetime>(), input.peek2::<Ident>()) {
        (true, _) => "before lifetime",
        (false, true) => "before identifier",
        (false, false) => "",
    };
    Ok(format!(in alloc; "{first}{second}")?)
}

/// The infix operator in front of a list, and of how many tokens it is.
fn infix(alloc: Global, input: &ParseBuffer<'_>) -> Result<String> {
    match infix_at(input) {
        Some((op, count)) => Ok(format!(in alloc; "{op:?} {count}")?),
        None => words(alloc, "none"),
    }
}

/// What a call answers for the list of a text.
pub fn of_list(alloc: Global, call: &str, text: &str) -> Result<String> {
    let tokens = lex(alloc, text)?;
    let input = ParseBuffer::new(&tokens)?;
    match call {
        "ten_places" => places(alloc, input.spans::<10>().as_slice()),
        "peek_lifetime" => peeked(alloc, &input),
        _ => infix(alloc, &input),
    }
}

/// The places of a copy of trees, which has to be the same.
fn copied(alloc: Global, tokens: &TokenStream) -> Result<String> {
    let copied = copy_trees(alloc, tokens.trees())?;
    if copied == *tokens {
        places_of(&copied)
    } else {
        words(alloc, "another")
    }
}

/// The place of the copy of a tree, or the places of what the copy of a group encloses.
fn copied_place(alloc: Global, call: &str, tree: &TokenTree) -> Result<String> {
    let copied = copy_tree(alloc, tree)?;
    match &copied {
        TokenTree::Group(group) if call == "copy_inside" => places_of(&group.stream),
        _ => at(alloc, copied.span(), ""),
    }
}

/// What a call answers for a tree: its text, or the place of its copy, with the text of that of a word or a literal.
fn of_tree(alloc: Global, call: &str, tree: &TokenTree) -> Result<String> {
    match (call, tree) {
        ("copy_ident", TokenTree::Ident(word)) => {
            let word = copy_ident(alloc, word)?;
            at(alloc, word.span(), word.as_str())
        }
        ("copy_literal", TokenTree::Literal(literal)) => {
            let literal = copy_literal(alloc, literal)?;
            at(alloc, literal.span(), literal.as_str())
        }
        ("to_token_stream", _) => to_text(&tree.to_token_stream(alloc)?),
        _ => copied_place(alloc, call, tree),
    }
}

/// What a call answers for the trees of a text.
pub fn of_trees(alloc: Global, call: &str, text: &str) -> Result<String> {
    let tokens = lex(alloc, text)?;
    match tokens.trees() {
        _ if call == "copy_trees" => copied(alloc, &tokens),
        [tree] if call == "token" => at(alloc, tree.span(), to_text(&tokens)?.as_str()),
        [tree, ..] => of_tree(alloc, call, tree),
        [] => words(alloc, "no tokens"),
    }
}
