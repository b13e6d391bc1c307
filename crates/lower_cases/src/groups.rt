//! Calls on groups: their places, where their ends are, and what is left in them.

use crate::texts::places_of;
use rows::words;
use std::alloc::Global;
use syn_lower::{Block, Macro, Type};
use syn_lower_leaves::leaf::any_group;
use syn_tokens::token::{self, Brace, Bracket, Paren};
use syn_tokens::{
    Ident, Parse, ParseBuffer, Result, Span, TokenStream, TokenTree, lex, parse2, to_text,
};

/// The tokens of a text, with an invisible group behind them.
fn with_group(alloc: Global, text: &str, inside: &str) -> Result<TokenStream> {
    let mut tokens = lex(alloc, text)?;
    let span = Span { lo: 20, hi: 30 };
    tokens.push(token::Group { span }.enclose(lex(alloc, inside)?))?;
    Ok(tokens)
}

/// Whether a list is read as a `T`.
fn read_as<T: Parse + Drop>(alloc: Global, tokens: TokenStream) -> Result<String> {
    parse2::<T>(tokens)?;
    words(alloc, "read")
}

/// Whether a text with an invisible group of `u8` behind it is read as the part that has this name.
pub fn before_group(alloc: Global, name: &str, text: &str) -> Result<String> {
    let tokens = with_group(alloc, text, "u8")?;
    match name {
        "Type" => read_as::<Type>(alloc, tokens),
        "Macro" => read_as::<Macro>(alloc, tokens),
        "Block" => read_as::<Block>(alloc, tokens),
        _ => {
            any_group(&mut ParseBuffer::new(&tokens)?)?;
            words(alloc, "read")
        }
    }
}

/// Appends the span of the next group, which has this delimiter, and the word in it.
fn enter(places: &mut String, input: &mut ParseBuffer<'_>, opening: &str) -> Result<()> {
    macro_rules! entered {
        ($entered:expr) => {{
            let (token, content) = $entered?;
            (token.span, content)
        }};
    }
    let (Span { lo, hi }, mut content) = match opening {
        "(" => entered!(input.parse_parens()),
        "{" => entered!(input.parse_braces()),
        "[" => entered!(input.parse_brackets()),
        _ => entered!(input.parse_group()),
    };
    let word = content.parse::<Ident>()?;
    input.close(content);
    write!(places, "{lo}..{hi} {} ", word.as_str())?;
    Ok(())
}

/// Reads groups with these delimiters from a text with an invisible group behind it, one after the other. Answers the span and
/// the word of each, and where the first token was that was left in one.
pub fn in_order(alloc: Global, openings: &str, text: &str) -> Result<String> {
    let tokens = with_group(alloc, text, "d")?;
    let mut input = ParseBuffer::new(&tokens)?.fork()?;
    let mut places = String::new(alloc);
    for opening in openings.split_whitespace() {
        enter(&mut places, &mut input, opening)?;
    }
    match input.leftover() {
        Some(Span { lo, hi }) => write!(places, "left at {lo}..{hi}")?,
        None => places.push_str("none left")?,
    }
    Ok(places)
}

/// Where what is left is, behind a word in brackets in parentheses: in these, here, and to a fork. And up to where the fork passed
/// over a tree, from here and from there.
pub fn nested(alloc: Global, text: &str) -> Result<String> {
    let tokens = lex(alloc, text)?;
    let mut input = ParseBuffer::new(&tokens)?;
    let (_, mut outer) = input.parse_parens()?;
    let (_, mut inner) = outer.parse_brackets()?;
    let _ = inner.parse::<Ident>()?;
    outer.close(inner);
    let inside = outer.leftover();
    input.close(outer);
    let mut fork = input.fork()?;
    let (here, there) = (input.leftover(), fork.leftover());
    fork.skip(1);
    let (passed, none) = (input.span_until(&fork), fork.span_until(&fork));
    Ok(format!(in alloc; "{inside:?} {here:?} {there:?} {passed:?} {none:?}")?)
}

/// A place that is written as `lo..hi`.
pub fn span_of(place: &str) -> Span {
    let (lo, hi) = place.split_once("..").unwrap_or((place, ""));
    Span {
        lo: lo.parse::<usize>().unwrap_or(0),
        hi: hi.parse::<usize>().unwrap_or(0),
    }
}

/// Where the end of an empty group is, and once it is entered its place and that of the end of its content.
pub fn closing(alloc: Global, given: &str) -> Result<String> {
    let (opening, place) = given.split_once(' ').unwrap_or((given, ""));
    let tree = group_of(alloc, opening, span_of(place), "")?;
    let TokenTree::Group(group) = &tree else {
        return words(alloc, "no group");
    };
    let (end, delimiter) = (group.closing(), group.delimiter);
    let mut tokens = TokenStream::new(alloc);
    tokens.push(tree)?;
    let Some((at, content)) = ParseBuffer::new(&tokens)?.group(delimiter) else {
        return words(alloc, "no group");
    };
    let inside = content.span();
    Ok(format!(in alloc;
        "{}..{} {}..{} {}..{}",
        end.lo, end.hi, at.lo, at.hi, inside.lo, inside.hi
    )?)
}

/// A group of the tokens of a text, with this delimiter and at this place.
fn group_of(alloc: Global, opening: &str, span: Span, text: &str) -> Result<TokenTree> {
    let inside = lex(alloc, text)?;
    Ok(match opening {
        "(" => Paren { span }.enclose(inside),
        "{" => Brace { span }.enclose(inside),
        "[" => Bracket { span }.enclose(inside),
        _ => token::Group { span }.enclose(inside),
    })
}

/// A list in parentheses, in braces, in brackets and in an invisible group.
fn in_four(alloc: Global, text: &str) -> Result<TokenStream> {
    let mut tokens = TokenStream::new(alloc);
    for opening in ["(", "{", "[", ""] {
        tokens.push(group_of(alloc, opening, Span { lo: 5, hi: 9 }, text)?)?;
    }
    Ok(tokens)
}

/// The text of a list in four groups, and their places.
pub fn enclosed(alloc: Global, text: &str) -> Result<String> {
    let tokens = in_four(alloc, text)?;
    let (text, places) = (to_text(&tokens)?, places_of(&tokens)?);
    Ok(format!(in alloc; "{text}: {places}")?)
}

/// Whether each of the four groups of a list is seen.
pub fn seen(alloc: Global, text: &str) -> Result<String> {
    let tokens = in_four(alloc, text)?;
    let mut input = ParseBuffer::new(&tokens)?;
    let (first, second) = (input.peek::<Paren>(), input.peek2::<Brace>());
    let third = input.peek3::<Bracket>();
    input.skip(3);
    let last = input.peek::<token::Group>();
    Ok(format!(in alloc; "{first} {second} {third} {last}")?)
}
