//! Lays a list of tokens out, from its end, since the white space behind a token depends on what comes next.

ghost use Rattle.std.specs.Prelude.{◌≡◌, ◌++◌, ◌&&◌, ◌||◌, true, false, chars, codes, drop, reverse, slice_index, string_bytes, encode_utf8_all, IfOk, IfErr, OnOk, MatchResult};
ghost use Rattle.syn_lexer.specs.Numbers as numbers;
ghost use Rattle.syn_lexer.specs.Text as texts;
ghost use Rattle.syn_lexer.specs.declared.number.Base.TheVariants.{Decimal};
ghost use Rattle.syn_lexer.specs.Words as words;
ghost use Rattle.syn_text.specs.Lexed.{is_lexed};
ghost use Rattle.syn_text.specs.Must as must_spec;
ghost use Rattle.syn_tidy.specs.Layout.{IsSpaced, IsGap, IsTree, IsList, IsLayout, space_before};
ghost use Rattle.syn_tokens.specs.Lex.{Spells};
ghost use Rattle.syn_tokens.specs.Text as text_spec;
ghost use Rattle.syn_tokens.specs.Tok as tok;
ghost use Rattle.syn_tokens.specs.Tok.{inside};
ghost use Rattle.syn_tokens.specs.View.{tok_of, toks_of};

use crate::taste::wanted;
use std::alloc::Global;
use syn_lexer::front::{begins, is_punct, starts_word};
use syn_tokens::error::ErrorKind;
use syn_tokens::{Delimiter, Punct, Result, Spacing, TokenStream, TokenTree};

/// The text of a stream as people write it, on one line: `a.b(c)?`, `vec![1, 2]`, `x as u8`. White space stands where it has
/// to, and where people put it. Given a stream that some text falls into, as `is_lexed` tells, the text falls into the same
/// stream, spacing included. It is refused only as `OutOfMemory`.
#[tactic(auto, using(crate::proofs::Read::laid_again))]
pub fn tidy(alloc: Global, tokens: &TokenStream) -> Result<String>
    // It lays the tokens out.
    ensures layout { IfOk result (λ s. IsLayout tokens.now (chars (string_bytes s))) }
    // So it is read again, where some text falls into the tokens.
    ensures again { IfOk result (λ s. is_lexed tokens.now ≡ true → Spells (chars (string_bytes s)) tokens.now) }
    // It is refused only where memory runs out.
    ensures memory { IfErr result (λ e. e.kind ≡ ErrorKind.OutOfMemory) }
{
    let mut out = Vec::new(alloc);
    lay_trees(alloc, &mut out, tokens.trees())?;
    let text = forwards(alloc, out.as_slice())?;
    Ok(text)
}

/// The text of characters that were written from its end.
#[tactic(auto, using(crate::proofs::Backwards::backwards))]
fn forwards(alloc: Global, out: &[char]) -> Result<String>
    ensures value { IfOk result (λ s. string_bytes s ≡ encode_utf8_all (reverse out.now)) }
    ensures memory { IfErr result (λ e. e.kind ≡ ErrorKind.OutOfMemory) }
{
    let mut text = String::new(alloc);
    let mut rest = out;
    while let [front @ .., c] = rest {
        text.push(*c)?;
        rest = front;
    }
    Ok(text)
}

/// The first character of the text behind, which is written from its end.
#[tactic(auto, using(crate::proofs::Backwards::backwards))]
fn first(behind: &[char]) -> char
    ensures { result ≡ slice_index (reverse behind.now) 0 }
{
    match behind {
        [.., c] => *c,
        [] => '\0',
    }
}

/// Whether a word goes on with a character, or a literal with a suffix, or it makes a word a prefix.
fn goes_on(next: char) -> bool
    ensures { result ≡ must_spec.goes_on next }
{
    unicode_ident::is_xid_continue(next) || next == '"' || next == '\'' || next == '#'
}

/// Whether a `.` or a word comes next.
#[tactic(auto, using(crate::proofs::Backwards::backwards))]
fn sees_dot_or_word(behind: &[char]) -> bool
    ensures { result ≡ (texts.begins (codes ".") (reverse behind.now) || words.starts_word (reverse behind.now)) }
{
    match behind {
        [.., c] => begins(&[*c], &['.']) || starts_word(&[*c]),
        [] => false,
    }
}

#[tactic(auto, using(crate::proofs::Backwards::backwards))]
fn ends_in_dot(text: &[char]) -> bool
    ensures { result ≡ texts.begins (codes ".") (reverse text.now) }
{
    match text {
        [.., c] => begins(&[*c], &['.']),
        [] => false,
    }
}

fn is_digit_or_underscore(c: char) -> bool
    ensures { result ≡ numbers.is_digit_or_underscore Decimal c }
{
    c.is_ascii_digit() || c == '_'
}

fn is_whole_number(text: &[char]) -> bool
    ensures { result ≡ must_spec.is_whole_number text.now }
{
    text.iter().all(|c| is_digit_or_underscore(*c))
}

/// Whether a literal takes a `.` that is behind it.
#[tactic(auto, using(crate::proofs::Backwards::backwards))]
fn takes_dot(text: &[char], behind: &[char]) -> bool
    ensures { result ≡ (texts.begins (codes ".") (reverse behind.now) && must_spec.takes_dot text.now (drop 1 (reverse behind.now))) }
{
    match behind {
        [more @ .., c] => {
            begins(&[*c], &['.'])
                && (ends_in_dot(text) || is_whole_number(text) && !sees_dot_or_word(more))
        }
        [] => false,
    }
}

/// The characters of a text.
fn chars_of(alloc: Global, text: &str) -> Result<Vec<char>>
    ensures { MatchResult result (λ v. v.items ≡ chars text.now) (λ e. e.kind ≡ ErrorKind.OutOfMemory) }
{
    Ok(text.chars().collect::<Vec<char>>(alloc)?)
}

/// Whether white space has to stand between a literal and the text behind it.
fn literal_must(alloc: Global, text: &str, behind: &[char]) -> Result<bool>
    ensures { MatchResult result (λ b. b ≡ (must_spec.goes_on (slice_index (reverse behind.now) 0) || (texts.begins (codes ".") (reverse behind.now) && must_spec.takes_dot (chars text.now) (drop 1 (reverse behind.now))))) (λ e. e.kind ≡ ErrorKind.OutOfMemory) }
{
    let text = chars_of(alloc, text)?;
    Ok(goes_on(first(behind)) || takes_dot(text.as_slice(), behind))
}

/// Whether white space has to stand between a tree and the text behind it.
fn must(alloc: Global, tree: &TokenTree, behind: &[char]) -> Result<bool>
    ensures { MatchResult result (λ b. b ≡ must_spec.must (tok_of tree.now) (reverse behind.now)) (λ e. e.kind ≡ ErrorKind.OutOfMemory) }
{
    match tree {
        TokenTree::Ident(_) => Ok(goes_on(first(behind))),
        TokenTree::Literal(literal) => literal_must(alloc, literal.as_str(), behind),
        TokenTree::Punct(punct) => Ok(punct_must(*punct, behind)),
        TokenTree::Group(_) => Ok(false),
    }
}

fn punct_must(punct: Punct, behind: &[char]) -> bool
    ensures { result ≡ must_spec.must (tok.punct punct.ch punct.spacing) (reverse behind.now) }
{
    match punct.spacing {
        Spacing::Alone => is_punct(first(behind)),
        Spacing::Joint => false,
    }
}

fn is_joint(tree: &TokenTree) -> bool
    ensures { result ≡ text_spec.is_joint (tok_of tree.now) }
{
    match tree {
        TokenTree::Punct(punct) => match punct.spacing {
            Spacing::Joint => true,
            Spacing::Alone => false,
        },
        TokenTree::Group(_) | TokenTree::Ident(_) | TokenTree::Literal(_) => false,
    }
}

/// Whether a space is to be written before the tree at a place.
fn is_wanted(spaces: &[bool], at: usize) -> bool {
    match spaces.get(at) {
        Some(space) => *space,
        None => false,
    }
}

/// Whether a space is written behind a tree: where it has to, and where it is wanted.
#[tactic(auto, using(crate::proofs::Gaps::joint_must))]
fn is_spaced(alloc: Global, tree: &TokenTree, behind: &[char], is_wanted: bool) -> Result<bool>
    ensures spaced { IfOk result (λ b. b ≡ true → text_spec.is_joint (tok_of tree.now) ≡ false) }
    ensures joined { IfOk result (λ b. b ≡ false → must_spec.must (tok_of tree.now) (reverse behind.now) ≡ false) }
    ensures memory { IfErr result (λ e. e.kind ≡ ErrorKind.OutOfMemory) }
{
    if is_joint(tree) {
        Ok(false)
    } else if is_wanted {
        Ok(true)
    } else {
        must(alloc, tree, behind)
    }
}

/// Writes a space, or nothing.
#[tactic(auto, using(crate::proofs::Backwards::backwards))]
fn lay_space(out: &mut Vec<char>, is_spaced: bool) -> Result<()>
    ensures value { OnOk result (reverse out.new.items ≡ space_before is_spaced (reverse out.old.items)) }
    ensures memory { IfErr result (λ e. e.kind ≡ ErrorKind.OutOfMemory) }
{
    if is_spaced {
        Ok(out.push(' ')?)
    } else {
        Ok(())
    }
}

/// Writes what is behind a tree.
#[tactic(auto, using(crate::proofs::Gaps::gap_is))]
fn lay_gap(alloc: Global, out: &mut Vec<char>, tree: &TokenTree, is_wanted: bool) -> Result<()>
    ensures gap { OnOk result (IsGap (tok_of tree.now) (reverse out.old.items) (reverse out.new.items)) }
    ensures memory { IfErr result (λ e. e.kind ≡ ErrorKind.OutOfMemory) }
{
    let is_spaced = is_spaced(alloc, tree, out.as_slice(), is_wanted)?;
    lay_space(out, is_spaced)
}

/// Writes these characters before what is written.
#[tactic(auto, using(crate::proofs::Backwards::backwards))]
fn lay_chars(out: &mut Vec<char>, text: &[char]) -> Result<()>
    ensures value { OnOk result (reverse out.new.items ≡ text.now ++ reverse out.old.items) }
    ensures memory { IfErr result (λ e. e.kind ≡ ErrorKind.OutOfMemory) }
{
    let mut rest = text;
    while let [front @ .., c] = rest {
        out.push(*c)?;
        rest = front;
    }
    Ok(())
}

fn lay_text(alloc: Global, out: &mut Vec<char>, text: &str) -> Result<()>
    ensures value { OnOk result (reverse out.new.items ≡ chars text.now ++ reverse out.old.items) }
    ensures memory { IfErr result (λ e. e.kind ≡ ErrorKind.OutOfMemory) }
{
    let text = chars_of(alloc, text)?;
    lay_chars(out, text.as_slice())
}

/// Writes what is at an end of what a group encloses: a space in braces that are not empty.
fn lay_margin(out: &mut Vec<char>, delimiter: Delimiter, trees: &[TokenTree]) -> Result<()>
    ensures spaced { OnOk result (IsSpaced (reverse out.old.items) (reverse out.new.items)) }
    ensures memory { IfErr result (λ e. e.kind ≡ ErrorKind.OutOfMemory) }
{
    let is_spaced = delimiter == Delimiter::Brace && !trees.is_empty();
    lay_space(out, is_spaced)
}

fn opening(delimiter: Delimiter) -> &'static [char]
    ensures { result.now ≡ text_spec.opening delimiter }
{
    match delimiter {
        Delimiter::Parenthesis => &['('],
        Delimiter::Bracket => &['['],
        Delimiter::Brace => &['{'],
        Delimiter::None => &[],
    }
}

fn closing(delimiter: Delimiter) -> &'static [char]
    ensures { result.now ≡ text_spec.closing delimiter }
{
    match delimiter {
        Delimiter::Parenthesis => &[')'],
        Delimiter::Bracket => &[']'],
        Delimiter::Brace => &['}'],
        Delimiter::None => &[],
    }
}

/// Writes a tree.
#[cycle(lay)]
#[tactic(auto, using(crate::proofs::Backwards::backwards, syn_tokens::proofs::Views::insides, syn_tokens::proofs::Weights::one_at_least))]
fn lay_tree(alloc: Global, out: &mut Vec<char>, tree: &TokenTree) -> Result<()>
    ensures tree { OnOk result (IsTree (tok_of tree.now) (reverse out.old.items) (reverse out.new.items)) }
    ensures memory { IfErr result (λ e. e.kind ≡ ErrorKind.OutOfMemory) }
{
    match tree {
        TokenTree::Ident(word) => lay_text(alloc, out, word.as_str()),
        TokenTree::Literal(literal) => lay_text(alloc, out, literal.as_str()),
        TokenTree::Punct(punct) => lay_chars(out, &[punct.ch]),
        TokenTree::Group(group) => {
            let trees = group.stream.trees();
            lay_chars(out, closing(group.delimiter))?;
            lay_margin(out, group.delimiter, trees)?;
            lay_trees(alloc, out, trees)?;
            lay_margin(out, group.delimiter, trees)?;
            lay_chars(out, opening(group.delimiter))
        }
    }
}

/// Writes trees, each with what is behind it.
#[cycle(lay)]
#[tactic(auto, using(crate::proofs::Backwards::backwards, syn_tokens::proofs::Weights::one_at_least))]
fn lay_trees(alloc: Global, out: &mut Vec<char>, trees: &[TokenTree]) -> Result<()>
    ensures list { OnOk result (IsList (inside (toks_of trees.now)) (reverse out.old.items) (reverse out.new.items)) }
    ensures memory { IfErr result (λ e. e.kind ≡ ErrorKind.OutOfMemory) }
{
    let spaces = wanted(alloc, trees)?;
    let mut rest = trees;
    while let [front @ .., tree] = rest {
        lay_gap(alloc, out, tree, is_wanted(spaces.as_slice(), rest.len()))?;
        lay_tree(alloc, out, tree)?;
        rest = front;
    }
    Ok(())
}
