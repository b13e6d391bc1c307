//! Token streams that a text falls into, and the reading of their own text.

ghost use Rattle.std.specs.Prelude.{◌≡◌, ◌∷◌, [], true, chars, IfOk, MatchResult};
ghost use Rattle.syn_lexer.specs.Blanks as blanks;
ghost use Rattle.syn_text.specs.Lexed as spec;
ghost use Rattle.syn_tokens.specs.Lex.{Spells};
ghost use Rattle.syn_tokens.specs.Text.{text};
ghost use Rattle.syn_tokens.specs.Tok as tok;
ghost use Rattle.syn_tokens.specs.View.{tok_of, toks_of};

use std::alloc::Global;
use syn_lexer::front::{is_ident, is_literal, is_punct};
use syn_tokens::error::ErrorKind;
use syn_tokens::{Delimiter, Result, Spacing, TokenStream, TokenTree, lex, to_text};

/// Prints a stream and lexes its text. Given a stream that some text falls into, as `is_lexed` tells, the answer is the
/// same stream, spacing included, with places in the new text; then it is refused only as `OutOfMemory`.
pub fn reread(stream: &TokenStream) -> Result<TokenStream>
    // What is read is what the text falls into.
    ensures read { IfOk result (λ s. Spells (chars (text stream.now)) s) }
    // It is the same, spacing included.
    ensures same { spec.is_lexed stream.now ≡ true → MatchResult result (λ s. s ≡ stream.now) (λ e. e.kind ≡ ErrorKind.OutOfMemory) }
{
    let text = to_text(stream)?;
    lex(stream.alloc(), &text)
}

/// Whether some text falls into this stream, so that `reread` gives it again. It is refused only as `OutOfMemory`.
pub fn is_lexed(stream: &TokenStream) -> Result<bool>
    ensures { MatchResult result (λ b. b ≡ spec.is_lexed stream.now) (λ e. e.kind ≡ ErrorKind.OutOfMemory) }
{
    are_lexed(stream.alloc(), stream.trees())
}

#[cycle(lexed)]
#[tactic(auto, using(syn_tokens::proofs::Views::insides, syn_tokens::proofs::Weights::one_at_least), unfolding(syn_tokens::specs::Tok::weight))]
fn are_lexed(alloc: Global, trees: &[TokenTree]) -> Result<bool>
    ensures { MatchResult result (λ b. b ≡ spec.is_lexed (toks_of trees.now)) (λ e. e.kind ≡ ErrorKind.OutOfMemory) }
{
    let mut rest = trees;
    while let [tree, behind @ ..] = rest {
        if !stays(alloc, tree, behind)? {
            return Ok(false);
        }
        rest = behind;
    }
    Ok(true)
}

/// Whether a tree stays itself if its text stands before the text of these.
#[cycle(lexed)]
#[tactic(auto, using(syn_tokens::proofs::Views::insides, crate::proofs::Again::lexed_inside))]
fn stays(alloc: Global, tree: &TokenTree, behind: &[TokenTree]) -> Result<bool>
    ensures { MatchResult result (λ b. b ≡ spec.stays (tok_of tree.now) (toks_of behind.now)) (λ e. e.kind ≡ ErrorKind.OutOfMemory) }
{
    match tree {
        TokenTree::Ident(ident) => is_ident_text(alloc, ident.as_str()),
        TokenTree::Literal(literal) => is_literal_text(alloc, literal.as_str()),
        TokenTree::Punct(punct) => Ok(punct_stays(punct.ch, punct.spacing, behind)),
        TokenTree::Group(group) => {
            if !is_written(group.delimiter) {
                return Ok(false);
            }
            are_lexed(alloc, group.stream.trees())
        }
    }
}

/// The characters of a text.
fn chars_of(alloc: Global, text: &str) -> Result<Vec<char>>
    ensures { MatchResult result (λ v. v.items ≡ chars text.now) (λ e. e.kind ≡ ErrorKind.OutOfMemory) }
{
    Ok(text.chars().collect::<Vec<char>>(alloc)?)
}

fn is_ident_text(alloc: Global, text: &str) -> Result<bool>
    ensures { MatchResult result (λ b. b ≡ spec.is_ident_text text.now) (λ e. e.kind ≡ ErrorKind.OutOfMemory) }
{
    let all = chars_of(alloc, text)?;
    Ok(is_ident(all.as_slice()))
}

fn is_literal_text(alloc: Global, text: &str) -> Result<bool>
    ensures { MatchResult result (λ b. b ≡ spec.is_literal_text text.now) (λ e. e.kind ≡ ErrorKind.OutOfMemory) }
{
    let all = chars_of(alloc, text)?;
    Ok(is_literal(all.as_slice()))
}

fn is_written(delimiter: Delimiter) -> bool
    ensures { result ≡ spec.is_written delimiter }
{
    match delimiter {
        Delimiter::Parenthesis | Delimiter::Brace | Delimiter::Bracket => true,
        Delimiter::None => false,
    }
}

fn punct_stays(ch: char, spacing: Spacing, behind: &[TokenTree]) -> bool
    ensures { result ≡ spec.stays (tok.punct ch spacing) (toks_of behind.now) }
{
    match spacing {
        Spacing::Alone => is_punct(ch) && ch != '\'',
        Spacing::Joint => {
            if ch == '\'' {
                sees_plain_ident(behind)
            } else {
                is_punct(ch) && joins(ch, behind)
            }
        }
    }
}

/// Whether an identifier with no `r#` comes first.
#[tactic(auto, using(crate::proofs::Tests::firsts))]
fn sees_plain_ident(trees: &[TokenTree]) -> bool
    ensures { result ≡ spec.sees_plain_ident (toks_of trees.now) }
{
    match trees {
        [TokenTree::Ident(ident), ..] => !ident.as_str().starts_with("r#"),
        _ => false,
    }
}

/// Whether these trees may follow a punct at once.
#[tactic(auto, using(crate::proofs::Tests::firsts))]
fn joins(ch: char, behind: &[TokenTree]) -> bool
    ensures { result ≡ spec.joins ch (toks_of behind.now) }
{
    match behind {
        [TokenTree::Punct(next), ..] => !begins_comment(ch, next.ch),
        [TokenTree::Literal(literal), ..] => literal.as_str().starts_with("'"),
        _ => false,
    }
}

#[tactic(auto, using(crate::proofs::Tests::comments))]
fn begins_comment(c: char, d: char) -> bool
    ensures { result ≡ blanks.begins_comment (c ∷ d ∷ []) }
{
    c == '/' && (d == '/' || d == '*')
}
