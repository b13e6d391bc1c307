//! The text of token trees; and the texts of words and literals, which share the text that they are parts of.

ghost use Rattle.std.specs.Prelude.{◌≡◌, ◌++◌, OnOk, MatchResult, string_bytes, ◌≤◌, ◌-◌, take, drop, IfOk};
ghost use Rattle.syn_tokens.specs.Text as spec;
ghost use Rattle.syn_tokens.specs.Tok.{inside};
ghost use Rattle.syn_tokens.specs.View.{tok_of, toks_of};
ghost use Rattle.std.specs.Rc.{rc_str_bytes};
ghost use Rattle.std.specs.Str.{IsCharBoundary};
ghost use Rattle.syn_tokens.specs.Sign.{word_text};

use crate::error::{ErrorKind, Result};
use crate::token::word_text;
use crate::tree::{Span, TokenStream, TokenTree};
use crate::{Delimiter, Spacing};
use std::alloc::{AllocError, Global};
use std::fmt::{Debug, Formatter, Write};
use std::marker::Model;
use std::rc::RcStr;

/// The text of a stream: one space between neighbours, but none after a joint punct; a group is its two delimiters
/// with its inside between, a brace that is not empty with one space at both ends; an invisible group is its inside
/// alone. It is refused only as `OutOfMemory`.
pub fn to_text(stream: &TokenStream) -> Result<String>
    ensures { MatchResult result (λ s. string_bytes s ≡ spec.text stream.now) (λ e. e.kind ≡ ErrorKind.OutOfMemory) }
{
    let mut text = String::new(stream.alloc());
    write_trees(&mut text, stream.trees())?;
    Ok(text)
}

fn opening(delimiter: Delimiter) -> &'static str
    ensures { result.now ≡ spec.opening delimiter }
{
    match delimiter {
        Delimiter::Parenthesis => "(",
        Delimiter::Bracket => "[",
        Delimiter::Brace => "{",
        Delimiter::None => "",
    }
}

fn closing(delimiter: Delimiter) -> &'static str
    ensures { result.now ≡ spec.closing delimiter }
{
    match delimiter {
        Delimiter::Parenthesis => ")",
        Delimiter::Bracket => "]",
        Delimiter::Brace => "}",
        Delimiter::None => "",
    }
}

/// What is at both ends of a group's inside.
#[tactic(auto, using(crate::proofs::Views::texts))]
fn margin(delimiter: Delimiter, trees: &[TokenTree]) -> &'static str
    ensures { result.now ≡ spec.margin delimiter (inside (toks_of trees.now)) }
{
    match trees {
        [] => "",
        [_, ..] => match delimiter {
            Delimiter::Brace => " ",
            Delimiter::Parenthesis => "",
            Delimiter::Bracket => "",
            Delimiter::None => "",
        },
    }
}

fn is_joint(tree: &TokenTree) -> bool
    ensures { result ≡ spec.is_joint (tok_of tree.now) }
{
    match tree {
        TokenTree::Punct(punct) => match punct.spacing {
            Spacing::Joint => true,
            Spacing::Alone => false,
        },
        TokenTree::Group(_) | TokenTree::Ident(_) | TokenTree::Literal(_) => false,
    }
}

/// Writes what is between a tree and those after it.
#[tactic(auto, using(crate::proofs::Views::views))]
fn write_gap(
    out: &mut String,
    tree: &TokenTree,
    behind: &[TokenTree],
) -> std::result::Result<(), AllocError>
    ensures { OnOk result (string_bytes out.new ≡ string_bytes out.old ++ spec.gap (tok_of tree.now) (toks_of behind.now)) }
{
    if is_joint(tree) || behind.is_empty() {
        Ok(())
    } else {
        out.push(' ')
    }
}

#[cycle(text)]
#[tactic(auto, using(crate::proofs::Views::texts))]
fn write_tree(out: &mut String, tree: &TokenTree) -> std::result::Result<(), AllocError>
    ensures { OnOk result (string_bytes out.new ≡ string_bytes out.old ++ spec.text_of (tok_of tree.now)) }
{
    match tree {
        TokenTree::Ident(ident) => out.push_str(ident.as_str()),
        TokenTree::Literal(literal) => out.push_str(literal.as_str()),
        TokenTree::Punct(punct) => out.push(punct.ch),
        TokenTree::Group(group) => {
            let trees = group.stream.trees();
            out.push_str(opening(group.delimiter))?;
            out.push_str(margin(group.delimiter, trees))?;
            write_trees(out, trees)?;
            out.push_str(margin(group.delimiter, trees))?;
            out.push_str(closing(group.delimiter))
        }
    }
}

#[cycle(text)]
#[tactic(auto, using(crate::proofs::Views::texts, crate::proofs::Weights::one_at_least), unfolding(crate::specs::Tok::weight))]
fn write_trees(out: &mut String, trees: &[TokenTree]) -> std::result::Result<(), AllocError>
    ensures { OnOk result (string_bytes out.new ≡ string_bytes out.old ++ spec.text (toks_of trees.now)) }
{
    let mut rest = trees;
    while let [tree, more @ ..] = rest {
        write_tree(out, tree)?;
        write_gap(out, tree, more)?;
        rest = more;
    }
    Ok(())
}

/// What a text is kept as.
#[derive(Drop)]
enum Kept {
    /// The word at this place of `WORDS`. It takes no memory.
    Word(usize),
    /// A part of a text, which keeps the whole text as long as it is kept.
    Part {
        whole: RcStr<Global>,
        lo: usize,
        hi: usize,
    },
}

/// A word of the table, or a part of a text, which keeps the whole text as long as it is kept. Contracts see its bytes.
#[derive(Drop)]
pub struct SharedText {
    kept: Kept,
}

impl Model for SharedText {
    ghost use Rattle.std.specs.Prelude.{List, ℕ};
    ghost use Rattle.syn_tokens.specs.Text.{source_bytes, IsTextSource};

    ghost Value = { List ℕ };

    ghost view = { λ t. source_bytes t.kept };

    ghost invariant = { λ t. IsTextSource t.kept };
}

impl SharedText {
    /// This text, which nothing else shares yet.
    pub(crate) fn new(alloc: Global, text: &str) -> std::result::Result<SharedText, AllocError>
        ensures { IfOk result (λ t. t ≡ text.now) }
    {
        let whole = RcStr::from_str(alloc, text)?;
        Ok(SharedText {
            kept: Kept::Part {
                whole,
                lo: 0,
                hi: text.len(),
            },
        })
    }

    /// The word at place `k` of `WORDS`; an empty text past the list. It takes no memory.
    pub(crate) fn word(k: usize) -> SharedText
        ensures { result ≡ word_text k }
    {
        SharedText {
            kept: Kept::Word(k),
        }
    }

    /// The part of a text from one place to another.
    pub(crate) fn part(
        whole: &RcStr<Global>,
        span: Span,
    ) -> std::result::Result<SharedText, AllocError>
        requires order { span.lo ≤ span.hi }
        requires from { IsCharBoundary (rc_str_bytes whole.now) span.lo }
        requires to { IsCharBoundary (rc_str_bytes whole.now) span.hi }
        ensures { IfOk result (λ t. t ≡ take (span.hi - span.lo) (drop span.lo (rc_str_bytes whole.now))) }
    {
        let whole = whole.clone()?;
        Ok(SharedText {
            kept: Kept::Part {
                whole,
                lo: span.lo,
                hi: span.hi,
            },
        })
    }

    /// It once more, which shares the same text.
    pub(crate) fn copy(&self) -> std::result::Result<SharedText, AllocError>
        ensures { IfOk result (λ t. t ≡ self.now) }
    {
        let kept = match &self.kept {
            Kept::Word(k) => Kept::Word(*k),
            Kept::Part { whole, lo, hi } => Kept::Part {
                whole: whole.clone()?,
                lo: *lo,
                hi: *hi,
            },
        };
        Ok(SharedText { kept })
    }

    /// The text.
    pub(crate) fn as_str(&self) -> &str
        ensures { result.now ≡ self.now }
    {
        match &self.kept {
            Kept::Word(k) => word_text(*k),
            Kept::Part { whole, lo, hi } => &whole.as_str()[*lo..*hi],
        }
    }
}

impl Debug for SharedText {
    fn fmt<W: Write>(&self, f: &mut Formatter<W>) -> std::fmt::Result {
        Debug::fmt(self.as_str(), f)
    }
}
