//! Token trees and streams of them, as in proc_macro2, with their places in a text and their copies.

ghost use Rattle.std.specs.Prelude.{◌≡◌, [], ◌∷◌, ◌++◌, length, take, IfOk, IfErr, OnOk, OnErr, IsTrue, ◌↔◌, min, max};
ghost use Rattle.syn_tokens.specs.View.{tok_of, toks_of};

use crate::error::{ErrorKind, Result};
use crate::text::SharedText;
use crate::{Delimiter, Spacing};
use std::alloc::{AllocError, Global};
use std::marker::Model;

/// A character of punctuation (Rust Reference, "Punctuation"). Equality ignores its place.
#[derive(Clone, Copy, Debug)]
#[derive_where(PartialEq, Eq, Hash)]
pub struct Punct {
    /// The character.
    pub ch: char,
    /// Whether another punct follows at once.
    pub spacing: Spacing,
    /// Where it is.
    #[derive_where(skip(EqHashOrd))]
    pub span: Span,
}

/// A word: an identifier, a reserved word or `_` (Rust Reference, "Identifiers", "Keywords"). A raw identifier keeps its
/// `r#`. Contracts see the bytes of its text. Equality ignores its place.
#[derive(Debug, Drop)]
pub struct Ident {
    text: SharedText,
    span: Span,
}

impl Model for Ident {
    ghost use Rattle.std.specs.Prelude.{List, ℕ};

    ghost Value = { List ℕ };

    ghost view = { λ i. i.text };
}

impl Ident {
    /// A word that is known to be one.
    pub(crate) fn read(text: SharedText, span: Span) -> Ident
        ensures { result ≡ text }
    {
        Ident { text, span }
    }

    /// Its text.
    pub fn as_str(&self) -> &str
        ensures { result.now ≡ self.now }
    {
        self.text.as_str()
    }

    /// It once more, which shares its text.
    pub(crate) fn copy(&self) -> std::result::Result<Ident, AllocError>
        ensures { IfOk result (λ i. i ≡ self.now) }
    {
        let text = self.text.copy()?;
        Ok(Ident::read(text, self.span))
    }

    /// Where it is.
    pub fn span(&self) -> Span {
        self.span
    }
}

/// A literal token, with its suffix (Rust Reference, "Literal expressions"). Contracts see the bytes of its text. Equality
/// ignores its place.
#[derive(Debug, Drop)]
pub struct Literal {
    text: SharedText,
    span: Span,
}

impl Model for Literal {
    ghost use Rattle.std.specs.Prelude.{List, ℕ};

    ghost Value = { List ℕ };

    ghost view = { λ i. i.text };
}

impl Literal {
    /// A literal that is known to be one.
    pub(crate) fn read(text: SharedText, span: Span) -> Literal
        ensures { result ≡ text }
    {
        Literal { text, span }
    }

    /// Its text.
    pub fn as_str(&self) -> &str
        ensures { result.now ≡ self.now }
    {
        self.text.as_str()
    }

    /// It once more, which shares its text.
    pub(crate) fn copy(&self) -> std::result::Result<Literal, AllocError>
        ensures { IfOk result (λ l. l ≡ self.now) }
    {
        let text = self.text.copy()?;
        Ok(Literal::read(text, self.span))
    }

    /// Where it is.
    pub fn span(&self) -> Span {
        self.span
    }
}

/// A delimited list of token trees (Rust Reference, "Delimiters"). Equality ignores places.
#[cycle(trees)]
#[derive(Debug, Drop)]
pub struct Group {
    /// What encloses it.
    pub delimiter: Delimiter,
    /// What it encloses.
    pub stream: TokenStream,
    /// From the opening to the closing delimiter.
    pub span: Span,
}

/// A token, or a delimited list of them (Rust Reference, "Tokens", "Delimiters"). Equality ignores places.
#[cycle(trees)]
#[derive(Debug, Drop)]
pub enum TokenTree {
    /// A group.
    Group(Group),
    /// A word.
    Ident(Ident),
    /// A character of punctuation.
    Punct(Punct),
    /// A literal.
    Literal(Literal),
}

/// A list of token trees. Contracts see the list of its tokens without their places, which equality ignores too.
#[cycle(trees)]
#[derive(Debug)]
pub struct TokenStream {
    trees: Vec<TokenTree>,
}

// Written out and not derived: a crate that drops a list calls this, and doesn't prove again of groups in groups that
// they can be dropped.
impl Drop for TokenStream {
    #[cycle(trees)]
    fn drop(self) {
        let TokenStream { trees: _ } = self;
    }
}

impl Model for TokenStream {
    ghost use Rattle.std.specs.Prelude.{List};
    ghost use Rattle.syn_tokens.specs.Tok.{Tok, weight};
    ghost use Rattle.syn_tokens.specs.TokCode.{toks_code};

    ghost Value = { List Tok };

    ghost coded = { toks_code };

    ghost use Rattle.syn_tokens.specs.View.{toks_of};

    ghost view = { λ s. toks_of s.trees.items };

    ghost size = { weight };

    ghost use Rattle.syn_tokens.specs.TokSize.{most_le-weight, max_zero-le};

    ghost size_decreases = { λ a h. max_zero-le _ _ (most_le-weight a.trees.items) };
}

impl Group {
    ghost use Rattle.syn_tokens.specs.Places.{closing_span};

    /// Where the closing delimiter is: the last byte of the group, or all of a group that shows none or is shorter
    /// than two bytes.
    pub fn closing(&self) -> Span
        ensures { result ≡ closing_span self.now.delimiter self.now.span }
    {
        let Span { lo, hi } = self.span;
        if self.delimiter == Delimiter::None || hi <= lo || hi - lo < 2 {
            self.span
        } else {
            Span { lo: hi - 1, hi }
        }
    }
}

impl TokenTree {
    ghost use Rattle.syn_tokens.specs.Places.{IsAt};

    /// Where it is, of a group from the opening to the closing delimiter. Contracts see no place of a word or a literal.
    pub fn span(&self) -> Span
        ensures { IsAt self.now result }
    {
        match self {
            TokenTree::Group(group) => group.span,
            TokenTree::Ident(ident) => ident.span,
            TokenTree::Punct(punct) => punct.span,
            TokenTree::Literal(literal) => literal.span,
        }
    }
}

#[tactic(auto, using(crate::proofs::Views::views))]
impl TokenStream {
    ghost use Rattle.syn_tokens.specs.View.{tok_of, toks_of};

    /// An empty list.
    pub fn new(alloc: Global) -> TokenStream
        ensures { result ≡ [] }
    {
        TokenStream {
            trees: Vec::new(alloc),
        }
    }

    /// The allocator that it grows by.
    pub fn alloc(&self) -> Global {
        *self.trees.allocator()
    }

    /// Puts a tree at the end. It is refused only where memory runs out; then nothing changes, and the tree is given up.
    pub fn push(&mut self, tree: TokenTree) -> Result<()>
        ensures ok { OnOk result (self.new ≡ self.old ++ tok_of tree ∷ []) }
        ensures err { OnErr result (self.new ≡ self.old) }
        ensures memory { IfErr result (λ e. e.kind ≡ ErrorKind.OutOfMemory) }
    {
        self.trees.push(tree)?;
        Ok(())
    }

    /// Puts the trees of another list at the end. It is refused only where memory runs out; then nothing changes, and the
    /// other list is given up.
    pub fn append(&mut self, more: TokenStream) -> Result<()>
        ensures ok { OnOk result (self.new ≡ self.old ++ more) }
        ensures err { OnErr result (self.new ≡ self.old) }
        ensures memory { IfErr result (λ e. e.kind ≡ ErrorKind.OutOfMemory) }
    {
        let TokenStream { mut trees } = more;
        self.trees.append(&mut trees)?;
        Ok(())
    }

    /// Keeps the first `len` trees; a `len` above the length changes nothing.
    pub fn truncate(&mut self, len: usize)
        ensures { self.new ≡ take len self.old }
    {
        self.trees.truncate(len);
    }

    /// Whether it has no trees.
    pub fn is_empty(&self) -> bool
        ensures { IsTrue result ↔ (length self.now ≡ 0) }
    {
        self.trees.is_empty()
    }

    /// The trees.
    pub fn trees(&self) -> &[TokenTree]
        ensures { toks_of result.now ≡ self.now }
    {
        self.trees.as_slice()
    }

    /// How many trees there are, a group being one.
    pub fn len(&self) -> usize
        ensures { result ≡ length self.now }
    {
        self.trees.len()
    }
}

/// A place in a text: byte offsets, from `lo` to before `hi`.
#[derive(Clone, Copy, Debug, Default, PartialEq, Eq, Hash)]
pub struct Span {
    /// Where the first byte is.
    pub lo: usize,
    /// Where the last byte ends.
    pub hi: usize,
}

impl Span {
    /// The place of what was not read from a text: `0..0`.
    pub fn call_site() -> Span
        ensures { result ≡ record { lo = 0; hi = 0 } }
    {
        Span { lo: 0, hi: 0 }
    }
    /// From where the first of two places begins to where the last of them ends.
    pub fn join(self, other: Span) -> Span
        ensures { result ≡ record { lo = min self.lo other.lo; hi = max self.hi other.hi } }
    {
        Span {
            lo: self.lo.min(other.lo),
            hi: self.hi.max(other.hi),
        }
    }
}

/// A copy of a word, with its place, which shares its text; refused only where memory runs out.
pub fn copy_ident(_: Global, ident: &Ident) -> Result<Ident>
    ensures copied { IfOk result (λ i. i ≡ ident.now) }
    ensures memory { IfErr result (λ e. e.kind ≡ ErrorKind.OutOfMemory) }
{
    Ok(ident.copy()?)
}

/// A copy of a literal, with its place, which shares its text; refused only where memory runs out.
pub fn copy_literal(_: Global, literal: &Literal) -> Result<Literal>
    ensures copied { IfOk result (λ l. l ≡ literal.now) }
    ensures memory { IfErr result (λ e. e.kind ≡ ErrorKind.OutOfMemory) }
{
    Ok(literal.copy()?)
}

/// A copy of a tree, with its places; refused only where memory runs out.
#[cycle(copy)]
#[tactic(auto, using(crate::proofs::Views::insides))]
pub fn copy_tree(alloc: Global, tree: &TokenTree) -> Result<TokenTree>
    ensures copied { IfOk result (λ t. tok_of t ≡ tok_of tree.now) }
    ensures memory { IfErr result (λ e. e.kind ≡ ErrorKind.OutOfMemory) }
{
    match tree {
        TokenTree::Ident(ident) => Ok(TokenTree::Ident(copy_ident(alloc, ident)?)),
        TokenTree::Literal(literal) => Ok(TokenTree::Literal(copy_literal(alloc, literal)?)),
        TokenTree::Punct(punct) => Ok(TokenTree::Punct(*punct)),
        TokenTree::Group(group) => {
            let stream = copy_trees(alloc, group.stream.trees())?;
            Ok(TokenTree::Group(Group {
                delimiter: group.delimiter,
                stream,
                span: group.span,
            }))
        }
    }
}

/// A copy of some trees, with their places; refused only where memory runs out.
#[cycle(copy)]
#[tactic(auto, using(crate::proofs::Views::insides, crate::proofs::Weights::one_at_least), unfolding(crate::specs::Tok::weight))]
pub fn copy_trees(alloc: Global, trees: &[TokenTree]) -> Result<TokenStream>
    ensures copied { IfOk result (λ s. s ≡ toks_of trees.now) }
    ensures memory { IfErr result (λ e. e.kind ≡ ErrorKind.OutOfMemory) }
{
    let mut stream = TokenStream::new(alloc);
    let mut rest = trees;
    while let [tree, more @ ..] = rest {
        stream.push(copy_tree(alloc, tree)?)?;
        rest = more;
    }
    Ok(stream)
}
