//! Equality and hashing of tokens, which ignore their places.

ghost use Rattle.std.specs.Prelude.{◌≡◌, ◌≢◌, ◌==◌, fold, true, false};
ghost use Rattle.std.specs.Cmp.Lexicographic.{pointwise};
ghost use Rattle.std.proofs.Common.{rules};
ghost use Rattle.std.specs.Cmp.Rules.{comparing, hashing};
ghost use Rattle.std.specs.Hash as fed;
ghost use Rattle.syn_tokens.specs.Front as front;
ghost use Rattle.syn_tokens.specs.Same as spec;
ghost use Rattle.syn_tokens.specs.View.{tok_of, toks_of};

use crate::tree::{Group, Ident, Literal, TokenStream, TokenTree};
use crate::{Delimiter, Spacing};
use std::hash::{Hash, Hasher};

impl PartialEq for Ident {
    ghost eq = { λ a b. pointwise ◌==◌ a b };

    ghost laws = { Prim.search (comparing, rules) };

    fn eq(&self, other: &Ident) -> bool {
        self.as_str() == other.as_str()
    }
}

impl Ident {
    ghost use Rattle.std.specs.Prelude.{IsTrue, ◌↔◌};
    ghost use Rattle.std.specs.Str.{bytes_eq};

    /// Whether its text is this. A raw identifier's begins with `r#`.
    #[tactic(auto, using(syn_lexer::proofs::Words::lengths))]
    pub fn is(&self, text: &str) -> bool
        ensures value { result ≡ bytes_eq self.now text.now }
        ensures same { IsTrue result ↔ (self.now ≡ text.now) }
    {
        let own = self.as_str();
        // Most words differ in their length, which is one test.
        own.len() == text.len() && own == text
    }
}

impl Eq for Ident {
    ghost laws = { Prim.search (comparing, rules) };
}

impl Hash for Ident {
    ghost hash_input = { λ a. fed.str a };

    ghost respects_eq = { Prim.search (hashing, rules) };

    fn hash<H: Hasher>(&self, state: &mut H) {
        self.as_str().hash(state);
    }
}

impl PartialEq for Literal {
    ghost eq = { λ a b. pointwise ◌==◌ a b };

    ghost laws = { Prim.search (comparing, rules) };

    fn eq(&self, other: &Literal) -> bool {
        self.as_str() == other.as_str()
    }
}

impl Eq for Literal {
    ghost laws = { Prim.search (comparing, rules) };
}

impl Hash for Literal {
    ghost hash_input = { λ a. fed.str a };

    ghost respects_eq = { Prim.search (hashing, rules) };

    fn hash<H: Hasher>(&self, state: &mut H) {
        self.as_str().hash(state);
    }
}

/// Whether two delimiters are the same.
#[tactic(auto, using(crate::proofs::Sames::delimiters))]
pub(crate) fn is_same(a: Delimiter, b: Delimiter) -> bool
    ensures value { result ≡ front.same_delimiter a b }
    ensures same { result ≡ true → a ≡ b }
    ensures other { result ≡ false → a ≢ b }
{
    a == b
}

/// Whether two spacings are the same.
fn same_spacing(a: Spacing, b: Spacing) -> bool
    ensures { result ≡ spec.same_spacing a b }
{
    a == b
}

/// Whether two lists differ in places alone.
#[cycle(same)]
#[tactic(auto, using(crate::proofs::Views::insides, crate::proofs::Weights::one_at_least), unfolding(crate::specs::Tok::weight))]
fn same_trees(mut a: &[TokenTree], mut b: &[TokenTree]) -> bool
    ensures { result ≡ spec.same_list (toks_of a.entry.now) (toks_of b.entry.now) }
{
    while let [x, xs @ ..] = a {
        let [y, ys @ ..] = b else {
            return false;
        };
        if !same_tree(x, y) {
            return false;
        }
        a = xs;
        b = ys;
    }
    b.is_empty()
}

/// Whether two trees differ in places alone.
#[cycle(same)]
#[tactic(auto, using(crate::proofs::Views::insides, crate::proofs::Sames::sames))]
fn same_tree(a: &TokenTree, b: &TokenTree) -> bool
    ensures { result ≡ spec.same_tok (tok_of a.now) (tok_of b.now) }
{
    match (a, b) {
        (TokenTree::Ident(x), TokenTree::Ident(y)) => x.as_str() == y.as_str(),
        (TokenTree::Literal(x), TokenTree::Literal(y)) => x.as_str() == y.as_str(),
        (TokenTree::Punct(x), TokenTree::Punct(y)) => {
            x.ch == y.ch && same_spacing(x.spacing, y.spacing)
        }
        (TokenTree::Group(x), TokenTree::Group(y)) => {
            is_same(x.delimiter, y.delimiter) && same_trees(x.stream.trees(), y.stream.trees())
        }
        _ => false,
    }
}

/// A byte for each delimiter.
fn delimiter_mark(delimiter: Delimiter) -> u8
    ensures { result ≡ spec.delimiter_mark delimiter }
{
    match delimiter {
        Delimiter::Parenthesis => b'(',
        Delimiter::Brace => b'{',
        Delimiter::Bracket => b'[',
        Delimiter::None => 0,
    }
}

/// A byte for each spacing.
fn spacing_mark(spacing: Spacing) -> u8
    ensures { result ≡ spec.spacing_mark spacing }
{
    match spacing {
        Spacing::Alone => 0,
        Spacing::Joint => 1,
    }
}

/// Feeds some trees to a hasher, without their places.
#[cycle(feed)]
#[tactic(auto, using(crate::proofs::Views::insides, crate::proofs::Weights::one_at_least, crate::proofs::Sames::sames), unfolding(crate::specs::Tok::weight))]
fn feed_trees<H: Hasher>(trees: &[TokenTree], state: &mut H)
    ensures { state.new ≡ fold H.write state.old (spec.fed_list (toks_of trees.now)) }
{
    let mut rest = trees;
    while let [tree, more @ ..] = rest {
        feed_tree(tree, state);
        rest = more;
    }
}

/// Feeds a tree to a hasher, without its places.
#[cycle(feed)]
#[tactic(auto, using(crate::proofs::Views::insides, crate::proofs::Sames::sames))]
fn feed_tree<H: Hasher>(tree: &TokenTree, state: &mut H)
    ensures { state.new ≡ fold H.write state.old (spec.fed_tok (tok_of tree.now)) }
{
    match tree {
        TokenTree::Ident(ident) => {
            state.write_u8(0);
            ident.as_str().hash(state);
        }
        TokenTree::Literal(literal) => {
            state.write_u8(1);
            literal.as_str().hash(state);
        }
        TokenTree::Punct(punct) => {
            state.write_u8(2);
            punct.ch.hash(state);
            state.write_u8(spacing_mark(punct.spacing));
        }
        TokenTree::Group(group) => {
            state.write_u8(3);
            state.write_u8(delimiter_mark(group.delimiter));
            feed_trees(group.stream.trees(), state);
            state.write_u8(4);
        }
    }
}

impl PartialEq for TokenStream {
    ghost use Rattle.std.specs.Cmp.{partial_equiv_from_equiv};
    ghost use Rattle.syn_tokens.specs.Same.{same_list, same_list_equiv};

    ghost eq = { same_list };

    ghost laws = { partial_equiv_from_equiv same_list_equiv };

    fn eq(&self, other: &TokenStream) -> bool {
        same_trees(self.trees(), other.trees())
    }
}

impl Eq for TokenStream {
    ghost use Rattle.syn_tokens.specs.Same.{same_list_equiv};

    ghost laws = { same_list_equiv };
}

impl Hash for TokenStream {
    ghost use Rattle.syn_tokens.specs.Same.{fed_list, same_fed_list};

    ghost hash_input = { fed_list };

    ghost respects_eq = { same_fed_list };

    fn hash<H: Hasher>(&self, state: &mut H) {
        feed_trees(self.trees(), state);
    }
}

impl PartialEq for TokenTree {
    ghost use Rattle.std.specs.Cmp.{partial_equiv_from_equiv};
    ghost use Rattle.std.specs.Ordering.{on};
    ghost use Rattle.std.proofs.lemmas.Cmp.{on_equiv};
    ghost use Rattle.syn_tokens.specs.Same.{same_tok, same_tok_equiv};
    ghost use Rattle.syn_tokens.specs.View.{tok_of};

    ghost eq = { on tok_of same_tok };

    ghost laws = { partial_equiv_from_equiv (on_equiv tok_of same_tok_equiv) };

    fn eq(&self, other: &TokenTree) -> bool {
        same_tree(self, other)
    }
}

impl Eq for TokenTree {
    ghost use Rattle.std.proofs.lemmas.Cmp.{on_equiv};
    ghost use Rattle.syn_tokens.specs.Same.{same_tok_equiv};
    ghost use Rattle.syn_tokens.specs.View.{tok_of};

    ghost laws = { on_equiv tok_of same_tok_equiv };
}

impl Hash for TokenTree {
    ghost use Rattle.syn_tokens.specs.Same.{fed_tok, same_fed_tok};
    ghost use Rattle.syn_tokens.specs.View.{tok_of};

    ghost hash_input = { λ t. fed_tok (tok_of t) };

    ghost respects_eq = { λ x y e. same_fed_tok (tok_of x) (tok_of y) e };

    fn hash<H: Hasher>(&self, state: &mut H) {
        feed_tree(self, state);
    }
}

impl PartialEq for Group {
    ghost use Rattle.std.specs.Cmp.{partial_equiv_from_equiv};
    ghost use Rattle.std.specs.Ordering.{on};
    ghost use Rattle.std.proofs.lemmas.Cmp.{on_equiv};
    ghost use Rattle.syn_tokens.specs.Same.{same_tok, same_tok_equiv};
    ghost use Rattle.syn_tokens.specs.View.{tok_of_group};

    ghost eq = { on tok_of_group same_tok };

    ghost laws = { partial_equiv_from_equiv (on_equiv tok_of_group same_tok_equiv) };

    #[tactic(auto, using(crate::proofs::Sames::sames))]
    fn eq(&self, other: &Group) -> bool {
        is_same(self.delimiter, other.delimiter)
            && same_trees(self.stream.trees(), other.stream.trees())
    }
}

impl Eq for Group {
    ghost use Rattle.std.proofs.lemmas.Cmp.{on_equiv};
    ghost use Rattle.syn_tokens.specs.Same.{same_tok_equiv};
    ghost use Rattle.syn_tokens.specs.View.{tok_of_group};

    ghost laws = { on_equiv tok_of_group same_tok_equiv };
}

impl Hash for Group {
    ghost use Rattle.syn_tokens.specs.Same.{fed_tok, same_fed_tok};
    ghost use Rattle.syn_tokens.specs.View.{tok_of_group};

    ghost hash_input = { λ g. fed_tok (tok_of_group g) };

    ghost respects_eq = { λ x y e. same_fed_tok (tok_of_group x) (tok_of_group y) e };

    #[tactic(auto, using(crate::proofs::Sames::sames))]
    fn hash<H: Hasher>(&self, state: &mut H) {
        state.write_u8(3);
        state.write_u8(delimiter_mark(self.delimiter));
        feed_trees(self.stream.trees(), state);
        state.write_u8(4);
    }
}
