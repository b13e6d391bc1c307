//! Whether parts are read back from their own tokens: lists of parts, and the parts that hold no types.

ghost use Rattle.std.specs.List.{list_all};
ghost use Rattle.std.specs.Prelude.{◌≡◌, true, false, not, ◌&&◌, ◌||◌, map, [], ◌∷◌};
ghost use Rattle.syn_lower_spec.specs.Fits as spec;
ghost use Rattle.syn_lower_spec.specs.Part.{is_arg_name};
ghost use Rattle.syn_tokens.specs.View.{tok_of};
ghost use Rattle.syn_lower_leaves.specs.Punct.{is_one};
ghost use Rattle.syn_lower_leaves.specs.View.{values, trails, mapped, abi_of};

use crate::leaf::{is_number, is_truth};
use crate::punctuated::Punctuated;
use crate::ty::Abi;
use syn_lexer::front::is_reserved_word;
use syn_lower_spec::label::PathStyle;
use syn_tokens::token::Colon;
use syn_tokens::tree::{Ident, TokenStream, TokenTree};
use syn_tokens::{Delimiter, Spacing};

/// What is in a list.
pub trait Element {
    ghost use Rattle.std.specs.Prelude.{◌≡◌, Bool};

    /// Whether it is read back there.
    ghost fits: { Self → Bool };

    /// Whether it is read back there.
    fn fits(&self) -> bool
        ensures { result ≡ fits self.now };
}

/// Whether each value of these is read back.
fn pairs_fit<T: Element, P>(mut pairs: &[(T, P)]) -> bool
    ensures { result ≡ list_all T.fits (map (λ q. q.0) pairs.entry.now) }
{
    'pairs: while let [(value, _), more @ ..] = pairs {
        if !value.fits() {
            return false;
        }
        pairs = more;
    }
    true
}

/// Whether each value of a list is read back.
#[tactic(auto, using(crate::proofs::Fitting::lists), unfolding(crate::specs::View::values))]
pub fn all_fit<T: Element, P>(list: &Punctuated<T, P>) -> bool
    ensures { result ≡ list_all T.fits (values list.now) }
{
    if !pairs_fit(&list.inner) {
        return false;
    }
    match &list.last {
        Some(value) => value.fits(),
        None => true,
    }
}

/// Whether a list is one value, and no punct after it.
#[tactic(auto, unfolding(crate::specs::View::values, crate::specs::View::trails))]
pub fn is_one<T, P>(list: &Punctuated<T, P>) -> bool
    ensures { result ≡ is_one (values list.now) (trails list.now) }
{
    list.inner.is_empty() && list.last.is_some()
}

/// Whether bounds with `+` between them, several or one, are read back.
#[tactic(auto, using(crate::proofs::Fitting::bounds))]
pub fn bounds_fit<B: Element, P>(bounds: &Punctuated<B, P>, several: bool) -> bool
    ensures { result ≡ (not (trails bounds.now) && (not (spec.is_none (values bounds.now)) && ((several || is_one (values bounds.now) (trails bounds.now)) && list_all B.fits (values bounds.now)))) }
{
    match &bounds.last {
        Some(_) => (several || is_one(bounds)) && all_fit(bounds),
        None => false,
    }
}

/// The style of a segment where this many come before `>`.
pub fn style_at(left: usize, style: PathStyle) -> PathStyle
    ensures { result ≡ spec.style_at left style }
{
    if left == 0 { style } else { PathStyle::Type }
}

/// Whether `extern` and its name are read back: the name is a string.
#[tactic(auto, unfolding(syn_lower_spec::specs::Fits::lit_fits))]
fn abi_fits(abi: &Abi) -> bool
    ensures { result ≡ spec.fits_if spec.is_string (abi_of abi.now) }
{
    match &abi.name {
        Some(name) => name.is_read_back(),
        None => true,
    }
}

/// The same of one that may be missing.
pub fn some_abi_fits(abi: &Option<Abi>) -> bool
    ensures { result ≡ spec.fits_if (spec.fits_if spec.is_string) (mapped abi_of abi.now) }
{
    match abi {
        Some(abi) => abi_fits(abi),
        None => true,
    }
}

/// Whether the name of an argument is an identifier or `_`, if it has one.
pub fn name_fits(name: &Option<(Ident, Colon)>) -> bool
    ensures { result ≡ spec.fits_if is_arg_name (mapped (λ n. n.0) name.now) }
{
    match name {
        Some((name, _)) => !is_reserved_word(name.as_str()) || name.as_str() == "_",
        None => true,
    }
}

/// Whether a token is a literal or a brace group.
fn is_const_tree(tree: &TokenTree) -> bool
    ensures { result ≡ spec.is_const (tok_of tree.now ∷ []) }
{
    match tree {
        TokenTree::Literal(_) => true,
        TokenTree::Ident(word) => is_truth(word.as_str()),
        TokenTree::Group(group) => group.delimiter == Delimiter::Brace,
        TokenTree::Punct(_) => false,
    }
}

/// Whether two tokens are `-`, by itself, and a number.
fn is_negative(minus: &TokenTree, number: &TokenTree) -> bool
    ensures { result ≡ spec.is_const (tok_of minus.now ∷ tok_of number.now ∷ []) }
{
    match minus {
        TokenTree::Punct(minus) => match number {
            TokenTree::Literal(number) => minus.spacing == Spacing::Alone
                && minus.ch == '-'
                && is_number(number.as_str()),
            _ => false,
        },
        _ => false,
    }
}

/// Whether tokens are a constant argument: a literal, `-` by itself and a number, or a brace group.
#[tactic(auto, using(crate::proofs::Fitting::consts))]
pub fn is_const(tokens: &TokenStream) -> bool
    ensures { result ≡ spec.is_const tokens.now }
{
    match tokens.trees() {
        [tree] => is_const_tree(tree),
        [minus, number] => is_negative(minus, number),
        _ => false,
    }
}

/// Whether the style of a path takes arguments between `<` and `>`, with `::` in front or without it.
pub fn takes_angle(style: PathStyle, has_colons: bool) -> bool
    ensures { result ≡ spec.takes_angle style has_colons }
{
    match style {
        PathStyle::Mod => false,
        PathStyle::Expr => has_colons,
        PathStyle::Type => true,
    }
}

/// Whether the style of a path takes arguments in parentheses.
pub fn takes_round(style: PathStyle) -> bool
    ensures { result ≡ spec.takes_round style }
{
    match style {
        PathStyle::Mod => false,
        PathStyle::Expr => false,
        PathStyle::Type => true,
    }
}

impl Abi {
    /// Whether its name is a string literal, if it has one.
    pub fn is_read_back(&self) -> bool
        ensures { result ≡ spec.fits_if spec.is_string (abi_of self.now) }
    {
        abi_fits(self)
    }
}
