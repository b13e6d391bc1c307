//! Attributes (Rust Reference, "Attributes"): those before a node, and the inner ones, which come first in its braces.

ghost use Rattle.std.specs.Prelude.{◌≡◌, ◌++◌, [], map, OnOk, true, IfOk};
ghost use Rattle.syn_expr_ast.specs.Attrs.{attrs_of, inner_of, outer_of, inner_printed, outer_printed};
ghost use Rattle.syn_expr_ast.specs.Node.{before_of, braces_of};
ghost use Rattle.syn_expr_spec.specs.Tree as spec;
ghost use Rattle.syn_expr_spec.specs.Tree.{inners, outers};
ghost use Rattle.syn_expr_spec.specs.WellFormed.{attributes_inner};
ghost use Rattle.syn_lower_leaves.specs.ReadBack.{all_printed};
ghost use Rattle.syn_lower_leaves.specs.View.{attribute_of};
ghost use Rattle.syn_lower_spec.specs.Form.{is_nil};
ghost use Rattle.syn_lower_spec.specs.PatFits.{attributes_outer};
ghost use Rattle.syn_lower_spec.specs.PatOwn.{attributes_own};
ghost use Rattle.syn_tokens.specs.Input.{IsFront};

use crate::node::{Attributes, Braces};
use crate::put::{PutResult, put};
use std::alloc::AllocError;
use syn_lower::attr::{AttrStyle, Attribute};
use syn_tokens::buffer::ToTokens;
use syn_tokens::tree::TokenStream;

/// Whether it is an inner one.
pub fn is_inner(attr: &Attribute) -> bool
    ensures { result ≡ (attribute_of attr.now).inner }
{
    matches!(attr.style, AttrStyle::Inner(_))
}

/// The attributes from the first inner one on.
pub fn from_inner(attrs: &[Attribute]) -> &[Attribute]
    ensures { map attribute_of result.now ≡ spec.from_inner (map attribute_of attrs.now) }
{
    let mut rest = attrs;
    'rest: while let [attr, more @ ..] = rest {
        if is_inner(attr) {
            return rest;
        }
        rest = more;
    }
    rest
}

/// Whether all are inner ones.
fn all_inner(mut attrs: &[Attribute]) -> bool
    ensures { result ≡ attributes_inner (map attribute_of attrs.entry.now) }
{
    'attrs: while let [attr, more @ ..] = attrs {
        if !is_inner(attr) {
            return false;
        }
        attrs = more;
    }
    true
}

/// Whether no outer one comes after an inner one.
#[tactic(auto, unfolding(crate::specs::Attrs::inner_of))]
pub fn is_in_order(attrs: &Vec<Attribute>) -> bool
    ensures { result ≡ attributes_inner (inner_of attrs.now) }
{
    all_inner(from_inner(attrs))
}

/// Whether all are outer ones.
#[tactic(auto, unfolding(crate::specs::Attrs::attrs_of))]
pub fn all_outer(attrs: &Vec<Attribute>) -> bool
    ensures { result ≡ attributes_outer (attrs_of attrs.now) }
{
    for attr in attrs {
        if is_inner(attr) {
            return false;
        }
    }
    true
}

impl Attributes<'_> {
    /// Whether none come before the node.
    #[tactic(auto, using(crate::proofs::Attributes::bares), unfolding(crate::specs::Attrs::attrs_of, crate::specs::Attrs::outer_of))]
    pub fn has_none_before(self) -> bool
        ensures { result ≡ is_nil (before_of self.entry) }
    {
        match self {
            Attributes::None => true,
            Attributes::Before(attrs) => attrs.is_empty(),
            Attributes::Around(attrs) => all_inner(attrs),
        }
    }

    /// Whether none are printed before the node: its inner ones are in its braces, or nowhere.
    #[tactic(auto, using(crate::proofs::Attributes::bares), unfolding(crate::specs::Attrs::attrs_of, crate::specs::Attrs::outer_of))]
    pub fn prints_none_before(self) -> bool
        ensures { result ≡ is_nil (outers (before_of self.entry)) }
    {
        match self {
            Attributes::None => true,
            Attributes::Before(attrs) | Attributes::Around(attrs) => all_inner(attrs),
        }
    }
}

impl Braces<'_> {
    /// Whether none of the attributes of the node come first in them.
    #[tactic(auto, using(crate::proofs::Attributes::inside), unfolding(crate::specs::Attrs::attrs_of, crate::specs::Attrs::inner_of))]
    pub fn is_bare(self) -> bool
        ensures { result ≡ is_nil (braces_of self.entry).inner }
    {
        all_outer(self.attrs)
    }
}

/// Puts parts, one after another.
#[tactic(auto, using(syn_tokens::proofs::Fronts::fronts))]
fn put_parts<T: ToTokens>(tokens: &mut TokenStream, mut parts: &[T]) -> PutResult
    ensures ok { OnOk result (tokens.new ≡ tokens.old ++ all_printed T.printed parts.entry.now) }
    ensures front { IsFront tokens.old tokens.new }
{
    'parts: while let [part, more @ ..] = parts {
        put(tokens, part)?;
        parts = more;
    }
    Ok(())
}

/// Puts attributes, one after another.
#[tactic(auto, using(crate::proofs::Attributes::attrs))]
pub fn put_all(tokens: &mut TokenStream, attrs: &[Attribute]) -> PutResult
    ensures ok { OnOk result (tokens.new ≡ tokens.old ++ attributes_own (map attribute_of attrs.now) []) }
    ensures front { IsFront tokens.old tokens.new }
{
    put_parts(tokens, attrs)
}

/// Puts the outer ones, one after another.
#[tactic(auto, using(syn_tokens::proofs::Fronts::fronts))]
fn put_outer_ones(tokens: &mut TokenStream, mut attrs: &[Attribute]) -> PutResult
    ensures ok { OnOk result (tokens.new ≡ tokens.old ++ outer_printed attrs.entry.now) }
    ensures front { IsFront tokens.old tokens.new }
{
    'attrs: while let [attr, more @ ..] = attrs {
        if !is_inner(attr) {
            put(tokens, attr)?;
        }
        attrs = more;
    }
    Ok(())
}

/// Puts the inner ones, one after another.
#[tactic(auto, using(syn_tokens::proofs::Fronts::fronts))]
fn put_inner_ones(tokens: &mut TokenStream, mut attrs: &[Attribute]) -> PutResult
    ensures ok { OnOk result (tokens.new ≡ tokens.old ++ inner_printed attrs.entry.now) }
    ensures front { IsFront tokens.old tokens.new }
{
    'attrs: while let [attr, more @ ..] = attrs {
        if is_inner(attr) {
            put(tokens, attr)?;
        }
        attrs = more;
    }
    Ok(())
}

/// Puts those of a node or of a field that come before it: the outer ones.
#[tactic(auto, using(crate::proofs::Attributes::styles), unfolding(crate::specs::Attrs::outer_of))]
pub fn put_outer(tokens: &mut TokenStream, attrs: &Vec<Attribute>) -> PutResult
    ensures ok { OnOk result (tokens.new ≡ tokens.old ++ attributes_own (outer_of attrs.now) []) }
    ensures front { IsFront tokens.old tokens.new }
{
    put_outer_ones(tokens, attrs)
}

/// Puts those of a node with braces that come first in them: the inner ones.
#[tactic(auto, using(crate::proofs::Attributes::styles), unfolding(crate::specs::Attrs::inner_of))]
pub fn put_inner(tokens: &mut TokenStream, attrs: &Vec<Attribute>) -> PutResult
    ensures ok { OnOk result (tokens.new ≡ tokens.old ++ attributes_own (inners (inner_of attrs.now)) []) }
    ensures front { IsFront tokens.old tokens.new }
{
    put_inner_ones(tokens, attrs)
}

/// Puts the attributes that come before a node. An inner one is in braces, so none is put.
#[tactic(auto, using(crate::proofs::Attributes::once), unfolding(crate::specs::Attrs::attrs_of, crate::specs::Attrs::outer_of))]
pub fn put_attributes(tokens: &mut TokenStream, attributes: Attributes<'_>) -> PutResult
    ensures ok { OnOk result (tokens.new ≡ tokens.old ++ attributes_own (outers (before_of attributes.entry)) []) }
    ensures front { IsFront tokens.old tokens.new }
{
    match attributes {
        Attributes::None => Ok(()),
        Attributes::Before(attrs) | Attributes::Around(attrs) => put_outer(tokens, attrs),
    }
}

/// The attributes, and more after them.
pub fn joined(
    mut attrs: Vec<Attribute>,
    mut more: Vec<Attribute>,
) -> Result<Vec<Attribute>, AllocError>
    ensures all { IfOk result (λ v. attrs_of v ≡ attrs_of attrs ++ attrs_of more) }
    ensures outer { IfOk result (λ v. outer_of v ≡ outer_of attrs ++ outer_of more) }
    ensures inner { attributes_outer (attrs_of attrs) ≡ true → IfOk result (λ v. inner_of v ≡ inner_of more) }
{
    attrs.append(&mut more)?;
    Ok(attrs)
}
