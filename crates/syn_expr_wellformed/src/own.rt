//! Whether a node is read back but for its operands, and whether its attributes are.

ghost use Rattle.std.specs.Prelude.{◌≡◌};
ghost use Rattle.syn_expr_ast.specs.Node.{leaf_of, before_of};
ghost use Rattle.syn_expr_wellformed.specs.Well as spec;
ghost use Rattle.syn_expr_spec.specs.Stands.{is_if_expr};
ghost use Rattle.syn_lower_leaves.specs.View.{mapped};
ghost use Rattle.syn_lower_spec.specs.PatFits.{attributes_outer};

use crate::fits::{infix_fits, leaf_fits, postfix_fits, trailer_fits};
use crate::heads::{HasPatFits, frame_fits, prefix_fits};
use syn_expr_ast::attrs::all_outer;
use syn_expr_ast::label::NodeKind;
use syn_expr_ast::node::{Attributes, HasShape, Leaf};

/// Whether an operator of this kind of node is read back; where it is none, nothing is asked.
fn kind_fits(kind: NodeKind) -> bool
    ensures { result ≡ spec.kind_fits kind }
{
    match kind {
        NodeKind::Infix(op) => infix_fits(op),
        NodeKind::Leaf(_)
        | NodeKind::Paren
        | NodeKind::Prefix(_)
        | NodeKind::Postfix(_)
        | NodeKind::Tail(_)
        | NodeKind::Frame(_) => true,
    }
}

/// Whether a node is read back but for its operands and the attributes before it.
#[tactic(auto, using(crate::proofs::Owns::owns))]
pub fn own_fits<E: HasPatFits>(expr: &E) -> bool
    ensures { result ≡ spec.own_fits (E.tree expr.now) }
{
    if let Some(leaf) = expr.leaf() {
        return leaf_fits(leaf);
    }
    if let Some(prefix) = expr.prefix() {
        return prefix_fits::<E>(prefix);
    }
    if let Some(postfix) = expr.postfix() {
        return postfix_fits(postfix);
    }
    if let Some(trailer) = expr.trailer() {
        return trailer_fits(trailer);
    }
    if let Some(frame) = expr.frame() {
        return frame_fits::<E>(frame);
    }
    kind_fits(expr.kind())
}

/// What holds no expression, and has no attributes before it.
#[tactic(auto, using(crate::proofs::Owns::bares))]
pub fn bare_leaf<E: HasShape>(expr: &E) -> Option<Leaf<'_>>
    ensures { mapped leaf_of result ≡ spec.bare_leaf (E.tree expr.now) }
{
    if !expr.attributes().has_none_before() {
        return None;
    }
    expr.leaf()
}

/// Whether it is an `if` without attributes.
#[tactic(auto, using(crate::proofs::Owns::bares))]
pub fn is_if_expr<E: HasShape>(expr: &E) -> bool
    ensures { result ≡ is_if_expr (E.tree expr.now) }
{
    if !expr.attributes().has_none_before() {
        return false;
    }
    match expr.frame() {
        Some(frame) => frame.is_if(),
        None => false,
    }
}

/// Whether the attributes before a node are outer ones, as those of a node with braces always are.
#[tactic(auto, using(crate::proofs::Operands::outers), unfolding(syn_expr_ast::specs::Attrs::attrs_of, syn_expr_ast::specs::Attrs::outer_of))]
pub(crate) fn before_fit(attributes: Attributes<'_>) -> bool
    ensures { result ≡ attributes_outer (before_of attributes.entry) }
{
    match attributes {
        Attributes::None => true,
        Attributes::Before(attrs) => all_outer(attrs),
        Attributes::Around(_) => true,
    }
}
