//! How tightly expressions bind (Rust Reference, "Expression precedence").

ghost use Rattle.std.specs.Prelude.{◌≡◌, ◌≤◌, if◌then◌else◌, Some};
ghost use Rattle.std.specs.Ordering.{nat_cmp};
ghost use Rattle.syn_expr.specs.Levels.{behind, has_outer, kind_level, tree_level};
ghost use Rattle.syn_expr_core.specs.View.{tree_of};
ghost use Rattle.syn_expr_ast.specs.Attrs.{attrs_of};
ghost use Rattle.syn_expr_spec.specs.Op as grammar;
ghost use Rattle.syn_expr_spec.specs.Place.{rank};
ghost use Rattle.syn_expr_tokens.specs.View.{bin_kind};

use syn_expr_ast::label::{LeafKind, NodeKind};
use syn_expr_ast::node::{Attributes, HasKind, HasNode};
use syn_expr_core::expr::Expr;
use syn_expr_spec::kinds::Precedence;
use syn_expr_tokens::op::{BinOp, binary_level, level};
use syn_lower::attr::{AttrStyle, Attribute};

/// The precedence of an operator and of an expression: `Precedence::of_binop` and `Precedence::of`, where this trait is in
/// scope.
pub trait PrecedenceOf: Sized {
    /// The precedence of a binary operator (Rust Reference, "Expression precedence").
    fn of_binop(op: &BinOp) -> Precedence
        ensures { result ≡ grammar.binary_level (bin_kind op.now) };

    /// The precedence of an expression: that of its operator, of a prefix operator, a `let`, or a jump or a closure that ends
    /// with an operand; of another kind `Prefix` where it has an outer attribute, else `Unambiguous`.
    fn of(expr: &Expr) -> Precedence
        ensures { result ≡ tree_level (tree_of expr.now) };
}

impl PrecedenceOf for Precedence {
    fn of_binop(op: &BinOp) -> Precedence {
        binary_level(op.kind())
    }

    fn of(expr: &Expr) -> Precedence {
        level_in(expr)
    }
}

/// The level of a node by itself.
fn node_level(kind: NodeKind) -> Precedence
    ensures { result ≡ kind_level kind }
{
    match kind {
        NodeKind::Leaf(LeafKind::FullRange) => Precedence::Range,
        NodeKind::Prefix(prefix) => prefix.level(),
        NodeKind::Infix(op) => level(op),
        NodeKind::Postfix(postfix) => level(postfix.op()),
        _ => Precedence::Unambiguous,
    }
}

/// The level of a node after attributes, of which `outer` says whether one is an outer one.
fn behind_attributes(level: Precedence, outer: bool) -> Precedence
    ensures { result ≡ (if outer then behind level else level) }
{
    match level {
        Precedence::Unambiguous if outer => Precedence::Prefix,
        level => level,
    }
}

/// Whether one of the attributes is an outer one.
#[tactic(auto, unfolding(syn_expr_ast::specs::Attrs::attrs_of))]
fn has_outer(attrs: &Vec<Attribute>) -> bool
    ensures { result ≡ has_outer (attrs_of attrs.now) }
{
    for attr in attrs {
        if matches!(attr.style, AttrStyle::Outer) {
            return true;
        }
    }
    false
}

/// The level of a node after its attributes.
#[tactic(auto, using(crate::proofs::Levels::levels), unfolding(syn_expr_ast::specs::Attrs::attrs_of, syn_expr_ast::specs::Attrs::outer_of))]
fn level_in<E: HasNode + HasKind>(expr: &E) -> Precedence
    ensures { result ≡ tree_level (E.tree expr.now) }
{
    let level = node_level(expr.kind());
    match expr.attributes() {
        Attributes::None => level,
        Attributes::Before(attrs) | Attributes::Around(attrs) => behind_attributes(
            level,
            has_outer(attrs),
        ),
    }
}

/// Of two levels the one that binds tighter is the greater (Rust Reference, "Expression precedence").
pub fn levels_are_in_order()
    ensures { (a b : Precedence) → ⟦<Precedence as PartialOrd>⟧.partial_cmp a b ≡ Some (nat_cmp (rank a) (rank b)) }
{}

/// No level is below `Precedence::MIN`, in the order of `levels_are_in_order`.
pub fn none_is_below_min()
    ensures { (v : Precedence) → rank Precedence.MIN ≤ rank v }
{}
