//! Whether a whole expression is read back: each node by itself, and its operands in their places.

ghost use Rattle.std.specs.List.{list_all};
ghost use Rattle.std.specs.Prelude.{◌≡◌, is_some, map};
ghost use Rattle.syn_expr_fixup.specs.Below.{guard_at};
ghost use Rattle.syn_expr_ast.specs.Node.{framed, operands_of};
ghost use Rattle.syn_expr_ast.specs.View as of;
ghost use Rattle.syn_expr_ast.specs.View.{boxed, field_value_of, option_child};
ghost use Rattle.syn_expr_wellformed.specs.Slots.{dots_of, slot_of};
ghost use Rattle.syn_expr_wellformed.specs.Walk as spec;
ghost use Rattle.syn_expr_spec.specs.Tree as e;
ghost use Rattle.syn_expr_spec.specs.WellFormed.{children_well, well};
ghost use Rattle.syn_lower_leaves.specs.View.{mapped, trails, values};

use crate::fits::{braces_fit, member_fits};
use crate::heads::HasPatFits;
use crate::own::{before_fit, is_if_expr, own_fits};
use crate::slot::{Slot, operand_slot};
use crate::verbatim::{is_name_path, is_verbatim_block};
use syn_expr_ast::attrs::{all_outer, is_in_order};
use syn_expr_ast::node::Operands;
use syn_expr_ast::structure::FieldValueOf;
use syn_expr_fixup::summary::HasArms;
use syn_lower_leaves::punctuated::Punctuated;
use syn_tokens::token::{Comma, DotDot, Else};

/// A type of expressions that can be tested for whether they are read back.
pub trait HasWell: HasPatFits + HasArms {
    ghost use Rattle.std.specs.Prelude.{◌≡◌, true};
    ghost use Rattle.syn_expr_wellformed.specs.Walk.{is_whole};

    /// Whether the attributes and the pattern of an arm are read back, with no guard in the pattern but the arm's own.
    fn arm_fits(arm: &Self::Arm) -> bool
        ensures { result ≡ spec.arm_head (Self.Arm.view arm.now) };

    /// What is borrowed of a node is all of it.
    ghost whole: { (x : Self) → is_whole (Self.tree x) ≡ true };
}

/// Whether a node is read back but for its operands: the attributes before it are outer ones.
fn node_fits<E: HasWell>(expr: &E) -> bool
    ensures { result ≡ spec.node_fits (E.tree expr.now) }
{
    before_fit(expr.attributes()) && own_fits(expr)
}

/// Whether each of the values that commas follow is read back.
#[cycle(is_well)]
fn pairs_well<E: HasWell>(mut pairs: &[(E, Comma)]) -> bool
    ensures { result ≡ list_all (λ q. well (E.tree q.0)) pairs.entry.now }
{
    'pairs: while let [(element, _), more @ ..] = pairs {
        if !is_well(element) {
            return false;
        }
        pairs = more;
    }
    true
}

/// Whether each value of a list is read back.
#[cycle(is_well)]
#[tactic(auto, using(crate::proofs::Operands::lists))]
fn list_well<E: HasWell>(elements: &Punctuated<E, Comma>) -> bool
    ensures { result ≡ list_all (λ x. well (E.tree x)) (values elements.now) }
{
    if !pairs_well(&elements.inner) {
        return false;
    }
    match &elements.last {
        Some(element) => is_well::<E>(element),
        None => true,
    }
}

/// Whether the elements of a list are read back in their places.
#[cycle(is_well)]
#[tactic(auto, using(crate::proofs::Operands::element_lists))]
fn elements_well<E: HasWell>(slot: Slot, elements: &Punctuated<E, Comma>) -> bool
    ensures { result ≡ children_well (slot_of slot) (of.elements (map E.tree (values elements.now)) (trails elements.now)) }
{
    if slot.is_elements() {
        list_well(elements)
    } else {
        elements.is_empty() && slot.may_stop()
    }
}

/// Whether a field of a struct expression is read back.
#[cycle(is_well)]
fn field_well<E: HasWell>(field: &FieldValueOf<E>) -> bool
    ensures { result ≡ spec.field_well (field_value_of E.tree field.now) }
{
    all_outer(&field.attrs)
        && member_fits(&field.member)
        && (field.colon_token.is_some() || is_name_path(&field.member, &field.expr))
        && is_well(&field.expr)
}

/// Whether each of the fields that commas follow is read back.
#[cycle(is_well)]
fn field_pairs_well<E: HasWell>(mut pairs: &[(FieldValueOf<E>, Comma)]) -> bool
    ensures { result ≡ list_all (λ q. spec.field_well (field_value_of E.tree q.0)) pairs.entry.now }
{
    'pairs: while let [(field, _), more @ ..] = pairs {
        if !field_well(field) {
            return false;
        }
        pairs = more;
    }
    true
}

/// Whether each field of a list is read back.
#[cycle(is_well)]
#[tactic(auto, using(crate::proofs::Operands::lists))]
fn field_list_well<E: HasWell>(fields: &Punctuated<FieldValueOf<E>, Comma>) -> bool
    ensures { result ≡ list_all (λ x. spec.field_well (field_value_of E.tree x)) (values fields.now) }
{
    if !field_pairs_well(&fields.inner) {
        return false;
    }
    match &fields.last {
        Some(field) => field_well::<E>(field),
        None => true,
    }
}

/// Whether what the other fields are taken of is read back, if there is such.
#[cycle(is_well)]
fn rest_well<E: HasWell>(rest: &Option<Box<E>>) -> bool
    ensures { result ≡ spec.option_well (boxed E.tree rest.now) }
{
    match rest {
        Some(rest) => is_well::<E>(rest),
        None => true,
    }
}

/// Whether the fields of a struct expression are read back in their places, and what the others are taken of.
#[cycle(is_well)]
#[tactic(auto, using(crate::proofs::Operands::field_lists))]
fn fields_well<E: HasWell>(
    slot: Slot,
    fields: &Punctuated<FieldValueOf<E>, Comma>,
    dots: &Option<DotDot>,
    rest: &Option<Box<E>>,
) -> bool
    ensures { result ≡ spec.operands_well (slot_of slot) (dots_of slot) (framed (of.fields (map (field_value_of E.tree) (values fields.now)) (trails fields.now) (option_child (e.rest (is_some dots.now)) (boxed E.tree rest.now)))) }
{
    if slot.is_fields() {
        !(slot.has_dots() && rest.is_some()) && field_list_well(fields) && rest_well(rest)
    } else {
        fields.is_empty() && rest.is_none() && slot.may_stop()
    }
}

/// Whether what comes after `else` is read back: an `if`, or a block that keeps its tokens.
#[cycle(is_well)]
fn chain_well<E: HasWell>(expr: &E) -> bool
    ensures { result ≡ spec.chain_well (E.tree expr.now) }
{
    is_verbatim_block(expr) || is_if_expr(expr) && is_well(expr)
}

/// Whether what comes after `else` is read back, if there is such.
#[cycle(is_well)]
fn else_well<E: HasWell>(otherwise: &Option<(Else, Box<E>)>) -> bool
    ensures { result ≡ spec.else_well (mapped (λ q. E.tree q.1.value) otherwise.now) }
{
    match otherwise {
        Some((_, x)) => chain_well::<E>(x),
        None => true,
    }
}

/// Whether the guard of an arm is read back, if it has one.
#[cycle(is_well)]
fn guard_well<E: HasWell>(arm: &E::Arm) -> bool
    ensures { result ≡ spec.option_well (guard_at (E.Arm.view arm.now)) }
{
    match E::guard(arm) {
        Some(guard) => is_well(guard),
        None => true,
    }
}

/// Whether an arm is read back.
#[cycle(is_well)]
fn arm_well<E: HasWell>(arm: &E::Arm) -> bool
    ensures { result ≡ spec.arm_well (E.Arm.view arm.now) }
{
    E::arm_fits(arm) && guard_well::<E>(arm) && is_well(E::body(arm))
}

/// Whether each arm is read back.
#[cycle(is_well)]
fn arms_well<E: HasWell>(mut arms: &[E::Arm]) -> bool
    ensures { result ≡ list_all (λ x. spec.arm_well (E.Arm.view x)) arms.entry.now }
{
    'arms: while let [arm, more @ ..] = arms {
        if !arm_well::<E>(arm) {
            return false;
        }
        arms = more;
    }
    true
}

/// Whether the operands of a node are read back in their places.
#[cycle(is_well)]
#[tactic(auto, using(crate::proofs::Operands::operands, syn_expr_fixup::proofs::Lists::lists, syn_expr_fixup::proofs::Nodes::based))]
fn operands_well<E: HasWell>(slot: Slot, operands: Operands<'_, E, E::Arm>) -> bool
    ensures { result ≡ spec.operands_well (slot_of slot) (dots_of slot) (operands_of E.tree E.Arm.view operands.entry) }
{
    match operands {
        Operands::None => true,
        Operands::One(x) => is_well::<E>(x) && slot.may_stop(),
        Operands::Two(x, y) => is_well::<E>(x) && is_well::<E>(y),
        Operands::Call(x, arguments) => is_well::<E>(x) && elements_well(slot, arguments),
        Operands::Index(x, index) => { is_well::<E>(x) && slot.is_single() && is_well::<E>(index) }
        Operands::Elements(elements) => elements_well(slot, elements),
        Operands::Grouped(_) => false,
        Operands::Repeated(x, _, len) => {
            slot.is_counted() && is_well::<E>(x) && is_well::<E>(len)
        }
        Operands::Fields(fields, dots, rest) => fields_well(slot, fields, dots, rest),
        Operands::If(x, _, otherwise) => {
            slot.is_conditions() && is_well::<E>(x) && else_well(otherwise)
        }
        Operands::Loop(x, braces) => {
            let fits = braces_fit(braces);
            slot.is_loops() && fits && is_well::<E>(x)
        }
        Operands::Arms(x, attrs, arms) => {
            slot.is_scrutinees() && is_in_order(attrs) && is_well::<E>(x) && arms_well::<E>(arms)
        }
        Operands::Body(x) => slot.is_outputs() && is_verbatim_block::<E>(x),
    }
}

/// Whether an expression is read back: its node by itself, and its operands in their places.
#[cycle(is_well)]
#[tactic(auto, using(crate::proofs::Wholes::wholes, syn_expr_fixup::proofs::Nodes::nodes))]
pub fn is_well<E: HasWell>(expr: &E) -> bool
    ensures { result ≡ well (E.tree expr.now) }
{
    node_fits(expr) && operands_well(operand_slot(expr), expr.operands())
}
