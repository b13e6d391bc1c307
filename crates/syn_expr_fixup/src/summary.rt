//! The summary of a node, by its kind, its operands' summaries and the attributes before it; and the pass over an expression
//! that makes them all.

ghost use Rattle.std.specs.Prelude.{◌≡◌, ◌+◌, ◌-◌, ◌^◌, ◌&&◌, min, not, if◌then◌else◌, ◌++◌, ◌∷◌, IfOk, OnOk, [], false, map};
ghost use Rattle.syn_expr_spec.specs.Summaries as spec;
ghost use Rattle.syn_expr_spec.specs.Tree.{Leaf, Prefix, Postfix, Trailer, Frame, Tree, size};
ghost use Rattle.syn_expr_spec.specs.declared.kinds.Precedence.TheVariants as lev;
ghost use Rattle.syn_expr_ast.specs.Label.{leaf_kind, prefix_kind, postfix_kind, trailer_kind, frame_kind, tail_summary, frame_summary, kind_at};
ghost use Rattle.syn_expr_fixup.specs.Below.{guard_at, AreFirst, operands_below, operands_size, backwards, total, field_below, field_size, option_below, option_size, arm_below, arm_size, plain_summary, summarized_behind};
ghost use Rattle.syn_lower_leaves.specs.View.{mapped, values};
ghost use Rattle.syn_expr_ast.specs.Node.{operands_of, operands_at, before_of};
ghost use Rattle.syn_expr_spec.specs.Summaries.{summary_of, stack, closed_summary};
ghost use Rattle.syn_expr_fixup.specs.Strays.{strays_at};
ghost use Rattle.syn_expr_fixup.specs.Spine.{IsSecond, Prefixes, above, behind_below, behind_size};
ghost use Rattle.syn_expr_ast.specs.View.{boxed, field_value_of};
ghost use Rattle.syn_expr_ast.specs.declared.label.NodeKind.TheVariants as node;
ghost use Rattle.syn_expr_spec.specs.declared.summary.Sort.TheVariants as sort;

use crate::context::{
    base_wrapped_by, end_set, leaf_ends, left_wrapped_by, postfix_ends, takes_label,
};
use std::alloc::{AllocError, Global};
use syn_expr_ast::label::{FrameKind, LeafKind, NodeKind, PostfixKind, PrefixKind, TrailerKind};
use syn_expr_ast::node::{Attributes, HasKind, HasNode, Operands};
use syn_expr_ast::structure::FieldValueOf;
use syn_expr_spec::kinds::{Infix, Precedence};
use syn_expr_spec::summary::{Sort, Summary};
use syn_expr_tokens::op::{is_comparison, is_range_op, level, lower};
use syn_lower_leaves::punctuated::Punctuated;
use syn_tokens::token::Comma;

/// One visit more; a count that has reached its greatest value stays there.
pub fn tick(visits: &mut u64)
    ensures { visits.new ≡ min (visits.old + 1) (2 ^ 64 - 1) }
{
    *visits = visits.saturating_add(1);
}

/// The summary of a node that is closed at both ends.
pub fn closed_summary(named_field: bool, labelled: bool, sort: Sort) -> Summary
    ensures { result ≡ spec.closed_summary named_field labelled sort }
{
    Summary {
        low: Precedence::Unambiguous,
        ends: 0,
        operation: false,
        range: false,
        comparison: false,
        carries: true,
        base: true,
        named_field,
        labelled,
        sort,
    }
}

/// The summary of a leaf.
pub fn leaf_summary(kind: LeafKind) -> Summary
    ensures { (k : Leaf) → leaf_kind k ≡ kind → result ≡ spec.leaf_summary k }
{
    let range = kind.is_range();
    Summary {
        low: Precedence::Unambiguous,
        ends: leaf_ends(kind),
        operation: range,
        range,
        comparison: false,
        carries: !range,
        base: kind.is_base(),
        named_field: false,
        labelled: kind.is_labelled(),
        sort: kind.sort(),
    }
}

/// What a node is after attributes: no brace is first.
fn attributed_sort(sort: Sort) -> Sort
    ensures { result ≡ spec.attributed_sort sort }
{
    match sort {
        Sort::Block => Sort::BlockLike,
        other => other,
    }
}

/// The summary of a node after attributes: an operation is in parentheses there.
pub fn attributed_summary(x: Summary) -> Summary
    ensures { result ≡ spec.attributed_summary x }
{
    Summary {
        low: Precedence::Unambiguous,
        ends: if x.operation { 0 } else { x.ends },
        operation: false,
        range: false,
        comparison: false,
        carries: x.operation || x.carries,
        base: false,
        named_field: false,
        labelled: false,
        sort: if x.operation {
            Sort::Other
        } else {
            attributed_sort(x.sort)
        },
    }
}

/// The summary of a node that ends with its operand.
pub fn prefix_summary(kind: PrefixKind, x: Summary) -> Summary
    ensures { (k : Prefix) → prefix_kind k ≡ kind → result ≡ spec.prefix_summary k x }
{
    let range = kind.is_range();
    let carries = kind.carries();
    Summary {
        low: Precedence::Unambiguous,
        ends: end_set(kind.level(), x, takes_label(kind, x)),
        operation: range,
        range,
        comparison: false,
        carries,
        base: carries,
        named_field: false,
        labelled: false,
        sort: kind.sort(),
    }
}

/// The lowest operator on the left edge of a first operand.
fn first_low(x: Summary, wrapped: bool) -> Precedence
    ensures { result ≡ (if wrapped then lev.Unambiguous else x.low) }
{
    if wrapped {
        Precedence::Unambiguous
    } else {
        x.low
    }
}

/// Whether the first token of a first operand is that of a label.
fn first_labelled(x: Summary, wrapped: bool) -> bool
    ensures { result ≡ (not wrapped && x.labelled) }
{
    !wrapped && x.labelled
}

/// The summary of an operation with two operands.
// Made at each operation of a tree, so without a call.
#[inline(always)]
pub fn infix_summary(op: Infix, x: Summary, y: Summary) -> Summary
    ensures { result ≡ spec.infix_summary op x y }
{
    let wrapped = left_wrapped_by(op, x);
    let own = level(op);
    Summary {
        low: lower(own, first_low(x, wrapped)),
        ends: end_set(own, y, false),
        operation: true,
        range: is_range_op(op),
        comparison: is_comparison(op),
        carries: false,
        base: false,
        named_field: false,
        labelled: first_labelled(x, wrapped),
        sort: Sort::Other,
    }
}

/// The summary of a cast or of a range without an end.
pub fn postfix_summary(kind: PostfixKind, x: Summary) -> Summary
    ensures { (k : Postfix) → postfix_kind k ≡ kind → result ≡ spec.postfix_summary k x }
{
    let op = kind.op();
    let wrapped = left_wrapped_by(op, x);
    Summary {
        low: lower(level(op), first_low(x, wrapped)),
        ends: postfix_ends(kind),
        operation: true,
        range: is_range_op(op),
        comparison: false,
        carries: kind.is_cast(),
        base: false,
        named_field: false,
        labelled: first_labelled(x, wrapped),
        sort: Sort::Other,
    }
}

/// The summary of a node with a trailer, by the summary of its base.
pub fn tail_summary(kind: TrailerKind, base: Summary) -> Summary
    ensures { (k : Trailer) → trailer_kind k ≡ kind → result ≡ tail_summary k base }
{
    let wrapped = base_wrapped_by(kind, base);
    closed_summary(
        kind.is_named_field(),
        first_labelled(base, wrapped),
        Sort::Other,
    )
}

/// The summary of a node whose operands have places of their own.
pub fn frame_summary(kind: FrameKind) -> Summary
    ensures { (k : Frame) → frame_kind k ≡ kind → result ≡ frame_summary k }
{
    closed_summary(false, kind.is_labelled(), kind.sort())
}

/// The type of expressions, as one goes through the arms of a `match`: what each arm holds beside its pattern.
pub trait HasArms: HasNode {
    /// The guard of an arm, if it has one: that of its pattern as a whole, before which no attributes are. Guards further
    /// inside of the pattern, where there may be none, are no part of it.
    fn guard(arm: &Self::Arm) -> Option<&Self>
        ensures { mapped (λ x. Self.tree x.now) result ≡ guard_at (Self.Arm.view arm.now) };

    /// The value of an arm.
    fn body(arm: &Self::Arm) -> &Self
        ensures { Self.tree result.now ≡ (Self.Arm.view arm.now).body };

    /// The guards in the patterns of a node where there may be none, those in the patterns of its arms too. They aren't spelled.
    fn strays(&self, alloc: Global) -> Result<Vec<&Self>, AllocError>
        ensures { IfOk result (λ xs. map (λ x. Self.tree x.now) xs.items ≡ strays_at (Self.tree self.now)) };
}

/// The summaries of the first two operands, as far as that of their owner asks for them.
#[cycle(summary_of)]
#[tactic(auto, using(crate::proofs::Nodes::based))]
fn first_summaries<E: HasNode + HasKind>(operands: Operands<'_, E, E::Arm>) -> (Summary, Summary)
    ensures { AreFirst (operands_of E.tree E.Arm.view operands.entry) result.0 result.1 }
{
    match operands {
        Operands::Two(x, y) => (summary_of::<E>(x), summary_of::<E>(y)),
        Operands::One(x)
        | Operands::Call(x, _)
        | Operands::Index(x, _)
        | Operands::Grouped(x)
        | Operands::Repeated(x, _, _)
        | Operands::If(x, _, _)
        | Operands::Arms(x, _, _)
        | Operands::Body(x) => (summary_of::<E>(x), closed()),
        Operands::Loop(x, _) => (summary_of::<E>(x), closed()),
        Operands::None | Operands::Elements(_) | Operands::Fields(_, _, _) => (closed(), closed()),
    }
}

/// The summary of a node, by a walk over its operands: the same that [`collect`](crate::summary::collect) answers, which keeps
/// those of all nodes.
#[cycle(summary_of)]
#[tactic(auto, using(crate::proofs::Nodes::nodes))]
pub fn summary_of<E: HasNode + HasKind>(expr: &E) -> Summary
    ensures { result ≡ summary_of (E.tree expr.now) }
{
    let (first, second) = first_summaries(expr.operands());
    let summary = plain_summary(expr.kind(), first, second);
    behind(expr.attributes(), summary)
}

/// Visits the guards in the patterns of a node where there may be none. They aren't spelled, so their summaries are taken away
/// again.
#[cycle(collect)]
fn collect_strays<E: HasArms + HasKind>(
    summaries: &mut Vec<Summary>,
    visits: &mut u64,
    x: &E,
) -> Result<(), AllocError>
    ensures kept { OnOk result (summaries.new.items ≡ summaries.old.items) }
    ensures counted { OnOk result (visits.new ≡ min (visits.old + total size (strays_at (E.tree x.now))) (2 ^ 64 - 1)) }
{
    let before = summaries.len();
    let mut strays = x.strays(*summaries.allocator())?;
    'strays: while let Some(stray) = strays.pop() {
        collect(summaries, visits, stray)?;
        summaries.truncate(before);
    }
    prove!(*visits <= u64::MAX);
    Ok(())
}

/// Summarizes the values of a list that puncts follow, the last first.
#[cycle(collect)]
fn collect_pairs<E: HasArms + HasKind>(
    summaries: &mut Vec<Summary>,
    visits: &mut u64,
    mut pairs: &[(E, Comma)],
) -> Result<(), AllocError>
    ensures kept { OnOk result (summaries.new.items ≡ summaries.old.items ++ backwards (λ q. stack (E.tree q.0)) pairs.entry.now) }
    ensures counted { OnOk result (visits.new ≡ min (visits.old + total (λ q. size (E.tree q.0)) pairs.entry.now) (2 ^ 64 - 1)) }
{
    'pairs: while let [more @ .., (element, _)] = pairs {
        collect(summaries, visits, element)?;
        pairs = more;
    }
    prove!(*visits <= u64::MAX);
    Ok(())
}

/// Summarizes the elements of a list, the last first.
#[cycle(collect)]
fn collect_elements<E: HasArms + HasKind>(
    summaries: &mut Vec<Summary>,
    visits: &mut u64,
    elements: &Punctuated<E, Comma>,
) -> Result<(), AllocError>
    ensures kept { OnOk result (summaries.new.items ≡ summaries.old.items ++ backwards (λ x. stack (E.tree x)) (values elements.now)) }
    ensures counted { OnOk result (visits.new ≡ min (visits.old + total (λ x. size (E.tree x)) (values elements.now)) (2 ^ 64 - 1)) }
{
    match &elements.last {
        Some(element) => {
            collect::<E>(summaries, visits, element)?;
            collect_pairs(summaries, visits, &elements.inner)
        }
        None => collect_pairs(summaries, visits, &elements.inner),
    }
}

/// Summarizes the value of a field. One that isn't spelled is visited too, and its summaries are taken away again.
#[cycle(collect)]
pub fn collect_field<E: HasArms + HasKind>(
    summaries: &mut Vec<Summary>,
    visits: &mut u64,
    field: &FieldValueOf<E>,
) -> Result<(), AllocError>
    ensures kept { OnOk result (summaries.new.items ≡ summaries.old.items ++ field_below (field_value_of E.tree field.now)) }
    ensures counted { OnOk result (visits.new ≡ min (visits.old + field_size (field_value_of E.tree field.now)) (2 ^ 64 - 1)) }
{
    let before = summaries.len();
    collect(summaries, visits, &field.expr)?;
    if field.colon_token.is_none() {
        summaries.truncate(before);
    }
    Ok(())
}

/// Summarizes the fields of a struct expression that commas follow, the last first.
#[cycle(collect)]
fn collect_field_pairs<E: HasArms + HasKind>(
    summaries: &mut Vec<Summary>,
    visits: &mut u64,
    mut pairs: &[(FieldValueOf<E>, Comma)],
) -> Result<(), AllocError>
    ensures kept { OnOk result (summaries.new.items ≡ summaries.old.items ++ backwards (λ q. field_below (field_value_of E.tree q.0)) pairs.entry.now) }
    ensures counted { OnOk result (visits.new ≡ min (visits.old + total (λ q. field_size (field_value_of E.tree q.0)) pairs.entry.now) (2 ^ 64 - 1)) }
{
    'pairs: while let [more @ .., (field, _)] = pairs {
        collect_field(summaries, visits, field)?;
        pairs = more;
    }
    prove!(*visits <= u64::MAX);
    Ok(())
}

/// Summarizes the fields of a struct expression, the last first.
#[cycle(collect)]
fn collect_fields<E: HasArms + HasKind>(
    summaries: &mut Vec<Summary>,
    visits: &mut u64,
    fields: &Punctuated<FieldValueOf<E>, Comma>,
) -> Result<(), AllocError>
    ensures kept { OnOk result (summaries.new.items ≡ summaries.old.items ++ backwards (λ x. field_below (field_value_of E.tree x)) (values fields.now)) }
    ensures counted { OnOk result (visits.new ≡ min (visits.old + total (λ x. field_size (field_value_of E.tree x)) (values fields.now)) (2 ^ 64 - 1)) }
{
    match &fields.last {
        Some(field) => {
            collect_field::<E>(summaries, visits, field)?;
            collect_field_pairs(summaries, visits, &fields.inner)
        }
        None => collect_field_pairs(summaries, visits, &fields.inner),
    }
}

/// Summarizes what the other fields of a struct expression are taken of, if there is such.
#[cycle(collect)]
fn collect_rest<E: HasArms + HasKind>(
    summaries: &mut Vec<Summary>,
    visits: &mut u64,
    rest: &Option<Box<E>>,
) -> Result<(), AllocError>
    ensures kept { OnOk result (summaries.new.items ≡ summaries.old.items ++ option_below (boxed E.tree rest.now)) }
    ensures counted { OnOk result (visits.new ≡ min (visits.old + option_size (boxed E.tree rest.now)) (2 ^ 64 - 1)) }
{
    match rest {
        Some(rest) => {
            collect::<E>(summaries, visits, rest)?;
        }
        None => prove!(*visits <= u64::MAX),
    }
    Ok(())
}

/// Summarizes the body of an arm, and then its guard.
#[cycle(collect)]
pub fn collect_arm<E: HasArms + HasKind>(
    summaries: &mut Vec<Summary>,
    visits: &mut u64,
    arm: &E::Arm,
) -> Result<(), AllocError>
    ensures kept { OnOk result (summaries.new.items ≡ summaries.old.items ++ arm_below (E.Arm.view arm.now)) }
    ensures counted { OnOk result (visits.new ≡ min (visits.old + arm_size (E.Arm.view arm.now)) (2 ^ 64 - 1)) }
{
    collect(summaries, visits, E::body(arm))?;
    if let Some(guard) = E::guard(arm) {
        collect(summaries, visits, guard)?;
    }
    Ok(())
}

/// Summarizes the arms of a `match`, the last first.
#[cycle(collect)]
fn collect_arms<E: HasArms + HasKind>(
    summaries: &mut Vec<Summary>,
    visits: &mut u64,
    mut arms: &[E::Arm],
) -> Result<(), AllocError>
    ensures kept { OnOk result (summaries.new.items ≡ summaries.old.items ++ backwards (λ x. arm_below (E.Arm.view x)) arms.entry.now) }
    ensures counted { OnOk result (visits.new ≡ min (visits.old + total (λ x. arm_size (E.Arm.view x)) arms.entry.now) (2 ^ 64 - 1)) }
{
    'arms: while let [more @ .., arm] = arms {
        collect_arm::<E>(summaries, visits, arm)?;
        arms = more;
    }
    prove!(*visits <= u64::MAX);
    Ok(())
}

/// Summarizes the operands of a node from right to left, and answers the summaries of the first two, as far as that of the node asks
/// for them.
#[cycle(collect)]
#[tactic(auto, using(crate::proofs::Lists::lists, crate::proofs::Nodes::based))]
pub fn collect_operands<E: HasArms + HasKind>(
    summaries: &mut Vec<Summary>,
    visits: &mut u64,
    operands: Operands<'_, E, E::Arm>,
) -> Result<(Summary, Summary), AllocError>
    ensures first { IfOk result (λ p. AreFirst (operands_of E.tree E.Arm.view operands.entry) p.0 p.1) }
    ensures kept { OnOk result (summaries.new.items ≡ summaries.old.items ++ operands_below (operands_of E.tree E.Arm.view operands.entry)) }
    ensures counted { OnOk result (visits.new ≡ min (visits.old + operands_size (operands_of E.tree E.Arm.view operands.entry)) (2 ^ 64 - 1)) }
{
    match operands {
        Operands::None => {
            prove!(*visits <= u64::MAX);
            Ok((closed(), closed()))
        }
        Operands::One(x) => Ok((collect::<E>(summaries, visits, x)?, closed())),
        Operands::Two(x, y) => {
            let second = collect::<E>(summaries, visits, y)?;
            let first = collect::<E>(summaries, visits, x)?;
            Ok((first, second))
        }
        Operands::Call(x, arguments) => {
            collect_elements(summaries, visits, arguments)?;
            Ok((collect::<E>(summaries, visits, x)?, closed()))
        }
        Operands::Index(x, index) => {
            collect::<E>(summaries, visits, index)?;
            Ok((collect::<E>(summaries, visits, x)?, closed()))
        }
        Operands::Elements(elements) => {
            collect_elements(summaries, visits, elements)?;
            Ok((closed(), closed()))
        }
        Operands::Grouped(x) => Ok((collect::<E>(summaries, visits, x)?, closed())),
        Operands::Repeated(x, _, len) => {
            collect::<E>(summaries, visits, len)?;
            Ok((collect::<E>(summaries, visits, x)?, closed()))
        }
        Operands::Fields(fields, _, rest) => {
            collect_rest(summaries, visits, rest)?;
            collect_fields(summaries, visits, fields)?;
            Ok((closed(), closed()))
        }
        Operands::If(condition, _, otherwise) => {
            if let Some((_, otherwise)) = otherwise {
                collect::<E>(summaries, visits, otherwise)?;
            }
            Ok((collect::<E>(summaries, visits, condition)?, closed()))
        }
        Operands::Loop(x, _) => { Ok((collect::<E>(summaries, visits, x)?, closed())) }
        Operands::Arms(x, _, arms) => {
            collect_arms::<E>(summaries, visits, arms)?;
            Ok((collect::<E>(summaries, visits, x)?, closed()))
        }
        Operands::Body(x) => Ok((collect::<E>(summaries, visits, x)?, closed())),
    }
}

/// Summarizes the operands of a node but its first one, from right to left, and answers the summary of the second, as far as that of
/// the node asks for it.
#[cycle(collect)]
#[tactic(auto, using(crate::proofs::Lists::lists, crate::proofs::Spines::behind))]
fn collect_behind<E: HasArms + HasKind>(
    summaries: &mut Vec<Summary>,
    visits: &mut u64,
    operands: Operands<'_, E, E::Arm>,
) -> Result<Summary, AllocError>
    ensures second { IfOk result (λ n. IsSecond (operands_of E.tree E.Arm.view operands.entry) n) }
    ensures kept { OnOk result (summaries.new.items ≡ summaries.old.items ++ behind_below (operands_of E.tree E.Arm.view operands.entry)) }
    ensures counted { OnOk result (visits.new ≡ min (visits.old + behind_size (operands_of E.tree E.Arm.view operands.entry)) (2 ^ 64 - 1)) }
{
    match operands {
        Operands::Two(_, y) => collect::<E>(summaries, visits, y),
        Operands::Call(_, arguments) => {
            collect_elements(summaries, visits, arguments)?;
            Ok(closed())
        }
        Operands::Index(_, index) => {
            collect::<E>(summaries, visits, index)?;
            Ok(closed())
        }
        _ => {
            prove!(*visits <= u64::MAX);
            Ok(closed())
        }
    }
}

/// Summarizes the nodes over a first operand with this summary, the innermost first, each by the summary of its second operand
/// beside it, and answers the summary of the outermost.
#[tactic(auto, using(crate::proofs::Nodes::nodes, crate::proofs::Spines::spines))]
fn close<E: HasArms + HasKind>(
    summaries: &mut Vec<Summary>,
    mut spine: Vec<(&E, Summary)>,
    mut summary: Summary,
) -> Result<Summary, AllocError>
    ensures same { (top t : Tree) → Prefixes E.tree top spine.entry.items t → summary ≡ summary_of t → IfOk result (λ n. n ≡ summary_of top) }
    ensures kept { (top t : Tree) → Prefixes E.tree top spine.entry.items t → summary ≡ summary_of t → OnOk result (summaries.new.items ≡ summaries.old.items ++ above E.tree spine.entry.items) }
{
    while let Some((x, second)) = spine.pop() {
        summary = keep(
            summaries,
            x.attributes(),
            plain_summary(x.kind(), summary, second),
        )?;
    }
    Ok(summary)
}

/// Summarizes a node after its operands, by the summaries of the first two, and then the nodes over it. It answers the summary of the
/// outermost.
fn finish<E: HasArms + HasKind>(
    summaries: &mut Vec<Summary>,
    spine: Vec<(&E, Summary)>,
    x: &E,
    first: Summary,
    second: Summary,
) -> Result<Summary, AllocError>
    ensures same { (top : Tree) → Prefixes E.tree top spine.entry.items (E.tree x.now) → AreFirst (operands_at (E.tree x.now)) first second → IfOk result (λ n. n ≡ summary_of top) }
    ensures kept { (top : Tree) → Prefixes E.tree top spine.entry.items (E.tree x.now) → AreFirst (operands_at (E.tree x.now)) first second → OnOk result (summaries.new.items ≡ summaries.old.items ++ (summary_of (E.tree x.now) ∷ above E.tree spine.entry.items)) }
{
    let summary = keep(
        summaries,
        x.attributes(),
        plain_summary(x.kind(), first, second),
    )?;
    close(summaries, spine, summary)
}

/// Summarizes a leaf.
// At each leaf of a tree, so without a call.
#[inline(always)]
#[tactic(auto, using(crate::proofs::Nodes::nodes, crate::proofs::Nodes::leaves))]
fn collect_leaf<E: HasArms + HasKind>(
    summaries: &mut Vec<Summary>,
    visits: &mut u64,
    x: &E,
    kind: LeafKind,
) -> Result<Summary, AllocError>
    requires { kind_at (E.tree x.now) ≡ node.Leaf kind }
    ensures same { IfOk result (λ n. n ≡ summary_of (E.tree x.now)) }
    ensures kept { OnOk result (summaries.new.items ≡ summaries.old.items ++ stack (E.tree x.now)) }
    ensures counted { OnOk result (visits.new ≡ min (visits.old + size (E.tree x.now)) (2 ^ 64 - 1)) }
{
    tick(visits);
    keep(
        summaries,
        x.attributes(),
        plain_summary(NodeKind::Leaf(kind), closed(), closed()),
    )
}

/// Summarizes a node that is no leaf, and all below it. Down first operands it goes by a loop, and takes memory for those that have
/// operands themselves.
#[cycle(collect)]
#[tactic(auto, using(crate::proofs::Nodes::nodes, crate::proofs::Spines::spines))]
fn collect_spine<E: HasArms + HasKind>(
    summaries: &mut Vec<Summary>,
    visits: &mut u64,
    expr: &E,
) -> Result<Summary, AllocError>
    ensures same { IfOk result (λ n. n ≡ summary_of (E.tree expr.now)) }
    ensures kept { OnOk result (summaries.new.items ≡ summaries.old.items ++ stack (E.tree expr.now)) }
    ensures counted { OnOk result (visits.new ≡ min (visits.old + size (E.tree expr.now)) (2 ^ 64 - 1)) }
{
    let mut spine = Vec::new(*summaries.allocator());
    let mut x = expr;
    'down: loop {
        tick(visits);
        collect_strays(summaries, visits, x)?;
        let operands = x.operands();
        let Some(first) = operands.first() else {
            let (first, second) = collect_operands(summaries, visits, operands)?;
            return finish(summaries, spine, x, first, second);
        };
        let second = collect_behind(summaries, visits, operands)?;
        if let NodeKind::Leaf(kind) = first.kind() {
            let first = collect_leaf(summaries, visits, first, kind)?;
            return finish(summaries, spine, x, first, second);
        }
        spine.push((x, second))?;
        x = first;
    }
}

/// Summarizes a node and all below it, an operand on the right before one on the left, and the node after its operands; so a
/// printer takes the summaries from the end, in the order in which it comes to the nodes. Operands and guards that aren't spelled
/// are visited, and have no summaries. It answers the summary of the node, and is refused only because memory ran out. Down first
/// operands it goes by a loop: a sum of many terms, a chain of trailers and prefix operators take no stack.
#[cycle(collect)]
pub fn collect<E: HasArms + HasKind>(
    summaries: &mut Vec<Summary>,
    visits: &mut u64,
    expr: &E,
) -> Result<Summary, AllocError>
    ensures same { IfOk result (λ n. n ≡ summary_of (E.tree expr.now)) }
    ensures kept { OnOk result (summaries.new.items ≡ summaries.old.items ++ stack (E.tree expr.now)) }
    ensures counted { OnOk result (visits.new ≡ min (visits.old + size (E.tree expr.now)) (2 ^ 64 - 1)) }
{
    match expr.kind() {
        NodeKind::Leaf(kind) => collect_leaf(summaries, visits, expr, kind),
        _ => collect_spine(summaries, visits, expr),
    }
}

/// The summary of what is closed at both ends.
pub(crate) fn closed() -> Summary
    ensures { result ≡ closed_summary false false sort.Other }
{
    closed_summary(false, false, Sort::Other)
}

/// The summary of a node without attributes, by the summaries of its first two operands.
// A summary is made at each node of a tree, and is not handed through memory for it.
#[inline(always)]
pub(crate) fn plain_summary(kind: NodeKind, first: Summary, second: Summary) -> Summary
    ensures { (t : Tree) → kind_at t ≡ kind → AreFirst (operands_at t) first second → result ≡ plain_summary t }
{
    match kind {
        NodeKind::Leaf(kind) => leaf_summary(kind),
        NodeKind::Paren => closed(),
        NodeKind::Prefix(kind) => prefix_summary(kind, first),
        NodeKind::Infix(op) => infix_summary(op, first, second),
        NodeKind::Postfix(kind) => postfix_summary(kind, first),
        NodeKind::Tail(kind) => tail_summary(kind, first),
        NodeKind::Frame(kind) => frame_summary(kind),
    }
}

/// The summary of a node after its attributes.
pub(crate) fn behind(attributes: Attributes<'_>, summary: Summary) -> Summary
    ensures { result ≡ summarized_behind (before_of attributes.entry) summary }
{
    if attributes.has_none_before() {
        summary
    } else {
        attributed_summary(summary)
    }
}

/// Keeps the summary of a node after its attributes.
// As `plain_summary`.
#[inline(always)]
pub(crate) fn keep(
    summaries: &mut Vec<Summary>,
    attributes: Attributes<'_>,
    summary: Summary,
) -> Result<Summary, AllocError>
    ensures same { IfOk result (λ n. n ≡ summarized_behind (before_of attributes.entry) summary) }
    ensures kept { OnOk result (summaries.new.items ≡ summaries.old.items ++ summarized_behind (before_of attributes.entry) summary ∷ []) }
{
    let summary = behind(attributes, summary);
    summaries.push(summary)?;
    Ok(summary)
}
