//! Nodes with operands at their ends, without the attributes before them: leaves, parentheses, operations, and trailers
//! after their bases (Rust Reference, "Operator expressions", "Call expressions", "Field access expressions").

ghost use Rattle.std.specs.Prelude.{◌≡◌, ◌++◌, [], ⊤, Some, is_some, true, MatchOption, OnOk};
ghost use Rattle.syn_expr_ast.specs.Node.{first_of, operands_at, second_of};
ghost use Rattle.syn_expr_ast.specs.Label.{kind_at};
ghost use Rattle.syn_expr_ast.specs.declared.label.NodeKind.TheVariants as node;
ghost use Rattle.syn_expr_print.specs.Printing.{EndsWith, core, spelled};
ghost use Rattle.syn_expr_print.specs.Prints.{Callable, Prints};
ghost use Rattle.syn_expr_print.specs.Taken.{Taken};
ghost use Rattle.syn_expr_spec.specs.Summaries.{below};
ghost use Rattle.syn_expr_spec.specs.Tree.{size, Tree};
ghost use Rattle.syn_tokens.specs.Input.{IsFront};
ghost use Rattle.syn_expr_fixup.specs.Spine.{behind_below};
ghost use Rattle.syn_expr_print.specs.Spine.{begins, behind_spelled, first_place, first_wrapped, is_next};

use crate::frames::children;
use crate::operand::{inside, right_of};
use crate::print::{HasPrint, Summaries, take_summary};
use crate::put::frame::{HasArmHead, put_operator, put_postfix, put_trailer};
use crate::put::prefix::{PutPat, put_prefix};
use syn_expr_ast::label::{LeafKind, NodeKind, PrefixKind};
use syn_expr_ast::node::{HasNode, put_leaf};
use syn_expr_ast::put::{PutResult, put_paren};
use syn_expr_fixup::HasArms;
use syn_expr_fixup::context::{
    base_by, base_context, enclosed, left_by, left_context, prefix_by, prefix_context,
};
use syn_expr_spec::next::Context;
use syn_expr_spec::summary::Summary;
use syn_tokens::token::Brace;
use syn_tokens::tree::TokenStream;

/// The operand at an end of a node, or the first of two.
pub(crate) fn first_operand<E: HasNode>(x: &E) -> &E
    requires { is_some (first_of (operands_at (E.tree x.now))) ≡ true }
    ensures { first_of (operands_at (E.tree x.now)) ≡ Some (E.tree result.now) }
{
    x.operands().first().unwrap()
}

/// The second of two operands.
pub(crate) fn second_operand<E: HasNode>(x: &E) -> &E
    requires { is_some (second_of (operands_at (E.tree x.now))) ≡ true }
    ensures { second_of (operands_at (E.tree x.now)) ≡ Some (E.tree result.now) }
{
    x.operands().second().unwrap()
}

/// Prints what holds no operand.
#[tactic(auto, using(syn_tokens::proofs::Fronts::fronts, crate::proofs::Stacks::takes, crate::proofs::Borrowed::leaves, crate::proofs::Borrowing::leaf_ends))]
pub(crate) fn leaf<E: HasPrint>(
    tokens: &mut TokenStream,
    x: &E,
    kind: LeafKind,
    context: Context,
) -> PutResult
    requires kind { kind_at (E.tree x.now) ≡ node.Leaf kind }
    ensures text { OnOk result (tokens.new ≡ tokens.old ++ spelled context (core (E.tree x.now))) }
    ensures front { IsFront tokens.old tokens.new }
    ensures below { below (E.tree x.now) ≡ [] }
{
    put_leaf(tokens, x.leaf().unwrap())
}

/// Prints what is in parentheses, for itself.
#[tactic(auto, using(syn_tokens::proofs::Fronts::fronts, crate::proofs::Stacks::takes, crate::proofs::Borrowing::paren_ends))]
pub(crate) fn paren<E: HasPrint, F: Fn(&mut TokenStream, &mut Summaries, &E, Context) -> PutResult>(
    bare: &F,
    tokens: &mut TokenStream,
    summaries: &mut Summaries,
    x: &E,
    context: Context,
) -> PutResult
    requires kind { kind_at (E.tree x.now) ≡ node.Paren }
    requires callable { Callable E.tree (size (E.tree x.now)) (F.pre bare.now) }
    requires prints { Prints E.tree (F.post bare.now) }
    requires stacked { EndsWith summaries.old.left.items (below (E.tree x.now)) }
    ensures text { OnOk result (tokens.new ≡ tokens.old ++ spelled context (core (E.tree x.now))) }
    ensures front { IsFront tokens.old tokens.new }
    ensures taken { OnOk result (Taken summaries.old summaries.new (below (E.tree x.now))) }
{
    let operand = first_operand(x);
    take_summary(summaries, operand);
    let mut content = TokenStream::new(tokens.alloc());
    inside(bare, &mut content, summaries, operand, false, enclosed())?;
    put_paren(tokens, x.paren().unwrap(), content)
}

/// The kind of a node that ends with its operand, before which no attributes are; of another none.
#[tactic(auto, using(crate::proofs::Spines::bare_core))]
fn prefix_kind<E: HasPrint>(x: &E) -> Option<PrefixKind>
    ensures { MatchOption result ⊤ (λ k. (core (E.tree x.now) ≡ E.tree x.now) × (kind_at (E.tree x.now) ≡ node.Prefix k)) }
{
    match x.kind() {
        NodeKind::Prefix(kind) if x.attributes().has_none_before() => Some(kind),
        _ => None,
    }
}

/// Prints a node that ends with its operand, after what comes before it. Down such operands it goes by a loop, so that
/// prefix operators take no stack.
#[tactic(auto, using(syn_tokens::proofs::Fronts::fronts, crate::proofs::Stacks::takes, crate::proofs::Borrowing::prefix_ends))]
pub(crate) fn prefixed<
    E: HasPrint,
    F: Fn(&mut TokenStream, &mut Summaries, &E, Context) -> PutResult,
>(
    bare: &F,
    tokens: &mut TokenStream,
    summaries: &mut Summaries,
    mut x: &E,
    mut kind: PrefixKind,
    mut context: Context,
) -> PutResult
where
    E::Pat: PutPat,
    requires kind { kind_at (E.tree x.now) ≡ node.Prefix kind }
    requires callable { Callable E.tree (size (E.tree x.now)) (F.pre bare.now) }
    requires prints { Prints E.tree (F.post bare.now) }
    requires stacked { EndsWith summaries.old.left.items (below (E.tree x.now)) }
    ensures text { OnOk result (tokens.new ≡ tokens.old ++ spelled context (core (E.tree x.entry.now))) }
    ensures front { IsFront tokens.old tokens.new }
    ensures taken { OnOk result (Taken summaries.old summaries.new (below (E.tree x.entry.now))) }
{
    'down: loop {
        put_prefix(tokens, x.prefix().unwrap())?;
        let operand = first_operand(x);
        let place = prefix_context(kind, context);
        let summary = take_summary(summaries, operand);
        let wrapped = prefix_by(kind, place, summary);
        match prefix_kind(operand) {
            Some(next) if !wrapped => {
                x = operand;
                kind = next;
                context = place;
            }
            _ => return inside(bare, tokens, summaries, operand, wrapped, place),
        }
    }
}

/// Where the first operand of a node of this kind is.
fn first_context(kind: NodeKind, context: Context) -> Context
    ensures { (t : Tree) → kind_at t ≡ kind → result ≡ first_place t context }
{
    match kind {
        NodeKind::Infix(op) => left_context(op, context),
        NodeKind::Postfix(kind) => left_context(kind.op(), context),
        NodeKind::Tail(kind) => base_context(kind, context),
        _ => context,
    }
}

/// Whether the first operand of a node of this kind is wrapped in its place, by its summary.
fn is_wrapped(kind: NodeKind, place: Context, summary: Summary) -> bool
    ensures { (t : Tree) → kind_at t ≡ kind → result ≡ first_wrapped t place summary }
{
    match kind {
        NodeKind::Infix(op) => left_by(op, place, summary),
        NodeKind::Postfix(kind) => left_by(kind.op(), place, summary),
        NodeKind::Tail(kind) => base_by(kind, place, summary),
        _ => false,
    }
}

/// Whether nodes of this kind begin with an operand.
fn begins(kind: NodeKind) -> bool
    ensures { result ≡ begins kind }
{
    matches!(
        kind,
        NodeKind::Infix(_) | NodeKind::Postfix(_) | NodeKind::Tail(_)
    )
}

/// Whether a first operand is the next node of a spine: it begins with an operand itself, before which neither a parenthesis
/// nor attributes are.
fn is_next<E: HasPrint>(x: &E, wrapped: bool) -> bool
    ensures { result ≡ is_next wrapped (E.tree x.now) }
{
    !wrapped && x.attributes().has_none_before() && begins(x.kind())
}

/// Prints what comes after the first operand of a node that begins with one.
#[tactic(auto, using(syn_tokens::proofs::Fronts::fronts, crate::proofs::Stacks::takes, crate::proofs::Borrowing::infix_ends, crate::proofs::Borrowing::postfix_ends, crate::proofs::Borrowing::tail_ends))]
fn behind_first<
    E: HasPrint + HasArms,
    F: Fn(&mut TokenStream, &mut Summaries, &E, Context) -> PutResult,
>(
    bare: &F,
    tokens: &mut TokenStream,
    summaries: &mut Summaries,
    x: &E,
    context: Context,
) -> PutResult
where
    E::Arm: HasArmHead,
    E::Pat: PutPat,
    requires begins { begins (kind_at (E.tree x.now)) ≡ true }
    requires callable { Callable E.tree (size (E.tree x.now)) (F.pre bare.now) }
    requires prints { Prints E.tree (F.post bare.now) }
    requires stacked { EndsWith summaries.old.left.items (behind_below (operands_at (E.tree x.now))) }
    ensures text { OnOk result (tokens.new ≡ tokens.old ++ behind_spelled context (E.tree x.now)) }
    ensures front { IsFront tokens.old tokens.new }
    ensures taken { OnOk result (Taken summaries.old summaries.new (behind_below (operands_at (E.tree x.now)))) }
{
    match x.kind() {
        NodeKind::Infix(op) => {
            put_operator(tokens, x.operator().unwrap())?;
            right_of(bare, tokens, summaries, second_operand(x), op, context)
        }
        NodeKind::Postfix(_) => put_postfix(tokens, x.postfix().unwrap()),
        NodeKind::Tail(_) => {
            let mut held = TokenStream::new(tokens.alloc());
            let operands = x.operands();
            children(
                bare,
                &mut held,
                summaries,
                operands,
                false,
                Brace::default(),
            )?;
            put_trailer(tokens, x.trailer().unwrap(), held)
        }
        _ => Ok(()),
    }
}

/// Prints a node that begins with an operand, and what comes after that. Down first operands it goes by a loop, so that a
/// sum of many terms and a chain of trailers take no stack; only for those is memory taken.
#[tactic(auto, using(syn_tokens::proofs::Fronts::fronts, crate::proofs::Stacks::takes, crate::proofs::Behinds::begins_first))]
pub(crate) fn spine<
    E: HasPrint + HasArms,
    F: Fn(&mut TokenStream, &mut Summaries, &E, Context) -> PutResult,
>(
    bare: &F,
    tokens: &mut TokenStream,
    summaries: &mut Summaries,
    mut x: &E,
    mut context: Context,
) -> PutResult
where
    E::Arm: HasArmHead,
    E::Pat: PutPat,
    requires begins { begins (kind_at (E.tree x.now)) ≡ true }
    requires callable { Callable E.tree (size (E.tree x.now)) (F.pre bare.now) }
    requires prints { Prints E.tree (F.post bare.now) }
    requires stacked { EndsWith summaries.old.left.items (below (E.tree x.now)) }
    ensures text { OnOk result (tokens.new ≡ tokens.old ++ spelled context (core (E.tree x.entry.now))) }
    ensures front { IsFront tokens.old tokens.new }
    ensures taken { OnOk result (Taken summaries.old summaries.new (below (E.tree x.entry.now))) }
{
    let mut over = Vec::new(tokens.alloc());
    'down: loop {
        let kind = x.kind();
        let first = first_operand(x);
        let place = first_context(kind, context);
        let summary = take_summary(summaries, first);
        let wrapped = is_wrapped(kind, place, summary);
        if !is_next(first, wrapped) {
            inside(bare, tokens, summaries, first, wrapped, place)?;
            behind_first(bare, tokens, summaries, x, context)?;
            break;
        }
        over.push((x, context))?;
        x = first;
        context = place;
    }
    'up: while let Some((x, context)) = over.pop() {
        behind_first(bare, tokens, summaries, x, context)?;
    }
    Ok(())
}
