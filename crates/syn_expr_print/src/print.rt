//! The printer of whole expressions: one pass summarizes the nodes, a second prints each by its summary.

ghost use Rattle.std.specs.Prelude.{◌≡◌, ◌+◌, ◌++◌, ◌-◌, ◌*◌, ◌^◌, ◌≤◌, min, IfOk, OnOk, ◌∷◌, [], false};
ghost use Rattle.syn_expr_ast.specs.Printed as printed;
ghost use Rattle.syn_expr_print.specs.Printing.{EndsWith, spelled, core, spelled_in, IsBorrowed};
ghost use Rattle.syn_expr_print.specs.Prints.{Callable, Prints};
ghost use Rattle.syn_expr_print.specs.Taken.{Taken};
ghost use Rattle.syn_expr_spec.specs.Summaries.{below, summary_of, stack};
ghost use Rattle.syn_expr_spec.specs.Tree.{size};
ghost use Rattle.syn_tokens.specs.Input.{IsFront};
ghost use Rattle.syn_lower_spec.specs.Form.{is_nil};
ghost use Rattle.syn_expr_ast.specs.Node.{attributes_at};
ghost use Rattle.syn_expr_print.specs.Shape.{is_operation_kind};

use crate::ends::{leaf, paren, prefixed, spine};
use crate::frames::frame;
use crate::operand::whole;
use crate::put::frame::HasArmHead;
use crate::put::prefix::PutPat;
use std::alloc::AllocError;
use syn_expr_ast::alone::HasExprTree;
use syn_expr_ast::attrs::put_attributes;
use syn_expr_ast::label::NodeKind;
use syn_expr_ast::node::HasShape;
use syn_expr_ast::put::{PutResult, put_parens};
use syn_expr_fixup::context::{attributed_context, enclosed};
use syn_expr_fixup::summary::tick;
use syn_expr_fixup::{HasArms, collect};
use syn_expr_spec::next::Context;
use syn_expr_spec::summary::Summary;
use syn_tokens::tree::TokenStream;

/// How often a node was visited.
fn visits_of(summaries: &Summaries) -> u64
    ensures same { result ≡ summaries.now.visits }
    ensures fits { result ≤ 2 ^ 64 - 1 }
{
    summaries.visits
}

/// Prints an expression in its place, and answers how often a node was visited. `bare` prints a node that is left bare.
#[tactic(auto, using(syn_tokens::proofs::Fronts::fronts, crate::proofs::Counts::counts, crate::proofs::Stacks::ends_all))]
pub(crate) fn print_with<
    E: HasPrint + HasArms,
    F: Fn(&mut TokenStream, &mut Summaries, &E, Context) -> PutResult,
>(bare: &F, tokens: &mut TokenStream, x: &E, context: Context) -> Result<u64, AllocError>
    requires callable { Callable E.tree (size (E.tree x.now) + 1) (F.pre bare.now) }
    requires prints { Prints E.tree (F.post bare.now) }
    ensures text { OnOk result (tokens.new ≡ tokens.old ++ printed.whole context (E.tree x.now)) }
    ensures front { IsFront tokens.old tokens.new }
    ensures least { IfOk result (λ n. min (size (E.tree x.now)) (2 ^ 64 - 1) ≤ n) }
    ensures most { IfOk result (λ n. n ≤ min (2 * size (E.tree x.now)) (2 ^ 64 - 1)) }
{
    let mut visits = 0;
    let mut left = Vec::new(tokens.alloc());
    collect(&mut left, &mut visits, x)?;
    let mut summaries = Summaries { left, visits };
    whole(bare, tokens, &mut summaries, x, context)?;
    Ok(visits_of(&summaries))
}

/// The type of expressions with those of its patterns and of the arms of a `match`, as they are printed.
pub trait HasPrinter: HasPrint<Pat: PutPat> + HasArms<Arm: HasArmHead> {}

/// Prints a node whose summary was taken, without parentheses of its own, and all below it.
#[tactic(auto, using(syn_tokens::proofs::Fronts::fronts))]
pub fn node<E: HasPrinter>(
    tokens: &mut TokenStream,
    summaries: &mut Summaries,
    x: &E,
    context: Context,
) -> PutResult
    requires { EndsWith summaries.old.left.items (below (E.tree x.now)) }
    ensures text { OnOk result (tokens.new ≡ tokens.old ++ spelled context (E.tree x.now)) }
    ensures front { IsFront tokens.old tokens.new }
    ensures taken { OnOk result (Taken summaries.old summaries.new (below (E.tree x.now))) }
{
    bare(&node::<E>, tokens, summaries, x, context)
}

/// Prints an expression in its place, with the parentheses that it needs there and inside: those without which the tokens
/// would be read as another tree, or not at all (Rust Reference, "Expression precedence"). In a statement a `let` and a macro
/// with braces get some that are redundant, and so may an operation after attributes. It answers how often a node was
/// visited: each once to be summarized, and those that are printed once to be printed. A count that reaches the greatest `u64`
/// stays there.
///
/// It is refused only because memory ran out; a part of the tokens may then follow what was there.
#[tactic(auto, using(syn_tokens::proofs::Fronts::fronts))]
pub fn print_in<E: HasPrinter>(
    tokens: &mut TokenStream,
    x: &E,
    context: Context,
) -> Result<u64, AllocError>
    ensures text { OnOk result (tokens.new ≡ tokens.old ++ printed.whole context (E.tree x.now)) }
    ensures front { IsFront tokens.old tokens.new }
    ensures least { IfOk result (λ n. min (size (E.tree x.now)) (2 ^ 64 - 1) ≤ n) }
    ensures most { IfOk result (λ n. n ≤ min (2 * size (E.tree x.now)) (2 ^ 64 - 1)) }
{
    print_with(&node::<E>, tokens, x, context)
}

/// The summaries of the nodes to come, the next one last, and how often a node was visited.
#[derive(Drop)]
pub struct Summaries {
    /// The summaries of the nodes to come.
    pub left: Vec<Summary>,
    /// How often a node was visited; a count that has reached its greatest value stays there.
    pub visits: u64,
}

/// Takes the summary of a node, which is visited so.
pub(crate) fn take_summary<E: HasExprTree>(summaries: &mut Summaries, x: &E) -> Summary
    requires { EndsWith summaries.old.left.items (stack (E.tree x.now)) }
    ensures summary { result ≡ summary_of (E.tree x.now) }
    ensures taken { Taken summaries.old summaries.new (summary_of (E.tree x.now) ∷ []) }
    ensures left { EndsWith summaries.new.left.items (below (E.tree x.now)) }
{
    tick(&mut summaries.visits);
    summaries.left.pop().unwrap()
}

/// Whether it is an operation: attributes before one would be those of its first operand.
pub(crate) fn is_operation(kind: NodeKind) -> bool
    ensures { result ≡ is_operation_kind kind }
{
    match kind {
        NodeKind::Leaf(kind) => kind.is_range(),
        NodeKind::Prefix(kind) => kind.is_range(),
        NodeKind::Infix(_) | NodeKind::Postfix(_) => true,
        NodeKind::Paren | NodeKind::Tail(_) | NodeKind::Frame(_) => false,
    }
}

/// Prints a node but for the attributes before it, by its shape.
#[tactic(auto, using(syn_tokens::proofs::Fronts::fronts, crate::proofs::Borrowing::shapes))]
fn shape<E: HasPrint + HasArms, F: Fn(&mut TokenStream, &mut Summaries, &E, Context) -> PutResult>(
    bare: &F,
    tokens: &mut TokenStream,
    summaries: &mut Summaries,
    x: &E,
    context: Context,
) -> PutResult
where
    E::Arm: HasArmHead,
    E::Pat: PutPat,
    requires callable { Callable E.tree (size (E.tree x.now)) (F.pre bare.now) }
    requires prints { Prints E.tree (F.post bare.now) }
    requires stacked { EndsWith summaries.old.left.items (below (E.tree x.now)) }
    ensures text { OnOk result (tokens.new ≡ tokens.old ++ spelled context (core (E.tree x.now))) }
    ensures front { IsFront tokens.old tokens.new }
    ensures taken { OnOk result (Taken summaries.old summaries.new (below (E.tree x.now))) }
{
    match x.kind() {
        NodeKind::Leaf(kind) => leaf(tokens, x, kind, context),
        NodeKind::Paren => paren(bare, tokens, summaries, x, context),
        NodeKind::Prefix(kind) => prefixed(bare, tokens, summaries, x, kind, context),
        NodeKind::Infix(_) | NodeKind::Postfix(_) | NodeKind::Tail(_) => {
            spine(bare, tokens, summaries, x, context)
        }
        NodeKind::Frame(_) => frame(bare, tokens, summaries, x),
    }
}

/// Prints a node after its attributes, in parentheses where it is `wrapped`.
#[tactic(auto, using(syn_tokens::proofs::Fronts::fronts, crate::proofs::Spellings::roles))]
fn behind<E: HasPrint + HasArms, F: Fn(&mut TokenStream, &mut Summaries, &E, Context) -> PutResult>(
    bare: &F,
    tokens: &mut TokenStream,
    summaries: &mut Summaries,
    x: &E,
    wrapped: bool,
    context: Context,
) -> PutResult
where
    E::Arm: HasArmHead,
    E::Pat: PutPat,
    requires callable { Callable E.tree (size (E.tree x.now)) (F.pre bare.now) }
    requires prints { Prints E.tree (F.post bare.now) }
    requires stacked { EndsWith summaries.old.left.items (below (E.tree x.now)) }
    ensures text { OnOk result (tokens.new ≡ tokens.old ++ spelled_in wrapped context (core (E.tree x.now))) }
    ensures front { IsFront tokens.old tokens.new }
    ensures taken { OnOk result (Taken summaries.old summaries.new (below (E.tree x.now))) }
{
    if wrapped {
        let mut content = TokenStream::new(tokens.alloc());
        shape(bare, &mut content, summaries, x, enclosed())?;
        put_parens(tokens, content)
    } else {
        shape(bare, tokens, summaries, x, context)
    }
}

/// Prints the attributes before a node, and the node after them; an operation is in parentheses there, without which
/// they would be those of its first operand.
#[tactic(auto, using(syn_tokens::proofs::Fronts::fronts))]
fn attributed<
    E: HasPrint + HasArms,
    F: Fn(&mut TokenStream, &mut Summaries, &E, Context) -> PutResult,
>(
    bare: &F,
    tokens: &mut TokenStream,
    summaries: &mut Summaries,
    x: &E,
    context: Context,
) -> PutResult
where
    E::Arm: HasArmHead,
    E::Pat: PutPat,
    requires attributed { is_nil (attributes_at (E.tree x.now)) ≡ false }
    requires callable { Callable E.tree (size (E.tree x.now)) (F.pre bare.now) }
    requires prints { Prints E.tree (F.post bare.now) }
    requires stacked { EndsWith summaries.old.left.items (below (E.tree x.now)) }
    ensures text { OnOk result (tokens.new ≡ tokens.old ++ spelled context (E.tree x.now)) }
    ensures front { IsFront tokens.old tokens.new }
    ensures taken { OnOk result (Taken summaries.old summaries.new (below (E.tree x.now))) }
{
    put_attributes(tokens, x.attributes())?;
    let wrapped = is_operation(x.kind());
    let place = attributed_context(context);
    behind(bare, tokens, summaries, x, wrapped, place)
}

/// Prints a node whose summary was taken, without parentheses of its own: the attributes before it, and what it is by its shape.
/// The nodes below it that are left bare are printed by `smaller`.
///
/// Memory may run out; a part of the tokens may then follow what was there.
#[tactic(auto, using(syn_tokens::proofs::Fronts::fronts, crate::proofs::Attributed::plain))]
pub(crate) fn bare<
    E: HasPrint + HasArms,
    F: Fn(&mut TokenStream, &mut Summaries, &E, Context) -> PutResult,
>(
    smaller: &F,
    tokens: &mut TokenStream,
    summaries: &mut Summaries,
    x: &E,
    context: Context,
) -> PutResult
where
    E::Arm: HasArmHead,
    E::Pat: PutPat,
    requires callable { Callable E.tree (size (E.tree x.now)) (F.pre smaller.now) }
    requires prints { Prints E.tree (F.post smaller.now) }
    requires stacked { EndsWith summaries.old.left.items (below (E.tree x.now)) }
    ensures text { OnOk result (tokens.new ≡ tokens.old ++ spelled context (E.tree x.now)) }
    ensures front { IsFront tokens.old tokens.new }
    ensures taken { OnOk result (Taken summaries.old summaries.new (below (E.tree x.now))) }
{
    if x.attributes().has_none_before() {
        shape(smaller, tokens, summaries, x, context)
    } else {
        attributed(smaller, tokens, summaries, x, context)
    }
}

/// The type of expressions, as it is printed: what is borrowed of a node is all of it.
pub trait HasPrint: HasShape {
    /// A node has its attributes, its shape and its operands, and nothing beside.
    ghost borrowed: { (x : Self) → IsBorrowed (Self.tree x) };
}
