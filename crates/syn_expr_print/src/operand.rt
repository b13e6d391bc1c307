//! An operand, in parentheses where it needs them: in a place of its own, in a list of them, and at an end of its node.

ghost use Rattle.std.specs.Prelude.{◌≡◌, ◌+◌, ◌++◌, [], OnOk, ◌∷◌, map};
ghost use Rattle.syn_expr_ast.specs.Label.{prefix_kind, trailer_kind};
ghost use Rattle.syn_expr_ast.specs.Printed as printed;
ghost use Rattle.syn_expr_print.specs.Printing.{EndsWith, spelled, spelled_in, children_spelled};
ghost use Rattle.syn_expr_print.specs.Prints.{Callable, Prints};
ghost use Rattle.syn_expr_print.specs.Taken.{Taken};
ghost use Rattle.syn_expr_spec.specs.Next as next;
ghost use Rattle.syn_expr_spec.specs.Summaries as summarized;
ghost use Rattle.syn_expr_spec.specs.Summaries.{below, summary_of, stack, children_below};
ghost use Rattle.syn_expr_spec.specs.Op as operators;
ghost use Rattle.syn_expr_spec.specs.Tree.{Prefix, Trailer, size, children_size};
ghost use Rattle.syn_lexer.specs.declared.front.Delimiter.TheVariants as del;
ghost use Rattle.syn_lower_spec.specs.Own as own_parts;
ghost use Rattle.syn_tokens.specs.Input.{IsFront};
ghost use Rattle.syn_expr_fixup.specs.Below.{backwards, option_below, total};
ghost use Rattle.syn_expr_ast.specs.View as view;
ghost use Rattle.syn_expr_ast.specs.View.{boxed};
ghost use Rattle.syn_expr_print.specs.Placed.{last_spelled, option_size};
ghost use Rattle.syn_lower_leaves.specs.Printed.{comma, pairs_printed};
ghost use Rattle.syn_lower_leaves.specs.View.{values, trails};
ghost use Rattle.syn_lower_spec.specs.Own.{alone};

use crate::print::{HasPrint, Summaries, take_summary};
use crate::put::frame::{put_comma, put_semi};
use syn_expr_ast::label::{PrefixKind, TrailerKind};
use syn_expr_ast::put::{PutResult, put, put_parens};
use syn_expr_fixup::context::{
    base_by, base_context, enclosed, left_by, left_context, place_by, prefix_by, prefix_context,
    right_context,
};
use syn_expr_spec::kinds::{Infix, Precedence};
use syn_expr_spec::next::Context;
use syn_expr_tokens::op::level;
use syn_lower::punctuated::Punctuated;
use syn_tokens::token::{Comma, Semi};
use syn_tokens::tree::TokenStream;

/// Prints an operand whose summary was taken, in parentheses.
#[tactic(auto, using(syn_tokens::proofs::Fronts::fronts))]
fn in_parens<E: HasPrint, F: Fn(&mut TokenStream, &mut Summaries, &E, Context) -> PutResult>(
    bare: &F,
    tokens: &mut TokenStream,
    summaries: &mut Summaries,
    x: &E,
) -> PutResult
    requires callable { Callable E.tree (size (E.tree x.now) + 1) (F.pre bare.now) }
    requires prints { Prints E.tree (F.post bare.now) }
    requires stacked { EndsWith summaries.old.left.items (below (E.tree x.now)) }
    ensures text { OnOk result (tokens.new ≡ tokens.old ++ own_parts.enclosed del.Parenthesis (spelled next.enclosed (E.tree x.now)) []) }
    ensures front { IsFront tokens.old tokens.new }
    ensures taken { OnOk result (Taken summaries.old summaries.new (below (E.tree x.now))) }
{
    let mut content = TokenStream::new(tokens.alloc());
    bare(&mut content, summaries, x, enclosed())?;
    put_parens(tokens, content)
}

/// Prints an operand whose summary was taken: in parentheses where it is `wrapped`, else bare.
#[tactic(auto, using(syn_tokens::proofs::Fronts::fronts, crate::proofs::Spellings::roles))]
pub(crate) fn inside<
    E: HasPrint,
    F: Fn(&mut TokenStream, &mut Summaries, &E, Context) -> PutResult,
>(
    bare: &F,
    tokens: &mut TokenStream,
    summaries: &mut Summaries,
    x: &E,
    wrapped: bool,
    context: Context,
) -> PutResult
    requires callable { Callable E.tree (size (E.tree x.now) + 1) (F.pre bare.now) }
    requires prints { Prints E.tree (F.post bare.now) }
    requires stacked { EndsWith summaries.old.left.items (below (E.tree x.now)) }
    ensures text { OnOk result (tokens.new ≡ tokens.old ++ spelled_in wrapped context (E.tree x.now)) }
    ensures front { IsFront tokens.old tokens.new }
    ensures taken { OnOk result (Taken summaries.old summaries.new (below (E.tree x.now))) }
{
    if wrapped {
        in_parens(bare, tokens, summaries, x)
    } else {
        bare(tokens, summaries, x, context)
    }
}

/// Prints an operand where the rule decides about its parentheses at the lowest level, as in a place of its own.
#[tactic(auto, using(syn_tokens::proofs::Fronts::fronts, crate::proofs::Spellings::roles, crate::proofs::Stacks::takes))]
pub fn whole<E: HasPrint, F: Fn(&mut TokenStream, &mut Summaries, &E, Context) -> PutResult>(
    bare: &F,
    tokens: &mut TokenStream,
    summaries: &mut Summaries,
    x: &E,
    context: Context,
) -> PutResult
    requires callable { Callable E.tree (size (E.tree x.now) + 1) (F.pre bare.now) }
    requires prints { Prints E.tree (F.post bare.now) }
    requires stacked { EndsWith summaries.old.left.items (stack (E.tree x.now)) }
    ensures text { OnOk result (tokens.new ≡ tokens.old ++ printed.whole context (E.tree x.now)) }
    ensures front { IsFront tokens.old tokens.new }
    ensures taken { OnOk result (Taken summaries.old summaries.new (stack (E.tree x.now))) }
{
    let summary = take_summary(summaries, x);
    let wrapped = place_by(Precedence::Jump, context, summary);
    inside(bare, tokens, summaries, x, wrapped, context)
}

/// Prints the operand after its prefix, with which a node ends; `context` is that of the node.
#[tactic(auto, using(syn_tokens::proofs::Fronts::fronts, crate::proofs::Stacks::takes))]
pub fn behind_prefix<
    E: HasPrint,
    F: Fn(&mut TokenStream, &mut Summaries, &E, Context) -> PutResult,
>(
    bare: &F,
    tokens: &mut TokenStream,
    summaries: &mut Summaries,
    x: &E,
    prefix: PrefixKind,
    context: Context,
) -> PutResult
    requires callable { Callable E.tree (size (E.tree x.now) + 1) (F.pre bare.now) }
    requires prints { Prints E.tree (F.post bare.now) }
    requires stacked { EndsWith summaries.old.left.items (stack (E.tree x.now)) }
    ensures text { (k : Prefix) → prefix_kind k ≡ prefix → OnOk result (tokens.new ≡ tokens.old ++ spelled_in (summarized.prefix_by k (next.prefix_context k context) (summary_of (E.tree x.now))) (next.prefix_context k context) (E.tree x.now)) }
    ensures front { IsFront tokens.old tokens.new }
    ensures taken { OnOk result (Taken summaries.old summaries.new (stack (E.tree x.now))) }
{
    let place = prefix_context(prefix, context);
    let summary = take_summary(summaries, x);
    let wrapped = prefix_by(prefix, place, summary);
    inside(bare, tokens, summaries, x, wrapped, place)
}

/// Prints the operand on the left of an operator; `context` is that of the node.
#[tactic(auto, using(syn_tokens::proofs::Fronts::fronts, crate::proofs::Stacks::takes))]
pub fn left_of<E: HasPrint, F: Fn(&mut TokenStream, &mut Summaries, &E, Context) -> PutResult>(
    bare: &F,
    tokens: &mut TokenStream,
    summaries: &mut Summaries,
    x: &E,
    op: Infix,
    context: Context,
) -> PutResult
    requires callable { Callable E.tree (size (E.tree x.now) + 1) (F.pre bare.now) }
    requires prints { Prints E.tree (F.post bare.now) }
    requires stacked { EndsWith summaries.old.left.items (stack (E.tree x.now)) }
    ensures text { OnOk result (tokens.new ≡ tokens.old ++ spelled_in (summarized.left_by op (next.left_context op context) (summary_of (E.tree x.now))) (next.left_context op context) (E.tree x.now)) }
    ensures front { IsFront tokens.old tokens.new }
    ensures taken { OnOk result (Taken summaries.old summaries.new (stack (E.tree x.now))) }
{
    let place = left_context(op, context);
    let summary = take_summary(summaries, x);
    let wrapped = left_by(op, place, summary);
    inside(bare, tokens, summaries, x, wrapped, place)
}

/// Prints the operand on the right of an operator; `context` is that of the node.
#[tactic(auto, using(syn_tokens::proofs::Fronts::fronts, crate::proofs::Stacks::takes))]
pub fn right_of<E: HasPrint, F: Fn(&mut TokenStream, &mut Summaries, &E, Context) -> PutResult>(
    bare: &F,
    tokens: &mut TokenStream,
    summaries: &mut Summaries,
    x: &E,
    op: Infix,
    context: Context,
) -> PutResult
    requires callable { Callable E.tree (size (E.tree x.now) + 1) (F.pre bare.now) }
    requires prints { Prints E.tree (F.post bare.now) }
    requires stacked { EndsWith summaries.old.left.items (stack (E.tree x.now)) }
    ensures text { OnOk result (tokens.new ≡ tokens.old ++ spelled_in (summarized.place_by (operators.level op) (next.right_context op context) (summary_of (E.tree x.now))) (next.right_context op context) (E.tree x.now)) }
    ensures front { IsFront tokens.old tokens.new }
    ensures taken { OnOk result (Taken summaries.old summaries.new (stack (E.tree x.now))) }
{
    let place = right_context(op, context);
    let summary = take_summary(summaries, x);
    let wrapped = place_by(level(op), place, summary);
    inside(bare, tokens, summaries, x, wrapped, place)
}

/// Prints the base of a trailer; `context` is that of the node.
#[tactic(auto, using(syn_tokens::proofs::Fronts::fronts, crate::proofs::Stacks::takes))]
pub fn base_of<E: HasPrint, F: Fn(&mut TokenStream, &mut Summaries, &E, Context) -> PutResult>(
    bare: &F,
    tokens: &mut TokenStream,
    summaries: &mut Summaries,
    x: &E,
    trailer: TrailerKind,
    context: Context,
) -> PutResult
    requires callable { Callable E.tree (size (E.tree x.now) + 1) (F.pre bare.now) }
    requires prints { Prints E.tree (F.post bare.now) }
    requires stacked { EndsWith summaries.old.left.items (stack (E.tree x.now)) }
    ensures text { (k : Trailer) → trailer_kind k ≡ trailer → OnOk result (tokens.new ≡ tokens.old ++ spelled_in (summarized.base_by k (next.base_context k context) (summary_of (E.tree x.now))) (next.base_context k context) (E.tree x.now)) }
    ensures front { IsFront tokens.old tokens.new }
    ensures taken { OnOk result (Taken summaries.old summaries.new (stack (E.tree x.now))) }
{
    let place = base_context(trailer, context);
    let summary = take_summary(summaries, x);
    let wrapped = base_by(trailer, place, summary);
    inside(bare, tokens, summaries, x, wrapped, place)
}

/// Prints elements with the commas after them.
#[tactic(auto, using(syn_tokens::proofs::Fronts::fronts, crate::proofs::Turns::turns), unfolding(syn_tokens::specs::Sign::sign_text))]
fn pairs<E: HasPrint, F: Fn(&mut TokenStream, &mut Summaries, &E, Context) -> PutResult>(
    bare: &F,
    tokens: &mut TokenStream,
    summaries: &mut Summaries,
    mut pairs: &[(E, Comma)],
) -> PutResult
    requires callable { Callable E.tree (total (λ q. size (E.tree q.0)) pairs.now + 1) (F.pre bare.now) }
    requires prints { Prints E.tree (F.post bare.now) }
    requires stacked { EndsWith summaries.old.left.items (backwards (λ q. stack (E.tree q.0)) pairs.now) }
    ensures text { OnOk result (tokens.new ≡ tokens.old ++ pairs_printed (λ x. printed.whole next.enclosed (E.tree x)) comma pairs.entry.now) }
    ensures front { IsFront tokens.old tokens.new }
    ensures taken { OnOk result (Taken summaries.old summaries.new (backwards (λ q. stack (E.tree q.0)) pairs.entry.now)) }
{
    'pairs: while let [(element, comma), more @ ..] = pairs {
        whole(bare, tokens, summaries, element, enclosed())?;
        put(tokens, comma)?;
        pairs = more;
    }
    Ok(())
}

/// Prints the last element of a list, after which there is no comma, with one where it is needed.
#[tactic(auto, using(syn_tokens::proofs::Fronts::fronts, crate::proofs::Turns::turns))]
fn last_element<E: HasPrint, F: Fn(&mut TokenStream, &mut Summaries, &E, Context) -> PutResult>(
    bare: &F,
    tokens: &mut TokenStream,
    summaries: &mut Summaries,
    element: &Option<Box<E>>,
    needs_comma: bool,
) -> PutResult
    requires callable { Callable E.tree (option_size (boxed E.tree element.now) + 1) (F.pre bare.now) }
    requires prints { Prints E.tree (F.post bare.now) }
    requires stacked { EndsWith summaries.old.left.items (option_below (boxed E.tree element.now)) }
    ensures text { OnOk result (tokens.new ≡ tokens.old ++ last_spelled (boxed E.tree element.now) needs_comma) }
    ensures front { IsFront tokens.old tokens.new }
    ensures taken { OnOk result (Taken summaries.old summaries.new (option_below (boxed E.tree element.now))) }
{
    if let Some(x) = element {
        whole::<E, F>(bare, tokens, summaries, x, enclosed())?;
        if needs_comma {
            put_comma(tokens)?;
        }
    }
    Ok(())
}

/// Prints elements with their commas (Rust Reference, "Array expressions", "Tuple expressions", "Call expressions"). Where
/// `needs_comma` is set one comes after the last too, whether there is one or not: a tuple of one has it.
#[tactic(auto, using(syn_tokens::proofs::Fronts::fronts))]
pub fn elements<E: HasPrint, F: Fn(&mut TokenStream, &mut Summaries, &E, Context) -> PutResult>(
    bare: &F,
    tokens: &mut TokenStream,
    summaries: &mut Summaries,
    elements: &Punctuated<E, Comma>,
    needs_comma: bool,
) -> PutResult
    requires callable { Callable E.tree (children_size (view.elements (map E.tree (values elements.now)) (trails elements.now)) + 1) (F.pre bare.now) }
    requires prints { Prints E.tree (F.post bare.now) }
    requires stacked { EndsWith summaries.old.left.items (children_below (view.elements (map E.tree (values elements.now)) (trails elements.now))) }
    ensures text { OnOk result (tokens.new ≡ tokens.old ++ children_spelled needs_comma (view.elements (map E.tree (values elements.now)) (trails elements.now))) }
    ensures front { IsFront tokens.old tokens.new }
    ensures taken { OnOk result (Taken summaries.old summaries.new (children_below (view.elements (map E.tree (values elements.now)) (trails elements.now)))) }
{
    pairs(bare, tokens, summaries, &elements.inner)?;
    last_element(bare, tokens, summaries, &elements.last, needs_comma)
}

/// Prints a value, `;` and how often it is repeated (Rust Reference, "Array expressions").
#[tactic(auto, using(syn_tokens::proofs::Fronts::fronts, crate::proofs::Stacks::takes))]
pub(crate) fn repeated<
    E: HasPrint,
    F: Fn(&mut TokenStream, &mut Summaries, &E, Context) -> PutResult,
>(
    bare: &F,
    tokens: &mut TokenStream,
    summaries: &mut Summaries,
    value: &E,
    semi: &Semi,
    len: &E,
) -> PutResult
    requires callable { Callable E.tree (size (E.tree value.now) + size (E.tree len.now) + 1) (F.pre bare.now) }
    requires prints { Prints E.tree (F.post bare.now) }
    requires stacked { EndsWith summaries.old.left.items (stack (E.tree len.now) ++ stack (E.tree value.now)) }
    ensures text { OnOk result (tokens.new ≡ tokens.old ++ (printed.whole next.enclosed (E.tree value.now) ++ alone 59 ∷ printed.whole next.enclosed (E.tree len.now))) }
    ensures front { IsFront tokens.old tokens.new }
    ensures taken { OnOk result (Taken summaries.old summaries.new (stack (E.tree len.now) ++ stack (E.tree value.now))) }
{
    whole(bare, tokens, summaries, value, enclosed())?;
    put_semi(tokens, semi)?;
    whole(bare, tokens, summaries, len, enclosed())
}
