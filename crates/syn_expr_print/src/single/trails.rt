//! Trailers after their bases (Rust Reference, "Call expressions", "Method-call expressions", "Field access expressions",
//! "Array and array index expressions", "Await expressions", "The question mark operator"), by their parts.

ghost use Rattle.std.specs.Prelude.{◌≡◌, ◌++◌, false, map, IfOk, OnOk};
ghost use Rattle.syn_expr_ast.specs.Node.{before_of, trailer_of};
ghost use Rattle.syn_expr_ast.specs.View as view;
ghost use Rattle.syn_expr_ast.specs.Label.{trailer_kind};
ghost use Rattle.syn_expr_ast.specs.Printed.{whole};
ghost use Rattle.syn_expr_print.specs.Printing.{children_spelled, spelled, spelled_in};
ghost use Rattle.syn_expr_spec.specs.Next as next;
ghost use Rattle.syn_expr_spec.specs.Summaries.{base_by, summary_of};
ghost use Rattle.syn_expr_spec.specs.Tree as e;
ghost use Rattle.syn_expr_spec.specs.Tree.{attributed_with};
ghost use Rattle.syn_lower_leaves.specs.View.{values, trails};
ghost use Rattle.syn_tokens.specs.Input.{IsFront};

use crate::operand::{base_of, elements, whole};
use crate::print::{HasPrinter, node};
use crate::put::frame::put_trailer;
use crate::single::summarized::{summarize_one, summarize_operands, summarize_two};
use std::alloc::AllocError;
use syn_expr_ast::attrs::put_attributes;
use syn_expr_ast::label::TrailerKind;
use syn_expr_ast::node::{Attributes, Operands, Trailer};
use syn_expr_ast::put::{PutResult, put_result};
use syn_expr_fixup::context::enclosed;
use syn_expr_tokens::member::Member;
use syn_lower::punctuated::Punctuated;
use syn_tokens::token::{Bracket, Comma};
use syn_tokens::tree::TokenStream;

/// The kind of a trailer.
fn trailer_kind(trailer: Trailer<'_>) -> TrailerKind
    ensures { result ≡ trailer_kind (trailer_of trailer.entry) }
{
    match trailer {
        Trailer::Call(_) => TrailerKind::Call,
        Trailer::Index(_) => TrailerKind::Index,
        Trailer::Method(_, _, _, _) => TrailerKind::Method,
        Trailer::Field(_, member) => TrailerKind::Field {
            named: matches!(member, Member::Named(_)),
        },
        Trailer::Await(_, _) => TrailerKind::Await,
        Trailer::Try(_) => TrailerKind::Try,
    }
}

/// Prints a base, and after it a trailer that holds no operand.
#[tactic(auto, using(syn_tokens::proofs::Fronts::fronts))]
fn behind_base<E: HasPrinter>(tokens: &mut TokenStream, base: &E, trailer: Trailer<'_>) -> PutResult
    ensures text { OnOk result (tokens.new ≡ tokens.old ++ spelled next.enclosed (e.tail (E.tree base.now) (trailer_of trailer.entry) e.none)) }
    ensures front { IsFront tokens.old tokens.new }
{
    let kind = trailer_kind(trailer);
    let mut end = TokenStream::new(tokens.alloc());
    let held = TokenStream::new(tokens.alloc());
    put_trailer(&mut end, trailer, held)?;
    let mut summaries = summarize_one(tokens, base)?;
    base_of(&node::<E>, tokens, &mut summaries, base, kind, enclosed())?;
    put_result(tokens.append(end))?;
    Ok(())
}

/// Prints a base with a trailer that holds no operand, after the attributes.
#[tactic(auto, using(syn_tokens::proofs::Fronts::fronts))]
pub fn trailed<E: HasPrinter>(
    tokens: &mut TokenStream,
    attributes: Attributes<'_>,
    base: &E,
    trailer: Trailer<'_>,
) -> PutResult
    ensures text { OnOk result (tokens.new ≡ tokens.old ++ whole next.enclosed (attributed_with (before_of attributes.entry) (e.tail (E.tree base.now) (trailer_of trailer.entry) e.none))) }
    ensures front { IsFront tokens.old tokens.new }
{
    put_attributes(tokens, attributes)?;
    behind_base(tokens, base, trailer)?;
    Ok(())
}

/// Prints what is called, and answers what is in the parentheses after it: its arguments with their commas. `kind` is
/// that of the trailer: of a call, or of a method's.
#[tactic(auto, using(syn_tokens::proofs::Fronts::fronts, crate::proofs::Stacks::takes, crate::proofs::Shapes::calls))]
fn called<E: HasPrinter>(
    tokens: &mut TokenStream,
    base: &Box<E>,
    kind: TrailerKind,
    args: &Punctuated<E, Comma>,
) -> Result<TokenStream, AllocError>
    ensures text { (k : e.Trailer) → trailer_kind k ≡ kind → OnOk result (tokens.new ≡ tokens.old ++ spelled_in (base_by k (next.base_context k next.enclosed) (summary_of (E.tree base.now.value))) (next.base_context k next.enclosed) (E.tree base.now.value)) }
    ensures held { IfOk result (λ held. held ≡ children_spelled false (view.elements (map E.tree (values args.now)) (trails args.now))) }
    ensures front { IsFront tokens.old tokens.new }
{
    let mut summaries = summarize_operands::<E>(tokens, Operands::Call(base, args))?;
    base_of::<E, _>(&node::<E>, tokens, &mut summaries, base, kind, enclosed())?;
    let mut held = TokenStream::new(tokens.alloc());
    elements(&node::<E>, &mut held, &mut summaries, args, false)?;
    Ok(held)
}

/// Prints a base with a trailer that holds arguments.
#[tactic(auto, using(syn_tokens::proofs::Fronts::fronts))]
fn applied<E: HasPrinter>(
    tokens: &mut TokenStream,
    base: &Box<E>,
    trailer: Trailer<'_>,
    args: &Punctuated<E, Comma>,
) -> PutResult
    ensures text { OnOk result (tokens.new ≡ tokens.old ++ spelled next.enclosed (e.tail (E.tree base.now.value) (trailer_of trailer.entry) (view.elements (map E.tree (values args.now)) (trails args.now)))) }
    ensures front { IsFront tokens.old tokens.new }
{
    let held = called::<E>(tokens, base, trailer_kind(trailer), args)?;
    put_trailer(tokens, trailer, held)?;
    Ok(())
}

/// Prints what is called, or the receiver of a method, with its arguments in parentheses, after the attributes.
#[tactic(auto, using(syn_tokens::proofs::Fronts::fronts))]
pub fn call<E: HasPrinter>(
    tokens: &mut TokenStream,
    attributes: Attributes<'_>,
    base: &Box<E>,
    trailer: Trailer<'_>,
    args: &Punctuated<E, Comma>,
) -> PutResult
    ensures text { OnOk result (tokens.new ≡ tokens.old ++ whole next.enclosed (attributed_with (before_of attributes.entry) (e.tail (E.tree base.now.value) (trailer_of trailer.entry) (view.elements (map E.tree (values args.now)) (trails args.now))))) }
    ensures front { IsFront tokens.old tokens.new }
{
    put_attributes(tokens, attributes)?;
    applied::<E>(tokens, base, trailer, args)?;
    Ok(())
}

/// Prints what is indexed with its index in brackets, without attributes.
#[tactic(auto, using(syn_tokens::proofs::Fronts::fronts, crate::proofs::Stacks::takes))]
fn bare_index<E: HasPrinter>(
    tokens: &mut TokenStream,
    base: &E,
    bracket: &Bracket,
    index: &E,
) -> PutResult
    ensures text { OnOk result (tokens.new ≡ tokens.old ++ spelled next.enclosed (e.tail (E.tree base.now) e.index (e.child e.value e.no_ending (E.tree index.now) e.none))) }
    ensures front { IsFront tokens.old tokens.new }
{
    let kind = TrailerKind::Index;
    let mut summaries = summarize_two(tokens, base, index)?;
    base_of(&node::<E>, tokens, &mut summaries, base, kind, enclosed())?;
    let mut held = TokenStream::new(tokens.alloc());
    whole(&node::<E>, &mut held, &mut summaries, index, enclosed())?;
    put_trailer(tokens, Trailer::Index(bracket), held)?;
    Ok(())
}

/// Prints what is indexed, and its index in brackets, after the attributes.
#[tactic(auto, using(syn_tokens::proofs::Fronts::fronts))]
pub fn indexed<E: HasPrinter>(
    tokens: &mut TokenStream,
    attributes: Attributes<'_>,
    base: &E,
    bracket: &Bracket,
    index: &E,
) -> PutResult
    ensures text { OnOk result (tokens.new ≡ tokens.old ++ whole next.enclosed (attributed_with (before_of attributes.entry) (e.tail (E.tree base.now) e.index (e.child e.value e.no_ending (E.tree index.now) e.none)))) }
    ensures front { IsFront tokens.old tokens.new }
{
    put_attributes(tokens, attributes)?;
    bare_index(tokens, base, bracket, index)?;
    Ok(())
}
