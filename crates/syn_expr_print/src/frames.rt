//! What has its operands in places of their own (Rust Reference, "Array expressions", "Tuple expressions", "Struct
//! expressions", "`if` expressions", "Loop expressions", "`match` expressions", "Closure expressions").

ghost use Rattle.std.specs.Prelude.{◌≡◌, ◌+◌, ◌++◌, [], map, true, is_some, OnOk};
ghost use Rattle.syn_expr_fixup.specs.Below.{arm_below, backwards, option_below, total};
ghost use Rattle.syn_expr_ast.specs.Attrs.{inner_of};
ghost use Rattle.syn_expr_ast.specs.Node.{braces_of, frame_at, frame_of, operand_children, operands_at, operands_of};
ghost use Rattle.syn_expr_ast.specs.Pats.{ArmView};
ghost use Rattle.syn_expr_ast.specs.View.{body_of};
ghost use Rattle.syn_expr_print.specs.Placed as placed;
ghost use Rattle.syn_expr_print.specs.Placed.{arm_size, arms_spelled, else_spelled, else_tree, option_size};
ghost use Rattle.syn_expr_ast.specs.Printed as printed;
ghost use Rattle.syn_expr_print.specs.Printing.{EndsWith, core, children_spelled, piece_spelled, spelled};
ghost use Rattle.syn_expr_print.specs.Prints.{Callable, Prints};
ghost use Rattle.syn_expr_print.specs.Taken.{Taken};
ghost use Rattle.syn_expr_spec.specs.Next as next;
ghost use Rattle.syn_expr_spec.specs.Summaries.{below, children_below, stack};
ghost use Rattle.syn_expr_spec.specs.Tree as e;
ghost use Rattle.syn_expr_spec.specs.Tree.{Tree, body_own, enclosure, inners, children_size, size};
ghost use Rattle.syn_expr_spec.specs.declared.next.Context as contexts;
ghost use Rattle.syn_lower_leaves.specs.View.{values};
ghost use Rattle.syn_lexer.specs.declared.front.Delimiter.TheVariants as del;
ghost use Rattle.syn_lower_spec.specs.Own as own_parts;
ghost use Rattle.syn_lower_spec.specs.PatOwn.{attributes_own};
ghost use Rattle.syn_tokens.specs.Input.{IsFront};

use crate::blocks::{braced, output};
use crate::match_expr;
use crate::operand::{elements, inside, repeated, whole};
use crate::print::{HasPrint, Summaries, take_summary};
use crate::put::frame::{HasArmHead, put_else, put_frame_head, put_framed};
use crate::put::prefix::PutPat;
use crate::structure::fields;
use syn_expr_ast::attrs::put_inner;
use syn_expr_ast::label::{LeafKind, NodeKind};
use syn_expr_ast::node::{Braces, Frame, HasKind, HasShape, Operands};
use syn_expr_ast::put::{PutResult, put, put_body, put_braces};
use syn_expr_ast::structure::FieldValueOf;
use syn_expr_fixup::HasArms;
use syn_expr_fixup::context::{enclosed, in_condition};
use syn_expr_spec::next::Context;
use syn_lower::attr::Attribute;
use syn_lower::punctuated::Punctuated;
use syn_lower::stmt::Block;
use syn_pat::kinds::HasPatTree;
use syn_tokens::token::{Brace, Comma, Else};
use syn_tokens::tree::TokenStream;

// ---- what is asked of a node and of what is borrowed of it

/// Whether it is a block, with or without a label, after attributes too.
#[tactic(auto, using(crate::proofs::Plain::blocks))]
fn is_block<E: HasKind>(x: &E) -> bool
    ensures { result ≡ placed.is_block (E.tree x.now) }
{
    matches!(x.kind(), NodeKind::Leaf(LeafKind::Block { .. }))
}

/// Whether it is an `if`, after attributes too.
fn is_if_expr<E: HasShape>(x: &E) -> bool
    ensures { result ≡ placed.is_if_expr (frame_at (E.tree x.now)) }
{
    match x.frame() {
        Some(frame) => frame.is_if(),
        None => false,
    }
}

/// What is asked of a frame before its operands are printed.
#[derive(Clone, Copy)]
pub struct Asked {
    /// A delimiter encloses the operands.
    pub is_enclosed: bool,
    /// A comma is needed after the last: after the one of a tuple, and before the `..` that ends a struct expression.
    pub needs_comma: bool,
    /// The braces round the arms of a `match`; of other nodes some that have no place.
    pub brace: Brace,
}

/// What is asked of a frame, where there is one operand or not.
pub fn round<P: HasPatTree>(frame: Frame<'_, P>, is_one: bool) -> Asked
    ensures enclosed { result.is_enclosed ≡ is_some (enclosure (frame_of P.view frame.entry)) }
    ensures comma { result.needs_comma ≡ placed.needs_last (frame_of P.view frame.entry) is_one }
{
    let open = Asked {
        is_enclosed: false,
        needs_comma: false,
        brace: Brace::default(),
    };
    let closed = Asked {
        is_enclosed: true,
        ..open
    };
    match frame {
        Frame::Array(_) | Frame::Repeat(_) | Frame::Group(_) => closed,
        Frame::Tuple(_) => Asked {
            needs_comma: is_one,
            ..closed
        },
        Frame::Struct(_, _, _, dots) => Asked {
            needs_comma: dots,
            ..closed
        },
        Frame::If(_) | Frame::While(_, _) | Frame::ForLoop(_, _, _, _) => open,
        Frame::Match(_, brace) => Asked {
            brace: *brace,
            ..open
        },
        Frame::Closure(_) => open,
    }
}

/// Whether a list holds one value.
#[tactic(auto, using(crate::proofs::Rounds::singles))]
fn is_single<T>(list: &Punctuated<T, Comma>) -> bool
    ensures { result ≡ placed.is_single (values list.now) }
{
    list.len() == 1
}

/// Whether there is one field, or none before the rest.
fn is_one_field<E>(fields: &Punctuated<FieldValueOf<E>, Comma>, rest: &Option<Box<E>>) -> bool
    ensures { result ≡ placed.is_one_field (values fields.now) (is_some rest.now) }
{
    match rest {
        Some(_) => fields.first().is_none(),
        None => is_single(fields),
    }
}

/// Whether there is one operand.
#[tactic(auto, using(crate::proofs::Rounds::ones))]
pub fn is_one<E, A>(operands: Operands<'_, E, A>) -> bool
    ensures { (tree : E → Tree) (arm : A → ArmView) → result ≡ e.is_one (operand_children (operands_of tree arm operands.entry)) }
{
    match operands {
        Operands::None => false,
        Operands::One(_) => false,
        Operands::Two(_, _) => false,
        Operands::Call(_, elements) => is_single(elements),
        Operands::Index(_, _) => true,
        Operands::Elements(elements) => is_single(elements),
        Operands::Grouped(_) => true,
        Operands::Repeated(_, _, _) => false,
        Operands::Fields(fields, _, rest) => is_one_field(fields, rest),
        Operands::If(_, _, otherwise) => otherwise.is_none(),
        Operands::Loop(_, _) => true,
        Operands::Arms(_, _, arms) => arms.is_empty(),
        Operands::Body(_) => true,
    }
}

/// What is asked of the frame of a node.
fn around<E: HasShape>(x: &E) -> Asked
    requires { is_some (frame_at (E.tree x.now)) ≡ true }
    ensures enclosed { result.is_enclosed ≡ placed.is_enclosed (frame_at (E.tree x.now)) }
    ensures comma { result.needs_comma ≡ placed.needs_comma (frame_at (E.tree x.now)) (operand_children (operands_at (E.tree x.now))) }
{
    let is_one = is_one(x.operands());
    round(x.frame().unwrap(), is_one)
}

// ---- operands

/// Prints what a loop looks at, and its block.
#[tactic(auto, using(syn_tokens::proofs::Fronts::fronts))]
fn looped<E: HasPrint, F: Fn(&mut TokenStream, &mut Summaries, &E, Context) -> PutResult>(
    bare: &F,
    tokens: &mut TokenStream,
    summaries: &mut Summaries,
    head: &E,
    braces: Braces<'_>,
) -> PutResult
    requires callable { Callable E.tree (size (E.tree head.now) + 1) (F.pre bare.now) }
    requires prints { Prints E.tree (F.post bare.now) }
    requires stacked { EndsWith summaries.old.left.items (stack (E.tree head.now)) }
    ensures text { OnOk result (tokens.new ≡ tokens.old ++ (printed.whole next.in_condition (E.tree head.now) ++ body_own (braces_of braces.entry) [])) }
    ensures front { IsFront tokens.old tokens.new }
    ensures taken { OnOk result (Taken summaries.old summaries.new (stack (E.tree head.now))) }
{
    whole(bare, tokens, summaries, head, in_condition())?;
    put_body(tokens, braces)
}

/// Prints what a `match` looks at, and its arms in their braces, after the inner attributes.
#[tactic(auto, using(syn_tokens::proofs::Fronts::fronts, crate::proofs::Stacks::takes))]
fn chosen<E: HasPrint + HasArms, F: Fn(&mut TokenStream, &mut Summaries, &E, Context) -> PutResult>(
    bare: &F,
    tokens: &mut TokenStream,
    summaries: &mut Summaries,
    scrutinee: &E,
    attrs: &Vec<Attribute>,
    brace: Brace,
    arms: &Vec<E::Arm>,
) -> PutResult
where
    E::Arm: HasArmHead,
    requires callable { Callable E.tree (size (E.tree scrutinee.now) + (total (λ x. arm_size (E.Arm.view x)) arms.now.items + 1)) (F.pre bare.now) }
    requires prints { Prints E.tree (F.post bare.now) }
    requires stacked { EndsWith summaries.old.left.items (backwards (λ x. arm_below (E.Arm.view x)) arms.now.items ++ stack (E.tree scrutinee.now)) }
    ensures text { OnOk result (tokens.new ≡ tokens.old ++ (printed.whole next.in_condition (E.tree scrutinee.now) ++ own_parts.enclosed del.Brace (attributes_own (inners (inner_of attrs.now)) [] ++ arms_spelled (map E.Arm.view arms.now.items)) [])) }
    ensures front { IsFront tokens.old tokens.new }
    ensures taken { OnOk result (Taken summaries.old summaries.new (backwards (λ x. arm_below (E.Arm.view x)) arms.now.items ++ stack (E.tree scrutinee.now))) }
{
    whole(bare, tokens, summaries, scrutinee, in_condition())?;
    let mut inside = TokenStream::new(tokens.alloc());
    put_inner(&mut inside, attrs)?;
    match_expr::arms(bare, &mut inside, summaries, arms)?;
    put_braces(tokens, &brace, inside)
}

/// Prints what comes after `else`: an `if` without its attributes, a block, or anything else in braces.
#[cycle(frame)]
#[tactic(auto, using(syn_tokens::proofs::Fronts::fronts))]
fn chained<
    E: HasPrint + HasArms,
    F: Fn(&mut TokenStream, &mut Summaries, &E, Context) -> PutResult,
>(bare: &F, tokens: &mut TokenStream, summaries: &mut Summaries, x: &E) -> PutResult
where
    E::Arm: HasArmHead,
    E::Pat: PutPat,
    requires callable { Callable E.tree (size (E.tree x.now) + 1) (F.pre bare.now) }
    requires prints { Prints E.tree (F.post bare.now) }
    requires stacked { EndsWith summaries.old.left.items (stack (E.tree x.now)) }
    ensures text { OnOk result (tokens.new ≡ tokens.old ++ piece_spelled e.chained (E.tree x.now)) }
    ensures front { IsFront tokens.old tokens.new }
    ensures taken { OnOk result (Taken summaries.old summaries.new (stack (E.tree x.now))) }
{
    let summary = take_summary(summaries, x);
    if is_if_expr(x) {
        frame(bare, tokens, summaries, x)
    } else if is_block(x) {
        inside(bare, tokens, summaries, x, false, enclosed())
    } else {
        braced(bare, tokens, summaries, x, summary)
    }
}

/// Prints the condition of an `if`, and its block.
#[tactic(auto, using(syn_tokens::proofs::Fronts::fronts), unfolding(syn_lower_spec::specs::Own::block_own))]
fn guarded<E: HasPrint, F: Fn(&mut TokenStream, &mut Summaries, &E, Context) -> PutResult>(
    bare: &F,
    tokens: &mut TokenStream,
    summaries: &mut Summaries,
    condition: &E,
    block: &Block,
) -> PutResult
    requires callable { Callable E.tree (size (E.tree condition.now) + 1) (F.pre bare.now) }
    requires prints { Prints E.tree (F.post bare.now) }
    requires stacked { EndsWith summaries.old.left.items (stack (E.tree condition.now)) }
    ensures text { OnOk result (tokens.new ≡ tokens.old ++ (printed.whole next.in_condition (E.tree condition.now) ++ body_own (body_of [] block.now.stmts) [])) }
    ensures front { IsFront tokens.old tokens.new }
    ensures taken { OnOk result (Taken summaries.old summaries.new (stack (E.tree condition.now))) }
{
    whole(bare, tokens, summaries, condition, in_condition())?;
    put(tokens, block)
}

/// Prints `else` and what comes after it, if there is such.
#[cycle(frame)]
#[tactic(auto, using(syn_tokens::proofs::Fronts::fronts, crate::proofs::Turns::turns))]
fn alternative<
    E: HasPrint + HasArms,
    F: Fn(&mut TokenStream, &mut Summaries, &E, Context) -> PutResult,
>(
    bare: &F,
    tokens: &mut TokenStream,
    summaries: &mut Summaries,
    otherwise: &Option<(Else, Box<E>)>,
) -> PutResult
where
    E::Arm: HasArmHead,
    E::Pat: PutPat,
    requires callable { Callable E.tree (option_size (else_tree E.tree otherwise.now) + 1) (F.pre bare.now) }
    requires prints { Prints E.tree (F.post bare.now) }
    requires stacked { EndsWith summaries.old.left.items (option_below (else_tree E.tree otherwise.now)) }
    ensures text { OnOk result (tokens.new ≡ tokens.old ++ else_spelled (else_tree E.tree otherwise.now)) }
    ensures front { IsFront tokens.old tokens.new }
    ensures taken { OnOk result (Taken summaries.old summaries.new (option_below (else_tree E.tree otherwise.now))) }
{
    match otherwise {
        Some((word, x)) => {
            put_else(tokens, word)?;
            chained::<E, F>(bare, tokens, summaries, x)
        }
        None => Ok(()),
    }
}

/// Prints the condition of an `if`, its block, and what comes after `else`.
#[cycle(frame)]
#[tactic(auto, using(syn_tokens::proofs::Fronts::fronts, crate::proofs::Stacks::takes))]
fn if_exprs<
    E: HasPrint + HasArms,
    F: Fn(&mut TokenStream, &mut Summaries, &E, Context) -> PutResult,
>(
    bare: &F,
    tokens: &mut TokenStream,
    summaries: &mut Summaries,
    condition: &E,
    block: &Block,
    otherwise: &Option<(Else, Box<E>)>,
) -> PutResult
where
    E::Arm: HasArmHead,
    E::Pat: PutPat,
    requires callable { Callable E.tree (size (E.tree condition.now) + (option_size (else_tree E.tree otherwise.now) + 1)) (F.pre bare.now) }
    requires prints { Prints E.tree (F.post bare.now) }
    requires stacked { EndsWith summaries.old.left.items (option_below (else_tree E.tree otherwise.now) ++ stack (E.tree condition.now)) }
    ensures text { OnOk result (tokens.new ≡ tokens.old ++ (printed.whole next.in_condition (E.tree condition.now) ++ (body_own (body_of [] block.now.stmts) [] ++ else_spelled (else_tree E.tree otherwise.now)))) }
    ensures front { IsFront tokens.old tokens.new }
    ensures taken { OnOk result (Taken summaries.old summaries.new (option_below (else_tree E.tree otherwise.now) ++ stack (E.tree condition.now))) }
{
    guarded(bare, tokens, summaries, condition, block)?;
    alternative(bare, tokens, summaries, otherwise)
}

/// Prints the operands of a node that are in places of their own, with what is between them: those of a frame, or what
/// a trailer holds. `needs_comma`: one is needed after the last; `brace`: those round the arms of a `match`.
#[cycle(frame)]
#[tactic(auto, using(syn_tokens::proofs::Fronts::fronts, crate::proofs::Stacks::takes, crate::proofs::Children::children, syn_expr_ast::proofs::Borrowed::based, crate::proofs::Matches::match_exprs, crate::proofs::Turns::nils))]
pub fn children<
    E: HasPrint + HasArms,
    F: Fn(&mut TokenStream, &mut Summaries, &E, Context) -> PutResult,
>(
    bare: &F,
    tokens: &mut TokenStream,
    summaries: &mut Summaries,
    operands: Operands<'_, E, E::Arm>,
    needs_comma: bool,
    brace: Brace,
) -> PutResult
where
    E::Arm: HasArmHead,
    E::Pat: PutPat,
    requires callable { Callable E.tree (children_size (operand_children (operands_of E.tree E.Arm.view operands)) + 1) (F.pre bare.now) }
    requires prints { Prints E.tree (F.post bare.now) }
    requires stacked { EndsWith summaries.old.left.items (children_below (operand_children (operands_of E.tree E.Arm.view operands))) }
    ensures text { OnOk result (tokens.new ≡ tokens.old ++ children_spelled needs_comma (operand_children (operands_of E.tree E.Arm.view operands.entry))) }
    ensures front { IsFront tokens.old tokens.new }
    ensures taken { OnOk result (Taken summaries.old summaries.new (children_below (operand_children (operands_of E.tree E.Arm.view operands.entry)))) }
{
    match operands {
        Operands::Call(_, xs) | Operands::Elements(xs) => {
            elements(bare, tokens, summaries, xs, needs_comma)
        }
        Operands::Index(_, x) | Operands::Grouped(x) => {
            whole::<E, F>(bare, tokens, summaries, x, enclosed())
        }
        Operands::Repeated(x, semi, len) => {
            repeated::<E, F>(bare, tokens, summaries, x, semi, len)
        }
        Operands::Fields(xs, dots, rest) => {
            fields(bare, tokens, summaries, xs, dots, rest, needs_comma)
        }
        Operands::If(condition, block, otherwise) => {
            if_exprs::<E, F>(bare, tokens, summaries, condition, block, otherwise)
        }
        Operands::Loop(head, braces) => looped::<E, F>(bare, tokens, summaries, head, braces),
        Operands::Arms(scrutinee, attrs, arms) => {
            chosen::<E, F>(bare, tokens, summaries, scrutinee, attrs, brace, arms)
        }
        Operands::Body(x) => output::<E, F>(bare, tokens, summaries, x),
        Operands::None => Ok(()),
        Operands::One(_) => Ok(()),
        Operands::Two(_, _) => Ok(()),
    }
}

/// Prints the operands of a node that has them in places of their own; its summary was taken.
#[cycle(frame)]
#[tactic(auto, using(syn_tokens::proofs::Fronts::fronts))]
fn content<
    E: HasPrint + HasArms,
    F: Fn(&mut TokenStream, &mut Summaries, &E, Context) -> PutResult,
>(bare: &F, tokens: &mut TokenStream, summaries: &mut Summaries, x: &E, asked: Asked) -> PutResult
where
    E::Arm: HasArmHead,
    E::Pat: PutPat,
    requires framed { is_some (frame_at (E.tree x.now)) ≡ true }
    requires callable { Callable E.tree (size (E.tree x.now)) (F.pre bare.now) }
    requires prints { Prints E.tree (F.post bare.now) }
    requires stacked { EndsWith summaries.old.left.items (below (E.tree x.now)) }
    ensures text { OnOk result (tokens.new ≡ tokens.old ++ children_spelled asked.needs_comma (operand_children (operands_at (E.tree x.now)))) }
    ensures front { IsFront tokens.old tokens.new }
    ensures taken { OnOk result (Taken summaries.old summaries.new (below (E.tree x.now))) }
{
    children(
        bare,
        tokens,
        summaries,
        x.operands(),
        asked.needs_comma,
        asked.brace,
    )
}

/// Prints a node that has its operands in places of their own, without the attributes before it; its summary was taken.
/// What is printed doesn't depend on where it is.
#[cycle(frame)]
#[tactic(auto, using(syn_tokens::proofs::Fronts::fronts, crate::proofs::Borrowed::frames))]
pub(crate) fn frame<
    E: HasPrint + HasArms,
    F: Fn(&mut TokenStream, &mut Summaries, &E, Context) -> PutResult,
>(bare: &F, tokens: &mut TokenStream, summaries: &mut Summaries, x: &E) -> PutResult
where
    E::Arm: HasArmHead,
    E::Pat: PutPat,
    requires framed { is_some (frame_at (E.tree x.now)) ≡ true }
    requires callable { Callable E.tree (size (E.tree x.now)) (F.pre bare.now) }
    requires prints { Prints E.tree (F.post bare.now) }
    requires stacked { EndsWith summaries.old.left.items (below (E.tree x.now)) }
    ensures text { (c : contexts.Context) → OnOk result (tokens.new ≡ tokens.old ++ spelled c (core (E.tree x.now))) }
    ensures front { IsFront tokens.old tokens.new }
    ensures taken { OnOk result (Taken summaries.old summaries.new (below (E.tree x.now))) }
{
    let asked = around(x);
    let is_enclosed = asked.is_enclosed;
    if is_enclosed {
        let mut inside = TokenStream::new(tokens.alloc());
        content(bare, &mut inside, summaries, x, asked)?;
        put_framed(tokens, x.frame().unwrap(), inside)
    } else {
        put_frame_head(tokens, x.frame().unwrap())?;
        content(bare, tokens, summaries, x, asked)
    }
}
