//! The fields of struct expressions (Rust Reference, "Struct expressions").

ghost use Rattle.std.specs.Prelude.{◌≡◌, ◌+◌, ◌++◌, ◌∷◌, [], ◌||◌, map, is_some, OnOk};
ghost use Rattle.syn_expr_fixup.specs.Below.{backwards, field_below, option_below, total};
ghost use Rattle.syn_expr_ast.specs.View as view;
ghost use Rattle.syn_expr_ast.specs.View.{boxed, field_value_of, option_child};
ghost use Rattle.syn_expr_print.specs.Placed.{last_field_below, last_field_size, last_field_spelled, option_size, rest_spelled};
ghost use Rattle.syn_expr_ast.specs.Printed.{field_spelled};
ghost use Rattle.syn_expr_print.specs.Printing.{EndsWith, children_spelled};
ghost use Rattle.syn_expr_print.specs.Prints.{Callable, Prints};
ghost use Rattle.syn_expr_print.specs.Taken.{Taken};
ghost use Rattle.syn_expr_spec.specs.Summaries.{children_below};
ghost use Rattle.syn_expr_spec.specs.Tree as e;
ghost use Rattle.syn_expr_spec.specs.Tree.{Tree, size, children_size};
ghost use Rattle.syn_lower_leaves.specs.Printed.{comma, pairs_printed};
ghost use Rattle.syn_lower_leaves.specs.View.{values, trails};
ghost use Rattle.syn_lower_spec.specs.Own.{alone, joint};
ghost use Rattle.syn_tokens.specs.Input.{IsFront};

use crate::operand::whole;
use crate::print::{HasPrint, Summaries};
use crate::put::frame::{put_comma, put_dots, put_field_head};
use syn_expr_ast::put::{PutResult, put};
use syn_expr_ast::structure::FieldValueOf;
use syn_expr_fixup::context::enclosed;
use syn_expr_spec::next::Context;
use syn_lower::punctuated::Punctuated;
use syn_tokens::token::{Comma, DotDot};
use syn_tokens::tree::TokenStream;

/// Prints a field. Without a colon its value isn't spelled, and has no summaries.
#[tactic(auto, using(syn_tokens::proofs::Fronts::fronts, crate::proofs::Turns::turns), unfolding(syn_expr_ast::specs::Printed::field_spelled))]
pub fn field<E: HasPrint, F: Fn(&mut TokenStream, &mut Summaries, &E, Context) -> PutResult>(
    bare: &F,
    tokens: &mut TokenStream,
    summaries: &mut Summaries,
    field: &FieldValueOf<E>,
) -> PutResult
    requires callable { Callable E.tree (size (field_value_of E.tree field.now).value + 1) (F.pre bare.now) }
    requires prints { Prints E.tree (F.post bare.now) }
    requires stacked { EndsWith summaries.old.left.items (field_below (field_value_of E.tree field.now)) }
    ensures text { OnOk result (tokens.new ≡ tokens.old ++ field_spelled (field_value_of E.tree field.now)) }
    ensures front { IsFront tokens.old tokens.new }
    ensures taken { OnOk result (Taken summaries.old summaries.new (field_below (field_value_of E.tree field.now))) }
{
    put_field_head(tokens, field)?;
    if field.colon_token.is_some() {
        whole(bare, tokens, summaries, &field.expr, enclosed())
    } else {
        Ok(())
    }
}

/// Prints fields with the commas after them.
#[tactic(auto, using(syn_tokens::proofs::Fronts::fronts, crate::proofs::Turns::turns), unfolding(syn_tokens::specs::Sign::sign_text))]
fn pairs<E: HasPrint, F: Fn(&mut TokenStream, &mut Summaries, &E, Context) -> PutResult>(
    bare: &F,
    tokens: &mut TokenStream,
    summaries: &mut Summaries,
    mut pairs: &[(FieldValueOf<E>, Comma)],
) -> PutResult
    requires callable { Callable E.tree (total (λ q. size (field_value_of E.tree q.0).value) pairs.now + 1) (F.pre bare.now) }
    requires prints { Prints E.tree (F.post bare.now) }
    requires stacked { EndsWith summaries.old.left.items (backwards (λ q. field_below (field_value_of E.tree q.0)) pairs.now) }
    ensures text { OnOk result (tokens.new ≡ tokens.old ++ pairs_printed (λ x. field_spelled (field_value_of E.tree x)) comma pairs.entry.now) }
    ensures front { IsFront tokens.old tokens.new }
    ensures taken { OnOk result (Taken summaries.old summaries.new (backwards (λ q. field_below (field_value_of E.tree q.0)) pairs.entry.now)) }
{
    'pairs: while let [(field, comma), more @ ..] = pairs {
        self::field(bare, tokens, summaries, field)?;
        put(tokens, comma)?;
        pairs = more;
    }
    Ok(())
}

/// Prints the last field, after which there is no comma, with one where it is needed.
#[tactic(auto, using(syn_tokens::proofs::Fronts::fronts, crate::proofs::Turns::turns))]
fn last_field<E: HasPrint, F: Fn(&mut TokenStream, &mut Summaries, &E, Context) -> PutResult>(
    bare: &F,
    tokens: &mut TokenStream,
    summaries: &mut Summaries,
    field: &Option<Box<FieldValueOf<E>>>,
    needs_comma: bool,
) -> PutResult
    requires callable { Callable E.tree (last_field_size (boxed (field_value_of E.tree) field.now) + 1) (F.pre bare.now) }
    requires prints { Prints E.tree (F.post bare.now) }
    requires stacked { EndsWith summaries.old.left.items (last_field_below (boxed (field_value_of E.tree) field.now)) }
    ensures text { OnOk result (tokens.new ≡ tokens.old ++ last_field_spelled (boxed (field_value_of E.tree) field.now) needs_comma) }
    ensures front { IsFront tokens.old tokens.new }
    ensures taken { OnOk result (Taken summaries.old summaries.new (last_field_below (boxed (field_value_of E.tree) field.now))) }
{
    if let Some(x) = field {
        self::field::<E, F>(bare, tokens, summaries, x)?;
        if needs_comma {
            put_comma(tokens)?;
        }
    }
    Ok(())
}

/// Whether a comma is needed after the last field: `needs_comma` says so, or what the other fields are taken of follows.
#[tactic(auto, using(crate::proofs::Pairs::rests))]
fn is_before_rest<E>(needs_comma: bool, rest: &Option<Box<E>>) -> bool
    ensures { (tree : E → Tree) → result ≡ needs_comma || is_some (boxed tree rest.now) }
{
    needs_comma || rest.is_some()
}

/// Puts the `..` before the rest, which is there whether the value has it or not.
#[tactic(auto, using(syn_tokens::proofs::Fronts::fronts), unfolding(syn_tokens::specs::Sign::sign_text))]
fn put_rest_dots(tokens: &mut TokenStream, dots: &Option<DotDot>) -> PutResult
    ensures text { OnOk result (tokens.new ≡ tokens.old ++ joint 46 ∷ alone 46 ∷ []) }
    ensures front { IsFront tokens.old tokens.new }
{
    match dots {
        Some(dots) => put(tokens, dots),
        None => put_dots(tokens),
    }
}

/// Prints what the other fields are taken of, if there is such, after `..`.
#[tactic(auto, using(syn_tokens::proofs::Fronts::fronts, crate::proofs::Turns::turns))]
fn rest<E: HasPrint, F: Fn(&mut TokenStream, &mut Summaries, &E, Context) -> PutResult>(
    bare: &F,
    tokens: &mut TokenStream,
    summaries: &mut Summaries,
    dots: &Option<DotDot>,
    rest: &Option<Box<E>>,
) -> PutResult
    requires callable { Callable E.tree (option_size (boxed E.tree rest.now) + 1) (F.pre bare.now) }
    requires prints { Prints E.tree (F.post bare.now) }
    requires stacked { EndsWith summaries.old.left.items (option_below (boxed E.tree rest.now)) }
    ensures text { OnOk result (tokens.new ≡ tokens.old ++ rest_spelled (boxed E.tree rest.now)) }
    ensures front { IsFront tokens.old tokens.new }
    ensures taken { OnOk result (Taken summaries.old summaries.new (option_below (boxed E.tree rest.now))) }
{
    match rest {
        Some(x) => {
            put_rest_dots(tokens, dots)?;
            whole::<E, F>(bare, tokens, summaries, x, enclosed())
        }
        None => Ok(()),
    }
}

/// Prints the fields of a struct expression with their commas, and what the other fields are taken of. After the last
/// field a comma is where there is one, where more follows, or where `needs_comma` is set.
#[tactic(auto, using(syn_tokens::proofs::Fronts::fronts))]
pub(crate) fn fields<
    E: HasPrint,
    F: Fn(&mut TokenStream, &mut Summaries, &E, Context) -> PutResult,
>(
    bare: &F,
    tokens: &mut TokenStream,
    summaries: &mut Summaries,
    fields: &Punctuated<FieldValueOf<E>, Comma>,
    dots: &Option<DotDot>,
    rest: &Option<Box<E>>,
    needs_comma: bool,
) -> PutResult
    requires callable { Callable E.tree (children_size (view.fields (map (field_value_of E.tree) (values fields.now)) (trails fields.now) (option_child (e.rest (is_some dots.now)) (boxed E.tree rest.now))) + 1) (F.pre bare.now) }
    requires prints { Prints E.tree (F.post bare.now) }
    requires stacked { EndsWith summaries.old.left.items (children_below (view.fields (map (field_value_of E.tree) (values fields.now)) (trails fields.now) (option_child (e.rest (is_some dots.now)) (boxed E.tree rest.now)))) }
    ensures text { OnOk result (tokens.new ≡ tokens.old ++ children_spelled needs_comma (view.fields (map (field_value_of E.tree) (values fields.now)) (trails fields.now) (option_child (e.rest (is_some dots.now)) (boxed E.tree rest.now)))) }
    ensures front { IsFront tokens.old tokens.new }
    ensures taken { OnOk result (Taken summaries.old summaries.new (children_below (view.fields (map (field_value_of E.tree) (values fields.now)) (trails fields.now) (option_child (e.rest (is_some dots.now)) (boxed E.tree rest.now))))) }
{
    pairs(bare, tokens, summaries, &fields.inner)?;
    let is_needed = is_before_rest(needs_comma, rest);
    last_field(bare, tokens, summaries, &fields.last, is_needed)?;
    self::rest(bare, tokens, summaries, dots, rest)
}
