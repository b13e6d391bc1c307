//! The arms of a `match` (Rust Reference, "Match expressions").

ghost use Rattle.std.specs.Prelude.{◌≡◌, ◌+◌, ◌++◌, ◌∷◌, ◌||◌, ◌&&◌, not, map, is_some, OnOk};
ghost use Rattle.syn_expr_fixup.specs.Below.{arm_below, backwards, option_below, total};
ghost use Rattle.syn_expr_print.specs.Placed.{arm_size, arm_spelled, arms_spelled, comma_if, guard_spelled, has_comma, option_size};
ghost use Rattle.syn_expr_ast.specs.Printed as printed;
ghost use Rattle.syn_expr_print.specs.Printing.{EndsWith};
ghost use Rattle.syn_expr_print.specs.Prints.{Callable, Prints};
ghost use Rattle.syn_expr_print.specs.Taken.{Taken};
ghost use Rattle.syn_expr_spec.specs.Next as next;
ghost use Rattle.syn_expr_spec.specs.Summaries.{stack};
ghost use Rattle.syn_expr_spec.specs.Tree as e;
ghost use Rattle.syn_expr_spec.specs.Tree.{size};
ghost use Rattle.syn_lower_leaves.specs.View.{mapped};
ghost use Rattle.syn_lower_spec.specs.Own.{alone, joint};
ghost use Rattle.syn_tokens.specs.Input.{IsFront};

use crate::operand::whole;
use crate::print::{HasPrint, Summaries};
use crate::put::frame::{ArmHead, HasArmHead, put_arm_head, put_arrow, put_comma, put_if};
use syn_expr_ast::label::is_block_like;
use syn_expr_ast::node::HasKind;
use syn_expr_ast::put::{PutResult, put};
use syn_expr_fixup::HasArms;
use syn_expr_fixup::context::{enclosed, in_arm};
use syn_expr_spec::next::Context;
use syn_tokens::token::{Comma, FatArrow, If};
use syn_tokens::tree::TokenStream;

/// Whether a comma is needed after an arm with this value: `more` arms follow.
fn needs_comma<E: HasKind>(more: bool, x: &E) -> bool
    ensures { result ≡ more && not (e.is_block_like (E.tree x.now)) }
{
    more && !is_block_like(x)
}

/// Prints a guard after its `if`, if there is one.
#[tactic(auto, using(syn_tokens::proofs::Fronts::fronts, crate::proofs::Turns::turns))]
fn guard<E: HasPrint, F: Fn(&mut TokenStream, &mut Summaries, &E, Context) -> PutResult>(
    bare: &F,
    tokens: &mut TokenStream,
    summaries: &mut Summaries,
    word: Option<&If>,
    guard: Option<&E>,
) -> PutResult
    requires word { is_some word ≡ is_some guard }
    requires callable { Callable E.tree (option_size (mapped (λ x. E.tree x.now) guard) + 1) (F.pre bare.now) }
    requires prints { Prints E.tree (F.post bare.now) }
    requires stacked { EndsWith summaries.old.left.items (option_below (mapped (λ x. E.tree x.now) guard)) }
    ensures text { OnOk result (tokens.new ≡ tokens.old ++ guard_spelled (mapped (λ x. E.tree x.now) guard.entry)) }
    ensures front { IsFront tokens.old tokens.new }
    ensures taken { OnOk result (Taken summaries.old summaries.new (option_below (mapped (λ x. E.tree x.now) guard.entry))) }
{
    match (word, guard) {
        (Some(word), Some(x)) => {
            put_if(tokens, word)?;
            whole(bare, tokens, summaries, x, enclosed())
        }
        _ => Ok(()),
    }
}

/// Puts the comma after an arm: its own, or one that is needed.
#[tactic(auto, using(syn_tokens::proofs::Fronts::fronts), unfolding(syn_tokens::specs::Sign::sign_text))]
fn put_arm_comma(tokens: &mut TokenStream, comma: &Option<Comma>, is_needed: bool) -> PutResult
    ensures text { OnOk result (tokens.new ≡ tokens.old ++ comma_if (is_some comma.now || is_needed)) }
    ensures front { IsFront tokens.old tokens.new }
{
    match comma {
        Some(comma) => put(tokens, comma),
        None if is_needed => put_comma(tokens),
        None => Ok(()),
    }
}

/// Prints the value of an arm after `=>`.
#[tactic(auto, using(syn_tokens::proofs::Fronts::fronts))]
fn body<E: HasPrint, F: Fn(&mut TokenStream, &mut Summaries, &E, Context) -> PutResult>(
    bare: &F,
    tokens: &mut TokenStream,
    summaries: &mut Summaries,
    arrow: &FatArrow,
    x: &E,
) -> PutResult
    requires callable { Callable E.tree (size (E.tree x.now) + 1) (F.pre bare.now) }
    requires prints { Prints E.tree (F.post bare.now) }
    requires stacked { EndsWith summaries.old.left.items (stack (E.tree x.now)) }
    ensures text { OnOk result (tokens.new ≡ tokens.old ++ (joint 61 ∷ alone 62 ∷ printed.whole next.in_arm (E.tree x.now))) }
    ensures front { IsFront tokens.old tokens.new }
    ensures taken { OnOk result (Taken summaries.old summaries.new (stack (E.tree x.now))) }
{
    put_arrow(tokens, arrow)?;
    whole(bare, tokens, summaries, x, in_arm())
}

/// Prints an arm: its attributes, its pattern, the guard, the value, and a comma where there is one or one is needed, since
/// `more` arms follow.
#[tactic(auto, using(syn_tokens::proofs::Fronts::fronts, crate::proofs::Stacks::takes, crate::proofs::Matches::guards))]
pub fn arm<
    E: HasPrint + HasArms,
    F: Fn(&mut TokenStream, &mut Summaries, &E, Context) -> PutResult,
>(
    bare: &F,
    tokens: &mut TokenStream,
    summaries: &mut Summaries,
    arm: &E::Arm,
    more: bool,
) -> PutResult
where
    E::Arm: HasArmHead,
    requires callable { Callable E.tree (arm_size (E.Arm.view arm.now) + 1) (F.pre bare.now) }
    requires prints { Prints E.tree (F.post bare.now) }
    requires stacked { EndsWith summaries.old.left.items (arm_below (E.Arm.view arm.now)) }
    ensures text { OnOk result (tokens.new ≡ tokens.old ++ (arm_spelled (E.Arm.view arm.now) ++ comma_if (has_comma (E.Arm.view arm.now) more))) }
    ensures front { IsFront tokens.old tokens.new }
    ensures taken { OnOk result (Taken summaries.old summaries.new (arm_below (E.Arm.view arm.now))) }
{
    put_arm_head(tokens, arm)?;
    let ArmHead {
        attrs: _,
        pat: _,
        if_token,
        arrow,
        comma,
    } = arm.head();
    let x = E::body(arm);
    guard(bare, tokens, summaries, if_token, E::guard(arm))?;
    body(bare, tokens, summaries, arrow, x)?;
    put_arm_comma(tokens, comma, needs_comma(more, x))
}

/// Prints the arms of a `match`.
#[tactic(auto, using(syn_tokens::proofs::Fronts::fronts, crate::proofs::Turns::turns))]
pub(crate) fn arms<
    E: HasPrint + HasArms,
    F: Fn(&mut TokenStream, &mut Summaries, &E, Context) -> PutResult,
>(bare: &F, tokens: &mut TokenStream, summaries: &mut Summaries, mut arms: &[E::Arm]) -> PutResult
where
    E::Arm: HasArmHead,
    requires callable { Callable E.tree (total (λ x. arm_size (E.Arm.view x)) arms.now + 1) (F.pre bare.now) }
    requires prints { Prints E.tree (F.post bare.now) }
    requires stacked { EndsWith summaries.old.left.items (backwards (λ x. arm_below (E.Arm.view x)) arms.now) }
    ensures text { OnOk result (tokens.new ≡ tokens.old ++ arms_spelled (map E.Arm.view arms.entry.now)) }
    ensures front { IsFront tokens.old tokens.new }
    ensures taken { OnOk result (Taken summaries.old summaries.new (backwards (λ x. arm_below (E.Arm.view x)) arms.entry.now)) }
{
    'arms: while let [arm, more @ ..] = arms {
        self::arm(bare, tokens, summaries, arm, !more.is_empty())?;
        arms = more;
    }
    Ok(())
}
