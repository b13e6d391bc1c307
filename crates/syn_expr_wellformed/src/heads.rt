//! Whether what holds patterns is read back, but for its operands.

ghost use Rattle.std.specs.List.{list_all};
ghost use Rattle.std.specs.Prelude.{◌≡◌, ◌&&◌, true, not, map, is_some};
ghost use Rattle.syn_expr_ast.specs.Node.{closure_of, frame_seen, inputs_of, prefix_seen};
ghost use Rattle.syn_expr_ast.specs.Pats.{guards};
ghost use Rattle.syn_expr_wellformed.specs.Alone as spec;
ghost use Rattle.syn_expr_spec.specs.WellFormed.{head_fits};
ghost use Rattle.syn_lower.specs.View.{return_of, values};
ghost use Rattle.syn_lower_spec.specs.Form.{is_nil};
ghost use Rattle.syn_lower_spec.specs.Part.{is_default};

use crate::fits::path_fits;
use syn_expr_ast::node::{Closure, Frame, HasShape, Prefix};
use syn_expr_tokens::modifiers::ClosureModifiers;
use syn_lower::punctuated::Punctuated;
use syn_lower::ty::ReturnType;
use syn_tokens::token::{Comma, Move};

/// A type of expressions that can be tested for whether the patterns in them are read back.
pub trait HasPatFits: HasShape {
    /// Whether a pattern is read back where there may be alternatives, and no guard is in it.
    fn pat_fits(pat: &Self::Pat) -> bool
        ensures { result ≡ spec.fits_alone true (Self.Pat.view pat.now) };

    /// Whether a pattern is read back as an argument of a closure, and no guard is in it.
    fn argument_fits(pat: &Self::Pat) -> bool
        ensures { result ≡ spec.argument_fits (Self.Pat.view pat.now) };
}

/// Whether each of the arguments of a closure that commas follow is read back.
fn pairs_fit<E: HasPatFits>(mut pairs: &[(E::Pat, Comma)]) -> bool
    ensures { result ≡ list_all (λ p. spec.argument_fits (E.Pat.view p)) (map (λ q. q.0) pairs.entry.now) }
{
    'pairs: while let [(pat, _), more @ ..] = pairs {
        if !E::argument_fits(pat) {
            return false;
        }
        pairs = more;
    }
    true
}

/// Whether each argument of a closure is read back.
#[tactic(auto, using(syn_lower_leaves::proofs::Fitting::lists), unfolding(syn_lower_leaves::specs::View::values))]
fn arguments_fit<E: HasPatFits>(list: &Punctuated<E::Pat, Comma>) -> bool
    ensures { result ≡ list_all (λ p. spec.argument_fits (E.Pat.view p)) (values list.now) }
{
    if !pairs_fit::<E>(&list.inner) {
        return false;
    }
    match &list.last {
        Some(pat) => E::argument_fits(pat),
        None => true,
    }
}

/// Whether an output is given.
fn has_output(output: &ReturnType) -> bool
    ensures { result ≡ not (is_default (return_of output.now)) }
{
    matches!(output, ReturnType::Given(_, _))
}

/// Whether `move` and `use` don't both are there.
fn captures_fit(capture: &Option<Move>, modifiers: &ClosureModifiers) -> bool
    ensures { result ≡ not (is_some capture.now && is_some modifiers.now.use_token) }
{
    !(capture.is_some() && modifiers.use_token.is_some())
}

/// Whether a closure is read back up to its body, and no guard is in its arguments.
fn closure_fits<E: HasPatFits>(closure: Closure<'_, E::Pat>) -> bool
    ensures { result ≡ (head_fits (closure_of E.Pat.view closure.entry) && is_nil (guards (inputs_of E.Pat.view closure.entry))) }
{
    if !captures_fit(closure.capture, closure.modifiers) {
        return false;
    }
    arguments_fit::<E>(closure.inputs) && closure.output.is_read_back(true)
}

/// Whether what comes before an operand is read back, and no guard is in its patterns.
#[tactic(auto, using(crate::proofs::Closures::ends))]
pub fn prefix_fits<E: HasPatFits>(prefix: Prefix<'_, E::Pat>) -> bool
    ensures { result ≡ spec.prefix_alone (prefix_seen E.Pat.view prefix.entry) }
{
    match prefix {
        Prefix::Let(_, pat, _) => E::pat_fits(pat),
        Prefix::Closure(closure) => {
            let has_output = has_output(closure.output);
            closure_fits::<E>(closure) && !has_output
        }
        Prefix::Unary(_) | Prefix::Reference(_, _) | Prefix::RawAddr(_, _, _) | Prefix::Range(_) =>
            true,
        Prefix::Jump(_) => true,
    }
}

/// Whether a frame without its operands is read back, and no guard is in its patterns.
#[tactic(auto, using(crate::proofs::Closures::ends))]
pub fn frame_fits<E: HasPatFits>(frame: Frame<'_, E::Pat>) -> bool
    ensures { result ≡ spec.frame_alone (frame_seen E.Pat.view frame.entry) }
{
    match frame {
        Frame::Struct(qself, path, _, _) => path_fits(qself, path),
        Frame::Closure(closure) => {
            let has_output = has_output(closure.output);
            closure_fits::<E>(closure) && has_output
        }
        Frame::ForLoop(_, _, pat, _) => E::pat_fits(pat),
        Frame::Array(_)
        | Frame::Tuple(_)
        | Frame::Repeat(_)
        | Frame::If(_)
        | Frame::While(_, _)
        | Frame::Match(_, _) => true,
        Frame::Group(_) => false,
    }
}
