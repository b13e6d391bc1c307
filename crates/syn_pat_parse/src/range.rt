//! The readers of ranges and literals as patterns (Rust Reference, "Range patterns", "Literal patterns", "Rest patterns").

ghost use Rattle.std.specs.Prelude.{◌≡◌, ◌≤◌};
ghost use Rattle.syn_lower_leaves.specs.Reads.{Reads};
ghost use Rattle.syn_lower_spec.specs.Form as form;
ghost use Rattle.syn_lower_spec.specs.Pat as pat;
ghost use Rattle.syn_pat.specs.View as view;
ghost use Rattle.syn_tokens.specs.Tok.{weight};

use crate::front;
use syn_expr_tokens::limits::RangeLimits;
use syn_lower::qpath;
use syn_lower_leaves::front::dots;
use syn_lower_leaves::leaf::lit;
use syn_pat::pat::RangeBound;
use syn_tokens::buffer::{ParseBuffer, Token};
use syn_tokens::error::{ErrorKind, Expected, Result};
use syn_tokens::token::{DotDot, DotDotEq};

/// Reads a bound of a range.
#[tactic(auto, unfolding(syn_lower_spec::specs::Pat::range_bound))]
pub fn range_bound(input: &mut ParseBuffer<'_>) -> Result<RangeBound>
    ensures value { Reads view.bound_of (pat.range_bound.reads input.old.rest) result input.new.rest }
    ensures noted { input.new.noted ≡ input.old.noted }
    ensures shrinks { weight input.new.rest ≤ weight input.old.rest }
{
    if front::lit_first(input) {
        return Ok(RangeBound::Lit(lit(input)?));
    }
    let (qself, path) = qpath(input, true)?;
    Ok(RangeBound::Path { qself, path })
}

/// Reads the operator of a range; `...` is read as `..=`.
#[tactic(auto, unfolding(syn_lower_spec::specs::Pat::limits))]
pub fn limits(input: &mut ParseBuffer<'_>) -> Result<RangeLimits>
    ensures value { Reads view.is_closed (pat.limits.reads input.old.rest) result input.new.rest }
    ensures noted { input.new.noted ≡ input.old.noted }
    ensures shrinks { weight input.new.rest ≤ weight input.old.rest }
{
    if let Some(operator) = front::dots_eq(input) {
        return Ok(RangeLimits::Closed(operator));
    }
    if let Some(operator) = front::three_dots(input) {
        let spans = operator.spans;
        return Ok(RangeLimits::Closed(DotDotEq { spans }));
    }
    if let Some(operator) = dots(input) {
        return Ok(RangeLimits::HalfOpen(operator));
    }
    let wanted = Expected::One(DotDot::wanted());
    Err(input.error(ErrorKind::ExpectedToken(wanted)))
}

/// Reads a bound of a range, if one begins.
fn maybe_bound(input: &mut ParseBuffer<'_>) -> Result<Option<RangeBound>>
    ensures value { Reads (view.mapped view.bound_of) ((form.maybe pat.bound_at pat.range_bound).reads input.old.rest) result input.new.rest }
    ensures noted { input.new.noted ≡ input.old.noted }
    ensures shrinks { weight input.new.rest ≤ weight input.old.rest }
{
    if front::bound_at(input) {
        Ok(Some(range_bound(input)?))
    } else {
        Ok(None)
    }
}

/// Reads the operator of a range and the bound after it, which a closed range needs.
#[tactic(auto, unfolding(syn_lower_spec::specs::Pat::range_end))]
pub fn range_end(input: &mut ParseBuffer<'_>) -> Result<(RangeLimits, Option<RangeBound>)>
    ensures value { Reads (λ p. (view.is_closed p.0, view.mapped view.bound_of p.1)) (pat.range_end.reads input.old.rest) result input.new.rest }
    ensures noted { input.new.noted ≡ input.old.noted }
    ensures shrinks { weight input.new.rest ≤ weight input.old.rest }
{
    let limits = limits(input)?;
    match limits {
        RangeLimits::Closed(_) => {
            let end = range_bound(input)?;
            Ok((limits, Some(end)))
        }
        RangeLimits::HalfOpen(_) => {
            let end = maybe_bound(input)?;
            Ok((limits, end))
        }
    }
}
