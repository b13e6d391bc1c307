//! The operators of ranges, each with its token (Rust Reference, "Range expressions").

ghost use Rattle.std.specs.Prelude.{◌≡◌, ◌≤◌, ◌+◌, IfOk};
ghost use Rattle.syn_expr_spec.specs.Head.{range_op};
ghost use Rattle.syn_expr_tokens.specs.Reads as spec;
ghost use Rattle.syn_expr_tokens.specs.View.{limits_kind};
ghost use Rattle.syn_tokens.specs.Input.{IsAfter};
ghost use Rattle.syn_tokens.specs.Tok.{weight};

use syn_expr_spec::kinds::Limits;
use syn_tokens::buffer::{Parse, ParseBuffer, ToTokens};
use syn_tokens::error::{Error, ErrorKind, Expected, Result};
use syn_tokens::token::{DotDot, DotDotDot, DotDotEq, Sign};
use syn_tokens::tree::TokenStream;

/// The operator of a range, with its token.
#[derive(Clone, Copy, Debug)]
pub enum RangeLimits {
    /// `..`
    HalfOpen(DotDot),
    /// `..=`
    Closed(DotDotEq),
}

/// The refusal where the operator of a range is expected.
fn no_limits(input: &ParseBuffer<'_>) -> Error
    ensures { result.kind ≡ spec.wanted_limits }
{
    input.error(ErrorKind::ExpectedToken(Expected::Two(DotDot::wanted(), DotDotEq::wanted())))
}

/// Takes `..` or `..=`, the longest token: `...` is none. Anything else is refused as `ExpectedToken`, of these two, and
/// nothing changes. It takes no memory.
#[tactic(auto, using(syn_tokens::proofs::Signs::fronts, syn_tokens::proofs::Inputs::tails), unfolding(syn_expr_spec::specs::Head::range_op, syn_tokens::specs::Sign::sign_text, syn_lower_spec::specs::Mark::sign_at))]
pub fn range_limits(input: &mut ParseBuffer<'_>) -> Result<RangeLimits>
    ensures value { spec.TakesLimits (range_op.reads input.old.rest) input.old result input.new }
    ensures after { IsAfter input.old input.new }
    ensures moves { IfOk result (λ _. 2 + weight input.new.rest ≤ weight input.old.rest) }
{
    if input.peek::<DotDotEq>() {
        let spans = input.spans();
        input.skip(3);
        return Ok(RangeLimits::Closed(Sign { spans }));
    }
    if input.peek::<DotDotDot>() || !input.peek::<DotDot>() {
        return Err(no_limits(input));
    }
    let spans = input.spans();
    input.skip(2);
    Ok(RangeLimits::HalfOpen(Sign { spans }))
}

impl RangeLimits {
    /// Its kind: all but its places.
    pub fn kind(&self) -> Limits
        ensures { result ≡ limits_kind self.now }
    {
        match self {
            RangeLimits::HalfOpen(_) => Limits::HalfOpen,
            RangeLimits::Closed(_) => Limits::Closed,
        }
    }

    /// As the reader, but the obsolete `...` is read too, as `Closed`. Anything else is refused as `ExpectedToken`, `..` or
    /// `..=`, and nothing changes. It takes no memory.
    #[tactic(auto, using(syn_tokens::proofs::Signs::fronts, syn_tokens::proofs::Inputs::tails), unfolding(crate::specs::Reads::obsolete_range_op, syn_tokens::specs::Sign::sign_text, syn_lower_spec::specs::Mark::sign_at))]
    pub fn parse_obsolete(input: &mut ParseBuffer<'_>) -> Result<RangeLimits>
        ensures value { spec.TakesLimits (spec.obsolete_range_op input.old.rest) input.old result input.new }
        ensures after { IsAfter input.old input.new }
        ensures moves { IfOk result (λ _. 2 + weight input.new.rest ≤ weight input.old.rest) }
    {
        if input.peek::<DotDotEq>() || input.peek::<DotDotDot>() {
            let spans = input.spans();
            input.skip(3);
            return Ok(RangeLimits::Closed(Sign { spans }));
        }
        if !input.peek::<DotDot>() {
            return Err(no_limits(input));
        }
        let spans = input.spans();
        input.skip(2);
        Ok(RangeLimits::HalfOpen(Sign { spans }))
    }
}

impl Parse for RangeLimits {
    ghost use Rattle.syn_expr_tokens.specs.Reads.{SpellsLimits, wanted_limits};
    ghost use Rattle.syn_expr_tokens.specs.View.{limits_kind};
    ghost use Rattle.syn_expr_spec.specs.declared.kinds.Limits.{Limits as Kind};

    ghost Seen = { Kind };

    ghost seen = { limits_kind };

    ghost spells = { SpellsLimits };

    ghost least = { 2 };

    ghost refuses = { λ _ kind. kind ≡ wanted_limits };

    /// Takes `..` or `..=`, the longest token: `...` is none. Anything else is refused there as `ExpectedToken`, of these
    /// two, and nothing changes. It takes no memory.
    fn parse(input: &mut ParseBuffer<'_>) -> Result<Self> {
        range_limits(input)
    }
}

#[tactic(auto, unfolding(syn_tokens::specs::Sign::sign_text))]
impl ToTokens for RangeLimits {
    ghost use Rattle.syn_expr_spec.specs.Op.{limits_text};
    ghost use Rattle.syn_expr_tokens.specs.View.{limits_kind};
    ghost use Rattle.syn_tokens.specs.Sign.{sign_toks};

    ghost printed = { λ op. sign_toks (limits_text (limits_kind op)) };

    /// Puts the operator's own puncts at the end, all but the last joined.
    fn to_tokens(&self, tokens: &mut TokenStream) -> Result<()> {
        match self {
            RangeLimits::HalfOpen(t) => t.to_tokens(tokens),
            RangeLimits::Closed(t) => t.to_tokens(tokens),
        }
    }
}
