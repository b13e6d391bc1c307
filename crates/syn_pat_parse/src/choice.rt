//! Which pattern comes first, alternatives, and the arguments of closures (Rust Reference, "Patterns", "Or-patterns",
//! "Closure expressions").

ghost use Rattle.std.specs.Prelude.{◌≡◌, ◌≤◌, ◌+◌, [], is_some, map, false, IfOk};
ghost use Rattle.syn_lower_leaves.specs.Reads.{Reads};
ghost use Rattle.syn_lower_spec.specs.Form as form;
ghost use Rattle.syn_lower_spec.specs.Part as part;
ghost use Rattle.syn_lower_spec.specs.Pat as pat;
ghost use Rattle.syn_pat.specs.View as view;
ghost use Rattle.syn_pat_parse.specs.Reads.{Callable, ReadsPat};
ghost use Rattle.syn_tokens.specs.Tok.{weight};

use crate::front as first;
use crate::grammar::{Grammar, const_pat, literal, open_range, wild};
use crate::kinds::ReadPat;
use std::alloc::Global;
use syn_lower::readers::ty;
use syn_lower_leaves::front;
use syn_lower_leaves::front::path_at;
use syn_lower_leaves::leaf::outer_attributes;
use syn_lower_leaves::punctuated::Punctuated;
use syn_pat::kinds::IsPat;
use syn_pat::pat::{PatOrOf, PatTypeOf};
use syn_tokens::buffer::ParseBuffer;
use syn_tokens::error::{ErrorKind, Part, Result};
use syn_tokens::token::{Bracket, Or, Paren};

/// The only pattern of these, where no `|` was read; else they are alternatives.
fn alternatives<P: IsPat + Drop>(
    alloc: Global,
    leading_vert: Option<Or>,
    cases: Punctuated<P, Or>,
) -> P
    requires { view.trails cases ≡ false }
    ensures tree { (P.view result).tree ≡ pat.to_or (is_some leading_vert, map (λ x. (P.view x).tree) (view.values cases)) }
    ensures guards { (P.view result).guards ≡ view.guards_in P.view (view.values cases) }
{
    let attrs = Vec::new(alloc);
    if leading_vert.is_some() {
        return P::or(PatOrOf {
            attrs,
            leading_vert,
            cases,
        });
    }
    match cases.into_one() {
        Ok(pat) => Box::into_inner(pat),
        Err(cases) => P::or(PatOrOf {
            attrs,
            leading_vert,
            cases,
        }),
    }
}

impl<P: ReadPat + Drop, F: Fn(&mut ParseBuffer<'_>, bool) -> Result<P>> Grammar<F> {
    /// Reads a single pattern that begins with neither a sign of its own, a word nor a group. Where none does, it is refused as
    /// `ExpectedPart` of a pattern.
    #[tactic(auto, using(crate::proofs::Rests::patterns))]
    fn at_operand(&self, input: &mut ParseBuffer<'_>) -> Result<P>
        requires callable { Callable (weight input.old.rest) (F.pre self.now.pat) }
        requires reads { ReadsPat P.view (F.post self.now.pat) }
        ensures value { Reads (λ x. (P.view x).tree) ((form.when pat.dots.at (form.shown pat.to_open pat.from_open pat.range_end) (form.when pat.lit_first (form.shown pat.to_lit pat.from_lit (form.both part.lit (form.maybe pat.dots.at pat.range_end))) (form.when pat.binding_at (pat.binding pat.pattern) (pat.path_pat pat.pattern)))).reads input.old.rest) result input.new.rest }
        ensures unguarded { IfOk result (λ x. (P.view x).guards ≡ []) }
        ensures noted { input.new.noted ≡ input.old.noted }
        ensures shrinks { weight input.new.rest ≤ weight input.old.rest }
    {
        if first::dots_at(input) {
            return open_range(input);
        }
        if first::lit_first(input) {
            return literal(input);
        }
        if first::binding_at(input) {
            return self.binding(input);
        }
        if path_at(input) {
            return self.path(input);
        }
        Err(input.error(ErrorKind::ExpectedPart(Part::Pattern)))
    }

    /// Reads a single pattern, as what comes first says.
    #[tactic(auto, unfolding(syn_lower_spec::specs::Pat::single))]
    pub fn single(&self, input: &mut ParseBuffer<'_>) -> Result<P>
        requires callable { Callable (weight input.old.rest) (F.pre self.now.pat) }
        requires reads { ReadsPat P.view (F.post self.now.pat) }
        ensures value { Reads (λ x. (P.view x).tree) ((pat.single pat.pattern).reads input.old.rest) result input.new.rest }
        ensures unguarded { IfOk result (λ x. (P.view x).guards ≡ []) }
        ensures noted { input.new.noted ≡ input.old.noted }
        ensures shrinks { weight input.new.rest ≤ weight input.old.rest }
    {
        if let Some(underscore_token) = front::underscore(input) {
            return Ok(wild(input.alloc(), underscore_token));
        }
        if let Some(const_token) = front::constant(input) {
            return const_pat(input, const_token);
        }
        if let Some(and_token) = front::and(input) {
            return self.reference(input, and_token);
        }
        if input.peek::<Paren>() {
            return self.round(input);
        }
        if input.peek::<Bracket>() {
            return self.slice(input);
        }
        self.at_operand(input)
    }

    /// Reads single patterns with `|` between.
    #[tactic(auto, using(crate::proofs::Loops::cases))]
    fn cases(&self, input: &mut ParseBuffer<'_>) -> Result<Punctuated<P, Or>>
        requires callable { Callable (weight input.old.rest) (F.pre self.now.pat) }
        requires reads { ReadsPat P.view (F.post self.now.pat) }
        ensures value { Reads (λ p. map (λ x. (P.view x).tree) (view.values p)) ((form.joined pat.vert (pat.single pat.pattern)).reads input.old.rest) result input.new.rest }
        ensures unguarded { IfOk result (λ p. view.guards_in P.view (view.values p) ≡ []) }
        ensures trails { IfOk result (λ p. view.trails p ≡ false) }
        ensures noted { input.new.noted ≡ input.old.noted }
        ensures shrinks { weight input.new.rest ≤ weight input.old.rest }
    {
        let mut found = Punctuated::new(input.alloc());
        'items: loop {
            found.push_value(self.single(input)?)?;
            let Some(vert) = first::vert(input) else {
                return Ok(found);
            };
            found.push_punct(vert)?;
        }
    }

    /// Reads a pattern with alternatives, `|` before the first or not.
    #[tactic(auto, unfolding(syn_lower_spec::specs::Pat::multi))]
    fn multi(&self, input: &mut ParseBuffer<'_>) -> Result<P>
        requires callable { Callable (weight input.old.rest) (F.pre self.now.pat) }
        requires reads { ReadsPat P.view (F.post self.now.pat) }
        ensures value { Reads (λ x. (P.view x).tree) ((pat.multi pat.pattern).reads input.old.rest) result input.new.rest }
        ensures unguarded { IfOk result (λ x. (P.view x).guards ≡ []) }
        ensures noted { input.new.noted ≡ input.old.noted }
        ensures shrinks { weight input.new.rest ≤ weight input.old.rest }
    {
        let leading_vert = first::vert(input);
        let cases = self.cases(input)?;
        Ok(alternatives(input.alloc(), leading_vert, cases))
    }

    /// Reads a pattern, with alternatives or without.
    #[tactic(auto, unfolding(syn_lower_spec::specs::Pat::at_width))]
    pub fn at_width(&self, input: &mut ParseBuffer<'_>, multi: bool) -> Result<P>
        requires callable { Callable (weight input.old.rest) (F.pre self.now.pat) }
        requires reads { ReadsPat P.view (F.post self.now.pat) }
        ensures value { Reads (λ x. (P.view x).tree) ((pat.at_width pat.pattern multi).reads input.old.rest) result input.new.rest }
        ensures unguarded { IfOk result (λ x. (P.view x).guards ≡ []) }
        ensures noted { input.new.noted ≡ input.old.noted }
        ensures shrinks { weight input.new.rest ≤ weight input.old.rest }
    {
        if multi {
            self.multi(input)
        } else {
            self.single(input)
        }
    }

    /// Reads the argument of a closure: attributes, a pattern without alternatives, and perhaps `:` and a type. The attributes
    /// are those of the pattern with its type, where it has one.
    #[tactic(auto, using(crate::proofs::Paths::args), unfolding(syn_lower_spec::specs::Pat::closure_arg))]
    pub fn closure_arg(&self, input: &mut ParseBuffer<'_>) -> Result<P>
        requires callable { Callable (weight input.old.rest + 1) (F.pre self.now.pat) }
        requires reads { ReadsPat P.view (F.post self.now.pat) }
        ensures value { Reads (λ x. (P.view x).tree) (pat.closure_arg.reads input.old.rest) result input.new.rest }
        ensures unguarded { IfOk result (λ x. (P.view x).guards ≡ []) }
        ensures noted { input.new.noted ≡ input.old.noted }
        ensures shrinks { weight input.new.rest ≤ weight input.old.rest }
    {
        let attrs = outer_attributes(input)?;
        let pat = self.inner(input, false)?;
        let Some(colon_token) = front::colon(input) else {
            return Ok(Box::into_inner(pat).with_attrs(attrs));
        };
        let ty = ty(input, true)?;
        Ok(P::typed(PatTypeOf {
            attrs,
            pat,
            colon_token,
            ty,
        }))
    }
}
