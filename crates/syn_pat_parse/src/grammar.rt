//! The readers of patterns and of what they hold.
//!
//! They are methods that take the reader of the patterns inside as a function, so that each is proved by itself, whatever
//! the type of patterns is; a crate above ties the knot. A pattern that is read has no attributes and no guard.

ghost use Rattle.std.specs.Prelude.{◌≡◌, ◌≤◌, ◌+◌, [], map, true, false, IfOk};
ghost use Rattle.syn_lexer.specs.declared.front.Delimiter.TheVariants as del;
ghost use Rattle.syn_lower_leaves.specs.Reads.{Reads};
ghost use Rattle.syn_lower_spec.specs.Form as form;
ghost use Rattle.syn_lower_spec.specs.Mark as mark;
ghost use Rattle.syn_lower_spec.specs.Pat as pat;
ghost use Rattle.syn_lower_spec.specs.Part as part;
ghost use Rattle.syn_pat.specs.View as view;
ghost use Rattle.syn_pat_parse.specs.Reads.{Callable, ReadsPat};
ghost use Rattle.syn_tokens.specs.Front as front_spec;
ghost use Rattle.syn_tokens.specs.Tok.{weight};

use crate::front as first;
use crate::kinds::ReadPat;
use crate::range::range_end;
use std::alloc::{AllocError, Global};
use syn_expr_tokens::limits::RangeLimits;
use syn_expr_tokens::reader::member;
use syn_lower_leaves::front;
use syn_lower_leaves::leaf::{block, lit, name, outer_attributes};
use syn_lower_leaves::punctuated::Punctuated;
use syn_pat::kinds::IsPat;
use syn_pat::pat::{
    FieldPatKindOf, FieldPatOf, FullFieldPatOf, PatConst, PatIdentOf, PatLit, PatParenOf, PatRange,
    PatReferenceOf, PatRest, PatSliceOf, PatTupleOf, PatWild, RangeBound, ShortFieldPat,
};
use syn_tokens::buffer::ParseBuffer;
use syn_tokens::error::{ErrorKind, Expected, Result};
use syn_tokens::token::{And, At, Colon, Comma, Const, Paren, Underscore};

/// The readers over that of the patterns inside.
#[derive(Clone, Copy)]
pub struct Grammar<F> {
    /// Reads a pattern, with alternatives or without.
    pub pat: F,
}

/// A pattern in a box.
fn boxed<P: IsPat + Drop>(alloc: Global, pat: P) -> std::result::Result<Box<P>, AllocError>
    ensures { IfOk result (λ b. P.view b.value ≡ P.view pat) }
{
    Ok(Box::new(alloc, pat)?)
}

/// `_`, which was taken.
pub fn wild<P: IsPat>(alloc: Global, underscore_token: Underscore) -> P
    ensures { P.view result ≡ record { tree = pat.wild; guards = [] } }
{
    let attrs = Vec::new(alloc);
    P::wild(PatWild {
        attrs,
        underscore_token,
    })
}

/// Reads a block after `const`.
pub fn const_pat<P: IsPat>(input: &mut ParseBuffer<'_>, const_token: Const) -> Result<P>
    ensures value { Reads (λ x. (P.view x).tree) ((form.shown pat.a_block pat.from_block part.block).reads input.old.rest) result input.new.rest }
    ensures unguarded { IfOk result (λ x. (P.view x).guards ≡ []) }
    ensures noted { input.new.noted ≡ input.old.noted }
    ensures shrinks { weight input.new.rest ≤ weight input.old.rest }
{
    let attrs = Vec::new(input.alloc());
    let block = block(input)?;
    Ok(P::const_pat(PatConst {
        attrs,
        const_token,
        block,
    }))
}

/// Reads a range without a start, or `..` alone.
pub fn open_range<P: IsPat>(input: &mut ParseBuffer<'_>) -> Result<P>
    ensures value { Reads (λ x. (P.view x).tree) ((form.shown pat.to_open pat.from_open pat.range_end).reads input.old.rest) result input.new.rest }
    ensures unguarded { IfOk result (λ x. (P.view x).guards ≡ []) }
    ensures noted { input.new.noted ≡ input.old.noted }
    ensures shrinks { weight input.new.rest ≤ weight input.old.rest }
{
    let attrs = Vec::new(input.alloc());
    let (limits, end) = range_end(input)?;
    match (limits, end) {
        (RangeLimits::HalfOpen(dot2_token), None) => Ok(P::rest(PatRest { attrs, dot2_token })),
        (limits, end) => Ok(P::range(PatRange {
            attrs,
            start: None,
            limits,
            end,
        })),
    }
}

/// Reads a literal, or a range from it.
pub fn literal<P: IsPat>(input: &mut ParseBuffer<'_>) -> Result<P>
    ensures value { Reads (λ x. (P.view x).tree) ((form.shown pat.to_lit pat.from_lit (form.both part.lit (form.maybe pat.dots.at pat.range_end))).reads input.old.rest) result input.new.rest }
    ensures unguarded { IfOk result (λ x. (P.view x).guards ≡ []) }
    ensures noted { input.new.noted ≡ input.old.noted }
    ensures shrinks { weight input.new.rest ≤ weight input.old.rest }
{
    let attrs = Vec::new(input.alloc());
    let lit = lit(input)?;
    if !first::dots_at(input) {
        return Ok(P::lit(PatLit { attrs, lit }));
    }
    let (limits, end) = range_end(input)?;
    Ok(P::range(PatRange {
        attrs,
        start: Some(RangeBound::Lit(lit)),
        limits,
        end,
    }))
}

impl<P: ReadPat + Drop, F: Fn(&mut ParseBuffer<'_>, bool) -> Result<P>> Grammar<F> {
    /// Reads a pattern into a box.
    #[tactic(auto)]
    pub(crate) fn inner(&self, input: &mut ParseBuffer<'_>, multi: bool) -> Result<Box<P>>
        requires callable { Callable (weight input.old.rest + 1) (F.pre self.now.pat) }
        requires reads { ReadsPat P.view (F.post self.now.pat) }
        ensures value { Reads (λ x. (P.view x.value).tree) ((pat.pattern multi).reads input.old.rest) result input.new.rest }
        ensures unguarded { IfOk result (λ x. (P.view x.value).guards ≡ []) }
        ensures noted { input.new.noted ≡ input.old.noted }
        ensures shrinks { weight input.new.rest ≤ weight input.old.rest }
    {
        let pat = (self.pat)(input, multi)?;
        Ok(boxed(input.alloc(), pat)?)
    }

    /// Reads a reference after its `&`.
    #[tactic(auto, unfolding(syn_lower_spec::specs::Pat::reference_pat))]
    pub fn reference(&self, input: &mut ParseBuffer<'_>, and_token: And) -> Result<P>
        requires callable { Callable (weight input.old.rest + 1) (F.pre self.now.pat) }
        requires reads { ReadsPat P.view (F.post self.now.pat) }
        ensures value { Reads (λ x. (P.view x).tree) ((pat.reference_pat pat.pattern).reads input.old.rest) result input.new.rest }
        ensures unguarded { IfOk result (λ x. (P.view x).guards ≡ []) }
        ensures noted { input.new.noted ≡ input.old.noted }
        ensures shrinks { weight input.new.rest ≤ weight input.old.rest }
    {
        let attrs = Vec::new(input.alloc());
        let mutability = front::mutable(input);
        let pat = self.inner(input, false)?;
        Ok(P::reference(PatReferenceOf {
            attrs,
            and_token,
            mutability,
            pat,
        }))
    }

    /// Reads `@` and a pattern, or nothing.
    #[tactic(auto)]
    fn subpat(&self, input: &mut ParseBuffer<'_>) -> Result<Option<(At, Box<P>)>>
        requires callable { Callable (weight input.old.rest) (F.pre self.now.pat) }
        requires reads { ReadsPat P.view (F.post self.now.pat) }
        ensures value { Reads (view.sub_of P.view) ((form.case pat.at_sign (form.shown pat.sub pat.from_sub (pat.pattern false)) (form.pure pat.no_sub pat.has_no_sub)).reads input.old.rest) result input.new.rest }
        ensures unguarded { IfOk result (λ x. view.sub_guards P.view x ≡ []) }
        ensures noted { input.new.noted ≡ input.old.noted }
        ensures shrinks { weight input.new.rest ≤ weight input.old.rest }
    {
        let Some(at_token) = first::at_sign(input) else {
            return Ok(None);
        };
        let pat = self.inner(input, false)?;
        Ok(Some((at_token, pat)))
    }

    /// Reads a binding: a name, `ref` and `mut` before it or not, and perhaps `@` and a pattern.
    #[tactic(auto, unfolding(syn_lower_spec::specs::Pat::binding))]
    pub fn binding(&self, input: &mut ParseBuffer<'_>) -> Result<P>
        requires callable { Callable (weight input.old.rest) (F.pre self.now.pat) }
        requires reads { ReadsPat P.view (F.post self.now.pat) }
        ensures value { Reads (λ x. (P.view x).tree) ((pat.binding pat.pattern).reads input.old.rest) result input.new.rest }
        ensures unguarded { IfOk result (λ x. (P.view x).guards ≡ []) }
        ensures noted { input.new.noted ≡ input.old.noted }
        ensures shrinks { weight input.new.rest ≤ weight input.old.rest }
    {
        let attrs = Vec::new(input.alloc());
        let by_ref = first::by_ref(input);
        let mutability = front::mutable(input);
        let ident = name(input)?;
        let subpat = self.subpat(input)?;
        Ok(P::ident(PatIdentOf {
            attrs,
            by_ref,
            mutability,
            ident,
            subpat,
        }))
    }

    /// Reads patterns with commas between, to the end of a group.
    #[tactic(auto, using(crate::proofs::Loops::patterns))]
    pub(crate) fn elems(&self, input: &mut ParseBuffer<'_>) -> Result<Punctuated<P, Comma>>
        requires callable { Callable (weight input.old.rest + 1) (F.pre self.now.pat) }
        requires reads { ReadsPat P.view (F.post self.now.pat) }
        ensures value { Reads (λ p. (map (λ x. (P.view x).tree) (view.values p), view.trails p)) ((form.listed mark.comma front_spec.is_empty (pat.pattern true)).reads input.old.rest) result input.new.rest }
        ensures unguarded { IfOk result (λ p. view.guards_in P.view (view.values p) ≡ []) }
        ensures noted { input.new.noted ≡ input.old.noted }
        ensures shrinks { weight input.new.rest ≤ weight input.old.rest }
    {
        let mut found = Punctuated::new(input.alloc());
        'items: while !input.is_empty() {
            let pat = (self.pat)(input, true)?;
            found.push_value(pat)?;
            let Some(comma) = front::comma(input) else {
                return Ok(found);
            };
            found.push_punct(comma)?;
        }
        Ok(found)
    }

    /// Reads a slice.
    #[tactic(auto, unfolding(syn_lower_spec::specs::Pat::slice_pat))]
    pub fn slice(&self, input: &mut ParseBuffer<'_>) -> Result<P>
        requires callable { Callable (weight input.old.rest) (F.pre self.now.pat) }
        requires reads { ReadsPat P.view (F.post self.now.pat) }
        ensures value { Reads (λ x. (P.view x).tree) ((form.inside del.Bracket (pat.slice_pat pat.pattern)).reads input.old.rest) result input.new.rest }
        ensures unguarded { IfOk result (λ x. (P.view x).guards ≡ []) }
        ensures noted { input.new.noted ≡ input.old.noted }
        ensures shrinks { weight input.new.rest ≤ weight input.old.rest }
    {
        let attrs = Vec::new(input.alloc());
        let (bracket_token, mut content) = input.parse_brackets()?;
        let elems = self.elems(&mut content)?;
        if !content.is_empty() {
            return Err(content.error(ErrorKind::UnexpectedToken));
        }
        Ok(P::slice(PatSliceOf {
            attrs,
            bracket_token,
            elems,
        }))
    }
    /// Reads a field of a struct after its attributes.
    #[tactic(auto)]
    fn field_kind(&self, input: &mut ParseBuffer<'_>) -> Result<FieldPatKindOf<P>>
        requires callable { Callable (weight input.old.rest + 1) (F.pre self.now.pat) }
        requires reads { ReadsPat P.view (F.post self.now.pat) }
        ensures value { Reads (view.field_of P.view) ((form.when pat.full_at (form.shown pat.to_full pat.from_full (form.both pat.member (form.mark mark.colon (pat.pattern true)))) (form.shown pat.to_short pat.from_short (form.both (form.flag pat.by_ref) (form.both (form.flag mark.mutable) part.name)))).reads input.old.rest) result input.new.rest }
        ensures unguarded { IfOk result (λ x. view.field_guards P.view x ≡ []) }
        ensures noted { input.new.noted ≡ input.old.noted }
        ensures shrinks { weight input.new.rest ≤ weight input.old.rest }
    {
        if !first::full_at(input) {
            let by_ref = first::by_ref(input);
            let mutability = front::mutable(input);
            let ident = name(input)?;
            return Ok(FieldPatKindOf::Short(ShortFieldPat {
                by_ref,
                mutability,
                ident,
            }));
        }
        let member = member(input)?;
        let Some(colon_token) = front::colon(input) else {
            return Err(input.error(ErrorKind::ExpectedToken(Expected::One(Colon::wanted()))));
        };
        let pat = self.inner(input, true)?;
        Ok(FieldPatKindOf::Full(FullFieldPatOf {
            member,
            colon_token,
            pat,
        }))
    }

    /// Reads a field of a struct.
    #[tactic(auto, unfolding(syn_lower_spec::specs::Pat::field))]
    pub fn field(&self, input: &mut ParseBuffer<'_>) -> Result<FieldPatOf<P>>
        requires callable { Callable (weight input.old.rest + 1) (F.pre self.now.pat) }
        requires reads { ReadsPat P.view (F.post self.now.pat) }
        ensures value { Reads (view.field_pat_of P.view) ((pat.field pat.pattern).reads input.old.rest) result input.new.rest }
        ensures unguarded { IfOk result (λ x. view.field_guards P.view x.kind ≡ []) }
        ensures noted { input.new.noted ≡ input.old.noted }
        ensures shrinks { weight input.new.rest ≤ weight input.old.rest }
    {
        let attrs = outer_attributes(input)?;
        let kind = self.field_kind(input)?;
        Ok(FieldPatOf { attrs, kind })
    }

    /// Reads the inside of the parentheses of a tuple, or a pattern in parentheses.
    #[tactic(auto, unfolding(syn_lower_spec::specs::Pat::round_pat))]
    fn tuple_or_paren(&self, input: &mut ParseBuffer<'_>, paren_token: Paren) -> Result<P>
        requires callable { Callable (weight input.old.rest + 1) (F.pre self.now.pat) }
        requires reads { ReadsPat P.view (F.post self.now.pat) }
        ensures value { Reads (λ x. (P.view x).tree) ((pat.round_pat pat.pattern).reads input.old.rest) result input.new.rest }
        ensures unguarded { IfOk result (λ x. (P.view x).guards ≡ []) }
        ensures noted { input.new.noted ≡ input.old.noted }
        ensures shrinks { weight input.new.rest ≤ weight input.old.rest }
    {
        let attrs = Vec::new(input.alloc());
        let elems = self.elems(input)?;
        match elems.into_one() {
            Ok(pat) if !pat.is_rest() => Ok(P::paren(PatParenOf {
                attrs,
                paren_token,
                pat,
            })),
            Ok(pat) => {
                let mut elems = Punctuated::new(input.alloc());
                elems.push_boxed(pat);
                Ok(P::tuple(PatTupleOf {
                    attrs,
                    paren_token,
                    elems,
                }))
            }
            Err(elems) => Ok(P::tuple(PatTupleOf {
                attrs,
                paren_token,
                elems,
            })),
        }
    }

    /// Reads a tuple, or a pattern in parentheses.
    #[tactic(auto)]
    pub fn round(&self, input: &mut ParseBuffer<'_>) -> Result<P>
        requires callable { Callable (weight input.old.rest) (F.pre self.now.pat) }
        requires reads { ReadsPat P.view (F.post self.now.pat) }
        ensures value { Reads (λ x. (P.view x).tree) ((form.inside del.Parenthesis (pat.round_pat pat.pattern)).reads input.old.rest) result input.new.rest }
        ensures unguarded { IfOk result (λ x. (P.view x).guards ≡ []) }
        ensures noted { input.new.noted ≡ input.old.noted }
        ensures shrinks { weight input.new.rest ≤ weight input.old.rest }
    {
        let (paren_token, mut content) = input.parse_parens()?;
        let x = self.tuple_or_paren(&mut content, paren_token)?;
        if !content.is_empty() {
            return Err(content.error(ErrorKind::UnexpectedToken));
        }
        Ok(x)
    }
}
