//! The readers of paths and of what is in them.

ghost use Rattle.std.specs.Prelude.{◌≡◌, ◌≤◌, ◌+◌, map, true, false, IfOk};
ghost use Rattle.syn_lexer.specs.declared.front.Delimiter.TheVariants as del;
ghost use Rattle.syn_lower_leaves.specs.Reads.{Reads};
ghost use Rattle.syn_lower_leaves.specs.Punct.{takes_value};
ghost use Rattle.syn_lower.specs.Reads.{Callable, ReadsType};
ghost use Rattle.syn_lower_types.specs.View as view;
ghost use Rattle.syn_lower_spec.specs.Form as form;
ghost use Rattle.syn_lower_spec.specs.Mark as mark;
ghost use Rattle.syn_lower_spec.specs.Part as part;
ghost use Rattle.syn_tokens.specs.Front as front_spec;
ghost use Rattle.syn_tokens.specs.Tok.{weight};

use super::Grammar;
use syn_lower_leaves::front;
use syn_lower_leaves::front::{angle_at, assoc_at, gt_at, round_at, turbofish_at};
use syn_lower_leaves::leaf::{
    const_at, constant_tokens, lifetime, lifetime_at, name, segment_name, stands_alone,
};
use syn_lower_leaves::punctuated::Punctuated;
use syn_lower_spec::label::PathStyle;
use syn_lower_types::path::{
    AngleBracketedGenericArgumentsOf, AssocTypeOf, GenericArgumentOf,
    ParenthesizedGenericArgumentsOf, PathArgumentsOf, PathOf, PathSegmentOf,
};
use syn_lower_types::types::IsType;
use syn_tokens::buffer::ParseBuffer;
use syn_tokens::error::{ErrorKind, Expected, Result};
use syn_tokens::token::{Comma, Eq, Gt, Lt, Paren, PathSep};

impl<T: IsType + Drop, F: Fn(&mut ParseBuffer<'_>, bool) -> Result<Box<T>>> Grammar<F> {
    /// Reads an argument between `<` and `>`.
    #[tactic(auto, unfolding(syn_lower_spec::specs::Part::generic))]
    pub fn generic(&self, input: &mut ParseBuffer<'_>) -> Result<GenericArgumentOf<T>>
        requires callable { Callable (weight input.old.rest + 1) (F.pre self.now.ty) }
        requires reads { ReadsType T.tree (F.post self.now.ty) }
        ensures value { Reads (view.generic_of T.tree) ((part.generic part.type).reads input.old.rest) result input.new.rest }
        ensures noted { input.new.noted ≡ input.old.noted }
        ensures shrinks { weight input.new.rest ≤ weight input.old.rest }
    {
        if lifetime_at(input) {
            return Ok(GenericArgumentOf::Lifetime(lifetime(input)?));
        }
        if const_at(input) {
            return Ok(GenericArgumentOf::Const(constant_tokens(input)?));
        }
        if assoc_at(input) {
            return Ok(GenericArgumentOf::AssocType(self.assoc(input)?));
        }
        Ok(GenericArgumentOf::Ty(self.whole(input)?))
    }

    /// Reads a name, `=` and a type.
    pub fn assoc(&self, input: &mut ParseBuffer<'_>) -> Result<AssocTypeOf<T>>
        requires callable { Callable (weight input.old.rest + 1) (F.pre self.now.ty) }
        requires reads { ReadsType T.tree (F.post self.now.ty) }
        ensures value { Reads (view.name_and_type T.tree) ((part.assoc part.type).reads input.old.rest) result input.new.rest }
        ensures noted { input.new.noted ≡ input.old.noted }
        ensures shrinks { weight input.new.rest ≤ weight input.old.rest }
    {
        let ident = name(input)?;
        let Some(eq_token) = front::eq(input) else {
            return Err(input.error(ErrorKind::ExpectedToken(Expected::One(Eq::wanted()))));
        };
        let ty = self.whole(input)?;
        Ok(AssocTypeOf {
            ident,
            eq_token,
            ty,
        })
    }

    /// Reads arguments with commas between, before `>`.
    #[tactic(auto, using(crate::proofs::Loops::generics))]
    fn generics(
        &self,
        input: &mut ParseBuffer<'_>,
    ) -> Result<Punctuated<GenericArgumentOf<T>, Comma>>
        requires callable { Callable (weight input.old.rest + 1) (F.pre self.now.ty) }
        requires reads { ReadsType T.tree (F.post self.now.ty) }
        ensures value { Reads (λ p. (map (view.generic_of T.tree) (view.values p), view.trails p)) ((form.listed mark.comma mark.gt.at (part.generic part.type)).reads input.old.rest) result input.new.rest }
        ensures noted { input.new.noted ≡ input.old.noted }
        ensures shrinks { weight input.new.rest ≤ weight input.old.rest }
    {
        let mut found = Punctuated::new(input.alloc());
        'items: while !gt_at(input) {
            found.push_value(self.generic(input)?)?;
            let Some(comma) = front::comma(input) else {
                return Ok(found);
            };
            found.push_punct(comma)?;
        }
        Ok(found)
    }

    /// Reads arguments between `<` and `>`, after `::` or not.
    #[tactic(auto, unfolding(syn_lower_spec::specs::Part::angle_bracketed, syn_lower_spec::specs::Part::angle))]
    pub fn angle(&self, input: &mut ParseBuffer<'_>) -> Result<AngleBracketedGenericArgumentsOf<T>>
        requires callable { Callable (weight input.old.rest) (F.pre self.now.ty) }
        requires reads { ReadsType T.tree (F.post self.now.ty) }
        ensures value { Reads (view.angle_of T.tree) ((part.angle_bracketed part.type).reads input.old.rest) result input.new.rest }
        ensures noted { input.new.noted ≡ input.old.noted }
        ensures shrinks { weight input.new.rest ≤ weight input.old.rest }
    {
        let colon2_token = front::colon2(input);
        let Some(lt_token) = front::lt(input) else {
            return Err(input.error(ErrorKind::ExpectedToken(Expected::One(Lt::wanted()))));
        };
        let args = self.generics(input)?;
        let Some(gt_token) = front::gt(input) else {
            return Err(input.error(ErrorKind::ExpectedToken(Expected::One(Gt::wanted()))));
        };
        Ok(AngleBracketedGenericArgumentsOf {
            colon2_token,
            lt_token,
            args,
            gt_token,
        })
    }

    /// Reads types in parentheses, to the end of the group.
    #[tactic(auto)]
    fn inputs(&self, input: &mut ParseBuffer<'_>) -> Result<(Paren, Punctuated<T, Comma>)>
        requires callable { Callable (weight input.old.rest) (F.pre self.now.ty) }
        requires reads { ReadsType T.tree (F.post self.now.ty) }
        ensures value { Reads (λ p. (map T.tree (view.values p.1), view.trails p.1)) ((form.inside del.Parenthesis (form.listed mark.comma front_spec.is_empty (part.type true))).reads input.old.rest) result input.new.rest }
        ensures noted { input.new.noted ≡ input.old.noted }
        ensures shrinks { weight input.new.rest ≤ weight input.old.rest }
    {
        let (paren_token, mut content) = input.parse_parens()?;
        let inputs = self.types(&mut content)?;
        if !content.is_empty() {
            return Err(content.error(ErrorKind::UnexpectedToken));
        }
        Ok((paren_token, inputs))
    }

    /// Reads types in parentheses, and what follows them.
    #[tactic(auto, unfolding(syn_lower_spec::specs::Part::parenthesized))]
    pub fn parenthesized(
        &self,
        input: &mut ParseBuffer<'_>,
    ) -> Result<ParenthesizedGenericArgumentsOf<T>>
        requires callable { Callable (weight input.old.rest) (F.pre self.now.ty) }
        requires reads { ReadsType T.tree (F.post self.now.ty) }
        ensures value { Reads (view.round_of T.tree) ((part.parenthesized part.type).reads input.old.rest) result input.new.rest }
        ensures noted { input.new.noted ≡ input.old.noted }
        ensures shrinks { weight input.new.rest ≤ weight input.old.rest }
    {
        let (paren_token, inputs) = self.inputs(input)?;
        let output = self.output(input, false)?;
        Ok(ParenthesizedGenericArgumentsOf {
            paren_token,
            inputs,
            output,
        })
    }

    /// Reads what may come after the word of a segment.
    #[tactic(auto, unfolding(syn_lower_spec::specs::Part::arguments, syn_lower_spec::specs::Part::no_arguments))]
    fn arguments(&self, input: &mut ParseBuffer<'_>, style: PathStyle) -> Result<PathArgumentsOf<T>>
        requires callable { Callable (weight input.old.rest) (F.pre self.now.ty) }
        requires reads { ReadsType T.tree (F.post self.now.ty) }
        ensures value { Reads (view.arguments_of T.tree) ((part.arguments part.type style).reads input.old.rest) result input.new.rest }
        ensures noted { input.new.noted ≡ input.old.noted }
        ensures shrinks { weight input.new.rest ≤ weight input.old.rest }
    {
        match style {
            PathStyle::Expr if turbofish_at(input) => {
                Ok(PathArgumentsOf::AngleBracketed(self.angle(input)?))
            }
            PathStyle::Type if angle_at(input) => {
                Ok(PathArgumentsOf::AngleBracketed(self.angle(input)?))
            }
            PathStyle::Type if round_at(input) => {
                Ok(PathArgumentsOf::Parenthesized(self.parenthesized(input)?))
            }
            _ => Ok(PathArgumentsOf::None),
        }
    }

    /// Reads a segment of a path.
    #[tactic(auto, unfolding(syn_lower_spec::specs::Part::segment, syn_lower_spec::specs::Part::no_arguments))]
    pub fn segment(&self, input: &mut ParseBuffer<'_>, style: PathStyle) -> Result<PathSegmentOf<T>>
        requires callable { Callable (weight input.old.rest) (F.pre self.now.ty) }
        requires reads { ReadsType T.tree (F.post self.now.ty) }
        ensures value { Reads (view.segment_of T.tree) ((part.segment part.type style).reads input.old.rest) result input.new.rest }
        ensures noted { input.new.noted ≡ input.old.noted }
        ensures shrinks { weight input.new.rest ≤ weight input.old.rest }
    {
        let ident = segment_name(input)?;
        if stands_alone(ident.as_str()) {
            let arguments = PathArgumentsOf::None;
            return Ok(PathSegmentOf { ident, arguments });
        }
        let arguments = self.arguments(input, style)?;
        Ok(PathSegmentOf { ident, arguments })
    }

    /// Reads segments with `::` between after others.
    #[tactic(auto, using(crate::proofs::Loops::segments))]
    pub(crate) fn segments(
        &self,
        input: &mut ParseBuffer<'_>,
        style: PathStyle,
        mut found: Punctuated<PathSegmentOf<T>, PathSep>,
    ) -> Result<Punctuated<PathSegmentOf<T>, PathSep>>
        requires callable { Callable (weight input.old.rest) (F.pre self.now.ty) }
        requires reads { ReadsType T.tree (F.post self.now.ty) }
        requires open { takes_value found ≡ true }
        ensures value { Reads (λ p. map (view.segment_of T.tree) (view.values p)) (form.extend_more (map (view.segment_of T.tree) (view.values found)) ((form.joined mark.colon2 (part.segment part.type style)).reads input.old.rest)) result input.new.rest }
        ensures trails { IfOk result (λ p. view.trails p ≡ false) }
        ensures ready { IfOk result (λ p. takes_value p ≡ false) }
        ensures noted { input.new.noted ≡ input.old.noted }
        ensures shrinks { weight input.new.rest ≤ weight input.old.rest }
    {
        'items: loop {
            found.push_value(self.segment(input, style)?)?;
            let Some(colons) = front::colon2(input) else {
                return Ok(found);
            };
            found.push_punct(colons)?;
        }
    }

    /// Reads the segments that go on a path, each after `::`, and puts them after those that were found. Where no `::`
    /// is there are none. It is refused as a segment is (Rust Reference, "Paths in expressions").
    #[tactic(auto, using(crate::proofs::Loops::further))]
    pub fn more_segments(
        &self,
        input: &mut ParseBuffer<'_>,
        style: PathStyle,
        mut found: Punctuated<PathSegmentOf<T>, PathSep>,
    ) -> Result<Punctuated<PathSegmentOf<T>, PathSep>>
        requires callable { Callable (weight input.old.rest) (F.pre self.now.ty) }
        requires reads { ReadsType T.tree (F.post self.now.ty) }
        requires closed { view.trails found ≡ false }
        ensures value { Reads (λ p. map (view.segment_of T.tree) (view.values p)) (form.gathered_more mark.colon2 (part.segment part.type style) (map (view.segment_of T.tree) (view.values found)) input.old.rest) result input.new.rest }
        ensures trails { IfOk result (λ p. view.trails p ≡ false) }
        ensures noted { input.new.noted ≡ input.old.noted }
        ensures shrinks { weight input.new.rest ≤ weight input.old.rest }
    {
        let Some(colons) = front::colon2(input) else {
            return Ok(found);
        };
        if found.empty_or_trailing() {
            return self.segments(input, style, found);
        }
        found.push_punct(colons)?;
        self.segments(input, style, found)
    }

    /// Reads a path.
    #[tactic(auto, using(crate::proofs::Loops::nothing), unfolding(syn_lower_spec::specs::Part::path, syn_lower_spec::specs::Part::pieces))]
    pub fn path(&self, input: &mut ParseBuffer<'_>, style: PathStyle) -> Result<PathOf<T>>
        requires callable { Callable (weight input.old.rest) (F.pre self.now.ty) }
        requires reads { ReadsType T.tree (F.post self.now.ty) }
        ensures value { Reads (view.path_of T.tree) ((part.path part.type style).reads input.old.rest) result input.new.rest }
        ensures noted { input.new.noted ≡ input.old.noted }
        ensures shrinks { weight input.new.rest ≤ weight input.old.rest }
    {
        let leading_colon = front::colon2(input);
        let found = Punctuated::new(input.alloc());
        let segments = self.segments(input, style, found)?;
        Ok(PathOf {
            leading_colon,
            segments,
        })
    }
}
