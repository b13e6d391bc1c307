//! The readers of types and of what they hold, of qualified paths and of what a path begins.
//!
//! They are methods that take the reader of the types inside as a function, so that each is proved by itself, whatever the
//! type of types is; `readers` ties the knot.

ghost use Rattle.std.specs.Prelude.{◌≡◌, ◌≤◌, ◌+◌, map, true, IfOk, false, IfErr, IfSome, is_some};
ghost use Rattle.syn_lower_leaves.specs.Reads.{Reads};
ghost use Rattle.syn_lower.specs.Reads.{Callable, ReadsType, inside_of};
ghost use Rattle.syn_lower_types.specs.View as view;
ghost use Rattle.syn_lower_spec.specs.Form as form;
ghost use Rattle.syn_lower_spec.specs.Mark as mark;
ghost use Rattle.syn_lower_spec.specs.Part as part;
ghost use Rattle.syn_tokens.specs.Front as front_spec;
ghost use Rattle.syn_tokens.specs.Tok.{weight};
ghost use Rattle.syn_lower_leaves.specs.Punct.{takes_value};

use std::alloc::{AllocError, Global};
use syn_lower_leaves::front;
use syn_lower_leaves::front::{fn_at, path_at};
use syn_lower_leaves::leaf::any_group;
use syn_lower_leaves::punctuated::Punctuated;
use syn_lower_spec::label::PathStyle;
use syn_lower_types::fits::has_none;
use syn_lower_types::mac::{MacroDelimiter, MacroOf};
use syn_lower_types::path::{PathOf, PathSegmentOf, QSelfOf};
use syn_lower_types::ty::{ReturnTypeOf, TypeMacroOf, TypePathOf};
use syn_lower_types::types::{HasTree, IsType};
use syn_tokens::buffer::ParseBuffer;
use syn_tokens::error::{ErrorKind, Expected, Part, Result};
use syn_tokens::token::{As, Bracket, Comma, Gt, Lt, Not, Paren, PathSep};
use syn_tokens::tree::TokenStream;

mod bounds;
mod kinds;
mod path;

/// The readers over that of the types inside.
#[derive(Clone, Copy)]
pub struct Grammar<F> {
    /// Reads a type; after its `impl` or `dyn` there may be several bounds, or one.
    pub ty: F,
}

/// A type in a box.
pub(crate) fn boxed<T: IsType + Drop>(
    alloc: Global,
    ty: T,
) -> std::result::Result<Box<T>, AllocError>
    ensures { IfOk result (λ b. T.tree b.value ≡ T.tree ty) }
{
    Ok(Box::new(alloc, ty)?)
}

impl<T: IsType + Drop, F: Fn(&mut ParseBuffer<'_>, bool) -> Result<Box<T>>> Grammar<F> {
    /// Reads `->` and a type, or nothing.
    #[tactic(auto, unfolding(syn_lower_spec::specs::Part::output))]
    pub fn output(&self, input: &mut ParseBuffer<'_>, several: bool) -> Result<ReturnTypeOf<T>>
        requires callable { Callable (weight input.old.rest) (F.pre self.now.ty) }
        requires reads { ReadsType T.tree (F.post self.now.ty) }
        ensures value { Reads (view.return_of T.tree) ((part.output part.type several).reads input.old.rest) result input.new.rest }
        ensures noted { input.new.noted ≡ input.old.noted }
        ensures shrinks { weight input.new.rest ≤ weight input.old.rest }
    {
        let Some(arrow) = front::arrow(input) else {
            return Ok(ReturnTypeOf::Default);
        };
        let ty = (self.ty)(input, several)?;
        Ok(ReturnTypeOf::Given(arrow, ty))
    }

    /// Reads a type, out of its box.
    #[tactic(auto)]
    pub(crate) fn whole(&self, input: &mut ParseBuffer<'_>) -> Result<T>
        requires callable { Callable (weight input.old.rest + 1) (F.pre self.now.ty) }
        requires reads { ReadsType T.tree (F.post self.now.ty) }
        ensures value { Reads T.tree ((part.type true).reads input.old.rest) result input.new.rest }
        ensures noted { input.new.noted ≡ input.old.noted }
        ensures shrinks { weight input.new.rest ≤ weight input.old.rest }
    {
        let ty = (self.ty)(input, true)?;
        Ok(Box::into_inner(ty))
    }

    /// Reads types with commas between, to the end of a group.
    #[tactic(auto, using(crate::proofs::Loops::types))]
    fn types(&self, input: &mut ParseBuffer<'_>) -> Result<Punctuated<T, Comma>>
        requires callable { Callable (weight input.old.rest + 1) (F.pre self.now.ty) }
        requires reads { ReadsType T.tree (F.post self.now.ty) }
        ensures value { Reads (λ p. (map T.tree (view.values p), view.trails p)) ((form.listed mark.comma front_spec.is_empty (part.type true)).reads input.old.rest) result input.new.rest }
        ensures noted { input.new.noted ≡ input.old.noted }
        ensures shrinks { weight input.new.rest ≤ weight input.old.rest }
    {
        let mut found = Punctuated::new(input.alloc());
        'items: while !input.is_empty() {
            found.push_boxed((self.ty)(input, true)?);
            let Some(comma) = front::comma(input) else {
                return Ok(found);
            };
            found.push_punct(comma)?;
        }
        Ok(found)
    }
}

/// What comes after the `as` of a qualified path: that word, `::` in front, the segments.
type AsPath<T> = (As, Option<PathSep>, Punctuated<PathSegmentOf<T>, PathSep>);

/// A path, and the type that it is qualified by.
pub type QPath<T> = (Option<QSelfOf<T>>, PathOf<T>);

/// Whether no segment of these has arguments.
fn bare_pairs<T: HasTree>(mut pairs: &[(PathSegmentOf<T>, PathSep)]) -> bool
    ensures { result ≡ part.segments_bare (map (view.segment_of T.tree) (map (λ q. q.0) pairs.entry.now)) }
{
    'pairs: while let [(segment, _), more @ ..] = pairs {
        if !has_none(&segment.arguments) {
            return false;
        }
        pairs = more;
    }
    true
}

/// Whether no segment has arguments.
#[tactic(auto, using(crate::proofs::QPaths::bares), unfolding(syn_lower_types::specs::View::values))]
fn bare_segments<T: HasTree>(segments: &Punctuated<PathSegmentOf<T>, PathSep>) -> bool
    ensures { result ≡ part.segments_bare (map (view.segment_of T.tree) (view.values segments.now)) }
{
    if !bare_pairs(&segments.inner) {
        return false;
    }
    match &segments.last {
        Some(segment) => has_none(&segment.arguments),
        None => true,
    }
}

/// Whether a path has neither arguments nor a type that it is qualified by.
pub fn is_bare<T: HasTree>(qself: &Option<QSelfOf<T>>, path: &PathOf<T>) -> bool
    ensures { result ≡ part.is_bare (view.qself_or T.tree qself.now, view.path_of T.tree path.now) }
{
    match qself {
        Some(_) => false,
        None => bare_segments(&path.segments),
    }
}

/// What comes after the path of a macro: `!` and a group.
pub type MacroEnd = (Not, MacroDelimiter, TokenStream);

/// A path as a type, or the macro that `!` and a group after it make.
fn path_or_macro<T: IsType + Drop>(
    qself: Option<QSelfOf<T>>,
    path: PathOf<T>,
    end: Option<MacroEnd>,
) -> T
    ensures { T.tree result ≡ part.to_named ((view.qself_or T.tree qself, view.path_of T.tree path), view.mapped (λ g. (view.delimiter_of g.1, g.2)) end) }
{
    let Some((bang_token, delimiter, tokens)) = end else {
        return T::path(TypePathOf { qself, path });
    };
    let mac = MacroOf {
        path,
        bang_token,
        delimiter,
        tokens,
    };
    T::mac(TypeMacroOf { mac })
}

/// Reads `!` and a group after a path that they make a macro.
#[tactic(auto, unfolding(syn_lower_spec::specs::Part::macro_end))]
pub fn macro_end<T: HasTree>(
    input: &mut ParseBuffer<'_>,
    qself: &Option<QSelfOf<T>>,
    path: &PathOf<T>,
) -> Result<Option<MacroEnd>>
    ensures value { Reads (view.mapped (λ g. (view.delimiter_of g.1, g.2))) ((part.macro_end (view.qself_or T.tree qself.now, view.path_of T.tree path.now)).reads input.old.rest) result input.new.rest }
    ensures noted { input.new.noted ≡ input.old.noted }
    ensures shrinks { weight input.new.rest ≤ weight input.old.rest }
{
    if !is_bare(qself, path) {
        return Ok(None);
    }
    let Some(bang_token) = front::not_ne(input) else {
        return Ok(None);
    };
    let (delimiter, tokens) = any_group(input)?;
    Ok(Some((bang_token, delimiter, tokens)))
}

/// The part of a qualified path before the segments after `>`: how many segments are in it, `as`, `::` in front,
/// those segments.
type Inside<T> = (
    usize,
    Option<As>,
    Option<PathSep>,
    Punctuated<PathSegmentOf<T>, PathSep>,
);

/// Begins a qualified path by what comes after its `as`, and the `::` after `>`.
#[tactic(auto, using(crate::proofs::QPaths::lengths))]
fn inside<T: IsType + Drop>(
    alloc: Global,
    as_path: Option<AsPath<T>>,
    colons: PathSep,
) -> Result<Inside<T>>
    requires ready { IfSome as_path (λ a. takes_value a.2 ≡ false) }
    ensures value { IfOk result (λ i. ((i.0, is_some i.1), (is_some i.2, map (view.segment_of T.tree) (view.values i.3))) ≡ inside_of (view.mapped (λ a. (is_some a.1, map (view.segment_of T.tree) (view.values a.2))) as_path)) }
    ensures open { IfOk result (λ i. takes_value i.3 ≡ true) }
    ensures memory { IfErr result (λ e. e.kind ≡ ErrorKind.OutOfMemory) }
{
    let Some((as_token, leading_colon, mut found)) = as_path else {
        return Ok((0, None, Some(colons), Punctuated::new(alloc)));
    };
    let position = found.len();
    found.push_punct(colons)?;
    Ok((position, Some(as_token), leading_colon, found))
}

impl<T: IsType + Drop, F: Fn(&mut ParseBuffer<'_>, bool) -> Result<Box<T>>> Grammar<F> {
    /// Reads `as` and a path, if they come first.
    #[tactic(auto, using(crate::proofs::Loops::nothing), unfolding(syn_lower_spec::specs::Part::pieces))]
    fn as_path(&self, input: &mut ParseBuffer<'_>) -> Result<Option<AsPath<T>>>
        requires callable { Callable (weight input.old.rest) (F.pre self.now.ty) }
        requires reads { ReadsType T.tree (F.post self.now.ty) }
        ensures value { Reads (view.mapped (λ a. (is_some a.1, map (view.segment_of T.tree) (view.values a.2)))) ((form.maybe mark.as_word.at (form.mark mark.as_word (part.pieces part.type PathStyle.Type))).reads input.old.rest) result input.new.rest }
        ensures ready { IfOk result (λ o. IfSome o (λ a. takes_value a.2 ≡ false)) }
        ensures noted { input.new.noted ≡ input.old.noted }
        ensures shrinks { weight input.new.rest ≤ weight input.old.rest }
    {
        let Some(as_token) = front::as_word(input) else {
            return Ok(None);
        };
        let leading_colon = front::colon2(input);
        let found = Punctuated::new(input.alloc());
        let segments = self.segments(input, PathStyle::Type, found)?;
        Ok(Some((as_token, leading_colon, segments)))
    }

    /// Reads what is between `<` and `>`, and the `>`.
    fn between(&self, input: &mut ParseBuffer<'_>) -> Result<(Box<T>, Option<AsPath<T>>, Gt)>
        requires callable { Callable (weight input.old.rest + 1) (F.pre self.now.ty) }
        requires reads { ReadsType T.tree (F.post self.now.ty) }
        ensures value { Reads (λ b. (T.tree b.0.value, view.mapped (λ a. (is_some a.1, map (view.segment_of T.tree) (view.values a.2))) b.1)) ((form.closed_by mark.gt (form.both (part.type true) (form.maybe mark.as_word.at (form.mark mark.as_word (part.pieces part.type PathStyle.Type))))).reads input.old.rest) result input.new.rest }
        ensures ready { IfOk result (λ b. IfSome b.1 (λ a. takes_value a.2 ≡ false)) }
        ensures noted { input.new.noted ≡ input.old.noted }
        ensures shrinks { weight input.new.rest ≤ weight input.old.rest }
    {
        let ty = (self.ty)(input, true)?;
        let as_path = self.as_path(input)?;
        let Some(gt_token) = front::gt(input) else {
            return Err(input.error(ErrorKind::ExpectedToken(Expected::One(Gt::wanted()))));
        };
        Ok((ty, as_path, gt_token))
    }

    /// Reads a qualified path after its `<`.
    #[tactic(auto, using(crate::proofs::QPaths::joins), unfolding(syn_lower_spec::specs::Part::qualified))]
    fn qualified(
        &self,
        input: &mut ParseBuffer<'_>,
        style: PathStyle,
        lt_token: Lt,
    ) -> Result<QPath<T>>
        requires callable { Callable (weight input.old.rest + 1) (F.pre self.now.ty) }
        requires reads { ReadsType T.tree (F.post self.now.ty) }
        ensures value { Reads (λ q. (view.qself_or T.tree q.0, view.path_of T.tree q.1)) ((part.qualified part.type style).reads input.old.rest) result input.new.rest }
        ensures noted { input.new.noted ≡ input.old.noted }
        ensures shrinks { weight input.new.rest ≤ weight input.old.rest }
    {
        let (ty, as_path, gt_token) = self.between(input)?;
        let Some(colons) = front::colon2(input) else {
            return Err(input.error(ErrorKind::ExpectedToken(Expected::One(PathSep::wanted()))));
        };
        let (position, as_token, leading_colon, found) = inside(input.alloc(), as_path, colons)?;
        let segments = self.segments(input, style, found)?;
        let qself = QSelfOf {
            lt_token,
            ty,
            position,
            as_token,
            gt_token,
        };
        let path = PathOf {
            leading_colon,
            segments,
        };
        Ok((Some(qself), path))
    }

    /// Reads a path, qualified by a type or not.
    #[tactic(auto, unfolding(syn_lower_spec::specs::Part::qpath))]
    pub fn qpath(&self, input: &mut ParseBuffer<'_>, style: PathStyle) -> Result<QPath<T>>
        requires callable { Callable (weight input.old.rest) (F.pre self.now.ty) }
        requires reads { ReadsType T.tree (F.post self.now.ty) }
        ensures value { Reads (λ q. (view.qself_or T.tree q.0, view.path_of T.tree q.1)) ((part.qpath part.type style).reads input.old.rest) result input.new.rest }
        ensures noted { input.new.noted ≡ input.old.noted }
        ensures shrinks { weight input.new.rest ≤ weight input.old.rest }
    {
        if let Some(lt_token) = front::less(input) {
            return self.qualified(input, style, lt_token);
        }
        let path = self.path(input, style)?;
        Ok((None, path))
    }

    /// Reads a path or a macro's call.
    #[tactic(auto, unfolding(syn_lower_spec::specs::Part::named))]
    fn named(&self, input: &mut ParseBuffer<'_>) -> Result<Box<T>>
        requires callable { Callable (weight input.old.rest) (F.pre self.now.ty) }
        requires reads { ReadsType T.tree (F.post self.now.ty) }
        ensures value { Reads (λ x. T.tree x.value) ((part.named part.type).reads input.old.rest) result input.new.rest }
        ensures noted { input.new.noted ≡ input.old.noted }
        ensures shrinks { weight input.new.rest ≤ weight input.old.rest }
    {
        let (qself, path) = self.qpath(input, PathStyle::Type)?;
        let end = macro_end(input, &qself, &path)?;
        Ok(boxed(input.alloc(), path_or_macro(qself, path, end))?)
    }

    /// Reads a type that begins with a word, `::` or `<`. Where none does, it is refused as `ExpectedPart` of a type.
    #[tactic(auto, using(crate::proofs::Absent::types))]
    fn at_word(&self, input: &mut ParseBuffer<'_>, several: bool) -> Result<Box<T>>
        requires callable { Callable (weight input.old.rest) (F.pre self.now.ty) }
        requires reads { ReadsType T.tree (F.post self.now.ty) }
        ensures value { Reads (λ x. T.tree x.value) ((form.when part.fn_at (part.fn_pointer part.type) (form.case mark.implementing (part.implements part.type several) (form.case mark.dynamic (part.object part.type several) (part.named part.type)))).reads input.old.rest) result input.new.rest }
        ensures noted { input.new.noted ≡ input.old.noted }
        ensures shrinks { weight input.new.rest ≤ weight input.old.rest }
    {
        if fn_at(input) {
            return self.fn_pointer(input);
        }
        if let Some(impl_token) = front::implementing(input) {
            return self.implements(input, impl_token, several);
        }
        if let Some(dyn_token) = front::dynamic(input) {
            return self.object(input, dyn_token, several);
        }
        if path_at(input) {
            return self.named(input);
        }
        Err(input.error(ErrorKind::ExpectedPart(Part::Type)))
    }

    /// Reads a type; after its `impl` or `dyn` there may be several bounds, or one.
    #[tactic(auto, unfolding(syn_lower_spec::specs::Part::at_place))]
    pub fn at_place(&self, input: &mut ParseBuffer<'_>, several: bool) -> Result<Box<T>>
        requires callable { Callable (weight input.old.rest) (F.pre self.now.ty) }
        requires reads { ReadsType T.tree (F.post self.now.ty) }
        ensures value { Reads (λ x. T.tree x.value) ((part.at_place part.type several).reads input.old.rest) result input.new.rest }
        ensures noted { input.new.noted ≡ input.old.noted }
        ensures shrinks { weight input.new.rest ≤ weight input.old.rest }
    {
        if let Some(and_token) = front::and(input) {
            return self.reference(input, and_token);
        }
        if let Some(star_token) = front::star(input) {
            return self.pointer(input, star_token);
        }
        if let Some(bang_token) = front::bang(input) {
            return Ok(boxed(input.alloc(), T::never(bang_token))?);
        }
        if let Some(underscore_token) = front::underscore(input) {
            return Ok(boxed(input.alloc(), T::infer(underscore_token))?);
        }
        if input.peek::<Bracket>() {
            return self.bracket(input);
        }
        if input.peek::<Paren>() {
            return self.parens(input);
        }
        self.at_word(input, several)
    }
}
