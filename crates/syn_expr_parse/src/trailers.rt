//! The readers of trailers: calls, indices, `?`, and what comes after a dot (Rust Reference, "Call expressions", "Array and
//! slice indexing expressions", "Field access expressions", "Method-call expressions", "Await expressions"). `pair.0.1` has
//! the tokens `pair`, `.` and `0.1`, and two fields.

ghost use Rattle.std.specs.Prelude.{◌≡◌, ◌≤◌, ◌+◌, [], if◌then◌else◌, false, map, Some, None, IfOk};
ghost use Rattle.syn_expr_parse.specs.Reads.{Callable, ReadsExpr};
ghost use Rattle.syn_expr_heads.specs.View.{trailer_of};
ghost use Rattle.syn_expr_ast.specs.View.{elements};
ghost use Rattle.syn_expr_ast.specs.Label.{trailer_kind};
ghost use Rattle.syn_expr_ast.specs.declared.label.TrailerKind.TheVariants as kinds;
ghost use Rattle.syn_expr_parse.specs.Kind as known;
ghost use Rattle.syn_expr_parse.specs.Operators.{trailers};
ghost use Rattle.syn_expr_spec.specs.Head as head;
ghost use Rattle.syn_expr_spec.specs.Read as read;
ghost use Rattle.syn_expr_spec.specs.Slot as slot;
ghost use Rattle.syn_expr_spec.specs.Stands as stands;
ghost use Rattle.syn_expr_spec.specs.Tree as e;
ghost use Rattle.syn_lower_leaves.specs.Reads.{Reads};
ghost use Rattle.syn_lower_leaves.specs.View.{trails, values};
ghost use Rattle.syn_lower_spec.specs.Form.{and_then};
ghost use Rattle.syn_tokens.specs.Tok.{weight};

use crate::kinds::ReadExprs;
use crate::known::{Held, closes, fits_base, given_up};
use crate::lists::Lists;
use crate::make;
use crate::operands::Grammar;
use std::alloc::{AllocError, Global};
use syn_expr_ast::alone::IsExpr;
use syn_expr_ast::label::TrailerKind;
use syn_expr_heads::leaf::{TrailerHead, dotted};
use syn_expr_heads::word::dot;
use syn_expr_spec::kinds::Place;
use syn_expr_tokens::member::Member;
use syn_expr_tokens::number::{FloatIndices, indices, indices_before_name, refusal};
use syn_expr_tokens::op::bracket_at;
use syn_lower_leaves::front;
use syn_lower_leaves::front::round_at;
use syn_lower_leaves::punctuated::Punctuated;
use syn_tokens::buffer::ParseBuffer;
use syn_tokens::error::{ErrorKind, Expected, Result};
use syn_tokens::token::{Comma, Dot, Lt, Paren, Question};

/// The kind of the trailer that begins so.
fn head_kind(head: &TrailerHead) -> TrailerKind
    ensures { result ≡ trailer_kind (trailer_of head.now) }
{
    match head {
        TrailerHead::Await(_) => TrailerKind::Await,
        TrailerHead::Method(_, _) => TrailerKind::Method,
        TrailerHead::Field(member) => TrailerKind::Field {
            named: member.is_named(),
        },
    }
}

/// Makes `?`, which was taken, part of its base.
#[tactic(auto, using(crate::proofs::Bases::bases))]
fn try_expr<E: ReadExprs + Drop>(
    input: &mut ParseBuffer<'_>,
    place: Place,
    base: Box<E>,
    question_token: Question,
) -> Result<Box<E>>
    ensures value { Reads (λ b. E.tree b.value) (read.trailed_by read.expr place (E.tree base.value) [] e.try_expr input.old.rest) result input.new.rest }
    ensures same { input.new ≡ input.old }
{
    if !fits_base(place, TrailerKind::Try, &*base) {
        return Err(given_up(base, input.error(ErrorKind::UnexpectedToken)));
    }
    Ok(make::try_expr(input.alloc(), base, question_token)?)
}

/// Makes indices, which were taken after a dot, part of their base.
#[tactic(auto, using(crate::proofs::Bases::bases))]
fn indexed<E: ReadExprs + Drop>(
    input: &ParseBuffer<'_>,
    place: Place,
    base: Box<E>,
    dot_token: Dot,
    indices: FloatIndices<'_>,
) -> Result<Box<E>>
    ensures value { Reads (λ b. E.tree b.value) (if known.fits_base place (kinds.Field false) (E.tree base.value) then Some (stands.fields_of (E.tree base.value) indices.entry, input.now.rest) else None) result input.now.rest }
{
    if !fits_base(place, TrailerKind::Field { named: false }, &*base) {
        return Err(given_up(base, input.error(ErrorKind::UnexpectedToken)));
    }
    let (x, _) = fields(input.alloc(), base, dot_token, indices)?;
    Ok(x)
}

impl<E: ReadExprs + Drop, F: Fn(&mut ParseBuffer<'_>, Place) -> Result<Box<E>> + Copy> Grammar<F> {
    /// Reads the arguments of a call.
    // Not in the frame of its caller, which is on the stack once for each level of a tree.
    #[inline(never)]
    #[tactic(auto, using(crate::proofs::Bases::bases))]
    fn call(&self, input: &mut ParseBuffer<'_>, place: Place, base: Box<E>) -> Result<Box<E>>
        requires callable { Callable (weight input.old.rest) (F.pre self.now.expr) }
        requires reads { ReadsExpr E.tree (F.post self.now.expr) }
        ensures value { Reads (λ b. E.tree b.value) (read.trailed_by read.expr place (E.tree base.value) [] e.call input.old.rest) result input.new.rest }
        ensures noted { input.new.noted ≡ input.old.noted }
        ensures shrinks { weight input.new.rest ≤ weight input.old.rest }
    {
        if !fits_base(place, TrailerKind::Call, &*base) {
            return Err(given_up(base, input.error(ErrorKind::UnexpectedToken)));
        }
        let base = Held { value: base };
        let lists = Lists { expr: self.expr };
        let (paren_token, args) = lists.arguments(input)?;
        Ok(make::call(input.alloc(), base.into_inner(), paren_token, args)?)
    }

    /// Reads an index in brackets.
    // Not in the frame of its caller, which is on the stack once for each level of a tree.
    #[inline(never)]
    #[tactic(auto, using(crate::proofs::Bases::bases))]
    fn index(&self, input: &mut ParseBuffer<'_>, place: Place, base: Box<E>) -> Result<Box<E>>
        requires callable { Callable (weight input.old.rest) (F.pre self.now.expr) }
        requires reads { ReadsExpr E.tree (F.post self.now.expr) }
        ensures value { Reads (λ b. E.tree b.value) (read.trailed_by read.expr place (E.tree base.value) [] e.index input.old.rest) result input.new.rest }
        ensures noted { input.new.noted ≡ input.old.noted }
        ensures shrinks { weight input.new.rest ≤ weight input.old.rest }
    {
        if !fits_base(place, TrailerKind::Index, &*base) {
            return Err(given_up(base, input.error(ErrorKind::UnexpectedToken)));
        }
        let base = Held { value: base };
        let lists = Lists { expr: self.expr };
        let (bracket_token, index) = lists.index(input)?;
        Ok(make::index(input.alloc(), base.into_inner(), bracket_token, index)?)
    }

    /// Reads the arguments of a method after its name and its turbofish, if it has one. A `::` that begins no turbofish is
    /// refused as `ExpectedToken` of the `<` that is missing after it.
    #[tactic(auto, using(crate::proofs::Bases::no_arguments))]
    fn method_arguments(
        &self,
        input: &mut ParseBuffer<'_>,
        has_turbofish: bool,
    ) -> Result<(Paren, Punctuated<E, Comma>)>
        requires callable { Callable (weight input.old.rest) (F.pre self.now.expr) }
        requires reads { ReadsExpr E.tree (F.post self.now.expr) }
        ensures value { Reads (λ a. elements (map E.tree (values a.1)) (trails a.1)) (read.content read.expr (slot.trailer_holder e.call) input.old.rest) result input.new.rest }
        ensures noted { input.new.noted ≡ input.old.noted }
        ensures shrinks { weight input.new.rest ≤ weight input.old.rest }
    {
        if !has_turbofish && front::colon2(input).is_some() {
            return Err(input.error(ErrorKind::ExpectedToken(Expected::One(Lt::wanted()))));
        }
        let lists = Lists { expr: self.expr };
        lists.arguments(input)
    }

    /// Reads `await`, a field or a method with its arguments, after the indices of a float that come before it.
    // Not in the frame of its caller, which is on the stack once for each level of a tree.
    #[inline(never)]
    #[tactic(auto, using(crate::proofs::Bases::bases))]
    fn named_trailer(
        &self,
        input: &mut ParseBuffer<'_>,
        place: Place,
        base: Box<E>,
        dot_token: Dot,
        indices: FloatIndices<'_>,
    ) -> Result<Box<E>>
        requires callable { Callable (weight input.old.rest + 1) (F.pre self.now.expr) }
        requires reads { ReadsExpr E.tree (F.post self.now.expr) }
        ensures value { Reads (λ b. E.tree b.value) (and_then (head.dotted.reads input.old.rest) (read.trailed_by read.expr place (E.tree base.value) indices.entry)) result input.new.rest }
        ensures noted { input.new.noted ≡ input.old.noted }
        ensures shrinks { weight input.new.rest ≤ weight input.old.rest }
    {
        let base = Held { value: base };
        let head = dotted(input)?;
        if !fits_base(place, head_kind(&head), &*base.value) {
            return Err(input.error(ErrorKind::UnexpectedToken));
        }
        let (base, dot_token) = fields(input.alloc(), base.into_inner(), dot_token, indices)?;
        match head {
            TrailerHead::Await(await_token) => Ok(make::awaited(
                input.alloc(),
                base,
                dot_token,
                await_token,
            )?),
            TrailerHead::Field(member) => Ok(make::field(input.alloc(), base, dot_token, member)?),
            TrailerHead::Method(name, turbofish) => {
                let base = Held { value: base };
                let arguments = self.method_arguments(input, turbofish.is_some())?;
                let name = (name, turbofish);
                let base = base.into_inner();
                Ok(make::method(input.alloc(), base, dot_token, name, arguments)?)
            }
        }
    }

    /// Reads what comes after a dot: indices, or a name with what belongs to it.
    // Not in the frame of its caller, which is on the stack once for each level of a tree.
    #[inline(never)]
    #[tactic(auto, using(crate::proofs::Bases::bases))]
    fn behind_dot(
        &self,
        input: &mut ParseBuffer<'_>,
        place: Place,
        base: Box<E>,
        dot_token: Dot,
    ) -> Result<Box<E>>
        requires callable { Callable (weight input.old.rest + 1) (F.pre self.now.expr) }
        requires reads { ReadsExpr E.tree (F.post self.now.expr) }
        ensures value { Reads (λ b. E.tree b.value) (read.dotted_by read.expr place (E.tree base.value) (stands.indices_at input.old.rest) input.old.rest) result input.new.rest }
        ensures noted { input.new.noted ≡ input.old.noted }
        ensures shrinks { weight input.new.rest ≤ weight input.old.rest }
    {
        if let Some(indices) = indices(input) {
            return indexed(input, place, base, dot_token, indices);
        }
        let Some(indices) = indices_before_name(input) else {
            return Err(given_up(base, refusal(input)));
        };
        self.named_trailer(input, place, base, dot_token, indices)
    }

    /// Reads a trailer after its base.
    // Not in the frame of its caller, which is on the stack once for each level of a tree.
    #[inline(never)]
    #[tactic(auto, unfolding(syn_expr_spec::specs::Read::trailed, syn_expr_spec::specs::Front::question_at))]
    fn trailed(&self, input: &mut ParseBuffer<'_>, place: Place, base: Box<E>) -> Result<Box<E>>
        requires callable { Callable (weight input.old.rest) (F.pre self.now.expr) }
        requires reads { ReadsExpr E.tree (F.post self.now.expr) }
        ensures value { Reads (λ b. E.tree b.value) (read.trailed read.expr place (E.tree base.value) input.old.rest) result input.new.rest }
        ensures noted { input.new.noted ≡ input.old.noted }
        ensures shrinks { weight input.new.rest ≤ weight input.old.rest }
    {
        if round_at(input) {
            return self.call(input, place, base);
        }
        if bracket_at(input) {
            return self.index(input, place, base);
        }
        if let Some(question_token) = front::question(input) {
            return try_expr(input, place, base, question_token);
        }
        let Some(dot_token) = dot(input) else {
            return Err(given_up(base, input.error(ErrorKind::UnexpectedToken)));
        };
        self.behind_dot(input, place, base, dot_token)
    }

    /// Reads the trailers after a base, as many as there are.
    ///
    /// It is refused as `UnexpectedToken` at a trailer that its base doesn't take, as `ExpectedMember`,
    /// `ExpectedUnsuffixedInteger` or `IndexOutOfRange` where no name, method or index is after a dot, as `ExpectedToken` where
    /// a method lacks its arguments or the `<` of its turbofish, and inside as arguments, an index or a type are.
    // Mostly there is none, which is known without a call.
    #[inline(always)]
    #[tactic(auto, using(crate::proofs::Loops::trails))]
    pub(crate) fn trail(
        &self,
        input: &mut ParseBuffer<'_>,
        place: Place,
        mut base: Box<E>,
    ) -> Result<Box<E>>
        requires callable { Callable (weight input.old.rest) (F.pre self.now.expr) }
        requires reads { ReadsExpr E.tree (F.post self.now.expr) }
        ensures value { Reads (λ b. E.tree b.value) (trailers place (E.tree base.value) input.old.rest) result input.new.rest }
        ensures noted { input.new.noted ≡ input.old.noted }
        ensures shrinks { weight input.new.rest ≤ weight input.old.rest }
    {
        'trailers: while !closes(input, place, &*base) {
            base = self.trailed(input, place, base)?;
        }
        Ok(base)
    }
}

/// Fields of fields, one for each index, and the dot after them. The dots that are in the float have its place.
pub(crate) fn fields<E: IsExpr + Drop>(
    alloc: Global,
    mut base: Box<E>,
    mut dot_token: Dot,
    mut indices: FloatIndices<'_>,
) -> std::result::Result<(Box<E>, Dot), AllocError>
    ensures { IfOk result (λ r. E.tree r.0.value ≡ stands.fields_of (E.tree base.value) indices.entry) }
{
    let span = indices.span();
    'indices: while let Some(index) = indices.next_index() {
        base = make::field(alloc, base, dot_token, Member::Unnamed(index))?;
        dot_token = Dot { spans: [span] };
    }
    Ok((base, dot_token))
}
