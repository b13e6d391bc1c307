//! What the reading asks of an expression that was read: by its kind, by whether attributes come before it, by its place and
//! by what comes after it; and how it is refused.
//!
//! What was read is held while more is read. A reader takes no stack for operands that it reads one after the other. So
//! neither may it where it gives them up: these are dropped by a loop, where the drop of an expression goes down each
//! operand by a call.

ghost use Rattle.std.specs.Prelude.{◌≡◌, ◌&&◌, ◌≢◌, ◌≤◌, None};
ghost use Rattle.syn_expr_parse.specs.Kind as spec;
ghost use Rattle.syn_expr_spec.specs.Op as op_spec;
ghost use Rattle.syn_expr_spec.specs.Stands as stands;
ghost use Rattle.syn_expr_heads.specs.View.{jump_of, leaf_of};
ghost use Rattle.syn_expr_spec.specs.Tree as e;
ghost use Rattle.syn_lower.specs.View.{path_of, qself_or, type_of};
ghost use Rattle.syn_expr_spec.specs.Place as places;
ghost use Rattle.syn_lower_leaves.specs.Reads.{Reads};
ghost use Rattle.syn_lower_spec.specs.Part as part;
ghost use Rattle.syn_tokens.specs.Tok.{weight};
ghost use Rattle.syn_expr_spec.specs.Read as read;

use crate::kinds::ReadExprs;
use syn_expr_ast::alone::IsExpr;
use syn_expr_ast::atom::is_word_alone;
use syn_expr_ast::label::{LeafKind, NodeKind, TrailerKind};
use syn_expr_ast::node::{HasKind, HasNode};
use syn_expr_ast::structure::FieldValueOf;
use syn_expr_heads::leaf::{JumpHead, LeafHead};
use syn_expr_spec::kinds::{Infix, Place, Precedence};
use syn_expr_tokens::limits::RangeLimits;
use syn_expr_tokens::op::{
    begins_expr, brace_at, dot_at, ends_open_range, infix_at, is_comparison, is_range_op,
    level as level_of, question_at, refuses_arrow, refuses_dots, takes, trailer_at,
};
use syn_lower::grammar::Grammar;
use syn_lower::path::{Path, QSelf};
use syn_lower::punctuated::Punctuated;
use syn_lower::readers::ty;
use syn_lower_spec::label::PathStyle;
use syn_tokens::buffer::ParseBuffer;
use syn_tokens::error::{Error, ErrorKind, Part, Result};
use syn_tokens::token::{Colon, Ne, Pound};
use syn_tokens::tree::Span;

/// Whether attributes come before it (Rust Reference, "Expression attributes").
#[tactic(auto, using(crate::proofs::Attributes::attributed))]
pub fn is_attributed<E: HasNode>(x: &E) -> bool
    ensures { result ≡ stands.is_attributed (E.tree x.now) }
{
    !x.attributes().has_none_before()
}

/// The kind of a node before which there is no attribute; none of another.
#[tactic(auto, unfolding(crate::specs::Kind::bare_kind))]
pub fn bare_kind<E: HasNode + HasKind>(x: &E) -> Option<NodeKind>
    ensures { result ≡ spec.bare_kind (E.tree x.now) }
{
    if is_attributed(x) {
        None
    } else {
        Some(x.kind())
    }
}

/// Whether a trailer may come after it.
#[tactic(auto, using(crate::proofs::ByKind::kinds))]
pub fn carries<E: HasKind>(x: &E) -> bool
    ensures { result ≡ stands.carries (E.tree x.now) }
{
    match x.kind() {
        NodeKind::Leaf(leaf) => !leaf.is_range(),
        NodeKind::Prefix(prefix) => prefix.carries(),
        NodeKind::Infix(_) => false,
        NodeKind::Postfix(_) => false,
        NodeKind::Paren => true,
        NodeKind::Tail(_) => true,
        NodeKind::Frame(_) => true,
    }
}

/// Whether it is a range, after attributes too (Rust Reference, "Range expressions").
#[tactic(auto, using(crate::proofs::ByKind::kinds))]
pub fn is_range<E: HasKind>(x: &E) -> bool
    ensures { result ≡ stands.is_range (E.tree x.now) }
{
    match x.kind() {
        NodeKind::Leaf(leaf) => leaf.is_range(),
        NodeKind::Prefix(prefix) => prefix.is_range(),
        NodeKind::Infix(op) => is_range_op(op),
        NodeKind::Postfix(postfix) => is_range_op(postfix.op()),
        NodeKind::Paren => false,
        NodeKind::Tail(_) => false,
        NodeKind::Frame(_) => false,
    }
}

/// Whether it is a comparison without parentheses (Rust Reference, "Comparison Operators").
#[tactic(auto, using(crate::proofs::ByKind::kinds))]
pub fn compares<E: HasNode + HasKind>(x: &E) -> bool
    ensures { result ≡ stands.compares (E.tree x.now) }
{
    match bare_kind(x) {
        Some(NodeKind::Infix(op)) => is_comparison(op),
        _ => false,
    }
}

/// Whether it is an operation with an infix operator.
#[tactic(auto, using(crate::proofs::ByKind::kinds))]
pub fn is_infix<E: HasNode + HasKind>(x: &E) -> bool
    ensures { result ≡ stands.is_infix (E.tree x.now) }
{
    matches!(
        bare_kind(x),
        Some(NodeKind::Infix(_) | NodeKind::Postfix(_))
    )
}

/// Whether it is a cast (Rust Reference, "Type cast expressions").
#[tactic(auto, using(crate::proofs::ByKind::kinds))]
pub fn is_cast<E: HasNode + HasKind>(x: &E) -> bool
    ensures { result ≡ stands.is_cast (E.tree x.now) }
{
    match bare_kind(x) {
        Some(NodeKind::Postfix(postfix)) => postfix.is_cast(),
        _ => false,
    }
}

/// Whether it is verbatim tokens.
#[tactic(auto, using(crate::proofs::ByKind::kinds))]
pub fn is_verbatim<E: HasNode + HasKind>(x: &E) -> bool
    ensures { result ≡ stands.is_verbatim (E.tree x.now) }
{
    matches!(
        bare_kind(x),
        Some(NodeKind::Leaf(LeafKind::Verbatim { .. }))
    )
}

/// Whether it is verbatim tokens, `#` the first of them.
#[tactic(auto, using(crate::proofs::ByKind::kinds))]
pub fn is_pounded<E: HasNode + HasKind>(x: &E) -> bool
    ensures { result ≡ stands.is_pounded (E.tree x.now) }
{
    match bare_kind(x) {
        Some(NodeKind::Leaf(leaf)) => leaf.is_pounded(),
        _ => false,
    }
}

/// Whether it is a field with a name (Rust Reference, "Field access expressions").
#[tactic(auto, using(crate::proofs::ByKind::kinds))]
pub fn is_named_field<E: HasNode + HasKind>(x: &E) -> bool
    ensures { result ≡ stands.is_named_field (E.tree x.now) }
{
    match bare_kind(x) {
        Some(NodeKind::Tail(trailer)) => trailer.is_named_field(),
        _ => false,
    }
}

/// Whether it is the whole where it is at a head: it is like a block, or holds one in invisible groups (Rust Reference,
/// "Expression statements").
pub fn rests<E: ReadExprs>(place: Place, x: &E) -> bool
    ensures { result ≡ stands.rests place (E.tree x.now) }
{
    place.head && x.holds_block()
}

/// Whether attributes may come before it: none do, it is neither an operation nor verbatim tokens, and a range only at
/// a head (Rust Reference, "Expression attributes").
pub fn takes_attributes<E: HasNode + HasKind>(place: Place, x: &E) -> bool
    ensures { result ≡ stands.takes_attributes place (E.tree x.now) }
{
    !(is_infix(x) || is_attributed(x) || is_verbatim(x)) && (place.head || !is_range(x))
}

/// Whether it and the operator after it would chain comparisons (Rust Reference, "Comparison Operators").
pub fn chains<E: HasNode + HasKind>(op: Infix, x: &E) -> bool
    ensures { result ≡ op_spec.is_comparison op && stands.compares (E.tree x.now) }
{
    is_comparison(op) && compares(x)
}

/// Whether `?` or a trailer with a dot may come after it.
fn is_base<E: HasNode + HasKind>(x: &E) -> bool
    ensures { result ≡ spec.is_base (E.tree x.now) }
{
    carries(x) && !(is_attributed(x) || is_pounded(x))
}

/// Whether a trailer of this kind may come after it: it carries one, and attributes don't come before it. No arguments
/// come after a field with a name, and neither they nor an index after what is the whole (Rust Reference, "Call expressions",
/// "Array and slice indexing expressions").
pub fn fits_base<E: ReadExprs>(place: Place, kind: TrailerKind, x: &E) -> bool
    ensures { result ≡ spec.fits_base place kind (E.tree x.now) }
{
    is_base(x)
        && match kind {
            TrailerKind::Call => !is_named_field(x) && !rests(place, x),
            TrailerKind::Index => !rests(place, x),
            _ => true,
        }
}

/// Whether a path is alone: no brace after it makes it a struct expression, and it begins no other expression.
#[tactic(auto, unfolding(syn_expr_spec::specs::Stands::leaf_stands, syn_tokens::specs::Sign::sign_text, syn_lower_spec::specs::Mark::sign_at))]
fn path_stands(input: &ParseBuffer<'_>, place: Place, qself: &Option<QSelf>, path: &Path) -> bool
    ensures { result ≡ stands.leaf_stands place (e.path (qself_or type_of qself.now) (path_of type_of path.now)) input.now.rest }
{
    (place.condition || !brace_at(input))
        && (!is_word_alone(qself, path, "try") || input.peek::<Ne>())
        && !(is_word_alone(qself, path, "builtin") && input.peek::<Pound>())
}

/// Whether a brace that comes first is that of the block after a condition.
fn is_block_next(input: &ParseBuffer<'_>, place: Place) -> bool
    ensures { result ≡ stands.is_block_next place input.now.rest }
{
    place.condition && brace_at(input)
}

/// Whether no value follows a jump (Rust Reference, "`return` expressions", "`break` expressions").
#[tactic(auto, unfolding(syn_tokens::specs::Sign::sign_text, syn_lower_spec::specs::Mark::sign_at))]
pub fn ends_jump(input: &ParseBuffer<'_>, place: Place, jump: &JumpHead) -> bool
    ensures { result ≡ stands.ends_jump place (jump_of jump.now) input.now.rest }
{
    match jump {
        JumpHead::Return(_) => !begins_expr(input),
        JumpHead::Yield(_) => !begins_expr(input),
        JumpHead::Break(_, None) => !begins_expr(input) || is_block_next(input, place),
        JumpHead::Break(_, Some(_)) => {
            (!begins_expr(input) || is_block_next(input, place)) && !input.peek::<Colon>()
        }
    }
}

/// Whether a leaf comes before what is left: a path that no brace makes a struct expression, a range that has no end, a jump
/// without a value, and all other leaves.
#[tactic(auto, unfolding(syn_expr_spec::specs::Stands::leaf_stands))]
pub fn leaf_stands(input: &ParseBuffer<'_>, place: Place, leaf: &LeafHead) -> bool
    ensures { result ≡ stands.leaf_stands place (leaf_of leaf.now) input.now.rest }
{
    match leaf {
        LeafHead::Path(qself, path) => path_stands(input, place, qself, path),
        LeafHead::FullRange(RangeLimits::HalfOpen(_)) => ends_open_range(input, place.condition),
        LeafHead::FullRange(RangeLimits::Closed(_)) => false,
        LeafHead::Jump(jump) => ends_jump(input, place, jump),
        _ => true,
    }
}

/// The whole of a list, an element of one, and what is alone in delimiters.
pub const PLAIN: Place = Place {
    level: Precedence::Jump,
    condition: false,
    head: false,
};

/// Before the block of an `if` or a loop and the arms of a `match`.
pub const BEFORE_BLOCK: Place = Place {
    level: Precedence::Jump,
    condition: true,
    head: false,
};

/// A statement, or the body of an arm.
pub const AT_HEAD: Place = Place {
    level: Precedence::Jump,
    condition: false,
    head: true,
};

/// The place of a right operand, or of the operand after what comes before it, at this level.
pub fn at(place: Place, level: Precedence) -> Place
    ensures { result ≡ places.at place level }
{
    Place {
        level,
        condition: place.condition,
        head: false,
    }
}

/// What is dropped by a loop.
// Apart from the readers of all kinds, since of those two name a type of arms.
pub trait LetGo {
    /// Drops it, and all in it, in no more stack than reading it takes: a chain of operands takes none.
    fn let_go(self);
}

impl<T: LetGo> LetGo for Box<T> {
    // Not in the frames of readers, which are on the stack once for each level of a tree: the value would are in each of
    // them.
    #[inline(never)]
    fn let_go(self) {
        Box::into_inner(self).let_go();
    }
}

impl<T: LetGo + Drop> LetGo for Vec<T> {
    // Not in the frames of readers, as that of a box.
    #[inline(never)]
    fn let_go(self) {
        for x in self {
            x.let_go();
        }
    }
}

impl<T: LetGo + Drop, P: Drop> LetGo for Punctuated<T, P> {
    // Not in the frames of readers, as that of a box.
    #[inline(never)]
    fn let_go(mut self) {
        while let Some((x, _)) = self.inner.pop() {
            x.let_go();
        }
        if let Some(x) = self.last.take() {
            x.let_go();
        }
    }
}

impl<E: LetGo> LetGo for FieldValueOf<E> {
    fn let_go(self) {
        let FieldValueOf { expr, .. } = self;
        expr.let_go();
    }
}

/// A value that holds an expression and drops it, as `HeldExpr` does.
pub trait HoldsExpr {
    /// The type of expressions.
    type Expr: IsExpr + LetGo;

    /// The expression that a value holds.
    ghost held: { Self → Self.Expr };

    /// Holds an expression.
    fn hold(expr: Self::Expr) -> Self
        ensures { Self.held result ≡ expr };

    /// The expression, which is the caller's to drop.
    fn into_expr(self) -> Self::Expr
        ensures { result ≡ Self.held self };
}

/// A refusal, where what was read is given up for it.
pub fn given_up<T: LetGo>(value: T, refusal: Error) -> Error
    ensures { result ≡ refusal }
{
    value.let_go();
    refusal
}

/// A part of an expression that is dropped with this value, unless it is taken out before.
///
/// It asks of the part that a call drops it, and not that it is `Drop`: a crate that holds an `Expr` here proves no drop of it
/// again.
pub struct Held<T: LetGo> {
    /// The part.
    pub value: T,
}

impl<T: LetGo> Drop for Held<T> {
    fn drop(self) {
        let Held { value } = self;
        value.let_go();
    }
}

impl<T: LetGo> Held<T> {
    /// The part, which is the caller's to drop.
    pub fn into_inner(self) -> T
        ensures { result ≡ self.value }
    {
        let Held { value } = self;
        value
    }
}

/// Where the first operator is; the first token, where none is.
pub(crate) fn operator_span(input: &ParseBuffer<'_>) -> Span {
    let [first, second, third]: [Span; 3] = input.spans();
    match infix_at(input) {
        Some((_, 3)) => Span {
            lo: first.lo,
            hi: third.hi,
        },
        Some((_, 2)) => Span {
            lo: first.lo,
            hi: second.hi,
        },
        _ => first,
    }
}

/// The refusal of a path: where it has not even a first token, no expression begins there.
fn of_path(e: Error, start: Span) -> Error
    ensures { result.kind ≢ ErrorKind.OutOfMemory → e.kind ≢ ErrorKind.OutOfMemory }
{
    match e.kind {
        ErrorKind::ExpectedPart(Part::Path) if e.span == start => {
            Error::new(start, ErrorKind::ExpectedExpression)
        }
        _ => e,
    }
}

/// Reads a path and the type that it is qualified by, if there is one. Where not even its first token is there, it is
/// refused as `ExpectedExpression`, else as a path is.
pub(crate) fn qpath(input: &mut ParseBuffer<'_>) -> Result<(Option<QSelf>, Path)>
    ensures value { Reads (λ q. (qself_or type_of q.0, path_of type_of q.1)) ((part.qpath part.type PathStyle.Expr).reads input.old.rest) result input.new.rest }
    ensures noted { input.new.noted ≡ input.old.noted }
    ensures shrinks { weight input.new.rest ≤ weight input.old.rest }
{
    let start = input.span();
    let types = Grammar { ty };
    match types.qpath(input, PathStyle::Expr) {
        Ok(found) => Ok(found),
        Err(e) => Err(of_path(e, start)),
    }
}

/// Whether a trailer comes first that goes on a base, or on one that is the whole: then only `?` or a dot does.
fn goes_behind(input: &ParseBuffer<'_>, rests: bool) -> bool
    ensures { result ≡ stands.goes_behind rests input.now.rest }
{
    if rests {
        dot_at(input) || question_at(input)
    } else {
        trailer_at(input)
    }
}

/// Whether no trailer is left after what could carry it, nor after a cast.
#[inline(always)]
#[tactic(auto, using(crate::proofs::Stops::closed), unfolding(syn_expr_spec::specs::Stands::closes))]
pub fn closes<E: ReadExprs>(input: &ParseBuffer<'_>, place: Place, x: &E) -> bool
    ensures { result ≡ stands.closes place (E.tree x.now) input.now.rest }
{
    // Mostly none is there at all, so that nothing is asked of the expression.
    if !trailer_at(input) {
        return true;
    }
    !((carries(x) || is_cast(x)) && goes_behind(input, rests(place, x)))
}

/// The infix operator that an expression at this level takes next, and of how many tokens it is.
#[tactic(auto, unfolding(syn_expr_spec::specs::Read::taken_at))]
fn taken_at(input: &ParseBuffer<'_>, level: Precedence) -> Option<(Infix, usize)>
    ensures { result ≡ read.taken_at level input.now.rest }
{
    match infix_at(input) {
        Some((op, count)) if takes(level, level_of(op)) => Some((op, count)),
        _ => None,
    }
}

/// The operator that goes on a left operand: none goes on a range, nor on what is the whole.
pub fn next_operator<E: ReadExprs>(
    input: &ParseBuffer<'_>,
    place: Place,
    left: &E,
) -> Option<(Infix, usize)>
    ensures { result ≡ read.next_operator place (E.tree left.now) input.now.rest }
{
    let next = taken_at(input, place.level)?;
    if is_range(left) || rests(place, left) {
        return None;
    }
    Some(next)
}

/// Whether it may end here, where no operator goes on it: it is a range or the whole, or none of the tokens comes first that
/// are refused there.
#[tactic(auto, using(crate::proofs::Stops::stops))]
pub fn stops<E: ReadExprs>(input: &ParseBuffer<'_>, place: Place, x: &E) -> bool
    requires { read.next_operator place (E.tree x.now) input.now.rest ≡ None }
    ensures { result ≡ stands.ends place (E.tree x.now) input.now.rest }
{
    !(refuses_dots(input, place.level) || refuses_arrow(input, place.level))
        || is_range(x)
        || rests(place, x)
}
