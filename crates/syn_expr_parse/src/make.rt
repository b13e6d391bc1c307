//! Expressions made of what was read, in boxes and without attributes.

ghost use Rattle.std.specs.Prelude.{◌≡◌, IfOk, map};
ghost use Rattle.syn_expr_ast.specs.View as of;
ghost use Rattle.syn_expr_tokens.specs.View.{member_of, limits_kind, un_kind};
ghost use Rattle.syn_expr_parse.specs.Groups.{in_group};
ghost use Rattle.syn_expr_spec.specs.Stands as stands;
ghost use Rattle.syn_expr_spec.specs.Tree as e;
ghost use Rattle.syn_expr_spec.specs.declared.kinds.Infix.TheVariants as inf;
ghost use Rattle.syn_lower.specs.View.{path_of, qself_or, type_of, values, trails};

use std::alloc::{AllocError, Global};
use syn_expr_ast::alone::IsExpr;
use syn_expr_ast::atom::{ExprGroupOf, ExprPath};
use syn_expr_ast::operation::{ExprAssignOf, ExprBinaryOf, ExprCastOf, ExprRangeOf, ExprUnaryOf};
use syn_expr_ast::trailer::{
    ExprAwaitOf, ExprCallOf, ExprFieldOf, ExprIndexOf, ExprMethodCallOf, ExprTryOf,
};
use syn_expr_spec::kinds::{BinKind, Limits};
use syn_expr_tokens::limits::RangeLimits;
use syn_expr_tokens::member::Member;
use syn_expr_tokens::op::{BinOp, UnOp};
use syn_lower::path::{AngleBracketedGenericArguments, Path, PathArguments, PathSegment, QSelf};
use syn_lower::punctuated::Punctuated;
use syn_lower::ty::Type;
use syn_tokens::token::{
    As, Await, Bracket, Comma, Dot, DotDot, DotDotEq, Eq, Group, Paren, Question,
};
use syn_tokens::tree::{Ident, Span};

/// An expression in a box.
pub(crate) fn boxed<E: IsExpr + Drop>(
    alloc: Global,
    x: E,
) -> std::result::Result<Box<E>, AllocError>
    ensures { IfOk result (λ b. E.tree b.value ≡ E.tree x) }
{
    Ok(Box::new(alloc, x)?)
}

/// The path of a name alone.
#[tactic(auto, unfolding(syn_expr_ast::specs::Attrs::attrs_of, syn_lower_leaves::specs::View::values, syn_lower_leaves::specs::View::trails))]
pub(crate) fn name<E: IsExpr + Drop>(
    alloc: Global,
    ident: Ident,
) -> std::result::Result<Box<E>, AllocError>
    ensures { IfOk result (λ b. E.tree b.value ≡ stands.path_of ident) }
{
    let attrs = Vec::new(alloc);
    let arguments = PathArguments::None;
    let segment = Box::new(alloc, PathSegment { ident, arguments })?;
    let path = Path {
        leading_colon: None,
        segments: Punctuated {
            inner: Vec::new(alloc),
            last: Some(segment),
        },
    };
    let path = ExprPath {
        attrs,
        qself: None,
        path,
    };
    boxed(alloc, E::path(path))
}

/// A path, and the type that it is qualified by.
#[tactic(auto, unfolding(syn_expr_ast::specs::Attrs::attrs_of))]
pub(crate) fn path<E: IsExpr + Drop>(
    alloc: Global,
    qself: Option<QSelf>,
    path: Path,
) -> std::result::Result<Box<E>, AllocError>
    ensures { IfOk result (λ b. E.tree b.value ≡ e.leaf (e.path (qself_or type_of qself) (path_of type_of path))) }
{
    let attrs = Vec::new(alloc);
    boxed(alloc, E::path(ExprPath { attrs, qself, path }))
}

/// An operand in an invisible group.
#[tactic(auto, unfolding(syn_expr_ast::specs::Attrs::attrs_of))]
pub(crate) fn group<E: IsExpr + Drop>(
    alloc: Global,
    group_token: Group,
    expr: Box<E>,
) -> std::result::Result<Box<E>, AllocError>
    ensures { IfOk result (λ b. E.tree b.value ≡ in_group (E.tree expr.value)) }
{
    let attrs = Vec::new(alloc);
    boxed(
        alloc,
        E::group(ExprGroupOf {
            attrs,
            group_token,
            expr,
        }),
    )
}

/// The operator of a range of this kind, at these places.
pub(crate) fn limits(kind: Limits, spans: [Span; 3]) -> RangeLimits
    ensures { limits_kind result ≡ kind }
{
    let [first, second, _] = spans;
    match kind {
        Limits::HalfOpen => RangeLimits::HalfOpen(DotDot {
            spans: [first, second],
        }),
        Limits::Closed => RangeLimits::Closed(DotDotEq { spans }),
    }
}

/// An operand after its prefix operator.
#[tactic(auto, unfolding(syn_expr_ast::specs::Attrs::attrs_of))]
pub(crate) fn unary<E: IsExpr + Drop>(
    alloc: Global,
    op: UnOp,
    expr: Box<E>,
) -> std::result::Result<Box<E>, AllocError>
    ensures { IfOk result (λ b. E.tree b.value ≡ e.prefixed (e.unary (un_kind op)) e.none (E.tree expr.value)) }
{
    let attrs = Vec::new(alloc);
    boxed(alloc, E::unary(ExprUnaryOf { attrs, op, expr }))
}

/// A binary operator between its operands.
#[tactic(auto, unfolding(syn_expr_ast::specs::Attrs::attrs_of))]
pub(crate) fn binary<E: IsExpr + Drop>(
    alloc: Global,
    left: Box<E>,
    kind: BinKind,
    spans: [Span; 3],
    right: Box<E>,
) -> std::result::Result<Box<E>, AllocError>
    ensures { IfOk result (λ b. E.tree b.value ≡ e.infixed (E.tree left.value) (inf.Binary kind) (E.tree right.value)) }
{
    let attrs = Vec::new(alloc);
    let op = BinOp::of_kind(kind, spans);
    let binary = ExprBinaryOf {
        attrs,
        left,
        op,
        right,
    };
    boxed(alloc, E::binary(binary))
}

/// `=` between its operands.
#[tactic(auto, unfolding(syn_expr_ast::specs::Attrs::attrs_of))]
pub(crate) fn assign<E: IsExpr + Drop>(
    alloc: Global,
    left: Box<E>,
    eq_token: Eq,
    right: Box<E>,
) -> std::result::Result<Box<E>, AllocError>
    ensures { IfOk result (λ b. E.tree b.value ≡ e.infixed (E.tree left.value) inf.Assign (E.tree right.value)) }
{
    let attrs = Vec::new(alloc);
    let assign = ExprAssignOf {
        attrs,
        left,
        eq_token,
        right,
    };
    boxed(alloc, E::assign(assign))
}

/// `as` and a type after an operand.
#[tactic(auto, unfolding(syn_expr_ast::specs::Attrs::attrs_of))]
pub(crate) fn cast<E: IsExpr + Drop>(
    alloc: Global,
    expr: Box<E>,
    as_token: As,
    ty: Box<Type>,
) -> std::result::Result<Box<E>, AllocError>
    ensures { IfOk result (λ b. E.tree b.value ≡ e.postfixed (E.tree expr.value) (e.cast (type_of ty.value))) }
{
    let attrs = Vec::new(alloc);
    let cast = ExprCastOf {
        attrs,
        expr,
        as_token,
        ty,
    };
    boxed(alloc, E::cast(cast))
}

/// A range without an end.
#[tactic(auto, unfolding(syn_expr_ast::specs::Attrs::attrs_of))]
pub(crate) fn range_from<E: IsExpr + Drop>(
    alloc: Global,
    start: Box<E>,
    limits: RangeLimits,
) -> std::result::Result<Box<E>, AllocError>
    ensures { IfOk result (λ b. E.tree b.value ≡ e.postfixed (E.tree start.value) (e.range_from (limits_kind limits))) }
{
    let attrs = Vec::new(alloc);
    let range = ExprRangeOf {
        attrs,
        start: Some(start),
        limits,
        end: None,
    };
    boxed(alloc, E::range(range))
}

/// A range with a start and an end.
#[tactic(auto, unfolding(syn_expr_ast::specs::Attrs::attrs_of))]
pub(crate) fn range_between<E: IsExpr + Drop>(
    alloc: Global,
    start: Box<E>,
    limits: RangeLimits,
    end: Box<E>,
) -> std::result::Result<Box<E>, AllocError>
    ensures { IfOk result (λ b. E.tree b.value ≡ e.infixed (E.tree start.value) (inf.Range (limits_kind limits)) (E.tree end.value)) }
{
    let attrs = Vec::new(alloc);
    let range = ExprRangeOf {
        attrs,
        start: Some(start),
        limits,
        end: Some(end),
    };
    boxed(alloc, E::range(range))
}

/// Arguments after what is called.
#[tactic(auto, unfolding(syn_expr_ast::specs::Attrs::attrs_of))]
pub(crate) fn call<E: IsExpr + Drop>(
    alloc: Global,
    func: Box<E>,
    paren_token: Paren,
    args: Punctuated<E, Comma>,
) -> std::result::Result<Box<E>, AllocError>
    ensures { IfOk result (λ b. E.tree b.value ≡ e.tail (E.tree func.value) e.call (of.elements (map E.tree (values args)) (trails args))) }
{
    let attrs = Vec::new(alloc);
    let call = ExprCallOf {
        attrs,
        func,
        paren_token,
        args,
    };
    boxed(alloc, E::call(call))
}

/// An index after what has it.
#[tactic(auto, unfolding(syn_expr_ast::specs::Attrs::attrs_of))]
pub(crate) fn index<E: IsExpr + Drop>(
    alloc: Global,
    expr: Box<E>,
    bracket_token: Bracket,
    index: Box<E>,
) -> std::result::Result<Box<E>, AllocError>
    ensures { IfOk result (λ b. E.tree b.value ≡ e.tail (E.tree expr.value) e.index (e.child e.value e.no_ending (E.tree index.value) e.none)) }
{
    let attrs = Vec::new(alloc);
    let index = ExprIndexOf {
        attrs,
        expr,
        bracket_token,
        index,
    };
    boxed(alloc, E::index(index))
}

/// `?` after what is tried.
#[tactic(auto, unfolding(syn_expr_ast::specs::Attrs::attrs_of))]
pub(crate) fn try_expr<E: IsExpr + Drop>(
    alloc: Global,
    expr: Box<E>,
    question_token: Question,
) -> std::result::Result<Box<E>, AllocError>
    ensures { IfOk result (λ b. E.tree b.value ≡ e.tail (E.tree expr.value) e.try_expr e.none) }
{
    let attrs = Vec::new(alloc);
    let question = ExprTryOf {
        attrs,
        expr,
        question_token,
    };
    boxed(alloc, E::try_expr(question))
}

/// A member after what has it.
#[tactic(auto, unfolding(syn_expr_ast::specs::Attrs::attrs_of))]
pub(crate) fn field<E: IsExpr + Drop>(
    alloc: Global,
    base: Box<E>,
    dot_token: Dot,
    member: Member,
) -> std::result::Result<Box<E>, AllocError>
    ensures { IfOk result (λ b. E.tree b.value ≡ e.tail (E.tree base.value) (e.field (member_of member)) e.none) }
{
    let attrs = Vec::new(alloc);
    let field = ExprFieldOf {
        attrs,
        base,
        dot_token,
        member,
    };
    boxed(alloc, E::field(field))
}

/// `.await` after what is awaited.
#[tactic(auto, unfolding(syn_expr_ast::specs::Attrs::attrs_of))]
pub(crate) fn awaited<E: IsExpr + Drop>(
    alloc: Global,
    base: Box<E>,
    dot_token: Dot,
    await_token: Await,
) -> std::result::Result<Box<E>, AllocError>
    ensures { IfOk result (λ b. E.tree b.value ≡ e.tail (E.tree base.value) e.await e.none) }
{
    let attrs = Vec::new(alloc);
    let awaited = ExprAwaitOf {
        attrs,
        base,
        dot_token,
        await_token,
    };
    boxed(alloc, E::await_expr(awaited))
}

/// The name of a method, with its arguments in angle brackets.
pub(crate) type MethodName = (Ident, Option<AngleBracketedGenericArguments>);

/// The call of a method on a receiver.
#[tactic(auto, unfolding(syn_expr_ast::specs::Attrs::attrs_of))]
pub(crate) fn method<E: IsExpr + Drop>(
    alloc: Global,
    receiver: Box<E>,
    dot_token: Dot,
    name: MethodName,
    arguments: (Paren, Punctuated<E, Comma>),
) -> std::result::Result<Box<E>, AllocError>
    ensures { IfOk result (λ b. E.tree b.value ≡ e.tail (E.tree receiver.value) (e.method name.0 (of.turbofish_of name.1)) (of.elements (map E.tree (values arguments.1)) (trails arguments.1))) }
{
    let attrs = Vec::new(alloc);
    let (method, turbofish) = name;
    let (paren_token, args) = arguments;
    let method = ExprMethodCallOf {
        attrs,
        receiver,
        dot_token,
        method,
        turbofish,
        paren_token,
        args,
    };
    boxed(alloc, E::method_call(method))
}
