//! Expressions (Rust Reference, "Expressions").
//!
//! The kinds that hold no patterns are in `syn_expr_ast`, generic in the expression; here they have syn's names, over
//! `Expr`.

ghost use Rattle.std.specs.Prelude.{◌≡◌, IfSome, ◌<◌};
ghost use Rattle.syn_expr_core.specs.declared.expr.Expr.{size-Expr};

mod apart;
mod node;
mod taken;

pub use crate::closure::ExprClosure;
pub use crate::control::{Arm, ExprForLoop, ExprLet, ExprMatch};
pub use apart::Node;
use syn_expr_ast::atom::{ExprArrayOf, ExprGroupOf, ExprParenOf, ExprRepeatOf, ExprTupleOf};
pub use syn_expr_ast::atom::{ExprInfer, ExprLit, ExprMacro, ExprPath};
use syn_expr_ast::block::{ExprIfOf, ExprWhileOf};
pub use syn_expr_ast::block::{
    ExprAsync, ExprBlock, ExprConst, ExprLoop, ExprTryBlock, ExprUnsafe,
};
pub use syn_expr_ast::jump::ExprContinue;
use syn_expr_ast::jump::{ExprBreakOf, ExprReturnOf, ExprYieldOf};
use syn_expr_ast::operation::{
    ExprAssignOf, ExprBinaryOf, ExprCastOf, ExprRangeOf, ExprRawAddrOf, ExprReferenceOf,
    ExprUnaryOf,
};
use syn_expr_ast::structure::{ExprStructOf, FieldValueOf};
use syn_expr_ast::trailer::{
    ExprAwaitOf, ExprCallOf, ExprFieldOf, ExprIndexOf, ExprMethodCallOf, ExprTryOf,
};
use syn_lower::punctuated::Punctuated;
use syn_tokens::token::Comma;
use syn_tokens::tree::TokenStream;
pub(crate) use taken::Taken;

/// An expression.
#[cycle(expr)]
#[derive(Debug, PartialEq, Eq, Hash)]
pub enum Expr {
    /// `[a, b]`
    Array(ExprArrayOf<Expr>),
    /// `a = b`
    Assign(ExprAssignOf<Expr>),
    /// `async { .. }`
    Async(ExprAsync),
    /// `a.await`
    Await(ExprAwaitOf<Expr>),
    /// `a + b`, `a += b`
    Binary(ExprBinaryOf<Expr>),
    /// `{ .. }`
    Block(ExprBlock),
    /// `break`, `break 'a b`
    Break(ExprBreakOf<Expr>),
    /// `f(a, b)`
    Call(ExprCallOf<Expr>),
    /// `a as T`
    Cast(ExprCastOf<Expr>),
    /// `|a, b| a + b`
    Closure(ExprClosure),
    /// `const { .. }`
    Const(ExprConst),
    /// `continue`, `continue 'a`
    Continue(ExprContinue),
    /// `a.b`, `a.0`
    Field(ExprFieldOf<Expr>),
    /// `for p in a { .. }`
    ForLoop(ExprForLoop),
    /// An expression in delimiters that are not seen.
    Group(ExprGroupOf<Expr>),
    /// `if a { .. } else { .. }`
    If(ExprIfOf<Expr>),
    /// `a[i]`
    Index(ExprIndexOf<Expr>),
    /// `_`
    Infer(ExprInfer),
    /// `let p = a`
    Let(ExprLet),
    /// `1`, `"a"`, `true`
    Lit(ExprLit),
    /// `loop { .. }`
    Loop(ExprLoop),
    /// `m!(..)`
    Macro(ExprMacro),
    /// `match a { p => b, .. }`
    Match(ExprMatch),
    /// `a.f(b)`
    MethodCall(ExprMethodCallOf<Expr>),
    /// `(a)`
    Paren(ExprParenOf<Expr>),
    /// `a::b`
    Path(ExprPath),
    /// `a..b`, `a..`, `..=b`, `..`
    Range(ExprRangeOf<Expr>),
    /// `&raw const a`
    RawAddr(ExprRawAddrOf<Expr>),
    /// `&a`, `&mut a`
    Reference(ExprReferenceOf<Expr>),
    /// `[a; n]`
    Repeat(ExprRepeatOf<Expr>),
    /// `return`, `return a`
    Return(ExprReturnOf<Expr>),
    /// `S { a: 1, ..b }`
    Struct(ExprStructOf<Expr>),
    /// `a?`
    Try(ExprTryOf<Expr>),
    /// `try { .. }`
    TryBlock(ExprTryBlock),
    /// `(a, b)`
    Tuple(ExprTupleOf<Expr>),
    /// `*a`, `!a`, `-a`
    Unary(ExprUnaryOf<Expr>),
    /// `unsafe { .. }`
    Unsafe(ExprUnsafe),
    /// `while a { .. }`
    While(ExprWhileOf<Expr>),
    /// `yield`, `yield a`
    Yield(ExprYieldOf<Expr>),
    /// Tokens that are kept as they are.
    Verbatim(TokenStream),
}

impl Drop for Expr {
    /// Drops the expression, by a loop along its operands: a chain takes no stack, however long it is.
    #[cycle(expr_drop)]
    fn drop(mut self) {
        loop {
            let (first, second) = self.operands_left();
            self = match (first, second) {
                (Some(x), Some(y)) => Box::into_inner(if is_leaf(&x) { y } else { x }),
                (Some(x), None) => Box::into_inner(x),
                (None, Some(y)) => Box::into_inner(y),
                (None, None) => return,
            };
        }
    }
}

impl Expr {
    /// Drops the expression but for at most two of its operands, those that chains go on in.
    // Not in the frame of `drop`, which is on the stack once for each level of a tree that no loop goes down.
    #[inline(never)]
    #[cycle(expr_drop)]
    fn operands_left(self) -> (Option<Box<Expr>>, Option<Box<Expr>>)
        ensures first { IfSome result.0 (λ operand. size-Expr operand.value < size-Expr self) }
        ensures second { IfSome result.1 (λ operand. size-Expr operand.value < size-Expr self) }
    {
        match self {
            Expr::Array(x) => (last(x.elems), None),
            Expr::Assign(x) => (Some(x.left), Some(x.right)),
            Expr::Async(_) => (None, None),
            Expr::Await(x) => (Some(x.base), None),
            Expr::Binary(x) => (Some(x.left), Some(x.right)),
            Expr::Block(_) => (None, None),
            Expr::Break(x) => (x.expr, None),
            Expr::Call(x) => (Some(x.func), last(x.args)),
            Expr::Cast(x) => (Some(x.expr), None),
            Expr::Closure(x) => (Some(x.body), None),
            Expr::Const(_) => (None, None),
            Expr::Continue(_) => (None, None),
            Expr::Field(x) => (Some(x.base), None),
            Expr::ForLoop(x) => (Some(x.expr), None),
            Expr::Group(x) => (Some(x.expr), None),
            Expr::If(
                ExprIfOf {
                    cond,
                    else_branch,
                    ..
                },
            ) => match else_branch {
                Some((_, otherwise)) => (Some(cond), Some(otherwise)),
                None => (Some(cond), None),
            },
            Expr::Index(x) => (Some(x.expr), Some(x.index)),
            Expr::Infer(_) => (None, None),
            Expr::Let(x) => (Some(x.expr), None),
            Expr::Lit(_) => (None, None),
            Expr::Loop(_) => (None, None),
            Expr::Macro(_) => (None, None),
            Expr::Match(x) => {
                arms(x.arms);
                (Some(x.expr), None)
            }
            Expr::MethodCall(x) => (Some(x.receiver), last(x.args)),
            Expr::Paren(x) => (Some(x.expr), None),
            Expr::Path(_) => (None, None),
            Expr::Range(x) => (x.start, x.end),
            Expr::RawAddr(x) => (Some(x.expr), None),
            Expr::Reference(x) => (Some(x.expr), None),
            Expr::Repeat(x) => (Some(x.expr), Some(x.len)),
            Expr::Return(x) => (x.expr, None),
            Expr::Struct(x) => {
                fields(x.fields);
                (x.rest, None)
            }
            Expr::Try(x) => (Some(x.expr), None),
            Expr::TryBlock(_) => (None, None),
            Expr::Tuple(x) => (last(x.elems), None),
            Expr::Unary(x) => (Some(x.expr), None),
            Expr::Unsafe(_) => (None, None),
            Expr::Verbatim(_) => (None, None),
            Expr::While(x) => (Some(x.cond), None),
            Expr::Yield(x) => (x.expr, None),
        }
    }
}

/// Whether it holds no expression, and no pattern.
fn is_leaf(x: &Expr) -> bool {
    matches!(x, Expr::Path(_) | Expr::Lit(_))
}

/// Drops the elements of a list but for the last, if no comma follows it, and answers that.
// Not in the frame of `drop`, which is on the stack once for each level of a tree that no loop goes down.
#[inline(never)]
#[cycle(expr_drop)]
fn last(mut elems: Punctuated<Expr, Comma>) -> Option<Box<Expr>>
    ensures { result ≡ elems.last }
{
    elems.last.take()
}

/// Drops the arms of a `match`.
#[inline(never)]
#[cycle(expr_drop)]
fn arms(arms: Vec<Arm>) {
    drop(arms);
}

/// Drops the fields of a struct expression.
#[inline(never)]
#[cycle(expr_drop)]
fn fields(fields: Punctuated<FieldValue, Comma>) {
    drop(fields);
}

/// `[a, b]`
pub type ExprArray = ExprArrayOf<Expr>;

/// `a = b`
pub type ExprAssign = ExprAssignOf<Expr>;

/// `a.await`
pub type ExprAwait = ExprAwaitOf<Expr>;

/// `a + b`, `a += b`
pub type ExprBinary = ExprBinaryOf<Expr>;

/// `break`, `break 'a b`
pub type ExprBreak = ExprBreakOf<Expr>;

/// `f(a, b)`
pub type ExprCall = ExprCallOf<Expr>;

/// `a as T`
pub type ExprCast = ExprCastOf<Expr>;

/// `a.b`, `a.0`
pub type ExprField = ExprFieldOf<Expr>;

/// An expression in delimiters that are not seen.
pub type ExprGroup = ExprGroupOf<Expr>;

/// `if a { .. } else { .. }`
pub type ExprIf = ExprIfOf<Expr>;

/// `a[i]`
pub type ExprIndex = ExprIndexOf<Expr>;

/// `a.f(b)`
pub type ExprMethodCall = ExprMethodCallOf<Expr>;

/// `(a)`
pub type ExprParen = ExprParenOf<Expr>;

/// `a..b`, `a..`, `..=b`, `..`
pub type ExprRange = ExprRangeOf<Expr>;

/// `&raw const a`
pub type ExprRawAddr = ExprRawAddrOf<Expr>;

/// `&a`, `&mut a`
pub type ExprReference = ExprReferenceOf<Expr>;

/// `[a; n]`
pub type ExprRepeat = ExprRepeatOf<Expr>;

/// `return`, `return a`
pub type ExprReturn = ExprReturnOf<Expr>;

/// `S { a: 1, ..b }`
pub type ExprStruct = ExprStructOf<Expr>;

/// `a?`
pub type ExprTry = ExprTryOf<Expr>;

/// `(a, b)`
pub type ExprTuple = ExprTupleOf<Expr>;

/// `*a`, `!a`, `-a`
pub type ExprUnary = ExprUnaryOf<Expr>;

/// `while a { .. }`
pub type ExprWhile = ExprWhileOf<Expr>;

/// `yield`, `yield a`
pub type ExprYield = ExprYieldOf<Expr>;

/// `a: 1`, a field of a struct expression.
pub type FieldValue = FieldValueOf<Expr>;
