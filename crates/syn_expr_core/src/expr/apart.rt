//! An expression taken apart by value: a pattern can't do that elsewhere, since an expression has a `drop` of its own.

ghost use Rattle.std.specs.Prelude.{◌≡◌};
ghost use Rattle.syn_expr_core.specs.Node.{expr_of};
ghost use Rattle.syn_expr_core.specs.View.{tree_of};
ghost use Rattle.syn_expr_spec.specs.Alone as alone;

use crate::expr::{
    Expr, ExprArray, ExprAssign, ExprAsync, ExprAwait, ExprBinary, ExprBlock, ExprBreak, ExprCall,
    ExprCast, ExprClosure, ExprConst, ExprContinue, ExprField, ExprForLoop, ExprGroup, ExprIf,
    ExprIndex, ExprInfer, ExprLet, ExprLit, ExprLoop, ExprMacro, ExprMatch, ExprMethodCall,
    ExprParen, ExprPath, ExprRange, ExprRawAddr, ExprReference, ExprRepeat, ExprReturn, ExprStruct,
    ExprTry, ExprTryBlock, ExprTuple, ExprUnary, ExprUnsafe, ExprWhile, ExprYield,
};
use syn_tokens::tree::TokenStream;

/// An expression as a value to match on. It isn't dropped as it is: what isn't taken out of it goes back by `into_expr`.
pub enum Node {
    /// `[a, b]`
    Array(ExprArray),
    /// `a = b`
    Assign(ExprAssign),
    /// `async { .. }`
    Async(ExprAsync),
    /// `a.await`
    Await(ExprAwait),
    /// `a + b`, `a += b`
    Binary(ExprBinary),
    /// `{ .. }`
    Block(ExprBlock),
    /// `break`, `break 'a b`
    Break(ExprBreak),
    /// `f(a, b)`
    Call(ExprCall),
    /// `a as T`
    Cast(ExprCast),
    /// `|a, b| a + b`
    Closure(ExprClosure),
    /// `const { .. }`
    Const(ExprConst),
    /// `continue`, `continue 'a`
    Continue(ExprContinue),
    /// `a.b`, `a.0`
    Field(ExprField),
    /// `for p in a { .. }`
    ForLoop(ExprForLoop),
    /// An expression in delimiters that are not seen.
    Group(ExprGroup),
    /// `if a { .. } else { .. }`
    If(ExprIf),
    /// `a[i]`
    Index(ExprIndex),
    /// `_`
    Infer(ExprInfer),
    /// `let p = a`
    Let(ExprLet),
    /// `1`, `"a"`, `true`
    Lit(ExprLit),
    /// `loop { .. }`
    Loop(ExprLoop),
    /// `m!(..)`
    Macro(ExprMacro),
    /// `match a { p => b, .. }`
    Match(ExprMatch),
    /// `a.f(b)`
    MethodCall(ExprMethodCall),
    /// `(a)`
    Paren(ExprParen),
    /// `a::b`
    Path(ExprPath),
    /// `a..b`, `a..`, `..=b`, `..`
    Range(ExprRange),
    /// `&raw const a`
    RawAddr(ExprRawAddr),
    /// `&a`, `&mut a`
    Reference(ExprReference),
    /// `[a; n]`
    Repeat(ExprRepeat),
    /// `return`, `return a`
    Return(ExprReturn),
    /// `S { a: 1, ..b }`
    Struct(ExprStruct),
    /// `a?`
    Try(ExprTry),
    /// `try { .. }`
    TryBlock(ExprTryBlock),
    /// `(a, b)`
    Tuple(ExprTuple),
    /// `*a`, `!a`, `-a`
    Unary(ExprUnary),
    /// `unsafe { .. }`
    Unsafe(ExprUnsafe),
    /// `while a { .. }`
    While(ExprWhile),
    /// `yield`, `yield a`
    Yield(ExprYield),
    /// Tokens that are kept as they are.
    Verbatim(TokenStream),
}

impl Expr {
    /// It as a value to match on: `match x.node() { Node::Paren(x) => .., x => drop(x.into_expr()) }`.
    pub fn node(self) -> Node
        ensures { expr_of result ≡ self }
    {
        match self {
            Expr::Array(x) => Node::Array(x),
            Expr::Assign(x) => Node::Assign(x),
            Expr::Async(x) => Node::Async(x),
            Expr::Await(x) => Node::Await(x),
            Expr::Binary(x) => Node::Binary(x),
            Expr::Block(x) => Node::Block(x),
            Expr::Break(x) => Node::Break(x),
            Expr::Call(x) => Node::Call(x),
            Expr::Cast(x) => Node::Cast(x),
            Expr::Closure(x) => Node::Closure(x),
            Expr::Const(x) => Node::Const(x),
            Expr::Continue(x) => Node::Continue(x),
            Expr::Field(x) => Node::Field(x),
            Expr::ForLoop(x) => Node::ForLoop(x),
            Expr::Group(x) => Node::Group(x),
            Expr::If(x) => Node::If(x),
            Expr::Index(x) => Node::Index(x),
            Expr::Infer(x) => Node::Infer(x),
            Expr::Let(x) => Node::Let(x),
            Expr::Lit(x) => Node::Lit(x),
            Expr::Loop(x) => Node::Loop(x),
            Expr::Macro(x) => Node::Macro(x),
            Expr::Match(x) => Node::Match(x),
            Expr::MethodCall(x) => Node::MethodCall(x),
            Expr::Paren(x) => Node::Paren(x),
            Expr::Path(x) => Node::Path(x),
            Expr::Range(x) => Node::Range(x),
            Expr::RawAddr(x) => Node::RawAddr(x),
            Expr::Reference(x) => Node::Reference(x),
            Expr::Repeat(x) => Node::Repeat(x),
            Expr::Return(x) => Node::Return(x),
            Expr::Struct(x) => Node::Struct(x),
            Expr::Try(x) => Node::Try(x),
            Expr::TryBlock(x) => Node::TryBlock(x),
            Expr::Tuple(x) => Node::Tuple(x),
            Expr::Unary(x) => Node::Unary(x),
            Expr::Unsafe(x) => Node::Unsafe(x),
            Expr::While(x) => Node::While(x),
            Expr::Yield(x) => Node::Yield(x),
            Expr::Verbatim(x) => Node::Verbatim(x),
        }
    }

    /// What it is in invisible groups, in as many as there are; attributes before a group go with it.
    pub(crate) fn ungrouped(self) -> Expr
        ensures { tree_of result ≡ alone.ungrouped (tree_of self) }
    {
        match self {
            Expr::Group(group) => Box::into_inner(group.expr).ungrouped(),
            x => x,
        }
    }
}

impl Node {
    /// The expression that it is.
    pub fn into_expr(self) -> Expr
        ensures { result ≡ expr_of self }
    {
        match self {
            Node::Array(x) => Expr::Array(x),
            Node::Assign(x) => Expr::Assign(x),
            Node::Async(x) => Expr::Async(x),
            Node::Await(x) => Expr::Await(x),
            Node::Binary(x) => Expr::Binary(x),
            Node::Block(x) => Expr::Block(x),
            Node::Break(x) => Expr::Break(x),
            Node::Call(x) => Expr::Call(x),
            Node::Cast(x) => Expr::Cast(x),
            Node::Closure(x) => Expr::Closure(x),
            Node::Const(x) => Expr::Const(x),
            Node::Continue(x) => Expr::Continue(x),
            Node::Field(x) => Expr::Field(x),
            Node::ForLoop(x) => Expr::ForLoop(x),
            Node::Group(x) => Expr::Group(x),
            Node::If(x) => Expr::If(x),
            Node::Index(x) => Expr::Index(x),
            Node::Infer(x) => Expr::Infer(x),
            Node::Let(x) => Expr::Let(x),
            Node::Lit(x) => Expr::Lit(x),
            Node::Loop(x) => Expr::Loop(x),
            Node::Macro(x) => Expr::Macro(x),
            Node::Match(x) => Expr::Match(x),
            Node::MethodCall(x) => Expr::MethodCall(x),
            Node::Paren(x) => Expr::Paren(x),
            Node::Path(x) => Expr::Path(x),
            Node::Range(x) => Expr::Range(x),
            Node::RawAddr(x) => Expr::RawAddr(x),
            Node::Reference(x) => Expr::Reference(x),
            Node::Repeat(x) => Expr::Repeat(x),
            Node::Return(x) => Expr::Return(x),
            Node::Struct(x) => Expr::Struct(x),
            Node::Try(x) => Expr::Try(x),
            Node::TryBlock(x) => Expr::TryBlock(x),
            Node::Tuple(x) => Expr::Tuple(x),
            Node::Unary(x) => Expr::Unary(x),
            Node::Unsafe(x) => Expr::Unsafe(x),
            Node::While(x) => Expr::While(x),
            Node::Yield(x) => Expr::Yield(x),
            Node::Verbatim(x) => Expr::Verbatim(x),
        }
    }
}
