//! What is borrowed of an expression of each kind: its kind, its attributes, and its parts by the shape that it has. And an
//! expression after more attributes (Rust Reference, "Expression attributes").

ghost use Rattle.std.specs.Prelude.{◌≡◌, IfOk};
ghost use Rattle.syn_expr_core.specs.View.{tree_of, closure_of, for_loop_of, let_of, match_of};
ghost use Rattle.syn_expr_ast.specs.Attrs.{attrs_of};
ghost use Rattle.syn_expr_spec.specs.Tree.{attributes_in, with_attributes};
ghost use Rattle.syn_expr_attrs.specs.Behind.{Behind};
ghost use Rattle.syn_expr_spec.specs.Tree as e;
ghost use Rattle.syn_expr_ast.specs.Label.{kind_at};
ghost use Rattle.syn_expr_core.specs.View as borrowed_parts;

use crate::closure::ExprClosure;
use crate::control::{Arm, ExprForLoop, ExprLet, ExprMatch};
use crate::expr::Expr;
use crate::pat::Pat;
use std::alloc::AllocError;
use std::mem::replace;
use syn_expr_ast::attrs::joined;
use syn_expr_ast::label::{FrameKind, LeafKind, NodeKind, PrefixKind, TrailerKind, is_block_like};
use syn_expr_ast::node::{
    Attributes, Frame, HasKind, HasNode, HasShape, Leaf, Operands, Operator, Postfix, Prefix,
    Trailer,
};
use syn_expr_attrs::{around, before};
use syn_expr_parse::kinds::ReadExprs;
use syn_expr_print::print::HasPrint;
use syn_expr_spec::kinds::Infix;
use syn_lower::attr::Attribute;
use syn_lower::path::{Path, QSelf};
use syn_tokens::buffer::Token;
use syn_tokens::token::{Paren, Pound};
use syn_tokens::tree::TokenStream;

#[tactic(auto, using(crate::proofs::TreeOf::kinds, crate::proofs::TreeOf::members, syn_expr_ast::proofs::Shapes::shapes))]
impl HasNode for Expr {
    type Arm = Arm;

    fn attributes(&self) -> Attributes<'_> {
        match self {
            Expr::Array(x) => Attributes::Before(&x.attrs),
            Expr::Assign(x) => Attributes::Before(&x.attrs),
            Expr::Async(x) => Attributes::Before(&x.attrs),
            Expr::Await(x) => Attributes::Before(&x.attrs),
            Expr::Binary(x) => Attributes::Before(&x.attrs),
            Expr::Block(x) => Attributes::Around(&x.attrs),
            Expr::Break(x) => Attributes::Before(&x.attrs),
            Expr::Call(x) => Attributes::Before(&x.attrs),
            Expr::Cast(x) => Attributes::Before(&x.attrs),
            Expr::Closure(x) => Attributes::Before(&x.attrs),
            Expr::Const(x) => Attributes::Around(&x.attrs),
            Expr::Continue(x) => Attributes::Before(&x.attrs),
            Expr::Field(x) => Attributes::Before(&x.attrs),
            Expr::ForLoop(x) => Attributes::Around(&x.attrs),
            Expr::Group(x) => Attributes::Before(&x.attrs),
            Expr::If(x) => Attributes::Before(&x.attrs),
            Expr::Index(x) => Attributes::Before(&x.attrs),
            Expr::Infer(x) => Attributes::Before(&x.attrs),
            Expr::Let(x) => Attributes::Before(&x.attrs),
            Expr::Lit(x) => Attributes::Before(&x.attrs),
            Expr::Loop(x) => Attributes::Around(&x.attrs),
            Expr::Macro(x) => Attributes::Before(&x.attrs),
            Expr::Match(x) => Attributes::Around(&x.attrs),
            Expr::MethodCall(x) => Attributes::Before(&x.attrs),
            Expr::Paren(x) => Attributes::Before(&x.attrs),
            Expr::Path(x) => Attributes::Before(&x.attrs),
            Expr::Range(x) => Attributes::Before(&x.attrs),
            Expr::RawAddr(x) => Attributes::Before(&x.attrs),
            Expr::Reference(x) => Attributes::Before(&x.attrs),
            Expr::Repeat(x) => Attributes::Before(&x.attrs),
            Expr::Return(x) => Attributes::Before(&x.attrs),
            Expr::Struct(x) => Attributes::Before(&x.attrs),
            Expr::Try(x) => Attributes::Before(&x.attrs),
            Expr::TryBlock(x) => Attributes::Before(&x.attrs),
            Expr::Tuple(x) => Attributes::Before(&x.attrs),
            Expr::Unary(x) => Attributes::Before(&x.attrs),
            Expr::Unsafe(x) => Attributes::Around(&x.attrs),
            Expr::While(x) => Attributes::Around(&x.attrs),
            Expr::Yield(x) => Attributes::Before(&x.attrs),
            Expr::Verbatim(_) => Attributes::None,
        }
    }

    // As for `kind`.
    #[inline(always)]
    fn operands(&self) -> Operands<'_, Expr, Arm> {
        match self {
            Expr::Array(x) => x.operands(),
            Expr::Assign(x) => x.operands(),
            Expr::Await(x) => x.operands(),
            Expr::Binary(x) => x.operands(),
            Expr::Break(x) => x.operands(),
            Expr::Call(x) => x.operands(),
            Expr::Cast(x) => x.operands(),
            Expr::Closure(x) => x.operands(),
            Expr::Field(x) => x.operands(),
            Expr::ForLoop(x) => x.operands(),
            Expr::Group(x) => x.operands(),
            Expr::If(x) => x.operands(),
            Expr::Index(x) => x.operands(),
            Expr::Let(x) => x.operands(),
            Expr::Match(x) => x.operands(),
            Expr::MethodCall(x) => x.operands(),
            Expr::Paren(x) => x.operands(),
            Expr::Range(x) => x.operands(),
            Expr::RawAddr(x) => x.operands(),
            Expr::Reference(x) => x.operands(),
            Expr::Repeat(x) => x.operands(),
            Expr::Return(x) => x.operands(),
            Expr::Struct(x) => x.operands(),
            Expr::Try(x) => x.operands(),
            Expr::Tuple(x) => x.operands(),
            Expr::Unary(x) => x.operands(),
            Expr::While(x) => x.operands(),
            Expr::Yield(x) => x.operands(),
            Expr::Async(_)
            | Expr::Block(_)
            | Expr::Const(_)
            | Expr::Continue(_)
            | Expr::Infer(_)
            | Expr::Lit(_)
            | Expr::Loop(_)
            | Expr::Macro(_)
            | Expr::Path(_)
            | Expr::TryBlock(_)
            | Expr::Unsafe(_)
            | Expr::Verbatim(_) => Operands::None,
        }
    }
}

impl Expr {
    /// Puts attributes in place of all that the expression has, and gives the old ones. The outer ones are printed before it,
    /// the inner ones first in the braces of a block, a loop or a `match`; of all other kinds an inner one is kept and not
    /// printed. Verbatim tokens have no attributes: they stay as they are, and an empty list is given.
    pub fn replace_attrs(&mut self, new: Vec<Attribute>) -> Vec<Attribute>
        ensures put { tree_of self.new ≡ with_attributes (attrs_of new) (tree_of self.old) }
        ensures given { attrs_of result ≡ attributes_in (tree_of self.old) }
    {
        match self {
            Expr::Array(x) => replace(&mut x.attrs, new),
            Expr::Assign(x) => replace(&mut x.attrs, new),
            Expr::Async(x) => replace(&mut x.attrs, new),
            Expr::Await(x) => replace(&mut x.attrs, new),
            Expr::Binary(x) => replace(&mut x.attrs, new),
            Expr::Block(x) => replace(&mut x.attrs, new),
            Expr::Break(x) => replace(&mut x.attrs, new),
            Expr::Call(x) => replace(&mut x.attrs, new),
            Expr::Cast(x) => replace(&mut x.attrs, new),
            Expr::Closure(x) => replace(&mut x.attrs, new),
            Expr::Const(x) => replace(&mut x.attrs, new),
            Expr::Continue(x) => replace(&mut x.attrs, new),
            Expr::Field(x) => replace(&mut x.attrs, new),
            Expr::ForLoop(x) => replace(&mut x.attrs, new),
            Expr::Group(x) => replace(&mut x.attrs, new),
            Expr::If(x) => replace(&mut x.attrs, new),
            Expr::Index(x) => replace(&mut x.attrs, new),
            Expr::Infer(x) => replace(&mut x.attrs, new),
            Expr::Let(x) => replace(&mut x.attrs, new),
            Expr::Lit(x) => replace(&mut x.attrs, new),
            Expr::Loop(x) => replace(&mut x.attrs, new),
            Expr::Macro(x) => replace(&mut x.attrs, new),
            Expr::Match(x) => replace(&mut x.attrs, new),
            Expr::MethodCall(x) => replace(&mut x.attrs, new),
            Expr::Paren(x) => replace(&mut x.attrs, new),
            Expr::Path(x) => replace(&mut x.attrs, new),
            Expr::Range(x) => replace(&mut x.attrs, new),
            Expr::RawAddr(x) => replace(&mut x.attrs, new),
            Expr::Reference(x) => replace(&mut x.attrs, new),
            Expr::Repeat(x) => replace(&mut x.attrs, new),
            Expr::Return(x) => replace(&mut x.attrs, new),
            Expr::Struct(x) => replace(&mut x.attrs, new),
            Expr::Try(x) => replace(&mut x.attrs, new),
            Expr::TryBlock(x) => replace(&mut x.attrs, new),
            Expr::Tuple(x) => replace(&mut x.attrs, new),
            Expr::Unary(x) => replace(&mut x.attrs, new),
            Expr::Unsafe(x) => replace(&mut x.attrs, new),
            Expr::While(x) => replace(&mut x.attrs, new),
            Expr::Yield(x) => replace(&mut x.attrs, new),
            Expr::Verbatim(tokens) => Vec::new(tokens.alloc()),
        }
    }
}

#[tactic(auto, using(crate::proofs::TreeOf::members))]
impl ExprClosure {
    /// It after more attributes.
    pub(crate) fn behind_more(self, attrs: Vec<Attribute>) -> Result<ExprClosure, AllocError>
        ensures { IfOk result (λ y. Behind (attrs_of attrs) (closure_of self) (closure_of y)) }
    {
        Ok(ExprClosure {
            attrs: joined(attrs, self.attrs)?,
            ..self
        })
    }
}

#[tactic(auto, using(crate::proofs::TreeOf::members))]
impl ExprForLoop {
    /// It after more attributes.
    pub(crate) fn behind_more(self, attrs: Vec<Attribute>) -> Result<ExprForLoop, AllocError>
        ensures { IfOk result (λ y. Behind (attrs_of attrs) (for_loop_of self) (for_loop_of y)) }
    {
        Ok(ExprForLoop {
            attrs: joined(attrs, self.attrs)?,
            ..self
        })
    }
}

#[tactic(auto, using(crate::proofs::TreeOf::members))]
impl ExprLet {
    /// It after more attributes.
    pub(crate) fn behind_more(self, attrs: Vec<Attribute>) -> Result<ExprLet, AllocError>
        ensures { IfOk result (λ y. Behind (attrs_of attrs) (let_of self) (let_of y)) }
    {
        Ok(ExprLet {
            attrs: joined(attrs, self.attrs)?,
            ..self
        })
    }
}

#[tactic(auto, using(crate::proofs::TreeOf::members))]
impl ExprMatch {
    /// It after more attributes.
    pub(crate) fn behind_more(self, attrs: Vec<Attribute>) -> Result<ExprMatch, AllocError>
        ensures { IfOk result (λ y. Behind (attrs_of attrs) (match_of self) (match_of y)) }
    {
        Ok(ExprMatch {
            attrs: joined(attrs, self.attrs)?,
            ..self
        })
    }
}

#[tactic(auto, using(crate::proofs::TreeOf::kinds))]
impl ReadExprs for Expr {
    #[tactic(auto, using(crate::proofs::TreeOf::kinds, crate::proofs::Holds::held, crate::proofs::OfKind::held))]
    fn holds_block(&self) -> bool {
        let mut held = self;
        'groups: while let Expr::Group(x) = held {
            held = &x.expr;
        }
        is_block_like(held)
    }

    fn into_verbatim(self) -> Result<TokenStream, Expr> {
        match self {
            Expr::Verbatim(tokens) => Ok(tokens),
            x => Err(x),
        }
    }

    #[tactic(auto, using(crate::proofs::TreeOf::kinds, crate::proofs::Paths::paths))]
    fn into_path(self) -> Result<(Option<QSelf>, Path), Expr> {
        match self {
            Expr::Path(x) => {
                if x.attrs.is_empty() {
                    return Ok((x.qself, x.path));
                }
                Err(Expr::Path(x))
            }
            x => Err(x),
        }
    }

    fn with_attrs(self, attrs: Vec<Attribute>) -> Result<Expr, AllocError> {
        match self {
            Expr::Array(x) => Ok(Expr::Array(before::array(x, attrs)?)),
            Expr::Assign(x) => Ok(Expr::Assign(before::assign(x, attrs)?)),
            Expr::Async(x) => Ok(Expr::Async(before::async_block(x, attrs)?)),
            Expr::Await(x) => Ok(Expr::Await(before::await_expr(x, attrs)?)),
            Expr::Binary(x) => Ok(Expr::Binary(before::binary(x, attrs)?)),
            Expr::Block(x) => Ok(Expr::Block(around::block(x, attrs)?)),
            Expr::Break(x) => Ok(Expr::Break(before::break_expr(x, attrs)?)),
            Expr::Call(x) => Ok(Expr::Call(before::call(x, attrs)?)),
            Expr::Cast(x) => Ok(Expr::Cast(before::cast(x, attrs)?)),
            Expr::Closure(x) => Ok(Expr::Closure(x.behind_more(attrs)?)),
            Expr::Const(x) => Ok(Expr::Const(around::const_block(x, attrs)?)),
            Expr::Continue(x) => Ok(Expr::Continue(before::continue_expr(x, attrs)?)),
            Expr::Field(x) => Ok(Expr::Field(before::field(x, attrs)?)),
            Expr::ForLoop(x) => Ok(Expr::ForLoop(x.behind_more(attrs)?)),
            Expr::Group(x) => Ok(Expr::Group(before::group(x, attrs)?)),
            Expr::If(x) => Ok(Expr::If(before::if_expr(x, attrs)?)),
            Expr::Index(x) => Ok(Expr::Index(before::index(x, attrs)?)),
            Expr::Infer(x) => Ok(Expr::Infer(before::infer(x, attrs)?)),
            Expr::Let(x) => Ok(Expr::Let(x.behind_more(attrs)?)),
            Expr::Lit(x) => Ok(Expr::Lit(before::lit(x, attrs)?)),
            Expr::Loop(x) => Ok(Expr::Loop(around::loop_expr(x, attrs)?)),
            Expr::Macro(x) => Ok(Expr::Macro(before::mac(x, attrs)?)),
            Expr::Match(x) => Ok(Expr::Match(x.behind_more(attrs)?)),
            Expr::MethodCall(x) => Ok(Expr::MethodCall(before::method_call(x, attrs)?)),
            Expr::Paren(x) => Ok(Expr::Paren(before::paren(x, attrs)?)),
            Expr::Path(x) => Ok(Expr::Path(before::path(x, attrs)?)),
            Expr::Range(x) => Ok(Expr::Range(before::range(x, attrs)?)),
            Expr::RawAddr(x) => Ok(Expr::RawAddr(before::raw_addr(x, attrs)?)),
            Expr::Reference(x) => Ok(Expr::Reference(before::reference(x, attrs)?)),
            Expr::Repeat(x) => Ok(Expr::Repeat(before::repeat(x, attrs)?)),
            Expr::Return(x) => Ok(Expr::Return(before::return_expr(x, attrs)?)),
            Expr::Struct(x) => Ok(Expr::Struct(before::struct_expr(x, attrs)?)),
            Expr::Try(x) => Ok(Expr::Try(before::try_expr(x, attrs)?)),
            Expr::TryBlock(x) => Ok(Expr::TryBlock(before::try_block(x, attrs)?)),
            Expr::Tuple(x) => Ok(Expr::Tuple(before::tuple(x, attrs)?)),
            Expr::Unary(x) => Ok(Expr::Unary(before::unary(x, attrs)?)),
            Expr::Unsafe(x) => Ok(Expr::Unsafe(around::unsafe_block(x, attrs)?)),
            Expr::While(x) => Ok(Expr::While(around::while_expr(x, attrs)?)),
            Expr::Yield(x) => Ok(Expr::Yield(before::yield_expr(x, attrs)?)),
            Expr::Verbatim(tokens) => Ok(Expr::Verbatim(tokens)),
        }
    }
}

/// The kind of verbatim tokens.
#[tactic(auto, unfolding(syn_tokens::specs::Sign::sign_text, syn_lower_spec::specs::Mark::sign_at))]
fn verbatim_kind(tokens: &TokenStream) -> NodeKind
    ensures { result ≡ kind_at (e.leaf (e.verbatim tokens.now)) }
{
    let pounded = Pound::peek(tokens.trees());
    NodeKind::Leaf(LeafKind::Verbatim { pounded })
}

#[tactic(auto, using(crate::proofs::TreeOf::kinds, crate::proofs::TreeOf::members, syn_expr_ast::proofs::Shapes::shapes))]
impl HasKind for Expr {
    // Each node is asked for its kind, its operands and its leaf when it is summarized and when it is printed, mostly to go on by
    // the answer at once: a call takes longer than the answer.
    #[inline(always)]
    fn kind(&self) -> NodeKind {
        match self {
            Expr::Infer(_) | Expr::Lit(_) | Expr::Continue(_) | Expr::Async(_) => {
                NodeKind::Leaf(LeafKind::Other)
            }
            Expr::Path(_) => NodeKind::Leaf(LeafKind::Path),
            Expr::Macro(x) => x.kind(),
            Expr::Block(x) => x.kind(),
            Expr::Loop(x) => x.kind(),
            Expr::Unsafe(_) | Expr::Const(_) | Expr::TryBlock(_) => {
                NodeKind::Leaf(LeafKind::BlockLike { labelled: false })
            }
            Expr::Verbatim(tokens) => verbatim_kind(tokens),
            Expr::Paren(_) => NodeKind::Paren,
            Expr::Unary(_) | Expr::Reference(_) | Expr::RawAddr(_) => {
                NodeKind::Prefix(PrefixKind::Operator)
            }
            Expr::Let(_) => NodeKind::Prefix(PrefixKind::Let),
            Expr::Closure(x) => x.kind(),
            Expr::Return(x) => x.kind(),
            Expr::Yield(x) => x.kind(),
            Expr::Break(x) => x.kind(),
            Expr::Range(x) => x.kind(),
            Expr::Assign(_) => NodeKind::Infix(Infix::Assign),
            Expr::Binary(x) => x.kind(),
            Expr::Cast(x) => x.kind(),
            Expr::Call(_) => NodeKind::Tail(TrailerKind::Call),
            Expr::Index(_) => NodeKind::Tail(TrailerKind::Index),
            Expr::MethodCall(_) => NodeKind::Tail(TrailerKind::Method),
            Expr::Field(x) => x.kind(),
            Expr::Await(_) => NodeKind::Tail(TrailerKind::Await),
            Expr::Try(_) => NodeKind::Tail(TrailerKind::Try),
            Expr::Struct(_) => NodeKind::Frame(FrameKind::Struct),
            Expr::If(_) | Expr::Match(_) => {
                NodeKind::Frame(FrameKind::BlockLike { labelled: false })
            }
            Expr::While(x) => x.kind(),
            Expr::ForLoop(x) => x.kind(),
            Expr::Array(_) | Expr::Tuple(_) | Expr::Repeat(_) | Expr::Group(_) => {
                NodeKind::Frame(FrameKind::Other)
            }
        }
    }
}

#[tactic(auto, using(crate::proofs::TreeOf::kinds, crate::proofs::TreeOf::rest))]
impl HasShape for Expr {
    type Pat = Pat;

    // As for `kind`.
    #[inline(always)]
    fn leaf(&self) -> Option<Leaf<'_>> {
        match self {
            Expr::Async(x) => Some(x.leaf()),
            Expr::Block(x) => Some(x.leaf()),
            Expr::Break(x) => x.leaf(),
            Expr::Const(x) => Some(x.leaf()),
            Expr::Continue(x) => Some(x.leaf()),
            Expr::Infer(x) => Some(x.leaf()),
            Expr::Lit(x) => Some(x.leaf()),
            Expr::Loop(x) => Some(x.leaf()),
            Expr::Macro(x) => Some(x.leaf()),
            Expr::Path(x) => Some(x.leaf()),
            Expr::Range(x) => x.leaf(),
            Expr::Return(x) => x.leaf(),
            Expr::TryBlock(x) => Some(x.leaf()),
            Expr::Unsafe(x) => Some(x.leaf()),
            Expr::Verbatim(tokens) => Some(Leaf::Verbatim(tokens)),
            Expr::Yield(x) => x.leaf(),
            _ => None,
        }
    }

    fn paren(&self) -> Option<&Paren> {
        match self {
            Expr::Paren(x) => Some(&x.paren_token),
            _ => None,
        }
    }

    fn prefix(&self) -> Option<Prefix<'_, Pat>> {
        match self {
            Expr::Break(x) => x.prefix(),
            Expr::Closure(x) => x.prefix(),
            Expr::Let(x) => Some(x.prefix()),
            Expr::Range(x) => x.prefix(),
            Expr::RawAddr(x) => Some(x.prefix()),
            Expr::Reference(x) => Some(x.prefix()),
            Expr::Return(x) => x.prefix(),
            Expr::Unary(x) => Some(x.prefix()),
            Expr::Yield(x) => x.prefix(),
            _ => None,
        }
    }

    fn operator(&self) -> Option<Operator<'_>> {
        match self {
            Expr::Assign(x) => Some(x.operator()),
            Expr::Binary(x) => Some(x.operator()),
            Expr::Range(x) => x.operator(),
            _ => None,
        }
    }

    fn postfix(&self) -> Option<Postfix<'_>> {
        match self {
            Expr::Cast(x) => Some(x.postfix()),
            Expr::Range(x) => x.postfix(),
            _ => None,
        }
    }

    fn trailer(&self) -> Option<Trailer<'_>> {
        match self {
            Expr::Await(x) => Some(x.trailer()),
            Expr::Call(x) => Some(x.trailer()),
            Expr::Field(x) => Some(x.trailer()),
            Expr::Index(x) => Some(x.trailer()),
            Expr::MethodCall(x) => Some(x.trailer()),
            Expr::Try(x) => Some(x.trailer()),
            _ => None,
        }
    }

    fn frame(&self) -> Option<Frame<'_, Pat>> {
        match self {
            Expr::Array(x) => Some(x.frame()),
            Expr::Closure(x) => x.frame(),
            Expr::ForLoop(x) => Some(x.frame()),
            Expr::Group(x) => Some(x.frame()),
            Expr::If(x) => Some(x.frame()),
            Expr::Match(x) => Some(x.frame()),
            Expr::Repeat(x) => Some(x.frame()),
            Expr::Struct(x) => Some(x.frame()),
            Expr::Tuple(x) => Some(x.frame()),
            Expr::While(x) => Some(x.frame()),
            _ => None,
        }
    }
}

impl HasPrint for Expr {
    ghost borrowed = { borrowed_parts.tree_borrowed };
}
