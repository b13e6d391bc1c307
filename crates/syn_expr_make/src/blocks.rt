//! Blocks, `if` and loops. What is in the braces of a block is tokens.
#![tactic(auto, unfolding(syn_expr_ast::specs::Attrs::attrs_of, syn_expr_ast::specs::Attrs::outer_of, syn_expr_ast::specs::Attrs::inner_of))]

ghost use Rattle.std.specs.Prelude.{◌≡◌, [], IfErr, IfOk, None, option_map};
ghost use Rattle.syn_expr_ast.specs.View.{else_of, option_child};
ghost use Rattle.syn_expr_make.specs.Held.{tree_in};
ghost use Rattle.syn_expr_spec.specs.Tree as e;

use crate::operand::{operand, operand_or_none};
use std::alloc::Global;
use syn_expr_ast::alone::{HasExprTree, IsExpr};
use syn_expr_ast::block::{
    ExprAsync, ExprBlock, ExprConst, ExprIfOf, ExprLoop, ExprTryBlock, ExprUnsafe, ExprWhileOf,
};
use syn_expr_parse::known::{Held, HoldsExpr, LetGo};
use syn_expr_tokens::modifiers::BlockModifiers;
use syn_lower::stmt::Block;
use syn_tokens::error::{ErrorKind, Result};
use syn_tokens::token::{Async, Brace, Const, Else, If, Loop, Move, Try, Unsafe, While};
use syn_tokens::tree::TokenStream;

/// These tokens in braces.
fn braces(stmts: TokenStream) -> Block
    ensures { result.stmts ≡ stmts }
{
    Block {
        brace_token: Brace::default(),
        stmts,
    }
}

/// `else` and what comes after it, if that is there.
fn else_or_none<E: HasExprTree + LetGo>(operand: Option<Held<Box<E>>>) -> Option<(Else, Box<E>)>
    ensures { else_of E.tree result ≡ option_child e.chained (option_map (λ b. E.tree b.value.value) operand) }
{
    operand.map(|operand| (Else::default(), operand.into_inner()))
}

/// Makes `async move { .. }`, or `async { .. }` (Rust Reference, "`async` blocks").
pub fn async_block<H: HoldsExpr>(alloc: Global, is_move: bool, stmts: TokenStream) -> H
    ensures { H.Expr.tree (H.held result) ≡ e.leaf (e.async_block is_move stmts) }
{
    H::hold(H::Expr::async_block(ExprAsync {
        attrs: Vec::new(alloc),
        async_token: Async::default(),
        capture: is_move.then(Move::default),
        modifiers: BlockModifiers {},
        block: braces(stmts),
    }))
}

/// Makes `{ .. }` (Rust Reference, "Block expressions").
pub fn block<H: HoldsExpr>(alloc: Global, stmts: TokenStream) -> H
    ensures { H.Expr.tree (H.held result) ≡ e.leaf (e.block None (e.body_of [] stmts)) }
{
    H::hold(H::Expr::block(ExprBlock {
        attrs: Vec::new(alloc),
        label: None,
        block: braces(stmts),
    }))
}

/// Makes `const { .. }` (Rust Reference, "`const` blocks").
pub fn const_block<H: HoldsExpr>(alloc: Global, stmts: TokenStream) -> H
    ensures { H.Expr.tree (H.held result) ≡ e.leaf (e.const_block (e.body_of [] stmts)) }
{
    H::hold(H::Expr::const_block(ExprConst {
        attrs: Vec::new(alloc),
        const_token: Const::default(),
        modifiers: BlockModifiers {},
        block: braces(stmts),
    }))
}

/// Makes `if a { .. } else b`, or `if a { .. }` (Rust Reference, "`if` expressions"). After `else` there is a block or
/// another `if`; an expression that is neither is printed in braces. It is refused only where memory runs out.
pub fn if_expr<H: HoldsExpr + Drop>(
    alloc: Global,
    cond: H,
    then_branch: TokenStream,
    else_branch: Option<H>,
) -> Result<H>
    ensures made { let held = tree_in H.Expr.tree H.held in IfOk result (λ x. held x ≡ e.frame e.if_expr (e.child e.condition (e.braced (e.body_of [] then_branch)) (held cond) (option_child e.chained (option_map held else_branch)))) }
    ensures memory { IfErr result (λ x. x.kind ≡ ErrorKind.OutOfMemory) }
{
    let cond = operand(alloc, cond)?;
    let else_branch = operand_or_none(alloc, else_branch)?;
    Ok(H::hold(H::Expr::if_expr(ExprIfOf {
        attrs: Vec::new(alloc),
        if_token: If::default(),
        cond: cond.into_inner(),
        then_branch: braces(then_branch),
        else_branch: else_or_none(else_branch),
    })))
}

/// Makes `loop { .. }` (Rust Reference, "Infinite loops").
pub fn loop_expr<H: HoldsExpr>(alloc: Global, body: TokenStream) -> H
    ensures { H.Expr.tree (H.held result) ≡ e.leaf (e.loop_expr None (e.body_of [] body)) }
{
    H::hold(H::Expr::loop_expr(ExprLoop {
        attrs: Vec::new(alloc),
        label: None,
        loop_token: Loop::default(),
        body: braces(body),
    }))
}

/// Makes `try { .. }`, which is not stable.
pub fn try_block<H: HoldsExpr>(alloc: Global, stmts: TokenStream) -> H
    ensures { H.Expr.tree (H.held result) ≡ e.leaf (e.try_block stmts) }
{
    H::hold(H::Expr::try_block(ExprTryBlock {
        attrs: Vec::new(alloc),
        try_token: Try::default(),
        modifiers: BlockModifiers {},
        block: braces(stmts),
    }))
}

/// Makes `unsafe { .. }` (Rust Reference, "`unsafe` blocks").
pub fn unsafe_block<H: HoldsExpr>(alloc: Global, stmts: TokenStream) -> H
    ensures { H.Expr.tree (H.held result) ≡ e.leaf (e.unsafe_block (e.body_of [] stmts)) }
{
    H::hold(H::Expr::unsafe_block(ExprUnsafe {
        attrs: Vec::new(alloc),
        unsafe_token: Unsafe::default(),
        block: braces(stmts),
    }))
}

/// Makes `while a { .. }` (Rust Reference, "Predicate loops"). It is refused only where memory runs out.
pub fn while_expr<H: HoldsExpr + Drop>(alloc: Global, cond: H, body: TokenStream) -> Result<H>
    ensures made { let held = tree_in H.Expr.tree H.held in IfOk result (λ x. held x ≡ e.frame (e.while_loop None) (e.child e.loop_head (e.braced (e.body_of [] body)) (held cond) e.none)) }
    ensures memory { IfErr result (λ x. x.kind ≡ ErrorKind.OutOfMemory) }
{
    let cond = operand(alloc, cond)?;
    Ok(H::hold(H::Expr::while_expr(ExprWhileOf {
        attrs: Vec::new(alloc),
        label: None,
        while_token: While::default(),
        cond: cond.into_inner(),
        body: braces(body),
    })))
}
