//! An expression is made of a struct of each kind.

ghost use Rattle.std.specs.Prelude.{◌≡◌};
ghost use Rattle.syn_expr_core.specs.View.{tree_of, pat_of, arm_of};
ghost use Rattle.syn_expr_ast.specs.Both as both;
ghost use Rattle.syn_expr_ast.specs.View as of;
ghost use Rattle.syn_expr_spec.specs.Tree as e;
ghost use Rattle.syn_expr_core.specs.declared.expr.Expr.TheVariants as variants;

use crate::expr::{
    Arm, Expr, ExprArray, ExprAssign, ExprAsync, ExprAwait, ExprBinary, ExprBlock, ExprBreak,
    ExprCall, ExprCast, ExprClosure, ExprConst, ExprContinue, ExprField, ExprForLoop, ExprGroup,
    ExprIf, ExprIndex, ExprInfer, ExprLet, ExprLit, ExprLoop, ExprMacro, ExprMatch, ExprMethodCall,
    ExprParen, ExprPath, ExprRange, ExprRawAddr, ExprReference, ExprRepeat, ExprReturn, ExprStruct,
    ExprTry, ExprTryBlock, ExprTuple, ExprUnary, ExprUnsafe, ExprWhile, ExprYield,
};
use crate::pat::{Pat, PatGuard};
use syn_expr_ast::alone::{HasArmView, HasExprTree, IsExpr};
use syn_expr_ast::pattern::{
    ArmOf, ExprClosureOf, ExprForLoopOf, ExprLetOf, ExprMatchOf, PatGuardOf,
};
use syn_tokens::tree::TokenStream;

impl HasExprTree for Expr {
    ghost tree = { tree_of };
}

impl HasArmView for Arm {
    ghost view = { arm_of };
}

#[tactic(auto, using(crate::proofs::TreeOf::kinds, crate::proofs::TreeOf::pats, crate::proofs::TreeOf::members))]
impl IsExpr for Expr {
    type Pat = Pat;

    type Arm = Arm;

    fn array(x: ExprArray) -> Expr
        ensures { tree_of result ≡ of.expr_array_of tree_of x }
    {
        Expr::Array(x)
    }

    fn assign(x: ExprAssign) -> Expr
        ensures { tree_of result ≡ of.expr_assign_of tree_of x }
    {
        Expr::Assign(x)
    }

    fn async_block(x: ExprAsync) -> Expr
        ensures { tree_of result ≡ of.expr_async_of x }
    {
        Expr::Async(x)
    }

    fn await_expr(x: ExprAwait) -> Expr
        ensures { tree_of result ≡ of.expr_await_of tree_of x }
    {
        Expr::Await(x)
    }

    fn binary(x: ExprBinary) -> Expr
        ensures { tree_of result ≡ of.expr_binary_of tree_of x }
    {
        Expr::Binary(x)
    }

    fn block(x: ExprBlock) -> Expr
        ensures { tree_of result ≡ of.expr_block_of x }
    {
        Expr::Block(x)
    }

    fn break_expr(x: ExprBreak) -> Expr
        ensures { tree_of result ≡ of.expr_break_of tree_of x }
    {
        Expr::Break(x)
    }

    fn call(x: ExprCall) -> Expr
        ensures { tree_of result ≡ of.expr_call_of tree_of x }
    {
        Expr::Call(x)
    }

    fn cast(x: ExprCast) -> Expr
        ensures { tree_of result ≡ of.expr_cast_of tree_of x }
    {
        Expr::Cast(x)
    }

    fn closure(x: ExprClosureOf<Expr, Pat>) -> Expr
        ensures { tree_of result ≡ both.expr_closure_of tree_of pat_of x }
    {
        Expr::Closure(ExprClosure {
            attrs: x.attrs,
            lifetimes: x.lifetimes,
            modifiers: x.modifiers,
            constness: x.constness,
            asyncness: x.asyncness,
            capture: x.capture,
            inputs_begin: x.inputs_begin,
            inputs: x.inputs,
            inputs_end: x.inputs_end,
            output: x.output,
            body: x.body,
        })
    }

    fn const_block(x: ExprConst) -> Expr
        ensures { tree_of result ≡ of.expr_const_of x }
    {
        Expr::Const(x)
    }

    fn continue_expr(x: ExprContinue) -> Expr
        ensures { tree_of result ≡ of.expr_continue_of x }
    {
        Expr::Continue(x)
    }

    fn field(x: ExprField) -> Expr
        ensures { tree_of result ≡ of.expr_field_of tree_of x }
    {
        Expr::Field(x)
    }

    fn for_loop(x: ExprForLoopOf<Expr, Pat>) -> Expr
        ensures { tree_of result ≡ both.expr_for_loop_of tree_of pat_of x }
    {
        Expr::ForLoop(ExprForLoop {
            attrs: x.attrs,
            label: x.label,
            for_token: x.for_token,
            pat: x.pat,
            in_token: x.in_token,
            expr: x.expr,
            body: x.body,
        })
    }

    fn group(x: ExprGroup) -> Expr
        ensures { tree_of result ≡ of.expr_group_of tree_of x }
    {
        Expr::Group(x)
    }

    fn if_expr(x: ExprIf) -> Expr
        ensures { tree_of result ≡ of.expr_if_of tree_of x }
    {
        Expr::If(x)
    }

    fn index(x: ExprIndex) -> Expr
        ensures { tree_of result ≡ of.expr_index_of tree_of x }
    {
        Expr::Index(x)
    }

    fn infer(x: ExprInfer) -> Expr
        ensures { tree_of result ≡ of.expr_infer_of x }
    {
        Expr::Infer(x)
    }

    fn let_expr(x: ExprLetOf<Expr, Pat>) -> Expr
        ensures { tree_of result ≡ both.expr_let_of tree_of pat_of x }
    {
        Expr::Let(ExprLet {
            attrs: x.attrs,
            let_token: x.let_token,
            pat: x.pat,
            eq_token: x.eq_token,
            expr: x.expr,
        })
    }

    fn lit(x: ExprLit) -> Expr
        ensures { tree_of result ≡ of.expr_lit_of x }
    {
        Expr::Lit(x)
    }

    fn loop_expr(x: ExprLoop) -> Expr
        ensures { tree_of result ≡ of.expr_loop_of x }
    {
        Expr::Loop(x)
    }

    fn mac(x: ExprMacro) -> Expr
        ensures { tree_of result ≡ of.expr_macro_of x }
    {
        Expr::Macro(x)
    }

    fn match_expr(x: ExprMatchOf<Expr, Arm>) -> Expr
        ensures { tree_of result ≡ both.expr_match_of tree_of arm_of x }
    {
        Expr::Match(ExprMatch {
            attrs: x.attrs,
            match_token: x.match_token,
            expr: x.expr,
            brace_token: x.brace_token,
            arms: x.arms,
        })
    }

    fn method_call(x: ExprMethodCall) -> Expr
        ensures { tree_of result ≡ of.expr_method_call_of tree_of x }
    {
        Expr::MethodCall(x)
    }

    fn paren(x: ExprParen) -> Expr
        ensures { tree_of result ≡ of.expr_paren_of tree_of x }
    {
        Expr::Paren(x)
    }

    fn path(x: ExprPath) -> Expr
        ensures { tree_of result ≡ of.expr_path_of x }
    {
        Expr::Path(x)
    }

    fn range(x: ExprRange) -> Expr
        ensures { tree_of result ≡ of.expr_range_of tree_of x }
    {
        Expr::Range(x)
    }

    fn raw_addr(x: ExprRawAddr) -> Expr
        ensures { tree_of result ≡ of.expr_raw_addr_of tree_of x }
    {
        Expr::RawAddr(x)
    }

    fn reference(x: ExprReference) -> Expr
        ensures { tree_of result ≡ of.expr_reference_of tree_of x }
    {
        Expr::Reference(x)
    }

    fn repeat(x: ExprRepeat) -> Expr
        ensures { tree_of result ≡ of.expr_repeat_of tree_of x }
    {
        Expr::Repeat(x)
    }

    fn return_expr(x: ExprReturn) -> Expr
        ensures { tree_of result ≡ of.expr_return_of tree_of x }
    {
        Expr::Return(x)
    }

    fn struct_expr(x: ExprStruct) -> Expr
        ensures { tree_of result ≡ of.expr_struct_of tree_of x }
    {
        Expr::Struct(x)
    }

    fn try_expr(x: ExprTry) -> Expr
        ensures { tree_of result ≡ of.expr_try_of tree_of x }
    {
        Expr::Try(x)
    }

    fn try_block(x: ExprTryBlock) -> Expr
        ensures { tree_of result ≡ of.expr_try_block_of x }
    {
        Expr::TryBlock(x)
    }

    fn tuple(x: ExprTuple) -> Expr
        ensures { tree_of result ≡ of.expr_tuple_of tree_of x }
    {
        Expr::Tuple(x)
    }

    fn unary(x: ExprUnary) -> Expr
        ensures { tree_of result ≡ of.expr_unary_of tree_of x }
    {
        Expr::Unary(x)
    }

    fn unsafe_block(x: ExprUnsafe) -> Expr
        ensures { tree_of result ≡ of.expr_unsafe_of x }
    {
        Expr::Unsafe(x)
    }

    fn while_expr(x: ExprWhile) -> Expr
        ensures { tree_of result ≡ of.expr_while_of tree_of x }
    {
        Expr::While(x)
    }

    fn yield_expr(x: ExprYield) -> Expr
        ensures { tree_of result ≡ of.expr_yield_of tree_of x }
    {
        Expr::Yield(x)
    }

    fn verbatim(tokens: TokenStream) -> Expr
        ensures { tree_of result ≡ e.leaf (e.verbatim tokens) }
    {
        Expr::Verbatim(tokens)
    }

    fn arm(x: ArmOf<Expr, Pat>) -> Arm
        ensures { arm_of result ≡ both.arm_of tree_of pat_of x }
    {
        Arm {
            attrs: x.attrs,
            pat: x.pat,
            fat_arrow_token: x.fat_arrow_token,
            body: x.body,
            comma: x.comma,
        }
    }

    fn guarded(x: PatGuardOf<Expr, Pat>) -> Pat
        ensures { pat_of result ≡ both.guarded_of tree_of pat_of x }
    {
        Pat::Guard(PatGuard {
            attrs: x.attrs,
            pat: x.pat,
            if_token: x.if_token,
            guard: x.guard,
        })
    }
}

impl From<ExprArray> for Expr {
    ghost from_gives = { λ x r. r ≡ variants.Array x };

    fn from(x: ExprArray) -> Expr {
        Expr::Array(x)
    }
}

impl From<ExprAssign> for Expr {
    ghost from_gives = { λ x r. r ≡ variants.Assign x };

    fn from(x: ExprAssign) -> Expr {
        Expr::Assign(x)
    }
}

impl From<ExprAsync> for Expr {
    ghost from_gives = { λ x r. r ≡ variants.Async x };

    fn from(x: ExprAsync) -> Expr {
        Expr::Async(x)
    }
}

impl From<ExprAwait> for Expr {
    ghost from_gives = { λ x r. r ≡ variants.Await x };

    fn from(x: ExprAwait) -> Expr {
        Expr::Await(x)
    }
}

impl From<ExprBinary> for Expr {
    ghost from_gives = { λ x r. r ≡ variants.Binary x };

    fn from(x: ExprBinary) -> Expr {
        Expr::Binary(x)
    }
}

impl From<ExprBlock> for Expr {
    ghost from_gives = { λ x r. r ≡ variants.Block x };

    fn from(x: ExprBlock) -> Expr {
        Expr::Block(x)
    }
}

impl From<ExprBreak> for Expr {
    ghost from_gives = { λ x r. r ≡ variants.Break x };

    fn from(x: ExprBreak) -> Expr {
        Expr::Break(x)
    }
}

impl From<ExprCall> for Expr {
    ghost from_gives = { λ x r. r ≡ variants.Call x };

    fn from(x: ExprCall) -> Expr {
        Expr::Call(x)
    }
}

impl From<ExprCast> for Expr {
    ghost from_gives = { λ x r. r ≡ variants.Cast x };

    fn from(x: ExprCast) -> Expr {
        Expr::Cast(x)
    }
}

impl From<ExprClosure> for Expr {
    ghost from_gives = { λ x r. r ≡ variants.Closure x };

    fn from(x: ExprClosure) -> Expr {
        Expr::Closure(x)
    }
}

impl From<ExprConst> for Expr {
    ghost from_gives = { λ x r. r ≡ variants.Const x };

    fn from(x: ExprConst) -> Expr {
        Expr::Const(x)
    }
}

impl From<ExprContinue> for Expr {
    ghost from_gives = { λ x r. r ≡ variants.Continue x };

    fn from(x: ExprContinue) -> Expr {
        Expr::Continue(x)
    }
}

impl From<ExprField> for Expr {
    ghost from_gives = { λ x r. r ≡ variants.Field x };

    fn from(x: ExprField) -> Expr {
        Expr::Field(x)
    }
}

impl From<ExprForLoop> for Expr {
    ghost from_gives = { λ x r. r ≡ variants.ForLoop x };

    fn from(x: ExprForLoop) -> Expr {
        Expr::ForLoop(x)
    }
}

impl From<ExprGroup> for Expr {
    ghost from_gives = { λ x r. r ≡ variants.Group x };

    fn from(x: ExprGroup) -> Expr {
        Expr::Group(x)
    }
}

impl From<ExprIf> for Expr {
    ghost from_gives = { λ x r. r ≡ variants.If x };

    fn from(x: ExprIf) -> Expr {
        Expr::If(x)
    }
}

impl From<ExprIndex> for Expr {
    ghost from_gives = { λ x r. r ≡ variants.Index x };

    fn from(x: ExprIndex) -> Expr {
        Expr::Index(x)
    }
}

impl From<ExprInfer> for Expr {
    ghost from_gives = { λ x r. r ≡ variants.Infer x };

    fn from(x: ExprInfer) -> Expr {
        Expr::Infer(x)
    }
}

impl From<ExprLet> for Expr {
    ghost from_gives = { λ x r. r ≡ variants.Let x };

    fn from(x: ExprLet) -> Expr {
        Expr::Let(x)
    }
}

impl From<ExprLit> for Expr {
    ghost from_gives = { λ x r. r ≡ variants.Lit x };

    fn from(x: ExprLit) -> Expr {
        Expr::Lit(x)
    }
}

impl From<ExprLoop> for Expr {
    ghost from_gives = { λ x r. r ≡ variants.Loop x };

    fn from(x: ExprLoop) -> Expr {
        Expr::Loop(x)
    }
}

impl From<ExprMacro> for Expr {
    ghost from_gives = { λ x r. r ≡ variants.Macro x };

    fn from(x: ExprMacro) -> Expr {
        Expr::Macro(x)
    }
}

impl From<ExprMatch> for Expr {
    ghost from_gives = { λ x r. r ≡ variants.Match x };

    fn from(x: ExprMatch) -> Expr {
        Expr::Match(x)
    }
}

impl From<ExprMethodCall> for Expr {
    ghost from_gives = { λ x r. r ≡ variants.MethodCall x };

    fn from(x: ExprMethodCall) -> Expr {
        Expr::MethodCall(x)
    }
}

impl From<ExprParen> for Expr {
    ghost from_gives = { λ x r. r ≡ variants.Paren x };

    fn from(x: ExprParen) -> Expr {
        Expr::Paren(x)
    }
}

impl From<ExprPath> for Expr {
    ghost from_gives = { λ x r. r ≡ variants.Path x };

    fn from(x: ExprPath) -> Expr {
        Expr::Path(x)
    }
}

impl From<ExprRange> for Expr {
    ghost from_gives = { λ x r. r ≡ variants.Range x };

    fn from(x: ExprRange) -> Expr {
        Expr::Range(x)
    }
}

impl From<ExprRawAddr> for Expr {
    ghost from_gives = { λ x r. r ≡ variants.RawAddr x };

    fn from(x: ExprRawAddr) -> Expr {
        Expr::RawAddr(x)
    }
}

impl From<ExprReference> for Expr {
    ghost from_gives = { λ x r. r ≡ variants.Reference x };

    fn from(x: ExprReference) -> Expr {
        Expr::Reference(x)
    }
}

impl From<ExprRepeat> for Expr {
    ghost from_gives = { λ x r. r ≡ variants.Repeat x };

    fn from(x: ExprRepeat) -> Expr {
        Expr::Repeat(x)
    }
}

impl From<ExprReturn> for Expr {
    ghost from_gives = { λ x r. r ≡ variants.Return x };

    fn from(x: ExprReturn) -> Expr {
        Expr::Return(x)
    }
}

impl From<ExprStruct> for Expr {
    ghost from_gives = { λ x r. r ≡ variants.Struct x };

    fn from(x: ExprStruct) -> Expr {
        Expr::Struct(x)
    }
}

impl From<ExprTry> for Expr {
    ghost from_gives = { λ x r. r ≡ variants.Try x };

    fn from(x: ExprTry) -> Expr {
        Expr::Try(x)
    }
}

impl From<ExprTryBlock> for Expr {
    ghost from_gives = { λ x r. r ≡ variants.TryBlock x };

    fn from(x: ExprTryBlock) -> Expr {
        Expr::TryBlock(x)
    }
}

impl From<ExprTuple> for Expr {
    ghost from_gives = { λ x r. r ≡ variants.Tuple x };

    fn from(x: ExprTuple) -> Expr {
        Expr::Tuple(x)
    }
}

impl From<ExprUnary> for Expr {
    ghost from_gives = { λ x r. r ≡ variants.Unary x };

    fn from(x: ExprUnary) -> Expr {
        Expr::Unary(x)
    }
}

impl From<ExprUnsafe> for Expr {
    ghost from_gives = { λ x r. r ≡ variants.Unsafe x };

    fn from(x: ExprUnsafe) -> Expr {
        Expr::Unsafe(x)
    }
}

impl From<ExprWhile> for Expr {
    ghost from_gives = { λ x r. r ≡ variants.While x };

    fn from(x: ExprWhile) -> Expr {
        Expr::While(x)
    }
}

impl From<ExprYield> for Expr {
    ghost from_gives = { λ x r. r ≡ variants.Yield x };

    fn from(x: ExprYield) -> Expr {
        Expr::Yield(x)
    }
}
