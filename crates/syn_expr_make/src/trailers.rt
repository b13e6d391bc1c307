//! What comes after an operand: calls, fields, indices, `?` and `.await`.
#![tactic(auto, using(crate::proofs::Lists::maps), unfolding(syn_expr_ast::specs::Attrs::attrs_of))]

ghost use Rattle.std.specs.Prelude.{◌≡◌, ◌⊎◌, false, chars, IfErr, IfOk, map};
ghost use Rattle.syn_expr_ast.specs.View.{elements};
ghost use Rattle.syn_expr_make.specs.Held.{tree_in};
ghost use Rattle.syn_expr_tokens.specs.View.{member_of};
ghost use Rattle.syn_expr_spec.specs.Tree as e;
ghost use Rattle.syn_lower_spec.specs.Tree.{no_arguments};
ghost use Rattle.syn_tokens.specs.Lex.{IsIdentText, or_unknown, refusal};

use crate::list::separated;
use crate::operand::operand;
use std::alloc::Global;
use syn_expr_ast::alone::IsExpr;
use syn_expr_ast::trailer::{
    ExprAwaitOf, ExprCallOf, ExprFieldOf, ExprIndexOf, ExprMethodCallOf, ExprTryOf,
};
use syn_expr_parse::known::HoldsExpr;
use syn_expr_tokens::member::Member;
use syn_tokens::error::{ErrorKind, Result};
use syn_tokens::token::{Await, Bracket, Dot, Paren, Question};
use syn_tokens::tree::{Ident, Span};

/// Makes `a.await` (Rust Reference, "Await expressions"). It is refused only where memory runs out.
pub fn await_expr<H: HoldsExpr + Drop>(alloc: Global, base: H) -> Result<H>
    ensures made { let held = tree_in H.Expr.tree H.held in IfOk result (λ x. held x ≡ e.tail (held base) e.await e.none) }
    ensures memory { IfErr result (λ x. x.kind ≡ ErrorKind.OutOfMemory) }
{
    let base = operand(alloc, base)?;
    Ok(H::hold(H::Expr::await_expr(ExprAwaitOf {
        attrs: Vec::new(alloc),
        base: base.into_inner(),
        dot_token: Dot::default(),
        await_token: Await::default(),
    })))
}

/// Makes `f(a, b)` (Rust Reference, "Call expressions"). It is refused only where memory runs out.
pub fn call<H: HoldsExpr + Drop>(alloc: Global, func: H, args: Vec<H>) -> Result<H>
    ensures made { let held = tree_in H.Expr.tree H.held in IfOk result (λ x. held x ≡ e.tail (held func) e.call (elements (map held args.items) false)) }
    ensures memory { IfErr result (λ x. x.kind ≡ ErrorKind.OutOfMemory) }
{
    let func = operand(alloc, func)?;
    let args = separated(alloc, args)?;
    Ok(H::hold(H::Expr::call(ExprCallOf {
        attrs: Vec::new(alloc),
        func: func.into_inner(),
        paren_token: Paren::default(),
        args,
    })))
}

/// Makes `a.b`, or `a.0` (Rust Reference, "Field access expressions"). It is refused only where memory runs out.
pub fn field<H: HoldsExpr + Drop>(alloc: Global, base: H, member: Member) -> Result<H>
    ensures made { let held = tree_in H.Expr.tree H.held in IfOk result (λ x. held x ≡ e.tail (held base) (e.field (member_of member)) e.none) }
    ensures memory { IfErr result (λ x. x.kind ≡ ErrorKind.OutOfMemory) }
{
    let base = operand(alloc, base)?;
    Ok(H::hold(H::Expr::field(ExprFieldOf {
        attrs: Vec::new(alloc),
        base: base.into_inner(),
        dot_token: Dot::default(),
        member,
    })))
}

/// Makes `a[i]` (Rust Reference, "Array and slice indexing expressions"). It is refused only where memory runs out.
pub fn index<H: HoldsExpr + Drop>(alloc: Global, expr: H, index: H) -> Result<H>
    ensures made { let held = tree_in H.Expr.tree H.held in IfOk result (λ x. held x ≡ e.tail (held expr) e.index (e.child e.value e.no_ending (held index) e.none)) }
    ensures memory { IfErr result (λ x. x.kind ≡ ErrorKind.OutOfMemory) }
{
    let expr = operand(alloc, expr)?;
    let index = operand(alloc, index)?;
    Ok(H::hold(H::Expr::index(ExprIndexOf {
        attrs: Vec::new(alloc),
        expr: expr.into_inner(),
        bracket_token: Bracket::default(),
        index: index.into_inner(),
    })))
}

/// Makes `a.f(b)` (Rust Reference, "Method-call expressions"). A text that is no identifier or reserved word is refused as
/// the name of the method, as `Ident::new` refuses it; else it is refused only where memory runs out. A reserved word makes
/// an expression that isn't well-formed.
pub fn method_call<H: HoldsExpr + Drop>(
    alloc: Global,
    receiver: H,
    method: &str,
    args: Vec<H>,
) -> Result<H>
    ensures made { let held = tree_in H.Expr.tree H.held in IfOk result (λ x. held x ≡ e.tail (held receiver) (e.method method.now no_arguments) (elements (map held args.items) false)) }
    ensures word { IfOk result (λ x. IsIdentText (chars method.now)) }
    ensures refused { IfErr result (λ x. (x.kind ≡ ErrorKind.OutOfMemory) ⊎ ¬ IsIdentText (chars method.now)) }
    ensures kind { IfErr result (λ x. (x.kind ≡ ErrorKind.OutOfMemory) ⊎ (x.kind ≡ ErrorKind.Lex (or_unknown (refusal (chars method.now))))) }
{
    let method = Ident::new(alloc, method, Span::call_site())?;
    let receiver = operand(alloc, receiver)?;
    let args = separated(alloc, args)?;
    Ok(H::hold(H::Expr::method_call(ExprMethodCallOf {
        attrs: Vec::new(alloc),
        receiver: receiver.into_inner(),
        dot_token: Dot::default(),
        method,
        turbofish: None,
        paren_token: Paren::default(),
        args,
    })))
}

/// Makes `a?` (Rust Reference, "The try propagation expression"). It is refused only where memory runs out.
pub fn try_expr<H: HoldsExpr + Drop>(alloc: Global, expr: H) -> Result<H>
    ensures made { let held = tree_in H.Expr.tree H.held in IfOk result (λ x. held x ≡ e.tail (held expr) e.try_expr e.none) }
    ensures memory { IfErr result (λ x. x.kind ≡ ErrorKind.OutOfMemory) }
{
    let expr = operand(alloc, expr)?;
    Ok(H::hold(H::Expr::try_expr(ExprTryOf {
        attrs: Vec::new(alloc),
        expr: expr.into_inner(),
        question_token: Question::default(),
    })))
}
