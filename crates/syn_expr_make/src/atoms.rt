//! Paths, macros, and what is in delimiters.
#![tactic(auto, using(crate::proofs::Lists::maps), unfolding(syn_expr_ast::specs::Attrs::attrs_of))]

ghost use Rattle.std.specs.Prelude.{◌≡◌, ◌⊎◌, false, chars, IfErr, IfOk, map};
ghost use Rattle.syn_expr_ast.specs.View.{elements};
ghost use Rattle.syn_expr_make.specs.Held.{is_one, tree_in};
ghost use Rattle.syn_expr_spec.specs.Tree as e;
ghost use Rattle.syn_lower.specs.View.{macro_of, path_of, type_of};
ghost use Rattle.syn_lower_spec.specs.Tree.{no_qself};
ghost use Rattle.syn_lower_types.specs.Word.{one_word};
ghost use Rattle.syn_tokens.specs.Lex.{IsIdentText, or_unknown, refusal};

use crate::list::{separated, with_comma_if_one};
use crate::operand::operand;
use std::alloc::Global;
use syn_expr_ast::alone::IsExpr;
use syn_expr_ast::atom::{
    ExprArrayOf, ExprGroupOf, ExprInfer, ExprMacro, ExprParenOf, ExprPath, ExprRepeatOf,
    ExprTupleOf,
};
use syn_expr_parse::known::HoldsExpr;
use syn_lower::mac::Macro;
use syn_lower::path::Path;
use syn_tokens::error::{ErrorKind, Result};
use syn_tokens::token::{Bracket, Group, Paren, Semi, Underscore};
use syn_tokens::tree::{Ident, Span, TokenStream};

/// Makes `[a, b]` (Rust Reference, "Array expressions"). It is refused only where memory runs out.
pub fn array<H: HoldsExpr + Drop>(alloc: Global, elems: Vec<H>) -> Result<H>
    ensures made { let held = tree_in H.Expr.tree H.held in IfOk result (λ x. held x ≡ e.frame e.array (elements (map held elems.items) false)) }
    ensures memory { IfErr result (λ x. x.kind ≡ ErrorKind.OutOfMemory) }
{
    let elems = separated(alloc, elems)?;
    Ok(H::hold(H::Expr::array(ExprArrayOf {
        attrs: Vec::new(alloc),
        bracket_token: Bracket::default(),
        elems,
    })))
}

/// Makes `a` in an invisible group, as macros make them. An expression that has such a group isn't well-formed. It is
/// refused only where memory runs out.
pub fn group<H: HoldsExpr + Drop>(alloc: Global, expr: H) -> Result<H>
    ensures made { let held = tree_in H.Expr.tree H.held in IfOk result (λ x. held x ≡ e.frame e.group_expr (e.child e.grouped e.no_ending (held expr) e.none)) }
    ensures memory { IfErr result (λ x. x.kind ≡ ErrorKind.OutOfMemory) }
{
    let expr = operand(alloc, expr)?;
    Ok(H::hold(H::Expr::group(ExprGroupOf {
        attrs: Vec::new(alloc),
        group_token: Group::default(),
        expr: expr.into_inner(),
    })))
}

/// Makes `_` (Rust Reference, "Underscore expressions").
pub fn infer<H: HoldsExpr>(alloc: Global) -> H
    ensures { H.Expr.tree (H.held result) ≡ e.leaf e.infer }
{
    H::hold(H::Expr::infer(ExprInfer {
        attrs: Vec::new(alloc),
        underscore_token: Underscore::default(),
    }))
}

/// Makes `m!(..)` (Rust Reference, "Macro Invocation").
pub fn mac<H: HoldsExpr>(alloc: Global, mac: Macro) -> H
    ensures { H.Expr.tree (H.held result) ≡ e.leaf (e.mac (macro_of type_of mac)) }
{
    H::hold(H::Expr::mac(ExprMacro {
        attrs: Vec::new(alloc),
        mac,
    }))
}

/// Makes `a`, the path that is this word (Rust Reference, "Path expressions"). A text that is no identifier or reserved
/// word is refused as `Ident::new` refuses it; else it is refused only where memory runs out. A word that may be in no
/// path, as `if`, makes an expression that isn't well-formed.
pub fn name<H: HoldsExpr>(alloc: Global, name: &str) -> Result<H>
    ensures made { IfOk result (λ x. H.Expr.tree (H.held x) ≡ e.leaf (e.path no_qself (one_word name.now))) }
    ensures word { IfOk result (λ x. IsIdentText (chars name.now)) }
    ensures refused { IfErr result (λ x. (x.kind ≡ ErrorKind.OutOfMemory) ⊎ ¬ IsIdentText (chars name.now)) }
    ensures kind { IfErr result (λ x. (x.kind ≡ ErrorKind.OutOfMemory) ⊎ (x.kind ≡ ErrorKind.Lex (or_unknown (refusal (chars name.now))))) }
{
    let ident = Ident::new(alloc, name, Span::call_site())?;
    let word = Path::from_ident(alloc, ident)?;
    Ok(path(alloc, word))
}

/// Makes `(a)` (Rust Reference, "Grouped expressions"). It is refused only where memory runs out.
pub fn paren<H: HoldsExpr + Drop>(alloc: Global, expr: H) -> Result<H>
    ensures made { let held = tree_in H.Expr.tree H.held in IfOk result (λ x. held x ≡ e.paren false (held expr)) }
    ensures memory { IfErr result (λ x. x.kind ≡ ErrorKind.OutOfMemory) }
{
    let expr = operand(alloc, expr)?;
    Ok(H::hold(H::Expr::paren(ExprParenOf {
        attrs: Vec::new(alloc),
        paren_token: Paren::default(),
        expr: expr.into_inner(),
    })))
}

/// Makes `a::b` (Rust Reference, "Path expressions").
pub fn path<H: HoldsExpr>(alloc: Global, path: Path) -> H
    ensures { H.Expr.tree (H.held result) ≡ e.leaf (e.path no_qself (path_of type_of path)) }
{
    H::hold(H::Expr::path(ExprPath {
        attrs: Vec::new(alloc),
        qself: None,
        path,
    }))
}

/// Makes `[a; n]` (Rust Reference, "Array expressions"). It is refused only where memory runs out.
pub fn repeat<H: HoldsExpr + Drop>(alloc: Global, expr: H, len: H) -> Result<H>
    ensures made { let held = tree_in H.Expr.tree H.held in IfOk result (λ x. held x ≡ e.frame e.repeat (e.child e.repeated e.no_ending (held expr) (e.child e.value e.no_ending (held len) e.none))) }
    ensures memory { IfErr result (λ x. x.kind ≡ ErrorKind.OutOfMemory) }
{
    let expr = operand(alloc, expr)?;
    let len = operand(alloc, len)?;
    Ok(H::hold(H::Expr::repeat(ExprRepeatOf {
        attrs: Vec::new(alloc),
        bracket_token: Bracket::default(),
        expr: expr.into_inner(),
        semi_token: Semi::default(),
        len: len.into_inner(),
    })))
}

/// Makes `()`, `(a,)` or `(a, b)` (Rust Reference, "Tuple expressions"). It is refused only where memory runs out.
pub fn tuple<H: HoldsExpr + Drop>(alloc: Global, elems: Vec<H>) -> Result<H>
    ensures made { let held = tree_in H.Expr.tree H.held in IfOk result (λ x. held x ≡ e.frame e.tuple (elements (map held elems.items) (is_one elems.items))) }
    ensures memory { IfErr result (λ x. x.kind ≡ ErrorKind.OutOfMemory) }
{
    let elems = with_comma_if_one(alloc, elems)?;
    Ok(H::hold(H::Expr::tuple(ExprTupleOf {
        attrs: Vec::new(alloc),
        paren_token: Paren::default(),
        elems,
    })))
}

/// Makes an expression of tokens that are kept as they are. It isn't well-formed.
pub fn verbatim<H: HoldsExpr>(tokens: TokenStream) -> H
    ensures { H.Expr.tree (H.held result) ≡ e.leaf (e.verbatim tokens) }
{
    H::hold(H::Expr::verbatim(tokens))
}
