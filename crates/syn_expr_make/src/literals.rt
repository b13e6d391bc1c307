//! Literals. One of a kind that has no maker here is made by its `new`, and given to `lit`.
#![tactic(auto, unfolding(syn_expr_ast::specs::Attrs::attrs_of))]

ghost use Rattle.std.specs.Prelude.{◌≡◌, ◌⊎◌, ◌∷◌, [], false, true, chars, IfErr, IfOk, Some};
ghost use Rattle.syn_expr_make.specs.Held.{IsLit};
ghost use Rattle.syn_expr_spec.specs.Tree as e;
ghost use Rattle.syn_lower_leaves.specs.View.{lit_of};
ghost use Rattle.syn_lower_leaves.specs.Value as of;
ghost use Rattle.syn_lower_leaves.specs.Written as forms;
ghost use Rattle.syn_lower_spec.specs.declared.label.LitKind.TheVariants as kind;

use std::alloc::Global;
use syn_expr_ast::alone::IsExpr;
use syn_expr_ast::atom::ExprLit;
use syn_expr_parse::known::HoldsExpr;
use syn_lower::lit::{Lit, LitBool, LitChar, LitFloat, LitInt, LitStr};
use syn_tokens::error::{ErrorKind, Part, Result};
use syn_tokens::tree::Span;

/// Makes the expression that is this literal (Rust Reference, "Literal expressions").
pub fn lit<H: HoldsExpr>(alloc: Global, lit: Lit) -> H
    ensures { H.Expr.tree (H.held result) ≡ e.leaf (e.lit (lit_of lit)) }
{
    H::hold(H::Expr::lit(ExprLit {
        attrs: Vec::new(alloc),
        lit,
    }))
}

/// Makes `true` or `false` (Rust Reference, "Boolean literals"). It is refused only where memory runs out.
pub fn lit_bool<H: HoldsExpr>(alloc: Global, value: bool) -> Result<H>
    ensures made { IfOk result (λ x. H.Expr.tree (H.held x) ≡ e.leaf (e.lit (record { kind = kind.Bool; text = forms.truth_text value }))) }
    ensures memory { IfErr result (λ x. x.kind ≡ ErrorKind.OutOfMemory) }
{
    let truth = LitBool::new(alloc, value, Span::call_site())?;
    Ok(lit(alloc, Lit::Bool(truth)))
}

/// Makes the literal of this character (Rust Reference, "Character literals"), escaped where it has to be. It is refused
/// only where memory runs out.
pub fn lit_char<H: HoldsExpr>(alloc: Global, value: char) -> Result<H>
    ensures made { IfOk result (λ x. IsLit kind.Char (λ cs. cs ≡ forms.quoted false 39 (value ∷ [])) (H.Expr.tree (H.held x))) }
    ensures value { IfOk result (λ x. IsLit kind.Char (λ cs. of.char_value cs ≡ Some value) (H.Expr.tree (H.held x))) }
    ensures memory { IfErr result (λ x. x.kind ≡ ErrorKind.OutOfMemory) }
{
    let character = LitChar::new(alloc, value, Span::call_site())?;
    Ok(lit(alloc, Lit::Char(character)))
}

/// Makes the floating-point number of this text, as `1.5` or `1e3f32` (Rust Reference, "Floating-point literals"). Another
/// text is refused as `ExpectedPart` of a literal. A number after a `-` makes an expression that isn't well-formed: `unary`
/// negates one.
pub fn lit_float<H: HoldsExpr>(alloc: Global, repr: &str) -> Result<H>
    ensures made { IfOk result (λ x. H.Expr.tree (H.held x) ≡ e.leaf (e.lit (record { kind = kind.Float; text = repr.now }))) }
    ensures found { IfOk result (λ x. forms.IsNumber true (forms.without_minus repr.now)) }
    ensures refused { IfErr result (λ x. (x.kind ≡ ErrorKind.OutOfMemory) ⊎ ((x.kind ≡ ErrorKind.ExpectedPart Part.Literal) × ¬ forms.IsNumber true (forms.without_minus repr.now))) }
{
    let number = LitFloat::new(alloc, repr, Span::call_site())?;
    Ok(lit(alloc, Lit::Float(number)))
}

/// Makes the integer of this text, as `1`, `0x1f` or `1u8` (Rust Reference, "Integer literals"). Another text is refused as
/// `ExpectedPart` of a literal. A number after a `-` makes an expression that isn't well-formed: `unary` negates one.
pub fn lit_int<H: HoldsExpr>(alloc: Global, repr: &str) -> Result<H>
    ensures made { IfOk result (λ x. H.Expr.tree (H.held x) ≡ e.leaf (e.lit (record { kind = kind.Int; text = repr.now }))) }
    ensures found { IfOk result (λ x. forms.IsNumber false (forms.without_minus repr.now)) }
    ensures refused { IfErr result (λ x. (x.kind ≡ ErrorKind.OutOfMemory) ⊎ ((x.kind ≡ ErrorKind.ExpectedPart Part.Literal) × ¬ forms.IsNumber false (forms.without_minus repr.now))) }
{
    let number = LitInt::new(alloc, repr, Span::call_site())?;
    Ok(lit(alloc, Lit::Int(number)))
}

/// Makes the string of this value (Rust Reference, "String literals"). What can't stand for itself in it, or would not be
/// seen, is escaped. It is refused only where memory runs out.
pub fn lit_str<H: HoldsExpr>(alloc: Global, value: &str) -> Result<H>
    ensures made { IfOk result (λ x. IsLit kind.Str (λ cs. cs ≡ forms.quoted false 34 (chars value.now)) (H.Expr.tree (H.held x))) }
    ensures value { IfOk result (λ x. IsLit kind.Str (λ cs. of.str_value cs ≡ Some (chars value.now)) (H.Expr.tree (H.held x))) }
    ensures memory { IfErr result (λ x. x.kind ≡ ErrorKind.OutOfMemory) }
{
    let string = LitStr::new(alloc, value, Span::call_site())?;
    Ok(lit(alloc, Lit::Str(string)))
}
