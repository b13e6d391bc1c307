//! Struct expressions and their fields.
#![tactic(auto, using(crate::proofs::Lists::maps), unfolding(syn_expr_ast::specs::Attrs::attrs_of))]

ghost use Rattle.std.specs.Prelude.{◌≡◌, false, true, map, IfErr, IfOk, option_map};
ghost use Rattle.syn_expr_ast.specs.View as of;
ghost use Rattle.syn_expr_make.specs.Held.{field_view, tree_in, view_in};
ghost use Rattle.syn_expr_spec.specs.Tree as e;
ghost use Rattle.syn_expr_tokens.specs.View.{member_of};
ghost use Rattle.syn_lower.specs.View.{path_of, type_of};
ghost use Rattle.syn_lower_spec.specs.Tree.{no_qself};

use crate::list::separated_parts;
use crate::operand::{box_or_none, operand_or_none};
use std::alloc::Global;
use syn_expr_ast::alone::IsExpr;
use syn_expr_ast::structure::{ExprStructOf, FieldValueOf};
use syn_expr_parse::known::{Held, HoldsExpr};
use syn_expr_tokens::member::Member;
use syn_lower::path::Path;
use syn_tokens::error::{ErrorKind, Result};
use syn_tokens::token::{Brace, Colon, DotDot};

/// Makes `a: 1`, the field of a struct expression (Rust Reference, "Struct expressions").
pub fn field_value<H: HoldsExpr>(
    alloc: Global,
    member: Member,
    expr: H,
) -> Held<FieldValueOf<H::Expr>>
    ensures { of.field_value_of H.Expr.tree result.value ≡ field_view (member_of member) (H.Expr.tree (H.held expr)) }
{
    Held {
        value: FieldValueOf {
            attrs: Vec::new(alloc),
            member,
            colon_token: Some(Colon::default()),
            expr: expr.into_expr(),
        },
    }
}

/// Makes `S { a: 1, b: 2, ..rest }`, or `S { a: 1, b: 2 }` (Rust Reference, "Struct expressions"). It is refused only where
/// memory runs out.
pub fn struct_expr<H: HoldsExpr + Drop>(
    alloc: Global,
    path: Path,
    fields: Vec<Held<FieldValueOf<H::Expr>>>,
    rest: Option<H>,
) -> Result<H>
    ensures made { let held = tree_in H.Expr.tree H.held in let seen = map (view_in (of.field_value_of H.Expr.tree)) fields.items in IfOk result (λ x. held x ≡ e.frame (e.structure no_qself (path_of type_of path) false) (of.fields seen false (of.option_child (e.rest true) (option_map held rest)))) }
    ensures memory { IfErr result (λ x. x.kind ≡ ErrorKind.OutOfMemory) }
{
    let rest = operand_or_none(alloc, rest)?;
    let fields = separated_parts(alloc, fields)?;
    Ok(H::hold(H::Expr::struct_expr(ExprStructOf {
        attrs: Vec::new(alloc),
        qself: None,
        path,
        brace_token: Brace::default(),
        fields,
        dot2_token: rest.is_some().then(DotDot::default),
        rest: box_or_none(rest),
    })))
}
