//! Copies of what holds no operands.

ghost use Rattle.std.specs.Prelude.{◌≡◌, IfErr, IfOk};
ghost use Rattle.syn_expr_ast.specs.Attrs.{attrs_of, inner_of, outer_of};
ghost use Rattle.syn_expr_ast.specs.View.{mapped, turbofish_of};
ghost use Rattle.syn_expr_tokens.specs.View.{label_of, member_of};

use std::alloc::Global;
use syn_expr_tokens::member::{Index, Member};
use syn_expr_tokens::modifiers::Label;
use syn_lower::attr::Attribute;
use syn_lower::path::AngleBracketedGenericArguments;
use syn_lower_copy::leaf::{copy_attributes, copy_lifetime};
use syn_lower_copy::types::copy_types_angle;
use syn_tokens::error::{ErrorKind, Result};
use syn_tokens::tree::copy_ident;

/// A copy of the attributes of an expression.
#[tactic(auto, unfolding(syn_expr_ast::specs::Attrs::attrs_of, syn_expr_ast::specs::Attrs::outer_of, syn_expr_ast::specs::Attrs::inner_of))]
pub fn copy_attrs(alloc: Global, xs: &Vec<Attribute>) -> Result<Vec<Attribute>>
    ensures all { IfOk result (λ ys. attrs_of ys ≡ attrs_of xs.now) }
    ensures outer { IfOk result (λ ys. outer_of ys ≡ outer_of xs.now) }
    ensures inner { IfOk result (λ ys. inner_of ys ≡ inner_of xs.now) }
    ensures memory { IfErr result (λ e. e.kind ≡ ErrorKind.OutOfMemory) }
{
    copy_attributes(alloc, xs)
}

/// A copy of a label that may be there.
pub fn copy_some_label(alloc: Global, x: &Option<Label>) -> Result<Option<Label>>
    ensures copied { IfOk result (λ y. mapped label_of y ≡ mapped label_of x.now) }
    ensures memory { IfErr result (λ e. e.kind ≡ ErrorKind.OutOfMemory) }
{
    match x {
        Some(x) => {
            let name = copy_lifetime(alloc, &x.name)?;
            Ok(Some(Label {
                name,
                colon_token: x.colon_token,
            }))
        }
        None => Ok(None),
    }
}

/// A copy of the name or the index of a field.
pub fn copy_member(alloc: Global, x: &Member) -> Result<Member>
    ensures copied { IfOk result (λ y. member_of y ≡ member_of x.now) }
    ensures memory { IfErr result (λ e. e.kind ≡ ErrorKind.OutOfMemory) }
{
    match x {
        Member::Named(x) => Ok(Member::Named(copy_ident(alloc, x)?)),
        Member::Unnamed(x) => Ok(Member::Unnamed(Index {
            index: x.index,
            span: x.span,
        })),
    }
}

/// A copy of the arguments between `<` and `>` of a method, if it has some.
pub fn copy_turbofish(
    alloc: Global,
    x: &Option<AngleBracketedGenericArguments>,
) -> Result<Option<AngleBracketedGenericArguments>>
    ensures copied { IfOk result (λ y. turbofish_of y ≡ turbofish_of x.now) }
    ensures memory { IfErr result (λ e. e.kind ≡ ErrorKind.OutOfMemory) }
{
    match x {
        Some(x) => Ok(Some(copy_types_angle(alloc, x)?)),
        None => Ok(None),
    }
}
