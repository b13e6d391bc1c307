//! Struct expressions and their fields: each operand is passed to a function.

ghost use Rattle.std.specs.Option.{ForSome};
ghost use Rattle.std.specs.Prelude.{◌≡◌, Contains, map};
ghost use Rattle.syn_expr_spec.specs.Tree.{Tree};
ghost use Rattle.syn_expr_ast.specs.View.{expr_struct_of, field_value_of};
ghost use Rattle.syn_expr_ast.specs.declared.structure.FieldValueOf.{FieldValueOf};
ghost use Rattle.syn_lower_leaves.specs.View.{trails, values};
ghost use Rattle.syn_visit_kinds.specs.Calls.{Takes};
ghost use Rattle.syn_visit_kinds.specs.Changes.{Change, Changed, ChangedIn};
ghost use Rattle.syn_visit_kinds.specs.Parts.{map_field};

use crate::operands::{one_mut, optional_mut, punctuated_mut};
use syn_expr_ast::alone::HasExprTree;
use syn_expr_ast::structure::{ExprStructOf, FieldValueOf};
use syn_lower::punctuated::Punctuated;
use syn_tokens::token::Comma;

/// The value of a field.
fn field_value_mut<E: HasExprTree, R: Drop, F: Fn(&mut E) -> Result<(), R>>(
    field: &mut FieldValueOf<E>,
    call: &F,
) -> Result<(), R>
    requires { Takes (F.pre call.now) field.old.expr }
    ensures changed { Change (λ y. y) (F.post call.now) field.old.expr result field.new.expr }
    ensures around { (k : Tree) → map_field (λ _. k) (field_value_of E.tree field.new) ≡ map_field (λ _. k) (field_value_of E.tree field.old) }
{
    one_mut(&mut field.expr, call)
}

/// The values of fields.
fn fields_mut<E: HasExprTree, R: Drop, F: Fn(&mut E) -> Result<(), R>>(
    x: &mut Punctuated<FieldValueOf<E>, Comma>,
    call: &F,
) -> Result<(), R>
    requires inner { (q : _) → Contains x.old.inner.items q → Takes (F.pre call.now) q.0.expr }
    requires last { ForSome x.old.last (λ b. Takes (F.pre call.now) b.value.expr) }
    ensures changed { Changed (Change (λ y. y) (F.post call.now)) (map (λ (y : FieldValueOf E). y.expr) (values x.old)) result (map (λ (y : FieldValueOf E). y.expr) (values x.new)) }
    ensures around { (k : Tree) → map (map_field (λ _. k)) (map (field_value_of E.tree) (values x.new)) ≡ map (map_field (λ _. k)) (map (field_value_of E.tree) (values x.old)) }
    ensures trails { trails x.new ≡ trails x.old }
{
    punctuated_mut(
        x,
        &|field: &mut FieldValueOf<E>| -> Result<(), R>
            requires { Takes (F.pre call.now) field.old.expr }
            ensures changed { Change (λ y. y) (F.post call.entry.now) field.old.expr result field.new.expr }
            ensures around { (k : Tree) → map_field (λ _. k) (field_value_of E.tree field.new) ≡ map_field (λ _. k) (field_value_of E.tree field.old) }
        { field_value_mut(field, call) },
    )
}

/// `S { a: 1, ..b }`
pub fn struct_expr_mut<E: HasExprTree, R: Drop, F: Fn(&mut E) -> Result<(), R>>(
    x: &mut ExprStructOf<E>,
    call: &F,
) -> Result<(), R>
    requires fields { (q : _) → Contains x.old.fields.inner.items q → Takes (F.pre call.now) q.0.expr }
    requires last { ForSome x.old.fields.last (λ b. Takes (F.pre call.now) b.value.expr) }
    requires others { ForSome x.old.rest (λ b. Takes (F.pre call.now) b.value) }
    ensures { ChangedIn (Change E.tree (F.post call.now)) (expr_struct_of E.tree x.old) result (expr_struct_of E.tree x.new) }
{
    fields_mut(&mut x.fields, call)?;
    optional_mut(&mut x.rest, call)
}
