//! Patterns that hold patterns. Their guards are what holds expressions.

ghost use Rattle.std.specs.Prelude.{◌≡◌, Contains, IfOk, Some};
ghost use Rattle.std.specs.Option.{ForSome};
ghost use Rattle.syn_pat.specs.View.{pat_ident_of, pat_or_of, pat_paren_of, pat_reference_of, pat_slice_of, pat_struct_of, pat_tuple_of, pat_tuple_struct_of, pat_type_of, sub_guards, sub_of};
ghost use Rattle.syn_pat.specs.declared.pat.FieldPatKindOf.TheVariants as field;
ghost use Rattle.syn_pat.specs.declared.pat.FullFieldPatOf.{FullFieldPatOf};
ghost use Rattle.syn_visit_kinds.specs.Calls.{Each, Takes};
ghost use Rattle.syn_expr_flatten.specs.Flat.{IsFlat};
ghost use Rattle.syn_expr_flatten.specs.Pats.{FlattensPat, IsFlatPat, IsFlatKind, IsFlatFieldPat};

use crate::attrs::Flattened;
use syn_pat::kinds::HasPatTree;
use syn_pat::pat::{
    FieldPatKindOf, FieldPatOf, PatIdentOf, PatOrOf, PatParenOf, PatReferenceOf, PatSliceOf,
    PatStructOf, PatTupleOf, PatTupleStructOf, PatTypeOf,
};
use syn_tokens::token::At;
use syn_visit_kinds::operands::{boxed_mut, punctuated_mut};

/// What comes after `@`, without the parentheses in its guards.
#[tactic(auto, using(syn_visit_kinds::proofs::Elementwise::each))]
fn sub_pattern<P: HasPatTree, F: Fn(&mut P) -> Flattened<()>>(
    x: &mut Option<(At, Box<P>)>,
    flatten: F,
) -> Flattened<()>
    requires inner { ForSome x.old (λ q. Takes (F.pre flatten) q.1.value) }
    requires gives { FlattensPat P.view (F.post flatten) }
    ensures same { IfOk result (λ _. sub_of P.view x.new ≡ sub_of P.view x.old) }
    ensures flat { IfOk result (λ _. Each IsFlat (sub_guards P.view x.old) (sub_guards P.view x.new)) }
{
    match x {
        Some(both) => {
            boxed_mut(&mut both.1, &flatten)?;
            Ok(())
        }
        None => Ok(()),
    }
}

/// A name, with what comes after `@`, without the parentheses in its guards.
pub fn ident<P: HasPatTree, F: Fn(&mut P) -> Flattened<()>>(
    x: &mut PatIdentOf<P>,
    flatten: F,
) -> Flattened<()>
    requires inner { ForSome x.old.subpat (λ q. Takes (F.pre flatten) q.1.value) }
    requires gives { FlattensPat P.view (F.post flatten) }
    ensures { IfOk result (λ _. IsFlatPat (pat_ident_of P.view x.old) (pat_ident_of P.view x.new)) }
{
    sub_pattern(&mut x.subpat, flatten)?;
    Ok(())
}

/// What a field is, without the parentheses in its guards.
#[tactic(auto, using(syn_visit_kinds::proofs::Elementwise::each))]
fn field_kind<P: HasPatTree, F: Fn(&mut P) -> Flattened<()>>(
    x: &mut FieldPatKindOf<P>,
    flatten: F,
) -> Flattened<()>
    requires inner { (p : FullFieldPatOf P) → x.old ≡ field.Full p → Takes (F.pre flatten) p.pat.value }
    requires gives { FlattensPat P.view (F.post flatten) }
    ensures { IfOk result (λ _. IsFlatKind P.view x.old x.new) }
{
    match x {
        FieldPatKindOf::Short(_) => Ok(()),
        FieldPatKindOf::Full(x) => {
            boxed_mut(&mut x.pat, &flatten)?;
            Ok(())
        }
    }
}

/// A struct pattern without the parentheses in its guards.
pub fn struct_pat<P: HasPatTree, F: Fn(&mut P) -> Flattened<()>>(
    x: &mut PatStructOf<P>,
    flatten: F,
) -> Flattened<()>
    requires inner { (q : _) (p : FullFieldPatOf P) → Contains x.old.fields.inner.items q → q.0.kind ≡ field.Full p → Takes (F.pre flatten) p.pat.value }
    requires last { (b : _) (p : FullFieldPatOf P) → x.old.fields.last ≡ Some b → b.value.kind ≡ field.Full p → Takes (F.pre flatten) p.pat.value }
    requires gives { FlattensPat P.view (F.post flatten) }
    ensures { IfOk result (λ _. IsFlatPat (pat_struct_of P.view x.old) (pat_struct_of P.view x.new)) }
{
    punctuated_mut(
        &mut x.fields,
        &|one: &mut FieldPatOf<P>| -> Flattened<()>
            requires inner { (p : FullFieldPatOf P) → one.old.kind ≡ field.Full p → Takes (F.pre flatten) p.pat.value }
            requires gives { FlattensPat P.view (F.post flatten) }
            ensures { IfOk result (λ _. IsFlatFieldPat P.view one.old one.new) }
        {
            field_kind(&mut one.kind, &flatten)?;
            Ok(())
        },
    )?;
    Ok(())
}

/// Alternatives without the parentheses in their guards.
pub fn or<P: HasPatTree, F: Fn(&mut P) -> Flattened<()>>(
    x: &mut PatOrOf<P>,
    flatten: F,
) -> Flattened<()>
    requires inner { (q : _) → Contains x.old.cases.inner.items q → Takes (F.pre flatten) q.0 }
    requires last { ForSome x.old.cases.last (λ b. Takes (F.pre flatten) b.value) }
    requires gives { FlattensPat P.view (F.post flatten) }
    ensures { IfOk result (λ _. IsFlatPat (pat_or_of P.view x.old) (pat_or_of P.view x.new)) }
{
    punctuated_mut(&mut x.cases, &flatten)?;
    Ok(())
}

/// A pattern in parentheses, which stay, without those in its guards.
pub fn paren<P: HasPatTree, F: Fn(&mut P) -> Flattened<()>>(
    x: &mut PatParenOf<P>,
    flatten: F,
) -> Flattened<()>
    requires inner { Takes (F.pre flatten) x.old.pat.value }
    requires gives { FlattensPat P.view (F.post flatten) }
    ensures { IfOk result (λ _. IsFlatPat (pat_paren_of P.view x.old) (pat_paren_of P.view x.new)) }
{
    boxed_mut(&mut x.pat, &flatten)?;
    Ok(())
}

/// A reference pattern without the parentheses in its guards.
pub fn reference<P: HasPatTree, F: Fn(&mut P) -> Flattened<()>>(
    x: &mut PatReferenceOf<P>,
    flatten: F,
) -> Flattened<()>
    requires inner { Takes (F.pre flatten) x.old.pat.value }
    requires gives { FlattensPat P.view (F.post flatten) }
    ensures { IfOk result (λ _. IsFlatPat (pat_reference_of P.view x.old) (pat_reference_of P.view x.new)) }
{
    boxed_mut(&mut x.pat, &flatten)?;
    Ok(())
}

/// A slice pattern without the parentheses in its guards.
pub fn slice<P: HasPatTree, F: Fn(&mut P) -> Flattened<()>>(
    x: &mut PatSliceOf<P>,
    flatten: F,
) -> Flattened<()>
    requires inner { (q : _) → Contains x.old.elems.inner.items q → Takes (F.pre flatten) q.0 }
    requires last { ForSome x.old.elems.last (λ b. Takes (F.pre flatten) b.value) }
    requires gives { FlattensPat P.view (F.post flatten) }
    ensures { IfOk result (λ _. IsFlatPat (pat_slice_of P.view x.old) (pat_slice_of P.view x.new)) }
{
    punctuated_mut(&mut x.elems, &flatten)?;
    Ok(())
}

/// A tuple pattern without the parentheses in its guards.
pub fn tuple<P: HasPatTree, F: Fn(&mut P) -> Flattened<()>>(
    x: &mut PatTupleOf<P>,
    flatten: F,
) -> Flattened<()>
    requires inner { (q : _) → Contains x.old.elems.inner.items q → Takes (F.pre flatten) q.0 }
    requires last { ForSome x.old.elems.last (λ b. Takes (F.pre flatten) b.value) }
    requires gives { FlattensPat P.view (F.post flatten) }
    ensures { IfOk result (λ _. IsFlatPat (pat_tuple_of P.view x.old) (pat_tuple_of P.view x.new)) }
{
    punctuated_mut(&mut x.elems, &flatten)?;
    Ok(())
}

/// A tuple struct pattern without the parentheses in its guards.
pub fn tuple_struct<P: HasPatTree, F: Fn(&mut P) -> Flattened<()>>(
    x: &mut PatTupleStructOf<P>,
    flatten: F,
) -> Flattened<()>
    requires inner { (q : _) → Contains x.old.elems.inner.items q → Takes (F.pre flatten) q.0 }
    requires last { ForSome x.old.elems.last (λ b. Takes (F.pre flatten) b.value) }
    requires gives { FlattensPat P.view (F.post flatten) }
    ensures { IfOk result (λ _. IsFlatPat (pat_tuple_struct_of P.view x.old) (pat_tuple_struct_of P.view x.new)) }
{
    punctuated_mut(&mut x.elems, &flatten)?;
    Ok(())
}

/// A pattern with its type, without the parentheses in its guards.
pub fn typed<P: HasPatTree, F: Fn(&mut P) -> Flattened<()>>(
    x: &mut PatTypeOf<P>,
    flatten: F,
) -> Flattened<()>
    requires inner { Takes (F.pre flatten) x.old.pat.value }
    requires gives { FlattensPat P.view (F.post flatten) }
    ensures { IfOk result (λ _. IsFlatPat (pat_type_of P.view x.old) (pat_type_of P.view x.new)) }
{
    boxed_mut(&mut x.pat, &flatten)?;
    Ok(())
}
