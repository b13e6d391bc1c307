//! Patterns that hold patterns: each of these is passed to a function, with something else besides. The expressions in a
//! pattern are its guards.

ghost use Rattle.std.specs.Option.{ForSome};
ghost use Rattle.std.specs.Prelude.{◌≡◌, Contains, Some};
ghost use Rattle.syn_pat.specs.View.{pat_ident_of, pat_or_of, pat_paren_of, pat_reference_of, pat_slice_of, pat_struct_of, pat_tuple_of, pat_tuple_struct_of, pat_type_of};
ghost use Rattle.syn_pat.specs.declared.pat.FieldPatKindOf.TheVariants as field;
ghost use Rattle.syn_pat.specs.declared.pat.FullFieldPatOf.{FullFieldPatOf};
ghost use Rattle.syn_visit_kinds.specs.Calls.{TakesWith};
ghost use Rattle.syn_visit_kinds.specs.Changes.{ChangeWith, Changed, ChangedPats};
ghost use Rattle.syn_visit_kinds.specs.Parts.{ChangedField, else_operand};

use crate::operands::{boxed_with_mut, punctuated_mut, punctuated_with_mut};
use syn_pat::kinds::HasPatTree;
use syn_pat::pat::{
    FieldPatKindOf, FieldPatOf, PatIdentOf, PatOrOf, PatParenOf, PatReferenceOf, PatSliceOf,
    PatStructOf, PatTupleOf, PatTupleStructOf, PatTypeOf,
};
use syn_tokens::token::At;

/// What comes after `@`.
fn sub_pattern_mut<P: HasPatTree, C, R: Drop, F: Fn(&mut P, &C) -> Result<(), R>>(
    x: &mut Option<(At, Box<P>)>,
    context: &C,
    call: &F,
) -> Result<(), R>
    requires { ForSome x.old (λ q. TakesWith (F.pre call.now) context.now q.1.value) }
    ensures { Changed (ChangeWith (λ y. y) (F.post call.now) context.now) (else_operand x.old) result (else_operand x.new) }
{
    match x {
        Some(both) => boxed_with_mut(&mut both.1, context, call),
        None => Ok(()),
    }
}

/// `a`, `ref mut a @ p`
pub fn ident_mut<P: HasPatTree, C, R: Drop, F: Fn(&mut P, &C) -> Result<(), R>>(
    x: &mut PatIdentOf<P>,
    context: &C,
    call: &F,
) -> Result<(), R>
    requires { ForSome x.old.subpat (λ q. TakesWith (F.pre call.now) context.now q.1.value) }
    ensures { ChangedPats P.view (ChangeWith (λ y. y) (F.post call.now) context.now) (pat_ident_of P.view x.old) result (pat_ident_of P.view x.new) }
{
    sub_pattern_mut(&mut x.subpat, context, call)
}

/// `p | q`
pub fn or_mut<P: HasPatTree, C, R: Drop, F: Fn(&mut P, &C) -> Result<(), R>>(
    x: &mut PatOrOf<P>,
    context: &C,
    call: &F,
) -> Result<(), R>
    requires inner { (q : _) → Contains x.old.cases.inner.items q → TakesWith (F.pre call.now) context.now q.0 }
    requires last { ForSome x.old.cases.last (λ b. TakesWith (F.pre call.now) context.now b.value) }
    ensures { ChangedPats P.view (ChangeWith (λ y. y) (F.post call.now) context.now) (pat_or_of P.view x.old) result (pat_or_of P.view x.new) }
{
    punctuated_with_mut(&mut x.cases, context, call)
}

/// `[p, q]`
pub fn slice_mut<P: HasPatTree, C, R: Drop, F: Fn(&mut P, &C) -> Result<(), R>>(
    x: &mut PatSliceOf<P>,
    context: &C,
    call: &F,
) -> Result<(), R>
    requires inner { (q : _) → Contains x.old.elems.inner.items q → TakesWith (F.pre call.now) context.now q.0 }
    requires last { ForSome x.old.elems.last (λ b. TakesWith (F.pre call.now) context.now b.value) }
    ensures { ChangedPats P.view (ChangeWith (λ y. y) (F.post call.now) context.now) (pat_slice_of P.view x.old) result (pat_slice_of P.view x.new) }
{
    punctuated_with_mut(&mut x.elems, context, call)
}

/// `(p, q)`
pub fn tuple_mut<P: HasPatTree, C, R: Drop, F: Fn(&mut P, &C) -> Result<(), R>>(
    x: &mut PatTupleOf<P>,
    context: &C,
    call: &F,
) -> Result<(), R>
    requires inner { (q : _) → Contains x.old.elems.inner.items q → TakesWith (F.pre call.now) context.now q.0 }
    requires last { ForSome x.old.elems.last (λ b. TakesWith (F.pre call.now) context.now b.value) }
    ensures { ChangedPats P.view (ChangeWith (λ y. y) (F.post call.now) context.now) (pat_tuple_of P.view x.old) result (pat_tuple_of P.view x.new) }
{
    punctuated_with_mut(&mut x.elems, context, call)
}

/// `S(p, q)`
pub fn tuple_struct_mut<P: HasPatTree, C, R: Drop, F: Fn(&mut P, &C) -> Result<(), R>>(
    x: &mut PatTupleStructOf<P>,
    context: &C,
    call: &F,
) -> Result<(), R>
    requires inner { (q : _) → Contains x.old.elems.inner.items q → TakesWith (F.pre call.now) context.now q.0 }
    requires last { ForSome x.old.elems.last (λ b. TakesWith (F.pre call.now) context.now b.value) }
    ensures { ChangedPats P.view (ChangeWith (λ y. y) (F.post call.now) context.now) (pat_tuple_struct_of P.view x.old) result (pat_tuple_struct_of P.view x.new) }
{
    punctuated_with_mut(&mut x.elems, context, call)
}

/// `(p)`
pub fn paren_mut<P: HasPatTree, C, R: Drop, F: Fn(&mut P, &C) -> Result<(), R>>(
    x: &mut PatParenOf<P>,
    context: &C,
    call: &F,
) -> Result<(), R>
    requires { TakesWith (F.pre call.now) context.now x.old.pat.value }
    ensures { ChangedPats P.view (ChangeWith (λ y. y) (F.post call.now) context.now) (pat_paren_of P.view x.old) result (pat_paren_of P.view x.new) }
{
    boxed_with_mut(&mut x.pat, context, call)
}

/// `&p`, `&mut p`
pub fn reference_mut<P: HasPatTree, C, R: Drop, F: Fn(&mut P, &C) -> Result<(), R>>(
    x: &mut PatReferenceOf<P>,
    context: &C,
    call: &F,
) -> Result<(), R>
    requires { TakesWith (F.pre call.now) context.now x.old.pat.value }
    ensures { ChangedPats P.view (ChangeWith (λ y. y) (F.post call.now) context.now) (pat_reference_of P.view x.old) result (pat_reference_of P.view x.new) }
{
    boxed_with_mut(&mut x.pat, context, call)
}

/// `p: T`
pub fn typed_mut<P: HasPatTree, C, R: Drop, F: Fn(&mut P, &C) -> Result<(), R>>(
    x: &mut PatTypeOf<P>,
    context: &C,
    call: &F,
) -> Result<(), R>
    requires { TakesWith (F.pre call.now) context.now x.old.pat.value }
    ensures { ChangedPats P.view (ChangeWith (λ y. y) (F.post call.now) context.now) (pat_type_of P.view x.old) result (pat_type_of P.view x.new) }
{
    boxed_with_mut(&mut x.pat, context, call)
}

/// What a field of a struct pattern holds.
fn field_kind_mut<P: HasPatTree, C, R: Drop, F: Fn(&mut P, &C) -> Result<(), R>>(
    x: &mut FieldPatKindOf<P>,
    context: &C,
    call: &F,
) -> Result<(), R>
    requires { (p : FullFieldPatOf P) → x.old ≡ field.Full p → TakesWith (F.pre call.now) context.now p.pat.value }
    ensures { ChangedField (ChangeWith (λ y. y) (F.post call.now) context.now) x.old result x.new }
{
    match x {
        FieldPatKindOf::Short(_) => Ok(()),
        FieldPatKindOf::Full(x) => boxed_with_mut(&mut x.pat, context, call),
    }
}

/// `S { a, b: p, .. }`
pub fn struct_pat_mut<P: HasPatTree, C, R: Drop, F: Fn(&mut P, &C) -> Result<(), R>>(
    x: &mut PatStructOf<P>,
    context: &C,
    call: &F,
) -> Result<(), R>
    requires inner { (q : _) (p : FullFieldPatOf P) → Contains x.old.fields.inner.items q → q.0.kind ≡ field.Full p → TakesWith (F.pre call.now) context.now p.pat.value }
    requires last { (b : _) (p : FullFieldPatOf P) → x.old.fields.last ≡ Some b → b.value.kind ≡ field.Full p → TakesWith (F.pre call.now) context.now p.pat.value }
    ensures { ChangedPats P.view (ChangeWith (λ y. y) (F.post call.now) context.now) (pat_struct_of P.view x.old) result (pat_struct_of P.view x.new) }
{
    punctuated_mut(
        &mut x.fields,
        &|one: &mut FieldPatOf<P>| -> Result<(), R>
            requires { (p : FullFieldPatOf P) → one.old.kind ≡ field.Full p → TakesWith (F.pre call.now) context.now p.pat.value }
            ensures attrs { one.new.attrs ≡ one.old.attrs }
            ensures changed { ChangedField (ChangeWith (λ y. y) (F.post call.entry.now) context.entry.now) one.old.kind result one.new.kind }
        { field_kind_mut(&mut one.kind, context, call) },
    )
}
