//! Copies of what patterns are made of.

ghost use Rattle.std.specs.Option.{ForSome};
ghost use Rattle.std.specs.Prelude.{◌≡◌, Contains, IfErr, IfOk, flat_map, map};
ghost use Rattle.syn_expr_copy.specs.Within.{InField, InFieldKind};
ghost use Rattle.syn_lower_copy.specs.Copying.{Copies, Takes, RunsOut};
ghost use Rattle.syn_pat.specs.View.{bound_of, field_guards, field_of, field_pat_of, guards_in, mapped, pats_in, sub_guards, sub_of, trails, values};

use crate::leaf::copy_member;
use crate::list::{copy_boxed, copy_punctuated};
use crate::seen::{ByFieldPat, ByPat};
use std::alloc::Global;
use syn_expr_parse::known::LetGo;
use syn_lower::punctuated::Punctuated;
use syn_lower_copy::leaf::copy_attributes;
use syn_lower_copy::types::{copy_types_path, copy_types_qself};
use syn_pat::kinds::HasPatTree;
use syn_pat::pat::{FieldPatKindOf, FieldPatOf, FullFieldPatOf, RangeBound, ShortFieldPat};
use syn_tokens::error::{ErrorKind, Result};
use syn_tokens::token::{At, Comma};
use syn_tokens::tree::copy_ident;

/// A copy of a bound of a range.
fn copy_range_bound(alloc: Global, x: &RangeBound) -> Result<RangeBound>
    ensures copied { IfOk result (λ y. bound_of y ≡ bound_of x.now) }
    ensures memory { IfErr result (λ e. e.kind ≡ ErrorKind.OutOfMemory) }
{
    match x {
        RangeBound::Lit(x) => Ok(RangeBound::Lit(x.copy(alloc)?)),
        RangeBound::Path { qself, path } => {
            let qself = copy_types_qself(alloc, qself)?;
            let path = copy_types_path(alloc, path)?;
            Ok(RangeBound::Path { qself, path })
        }
    }
}

/// A copy of a bound of a range that may be there.
pub fn copy_bound(alloc: Global, x: &Option<RangeBound>) -> Result<Option<RangeBound>>
    ensures copied { IfOk result (λ y. mapped bound_of y ≡ mapped bound_of x.now) }
    ensures memory { IfErr result (λ e. e.kind ≡ ErrorKind.OutOfMemory) }
{
    match x {
        Some(x) => Ok(Some(copy_range_bound(alloc, x)?)),
        None => Ok(None),
    }
}

/// A copy of the pattern after `@`, if there is one.
pub fn copy_sub<P: HasPatTree + LetGo, F: Fn(&P, Global) -> Result<P>>(
    alloc: Global,
    x: &Option<(At, Box<P>)>,
    call: &F,
) -> Result<Option<(At, Box<P>)>>
    requires takes { ForSome x.now (λ q. Takes (F.pre call.now) alloc q.1.value) }
    requires copies { Copies P.view (F.post call.now) alloc }
    requires runs_out { RunsOut (F.post call.now) alloc }
    ensures copied { IfOk result (λ y. sub_of P.view y ≡ sub_of P.view x.now) }
    ensures guards { IfOk result (λ y. sub_guards P.view y ≡ sub_guards P.view x.now) }
    ensures memory { IfErr result (λ e. e.kind ≡ ErrorKind.OutOfMemory) }
{
    match x {
        Some((at, pat)) => {
            let pat = copy_boxed(alloc, ByPat {}, pat, call)?;
            Ok(Some((*at, pat)))
        }
        None => Ok(None),
    }
}

/// A copy of a list of patterns.
pub fn copy_pats<P: HasPatTree + LetGo, S: Copy + Drop, F: Fn(&P, Global) -> Result<P>>(
    alloc: Global,
    x: &Punctuated<P, S>,
    call: &F,
) -> Result<Punctuated<P, S>>
    requires inner { (q : _) → Contains x.now.inner.items q → Takes (F.pre call.now) alloc q.0 }
    requires last { ForSome x.now.last (λ b. Takes (F.pre call.now) alloc b.value) }
    requires copies { Copies P.view (F.post call.now) alloc }
    requires runs_out { RunsOut (F.post call.now) alloc }
    ensures all { IfOk result (λ y. map P.view (values y) ≡ map P.view (values x.now)) }
    ensures trees { IfOk result (λ y. pats_in P.view (values y) ≡ pats_in P.view (values x.now)) }
    ensures guards { IfOk result (λ y. guards_in P.view (values y) ≡ guards_in P.view (values x.now)) }
    ensures trails { IfOk result (λ y. trails y ≡ trails x.now) }
    ensures memory { IfErr result (λ e. e.kind ≡ ErrorKind.OutOfMemory) }
{
    let y = copy_punctuated(alloc, ByPat {}, x, call)?;
    Ok(y)
}

/// A copy of what a field of a struct pattern is.
fn copy_field_kind<P: HasPatTree + LetGo, F: Fn(&P, Global) -> Result<P>>(
    alloc: Global,
    x: &FieldPatKindOf<P>,
    call: &F,
) -> Result<FieldPatKindOf<P>>
    requires takes { InFieldKind (Takes (F.pre call.now) alloc) x.now }
    requires copies { Copies P.view (F.post call.now) alloc }
    requires runs_out { RunsOut (F.post call.now) alloc }
    ensures copied { IfOk result (λ y. field_of P.view y ≡ field_of P.view x.now) }
    ensures guards { IfOk result (λ y. field_guards P.view y ≡ field_guards P.view x.now) }
    ensures memory { IfErr result (λ e. e.kind ≡ ErrorKind.OutOfMemory) }
{
    match x {
        FieldPatKindOf::Short(x) => {
            let ident = copy_ident(alloc, &x.ident)?;
            Ok(FieldPatKindOf::Short(ShortFieldPat {
                by_ref: x.by_ref,
                mutability: x.mutability,
                ident,
            }))
        }
        FieldPatKindOf::Full(x) => {
            let member = copy_member(alloc, &x.member)?;
            let pat = copy_boxed(alloc, ByPat {}, &x.pat, call)?;
            Ok(FieldPatKindOf::Full(FullFieldPatOf {
                member,
                colon_token: x.colon_token,
                pat,
            }))
        }
    }
}

/// A copy of a field of a struct pattern.
fn copy_field<P: HasPatTree + LetGo, F: Fn(&P, Global) -> Result<P>>(
    alloc: Global,
    x: &FieldPatOf<P>,
    call: &F,
) -> Result<FieldPatOf<P>>
    requires takes { InField (Takes (F.pre call.now) alloc) x.now }
    requires copies { Copies P.view (F.post call.now) alloc }
    requires runs_out { RunsOut (F.post call.now) alloc }
    ensures copied { IfOk result (λ y. field_pat_of P.view y ≡ field_pat_of P.view x.now) }
    ensures guards { IfOk result (λ y. field_guards P.view y.kind ≡ field_guards P.view x.now.kind) }
    ensures memory { IfErr result (λ e. e.kind ≡ ErrorKind.OutOfMemory) }
{
    let attrs = copy_attributes(alloc, &x.attrs)?;
    let kind = copy_field_kind(alloc, &x.kind, call)?;
    Ok(FieldPatOf { attrs, kind })
}

/// A copy of the fields of a struct pattern.
pub fn copy_fields<P: HasPatTree + LetGo, F: Fn(&P, Global) -> Result<P>>(
    alloc: Global,
    x: &Punctuated<FieldPatOf<P>, Comma>,
    call: &F,
) -> Result<Punctuated<FieldPatOf<P>, Comma>>
    requires inner { (q : _) → Contains x.now.inner.items q → InField (Takes (F.pre call.now) alloc) q.0 }
    requires last { ForSome x.now.last (λ b. InField (Takes (F.pre call.now) alloc) b.value) }
    requires copies { Copies P.view (F.post call.now) alloc }
    requires runs_out { RunsOut (F.post call.now) alloc }
    ensures trees { IfOk result (λ y. map (field_pat_of P.view) (values y) ≡ map (field_pat_of P.view) (values x.now)) }
    ensures guards { IfOk result (λ y. flat_map (λ z. field_guards P.view z.kind) (values y) ≡ flat_map (λ z. field_guards P.view z.kind) (values x.now)) }
    ensures trails { IfOk result (λ y. trails y ≡ trails x.now) }
    ensures memory { IfErr result (λ e. e.kind ≡ ErrorKind.OutOfMemory) }
{
    let copy = |x: &FieldPatOf<P>, alloc: Global| copy_field(alloc, x, call);
    let y = copy_punctuated(alloc, ByFieldPat {}, x, &copy)?;
    Ok(y)
}
