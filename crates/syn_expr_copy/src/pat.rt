//! Copies of each kind of pattern.

ghost use Rattle.std.specs.Option.{ForSome};
ghost use Rattle.std.specs.Prelude.{◌≡◌, Contains, IfErr, IfOk, Some};
ghost use Rattle.syn_lower_copy.specs.Copying.{Copies, Takes, RunsOut};
ghost use Rattle.syn_pat.specs.View.{pat_const_of, pat_ident_of, pat_lit_of, pat_macro_of, pat_or_of, pat_paren_of, pat_path_of, pat_range_of, pat_reference_of, pat_rest_of, pat_slice_of, pat_struct_of, pat_tuple_of, pat_tuple_struct_of, pat_type_of, pat_wild_of};
ghost use Rattle.syn_pat.specs.declared.pat.FieldPatKindOf.TheVariants as field;
ghost use Rattle.syn_pat.specs.declared.pat.FullFieldPatOf.{FullFieldPatOf};

use crate::list::copy_boxed;
use crate::pat_part::{copy_bound, copy_fields, copy_pats, copy_sub};
use crate::seen::ByPat;
use std::alloc::Global;
use syn_expr_parse::known::LetGo;
use syn_lower_copy::leaf::{copy_attributes, copy_block};
use syn_lower_copy::types::{copy_boxed_type, copy_types_mac, copy_types_path, copy_types_qself};
use syn_pat::kinds::IsPat;
use syn_pat::pat::{
    PatConst, PatIdentOf, PatLit, PatMacro, PatOrOf, PatParenOf, PatPath, PatRange, PatReferenceOf,
    PatRest, PatSliceOf, PatStructOf, PatTupleOf, PatTupleStructOf, PatTypeOf, PatWild,
};
use syn_tokens::error::{ErrorKind, Result};
use syn_tokens::tree::copy_ident;

/// A copy of a pattern of the kind `PatConst`.
pub fn copy_pat_const<P: IsPat>(alloc: Global, x: &PatConst) -> Result<P>
    ensures copied { IfOk result (λ y. P.view y ≡ pat_const_of x.now) }
    ensures memory { IfErr result (λ e. e.kind ≡ ErrorKind.OutOfMemory) }
{
    let attrs = copy_attributes(alloc, &x.attrs)?;
    let block = copy_block(alloc, &x.block)?;
    Ok(P::const_pat(PatConst {
        attrs,
        const_token: x.const_token,
        block,
    }))
}

/// A copy of a pattern of the kind `PatIdent`.
pub fn copy_pat_ident<P: IsPat + LetGo, F: Fn(&P, Global) -> Result<P>>(
    alloc: Global,
    x: &PatIdentOf<P>,
    call: &F,
) -> Result<P>
    requires takes_subpat { ForSome x.now.subpat (λ q. Takes (F.pre call.now) alloc q.1.value) }
    requires copies { Copies P.view (F.post call.now) alloc }
    requires runs_out { RunsOut (F.post call.now) alloc }
    ensures copied { IfOk result (λ y. P.view y ≡ pat_ident_of P.view x.now) }
    ensures memory { IfErr result (λ e. e.kind ≡ ErrorKind.OutOfMemory) }
{
    let attrs = copy_attributes(alloc, &x.attrs)?;
    let ident = copy_ident(alloc, &x.ident)?;
    let subpat = copy_sub(alloc, &x.subpat, call)?;
    Ok(P::ident(PatIdentOf {
        attrs,
        by_ref: x.by_ref,
        mutability: x.mutability,
        ident,
        subpat,
    }))
}

/// A copy of a pattern of the kind `PatLit`.
pub fn copy_pat_lit<P: IsPat>(alloc: Global, x: &PatLit) -> Result<P>
    ensures copied { IfOk result (λ y. P.view y ≡ pat_lit_of x.now) }
    ensures memory { IfErr result (λ e. e.kind ≡ ErrorKind.OutOfMemory) }
{
    let attrs = copy_attributes(alloc, &x.attrs)?;
    let lit = x.lit.copy(alloc)?;
    Ok(P::lit(PatLit { attrs, lit }))
}

/// A copy of a pattern of the kind `PatMacro`.
pub fn copy_pat_macro<P: IsPat>(alloc: Global, x: &PatMacro) -> Result<P>
    ensures copied { IfOk result (λ y. P.view y ≡ pat_macro_of x.now) }
    ensures memory { IfErr result (λ e. e.kind ≡ ErrorKind.OutOfMemory) }
{
    let attrs = copy_attributes(alloc, &x.attrs)?;
    let mac = copy_types_mac(alloc, &x.mac)?;
    Ok(P::mac(PatMacro { attrs, mac }))
}

/// A copy of a pattern of the kind `PatOr`.
pub fn copy_pat_or<P: IsPat + LetGo, F: Fn(&P, Global) -> Result<P>>(
    alloc: Global,
    x: &PatOrOf<P>,
    call: &F,
) -> Result<P>
    requires takes_cases_inner { (q : _) → Contains x.now.cases.inner.items q → Takes (F.pre call.now) alloc q.0 }
    requires takes_cases_last { ForSome x.now.cases.last (λ b. Takes (F.pre call.now) alloc b.value) }
    requires copies { Copies P.view (F.post call.now) alloc }
    requires runs_out { RunsOut (F.post call.now) alloc }
    ensures copied { IfOk result (λ y. P.view y ≡ pat_or_of P.view x.now) }
    ensures memory { IfErr result (λ e. e.kind ≡ ErrorKind.OutOfMemory) }
{
    let attrs = copy_attributes(alloc, &x.attrs)?;
    let cases = copy_pats(alloc, &x.cases, call)?;
    Ok(P::or(PatOrOf {
        attrs,
        leading_vert: x.leading_vert,
        cases,
    }))
}

/// A copy of a pattern of the kind `PatParen`.
pub fn copy_pat_paren<P: IsPat + LetGo, F: Fn(&P, Global) -> Result<P>>(
    alloc: Global,
    x: &PatParenOf<P>,
    call: &F,
) -> Result<P>
    requires takes_pat { Takes (F.pre call.now) alloc x.now.pat.value }
    requires copies { Copies P.view (F.post call.now) alloc }
    requires runs_out { RunsOut (F.post call.now) alloc }
    ensures copied { IfOk result (λ y. P.view y ≡ pat_paren_of P.view x.now) }
    ensures memory { IfErr result (λ e. e.kind ≡ ErrorKind.OutOfMemory) }
{
    let attrs = copy_attributes(alloc, &x.attrs)?;
    let pat = copy_boxed(alloc, ByPat {}, &x.pat, call)?;
    Ok(P::paren(PatParenOf {
        attrs,
        paren_token: x.paren_token,
        pat,
    }))
}

/// A copy of a pattern of the kind `PatPath`.
pub fn copy_pat_path<P: IsPat>(alloc: Global, x: &PatPath) -> Result<P>
    ensures copied { IfOk result (λ y. P.view y ≡ pat_path_of x.now) }
    ensures memory { IfErr result (λ e. e.kind ≡ ErrorKind.OutOfMemory) }
{
    let attrs = copy_attributes(alloc, &x.attrs)?;
    let qself = copy_types_qself(alloc, &x.qself)?;
    let path = copy_types_path(alloc, &x.path)?;
    Ok(P::path(PatPath { attrs, qself, path }))
}

/// A copy of a pattern of the kind `PatRange`.
pub fn copy_pat_range<P: IsPat>(alloc: Global, x: &PatRange) -> Result<P>
    ensures copied { IfOk result (λ y. P.view y ≡ pat_range_of x.now) }
    ensures memory { IfErr result (λ e. e.kind ≡ ErrorKind.OutOfMemory) }
{
    let attrs = copy_attributes(alloc, &x.attrs)?;
    let start = copy_bound(alloc, &x.start)?;
    let end = copy_bound(alloc, &x.end)?;
    Ok(P::range(PatRange {
        attrs,
        start,
        limits: x.limits,
        end,
    }))
}

/// A copy of a pattern of the kind `PatReference`.
pub fn copy_pat_reference<P: IsPat + LetGo, F: Fn(&P, Global) -> Result<P>>(
    alloc: Global,
    x: &PatReferenceOf<P>,
    call: &F,
) -> Result<P>
    requires takes_pat { Takes (F.pre call.now) alloc x.now.pat.value }
    requires copies { Copies P.view (F.post call.now) alloc }
    requires runs_out { RunsOut (F.post call.now) alloc }
    ensures copied { IfOk result (λ y. P.view y ≡ pat_reference_of P.view x.now) }
    ensures memory { IfErr result (λ e. e.kind ≡ ErrorKind.OutOfMemory) }
{
    let attrs = copy_attributes(alloc, &x.attrs)?;
    let pat = copy_boxed(alloc, ByPat {}, &x.pat, call)?;
    Ok(P::reference(PatReferenceOf {
        attrs,
        and_token: x.and_token,
        mutability: x.mutability,
        pat,
    }))
}

/// A copy of a pattern of the kind `PatRest`.
pub fn copy_pat_rest<P: IsPat>(alloc: Global, x: &PatRest) -> Result<P>
    ensures copied { IfOk result (λ y. P.view y ≡ pat_rest_of x.now) }
    ensures memory { IfErr result (λ e. e.kind ≡ ErrorKind.OutOfMemory) }
{
    let attrs = copy_attributes(alloc, &x.attrs)?;
    Ok(P::rest(PatRest {
        attrs,
        dot2_token: x.dot2_token,
    }))
}

/// A copy of a pattern of the kind `PatSlice`.
pub fn copy_pat_slice<P: IsPat + LetGo, F: Fn(&P, Global) -> Result<P>>(
    alloc: Global,
    x: &PatSliceOf<P>,
    call: &F,
) -> Result<P>
    requires takes_elems_inner { (q : _) → Contains x.now.elems.inner.items q → Takes (F.pre call.now) alloc q.0 }
    requires takes_elems_last { ForSome x.now.elems.last (λ b. Takes (F.pre call.now) alloc b.value) }
    requires copies { Copies P.view (F.post call.now) alloc }
    requires runs_out { RunsOut (F.post call.now) alloc }
    ensures copied { IfOk result (λ y. P.view y ≡ pat_slice_of P.view x.now) }
    ensures memory { IfErr result (λ e. e.kind ≡ ErrorKind.OutOfMemory) }
{
    let attrs = copy_attributes(alloc, &x.attrs)?;
    let elems = copy_pats(alloc, &x.elems, call)?;
    Ok(P::slice(PatSliceOf {
        attrs,
        bracket_token: x.bracket_token,
        elems,
    }))
}

/// A copy of a pattern of the kind `PatStruct`.
pub fn copy_pat_struct<P: IsPat + LetGo, F: Fn(&P, Global) -> Result<P>>(
    alloc: Global,
    x: &PatStructOf<P>,
    call: &F,
) -> Result<P>
    requires takes_fields_inner { (q : _) (p : FullFieldPatOf P) → Contains x.now.fields.inner.items q → q.0.kind ≡ field.Full p → Takes (F.pre call.now) alloc p.pat.value }
    requires takes_fields_last { (b : _) (p : FullFieldPatOf P) → x.now.fields.last ≡ Some b → b.value.kind ≡ field.Full p → Takes (F.pre call.now) alloc p.pat.value }
    requires copies { Copies P.view (F.post call.now) alloc }
    requires runs_out { RunsOut (F.post call.now) alloc }
    ensures copied { IfOk result (λ y. P.view y ≡ pat_struct_of P.view x.now) }
    ensures memory { IfErr result (λ e. e.kind ≡ ErrorKind.OutOfMemory) }
{
    let attrs = copy_attributes(alloc, &x.attrs)?;
    let path = copy_types_path(alloc, &x.path)?;
    let fields = copy_fields(alloc, &x.fields, call)?;
    Ok(P::struct_pat(PatStructOf {
        attrs,
        path,
        brace_token: x.brace_token,
        fields,
        rest: x.rest,
    }))
}

/// A copy of a pattern of the kind `PatTuple`.
pub fn copy_pat_tuple<P: IsPat + LetGo, F: Fn(&P, Global) -> Result<P>>(
    alloc: Global,
    x: &PatTupleOf<P>,
    call: &F,
) -> Result<P>
    requires takes_elems_inner { (q : _) → Contains x.now.elems.inner.items q → Takes (F.pre call.now) alloc q.0 }
    requires takes_elems_last { ForSome x.now.elems.last (λ b. Takes (F.pre call.now) alloc b.value) }
    requires copies { Copies P.view (F.post call.now) alloc }
    requires runs_out { RunsOut (F.post call.now) alloc }
    ensures copied { IfOk result (λ y. P.view y ≡ pat_tuple_of P.view x.now) }
    ensures memory { IfErr result (λ e. e.kind ≡ ErrorKind.OutOfMemory) }
{
    let attrs = copy_attributes(alloc, &x.attrs)?;
    let elems = copy_pats(alloc, &x.elems, call)?;
    Ok(P::tuple(PatTupleOf {
        attrs,
        paren_token: x.paren_token,
        elems,
    }))
}

/// A copy of a pattern of the kind `PatTupleStruct`.
pub fn copy_pat_tuple_struct<P: IsPat + LetGo, F: Fn(&P, Global) -> Result<P>>(
    alloc: Global,
    x: &PatTupleStructOf<P>,
    call: &F,
) -> Result<P>
    requires takes_elems_inner { (q : _) → Contains x.now.elems.inner.items q → Takes (F.pre call.now) alloc q.0 }
    requires takes_elems_last { ForSome x.now.elems.last (λ b. Takes (F.pre call.now) alloc b.value) }
    requires copies { Copies P.view (F.post call.now) alloc }
    requires runs_out { RunsOut (F.post call.now) alloc }
    ensures copied { IfOk result (λ y. P.view y ≡ pat_tuple_struct_of P.view x.now) }
    ensures memory { IfErr result (λ e. e.kind ≡ ErrorKind.OutOfMemory) }
{
    let attrs = copy_attributes(alloc, &x.attrs)?;
    let path = copy_types_path(alloc, &x.path)?;
    let elems = copy_pats(alloc, &x.elems, call)?;
    Ok(P::tuple_struct(PatTupleStructOf {
        attrs,
        path,
        paren_token: x.paren_token,
        elems,
    }))
}

/// A copy of a pattern of the kind `PatType`.
pub fn copy_pat_type<P: IsPat + LetGo, F: Fn(&P, Global) -> Result<P>>(
    alloc: Global,
    x: &PatTypeOf<P>,
    call: &F,
) -> Result<P>
    requires takes_pat { Takes (F.pre call.now) alloc x.now.pat.value }
    requires copies { Copies P.view (F.post call.now) alloc }
    requires runs_out { RunsOut (F.post call.now) alloc }
    ensures copied { IfOk result (λ y. P.view y ≡ pat_type_of P.view x.now) }
    ensures memory { IfErr result (λ e. e.kind ≡ ErrorKind.OutOfMemory) }
{
    let attrs = copy_attributes(alloc, &x.attrs)?;
    let ty = copy_boxed_type(alloc, &x.ty)?;
    let pat = copy_boxed(alloc, ByPat {}, &x.pat, call)?;
    Ok(P::typed(PatTypeOf {
        attrs,
        pat,
        colon_token: x.colon_token,
        ty,
    }))
}

/// A copy of a pattern of the kind `PatWild`.
pub fn copy_pat_wild<P: IsPat>(alloc: Global, x: &PatWild) -> Result<P>
    ensures copied { IfOk result (λ y. P.view y ≡ pat_wild_of x.now) }
    ensures memory { IfErr result (λ e. e.kind ≡ ErrorKind.OutOfMemory) }
{
    let attrs = copy_attributes(alloc, &x.attrs)?;
    Ok(P::wild(PatWild {
        attrs,
        underscore_token: x.underscore_token,
    }))
}
