//! Copies of bounds, and of the arguments of function pointers.

ghost use Rattle.std.specs.Prelude.{◌≡◌, IfOk, IfErr};
ghost use Rattle.syn_lower_copy.specs.Copying.{Copies, Takes, RunsOut};
ghost use Rattle.syn_lower_copy.specs.Within.{InBound, InPath};
ghost use Rattle.syn_lower_types.specs.View.{arg_of, bound_of, mapped, trait_of};

use crate::leaf::{copy_lifetime, copy_some_lifetimes};
use crate::path::copy_path;
use std::alloc::Global;
use syn_lower_types::ty::{BareFnArgOf, TraitBoundOf, TypeParamBoundOf};
use syn_lower_types::types::HasTree;
use syn_tokens::error::{ErrorKind, Result};
use syn_tokens::token::Colon;
use syn_tokens::tree::{Ident, copy_ident};

/// A copy of the name of an argument, if it has one.
fn copy_name(alloc: Global, x: &Option<(Ident, Colon)>) -> Result<Option<(Ident, Colon)>>
    ensures copied { IfOk result (λ y. mapped (λ p. p.0) y ≡ mapped (λ p. p.0) x.now) }
    ensures memory { IfErr result (λ e. e.kind ≡ ErrorKind.OutOfMemory) }
{
    match x {
        Some((ident, colon)) => Ok(Some((copy_ident(alloc, ident)?, *colon))),
        None => Ok(None),
    }
}

/// A copy of an argument of a function pointer.
pub fn copy_arg<T: HasTree + Drop, F: Fn(&T, Global) -> Result<T>>(
    alloc: Global,
    x: &BareFnArgOf<T>,
    call: &F,
) -> Result<BareFnArgOf<T>>
    requires takes { Takes (F.pre call.now) alloc x.now.ty }
    requires copies { Copies T.tree (F.post call.now) alloc }
    requires runs_out { RunsOut (F.post call.now) alloc }
    ensures copied { IfOk result (λ y. arg_of T.tree y ≡ arg_of T.tree x.now) }
    ensures memory { IfErr result (λ e. e.kind ≡ ErrorKind.OutOfMemory) }
{
    let name = copy_name(alloc, &x.name)?;
    let ty = call(&x.ty, alloc)?;
    Ok(BareFnArgOf { name, ty })
}

/// A copy of a trait as a bound.
fn copy_trait<T: HasTree + Drop, F: Fn(&T, Global) -> Result<T>>(
    alloc: Global,
    x: &TraitBoundOf<T>,
    call: &F,
) -> Result<TraitBoundOf<T>>
    requires takes { InPath (Takes (F.pre call.now) alloc) x.now.path }
    requires copies { Copies T.tree (F.post call.now) alloc }
    requires runs_out { RunsOut (F.post call.now) alloc }
    ensures copied { IfOk result (λ y. trait_of T.tree y ≡ trait_of T.tree x.now) }
    ensures memory { IfErr result (λ e. e.kind ≡ ErrorKind.OutOfMemory) }
{
    let lifetimes = copy_some_lifetimes(alloc, &x.lifetimes)?;
    let path = copy_path(alloc, &x.path, call)?;
    Ok(TraitBoundOf {
        maybe: x.maybe,
        lifetimes,
        path,
    })
}

/// A copy of a bound.
pub fn copy_bound<T: HasTree + Drop, F: Fn(&T, Global) -> Result<T>>(
    alloc: Global,
    x: &TypeParamBoundOf<T>,
    call: &F,
) -> Result<TypeParamBoundOf<T>>
    requires takes { InBound (Takes (F.pre call.now) alloc) x.now }
    requires copies { Copies T.tree (F.post call.now) alloc }
    requires runs_out { RunsOut (F.post call.now) alloc }
    ensures copied { IfOk result (λ y. bound_of T.tree y ≡ bound_of T.tree x.now) }
    ensures memory { IfErr result (λ e. e.kind ≡ ErrorKind.OutOfMemory) }
{
    match x {
        TypeParamBoundOf::Lifetime(x) => Ok(TypeParamBoundOf::Lifetime(copy_lifetime(alloc, x)?)),
        TypeParamBoundOf::Trait(x) => Ok(TypeParamBoundOf::Trait(copy_trait(alloc, x, call)?)),
    }
}
