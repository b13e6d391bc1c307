//! Copies of what stands between `<` and `>` and in parentheses after a name.

ghost use Rattle.std.specs.Prelude.{◌≡◌, IfOk, IfErr};
ghost use Rattle.syn_lower_copy.specs.Copying.{Copies, Takes, RunsOut};
ghost use Rattle.syn_lower_copy.specs.Within.{InAngle, InArguments, InGeneric, InOutput, InRound};
ghost use Rattle.syn_lower_types.specs.View.{angle_of, arguments_of, generic_of, name_and_type, return_of, round_of};

use crate::leaf::copy_lifetime;
use crate::list::{copy_boxed, copy_punctuated};
use crate::seen::{ByGeneric, ByTree};
use std::alloc::Global;
use syn_lower_types::path::{
    AngleBracketedGenericArgumentsOf, AssocTypeOf, GenericArgumentOf,
    ParenthesizedGenericArgumentsOf, PathArgumentsOf,
};
use syn_lower_types::ty::ReturnTypeOf;
use syn_lower_types::types::HasTree;
use syn_tokens::error::{ErrorKind, Result};
use syn_tokens::tree::{copy_ident, copy_trees};

/// A copy of what a function returns.
pub fn copy_output<T: HasTree + Drop, F: Fn(&T, Global) -> Result<T>>(
    alloc: Global,
    x: &ReturnTypeOf<T>,
    call: &F,
) -> Result<ReturnTypeOf<T>>
    requires takes { InOutput (Takes (F.pre call.now) alloc) x.now }
    requires copies { Copies T.tree (F.post call.now) alloc }
    requires runs_out { RunsOut (F.post call.now) alloc }
    ensures copied { IfOk result (λ y. return_of T.tree y ≡ return_of T.tree x.now) }
    ensures memory { IfErr result (λ e. e.kind ≡ ErrorKind.OutOfMemory) }
{
    match x {
        ReturnTypeOf::Default => Ok(ReturnTypeOf::Default),
        ReturnTypeOf::Given(arrow, ty) => {
            let ty = copy_boxed(alloc, ByTree {}, ty, call)?;
            Ok(ReturnTypeOf::Given(*arrow, ty))
        }
    }
}

/// A copy of an associated type and what it is equal to.
fn copy_assoc<T: HasTree + Drop, F: Fn(&T, Global) -> Result<T>>(
    alloc: Global,
    x: &AssocTypeOf<T>,
    call: &F,
) -> Result<AssocTypeOf<T>>
    requires takes { Takes (F.pre call.now) alloc x.now.ty }
    requires copies { Copies T.tree (F.post call.now) alloc }
    requires runs_out { RunsOut (F.post call.now) alloc }
    ensures copied { IfOk result (λ y. name_and_type T.tree y ≡ name_and_type T.tree x.now) }
    ensures memory { IfErr result (λ e. e.kind ≡ ErrorKind.OutOfMemory) }
{
    let ident = copy_ident(alloc, &x.ident)?;
    let ty = call(&x.ty, alloc)?;
    Ok(AssocTypeOf {
        ident,
        eq_token: x.eq_token,
        ty,
    })
}

/// A copy of an argument between `<` and `>`.
fn copy_generic<T: HasTree + Drop, F: Fn(&T, Global) -> Result<T>>(
    alloc: Global,
    x: &GenericArgumentOf<T>,
    call: &F,
) -> Result<GenericArgumentOf<T>>
    requires takes { InGeneric (Takes (F.pre call.now) alloc) x.now }
    requires copies { Copies T.tree (F.post call.now) alloc }
    requires runs_out { RunsOut (F.post call.now) alloc }
    ensures copied { IfOk result (λ y. generic_of T.tree y ≡ generic_of T.tree x.now) }
    ensures memory { IfErr result (λ e. e.kind ≡ ErrorKind.OutOfMemory) }
{
    match x {
        GenericArgumentOf::Lifetime(x) => Ok(GenericArgumentOf::Lifetime(copy_lifetime(alloc, x)?)),
        GenericArgumentOf::Const(x) => Ok(GenericArgumentOf::Const(copy_trees(alloc, x.trees())?)),
        GenericArgumentOf::AssocType(x) => Ok(GenericArgumentOf::AssocType(copy_assoc(
            alloc, x, call,
        )?)),
        GenericArgumentOf::Ty(x) => Ok(GenericArgumentOf::Ty(call(x, alloc)?)),
    }
}

/// A copy of arguments between `<` and `>`.
pub fn copy_angle<T: HasTree + Drop, F: Fn(&T, Global) -> Result<T>>(
    alloc: Global,
    x: &AngleBracketedGenericArgumentsOf<T>,
    call: &F,
) -> Result<AngleBracketedGenericArgumentsOf<T>>
    requires takes { InAngle (Takes (F.pre call.now) alloc) x.now }
    requires copies { Copies T.tree (F.post call.now) alloc }
    requires runs_out { RunsOut (F.post call.now) alloc }
    ensures copied { IfOk result (λ y. angle_of T.tree y ≡ angle_of T.tree x.now) }
    ensures memory { IfErr result (λ e. e.kind ≡ ErrorKind.OutOfMemory) }
{
    let copy = |x: &GenericArgumentOf<T>, alloc: Global| copy_generic(alloc, x, call);
    let args = copy_punctuated(alloc, ByGeneric {}, &x.args, &copy)?;
    Ok(AngleBracketedGenericArgumentsOf {
        colon2_token: x.colon2_token,
        lt_token: x.lt_token,
        args,
        gt_token: x.gt_token,
    })
}

/// A copy of types in parentheses, and of what follows them.
fn copy_round<T: HasTree + Drop, F: Fn(&T, Global) -> Result<T>>(
    alloc: Global,
    x: &ParenthesizedGenericArgumentsOf<T>,
    call: &F,
) -> Result<ParenthesizedGenericArgumentsOf<T>>
    requires takes { InRound (Takes (F.pre call.now) alloc) x.now }
    requires copies { Copies T.tree (F.post call.now) alloc }
    requires runs_out { RunsOut (F.post call.now) alloc }
    ensures copied { IfOk result (λ y. round_of T.tree y ≡ round_of T.tree x.now) }
    ensures memory { IfErr result (λ e. e.kind ≡ ErrorKind.OutOfMemory) }
{
    let inputs = copy_punctuated(alloc, ByTree {}, &x.inputs, call)?;
    let output = copy_output(alloc, &x.output, call)?;
    Ok(ParenthesizedGenericArgumentsOf {
        paren_token: x.paren_token,
        inputs,
        output,
    })
}

/// A copy of the arguments of a segment.
pub fn copy_arguments<T: HasTree + Drop, F: Fn(&T, Global) -> Result<T>>(
    alloc: Global,
    x: &PathArgumentsOf<T>,
    call: &F,
) -> Result<PathArgumentsOf<T>>
    requires takes { InArguments (Takes (F.pre call.now) alloc) x.now }
    requires copies { Copies T.tree (F.post call.now) alloc }
    requires runs_out { RunsOut (F.post call.now) alloc }
    ensures copied { IfOk result (λ y. arguments_of T.tree y ≡ arguments_of T.tree x.now) }
    ensures memory { IfErr result (λ e. e.kind ≡ ErrorKind.OutOfMemory) }
{
    match x {
        PathArgumentsOf::None => Ok(PathArgumentsOf::None),
        PathArgumentsOf::AngleBracketed(x) => Ok(PathArgumentsOf::AngleBracketed(copy_angle(
            alloc, x, call,
        )?)),
        PathArgumentsOf::Parenthesized(x) => Ok(PathArgumentsOf::Parenthesized(copy_round(
            alloc, x, call,
        )?)),
    }
}
