//! Copies of each kind of type.

ghost use Rattle.std.specs.Prelude.{◌≡◌, IfOk, IfErr};
ghost use Rattle.syn_lower_copy.specs.Copying.{Copies, Takes, RunsOut};
ghost use Rattle.syn_lower_copy.specs.Within.{InBound, InFnPtr, InList, InPath, InTypePath};
ghost use Rattle.syn_lower_types.specs.View.{array_of, fn_ptr_of, impl_trait_of, paren_of, ptr_of, reference_of, slice_of, trait_object_of, tuple_of, type_macro_of, type_path_of};

use crate::argument::copy_output;
use crate::bound::{copy_arg, copy_bound};
use crate::leaf::{copy_some_abi, copy_some_lifetime, copy_some_lifetimes};
use crate::list::{copy_boxed, copy_punctuated};
use crate::path::{copy_macro, copy_path, copy_qself};
use crate::seen::{ByArgument, ByBound, ByTree};
use std::alloc::Global;
use syn_lower_types::ty::{
    BareFnArgOf, TypeArrayOf, TypeFnPtrOf, TypeImplTraitOf, TypeMacroOf, TypeParamBoundOf,
    TypeParenOf, TypePathOf, TypePtrOf, TypeReferenceOf, TypeSliceOf, TypeTraitObjectOf,
    TypeTupleOf,
};
use syn_lower_types::types::HasTree;
use syn_tokens::error::{ErrorKind, Result};
use syn_tokens::tree::copy_trees;

/// A copy of a path as a type.
pub fn copy_type_path<T: HasTree + Drop, F: Fn(&T, Global) -> Result<T>>(
    alloc: Global,
    x: &TypePathOf<T>,
    call: &F,
) -> Result<TypePathOf<T>>
    requires takes { InTypePath (Takes (F.pre call.now) alloc) x.now }
    requires copies { Copies T.tree (F.post call.now) alloc }
    requires runs_out { RunsOut (F.post call.now) alloc }
    ensures copied { IfOk result (λ y. type_path_of T.tree y ≡ type_path_of T.tree x.now) }
    ensures memory { IfErr result (λ e. e.kind ≡ ErrorKind.OutOfMemory) }
{
    let qself = copy_qself(alloc, &x.qself, call)?;
    let path = copy_path(alloc, &x.path, call)?;
    Ok(TypePathOf { qself, path })
}

/// A copy of the call of a macro as a type.
pub fn copy_type_macro<T: HasTree + Drop, F: Fn(&T, Global) -> Result<T>>(
    alloc: Global,
    x: &TypeMacroOf<T>,
    call: &F,
) -> Result<TypeMacroOf<T>>
    requires takes { InPath (Takes (F.pre call.now) alloc) x.now.mac.path }
    requires copies { Copies T.tree (F.post call.now) alloc }
    requires runs_out { RunsOut (F.post call.now) alloc }
    ensures copied { IfOk result (λ y. type_macro_of T.tree y ≡ type_macro_of T.tree x.now) }
    ensures memory { IfErr result (λ e. e.kind ≡ ErrorKind.OutOfMemory) }
{
    let mac = copy_macro(alloc, &x.mac, call)?;
    Ok(TypeMacroOf { mac })
}

/// A copy of a reference.
pub fn copy_reference<T: HasTree + Drop, F: Fn(&T, Global) -> Result<T>>(
    alloc: Global,
    x: &TypeReferenceOf<T>,
    call: &F,
) -> Result<TypeReferenceOf<T>>
    requires takes { Takes (F.pre call.now) alloc x.now.elem.value }
    requires copies { Copies T.tree (F.post call.now) alloc }
    requires runs_out { RunsOut (F.post call.now) alloc }
    ensures copied { IfOk result (λ y. reference_of T.tree y ≡ reference_of T.tree x.now) }
    ensures memory { IfErr result (λ e. e.kind ≡ ErrorKind.OutOfMemory) }
{
    let lifetime = copy_some_lifetime(alloc, &x.lifetime)?;
    let elem = copy_boxed(alloc, ByTree {}, &x.elem, call)?;
    Ok(TypeReferenceOf {
        and_token: x.and_token,
        lifetime,
        mutability: x.mutability,
        elem,
    })
}

/// A copy of a raw pointer.
pub fn copy_ptr<T: HasTree + Drop, F: Fn(&T, Global) -> Result<T>>(
    alloc: Global,
    x: &TypePtrOf<T>,
    call: &F,
) -> Result<TypePtrOf<T>>
    requires takes { Takes (F.pre call.now) alloc x.now.elem.value }
    requires copies { Copies T.tree (F.post call.now) alloc }
    requires runs_out { RunsOut (F.post call.now) alloc }
    ensures copied { IfOk result (λ y. ptr_of T.tree y ≡ ptr_of T.tree x.now) }
    ensures memory { IfErr result (λ e. e.kind ≡ ErrorKind.OutOfMemory) }
{
    let elem = copy_boxed(alloc, ByTree {}, &x.elem, call)?;
    Ok(TypePtrOf {
        star_token: x.star_token,
        mutability: x.mutability,
        elem,
    })
}

/// A copy of a slice.
pub fn copy_slice<T: HasTree + Drop, F: Fn(&T, Global) -> Result<T>>(
    alloc: Global,
    x: &TypeSliceOf<T>,
    call: &F,
) -> Result<TypeSliceOf<T>>
    requires takes { Takes (F.pre call.now) alloc x.now.elem.value }
    requires copies { Copies T.tree (F.post call.now) alloc }
    requires runs_out { RunsOut (F.post call.now) alloc }
    ensures copied { IfOk result (λ y. slice_of T.tree y ≡ slice_of T.tree x.now) }
    ensures memory { IfErr result (λ e. e.kind ≡ ErrorKind.OutOfMemory) }
{
    let elem = copy_boxed(alloc, ByTree {}, &x.elem, call)?;
    Ok(TypeSliceOf {
        bracket_token: x.bracket_token,
        elem,
    })
}

/// A copy of an array.
pub fn copy_array<T: HasTree + Drop, F: Fn(&T, Global) -> Result<T>>(
    alloc: Global,
    x: &TypeArrayOf<T>,
    call: &F,
) -> Result<TypeArrayOf<T>>
    requires takes { Takes (F.pre call.now) alloc x.now.elem.value }
    requires copies { Copies T.tree (F.post call.now) alloc }
    requires runs_out { RunsOut (F.post call.now) alloc }
    ensures copied { IfOk result (λ y. array_of T.tree y ≡ array_of T.tree x.now) }
    ensures memory { IfErr result (λ e. e.kind ≡ ErrorKind.OutOfMemory) }
{
    let elem = copy_boxed(alloc, ByTree {}, &x.elem, call)?;
    let len = copy_trees(alloc, x.len.trees())?;
    Ok(TypeArrayOf {
        bracket_token: x.bracket_token,
        elem,
        semi_token: x.semi_token,
        len,
    })
}

/// A copy of a tuple.
pub fn copy_tuple<T: HasTree + Drop, F: Fn(&T, Global) -> Result<T>>(
    alloc: Global,
    x: &TypeTupleOf<T>,
    call: &F,
) -> Result<TypeTupleOf<T>>
    requires takes { InList (Takes (F.pre call.now) alloc) x.now.elems }
    requires copies { Copies T.tree (F.post call.now) alloc }
    requires runs_out { RunsOut (F.post call.now) alloc }
    ensures copied { IfOk result (λ y. tuple_of T.tree y ≡ tuple_of T.tree x.now) }
    ensures memory { IfErr result (λ e. e.kind ≡ ErrorKind.OutOfMemory) }
{
    let elems = copy_punctuated(alloc, ByTree {}, &x.elems, call)?;
    Ok(TypeTupleOf {
        paren_token: x.paren_token,
        elems,
    })
}

/// A copy of a type in parentheses.
pub fn copy_paren<T: HasTree + Drop, F: Fn(&T, Global) -> Result<T>>(
    alloc: Global,
    x: &TypeParenOf<T>,
    call: &F,
) -> Result<TypeParenOf<T>>
    requires takes { Takes (F.pre call.now) alloc x.now.elem.value }
    requires copies { Copies T.tree (F.post call.now) alloc }
    requires runs_out { RunsOut (F.post call.now) alloc }
    ensures copied { IfOk result (λ y. paren_of T.tree y ≡ paren_of T.tree x.now) }
    ensures memory { IfErr result (λ e. e.kind ≡ ErrorKind.OutOfMemory) }
{
    let elem = copy_boxed(alloc, ByTree {}, &x.elem, call)?;
    Ok(TypeParenOf {
        paren_token: x.paren_token,
        elem,
    })
}

/// A copy of a function pointer.
pub fn copy_fn_ptr<T: HasTree + Drop, F: Fn(&T, Global) -> Result<T>>(
    alloc: Global,
    x: &TypeFnPtrOf<T>,
    call: &F,
) -> Result<TypeFnPtrOf<T>>
    requires takes { InFnPtr (Takes (F.pre call.now) alloc) x.now }
    requires copies { Copies T.tree (F.post call.now) alloc }
    requires runs_out { RunsOut (F.post call.now) alloc }
    ensures copied { IfOk result (λ y. fn_ptr_of T.tree y ≡ fn_ptr_of T.tree x.now) }
    ensures memory { IfErr result (λ e. e.kind ≡ ErrorKind.OutOfMemory) }
{
    let lifetimes = copy_some_lifetimes(alloc, &x.lifetimes)?;
    let abi = copy_some_abi(alloc, &x.abi)?;
    let copy = |x: &BareFnArgOf<T>, alloc: Global| copy_arg(alloc, x, call);
    let inputs = copy_punctuated(alloc, ByArgument {}, &x.inputs, &copy)?;
    let output = copy_output(alloc, &x.output, call)?;
    Ok(TypeFnPtrOf {
        lifetimes,
        unsafety: x.unsafety,
        abi,
        fn_token: x.fn_token,
        paren_token: x.paren_token,
        inputs,
        output,
    })
}

/// A copy of a type by what it implements.
pub fn copy_impl_trait<T: HasTree + Drop, F: Fn(&T, Global) -> Result<T>>(
    alloc: Global,
    x: &TypeImplTraitOf<T>,
    call: &F,
) -> Result<TypeImplTraitOf<T>>
    requires takes { InList (InBound (Takes (F.pre call.now) alloc)) x.now.bounds }
    requires copies { Copies T.tree (F.post call.now) alloc }
    requires runs_out { RunsOut (F.post call.now) alloc }
    ensures copied { IfOk result (λ y. impl_trait_of T.tree y ≡ impl_trait_of T.tree x.now) }
    ensures memory { IfErr result (λ e. e.kind ≡ ErrorKind.OutOfMemory) }
{
    let copy = |x: &TypeParamBoundOf<T>, alloc: Global| copy_bound(alloc, x, call);
    let bounds = copy_punctuated(alloc, ByBound {}, &x.bounds, &copy)?;
    Ok(TypeImplTraitOf {
        impl_token: x.impl_token,
        bounds,
    })
}

/// A copy of a type by what it can do.
pub fn copy_trait_object<T: HasTree + Drop, F: Fn(&T, Global) -> Result<T>>(
    alloc: Global,
    x: &TypeTraitObjectOf<T>,
    call: &F,
) -> Result<TypeTraitObjectOf<T>>
    requires takes { InList (InBound (Takes (F.pre call.now) alloc)) x.now.bounds }
    requires copies { Copies T.tree (F.post call.now) alloc }
    requires runs_out { RunsOut (F.post call.now) alloc }
    ensures copied { IfOk result (λ y. trait_object_of T.tree y ≡ trait_object_of T.tree x.now) }
    ensures memory { IfErr result (λ e. e.kind ≡ ErrorKind.OutOfMemory) }
{
    let copy = |x: &TypeParamBoundOf<T>, alloc: Global| copy_bound(alloc, x, call);
    let bounds = copy_punctuated(alloc, ByBound {}, &x.bounds, &copy)?;
    Ok(TypeTraitObjectOf {
        dyn_token: x.dyn_token,
        bounds,
    })
}
