//! Copies of types.

ghost use Rattle.std.specs.Prelude.{◌≡◌, IfOk, IfErr};
ghost use Rattle.syn_lower.specs.View.{angle_of, macro_of, path_of, qself_or, return_of, type_of};

use crate::argument::{copy_angle, copy_output};
use crate::kind;
use crate::path::{copy_macro, copy_path, copy_qself};
use std::alloc::Global;
use syn_lower::mac::Macro;
use syn_lower::path::{AngleBracketedGenericArguments, Path, QSelf};
use syn_lower::ty::{ReturnType, Type, TypeInfer, TypeNever};
use syn_tokens::error::{ErrorKind, Result};

/// A copy of a type. It is refused only where memory runs out.
#[tactic(auto, using(syn_lower::proofs::Makes::makes))]
pub fn copy_type(x: &Type, alloc: Global) -> Result<Type>
    ensures copied { IfOk result (λ y. type_of y ≡ type_of x.now) }
    ensures memory { IfErr result (λ e. e.kind ≡ ErrorKind.OutOfMemory) }
{
    match x {
        Type::Path(x) => Ok(Type::Path(kind::copy_type_path(alloc, x, &copy_type)?)),
        Type::Macro(x) => Ok(Type::Macro(kind::copy_type_macro(alloc, x, &copy_type)?)),
        Type::Reference(x) => Ok(Type::Reference(kind::copy_reference(alloc, x, &copy_type)?)),
        Type::Ptr(x) => Ok(Type::Ptr(kind::copy_ptr(alloc, x, &copy_type)?)),
        Type::Slice(x) => Ok(Type::Slice(kind::copy_slice(alloc, x, &copy_type)?)),
        Type::Array(x) => Ok(Type::Array(kind::copy_array(alloc, x, &copy_type)?)),
        Type::Tuple(x) => Ok(Type::Tuple(kind::copy_tuple(alloc, x, &copy_type)?)),
        Type::Paren(x) => Ok(Type::Paren(kind::copy_paren(alloc, x, &copy_type)?)),
        Type::Never(x) => Ok(Type::Never(TypeNever {
            bang_token: x.bang_token,
        })),
        Type::Infer(x) => Ok(Type::Infer(TypeInfer {
            underscore_token: x.underscore_token,
        })),
        Type::FnPtr(x) => Ok(Type::FnPtr(kind::copy_fn_ptr(alloc, x, &copy_type)?)),
        Type::ImplTrait(x) => Ok(Type::ImplTrait(kind::copy_impl_trait(alloc, x, &copy_type)?)),
        Type::TraitObject(x) => Ok(Type::TraitObject(kind::copy_trait_object(
            alloc, x, &copy_type,
        )?)),
    }
}

/// A copy of a type in a box.
pub fn copy_boxed_type(alloc: Global, x: &Box<Type>) -> Result<Box<Type>>
    ensures copied { IfOk result (λ y. type_of y.value ≡ type_of x.now.value) }
    ensures memory { IfErr result (λ e. e.kind ≡ ErrorKind.OutOfMemory) }
{
    let y = copy_type(x, alloc)?;
    Ok(Box::new(alloc, y)?)
}

/// A copy of a path.
pub fn copy_types_path(alloc: Global, x: &Path) -> Result<Path>
    ensures copied { IfOk result (λ y. path_of type_of y ≡ path_of type_of x.now) }
    ensures memory { IfErr result (λ e. e.kind ≡ ErrorKind.OutOfMemory) }
{
    copy_path(alloc, x, &copy_type)
}

/// A copy of the type in front of a path, if there is one.
pub fn copy_types_qself(alloc: Global, x: &Option<QSelf>) -> Result<Option<QSelf>>
    ensures copied { IfOk result (λ y. qself_or type_of y ≡ qself_or type_of x.now) }
    ensures memory { IfErr result (λ e. e.kind ≡ ErrorKind.OutOfMemory) }
{
    copy_qself(alloc, x, &copy_type)
}

/// A copy of the call of a macro.
pub fn copy_types_mac(alloc: Global, x: &Macro) -> Result<Macro>
    ensures copied { IfOk result (λ y. macro_of type_of y ≡ macro_of type_of x.now) }
    ensures memory { IfErr result (λ e. e.kind ≡ ErrorKind.OutOfMemory) }
{
    copy_macro(alloc, x, &copy_type)
}

/// A copy of arguments between `<` and `>`.
pub fn copy_types_angle(
    alloc: Global,
    x: &AngleBracketedGenericArguments,
) -> Result<AngleBracketedGenericArguments>
    ensures copied { IfOk result (λ y. angle_of type_of y ≡ angle_of type_of x.now) }
    ensures memory { IfErr result (λ e. e.kind ≡ ErrorKind.OutOfMemory) }
{
    copy_angle(alloc, x, &copy_type)
}

/// A copy of what a function returns.
pub fn copy_types_output(alloc: Global, x: &ReturnType) -> Result<ReturnType>
    ensures copied { IfOk result (λ y. return_of y ≡ return_of x.now) }
    ensures memory { IfErr result (λ e. e.kind ≡ ErrorKind.OutOfMemory) }
{
    copy_output(alloc, x, &copy_type)
}
