//! What follows of the printers, the readers and the tests together, as contracts of functions that do nothing.

ghost use Rattle.std.specs.Prelude.{Bool, true, false, [], if◌then◌else◌};
ghost use Rattle.syn_lower.specs.ReadBack.{PrintsOwn, IsReadBack, IsRead, qpath_of};
ghost use Rattle.syn_lower.specs.View as view;
ghost use Rattle.syn_lower_types.specs.declared.path.GenericArgumentOf.TheVariants as generic;
ghost use Rattle.syn_lower_types.specs.declared.path.PathArgumentsOf.TheVariants as arguments;
ghost use Rattle.syn_lower_types.specs.declared.ty.TypeParamBoundOf.TheVariants as bound;
ghost use Rattle.syn_lower.specs.declared.ty.«Type».TheVariants as ty;
ghost use Rattle.syn_lower_spec.specs.Fits as fits;
ghost use Rattle.syn_lower_spec.specs.Fits.{closed};
ghost use Rattle.syn_lower_spec.specs.Own as own;
ghost use Rattle.syn_lower_spec.specs.Part as part;
ghost use Rattle.syn_lower_spec.specs.declared.label.PathStyle.TheVariants as style;

use syn_lower::mac::Macro;
use syn_lower::path::{
    AngleBracketedGenericArguments, AssocType, GenericArgument, ParenthesizedGenericArguments,
    Path, PathArguments, PathSegment,
};
use syn_lower::ty::{
    Abi, BareFnArg, BoundLifetimes, PointerMutability, ReturnType, TraitBound, Type, TypeArray,
    TypeFnPtr, TypeImplTrait, TypeInfer, TypeMacro, TypeNever, TypeParamBound, TypeParen, TypePath,
    TypePtr, TypeReference, TypeSlice, TypeTraitObject, TypeTuple,
};
use syn_tokens::buffer::{Parse, ToTokens};

/// What is printed of a part that holds others is its own tokens, as a part of them.
pub fn own_tokens_are_printed()
    ensures paths { PrintsOwn ⟦<Path as ToTokens>⟧.printed (λ x. own.path_own (view.path_of view.type_of x)) }
    ensures segments { PrintsOwn ⟦<PathSegment as ToTokens>⟧.printed (λ x. own.segment_own (view.segment_of view.type_of x)) }
    ensures path_arguments { PrintsOwn ⟦<PathArguments as ToTokens>⟧.printed (λ x. own.arguments_own (view.arguments_of x)) }
    ensures generic_arguments { PrintsOwn ⟦<GenericArgument as ToTokens>⟧.printed (λ x. own.generic_own (view.generic_of x)) }
    ensures parenthesized { PrintsOwn ⟦<ParenthesizedGenericArguments as ToTokens>⟧.printed (λ x. own.arguments_own (view.round_of x)) }
    ensures outputs { PrintsOwn ⟦<ReturnType as ToTokens>⟧.printed (λ x. own.return_own (view.return_of x)) }
    ensures bounds { PrintsOwn ⟦<TypeParamBound as ToTokens>⟧.printed (λ x. own.bound_own (view.bound_of x)) }
    ensures angle_bracketed { PrintsOwn ⟦<AngleBracketedGenericArguments as ToTokens>⟧.printed (λ x. own.arguments_own (view.arguments_of (arguments.AngleBracketed x))) }
    ensures associated_types { PrintsOwn ⟦<AssocType as ToTokens>⟧.printed (λ x. own.generic_own (view.generic_of (generic.AssocType x))) }
    ensures macros { PrintsOwn ⟦<Macro as ToTokens>⟧.printed (λ x. own.macro_own (view.macro_of view.type_of x)) }
    ensures trait_bounds { PrintsOwn ⟦<TraitBound as ToTokens>⟧.printed (λ x. own.bound_own (view.bound_of (bound.Trait x))) }
    ensures fn_args { PrintsOwn ⟦<BareFnArg as ToTokens>⟧.printed (λ x. own.arg_own (view.arg_of view.type_of x)) }
    ensures type_paths { PrintsOwn ⟦<TypePath as ToTokens>⟧.printed (λ x. own.type_own (view.type_of (ty.Path x))) }
    ensures fn_pointers { PrintsOwn ⟦<TypeFnPtr as ToTokens>⟧.printed (λ x. own.type_own (view.type_of (ty.FnPtr x))) }
    ensures macro_types { PrintsOwn ⟦<TypeMacro as ToTokens>⟧.printed (λ x. own.type_own (view.type_of (ty.Macro x))) }
    ensures references { PrintsOwn ⟦<TypeReference as ToTokens>⟧.printed (λ x. own.type_own (view.type_of (ty.Reference x))) }
    ensures pointers { PrintsOwn ⟦<TypePtr as ToTokens>⟧.printed (λ x. own.type_own (view.type_of (ty.Ptr x))) }
    ensures slices { PrintsOwn ⟦<TypeSlice as ToTokens>⟧.printed (λ x. own.type_own (view.type_of (ty.Slice x))) }
    ensures arrays { PrintsOwn ⟦<TypeArray as ToTokens>⟧.printed (λ x. own.type_own (view.type_of (ty.Array x))) }
    ensures tuples { PrintsOwn ⟦<TypeTuple as ToTokens>⟧.printed (λ x. own.type_own (view.type_of (ty.Tuple x))) }
    ensures parens { PrintsOwn ⟦<TypeParen as ToTokens>⟧.printed (λ x. own.type_own (view.type_of (ty.Paren x))) }
    ensures nevers { PrintsOwn ⟦<TypeNever as ToTokens>⟧.printed (λ x. own.type_own (view.type_of (ty.Never x))) }
    ensures infers { PrintsOwn ⟦<TypeInfer as ToTokens>⟧.printed (λ x. own.type_own (view.type_of (ty.Infer x))) }
    ensures impl_traits { PrintsOwn ⟦<TypeImplTrait as ToTokens>⟧.printed (λ x. own.type_own (view.type_of (ty.ImplTrait x))) }
    ensures trait_objects { PrintsOwn ⟦<TypeTraitObject as ToTokens>⟧.printed (λ x. own.type_own (view.type_of (ty.TraitObject x))) }
{}

/// Each part that passes its test is read back: printed before a rest that doesn't go on with it, it is what its reader
/// finds, and that rest is what is left.
pub fn parts_are_read_back()
    ensures types { IsReadBack (λ x. fits.type_fits true (view.type_of x)) (λ x. fits.type_stops true (view.type_of x)) ⟦<Type as ToTokens>⟧.printed ⟦<Type as Parse>⟧.seen ⟦<Type as Parse>⟧.spells }
    // `Type::without_plus`
    ensures one_bound_types { IsReadBack (λ x. fits.type_fits false (view.type_of x)) (λ x. fits.type_stops false (view.type_of x)) ⟦<Type as ToTokens>⟧.printed view.type_of (IsRead (part.type false)) }
    ensures paths { IsReadBack (λ x. fits.path_fits style.Type (view.path_of view.type_of x)) (λ x. fits.path_stops style.Type (view.path_of view.type_of x)) ⟦<Path as ToTokens>⟧.printed ⟦<Path as Parse>⟧.seen ⟦<Path as Parse>⟧.spells }
    // `Path::parse_mod_style`
    ensures bare_paths { IsReadBack (λ x. fits.path_fits style.Mod (view.path_of view.type_of x)) (λ x. fits.path_stops style.Mod (view.path_of view.type_of x)) ⟦<Path as ToTokens>⟧.printed (view.path_of view.type_of) (IsRead (part.path part.type style.Mod)) }
    // `qpath` and `print_qpath`
    ensures qualified_paths { (expr_style : Bool) → IsReadBack (λ q. fits.qpath_fits (if expr_style then style.Expr else style.Type) (qpath_of q)) (λ q. fits.path_stops (if expr_style then style.Expr else style.Type) ((qpath_of q).1)) (λ q. own.qualified_own (qpath_of q) []) qpath_of (IsRead (part.qpath part.type (if expr_style then style.Expr else style.Type))) }
    ensures segments { IsReadBack (λ x. fits.segment_fits style.Type (view.segment_of view.type_of x)) (λ x. fits.segment_stops style.Type (view.segment_of view.type_of x)) ⟦<PathSegment as ToTokens>⟧.printed ⟦<PathSegment as Parse>⟧.seen ⟦<PathSegment as Parse>⟧.spells }
    ensures generic_arguments { IsReadBack (λ x. fits.generic_fits (view.generic_of x)) (λ x. fits.generic_stops (view.generic_of x)) ⟦<GenericArgument as ToTokens>⟧.printed ⟦<GenericArgument as Parse>⟧.seen ⟦<GenericArgument as Parse>⟧.spells }
    ensures bounds { IsReadBack (λ x. fits.bound_fits (view.bound_of x)) (λ x. fits.bound_stops (view.bound_of x)) ⟦<TypeParamBound as ToTokens>⟧.printed ⟦<TypeParamBound as Parse>⟧.seen ⟦<TypeParamBound as Parse>⟧.spells }
    ensures macros { IsReadBack (λ x. fits.macro_fits (view.macro_of view.type_of x)) closed ⟦<Macro as ToTokens>⟧.printed ⟦<Macro as Parse>⟧.seen ⟦<Macro as Parse>⟧.spells }
    ensures bound_lifetimes { IsReadBack (λ x. true) closed ⟦<BoundLifetimes as ToTokens>⟧.printed ⟦<BoundLifetimes as Parse>⟧.seen ⟦<BoundLifetimes as Parse>⟧.spells }
{}

/// The same of the parts of paths, of function pointers and of bounds that have readers of their own.
pub fn pieces_are_read_back()
    ensures outputs { IsReadBack (λ x. fits.output_fits true (view.return_of x)) (λ x. fits.output_stops true (view.return_of x)) ⟦<ReturnType as ToTokens>⟧.printed ⟦<ReturnType as Parse>⟧.seen ⟦<ReturnType as Parse>⟧.spells }
    ensures angle_bracketed { IsReadBack (λ x. fits.arguments_fit style.Type (view.arguments_of (arguments.AngleBracketed x))) closed ⟦<AngleBracketedGenericArguments as ToTokens>⟧.printed ⟦<AngleBracketedGenericArguments as Parse>⟧.seen ⟦<AngleBracketedGenericArguments as Parse>⟧.spells }
    ensures parenthesized { IsReadBack (λ x. fits.arguments_fit style.Type (view.arguments_of (arguments.Parenthesized x))) (λ x. fits.after_name_stops style.Type (view.round_of x)) ⟦<ParenthesizedGenericArguments as ToTokens>⟧.printed ⟦<ParenthesizedGenericArguments as Parse>⟧.seen ⟦<ParenthesizedGenericArguments as Parse>⟧.spells }
    ensures associated_types { IsReadBack (λ x. fits.generic_fits (view.generic_of (generic.AssocType x))) (λ x. fits.type_stops true (view.type_of x.ty)) ⟦<AssocType as ToTokens>⟧.printed ⟦<AssocType as Parse>⟧.seen ⟦<AssocType as Parse>⟧.spells }
    ensures mutabilities { IsReadBack (λ x. true) closed ⟦<PointerMutability as ToTokens>⟧.printed ⟦<PointerMutability as Parse>⟧.seen ⟦<PointerMutability as Parse>⟧.spells }
    ensures abis { IsReadBack (λ x. fits.fits_if fits.is_string (view.abi_of x)) (λ x. fits.abi_stops (view.abi_of x)) ⟦<Abi as ToTokens>⟧.printed ⟦<Abi as Parse>⟧.seen ⟦<Abi as Parse>⟧.spells }
    ensures fn_args { IsReadBack (λ x. fits.arg_fits (view.arg_of view.type_of x)) (λ x. fits.arg_stops (view.arg_of view.type_of x)) ⟦<BareFnArg as ToTokens>⟧.printed ⟦<BareFnArg as Parse>⟧.seen ⟦<BareFnArg as Parse>⟧.spells }
    ensures trait_bounds { IsReadBack (λ x. fits.bound_fits (view.bound_of (bound.Trait x))) (λ x. fits.bound_stops (view.bound_of (bound.Trait x))) ⟦<TraitBound as ToTokens>⟧.printed ⟦<TraitBound as Parse>⟧.seen ⟦<TraitBound as Parse>⟧.spells }
{}

/// The same of each kind of type, as a struct.
pub fn kinds_of_types_are_read_back()
    ensures paths { IsReadBack (λ x. fits.qpath_fits style.Type (view.qself_or view.type_of x.qself, view.path_of view.type_of x.path)) (λ x. fits.path_stops style.Type (view.path_of view.type_of x.path)) ⟦<TypePath as ToTokens>⟧.printed ⟦<TypePath as Parse>⟧.seen ⟦<TypePath as Parse>⟧.spells }
    ensures macros { IsReadBack (λ x. fits.type_fits true (view.type_of (ty.Macro x))) closed ⟦<TypeMacro as ToTokens>⟧.printed ⟦<TypeMacro as Parse>⟧.seen ⟦<TypeMacro as Parse>⟧.spells }
    ensures references { IsReadBack (λ x. fits.type_fits true (view.type_of (ty.Reference x))) (λ x. fits.type_stops true (view.type_of (ty.Reference x))) ⟦<TypeReference as ToTokens>⟧.printed ⟦<TypeReference as Parse>⟧.seen ⟦<TypeReference as Parse>⟧.spells }
    ensures pointers { IsReadBack (λ x. fits.type_fits true (view.type_of (ty.Ptr x))) (λ x. fits.type_stops true (view.type_of (ty.Ptr x))) ⟦<TypePtr as ToTokens>⟧.printed ⟦<TypePtr as Parse>⟧.seen ⟦<TypePtr as Parse>⟧.spells }
    ensures slices { IsReadBack (λ x. fits.type_fits true (view.type_of (ty.Slice x))) closed ⟦<TypeSlice as ToTokens>⟧.printed ⟦<TypeSlice as Parse>⟧.seen ⟦<TypeSlice as Parse>⟧.spells }
    ensures arrays { IsReadBack (λ x. fits.type_fits true (view.type_of (ty.Array x))) closed ⟦<TypeArray as ToTokens>⟧.printed ⟦<TypeArray as Parse>⟧.seen ⟦<TypeArray as Parse>⟧.spells }
    ensures tuples { IsReadBack (λ x. fits.type_fits true (view.type_of (ty.Tuple x))) closed ⟦<TypeTuple as ToTokens>⟧.printed ⟦<TypeTuple as Parse>⟧.seen ⟦<TypeTuple as Parse>⟧.spells }
    ensures parens { IsReadBack (λ x. fits.type_fits true (view.type_of (ty.Paren x))) closed ⟦<TypeParen as ToTokens>⟧.printed ⟦<TypeParen as Parse>⟧.seen ⟦<TypeParen as Parse>⟧.spells }
    ensures nevers { IsReadBack (λ x. true) closed ⟦<TypeNever as ToTokens>⟧.printed ⟦<TypeNever as Parse>⟧.seen ⟦<TypeNever as Parse>⟧.spells }
    ensures infers { IsReadBack (λ x. true) closed ⟦<TypeInfer as ToTokens>⟧.printed ⟦<TypeInfer as Parse>⟧.seen ⟦<TypeInfer as Parse>⟧.spells }
    ensures fn_pointers { IsReadBack (λ x. fits.type_fits true (view.type_of (ty.FnPtr x))) (λ x. fits.type_stops true (view.type_of (ty.FnPtr x))) ⟦<TypeFnPtr as ToTokens>⟧.printed ⟦<TypeFnPtr as Parse>⟧.seen ⟦<TypeFnPtr as Parse>⟧.spells }
    ensures impl_traits { IsReadBack (λ x. fits.type_fits true (view.type_of (ty.ImplTrait x))) (λ x. fits.type_stops true (view.type_of (ty.ImplTrait x))) ⟦<TypeImplTrait as ToTokens>⟧.printed ⟦<TypeImplTrait as Parse>⟧.seen ⟦<TypeImplTrait as Parse>⟧.spells }
    ensures trait_objects { IsReadBack (λ x. fits.type_fits true (view.type_of (ty.TraitObject x))) (λ x. fits.type_stops true (view.type_of (ty.TraitObject x))) ⟦<TypeTraitObject as ToTokens>⟧.printed ⟦<TypeTraitObject as Parse>⟧.seen ⟦<TypeTraitObject as Parse>⟧.spells }
{}
