//! Equality of the lower parts and of expressions, which ignores their places: what their derived `==` answers, as contracts
//! of functions that do nothing. Attributes before a node and in its braces count in their order, and a guard with the
//! pattern before it: the tree shows both.

ghost use Rattle.std.specs.Prelude.{◌≡◌};
ghost use Rattle.syn_expr_core.specs.declared.expr.Expr.{Expr};
ghost use Rattle.syn_lower_spec.specs.Equal.{IsEqualityOf};
ghost use Rattle.syn_lower.specs.View.{abi_of, angle_of, arg_of, arguments_of, assoc_of, bound_of, generic_of, is_mut, lifetimes_of, macro_of, path_of, qself_of, return_of, round_of, segment_of, trait_of, type_of};
ghost use Rattle.syn_lower.specs.declared.ty.«Type».TheVariants as ty;
ghost use Rattle.syn_expr_core.specs.View.{arm_of, let_of, match_of, closure_of, for_loop_of, guard_of, pat_of, tree_of};
ghost use Rattle.syn_expr_ast.specs.View.{field_value_of};

use std::hash::Hash;
use syn_expr_core::expr::{Arm, Expr, ExprClosure, ExprForLoop, ExprLet, ExprMatch, FieldValue};
use syn_expr_core::{Pat, PatGuard};
use syn_lower::mac::Macro;
use syn_lower::path::{
    AngleBracketedGenericArguments, AssocType, GenericArgument, ParenthesizedGenericArguments,
    Path, PathArguments, PathSegment, QSelf,
};
use syn_lower::ty::{
    Abi, BareFnArg, BoundLifetimes, PointerMutability, ReturnType, TraitBound, Type, TypeArray,
    TypeFnPtr, TypeImplTrait, TypeInfer, TypeMacro, TypeNever, TypeParamBound, TypeParen, TypePath,
    TypePtr, TypeReference, TypeSlice, TypeTraitObject, TypeTuple,
};

/// Two paths, parts of paths, or calls of macros are equal exactly where their trees are.
#[tactic(auto, using(crate::proofs::LowerSames::sames))]
pub fn equal_paths()
    ensures path { IsEqualityOf (path_of type_of) ⟦<Path as PartialEq>⟧.eq }
    ensures segment { IsEqualityOf (segment_of type_of) ⟦<PathSegment as PartialEq>⟧.eq }
    ensures arguments { IsEqualityOf arguments_of ⟦<PathArguments as PartialEq>⟧.eq }
    ensures angle { IsEqualityOf (angle_of type_of) ⟦<AngleBracketedGenericArguments as PartialEq>⟧.eq }
    ensures round { IsEqualityOf round_of ⟦<ParenthesizedGenericArguments as PartialEq>⟧.eq }
    ensures generic { IsEqualityOf generic_of ⟦<GenericArgument as PartialEq>⟧.eq }
    ensures assoc { IsEqualityOf (assoc_of type_of) ⟦<AssocType as PartialEq>⟧.eq }
    ensures mac { IsEqualityOf (macro_of type_of) ⟦<Macro as PartialEq>⟧.eq }
    ensures qself { IsEqualityOf (qself_of type_of) ⟦<QSelf as PartialEq>⟧.eq }
{}

/// Two types of any kind, or of one kind, are equal exactly where their trees are.
#[tactic(auto, using(crate::proofs::LowerSames::sames))]
pub fn equal_types()
    ensures any { IsEqualityOf type_of ⟦<Type as PartialEq>⟧.eq }
    ensures path { IsEqualityOf (λ x. type_of (ty.Path x)) ⟦<TypePath as PartialEq>⟧.eq }
    ensures mac { IsEqualityOf (λ x. type_of (ty.Macro x)) ⟦<TypeMacro as PartialEq>⟧.eq }
    ensures reference { IsEqualityOf (λ x. type_of (ty.Reference x)) ⟦<TypeReference as PartialEq>⟧.eq }
    ensures ptr { IsEqualityOf (λ x. type_of (ty.Ptr x)) ⟦<TypePtr as PartialEq>⟧.eq }
    ensures slice { IsEqualityOf (λ x. type_of (ty.Slice x)) ⟦<TypeSlice as PartialEq>⟧.eq }
    ensures array { IsEqualityOf (λ x. type_of (ty.Array x)) ⟦<TypeArray as PartialEq>⟧.eq }
    ensures tuple { IsEqualityOf (λ x. type_of (ty.Tuple x)) ⟦<TypeTuple as PartialEq>⟧.eq }
    ensures paren { IsEqualityOf (λ x. type_of (ty.Paren x)) ⟦<TypeParen as PartialEq>⟧.eq }
    ensures never { IsEqualityOf (λ x. type_of (ty.Never x)) ⟦<TypeNever as PartialEq>⟧.eq }
    ensures infer { IsEqualityOf (λ x. type_of (ty.Infer x)) ⟦<TypeInfer as PartialEq>⟧.eq }
    ensures fn_ptr { IsEqualityOf (λ x. type_of (ty.FnPtr x)) ⟦<TypeFnPtr as PartialEq>⟧.eq }
    ensures impl_trait { IsEqualityOf (λ x. type_of (ty.ImplTrait x)) ⟦<TypeImplTrait as PartialEq>⟧.eq }
    ensures trait_object { IsEqualityOf (λ x. type_of (ty.TraitObject x)) ⟦<TypeTraitObject as PartialEq>⟧.eq }
{}

/// Two parts of types are equal exactly where their trees are.
#[tactic(auto, using(crate::proofs::LowerSames::sames))]
pub fn equal_parts_of_types()
    ensures mutability { IsEqualityOf is_mut ⟦<PointerMutability as PartialEq>⟧.eq }
    ensures abi { IsEqualityOf abi_of ⟦<Abi as PartialEq>⟧.eq }
    ensures argument { IsEqualityOf (arg_of type_of) ⟦<BareFnArg as PartialEq>⟧.eq }
    ensures output { IsEqualityOf return_of ⟦<ReturnType as PartialEq>⟧.eq }
    ensures bound { IsEqualityOf bound_of ⟦<TypeParamBound as PartialEq>⟧.eq }
    ensures trait_bound { IsEqualityOf (trait_of type_of) ⟦<TraitBound as PartialEq>⟧.eq }
    ensures lifetimes { IsEqualityOf lifetimes_of ⟦<BoundLifetimes as PartialEq>⟧.eq }
{}

/// Two expressions, patterns, arms or fields are equal exactly where their trees are.
#[tactic(auto, using(crate::proofs::Sames::sames))]
pub fn equal_expressions()
    ensures expr { IsEqualityOf tree_of ⟦<Expr as PartialEq>⟧.eq }
    ensures pat { IsEqualityOf pat_of ⟦<Pat as PartialEq>⟧.eq }
    ensures arm { IsEqualityOf arm_of ⟦<Arm as PartialEq>⟧.eq }
    ensures field { IsEqualityOf (field_value_of tree_of) ⟦<FieldValue as PartialEq>⟧.eq }
{}

/// What is fed to a hasher of an expression depends on its tree alone: its places are not.
pub fn equal_expressions_hash_alike()
    ensures { (x y : Expr) → tree_of x ≡ tree_of y → ⟦<Expr as Hash>⟧.hash_input x ≡ ⟦<Expr as Hash>⟧.hash_input y }
{}

/// Two structs of a kind that holds patterns are equal exactly where their trees are.
#[tactic(auto, using(crate::proofs::Sames::sames))]
pub fn equal_kinds_with_patterns()
    ensures closure { IsEqualityOf closure_of ⟦<ExprClosure as PartialEq>⟧.eq }
    ensures for_loop { IsEqualityOf for_loop_of ⟦<ExprForLoop as PartialEq>⟧.eq }
    ensures let_expr { IsEqualityOf let_of ⟦<ExprLet as PartialEq>⟧.eq }
    ensures match_expr { IsEqualityOf match_of ⟦<ExprMatch as PartialEq>⟧.eq }
    ensures guard { IsEqualityOf guard_of ⟦<PatGuard as PartialEq>⟧.eq }
{}
