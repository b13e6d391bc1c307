//! Whether parts are read back from their own tokens.
//!
//! A user may build parts that no tokens spell, or whose own tokens spell another part: a path of a reserved word, a tuple
//! of one type without a comma, `dyn A + B` after `&`. A part is read back in its place where the grammar of that place
//! spells it by its own tokens with nothing after; then it is read back before whatever doesn't go on with it too
//! (`syn_laws::laws::parts_are_read_back`). Lifetimes, attributes, blocks, `for<..>`, `mut` and `const`, `!` and `_`
//! always are, so they have no test.

ghost use Rattle.std.specs.Prelude.{◌≡◌, true, false, if◌then◌else◌};
ghost use Rattle.syn_lower_types.specs.View as view;
ghost use Rattle.syn_lower_spec.specs.Fits as spec;

use crate::fits;
use crate::mac::MacroOf;
use crate::path::{
    AngleBracketedGenericArgumentsOf, AssocTypeOf, GenericArgumentOf,
    ParenthesizedGenericArgumentsOf, PathArgumentsOf, PathOf, PathSegmentOf, QSelfOf, style,
};
use crate::ty::{
    BareFnArgOf, ReturnTypeOf, TraitBoundOf, TypeArrayOf, TypeFnPtrOf, TypeImplTraitOf,
    TypeMacroOf, TypeParamBoundOf, TypeParenOf, TypePathOf, TypePtrOf, TypeReferenceOf,
    TypeSliceOf, TypeTraitObjectOf, TypeTupleOf,
};
use crate::types::FitTypes;
use syn_lower_leaves::fits::{Element, bounds_fit, is_one};
use syn_lower_spec::label::PathStyle;

impl<T: FitTypes> PathOf<T> {
    /// Whether it is read back as a path of this style (Rust Reference, "Paths"): it has segments, no `::` ends it, and
    /// each segment is read back.
    pub fn is_read_back(&self, style: PathStyle) -> bool
        ensures { result ≡ spec.path_fits style (view.path_of T.tree self.now) }
    {
        fits::path_fits(0, style, self)
    }
}

/// Whether a path and the type that it is qualified by, if there is one, are read back by `qpath`, in an expression's style
/// or in a type's (Rust Reference, "Paths", "Qualified paths"). After `as` one segment at least comes before `>` and one
/// after it; without `as` none comes before it, and the path begins with `::`.
pub fn qpath_is_read_back<T: FitTypes>(
    qself: &Option<QSelfOf<T>>,
    path: &PathOf<T>,
    expr_style: bool,
) -> bool
    ensures { result ≡ spec.qpath_fits (if expr_style then PathStyle.Expr else PathStyle.Type) (view.qself_or T.tree qself.now, view.path_of T.tree path.now) }
{
    fits::qpath_fits(qself, path, style(expr_style))
}

impl<T: FitTypes> PathSegmentOf<T> {
    /// Whether it is read back in a path of this style: its word is no reserved one but `Self`, `self`, `super`, `crate` and
    /// `try`, the last four have no arguments, and the arguments are read back.
    pub fn is_read_back(&self, style: PathStyle) -> bool
        ensures { result ≡ spec.segment_fits style (view.segment_of T.tree self.now) }
    {
        fits::segment_fits(self, style)
    }
}

impl<T: FitTypes> PathArgumentsOf<T> {
    /// Whether they are read back in a path of this style: `::<..>` in an expression's, `<..>` and `(..)` too in a type's,
    /// none in a macro's.
    pub fn is_read_back(&self, style: PathStyle) -> bool
        ensures { result ≡ spec.arguments_fit style (view.arguments_of T.tree self.now) }
    {
        fits::arguments_fit(self, style)
    }
}

impl<T: FitTypes> AngleBracketedGenericArgumentsOf<T> {
    /// Whether they are read back in a path of this style: in an expression's `::` is in front.
    pub fn is_read_back(&self, style: PathStyle) -> bool
        ensures { result ≡ spec.arguments_fit style (view.angle_of T.tree self.now) }
    {
        fits::angle_fits(self, style)
    }
}

impl<T: FitTypes> ParenthesizedGenericArgumentsOf<T> {
    /// Whether they are read back in a path of a type.
    pub fn is_read_back(&self) -> bool
        ensures { result ≡ spec.arguments_fit PathStyle.Type (view.round_of T.tree self.now) }
    {
        fits::round_fits(self)
    }
}

impl<T: FitTypes> GenericArgumentOf<T> {
    /// Whether it is read back between `<` and `>`: tokens are a literal, `-` and a number, or a brace group.
    pub fn is_read_back(&self) -> bool
        ensures { result ≡ spec.generic_fits (view.generic_of T.tree self.now) }
    {
        self.fits()
    }
}

impl<T: FitTypes> AssocTypeOf<T> {
    /// Whether it is read back between `<` and `>`: its name is an identifier, and its type is read back.
    pub fn is_read_back(&self) -> bool
        ensures { result ≡ spec.generic_fits (view.assoc_of T.tree self.now) }
    {
        fits::assoc_fits(self)
    }
}

impl<T: FitTypes> ReturnTypeOf<T> {
    /// Whether it is read back; after its `impl` or `dyn` there may be several bounds, or one.
    pub fn is_read_back(&self, several: bool) -> bool
        ensures { result ≡ spec.output_fits several (view.return_of T.tree self.now) }
    {
        fits::output_fits(self, several)
    }
}

impl<T: FitTypes> TypeParamBoundOf<T> {
    /// Whether it is read back: a lifetime always is, a trait where its path is.
    #[tactic(auto, using(crate::proofs::Fitting::kinds))]
    pub fn is_read_back(&self) -> bool
        ensures { result ≡ spec.bound_fits (view.bound_of T.tree self.now) }
    {
        match self {
            TypeParamBoundOf::Lifetime(_) => true,
            TypeParamBoundOf::Trait(x) => x.is_read_back(),
        }
    }
}

impl<T: FitTypes> TraitBoundOf<T> {
    /// Whether its path is read back as in a type.
    #[tactic(auto, using(crate::proofs::Fitting::kinds))]
    pub fn is_read_back(&self) -> bool
        ensures { result ≡ spec.bound_fits (view.trait_of T.tree self.now) }
    {
        self.path.is_read_back(PathStyle::Type)
    }
}

impl<T: FitTypes> MacroOf<T> {
    /// Whether its path is read back as one without arguments.
    #[tactic(auto, using(crate::proofs::Fitting::macros))]
    pub fn is_read_back(&self) -> bool
        ensures { result ≡ spec.macro_fits (view.macro_of T.tree self.now) }
    {
        self.path.is_read_back(PathStyle::Mod)
    }
}

impl<T: FitTypes> BareFnArgOf<T> {
    /// Whether its name is an identifier or `_`, if it has one, and its type is read back.
    #[tactic(auto, using(crate::proofs::Fitting::args))]
    pub fn is_read_back(&self) -> bool
        ensures { result ≡ spec.arg_fits (view.arg_of T.tree self.now) }
    {
        fits::arg_fits(self)
    }
}

impl<T: FitTypes> TypePathOf<T> {
    /// Whether it is read back as a type.
    pub fn is_read_back(&self) -> bool
        ensures { result ≡ spec.type_fits true (view.type_path_of T.tree self.now) }
    {
        fits::qpath_fits(&self.qself, &self.path, PathStyle::Type)
    }
}

impl<T: FitTypes> TypeMacroOf<T> {
    /// Whether it is read back as a type: its path is one without arguments.
    pub fn is_read_back(&self) -> bool
        ensures { result ≡ spec.type_fits true (view.type_macro_of T.tree self.now) }
    {
        self.mac.is_read_back()
    }
}

impl<T: FitTypes> TypeReferenceOf<T> {
    /// Whether it is read back as a type: what it points to is, with one bound.
    pub fn is_read_back(&self) -> bool
        ensures { result ≡ spec.type_fits true (view.reference_of T.tree self.now) }
    {
        self.elem.fits_where(false)
    }
}

impl<T: FitTypes> TypePtrOf<T> {
    /// Whether it is read back as a type: what it points to is, with one bound.
    pub fn is_read_back(&self) -> bool
        ensures { result ≡ spec.type_fits true (view.ptr_of T.tree self.now) }
    {
        T::fits_where(&self.elem, false)
    }
}

impl<T: FitTypes> TypeSliceOf<T> {
    /// Whether it is read back as a type: its elements' type is.
    pub fn is_read_back(&self) -> bool
        ensures { result ≡ spec.type_fits true (view.slice_of T.tree self.now) }
    {
        self.elem.fits_where(true)
    }
}

impl<T: FitTypes> TypeArrayOf<T> {
    /// Whether it is read back as a type: its elements' type is, and its length has tokens.
    pub fn is_read_back(&self) -> bool
        ensures { result ≡ spec.type_fits true (view.array_of T.tree self.now) }
    {
        !self.len.is_empty() && self.elem.fits_where(true)
    }
}

impl<T: FitTypes> TypeTupleOf<T> {
    /// Whether it is read back as a type: its types are, and after one type alone there is a comma.
    pub fn is_read_back(&self) -> bool
        ensures { result ≡ spec.type_fits true (view.tuple_of T.tree self.now) }
    {
        fits::types_fit(&self.elems) && !is_one(&self.elems)
    }
}

impl<T: FitTypes> TypeParenOf<T> {
    /// Whether it is read back as a type: the type in it is.
    pub fn is_read_back(&self) -> bool
        ensures { result ≡ spec.type_fits true (view.paren_of T.tree self.now) }
    {
        T::fits_where(&self.elem, true)
    }
}

impl<T: FitTypes> TypeFnPtrOf<T> {
    /// Whether it is read back as a type: what comes after `extern` is a string, and the arguments and the output are read
    /// back.
    pub fn is_read_back(&self) -> bool
        ensures { result ≡ spec.type_fits true (view.fn_ptr_of T.tree self.now) }
    {
        fits::fn_ptr_fits(self)
    }
}

impl<T: FitTypes> TypeImplTraitOf<T> {
    /// Whether it is read back as a type where there may be several bounds, or one: it has a bound, each is read back, and no
    /// `+` ends them.
    pub fn is_read_back(&self, several: bool) -> bool
        ensures { result ≡ spec.type_fits several (view.impl_trait_of T.tree self.now) }
    {
        bounds_fit(&self.bounds, several)
    }
}

impl<T: FitTypes> TypeTraitObjectOf<T> {
    /// Whether it is read back as a type where there may be several bounds, or one: it has a bound, each is read back, and no
    /// `+` ends them.
    pub fn is_read_back(&self, several: bool) -> bool
        ensures { result ≡ spec.type_fits several (view.trait_object_of T.tree self.now) }
    {
        let TypeTraitObjectOf { bounds, .. } = self;
        bounds_fit(bounds, several)
    }
}
