//! The readers of bounds, and of the types that have them.

ghost use Rattle.std.specs.Prelude.{◌≡◌, ◌≤◌, map, false, IfOk};
ghost use Rattle.syn_lower_leaves.specs.Reads.{Reads};
ghost use Rattle.syn_lower.specs.Reads.{Callable, ReadsType};
ghost use Rattle.syn_lower_types.specs.View as view;
ghost use Rattle.syn_lower_spec.specs.Form as form;
ghost use Rattle.syn_lower_spec.specs.Mark as mark;
ghost use Rattle.syn_lower_spec.specs.Part as part;
ghost use Rattle.syn_tokens.specs.Tok.{weight};

use super::{Grammar, boxed};
use syn_lower_leaves::front;
use syn_lower_leaves::leaf::{lifetime, lifetime_at};
use syn_lower_leaves::punctuated::Punctuated;
use syn_lower_leaves::readers::maybe_lifetimes;
use syn_lower_spec::label::PathStyle;
use syn_lower_types::ty::{TraitBoundOf, TypeImplTraitOf, TypeParamBoundOf, TypeTraitObjectOf};
use syn_lower_types::types::IsType;
use syn_tokens::buffer::ParseBuffer;
use syn_tokens::error::Result;
use syn_tokens::token::{Dyn, Impl, Plus};

impl<T: IsType + Drop, F: Fn(&mut ParseBuffer<'_>, bool) -> Result<Box<T>>> Grammar<F> {
    /// Reads a bound.
    #[tactic(auto, unfolding(syn_lower_spec::specs::Part::bound))]
    pub fn bound(&self, input: &mut ParseBuffer<'_>) -> Result<TypeParamBoundOf<T>>
        requires callable { Callable (weight input.old.rest) (F.pre self.now.ty) }
        requires reads { ReadsType T.tree (F.post self.now.ty) }
        ensures value { Reads (view.bound_of T.tree) ((part.bound part.type).reads input.old.rest) result input.new.rest }
        ensures noted { input.new.noted ≡ input.old.noted }
        ensures shrinks { weight input.new.rest ≤ weight input.old.rest }
    {
        if lifetime_at(input) {
            return Ok(TypeParamBoundOf::Lifetime(lifetime(input)?));
        }
        Ok(TypeParamBoundOf::Trait(self.trait_bound(input)?))
    }

    /// Reads a trait as a bound.
    pub fn trait_bound(&self, input: &mut ParseBuffer<'_>) -> Result<TraitBoundOf<T>>
        requires callable { Callable (weight input.old.rest) (F.pre self.now.ty) }
        requires reads { ReadsType T.tree (F.post self.now.ty) }
        ensures value { Reads (view.trait_of T.tree) ((part.trait_bound part.type).reads input.old.rest) result input.new.rest }
        ensures noted { input.new.noted ≡ input.old.noted }
        ensures shrinks { weight input.new.rest ≤ weight input.old.rest }
    {
        let maybe = front::question(input);
        let lifetimes = maybe_lifetimes(input)?;
        let path = self.path(input, PathStyle::Type)?;
        Ok(TraitBoundOf {
            maybe,
            lifetimes,
            path,
        })
    }

    /// Reads bounds with `+` between.
    #[tactic(auto, using(crate::proofs::Loops::bounds))]
    fn joined_bounds(
        &self,
        input: &mut ParseBuffer<'_>,
    ) -> Result<Punctuated<TypeParamBoundOf<T>, Plus>>
        requires callable { Callable (weight input.old.rest) (F.pre self.now.ty) }
        requires reads { ReadsType T.tree (F.post self.now.ty) }
        ensures value { Reads (λ p. map (view.bound_of T.tree) (view.values p)) ((form.joined mark.plus (part.bound part.type)).reads input.old.rest) result input.new.rest }
        ensures trails { IfOk result (λ p. view.trails p ≡ false) }
        ensures noted { input.new.noted ≡ input.old.noted }
        ensures shrinks { weight input.new.rest ≤ weight input.old.rest }
    {
        let mut found = Punctuated::new(input.alloc());
        'items: loop {
            found.push_value(self.bound(input)?)?;
            let Some(plus) = front::plus(input) else {
                return Ok(found);
            };
            found.push_punct(plus)?;
        }
    }

    /// Reads bounds with `+` between, or one where there may be only one.
    #[tactic(auto, unfolding(syn_lower_spec::specs::Part::bounds))]
    fn bounds(
        &self,
        input: &mut ParseBuffer<'_>,
        several: bool,
    ) -> Result<Punctuated<TypeParamBoundOf<T>, Plus>>
        requires callable { Callable (weight input.old.rest) (F.pre self.now.ty) }
        requires reads { ReadsType T.tree (F.post self.now.ty) }
        ensures value { Reads (λ p. (map (view.bound_of T.tree) (view.values p), view.trails p)) ((part.bounds part.type several).reads input.old.rest) result input.new.rest }
        ensures noted { input.new.noted ≡ input.old.noted }
        ensures shrinks { weight input.new.rest ≤ weight input.old.rest }
    {
        if several {
            return self.joined_bounds(input);
        }
        let mut found = Punctuated::new(input.alloc());
        found.push_value(self.bound(input)?)?;
        Ok(found)
    }

    /// Reads the bounds after `impl`.
    #[tactic(auto, unfolding(syn_lower_spec::specs::Part::implements))]
    pub(crate) fn implements(
        &self,
        input: &mut ParseBuffer<'_>,
        impl_token: Impl,
        several: bool,
    ) -> Result<Box<T>>
        requires callable { Callable (weight input.old.rest) (F.pre self.now.ty) }
        requires reads { ReadsType T.tree (F.post self.now.ty) }
        ensures value { Reads (λ x. T.tree x.value) ((part.implements part.type several).reads input.old.rest) result input.new.rest }
        ensures noted { input.new.noted ≡ input.old.noted }
        ensures shrinks { weight input.new.rest ≤ weight input.old.rest }
    {
        let bounds = self.bounds(input, several)?;
        let implements = TypeImplTraitOf { impl_token, bounds };
        Ok(boxed(input.alloc(), T::impl_trait(implements))?)
    }

    /// Reads the bounds after `dyn`.
    #[tactic(auto, unfolding(syn_lower_spec::specs::Part::object))]
    pub(crate) fn object(
        &self,
        input: &mut ParseBuffer<'_>,
        dyn_token: Dyn,
        several: bool,
    ) -> Result<Box<T>>
        requires callable { Callable (weight input.old.rest) (F.pre self.now.ty) }
        requires reads { ReadsType T.tree (F.post self.now.ty) }
        ensures value { Reads (λ x. T.tree x.value) ((part.object part.type several).reads input.old.rest) result input.new.rest }
        ensures noted { input.new.noted ≡ input.old.noted }
        ensures shrinks { weight input.new.rest ≤ weight input.old.rest }
    {
        let bounds = self.bounds(input, several)?;
        let object = TypeTraitObjectOf { dyn_token, bounds };
        Ok(boxed(input.alloc(), T::trait_object(object))?)
    }
}
