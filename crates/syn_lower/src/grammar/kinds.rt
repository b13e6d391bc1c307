//! The readers of references, pointers, slices, arrays, tuples and types in parentheses.

ghost use Rattle.std.specs.Prelude.{◌≡◌, ◌≤◌, ◌+◌};
ghost use Rattle.syn_lexer.specs.declared.front.Delimiter.TheVariants as del;
ghost use Rattle.syn_lower_leaves.specs.Reads.{Reads};
ghost use Rattle.syn_lower.specs.Reads.{Callable, ReadsType};
ghost use Rattle.syn_lower_spec.specs.Form as form;
ghost use Rattle.syn_lower_spec.specs.Part as part;
ghost use Rattle.syn_tokens.specs.Tok.{weight};

use super::{Grammar, boxed};
use syn_lower_leaves::front;
use syn_lower_leaves::leaf::rest_of;
use syn_lower_leaves::readers::{maybe_lifetime, pointer_mutability};
use syn_lower_types::ty::{
    TypeArrayOf, TypeParenOf, TypePtrOf, TypeReferenceOf, TypeSliceOf, TypeTupleOf,
};
use syn_lower_types::types::IsType;
use syn_tokens::buffer::ParseBuffer;
use syn_tokens::error::{ErrorKind, Result};
use syn_tokens::token::{And, Bracket, Paren, Star};

impl<T: IsType + Drop, F: Fn(&mut ParseBuffer<'_>, bool) -> Result<Box<T>>> Grammar<F> {
    /// Reads a reference after its `&`.
    #[tactic(auto, unfolding(syn_lower_spec::specs::Part::reference))]
    pub(crate) fn reference(&self, input: &mut ParseBuffer<'_>, and_token: And) -> Result<Box<T>>
        requires callable { Callable (weight input.old.rest + 1) (F.pre self.now.ty) }
        requires reads { ReadsType T.tree (F.post self.now.ty) }
        ensures value { Reads (λ x. T.tree x.value) ((part.reference part.type).reads input.old.rest) result input.new.rest }
        ensures noted { input.new.noted ≡ input.old.noted }
        ensures shrinks { weight input.new.rest ≤ weight input.old.rest }
    {
        let lifetime = maybe_lifetime(input)?;
        let mutability = front::mutable(input);
        let elem = (self.ty)(input, false)?;
        let reference = TypeReferenceOf {
            and_token,
            lifetime,
            mutability,
            elem,
        };
        Ok(boxed(input.alloc(), T::reference(reference))?)
    }

    /// Reads a pointer after its `*`.
    #[tactic(auto, unfolding(syn_lower_spec::specs::Part::pointer))]
    pub(crate) fn pointer(&self, input: &mut ParseBuffer<'_>, star_token: Star) -> Result<Box<T>>
        requires callable { Callable (weight input.old.rest + 1) (F.pre self.now.ty) }
        requires reads { ReadsType T.tree (F.post self.now.ty) }
        ensures value { Reads (λ x. T.tree x.value) ((part.pointer part.type).reads input.old.rest) result input.new.rest }
        ensures noted { input.new.noted ≡ input.old.noted }
        ensures shrinks { weight input.new.rest ≤ weight input.old.rest }
    {
        let mutability = pointer_mutability(input)?;
        let elem = (self.ty)(input, false)?;
        let pointer = TypePtrOf {
            star_token,
            mutability,
            elem,
        };
        Ok(boxed(input.alloc(), T::ptr(pointer))?)
    }

    /// Reads the inside of the brackets of a slice or an array.
    #[tactic(auto, unfolding(syn_lower_spec::specs::Part::slice_or_array))]
    fn slice_or_array(&self, input: &mut ParseBuffer<'_>, bracket_token: Bracket) -> Result<Box<T>>
        requires callable { Callable (weight input.old.rest + 1) (F.pre self.now.ty) }
        requires reads { ReadsType T.tree (F.post self.now.ty) }
        ensures value { Reads (λ x. T.tree x.value) ((part.slice_or_array part.type).reads input.old.rest) result input.new.rest }
        ensures noted { input.new.noted ≡ input.old.noted }
        ensures shrinks { weight input.new.rest ≤ weight input.old.rest }
    {
        let elem = (self.ty)(input, true)?;
        let Some(semi_token) = front::semi(input) else {
            let slice = TypeSliceOf {
                bracket_token,
                elem,
            };
            return Ok(boxed(input.alloc(), T::slice(slice))?);
        };
        let len = rest_of(input)?;
        let array = TypeArrayOf {
            bracket_token,
            elem,
            semi_token,
            len,
        };
        Ok(boxed(input.alloc(), T::array(array))?)
    }

    /// Reads a slice or an array.
    #[tactic(auto)]
    pub(crate) fn bracket(&self, input: &mut ParseBuffer<'_>) -> Result<Box<T>>
        requires callable { Callable (weight input.old.rest) (F.pre self.now.ty) }
        requires reads { ReadsType T.tree (F.post self.now.ty) }
        ensures value { Reads (λ x. T.tree x.value) ((form.inside del.Bracket (part.slice_or_array part.type)).reads input.old.rest) result input.new.rest }
        ensures noted { input.new.noted ≡ input.old.noted }
        ensures shrinks { weight input.new.rest ≤ weight input.old.rest }
    {
        let (bracket_token, mut content) = input.parse_brackets()?;
        let x = self.slice_or_array(&mut content, bracket_token)?;
        if !content.is_empty() {
            return Err(content.error(ErrorKind::UnexpectedToken));
        }
        Ok(x)
    }

    /// Reads the inside of the parentheses of a tuple, or a type in parentheses.
    #[tactic(auto, unfolding(syn_lower_spec::specs::Part::tuple_or_paren))]
    fn tuple_or_paren(&self, input: &mut ParseBuffer<'_>, paren_token: Paren) -> Result<Box<T>>
        requires callable { Callable (weight input.old.rest + 1) (F.pre self.now.ty) }
        requires reads { ReadsType T.tree (F.post self.now.ty) }
        ensures value { Reads (λ x. T.tree x.value) ((part.tuple_or_paren part.type).reads input.old.rest) result input.new.rest }
        ensures noted { input.new.noted ≡ input.old.noted }
        ensures shrinks { weight input.new.rest ≤ weight input.old.rest }
    {
        let elems = self.types(input)?;
        match elems.into_one() {
            Ok(elem) => {
                let paren = TypeParenOf { paren_token, elem };
                Ok(boxed(input.alloc(), T::paren(paren))?)
            }
            Err(elems) => {
                let tuple = TypeTupleOf { paren_token, elems };
                Ok(boxed(input.alloc(), T::tuple(tuple))?)
            }
        }
    }

    /// Reads a tuple, or a type in parentheses.
    #[tactic(auto)]
    pub(crate) fn parens(&self, input: &mut ParseBuffer<'_>) -> Result<Box<T>>
        requires callable { Callable (weight input.old.rest) (F.pre self.now.ty) }
        requires reads { ReadsType T.tree (F.post self.now.ty) }
        ensures value { Reads (λ x. T.tree x.value) ((form.inside del.Parenthesis (part.tuple_or_paren part.type)).reads input.old.rest) result input.new.rest }
        ensures noted { input.new.noted ≡ input.old.noted }
        ensures shrinks { weight input.new.rest ≤ weight input.old.rest }
    {
        let (paren_token, mut content) = input.parse_parens()?;
        let x = self.tuple_or_paren(&mut content, paren_token)?;
        if !content.is_empty() {
            return Err(content.error(ErrorKind::UnexpectedToken));
        }
        Ok(x)
    }
}
