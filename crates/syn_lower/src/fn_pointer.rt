//! The readers of function pointers.

ghost use Rattle.std.specs.Prelude.{◌≡◌, ◌≤◌, ◌+◌, map, false};
ghost use Rattle.syn_lexer.specs.declared.front.Delimiter.TheVariants as del;
ghost use Rattle.syn_lower_leaves.specs.Reads.{Reads};
ghost use Rattle.syn_lower.specs.Reads.{Callable, ReadsType};
ghost use Rattle.syn_lower_types.specs.View as view;
ghost use Rattle.syn_lower_spec.specs.Form as form;
ghost use Rattle.syn_lower_spec.specs.Mark as mark;
ghost use Rattle.syn_lower_spec.specs.Part as part;
ghost use Rattle.syn_tokens.specs.Front as front_spec;
ghost use Rattle.syn_tokens.specs.Tok.{weight};

use crate::grammar::{Grammar, boxed};
use syn_lower_leaves::front;
use syn_lower_leaves::punctuated::Punctuated;
use syn_lower_leaves::readers::{fn_head, maybe_name};
use syn_lower_types::ty::{BareFnArgOf, ReturnTypeOf, TypeFnPtrOf};
use syn_lower_types::types::IsType;
use syn_tokens::buffer::{ParseBuffer, Token};
use syn_tokens::error::{ErrorKind, Expected, Result};
use syn_tokens::token::{self, Comma, Paren};

/// The arguments of a function pointer in their parentheses, and what it returns.
type FnRest<T> = (Paren, Punctuated<BareFnArgOf<T>, Comma>, ReturnTypeOf<T>);

impl<T: IsType + Drop, F: Fn(&mut ParseBuffer<'_>, bool) -> Result<Box<T>>> Grammar<F> {
    /// Reads an argument of a function pointer.
    #[tactic(auto, unfolding(syn_lower_spec::specs::Part::fn_arg))]
    pub fn fn_arg(&self, input: &mut ParseBuffer<'_>) -> Result<BareFnArgOf<T>>
        requires callable { Callable (weight input.old.rest + 1) (F.pre self.now.ty) }
        requires reads { ReadsType T.tree (F.post self.now.ty) }
        ensures value { Reads (view.arg_of T.tree) ((part.fn_arg part.type).reads input.old.rest) result input.new.rest }
        ensures noted { input.new.noted ≡ input.old.noted }
        ensures shrinks { weight input.new.rest ≤ weight input.old.rest }
    {
        let name = maybe_name(input)?;
        let ty = self.whole(input)?;
        Ok(BareFnArgOf { name, ty })
    }

    /// Reads the arguments of a function pointer, to the end of the group.
    #[tactic(auto, using(crate::proofs::Loops::args))]
    fn fn_args(&self, input: &mut ParseBuffer<'_>) -> Result<Punctuated<BareFnArgOf<T>, Comma>>
        requires callable { Callable (weight input.old.rest + 1) (F.pre self.now.ty) }
        requires reads { ReadsType T.tree (F.post self.now.ty) }
        ensures value { Reads (λ p. (map (view.arg_of T.tree) (view.values p), view.trails p)) ((form.listed mark.comma front_spec.is_empty (part.fn_arg part.type)).reads input.old.rest) result input.new.rest }
        ensures noted { input.new.noted ≡ input.old.noted }
        ensures shrinks { weight input.new.rest ≤ weight input.old.rest }
    {
        let mut found = Punctuated::new(input.alloc());
        'items: while !input.is_empty() {
            found.push_value(self.fn_arg(input)?)?;
            let Some(comma) = front::comma(input) else {
                return Ok(found);
            };
            found.push_punct(comma)?;
        }
        Ok(found)
    }

    /// Reads the arguments of a function pointer in parentheses.
    fn fn_inputs(
        &self,
        input: &mut ParseBuffer<'_>,
    ) -> Result<(Paren, Punctuated<BareFnArgOf<T>, Comma>)>
        requires callable { Callable (weight input.old.rest) (F.pre self.now.ty) }
        requires reads { ReadsType T.tree (F.post self.now.ty) }
        ensures value { Reads (λ p. (map (view.arg_of T.tree) (view.values p.1), view.trails p.1)) ((form.inside del.Parenthesis (form.listed mark.comma front_spec.is_empty (part.fn_arg part.type))).reads input.old.rest) result input.new.rest }
        ensures noted { input.new.noted ≡ input.old.noted }
        ensures shrinks { weight input.new.rest ≤ weight input.old.rest }
    {
        let (paren_token, mut content) = input.parse_parens()?;
        let inputs = self.fn_args(&mut content)?;
        if !content.is_empty() {
            return Err(content.error(ErrorKind::UnexpectedToken));
        }
        Ok((paren_token, inputs))
    }

    /// Reads the arguments of a function pointer and what it returns.
    fn fn_rest(&self, input: &mut ParseBuffer<'_>) -> Result<FnRest<T>>
        requires callable { Callable (weight input.old.rest) (F.pre self.now.ty) }
        requires reads { ReadsType T.tree (F.post self.now.ty) }
        ensures value { Reads (λ p. ((map (view.arg_of T.tree) (view.values p.1), view.trails p.1), view.return_of T.tree p.2)) ((form.both (form.inside del.Parenthesis (form.listed mark.comma front_spec.is_empty (part.fn_arg part.type))) (part.output part.type false)).reads input.old.rest) result input.new.rest }
        ensures noted { input.new.noted ≡ input.old.noted }
        ensures shrinks { weight input.new.rest ≤ weight input.old.rest }
    {
        let (paren_token, inputs) = self.fn_inputs(input)?;
        let output = self.output(input, false)?;
        Ok((paren_token, inputs, output))
    }

    /// Reads a function pointer.
    #[tactic(auto, unfolding(syn_lower_spec::specs::Part::fn_pointer))]
    pub(crate) fn fn_pointer(&self, input: &mut ParseBuffer<'_>) -> Result<Box<T>>
        requires callable { Callable (weight input.old.rest) (F.pre self.now.ty) }
        requires reads { ReadsType T.tree (F.post self.now.ty) }
        ensures value { Reads (λ x. T.tree x.value) ((part.fn_pointer part.type).reads input.old.rest) result input.new.rest }
        ensures noted { input.new.noted ≡ input.old.noted }
        ensures shrinks { weight input.new.rest ≤ weight input.old.rest }
    {
        let (lifetimes, unsafety, abi) = fn_head(input)?;
        let Some(fn_token) = front::fn_word(input) else {
            return Err(input.error(ErrorKind::ExpectedToken(Expected::One(token::Fn::wanted()))));
        };
        let (paren_token, inputs, output) = self.fn_rest(input)?;
        let pointer = TypeFnPtrOf {
            lifetimes,
            unsafety,
            abi,
            fn_token,
            paren_token,
            inputs,
            output,
        };
        Ok(boxed(input.alloc(), T::fn_ptr(pointer))?)
    }
}
