//! The readers of closures up to their bodies (Rust Reference, "Closure expressions").

ghost use Rattle.std.specs.Prelude.{◌≡◌, ◌≤◌, ◌+◌, is_some, map, IfOk, Some, []};
ghost use Rattle.syn_expr_heads.specs.Reads.{CallableArg, ReadsArg};
ghost use Rattle.syn_expr_heads.specs.View.{closure_guards, closure_of};
ghost use Rattle.syn_expr_spec.specs.Head as head;
ghost use Rattle.syn_lower_types.specs.View as view;
ghost use Rattle.syn_lower_leaves.specs.Reads.{Reads};
ghost use Rattle.syn_lower_spec.specs.Form as form;
ghost use Rattle.syn_lower_spec.specs.Mark as mark;
ghost use Rattle.syn_lower_spec.specs.Pat as pat;
ghost use Rattle.syn_pat.specs.View as kinds;
ghost use Rattle.syn_tokens.specs.Tok.{weight};

use crate::leaf::ClosureHead;
use crate::word::{async_word, bar, bar_at, move_word, static_word, use_word};
use syn_expr_tokens::modifiers::ClosureModifiers;
use syn_lower::grammar::Grammar;
use syn_lower::readers::ty;
use syn_lower_leaves::front::{comma, constant};
use syn_lower_leaves::punctuated::Punctuated;
use syn_lower_leaves::readers::maybe_lifetimes;
use syn_pat::kinds::HasPatTree;
use syn_tokens::buffer::{ParseBuffer, Token};
use syn_tokens::error::{ErrorKind, Expected, Result};
use syn_tokens::token::{Comma, Move, Or, Use};

/// The readers of closures, over that of their arguments.
#[derive(Clone, Copy)]
pub struct Closures<G> {
    /// Reads an argument: attributes, a pattern, and a type after `:` or none.
    pub arg: G,
}

/// The arguments of a closure between its bars.
type Inputs<P> = (Or, Punctuated<P, Comma>, Or);

/// Takes `move`, or `use` where that is in its place.
fn captures(input: &mut ParseBuffer<'_>) -> (Option<Move>, Option<Use>)
    ensures value { (form.then_by (form.flag head.move_word) head.use_behind).reads input.old.rest ≡ Some ((is_some result.0, is_some result.1), input.new.rest) }
    ensures noted { input.new.noted ≡ input.old.noted }
    ensures shrinks { weight input.new.rest ≤ weight input.old.rest }
{
    match move_word(input) {
        Some(token) => (Some(token), None),
        None => (None, use_word(input)),
    }
}

impl<P: HasPatTree + Drop, G: Fn(&mut ParseBuffer<'_>) -> Result<P>> Closures<G> {
    /// Reads arguments with commas between, before `|`.
    #[tactic(auto, using(crate::proofs::Loops::args))]
    fn args(&self, input: &mut ParseBuffer<'_>) -> Result<Punctuated<P, Comma>>
        requires callable { CallableArg (weight input.old.rest + 1) (G.pre self.now.arg) }
        requires reads { ReadsArg P.view (G.post self.now.arg) }
        ensures value { Reads (λ p. (map (λ x. (P.view x).tree) (view.values p), view.trails p)) ((form.listed mark.comma head.bar.at pat.closure_arg).reads input.old.rest) result input.new.rest }
        ensures noted { input.new.noted ≡ input.old.noted }
        ensures shrinks { weight input.new.rest ≤ weight input.old.rest }
        ensures bare { IfOk result (λ p. kinds.guards_in P.view (view.values p) ≡ []) }
    {
        let mut found = Punctuated::new(input.alloc());
        'items: while !bar_at(input) {
            found.push_value((self.arg)(input)?)?;
            let Some(comma) = comma(input) else {
                return Ok(found);
            };
            found.push_punct(comma)?;
        }
        Ok(found)
    }

    /// Reads the arguments between the bars.
    #[tactic(auto, unfolding(syn_expr_spec::specs::Head::closure_inputs))]
    fn inputs(&self, input: &mut ParseBuffer<'_>) -> Result<Inputs<P>>
        requires callable { CallableArg (weight input.old.rest) (G.pre self.now.arg) }
        requires reads { ReadsArg P.view (G.post self.now.arg) }
        ensures value { Reads (λ i. (map (λ x. (P.view x).tree) (view.values i.1), view.trails i.1)) (head.closure_inputs.reads input.old.rest) result input.new.rest }
        ensures noted { input.new.noted ≡ input.old.noted }
        ensures shrinks { weight input.new.rest ≤ weight input.old.rest }
        ensures bare { IfOk result (λ i. kinds.guards_in P.view (view.values i.1) ≡ []) }
    {
        let Some(inputs_begin) = bar(input) else {
            return Err(input.error(ErrorKind::ExpectedToken(Expected::One(Or::wanted()))));
        };
        let inputs = self.args(input)?;
        let Some(inputs_end) = bar(input) else {
            return Err(input.error(ErrorKind::ExpectedToken(Expected::One(Or::wanted()))));
        };
        Ok((inputs_begin, inputs, inputs_end))
    }

    /// Reads a closure up to its body: lifetimes, `const`, `static`, `async`, and `move` or `use`, each if it is there, the
    /// arguments between bars, and what it returns (Rust Reference, "Closure expressions"). A missing bar is refused as
    /// `ExpectedToken` of it, an argument as its reader refuses it, and the type after `->` as a type is.
    #[tactic(auto, using(crate::proofs::Loops::inputs), unfolding(syn_expr_spec::specs::Head::closure_head))]
    pub fn closure_head(&self, input: &mut ParseBuffer<'_>) -> Result<ClosureHead<P>>
        requires callable { CallableArg (weight input.old.rest) (G.pre self.now.arg) }
        requires reads { ReadsArg P.view (G.post self.now.arg) }
        ensures value { Reads (closure_of P.view) (head.closure_head.reads input.old.rest) result input.new.rest }
        ensures noted { input.new.noted ≡ input.old.noted }
        ensures shrinks { weight input.new.rest ≤ weight input.old.rest }
        ensures bare { IfOk result (λ h. closure_guards P.view h ≡ []) }
    {
        let lifetimes = maybe_lifetimes(input)?;
        let constness = constant(input);
        let static_token = static_word(input);
        let asyncness = async_word(input);
        let (capture, use_token) = captures(input);
        let (inputs_begin, inputs, inputs_end) = self.inputs(input)?;
        let output = Grammar { ty }.output(input, true)?;
        Ok(ClosureHead {
            lifetimes,
            modifiers: ClosureModifiers {
                static_token,
                use_token,
            },
            constness,
            asyncness,
            capture,
            inputs_begin,
            inputs,
            inputs_end,
            output,
        })
    }
}
