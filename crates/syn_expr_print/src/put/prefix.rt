//! What comes before an operand with which a node ends.

ghost use Rattle.std.specs.Prelude.{◌≡◌, ◌++◌, [], OnOk};
ghost use Rattle.syn_expr_ast.specs.Node.{closure_of, prefix_of};
ghost use Rattle.syn_expr_spec.specs.Tree.{closure_own, prefix_own};
ghost use Rattle.syn_lower_leaves.specs.Printed.{comma, pairs_printed, punctuated_printed};
ghost use Rattle.syn_lower_spec.specs.PatOwn.{pat_own};
ghost use Rattle.syn_tokens.specs.Input.{IsFront};

use syn_expr_ast::node::{Closure, Prefix, put_jump};
use syn_expr_ast::put::{PutResult, put, put_some};
use syn_lower::punctuated::Punctuated;
use syn_pat::kinds::HasPatTree;
use syn_tokens::token::Comma;
use syn_tokens::tree::TokenStream;

/// The type of patterns, as one prints them.
pub trait PutPat: HasPatTree {
    ghost use Rattle.std.specs.Prelude.{◌≡◌, ◌++◌, [], OnOk};
    ghost use Rattle.syn_lower_spec.specs.PatOwn.{pat_own};
    ghost use Rattle.syn_tokens.specs.Input.{IsFront};

    /// Puts a pattern at the end, without its guards.
    fn put_pat(&self, tokens: &mut TokenStream) -> PutResult
        ensures ok { OnOk result (tokens.new ≡ tokens.old ++ pat_own (Self.view self.now).tree []) }
        ensures front { IsFront tokens.old tokens.new };
}

/// Puts arguments with the commas after them.
#[tactic(auto, using(syn_tokens::proofs::Fronts::fronts), unfolding(syn_tokens::specs::Sign::sign_text))]
fn put_pairs<P: PutPat>(tokens: &mut TokenStream, mut pairs: &[(P, Comma)]) -> PutResult
    ensures ok { OnOk result (tokens.new ≡ tokens.old ++ pairs_printed (λ p. pat_own (P.view p).tree []) comma pairs.entry.now) }
    ensures front { IsFront tokens.old tokens.new }
{
    'pairs: while let [(pat, comma), more @ ..] = pairs {
        pat.put_pat(tokens)?;
        put(tokens, comma)?;
        pairs = more;
    }
    Ok(())
}

/// Puts the arguments of a closure, with their commas.
#[tactic(auto, using(syn_tokens::proofs::Fronts::fronts), unfolding(syn_lower_leaves::specs::Printed::punctuated_printed, syn_lower_leaves::specs::Printed::option_printed))]
fn put_inputs<P: PutPat>(tokens: &mut TokenStream, inputs: &Punctuated<P, Comma>) -> PutResult
    ensures ok { OnOk result (tokens.new ≡ tokens.old ++ punctuated_printed (λ p. pat_own (P.view p).tree []) comma inputs.now) }
    ensures front { IsFront tokens.old tokens.new }
{
    put_pairs(tokens, &inputs.inner)?;
    match &inputs.last {
        Some(pat) => P::put_pat(pat, tokens),
        None => Ok(()),
    }
}

/// Puts a closure up to its body.
#[tactic(auto, using(syn_tokens::proofs::Fronts::fronts, syn_expr_ast::proofs::Owns::owns), unfolding(syn_tokens::specs::Sign::sign_text, syn_tokens::specs::Sign::word_text))]
pub(crate) fn put_closure<P: PutPat>(tokens: &mut TokenStream, closure: Closure<'_, P>) -> PutResult
    ensures ok { OnOk result (tokens.new ≡ tokens.old ++ closure_own (closure_of P.view closure.entry) []) }
    ensures front { IsFront tokens.old tokens.new }
{
    let Closure {
        lifetimes,
        modifiers,
        constness,
        asyncness,
        capture,
        inputs_begin,
        inputs,
        inputs_end,
        output,
    } = closure;
    put_some(tokens, lifetimes)?;
    put_some(tokens, constness)?;
    put_some(tokens, &modifiers.static_token)?;
    put_some(tokens, asyncness)?;
    put_some(tokens, capture)?;
    put_some(tokens, &modifiers.use_token)?;
    put(tokens, inputs_begin)?;
    put_inputs(tokens, inputs)?;
    put(tokens, inputs_end)?;
    put(tokens, output)
}

/// Puts what comes before an operand with which a node ends.
#[tactic(auto, using(syn_tokens::proofs::Fronts::fronts, syn_expr_ast::proofs::Owns::owns), unfolding(syn_tokens::specs::Sign::sign_text, syn_tokens::specs::Sign::word_text))]
pub fn put_prefix<P: PutPat>(tokens: &mut TokenStream, prefix: Prefix<'_, P>) -> PutResult
    ensures ok { OnOk result (tokens.new ≡ tokens.old ++ prefix_own (prefix_of P.view prefix.entry) []) }
    ensures front { IsFront tokens.old tokens.new }
{
    match prefix {
        Prefix::Unary(op) => put(tokens, op),
        Prefix::Reference(and, mutability) => {
            put(tokens, and)?;
            put_some(tokens, mutability)
        }
        Prefix::RawAddr(and, raw, mutability) => {
            put(tokens, and)?;
            put(tokens, raw)?;
            put(tokens, mutability)
        }
        Prefix::Range(limits) => put(tokens, limits),
        Prefix::Let(word, pat, eq) => {
            put(tokens, word)?;
            P::put_pat(pat, tokens)?;
            put(tokens, eq)
        }
        Prefix::Jump(jump) => put_jump(tokens, jump),
        Prefix::Closure(closure) => put_closure(tokens, closure),
    }
}
