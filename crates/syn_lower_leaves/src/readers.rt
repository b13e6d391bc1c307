//! The readers of the parts that hold no types. Memory aside, they refuse as `ExpectedToken` of the token that is missing;
//! tokens before it may have been passed over.

ghost use Rattle.std.specs.Prelude.{◌≡◌, ◌≤◌, map, is_some};
ghost use Rattle.syn_lower_leaves.specs.Reads.{Reads};
ghost use Rattle.syn_lower_spec.specs.Form as form;
ghost use Rattle.syn_lower_spec.specs.Mark as mark;
ghost use Rattle.syn_lower_spec.specs.Part as part;
ghost use Rattle.syn_tokens.specs.Tok.{weight};
ghost use Rattle.syn_lower_leaves.specs.View as view;

use crate::front;
use crate::front::{arg_name_at, gt_at, lifetimes_at};
use crate::leaf::{arg_name, lifetime, lifetime_at, string, string_at};
use crate::lifetime::Lifetime;
use crate::lit::LitStr;
use crate::punctuated::Punctuated;
use crate::ty::{Abi, BoundLifetimes, PointerMutability};
use syn_tokens::buffer::{ParseBuffer, Token};
use syn_tokens::error::{ErrorKind, Expected, Result};
use syn_tokens::token::{Colon, Comma, Const, For, Gt, Lt, Mut, Unsafe};
use syn_tokens::tree::Ident;

/// Reads a lifetime, if one comes first.
pub fn maybe_lifetime(input: &mut ParseBuffer<'_>) -> Result<Option<Lifetime>>
    ensures value { Reads (view.mapped view.lifetime_of) ((form.maybe mark.lifetime_at part.lifetime).reads input.old.rest) result input.new.rest }
    ensures noted { input.new.noted ≡ input.old.noted }
    ensures shrinks { weight input.new.rest ≤ weight input.old.rest }
{
    if lifetime_at(input) {
        Ok(Some(lifetime(input)?))
    } else {
        Ok(None)
    }
}

/// Reads `mut` or `const`.
pub fn pointer_mutability(input: &mut ParseBuffer<'_>) -> Result<PointerMutability>
    ensures value { Reads view.is_mut (part.mutability.reads input.old.rest) result input.new.rest }
    ensures noted { input.new.noted ≡ input.old.noted }
    ensures shrinks { weight input.new.rest ≤ weight input.old.rest }
{
    if let Some(word) = front::mutable(input) {
        return Ok(PointerMutability::Mut(word));
    }
    if let Some(word) = front::constant(input) {
        return Ok(PointerMutability::Const(word));
    }
    let wanted = Expected::Two(Mut::wanted(), Const::wanted());
    Err(input.error(ErrorKind::ExpectedToken(wanted)))
}

/// Reads lifetimes with commas between, before `>`.
#[tactic(auto, using(crate::proofs::Loops::lifetimes))]
fn lifetime_list(input: &mut ParseBuffer<'_>) -> Result<Punctuated<Lifetime, Comma>>
    ensures value { Reads (λ p. (map view.lifetime_of (view.values p), view.trails p)) ((form.listed mark.comma mark.gt.at part.lifetime).reads input.old.rest) result input.new.rest }
    ensures noted { input.new.noted ≡ input.old.noted }
    ensures shrinks { weight input.new.rest ≤ weight input.old.rest }
{
    let mut found = Punctuated::new(input.alloc());
    if gt_at(input) {
        return Ok(found);
    }
    found.push_value(lifetime(input)?)?;
    'items: while let Some(comma) = front::comma(input) {
        found.push_punct(comma)?;
        if gt_at(input) {
            return Ok(found);
        }
        found.push_value(lifetime(input)?)?;
    }
    Ok(found)
}

/// Reads `for` and lifetimes between `<` and `>`.
#[tactic(auto, unfolding(syn_lower_spec::specs::Part::lifetimes))]
pub fn lifetimes(input: &mut ParseBuffer<'_>) -> Result<BoundLifetimes>
    ensures value { Reads view.lifetimes_of (part.lifetimes.reads input.old.rest) result input.new.rest }
    ensures noted { input.new.noted ≡ input.old.noted }
    ensures shrinks { weight input.new.rest ≤ weight input.old.rest }
{
    let Some(for_token) = front::for_word(input) else {
        return Err(input.error(ErrorKind::ExpectedToken(Expected::One(For::wanted()))));
    };
    let Some(lt_token) = front::less(input) else {
        return Err(input.error(ErrorKind::ExpectedToken(Expected::One(Lt::wanted()))));
    };
    let lifetimes = lifetime_list(input)?;
    let Some(gt_token) = front::gt(input) else {
        return Err(input.error(ErrorKind::ExpectedToken(Expected::One(Gt::wanted()))));
    };
    Ok(BoundLifetimes {
        for_token,
        lt_token,
        lifetimes,
        gt_token,
    })
}

/// Reads the lifetimes of a bound, if they come first.
pub fn maybe_lifetimes(input: &mut ParseBuffer<'_>) -> Result<Option<BoundLifetimes>>
    ensures value { Reads (view.mapped view.lifetimes_of) ((form.maybe part.lifetimes_at part.lifetimes).reads input.old.rest) result input.new.rest }
    ensures noted { input.new.noted ≡ input.old.noted }
    ensures shrinks { weight input.new.rest ≤ weight input.old.rest }
{
    if lifetimes_at(input) {
        Ok(Some(lifetimes(input)?))
    } else {
        Ok(None)
    }
}

/// Reads the name of an argument and `:`, if they come first.
pub fn maybe_name(input: &mut ParseBuffer<'_>) -> Result<Option<(Ident, Colon)>>
    ensures value { Reads (view.mapped (λ p. p.0)) ((form.maybe part.arg_name_at (form.closed_by mark.lone_colon part.arg_name)).reads input.old.rest) result input.new.rest }
    ensures noted { input.new.noted ≡ input.old.noted }
    ensures shrinks { weight input.new.rest ≤ weight input.old.rest }
{
    if !arg_name_at(input) {
        return Ok(None);
    }
    let name = arg_name(input)?;
    let Some(colon) = front::lone_colon(input) else {
        return Err(input.error(ErrorKind::ExpectedToken(Expected::One(Colon::wanted()))));
    };
    Ok(Some((name, colon)))
}

/// Reads a string, if one comes first.
fn maybe_string(input: &mut ParseBuffer<'_>) -> Result<Option<LitStr>>
    ensures value { Reads (view.mapped view.lit_str_of) ((form.maybe part.string_at part.string).reads input.old.rest) result input.new.rest }
    ensures noted { input.new.noted ≡ input.old.noted }
    ensures shrinks { weight input.new.rest ≤ weight input.old.rest }
{
    if string_at(input) {
        Ok(Some(string(input)?))
    } else {
        Ok(None)
    }
}

/// Reads `extern` and a string, if they come first.
pub fn maybe_abi(input: &mut ParseBuffer<'_>) -> Result<Option<Abi>>
    ensures value { Reads (view.mapped view.abi_of) ((form.maybe mark.extern_word.at part.abi).reads input.old.rest) result input.new.rest }
    ensures noted { input.new.noted ≡ input.old.noted }
    ensures shrinks { weight input.new.rest ≤ weight input.old.rest }
{
    let Some(extern_token) = front::extern_word(input) else {
        return Ok(None);
    };
    let name = maybe_string(input)?;
    Ok(Some(Abi { extern_token, name }))
}

/// Reads what comes before the `fn` of a function pointer.
#[tactic(auto, unfolding(syn_lower_spec::specs::Part::fn_head))]
pub fn fn_head(
    input: &mut ParseBuffer<'_>,
) -> Result<(Option<BoundLifetimes>, Option<Unsafe>, Option<Abi>)>
    ensures value { Reads (λ h. (view.mapped view.lifetimes_of h.0, (is_some h.1, view.mapped view.abi_of h.2))) (part.fn_head.reads input.old.rest) result input.new.rest }
    ensures noted { input.new.noted ≡ input.old.noted }
    ensures shrinks { weight input.new.rest ≤ weight input.old.rest }
{
    let lifetimes = maybe_lifetimes(input)?;
    let unsafety = front::unsafe_word(input);
    let abi = maybe_abi(input)?;
    Ok((lifetimes, unsafety, abi))
}
