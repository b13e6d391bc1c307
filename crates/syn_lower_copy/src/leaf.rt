//! Copies of the parts that hold no others, and of lists of lifetimes.

ghost use Rattle.std.specs.Prelude.{◌≡◌, map, IfOk, IfErr};
ghost use Rattle.syn_lower_leaves.specs.View.{attribute_of, abi_of, lifetime_of, lifetimes_of, lit_str_of, mapped};

use crate::list::copy_punctuated;
use crate::seen::ByWord;
use std::alloc::Global;
use syn_lower_leaves::attr::Attribute;
use syn_lower_leaves::block::Block;
use syn_lower_leaves::lifetime::Lifetime;
use syn_lower_leaves::lit::LitStr;
use syn_lower_leaves::ty::{Abi, BoundLifetimes};
use syn_tokens::error::{ErrorKind, Result};
use syn_tokens::tree::{copy_ident, copy_trees};

/// A copy of an attribute.
pub fn copy_attribute(alloc: Global, x: &Attribute) -> Result<Attribute>
    ensures copied { IfOk result (λ y. attribute_of y ≡ attribute_of x.now) }
    ensures memory { IfErr result (λ e. e.kind ≡ ErrorKind.OutOfMemory) }
{
    let tokens = copy_trees(alloc, x.tokens.trees())?;
    Ok(Attribute {
        pound_token: x.pound_token,
        style: x.style,
        bracket_token: x.bracket_token,
        tokens,
    })
}

/// Copies of attributes.
fn copy_each(alloc: Global, xs: &[Attribute]) -> Result<Vec<Attribute>>
    ensures copied { IfOk result (λ ys. map attribute_of ys.items ≡ map attribute_of xs.now) }
    ensures memory { IfErr result (λ e. e.kind ≡ ErrorKind.OutOfMemory) }
{
    let mut ys = Vec::new(alloc);
    for x in xs {
        ys.push(copy_attribute(alloc, x)?)?;
    }
    Ok(ys)
}

/// A copy of a list of attributes.
pub fn copy_attributes(alloc: Global, xs: &Vec<Attribute>) -> Result<Vec<Attribute>>
    ensures copied { IfOk result (λ ys. map attribute_of ys.items ≡ map attribute_of xs.now.items) }
    ensures memory { IfErr result (λ e. e.kind ≡ ErrorKind.OutOfMemory) }
{
    copy_each(alloc, xs)
}

/// A copy of a block.
pub fn copy_block(alloc: Global, x: &Block) -> Result<Block>
    ensures copied { IfOk result (λ y. y.stmts ≡ x.now.stmts) }
    ensures memory { IfErr result (λ e. e.kind ≡ ErrorKind.OutOfMemory) }
{
    let stmts = copy_trees(alloc, x.stmts.trees())?;
    Ok(Block {
        brace_token: x.brace_token,
        stmts,
    })
}

/// A copy of a lifetime.
pub fn copy_lifetime(alloc: Global, x: &Lifetime) -> Result<Lifetime>
    ensures copied { IfOk result (λ y. lifetime_of y ≡ lifetime_of x.now) }
    ensures memory { IfErr result (λ e. e.kind ≡ ErrorKind.OutOfMemory) }
{
    let ident = copy_ident(alloc, &x.ident)?;
    Ok(Lifetime {
        apostrophe: x.apostrophe,
        ident,
    })
}

/// A copy of a lifetime that may be there.
pub fn copy_some_lifetime(alloc: Global, x: &Option<Lifetime>) -> Result<Option<Lifetime>>
    ensures copied { IfOk result (λ y. mapped lifetime_of y ≡ mapped lifetime_of x.now) }
    ensures memory { IfErr result (λ e. e.kind ≡ ErrorKind.OutOfMemory) }
{
    match x {
        Some(x) => Ok(Some(copy_lifetime(alloc, x)?)),
        None => Ok(None),
    }
}

/// A copy of `for<'a, 'b>`.
fn copy_lifetimes(alloc: Global, x: &BoundLifetimes) -> Result<BoundLifetimes>
    ensures copied { IfOk result (λ y. lifetimes_of y ≡ lifetimes_of x.now) }
    ensures memory { IfErr result (λ e. e.kind ≡ ErrorKind.OutOfMemory) }
{
    let copy = |x: &Lifetime, alloc: Global| copy_lifetime(alloc, x);
    let lifetimes = copy_punctuated(alloc, ByWord {}, &x.lifetimes, &copy)?;
    Ok(BoundLifetimes {
        for_token: x.for_token,
        lt_token: x.lt_token,
        lifetimes,
        gt_token: x.gt_token,
    })
}

/// A copy of `for<'a, 'b>` that may be there.
pub fn copy_some_lifetimes(
    alloc: Global,
    x: &Option<BoundLifetimes>,
) -> Result<Option<BoundLifetimes>>
    ensures copied { IfOk result (λ y. mapped lifetimes_of y ≡ mapped lifetimes_of x.now) }
    ensures memory { IfErr result (λ e. e.kind ≡ ErrorKind.OutOfMemory) }
{
    match x {
        Some(x) => Ok(Some(copy_lifetimes(alloc, x)?)),
        None => Ok(None),
    }
}

/// A copy of a string literal that may be there.
fn copy_some_lit_str(alloc: Global, x: &Option<LitStr>) -> Result<Option<LitStr>>
    ensures copied { IfOk result (λ y. mapped lit_str_of y ≡ mapped lit_str_of x.now) }
    ensures memory { IfErr result (λ e. e.kind ≡ ErrorKind.OutOfMemory) }
{
    match x {
        Some(x) => Ok(Some(x.copy(alloc)?)),
        None => Ok(None),
    }
}

/// A copy of `extern "C"` that may be there.
pub fn copy_some_abi(alloc: Global, x: &Option<Abi>) -> Result<Option<Abi>>
    ensures copied { IfOk result (λ y. mapped abi_of y ≡ mapped abi_of x.now) }
    ensures memory { IfErr result (λ e. e.kind ≡ ErrorKind.OutOfMemory) }
{
    match x {
        Some(x) => {
            let name = copy_some_lit_str(alloc, &x.name)?;
            Ok(Some(Abi {
                extern_token: x.extern_token,
                name,
            }))
        }
        None => Ok(None),
    }
}
