//! The printers of lists with puncts, and of the parts that hold no types: each writes its own spelling, the last punct of
//! each token alone.

ghost use Rattle.std.specs.Prelude.{◌≡◌, ◌++◌, [], IfErr, OnOk, OnErr};
ghost use Rattle.syn_lower_leaves.specs.Printed.{bang_printed, option_printed, pairs_printed};
ghost use Rattle.syn_lower_leaves.specs.View.{is_inner};
ghost use Rattle.syn_tokens.specs.Input.{IsFront};

use crate::attr::{AttrStyle, Attribute};
use crate::block::Block;
use crate::lifetime::Lifetime;
use crate::punctuated::Punctuated;
use crate::ty::{Abi, BoundLifetimes, PointerMutability};
use syn_tokens::Spacing;
use syn_tokens::buffer::ToTokens;
use syn_tokens::error::{ErrorKind, Result};
use syn_tokens::tree::{Punct, TokenStream, TokenTree, copy_trees};

impl ToTokens for Lifetime {
    ghost use Rattle.syn_lower_leaves.specs.View.{lifetime_of};
    ghost use Rattle.syn_lower_spec.specs.Own.{lifetime_own};

    ghost printed = { λ x. lifetime_own (lifetime_of x) [] };

    #[tactic(auto, using(syn_tokens::proofs::Fronts::fronts))]
    fn to_tokens(&self, tokens: &mut TokenStream) -> Result<()> {
        tokens.push(TokenTree::Punct(Punct {
            ch: '\'',
            spacing: Spacing::Joint,
            span: self.apostrophe,
        }))?;
        self.ident.to_tokens(tokens)
    }
}

/// Prints the `!` of an inner attribute.
#[tactic(auto, using(syn_tokens::proofs::Fronts::fronts), unfolding(syn_tokens::specs::Sign::sign_text))]
fn print_style(style: &AttrStyle, tokens: &mut TokenStream) -> Result<()>
    ensures ok { OnOk result (tokens.new ≡ tokens.old ++ bang_printed (is_inner style.now)) }
    ensures err { OnErr result (IsFront tokens.old tokens.new) }
    ensures memory { IfErr result (λ e. e.kind ≡ ErrorKind.OutOfMemory) }
{
    match style {
        AttrStyle::Outer => Ok(()),
        AttrStyle::Inner(bang) => bang.to_tokens(tokens),
    }
}

impl ToTokens for Attribute {
    ghost use Rattle.syn_lower_leaves.specs.View.{attribute_of};
    ghost use Rattle.syn_lower_spec.specs.Own.{attribute_own};

    ghost printed = { λ x. attribute_own (attribute_of x) [] };

    #[tactic(auto, using(syn_tokens::proofs::Fronts::fronts), unfolding(syn_tokens::specs::Sign::sign_text))]
    fn to_tokens(&self, tokens: &mut TokenStream) -> Result<()> {
        self.pound_token.to_tokens(tokens)?;
        print_style(&self.style, tokens)?;
        let inside = copy_trees(tokens.alloc(), self.tokens.trees())?;
        tokens.push(self.bracket_token.enclose(inside))?;
        Ok(())
    }
}

impl ToTokens for Block {
    ghost use Rattle.syn_lower_spec.specs.Own.{block_own};

    ghost printed = { λ x. block_own x.stmts [] };

    #[tactic(auto, using(syn_tokens::proofs::Fronts::fronts), unfolding(syn_lower_spec::specs::Own::block_own))]
    fn to_tokens(&self, tokens: &mut TokenStream) -> Result<()> {
        let inside = copy_trees(tokens.alloc(), self.stmts.trees())?;
        tokens.push(self.brace_token.enclose(inside))?;
        Ok(())
    }
}

/// Prints a part that may be missing.
#[tactic(auto, using(syn_tokens::proofs::Fronts::fronts), unfolding(crate::specs::Printed::option_printed))]
pub fn print_some<T: ToTokens>(part: &Option<T>, tokens: &mut TokenStream) -> Result<()>
    ensures ok { OnOk result (tokens.new ≡ tokens.old ++ option_printed T.printed part.now) }
    ensures err { OnErr result (IsFront tokens.old tokens.new) }
    ensures memory { IfErr result (λ e. e.kind ≡ ErrorKind.OutOfMemory) }
{
    match part {
        Some(part) => part.to_tokens(tokens),
        None => Ok(()),
    }
}

/// Prints values with the puncts after them.
#[tactic(auto, using(syn_tokens::proofs::Fronts::fronts))]
fn print_pairs<T: ToTokens, P: ToTokens>(
    mut pairs: &[(T, P)],
    tokens: &mut TokenStream,
) -> Result<()>
    ensures ok { OnOk result (tokens.new ≡ tokens.old ++ pairs_printed T.printed P.printed pairs.entry.now) }
    ensures err { OnErr result (IsFront tokens.old tokens.new) }
    ensures memory { IfErr result (λ e. e.kind ≡ ErrorKind.OutOfMemory) }
{
    'pairs: while let [(value, punct), more @ ..] = pairs {
        value.to_tokens(tokens)?;
        punct.to_tokens(tokens)?;
        pairs = more;
    }
    Ok(())
}

impl<T: ToTokens, P: ToTokens> ToTokens for Punctuated<T, P> {
    ghost use Rattle.syn_lower_leaves.specs.Printed.{punctuated_printed};

    ghost printed = { punctuated_printed T.printed P.printed };

    #[tactic(auto, using(syn_tokens::proofs::Fronts::fronts), unfolding(crate::specs::Printed::punctuated_printed, crate::specs::Printed::option_printed))]
    fn to_tokens(&self, tokens: &mut TokenStream) -> Result<()> {
        print_pairs(&self.inner, tokens)?;
        match &self.last {
            Some(value) => value.to_tokens(tokens),
            None => Ok(()),
        }
    }
}

impl ToTokens for PointerMutability {
    ghost use Rattle.syn_lower_leaves.specs.View.{is_mut};
    ghost use Rattle.syn_lower_spec.specs.Own.{mutability_own};

    ghost printed = { λ x. mutability_own (is_mut x) [] };

    #[tactic(auto, unfolding(syn_tokens::specs::Sign::word_text))]
    fn to_tokens(&self, tokens: &mut TokenStream) -> Result<()> {
        match self {
            PointerMutability::Const(word) => word.to_tokens(tokens),
            PointerMutability::Mut(word) => word.to_tokens(tokens),
        }
    }
}

impl ToTokens for BoundLifetimes {
    ghost use Rattle.syn_lower_leaves.specs.View.{lifetimes_of};
    ghost use Rattle.syn_lower_spec.specs.Own.{lifetimes_own};

    ghost printed = { λ x. lifetimes_own (lifetimes_of x) [] };

    #[tactic(auto, using(syn_tokens::proofs::Fronts::fronts), unfolding(syn_tokens::specs::Sign::sign_text, syn_tokens::specs::Sign::word_text))]
    fn to_tokens(&self, tokens: &mut TokenStream) -> Result<()> {
        self.for_token.to_tokens(tokens)?;
        self.lt_token.to_tokens(tokens)?;
        self.lifetimes.to_tokens(tokens)?;
        self.gt_token.to_tokens(tokens)
    }
}

impl ToTokens for Abi {
    ghost use Rattle.syn_lower_leaves.specs.View.{abi_of};
    ghost use Rattle.syn_lower_spec.specs.Own.{extern_own};

    ghost printed = { λ x. extern_own (abi_of x) [] };

    #[tactic(auto, using(syn_tokens::proofs::Fronts::fronts), unfolding(syn_tokens::specs::Sign::word_text, crate::specs::Printed::option_printed))]
    fn to_tokens(&self, tokens: &mut TokenStream) -> Result<()> {
        self.extern_token.to_tokens(tokens)?;
        print_some(&self.name, tokens)
    }
}
