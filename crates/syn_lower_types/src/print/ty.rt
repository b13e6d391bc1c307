//! The printers of the kinds of types, and of their bounds and arguments.

ghost use Rattle.std.specs.Prelude.{◌≡◌, ◌++◌, [], ◌∷◌, IfErr, OnOk, OnErr};
ghost use Rattle.syn_lower_types.specs.Printed.{option_printed, fn_head_printed};
ghost use Rattle.syn_lower_spec.specs.Own.{alone};
ghost use Rattle.syn_tokens.specs.Input.{IsFront};
ghost use Rattle.syn_tokens.specs.Tok as tok;

use super::{print_round, print_with_qself};
use crate::ty::{
    Abi, BareFnArgOf, BoundLifetimes, TraitBoundOf, TypeArrayOf, TypeFnPtrOf, TypeImplTraitOf,
    TypeMacroOf, TypeParamBoundOf, TypeParenOf, TypePathOf, TypePtrOf, TypeReferenceOf,
    TypeSliceOf, TypeTraitObjectOf, TypeTupleOf,
};
use syn_lower_leaves::print::print_some;
use syn_tokens::buffer::ToTokens;
use syn_tokens::error::{ErrorKind, Result};
use syn_tokens::token::{Colon, Fn, Unsafe};
use syn_tokens::tree::{Ident, TokenStream};

impl<T: ToTokens> ToTokens for TypeMacroOf<T> {
    ghost use Rattle.syn_lower_types.specs.Printed.{macro_printed};

    ghost printed = { λ x. macro_printed T.printed x.mac };

    fn to_tokens(&self, tokens: &mut TokenStream) -> Result<()> {
        self.mac.to_tokens(tokens)
    }
}

impl<T: ToTokens> ToTokens for TypeReferenceOf<T> {
    ghost use Rattle.syn_lower_types.specs.Printed.{reference_printed};

    ghost printed = { reference_printed T.printed };

    #[tactic(auto, using(syn_tokens::proofs::Fronts::fronts), unfolding(syn_tokens::specs::Sign::sign_text, syn_tokens::specs::Sign::word_text))]
    fn to_tokens(&self, tokens: &mut TokenStream) -> Result<()> {
        self.and_token.to_tokens(tokens)?;
        print_some(&self.lifetime, tokens)?;
        print_some(&self.mutability, tokens)?;
        self.elem.to_tokens(tokens)
    }
}

impl<T: ToTokens> ToTokens for TypePtrOf<T> {
    ghost use Rattle.syn_lower_types.specs.Printed.{ptr_printed};

    ghost printed = { ptr_printed T.printed };

    #[tactic(auto, using(syn_tokens::proofs::Fronts::fronts), unfolding(syn_tokens::specs::Sign::sign_text))]
    fn to_tokens(&self, tokens: &mut TokenStream) -> Result<()> {
        self.star_token.to_tokens(tokens)?;
        self.mutability.to_tokens(tokens)?;
        self.elem.to_tokens(tokens)
    }
}

impl<T: ToTokens> ToTokens for TypeSliceOf<T> {
    ghost use Rattle.syn_lower_types.specs.Printed.{slice_printed};

    ghost printed = { slice_printed T.printed };

    #[tactic(auto, using(syn_tokens::proofs::Fronts::fronts))]
    fn to_tokens(&self, tokens: &mut TokenStream) -> Result<()> {
        let mut inside = TokenStream::new(tokens.alloc());
        self.elem.to_tokens(&mut inside)?;
        tokens.push(self.bracket_token.enclose(inside))?;
        Ok(())
    }
}

impl<T: ToTokens> ToTokens for TypeArrayOf<T> {
    ghost use Rattle.syn_lower_types.specs.Printed.{array_printed};

    ghost printed = { array_printed T.printed };

    #[tactic(auto, using(syn_tokens::proofs::Fronts::fronts), unfolding(syn_tokens::specs::Sign::sign_text))]
    fn to_tokens(&self, tokens: &mut TokenStream) -> Result<()> {
        let mut inside = TokenStream::new(tokens.alloc());
        self.elem.to_tokens(&mut inside)?;
        self.semi_token.to_tokens(&mut inside)?;
        self.len.to_tokens(&mut inside)?;
        tokens.push(self.bracket_token.enclose(inside))?;
        Ok(())
    }
}

impl<T: ToTokens> ToTokens for TypeTupleOf<T> {
    ghost use Rattle.syn_lower_types.specs.Printed.{tuple_printed};

    ghost printed = { tuple_printed T.printed };

    #[tactic(auto, using(syn_tokens::proofs::Fronts::fronts), unfolding(syn_tokens::specs::Sign::sign_text))]
    fn to_tokens(&self, tokens: &mut TokenStream) -> Result<()> {
        let mut inside = TokenStream::new(tokens.alloc());
        self.elems.to_tokens(&mut inside)?;
        tokens.push(self.paren_token.enclose(inside))?;
        Ok(())
    }
}

impl<T: ToTokens> ToTokens for TypeParenOf<T> {
    ghost use Rattle.syn_lower_types.specs.Printed.{paren_printed};

    ghost printed = { paren_printed T.printed };

    #[tactic(auto, using(syn_tokens::proofs::Fronts::fronts))]
    fn to_tokens(&self, tokens: &mut TokenStream) -> Result<()> {
        let mut inside = TokenStream::new(tokens.alloc());
        self.elem.to_tokens(&mut inside)?;
        tokens.push(self.paren_token.enclose(inside))?;
        Ok(())
    }
}

impl<T: ToTokens> ToTokens for TypeImplTraitOf<T> {
    ghost use Rattle.syn_lower_types.specs.Printed.{impl_printed};

    ghost printed = { impl_printed T.printed };

    #[tactic(auto, using(syn_tokens::proofs::Fronts::fronts), unfolding(syn_tokens::specs::Sign::sign_text, syn_tokens::specs::Sign::word_text))]
    fn to_tokens(&self, tokens: &mut TokenStream) -> Result<()> {
        self.impl_token.to_tokens(tokens)?;
        self.bounds.to_tokens(tokens)
    }
}

impl<T: ToTokens> ToTokens for TypeTraitObjectOf<T> {
    ghost use Rattle.syn_lower_types.specs.Printed.{object_printed};

    ghost printed = { object_printed T.printed };

    #[tactic(auto, using(syn_tokens::proofs::Fronts::fronts), unfolding(syn_tokens::specs::Sign::sign_text, syn_tokens::specs::Sign::word_text))]
    fn to_tokens(&self, tokens: &mut TokenStream) -> Result<()> {
        self.dyn_token.to_tokens(tokens)?;
        self.bounds.to_tokens(tokens)
    }
}

/// Prints the name of an argument, and `:`.
#[tactic(auto, using(syn_tokens::proofs::Fronts::fronts), unfolding(syn_tokens::specs::Sign::sign_text, crate::specs::Printed::option_printed))]
fn print_name(name: &Option<(Ident, Colon)>, tokens: &mut TokenStream) -> Result<()>
    ensures ok { OnOk result (tokens.new ≡ tokens.old ++ option_printed (λ n. tok.ident n.0 ∷ alone 58 ∷ []) name.now) }
    ensures err { OnErr result (IsFront tokens.old tokens.new) }
    ensures memory { IfErr result (λ e. e.kind ≡ ErrorKind.OutOfMemory) }
{
    if let Some((name, colon)) = name {
        name.to_tokens(tokens)?;
        colon.to_tokens(tokens)?;
    }
    Ok(())
}

impl<T: ToTokens> ToTokens for BareFnArgOf<T> {
    ghost use Rattle.syn_lower_types.specs.Printed.{arg_printed};

    ghost printed = { arg_printed T.printed };

    #[tactic(auto, using(syn_tokens::proofs::Fronts::fronts))]
    fn to_tokens(&self, tokens: &mut TokenStream) -> Result<()> {
        print_name(&self.name, tokens)?;
        self.ty.to_tokens(tokens)
    }
}

impl<T: ToTokens> ToTokens for TraitBoundOf<T> {
    ghost use Rattle.syn_lower_types.specs.Printed.{trait_printed};

    ghost printed = { trait_printed T.printed };

    #[tactic(auto, using(syn_tokens::proofs::Fronts::fronts), unfolding(syn_tokens::specs::Sign::sign_text))]
    fn to_tokens(&self, tokens: &mut TokenStream) -> Result<()> {
        print_some(&self.maybe, tokens)?;
        print_some(&self.lifetimes, tokens)?;
        self.path.to_tokens(tokens)
    }
}

/// Prints what comes before the arguments of a function pointer.
#[tactic(auto, using(syn_tokens::proofs::Fronts::fronts), unfolding(crate::specs::Printed::fn_head_printed, syn_tokens::specs::Sign::word_text))]
fn print_fn_head(
    lifetimes: &Option<BoundLifetimes>,
    unsafety: &Option<Unsafe>,
    abi: &Option<Abi>,
    fn_token: &Fn,
    tokens: &mut TokenStream,
) -> Result<()>
    ensures ok { OnOk result (tokens.new ≡ tokens.old ++ fn_head_printed lifetimes.now unsafety.now abi.now) }
    ensures err { OnErr result (IsFront tokens.old tokens.new) }
    ensures memory { IfErr result (λ e. e.kind ≡ ErrorKind.OutOfMemory) }
{
    print_some(lifetimes, tokens)?;
    print_some(unsafety, tokens)?;
    print_some(abi, tokens)?;
    fn_token.to_tokens(tokens)
}

impl<T: ToTokens> ToTokens for TypeParamBoundOf<T> {
    ghost use Rattle.syn_lower_types.specs.Printed.{bound_printed};

    ghost printed = { bound_printed T.printed };

    fn to_tokens(&self, tokens: &mut TokenStream) -> Result<()> {
        match self {
            TypeParamBoundOf::Lifetime(x) => x.to_tokens(tokens),
            TypeParamBoundOf::Trait(x) => x.to_tokens(tokens),
        }
    }
}

impl<T: ToTokens> ToTokens for TypePathOf<T> {
    ghost use Rattle.syn_lower_types.specs.Printed.{type_path_printed};

    ghost printed = { type_path_printed T.printed };

    fn to_tokens(&self, tokens: &mut TokenStream) -> Result<()> {
        print_with_qself(&self.qself, &self.path, tokens)
    }
}

impl<T: ToTokens> ToTokens for TypeFnPtrOf<T> {
    ghost use Rattle.syn_lower_types.specs.Printed.{fn_ptr_printed};

    ghost printed = { fn_ptr_printed T.printed };

    #[tactic(auto, using(syn_tokens::proofs::Fronts::fronts), unfolding(syn_tokens::specs::Sign::sign_text, syn_tokens::specs::Sign::word_text))]
    fn to_tokens(&self, tokens: &mut TokenStream) -> Result<()> {
        print_fn_head(
            &self.lifetimes,
            &self.unsafety,
            &self.abi,
            &self.fn_token,
            tokens,
        )?;
        print_round(&self.paren_token, &self.inputs, &self.output, tokens)
    }
}
