//! The printers of patterns: each writes its own spelling, the last punct of each token alone.

ghost use Rattle.std.specs.Prelude.{◌≡◌, ◌++◌, [], IfErr, OnOk, OnErr};
ghost use Rattle.syn_lower_leaves.specs.ReadBack.{all_printed};
ghost use Rattle.syn_lower_leaves.specs.Printed.{pairs_printed};
ghost use Rattle.syn_pat.specs.Printed.{attributes_printed, binding_printed, punctuated_printed, sub_printed};
ghost use Rattle.syn_tokens.specs.Input.{IsFront};

use crate::pat::{
    PatConst, PatIdentOf, PatLit, PatMacro, PatOrOf, PatParenOf, PatPath, PatRange, PatReferenceOf,
    PatRest, PatSliceOf, PatTupleOf, PatTupleStructOf, PatTypeOf, PatWild, RangeBound,
};
use syn_lower::attr::Attribute;
use syn_lower::print_qpath;
use syn_lower::punctuated::Punctuated;
use syn_lower_leaves::print::print_some;
use syn_lower_types::print::print_with_qself;
use syn_tokens::buffer::ToTokens;
use syn_tokens::error::{ErrorKind, Result};
use syn_tokens::token::{At, Mut, Ref};
use syn_tokens::tree::{Ident, TokenStream};

/// The type of patterns, as what holds patterns prints them: without the guards in them.
///
/// A guard is an expression, and the printer of expressions prints patterns: so this prints none.
pub trait PrintPat {
    ghost use Rattle.syn_tokens.specs.Tok.{Tok};
    ghost use Rattle.std.specs.Prelude.{◌≡◌, ◌++◌, OnOk, OnErr, IfErr, List};
    ghost use Rattle.syn_tokens.specs.Input.{IsFront};
    ghost use Rattle.syn_tokens.specs.declared.error.ErrorKind.TheVariants.{OutOfMemory};

    /// The tokens of a pattern without its guards.
    ghost spelled: { Self → List Tok };

    /// Puts a pattern at the end, without the guards in it. Where memory runs out a part of it may follow what was there.
    fn print_pat(&self, tokens: &mut TokenStream) -> Result<()>
        ensures ok { OnOk result (tokens.new ≡ tokens.old ++ spelled self.now) }
        ensures err { OnErr result (IsFront tokens.old tokens.new) }
        ensures memory { IfErr result (λ e. e.kind ≡ OutOfMemory) };
}

/// Prints patterns with the puncts after them.
#[tactic(auto, using(syn_tokens::proofs::Fronts::fronts))]
fn print_pairs<P: PrintPat, S: ToTokens>(
    mut pairs: &[(P, S)],
    tokens: &mut TokenStream,
) -> Result<()>
    ensures ok { OnOk result (tokens.new ≡ tokens.old ++ pairs_printed P.spelled S.printed pairs.entry.now) }
    ensures err { OnErr result (IsFront tokens.old tokens.new) }
    ensures memory { IfErr result (λ e. e.kind ≡ ErrorKind.OutOfMemory) }
{
    'pairs: while let [(pat, punct), more @ ..] = pairs {
        pat.print_pat(tokens)?;
        punct.to_tokens(tokens)?;
        pairs = more;
    }
    Ok(())
}

/// Prints patterns and the puncts between them.
#[tactic(auto, using(syn_tokens::proofs::Fronts::fronts), unfolding(syn_lower_leaves::specs::Printed::punctuated_printed, syn_lower_leaves::specs::Printed::option_printed))]
fn print_pats<P: PrintPat, S: ToTokens>(
    pats: &Punctuated<P, S>,
    tokens: &mut TokenStream,
) -> Result<()>
    ensures ok { OnOk result (tokens.new ≡ tokens.old ++ punctuated_printed P.spelled S.printed pats.now) }
    ensures err { OnErr result (IsFront tokens.old tokens.new) }
    ensures memory { IfErr result (λ e. e.kind ≡ ErrorKind.OutOfMemory) }
{
    print_pairs(&pats.inner, tokens)?;
    match &pats.last {
        Some(pat) => pat.print_pat(tokens),
        None => Ok(()),
    }
}

/// Prints attributes, one after another. It is refused as `OutOfMemory` alone, and the tokens that were there then stay in
/// front.
pub fn print_attributes(attrs: &Vec<Attribute>, tokens: &mut TokenStream) -> Result<()>
    ensures ok { OnOk result (tokens.new ≡ tokens.old ++ attributes_printed attrs.now) }
    ensures err { OnErr result (IsFront tokens.old tokens.new) }
    ensures memory { IfErr result (λ e. e.kind ≡ ErrorKind.OutOfMemory) }
{
    print_all(attrs, tokens)
}

/// Prints parts, one after another.
#[tactic(auto, using(syn_tokens::proofs::Fronts::fronts))]
fn print_all<T: ToTokens>(mut parts: &[T], tokens: &mut TokenStream) -> Result<()>
    ensures ok { OnOk result (tokens.new ≡ tokens.old ++ all_printed T.printed parts.entry.now) }
    ensures err { OnErr result (IsFront tokens.old tokens.new) }
    ensures memory { IfErr result (λ e. e.kind ≡ ErrorKind.OutOfMemory) }
{
    'parts: while let [part, more @ ..] = parts {
        part.to_tokens(tokens)?;
        parts = more;
    }
    Ok(())
}

impl ToTokens for PatWild {
    ghost use Rattle.syn_pat.specs.Printed.{wild_printed};

    ghost printed = { wild_printed };

    #[tactic(auto, using(syn_tokens::proofs::Fronts::fronts))]
    fn to_tokens(&self, tokens: &mut TokenStream) -> Result<()> {
        print_attributes(&self.attrs, tokens)?;
        self.underscore_token.to_tokens(tokens)
    }
}

impl ToTokens for PatRest {
    ghost use Rattle.syn_pat.specs.Printed.{rest_printed};

    ghost printed = { rest_printed };

    #[tactic(auto, using(syn_tokens::proofs::Fronts::fronts), unfolding(syn_tokens::specs::Sign::sign_text))]
    fn to_tokens(&self, tokens: &mut TokenStream) -> Result<()> {
        print_attributes(&self.attrs, tokens)?;
        self.dot2_token.to_tokens(tokens)
    }
}

impl ToTokens for RangeBound {
    ghost use Rattle.syn_lower_spec.specs.PatOwn.{range_bound_own};
    ghost use Rattle.syn_pat.specs.View.{bound_of};

    ghost printed = { λ x. range_bound_own (bound_of x) [] };

    fn to_tokens(&self, tokens: &mut TokenStream) -> Result<()> {
        match self {
            RangeBound::Lit(lit) => lit.to_tokens(tokens),
            RangeBound::Path { qself, path } => print_qpath(qself, path, tokens),
        }
    }
}

impl ToTokens for PatRange {
    ghost use Rattle.syn_pat.specs.Printed.{range_printed};

    ghost printed = { range_printed };

    #[tactic(auto, using(syn_tokens::proofs::Fronts::fronts))]
    fn to_tokens(&self, tokens: &mut TokenStream) -> Result<()> {
        print_attributes(&self.attrs, tokens)?;
        print_some(&self.start, tokens)?;
        self.limits.to_tokens(tokens)?;
        print_some(&self.end, tokens)
    }
}

impl ToTokens for PatLit {
    ghost use Rattle.syn_pat.specs.Printed.{lit_printed};

    ghost printed = { lit_printed };

    #[tactic(auto, using(syn_tokens::proofs::Fronts::fronts))]
    fn to_tokens(&self, tokens: &mut TokenStream) -> Result<()> {
        print_attributes(&self.attrs, tokens)?;
        self.lit.to_tokens(tokens)
    }
}

impl ToTokens for PatPath {
    ghost use Rattle.syn_pat.specs.Printed.{pat_path_printed};

    ghost printed = { pat_path_printed };

    #[tactic(auto, using(syn_tokens::proofs::Fronts::fronts))]
    fn to_tokens(&self, tokens: &mut TokenStream) -> Result<()> {
        print_attributes(&self.attrs, tokens)?;
        print_with_qself(&self.qself, &self.path, tokens)
    }
}

impl ToTokens for PatMacro {
    ghost use Rattle.syn_pat.specs.Printed.{pat_macro_printed};

    ghost printed = { pat_macro_printed };

    #[tactic(auto, using(syn_tokens::proofs::Fronts::fronts))]
    fn to_tokens(&self, tokens: &mut TokenStream) -> Result<()> {
        print_attributes(&self.attrs, tokens)?;
        self.mac.to_tokens(tokens)
    }
}

impl ToTokens for PatConst {
    ghost use Rattle.syn_pat.specs.Printed.{const_printed};

    ghost printed = { const_printed };

    #[tactic(auto, using(syn_tokens::proofs::Fronts::fronts), unfolding(syn_tokens::specs::Sign::word_text))]
    fn to_tokens(&self, tokens: &mut TokenStream) -> Result<()> {
        print_attributes(&self.attrs, tokens)?;
        self.const_token.to_tokens(tokens)?;
        self.block.to_tokens(tokens)
    }
}

/// Prints `ref`, `mut` and a name.
#[tactic(auto, using(syn_tokens::proofs::Fronts::fronts), unfolding(syn_tokens::specs::Sign::word_text))]
pub(crate) fn print_binding(
    by_ref: &Option<Ref>,
    mutability: &Option<Mut>,
    ident: &Ident,
    tokens: &mut TokenStream,
) -> Result<()>
    ensures ok { OnOk result (tokens.new ≡ tokens.old ++ binding_printed by_ref.now mutability.now ident.now) }
    ensures err { OnErr result (IsFront tokens.old tokens.new) }
    ensures memory { IfErr result (λ e. e.kind ≡ ErrorKind.OutOfMemory) }
{
    print_some(by_ref, tokens)?;
    print_some(mutability, tokens)?;
    ident.to_tokens(tokens)
}

/// Prints `@` and a pattern, where they are there.
#[tactic(auto, using(syn_tokens::proofs::Fronts::fronts), unfolding(syn_tokens::specs::Sign::sign_text))]
fn print_sub<P: PrintPat>(subpat: &Option<(At, Box<P>)>, tokens: &mut TokenStream) -> Result<()>
    ensures ok { OnOk result (tokens.new ≡ tokens.old ++ sub_printed P.spelled subpat.now) }
    ensures err { OnErr result (IsFront tokens.old tokens.new) }
    ensures memory { IfErr result (λ e. e.kind ≡ ErrorKind.OutOfMemory) }
{
    if let Some((at, pat)) = subpat {
        at.to_tokens(tokens)?;
        pat.print_pat(tokens)?;
    }
    Ok(())
}

impl<P: PrintPat> ToTokens for PatIdentOf<P> {
    ghost use Rattle.syn_pat.specs.Printed.{ident_printed};

    ghost printed = { ident_printed P.spelled };

    #[tactic(auto, using(syn_tokens::proofs::Fronts::fronts))]
    fn to_tokens(&self, tokens: &mut TokenStream) -> Result<()> {
        print_attributes(&self.attrs, tokens)?;
        print_binding(&self.by_ref, &self.mutability, &self.ident, tokens)?;
        print_sub(&self.subpat, tokens)
    }
}

impl<P: PrintPat> ToTokens for PatTupleStructOf<P> {
    ghost use Rattle.syn_pat.specs.Printed.{tuple_struct_printed};

    ghost printed = { tuple_struct_printed P.spelled };

    #[tactic(auto, using(syn_tokens::proofs::Fronts::fronts), unfolding(syn_tokens::specs::Sign::sign_text))]
    fn to_tokens(&self, tokens: &mut TokenStream) -> Result<()> {
        print_attributes(&self.attrs, tokens)?;
        self.path.to_tokens(tokens)?;
        let mut inside = TokenStream::new(tokens.alloc());
        print_pats(&self.elems, &mut inside)?;
        tokens.push(self.paren_token.enclose(inside))?;
        Ok(())
    }
}

impl<P: PrintPat> ToTokens for PatTupleOf<P> {
    ghost use Rattle.syn_pat.specs.Printed.{tuple_printed};

    ghost printed = { tuple_printed P.spelled };

    #[tactic(auto, using(syn_tokens::proofs::Fronts::fronts), unfolding(syn_tokens::specs::Sign::sign_text))]
    fn to_tokens(&self, tokens: &mut TokenStream) -> Result<()> {
        print_attributes(&self.attrs, tokens)?;
        let mut inside = TokenStream::new(tokens.alloc());
        print_pats(&self.elems, &mut inside)?;
        tokens.push(self.paren_token.enclose(inside))?;
        Ok(())
    }
}

impl<P: PrintPat> ToTokens for PatParenOf<P> {
    ghost use Rattle.syn_pat.specs.Printed.{paren_printed};

    ghost printed = { paren_printed P.spelled };

    #[tactic(auto, using(syn_tokens::proofs::Fronts::fronts))]
    fn to_tokens(&self, tokens: &mut TokenStream) -> Result<()> {
        print_attributes(&self.attrs, tokens)?;
        let mut inside = TokenStream::new(tokens.alloc());
        self.pat.print_pat(&mut inside)?;
        tokens.push(self.paren_token.enclose(inside))?;
        Ok(())
    }
}

impl<P: PrintPat> ToTokens for PatSliceOf<P> {
    ghost use Rattle.syn_pat.specs.Printed.{slice_printed};

    ghost printed = { slice_printed P.spelled };

    #[tactic(auto, using(syn_tokens::proofs::Fronts::fronts), unfolding(syn_tokens::specs::Sign::sign_text))]
    fn to_tokens(&self, tokens: &mut TokenStream) -> Result<()> {
        print_attributes(&self.attrs, tokens)?;
        let mut inside = TokenStream::new(tokens.alloc());
        print_pats(&self.elems, &mut inside)?;
        tokens.push(self.bracket_token.enclose(inside))?;
        Ok(())
    }
}

impl<P: PrintPat> ToTokens for PatReferenceOf<P> {
    ghost use Rattle.syn_pat.specs.Printed.{reference_printed};

    ghost printed = { reference_printed P.spelled };

    #[tactic(auto, using(syn_tokens::proofs::Fronts::fronts), unfolding(syn_tokens::specs::Sign::sign_text, syn_tokens::specs::Sign::word_text))]
    fn to_tokens(&self, tokens: &mut TokenStream) -> Result<()> {
        print_attributes(&self.attrs, tokens)?;
        self.and_token.to_tokens(tokens)?;
        print_some(&self.mutability, tokens)?;
        self.pat.print_pat(tokens)
    }
}

impl<P: PrintPat> ToTokens for PatOrOf<P> {
    ghost use Rattle.syn_pat.specs.Printed.{or_printed};

    ghost printed = { or_printed P.spelled };

    #[tactic(auto, using(syn_tokens::proofs::Fronts::fronts), unfolding(syn_tokens::specs::Sign::sign_text))]
    fn to_tokens(&self, tokens: &mut TokenStream) -> Result<()> {
        print_attributes(&self.attrs, tokens)?;
        print_some(&self.leading_vert, tokens)?;
        print_pats(&self.cases, tokens)
    }
}

impl<P: PrintPat> ToTokens for PatTypeOf<P> {
    ghost use Rattle.syn_pat.specs.Printed.{typed_printed};

    ghost printed = { typed_printed P.spelled };

    #[tactic(auto, using(syn_tokens::proofs::Fronts::fronts), unfolding(syn_tokens::specs::Sign::sign_text))]
    fn to_tokens(&self, tokens: &mut TokenStream) -> Result<()> {
        print_attributes(&self.attrs, tokens)?;
        self.pat.print_pat(tokens)?;
        self.colon_token.to_tokens(tokens)?;
        self.ty.to_tokens(tokens)
    }
}
