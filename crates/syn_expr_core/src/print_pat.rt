//! The printer of patterns.

ghost use Rattle.std.specs.Prelude.{◌≡◌, ◌∷◌, ◌++◌, [], codes, IfErr, OnOk, OnErr};
ghost use Rattle.syn_pat.specs.Printed.{attributes_printed};
ghost use Rattle.syn_tokens.specs.Input.{IsFront};
ghost use Rattle.syn_tokens.specs.Tok.{ident};

use crate::pat::{Pat, PatGuard};
use syn_expr_ast::put::{PutResult, put_result};
use syn_expr_print::put::prefix::PutPat;
use syn_lower::attr::Attribute;
use syn_pat::print::{PrintPat, print_attributes};
use syn_tokens::buffer::ToTokens;
use syn_tokens::error::{ErrorKind, Result};
use syn_tokens::token::If;
use syn_tokens::tree::TokenStream;

/// Prints attributes, and a pattern after them, without its guards.
#[tactic(auto, using(syn_tokens::proofs::Fronts::fronts))]
fn print_behind<P: PrintPat>(
    attrs: &Vec<Attribute>,
    pat: &Box<P>,
    tokens: &mut TokenStream,
) -> Result<()>
    ensures ok { OnOk result (tokens.new ≡ tokens.old ++ (attributes_printed attrs.now ++ P.spelled pat.now.value)) }
    ensures err { OnErr result (IsFront tokens.old tokens.new) }
    ensures memory { IfErr result (λ e. e.kind ≡ ErrorKind.OutOfMemory) }
{
    print_attributes(attrs, tokens)?;
    pat.print_pat(tokens)
}

/// Prints attributes, a pattern after them without the guards in it, `if`, and a guard.
#[tactic(auto, using(syn_tokens::proofs::Fronts::fronts), unfolding(syn_tokens::specs::Sign::word_text))]
fn print_guarded<P: PrintPat, E: ToTokens>(
    attrs: &Vec<Attribute>,
    pat: &Box<P>,
    if_token: &If,
    guard: &Box<E>,
    tokens: &mut TokenStream,
) -> Result<()>
    ensures ok { OnOk result (tokens.new ≡ tokens.old ++ (attributes_printed attrs.now ++ (P.spelled pat.now.value ++ ident (codes "if") ∷ E.printed guard.now.value))) }
    ensures err { OnErr result (IsFront tokens.old tokens.new) }
    ensures memory { IfErr result (λ e. e.kind ≡ ErrorKind.OutOfMemory) }
{
    print_attributes(attrs, tokens)?;
    pat.print_pat(tokens)?;
    if_token.to_tokens(tokens)?;
    guard.to_tokens(tokens)
}

/// A pattern's own spelling, without the guards in it: what prints an arm, or a pattern by itself, prints the guard of the
/// whole after it.
impl PrintPat for Pat {
    ghost use Rattle.syn_expr_core.specs.View.{pat_of};
    ghost use Rattle.syn_lower_spec.specs.PatOwn.{pat_own};

    ghost spelled = { λ x. pat_own (pat_of x).tree [] };

    #[cycle(print)]
    #[tactic(auto, using(crate::proofs::PrintsPat::kinds))]
    fn print_pat(&self, tokens: &mut TokenStream) -> Result<()> {
        match self {
            Pat::Const(x) => x.to_tokens(tokens),
            Pat::Guard(x) => print_behind(&x.attrs, &x.pat, tokens),
            Pat::Ident(x) => x.to_tokens(tokens),
            Pat::Lit(x) => x.to_tokens(tokens),
            Pat::Macro(x) => x.to_tokens(tokens),
            Pat::Or(x) => x.to_tokens(tokens),
            Pat::Paren(x) => x.to_tokens(tokens),
            Pat::Path(x) => x.to_tokens(tokens),
            Pat::Range(x) => x.to_tokens(tokens),
            Pat::Reference(x) => x.to_tokens(tokens),
            Pat::Rest(x) => x.to_tokens(tokens),
            Pat::Slice(x) => x.to_tokens(tokens),
            Pat::Struct(x) => x.to_tokens(tokens),
            Pat::Tuple(x) => x.to_tokens(tokens),
            Pat::TupleStruct(x) => x.to_tokens(tokens),
            Pat::Typed(x) => x.to_tokens(tokens),
            Pat::Wild(x) => x.to_tokens(tokens),
        }
    }
}

impl PutPat for Pat {
    fn put_pat(&self, tokens: &mut TokenStream) -> PutResult {
        put_result(self.print_pat(tokens))
    }
}

impl ToTokens for PatGuard {
    ghost use Rattle.syn_expr_core.specs.Guarded.{pat_spelled};
    ghost use Rattle.syn_expr_core.specs.View.{guard_of};

    ghost printed = { λ x. pat_spelled (guard_of x) };

    /// Puts the attributes, the pattern without the guards in it, `if`, and the guard as the printer of an arm does.
    #[tactic(auto, using(crate::proofs::Spelled::by_itself))]
    fn to_tokens(&self, tokens: &mut TokenStream) -> Result<()> {
        print_guarded(&self.attrs, &self.pat, &self.if_token, &self.guard, tokens)
    }
}

impl ToTokens for Pat {
    ghost use Rattle.syn_expr_core.specs.Guarded.{pat_spelled};
    ghost use Rattle.syn_expr_core.specs.View.{pat_of};

    ghost printed = { λ x. pat_spelled (pat_of x) };

    /// Puts the pattern, and its guard where it has one as a whole; without the guards of the patterns inside.
    #[tactic(auto, using(crate::proofs::Spelled::by_itself))]
    fn to_tokens(&self, tokens: &mut TokenStream) -> Result<()> {
        match self {
            Pat::Guard(x) => x.to_tokens(tokens),
            _ => self.print_pat(tokens),
        }
    }
}
