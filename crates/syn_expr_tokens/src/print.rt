//! The printers of members, indices and labels: each writes its own spelling.

ghost use Rattle.std.specs.Prelude.{◌≡◌, [], IfErr, IfOk};
ghost use Rattle.syn_lower_spec.specs.PatOwn.{index_text};

use crate::member::{Index, Member};
use crate::modifiers::Label;
use std::alloc::Global;
use syn_tokens::buffer::ToTokens;
use syn_tokens::error::{ErrorKind, Result};
use syn_tokens::tree::{Literal, TokenStream, TokenTree};

/// The literal of an index, its decimal number.
#[tactic(auto, using(crate::proofs::Decimals::decimals))]
fn literal(alloc: Global, index: &Index) -> Result<Literal>
    ensures made { IfOk result (λ l. l ≡ index_text index.now.index) }
    ensures memory { IfErr result (λ e. e.kind ≡ ErrorKind.OutOfMemory) }
{
    let number = index.index;
    let text = format!(in alloc; "{number}")?;
    Literal::new(alloc, text.as_str(), index.span)
}

impl ToTokens for Index {
    ghost use Rattle.syn_expr_tokens.specs.View.{index_of};
    ghost use Rattle.syn_lower_spec.specs.PatOwn.{member_own};

    ghost printed = { λ x. member_own (index_of x) [] };

    #[tactic(auto, using(syn_tokens::proofs::Fronts::fronts))]
    fn to_tokens(&self, tokens: &mut TokenStream) -> Result<()> {
        let literal = literal(tokens.alloc(), self)?;
        tokens.push(TokenTree::Literal(literal))?;
        Ok(())
    }
}

impl ToTokens for Member {
    ghost use Rattle.syn_expr_tokens.specs.View.{member_of};
    ghost use Rattle.syn_lower_spec.specs.PatOwn.{member_own};

    ghost printed = { λ x. member_own (member_of x) [] };

    #[tactic(auto, using(syn_tokens::proofs::Fronts::fronts))]
    fn to_tokens(&self, tokens: &mut TokenStream) -> Result<()> {
        match self {
            Member::Named(ident) => ident.to_tokens(tokens),
            Member::Unnamed(index) => index.to_tokens(tokens),
        }
    }
}

impl ToTokens for Label {
    ghost use Rattle.syn_expr_tokens.specs.View.{label_of};
    ghost use Rattle.syn_expr_tokens.specs.View.{labeled_own};

    ghost printed = { λ x. labeled_own (label_of x) [] };

    #[tactic(auto, using(syn_tokens::proofs::Fronts::fronts), unfolding(syn_tokens::specs::Sign::sign_text))]
    fn to_tokens(&self, tokens: &mut TokenStream) -> Result<()> {
        self.name.to_tokens(tokens)?;
        self.colon_token.to_tokens(tokens)
    }
}
