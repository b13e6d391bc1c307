//! The printers of struct patterns and their fields.

use crate::pat::{FieldPatKindOf, FieldPatOf, FullFieldPatOf, PatStructOf, ShortFieldPat};
use crate::print::{PrintPat, print_attributes, print_binding};
use syn_lower_leaves::print::print_some;
use syn_tokens::buffer::ToTokens;
use syn_tokens::error::Result;
use syn_tokens::tree::TokenStream;

impl ToTokens for ShortFieldPat {
    ghost use Rattle.syn_pat.specs.Printed.{short_printed};

    ghost printed = { short_printed };

    fn to_tokens(&self, tokens: &mut TokenStream) -> Result<()> {
        print_binding(&self.by_ref, &self.mutability, &self.ident, tokens)
    }
}

impl<P: PrintPat> ToTokens for FullFieldPatOf<P> {
    ghost use Rattle.syn_pat.specs.Printed.{full_printed};

    ghost printed = { full_printed P.spelled };

    #[tactic(auto, using(syn_tokens::proofs::Fronts::fronts), unfolding(syn_tokens::specs::Sign::sign_text))]
    fn to_tokens(&self, tokens: &mut TokenStream) -> Result<()> {
        self.member.to_tokens(tokens)?;
        self.colon_token.to_tokens(tokens)?;
        self.pat.print_pat(tokens)
    }
}

impl<P: PrintPat> ToTokens for FieldPatKindOf<P> {
    ghost use Rattle.syn_pat.specs.Printed.{kind_printed};

    ghost printed = { kind_printed P.spelled };

    fn to_tokens(&self, tokens: &mut TokenStream) -> Result<()> {
        match self {
            FieldPatKindOf::Short(x) => x.to_tokens(tokens),
            FieldPatKindOf::Full(x) => x.to_tokens(tokens),
        }
    }
}

impl<P: PrintPat> ToTokens for FieldPatOf<P> {
    ghost use Rattle.syn_pat.specs.Printed.{field_printed};

    ghost printed = { field_printed P.spelled };

    #[tactic(auto, using(syn_tokens::proofs::Fronts::fronts))]
    fn to_tokens(&self, tokens: &mut TokenStream) -> Result<()> {
        print_attributes(&self.attrs, tokens)?;
        self.kind.to_tokens(tokens)
    }
}

impl<P: PrintPat> ToTokens for PatStructOf<P> {
    ghost use Rattle.syn_pat.specs.Printed.{struct_printed};

    ghost printed = { struct_printed P.spelled };

    #[tactic(auto, using(syn_tokens::proofs::Fronts::fronts), unfolding(syn_tokens::specs::Sign::sign_text))]
    fn to_tokens(&self, tokens: &mut TokenStream) -> Result<()> {
        print_attributes(&self.attrs, tokens)?;
        self.path.to_tokens(tokens)?;
        let mut inside = TokenStream::new(tokens.alloc());
        self.fields.to_tokens(&mut inside)?;
        print_some(&self.rest, &mut inside)?;
        tokens.push(self.brace_token.enclose(inside))?;
        Ok(())
    }
}
