//! The printers of types, and of the paths that they qualify: each writes its own spelling, the last punct of each token
//! alone.

ghost use Rattle.std.specs.Prelude.{◌≡◌, ◌++◌, [], ◌∷◌, IfErr, OnOk, OnErr};
ghost use Rattle.syn_lower.specs.View.{type_of, path_with, qself_or};
ghost use Rattle.syn_lower_types.specs.View.{path_of};
ghost use Rattle.syn_lower_spec.specs.Own.{alone, type_own};
ghost use Rattle.syn_tokens.specs.Input.{IsFront};
ghost use Rattle.syn_tokens.specs.Tok as tok;

use crate::path::{Path, QSelf};
use crate::ty::{Type, TypeInfer, TypeNever};
use syn_lower_types::print::print_with_qself;
use syn_tokens::buffer::ToTokens;
use syn_tokens::error::{ErrorKind, Result};
use syn_tokens::tree::TokenStream;

impl ToTokens for TypeNever {
    ghost printed = { λ x. alone 33 ∷ [] };

    #[tactic(auto, unfolding(syn_tokens::specs::Sign::sign_text))]
    fn to_tokens(&self, tokens: &mut TokenStream) -> Result<()> {
        self.bang_token.to_tokens(tokens)
    }
}

impl ToTokens for TypeInfer {
    ghost use Rattle.std.specs.Prelude.{codes};

    ghost printed = { λ x. tok.ident (codes "_") ∷ [] };

    fn to_tokens(&self, tokens: &mut TokenStream) -> Result<()> {
        self.underscore_token.to_tokens(tokens)
    }
}

impl ToTokens for Type {
    ghost use Rattle.syn_lower.specs.View.{type_of};
    ghost use Rattle.syn_lower_spec.specs.Own.{type_own};

    ghost printed = { λ x. type_own (type_of x) [] };

    #[cycle(print)]
    #[tactic(auto, using(crate::proofs::Prints::kinds))]
    fn to_tokens(&self, tokens: &mut TokenStream) -> Result<()> {
        match self {
            Type::Path(x) => x.to_tokens(tokens),
            Type::Macro(x) => x.to_tokens(tokens),
            Type::Reference(x) => x.to_tokens(tokens),
            Type::Ptr(x) => x.to_tokens(tokens),
            Type::Slice(x) => x.to_tokens(tokens),
            Type::Array(x) => x.to_tokens(tokens),
            Type::Tuple(x) => x.to_tokens(tokens),
            Type::Paren(x) => x.to_tokens(tokens),
            Type::Never(x) => x.to_tokens(tokens),
            Type::Infer(x) => x.to_tokens(tokens),
            Type::FnPtr(x) => x.to_tokens(tokens),
            Type::ImplTrait(x) => x.to_tokens(tokens),
            Type::TraitObject(x) => x.to_tokens(tokens),
        }
    }
}

/// Prints a path and the type that it is qualified by, if there is one: `<T as a::b>::c`, or the path alone. `position`
/// says how many segments come before `>`; where the path has fewer, all do. `as` is printed exactly where some do,
/// whatever `as_token` is. It is refused as `OutOfMemory` alone, and the tokens that were there then stay in front.
#[inline(always)]
#[tactic(auto, using(syn_lower_types::proofs::Prints::qpaths))]
pub fn print_qpath(qself: &Option<QSelf>, path: &Path, tokens: &mut TokenStream) -> Result<()>
    ensures ok { OnOk result (tokens.new ≡ tokens.old ++ type_own (path_with (qself_or type_of qself.now) (path_of type_of path.now)) []) }
    ensures err { OnErr result (IsFront tokens.old tokens.new) }
    ensures memory { IfErr result (λ e. e.kind ≡ ErrorKind.OutOfMemory) }
{
    print_with_qself(qself, path, tokens)
}
