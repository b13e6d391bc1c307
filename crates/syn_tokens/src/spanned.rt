//! Where trees are in the text that they were read from.
#![tactic(auto, using(crate::proofs::Ends::ends))]

ghost use Rattle.syn_tokens.specs.Spans.{IsPlaceOf};

use crate::buffer::ToTokens;
use crate::error::Result;
use crate::tree::{Span, TokenTree};
use std::alloc::Global;

/// From where the first of some token trees begins to where the last one ends; `None` of no trees. Contracts see no place
/// of a word or a literal.
pub fn span_of(trees: &[TokenTree]) -> Option<Span>
    ensures { IsPlaceOf trees.now result }
{
    match (trees.first(), trees.last()) {
        (Some(first), Some(last)) => Some(Span {
            lo: first.span().lo,
            hi: last.span().hi,
        }),
        _ => None,
    }
}

/// What stands somewhere in a text: all that is written as tokens.
pub trait Spanned: ToTokens {
    ghost use Rattle.std.specs.Prelude.{◌≡◌, IfErr, IfOk};
    ghost use Rattle.syn_tokens.specs.Spans.{IsPlaced};
    ghost use Rattle.syn_tokens.specs.declared.error.ErrorKind.TheVariants.{OutOfMemory};

    /// From where the first token that is printed of it begins to where the last one ends; `None` where nothing is printed
    /// of it. A token that was not read from a text is at `0..0`, and so do parentheses that printing adds.
    ///
    /// It prints the tree and looks at both ends, as syn's `span` does. It is refused only where memory runs out.
    final fn span(&self, alloc: Global) -> Result<Option<Span>>
        ensures place { IfOk result (λ s. IsPlaced (Self.printed self.now) s) }
        ensures memory { IfErr result (λ e. e.kind ≡ OutOfMemory) }
    {
        let tokens = self.to_token_stream(alloc)?;
        Ok(span_of(tokens.trees()))
    }
}

impl<T: ToTokens> Spanned for T {}
