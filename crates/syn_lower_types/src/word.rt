//! Paths that are one word.

ghost use Rattle.std.specs.Option.{option_copied};
ghost use Rattle.std.specs.Prelude.{◌≡◌, IsTrue, ◌↔◌, Some, IfOk, IfErr};
ghost use Rattle.syn_lower_types.specs.View.{path_of};
ghost use Rattle.syn_lower_types.specs.Word as spec;

use crate::fits::has_none;
use crate::path::{PathArgumentsOf, PathOf, PathSegmentOf};
use crate::types::HasTree;
use std::alloc::Global;
use syn_lower_leaves::punctuated::Punctuated;
use syn_tokens::error::{ErrorKind, Result};
use syn_tokens::tree::Ident;

impl<T: HasTree> PathOf<T> {
    /// The word that it is, where it is a single segment without `::` and without arguments.
    #[tactic(auto, unfolding(syn_lower_leaves::specs::View::values, syn_lower_leaves::specs::View::trails))]
    pub fn get_ident(&self) -> Option<&Ident>
        ensures { option_copied result ≡ spec.word_of (path_of T.tree self.now) }
    {
        if self.leading_colon.is_some() {
            return None;
        }
        match (self.segments.inner.as_slice(), &self.segments.last) {
            ([], Some(segment)) if has_none(&segment.arguments) => Some(&segment.ident),
            _ => None,
        }
    }

    /// Whether it is this word alone, without `::` and without arguments.
    pub fn is_ident(&self, word: &str) -> bool
        ensures { IsTrue result ↔ (spec.word_of (path_of T.tree self.now) ≡ Some word.now) }
    {
        match self.get_ident() {
            Some(ident) => ident.as_str() == word,
            None => false,
        }
    }
}

impl<T: HasTree + Drop> PathOf<T> {
    /// The path that is this word. It is refused only where memory runs out.
    #[tactic(auto, unfolding(syn_lower_leaves::specs::View::values, syn_lower_leaves::specs::View::trails))]
    pub fn from_ident(alloc: Global, ident: Ident) -> Result<PathOf<T>>
        ensures made { IfOk result (λ p. path_of T.tree p ≡ spec.one_word ident) }
        ensures memory { IfErr result (λ e. e.kind ≡ ErrorKind.OutOfMemory) }
    {
        let mut segments = Punctuated::new(alloc);
        segments.push_value(PathSegmentOf {
            ident,
            arguments: PathArgumentsOf::None,
        })?;
        Ok(PathOf {
            leading_colon: None,
            segments,
        })
    }
}
