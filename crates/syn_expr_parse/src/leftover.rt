//! Lists of tokens without a leftover: without what is in brackets after an index.

ghost use Rattle.std.specs.Prelude.{◌≡◌, IfErr};

use std::alloc::Global;
use syn_tokens::Delimiter;
use syn_tokens::error::{ErrorKind, Result};
use syn_tokens::tree::{Group, Span, TokenStream, TokenTree, copy_tree};

/// Whether a base may end with this tree, so that brackets after it hold an index.
fn ends_base(tree: &TokenTree) -> bool {
    match tree {
        TokenTree::Punct(punct) => punct.ch == '?',
        _ => true,
    }
}

/// A copy of a tree, with its places, without the leftover at a place. `after_base`: brackets hold an index here.
#[cycle(cut)]
#[tactic(auto, using(syn_tokens::proofs::Views::insides))]
fn tree_without(
    alloc: Global,
    tree: &TokenTree,
    leftover: Span,
    after_base: bool,
) -> Result<TokenTree>
    ensures { IfErr result (λ e. e.kind ≡ ErrorKind.OutOfMemory) }
{
    match tree {
        TokenTree::Group(group) => {
            let is_index = after_base && group.delimiter == Delimiter::Bracket;
            let stream = trees_without(alloc, group.stream.trees(), leftover, is_index)?;
            Ok(TokenTree::Group(Group {
                delimiter: group.delimiter,
                stream,
                span: group.span,
            }))
        }
        _ => copy_tree(alloc, tree),
    }
}

/// A copy of some trees, with their places, without the leftover at a place. `is_index`: they are in the brackets of an
/// index, where the leftover may begin after the first.
#[cycle(cut)]
#[tactic(auto, using(syn_tokens::proofs::Views::insides, syn_tokens::proofs::Weights::one_at_least), unfolding(syn_tokens::specs::Tok::weight))]
fn trees_without(
    alloc: Global,
    trees: &[TokenTree],
    leftover: Span,
    is_index: bool,
) -> Result<TokenStream>
    ensures { IfErr result (λ e. e.kind ≡ ErrorKind.OutOfMemory) }
{
    let mut stream = TokenStream::new(alloc);
    let mut after_base = false;
    let mut rest = trees;
    while let [tree, more @ ..] = rest {
        if is_index && !stream.is_empty() && tree.span() == leftover {
            return Ok(stream);
        }
        stream.push(tree_without(alloc, tree, leftover, after_base)?)?;
        after_base = ends_base(tree);
        rest = more;
    }
    Ok(stream)
}

/// A copy of some trees, with their places, without the leftover that begins at a place: where the token there is in
/// the brackets of an index, that token is missing and all that follows it in them. It is refused only where memory runs
/// out.
pub fn without_leftover(alloc: Global, trees: &[TokenTree], leftover: Span) -> Result<TokenStream>
    ensures { IfErr result (λ e. e.kind ≡ ErrorKind.OutOfMemory) }
{
    trees_without(alloc, trees, leftover, false)
}
