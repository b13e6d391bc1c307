//! Putting one token, one part that writes its own tokens, or braces with what they hold.

ghost use Rattle.std.specs.Prelude.{Ok, is_ok, MatchResult, ◌≡◌, ◌++◌, ◌∷◌, [], false, OnOk};
ghost use Rattle.syn_lower_leaves.specs.Printed.{option_printed};
ghost use Rattle.syn_tokens.specs.Input.{IsFront};
ghost use Rattle.syn_tokens.specs.View.{tok_of};
ghost use Rattle.syn_expr_ast.specs.Attrs.{inner_of};
ghost use Rattle.syn_expr_ast.specs.Node.{braces_of};
ghost use Rattle.syn_expr_ast.specs.View.{body_of};
ghost use Rattle.syn_expr_spec.specs.Tree.{body_own};
ghost use Rattle.syn_lexer.specs.declared.front.Delimiter.TheVariants as del;
ghost use Rattle.syn_lower_spec.specs.Own.{enclosed};

use crate::attrs::put_inner;
use crate::node::Braces;
use std::alloc::AllocError;
use syn_lower::attr::Attribute;
use syn_lower::stmt::Block;
use syn_tokens::buffer::ToTokens;
use syn_tokens::error::Result;
use syn_tokens::token::{Brace, Paren};
use syn_tokens::tree::{TokenStream, TokenTree};

/// What a printer answers inside. That memory ran out is all that printing is refused for, and needs no place: an `Error`
/// would double what the recursion takes of the machine's stack.
pub type PutResult = std::result::Result<(), AllocError>;

/// What was answered, without the place of a refusal.
pub fn put_result<T>(answer: Result<T>) -> std::result::Result<T, AllocError>
    ensures { MatchResult result (λ x. answer ≡ Ok x) (λ _. is_ok answer ≡ false) }
{
    match answer {
        Ok(x) => Ok(x),
        Err(_) => Err(AllocError),
    }
}

/// Puts a part at the end.
#[tactic(auto, using(syn_tokens::proofs::Fronts::fronts))]
pub fn put<T: ToTokens>(tokens: &mut TokenStream, part: &T) -> PutResult
    ensures ok { OnOk result (tokens.new ≡ tokens.old ++ T.printed part.now) }
    ensures front { IsFront tokens.old tokens.new }
{
    put_result(part.to_tokens(tokens))
}

/// Puts a part at the end, if there is one.
#[tactic(auto, using(syn_tokens::proofs::Fronts::fronts), unfolding(syn_lower_leaves::specs::Printed::option_printed))]
pub fn put_some<T: ToTokens>(tokens: &mut TokenStream, part: &Option<T>) -> PutResult
    ensures ok { OnOk result (tokens.new ≡ tokens.old ++ option_printed T.printed part.now) }
    ensures front { IsFront tokens.old tokens.new }
{
    match part {
        Some(part) => put(tokens, part),
        None => Ok(()),
    }
}

/// Puts a token tree at the end.
#[tactic(auto, using(syn_tokens::proofs::Fronts::fronts))]
pub fn put_tree(tokens: &mut TokenStream, tree: TokenTree) -> PutResult
    ensures ok { OnOk result (tokens.new ≡ tokens.old ++ tok_of tree ∷ []) }
    ensures front { IsFront tokens.old tokens.new }
{
    put_result(tokens.push(tree))
}

/// Puts the braces of a block, after the inner attributes of the node that has it.
#[tactic(auto, using(syn_tokens::proofs::Fronts::fronts, crate::proofs::Attributes::attrs))]
pub fn put_block(tokens: &mut TokenStream, attrs: &Vec<Attribute>, block: &Block) -> PutResult
    ensures ok { OnOk result (tokens.new ≡ tokens.old ++ body_own (body_of (inner_of attrs.now) block.now.stmts) []) }
    ensures front { IsFront tokens.old tokens.new }
{
    let mut inside = TokenStream::new(tokens.alloc());
    put_inner(&mut inside, attrs)?;
    put(&mut inside, &block.stmts)?;
    put_tree(tokens, block.brace_token.enclose(inside))
}

/// Puts the braces of a node.
pub fn put_body(tokens: &mut TokenStream, braces: Braces<'_>) -> PutResult
    ensures ok { OnOk result (tokens.new ≡ tokens.old ++ body_own (braces_of braces.entry) []) }
    ensures front { IsFront tokens.old tokens.new }
{
    let Braces { attrs, block } = braces;
    put_block(tokens, attrs, block)
}

/// Puts tokens in braces.
pub fn put_braces(tokens: &mut TokenStream, brace: &Brace, inside: TokenStream) -> PutResult
    ensures ok { OnOk result (tokens.new ≡ tokens.old ++ enclosed del.Brace inside []) }
    ensures front { IsFront tokens.old tokens.new }
{
    put_tree(tokens, brace.enclose(inside))
}

/// Puts tokens in parentheses.
pub fn put_paren(tokens: &mut TokenStream, paren: &Paren, inside: TokenStream) -> PutResult
    ensures ok { OnOk result (tokens.new ≡ tokens.old ++ enclosed del.Parenthesis inside []) }
    ensures front { IsFront tokens.old tokens.new }
{
    put_tree(tokens, paren.enclose(inside))
}

/// Puts tokens in parentheses that no value has, and that have no place.
pub fn put_parens(tokens: &mut TokenStream, inside: TokenStream) -> PutResult
    ensures ok { OnOk result (tokens.new ≡ tokens.old ++ enclosed del.Parenthesis inside []) }
    ensures front { IsFront tokens.old tokens.new }
{
    put_paren(tokens, &Paren::default(), inside)
}
