//! The readers of members, indices and labels: each says as what it refuses.

ghost use Rattle.std.specs.Prelude.{◌≡◌, ◌⊎◌, ◌≤◌, ◌+◌, IfErr, IfOk};
ghost use Rattle.syn_expr_tokens.specs.View as labels;
ghost use Rattle.syn_expr_tokens.specs.Refusal as refusal;
ghost use Rattle.syn_lower_leaves.specs.Reads.{Reads};
ghost use Rattle.syn_lower_spec.specs.Pat as spec;
ghost use Rattle.syn_tokens.specs.Input.{IsAfter};
ghost use Rattle.syn_tokens.specs.Tok.{weight};
ghost use Rattle.syn_tokens.specs.declared.error.ErrorKind.TheVariants.{OutOfMemory};

use crate::member::{Index, Member};
use crate::modifiers::Label;
use crate::number::{index_of, is_integer, is_unsuffixed};
use syn_lexer::front::is_reserved_word;
use syn_lower_leaves::front::colon;
use syn_lower_leaves::leaf::lifetime;
use syn_tokens::buffer::ParseBuffer;
use syn_tokens::error::{ErrorKind, Expected, Result};
use syn_tokens::token::Colon;
use syn_tokens::tree::{TokenTree, copy_ident};

/// Reads an index. An integer with a suffix, or another token, is refused as `ExpectedUnsuffixedInteger`, an integer above
/// 4294967295 as `IndexOutOfRange`. It takes no memory.
#[tactic(auto, using(syn_tokens::proofs::Weights::drops, syn_tokens::proofs::Inputs::tails), unfolding(crate::specs::Refusal::index, syn_lower_spec::specs::Pat::index_of))]
pub fn index(input: &mut ParseBuffer<'_>) -> Result<Index>
    ensures value { Reads (λ x. x.index) (refusal.index.reads input.old.rest) result input.new.rest }
    ensures noted { input.new.noted ≡ input.old.noted }
    ensures shrinks { weight input.new.rest ≤ weight input.old.rest }
    ensures after { IsAfter input.old input.new }
    ensures stays { IfErr result (λ _. input.new ≡ input.old) }
    ensures moves { IfOk result (λ _. 1 + weight input.new.rest ≤ weight input.old.rest) }
    ensures refused { IfErr result (λ e. (e.kind ≡ refusal.index_refusal input.old.rest) × refusal.MayRefuseIndex e.kind) }
{
    let Some(TokenTree::Literal(literal)) = input.first() else {
        return Err(input.error(ErrorKind::ExpectedUnsuffixedInteger));
    };
    let Some(index) = index_of(literal.as_str()) else {
        let kind = if is_unsuffixed(literal.as_str()) {
            ErrorKind::IndexOutOfRange
        } else {
            ErrorKind::ExpectedUnsuffixedInteger
        };
        return Err(input.error(kind));
    };
    let span = input.span();
    input.skip(1);
    Ok(Index { index, span })
}

/// Reads a member, a name or an index. An integer with a suffix is refused as `ExpectedUnsuffixedInteger`, one above
/// 4294967295 as `IndexOutOfRange`, and another token as `ExpectedMember`.
#[tactic(auto, using(syn_tokens::proofs::Weights::drops, syn_tokens::proofs::Inputs::tails), unfolding(crate::specs::Refusal::index, syn_lower_spec::specs::Pat::member))]
pub fn member(input: &mut ParseBuffer<'_>) -> Result<Member>
    ensures value { Reads labels.member_of (spec.member.reads input.old.rest) result input.new.rest }
    ensures noted { input.new.noted ≡ input.old.noted }
    ensures shrinks { weight input.new.rest ≤ weight input.old.rest }
    ensures after { IsAfter input.old input.new }
    ensures stays { IfErr result (λ _. input.new ≡ input.old) }
    ensures moves { IfOk result (λ _. 1 + weight input.new.rest ≤ weight input.old.rest) }
    ensures refused { IfErr result (λ e. (e.kind ≡ OutOfMemory) ⊎ ((e.kind ≡ refusal.member_refusal input.old.rest) × refusal.MayRefuseMember e.kind)) }
{
    match input.first() {
        Some(TokenTree::Ident(word)) if !is_reserved_word(word.as_str()) => {
            let ident = copy_ident(input.alloc(), word)?;
            input.skip(1);
            Ok(Member::Named(ident))
        }
        Some(TokenTree::Literal(literal)) if is_integer(literal.as_str()) => {
            Ok(Member::Unnamed(index(input)?))
        }
        _ => Err(input.error(ErrorKind::ExpectedMember)),
    }
}

/// Reads a label. A missing lifetime or `:` is refused as `ExpectedToken` of it.
pub fn label(input: &mut ParseBuffer<'_>) -> Result<Label>
    ensures value { Reads labels.label_of (labels.labeled.reads input.old.rest) result input.new.rest }
    ensures noted { input.new.noted ≡ input.old.noted }
    ensures shrinks { weight input.new.rest ≤ weight input.old.rest }
    ensures refused { IfErr result (λ e. (e.kind ≡ OutOfMemory) ⊎ ((e.kind ≡ refusal.label_refusal input.old.rest) × refusal.MayRefuseLabel e.kind)) }
{
    let name = lifetime(input)?;
    let Some(colon_token) = colon(input) else {
        return Err(input.error(ErrorKind::ExpectedToken(Expected::One(Colon::wanted()))));
    };
    Ok(Label { name, colon_token })
}
