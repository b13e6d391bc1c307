//! What is in the braces of a block (Rust Reference, "Block expressions").

ghost use Rattle.std.specs.Prelude.{◌≡◌, ◌≤◌, [], true, IfOk};
ghost use Rattle.syn_expr_heads.specs.View.{body_of};
ghost use Rattle.syn_expr_spec.specs.Head as head;
ghost use Rattle.syn_expr_spec.specs.WellFormed.{attributes_inner};
ghost use Rattle.syn_lower_leaves.specs.Reads.{Reads};
ghost use Rattle.syn_tokens.specs.Tok.{weight};

use crate::leaf::Body;
use syn_lower_leaves::block::Block;
use syn_lower_leaves::leaf::inner_attributes;
use syn_tokens::buffer::ParseBuffer;
use syn_tokens::error::Result;
use syn_tokens::token::Brace;
use syn_tokens::tree::copy_trees;

/// Reads inner attributes, as many as there are, and keeps all that is after them.
#[tactic(auto, using(crate::proofs::Inner::inner), unfolding(syn_expr_spec::specs::Head::body_inside, syn_expr_spec::specs::Head::all_left))]
fn body_inside(content: &mut ParseBuffer<'_>, brace_token: Brace) -> Result<Body>
    ensures value { Reads body_of (head.body_inside.reads content.old.rest) result content.new.rest }
    ensures all { IfOk result (λ _. content.new.rest ≡ []) }
    ensures inner { IfOk result (λ b. attributes_inner (body_of b).inner ≡ true) }
{
    let attrs = inner_attributes(content)?;
    let stmts = copy_trees(content.alloc(), content.trees())?;
    content.skip(content.len());
    let block = Block { brace_token, stmts };
    Ok(Body { attrs, block })
}

/// Reads a block with inner attributes (Rust Reference, "Block expressions", "Attributes"). Missing braces are refused as
/// `ExpectedToken` of `{`, and an inner attribute without brackets as `ExpectedToken` of `[`.
#[tactic(auto, unfolding(syn_expr_spec::specs::Head::body))]
pub fn body(input: &mut ParseBuffer<'_>) -> Result<Body>
    ensures value { Reads body_of (head.body.reads input.old.rest) result input.new.rest }
    ensures inner { IfOk result (λ b. attributes_inner (body_of b).inner ≡ true) }
    ensures noted { input.new.noted ≡ input.old.noted }
    ensures shrinks { weight input.new.rest ≤ weight input.old.rest }
{
    let (brace_token, mut content) = input.parse_braces()?;
    body_inside(&mut content, brace_token)
}
