//! Operands that may only have a certain form: blocks that keep their tokens, and values that are the name of their field.

ghost use Rattle.std.specs.Prelude.{◌≡◌};
ghost use Rattle.syn_expr_ast.specs.Node.{leaf_of};
ghost use Rattle.syn_expr_tokens.specs.View.{member_of};
ghost use Rattle.syn_expr_wellformed.specs.Walk.{is_word_leaf};
ghost use Rattle.syn_expr_spec.specs.WellFormed as spec;
ghost use Rattle.syn_lower_spec.specs.Pat.{a_name};

use crate::own::bare_leaf;
use syn_expr_ast::atom::is_word_alone;
use syn_expr_ast::node::{HasShape, Leaf};
use syn_expr_tokens::member::Member;

/// Whether it is the block of its tokens alone, without attributes.
#[tactic(auto, using(crate::proofs::VerbatimLeaves::blocks))]
pub(crate) fn is_verbatim_block<E: HasShape>(expr: &E) -> bool
    ensures { result ≡ spec.is_verbatim_block (E.tree expr.now) }
{
    match bare_leaf(expr) {
        Some(leaf) => leaf.is_plain_block(),
        None => false,
    }
}

/// Whether it is the path that is this word.
fn is_word(leaf: Leaf<'_>, word: &str) -> bool
    ensures { result ≡ is_word_leaf word.now (leaf_of leaf.entry) }
{
    match leaf {
        Leaf::Path(qself, path) => is_word_alone(qself, path, word),
        _ => false,
    }
}

/// Whether it is the path that is this name, without attributes.
#[tactic(auto, using(crate::proofs::VerbatimLeaves::names))]
fn is_name<E: HasShape>(expr: &E, name: &str) -> bool
    ensures { result ≡ spec.is_name_path (a_name name.now) (E.tree expr.now) }
{
    match bare_leaf(expr) {
        Some(leaf) => is_word(leaf, name),
        None => false,
    }
}

/// Whether it is the path that is the name of this field.
#[tactic(auto, using(crate::proofs::VerbatimLeaves::names))]
pub(crate) fn is_name_path<E: HasShape>(member: &Member, expr: &E) -> bool
    ensures { result ≡ spec.is_name_path (member_of member.now) (E.tree expr.now) }
{
    match member {
        Member::Named(name) => is_name(expr, name.as_str()),
        Member::Unnamed(_) => false,
    }
}
