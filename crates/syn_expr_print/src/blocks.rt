//! What is in braces that may be added: what is after `else`, and the body of a closure with an output (Rust Reference,
//! "`if` expressions", "Closure expressions").

ghost use Rattle.std.specs.Prelude.{◌≡◌, ◌+◌, ◌++◌, ◌∷◌, [], OnOk};
ghost use Rattle.syn_expr_print.specs.Placed as placed;
ghost use Rattle.syn_expr_ast.specs.Printed as printed;
ghost use Rattle.syn_expr_print.specs.Printing.{EndsWith, piece_spelled};
ghost use Rattle.syn_expr_print.specs.Prints.{Callable, Prints};
ghost use Rattle.syn_expr_print.specs.Taken.{Taken};
ghost use Rattle.syn_expr_spec.specs.Next as next;
ghost use Rattle.syn_expr_spec.specs.Summaries.{below, summary_of, stack};
ghost use Rattle.syn_expr_spec.specs.Rule as rule;
ghost use Rattle.syn_expr_spec.specs.Tree as e;
ghost use Rattle.syn_expr_spec.specs.Tree.{size};
ghost use Rattle.syn_lexer.specs.declared.front.Delimiter.TheVariants as del;
ghost use Rattle.syn_tokens.specs.Input.{IsFront};
ghost use Rattle.syn_tokens.specs.Tok as tok;

use crate::operand::inside;
use crate::print::{HasPrint, Summaries, take_summary};
use syn_expr_ast::node::HasShape;
use syn_expr_ast::put::{PutResult, put_braces};
use syn_expr_fixup::context::{enclosed, in_statement, place_by};
use syn_expr_spec::kinds::Precedence;
use syn_expr_spec::next::Context;
use syn_expr_spec::summary::{Sort, Summary};
use syn_tokens::token::Brace;
use syn_tokens::tree::TokenStream;

/// Whether a summary is that of a block without a label, before which no attributes are.
fn is_block_sort(sort: Sort) -> bool
    ensures { result ≡ placed.is_block_sort sort }
{
    matches!(sort, Sort::Block)
}

/// Whether a node is a block without a label and attributes; `summary` is its summary.
#[tactic(auto, using(crate::proofs::Plain::plains))]
fn is_plain_block<E: HasShape>(x: &E, summary: Summary) -> bool
    requires { summary ≡ summary_of (E.tree x.now) }
    ensures { result ≡ rule.is_plain_block (E.tree x.now) }
{
    match x.leaf() {
        Some(leaf) => leaf.is_plain_block() && is_block_sort(summary.sort),
        None => false,
    }
}

/// Prints what is put in braces, where it is as a statement; its summary was taken.
#[tactic(auto, using(syn_tokens::proofs::Fronts::fronts, crate::proofs::Spellings::roles))]
pub(crate) fn braced<
    E: HasPrint,
    F: Fn(&mut TokenStream, &mut Summaries, &E, Context) -> PutResult,
>(
    bare: &F,
    tokens: &mut TokenStream,
    summaries: &mut Summaries,
    x: &E,
    summary: Summary,
) -> PutResult
    requires summary { summary ≡ summary_of (E.tree x.now) }
    requires callable { Callable E.tree (size (E.tree x.now) + 1) (F.pre bare.now) }
    requires prints { Prints E.tree (F.post bare.now) }
    requires stacked { EndsWith summaries.old.left.items (below (E.tree x.now)) }
    ensures text { OnOk result (tokens.new ≡ tokens.old ++ tok.group del.Brace (tok.inside (printed.whole next.in_statement (E.tree x.now))) ∷ []) }
    ensures front { IsFront tokens.old tokens.new }
    ensures taken { OnOk result (Taken summaries.old summaries.new (below (E.tree x.now))) }
{
    let mut statement = TokenStream::new(tokens.alloc());
    let context = in_statement();
    let wrapped = place_by(Precedence::Jump, context, summary);
    inside(bare, &mut statement, summaries, x, wrapped, context)?;
    put_braces(tokens, &Brace::default(), statement)
}

/// Prints the body of a closure with an output: a block, or anything else in braces.
#[tactic(auto, using(syn_tokens::proofs::Fronts::fronts, crate::proofs::Spellings::roles, crate::proofs::Plain::outputs, crate::proofs::Stacks::takes))]
pub(crate) fn output<
    E: HasPrint,
    F: Fn(&mut TokenStream, &mut Summaries, &E, Context) -> PutResult,
>(bare: &F, tokens: &mut TokenStream, summaries: &mut Summaries, x: &E) -> PutResult
    requires callable { Callable E.tree (size (E.tree x.now) + 1) (F.pre bare.now) }
    requires prints { Prints E.tree (F.post bare.now) }
    requires stacked { EndsWith summaries.old.left.items (stack (E.tree x.now)) }
    ensures text { OnOk result (tokens.new ≡ tokens.old ++ piece_spelled e.output_block (E.tree x.now)) }
    ensures front { IsFront tokens.old tokens.new }
    ensures taken { OnOk result (Taken summaries.old summaries.new (stack (E.tree x.now))) }
{
    let summary = take_summary(summaries, x);
    if is_plain_block(x, summary) {
        inside(bare, tokens, summaries, x, false, enclosed())
    } else {
        braced(bare, tokens, summaries, x, summary)
    }
}
