//! The readers of expressions: at a place, in a list, before a block, and at the head of a statement or of an arm's body.

ghost use Rattle.std.specs.Prelude.{◌≡◌, IfErr, ◌≤◌};
ghost use Rattle.syn_expr_core.specs.Refused.{MayRefuse};
ghost use Rattle.syn_expr_core.specs.View.{tree_of};
ghost use Rattle.syn_expr_ast.specs.Printed.{ReadsExactly};
ghost use Rattle.syn_expr_spec.specs.Front.{begins_expr};
ghost use Rattle.syn_expr_spec.specs.Place.{at_head, before_block, plain};
ghost use Rattle.syn_expr_spec.specs.Stands.{Stands};
ghost use Rattle.syn_tokens.specs.declared.error.ErrorKind.TheVariants.{OutOfMemory};
ghost use Rattle.syn_expr_spec.specs.Read as read;
ghost use Rattle.syn_lower_leaves.specs.Reads.{Reads};
ghost use Rattle.syn_tokens.specs.Tok.{weight};

use crate::expr::Expr;
use crate::leftover::first_refusal;
use syn_expr_parse::known::{AT_HEAD, BEFORE_BLOCK, PLAIN};
use syn_expr_parse::operands::Grammar;
use syn_expr_spec::kinds::Place;
use syn_expr_tokens::op;
use syn_tokens::buffer::{Parse, ParseBuffer};
use syn_tokens::error::{Error, ErrorKind, Part, Result};

/// A refusal as one that readers of expressions answer. What comes is always one: the readers below make no other, but their
/// contracts don't say so. So the last arm, which would answer another as `UnexpectedToken` at its place, is never reached.
fn answered(refusal: Error) -> Error
    ensures may { MayRefuse result.kind }
    ensures memory { refusal.kind ≡ OutOfMemory → result.kind ≡ OutOfMemory }
{
    match refusal.kind {
        ErrorKind::OutOfMemory
        | ErrorKind::ExpectedExpression
        | ErrorKind::ChainedComparison
        | ErrorKind::LeftArrow
        | ErrorKind::AfterCast(_)
        | ErrorKind::RangeAttributes
        | ErrorKind::ExpectedLoopOrBlock
        | ErrorKind::ExpectedCommaOrSemi
        | ErrorKind::ParenthesesRequired
        | ErrorKind::ExpectedMember
        | ErrorKind::ExpectedUnsuffixedInteger
        | ErrorKind::IndexOutOfRange
        | ErrorKind::ExpectedToken(_)
        | ErrorKind::UnexpectedToken
        | ErrorKind::ExpectedPart(
            Part::Literal | Part::Path | Part::Type | Part::Pattern | Part::Macro,
        ) => refusal,
        _ => Error::new(refusal.span, ErrorKind::UnexpectedToken),
    }
}

/// Why the expression at a place of the input is refused.
pub(crate) fn refusal(input: &ParseBuffer<'_>, place: Place, e: Error) -> Error
    ensures may { MayRefuse result.kind }
    ensures memory { e.kind ≡ OutOfMemory → result.kind ≡ OutOfMemory }
{
    answered(first_refusal(input, place, e))
}

/// Reads the expression at a place. The input stays where it was where it is refused.
#[tactic(auto, using(crate::proofs::Holds::read_tail))]
fn ahead(input: &mut ParseBuffer<'_>, place: Place) -> Result<Expr>
    ensures exact { ReadsExactly tree_of (Stands place) input.old result input.new }
    ensures refused { IfErr result (λ e. MayRefuse e.kind) }
{
    let mut ahead = input.fork()?;
    let x = match expr_at(&mut ahead, place) {
        Ok(x) => x,
        Err(e) => return Err(refusal(input, place, e)),
    };
    input.advance_to(&ahead);
    Ok(Box::into_inner(x))
}

impl Parse for Expr {
    ghost use Rattle.syn_expr_core.specs.Refused.{MayRefuse};
    ghost use Rattle.syn_expr_spec.specs.Place.{plain};
    ghost use Rattle.syn_expr_spec.specs.Stands.{Stands};
    ghost use Rattle.syn_expr_spec.specs.Tree.{Tree};

    ghost Seen = { Tree };

    ghost seen = { tree_of };

    /// The tree comes before the rest, by the binding rules.
    ghost spells = { Stands plain };

    ghost least = { 1 };

    /// Whatever the list is, it is refused as one of the kinds that are named below, or out of memory.
    ghost refuses = { λ _ kind. MayRefuse kind };

    /// Reads an expression: the tree that is at the front of the list (Rust Reference, "Expressions", "Expression
    /// precedence").
    ///
    /// It is refused, memory aside, only where there is none, and the input then stays where it was:
    ///
    /// - as `ExpectedExpression` where an operand is missing, and as `ExpectedLoopOrBlock` where it has a label and is
    ///   neither;
    /// - as `ChainedComparison` at the second of two comparisons without parentheses, as `LeftArrow` at a `<-`, as
    ///   `AfterCast` at a trailer after a cast, as `RangeAttributes` at a range without a start after attributes, and as
    ///   `ParenthesesRequired` at the labelled value of a `break`;
    /// - as `ExpectedMember`, `ExpectedUnsuffixedInteger` or `IndexOutOfRange` after a dot, and as `ExpectedCommaOrSemi`
    ///   after the first element of an array;
    /// - as its literals, paths, types, patterns, attributes and macros are;
    /// - as `ExpectedToken` where a required token is missing, and as `UnexpectedToken` at a token that nothing reads. In the
    ///   brackets of an index that is reported last: `x[a b] + c` is refused at the `b`, but `x[a b] +` at its end.
    fn parse(input: &mut ParseBuffer<'_>) -> Result<Self>
        ensures exact { ReadsExactly tree_of (Stands plain) input.old result input.new }
        ensures refused { IfErr result (λ e. MayRefuse e.kind) }
    {
        ahead(input, PLAIN)
    }
}

impl Expr {
    /// Reads an expression before a block, as the condition of an `if` or a `while` and what a `match` or a `for` looks at
    /// (Rust Reference, "`if` expressions", "`match` expressions", "Predicate loops"): a path before a brace is no struct
    /// expression, but inside delimiters. It is read exactly where there is such an expression, unless memory runs out. It is
    /// refused as `parse` refuses an expression, and the input then stays where it was.
    pub fn parse_without_eager_brace(input: &mut ParseBuffer<'_>) -> Result<Expr>
        ensures exact { ReadsExactly tree_of (Stands before_block) input.old result input.new }
        ensures refused { IfErr result (λ e. MayRefuse e.kind) }
    {
        ahead(input, BEFORE_BLOCK)
    }

    /// Reads an expression at the head of a statement or of the body of a `match` arm (Rust Reference, "Expression
    /// statements", "`match` expressions"): where it begins with a block, a loop, an `if` or a `match`, it ends there, but
    /// before a `.` or `?`. It is read exactly where there is such an expression, unless memory runs out. It is refused as
    /// `parse` refuses an expression, but at a range without a start after attributes, and the input then stays where it was.
    pub fn parse_with_earlier_boundary_rule(input: &mut ParseBuffer<'_>) -> Result<Expr>
        ensures exact { ReadsExactly tree_of (Stands at_head) input.old result input.new }
        ensures refused { IfErr result (λ e. MayRefuse e.kind) }
    {
        ahead(input, AT_HEAD)
    }

    /// Whether an expression begins with the tokens that are left, by the first of them (Rust Reference, "Expressions"). It
    /// reads nothing, so one may still be refused.
    pub fn peek(input: &ParseBuffer<'_>) -> bool
        ensures { result ≡ begins_expr input.now.rest }
    {
        op::begins_expr(input)
    }
}

/// Reads the expression at a place. Where it is refused, tokens may have been passed over.
#[tactic(auto, using(syn_expr_parse::proofs::Operators::expr_is))]
pub(crate) fn expr_at(input: &mut ParseBuffer<'_>, place: Place) -> Result<Box<Expr>>
    ensures value { Reads (λ b. tree_of b.value) (read.expr place input.old.rest) result input.new.rest }
    ensures noted { input.new.noted ≡ input.old.noted }
    ensures shrinks { weight input.new.rest ≤ weight input.old.rest }
{
    Grammar { expr: expr_at }.at_place(input, place)
}
