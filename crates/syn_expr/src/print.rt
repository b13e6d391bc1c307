//! The printer of expressions: a tree's own tokens, with the parentheses that it needs in a position, and their text.

ghost use Rattle.std.specs.Prelude.{◌≡◌, ◌++◌, ◌*◌, ◌-◌, ◌^◌, ◌≤◌, true, min, string_bytes, IfErr, IfOk, OnOk};
ghost use Rattle.syn_expr_core.specs.View.{tree_of};
ghost use Rattle.syn_expr.specs.Promises.{Puts, StandsBack, StandsWithPairs, IsOwn, IsMinimal, IsTextOf, IsLaidOut, IsLaidOutAgain, PrintedAs};
ghost use Rattle.syn_expr_spec.specs.Next.{enclosed};
ghost use Rattle.syn_expr_spec.specs.Printed as positions;
ghost use Rattle.syn_expr_spec.specs.Printed.{context_of, place_of};
ghost use Rattle.syn_expr_spec.specs.Rule.{printed};
ghost use Rattle.syn_expr_spec.specs.Tree.{own_tokens, size};
ghost use Rattle.syn_expr_spec.specs.WellFormed.{is_well_formed};
ghost use Rattle.syn_tokens.specs.Input.{IsFront};
ghost use Rattle.syn_expr_core.specs.Refused.{MayRefuse};
ghost use Rattle.syn_expr_ast.specs.Printed.{ReadsExactly};
ghost use Rattle.syn_expr_fixup.specs.Fixup.{whole_at};
ghost use Rattle.syn_expr.specs.Texts.{position_of};
ghost use Rattle.syn_expr_spec.specs.Stands.{Stands};
ghost use Rattle.syn_text_spec.specs.Laws.{IsStable, unchanged};
ghost use Rattle.syn_text_spec.specs.Leaves.{leaves_lexed};

use std::alloc::Global;
use syn_expr_core::expr::Expr;
use syn_expr_fixup::FixupContext;
use syn_tidy::tidy;
use syn_tokens::buffer::{Parse, ParseBuffer};
use syn_tokens::error::{ErrorKind, Result};
use syn_tokens::text::to_text;
use syn_tokens::tree::TokenStream;

/// Puts the tokens of an expression at the end, with the parentheses that it needs where it is printed: those without which
/// the tokens would be read as another tree, or not at all (Rust Reference, "Expression precedence"). In a statement a `let`
/// and a macro with braces get some that are redundant, and so may an operation after attributes.
///
/// How tightly an operand has to bind there plays no part: who prints an operand asks that before. Memory may run out
/// (`OutOfMemory`); a part of the tokens may then follow what was there.
pub fn print_expr(expr: &Expr, tokens: &mut TokenStream, fixup: FixupContext) -> Result<()>
    ensures ok { OnOk result (tokens.new ≡ tokens.old ++ own_tokens (printed fixup.context (tree_of expr.now))) }
    ensures front { IsFront tokens.old tokens.new }
    ensures err { IfErr result (λ e. e.kind ≡ ErrorKind.OutOfMemory) }

    // In the position that this is, they stand for the same tree.
    ensures back { OnOk result ((s : positions.Position) → fixup.context ≡ context_of s → Puts tokens.old tokens.new (StandsBack s (tree_of expr.now))) }
    // It is the tree with its fill-ins and with pairs of parentheses that were added.
    ensures added { OnOk result ((s : positions.Position) → fixup.context ≡ context_of s → Puts tokens.old tokens.new (StandsWithPairs s (tree_of expr.now))) }
    // What stands for some list is written as its own spelling, but for a pair round each operation that has attributes.
    ensures own { OnOk result (fixup.context ≡ enclosed → Puts tokens.old tokens.new (IsOwn (tree_of expr.now))) }
    // No parentheses are added needlessly, and none of them can be left out.
    ensures minimal { OnOk result ((s : positions.Position) → fixup.context ≡ context_of s → Puts tokens.old tokens.new (IsMinimal s (tree_of expr.now))) }
{
    syn_expr_core::print_counted(expr, tokens, fixup.context())?;
    Ok(())
}

/// The tokens that `print_expr` puts at the end, and a count of visits of nodes: one where the ends of a node are summarized, and
/// one where it is printed. The count is at least the number of nodes, and at most twice that number. Guards in patterns where there
/// may be none are counted too, although they aren't printed. A count that reaches the greatest `u64` stays there.
///
/// Memory may run out (`OutOfMemory`).
pub fn print_counted(alloc: Global, expr: &Expr, fixup: FixupContext) -> Result<(TokenStream, u64)>
    ensures ok { IfOk result (λ r. r.0 ≡ own_tokens (printed fixup.context (tree_of expr.now))) }
    ensures promised { IfOk result (λ r. (s : positions.Position) → fixup.context ≡ context_of s → PrintedAs s (tree_of expr.now) r.0) }
    ensures least { IfOk result (λ r. min (size (tree_of expr.now)) (2 ^ 64 - 1) ≤ r.1) }
    ensures most { IfOk result (λ r. r.1 ≤ min (2 * size (tree_of expr.now)) (2 ^ 64 - 1)) }
    ensures err { IfErr result (λ e. e.kind ≡ ErrorKind.OutOfMemory) }
{
    let mut tokens = TokenStream::new(alloc);
    let visits = syn_expr_core::print_counted(expr, &mut tokens, fixup.context())?;
    Ok((tokens, visits))
}

/// The text of an expression in a position: that of the tokens which `print_expr` puts there. `(a + b) * c` gives
/// `"(a + b) * c"`, whether or not the tree has the parentheses. `parse_str` reads that text of a well-formed expression as the
/// same tree, up to parentheses and fill-ins, if its words, lifetimes, literals and kept tokens are such as `lex` makes.
///
/// Memory may run out (`OutOfMemory`).
pub fn expr_to_text(alloc: Global, expr: &Expr, position: Position) -> Result<String>
    ensures text { IfOk result (λ s. IsTextOf (position_of position) (tree_of expr.now) (string_bytes s)) }
    // Of a well-formed expression whose leaves are lexed, the text is lexed, and read by itself as the same tree; and of this one
    // it is the text in this position.
    ensures again { IfOk result (λ s. is_well_formed (tree_of expr.now) ≡ true → leaves_lexed (tree_of expr.now) ≡ true → IsStable unchanged (position_of position) (tree_of expr.now) (string_bytes s)) }
    ensures memory { IfErr result (λ e. e.kind ≡ ErrorKind.OutOfMemory) }
{
    let printed = print_counted(alloc, expr, position.fixup())?;
    to_text(&printed.0)
}

/// The text of an expression in a position, with white space as people write it: `a.b(&x)?`, where `expr_to_text` writes
/// `a . b (& x) ?`. The tokens are the same. White space stands where it has to, so between any two puncts that are tokens of
/// their own (`& &x`, `f:: <T>()`, `& 'a T`), and elsewhere where people put it. No line ends between tokens.
///
/// `parse_str` reads that text of a well-formed expression as the same tree, up to parentheses and fill-ins, if its words,
/// lifetimes, literals and kept tokens are such as `lex` makes. Memory may run out (`OutOfMemory`).
pub fn tidy_text(alloc: Global, expr: &Expr, position: Position) -> Result<String>
    // It lays out the tokens that are printed of the expression in this position.
    ensures layout { IfOk result (λ s. IsLaidOut (position_of position) (tree_of expr.now) (string_bytes s)) }
    // For a well-formed expression whose words, literals and kept tokens are such as `lex` makes: this text alone is read as a
    // tree that is the same up to parentheses and fill-ins. It also lays out the tokens that are printed for that tree.
    ensures again { IfOk result (λ s. is_well_formed (tree_of expr.now) ≡ true → leaves_lexed (tree_of expr.now) ≡ true → IsLaidOutAgain (position_of position) (tree_of expr.now) (string_bytes s)) }
    ensures memory { IfErr result (λ e. e.kind ≡ ErrorKind.OutOfMemory) }
{
    let printed = print_counted(alloc, expr, position.fixup())?;
    tidy(alloc, &printed.0)
}

/// Where an expression is, and what may come after it there.
#[derive(Clone, Copy, Debug, PartialEq, Eq)]
pub enum Position {
    /// By itself, as in delimiters: nothing is after it.
    Plain,
    /// A statement, with nothing or a `;` after it (Rust Reference, "Expression statements").
    Stmt,
    /// Before the block of an `if`, `while`, `match` or `for` (Rust Reference, "`if` expressions").
    Cond,
    /// The body of a match arm, with nothing or a `,` after it (Rust Reference, "`match` expressions").
    Arm,
}

impl Position {
    /// The `FixupContext` with which `print_expr` prints an expression in this position.
    pub fn fixup(self) -> FixupContext
        ensures { result ≡ whole_at (context_of (position_of self)) }
    {
        match self {
            Position::Plain => FixupContext::NONE,
            Position::Stmt => FixupContext::new_stmt(),
            Position::Cond => FixupContext::new_condition(),
            Position::Arm => FixupContext::new_match_arm(),
        }
    }

    /// Reads the expression that is in this position, as the reader of the position reads it: `parse`,
    /// `parse_without_eager_brace` or `parse_with_earlier_boundary_rule`. It is refused as that reader refuses it, and the
    /// input then stays where it was.
    pub fn parse(self, input: &mut ParseBuffer<'_>) -> Result<Expr>
        ensures exact { ReadsExactly tree_of (Stands (place_of (position_of self))) input.old result input.new }
        ensures refused { IfErr result (λ e. MayRefuse e.kind) }
    {
        match self {
            Position::Plain => Expr::parse(input),
            Position::Cond => Expr::parse_without_eager_brace(input),
            Position::Stmt | Position::Arm => Expr::parse_with_earlier_boundary_rule(input),
        }
    }
}
