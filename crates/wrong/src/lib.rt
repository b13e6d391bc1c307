//! Public calls, each under its own contract once more. The bodies here pass the call on; `must-fail` puts wrong ones in their
//! place, which the contract alone has to refuse.
#![tactic(auto)]

ghost use Rattle.std.specs.Prelude.{◌≡◌, ◌≤◌, ◌-◌, ◌*◌, ◌^◌, IfOk, IfErr, min, vec_items};
ghost use Rattle.exprfmt_run.specs.Calls.{reader, writer};
ghost use Rattle.exprfmt_run.specs.Run as program;
ghost use Rattle.syn_expr.specs.Promises.{PrintedAs};
ghost use Rattle.syn_expr.specs.Texts.{position_of};
ghost use Rattle.syn_expr_ast.specs.Printed.{ReadsExactly};
ghost use Rattle.syn_expr_core.specs.Refused.{MayRefuse};
ghost use Rattle.syn_expr_core.specs.View.{tree_of};
ghost use Rattle.syn_expr_flatten.specs.Flat.{IsFlat, placeholder};
ghost use Rattle.syn_expr_spec.specs.Place.{plain};
ghost use Rattle.syn_expr_spec.specs.Printed as positions;
ghost use Rattle.syn_expr_spec.specs.Printed.{context_of};
ghost use Rattle.syn_expr_spec.specs.Rule.{printed};
ghost use Rattle.syn_expr_spec.specs.Stands.{Stands};
ghost use Rattle.syn_expr_spec.specs.Tree.{own_tokens, size};
ghost use Rattle.syn_expr_spec.specs.WellFormed as spec;

use exprfmt_run::run::run;
use std::alloc::Global;
use std::io;
use syn_expr::{
    ErrorKind, Expr, FixupContext, Parse, ParseBuffer, Position, Result, TokenStream,
    flatten_in_place, is_well_formed, print_counted,
};

/// Reads an expression at the front, under the contract of `Expr::parse`.
pub fn read_expr(input: &mut ParseBuffer<'_>) -> Result<Expr>
    ensures exact { ReadsExactly tree_of (Stands plain) input.old result input.new }
    ensures refused { IfErr result (λ e. MayRefuse e.kind) }
{
    Expr::parse(input)
}

/// Whether an expression is well-formed, under the contract of `is_well_formed`.
pub fn well_formed(expr: &Expr) -> bool
    ensures { result ≡ spec.is_well_formed (tree_of expr.now) }
{
    is_well_formed(expr)
}

/// Takes away the parentheses in an expression, under the contract of `flatten_in_place`.
pub fn flattened(expr: &mut Expr) -> Result<()>
    ensures tree { IfOk result (λ _. IsFlat (tree_of expr.old) (tree_of expr.new)) }
    ensures memory { IfErr result (λ e. e.kind ≡ ErrorKind.OutOfMemory) }
    ensures refused { IfErr result (λ _. tree_of expr.new ≡ placeholder) }
{
    flatten_in_place(expr)
}

/// Prints an expression and counts the visits of its nodes, under the contract of `print_counted`.
pub fn counted(alloc: Global, expr: &Expr, fixup: FixupContext) -> Result<(TokenStream, u64)>
    ensures ok { IfOk result (λ r. r.0 ≡ own_tokens (printed fixup.context (tree_of expr.now))) }
    ensures promised { IfOk result (λ r. (s : positions.Position) → fixup.context ≡ context_of s → PrintedAs s (tree_of expr.now) r.0) }
    ensures least { IfOk result (λ r. min (size (tree_of expr.now)) (2 ^ 64 - 1) ≤ r.1) }
    ensures most { IfOk result (λ r. r.1 ≤ min (2 * size (tree_of expr.now)) (2 ^ 64 - 1)) }
    ensures err { IfErr result (λ e. e.kind ≡ ErrorKind.OutOfMemory) }
{
    print_counted(alloc, expr, fixup)
}

/// Does what the program `exprfmt` does, under the contract of `run`.
pub fn ran<R, W, E>(
    alloc: Global,
    position: Position,
    bare: bool,
    read: R,
    output: &mut W,
    errors: &mut E,
) -> u8
where
    R: FnOnce() -> io::Result<Vec<u8>>,
    W: FnMut(&[u8]) -> io::Result<()>,
    E: FnMut(&[u8]) -> io::Result<()>,
    requires input { R.IsAlwaysCallable read }
    requires output { W.IsAlwaysCallable output.old }
    requires errors { E.IsAlwaysCallable errors.old }
    ensures { program.Ran (position_of position) bare (reader R.FnOnce vec_items read) result (writer W.FnMut output.old output.new) (writer E.FnMut errors.old errors.new) }
{
    run(alloc, position, bare, read, output, errors)
}
