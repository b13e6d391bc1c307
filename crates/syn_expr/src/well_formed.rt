//! Whether an expression is read back.

ghost use Rattle.std.specs.Prelude.{◌≡◌};
ghost use Rattle.syn_expr_core.specs.View.{tree_of};
ghost use Rattle.syn_expr_spec.specs.WellFormed as spec;

use syn_expr_core::expr::Expr;
use syn_expr_wellformed::is_well;

/// Whether the tree of an expression is well-formed: a reader gives back the same tree from its own tokens, with parentheses
/// where they have to be. Ill-formed are verbatim tokens, invisible groups, and whatever no tokens spell: reserved words as names,
/// a block after `else` with attributes, a guard inside of a pattern.
pub fn is_well_formed(expr: &Expr) -> bool
    ensures { result ≡ spec.is_well_formed (tree_of expr.now) }
{
    is_well(expr)
}
