//! Laws of trees, of what is known of them, and of how operands bind, each the contract of a call.

ghost use Rattle.syn_expr_spec.specs.Binding.{ComparisonsDontChain, RightOperandBindsTighter, LeftOperandBindsAsTight, RangeIsNoLeftOperand, ConditionsHaveNoStructures, CommaTestsDiffer};
ghost use Rattle.syn_expr_spec.specs.IsWellFormed.{TestIsExact};
ghost use Rattle.syn_expr_spec.specs.Summaries.{SummariesAreRight};
ghost use Rattle.syn_expr_spec.specs.Same.{FlattenIsIdempotent, PrintedIsSame};

/// A tree whose parentheses are removed has none to remove.
pub fn flatten_is_idempotent()
    ensures { FlattenIsIdempotent }
{}

/// The test of well-formed trees tells just those whose parts are each read back from their own tokens, and are where they
/// may.
pub fn test_is_exact()
    ensures { TestIsExact }
{}

/// Whatever is after and round it, a well-formed tree is printed as the same tree, up to parentheses and to commas and
/// dots that are filled in.
pub fn printed_is_same()
    ensures { PrintedIsSame }
{}

/// What is known of a node decides as the rule does whether the node is put in parentheses, and a tree has no more summaries
/// than nodes.
pub fn summaries_are_right()
    ensures { SummariesAreRight }
{}

/// In a tree that is, no comparison has a bare comparison as its left operand (Rust Reference, "Comparison
/// operators": they cannot be chained).
pub fn comparisons_dont_chain()
    ensures { ComparisonsDontChain }
{}

/// In a tree that is, an infix operand without parentheses on the right of an operator, or after a prefix operator, a
/// `let`, a jump or a closure's head, is above what it comes after, or both are assignments (Rust Reference, "Expression
/// precedence").
pub fn right_operand_binds_tighter()
    ensures { RightOperandBindsTighter }
{}

/// In a tree that is, an infix left operand without parentheses binds at least as tight as its operator, unless a
/// range without parentheses is at its right end.
pub fn left_operand_binds_as_tight()
    ensures { LeftOperandBindsAsTight }
{}

/// In a tree that is, no range without parentheses is a left operand or a base, and no other infix expression without
/// parentheses is a base.
pub fn range_is_no_left_operand()
    ensures { RangeIsNoLeftOperand }
{}

/// No struct expression is in a condition but in delimiters or after a jump, where it does (Rust Reference, "`if`
/// expressions"): so a path before the brace of the block stays a path.
pub fn conditions_have_no_structures()
    ensures { ConditionsHaveNoStructures }
{}

/// What needs a comma to be the body of a match arm needs a semicolon to be a statement, but for a call of a macro with
/// braces, which needs the comma alone.
pub fn comma_tests_differ()
    ensures { CommaTestsDiffer }
{}
