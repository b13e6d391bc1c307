//! Laws of the queries, each the contract of a call: what is asked of a tree or a type alone is what its own tokens say.

ghost use Rattle.syn_expr_spec.specs.Query.{LeadingLabelIsFirst, TrailingBraceIsLast, UnparameterizedPathsAreLast};
ghost use Rattle.syn_expr_spec.specs.QueryRows.{QueryRows};

/// A tree leads with a label exactly where its own tokens begin with a lifetime, whatever the tree (Rust Reference, "Loop
/// expressions", "Block expressions").
pub fn leading_label_is_first()
    ensures { LeadingLabelIsFirst }
{}

/// A tree ends with a brace exactly where the last of its own tokens is a group in braces, whatever the tree; and an `if`
/// always does, what comes after `else` as a block.
pub fn trailing_brace_is_last()
    ensures { TrailingBraceIsLast }
{}

/// A type that is read back ends in a path's segment without arguments exactly where the last of its own tokens is a name
/// (Rust Reference, "Paths in types"); each type that would go on at `<` does.
pub fn unparameterized_paths_are_last()
    ensures { UnparameterizedPathsAreLast }
{}

/// What the queries answer of texts, computed by the definitions alone.
pub fn query_rows()
    ensures { QueryRows }
{}
