//! What is true of the definitions of reading, as contracts of functions that do nothing; and worked rows, which are
//! computed by the definitions alone.

ghost use Rattle.syn_expr_spec.specs.Exact.{HeadsAreExact, ReadingIsExact, OneTree};
ghost use Rattle.syn_expr_spec.specs.Rows.{WorkedRows};

/// Each form of what comes before, between and after operands is read exactly where its tokens are.
pub fn heads_are_exact()
    ensures { HeadsAreExact }
{}

/// What the reading answers stands for the tokens, and what stands is its answer.
pub fn reading_is_exact()
    ensures { ReadingIsExact }
{}

/// For a list of tokens and a place at most one tree is, before at most one rest.
pub fn one_tree()
    ensures { OneTree }
{}

/// Texts as tokens, and the tokens that are printed of each in plain, statement, condition or arm position, or that it is
/// refused.
pub fn worked_rows()
    ensures { WorkedRows }
{}
