//! What is true of the definitions of statements, as contracts of functions that do nothing.

ghost use Rattle.syn_stmt_spec.specs.Laws.{ReadingIsExact, OneList, ItemsStand, NoExpressionBeginsItem, NoStatementGoesOn, PrintedExpressionsStand, NoneOpenBeforeElse, ClosedStandBeforeElse, OwnSpelling, OwnLists, PrintedIsReadBack, NoStmtPairRedundant};

/// What the reading answers is spelled by the tokens, and what is spelled is its answer.
pub fn reading_is_exact()
    ensures { ReadingIsExact }
{}

/// A list of tokens spells at most one list of statements.
pub fn one_list()
    ensures { OneList }
{}

/// An item ends with its last token: it is the same item before any other tokens, and before none (Rust Reference, "Items").
pub fn items_stand()
    ensures { ItemsStand }
{}

/// What stands as an expression and may end a statement begins no item, and with no `;`: so no parentheses are ever needed for
/// the words that items begin with (Rust Reference, "Items").
pub fn no_expression_begins_item()
    ensures { NoExpressionBeginsItem }
{}

/// No statement begins with `.`, `?` or `else`: what comes before it would go on with these.
pub fn no_statement_goes_on()
    ensures { NoStatementGoesOn }
{}

/// A well-formed expression that is printed stands before `;` in plain position; one that ends with a block stands as a
/// statement before all that doesn't go on with it: neither `.` nor `?`, nor `else` (Rust Reference, "Expression statements").
pub fn printed_expressions_stand()
    ensures { PrintedExpressionsStand }
{}

/// What stands before `else` doesn't end with a bare jump or a range without an end, as which `else` would be read on (Rust
/// Reference, "`let` statements").
pub fn none_open_before_else()
    ensures { NoneOpenBeforeElse }
{}

/// A well-formed initialiser that is printed stands before `else`, but where it ends with a brace or with such a jump or range: so
/// it is put in parentheses there and nowhere else (Rust Reference, "`let` statements").
pub fn closed_stand_before_else()
    ensures { ClosedStandBeforeElse }
{}

/// What was read is printed as it is, where no operation in it has attributes: an initialiser, also one before `else`, and an
/// expression in statement position that no invisible group comes first in; and no `;` is filled in after an expression.
pub fn own_spelling()
    ensures { OwnSpelling }
{}

/// A whole list of statements that was read is printed as it is, where it has no invisible group and no operation in it has
/// attributes.
pub fn own_lists()
    ensures { OwnLists }
{}

/// Well-formed statements are printed as tokens that are read as the same statements, up to parentheses and fill-ins. So an
/// expression that is printed as a statement is read as one, and not as an item, a `let` statement or a macro.
pub fn printed_is_read_back()
    ensures { PrintedIsReadBack }
{}

/// None of the pairs of parentheses that are added to an expression in statement position or to an initialiser can be left out
/// by itself: without it no list of tokens spells the statement. (No operation in what is left has attributes.)
pub fn no_pair_redundant()
    ensures { NoStmtPairRedundant }
{}
