//! Laws of printed trees, each the contract of a call: what they stand for, and that no pair of parentheses is redundant.

ghost use Rattle.syn_expr_spec.specs.Printed.{PrintedStands, NoneRedundant, NoPairRedundant, OwnSpelling, PairsAreAdded};

/// A well-formed tree, printed in plain position, as a statement, as a condition or as an arm's body, is the same tree there
/// up to parentheses and fill-ins, before whatever the position allows: its tokens stand for it.
pub fn printed_stands()
    ensures { PrintedStands }
{}

/// Without the pairs that are added, what is printed of a well-formed tree is the tree with its fill-ins.
pub fn pairs_are_added()
    ensures { PairsAreAdded }
{}

/// No parentheses are added to a well-formed tree in plain position, in a condition or in an arm exactly where the tree's own
/// spelling is there for it. (In operations with attributes they always are.)
pub fn none_redundant()
    ensures { NoneRedundant }
{}

/// Whatever list of tokens a tree stands for in plain position, it is printed there as it is, but for one pair of parentheses
/// round each operation that has attributes. So a tree without such operations is printed as its own spelling.
pub fn own_spelling()
    ensures { OwnSpelling }
{}

/// None of the pairs that are added to a well-formed tree in plain position, in a condition or in an arm can be left out by
/// itself: without it the tree stands for no list of tokens there. (No operation in the tree has attributes.)
pub fn no_pair_redundant()
    ensures { NoPairRedundant }
{}
