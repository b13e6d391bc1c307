//! Laws of expressions without their parentheses, as contracts of functions that do nothing.

ghost use Rattle.syn_expr_flatten.specs.Laws.{FlattenedIsSame, FormedParensAreOuter, ReadParensAreOuter};

/// What is read, in whatever place, has outer attributes alone before its parentheses: flattening puts none of them into
/// braces.
pub fn read_parens_are_outer()
    ensures { ReadParensAreOuter }
{}

/// What is well-formed has outer attributes alone before its parentheses too, whether it was read or built.
pub fn formed_parens_are_outer()
    ensures { FormedParensAreOuter }
{}

/// Without its parentheses a well-formed expression is still well-formed; and where nothing is filled in to one when it is
/// printed, no comma and no `..`, nothing is filled in to what is left.
pub fn flattened_is_same()
    ensures { FlattenedIsSame }
{}
