//! What is true of the tokens of trees whose leaves are lexed, and of their text, as contracts of functions that do nothing.

ghost use Rattle.syn_text_spec.specs.Laws.{LeavesAreLexed, PartTextsAreReadBack, PartsAreLexed, PrintedAgain, PrintedIsLexed, ReadIsWellFormed, ReadTextIsStable, TextIsReadBack, TextIsStable};

/// The own tokens of a type, a path, a macro, a pattern or an expression whose leaves are lexed are a list that a text falls
/// into, if they stand before such a list (a law about definitions; it does nothing).
pub fn parts_are_lexed()
    ensures { PartsAreLexed }
{}

/// So are the tokens that are printed of an expression whose leaves are lexed, in plain position, as a statement, as a
/// condition and as an arm's body (a law about definitions; it does nothing).
pub fn printed_is_lexed()
    ensures { PrintedIsLexed }
{}

/// A type, a path, a macro or a pattern that is read of the tokens of a text has lexed leaves, and so has an expression, if its
/// verbatim tokens are lexed (a law about definitions; it does nothing).
pub fn leaves_are_lexed()
    ensures { LeavesAreLexed }
{}

/// A well-formed expression is printed, its tokens are written as a text, and the text is lexed and read: the result is the same
/// tree, up to parentheses and fill-ins, and no other tree can be read. This holds if the printed tokens pass `is_lexed`, as they do if the
/// leaves of the tree are lexed, or if the tree was read of a text and its verbatim tokens are lexed (a law about
/// definitions; it does nothing).
pub fn text_is_read_back()
    ensures { TextIsReadBack }
{}

/// The text of a type, a path, a macro or a pattern that passes its test and has lexed leaves is lexed as tokens that spell
/// this part, before tokens that don't go on with it (a law about definitions; it does nothing).
pub fn part_texts_are_read_back()
    ensures { PartTextsAreReadBack }
{}

/// An expression that was read of some tokens is well-formed exactly if it is ordinary: it keeps no verbatim tokens, has no
/// path that is `try` alone, and no invisible group (a law about definitions; it does nothing).
pub fn read_is_well_formed()
    ensures { ReadIsWellFormed }
{}

/// What is printed of a well-formed expression in a position is read by itself too, as the same tree as there, and this tree is
/// printed there as it is (a law about definitions; it does nothing).
pub fn printed_again()
    ensures { PrintedAgain }
{}

/// The text that is printed of a well-formed expression in a position, if its leaves are lexed, is read by itself as the same
/// tree, up to parentheses and fill-ins, and as no other; and this tree is printed there as the same text (a law about
/// definitions; it does nothing).
pub fn text_is_stable()
    ensures { TextIsStable }
{}

/// If a program reads a text, and prints what it read in a position, its own text is read again as the same tree, up to
/// parentheses and fill-ins, and is printed again as the same text. Of the tree it is asked that it is ordinary, and nothing of
/// its leaves, since they were lexed (a law about definitions; it does nothing).
pub fn read_text_is_stable()
    ensures { ReadTextIsStable }
{}
