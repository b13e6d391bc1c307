//! What the lexer makes of a layout, as the contract of a function that does nothing.

ghost use Rattle.syn_tidy.specs.Layout.{AreReadAgain};

/// Given a stream that some text falls into, as `is_lexed` tells, each layout of it falls into the same stream, spacing
/// included, wherever its white space stands (a law about definitions; it does nothing).
pub fn layouts_are_read_again()
    ensures { AreReadAgain }
{}
