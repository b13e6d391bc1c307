//! What the lexer and `to_text` make of each other, as contracts of functions that do nothing.

ghost use Rattle.syn_text.specs.Lexed.{IsExact, IsReadAgain};

/// A stream passes `is_lexed` exactly if some text falls into it (a law about definitions; it does nothing).
pub fn lexed_streams_are_those_of_texts()
    ensures { IsExact }
{}

/// If some text falls into a stream, then so does the stream's own text, spacing included: `lex`, `to_text` and `lex`
/// give what `lex` gives (a law about definitions; it does nothing).
pub fn lexed_text_is_read_again()
    ensures { IsReadAgain }
{}
