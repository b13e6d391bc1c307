//! Why a text is refused.

ghost use Rattle.std.specs.Prelude.{◌≡◌};
ghost use Rattle.syn_lexer.specs.ErrorText as spec;

/// What the lexer refuses.
#[derive(Clone, Copy, Debug, PartialEq, Eq, Hash)]
pub enum LexError {
    /// A doc comment: `///`, `//!`, `/**` or `/*!` (Rust Reference, "Comments"). No layer here makes attributes of
    /// them.
    DocComment,
    /// A block comment that is not closed, up to the end of the text (Rust Reference, "Comments").
    UnterminatedComment,
    /// `r#_`, `r#self`, `r#Self`, `r#super` or `r#crate` (Rust Reference, "Identifiers").
    ReservedRawIdentifier,
    /// A number with a missing digit or one outside of its base, a quote that is not closed, or `b''` (Rust Reference,
    /// "Tokens", "Literals").
    MalformedLiteral,
    /// A `'` that begins neither a character nor a lifetime, or a raw lifetime (Rust Reference, "Tokens", "Lifetimes
    /// and loop labels").
    MalformedLifetime,
    /// A delimiter that is opened and not closed (Rust Reference, "Tokens", "Delimiters").
    UnclosedDelimiter,
    /// A closing delimiter where none or another one is open.
    UnexpectedClosingDelimiter,
    /// A character that begins no lexeme.
    UnknownCharacter,
}

impl LexError {
    /// The text of the refusal.
    pub fn text(self) -> &'static str
        ensures { result.now ≡ spec.lex_error_text self }
    {
        match self {
            LexError::DocComment => "doc comment",
            LexError::UnterminatedComment => "unterminated comment",
            LexError::ReservedRawIdentifier => "reserved raw identifier",
            LexError::MalformedLiteral => "malformed literal",
            LexError::MalformedLifetime => "malformed lifetime",
            LexError::UnclosedDelimiter => "unclosed delimiter",
            LexError::UnexpectedClosingDelimiter => "unexpected closing delimiter",
            LexError::UnknownCharacter => "unknown character",
        }
    }
}

/// A refusal at the front of a text.
#[derive(Clone, Copy, Debug, PartialEq, Eq, Hash)]
pub struct Refusal {
    /// What is refused.
    pub error: LexError,
    /// How many characters there are from the lexeme's first one to where the lexer stood, at least one.
    pub len: usize,
}
