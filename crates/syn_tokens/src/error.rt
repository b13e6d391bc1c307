//! Why a text or a list of tokens is refused.

ghost use Rattle.std.specs.Prelude.{◌≡◌};
ghost use Rattle.syn_tokens.specs.declared.error.ErrorKind.TheVariants.{OutOfMemory};
ghost use Rattle.syn_tokens.specs.ErrorText as spec;

use crate::Delimiter;
use crate::token::{sign_text, word_text};
use crate::tree::Span;
use std::alloc::{AllocError, AllocFailed};
use std::fmt;
pub use syn_lexer::error::LexError;

/// What a reader, a printer or the lexer answers.
pub type Result<T> = std::result::Result<T, Error>;

/// A refusal: what was refused, and where. It takes no memory.
#[derive(Clone, Copy, Debug, PartialEq, Eq)]
pub struct Error {
    /// Where: the token tree at which it was found (of a token of several puncts the first), unless the kind
    /// says otherwise. At the end of what a group encloses it is the closing delimiter, at the end of a whole
    /// list the end of its last token.
    pub span: Span,
    /// What.
    pub kind: ErrorKind,
}

impl Error {
    /// A refusal at a place.
    pub fn new(span: Span, kind: ErrorKind) -> Error
        ensures { result ≡ record { span = span; kind = kind } }
    {
        Error { span, kind }
    }
}

/// What is refused.
#[derive(Clone, Copy, Debug, PartialEq, Eq)]
pub enum ErrorKind {
    /// Memory ran out; the place tells nothing.
    OutOfMemory,
    /// No expression begins here.
    ExpectedExpression,
    /// No binary operator is here.
    ExpectedBinaryOperator,
    /// A comparison whose left side is a bare comparison.
    ChainedComparison,
    /// `<-` where an operator may stand.
    LeftArrow,
    /// A trailer after a cast.
    AfterCast(AfterCast),
    /// Attributes in front of a range that begins with its operator; the place is the operator.
    RangeAttributes,
    /// A label in front of neither a loop nor a block.
    ExpectedLoopOrBlock,
    /// Neither `,` nor `;` after the first element of an array.
    ExpectedCommaOrSemi,
    /// A labeled value of a `break` that wants parentheses; the place goes from the label to the value's end.
    ParenthesesRequired,
    /// No name or index where a member stands.
    ExpectedMember,
    /// Not an index, or one with a suffix.
    ExpectedUnsuffixedInteger,
    /// An index above 4294967295; the place is the whole literal.
    IndexOutOfRange,
    /// Another kind of expression was read; the place goes from its first to its last token.
    ExpectedExprKind(WantedKind),
    /// None of these tokens is here.
    ExpectedToken(Expected),
    /// A token that nothing reads, or the end where any token may stand.
    UnexpectedToken,
    /// A part of the grammar was expected here.
    ExpectedPart(Part),
    /// The lexer's refusal of a text, where `lex` says; or of one that is not the single token to be made, at the place
    /// given for it.
    Lex(LexError),
    /// `static` or `use` in front of a closure, where neither is allowed; the place is that word.
    /// `ClosureModifiers::require_empty` answers it, no reader does.
    ModifierNotEmpty,
}

/// The trailers that may not follow a cast (Rust Reference, "Type cast expressions").
#[derive(Clone, Copy, Debug, PartialEq, Eq)]
pub enum AfterCast {
    /// `.await`
    Await,
    /// `.name(..)` or `.name::<..>(..)`
    MethodCall,
    /// `.name` or `.0`
    FieldAccess,
    /// `?`
    Question,
    /// `[..]`
    Indexing,
    /// `(..)`
    FunctionCall,
}

/// The kinds of expressions that are wanted where an expression is read: those with an operand in front, ranges and tuples.
#[derive(Clone, Copy, Debug, PartialEq, Eq)]
pub enum WantedKind {
    /// `a = b`
    Assign,
    /// `a.await`
    Await,
    /// `a + b`
    Binary,
    /// `a(b)`
    Call,
    /// `a as T`
    Cast,
    /// `a.b`
    Field,
    /// `a[b]`
    Index,
    /// `a.b(c)`
    MethodCall,
    /// `a..b`
    Range,
    /// `a?`
    Try,
    /// `(a, b)`
    Tuple,
}

/// A token that a reader wants.
#[derive(Clone, Copy, Debug, PartialEq, Eq)]
pub enum Wanted {
    /// The sign at this place of `SIGNS`, an empty text past it.
    Sign(u8),
    /// The word at this place of `WORDS`, an empty text past it.
    Word(u8),
    /// `_`
    Underscore,
    /// An identifier; most readers want one that is no reserved word.
    Identifier,
    /// A lifetime.
    Lifetime,
    /// A group with this delimiter.
    Delimiter(Delimiter),
}

/// The tokens that a reader wants, one of them.
#[derive(Clone, Copy, Debug, PartialEq, Eq)]
pub enum Expected {
    /// This one.
    One(Wanted),
    /// One of two.
    Two(Wanted, Wanted),
    /// One of three.
    Three(Wanted, Wanted, Wanted),
}

/// Parts of the grammar.
#[derive(Clone, Copy, Debug, PartialEq, Eq)]
pub enum Part {
    /// A literal.
    Literal,
    /// A path.
    Path,
    /// A type.
    Type,
    /// A pattern.
    Pattern,
    /// A macro call, or its group after the `!`.
    Macro,
    /// An attribute. No reader here answers it.
    Attribute,
}

impl From<AllocError> for Error {
    ghost from_gives = { λ _ e. e.kind ≡ OutOfMemory };

    fn from(_e: AllocError) -> Error {
        Error {
            span: Span::call_site(),
            kind: ErrorKind::OutOfMemory,
        }
    }
}

impl<T: Drop> From<AllocFailed<T>> for Error {
    ghost from_gives = { λ _ e. e.kind ≡ OutOfMemory };

    fn from(_e: AllocFailed<T>) -> Error {
        Error {
            span: Span::call_site(),
            kind: ErrorKind::OutOfMemory,
        }
    }
}

impl AfterCast {
    /// How the refusal names it.
    pub fn text(self) -> &'static str
        ensures { result.now ≡ spec.after_cast_text self }
    {
        match self {
            AfterCast::Await => "`.await`",
            AfterCast::MethodCall => "a method call",
            AfterCast::FieldAccess => "a field access",
            AfterCast::Question => "`?`",
            AfterCast::Indexing => "indexing",
            AfterCast::FunctionCall => "a function call",
        }
    }
}

impl WantedKind {
    /// How the refusal names it.
    pub fn text(self) -> &'static str
        ensures { result.now ≡ spec.kind_name self }
    {
        match self {
            WantedKind::Assign => "assignment expression",
            WantedKind::Await => "await expression",
            WantedKind::Binary => "binary operation",
            WantedKind::Call => "function call expression",
            WantedKind::Cast => "cast expression",
            WantedKind::Field => "struct field access",
            WantedKind::Index => "indexing expression",
            WantedKind::MethodCall => "method call expression",
            WantedKind::Range => "range expression",
            WantedKind::Try => "try expression",
            WantedKind::Tuple => "tuple expression",
        }
    }
}

impl Part {
    /// How the refusal names it.
    pub fn text(self) -> &'static str
        ensures { result.now ≡ spec.part_text self }
    {
        match self {
            Part::Literal => "a literal",
            Part::Path => "a path",
            Part::Type => "a type",
            Part::Pattern => "a pattern",
            Part::Macro => "a macro",
            Part::Attribute => "an attribute",
        }
    }
}

impl fmt::Display for Wanted {
    ghost use Rattle.syn_tokens.specs.ErrorText.{wanted_text};
    ghost use Rattle.std.specs.Prelude.{Some};

    ghost output = { λ w. Some (wanted_text w) };

    fn fmt<W: fmt::Write>(&self, f: &mut fmt::Formatter<W>) -> fmt::Result {
        match self {
            Wanted::Sign(k) => write!(f, "`{}`", sign_text(usize::from(*k))),
            Wanted::Word(k) => write!(f, "`{}`", word_text(usize::from(*k))),
            Wanted::Underscore => f.write_str("`_`"),
            Wanted::Identifier => f.write_str("identifier"),
            Wanted::Lifetime => f.write_str("lifetime"),
            Wanted::Delimiter(delimiter) => match delimiter {
                Delimiter::Parenthesis => f.write_str("`(`"),
                Delimiter::Brace => f.write_str("`{`"),
                Delimiter::Bracket => f.write_str("`[`"),
                Delimiter::None => f.write_str("invisible group"),
            },
        }
    }
}

impl fmt::Display for Expected {
    ghost use Rattle.syn_tokens.specs.ErrorText.{expected_text};
    ghost use Rattle.std.specs.Prelude.{Some};

    ghost output = { λ e. Some (expected_text e) };

    fn fmt<W: fmt::Write>(&self, f: &mut fmt::Formatter<W>) -> fmt::Result {
        match self {
            Expected::One(a) => write!(f, "expected {a}"),
            Expected::Two(a, b) => write!(f, "expected {a} or {b}"),
            Expected::Three(a, b, c) => write!(f, "expected {a}, {b} or {c}"),
        }
    }
}

impl fmt::Display for ErrorKind {
    ghost use Rattle.syn_tokens.specs.ErrorText.{kind_text};
    ghost use Rattle.std.specs.Prelude.{Some};

    ghost output = { λ k. Some (kind_text k) };

    fn fmt<W: fmt::Write>(&self, f: &mut fmt::Formatter<W>) -> fmt::Result {
        match self {
            ErrorKind::OutOfMemory => f.write_str("out of memory"),
            ErrorKind::ExpectedExpression => f.write_str("expected an expression"),
            ErrorKind::ExpectedBinaryOperator => f.write_str("expected binary operator"),
            ErrorKind::ChainedComparison => f.write_str("comparison operators cannot be chained"),
            ErrorKind::LeftArrow => f.write_str(
                "unexpected operator `<-`, if this is intended to be a comparison against a negative then a space is required: `< -`",
            ),
            ErrorKind::AfterCast(after) => write!(
                f,
                "casts cannot be followed by {}",
                after.text()
            ),
            ErrorKind::RangeAttributes => f.write_str(
                "attributes are not allowed on range expressions starting with `..`",
            ),
            ErrorKind::ExpectedLoopOrBlock => f.write_str("expected loop or block expression"),
            ErrorKind::ExpectedCommaOrSemi => f.write_str("expected `,` or `;`"),
            ErrorKind::ParenthesesRequired => f.write_str("parentheses required"),
            ErrorKind::ExpectedMember => f.write_str("expected identifier or integer"),
            ErrorKind::ExpectedUnsuffixedInteger => f.write_str("expected unsuffixed integer"),
            ErrorKind::IndexOutOfRange => f.write_str("index out of range"),
            ErrorKind::ExpectedExprKind(wanted) => write!(f, "expected {}", wanted.text()),
            ErrorKind::ExpectedToken(wanted) => write!(f, "{wanted}"),
            ErrorKind::UnexpectedToken => f.write_str("unexpected token"),
            ErrorKind::ExpectedPart(part) => write!(f, "expected {}", part.text()),
            ErrorKind::Lex(error) => f.write_str(error.text()),
            ErrorKind::ModifierNotEmpty => f.write_str("modifier not empty"),
        }
    }
}

impl fmt::Display for Error {
    ghost use Rattle.syn_tokens.specs.ErrorText.{kind_text};
    ghost use Rattle.std.specs.Prelude.{Some};

    ghost output = { λ e. Some (kind_text e.kind) };

    fn fmt<W: fmt::Write>(&self, f: &mut fmt::Formatter<W>) -> fmt::Result {
        write!(f, "{}", self.kind)
    }
}

impl std::error::Error for Error {}
