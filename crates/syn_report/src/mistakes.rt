//! Mistakes that are made often, and what to write instead.

ghost use Rattle.std.specs.Prelude.{◌≡◌};
ghost use Rattle.syn_report.specs.Report as spec;

use syn_tokens::error::{ErrorKind, LexError, Part};

/// Where a refusal is.
#[derive(Clone, Copy)]
pub(crate) struct Site<'a> {
    /// The text before it, on its line.
    pub(crate) before: &'a str,
    /// What is marked there.
    pub(crate) marked: &'a str,
    /// The text from it on.
    pub(crate) behind: &'a str,
}

/// By what a mistake is known.
#[derive(Clone, Copy)]
enum Clue {
    /// This was found.
    Found(&'static str),
    /// This word comes before what was found.
    After(&'static str),
    /// A malformed literal begins with this.
    Literal(&'static str),
    /// This is in a malformed literal.
    InLiteral(&'static str),
    /// A `'` begins neither a lifetime nor a character.
    Quote,
    /// The tokens of a macro call are missing.
    Macro,
    /// A comparison of a cast, which was read as the arguments of its type.
    Cast,
    /// Generic arguments, which were read as a comparison.
    Arguments,
    /// A comma after the base of a struct.
    Base,
    /// The `else` of a `let`.
    LetElse,
    /// An item.
    Item,
    /// A doc comment.
    DocComment,
}

/// What to write instead of a string in `'`.
const CHARACTER: &str = "there is one character between two `'`: write `\"` around a string";

/// What to write, by the clue. The first that fits counts.
const MISTAKES: &[(Clue, &str)] = &[
    (Clue::Found("and"), "write `&&` instead of `and`"),
    (Clue::Found("or"), "write `||` instead of `or`"),
    (Clue::After("not"), "write `!` instead of `not`"),
    (Clue::Found("==="), "write `==` instead of `===`"),
    (Clue::Found("!=="), "write `!=` instead of `!==`"),
    (Clue::Found("<>"), "write `!=` instead of `<>`"),
    (Clue::Found("++"), "write `+= 1` instead of `++`"),
    (
        Clue::Cast,
        "write parentheses around the cast, as in `(x as u8) < 3`: a `<` after a type begins its arguments",
    ),
    (
        Clue::Arguments,
        "write `::<` before generic arguments, as in `Foo::<T>::new()`",
    ),
    (
        Clue::Base,
        "write the base `..a` last, with no comma after it",
    ),
    (
        Clue::LetElse,
        "`let .. else` is a statement: write `if let .. { .. } else { .. }`, or put it into a block `{ .. }`",
    ),
    (
        Clue::Item,
        "an item is not an expression: put it into a block `{ .. }`",
    ),
    (
        Clue::Macro,
        "write the tokens of the macro call in `()`, `[]` or `{}`, as in `foo!()`",
    ),
    (
        Clue::Found(";"),
        "`;` ends a statement: leave it out, or put the statement into a block `{ .. }`",
    ),
    (Clue::Quote, CHARACTER),
    (Clue::Literal("'"), CHARACTER),
    (Clue::Literal("b'"), CHARACTER),
    (Clue::Literal("0b"), "the digits after `0b` are 0 and 1"),
    (Clue::Literal("0o"), "the digits after `0o` are 0 to 7"),
    (Clue::Literal("0x"), "write a hexadecimal digit after `0x`"),
    (
        Clue::InLiteral("\""),
        "write the closing quote of the string",
    ),
    (Clue::InLiteral("e"), "write a digit after the `e`"),
    (Clue::InLiteral("E"), "write a digit after the `E`"),
    (
        Clue::DocComment,
        "a doc comment is an attribute: write `//`, or `#[doc = \"..\"]`",
    ),
];

/// Whether a refusal is about the token that was found.
pub(crate) fn is_of_token(kind: ErrorKind) -> bool
    ensures { result ≡ spec.is_of_token kind }
{
    matches!(
        kind,
        ErrorKind::ExpectedExpression
            | ErrorKind::ExpectedBinaryOperator
            | ErrorKind::ExpectedLoopOrBlock
            | ErrorKind::ExpectedCommaOrSemi
            | ErrorKind::ExpectedMember
            | ErrorKind::ExpectedUnsuffixedInteger
            | ErrorKind::ExpectedToken(_)
            | ErrorKind::ExpectedPart(_)
            | ErrorKind::UnexpectedToken
    )
}

/// Whether a word may have a character.
fn is_of_word(c: char) -> bool {
    c == '_' || c.is_alphanumeric()
}

/// Whether the last character of a text belongs to a word.
fn ends_in_word(text: &str) -> bool {
    match text.chars().next_back() {
        Some(c) => is_of_word(c),
        None => false,
    }
}

/// Whether a text ends with a word.
fn ends_with_word(text: &str, word: &str) -> bool {
    match text.trim_end().strip_suffix(word) {
        Some(rest) => !ends_in_word(rest),
        None => false,
    }
}

/// Whether a text is the name of a type, perhaps with `::` in it.
fn is_type_name(text: &str) -> bool {
    text.chars().all(|c| c == ':' || is_of_word(c))
}

/// Whether a text ends in a cast to a named type, and a `<` that nothing closes.
fn ends_in_cast(text: &str) -> bool {
    match text.rsplit_once('<') {
        Some((cast, arguments)) if !arguments.contains('>') => {
            match cast.trim_end_matches('<').rsplit_once(" as ") {
                Some((_, name)) => is_type_name(name.trim()),
                None => false,
            }
        }
        _ => false,
    }
}

/// Whether the first `>` of a text, or the last of several, is right before `::` or `(`.
fn closes_arguments(text: &str) -> bool {
    match text.split_once('>') {
        Some((_, more)) => {
            let behind = more.trim_start_matches('>');
            behind.starts_with("::") || behind.starts_with('(')
        }
        None => false,
    }
}

/// Whether a text ends with the base of a struct.
fn ends_with_base(text: &str) -> bool {
    match text.rsplit_once("..") {
        Some((fields, _)) => fields.trim_end().ends_with(['{', ',']),
        None => false,
    }
}

impl Clue {
    /// Whether it is at this place of a refusal of this kind.
    fn fits(self, kind: ErrorKind, site: &Site<'_>) -> bool {
        let Site {
            before,
            marked,
            behind,
        } = site;
        match self {
            Clue::Found(token) => is_of_token(kind) && *marked == token,
            Clue::After(word) => is_of_token(kind) && ends_with_word(before, word),
            Clue::Literal(front) => is_malformed(kind) && marked.starts_with(front),
            Clue::InLiteral(part) => is_malformed(kind) && marked.contains(part),
            Clue::Quote => kind == ErrorKind::Lex(LexError::MalformedLifetime) && *marked == "'",
            Clue::Macro => kind == ErrorKind::ExpectedPart(Part::Macro)
                && before.trim_end().ends_with('!'),
            Clue::Cast => is_of_token(kind) && ends_in_cast(before),
            Clue::Arguments => is_of_arguments(kind, site) && closes_arguments(behind),
            Clue::Base => {
                kind == ErrorKind::UnexpectedToken && *marked == "," && ends_with_base(before)
            }
            Clue::LetElse => *marked == "else" && before.trim_start().starts_with("let "),
            Clue::Item => is_of_item(kind, site),
            Clue::DocComment => kind == ErrorKind::Lex(LexError::DocComment),
        }
    }
}

/// Whether a literal is refused.
pub(crate) fn is_malformed(kind: ErrorKind) -> bool {
    kind == ErrorKind::Lex(LexError::MalformedLiteral)
}

/// Whether a comparison is refused, or a comma after a `<`.
fn is_of_arguments(kind: ErrorKind, site: &Site<'_>) -> bool {
    kind == ErrorKind::ChainedComparison || site.marked == "," && site.before.contains('<')
}

/// Whether an item is refused. `use`, `const` and `static` may begin a closure too, `unsafe` and `async` a block.
fn is_of_item(kind: ErrorKind, site: &Site<'_>) -> bool {
    match kind {
        ErrorKind::ExpectedExpression => begins_item(site.marked, site.behind),
        ErrorKind::ExpectedToken(_) => {
            site.marked == "fn" || matches!(site.before.trim(), "use" | "const" | "static")
        }
        ErrorKind::ExpectedPart(Part::Macro) => site.before.trim_end().ends_with("macro_rules!"),
        _ => false,
    }
}

/// Whether a text begins with the word of an item.
fn begins_item(word: &str, text: &str) -> bool {
    match word {
        "enum" | "extern" | "fn" | "impl" | "mod" | "pub" | "struct" | "trait" | "type" => true,
        _ => text.starts_with("async fn "),
    }
}

/// What to write instead, if that is known.
pub(crate) fn help(kind: ErrorKind, site: &Site<'_>) -> Option<&'static str> {
    for mistake in MISTAKES {
        let (clue, help) = *mistake;
        if clue.fits(kind, site) {
            return Some(help);
        }
    }
    None
}
