//! The lexeme at the front of a text, after white space and comments; and its words: identifiers, raw identifiers, suffixes
//! and reserved words.

ghost use Rattle.std.specs.Prelude.{◌≡◌, ◌<◌, ◌↔◌, length, slice_index, false, IsTrue, IfErr, IfSome, MatchResult, Some, None, Err, ◌≢◌, ◌≤◌, true, map, ◌+◌, Ok};
ghost use Rattle.syn_lexer.specs.Blanks.{is_white_space};
ghost use Rattle.syn_lexer.specs.Lex as spec;
ghost use Rattle.syn_lexer.specs.Text.{reading_of, IsWithin};
ghost use Rattle.syn_lexer.specs.Text as text_spec;
ghost use Rattle.std.specs.List.{filter, prefix_len};
ghost use Rattle.std.specs.Str.{bytes_eq};
ghost use Rattle.syn_lexer.specs.Keywords as keywords_spec;
ghost use Rattle.unicode_ident.specs.Ident.{is_xid_continue};
ghost use Rattle.syn_lexer.specs.Words as words_spec;
ghost use Rattle.syn_lexer.specs.Blanks as blanks_spec;

use crate::error::{LexError, Refusal};
use crate::number::{
    begins_byte, begins_raw_string, begins_string, byte, character_or_lifetime, number, raw_string,
    string,
};

/// Whether a character is one of the puncts that a token tree may be (Rust Reference, "Punctuation"). Delimiters are none.
pub fn is_punct(c: char) -> bool
    ensures { result ≡ spec.is_punct c }
{
    matches!(
        c,
        '~' | '!'
            | '@'
            | '#'
            | '$'
            | '%'
            | '^'
            | '&'
            | '*'
            | '-'
            | '='
            | '+'
            | '|'
            | ';'
            | ':'
            | ','
            | '<'
            | '.'
            | '>'
            | '/'
            | '?'
            | '\''
    )
}

fn spacing_before(text: &[char]) -> Spacing
    ensures { result ≡ spec.spacing_before text.now }
{
    if is_punct(char_at(text, 0)) && !begins_comment(text) {
        Spacing::Joint
    } else {
        Spacing::Alone
    }
}

#[inline(always)]
#[tactic(auto, unfolding(crate::specs::Lex::single_kind))]
fn single_kind(text: &[char]) -> Option<LexemeKind>
    requires { 0 < length text.now }
    ensures { result ≡ spec.single_kind text.now }
{
    match text[0] {
        '(' => Some(LexemeKind::Open(Delimiter::Parenthesis)),
        ')' => Some(LexemeKind::Close(Delimiter::Parenthesis)),
        '[' => Some(LexemeKind::Open(Delimiter::Bracket)),
        ']' => Some(LexemeKind::Close(Delimiter::Bracket)),
        '{' => Some(LexemeKind::Open(Delimiter::Brace)),
        '}' => Some(LexemeKind::Close(Delimiter::Brace)),
        c if is_punct(c) => Some(LexemeKind::Punct(c, spacing_before(&text[1..]))),
        _ => None,
    }
}

/// A delimiter or a punct.
#[inline(always)]
fn single(text: &[char]) -> Result<Lexeme, Refusal>
    requires { 0 < length text.now }
    ensures value { reading_of result ≡ spec.single text.now }
    ensures within { IsWithin text.now result }
{
    match single_kind(text) {
        Some(kind) => Ok(Lexeme { kind, len: 1 }),
        None => Err(Refusal {
            error: LexError::UnknownCharacter,
            len: 1,
        }),
    }
}

/// An identifier, a delimiter or a punct.
#[inline(always)]
fn plain(text: &[char]) -> Result<Lexeme, Refusal>
    requires { 0 < length text.now }
    ensures value { reading_of result ≡ spec.plain text.now }
    ensures within { IsWithin text.now result }
{
    if starts_word(text) {
        return Ok(Lexeme {
            kind: LexemeKind::Ident,
            len: word_len(text),
        });
    }
    single(text)
}

/// What begins with a character that may begin a comment, a literal, a raw identifier or a lifetime.
// Most lexemes begin with others, and are read faster without the code of these between.
#[inline(never)]
#[tactic(auto, unfolding(crate::specs::Lex::reading, crate::specs::Lex::token))]
fn marked(text: &[char]) -> Result<Lexeme, Refusal>
    requires some { 0 < length text.now }
    requires no_white_space { is_white_space (slice_index text.now 0) ≡ false }
    ensures value { reading_of result ≡ spec.reading text.now }
    ensures within { IsWithin text.now result }
{
    if begins_line_comment(text) {
        return line_comment(text);
    }
    if begins_block_comment(text) {
        return block_comment(text);
    }
    if begins_string(text) {
        return string(text);
    }
    if begins_raw_string(text) {
        return raw_string(text);
    }
    if begins_byte(text) {
        return byte(text);
    }
    if begins_raw_word(text) {
        return raw_word(text);
    }
    if starts_word(text) {
        return plain(text);
    }
    if text[0].is_ascii_digit() {
        return number(text);
    }
    if text[0] == '\'' {
        return character_or_lifetime(text);
    }
    single(text)
}

#[inline(always)]
#[tactic(auto, unfolding(crate::specs::Lex::reading))]
fn reading(text: &[char]) -> Result<Lexeme, Refusal>
    requires { 0 < length text.now }
    ensures value { reading_of result ≡ spec.reading text.now }
    ensures within { IsWithin text.now result }
{
    if is_white_space(text[0]) {
        return Ok(Lexeme {
            kind: LexemeKind::Blank,
            len: white_space_len(text),
        });
    }
    match text[0] {
        '/' | '"' | '\'' | '0'..='9' | 'b' | 'c' | 'r' => marked(text),
        _ => plain(text),
    }
}

/// The longest lexeme at the front of a text that has characters (Rust Reference, "Lexical structure"), or why it
/// is refused: each `LexError` says when, but those of delimiters never come here. A refusal goes over a whole doc comment
/// or raw identifier, over a number up to the character that does not fit, over a comment or a string that is not closed
/// to the end of the text, over a character or a byte to where its closing `'` is missing, and else over one character.
/// The texts of literals are not looked into. Lengths are in characters; no memory is taken.
#[inline(always)]
pub fn front(text: &[char]) -> Result<Lexeme, Refusal>
    requires { 0 < length text.now }
    ensures value { MatchResult result (λ x. spec.front text.now ≡ Some (x.kind, x.len)) (λ e. spec.front text.now ≡ None) }
    ensures refused { IfErr result (λ e. spec.reading text.now ≡ Err (e.error, e.len)) }
    ensures within { IsWithin text.now result }
{
    reading(text)
}

/// Whether the whole text is one lexeme of this kind.
fn is_whole(text: &[char], kind: LexemeKind) -> bool
    ensures { IsTrue result ↔ (spec.front text.now ≡ Some (kind, length text.now)) }
{
    if text.is_empty() {
        return false;
    }
    match front(text) {
        Ok(lexeme) => lexeme.kind == kind && lexeme.len == text.len(),
        Err(_) => false,
    }
}

/// Whether the whole text is one identifier, raw or not, or a word that is reserved (Rust Reference, "Identifiers",
/// "Keywords").
pub fn is_ident(text: &[char]) -> bool
    ensures { IsTrue result ↔ (spec.front text.now ≡ Some (LexemeKind.Ident, length text.now)) }
{
    is_whole(text, LexemeKind::Ident)
}

/// Whether the whole text is one literal, with its suffix and no sign (Rust Reference, "Tokens", "Literals").
pub fn is_literal(text: &[char]) -> bool
    ensures { IsTrue result ↔ (spec.front text.now ≡ Some (LexemeKind.Literal, length text.now)) }
{
    is_whole(text, LexemeKind::Literal)
}

/// Whether the text begins with this mark.
#[inline(always)]
pub fn begins(text: &[char], mark: &[char]) -> bool
    ensures value { result ≡ text_spec.begins mark.now text.now }
    ensures within { result ≡ true → length mark.now ≤ length text.now }
{
    let mut rest = text;
    let mut marks = mark;
    // Where it is called the mark is known, and these are a few tests and no loop.
    while let [wanted, others @ ..] = marks {
        let [c, more @ ..] = rest else {
            return false;
        };
        if *c != *wanted {
            return false;
        }
        rest = more;
        marks = others;
    }
    true
}

/// The character at a place, or U+0000 past the end.
pub fn char_at(text: &[char], at: usize) -> char
    ensures value { result ≡ slice_index text.now at }
    ensures within { result ≢ 0 → at < length text.now }
{
    if at < text.len() { text[at] } else { '\0' }
}

/// The reserved words that begin with a byte.
fn beginning_with(first: u8) -> &'static [&'static str]
    ensures { map (λ w. w.now) result.now ≡ filter (keywords_spec.begins_with first) keywords_spec.reserved_words }
{
    match first {
        b'_' => &["_"],
        b'a' => &["abstract", "as", "async", "await"],
        b'b' => &["become", "box", "break"],
        b'c' => &["const", "continue", "crate"],
        b'd' => &["do", "dyn"],
        b'e' => &["else", "enum", "extern"],
        b'f' => &["false", "final", "fn", "for"],
        b'i' => &["if", "impl", "in"],
        b'l' => &["let", "loop"],
        b'm' => &["macro", "match", "mod", "move", "mut"],
        b'o' => &["override"],
        b'p' => &["priv", "pub"],
        b'r' => &["ref", "return"],
        b'S' => &["Self"],
        b's' => &["self", "static", "struct", "super"],
        b't' => &["trait", "true", "try", "type", "typeof"],
        b'u' => &["unsafe", "unsized", "use"],
        b'v' => &["virtual"],
        b'w' => &["where", "while"],
        b'y' => &["yield"],
        _ => &[],
    }
}

/// Whether two words are the same.
#[inline(always)]
#[tactic(auto, using(crate::proofs::Words::lengths))]
fn is_same_word(a: &str, b: &str) -> bool
    ensures { result ≡ bytes_eq a.now b.now }
{
    // Most words differ in their length, which is one test.
    a.len() == b.len() && a == b
}

fn is_one_of(mut words: &[&str], word: &str) -> bool
    ensures { result ≡ keywords_spec.is_one_of (map (λ w. w.now) words.entry.now) word.now }
{
    'words: while let [first, more @ ..] = words {
        if is_same_word(word, *first) {
            return true;
        }
        words = more;
    }
    false
}

/// Whether a word is reserved, so that it is no identifier: `_`, and the words of syn's list, which are the strict and
/// reserved keywords but `gen` (Rust Reference, "Keywords"). A raw identifier, which begins with `r#`, never is.
pub fn is_reserved_word(word: &str) -> bool
    ensures { result ≡ keywords_spec.is_reserved_word word.now }
{
    match word.as_bytes() {
        [b'_'] => true,
        // Each of the others goes on with a small letter.
        [first, second, ..] if second.is_ascii_lowercase() => {
            is_one_of(beginning_with(*first), word)
        }
        _ => false,
    }
}

#[tactic(auto, using(crate::proofs::Words::words))]
fn is_word_start(c: char) -> bool
    ensures { result ≡ words_spec.is_word_start c }
{
    // ASCII needs no tables of Unicode.
    c.is_ascii_alphabetic() || c == '_' || !c.is_ascii() && unicode_ident::is_xid_start(c)
}

/// Whether a word goes on with a character.
#[tactic(auto, using(crate::proofs::Words::words))]
fn goes_on(c: char) -> bool
    ensures { result ≡ is_xid_continue c }
{
    // Most are small letters, and ASCII needs no tables of Unicode.
    c.is_ascii_lowercase()
        || c.is_ascii_alphanumeric()
        || c == '_'
        || !c.is_ascii() && unicode_ident::is_xid_continue(c)
}

/// Whether an identifier begins here, or a prefix that is spelled like one.
pub fn starts_word(text: &[char]) -> bool
    ensures value { result ≡ words_spec.starts_word text.now }
    ensures within { result ≡ true → 0 < length text.now }
{
    match text {
        [c, ..] => is_word_start(*c),
        [] => false,
    }
}

fn more_of_word(text: &[char]) -> usize
    ensures value { result ≡ prefix_len is_xid_continue text.now }
    ensures within { result ≤ length text.now }
{
    text.iter().take_while(|c| goes_on(**c)).count()
}

/// How many characters the identifier at the front is.
pub fn word_len(text: &[char]) -> usize
    requires { 0 < length text.now }
    ensures value { result ≡ words_spec.word_len text.now }
    ensures within { (1 ≤ result) × (result ≤ length text.now) }
{
    1 + more_of_word(&text[1..])
}

fn suffix_len(text: &[char]) -> usize
    ensures value { result ≡ words_spec.suffix_len text.now }
    ensures within { result ≤ length text.now }
{
    if starts_word(text) { word_len(text) } else { 0 }
}

/// The literal that ends at this place, with the suffix after it.
pub fn literal_to(text: &[char], end: usize) -> Lexeme
    requires { end ≤ length text.now }
    ensures value { (result.kind, result.len) ≡ words_spec.literal_to text.now end }
    ensures within { (end ≤ result.len) × (result.len ≤ length text.now) }
{
    Lexeme {
        kind: LexemeKind::Literal,
        len: end + suffix_len(&text[end..]),
    }
}

/// Whether a raw identifier begins here.
pub fn begins_raw_word(text: &[char]) -> bool
    ensures value { result ≡ words_spec.begins_raw_word text.now }
    ensures within { result ≡ true → 2 < length text.now }
{
    matches!(text, ['r', '#', word @ ..] if starts_word(word))
}

fn is_reserved_raw(word: &[char]) -> bool
    ensures { result ≡ words_spec.is_reserved_raw word.now }
{
    word == ['_'].as_slice()
        || word == ['s', 'e', 'l', 'f'].as_slice()
        || word == ['S', 'e', 'l', 'f'].as_slice()
        || word == ['s', 'u', 'p', 'e', 'r'].as_slice()
        || word == ['c', 'r', 'a', 't', 'e'].as_slice()
}

/// What begins with `r#` and an identifier.
pub fn raw_word(text: &[char]) -> Result<Lexeme, Refusal>
    requires { 2 < length text.now }
    ensures value { reading_of result ≡ words_spec.raw_word text.now }
    ensures within { IsWithin text.now result }
{
    let word = &text[2..];
    let n = word_len(word);
    if is_reserved_raw(&word[..n]) {
        return Err(Refusal {
            error: LexError::ReservedRawIdentifier,
            len: 2 + n,
        });
    }
    Ok(Lexeme {
        kind: LexemeKind::Ident,
        len: 2 + n,
    })
}

/// Whether a character is skipped between tokens (Rust Reference, "Whitespace").
pub fn is_white_space(c: char) -> bool
    ensures { result ≡ blanks_spec.is_white_space c }
{
    // The space and this one range answer for most characters.
    c == ' '
        || !c.is_ascii_graphic()
            && matches!(
                c,
                '\u{9}'..='\u{d}' | '\u{85}' | '\u{200e}' | '\u{200f}' | '\u{2028}' | '\u{2029}'
            )
}

fn more_white_space(text: &[char]) -> usize
    ensures value { result ≡ prefix_len blanks_spec.is_white_space text.now }
    ensures within { result ≤ length text.now }
{
    text.iter().take_while(|c| is_white_space(**c)).count()
}

/// How many characters of white space are at the front, where one does.
pub fn white_space_len(text: &[char]) -> usize
    requires { 0 < length text.now }
    ensures value { result ≡ blanks_spec.white_space_len text.now }
    ensures within { (1 ≤ result) × (result ≤ length text.now) }
{
    1 + more_white_space(&text[1..])
}

/// Whether `//` comes first.
pub fn begins_line_comment(text: &[char]) -> bool
    ensures value { result ≡ blanks_spec.begins_line_comment text.now }
    ensures within { result ≡ true → 2 ≤ length text.now }
{
    matches!(text, ['/', '/', ..])
}

/// Whether `/*` comes first.
pub fn begins_block_comment(text: &[char]) -> bool
    ensures value { result ≡ blanks_spec.begins_block_comment text.now }
    ensures within { result ≡ true → 2 ≤ length text.now }
{
    matches!(text, ['/', '*', ..])
}

/// Whether a comment comes first.
pub fn begins_comment(text: &[char]) -> bool
    ensures { result ≡ blanks_spec.begins_comment text.now }
{
    begins_line_comment(text) || begins_block_comment(text)
}

fn is_line_doc(text: &[char]) -> bool
    ensures { result ≡ blanks_spec.is_line_doc text.now }
{
    begins(text, &['/', '/', '!'])
        || (begins(text, &['/', '/', '/']) && !begins(text, &['/', '/', '/', '/']))
}

fn is_within_line(c: char) -> bool
    ensures { result ≡ blanks_spec.is_within_line c }
{
    c != '\n'
}

fn more_of_line(text: &[char]) -> usize
    ensures value { result ≡ prefix_len blanks_spec.is_within_line text.now }
    ensures within { result ≤ length text.now }
{
    text.iter().take_while(|c| is_within_line(**c)).count()
}

/// What begins with `//`.
pub fn line_comment(text: &[char]) -> Result<Lexeme, Refusal>
    requires { 2 ≤ length text.now }
    ensures value { reading_of result ≡ blanks_spec.line_comment text.now }
    ensures within { IsWithin text.now result }
{
    let len = 2 + more_of_line(&text[2..]);
    if is_line_doc(text) {
        return Err(Refusal {
            error: LexError::DocComment,
            len,
        });
    }
    Ok(Lexeme {
        kind: LexemeKind::Blank,
        len,
    })
}

fn is_block_doc(text: &[char]) -> bool
    ensures { result ≡ blanks_spec.is_block_doc text.now }
{
    begins(text, &['/', '*', '!'])
        || (begins(text, &['/', '*', '*'])
            && !(begins(text, &['/', '*', '*', '*']) || begins(text, &['/', '*', '*', '/'])))
}

/// How many characters there are up to the end of a block comment, from behind its `/*` on.
fn comment_rest(mut text: &[char]) -> Option<usize>
    ensures value { result ≡ blanks_spec.comment_rest false 0 0 text.entry.now }
    ensures within { IfSome result (λ n. n ≤ length text.entry.now) }
{
    let mut inner: usize = 0;
    let mut n = 0;
    'characters: while !text.is_empty() {
        if begins(text, &['/', '*']) {
            inner += 1;
            n += 2;
            text = &text[2..];
        } else if begins(text, &['*', '/']) {
            if inner == 0 {
                return Some(n + 2);
            }
            inner -= 1;
            n += 2;
            text = &text[2..];
        } else {
            n += 1;
            text = &text[1..];
        }
    }
    None
}

/// What begins with `/*`.
pub fn block_comment(text: &[char]) -> Result<Lexeme, Refusal>
    requires { 2 ≤ length text.now }
    ensures value { reading_of result ≡ blanks_spec.block_comment text.now }
    ensures within { IsWithin text.now result }
{
    let Some(n) = comment_rest(&text[2..]) else {
        return Err(Refusal {
            error: LexError::UnterminatedComment,
            len: text.len(),
        });
    };
    if is_block_doc(text) {
        return Err(Refusal {
            error: LexError::DocComment,
            len: 2 + n,
        });
    }
    Ok(Lexeme {
        kind: LexemeKind::Blank,
        len: 2 + n,
    })
}

/// What encloses a group of tokens (Rust Reference, "Delimiters"); `None` is an invisible group.
#[derive(Clone, Copy, Debug, PartialEq, Eq, Hash)]
pub enum Delimiter {
    /// `( .. )`
    Parenthesis,
    /// `{ .. }`
    Brace,
    /// `[ .. ]`
    Bracket,
    /// An invisible group, as macros make them.
    None,
}

/// Whether another punct follows a punct at once, as `Spacing` of proc_macro2 (Rust Reference, "Punctuation"). A comment
/// is no punct.
#[derive(Clone, Copy, Debug, PartialEq, Eq, Hash)]
pub enum Spacing {
    /// A blank, another token or the end follows.
    Alone,
    /// Another punct follows at once, so that the two may make one token.
    Joint,
}

/// What is at the front of a text.
#[derive(Clone, Copy, Debug, PartialEq, Eq, Hash)]
pub enum LexemeKind {
    /// White space, or a comment that is no doc comment (Rust Reference, "Whitespace", "Comments").
    Blank,
    /// An identifier, a reserved word or a raw identifier (Rust Reference, "Identifiers").
    Ident,
    /// A literal with its suffix (Rust Reference, "Tokens", "Literals").
    Literal,
    /// A lifetime: `'` and an identifier (Rust Reference, "Lifetimes and loop labels"). It makes two tokens, the joint
    /// punct `'` and the identifier.
    Lifetime,
    /// One character of punctuation (Rust Reference, "Punctuation").
    Punct(char, Spacing),
    /// The opening character of a delimiter (Rust Reference, "Delimiters").
    Open(Delimiter),
    /// The closing character of a delimiter.
    Close(Delimiter),
}

/// A lexeme at the front of a text.
#[derive(Clone, Copy, Debug, PartialEq, Eq, Hash)]
pub struct Lexeme {
    /// What it is.
    pub kind: LexemeKind,
    /// How many characters it is, at least one.
    pub len: usize,
}
