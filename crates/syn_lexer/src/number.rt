//! Literals: integers and floats; characters, strings, byte and C strings; and lifetimes.

ghost use Rattle.std.specs.Prelude.{◌≡◌, ◌≤◌, ◌<◌, ◌+◌, length, true, IfSome, MatchOption, false};
ghost use Rattle.std.specs.List.{prefix_len};
ghost use Rattle.syn_lexer.specs.Numbers as spec;
ghost use Rattle.syn_lexer.specs.Text.{reading_of, IsWithin};
ghost use Rattle.syn_lexer.specs.Quotes as quotes_spec;

use crate::error::{LexError, Refusal};
use crate::front::{
    Lexeme, LexemeKind, begins, begins_raw_word, char_at, literal_to, starts_word, word_len,
};

/// The base of a number (Rust Reference, "Integer literals").
#[derive(Clone, Copy)]
pub enum Base {
    Binary,
    Octal,
    Decimal,
    Hexadecimal,
}

fn is_digit(base: Base, c: char) -> bool
    ensures { result ≡ spec.is_digit base c }
{
    match base {
        Base::Binary => c == '0' || c == '1',
        Base::Octal => matches!(c, '0'..='7'),
        Base::Decimal => c.is_ascii_digit(),
        Base::Hexadecimal => c.is_ascii_hexdigit(),
    }
}

fn is_digit_or_underscore(base: Base, c: char) -> bool
    ensures { result ≡ spec.is_digit_or_underscore base c }
{
    is_digit(base, c) || c == '_'
}

fn digits_len(base: Base, text: &[char]) -> usize
    ensures value { result ≡ spec.digits_len base text.now }
    ensures within { result ≤ length text.now }
{
    text.iter()
        .take_while(|c| is_digit_or_underscore(base, **c))
        .count()
}

fn is_underscore(c: char) -> bool
    ensures { result ≡ spec.is_underscore c }
{
    c == '_'
}

fn underscores_len(text: &[char]) -> usize
    ensures { result ≡ prefix_len spec.is_underscore text.now }
{
    text.iter().take_while(|c| is_underscore(**c)).count()
}

fn has_digit(base: Base, text: &[char]) -> bool
    ensures { result ≡ spec.has_digit base text.now }
{
    is_digit(base, char_at(text, underscores_len(text)))
}

fn based_number(base: Base, text: &[char]) -> Result<Lexeme, Refusal>
    requires { 2 ≤ length text.now }
    ensures value { reading_of result ≡ spec.based_number base text.now }
    ensures within { IsWithin text.now result }
{
    let digits = &text[2..];
    let end = 2 + digits_len(base, digits);
    if has_digit(base, digits) && !char_at(text, end).is_ascii_digit() {
        Ok(literal_to(text, end))
    } else {
        Err(Refusal {
            error: LexError::MalformedLiteral,
            len: end,
        })
    }
}

fn fraction_len(text: &[char]) -> usize
    ensures value { result ≡ spec.fraction_len text.now }
    ensures within { result ≤ length text.now }
{
    if !begins(text, &['.']) {
        return 0;
    }
    let behind = &text[1..];
    if begins(behind, &['.']) || starts_word(behind) {
        0
    } else {
        1 + digits_len(Base::Decimal, behind)
    }
}

fn significand_len(text: &[char]) -> usize
    requires { 0 < length text.now }
    ensures value { result ≡ spec.significand_len text.now }
    ensures within { (1 ≤ result) × (result ≤ length text.now) }
{
    let digits = 1 + digits_len(Base::Decimal, &text[1..]);
    digits + fraction_len(&text[digits..])
}

fn begins_exponent(text: &[char]) -> bool
    ensures value { result ≡ spec.begins_exponent text.now }
    ensures within { result ≡ true → 1 ≤ length text.now }
{
    begins(text, &['e']) || begins(text, &['E'])
}

fn exponent_mark_len(text: &[char]) -> usize
    requires { 1 ≤ length text.now }
    ensures value { result ≡ spec.exponent_mark_len text.now }
    ensures within { (1 ≤ result) × (result ≤ length text.now) }
{
    let behind = &text[1..];
    if begins(behind, &['+']) || begins(behind, &['-']) {
        2
    } else {
        1
    }
}

fn exponent_len(text: &[char]) -> usize
    ensures value { result ≡ spec.exponent_len text.now }
    ensures within { result ≤ length text.now }
{
    if begins_exponent(text) {
        let mark = exponent_mark_len(text);
        mark + digits_len(Base::Decimal, &text[mark..])
    } else {
        0
    }
}

fn is_exponent(text: &[char]) -> bool
    requires { 1 ≤ length text.now }
    ensures { result ≡ spec.is_exponent text.now }
{
    has_digit(Base::Decimal, &text[exponent_mark_len(text)..])
}

fn decimal_number(text: &[char]) -> Result<Lexeme, Refusal>
    requires { 0 < length text.now }
    ensures value { reading_of result ≡ spec.decimal_number text.now }
    ensures within { IsWithin text.now result }
{
    let n = significand_len(text);
    let behind = &text[n..];
    let end = n + exponent_len(behind);
    if begins_exponent(behind) && !is_exponent(behind) {
        return Err(Refusal {
            error: LexError::MalformedLiteral,
            len: end,
        });
    }
    Ok(literal_to(text, end))
}

/// What begins with a decimal digit.
pub fn number(text: &[char]) -> Result<Lexeme, Refusal>
    requires { 0 < length text.now }
    ensures value { reading_of result ≡ spec.number text.now }
    ensures within { IsWithin text.now result }
{
    if begins(text, &['0', 'x']) {
        return based_number(Base::Hexadecimal, text);
    }
    if begins(text, &['0', 'o']) {
        return based_number(Base::Octal, text);
    }
    if begins(text, &['0', 'b']) {
        return based_number(Base::Binary, text);
    }
    decimal_number(text)
}

/// The literal with an opening and a rest of so many characters, or where it is not closed, a refusal of so many.
fn closed(
    text: &[char],
    opening: usize,
    rest: Option<usize>,
    refused: usize,
) -> Result<Lexeme, Refusal>
    requires opened { 1 ≤ opening }
    requires room { MatchOption rest ((1 ≤ refused) × (refused ≤ length text.now)) (λ n. opening + n ≤ length text.now) }
    ensures value { reading_of result ≡ quotes_spec.closed text.now opening rest refused }
    ensures within { IsWithin text.now result }
{
    match rest {
        Some(n) => Ok(literal_to(text, opening + n)),
        None => Err(Refusal {
            error: LexError::MalformedLiteral,
            len: refused,
        }),
    }
}

fn string_rest(mut text: &[char]) -> Option<usize>
    ensures value { result ≡ quotes_spec.string_rest false 0 text.entry.now }
    ensures within { IfSome result (λ n. n ≤ length text.entry.now) }
{
    let mut is_escaped = false;
    let mut n = 0;
    'characters: while let [c, more @ ..] = text {
        if !is_escaped && *c == '"' {
            return Some(n + 1);
        }
        is_escaped = !is_escaped && *c == '\\';
        n += 1;
        text = more;
    }
    None
}

fn is_hash(c: char) -> bool
    ensures { result ≡ quotes_spec.is_hash c }
{
    c == '#'
}

fn hashes_len(text: &[char]) -> usize
    ensures value { result ≡ quotes_spec.hashes_len text.now }
    ensures within { result ≤ length text.now }
{
    text.iter().take_while(|c| is_hash(**c)).count()
}

fn raw_string_rest(hashes: usize, mut text: &[char]) -> Option<usize>
    ensures value { result ≡ quotes_spec.raw_string_rest hashes 0 text.entry.now }
    ensures within { IfSome result (λ n. n ≤ length text.entry.now) }
{
    let mut n = 0;
    'characters: while let [c, more @ ..] = text {
        if *c == '"' && hashes <= hashes_len(more) {
            return Some(n + 1 + hashes);
        }
        n += 1;
        text = more;
    }
    None
}

fn raw_prefix_len(text: &[char]) -> usize
    ensures value { result ≡ quotes_spec.raw_prefix_len text.now }
    ensures within { result ≤ length text.now }
{
    match text {
        ['r', ..] => 1,
        ['b' | 'c', 'r', ..] => 2,
        _ => 0,
    }
}

fn opens_raw_string(text: &[char]) -> bool
    ensures value { result ≡ quotes_spec.opens_raw_string text.now }
    ensures within { result ≡ true → quotes_spec.hashes_len text.now + 1 ≤ length text.now }
{
    begins(&text[hashes_len(text)..], &['"'])
}

/// Whether a raw string begins here.
pub fn begins_raw_string(text: &[char]) -> bool
    ensures value { result ≡ quotes_spec.begins_raw_string text.now }
    ensures within { result ≡ true → quotes_spec.raw_string_opening_len text.now ≤ length text.now }
{
    let prefix = raw_prefix_len(text);
    prefix != 0 && opens_raw_string(&text[prefix..])
}

/// Whether a string begins here that is not raw.
pub fn begins_string(text: &[char]) -> bool
    ensures value { result ≡ quotes_spec.begins_string text.now }
    ensures within { result ≡ true → quotes_spec.string_opening_len text.now ≤ length text.now }
{
    matches!(text, ['"', ..] | ['b' | 'c', '"', ..])
}

/// Whether a byte begins here.
pub fn begins_byte(text: &[char]) -> bool
    ensures value { result ≡ quotes_spec.begins_byte text.now }
    ensures within { result ≡ true → 2 ≤ length text.now }
{
    matches!(text, ['b', '\'', ..])
}

fn string_opening_len(text: &[char]) -> usize
    ensures value { result ≡ quotes_spec.string_opening_len text.now }
    ensures within { 1 ≤ result }
{
    if begins(text, &['"']) { 1 } else { 2 }
}

/// What begins with a string's opening.
pub fn string(text: &[char]) -> Result<Lexeme, Refusal>
    requires { quotes_spec.string_opening_len text.now ≤ length text.now }
    ensures value { reading_of result ≡ quotes_spec.string text.now }
    ensures within { IsWithin text.now result }
{
    let opening = string_opening_len(text);
    closed(text, opening, string_rest(&text[opening..]), text.len())
}

/// What begins with a raw string's opening.
pub fn raw_string(text: &[char]) -> Result<Lexeme, Refusal>
    requires { quotes_spec.raw_string_opening_len text.now ≤ length text.now }
    ensures value { reading_of result ≡ quotes_spec.raw_string text.now }
    ensures within { IsWithin text.now result }
{
    let prefix = raw_prefix_len(text);
    let hashes = hashes_len(&text[prefix..]);
    let opening = prefix + hashes + 1;
    let rest = raw_string_rest(hashes, &text[opening..]);
    closed(text, opening, rest, text.len())
}

fn is_within_character(c: char) -> bool
    ensures { result ≡ quotes_spec.is_within_character c }
{
    !(c == '\'' || c == '\n')
}

fn more_of_character(text: &[char]) -> usize
    ensures value { result ≡ prefix_len quotes_spec.is_within_character text.now }
    ensures within { result ≤ length text.now }
{
    text.iter().take_while(|c| is_within_character(**c)).count()
}

/// How many characters come before the closing `'`, which may be missing.
fn character_len(text: &[char]) -> usize
    ensures value { result ≡ quotes_spec.character_len text.now }
    ensures within { (1 ≤ result) × (result ≤ length text.now + 1) }
{
    match text {
        ['\\', _, more @ ..] => 2 + more_of_character(more),
        ['\\'] => 2,
        _ => 1,
    }
}

fn is_character(text: &[char]) -> bool
    ensures value { result ≡ quotes_spec.is_character text.now }
    ensures within { result ≡ true → quotes_spec.character_len text.now + 1 ≤ length text.now }
{
    is_within_character(char_at(text, 0)) && char_at(text, character_len(text)) == '\''
}

fn character_rest(text: &[char]) -> Option<usize>
    ensures value { result ≡ quotes_spec.character_rest text.now }
    ensures within { IfSome result (λ n. n ≤ length text.now) }
{
    if is_character(text) {
        Some(character_len(text) + 1)
    } else {
        None
    }
}

/// What begins with `b'`.
pub fn byte(text: &[char]) -> Result<Lexeme, Refusal>
    requires { 2 ≤ length text.now }
    ensures value { reading_of result ≡ quotes_spec.byte text.now }
    ensures within { IsWithin text.now result }
{
    let rest = &text[2..];
    let refused = (2 + character_len(rest)).min(text.len());
    closed(text, 2, character_rest(rest), refused)
}

fn begins_plain_word(text: &[char]) -> bool
    ensures value { result ≡ quotes_spec.begins_plain_word text.now }
    ensures within { result ≡ true → 0 < length text.now }
{
    starts_word(text) && !begins_raw_word(text)
}

/// What begins with `'`.
pub fn character_or_lifetime(text: &[char]) -> Result<Lexeme, Refusal>
    requires { 1 ≤ length text.now }
    ensures value { reading_of result ≡ quotes_spec.character_or_lifetime text.now }
    ensures within { IsWithin text.now result }
{
    let rest = &text[1..];
    if is_character(rest) || begins(rest, &['\\']) {
        let refused = (1 + character_len(rest)).min(text.len());
        return closed(text, 1, character_rest(rest), refused);
    }
    if begins_plain_word(rest) {
        return Ok(Lexeme {
            kind: LexemeKind::Lifetime,
            len: 1 + word_len(rest),
        });
    }
    Err(Refusal {
        error: LexError::MalformedLifetime,
        len: 1,
    })
}
