//! The values of characters, bytes and strings, by the characters of their tokens.

ghost use Rattle.std.specs.Prelude.{◌≡◌, ◌≢◌, ◌≤◌, ◌<◌, ◌+◌, ◌++◌, length, drop, true, OnOk, option_to_list, encode_utf8_all, string_bytes, IfOk, IfSome, option_map, slice_index};
ghost use Rattle.std.specs.List.{prefix_len};
ghost use Rattle.syn_lower_leaves.specs.Value as spec;

use crate::number::digit_value;
use std::alloc::{AllocError, Global};

/// The character at a place, or U+0000 past the end.
fn char_at(text: &[char], at: usize) -> char
    ensures value { result ≡ slice_index text.now at }
    ensures within { result ≢ 0 → at < length text.now }
{
    if at < text.len() { text[at] } else { '\0' }
}

/// What an escape of one character stands for.
fn simple_escape(c: char) -> Option<char>
    ensures value { result ≡ spec.simple_escape c }
    ensures narrow { IfSome result (λ v. v < 128) }
{
    match c {
        'n' => Some('\n'),
        'r' => Some('\r'),
        't' => Some('\t'),
        '0' => Some('\0'),
        '\\' | '\'' | '"' => Some(c),
        _ => None,
    }
}

/// What two digits after `\x` stand for.
fn hex_escape(is_byte: bool, a: u32, b: u32) -> Option<char>
    ensures value { result ≡ spec.hex_escape is_byte a b }
    ensures narrow { IfSome result (λ v. v < 256) }
{
    if a < 16 && b < 16 && (is_byte || a < 8) {
        Some(char::from((a * 16 + b) as u8))
    } else {
        None
    }
}

/// The character that digits in braces stand for, after `\u{`, and how many characters they are with these.
#[tactic(auto, using(crate::proofs::Quotes::braces))]
fn braced(text: &[char]) -> Option<(char, usize)>
    ensures value { result ≡ spec.braced 0 0 2 text.now }
    ensures within { IfSome result (λ p. (1 ≤ p.1) × (p.1 ≤ length text.now + 2)) }
{
    let mut digits: u32 = 0;
    let mut found: u32 = 0;
    let mut n = 2;
    let mut rest = text;
    'digits: while let [c, more @ ..] = rest {
        if *c == '}' {
            if digits == 0 {
                return None;
            }
            return match char::from_u32(found) {
                Some(c) => Some((c, n + 1)),
                None => None,
            };
        }
        if *c == '_' {
            if digits == 0 {
                return None;
            }
        } else {
            let digit = digit_value(u32::from(*c));
            if digit >= 16 || digits >= 6 {
                return None;
            }
            digits += 1;
            found = found * 16 + digit;
        }
        n += 1;
        rest = more;
    }
    None
}

/// What two digits stand for, after `\x`.
fn hex_at(is_byte: bool, text: &[char]) -> Option<(char, usize)>
    ensures value { result ≡ spec.hex_at is_byte text.now }
    ensures within { IfSome result (λ p. (1 ≤ p.1) × (p.1 ≤ length text.now + 1)) }
    ensures narrow { IfSome result (λ p. p.0 < 256) }
{
    let [a, b, ..] = text else {
        return None;
    };
    let (a, b) = (digit_value(u32::from(*a)), digit_value(u32::from(*b)));
    match hex_escape(is_byte, a, b) {
        Some(value) => Some((value, 3)),
        None => None,
    }
}

/// What digits in braces stand for, after `\u`.
fn braces_at(text: &[char]) -> Option<(char, usize)>
    ensures value { result ≡ spec.braces_at text.now }
    ensures within { IfSome result (λ p. (1 ≤ p.1) × (p.1 ≤ length text.now + 1)) }
{
    match text {
        ['{', digits @ ..] => braced(digits),
        _ => None,
    }
}

/// What an escape stands for, after its backslash, and how many characters it is without that.
fn escape(is_byte: bool, text: &[char]) -> Option<(char, usize)>
    ensures value { result ≡ spec.escape is_byte text.now }
    ensures within { IfSome result (λ p. (1 ≤ p.1) × (p.1 ≤ length text.now)) }
    ensures narrow { is_byte ≡ true → IfSome result (λ p. p.0 < 256) }
{
    let [c, more @ ..] = text else {
        return None;
    };
    if *c == 'x' {
        return hex_at(is_byte, more);
    }
    if *c == 'u' {
        return if is_byte { None } else { braces_at(more) };
    }
    match simple_escape(*c) {
        Some(value) => Some((value, 1)),
        None => None,
    }
}

/// Whether it may stand for itself.
pub(crate) fn is_plain(is_byte: bool, c: char) -> bool
    ensures { result ≡ spec.is_plain is_byte c }
{
    !is_byte || c < '\u{80}'
}

/// Whether it may not stand for itself between apostrophes.
fn is_special(c: char) -> bool
    ensures { result ≡ spec.is_special c }
{
    matches!(c, '\'' | '\n' | '\r' | '\t')
}

/// What is between apostrophes, after the first.
fn single(is_byte: bool, text: &[char]) -> Option<char>
    ensures value { result ≡ spec.single is_byte text.now }
    ensures narrow { is_byte ≡ true → IfSome result (λ v. v < 256) }
{
    let [c, more @ ..] = text else {
        return None;
    };
    if *c == '\\' {
        return match escape(is_byte, more) {
            Some((value, n)) if char_at(more, n) == '\'' => Some(value),
            _ => None,
        };
    }
    if is_special(*c) || !is_plain(is_byte, *c) || char_at(more, 0) != '\'' {
        return None;
    }
    Some(*c)
}

/// The value of a character literal.
#[tactic(auto, unfolding(crate::specs::Value::char_value))]
pub fn char_value(text: &[char]) -> Option<char>
    ensures { result ≡ spec.char_value text.now }
{
    match text {
        ['\'', rest @ ..] => single(false, rest),
        _ => None,
    }
}

/// The value of a byte literal.
#[tactic(auto, unfolding(crate::specs::Value::byte_value))]
pub fn byte_value(text: &[char]) -> Option<u8>
    ensures { result ≡ spec.byte_value text.now }
{
    match text {
        ['b', '\'', rest @ ..] => match single(true, rest) {
            Some(value) => Some(value as u8),
            None => None,
        },
        _ => None,
    }
}

/// How a string is written.
#[derive(Clone, Copy)]
pub struct Style {
    /// As a string of bytes.
    pub is_byte: bool,
    /// Without escapes.
    pub is_raw: bool,
    /// After so many `#`, and before as many.
    pub hashes: usize,
}

fn is_hash(c: char) -> bool
    ensures { result ≡ spec.is_hash c }
{
    c == '#'
}

fn hashes_len(text: &[char]) -> usize
    ensures value { result ≡ prefix_len spec.is_hash text.now }
    ensures within { result ≤ length text.now }
{
    text.iter().take_while(|c| is_hash(**c)).count()
}

fn is_blank(c: char) -> bool
    ensures { result ≡ spec.is_blank c }
{
    matches!(c, ' ' | '\t' | '\n' | '\r')
}

fn blanks_len(text: &[char]) -> usize
    ensures value { result ≡ prefix_len spec.is_blank text.now }
    ensures within { result ≤ length text.now }
{
    text.iter().take_while(|c| is_blank(**c)).count()
}

/// What a piece of a string stands for, if anything, and how many characters it takes.
type Piece = (Option<char>, usize);

/// What a backslash stands for with what is after it.
fn escaped(is_byte: bool, text: &[char]) -> Option<Piece>
    ensures value { result ≡ spec.escaped is_byte text.now }
    ensures within { IfSome result (λ p. (1 ≤ p.1) × (p.1 ≤ length text.now + 1)) }
    ensures narrow { is_byte ≡ true → IfSome result (λ p. IfSome p.0 (λ v. v < 256)) }
{
    if matches!(text, ['\n', ..] | ['\r', '\n', ..]) {
        return Some((None, 1 + blanks_len(text)));
    }
    match escape(is_byte, text) {
        Some((value, n)) => Some((Some(value), n + 1)),
        None => None,
    }
}

/// What a character stands for that begins no escape.
fn plain(is_byte: bool, c: char, rest: &[char]) -> Option<Piece>
    ensures value { result ≡ spec.plain is_byte c rest.now }
    ensures within { IfSome result (λ p. (1 ≤ p.1) × (p.1 ≤ length rest.now + 1)) }
    ensures narrow { is_byte ≡ true → IfSome result (λ p. IfSome p.0 (λ v. v < 256)) }
{
    if c == '\r' {
        return match rest {
            ['\n', ..] => Some((Some('\n'), 2)),
            _ => None,
        };
    }
    if is_plain(is_byte, c) {
        Some((Some(c), 1))
    } else {
        None
    }
}

/// What the piece stands for that a text begins with.
fn piece(style: Style, text: &[char]) -> Option<Piece>
    ensures value { result ≡ spec.piece style text.now }
    ensures within { IfSome result (λ p. (1 ≤ p.1) × (p.1 ≤ length text.now)) }
    ensures narrow { style.is_byte ≡ true → IfSome result (λ p. IfSome p.0 (λ v. v < 256)) }
{
    let [c, rest @ ..] = text else {
        return None;
    };
    if *c == '\\' && !style.is_raw {
        escaped(style.is_byte, rest)
    } else {
        plain(style.is_byte, *c, rest)
    }
}

/// Whether a string is closed here.
fn closes(style: Style, text: &[char]) -> bool
    ensures { result ≡ spec.closes style text.now }
{
    match text {
        ['"', rest @ ..] => style.hashes <= hashes_len(rest),
        _ => false,
    }
}

/// What comes after so many characters.
fn past(text: &[char], n: usize) -> &[char]
    requires { n ≤ length text.now }
    ensures { result.now ≡ drop n text.now }
{
    &text[n..]
}

/// Writes what a piece stands for.
fn push_char(out: &mut String, value: Option<char>) -> Result<(), AllocError>
    ensures { OnOk result (string_bytes out.new ≡ string_bytes out.old ++ encode_utf8_all (option_to_list value)) }
{
    match value {
        Some(value) => out.push(value),
        None => Ok(()),
    }
}

/// Puts what a piece stands for.
fn push_byte(out: &mut Vec<u8>, value: Option<char>) -> Result<(), AllocError>
    requires { IfSome value (λ v. v < 256) }
    ensures { OnOk result (out.new.items ≡ out.old.items ++ option_to_list value) }
{
    if let Some(value) = value {
        out.push(value as u8)?;
    }
    Ok(())
}

/// The text that the content of a string is, after its opening.
#[tactic(auto, using(crate::proofs::Quotes::pieces))]
fn text_of(alloc: Global, style: Style, text: &[char]) -> Result<Option<String>, AllocError>
    ensures { IfOk result (λ o. option_map string_bytes o ≡ option_map encode_utf8_all (spec.content style 0 text.now)) }
{
    let mut out = String::new(alloc);
    let mut rest = text;
    'pieces: while !rest.is_empty() {
        if closes(style, rest) {
            return Ok(Some(out));
        }
        let Some((value, n)) = piece(style, rest) else {
            return Ok(None);
        };
        push_char(&mut out, value)?;
        rest = past(rest, n);
    }
    Ok(None)
}

/// The bytes that the content of a byte string is, after its opening.
#[tactic(auto, using(crate::proofs::Quotes::pieces))]
fn bytes_of(alloc: Global, style: Style, text: &[char]) -> Result<Option<Vec<u8>>, AllocError>
    requires { style.is_byte ≡ true }
    ensures { IfOk result (λ o. option_map (λ v. v.items) o ≡ spec.content style 0 text.now) }
{
    let mut out = Vec::new(alloc);
    let mut rest = text;
    'pieces: while !rest.is_empty() {
        if closes(style, rest) {
            return Ok(Some(out));
        }
        let Some((value, n)) = piece(style, rest) else {
            return Ok(None);
        };
        push_byte(&mut out, value)?;
        rest = past(rest, n);
    }
    Ok(None)
}

/// How a string is written, and what comes after its opening, without the `b` of bytes.
fn opened(is_byte: bool, text: &[char]) -> Option<(Style, &[char])>
    ensures value { option_map (λ p. (p.0, p.1.now)) result ≡ spec.opened is_byte text.now }
    ensures byte { IfSome result (λ p. p.0.is_byte ≡ is_byte) }
{
    match text {
        ['"', rest @ ..] => {
            let style = Style {
                is_byte,
                is_raw: false,
                hashes: 0,
            };
            Some((style, rest))
        }
        ['r', rest @ ..] => {
            let hashes = hashes_len(rest);
            if char_at(rest, hashes) != '"' {
                return None;
            }
            let style = Style {
                is_byte,
                is_raw: true,
                hashes,
            };
            Some((style, &rest[hashes + 1..]))
        }
        _ => None,
    }
}

/// The value of a string literal.
#[tactic(auto, unfolding(crate::specs::Value::str_value))]
pub fn str_value(alloc: Global, text: &[char]) -> Result<Option<String>, AllocError>
    ensures { IfOk result (λ o. option_map string_bytes o ≡ option_map encode_utf8_all (spec.str_value text.now)) }
{
    match opened(false, text) {
        Some((style, rest)) => text_of(alloc, style, rest),
        None => Ok(None),
    }
}

/// The value of a byte string literal.
#[tactic(auto, unfolding(crate::specs::Value::byte_str_value))]
pub fn byte_str_value(alloc: Global, text: &[char]) -> Result<Option<Vec<u8>>, AllocError>
    ensures { IfOk result (λ o. option_map (λ v. v.items) o ≡ spec.byte_str_value text.now) }
{
    let ['b', rest @ ..] = text else {
        return Ok(None);
    };
    match opened(true, rest) {
        Some((style, rest)) => bytes_of(alloc, style, rest),
        None => Ok(None),
    }
}
