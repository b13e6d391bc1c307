//! The values of numbers, by the texts of their tokens.

ghost use Rattle.std.specs.Prelude.{◌≡◌, ◌≤◌, ◌<◌, ◌+◌, ◌*◌, ◌^◌, length, drop, slice_index, IfOk, IfSome, filter, string_bytes, encode_utf8_all};
ghost use Rattle.syn_lower_spec.specs.Pat as parts;
ghost use Rattle.syn_lower_leaves.specs.Value as spec;

use std::alloc::{AllocError, Global};

/// The value of a digit, 99 where it is none.
pub(crate) fn digit_value(c: u32) -> u32
    ensures value { result ≡ parts.digit_value c }
    ensures small { result < 100 }
{
    match c {
        48..=57 => c - 48,
        97..=102 => c - 87,
        65..=70 => c - 55,
        _ => 99,
    }
}

/// What comes after a place where a character of ASCII is.
pub(crate) fn behind(text: &str, at: usize) -> &str
    requires within { at < length text.now }
    requires narrow { slice_index text.now at < 128 }
    ensures { result.now ≡ drop (at + 1) text.now }
{
    &text[at + 1..]
}

/// The base of an integer's text, and what comes after its prefix.
fn base_and_digits(text: &str) -> (u32, &str)
    ensures base { result.0 ≡ spec.base text.now }
    ensures digits { result.1.now ≡ spec.behind_prefix text.now }
    ensures some { 0 < result.0 }
    ensures small { result.0 ≤ 16 }
{
    match text.as_bytes() {
        [b'0', b'x', ..] => (16, behind(text, 1)),
        [b'0', b'o', ..] => (8, behind(text, 1)),
        [b'0', b'b', ..] => (2, behind(text, 1)),
        _ => (10, text),
    }
}

/// A number with one more digit after it, if a `u128` holds it.
#[tactic(auto, unfolding(crate::specs::Value::in_u128))]
fn with_digit(found: u128, base: u32, digit: u32) -> Option<u128>
    ensures value { result ≡ spec.in_u128 (found * base + digit) }
    ensures some { IfSome result (λ v. v ≡ found * base + digit) }
    ensures fits { IfSome result (λ v. v < 2 ^ 128) }
{
    found
        .checked_mul(u128::from(base))?
        .checked_add(u128::from(digit))
}

/// The value of the digits that come first, if a `u128` holds it.
#[tactic(auto, using(crate::proofs::Digits::numbers))]
fn digits_value(base: u32, digits: &[u8]) -> Option<u128>
    requires some { 0 < base }
    ensures { result ≡ spec.in_u128 (spec.digits_value base 0 digits.now) }
{
    let mut found: u128 = 0;
    let mut rest = digits;
    'digits: while let [c, more @ ..] = rest {
        if *c != b'_' {
            let digit = digit_value(u32::from(*c));
            if digit >= base {
                return Some(found);
            }
            match with_digit(found, base, digit) {
                Some(larger) => found = larger,
                None => return None,
            }
        }
        rest = more;
    }
    Some(found)
}

/// The value of an integer's text, if a `u128` holds it.
#[tactic(auto, unfolding(crate::specs::Value::int_value))]
pub fn int_value(text: &str) -> Option<u128>
    ensures { result ≡ spec.in_u128 (spec.int_value text.now) }
{
    let (base, digits) = base_and_digits(text);
    digits_value(base, digits.as_bytes())
}

/// What comes after digits of a base and underscores.
#[tactic(auto, using(crate::proofs::Digits::narrows))]
fn past_digits(base: u32, mut text: &str) -> &str
    requires { base ≤ 16 }
    ensures { result.now ≡ spec.past_digits base text.entry.now }
{
    'digits: while let [c, ..] = text.as_bytes() {
        if *c != b'_' && digit_value(u32::from(*c)) >= base {
            return text;
        }
        text = behind(text, 0);
    }
    text
}

/// The suffix of an integer's text, which may be empty.
#[tactic(auto, unfolding(crate::specs::Value::int_suffix))]
pub fn int_suffix(text: &str) -> &str
    ensures { result.now ≡ spec.int_suffix text.now }
{
    let (base, digits) = base_and_digits(text);
    past_digits(base, digits)
}

/// What comes after a dot and digits.
fn past_fraction(text: &str) -> &str
    ensures { result.now ≡ spec.past_fraction text.now }
{
    match text.as_bytes() {
        [b'.', ..] => past_digits(10, behind(text, 0)),
        _ => text,
    }
}

/// What comes after a sign.
fn past_sign(text: &str) -> &str
    ensures { result.now ≡ spec.past_sign text.now }
{
    match text.as_bytes() {
        [b'+' | b'-', ..] => behind(text, 0),
        _ => text,
    }
}

/// What comes after an exponent.
fn past_exponent(text: &str) -> &str
    ensures { result.now ≡ spec.past_exponent text.now }
{
    match text.as_bytes() {
        [b'e' | b'E', ..] => past_digits(10, past_sign(behind(text, 0))),
        _ => text,
    }
}

/// The suffix of a float's text, which may be empty.
#[tactic(auto, unfolding(crate::specs::Value::float_suffix))]
pub fn float_suffix(text: &str) -> &str
    ensures { result.now ≡ spec.float_suffix text.now }
{
    past_exponent(past_fraction(past_digits(10, text)))
}

fn is_no_underscore(c: u8) -> bool
    ensures { result ≡ spec.is_no_underscore c }
{
    c != b'_'
}

/// Some characters of ASCII without underscores.
#[tactic(auto, using(crate::proofs::Digits::keeps))]
fn without_underscores(alloc: Global, bytes: &[u8]) -> Result<String, AllocError>
    ensures { IfOk result (λ s. string_bytes s ≡ encode_utf8_all (filter spec.is_no_underscore bytes.now)) }
{
    let mut out = String::new(alloc);
    let mut rest = bytes;
    'bytes: while let [c, more @ ..] = rest {
        if is_no_underscore(*c) {
            out.push(char::from(*c))?;
        }
        rest = more;
    }
    Ok(out)
}

/// The digits of a float's text, with its dot and its exponent.
#[tactic(auto, unfolding(crate::specs::Value::float_digits))]
pub fn float_digits(alloc: Global, text: &str) -> Result<String, AllocError>
    ensures { IfOk result (λ s. string_bytes s ≡ spec.float_digits text.now) }
{
    let end = text.len().saturating_sub(float_suffix(text).len());
    without_underscores(alloc, &text.as_bytes()[..end])
}
