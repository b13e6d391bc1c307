//! Literals that a program makes of their values, and numbers of their texts.

ghost use Rattle.std.specs.Prelude.{◌≡◌, ◌⊎◌, ◌<◌, ◌++◌, ◌∷◌, [], true, false, Some, is_some, IfOk, IfErr, OnOk, chars, string_bytes, encode_utf8_all};
ghost use Rattle.std.specs.Char.{digit_char};
ghost use Rattle.syn_lower_leaves.specs.Value as spec;
ghost use Rattle.syn_lower_leaves.specs.View.{lit_float_of, lit_int_of};
ghost use Rattle.syn_lower_leaves.specs.Written as forms;
ghost use Rattle.syn_lower_spec.specs.Text as parts;
ghost use Rattle.syn_lower_spec.specs.declared.label.LitKind.TheVariants as kind;
ghost use Rattle.syn_tokens.specs.Lex.{IsLiteralText};

use crate::leaf::{is_float, is_number};
use crate::lit::{LitBool, LitByte, LitByteStr, LitChar, LitFloat, LitInt, LitStr};
use crate::number::behind;
use crate::quoted::is_plain;
use std::alloc::{AllocError, Global};
use syn_tokens::error::{Error, ErrorKind, Part, Result};
use syn_tokens::token::Minus;
use syn_tokens::tree::{Ident, Literal, Span};

/// Whether it is written as itself if no escape has a name for it.
fn is_shown(is_byte: bool, c: char) -> bool
    ensures { result ≡ forms.is_shown is_byte c }
{
    c >= ' ' && c != '\u{7f}' && is_plain(is_byte, c)
}

/// A hexadecimal digit.
fn digit(value: u32) -> char
    requires { value < 16 }
    ensures { result ≡ digit_char value }
{
    char::from_digit(value, 16).unwrap_or('0')
}

/// Writes the number of a character in two hexadecimal digits.
fn push_code(text: &mut String, c: char) -> std::result::Result<(), AllocError>
    requires { c < 256 }
    ensures { OnOk result (string_bytes text.new ≡ string_bytes text.old ++ encode_utf8_all (forms.code c)) }
{
    text.push_str("\\x")?;
    text.push(digit(u32::from(c) / 16))?;
    text.push(digit(u32::from(c) % 16))
}

/// Writes a character or a byte between these quotes.
fn push_written(
    text: &mut String,
    is_byte: bool,
    quote: char,
    c: char,
) -> std::result::Result<(), AllocError>
    requires { is_byte ≡ true → c < 256 }
    ensures { OnOk result (string_bytes text.new ≡ string_bytes text.old ++ encode_utf8_all (forms.written is_byte quote c)) }
{
    if c == quote || c == '\\' {
        text.push('\\')?;
        return text.push(c);
    }
    match c {
        '\t' => text.push_str("\\t"),
        '\n' => text.push_str("\\n"),
        '\r' => text.push_str("\\r"),
        '\0' => text.push_str("\\0"),
        _ => {
            if is_shown(is_byte, c) {
                text.push(c)
            } else {
                push_code(text, c)
            }
        }
    }
}

/// The opening quote, after the `b` of a byte.
fn opened(alloc: Global, is_byte: bool, quote: char) -> std::result::Result<String, AllocError>
    ensures { IfOk result (λ s. string_bytes s ≡ encode_utf8_all (forms.opening is_byte quote)) }
{
    let mut text = String::new(alloc);
    if is_byte {
        text.push('b')?;
    }
    text.push(quote)?;
    Ok(text)
}

/// The text of a string.
#[tactic(auto, using(crate::proofs::Written::texts))]
fn str_text(alloc: Global, value: &str) -> std::result::Result<String, AllocError>
    ensures { IfOk result (λ s. string_bytes s ≡ encode_utf8_all (forms.quoted false 34 (chars value.now))) }
{
    let mut text = opened(alloc, false, '"')?;
    for c in value.chars() {
        push_written(&mut text, false, '"', c)?;
    }
    text.push('"')?;
    Ok(text)
}

/// The text of a string of bytes.
#[tactic(auto, using(crate::proofs::Written::texts))]
fn byte_str_text(alloc: Global, value: &[u8]) -> std::result::Result<String, AllocError>
    ensures { IfOk result (λ s. string_bytes s ≡ encode_utf8_all (forms.quoted true 34 value.now)) }
{
    let mut text = opened(alloc, true, '"')?;
    for b in value {
        push_written(&mut text, true, '"', char::from(*b))?;
    }
    text.push('"')?;
    Ok(text)
}

/// The text of a character or a byte.
#[tactic(auto, using(crate::proofs::Written::texts))]
fn single_text(alloc: Global, is_byte: bool, c: char) -> std::result::Result<String, AllocError>
    requires { is_byte ≡ true → c < 256 }
    ensures { IfOk result (λ s. string_bytes s ≡ encode_utf8_all (forms.quoted is_byte 39 (c ∷ []))) }
{
    let mut text = opened(alloc, is_byte, '\'')?;
    push_written(&mut text, is_byte, '\'', c)?;
    text.push('\'')?;
    Ok(text)
}

/// The token of a text that is one literal.
fn token(alloc: Global, text: &str, span: Span) -> Result<Literal>
    requires { IsLiteralText (chars text.now) }
    ensures made { IfOk result (λ l. l ≡ text.now) }
    ensures memory { IfErr result (λ e. e.kind ≡ ErrorKind.OutOfMemory) }
{
    Literal::new(alloc, text, span)
}

impl LitStr {
    /// The literal of this value, at this place. What can't stand for itself in it, or would not be seen, is escaped. It is
    /// refused only where memory runs out.
    pub fn new(alloc: Global, value: &str, span: Span) -> Result<LitStr>
        ensures value { IfOk result (λ x. spec.str_value (chars x.token) ≡ Some (chars value.now)) }
        ensures text { IfOk result (λ x. chars x.token ≡ forms.quoted false 34 (chars value.now)) }
        ensures literal { IfOk result (λ x. IsLiteralText (chars x.token)) }
        ensures memory { IfErr result (λ e. e.kind ≡ ErrorKind.OutOfMemory) }
    {
        let text = str_text(alloc, value)?;
        let token = token(alloc, text.as_str(), span)?;
        Ok(LitStr { token })
    }
}

impl LitByteStr {
    /// The literal of these bytes, at this place, with escapes as those of a string, and of all that is not of ASCII. It is
    /// refused only where memory runs out.
    pub fn new(alloc: Global, value: &[u8], span: Span) -> Result<LitByteStr>
        ensures value { IfOk result (λ x. spec.byte_str_value (chars x.token) ≡ Some value.now) }
        ensures text { IfOk result (λ x. chars x.token ≡ forms.quoted true 34 value.now) }
        ensures literal { IfOk result (λ x. IsLiteralText (chars x.token)) }
        ensures memory { IfErr result (λ e. e.kind ≡ ErrorKind.OutOfMemory) }
    {
        let text = byte_str_text(alloc, value)?;
        let token = token(alloc, text.as_str(), span)?;
        Ok(LitByteStr { token })
    }
}

impl LitChar {
    /// The literal of this character, at this place, escaped where it has to be. It is refused only where memory runs out.
    pub fn new(alloc: Global, value: char, span: Span) -> Result<LitChar>
        ensures value { IfOk result (λ x. spec.char_value (chars x.token) ≡ Some value) }
        ensures text { IfOk result (λ x. chars x.token ≡ forms.quoted false 39 (value ∷ [])) }
        ensures literal { IfOk result (λ x. IsLiteralText (chars x.token)) }
        ensures memory { IfErr result (λ e. e.kind ≡ ErrorKind.OutOfMemory) }
    {
        let text = single_text(alloc, false, value)?;
        let token = token(alloc, text.as_str(), span)?;
        Ok(LitChar { token })
    }
}

impl LitByte {
    /// The literal of this byte, at this place, escaped where it has to be. It is refused only where memory runs out.
    pub fn new(alloc: Global, value: u8, span: Span) -> Result<LitByte>
        ensures value { IfOk result (λ x. spec.byte_value (chars x.token) ≡ Some value) }
        ensures text { IfOk result (λ x. chars x.token ≡ forms.quoted true 39 (value ∷ [])) }
        ensures literal { IfOk result (λ x. IsLiteralText (chars x.token)) }
        ensures memory { IfErr result (λ e. e.kind ≡ ErrorKind.OutOfMemory) }
    {
        let text = single_text(alloc, true, char::from(value))?;
        let token = token(alloc, text.as_str(), span)?;
        Ok(LitByte { token })
    }
}

/// What is refused as no number of the kind that was asked for.
fn no_number(span: Span) -> Error
    ensures kind { result.kind ≡ ErrorKind.ExpectedPart Part.Literal }
    ensures place { result.span ≡ span }
{
    Error::new(span, ErrorKind::ExpectedPart(Part::Literal))
}

/// The sign of a number, and its text after it.
fn past_minus(text: &str) -> (bool, &str)
    ensures sign { result.0 ≡ forms.has_minus text.now }
    ensures rest { result.1.now ≡ forms.without_minus text.now }
{
    match text.as_bytes() {
        [b'-', ..] => (true, behind(text, 0)),
        _ => (false, text),
    }
}

/// The token of a number without a sign.
fn number_token(alloc: Global, wants_float: bool, text: &str, span: Span) -> Result<Literal>
    ensures made { IfOk result (λ l. (l ≡ text.now) × (parts.is_number l ≡ true) × forms.IsNumber wants_float text.now) }
    ensures refused { IfErr result (λ e. (e.kind ≡ ErrorKind.OutOfMemory) ⊎ ((e.kind ≡ ErrorKind.ExpectedPart Part.Literal) × ¬ forms.IsNumber wants_float text.now)) }
    ensures place { IfErr result (λ e. (e.kind ≡ ErrorKind.OutOfMemory) ⊎ (e.span ≡ span)) }
{
    if !is_number(text) || is_float(text) != wants_float {
        return Err(no_number(span));
    }
    match Literal::new(alloc, text, span) {
        Ok(token) => Ok(token),
        Err(e) => {
            if let ErrorKind::OutOfMemory = e.kind {
                Err(e)
            } else {
                Err(no_number(span))
            }
        }
    }
}

/// A sign at a place, if there is one.
fn minus_at(is_negative: bool, span: Span) -> Option<Minus>
    ensures { is_some result ≡ is_negative }
{
    if is_negative {
        Some(Minus { spans: [span] })
    } else {
        None
    }
}

impl LitInt {
    /// The integer of this text, as `1`, `0x1f` or `1u8` (Rust Reference, "Integer literals"), perhaps after a `-`, at this
    /// place. Another text is refused there as `ExpectedPart` of a literal.
    #[tactic(auto, using(crate::proofs::Made::numbers))]
    pub fn new(alloc: Global, repr: &str, span: Span) -> Result<LitInt>
        ensures made { IfOk result (λ x. lit_int_of x ≡ record { kind = kind.Int; text = repr.now }) }
        ensures found { IfOk result (λ _. forms.IsNumber false (forms.without_minus repr.now)) }
        ensures refused { IfErr result (λ e. (e.kind ≡ ErrorKind.OutOfMemory) ⊎ ((e.kind ≡ ErrorKind.ExpectedPart Part.Literal) × ¬ forms.IsNumber false (forms.without_minus repr.now))) }
        ensures place { IfErr result (λ e. (e.kind ≡ ErrorKind.OutOfMemory) ⊎ (e.span ≡ span)) }
    {
        let (is_negative, text) = past_minus(repr);
        let token = number_token(alloc, false, text, span)?;
        Ok(LitInt {
            minus_token: minus_at(is_negative, span),
            token,
        })
    }
}

impl LitFloat {
    /// The floating-point number of this text, as `1.5` or `1e3f32` (Rust Reference, "Floating-point literals"), perhaps after
    /// a `-`, at this place. Another text is refused there as `ExpectedPart` of a literal, and so is `1f32`, which is an
    /// integer.
    #[tactic(auto, using(crate::proofs::Made::numbers))]
    pub fn new(alloc: Global, repr: &str, span: Span) -> Result<LitFloat>
        ensures made { IfOk result (λ x. lit_float_of x ≡ record { kind = kind.Float; text = repr.now }) }
        ensures found { IfOk result (λ _. forms.IsNumber true (forms.without_minus repr.now)) }
        ensures refused { IfErr result (λ e. (e.kind ≡ ErrorKind.OutOfMemory) ⊎ ((e.kind ≡ ErrorKind.ExpectedPart Part.Literal) × ¬ forms.IsNumber true (forms.without_minus repr.now))) }
        ensures place { IfErr result (λ e. (e.kind ≡ ErrorKind.OutOfMemory) ⊎ (e.span ≡ span)) }
    {
        let (is_negative, text) = past_minus(repr);
        let token = number_token(alloc, true, text, span)?;
        Ok(LitFloat {
            minus_token: minus_at(is_negative, span),
            token,
        })
    }
}

/// The word of a truth value.
fn truth(value: bool) -> &'static str
    ensures { result.now ≡ forms.truth_text value }
{
    if value { "true" } else { "false" }
}

impl LitBool {
    /// `true` or `false`, at this place. It is refused only where memory runs out.
    #[tactic(auto, using(crate::proofs::Made::truths))]
    pub fn new(alloc: Global, value: bool, span: Span) -> Result<LitBool>
        ensures value { IfOk result (λ x. spec.bool_value x.word ≡ value) }
        ensures text { IfOk result (λ x. x.word ≡ forms.truth_text value) }
        ensures memory { IfErr result (λ e. e.kind ≡ ErrorKind.OutOfMemory) }
    {
        let word = Ident::new(alloc, truth(value), span)?;
        Ok(LitBool { word })
    }
}
