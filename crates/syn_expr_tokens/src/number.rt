//! The value of an integer literal that has no suffix. And floats after a dot: `pair.0.1` is cut into the tokens `pair`, `.`
//! and `0.1`, and read as `pair . 0 . 1` (Rust Reference, "Tuple indexing expressions").

ghost use Rattle.std.specs.List.{list_all};
ghost use Rattle.std.specs.Prelude.{◌≡◌, ◌<◌, ◌≤◌, false, is_some, None, [], ◌∷◌, length, IfSome, MatchOption, Some};
ghost use Rattle.syn_expr_tokens.specs.View as number;
ghost use Rattle.syn_expr_tokens.specs.Refusal as refusal;
ghost use Rattle.syn_lower_spec.specs.Pat as spec;
ghost use Rattle.syn_lower_spec.specs.Text as texts;
ghost use Rattle.syn_expr_tokens.specs.Cut as cut;
ghost use Rattle.syn_expr_tokens.specs.Cut.{Splits};
ghost use Rattle.syn_expr_tokens.specs.Refusal.{by_value};
ghost use Rattle.syn_expr_spec.specs.Stands as stands;
ghost use Rattle.syn_tokens.specs.Floats.{float_parts};
ghost use Rattle.syn_tokens.specs.Tok.{weight};

use crate::member::Index;
use std::marker::Model;
use syn_lower_leaves::leaf::{is_number, kind_of};
use syn_lower_spec::label::LitKind;
use syn_tokens::buffer::ParseBuffer;
use syn_tokens::error::{Error, ErrorKind};
use syn_tokens::tree::{Literal, Span, TokenTree};

/// The value of a digit, 99 where it is none.
fn digit_value(c: u8) -> u64
    ensures value { result ≡ spec.digit_value c }
    ensures small { result < 100 }
{
    match c {
        b'0'..=b'9' => u64::from(c - b'0'),
        b'a'..=b'f' => u64::from(c - b'a') + 10,
        b'A'..=b'F' => u64::from(c - b'A') + 10,
        _ => 99,
    }
}

/// The base of a number's text, and its digits.
fn base_and_digits(text: &str) -> (u64, &[u8])
    ensures value { spec.digits_value result.0 0 result.1.now ≡ number.value_of text.now }
    ensures some { 0 < result.0 }
    ensures small { result.0 ≤ 16 }
{
    match text.as_bytes() {
        [b'0', b'x', digits @ ..] => (16, digits),
        [b'0', b'o', digits @ ..] => (8, digits),
        [b'0', b'b', digits @ ..] => (2, digits),
        digits => (10, digits),
    }
}

/// The value of digits with underscores between; none where it is above 4294967295, or where there is another character
/// among them.
#[tactic(auto, using(crate::proofs::Numbers::numbers))]
fn digits_value(base: u64, digits: &[u8]) -> Option<u32>
    requires some { 0 < base }
    requires small { base ≤ 16 }
    ensures { result ≡ spec.within (spec.digits_value base 0 digits.now) }
{
    let mut found: u64 = 0;
    let mut rest = digits;
    'digits: while let [c, more @ ..] = rest {
        if *c != b'_' {
            let digit = digit_value(*c);
            if digit >= base {
                return None;
            }
            found = found * base + digit;
            if found > 4294967295 {
                return None;
            }
        }
        rest = more;
    }
    Some(found as u32)
}

/// Whether only digits of a base and underscores are there.
fn is_digits(base: u64, digits: &[u8]) -> bool
    ensures { result ≡ list_all (number.is_digit_of base) digits.now }
{
    digits.iter().all(|c| *c == b'_' || digit_value(*c) < base)
}

/// Whether the text is that of an integer without a suffix, however large.
#[tactic(auto, using(crate::proofs::Numbers::all_digits))]
pub fn is_unsuffixed(text: &str) -> bool
    ensures { result ≡ is_some (spec.integer_value text.now) }
{
    if !is_number(text) {
        return false;
    }
    let (base, digits) = base_and_digits(text);
    is_digits(base, digits)
}

/// The value of an integer without a suffix, in any base, with underscores or without (Rust Reference, "Integer
/// literals"); none where the text is another, or the value is above 4294967295.
#[tactic(auto, unfolding(syn_lower_spec::specs::Pat::index_of))]
pub fn index_of(text: &str) -> Option<u32>
    ensures { result ≡ spec.index_of text.now }
{
    if !is_number(text) {
        return None;
    }
    let (base, digits) = base_and_digits(text);
    digits_value(base, digits)
}

/// Whether the text is that of an integer, with a suffix or without.
#[tactic(auto, using(crate::proofs::Numbers::no_integer))]
pub fn is_integer(text: &str) -> bool
    ensures value { result ≡ refusal.is_integer (texts.kind_of text.now) }
    ensures other { result ≡ false → spec.index_of text.now ≡ None }
{
    matches!(kind_of(text), Some(LitKind::Int))
}

/// The indices in a float, in their order. Contracts see the list of them.
#[derive(Drop)]
pub struct FloatIndices<'a> {
    /// What is left of the float.
    text: &'a str,
    /// Where the whole float is.
    span: Span,
}

impl<'a> Model for FloatIndices<'a> {
    ghost use Rattle.std.specs.Prelude.{List, ℕ};
    ghost use Rattle.syn_expr_tokens.specs.Cut.{cut, front_indices};

    ghost Value = { List ℕ };

    ghost view = { λ i. front_indices (cut i.text.now) };
}

/// The text before the first dot and the text after it, if there is a dot.
fn split_part(text: &str) -> Option<(&str, &str)>
    ensures parts { MatchOption result (cut.cut text.now ≡ cut.last_part text.now) (λ p. Splits text.now p.0.now p.1.now) }
    ensures smaller { IfSome result (λ p. length p.1.now < length text.now) }
{
    text.split_once('.')
}

/// The text before the first dot and the text after it: the whole and none where there is no dot.
#[tactic(auto, using(crate::proofs::Cuts::fronts))]
fn first_part(text: &str) -> (&str, &str)
    ensures { cut.front_indices (cut.cut text.now) ≡ cut.with_index (spec.index_of result.0.now) (cut.front_indices (cut.cut result.1.now)) }
{
    match split_part(text) {
        Some((part, more)) => (part, more),
        None => (text, ""),
    }
}

/// Whether a dot ends the text, each part before a dot being an index; none where a part is another text.
#[tactic(auto, using(crate::proofs::Cuts::ends))]
fn ends_with_dot(text: &str) -> Option<bool>
    ensures { result ≡ cut.end_of (stands.steps_of (cut.cut text.now)) }
{
    let mut rest = text;
    'parts: while let Some((part, more)) = split_part(rest) {
        if index_of(part).is_none() {
            return None;
        }
        rest = more;
    }
    if rest.is_empty() {
        return Some(true);
    }
    if index_of(rest).is_none() {
        return None;
    }
    Some(false)
}

impl<'a> FloatIndices<'a> {
    /// No indices, where there is no float.
    fn none(span: Span) -> FloatIndices<'a>
        ensures { result ≡ [] }
    {
        FloatIndices { text: "", span }
    }

    /// Takes the next index. Its place is that of the float.
    pub fn next_index(&mut self) -> Option<Index>
        ensures { MatchOption result ((self.old ≡ []) × (self.new ≡ [])) (λ i. self.old ≡ i.index ∷ self.new) }
    {
        let (part, more) = first_part(self.text);
        let index = index_of(part)?;
        self.text = more;
        Some(Index {
            index,
            span: self.span,
        })
    }

    /// Where the float is, and so each dot that is in it.
    pub fn span(&self) -> Span {
        self.span
    }
}

/// The indices in a float, and whether a dot ends them; none where it has another part.
#[tactic(auto, using(crate::proofs::Cuts::steps))]
fn float_steps(float: &Literal) -> Option<(FloatIndices<'_>, bool)>
    ensures { MatchOption result (stands.steps_of (float_parts float.now) ≡ None) (λ p. stands.steps_of (float_parts float.now) ≡ Some (p.0, p.1)) }
{
    let text = float.as_str();
    if !is_number(text) {
        return None;
    }
    match ends_with_dot(text) {
        Some(dotted) => {
            let span = float.span();
            Some((FloatIndices { text, span }, dotted))
        }
        None => None,
    }
}

/// Takes the float that comes first after a dot where it is indices alone: `pair.0`, `pair.0.1`. Where it isn't, it
/// stays (Rust Reference, "Tuple indexing expressions").
#[tactic(auto, unfolding(syn_expr_spec::specs::Stands::indices_at), using(syn_tokens::proofs::Weights::drops))]
pub fn indices<'a>(input: &mut ParseBuffer<'a>) -> Option<FloatIndices<'a>>
    ensures value { MatchOption result ((stands.indices_at input.old.rest ≡ None) × (input.new ≡ input.old)) (λ is. (stands.indices_at input.old.rest ≡ Some (is, input.new.rest)) × (input.new.noted ≡ input.old.noted)) }
    ensures smaller { IfSome result (λ _. weight input.new.rest < weight input.old.rest) }
{
    match input.first() {
        Some(TokenTree::Literal(float)) => match float_steps(float) {
            Some((indices, false)) => {
                input.skip(1);
                Some(indices)
            }
            _ => None,
        },
        _ => None,
    }
}

/// Takes what comes after a dot before a name: nothing, or a float that is indices and a last dot, as in `pair.0.name`.
/// Another literal is refused and stays.
#[tactic(auto, unfolding(syn_expr_spec::specs::Stands::name_at), using(syn_tokens::proofs::Weights::drops))]
pub fn indices_before_name<'a>(input: &mut ParseBuffer<'a>) -> Option<FloatIndices<'a>>
    ensures value { MatchOption result ((stands.name_at input.old.rest ≡ None) × (input.new ≡ input.old)) (λ is. (stands.name_at input.old.rest ≡ Some (is, input.new.rest)) × (input.new.noted ≡ input.old.noted)) }
    ensures shrinks { weight input.new.rest ≤ weight input.old.rest }
{
    match input.first() {
        Some(TokenTree::Literal(float)) => match float_steps(float) {
            Some((indices, true)) => {
                input.skip(1);
                Some(indices)
            }
            _ => None,
        },
        _ => Some(FloatIndices::none(input.span())),
    }
}

/// As what a part of a float is refused that is no index.
fn part_refusal(text: &str) -> ErrorKind
    ensures { result ≡ by_value (spec.integer_value text.now) }
{
    if is_unsuffixed(text) {
        ErrorKind::IndexOutOfRange
    } else {
        ErrorKind::ExpectedUnsuffixedInteger
    }
}

/// As what a float is refused, by its first part that is no index.
#[tactic(auto, using(crate::proofs::Cuts::refusals))]
fn float_refusal(text: &str) -> ErrorKind
    ensures { result ≡ cut.refusal_of (cut.cut text.now) }
{
    let mut rest = text;
    'parts: while let Some((part, more)) = split_part(rest) {
        if index_of(part).is_none() {
            return part_refusal(part);
        }
        rest = more;
    }
    part_refusal(rest)
}

/// The refusal where neither indices nor a name come after a dot, at the next token. Of a number it is `IndexOutOfRange`
/// where the first of its parts that is no index is an integer without a suffix, else `ExpectedUnsuffixedInteger`; of any
/// other token it is `ExpectedMember`.
pub fn refusal(input: &ParseBuffer<'_>) -> Error
    ensures { result.kind ≡ cut.refusal_at input.now.rest }
{
    match input.first() {
        Some(TokenTree::Literal(literal)) if is_number(literal.as_str()) => {
            input.error(float_refusal(literal.as_str()))
        }
        _ => input.error(ErrorKind::ExpectedMember),
    }
}
