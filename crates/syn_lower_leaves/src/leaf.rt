//! The readers of the parts that hold no others: words and literals by the texts of their tokens, and groups whose tokens
//! are verbatim.
//!
//! A missing lifetime or identifier is refused as `ExpectedToken` of it, a missing literal as `ExpectedPart` of a literal,
//! and a missing word of a segment as `ExpectedPart` of a path. Missing brackets of an attribute are refused as
//! `ExpectedToken` of `[`, missing braces of a block as `ExpectedToken` of `{`, a missing group of a macro as `ExpectedPart`
//! of a macro, a missing constant as `ExpectedPart` of a literal, and a rest without tokens as `ExpectedExpression`.

ghost use Rattle.std.specs.Prelude.{IfErr, ◌≡◌, ◌⊎◌, ◌≤◌, ◌∷◌, drop, true, false, IfOk, MatchOption, Some, None, ◌<◌, map, take, nat_lt, if◌then◌else◌, IfSome};
ghost use Rattle.syn_lower_leaves.specs.Reads.{Reads, wanted_lifetime, first_alone, Takes};
ghost use Rattle.syn_lower_leaves.specs.View.{lifetime_of, lit_of, lit_str_of, signed, attribute_of, delimiter_of};
ghost use Rattle.syn_lower_spec.specs.Mark as mark;
ghost use Rattle.syn_lower_spec.specs.Part as part;
ghost use Rattle.syn_lower_spec.specs.Text as spec;
ghost use Rattle.syn_tokens.specs.Tok as tok;
ghost use Rattle.syn_tokens.specs.Tok.{weight};
ghost use Rattle.syn_tokens.specs.View.{toks_of};
ghost use Rattle.std.specs.List.{prefix_len};
ghost use Rattle.std.specs.Str.{bytes_eq};

use crate::attr::{AttrStyle, Attribute};
use crate::block::Block;
use crate::front;
use crate::lifetime::Lifetime;
use crate::lit::{Lit, LitBool, LitByte, LitByteStr, LitCStr, LitChar, LitFloat, LitInt, LitStr};
use crate::mac::MacroDelimiter;
use std::alloc::Global;
use syn_lexer::front::is_reserved_word;
use syn_lower_spec::label::LitKind;
use syn_tokens::buffer::{ParseBuffer, Token};
use syn_tokens::error::{ErrorKind, Expected, Part, Result, Wanted};
use syn_tokens::token::{Brace, Bracket, Minus, Not, Paren, Pound};
use syn_tokens::tree::{
    Ident, Literal, Punct, Span, TokenStream, TokenTree, copy_ident, copy_literal, copy_trees,
};
use syn_tokens::{Delimiter, Spacing};

/// The place of the apostrophe and the word of a lifetime that comes first.
#[tactic(auto, unfolding(syn_lower_spec::specs::Mark::lifetime_at))]
fn quoted<'a>(rest: &'a [TokenTree]) -> Option<(Span, &'a Ident)>
    ensures { MatchOption result (mark.lifetime_at (toks_of rest.now) ≡ false) (λ q. (mark.lifetime_at (toks_of rest.now) ≡ true) × (drop 1 (toks_of rest.now) ≡ tok.ident q.1.now ∷ drop 2 (toks_of rest.now))) }
{
    match rest {
        [TokenTree::Punct(quote), more @ ..]
            if quote.ch == '\'' && quote.spacing == Spacing::Joint => {
            match more {
                [TokenTree::Ident(word), ..] => Some((quote.span, word)),
                _ => None,
            }
        }
        _ => None,
    }
}

impl Token for Lifetime {
    ghost sees = { mark.lifetime_at };

    fn peek(rest: &[TokenTree]) -> bool {
        quoted(rest).is_some()
    }
}

/// Whether a lifetime comes first.
pub fn lifetime_at(input: &ParseBuffer<'_>) -> bool
    ensures { result ≡ mark.lifetime_at input.now.rest }
{
    input.peek::<Lifetime>()
}

/// Reads a lifetime.
#[tactic(auto, using(syn_tokens::proofs::Weights::drops), unfolding(syn_lower_spec::specs::Part::lifetime))]
pub fn lifetime(input: &mut ParseBuffer<'_>) -> Result<Lifetime>
    ensures value { Reads lifetime_of (part.lifetime.reads input.old.rest) result input.new.rest }
    ensures noted { input.new.noted ≡ input.old.noted }
    ensures shrinks { weight input.new.rest ≤ weight input.old.rest }
    ensures there { IfOk result (λ _. mark.lifetime_at input.old.rest ≡ true) }
    ensures refused { IfErr result (λ e. (e.kind ≡ ErrorKind.OutOfMemory) ⊎ ((mark.lifetime_at input.old.rest ≡ false) × (e.kind ≡ wanted_lifetime))) }
{
    let Some((apostrophe, word)) = quoted(input.trees()) else {
        return Err(input.error(ErrorKind::ExpectedToken(Expected::One(Wanted::Lifetime))));
    };
    let ident = copy_ident(input.alloc(), word)?;
    input.skip(2);
    Ok(Lifetime { apostrophe, ident })
}

/// A number after its sign.
fn number(minus_token: Option<Minus>, token: Literal) -> Lit
    requires { spec.is_number token ≡ true }
    ensures { lit_of result ≡ record { kind = spec.number_kind token; text = signed minus_token token } }
{
    if number_kind(token.as_str()) == LitKind::Float {
        Lit::Float(LitFloat { minus_token, token })
    } else {
        Lit::Int(LitInt { minus_token, token })
    }
}

/// The literal that a token is; none where its text begins none.
#[tactic(auto, unfolding(syn_lower_spec::specs::Text::kind_of))]
fn plain(alloc: Global, literal: &Literal) -> Result<Option<Lit>>
    ensures value { IfOk result (λ o. MatchOption o (spec.kind_of literal.now ≡ None) (λ l. (spec.kind_of literal.now ≡ Some (lit_of l).kind) × ((lit_of l).text ≡ literal.now))) }
    ensures memory { IfErr result (λ e. e.kind ≡ ErrorKind.OutOfMemory) }
{
    let text = literal.as_str();
    if is_number(text) {
        let token = copy_literal(alloc, literal)?;
        return Ok(Some(number(None, token)));
    }
    let kind = kind_of(text);
    let token = copy_literal(alloc, literal)?;
    Ok(match kind {
        Some(LitKind::Str) => Some(Lit::Str(LitStr { token })),
        Some(LitKind::ByteStr) => Some(Lit::ByteStr(LitByteStr { token })),
        Some(LitKind::CStr) => Some(Lit::CStr(LitCStr { token })),
        Some(LitKind::Byte) => Some(Lit::Byte(LitByte { token })),
        Some(LitKind::Char) => Some(Lit::Char(LitChar { token })),
        _ => None,
    })
}

/// Reads a literal without a sign.
#[tactic(auto, using(syn_tokens::proofs::Weights::drops), unfolding(syn_lower_spec::specs::Part::unsigned))]
pub fn unsigned(input: &mut ParseBuffer<'_>) -> Result<Lit>
    ensures value { Reads lit_of (part.unsigned.reads input.old.rest) result input.new.rest }
    ensures noted { input.new.noted ≡ input.old.noted }
    ensures shrinks { weight input.new.rest ≤ weight input.old.rest }
{
    match input.first() {
        Some(TokenTree::Literal(literal)) => {
            let Some(lit) = plain(input.alloc(), literal)? else {
                return Err(input.error(ErrorKind::ExpectedPart(Part::Literal)));
            };
            input.skip(1);
            Ok(lit)
        }
        Some(TokenTree::Ident(word)) if is_truth(word.as_str()) => {
            let word = copy_ident(input.alloc(), word)?;
            input.skip(1);
            Ok(Lit::Bool(LitBool { word }))
        }
        _ => Err(input.error(ErrorKind::ExpectedPart(Part::Literal))),
    }
}

/// The place of the `-` and the number after it that come first.
fn negative<'a>(input: &ParseBuffer<'a>) -> Option<(Span, &'a Literal)>
    ensures { MatchOption result (part.find_signed input.now.rest ≡ part.find_lit input.now.rest) (λ n. (part.find_signed input.now.rest ≡ Some (record { kind = spec.number_kind n.1.now; text = 45 ∷ n.1.now }, drop 2 input.now.rest)) × (spec.is_number n.1.now ≡ true)) }
{
    match input.trees() {
        [TokenTree::Punct(minus), more @ ..] if minus.ch == '-' => match more {
            [TokenTree::Literal(literal), ..] if is_number(literal.as_str()) => {
                Some((minus.span, literal))
            }
            _ => None,
        },
        _ => None,
    }
}

/// Reads a literal, or `-` and a number.
#[tactic(auto, using(syn_tokens::proofs::Weights::drops), unfolding(syn_lower_spec::specs::Part::lit, syn_lower_spec::specs::Part::unsigned))]
pub fn lit(input: &mut ParseBuffer<'_>) -> Result<Lit>
    ensures value { Reads lit_of (part.lit.reads input.old.rest) result input.new.rest }
    ensures noted { input.new.noted ≡ input.old.noted }
    ensures shrinks { weight input.new.rest ≤ weight input.old.rest }
{
    let Some((span, literal)) = negative(input) else {
        return unsigned(input);
    };
    let token = copy_literal(input.alloc(), literal)?;
    input.skip(2);
    Ok(number(Some(Minus { spans: [span] }), token))
}

/// Reads a string literal.
#[tactic(auto, using(syn_tokens::proofs::Weights::drops), unfolding(syn_lower_spec::specs::Part::string))]
pub fn string(input: &mut ParseBuffer<'_>) -> Result<LitStr>
    ensures value { Reads lit_str_of (part.string.reads input.old.rest) result input.new.rest }
    ensures noted { input.new.noted ≡ input.old.noted }
    ensures shrinks { weight input.new.rest ≤ weight input.old.rest }
{
    match input.first() {
        Some(TokenTree::Literal(literal)) if kind_of(literal.as_str()) == Some(LitKind::Str) => {
            let token = copy_literal(input.alloc(), literal)?;
            input.skip(1);
            Ok(LitStr { token })
        }
        _ => Err(input.error(ErrorKind::ExpectedPart(Part::Literal))),
    }
}

/// Whether a string literal comes first.
#[tactic(auto, unfolding(syn_lower_spec::specs::Part::string_at))]
pub fn string_at(input: &ParseBuffer<'_>) -> bool
    ensures { result ≡ part.string_at input.now.rest }
{
    match input.first() {
        Some(TokenTree::Literal(literal)) => kind_of(literal.as_str()) == Some(LitKind::Str),
        _ => false,
    }
}

/// Reads an identifier.
#[tactic(auto, using(syn_tokens::proofs::Weights::drops), unfolding(syn_lower_spec::specs::Part::name))]
pub fn name(input: &mut ParseBuffer<'_>) -> Result<Ident>
    ensures value { Reads (λ i. i) (part.name.reads input.old.rest) result input.new.rest }
    ensures noted { input.new.noted ≡ input.old.noted }
    ensures shrinks { weight input.new.rest ≤ weight input.old.rest }
{
    match input.first() {
        Some(TokenTree::Ident(word)) if !is_reserved_word(word.as_str()) => {
            let ident = copy_ident(input.alloc(), word)?;
            input.skip(1);
            Ok(ident)
        }
        _ => Err(input.error(ErrorKind::ExpectedToken(Expected::One(Wanted::Identifier)))),
    }
}

/// Reads the word of a path's segment.
#[tactic(auto, using(syn_tokens::proofs::Weights::drops), unfolding(syn_lower_spec::specs::Part::segment_name))]
pub fn segment_name(input: &mut ParseBuffer<'_>) -> Result<Ident>
    ensures value { Reads (λ i. i) (part.segment_name.reads input.old.rest) result input.new.rest }
    ensures noted { input.new.noted ≡ input.old.noted }
    ensures shrinks { weight input.new.rest ≤ weight input.old.rest }
{
    match input.first() {
        Some(TokenTree::Ident(word)) if is_segment(word.as_str()) => {
            let ident = copy_ident(input.alloc(), word)?;
            input.skip(1);
            Ok(ident)
        }
        _ => Err(input.error(ErrorKind::ExpectedPart(Part::Path))),
    }
}

/// Reads the name of a function pointer's argument, an identifier or `_`.
#[tactic(auto, using(syn_tokens::proofs::Weights::drops), unfolding(syn_lower_spec::specs::Part::arg_name))]
pub fn arg_name(input: &mut ParseBuffer<'_>) -> Result<Ident>
    ensures value { Reads (λ i. i) (part.arg_name.reads input.old.rest) result input.new.rest }
    ensures noted { input.new.noted ≡ input.old.noted }
    ensures shrinks { weight input.new.rest ≤ weight input.old.rest }
{
    match input.first() {
        Some(TokenTree::Ident(word)) if !is_reserved_word(word.as_str()) || word.as_str() == "_" =>
            {
                let ident = copy_ident(input.alloc(), word)?;
                input.skip(1);
                Ok(ident)
            }
        _ => Err(input.error(ErrorKind::ExpectedToken(Expected::One(Wanted::Identifier)))),
    }
}

/// The byte at a place, 0 past the end.
fn byte_at(text: &str, i: usize) -> u8
    ensures { result ≡ spec.byte_at text.now i }
{
    match text.as_bytes().get(i) {
        Some(b) => *b,
        None => 0,
    }
}

/// Whether the text of a literal begins with a digit.
#[tactic(auto, unfolding(syn_lower_spec::specs::Text::is_number))]
pub fn is_number(text: &str) -> bool
    ensures { result ≡ spec.is_number text.now }
{
    byte_at(text, 0).is_ascii_digit()
}

/// Whether the text begins with `0x`, `0o` or `0b`.
fn has_radix(text: &str) -> bool
    ensures { result ≡ spec.has_radix text.now }
{
    byte_at(text, 0) == b'0' && matches!(byte_at(text, 1), b'x' | b'o' | b'b')
}

/// A decimal digit or an underscore.
fn is_digit(c: u8) -> bool
    ensures { result ≡ spec.is_digit c }
{
    c.is_ascii_digit() || c == b'_'
}

/// How many decimal digits and underscores come first.
fn digits_len(text: &str) -> usize
    ensures { result ≡ prefix_len spec.is_digit text.now }
{
    text.as_bytes().iter().take_while(|c| is_digit(**c)).count()
}

/// A dot or an exponent's letter.
fn begins_fraction(c: u8) -> bool
    ensures { result ≡ spec.begins_fraction c }
{
    c == b'.' || c == b'e' || c == b'E'
}

/// Whether a number is one with a dot or an exponent.
#[tactic(auto, unfolding(syn_lower_spec::specs::Text::is_float_text))]
pub(crate) fn is_float(text: &str) -> bool
    ensures { result ≡ spec.is_float_text text.now }
{
    !has_radix(text) && begins_fraction(byte_at(text, digits_len(text)))
}

/// The kind of a number.
pub fn number_kind(text: &str) -> LitKind
    ensures { result ≡ spec.number_kind text.now }
{
    if is_float(text) {
        LitKind::Float
    } else {
        LitKind::Int
    }
}

/// The kind of a literal, by its first characters.
#[tactic(auto, unfolding(syn_lower_spec::specs::Text::kind_of))]
pub fn kind_of(text: &str) -> Option<LitKind>
    ensures { result ≡ spec.kind_of text.now }
{
    if is_number(text) {
        return Some(number_kind(text));
    }
    match byte_at(text, 0) {
        b'"' | b'r' => Some(LitKind::Str),
        b'\'' => Some(LitKind::Char),
        b'b' if byte_at(text, 1) == b'\'' => Some(LitKind::Byte),
        b'b' => Some(LitKind::ByteStr),
        b'c' => Some(LitKind::CStr),
        _ => None,
    }
}

/// Whether a word is this text.
#[inline(always)]
#[tactic(auto, using(syn_lexer::proofs::Words::lengths))]
fn is_word(word: &str, text: &str) -> bool
    ensures { result ≡ bytes_eq word.now text.now }
{
    // Most words differ in their length, which is one test.
    word.len() == text.len() && word == text
}

/// Whether a word is `true` or `false`.
#[tactic(auto, unfolding(syn_lower_spec::specs::Text::is_truth))]
pub fn is_truth(word: &str) -> bool
    ensures { result ≡ spec.is_truth word.now }
{
    is_word(word, "true") || is_word(word, "false")
}

/// Whether a segment of this word takes no arguments.
#[tactic(auto, unfolding(syn_lower_spec::specs::Text::stands_alone))]
pub fn stands_alone(word: &str) -> bool
    ensures { result ≡ spec.stands_alone word.now }
{
    is_word(word, "super")
        || is_word(word, "self")
        || is_word(word, "crate")
        || is_word(word, "try")
}

/// Whether a word is a segment of a path.
#[tactic(auto, unfolding(syn_lower_spec::specs::Text::is_segment))]
pub fn is_segment(word: &str) -> bool
    ensures { result ≡ spec.is_segment word.now }
{
    !is_reserved_word(word) || word == "Self" || stands_alone(word)
}

/// Reads the brackets of an outer attribute.
#[tactic(auto, unfolding(syn_lower_spec::specs::Part::outer_body, syn_lower_spec::specs::Part::verbatim))]
fn outer_body(input: &mut ParseBuffer<'_>, pound_token: Pound) -> Result<Attribute>
    ensures value { Reads attribute_of (part.outer_body.reads input.old.rest) result input.new.rest }
    ensures noted { input.new.noted ≡ input.old.noted }
    ensures shrinks { weight input.new.rest ≤ weight input.old.rest }
{
    let (bracket_token, content) = input.parse_brackets()?;
    let tokens = copy_trees(input.alloc(), content.trees())?;
    Ok(Attribute {
        pound_token,
        style: AttrStyle::Outer,
        bracket_token,
        tokens,
    })
}

/// Reads the brackets of an inner attribute.
#[tactic(auto, unfolding(syn_lower_spec::specs::Part::inner_body, syn_lower_spec::specs::Part::verbatim))]
fn inner_body(input: &mut ParseBuffer<'_>, pound_token: Pound, bang_token: Not) -> Result<Attribute>
    ensures value { Reads attribute_of (part.inner_body.reads input.old.rest) result input.new.rest }
    ensures noted { input.new.noted ≡ input.old.noted }
    ensures shrinks { weight input.new.rest ≤ weight input.old.rest }
{
    let (bracket_token, content) = input.parse_brackets()?;
    let tokens = copy_trees(input.alloc(), content.trees())?;
    Ok(Attribute {
        pound_token,
        style: AttrStyle::Inner(bang_token),
        bracket_token,
        tokens,
    })
}

/// Takes `#` and `!`, each for itself.
#[tactic(auto, using(syn_tokens::proofs::Signs::fronts, syn_tokens::proofs::Weights::drops), unfolding(syn_tokens::specs::Sign::sign_text, syn_lower_spec::specs::Mark::sign_at))]
fn pound_bang(input: &mut ParseBuffer<'_>) -> Option<(Pound, Not)>
    ensures value { Takes part.pound_bang input.old result input.new }
    ensures smaller { IfSome result (λ _. weight input.new.rest < weight input.old.rest) }
    ensures shrinks { weight input.new.rest ≤ weight input.old.rest }
{
    match input.trees() {
        [_, more @ ..] if Not::peek(more) && input.peek::<Pound>() => {
            let [pound, bang] = input.spans::<2>();
            input.skip(2);
            Some((Pound { spans: [pound] }, Not { spans: [bang] }))
        }
        _ => None,
    }
}

/// Reads the outer attributes that come first, as many as there are.
#[tactic(auto, using(crate::proofs::Loops::outer_attributes), unfolding(syn_lower_spec::specs::Part::outer_attributes))]
pub fn outer_attributes(input: &mut ParseBuffer<'_>) -> Result<Vec<Attribute>>
    ensures value { Reads (λ v. map attribute_of v.items) (part.outer_attributes.reads input.old.rest) result input.new.rest }
    ensures noted { input.new.noted ≡ input.old.noted }
    ensures shrinks { weight input.new.rest ≤ weight input.old.rest }
{
    let mut found = Vec::new(input.alloc());
    'attributes: while let Some(pound_token) = front::pound(input) {
        found.push(outer_body(input, pound_token)?)?;
    }
    Ok(found)
}

/// Reads the inner attributes that come first, as many as there are.
#[tactic(auto, using(crate::proofs::Loops::inner_attributes), unfolding(syn_lower_spec::specs::Part::inner_attributes))]
pub fn inner_attributes(input: &mut ParseBuffer<'_>) -> Result<Vec<Attribute>>
    ensures value { Reads (λ v. map attribute_of v.items) (part.inner_attributes.reads input.old.rest) result input.new.rest }
    ensures noted { input.new.noted ≡ input.old.noted }
    ensures shrinks { weight input.new.rest ≤ weight input.old.rest }
{
    let mut found = Vec::new(input.alloc());
    'attributes: while let Some((pound_token, bang_token)) = pound_bang(input) {
        found.push(inner_body(input, pound_token, bang_token)?)?;
    }
    Ok(found)
}

/// Reads a block.
#[tactic(auto, unfolding(syn_lower_spec::specs::Part::block, syn_lower_spec::specs::Part::verbatim))]
pub fn block(input: &mut ParseBuffer<'_>) -> Result<Block>
    ensures value { Reads (λ b. b.stmts) (part.block.reads input.old.rest) result input.new.rest }
    ensures noted { input.new.noted ≡ input.old.noted }
    ensures shrinks { weight input.new.rest ≤ weight input.old.rest }
{
    let (brace_token, content) = input.parse_braces()?;
    let stmts = copy_trees(input.alloc(), content.trees())?;
    Ok(Block { brace_token, stmts })
}

/// What shows a delimiter; none for an invisible group.
fn shown(delimiter: Delimiter, span: Span) -> Option<MacroDelimiter>
    ensures { MatchOption result (delimiter ≡ Delimiter.None) (λ d. delimiter ≡ delimiter_of d) }
{
    match delimiter {
        Delimiter::Parenthesis => Some(MacroDelimiter::Paren(Paren { span })),
        Delimiter::Brace => Some(MacroDelimiter::Brace(Brace { span })),
        Delimiter::Bracket => Some(MacroDelimiter::Bracket(Bracket { span })),
        Delimiter::None => None,
    }
}

/// Reads a group in parentheses, braces or brackets.
#[tactic(auto, using(syn_tokens::proofs::Weights::drops, crate::proofs::ReadingAttributes::groups), unfolding(syn_lower_spec::specs::Part::any_group))]
pub fn any_group(input: &mut ParseBuffer<'_>) -> Result<(MacroDelimiter, TokenStream)>
    ensures value { Reads (λ g. (delimiter_of g.0, g.1)) (part.any_group.reads input.old.rest) result input.new.rest }
    ensures noted { input.new.noted ≡ input.old.noted }
    ensures shrinks { weight input.new.rest ≤ weight input.old.rest }
{
    let Some(TokenTree::Group(group)) = input.first() else {
        return Err(input.error(ErrorKind::ExpectedPart(Part::Macro)));
    };
    let Some(delimiter) = shown(group.delimiter, group.span) else {
        return Err(input.error(ErrorKind::ExpectedPart(Part::Macro)));
    };
    let tokens = copy_trees(input.alloc(), group.stream.trees())?;
    input.skip(1);
    Ok((delimiter, tokens))
}

/// Reads all that is left, one token at least.
#[tactic(auto, unfolding(syn_lower_spec::specs::Part::rest_of))]
pub fn rest_of(input: &mut ParseBuffer<'_>) -> Result<TokenStream>
    ensures value { Reads (λ s. s) (part.rest_of.reads input.old.rest) result input.new.rest }
    ensures noted { input.new.noted ≡ input.old.noted }
    ensures shrinks { weight input.new.rest ≤ weight input.old.rest }
{
    if input.is_empty() {
        return Err(input.error(ErrorKind::ExpectedExpression));
    }
    let tokens = copy_trees(input.alloc(), input.trees())?;
    input.skip(input.len());
    Ok(tokens)
}

/// Whether a literal or a `-` comes first.
fn lit_at(input: &ParseBuffer<'_>) -> bool
    ensures { result ≡ part.is_lit_there input.now.rest }
{
    match input.first() {
        Some(TokenTree::Literal(_)) => true,
        Some(TokenTree::Ident(word)) => is_truth(word.as_str()),
        Some(TokenTree::Punct(punct)) => punct.ch == '-',
        Some(TokenTree::Group(_)) => false,
        None => false,
    }
}

/// Whether a constant argument comes first: a literal, a `-` or a brace group.
#[tactic(auto, unfolding(syn_lower_spec::specs::Part::const_at))]
pub fn const_at(input: &ParseBuffer<'_>) -> bool
    ensures { result ≡ part.const_at input.now.rest }
{
    lit_at(input) || input.peek::<Brace>()
}

/// How many tokens the constant argument has that comes first; 0 where none does.
fn constant_len(input: &ParseBuffer<'_>) -> usize
    ensures { part.find_const input.now.rest ≡ (if nat_lt 0 result then Some (first_alone (take result input.now.rest), drop result input.now.rest) else None) }
{
    match input.trees() {
        [TokenTree::Literal(_), ..] => 1,
        [TokenTree::Ident(word), ..] if is_truth(word.as_str()) => 1,
        [TokenTree::Group(group), ..] if group.delimiter == Delimiter::Brace => 1,
        [TokenTree::Punct(punct), more @ ..] if punct.ch == '-' => match more {
            [TokenTree::Literal(literal), ..] if is_number(literal.as_str()) => 2,
            _ => 0,
        },
        _ => 0,
    }
}

/// A copy of some trees in which a sign in front is by itself, however it was joined; refused only where memory runs out.
fn copy_first_alone(alloc: Global, trees: &[TokenTree]) -> Result<TokenStream>
    ensures copied { IfOk result (λ s. s ≡ first_alone (toks_of trees.now)) }
    ensures memory { IfErr result (λ e. e.kind ≡ ErrorKind.OutOfMemory) }
{
    let [TokenTree::Punct(sign), more @ ..] = trees else {
        return copy_trees(alloc, trees);
    };
    let mut tokens = TokenStream::new(alloc);
    tokens.push(TokenTree::Punct(Punct {
        spacing: Spacing::Alone,
        ..*sign
    }))?;
    tokens.append(copy_trees(alloc, more)?)?;
    Ok(tokens)
}

/// Reads the tokens of a constant argument.
#[tactic(auto, using(syn_tokens::proofs::Views::views, syn_tokens::proofs::Weights::drops), unfolding(syn_lower_spec::specs::Part::constant_tokens))]
pub fn constant_tokens(input: &mut ParseBuffer<'_>) -> Result<TokenStream>
    ensures value { Reads (λ s. s) (part.constant_tokens.reads input.old.rest) result input.new.rest }
    ensures noted { input.new.noted ≡ input.old.noted }
    ensures shrinks { weight input.new.rest ≤ weight input.old.rest }
{
    let count = constant_len(input);
    if count == 0 {
        return Err(input.error(ErrorKind::ExpectedPart(Part::Literal)));
    }
    let mut tokens = copy_first_alone(input.alloc(), input.trees())?;
    tokens.truncate(count);
    input.skip(count);
    Ok(tokens)
}
