//! Cuts a text into token trees.

ghost use Rattle.std.specs.Prelude.{◌≡◌, ◌≢◌, ◌≤◌, ◌<◌, ◌+◌, ◌^◌, ◌++◌, ◌∷◌, ◌⊎◌, [], ℕ, List, true, length, drop, chars, encode_utf8_all, IfOk, IfErr, OnOk, MatchResult};
ghost use Rattle.std.specs.Rc.{rc_str_bytes};
ghost use Rattle.std.specs.Str.{IsAscii};
ghost use Rattle.syn_tokens.specs.Input.{Gives};
ghost use Rattle.syn_tokens.specs.Lex as spec;
ghost use Rattle.syn_tokens.specs.Nest.{nest_pieces, delimiters_of, places_of, places_behind, BeginWithin, misfits};
ghost use Rattle.syn_tokens.specs.Spans.{IsWithin};
ghost use Rattle.syn_tokens.specs.Standing.{AreLeft, StandAt};
ghost use Rattle.syn_tokens.specs.Tok.{Tok};
ghost use Rattle.syn_tokens.specs.View.{tok_of};

use crate::error::{Error, ErrorKind, LexError, Result};
use crate::same::is_same;
use crate::text::SharedText;
use crate::tree::{Group, Ident, Literal, Punct, Span, TokenStream, TokenTree};
use crate::{Delimiter, Spacing};
use std::alloc::{AllocError, Global};
use std::rc::RcStr;
use syn_lexer::error::Refusal;
use syn_lexer::front::{LexemeKind, front};

/// The token trees of a text (Rust Reference, "Tokens"), with places in bytes from its start. Blanks and comments make
/// none. Groups may nest without bound.
///
/// What is no token is refused as `Lex`, and each `LexError` says when; the first in the text counts, a delimiter that
/// is not closed last. A refusal spans from the token's first byte to where the lexer stood, of a delimiter that is not
/// closed the opening one, of a comment the whole comment. Else it is refused only as `OutOfMemory`.
pub fn lex(alloc: Global, text: &str) -> Result<TokenStream>
    // What is read is what the text falls into.
    ensures read { IfOk result (λ s. spec.Spells (chars text.now) s) }
    // What it falls into is read, unless memory runs out.
    ensures found { (ts : List Tok) → spec.Spells (chars text.now) ts → Gives (λ s. s) ts result }
    // It is refused only where it falls into no trees, or memory runs out.
    ensures refused { IfErr result (λ e. (e.kind ≡ ErrorKind.OutOfMemory) ⊎ ((ts : List Tok) → spec.Spells (chars text.now) ts → ⊥)) }
    // The refusal is the first one in the text.
    ensures kind { MatchResult result (λ _. spec.refusal (chars text.now) ≡ None) (λ e. (e.kind ≡ ErrorKind.OutOfMemory) ⊎ spec.IsRefusedAs (spec.refusal (chars text.now)) e.kind) }
    // Its place lies within the text.
    ensures place { IfErr result (λ e. (e.kind ≡ ErrorKind.OutOfMemory) ⊎ IsWithin text.now e.span) }
{
    let shared = RcStr::from_str(alloc, text)?;
    let all = chars_of(alloc, text)?;
    lex_chars(alloc, &shared, all.as_slice())
}

/// Whether each byte is ASCII. It goes on behind one that is not, so that several are looked at in one step.
fn is_ascii(bytes: &[u8]) -> bool
    ensures { result ≡ true → IsAscii bytes.now }
{
    let mut highest = 0;
    for i in 0..bytes.len() {
        highest = highest.max(bytes[i]);
    }
    highest < 128
}

/// Writes each byte as a character.
fn widen(chars: &mut [char], bytes: &[u8])
    requires { length chars.old ≡ length bytes.now }
    ensures { chars.new ≡ bytes.now }
{
    for i in 0..bytes.len() {
        chars[i] = char::from(bytes[i]);
    }
}

/// The bytes as characters.
fn widened(alloc: Global, bytes: &[u8]) -> std::result::Result<Vec<char>, AllocError>
    ensures { IfOk result (λ v. v.items ≡ bytes.now) }
{
    let mut chars = Vec::from_elem(alloc, '\0', bytes.len())?;
    widen(chars.as_mut_slice(), bytes);
    Ok(chars)
}

/// The characters of a text.
pub(crate) fn chars_of(alloc: Global, text: &str) -> Result<Vec<char>>
    ensures { MatchResult result (λ v. v.items ≡ chars text.now) (λ e. e.kind ≡ ErrorKind.OutOfMemory) }
{
    let bytes = text.as_bytes();
    if is_ascii(bytes) {
        return Ok(widened(alloc, bytes)?);
    }
    Ok(text.chars().collect::<Vec<char>>(alloc)?)
}

/// The place after some characters that are at a place.
fn past(at: usize, z: &[char]) -> usize
    requires { at + length (encode_utf8_all z.now) < 2 ^ 64 }
    ensures { result ≡ at + length (encode_utf8_all z.now) }
{
    let mut end = at;
    let mut rest = z;
    while let [c, more @ ..] = rest {
        end += c.len_utf8();
        rest = more;
    }
    end
}

/// As `past`, of characters of which it may be known that each takes one byte.
fn past_read(is_narrow: bool, at: usize, z: &[char]) -> usize
    requires small { at + length (encode_utf8_all z.now) < 2 ^ 64 }
    requires narrow { is_narrow ≡ true → length (encode_utf8_all z.now) ≡ length z.now }
    ensures { result ≡ at + length (encode_utf8_all z.now) }
{
    if is_narrow { at + z.len() } else { past(at, z) }
}

fn refusal(lo: usize, hi: usize, error: LexError) -> Error
    ensures kind { result.kind ≡ ErrorKind.Lex error }
    ensures place { result.span ≡ record { lo = lo; hi = hi } }
{
    Error {
        span: Span { lo, hi },
        kind: ErrorKind::Lex(error),
    }
}

/// The refusal of the first characters, which are at a place.
fn refused_front(at: usize, rest: &[char], refused: Refusal) -> Error
    requires within { refused.len ≤ length rest.now }
    requires small { at + length (encode_utf8_all rest.now) < 2 ^ 64 }
    ensures kind { result.kind ≡ ErrorKind.Lex refused.error }
    ensures place { (result.span.lo ≡ at) × (at ≤ result.span.hi) × (result.span.hi ≤ at + length (encode_utf8_all rest.now)) }
{
    let (read, _) = rest.split_at(refused.len);
    refusal(at, past(at, read), refused.error)
}

/// What was read: the groups that are open, each after the trees before it, and the trees after the last opening
/// delimiter.
#[derive(Drop)]
struct Nest {
    open: Vec<Open>,
    current: TokenStream,
}

/// A group that is open at a place, after these trees.
#[derive(Drop)]
struct Open {
    delimiter: Delimiter,
    before: TokenStream,
    at: usize,
}

#[tactic(auto, using(crate::proofs::Nests::nests))]
impl Nest {
    fn new(alloc: Global) -> Nest
        ensures nothing { nest_pieces result ≡ [] }
        ensures open { delimiters_of result ≡ [] }
        ensures places { places_of result ≡ [] }
    {
        Nest {
            open: Vec::new(alloc),
            current: TokenStream::new(alloc),
        }
    }

    fn leaf(&mut self, tree: TokenTree) -> Result<()>
        ensures ok { OnOk result (nest_pieces self.new ≡ nest_pieces self.old ++ spec.pieces_of (tok_of tree)) }
        ensures open { delimiters_of self.new ≡ delimiters_of self.old }
        ensures places { places_of self.new ≡ places_of self.old }
        ensures err { IfErr result (λ e. e.kind ≡ ErrorKind.OutOfMemory) }
    {
        self.current.push(tree)?;
        Ok(())
    }

    /// The `'` of a lifetime, and the identifier after it.
    fn lifetime(&mut self, text: &RcStr<Global>, read: &[char], span: Span) -> Result<()>
        requires some { 0 < length read.now }
        requires stands { StandAt (rc_str_bytes text.now) span.lo span.hi read.now }
        ensures ok { OnOk result (nest_pieces self.new ≡ nest_pieces self.old ++ spec.lexeme_pieces LexemeKind.Lifetime read.now) }
        ensures open { delimiters_of self.new ≡ delimiters_of self.old }
        ensures places { places_of self.new ≡ places_of self.old }
        ensures err { IfErr result (λ e. e.kind ≡ ErrorKind.OutOfMemory) }
    {
        let (mark, _) = read.split_at(1);
        let behind = past(span.lo, mark);
        self.leaf(TokenTree::Punct(Punct {
            ch: '\'',
            spacing: Spacing::Joint,
            span: Span {
                lo: span.lo,
                hi: behind,
            },
        }))?;
        let span = Span {
            lo: behind,
            hi: span.hi,
        };
        let name = SharedText::part(text, span)?;
        self.leaf(TokenTree::Ident(Ident::read(name, span)))
    }

    fn opens(&mut self, delimiter: Delimiter, at: usize) -> Result<()>
        ensures ok { OnOk result (nest_pieces self.new ≡ nest_pieces self.old ++ spec.opens delimiter ∷ []) }
        ensures open { OnOk result (delimiters_of self.new ≡ delimiter ∷ delimiters_of self.old) }
        ensures places { OnOk result (places_of self.new ≡ at ∷ places_of self.old) }
        ensures err { IfErr result (λ e. e.kind ≡ ErrorKind.OutOfMemory) }
    {
        let none = TokenStream::new(self.current.alloc());
        let before = std::mem::replace(&mut self.current, none);
        self.open.push(Open {
            delimiter,
            before,
            at,
        })?;
        Ok(())
    }

    fn closes(&mut self, delimiter: Delimiter, span: Span) -> Result<()>
        ensures ok { OnOk result (nest_pieces self.new ≡ nest_pieces self.old ++ spec.closes delimiter ∷ []) }
        ensures open { OnOk result (spec.open_behind (LexemeKind.Close delimiter) (delimiters_of self.old) ≡ Some (delimiters_of self.new)) }
        ensures places { OnOk result (places_of self.new ≡ drop 1 (places_of self.old)) }
        ensures err { IfErr result (λ e. (e.kind ≡ ErrorKind.OutOfMemory) ⊎ misfits (nest_pieces self.old ++ spec.closes delimiter ∷ [])) }
        ensures kind { IfErr result (λ e. (e.kind ≡ ErrorKind.OutOfMemory) ⊎ ((spec.open_behind (LexemeKind.Close delimiter) (delimiters_of self.old) ≡ None) × (e.kind ≡ ErrorKind.Lex LexError.UnexpectedClosingDelimiter))) }
        ensures place { IfErr result (λ e. (e.kind ≡ ErrorKind.OutOfMemory) ⊎ (e.span ≡ span)) }
    {
        let Some(open) = self.open.pop() else {
            return Err(refusal(span.lo, span.hi, LexError::UnexpectedClosingDelimiter));
        };
        if !is_same(open.delimiter, delimiter) {
            return Err(refusal(span.lo, span.hi, LexError::UnexpectedClosingDelimiter));
        }
        let Open {
            delimiter,
            before,
            at,
        } = open;
        let stream = std::mem::replace(&mut self.current, before);
        self.current.push(TokenTree::Group(Group {
            delimiter,
            stream,
            span: Span {
                lo: at,
                hi: span.hi,
            },
        }))?;
        Ok(())
    }

    /// Takes the next lexeme, with its characters and its place in the text.
    fn take(
        &mut self,
        text: &RcStr<Global>,
        kind: LexemeKind,
        read: &[char],
        span: Span,
    ) -> Result<()>
        requires some { 0 < length read.now }
        requires stands { StandAt (rc_str_bytes text.now) span.lo span.hi read.now }
        ensures ok { OnOk result (nest_pieces self.new ≡ nest_pieces self.old ++ spec.lexeme_pieces kind read.now) }
        ensures open { OnOk result (spec.open_behind kind (delimiters_of self.old) ≡ Some (delimiters_of self.new)) }
        ensures places { OnOk result (places_of self.new ≡ places_behind kind span.lo (places_of self.old)) }
        ensures err { IfErr result (λ e. (e.kind ≡ ErrorKind.OutOfMemory) ⊎ misfits (nest_pieces self.old ++ spec.lexeme_pieces kind read.now)) }
        ensures kind { IfErr result (λ e. (e.kind ≡ ErrorKind.OutOfMemory) ⊎ ((spec.open_behind kind (delimiters_of self.old) ≡ None) × (e.kind ≡ ErrorKind.Lex LexError.UnexpectedClosingDelimiter))) }
        ensures place { IfErr result (λ e. (e.kind ≡ ErrorKind.OutOfMemory) ⊎ (e.span ≡ span)) }
    {
        match kind {
            LexemeKind::Blank => Ok(()),
            LexemeKind::Ident => {
                let word = SharedText::part(text, span)?;
                self.leaf(TokenTree::Ident(Ident::read(word, span)))
            }
            LexemeKind::Literal => {
                let literal = SharedText::part(text, span)?;
                self.leaf(TokenTree::Literal(Literal::read(literal, span)))
            }
            LexemeKind::Lifetime => self.lifetime(text, read, span),
            LexemeKind::Punct(ch, spacing) => {
                self.leaf(TokenTree::Punct(Punct { ch, spacing, span }))
            }
            LexemeKind::Open(delimiter) => self.opens(delimiter, span.lo),
            LexemeKind::Close(delimiter) => self.closes(delimiter, span),
        }
    }

    /// The trees that were read, where no group is open.
    fn finish(self) -> Result<TokenStream>
        ensures value { MatchResult result (λ s. nest_pieces self ≡ spec.flat s) (λ e. (ts : List Tok) → nest_pieces self ≢ spec.flat ts) }
        ensures kind { MatchResult result (λ _. spec.refusal_at_end (delimiters_of self) ≡ None) (λ e. spec.IsRefusedAs (spec.refusal_at_end (delimiters_of self)) e.kind) }
        ensures place { (text : List ℕ) → BeginWithin text (places_of self) → IfErr result (λ e. IsWithin text e.span) }
    {
        let Nest { mut open, current } = self;
        match open.pop() {
            None => Ok(current),
            Some(open) => Err(refusal(
                open.at,
                open.at.saturating_add(1),
                LexError::UnclosedDelimiter,
            )),
        }
    }
}

/// Cuts the characters of a text, whose tokens share it.
fn lex_chars(alloc: Global, text: &RcStr<Global>, all: &[char]) -> Result<TokenStream>
    requires { AreLeft (rc_str_bytes text.now) 0 all.now }
    ensures read { IfOk result (λ s. spec.Spells all.now s) }
    ensures refused { IfErr result (λ e. (e.kind ≡ ErrorKind.OutOfMemory) ⊎ ((ts : List Tok) → spec.Spells all.now ts → ⊥)) }
    ensures kind { MatchResult result (λ _. spec.refusal all.now ≡ None) (λ e. (e.kind ≡ ErrorKind.OutOfMemory) ⊎ spec.IsRefusedAs (spec.refusal all.now) e.kind) }
    ensures place { IfErr result (λ e. (e.kind ≡ ErrorKind.OutOfMemory) ⊎ IsWithin (rc_str_bytes text.now) e.span) }
{
    // Most texts are ASCII, and no character of theirs has to be measured.
    let is_narrow = text.len() == all.len();
    let mut nest = Nest::new(alloc);
    let mut rest = all;
    let mut at = 0;
    while !rest.is_empty() {
        let lexeme = match front(rest) {
            Ok(lexeme) => lexeme,
            Err(e) => return Err(refused_front(at, rest, e)),
        };
        let (read, behind) = rest.split_at(lexeme.len);
        let end = past_read(is_narrow, at, read);
        if let Err(e) = nest.take(text, lexeme.kind, read, Span { lo: at, hi: end }) {
            return Err(e);
        }
        rest = behind;
        at = end;
    }
    nest.finish()
}
