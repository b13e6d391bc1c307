//! The tokens of one or more puncts, the words and the delimiters, each with its spelling.

ghost use Rattle.std.specs.Prelude.{◌≡◌, ◌+◌, ◌++◌, [], ◌∷◌, min, replicate, IfErr, OnOk, OnErr, false, map, slice_index_or};
ghost use Rattle.syn_lexer.specs.declared.front.Delimiter.TheVariants as delimiter;
ghost use Rattle.syn_tokens.specs.Front as front;
ghost use Rattle.syn_tokens.specs.Input.{IsFront};
ghost use Rattle.syn_tokens.specs.Places.{IsAt};
ghost use Rattle.syn_tokens.specs.Sign as spec;
ghost use Rattle.syn_tokens.specs.Tok as tok;
ghost use Rattle.syn_tokens.specs.View.{tok_of, toks_of};
ghost use Rattle.syn_tokens.specs.declared.error.ErrorKind.TheVariants as kind;
ghost use Rattle.syn_tokens.specs.declared.error.Expected.TheVariants as expected;
ghost use Rattle.syn_tokens.specs.declared.error.Wanted.TheVariants as wanted;

pub use crate::alias::{
    And, AndAnd, AndEq, As, Async, At, Await, Become, Break, Caret, CaretEq, Colon, Comma, Const,
    Continue, Dollar, Dot, DotDot, DotDotDot, DotDotEq, Dyn, Else, Eq, EqEq, Extern, FatArrow, Fn,
    For, Ge, Gt, If, Impl, In, LArrow, Le, Let, Loop, Lt, Match, Minus, MinusEq, Move, Mut, Ne,
    Not, Or, OrEq, OrOr, PathSep, Percent, PercentEq, Plus, PlusEq, Pound, Question, RArrow, Raw,
    Ref, Return, Semi, Shl, ShlEq, Shr, ShrEq, Slash, SlashEq, Star, StarEq, Static, Tilde, Try,
    Unsafe, Use, While, Yield,
};
use crate::buffer::{Parse, ParseBuffer, ToTokens, Token};
use crate::error::{ErrorKind, Expected, Result, Wanted};
use crate::text::SharedText;
use crate::tree::{Ident, Punct, Span, TokenStream, TokenTree};
use crate::{Delimiter, Spacing, tree};

/// A token of N puncts, the one at place K of `SIGNS` (Rust Reference, "Punctuation"). Where that has another number of
/// puncts, or K is past the list, it is never seen or read and prints nothing. Equality ignores places.
#[derive(Clone, Copy, Debug)]
#[derive_where(PartialEq, Eq, Hash)]
pub struct Sign<const N: usize, const K: usize> {
    /// Where its puncts are.
    #[derive_where(skip(EqHashOrd))]
    pub spans: [Span; N],
}

/// The word at place K of `WORDS` (Rust Reference, "Keywords"). Past the list it is never seen or read and prints
/// nothing. Equality ignores places.
#[derive(Clone, Copy, Debug)]
#[derive_where(PartialEq, Eq, Hash)]
pub struct Word<const K: usize> {
    /// Where it is.
    #[derive_where(skip(EqHashOrd))]
    pub span: Span,
}

/// `_` (Rust Reference, "Punctuation"). Equality ignores places.
#[derive(Clone, Copy, Debug)]
#[derive_where(PartialEq, Eq, Hash)]
pub struct Underscore {
    /// Where it is.
    #[derive_where(skip(EqHashOrd))]
    pub spans: [Span; 1],
}

/// `( .. )` (Rust Reference, "Delimiters"). Equality ignores places.
#[derive(Clone, Copy, Debug, Default)]
#[derive_where(PartialEq, Eq, Hash)]
pub struct Paren {
    /// From the opening to the closing delimiter.
    #[derive_where(skip(EqHashOrd))]
    pub span: Span,
}

/// `{ .. }` (Rust Reference, "Delimiters"). Equality ignores places.
#[derive(Clone, Copy, Debug, Default)]
#[derive_where(PartialEq, Eq, Hash)]
pub struct Brace {
    /// From the opening to the closing delimiter.
    #[derive_where(skip(EqHashOrd))]
    pub span: Span,
}

/// `[ .. ]` (Rust Reference, "Delimiters"). Equality ignores places.
#[derive(Clone, Copy, Debug, Default)]
#[derive_where(PartialEq, Eq, Hash)]
pub struct Bracket {
    /// From the opening to the closing delimiter.
    #[derive_where(skip(EqHashOrd))]
    pub span: Span,
}

/// An invisible group, as macros make them. Equality ignores places.
#[derive(Clone, Copy, Debug, Default)]
#[derive_where(PartialEq, Eq, Hash)]
pub struct Group {
    /// Where it is.
    #[derive_where(skip(EqHashOrd))]
    pub span: Span,
}

impl<const N: usize, const K: usize> Default for Sign<N, K> {
    ghost is_default = { λ s. s.spans ≡ replicate N (record { lo = 0; hi = 0 }) };

    fn default() -> Sign<N, K> {
        Sign {
            spans: [Span::call_site(); N],
        }
    }
}

impl<const K: usize> Default for Word<K> {
    ghost is_default = { λ w. w.span ≡ record { lo = 0; hi = 0 } };

    fn default() -> Word<K> {
        Word {
            span: Span::call_site(),
        }
    }
}

impl Default for Underscore {
    ghost is_default = { λ u. u.spans ≡ record { lo = 0; hi = 0 } ∷ [] };

    fn default() -> Underscore {
        Underscore {
            spans: [Span::call_site()],
        }
    }
}

/// Whether the puncts of a text come first, each but the last joint.
fn begins(mut text: &[u8], mut rest: &[TokenTree]) -> bool
    ensures { result ≡ spec.begins text.entry.now (toks_of rest.entry.now) }
{
    while let [b, more @ ..] = text {
        let [TokenTree::Punct(punct), after @ ..] = rest else {
            return false;
        };
        if punct.ch != char::from(*b) {
            return false;
        }
        if more.is_empty() {
            return true;
        }
        if punct.spacing != Spacing::Joint {
            return false;
        }
        text = more;
        rest = after;
    }
    false
}

/// Whether a text comes first as an identifier.
fn begins_word(text: &str, rest: &[TokenTree]) -> bool
    ensures { result ≡ spec.begins_word text.now (toks_of rest.now) }
{
    match rest {
        [TokenTree::Ident(ident), ..] => !text.is_empty() && ident.is(text),
        _ => false,
    }
}

/// Puts the puncts of a text at the end, the last one alone.
fn push_puncts(mut text: &[u8], mut spans: &[Span], tokens: &mut TokenStream) -> Result<()>
    ensures ok { OnOk result (tokens.new ≡ tokens.old ++ spec.sign_toks text.entry.now) }
    ensures err { OnErr result (IsFront tokens.old tokens.new) }
    ensures memory { IfErr result (λ e. e.kind ≡ ErrorKind.OutOfMemory) }
{
    while let [b, more @ ..] = text {
        let span = match spans {
            [first, others @ ..] => {
                spans = others;
                *first
            }
            [] => Span::call_site(),
        };
        let spacing = if more.is_empty() {
            Spacing::Alone
        } else {
            Spacing::Joint
        };
        let ch = char::from(*b);
        tokens.push(TokenTree::Punct(Punct { ch, spacing, span }))?;
        text = more;
    }
    Ok(())
}

/// Puts the word at place `k` of `WORDS` at the end, nothing past the list.
#[tactic(auto, using(crate::proofs::Signs::word_toks_is))]
fn push_word(k: usize, span: Span, tokens: &mut TokenStream) -> Result<()>
    ensures ok { OnOk result (tokens.new ≡ tokens.old ++ spec.word_toks (spec.word_text k)) }
    ensures err { OnErr result (IsFront tokens.old tokens.new) }
    ensures memory { IfErr result (λ e. e.kind ≡ ErrorKind.OutOfMemory) }
{
    if word_text(k).is_empty() {
        return Ok(());
    }
    tokens.push(TokenTree::Ident(Ident::read(SharedText::word(k), span)))?;
    Ok(())
}

/// A place in one of the lists as a refusal holds it, in a byte: one past the list stays past it.
fn place(k: usize) -> u8
    ensures { result ≡ min k 255 }
{
    if k < 255 { k as u8 } else { u8::MAX }
}

impl<const N: usize, const K: usize> Sign<N, K> {
    /// How a refusal names it.
    pub fn wanted() -> Wanted
        ensures { result ≡ Wanted.Sign (min K 255) }
    {
        Wanted::Sign(place(K))
    }
}

impl<const N: usize, const K: usize> Token for Sign<N, K> {
    ghost sees = { spec.sees N K };

    fn peek(rest: &[TokenTree]) -> bool {
        let text = sign_text(K);
        text.len() == N && begins(text.as_bytes(), rest)
    }
}

#[tactic(auto, using(crate::proofs::Inputs::tails, crate::proofs::Signs::fronts))]
impl<const N: usize, const K: usize> Parse for Sign<N, K> {
    ghost Seen = { Unit {0} };

    ghost seen = { λ s. tt };

    ghost spells = { λ ts s rest. spec.Takes (spec.sees N K) N ts rest };

    ghost least = { 1 };

    ghost refuses = { λ _ k. k ≡ kind.ExpectedToken (expected.One (wanted.Sign (min K 255))) };

    /// Takes the sign: its puncts, each but the last joint to the next. Anything else is refused at that token as
    /// `ExpectedToken`, this sign. It takes no memory.
    fn parse(input: &mut ParseBuffer<'_>) -> Result<Self> {
        if !input.peek::<Self>() {
            return Err(input.error(ErrorKind::ExpectedToken(Expected::One(Self::wanted()))));
        }
        let spans = input.spans();
        input.skip(N);
        Ok(Sign { spans })
    }
}

impl<const N: usize, const K: usize> ToTokens for Sign<N, K> {
    ghost printed = { λ s. spec.printed_sign N K };

    fn to_tokens(&self, tokens: &mut TokenStream) -> Result<()> {
        let text = sign_text(K);
        if text.len() != N {
            return Ok(());
        }
        push_puncts(text.as_bytes(), &self.spans, tokens)
    }
}

impl<const K: usize> Word<K> {
    /// How a refusal names it.
    pub fn wanted() -> Wanted
        ensures { result ≡ Wanted.Word (min K 255) }
    {
        Wanted::Word(place(K))
    }
}

impl<const K: usize> Token for Word<K> {
    ghost sees = { spec.sees_word K };

    fn peek(rest: &[TokenTree]) -> bool {
        begins_word(word_text(K), rest)
    }
}

#[tactic(auto, using(crate::proofs::Inputs::tails, crate::proofs::Signs::fronts))]
impl<const K: usize> Parse for Word<K> {
    ghost Seen = { Unit {0} };

    ghost seen = { λ w. tt };

    ghost spells = { λ ts w rest. spec.Takes (spec.sees_word K) 1 ts rest };

    ghost least = { 1 };

    ghost refuses = { λ _ k. k ≡ kind.ExpectedToken (expected.One (wanted.Word (min K 255))) };

    /// Takes the word. Anything else is refused at that token as `ExpectedToken`, this word. It takes no memory.
    fn parse(input: &mut ParseBuffer<'_>) -> Result<Self> {
        if !input.peek::<Self>() {
            return Err(input.error(ErrorKind::ExpectedToken(Expected::One(Self::wanted()))));
        }
        let span = input.span();
        input.skip(1);
        Ok(Word { span })
    }
}

impl<const K: usize> ToTokens for Word<K> {
    ghost printed = { λ w. spec.printed_word K };

    fn to_tokens(&self, tokens: &mut TokenStream) -> Result<()> {
        push_word(K, self.span, tokens)
    }
}

impl Underscore {
    /// How a refusal names it.
    pub fn wanted() -> Wanted
        ensures { result ≡ Wanted.Underscore }
    {
        Wanted::Underscore
    }
}

impl Token for Underscore {
    ghost sees = { spec.sees_underscore };

    fn peek(rest: &[TokenTree]) -> bool {
        begins_word("_", rest)
    }
}

#[tactic(auto, using(crate::proofs::Inputs::tails, crate::proofs::Signs::fronts))]
impl Parse for Underscore {
    ghost Seen = { Unit {0} };

    ghost seen = { λ u. tt };

    ghost spells = { λ ts u rest. spec.Takes spec.sees_underscore 1 ts rest };

    ghost least = { 1 };

    ghost refuses = { λ _ k. k ≡ kind.ExpectedToken (expected.One wanted.Underscore) };

    /// Takes `_`. Anything else is refused at that token as `ExpectedToken`, `_`. It takes no memory.
    fn parse(input: &mut ParseBuffer<'_>) -> Result<Self> {
        if !input.peek::<Self>() {
            return Err(input.error(ErrorKind::ExpectedToken(Expected::One(Wanted::Underscore))));
        }
        let spans = input.spans();
        input.skip(1);
        Ok(Underscore { spans })
    }
}

impl ToTokens for Underscore {
    ghost printed = { λ u. spec.printed_underscore };

    fn to_tokens(&self, tokens: &mut TokenStream) -> Result<()> {
        let [span] = self.spans;
        let text = SharedText::new(tokens.alloc(), "_")?;
        tokens.push(TokenTree::Ident(Ident::read(text, span)))?;
        Ok(())
    }
}

/// The group of some tokens.
fn enclosed(delimiter: Delimiter, stream: TokenStream, span: Span) -> TokenTree
    ensures group { tok_of result ≡ tok.group delimiter (tok.inside stream) }
    ensures place { IsAt result span }
{
    TokenTree::Group(tree::Group {
        delimiter,
        stream,
        span,
    })
}

/// Whether a group with this delimiter comes first.
#[tactic(auto, unfolding(crate::specs::Front::group_at))]
fn begins_group(delimiter: Delimiter, rest: &[TokenTree]) -> bool
    ensures { result ≡ front.sees_group delimiter (toks_of rest.now) }
{
    match rest {
        [TokenTree::Group(group), ..] => group.delimiter == delimiter,
        _ => false,
    }
}

impl Token for Paren {
    ghost sees = { front.sees_group delimiter.Parenthesis };

    fn peek(rest: &[TokenTree]) -> bool {
        begins_group(Delimiter::Parenthesis, rest)
    }
}

impl Paren {
    /// The group of these tokens, at this place.
    pub fn enclose(self, stream: TokenStream) -> TokenTree
        ensures group { tok_of result ≡ tok.group Delimiter.Parenthesis (tok.inside stream) }
        ensures place { IsAt result self.span }
    {
        enclosed(Delimiter::Parenthesis, stream, self.span)
    }
}

impl Token for Brace {
    ghost sees = { front.sees_group delimiter.Brace };

    fn peek(rest: &[TokenTree]) -> bool {
        begins_group(Delimiter::Brace, rest)
    }
}

impl Brace {
    /// The group of these tokens, at this place.
    pub fn enclose(self, stream: TokenStream) -> TokenTree
        ensures group { tok_of result ≡ tok.group Delimiter.Brace (tok.inside stream) }
        ensures place { IsAt result self.span }
    {
        enclosed(Delimiter::Brace, stream, self.span)
    }
}

impl Token for Bracket {
    ghost sees = { front.sees_group delimiter.Bracket };

    fn peek(rest: &[TokenTree]) -> bool {
        begins_group(Delimiter::Bracket, rest)
    }
}

impl Bracket {
    /// The group of these tokens, at this place.
    pub fn enclose(self, stream: TokenStream) -> TokenTree
        ensures group { tok_of result ≡ tok.group Delimiter.Bracket (tok.inside stream) }
        ensures place { IsAt result self.span }
    {
        enclosed(Delimiter::Bracket, stream, self.span)
    }
}

impl Token for Group {
    ghost sees = { front.sees_group delimiter.None };

    fn peek(rest: &[TokenTree]) -> bool {
        begins_group(Delimiter::None, rest)
    }
}

impl Group {
    /// The group of these tokens, at this place.
    pub fn enclose(self, stream: TokenStream) -> TokenTree
        ensures group { tok_of result ≡ tok.group Delimiter.None (tok.inside stream) }
        ensures place { IsAt result self.span }
    {
        enclosed(Delimiter::None, stream, self.span)
    }
}

/// The signs, each at its place (Rust Reference, "Punctuation", with `~` and `$`).
pub const SIGNS: [&str; 46] = [
    "&", "&&", "&=", "@", "^", "^=", ":", ",", "$", ".", "..", "...", "..=", "=", "==", "=>", ">=",
    ">", "<-", "<=", "<", "-", "-=", "!=", "!", "|", "|=", "||", "::", "%", "%=", "+", "+=", "#",
    "?", "->", ";", "<<", "<<=", ">>", ">>=", "/", "/=", "*", "*=", "~",
];

/// The words, each at its place (Rust Reference, "Keywords").
pub const WORDS: [&str; 29] = [
    "as", "async", "await", "become", "break", "const", "continue", "dyn", "else", "extern", "fn",
    "for", "if", "impl", "in", "let", "loop", "match", "move", "mut", "raw", "ref", "return",
    "static", "try", "unsafe", "use", "while", "yield",
];

/// The text at a place, none past the table.
fn entry(table: &[&'static str], k: usize) -> &'static str
    ensures { result.now ≡ slice_index_or (map (λ s. s.now) table.now) k [] }
{
    if k < table.len() { table[k] } else { "" }
}

/// The sign at place `k` of `SIGNS`; an empty text past the list.
pub fn sign_text(k: usize) -> &'static str
    ensures { result.now ≡ spec.sign_text k }
{
    entry(&SIGNS, k)
}

/// The word at place `k` of `WORDS`; an empty text past the list.
pub fn word_text(k: usize) -> &'static str
    ensures { result.now ≡ spec.word_text k }
{
    entry(&WORDS, k)
}
