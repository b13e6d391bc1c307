//! A position in a borrowed list of token trees, and the traits of what is read there and printed.

ghost use Rattle.std.specs.Prelude.{is_some, ◌≡◌, ◌≤◌, ◌<◌, ◌+◌, ◌++◌, ◌||◌, [], ◌∷◌, length, drop, List, IfOk, IfErr, IfSome, IsOk, MatchOption, true};
ghost use Rattle.syn_tokens.specs.Front as front;
ghost use Rattle.syn_tokens.specs.Input as spec;
ghost use Rattle.syn_tokens.specs.Input.{Input, IfClear, Reaches, IsTail, IsAfter};
ghost use Rattle.syn_tokens.specs.Tok.{Tok, weight, token_weight};
ghost use Rattle.syn_tokens.specs.declared.tree.Span.{Span};
ghost use Rattle.syn_tokens.specs.View.{tok_of, toks_of};

use crate::error::{Error, ErrorKind, Expected, Result, Wanted};
use crate::token::{Brace, Bracket, Group, Paren};
use crate::tree::{Span, TokenStream, TokenTree};
use crate::{Delimiter, Spacing};
use std::alloc::Global;
use std::marker::Model;

/// What is left of a list of token trees, which it borrows, and a note: where the first token is that a group which was
/// read from it kept, and nothing read. Contracts see both as an `Input`.
#[derive(Drop)]
pub struct ParseBuffer<'a> {
    rest: &'a [TokenTree],
    alloc: Global,
    /// Where a refusal at the end is.
    end: Span,
    /// The first token that nothing read.
    noted: Option<Span>,
}

impl<'a> Model for ParseBuffer<'a> {
    ghost use Rattle.syn_tokens.specs.Input.{Input, input_code};

    ghost Value = { Input };

    ghost coded = { input_code };

    ghost use Rattle.syn_tokens.specs.View.{toks_of};

    ghost view = { λ b. record { rest = toks_of b.rest.now; noted = b.noted } };
}

/// What a list of token trees may begin with.
pub trait Token {
    ghost use Rattle.syn_tokens.specs.Tok.{Tok};
    ghost use Rattle.std.specs.Prelude.{Bool, List};
    ghost use Rattle.syn_tokens.specs.View.{toks_of};

    /// Whether the list begins with it.
    ghost sees: { List Tok → Bool };

    /// Whether the trees that are left begin with it.
    fn peek(rest: &[TokenTree]) -> bool
        ensures { result ≡ sees (toks_of rest.now) };
}

/// What is read from the front of a list of token trees.
pub trait Parse {
    ghost use Rattle.syn_tokens.specs.Tok.{Tok};
    ghost use Rattle.syn_tokens.specs.Input.{Input};
    ghost use Rattle.syn_tokens.specs.declared.error.ErrorKind.{ErrorKind};
    ghost use Rattle.std.specs.Prelude.{◌≡◌, ℕ, Bool, true};

    /// What contracts see of a value: all but its places.
    ghost Seen: { Type 0 };

    ghost seen: { Self → Seen };

    /// `spells list value rest`: the front of the list, up to the rest, spells the value.
    ghost spells: { List Tok → Seen → List Tok → Type 0 };

    /// What a read takes at least, in weight.
    ghost least: { ℕ };

    /// `refuses list kind`: what a read of the list may be refused as.
    ghost refuses: { List Tok → ErrorKind → Type 0 } = { λ _ _. Unit {0} };

    /// Whether a read that answers leaves the note as it was. So it does, but for a type whose reader may note what a group
    /// has left: of what that one reads nothing is promised where something is noted.
    ghost keeps: { Bool } = { true };

    /// `notes before after`: what a read that answers may do to the note. It leaves the note as it was, but for a type that
    /// says otherwise. A reader that closes a group with tokens left in it notes the first of these.
    ghost notes: { Input → Input → Type 0 } = { λ before after. after.noted ≡ before.noted };

    /// `stays before after`: where a refusal leaves the input. That is where it was, but for a type that says otherwise.
    ghost stays: { Input → Input → Type 0 } = { λ before after. after ≡ before };

    /// Reads a value. It is read exactly where the front of the list spells one, unless memory runs out; inside
    /// the recursion of a type's own readers call `T::parse(input)`, not `input.parse::<T>()`.
    /// A list that begins with no value is refused: the reader of each type says as what, and where.
    fn parse(input: &mut ParseBuffer<'_>) -> Result<Self>
        // What was read is spelled.
        ensures read { IfOk result (λ v. IfClear keeps input.new.noted (spells input.old.rest (seen v) input.new.rest)) }
        // What is spelled is read.
        ensures found { IfClear keeps input.old.noted ((s : Seen) (rest : List Tok) → spells input.old.rest s rest → Reaches seen s rest input.old.noted result input.new) }
        ensures after { IsAfter input.old input.new }
        ensures moves { IfOk result (λ v. least + weight input.new.rest ≤ weight input.old.rest) }
        ensures refused { IfErr result (λ e. refuses input.old.rest e.kind) }
        ensures notes { IfOk result (λ _. notes input.old input.new) }
        ensures stays { IfErr result (λ _. stays input.old input.new) };
}

/// What is written as tokens.
pub trait ToTokens {
    ghost use Rattle.syn_tokens.specs.Tok.{Tok};
    ghost use Rattle.std.specs.Prelude.{◌≡◌, ◌++◌, OnOk, OnErr, IfOk, IfErr, List};
    ghost use Rattle.syn_tokens.specs.Input.{IsFront};
    ghost use Rattle.syn_tokens.specs.declared.error.ErrorKind.TheVariants.{OutOfMemory};

    /// The tokens.
    ghost printed: { Self → List Tok };

    /// Puts the tokens at the end. Where memory runs out a part of them may follow what was there.
    fn to_tokens(&self, tokens: &mut TokenStream) -> Result<()>
        ensures ok { OnOk result (tokens.new ≡ tokens.old ++ printed self.now) }
        ensures err { OnErr result (IsFront tokens.old tokens.new) }
        ensures memory { IfErr result (λ e. e.kind ≡ OutOfMemory) };

    /// The tokens as a list of their own. It is refused only where memory runs out.
    final fn to_token_stream(&self, alloc: Global) -> Result<TokenStream>
        ensures value { IfOk result (λ s. s ≡ printed self.now) }
        ensures memory { IfErr result (λ e. e.kind ≡ OutOfMemory) }
    {
        let mut tokens = TokenStream::new(alloc);
        self.to_tokens(&mut tokens)?;
        Ok(tokens)
    }
}

#[tactic(auto, using(crate::proofs::Views::views, crate::proofs::Inputs::tails))]
impl<'a> ParseBuffer<'a> {
    /// The whole of a stream. It copies nothing, takes no memory and always answers.
    pub fn new(stream: &'a TokenStream) -> Result<ParseBuffer<'a>>
        ensures ok { IsOk result }
        ensures value { IfOk result (λ b. b ≡ spec.start_of stream.now) }
    {
        let trees = stream.trees();
        let end = match trees.last() {
            Some(tree) => tree.span().hi,
            None => 0,
        };
        Ok(ParseBuffer {
            rest: trees,
            alloc: stream.alloc(),
            end: Span { lo: end, hi: end },
            noted: None,
        })
    }

    /// The allocator of the stream.
    pub fn alloc(&self) -> Global {
        self.alloc
    }

    /// How many trees are left, a group being one.
    pub fn len(&self) -> usize
        ensures { result ≡ length self.now.rest }
    {
        self.rest.len()
    }

    /// Whether nothing is left.
    pub fn is_empty(&self) -> bool
        ensures value { result ≡ front.is_empty self.now.rest }
        ensures nothing { result ≡ true → self.now.rest ≡ [] }
    {
        self.rest.is_empty()
    }

    /// Where the next token is. At the end of what a group encloses it is the closing delimiter, at the end of a
    /// whole list the end of its last token.
    pub fn span(&self) -> Span {
        match self.rest.first() {
            Some(tree) => tree.span(),
            None => self.end,
        }
    }

    /// Where the next trees are; past the end it is the end.
    pub fn spans<const N: usize>(&self) -> [Span; N] {
        let mut spans = [self.end; N];
        for (span, tree) in spans.iter_mut().zip(self.rest) {
            *span = tree.span();
        }
        spans
    }

    /// A refusal at the next token, where `span` says.
    pub fn error(&self, kind: ErrorKind) -> Error
        ensures { result.kind ≡ kind }
    {
        Error {
            span: self.span(),
            kind,
        }
    }

    /// A position of its own at the same place, with no note. It always answers.
    pub fn fork(&self) -> Result<ParseBuffer<'a>>
        ensures ok { IsOk result }
        ensures value { IfOk result (λ b. b ≡ spec.start_of self.now.rest) }
    {
        Ok(ParseBuffer {
            rest: self.rest,
            alloc: self.alloc,
            end: self.end,
            noted: None,
        })
    }

    /// The trees that are left.
    pub fn trees(&self) -> &'a [TokenTree]
        ensures { toks_of result.now ≡ self.now.rest }
    {
        self.rest
    }

    /// The next tree, which stays.
    pub fn first(&self) -> Option<&'a TokenTree>
        ensures { MatchOption result (self.now.rest ≡ []) (λ t. self.now.rest ≡ tok_of t.now ∷ drop 1 self.now.rest) }
    {
        self.rest.first()
    }

    /// The trees from here up to a later position in the same list.
    pub fn until(&self, later: &ParseBuffer<'_>) -> &'a [TokenTree]
        requires { IsTail later.now.rest self.now.rest }
        ensures { self.now.rest ≡ toks_of result.now ++ later.now.rest }
    {
        front_to(self.rest, later.rest)
    }

    /// The place of the trees from here up to a later position in the same list: from the first byte of the first
    /// to the last byte of the last. Where there are none it is the next token's.
    pub fn span_until(&self, later: &ParseBuffer<'_>) -> Span {
        let count = self.rest.len().saturating_sub(later.rest.len());
        match (&self.rest[..count]).last() {
            Some(tree) => Span {
                lo: self.span().lo,
                hi: tree.span().hi,
            },
            None => self.span(),
        }
    }

    /// The place of the first token that nothing read: the note, or where the next token is.
    pub fn leftover(&self) -> Option<Span>
        ensures any { is_some result ≡ spec.has_left self.now }
        ensures noted { (s : Span) → self.now.noted ≡ Some s → result ≡ Some s }
    {
        if self.noted.is_some() {
            return self.noted;
        }
        match self.rest.first() {
            Some(tree) => Some(tree.span()),
            None => None,
        }
    }

    /// Takes the next tree.
    #[tactic(auto, using(crate::proofs::Views::views, crate::proofs::Weights::one_at_least, crate::proofs::Inputs::tails), unfolding(crate::specs::Tok::weight))]
    pub fn next(&mut self) -> Option<&'a TokenTree>
        ensures value { MatchOption result ((self.old.rest ≡ []) × (self.new.rest ≡ [])) (λ t. self.old.rest ≡ tok_of t.now ∷ self.new.rest) }
        ensures noted { self.new.noted ≡ self.old.noted }
        ensures weighs { IfSome result (λ t. token_weight (tok_of t.now) + weight self.new.rest ≡ weight self.old.rest) }
        ensures shrinks { IfSome result (λ t. weight self.new.rest < weight self.old.rest) }
        ensures after { IsAfter self.old self.new }
    {
        let (first, rest) = self.rest.split_first()?;
        self.rest = rest;
        Some(first)
    }

    /// Passes over `count` trees, or all where there are fewer.
    #[tactic(auto, using(crate::proofs::Views::views, crate::proofs::Inputs::tails, crate::proofs::Weights::drops))]
    pub fn skip(&mut self, count: usize)
        ensures value { self.new ≡ record self.old { rest = drop count self.old.rest } }
        ensures moves { count ≤ length self.old.rest → count + weight self.new.rest ≤ weight self.old.rest }
        ensures shrinks { weight self.new.rest ≤ weight self.old.rest }
        ensures smaller { 0 < count → 0 < length self.old.rest → weight self.new.rest < weight self.old.rest }
        ensures after { IsAfter self.old self.new }
    {
        if count < self.rest.len() {
            let (_, rest) = self.rest.split_at(count);
            self.rest = rest;
        } else {
            self.rest = &[];
        }
    }

    /// Whether a `T` comes first.
    pub fn peek<T: Token>(&self) -> bool
        ensures { result ≡ T.sees self.now.rest }
    {
        T::peek(self.rest)
    }

    /// Whether a `T` comes after the next token tree, a lifetime counted as one.
    pub fn peek2<T: Token>(&self) -> bool
        ensures { result ≡ T.sees (front.past_one self.now.rest) }
    {
        T::peek(past_one(self.rest))
    }

    /// Whether a `T` comes after the next two token trees, a lifetime counted as one.
    pub fn peek3<T: Token>(&self) -> bool
        ensures { result ≡ T.sees (front.past_one (front.past_one self.now.rest)) }
    {
        T::peek(past_one(past_one(self.rest)))
    }

    /// Reads a `T`. It is refused as the reader of `T` refuses it, and the input is then where that leaves it: where it
    /// was, of each type here.
    pub fn parse<T: Parse>(&mut self) -> Result<T>
        ensures read { IfOk result (λ v. IfClear T.keeps self.new.noted (T.spells self.old.rest (T.seen v) self.new.rest)) }
        ensures found { IfClear T.keeps self.old.noted ((s : T.Seen) (rest : List Tok) → T.spells self.old.rest s rest → Reaches T.seen s rest self.old.noted result self.new) }
        ensures after { IsAfter self.old self.new }
        ensures moves { IfOk result (λ v. T.least + weight self.new.rest ≤ weight self.old.rest) }
        ensures refused { IfErr result (λ e. T.refuses self.old.rest e.kind) }
        ensures notes { IfOk result (λ _. T.notes self.old self.new) }
        ensures stays { IfErr result (λ _. T.stays self.old self.new) }
    {
        T::parse(self)
    }

    /// Moves to where a fork is, and keeps its note where there is none here.
    pub fn advance_to(&mut self, fork: &ParseBuffer<'_>)
        requires { IsTail fork.now.rest self.old.rest }
        ensures rest { self.new.rest ≡ fork.now.rest }
        ensures noted { self.new.noted ≡ spec.first_note self.old.noted fork.now.noted }
    {
        self.rest = tail_at(self.rest, fork.rest);
        if self.noted.is_none() {
            self.noted = fork.noted;
        }
    }

    /// Takes a group with this delimiter, if it comes first: its place, and what it encloses.
    #[tactic(auto, using(crate::proofs::Views::views, crate::proofs::Inputs::tails, crate::proofs::Views::insides), unfolding(crate::specs::Front::group_at, crate::specs::Tok::weight))]
    pub fn group(&mut self, delimiter: Delimiter) -> Option<(Span, ParseBuffer<'a>)>
        ensures value { spec.Opens delimiter self.old result self.new }
        ensures weighs { IfSome result (λ p. weight p.1.rest + weight self.new.rest < weight self.old.rest) }
        ensures after { IsAfter self.old self.new }
    {
        match self.rest.split_first() {
            Some((TokenTree::Group(group), rest)) if group.delimiter == delimiter => {
                self.rest = rest;
                let content = ParseBuffer {
                    rest: group.stream.trees(),
                    alloc: self.alloc,
                    end: group.closing(),
                    noted: None,
                };
                Some((group.span, content))
            }
            _ => None,
        }
    }

    /// The refusal where a group with this delimiter is expected.
    fn no_group(&self, delimiter: Delimiter) -> Error
        ensures { result.kind ≡ spec.wanted_group delimiter }
    {
        self.error(ErrorKind::ExpectedToken(Expected::One(Wanted::Delimiter(delimiter))))
    }

    /// Takes a group in parentheses: its place, and what it encloses. Give the content to `close` once it is read.
    /// Where none comes first it is refused there as `ExpectedToken`, this delimiter, and nothing changes. It takes no
    /// memory.
    pub fn parse_parens(&mut self) -> Result<(Paren, ParseBuffer<'a>)>
        ensures value { spec.Enters Delimiter.Parenthesis self.old result self.new }
        ensures moves { IfOk result (λ p. weight p.1.rest + weight self.new.rest < weight self.old.rest) }
        ensures after { IsAfter self.old self.new }
    {
        match self.group(Delimiter::Parenthesis) {
            Some((span, content)) => Ok((Paren { span }, content)),
            None => Err(self.no_group(Delimiter::Parenthesis)),
        }
    }

    /// Takes a group in braces: its place, and what it encloses. Give the content to `close` once it is read.
    /// Where none comes first it is refused there as `ExpectedToken`, this delimiter, and nothing changes. It takes no
    /// memory.
    pub fn parse_braces(&mut self) -> Result<(Brace, ParseBuffer<'a>)>
        ensures value { spec.Enters Delimiter.Brace self.old result self.new }
        ensures moves { IfOk result (λ p. weight p.1.rest + weight self.new.rest < weight self.old.rest) }
        ensures after { IsAfter self.old self.new }
    {
        match self.group(Delimiter::Brace) {
            Some((span, content)) => Ok((Brace { span }, content)),
            None => Err(self.no_group(Delimiter::Brace)),
        }
    }

    /// Takes a group in brackets: its place, and what it encloses. Give the content to `close` once it is read.
    /// Where none comes first it is refused there as `ExpectedToken`, this delimiter, and nothing changes. It takes no
    /// memory.
    pub fn parse_brackets(&mut self) -> Result<(Bracket, ParseBuffer<'a>)>
        ensures value { spec.Enters Delimiter.Bracket self.old result self.new }
        ensures moves { IfOk result (λ p. weight p.1.rest + weight self.new.rest < weight self.old.rest) }
        ensures after { IsAfter self.old self.new }
    {
        match self.group(Delimiter::Bracket) {
            Some((span, content)) => Ok((Bracket { span }, content)),
            None => Err(self.no_group(Delimiter::Bracket)),
        }
    }

    /// Takes an invisible group: its place, and what it encloses. Give the content to `close` once it is read.
    /// Where none comes first it is refused there as `ExpectedToken`, this delimiter, and nothing changes. It takes no
    /// memory.
    pub fn parse_group(&mut self) -> Result<(Group, ParseBuffer<'a>)>
        ensures value { spec.Enters Delimiter.None self.old result self.new }
        ensures moves { IfOk result (λ p. weight p.1.rest + weight self.new.rest < weight self.old.rest) }
        ensures after { IsAfter self.old self.new }
    {
        match self.group(Delimiter::None) {
            Some((span, content)) => Ok((Group { span }, content)),
            None => Err(self.no_group(Delimiter::None)),
        }
    }

    /// Notes what a content has left. The note is then the one here, else the content's own, else the first token
    /// that the content has left.
    pub fn close(&mut self, content: ParseBuffer<'_>)
        ensures rest { self.new.rest ≡ self.old.rest }
        ensures any { is_some self.new.noted ≡ (is_some self.old.noted || spec.has_left content.entry) }
        ensures first { (s : Span) → spec.first_note self.old.noted content.entry.noted ≡ Some s → self.new.noted ≡ Some s }
    {
        if self.noted.is_none() {
            self.noted = content.leftover();
        }
    }
}

/// Past one token tree, a lifetime counted as one.
fn past_one(rest: &[TokenTree]) -> &[TokenTree]
    ensures { toks_of result.now ≡ front.past_one (toks_of rest.now) }
{
    match rest {
        [TokenTree::Punct(quote), TokenTree::Ident(_), rest @ ..]
            if quote.ch == '\'' && quote.spacing == Spacing::Joint => { rest }
        [_, rest @ ..] => rest,
        [] => rest,
    }
}

/// The part of the list where its tail stands.
fn tail_at<'a>(list: &'a [TokenTree], tail: &[TokenTree]) -> &'a [TokenTree]
    requires { IsTail (toks_of tail.now) (toks_of list.now) }
    ensures { toks_of result.now ≡ toks_of tail.now }
{
    let (_, rest) = list.split_at(list.len() - tail.len());
    rest
}

/// The part of the list before where its tail stands.
fn front_to<'a>(list: &'a [TokenTree], tail: &[TokenTree]) -> &'a [TokenTree]
    requires { IsTail (toks_of tail.now) (toks_of list.now) }
    ensures { toks_of list.now ≡ toks_of result.now ++ toks_of tail.now }
{
    let (front, _) = list.split_at(list.len() - tail.len());
    front
}
