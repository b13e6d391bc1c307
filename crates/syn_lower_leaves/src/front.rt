//! What comes first: the tokens that parts are made of, and what the readers of paths and types ask.

ghost use Rattle.std.specs.Prelude.{◌≡◌, ◌<◌, ◌≤◌, true, false, drop, is_some, Some, IfSome, MatchOption, ◌||◌};
ghost use Rattle.syn_lower_leaves.specs.Reads.{Takes};
ghost use Rattle.syn_lower_spec.specs.Form.{flag};
ghost use Rattle.syn_lower_spec.specs.Mark as mark;
ghost use Rattle.syn_lower_spec.specs.Pat as pat;
ghost use Rattle.syn_tokens.specs.Sign as sign_spec;
ghost use Rattle.syn_tokens.specs.Tok.{weight};
ghost use Rattle.syn_lower_spec.specs.Part as part;
ghost use Rattle.syn_tokens.specs.View.{toks_of};

use crate::leaf::is_segment;
use syn_lexer::front::is_reserved_word;
use syn_tokens::buffer::{ParseBuffer, Token};
use syn_tokens::token::{
    And, As, Colon, Comma, Const, DotDot, Dyn, Eq, EqEq, Extern, FatArrow, Fn, For, Gt, Impl, Le,
    Lt, Mut, Ne, Not, Paren, PathSep, Plus, Pound, Question, RArrow, Semi, Sign, Star, Underscore,
    Unsafe, Word,
};
use syn_tokens::tree::TokenTree;
use syn_tokens::{Spacing, token};

/// Takes a token of some puncts, where it comes first; else nothing changes.
#[tactic(auto, using(syn_tokens::proofs::Signs::fronts))]
pub fn sign<const N: usize, const K: usize>(input: &mut ParseBuffer<'_>) -> Option<Sign<N, K>>
    ensures value { MatchOption result ((sign_spec.sees N K input.old.rest ≡ false) × (input.new ≡ input.old)) (λ _. (sign_spec.sees N K input.old.rest ≡ true) × (input.new ≡ record input.old { rest = drop N input.old.rest })) }
    ensures smaller { IfSome result (λ _. weight input.new.rest < weight input.old.rest) }
{
    if !input.peek::<Sign<N, K>>() {
        return None;
    }
    let spans = input.spans();
    input.skip(N);
    Some(Sign { spans })
}

/// Takes a word, where it comes first; else nothing changes.
#[tactic(auto, using(syn_tokens::proofs::Signs::fronts))]
pub fn word<const K: usize>(input: &mut ParseBuffer<'_>) -> Option<Word<K>>
    ensures value { MatchOption result ((sign_spec.sees_word K input.old.rest ≡ false) × (input.new ≡ input.old)) (λ _. (sign_spec.sees_word K input.old.rest ≡ true) × (input.new ≡ record input.old { rest = drop 1 input.old.rest })) }
    ensures smaller { IfSome result (λ _. weight input.new.rest < weight input.old.rest) }
{
    if !input.peek::<Word<K>>() {
        return None;
    }
    let span = input.span();
    input.skip(1);
    Some(Word { span })
}

/// Takes `&`.
#[tactic(auto, unfolding(syn_tokens::specs::Sign::sign_text, syn_lower_spec::specs::Mark::sign_at))]
pub fn and(input: &mut ParseBuffer<'_>) -> Option<And>
    ensures value { Takes mark.and input.old result input.new }
    ensures flag { (flag mark.and).reads input.old.rest ≡ Some (is_some result, input.new.rest) }
    ensures smaller { IfSome result (λ _. weight input.new.rest < weight input.old.rest) }
    ensures shrinks { weight input.new.rest ≤ weight input.old.rest }
{
    sign(input)
}

/// Takes `*`.
#[tactic(auto, unfolding(syn_tokens::specs::Sign::sign_text, syn_lower_spec::specs::Mark::sign_at))]
pub fn star(input: &mut ParseBuffer<'_>) -> Option<Star>
    ensures value { Takes mark.star input.old result input.new }
    ensures flag { (flag mark.star).reads input.old.rest ≡ Some (is_some result, input.new.rest) }
    ensures smaller { IfSome result (λ _. weight input.new.rest < weight input.old.rest) }
    ensures shrinks { weight input.new.rest ≤ weight input.old.rest }
{
    sign(input)
}

/// Takes `!`.
#[tactic(auto, unfolding(syn_tokens::specs::Sign::sign_text, syn_lower_spec::specs::Mark::sign_at))]
pub fn bang(input: &mut ParseBuffer<'_>) -> Option<Not>
    ensures value { Takes mark.bang input.old result input.new }
    ensures flag { (flag mark.bang).reads input.old.rest ≡ Some (is_some result, input.new.rest) }
    ensures smaller { IfSome result (λ _. weight input.new.rest < weight input.old.rest) }
    ensures shrinks { weight input.new.rest ≤ weight input.old.rest }
{
    sign(input)
}

/// Takes `+`.
#[tactic(auto, unfolding(syn_tokens::specs::Sign::sign_text, syn_lower_spec::specs::Mark::sign_at))]
pub fn plus(input: &mut ParseBuffer<'_>) -> Option<Plus>
    ensures value { Takes mark.plus input.old result input.new }
    ensures flag { (flag mark.plus).reads input.old.rest ≡ Some (is_some result, input.new.rest) }
    ensures smaller { IfSome result (λ _. weight input.new.rest < weight input.old.rest) }
    ensures shrinks { weight input.new.rest ≤ weight input.old.rest }
{
    sign(input)
}

/// Takes `,`.
#[tactic(auto, unfolding(syn_tokens::specs::Sign::sign_text, syn_lower_spec::specs::Mark::sign_at))]
pub fn comma(input: &mut ParseBuffer<'_>) -> Option<Comma>
    ensures value { Takes mark.comma input.old result input.new }
    ensures flag { (flag mark.comma).reads input.old.rest ≡ Some (is_some result, input.new.rest) }
    ensures smaller { IfSome result (λ _. weight input.new.rest < weight input.old.rest) }
    ensures shrinks { weight input.new.rest ≤ weight input.old.rest }
{
    sign(input)
}

/// Takes `;`.
#[tactic(auto, unfolding(syn_tokens::specs::Sign::sign_text, syn_lower_spec::specs::Mark::sign_at))]
pub fn semi(input: &mut ParseBuffer<'_>) -> Option<Semi>
    ensures value { Takes mark.semi input.old result input.new }
    ensures flag { (flag mark.semi).reads input.old.rest ≡ Some (is_some result, input.new.rest) }
    ensures smaller { IfSome result (λ _. weight input.new.rest < weight input.old.rest) }
    ensures shrinks { weight input.new.rest ≤ weight input.old.rest }
{
    sign(input)
}

/// Takes `#`.
#[tactic(auto, unfolding(syn_tokens::specs::Sign::sign_text, syn_lower_spec::specs::Mark::sign_at))]
pub fn pound(input: &mut ParseBuffer<'_>) -> Option<Pound>
    ensures value { Takes mark.pound input.old result input.new }
    ensures flag { (flag mark.pound).reads input.old.rest ≡ Some (is_some result, input.new.rest) }
    ensures smaller { IfSome result (λ _. weight input.new.rest < weight input.old.rest) }
    ensures shrinks { weight input.new.rest ≤ weight input.old.rest }
{
    sign(input)
}

/// Takes `?`.
#[tactic(auto, unfolding(syn_tokens::specs::Sign::sign_text, syn_lower_spec::specs::Mark::sign_at))]
pub fn question(input: &mut ParseBuffer<'_>) -> Option<Question>
    ensures value { Takes mark.question input.old result input.new }
    ensures flag { (flag mark.question).reads input.old.rest ≡ Some (is_some result, input.new.rest) }
    ensures smaller { IfSome result (λ _. weight input.new.rest < weight input.old.rest) }
    ensures shrinks { weight input.new.rest ≤ weight input.old.rest }
{
    sign(input)
}

/// Takes `:`, whatever is joined to it.
#[tactic(auto, unfolding(syn_tokens::specs::Sign::sign_text, syn_lower_spec::specs::Mark::sign_at))]
pub fn colon(input: &mut ParseBuffer<'_>) -> Option<Colon>
    ensures value { Takes mark.colon input.old result input.new }
    ensures flag { (flag mark.colon).reads input.old.rest ≡ Some (is_some result, input.new.rest) }
    ensures smaller { IfSome result (λ _. weight input.new.rest < weight input.old.rest) }
    ensures shrinks { weight input.new.rest ≤ weight input.old.rest }
{
    sign(input)
}

/// Takes `::`.
#[tactic(auto, unfolding(syn_tokens::specs::Sign::sign_text, syn_lower_spec::specs::Mark::sign_at))]
pub fn colon2(input: &mut ParseBuffer<'_>) -> Option<PathSep>
    ensures value { Takes mark.colon2 input.old result input.new }
    ensures flag { (flag mark.colon2).reads input.old.rest ≡ Some (is_some result, input.new.rest) }
    ensures smaller { IfSome result (λ _. weight input.new.rest < weight input.old.rest) }
    ensures shrinks { weight input.new.rest ≤ weight input.old.rest }
{
    sign(input)
}

/// Takes `..`.
#[tactic(auto, unfolding(syn_tokens::specs::Sign::sign_text, syn_lower_spec::specs::Mark::sign_at))]
pub fn dots(input: &mut ParseBuffer<'_>) -> Option<DotDot>
    ensures value { Takes pat.dots input.old result input.new }
    ensures flag { (flag pat.dots).reads input.old.rest ≡ Some (is_some result, input.new.rest) }
    ensures smaller { IfSome result (λ _. weight input.new.rest < weight input.old.rest) }
    ensures shrinks { weight input.new.rest ≤ weight input.old.rest }
{
    sign(input)
}

/// Takes `->`.
#[tactic(auto, unfolding(syn_tokens::specs::Sign::sign_text, syn_lower_spec::specs::Mark::sign_at))]
pub fn arrow(input: &mut ParseBuffer<'_>) -> Option<RArrow>
    ensures value { Takes mark.arrow input.old result input.new }
    ensures flag { (flag mark.arrow).reads input.old.rest ≡ Some (is_some result, input.new.rest) }
    ensures smaller { IfSome result (λ _. weight input.new.rest < weight input.old.rest) }
    ensures shrinks { weight input.new.rest ≤ weight input.old.rest }
{
    sign(input)
}

/// Takes `>`.
#[tactic(auto, unfolding(syn_tokens::specs::Sign::sign_text, syn_lower_spec::specs::Mark::sign_at))]
pub fn gt(input: &mut ParseBuffer<'_>) -> Option<Gt>
    ensures value { Takes mark.gt input.old result input.new }
    ensures flag { (flag mark.gt).reads input.old.rest ≡ Some (is_some result, input.new.rest) }
    ensures smaller { IfSome result (λ _. weight input.new.rest < weight input.old.rest) }
    ensures shrinks { weight input.new.rest ≤ weight input.old.rest }
{
    sign(input)
}

/// Takes `<`.
#[tactic(auto, unfolding(syn_tokens::specs::Sign::sign_text, syn_lower_spec::specs::Mark::sign_at))]
pub fn less(input: &mut ParseBuffer<'_>) -> Option<Lt>
    ensures value { Takes mark.less input.old result input.new }
    ensures flag { (flag mark.less).reads input.old.rest ≡ Some (is_some result, input.new.rest) }
    ensures smaller { IfSome result (λ _. weight input.new.rest < weight input.old.rest) }
    ensures shrinks { weight input.new.rest ≤ weight input.old.rest }
{
    sign(input)
}

/// Takes `<` that doesn't begin `<=`.
#[tactic(auto, unfolding(syn_tokens::specs::Sign::sign_text, syn_lower_spec::specs::Mark::sign_at))]
pub fn lt(input: &mut ParseBuffer<'_>) -> Option<Lt>
    ensures value { Takes mark.lt input.old result input.new }
    ensures flag { (flag mark.lt).reads input.old.rest ≡ Some (is_some result, input.new.rest) }
    ensures smaller { IfSome result (λ _. weight input.new.rest < weight input.old.rest) }
    ensures shrinks { weight input.new.rest ≤ weight input.old.rest }
{
    if input.peek::<Le>() {
        return None;
    }
    sign(input)
}

/// Takes `=` that begins neither `==` nor `=>`.
#[tactic(auto, unfolding(syn_tokens::specs::Sign::sign_text, syn_lower_spec::specs::Mark::sign_at))]
pub fn eq(input: &mut ParseBuffer<'_>) -> Option<Eq>
    ensures value { Takes mark.eq input.old result input.new }
    ensures flag { (flag mark.eq).reads input.old.rest ≡ Some (is_some result, input.new.rest) }
    ensures smaller { IfSome result (λ _. weight input.new.rest < weight input.old.rest) }
    ensures shrinks { weight input.new.rest ≤ weight input.old.rest }
{
    if input.peek::<EqEq>() || input.peek::<FatArrow>() {
        return None;
    }
    sign(input)
}

/// Takes `!` that doesn't begin `!=`.
#[tactic(auto, unfolding(syn_tokens::specs::Sign::sign_text, syn_lower_spec::specs::Mark::sign_at))]
pub fn not_ne(input: &mut ParseBuffer<'_>) -> Option<Not>
    ensures value { Takes mark.not_ne input.old result input.new }
    ensures flag { (flag mark.not_ne).reads input.old.rest ≡ Some (is_some result, input.new.rest) }
    ensures smaller { IfSome result (λ _. weight input.new.rest < weight input.old.rest) }
    ensures shrinks { weight input.new.rest ≤ weight input.old.rest }
{
    if input.peek::<Ne>() {
        return None;
    }
    sign(input)
}

/// Takes `:` that doesn't begin `::`.
#[tactic(auto, unfolding(syn_tokens::specs::Sign::sign_text, syn_lower_spec::specs::Mark::sign_at))]
pub fn lone_colon(input: &mut ParseBuffer<'_>) -> Option<Colon>
    ensures value { Takes mark.lone_colon input.old result input.new }
    ensures flag { (flag mark.lone_colon).reads input.old.rest ≡ Some (is_some result, input.new.rest) }
    ensures smaller { IfSome result (λ _. weight input.new.rest < weight input.old.rest) }
    ensures shrinks { weight input.new.rest ≤ weight input.old.rest }
{
    if input.peek::<PathSep>() {
        return None;
    }
    sign(input)
}

/// Takes `mut`.
#[tactic(auto, unfolding(syn_tokens::specs::Sign::word_text, syn_lower_spec::specs::Mark::word_at))]
pub fn mutable(input: &mut ParseBuffer<'_>) -> Option<Mut>
    ensures value { Takes mark.mutable input.old result input.new }
    ensures flag { (flag mark.mutable).reads input.old.rest ≡ Some (is_some result, input.new.rest) }
    ensures smaller { IfSome result (λ _. weight input.new.rest < weight input.old.rest) }
    ensures shrinks { weight input.new.rest ≤ weight input.old.rest }
{
    word(input)
}

/// Takes `const`.
#[tactic(auto, unfolding(syn_tokens::specs::Sign::word_text, syn_lower_spec::specs::Mark::word_at))]
pub fn constant(input: &mut ParseBuffer<'_>) -> Option<Const>
    ensures value { Takes mark.constant input.old result input.new }
    ensures flag { (flag mark.constant).reads input.old.rest ≡ Some (is_some result, input.new.rest) }
    ensures smaller { IfSome result (λ _. weight input.new.rest < weight input.old.rest) }
    ensures shrinks { weight input.new.rest ≤ weight input.old.rest }
{
    word(input)
}

/// Takes `as`.
#[tactic(auto, unfolding(syn_tokens::specs::Sign::word_text, syn_lower_spec::specs::Mark::word_at))]
pub fn as_word(input: &mut ParseBuffer<'_>) -> Option<As>
    ensures value { Takes mark.as_word input.old result input.new }
    ensures flag { (flag mark.as_word).reads input.old.rest ≡ Some (is_some result, input.new.rest) }
    ensures smaller { IfSome result (λ _. weight input.new.rest < weight input.old.rest) }
    ensures shrinks { weight input.new.rest ≤ weight input.old.rest }
{
    word(input)
}

/// Takes `dyn`.
#[tactic(auto, unfolding(syn_tokens::specs::Sign::word_text, syn_lower_spec::specs::Mark::word_at))]
pub fn dynamic(input: &mut ParseBuffer<'_>) -> Option<Dyn>
    ensures value { Takes mark.dynamic input.old result input.new }
    ensures flag { (flag mark.dynamic).reads input.old.rest ≡ Some (is_some result, input.new.rest) }
    ensures smaller { IfSome result (λ _. weight input.new.rest < weight input.old.rest) }
    ensures shrinks { weight input.new.rest ≤ weight input.old.rest }
{
    word(input)
}

/// Takes `impl`.
#[tactic(auto, unfolding(syn_tokens::specs::Sign::word_text, syn_lower_spec::specs::Mark::word_at))]
pub fn implementing(input: &mut ParseBuffer<'_>) -> Option<Impl>
    ensures value { Takes mark.implementing input.old result input.new }
    ensures flag { (flag mark.implementing).reads input.old.rest ≡ Some (is_some result, input.new.rest) }
    ensures smaller { IfSome result (λ _. weight input.new.rest < weight input.old.rest) }
    ensures shrinks { weight input.new.rest ≤ weight input.old.rest }
{
    word(input)
}

/// Takes `for`.
#[tactic(auto, unfolding(syn_tokens::specs::Sign::word_text, syn_lower_spec::specs::Mark::word_at))]
pub fn for_word(input: &mut ParseBuffer<'_>) -> Option<For>
    ensures value { Takes mark.for_word input.old result input.new }
    ensures flag { (flag mark.for_word).reads input.old.rest ≡ Some (is_some result, input.new.rest) }
    ensures smaller { IfSome result (λ _. weight input.new.rest < weight input.old.rest) }
    ensures shrinks { weight input.new.rest ≤ weight input.old.rest }
{
    word(input)
}

/// Takes `unsafe`.
#[tactic(auto, unfolding(syn_tokens::specs::Sign::word_text, syn_lower_spec::specs::Mark::word_at))]
pub fn unsafe_word(input: &mut ParseBuffer<'_>) -> Option<Unsafe>
    ensures value { Takes mark.unsafe_word input.old result input.new }
    ensures flag { (flag mark.unsafe_word).reads input.old.rest ≡ Some (is_some result, input.new.rest) }
    ensures smaller { IfSome result (λ _. weight input.new.rest < weight input.old.rest) }
    ensures shrinks { weight input.new.rest ≤ weight input.old.rest }
{
    word(input)
}

/// Takes `extern`.
#[tactic(auto, unfolding(syn_tokens::specs::Sign::word_text, syn_lower_spec::specs::Mark::word_at))]
pub fn extern_word(input: &mut ParseBuffer<'_>) -> Option<Extern>
    ensures value { Takes mark.extern_word input.old result input.new }
    ensures flag { (flag mark.extern_word).reads input.old.rest ≡ Some (is_some result, input.new.rest) }
    ensures smaller { IfSome result (λ _. weight input.new.rest < weight input.old.rest) }
    ensures shrinks { weight input.new.rest ≤ weight input.old.rest }
{
    word(input)
}

/// Takes `fn`.
#[tactic(auto, unfolding(syn_tokens::specs::Sign::word_text, syn_lower_spec::specs::Mark::word_at))]
pub fn fn_word(input: &mut ParseBuffer<'_>) -> Option<Fn>
    ensures value { Takes mark.fn_word input.old result input.new }
    ensures flag { (flag mark.fn_word).reads input.old.rest ≡ Some (is_some result, input.new.rest) }
    ensures smaller { IfSome result (λ _. weight input.new.rest < weight input.old.rest) }
    ensures shrinks { weight input.new.rest ≤ weight input.old.rest }
{
    word(input)
}

/// Takes `_`.
#[tactic(auto, using(syn_tokens::proofs::Signs::fronts), unfolding(syn_lower_spec::specs::Mark::word_at))]
pub fn underscore(input: &mut ParseBuffer<'_>) -> Option<Underscore>
    ensures value { Takes mark.underscore input.old result input.new }
    ensures flag { (flag mark.underscore).reads input.old.rest ≡ Some (is_some result, input.new.rest) }
    ensures smaller { IfSome result (λ _. weight input.new.rest < weight input.old.rest) }
    ensures shrinks { weight input.new.rest ≤ weight input.old.rest }
{
    if !input.peek::<Underscore>() {
        return None;
    }
    let spans = input.spans();
    input.skip(1);
    Some(Underscore { spans })
}

/// Whether `<` comes first that doesn't begin `<=`.
#[tactic(auto, unfolding(syn_tokens::specs::Sign::sign_text, syn_lower_spec::specs::Mark::sign_at))]
fn lt_at(rest: &[TokenTree]) -> bool
    ensures { result ≡ mark.lt.at (toks_of rest.now) }
{
    Lt::peek(rest) && !Le::peek(rest)
}

/// Whether `::` and `<` come first.
#[tactic(auto, unfolding(syn_lower_spec::specs::Part::turbofish_at, syn_tokens::specs::Sign::sign_text, syn_lower_spec::specs::Mark::sign_at))]
pub fn turbofish_at(input: &ParseBuffer<'_>) -> bool
    ensures { result ≡ part.turbofish_at input.now.rest }
{
    match input.trees() {
        [_, more @ ..] => match more {
            [_, behind @ ..] => input.peek::<PathSep>() && lt_at(behind),
            [] => false,
        },
        [] => false,
    }
}

/// Whether `<` comes first, `::` before it or not.
#[tactic(auto, unfolding(syn_lower_spec::specs::Part::angle_at, syn_lower_spec::specs::Part::turbofish_at))]
pub fn angle_at(input: &ParseBuffer<'_>) -> bool
    ensures { result ≡ part.angle_at input.now.rest }
{
    lt_at(input.trees()) || turbofish_at(input)
}

/// Whether `>` comes first.
#[tactic(auto, unfolding(syn_tokens::specs::Sign::sign_text, syn_lower_spec::specs::Mark::sign_at))]
pub fn gt_at(input: &ParseBuffer<'_>) -> bool
    ensures { result ≡ mark.gt.at input.now.rest }
{
    input.peek::<Gt>()
}

/// Whether parentheses come first.
#[tactic(auto, unfolding(syn_lower_spec::specs::Mark::round_at))]
pub fn round_at(input: &ParseBuffer<'_>) -> bool
    ensures { result ≡ mark.round_at input.now.rest }
{
    input.peek::<Paren>()
}

/// Whether `=` comes first that begins neither `==` nor `=>`.
#[tactic(auto, unfolding(syn_tokens::specs::Sign::sign_text, syn_lower_spec::specs::Mark::sign_at))]
fn eq_at(rest: &[TokenTree]) -> bool
    ensures { result ≡ mark.eq.at (toks_of rest.now) }
{
    Eq::peek(rest) && !EqEq::peek(rest) && !FatArrow::peek(rest)
}

/// Whether a name and a single `=` come first.
#[tactic(auto, unfolding(syn_lower_spec::specs::Part::assoc_at))]
pub fn assoc_at(input: &ParseBuffer<'_>) -> bool
    ensures { result ≡ part.assoc_at input.now.rest }
{
    match input.trees() {
        [TokenTree::Ident(word), more @ ..] => !is_reserved_word(word.as_str()) && eq_at(more),
        _ => false,
    }
}

/// Whether a lifetime or `>` comes first.
#[tactic(auto, unfolding(syn_tokens::specs::Sign::sign_text, syn_lower_spec::specs::Mark::sign_at, syn_lower_spec::specs::Mark::lifetime_at))]
fn lifetimes_behind(rest: &[TokenTree]) -> bool
    ensures { result ≡ (mark.gt.at (toks_of rest.now) || mark.lifetime_at (toks_of rest.now)) }
{
    match rest {
        [TokenTree::Punct(quote), more @ ..]
            if quote.ch == '\'' && quote.spacing == Spacing::Joint => {
            matches!(more, [TokenTree::Ident(_), ..])
        }
        _ => Gt::peek(rest),
    }
}

/// Whether `<` comes first.
#[tactic(auto, unfolding(syn_tokens::specs::Sign::sign_text, syn_lower_spec::specs::Mark::sign_at))]
fn less_at(rest: &[TokenTree]) -> bool
    ensures { result ≡ mark.less.at (toks_of rest.now) }
{
    Lt::peek(rest)
}

/// Whether lifetimes of a bound come first: `for` and `<`, and then `>` or a lifetime.
#[tactic(auto, unfolding(syn_lower_spec::specs::Part::lifetimes_at, syn_tokens::specs::Sign::word_text, syn_lower_spec::specs::Mark::word_at, syn_lower_spec::specs::Mark::sign_at))]
pub fn lifetimes_at(input: &ParseBuffer<'_>) -> bool
    ensures { result ≡ part.lifetimes_at input.now.rest }
{
    match input.trees() {
        [_, more @ ..] if input.peek::<For>() => match more {
            [_, behind @ ..] => less_at(more) && lifetimes_behind(behind),
            [] => false,
        },
        _ => false,
    }
}

/// Whether `:` comes first that doesn't begin `::`.
#[tactic(auto, unfolding(syn_tokens::specs::Sign::sign_text, syn_lower_spec::specs::Mark::sign_at))]
fn colon_at(rest: &[TokenTree]) -> bool
    ensures { result ≡ mark.lone_colon.at (toks_of rest.now) }
{
    Colon::peek(rest) && !PathSep::peek(rest)
}

/// Whether the name of an argument and a single `:` come first.
#[tactic(auto, unfolding(syn_lower_spec::specs::Part::arg_name_at))]
pub fn arg_name_at(input: &ParseBuffer<'_>) -> bool
    ensures { result ≡ part.arg_name_at input.now.rest }
{
    match input.trees() {
        [TokenTree::Ident(word), more @ ..] => {
            (!is_reserved_word(word.as_str()) || word.as_str() == "_") && colon_at(more)
        }
        _ => false,
    }
}

/// Whether a function pointer comes first.
#[tactic(auto, unfolding(syn_lower_spec::specs::Part::fn_at, syn_tokens::specs::Sign::word_text, syn_lower_spec::specs::Mark::word_at))]
pub fn fn_at(input: &ParseBuffer<'_>) -> bool
    ensures { result ≡ part.fn_at input.now.rest }
{
    lifetimes_at(input)
        || input.peek::<Unsafe>()
        || input.peek::<Extern>()
        || input.peek::<token::Fn>()
}

/// Whether the word of a path's segment comes first.
fn segment_at(input: &ParseBuffer<'_>) -> bool
    ensures { result ≡ pat.begins_segment input.now.rest }
{
    match input.first() {
        Some(TokenTree::Ident(word)) => is_segment(word.as_str()),
        _ => false,
    }
}

/// Whether a path begins, qualified by a type or not: the word of a segment comes first, `::` or `<`.
#[tactic(auto, unfolding(syn_tokens::specs::Sign::sign_text, syn_lower_spec::specs::Mark::sign_at))]
pub fn path_at(input: &ParseBuffer<'_>) -> bool
    ensures { result ≡ (pat.begins_segment input.now.rest || (mark.colon2.at input.now.rest || mark.less.at input.now.rest)) }
{
    segment_at(input) || input.peek::<PathSep>() || input.peek::<Lt>()
}
