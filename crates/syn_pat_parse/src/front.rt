//! What comes first, as the readers of patterns ask, and the tokens that only patterns have.

ghost use Rattle.std.specs.Prelude.{◌≡◌, ◌<◌, ◌≤◌, ◌&&◌, not, true, false, drop, is_some, IfSome, Some};
ghost use Rattle.syn_lower_leaves.specs.Reads.{Takes};
ghost use Rattle.syn_lower_spec.specs.Form.{flag};
ghost use Rattle.syn_lower_spec.specs.Mark as mark;
ghost use Rattle.syn_lower_spec.specs.Part as part;
ghost use Rattle.syn_lower_spec.specs.Pat as pat;
ghost use Rattle.syn_tokens.specs.Tok.{weight};
ghost use Rattle.syn_tokens.specs.View.{toks_of};

use syn_lexer::front::is_reserved_word;
use syn_lower_leaves::front::{path_at, sign};
use syn_lower_leaves::leaf::{is_number, is_truth};
use syn_tokens::buffer::{ParseBuffer, Token};
use syn_tokens::token::{
    At, Brace, Colon, DotDot, DotDotDot, DotDotEq, Mut, Ne, Not, Or, OrEq, OrOr, Paren, PathSep,
    Ref, Sign, Word,
};
use syn_tokens::tree::TokenTree;

/// Takes `..=`.
#[tactic(auto, unfolding(syn_tokens::specs::Sign::sign_text, syn_lower_spec::specs::Mark::sign_at))]
pub fn dots_eq(input: &mut ParseBuffer<'_>) -> Option<DotDotEq>
    ensures value { Takes pat.dots_eq input.old result input.new }
    ensures smaller { IfSome result (λ _. weight input.new.rest < weight input.old.rest) }
    ensures shrinks { weight input.new.rest ≤ weight input.old.rest }
{
    sign(input)
}

/// Takes `...`.
#[tactic(auto, unfolding(syn_tokens::specs::Sign::sign_text, syn_lower_spec::specs::Mark::sign_at))]
pub fn three_dots(input: &mut ParseBuffer<'_>) -> Option<DotDotDot>
    ensures value { Takes pat.three_dots input.old result input.new }
    ensures smaller { IfSome result (λ _. weight input.new.rest < weight input.old.rest) }
    ensures shrinks { weight input.new.rest ≤ weight input.old.rest }
{
    sign(input)
}

/// Takes `@`.
#[tactic(auto, unfolding(syn_tokens::specs::Sign::sign_text, syn_lower_spec::specs::Mark::sign_at))]
pub fn at_sign(input: &mut ParseBuffer<'_>) -> Option<At>
    ensures value { Takes pat.at_sign input.old result input.new }
    ensures smaller { IfSome result (λ _. weight input.new.rest < weight input.old.rest) }
    ensures shrinks { weight input.new.rest ≤ weight input.old.rest }
{
    sign(input)
}

/// Takes `|` that begins neither `||` nor `|=`.
#[tactic(auto, unfolding(syn_tokens::specs::Sign::sign_text, syn_lower_spec::specs::Mark::sign_at))]
pub fn vert(input: &mut ParseBuffer<'_>) -> Option<Or>
    ensures value { Takes pat.vert input.old result input.new }
    ensures flag { (flag pat.vert).reads input.old.rest ≡ Some (is_some result, input.new.rest) }
    ensures smaller { IfSome result (λ _. weight input.new.rest < weight input.old.rest) }
    ensures shrinks { weight input.new.rest ≤ weight input.old.rest }
{
    if input.peek::<OrOr>() || input.peek::<OrEq>() {
        return None;
    }
    sign(input)
}

/// Takes `ref`.
#[tactic(auto, using(syn_tokens::proofs::Signs::fronts), unfolding(syn_tokens::specs::Sign::word_text, syn_lower_spec::specs::Mark::word_at))]
pub fn by_ref(input: &mut ParseBuffer<'_>) -> Option<Ref>
    ensures value { Takes pat.by_ref input.old result input.new }
    ensures flag { (flag pat.by_ref).reads input.old.rest ≡ Some (is_some result, input.new.rest) }
    ensures smaller { IfSome result (λ _. weight input.new.rest < weight input.old.rest) }
    ensures shrinks { weight input.new.rest ≤ weight input.old.rest }
{
    if !input.peek::<Ref>() {
        return None;
    }
    let span = input.span();
    input.skip(1);
    Some(Word { span })
}

/// Whether `..` comes first.
#[tactic(auto, unfolding(syn_tokens::specs::Sign::sign_text, syn_lower_spec::specs::Mark::sign_at))]
pub fn dots_at(input: &ParseBuffer<'_>) -> bool
    ensures { result ≡ pat.dots.at input.now.rest }
{
    input.peek::<DotDot>()
}

/// Whether `:` comes first, whatever is joined to it.
#[tactic(auto, unfolding(syn_tokens::specs::Sign::sign_text, syn_lower_spec::specs::Mark::sign_at))]
pub fn colon_at(input: &ParseBuffer<'_>) -> bool
    ensures { result ≡ mark.colon.at input.now.rest }
{
    input.peek::<Colon>()
}

/// Whether a literal or a `-` comes first.
pub fn lit_first(input: &ParseBuffer<'_>) -> bool
    ensures { result ≡ pat.lit_first input.now.rest }
{
    match input.first() {
        Some(TokenTree::Literal(_)) => true,
        Some(TokenTree::Ident(word)) => is_truth(word.as_str()),
        Some(TokenTree::Punct(punct)) => punct.ch == '-',
        Some(TokenTree::Group(_)) => false,
        None => false,
    }
}

/// Whether a number comes first.
fn begins_number(rest: &[TokenTree]) -> bool
    ensures { result ≡ pat.begins_number (toks_of rest.now) }
{
    match rest {
        [TokenTree::Literal(literal), ..] => is_number(literal.as_str()),
        _ => false,
    }
}

/// Whether a literal comes first, a number perhaps after a `-`.
fn begins_lit(input: &ParseBuffer<'_>) -> bool
    ensures { result ≡ pat.begins_lit input.now.rest }
{
    match input.trees() {
        [TokenTree::Literal(_), ..] => true,
        [TokenTree::Ident(word), ..] => is_truth(word.as_str()),
        [TokenTree::Punct(punct), more @ ..] => punct.ch == '-' && begins_number(more),
        _ => false,
    }
}

/// Whether the bound of a range begins: a literal, or a path.
#[tactic(auto, unfolding(syn_lower_spec::specs::Pat::bound_at))]
pub fn bound_at(input: &ParseBuffer<'_>) -> bool
    ensures { result ≡ pat.bound_at input.now.rest }
{
    begins_lit(input) || path_at(input)
}

/// Whether a path, a macro, a struct or a range goes on after a name.
#[tactic(auto, unfolding(syn_tokens::specs::Sign::sign_text, syn_lower_spec::specs::Mark::sign_at, syn_lower_spec::specs::Mark::brace_at, syn_lower_spec::specs::Mark::round_at))]
fn goes_on(rest: &[TokenTree]) -> bool
    ensures { result ≡ pat.goes_on (toks_of rest.now) }
{
    PathSep::peek(rest)
        || Not::peek(rest) && !Ne::peek(rest)
        || Brace::peek(rest)
        || Paren::peek(rest)
        || DotDot::peek(rest)
}

/// Whether a name comes first that nothing goes on after.
fn lone_name_at(input: &ParseBuffer<'_>) -> bool
    ensures { result ≡ (part.is_name_there input.now.rest && not (pat.goes_on (drop 1 input.now.rest))) }
{
    match input.trees() {
        [TokenTree::Ident(word), more @ ..] => !is_reserved_word(word.as_str()) && !goes_on(more),
        _ => false,
    }
}

/// Whether a binding comes first: `ref`, `mut`, or a name that nothing goes on after.
#[tactic(auto, unfolding(syn_tokens::specs::Sign::word_text, syn_lower_spec::specs::Mark::word_at, syn_lower_spec::specs::Pat::binding_at))]
pub fn binding_at(input: &ParseBuffer<'_>) -> bool
    ensures { result ≡ pat.binding_at input.now.rest }
{
    input.peek::<Ref>() || input.peek::<Mut>() || lone_name_at(input)
}

/// Whether a member and `:` come first.
#[tactic(auto, unfolding(syn_tokens::specs::Sign::sign_text, syn_lower_spec::specs::Mark::sign_at, syn_lower_spec::specs::Pat::full_at))]
pub fn full_at(input: &ParseBuffer<'_>) -> bool
    ensures { result ≡ pat.full_at input.now.rest }
{
    match input.trees() {
        [TokenTree::Ident(word), more @ ..] => {
            !is_reserved_word(word.as_str()) && Colon::peek(more)
        }
        [TokenTree::Literal(_), more @ ..] => Colon::peek(more),
        _ => false,
    }
}

/// Whether no field of a struct follows: the end, or `..`.
pub fn fields_stop(input: &ParseBuffer<'_>) -> bool
    ensures { result ≡ pat.fields_stop input.now.rest }
{
    input.is_empty() || dots_at(input)
}
