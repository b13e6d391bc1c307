//! Whether an operand, a leaf, a prefix or a trailer comes first, and which operand or trailer is read. No other part of the
//! input decides it.

ghost use Rattle.std.specs.Prelude.{◌≡◌, ◌&&◌, ◌||◌, not, drop, true};
ghost use Rattle.syn_expr_spec.specs.Head as head;
ghost use Rattle.syn_expr_spec.specs.Path as path;
ghost use Rattle.syn_expr_spec.specs.Read as read;
ghost use Rattle.syn_expr_spec.specs.Slot as slot;
ghost use Rattle.syn_lower_spec.specs.Mark as mark;
ghost use Rattle.syn_tokens.specs.View.{toks_of};
ghost use Rattle.syn_expr_tokens.specs.Begins as begins;
ghost use Rattle.syn_expr_tokens.specs.Begins.{AtomsAreChosen, TrailersAreChosen};

use crate::op::{bracket_at, dot_at, question_at};
use syn_lexer::front::is_reserved_word;
use syn_lower_leaves::front::{lifetimes_at, round_at};
use syn_lower_leaves::leaf::{is_truth, lifetime_at};
use syn_lower_leaves::lifetime::Lifetime;
use syn_tokens::buffer::{ParseBuffer, Token};
use syn_tokens::token::{
    And, Async, Become, Brace, Break, Const, Continue, DotDot, For, Group, If, Let, Loop, Match,
    Minus, Move, Mut, Not, Or, Paren, PathSep, Pound, Raw, Return, Star, Static, Try, Underscore,
    Unsafe, Use, While, Yield,
};
use syn_tokens::tree::TokenTree;

/// The trees after so many, none where there are fewer.
#[tactic(auto, using(syn_tokens::proofs::Views::views))]
fn behind(trees: &[TokenTree], count: usize) -> &[TokenTree]
    ensures { toks_of result.now ≡ drop count (toks_of trees.now) }
{
    if count < trees.len() {
        let (_, more) = trees.split_at(count);
        more
    } else {
        &[]
    }
}

/// The trees after the label that comes first, all where none does.
fn past_label(trees: &[TokenTree]) -> &[TokenTree]
    ensures { toks_of result.now ≡ head.past_label (toks_of trees.now) }
{
    if Lifetime::peek(trees) {
        behind(trees, 3)
    } else {
        trees
    }
}

/// Whether a literal comes first, `true` and `false` being two (Rust Reference, "Literal expressions").
#[tactic(auto, unfolding(syn_expr_spec::specs::Head::literal_at))]
pub fn literal_at(input: &ParseBuffer<'_>) -> bool
    ensures { result ≡ head.literal_at input.now.rest }
{
    match input.first() {
        Some(TokenTree::Literal(_)) => true,
        Some(TokenTree::Ident(word)) => is_truth(word.as_str()),
        Some(TokenTree::Punct(_)) => false,
        Some(TokenTree::Group(_)) => false,
        None => false,
    }
}

/// Whether `loop` comes first, a label before it or not (Rust Reference, "Infinite loops").
#[tactic(auto, unfolding(syn_expr_spec::specs::Head::loop_at, syn_tokens::specs::Sign::word_text, syn_lower_spec::specs::Mark::word_at))]
pub fn loop_at(input: &ParseBuffer<'_>) -> bool
    ensures { result ≡ head.loop_at input.now.rest }
{
    Loop::peek(past_label(input.trees()))
}

/// Whether a brace comes first, a label before it or not (Rust Reference, "Block expressions").
#[tactic(auto, unfolding(syn_expr_spec::specs::Head::block_at, syn_lower_spec::specs::Mark::brace_at))]
pub fn block_at(input: &ParseBuffer<'_>) -> bool
    ensures { result ≡ head.block_at input.now.rest }
{
    Brace::peek(past_label(input.trees()))
}

/// Whether `const` and a brace come first (Rust Reference, "Const blocks").
#[tactic(auto, unfolding(syn_expr_spec::specs::Head::const_block_at, syn_tokens::specs::Sign::word_text, syn_lower_spec::specs::Mark::word_at, syn_lower_spec::specs::Mark::brace_at))]
pub fn const_block_at(input: &ParseBuffer<'_>) -> bool
    ensures { result ≡ head.const_block_at input.now.rest }
{
    input.peek::<Const>() && Brace::peek(behind(input.trees(), 1))
}

/// Whether `async` and a brace come first, `move` between them or not (Rust Reference, "`async` blocks").
#[tactic(auto, unfolding(syn_expr_spec::specs::Head::async_block_at, syn_tokens::specs::Sign::word_text, syn_lower_spec::specs::Mark::word_at, syn_lower_spec::specs::Mark::brace_at))]
pub fn async_block_at(input: &ParseBuffer<'_>) -> bool
    ensures { result ≡ head.async_block_at input.now.rest }
{
    let trees = input.trees();
    let second = behind(trees, 1);
    Async::peek(trees)
        && (Brace::peek(second) || Move::peek(second) && Brace::peek(behind(trees, 2)))
}

/// Whether `try` and a brace come first.
#[tactic(auto, unfolding(syn_expr_spec::specs::Head::try_block_at, syn_tokens::specs::Sign::word_text, syn_lower_spec::specs::Mark::word_at, syn_lower_spec::specs::Mark::brace_at))]
pub fn try_block_at(input: &ParseBuffer<'_>) -> bool
    ensures { result ≡ head.try_block_at input.now.rest }
{
    input.peek::<Try>() && Brace::peek(behind(input.trees(), 1))
}

/// Whether `builtin` and `#` come first: special syntax.
#[tactic(auto, unfolding(syn_expr_spec::specs::Head::builtin_at, syn_tokens::specs::Sign::sign_text, syn_lower_spec::specs::Mark::word_at, syn_lower_spec::specs::Mark::sign_at))]
pub fn builtin_at(input: &ParseBuffer<'_>) -> bool
    ensures { result ≡ head.builtin_at input.now.rest }
{
    match input.trees() {
        [TokenTree::Ident(word), more @ ..] => word.is("builtin") && Pound::peek(more),
        _ => false,
    }
}

/// Whether `..` comes first, what is joined to it or not (Rust Reference, "Range expressions").
#[tactic(auto, unfolding(syn_expr_spec::specs::Head::range_at, syn_tokens::specs::Sign::sign_text, syn_lower_spec::specs::Mark::sign_at))]
pub fn range_at(input: &ParseBuffer<'_>) -> bool
    ensures { result ≡ head.range_at input.now.rest }
{
    input.peek::<DotDot>()
}

/// Whether `return`, `yield` or `break` comes first (Rust Reference, "`return` expressions", "`break` expressions").
#[tactic(auto, unfolding(syn_expr_spec::specs::Head::jump_at, syn_tokens::specs::Sign::word_text, syn_lower_spec::specs::Mark::word_at))]
pub fn jump_at(input: &ParseBuffer<'_>) -> bool
    ensures { result ≡ head.jump_at input.now.rest }
{
    input.peek::<Return>() || input.peek::<Yield>() || input.peek::<Break>()
}

/// Whether `const` comes first, and no brace after it.
#[tactic(auto, unfolding(syn_tokens::specs::Sign::word_text, syn_lower_spec::specs::Mark::word_at, syn_lower_spec::specs::Mark::brace_at))]
fn const_closure_at(input: &ParseBuffer<'_>) -> bool
    ensures { result ≡ (mark.constant.at input.now.rest && not (mark.brace_at (drop 1 input.now.rest))) }
{
    input.peek::<Const>() && !Brace::peek(behind(input.trees(), 1))
}

/// Whether `|`, `use`, or `move` and no brace comes first: what may come after the `async` of a closure.
#[tactic(auto, unfolding(syn_tokens::specs::Sign::word_text, syn_tokens::specs::Sign::sign_text, syn_lower_spec::specs::Mark::word_at, syn_lower_spec::specs::Mark::sign_at, syn_lower_spec::specs::Mark::brace_at))]
fn captures_first(trees: &[TokenTree]) -> bool
    ensures { result ≡ head.captures_at (toks_of trees.now) }
{
    Or::peek(trees) || Use::peek(trees) || Move::peek(trees) && !Brace::peek(behind(trees, 1))
}

/// Whether `async` comes first, and after it what may be there in a closure.
#[tactic(auto, unfolding(syn_tokens::specs::Sign::word_text, syn_lower_spec::specs::Mark::word_at))]
fn async_closure_at(input: &ParseBuffer<'_>) -> bool
    ensures { result ≡ (head.async_word.at input.now.rest && head.captures_at (drop 1 input.now.rest)) }
{
    input.peek::<Async>() && captures_first(behind(input.trees(), 1))
}

/// Whether the head of a closure comes first (Rust Reference, "Closure expressions").
#[tactic(auto, unfolding(syn_expr_spec::specs::Head::closure_at, syn_tokens::specs::Sign::word_text, syn_tokens::specs::Sign::sign_text, syn_lower_spec::specs::Mark::word_at, syn_lower_spec::specs::Mark::sign_at))]
pub fn closure_at(input: &ParseBuffer<'_>) -> bool
    ensures { result ≡ head.closure_at input.now.rest }
{
    input.peek::<Or>()
        || input.peek::<Move>()
        || input.peek::<Use>()
        || input.peek::<Static>()
        || lifetimes_at(input)
        || const_closure_at(input)
        || async_closure_at(input)
}

/// Whether the word `raw` and one of a raw borrow come first: `mut` or `const`.
#[tactic(auto, unfolding(syn_expr_spec::specs::Head::raw_at, syn_tokens::specs::Sign::word_text, syn_lower_spec::specs::Mark::word_at))]
fn raw_first(trees: &[TokenTree]) -> bool
    ensures { result ≡ head.raw_at (toks_of trees.now) }
{
    let second = behind(trees, 1);
    Raw::peek(trees) && (Mut::peek(second) || Const::peek(second))
}

/// Whether `raw` comes first, and `mut` or `const` after it (Rust Reference, "Raw borrow operators").
pub fn raw_at(input: &ParseBuffer<'_>) -> bool
    ensures { result ≡ head.raw_at input.now.rest }
{
    raw_first(input.trees())
}

/// Whether a name comes first, and parentheses or `::` after it: that of a method (Rust Reference, "Method-call
/// expressions").
#[tactic(auto, unfolding(syn_expr_spec::specs::Head::method_at, syn_tokens::specs::Sign::sign_text, syn_lower_spec::specs::Mark::sign_at, syn_lower_spec::specs::Mark::round_at))]
pub fn method_at(input: &ParseBuffer<'_>) -> bool
    ensures { result ≡ head.method_at input.now.rest }
{
    match input.trees() {
        [TokenTree::Ident(word), more @ ..] => {
            !is_reserved_word(word.as_str()) && (Paren::peek(more) || PathSep::peek(more))
        }
        _ => false,
    }
}

/// Whether `become` comes first.
#[tactic(auto, unfolding(syn_tokens::specs::Sign::word_text, syn_lower_spec::specs::Mark::word_at))]
pub fn become_at(input: &ParseBuffer<'_>) -> bool
    ensures { result ≡ read.become_word.at input.now.rest }
{
    input.peek::<Become>()
}

/// Whether an invisible group comes first.
#[tactic(auto, unfolding(syn_expr_spec::specs::Path::invisible_at))]
pub fn invisible_at(input: &ParseBuffer<'_>) -> bool
    ensures { result ≡ path.invisible_at input.now.rest }
{
    input.peek::<Group>()
}

/// Whether `if` comes first (Rust Reference, "`if` expressions").
#[tactic(auto, unfolding(syn_tokens::specs::Sign::word_text, syn_lower_spec::specs::Mark::word_at))]
pub fn if_at(input: &ParseBuffer<'_>) -> bool
    ensures { result ≡ slot.if_word.at input.now.rest }
{
    input.peek::<If>()
}

/// Whether `match` comes first (Rust Reference, "`match` expressions").
#[tactic(auto, unfolding(syn_tokens::specs::Sign::word_text, syn_lower_spec::specs::Mark::word_at))]
pub fn match_at(input: &ParseBuffer<'_>) -> bool
    ensures { result ≡ slot.match_word.at input.now.rest }
{
    input.peek::<Match>()
}

/// Whether `while` comes first (Rust Reference, "Predicate loops").
#[tactic(auto, unfolding(syn_tokens::specs::Sign::word_text, syn_lower_spec::specs::Mark::word_at))]
pub fn while_at(input: &ParseBuffer<'_>) -> bool
    ensures { result ≡ slot.while_word.at input.now.rest }
{
    input.peek::<While>()
}

/// Whether `for` comes first that begins no lifetimes of a closure (Rust Reference, "Iterator loops").
#[tactic(auto, unfolding(syn_tokens::specs::Sign::word_text, syn_lower_spec::specs::Mark::word_at))]
pub fn for_at(input: &ParseBuffer<'_>) -> bool
    ensures { result ≡ slot.for_word.at input.now.rest }
{
    input.peek::<For>() && !lifetimes_at(input)
}

/// Whether a label, `while` or `for` comes first (Rust Reference, "Loop expressions").
#[tactic(auto, unfolding(syn_expr_spec::specs::Read::loop_head_at))]
pub fn loop_head_at(input: &ParseBuffer<'_>) -> bool
    ensures { result ≡ read.loop_head_at input.now.rest }
{
    lifetime_at(input) || while_at(input) || for_at(input)
}

/// Whether a block comes first, by its word or its brace.
fn verbatim_block_at(input: &ParseBuffer<'_>) -> bool
    ensures { result ≡ (head.const_block_at input.now.rest || (head.async_block_at input.now.rest || (head.try_block_at input.now.rest || head.builtin_at input.now.rest))) }
{
    const_block_at(input) || async_block_at(input) || try_block_at(input) || builtin_at(input)
}

/// Whether a leaf comes first that is no path, macro, jump or range.
#[tactic(auto, unfolding(syn_expr_spec::specs::Head::leaf_at, syn_tokens::specs::Sign::word_text, syn_lower_spec::specs::Mark::word_at))]
pub fn leaf_at(input: &ParseBuffer<'_>) -> bool
    ensures { result ≡ head.leaf_at input.now.rest }
{
    literal_at(input)
        || input.peek::<Underscore>()
        || input.peek::<Continue>()
        || loop_at(input)
        || block_at(input)
        || input.peek::<Unsafe>()
        || verbatim_block_at(input)
}

/// Whether the operator of one operand comes first, `..`, `let`, a jump or the head of a closure.
#[tactic(auto, unfolding(syn_expr_spec::specs::Read::prefix_at, syn_tokens::specs::Sign::word_text, syn_tokens::specs::Sign::sign_text, syn_lower_spec::specs::Mark::word_at, syn_lower_spec::specs::Mark::sign_at))]
pub fn prefix_at(input: &ParseBuffer<'_>) -> bool
    ensures { result ≡ read.prefix_at input.now.rest }
{
    input.peek::<Star>()
        || input.peek::<Not>()
        || input.peek::<Minus>()
        || input.peek::<And>()
        || range_at(input)
        || input.peek::<Let>()
        || jump_at(input)
        || closure_at(input)
}

/// Which operand is read.
#[derive(Clone, Copy, Debug, PartialEq, Eq)]
pub enum Atom {
    /// A leaf that is no path, macro, jump or range.
    Leaf,
    /// What comes before an operand, or a jump or a range without one.
    Prefix,
    /// What is in parentheses.
    Parenthesis,
    /// What is in brackets.
    Bracket,
    /// `become` and an expression.
    Become,
    /// An `if`.
    If,
    /// A loop with a head.
    Loop,
    /// A `match`.
    Match,
    /// An invisible group, or a path that begins in one.
    Group,
    /// A path, a macro or a struct expression.
    Named,
}

/// Which trailer is read: what comes after an operand and goes on it.
#[derive(Clone, Copy, Debug, PartialEq, Eq)]
pub enum TrailerStart {
    /// Arguments in parentheses.
    Call,
    /// An index in brackets.
    Index,
    /// `?`
    Question,
    /// `.` that doesn't begin `..`
    Dot,
    /// No trailer is there.
    Absent,
}

/// Which operand that is in no delimiter is read: one that begins with a word of its own, a loop's head or a name.
fn worded(input: &ParseBuffer<'_>) -> Atom
    ensures { result ≡ begins.worded input.now.rest }
{
    if become_at(input) {
        return Atom::Become;
    }
    if if_at(input) {
        return Atom::If;
    }
    if loop_head_at(input) {
        return Atom::Loop;
    }
    if match_at(input) {
        return Atom::Match;
    }
    if invisible_at(input) {
        return Atom::Group;
    }
    Atom::Named
}

/// Whether a name comes first, which begins a path, a macro or a struct expression and nothing else.
#[tactic(auto, using(crate::proofs::Choices::names_begin_paths))]
fn name_at(input: &ParseBuffer<'_>) -> bool
    ensures { result ≡ true → begins.atom_of input.now.rest ≡ Atom.Named }
{
    match input.first() {
        Some(TokenTree::Ident(word)) => { !is_reserved_word(word.as_str()) && !word.is("builtin") }
        _ => false,
    }
}

/// Which operand is read (Rust Reference, "Expressions").
pub fn atom_at(input: &ParseBuffer<'_>) -> Atom
    ensures { result ≡ begins.atom_of input.now.rest }
{
    // Most operands begin with a name, so no other word is compared with it first.
    if name_at(input) {
        return Atom::Named;
    }
    if leaf_at(input) {
        return Atom::Leaf;
    }
    if prefix_at(input) {
        return Atom::Prefix;
    }
    if round_at(input) {
        return Atom::Parenthesis;
    }
    if bracket_at(input) {
        return Atom::Bracket;
    }
    worded(input)
}

/// Which trailer is read (Rust Reference, "Call expressions", "Array and array index expressions", "The question mark
/// operator", "Field access expressions").
pub fn trailer_start(input: &ParseBuffer<'_>) -> TrailerStart
    ensures { result ≡ begins.trailer_of input.now.rest }
{
    if round_at(input) {
        return TrailerStart::Call;
    }
    if bracket_at(input) {
        return TrailerStart::Index;
    }
    if question_at(input) {
        return TrailerStart::Question;
    }
    if dot_at(input) {
        return TrailerStart::Dot;
    }
    TrailerStart::Absent
}

/// What is read of an operand or a trailer is what its kind says that `atom_at` or `trailer_start` answers (a law about
/// definitions; it does nothing).
pub fn kinds_decide()
    ensures atoms { AtomsAreChosen }
    ensures trailers { TrailersAreChosen }
{}
