//! The words, signs and labels of expressions, at the front of the input. Each is taken where it comes first; else nothing
//! changes.

ghost use Rattle.std.specs.Prelude.{◌≡◌, ◌<◌, ◌≤◌, is_some, Some, IfSome};
ghost use Rattle.syn_expr_spec.specs.Front as front;
ghost use Rattle.syn_expr_spec.specs.Head as head;
ghost use Rattle.syn_expr_spec.specs.Read as read;
ghost use Rattle.syn_expr_spec.specs.Slot as slot;
ghost use Rattle.syn_lower_leaves.specs.Reads.{Takes, Reads};
ghost use Rattle.syn_lower_spec.specs.Form.{flag};
ghost use Rattle.syn_tokens.specs.Tok.{weight};
ghost use Rattle.syn_expr_tokens.specs.View.{label_of};
ghost use Rattle.syn_lower_leaves.specs.View.{mapped};

use syn_expr_tokens::modifiers::Label;
use syn_expr_tokens::reader::label;
use syn_lower_leaves::front::{sign, word};
use syn_lower_leaves::leaf::lifetime_at;
use syn_tokens::buffer::ParseBuffer;
use syn_tokens::error::Result;
use syn_tokens::token::{
    Async, Await, Become, Break, Continue, Dot, DotDot, Else, FatArrow, If, In, Let, Loop, Match,
    Minus, Move, Or, Raw, Return, Sign, Static, Try, Use, While, Yield,
};

/// Takes `return`.
#[tactic(auto, unfolding(syn_tokens::specs::Sign::word_text, syn_lower_spec::specs::Mark::word_at))]
pub fn return_word(input: &mut ParseBuffer<'_>) -> Option<Return>
    ensures value { Takes head.return_word input.old result input.new }
    ensures smaller { IfSome result (λ _. weight input.new.rest < weight input.old.rest) }
    ensures shrinks { weight input.new.rest ≤ weight input.old.rest }
{
    word(input)
}

/// Takes `yield`.
#[tactic(auto, unfolding(syn_tokens::specs::Sign::word_text, syn_lower_spec::specs::Mark::word_at))]
pub fn yield_word(input: &mut ParseBuffer<'_>) -> Option<Yield>
    ensures value { Takes head.yield_word input.old result input.new }
    ensures smaller { IfSome result (λ _. weight input.new.rest < weight input.old.rest) }
    ensures shrinks { weight input.new.rest ≤ weight input.old.rest }
{
    word(input)
}

/// Takes `break`.
#[tactic(auto, unfolding(syn_tokens::specs::Sign::word_text, syn_lower_spec::specs::Mark::word_at))]
pub fn break_word(input: &mut ParseBuffer<'_>) -> Option<Break>
    ensures value { Takes head.break_word input.old result input.new }
    ensures smaller { IfSome result (λ _. weight input.new.rest < weight input.old.rest) }
    ensures shrinks { weight input.new.rest ≤ weight input.old.rest }
{
    word(input)
}

/// Takes `continue`.
#[tactic(auto, unfolding(syn_tokens::specs::Sign::word_text, syn_lower_spec::specs::Mark::word_at))]
pub fn continue_word(input: &mut ParseBuffer<'_>) -> Option<Continue>
    ensures value { Takes head.continue_word input.old result input.new }
    ensures smaller { IfSome result (λ _. weight input.new.rest < weight input.old.rest) }
    ensures shrinks { weight input.new.rest ≤ weight input.old.rest }
{
    word(input)
}

/// Takes `loop`.
#[tactic(auto, unfolding(syn_tokens::specs::Sign::word_text, syn_lower_spec::specs::Mark::word_at))]
pub fn loop_word(input: &mut ParseBuffer<'_>) -> Option<Loop>
    ensures value { Takes head.loop_word input.old result input.new }
    ensures smaller { IfSome result (λ _. weight input.new.rest < weight input.old.rest) }
    ensures shrinks { weight input.new.rest ≤ weight input.old.rest }
{
    word(input)
}

/// Takes `async`.
#[tactic(auto, unfolding(syn_tokens::specs::Sign::word_text, syn_lower_spec::specs::Mark::word_at))]
pub fn async_word(input: &mut ParseBuffer<'_>) -> Option<Async>
    ensures value { Takes head.async_word input.old result input.new }
    ensures flag { (flag head.async_word).reads input.old.rest ≡ Some (is_some result, input.new.rest) }
    ensures smaller { IfSome result (λ _. weight input.new.rest < weight input.old.rest) }
    ensures shrinks { weight input.new.rest ≤ weight input.old.rest }
{
    word(input)
}

/// Takes `move`.
#[tactic(auto, unfolding(syn_tokens::specs::Sign::word_text, syn_lower_spec::specs::Mark::word_at))]
pub fn move_word(input: &mut ParseBuffer<'_>) -> Option<Move>
    ensures value { Takes head.move_word input.old result input.new }
    ensures flag { (flag head.move_word).reads input.old.rest ≡ Some (is_some result, input.new.rest) }
    ensures smaller { IfSome result (λ _. weight input.new.rest < weight input.old.rest) }
    ensures shrinks { weight input.new.rest ≤ weight input.old.rest }
{
    word(input)
}

/// Takes `static`.
#[tactic(auto, unfolding(syn_tokens::specs::Sign::word_text, syn_lower_spec::specs::Mark::word_at))]
pub fn static_word(input: &mut ParseBuffer<'_>) -> Option<Static>
    ensures value { Takes head.static_word input.old result input.new }
    ensures flag { (flag head.static_word).reads input.old.rest ≡ Some (is_some result, input.new.rest) }
    ensures smaller { IfSome result (λ _. weight input.new.rest < weight input.old.rest) }
    ensures shrinks { weight input.new.rest ≤ weight input.old.rest }
{
    word(input)
}

/// Takes `use`.
#[tactic(auto, unfolding(syn_tokens::specs::Sign::word_text, syn_lower_spec::specs::Mark::word_at))]
pub fn use_word(input: &mut ParseBuffer<'_>) -> Option<Use>
    ensures value { Takes head.use_word input.old result input.new }
    ensures flag { (flag head.use_word).reads input.old.rest ≡ Some (is_some result, input.new.rest) }
    ensures smaller { IfSome result (λ _. weight input.new.rest < weight input.old.rest) }
    ensures shrinks { weight input.new.rest ≤ weight input.old.rest }
{
    word(input)
}

/// Takes `try`.
#[tactic(auto, unfolding(syn_tokens::specs::Sign::word_text, syn_lower_spec::specs::Mark::word_at))]
pub fn try_word(input: &mut ParseBuffer<'_>) -> Option<Try>
    ensures value { Takes head.try_word input.old result input.new }
    ensures smaller { IfSome result (λ _. weight input.new.rest < weight input.old.rest) }
    ensures shrinks { weight input.new.rest ≤ weight input.old.rest }
{
    word(input)
}

/// Takes `let`.
#[tactic(auto, unfolding(syn_tokens::specs::Sign::word_text, syn_lower_spec::specs::Mark::word_at))]
pub fn let_word(input: &mut ParseBuffer<'_>) -> Option<Let>
    ensures value { Takes head.let_word input.old result input.new }
    ensures smaller { IfSome result (λ _. weight input.new.rest < weight input.old.rest) }
    ensures shrinks { weight input.new.rest ≤ weight input.old.rest }
{
    word(input)
}

/// Takes `raw`.
#[tactic(auto, unfolding(syn_tokens::specs::Sign::word_text, syn_lower_spec::specs::Mark::word_at))]
pub fn raw_word(input: &mut ParseBuffer<'_>) -> Option<Raw>
    ensures value { Takes head.raw_word input.old result input.new }
    ensures smaller { IfSome result (λ _. weight input.new.rest < weight input.old.rest) }
    ensures shrinks { weight input.new.rest ≤ weight input.old.rest }
{
    word(input)
}

/// Takes `await`.
#[tactic(auto, unfolding(syn_tokens::specs::Sign::word_text, syn_lower_spec::specs::Mark::word_at))]
pub fn await_word(input: &mut ParseBuffer<'_>) -> Option<Await>
    ensures value { Takes head.await_word input.old result input.new }
    ensures smaller { IfSome result (λ _. weight input.new.rest < weight input.old.rest) }
    ensures shrinks { weight input.new.rest ≤ weight input.old.rest }
{
    word(input)
}

/// Takes `if`.
#[tactic(auto, unfolding(syn_tokens::specs::Sign::word_text, syn_lower_spec::specs::Mark::word_at))]
pub fn if_word(input: &mut ParseBuffer<'_>) -> Option<If>
    ensures value { Takes slot.if_word input.old result input.new }
    ensures smaller { IfSome result (λ _. weight input.new.rest < weight input.old.rest) }
    ensures shrinks { weight input.new.rest ≤ weight input.old.rest }
{
    word(input)
}

/// Takes `else`.
#[tactic(auto, unfolding(syn_tokens::specs::Sign::word_text, syn_lower_spec::specs::Mark::word_at))]
pub fn else_word(input: &mut ParseBuffer<'_>) -> Option<Else>
    ensures value { Takes slot.else_word input.old result input.new }
    ensures smaller { IfSome result (λ _. weight input.new.rest < weight input.old.rest) }
    ensures shrinks { weight input.new.rest ≤ weight input.old.rest }
{
    word(input)
}

/// Takes `in`.
#[tactic(auto, unfolding(syn_tokens::specs::Sign::word_text, syn_lower_spec::specs::Mark::word_at))]
pub fn in_word(input: &mut ParseBuffer<'_>) -> Option<In>
    ensures value { Takes slot.in_word input.old result input.new }
    ensures smaller { IfSome result (λ _. weight input.new.rest < weight input.old.rest) }
    ensures shrinks { weight input.new.rest ≤ weight input.old.rest }
{
    word(input)
}

/// Takes `while`.
#[tactic(auto, unfolding(syn_tokens::specs::Sign::word_text, syn_lower_spec::specs::Mark::word_at))]
pub fn while_word(input: &mut ParseBuffer<'_>) -> Option<While>
    ensures value { Takes slot.while_word input.old result input.new }
    ensures smaller { IfSome result (λ _. weight input.new.rest < weight input.old.rest) }
    ensures shrinks { weight input.new.rest ≤ weight input.old.rest }
{
    word(input)
}

/// Takes `match`.
#[tactic(auto, unfolding(syn_tokens::specs::Sign::word_text, syn_lower_spec::specs::Mark::word_at))]
pub fn match_word(input: &mut ParseBuffer<'_>) -> Option<Match>
    ensures value { Takes slot.match_word input.old result input.new }
    ensures smaller { IfSome result (λ _. weight input.new.rest < weight input.old.rest) }
    ensures shrinks { weight input.new.rest ≤ weight input.old.rest }
{
    word(input)
}

/// Takes `become`.
#[tactic(auto, unfolding(syn_tokens::specs::Sign::word_text, syn_lower_spec::specs::Mark::word_at))]
pub fn become_word(input: &mut ParseBuffer<'_>) -> Option<Become>
    ensures value { Takes read.become_word input.old result input.new }
    ensures smaller { IfSome result (λ _. weight input.new.rest < weight input.old.rest) }
    ensures shrinks { weight input.new.rest ≤ weight input.old.rest }
{
    word(input)
}

/// Takes `|`.
#[tactic(auto, unfolding(syn_tokens::specs::Sign::sign_text, syn_lower_spec::specs::Mark::sign_at))]
pub fn bar(input: &mut ParseBuffer<'_>) -> Option<Or>
    ensures value { Takes head.bar input.old result input.new }
    ensures smaller { IfSome result (λ _. weight input.new.rest < weight input.old.rest) }
    ensures shrinks { weight input.new.rest ≤ weight input.old.rest }
{
    sign(input)
}

/// Whether `|` comes first, whatever is joined to it.
#[tactic(auto, unfolding(syn_tokens::specs::Sign::sign_text, syn_lower_spec::specs::Mark::sign_at))]
pub fn bar_at(input: &ParseBuffer<'_>) -> bool
    ensures { result ≡ head.bar.at input.now.rest }
{
    input.peek::<Or>()
}

/// Takes `-`.
#[tactic(auto, unfolding(syn_tokens::specs::Sign::sign_text, syn_lower_spec::specs::Mark::sign_at))]
pub fn minus(input: &mut ParseBuffer<'_>) -> Option<Minus>
    ensures value { Takes head.minus input.old result input.new }
    ensures smaller { IfSome result (λ _. weight input.new.rest < weight input.old.rest) }
    ensures shrinks { weight input.new.rest ≤ weight input.old.rest }
{
    sign(input)
}

/// Takes `=>`.
#[tactic(auto, unfolding(syn_tokens::specs::Sign::sign_text, syn_lower_spec::specs::Mark::sign_at))]
pub fn fat_arrow(input: &mut ParseBuffer<'_>) -> Option<FatArrow>
    ensures value { Takes slot.fat_arrow input.old result input.new }
    ensures smaller { IfSome result (λ _. weight input.new.rest < weight input.old.rest) }
    ensures shrinks { weight input.new.rest ≤ weight input.old.rest }
{
    sign(input)
}

/// Takes `.` that doesn't begin `..`.
#[tactic(auto, unfolding(syn_tokens::specs::Sign::sign_text, syn_lower_spec::specs::Mark::sign_at, syn_expr_spec::specs::Front::dot_at))]
pub fn dot(input: &mut ParseBuffer<'_>) -> Option<Dot>
    ensures value { Takes (record { at = front.dot_at; count = 1 }) input.old result input.new }
    ensures smaller { IfSome result (λ _. weight input.new.rest < weight input.old.rest) }
    ensures shrinks { weight input.new.rest ≤ weight input.old.rest }
{
    if input.peek::<DotDot>() {
        return None;
    }
    sign(input)
}

/// Reads a label, if a lifetime comes first (Rust Reference, "Loop labels"). A missing `:` is refused as `ExpectedToken`
/// of it.
pub fn maybe_label(input: &mut ParseBuffer<'_>) -> Result<Option<Label>>
    ensures value { Reads (mapped label_of) (head.label.reads input.old.rest) result input.new.rest }
    ensures noted { input.new.noted ≡ input.old.noted }
    ensures shrinks { weight input.new.rest ≤ weight input.old.rest }
{
    if lifetime_at(input) {
        Ok(Some(label(input)?))
    } else {
        Ok(None)
    }
}
