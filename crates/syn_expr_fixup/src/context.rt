//! The places of operands: what comes after a node, by the class of its first token, and what is round it; and whether a
//! node is put in parentheses, by its summary, its place and what it is to its owner.

ghost use Rattle.std.specs.Prelude.{◌≡◌, ◌||◌, not, if◌then◌else◌};
ghost use Rattle.syn_expr_spec.specs.Next as spec;
ghost use Rattle.syn_expr_spec.specs.Tree.{Prefix, Trailer, Piece};
ghost use Rattle.syn_expr_ast.specs.Label as label;
ghost use Rattle.syn_expr_ast.specs.Label.{prefix_kind, trailer_kind, piece_kind};
ghost use Rattle.syn_expr_spec.specs.Summaries as summaries_spec;
ghost use Rattle.syn_expr_spec.specs.Place.{takes};
ghost use Rattle.syn_expr_spec.specs.Rule as rule;

use syn_expr_ast::label::{LeafKind, PieceKind, PostfixKind, PrefixKind, TrailerKind};
use syn_expr_spec::kinds::{BinKind, Infix, Limits, Precedence};
use syn_expr_spec::next::{Context, Edge, Next};
use syn_expr_spec::summary::{Sort, Summary};
use syn_expr_tokens::op::{is_comparison, takes};

/// Inside of delimiters, with nothing after; and in plain position.
pub fn enclosed() -> Context
    ensures { result ≡ spec.enclosed }
{
    Context {
        condition: false,
        edge: Edge::Free,
        next: Next::End,
    }
}

/// At the head of a statement.
pub fn in_statement() -> Context
    ensures { result ≡ spec.in_statement }
{
    Context {
        edge: Edge::Statement,
        ..enclosed()
    }
}

/// The body of a match arm.
pub fn in_arm() -> Context
    ensures { result ≡ spec.in_arm }
{
    Context {
        edge: Edge::Arm,
        ..enclosed()
    }
}

/// Before the block of an `if`, `while`, `match` or `for`.
pub fn in_condition() -> Context
    ensures { result ≡ spec.in_condition }
{
    Context {
        condition: true,
        edge: Edge::Free,
        next: Next::Block,
    }
}

/// The edge left of an operator, a call or an index.
pub fn left_edge(edge: Edge) -> Edge
    ensures { result ≡ spec.left_edge edge }
{
    match edge {
        Edge::Arm => Edge::BelowArm,
        Edge::Statement => Edge::BelowStatement,
        other => other,
    }
}

/// The edge left of a dot or a question mark.
pub fn dot_edge(edge: Edge) -> Edge
    ensures { result ≡ spec.dot_edge edge }
{
    match edge {
        Edge::BelowArm => Edge::Arm,
        Edge::BelowStatement => Edge::Statement,
        other => other,
    }
}

/// The edge left of a trailer.
fn base_edge(trailer: TrailerKind, edge: Edge) -> Edge
    ensures { result ≡ label.base_edge trailer edge }
{
    match trailer {
        TrailerKind::Call | TrailerKind::Index => left_edge(edge),
        _ => dot_edge(edge),
    }
}

/// The edge after attributes, where no brace is first.
pub fn attributed_edge(edge: Edge) -> Edge
    ensures { result ≡ spec.attributed_edge edge }
{
    match edge {
        Edge::NoBrace => Edge::Free,
        other => other,
    }
}

/// The edge of what may not begin with a brace, which would be that of a block.
fn braceless(condition: bool) -> Edge
    ensures { result ≡ spec.braceless condition }
{
    if condition { Edge::NoBrace } else { Edge::Free }
}

/// The edge of an end of a range: of `..` a brace after a condition would be no end.
fn end_edge(op: Infix, condition: bool) -> Edge
    ensures { result ≡ label.end_edge op condition }
{
    match op {
        Infix::Range(Limits::HalfOpen) => braceless(condition),
        _ => Edge::Free,
    }
}

/// The place of a left operand.
pub fn left_context(op: Infix, context: Context) -> Context
    ensures { result ≡ spec.left_context op context }
{
    Context {
        condition: context.condition,
        edge: left_edge(context.edge),
        next: class_of(op),
    }
}

/// The place of a right operand.
pub fn right_context(op: Infix, context: Context) -> Context
    ensures { result ≡ spec.right_context op context }
{
    Context {
        condition: context.condition,
        edge: end_edge(op, context.condition),
        next: context.next,
    }
}

/// The place of the base of a trailer.
pub fn base_context(trailer: TrailerKind, context: Context) -> Context
    ensures { (k : Trailer) → trailer_kind k ≡ trailer → result ≡ spec.base_context k context }
{
    Context {
        condition: context.condition,
        edge: base_edge(trailer, context.edge),
        next: next_of(trailer),
    }
}

/// The place of a node after its attributes.
pub fn attributed_context(context: Context) -> Context
    ensures { result ≡ spec.attributed_context context }
{
    Context {
        condition: context.condition,
        edge: attributed_edge(context.edge),
        next: context.next,
    }
}

/// The edge of an operand after its prefix.
fn prefix_edge(prefix: PrefixKind, condition: bool) -> Edge
    ensures { result ≡ label.prefix_edge prefix condition }
{
    match prefix {
        PrefixKind::RangeTo(limits) => end_edge(Infix::Range(limits), condition),
        PrefixKind::Break { .. } => braceless(condition),
        _ => Edge::Free,
    }
}

/// Whether an operand after its prefix is before a block: that after a jump isn't.
fn prefix_condition(prefix: PrefixKind, condition: bool) -> bool
    ensures { result ≡ label.prefix_condition prefix condition }
{
    match prefix {
        PrefixKind::Jump | PrefixKind::Break { .. } => false,
        _ => condition,
    }
}

/// What comes after an operand, by what comes after its prefix.
pub fn prefix_next(prefix: PrefixKind, next: Next) -> Next
    ensures { (k : Prefix) → prefix_kind k ≡ prefix → result ≡ spec.prefix_next k next }
{
    match prefix {
        PrefixKind::Jump | PrefixKind::Break { .. } => without_block(next),
        _ => next,
    }
}

/// The place of an operand after its prefix.
pub fn prefix_context(prefix: PrefixKind, context: Context) -> Context
    ensures { (k : Prefix) → prefix_kind k ≡ prefix → result ≡ spec.prefix_context k context }
{
    Context {
        condition: prefix_condition(prefix, context.condition),
        edge: prefix_edge(prefix, context.condition),
        next: prefix_next(prefix, context.next),
    }
}

/// The place of an operand that has one of its own.
pub fn piece_context(piece: PieceKind) -> Context
    ensures { (k : Piece) → piece_kind k ≡ piece → result ≡ spec.piece_context k }
{
    match piece {
        PieceKind::Condition => in_condition(),
        PieceKind::Arm => in_arm(),
        PieceKind::Other => enclosed(),
    }
}

/// Every class.
const EVERY: u32 = 0xff_ffff;

/// The classes with which a trailer begins.
const TRAILERS: u32 = 0x3c_0000;

/// The classes with which an expression begins.
const BEGINNINGS: u32 = 0xf0_cdb8;

/// The classes with which an expression begins, but for the brace of a block.
const VALUES: u32 = 0xb0_cdb8;

/// The brace after which a path would be that of a struct expression.
const BRACE: u32 = 0x80_0000;

/// The classes that would begin the arguments of a type.
const LESSES: u32 = 0x884;

/// The bit of a class.
fn index(next: Next) -> u8
    ensures { result ≡ summaries_spec.index next }
{
    next as u8
}

/// Whether the set has the class.
#[tactic(auto, unfolding(syn_expr_spec::specs::Summaries::has))]
pub fn has(set: u32, next: Next) -> bool
    ensures { result ≡ summaries_spec.has set next }
{
    let index = index(next);
    (set >> index) & 1 == 1
}

/// The operators that a place of the level takes.
#[tactic(auto, unfolding(syn_expr_spec::specs::Summaries::set_of))]
pub fn taken_set(level: Precedence) -> u32
    ensures { result ≡ summaries_spec.set_of (spec.takes_next level) }
{
    match level {
        Precedence::Jump | Precedence::Assign => 0x3_fffe,
        Precedence::Range => 0x3_fff0,
        Precedence::Or => 0x3_ffe0,
        Precedence::And | Precedence::Let => 0x3_ffc0,
        Precedence::Compare => 0x3_ff00,
        Precedence::BitOr => 0x3_fe00,
        Precedence::BitXor => 0x3_fc00,
        Precedence::BitAnd => 0x3_f800,
        Precedence::Shift => 0x3_e000,
        Precedence::Sum => 0x3_8000,
        Precedence::Product => 0x2_0000,
        Precedence::Cast | Precedence::Prefix | Precedence::Unambiguous => 0,
    }
}

/// The classes before which the occupant of a place is in parentheses: every one, where it is `always`.
fn wrapped_set(level: Precedence, x: Summary, always: bool) -> u32
    ensures { result ≡ (if not (takes level x.low) || always then 0xff_ffff else x.ends) }
{
    if !takes(level, x.low) || always {
        EVERY
    } else {
        x.ends
    }
}

/// The set, or every class.
fn widened(set: u32, every: bool) -> u32
    ensures { result ≡ (if every then 0xff_ffff else set) }
{
    if every { EVERY } else { set }
}

/// What the owner of a place must not have after it, by the summary of its occupant: an operator that the place takes, unless
/// a bare range is there, or a trailer that the occupant could carry. The occupant is in parentheses before a class
/// that it must not have after it, and `always` where it does for what it is.
pub fn end_set(level: Precedence, x: Summary, always: bool) -> u32
    ensures { result ≡ summaries_spec.set_of (λ n. summaries_spec.end_by level x n (summaries_spec.wrapped_by level x n || always)) }
{
    let wrapped = wrapped_set(level, x, always);
    let operators = widened(wrapped, !x.range);
    let trailers = widened(wrapped, x.carries);
    (taken_set(level) & operators) | (TRAILERS & trailers)
}

/// What a leaf must not have after it: a path a brace, a jump without a value what begins one, a range without an end what
/// begins one.
#[tactic(auto, unfolding(syn_expr_spec::specs::Summaries::set_of))]
pub fn leaf_ends(kind: LeafKind) -> u32
    ensures { result ≡ summaries_spec.set_of (label.leaf_refuses kind) }
{
    match kind {
        LeafKind::Path => BRACE,
        LeafKind::FullRange | LeafKind::Break => VALUES,
        LeafKind::Jump => BEGINNINGS,
        _ => 0,
    }
}

/// What must not come after a cast, a `<` after a type whose arguments it would begin; or after a range without an
/// end, what begins one.
#[tactic(auto, unfolding(syn_expr_spec::specs::Summaries::set_of))]
pub fn postfix_ends(kind: PostfixKind) -> u32
    ensures { result ≡ summaries_spec.set_of (label.postfix_refuses kind) }
{
    match kind {
        PostfixKind::Cast { ends_open: true } => LESSES,
        PostfixKind::Cast { ends_open: false } => 0,
        PostfixKind::RangeFrom(_) => VALUES,
    }
}

/// The class of a binary operator.
pub fn class_of_binary(op: BinKind) -> Next
    ensures { result ≡ spec.class_of_binary op }
{
    match op {
        BinKind::Add => Next::Plus,
        BinKind::Sub => Next::Minus,
        BinKind::Mul => Next::Star,
        BinKind::Div | BinKind::Rem => Next::Divide,
        BinKind::And => Next::AndAnd,
        BinKind::Or => Next::OrOr,
        BinKind::BitXor => Next::Caret,
        BinKind::BitAnd => Next::And,
        BinKind::BitOr => Next::Or,
        BinKind::Shl => Next::ShiftLeft,
        BinKind::Shr => Next::ShiftRight,
        BinKind::Lt => Next::Less,
        BinKind::Eq | BinKind::Le | BinKind::Ne | BinKind::Ge | BinKind::Gt => Next::Compare,
        BinKind::ShlAssign => Next::ShiftLeftAssign,
        // The other compound assignments.
        _ => Next::Assign,
    }
}

/// The class of an infix operator.
pub fn class_of(op: Infix) -> Next
    ensures { result ≡ spec.class_of op }
{
    match op {
        Infix::Binary(op) => class_of_binary(op),
        Infix::Assign => Next::Assign,
        Infix::Range(_) => Next::Range,
        Infix::Cast => Next::As,
    }
}

/// The level of an operator of the class, none where it is no operator.
pub fn level_of(next: Next) -> Option<Precedence>
    ensures { result ≡ spec.level_of next }
{
    match next {
        Next::Assign | Next::ShiftLeftAssign => Some(Precedence::Assign),
        Next::Range => Some(Precedence::Range),
        Next::OrOr => Some(Precedence::Or),
        Next::AndAnd => Some(Precedence::And),
        Next::Compare | Next::Less => Some(Precedence::Compare),
        Next::Or => Some(Precedence::BitOr),
        Next::Caret => Some(Precedence::BitXor),
        Next::And => Some(Precedence::BitAnd),
        Next::ShiftLeft | Next::ShiftRight => Some(Precedence::Shift),
        Next::Plus | Next::Minus => Some(Precedence::Sum),
        Next::Star | Next::Divide => Some(Precedence::Product),
        Next::As => Some(Precedence::Cast),
        Next::End
        | Next::Dot
        | Next::Question
        | Next::Parenthesis
        | Next::Bracket
        | Next::Block
        | Next::Brace => None,
    }
}

/// Whether a place of the level takes an operator of the class.
pub fn takes_next(level: Precedence, next: Next) -> bool
    ensures { result ≡ spec.takes_next level next }
{
    match level_of(next) {
        Some(operator) => takes(level, operator),
        None => false,
    }
}

/// Whether a trailer begins with a token of the class.
pub fn trails(next: Next) -> bool
    ensures { result ≡ spec.trails next }
{
    matches!(
        next,
        Next::Dot | Next::Question | Next::Parenthesis | Next::Bracket
    )
}

/// Whether an expression begins with a token of the class.
pub fn begins_next(next: Next) -> bool
    ensures { result ≡ spec.begins_next next }
{
    matches!(
        next,
        Next::Range
            | Next::OrOr
            | Next::AndAnd
            | Next::Less
            | Next::Or
            | Next::And
            | Next::ShiftLeft
            | Next::Minus
            | Next::Star
            | Next::Parenthesis
            | Next::Bracket
            | Next::Block
            | Next::Brace
    )
}

/// Whether it is the brace of a block after a condition.
pub fn is_block_next(next: Next) -> bool
    ensures { result ≡ spec.is_block_next next }
{
    matches!(next, Next::Block)
}

/// Whether it is a brace after which a path would be that of a struct expression.
pub fn is_brace_next(next: Next) -> bool
    ensures { result ≡ spec.is_brace_next next }
{
    matches!(next, Next::Brace)
}

/// What it is after the value of a jump, where a brace opens no block.
pub fn without_block(next: Next) -> Next
    ensures { result ≡ spec.without_block next }
{
    match next {
        Next::Block => Next::Brace,
        other => other,
    }
}

/// Whether no end of a range begins with it.
pub fn ends_range_next(next: Next) -> bool
    ensures { result ≡ rule.ends_range_next next }
{
    !begins_next(next) || is_block_next(next)
}

/// Whether it would begin the arguments of a type.
pub fn is_less_next(next: Next) -> bool
    ensures { result ≡ rule.is_less_next next }
{
    matches!(next, Next::Less | Next::ShiftLeft | Next::ShiftLeftAssign)
}

/// The class of a trailer's first token.
pub fn next_of(trailer: TrailerKind) -> Next
    ensures { result ≡ label.next_of trailer }
{
    match trailer {
        TrailerKind::Call => Next::Parenthesis,
        TrailerKind::Index => Next::Bracket,
        TrailerKind::Try => Next::Question,
        TrailerKind::Method | TrailerKind::Field { .. } | TrailerKind::Await => Next::Dot,
    }
}

/// Whether it is left of something at the head of a statement or of a match arm's body.
fn is_below(edge: Edge) -> bool
    ensures { result ≡ rule.is_below edge }
{
    matches!(edge, Edge::BelowArm | Edge::BelowStatement)
}

/// Whether it is left of something at the head of a statement.
fn is_below_statement(edge: Edge) -> bool
    ensures { result ≡ rule.is_below_statement edge }
{
    matches!(edge, Edge::BelowStatement)
}

/// Whether it is first in a statement.
fn is_statement(edge: Edge) -> bool
    ensures { result ≡ rule.is_statement edge }
{
    matches!(edge, Edge::Statement | Edge::BelowStatement)
}

/// Whether no brace may be first there.
fn is_braceless(edge: Edge) -> bool
    ensures { result ≡ rule.is_braceless edge }
{
    matches!(edge, Edge::NoBrace)
}

/// Whether the place may not have what the node is itself: a block-like expression below a head, a block first where no
/// brace may be, a macro with braces below a statement's head, a `let` in a statement, a struct expression in a condition.
pub fn misplaced_by(context: Context, sort: Sort) -> bool
    ensures { result ≡ summaries_spec.misplaced_by context sort }
{
    match sort {
        Sort::Block => is_below(context.edge) || is_braceless(context.edge),
        Sort::BlockLike => is_below(context.edge),
        Sort::BracedMacro => is_below_statement(context.edge),
        Sort::Let => is_statement(context.edge),
        Sort::Struct => context.condition,
        Sort::Other => false,
    }
}

/// Whether the occupant of a place of the level is wrapped for its ends: an operator on its bare left edge is not above the
/// place, or its right end takes what follows.
pub fn wrapped_by(level: Precedence, x: Summary, next: Next) -> bool
    ensures { result ≡ summaries_spec.wrapped_by level x next }
{
    !takes(level, x.low) || has(x.ends, next)
}

/// Whether a left operand is wrapped for its ends: it is a range, a comparison before a comparison, or its right end takes
/// the operator.
pub fn left_wrapped_by(op: Infix, x: Summary) -> bool
    ensures { result ≡ summaries_spec.left_wrapped_by op x }
{
    x.range || x.comparison && is_comparison(op) || has(x.ends, class_of(op))
}

/// Whether a node may be the base of a trailer: a field with a name is not called, since that would call a method.
fn is_base(trailer: TrailerKind, x: Summary) -> bool
    ensures { result ≡ label.is_base trailer x }
{
    x.base && !(trailer.is_call() && x.named_field)
}

/// Whether the base of a trailer is wrapped for its ends: it can't carry the trailer, or its right end takes it.
fn base_wrapped(trailer: TrailerKind, x: Summary) -> bool
    ensures { result ≡ label.base_wrapped_by trailer x }
{
    !is_base(trailer, x) || has(x.ends, next_of(trailer))
}

/// Whether the base of a trailer is wrapped for its ends: it can't carry the trailer, or its right end takes it.
pub fn base_wrapped_by(trailer: TrailerKind, x: Summary) -> bool
    ensures { (k : Trailer) → trailer_kind k ≡ trailer → result ≡ summaries_spec.base_wrapped_by k x }
{
    base_wrapped(trailer, x)
}

/// Whether the occupant of a place of the level is put in parentheses.
pub fn place_by(level: Precedence, context: Context, x: Summary) -> bool
    ensures { result ≡ summaries_spec.place_by level context x }
{
    wrapped_by(level, x, context.next) || misplaced_by(context, x.sort)
}

/// Whether a left operand is put in parentheses.
// Asked of each operation of a tree, so without a call.
#[inline(always)]
pub fn left_by(op: Infix, context: Context, x: Summary) -> bool
    ensures { result ≡ summaries_spec.left_by op context x }
{
    left_wrapped_by(op, x) || misplaced_by(context, x.sort)
}

/// Whether the base of a trailer is put in parentheses.
pub fn base_by(trailer: TrailerKind, context: Context, x: Summary) -> bool
    ensures { (k : Trailer) → trailer_kind k ≡ trailer → result ≡ summaries_spec.base_by k context x }
{
    base_wrapped(trailer, x) || misplaced_by(context, x.sort)
}

/// Whether the value of a `break` without a label begins with one, which would be that of the `break`.
pub(crate) fn takes_label(prefix: PrefixKind, x: Summary) -> bool
    ensures { result ≡ label.takes_label prefix x }
{
    prefix.is_bare_break() && x.labelled
}

/// Whether an operand after its prefix is put in parentheses.
pub fn prefix_by(prefix: PrefixKind, context: Context, x: Summary) -> bool
    ensures { (k : Prefix) → prefix_kind k ≡ prefix → result ≡ summaries_spec.prefix_by k context x }
{
    place_by(prefix.level(), context, x) || takes_label(prefix, x)
}
