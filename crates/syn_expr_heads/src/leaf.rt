//! What comes before, between and after operands: none of it holds an expression. And the readers of leaves, which are
//! closed at both ends, of what jumps begin with, of what comes before a field's value, and of what comes after the dot of a
//! trailer (Rust Reference, "Expressions", "Struct expressions", "Await expressions", "Method-call expressions", "Field
//! access expressions").

ghost use Rattle.std.specs.Prelude.{◌≡◌, ◌≤◌, drop, take, if◌then◌else◌, Some, None, true, [], IfOk, is_some};
ghost use Rattle.syn_expr_heads.specs.View as leaves;
ghost use Rattle.syn_expr_heads.specs.View.{leaf_of, body_of, ending_of, field_of, trailer_of, turbofish_of, jump_of};
ghost use Rattle.syn_expr_spec.specs.Head as head;
ghost use Rattle.syn_lower.specs.View.{type_of, path_of, qself_or};
ghost use Rattle.syn_lower_leaves.specs.Reads.{Reads};
ghost use Rattle.syn_lower_leaves.specs.View.{mapped, delimiter_of};
ghost use Rattle.syn_tokens.specs.Tok.{weight};
ghost use Rattle.syn_tokens.specs.View.{toks_of};
ghost use Rattle.syn_expr_spec.specs.Slot as slot;
ghost use Rattle.syn_expr_spec.specs.Tree as e;
ghost use Rattle.syn_expr_spec.specs.WellFormed.{attributes_inner};
ghost use Rattle.syn_expr_tokens.specs.View.{member_of};
ghost use Rattle.syn_lower_spec.specs.Part as part;

use crate::block::body;
use crate::word::{
    async_word, await_word, break_word, continue_word, else_word, fat_arrow, loop_word,
    maybe_label, move_word, return_word, try_word, yield_word,
};
use syn_expr_tokens::atom::{
    async_block_at, block_at, builtin_at, const_block_at, jump_at, literal_at, loop_at, method_at,
    range_at, try_block_at,
};
use syn_expr_tokens::limits::{RangeLimits, range_limits};
use syn_expr_tokens::member::Member;
use syn_expr_tokens::modifiers::{ClosureModifiers, Label};
use syn_expr_tokens::op::UnOp;
use syn_expr_tokens::reader::member;
use syn_lexer::front::is_reserved_word;
use syn_lower::grammar::{Grammar, MacroEnd, macro_end};
use syn_lower::mac::Macro;
use syn_lower::path::{AngleBracketedGenericArguments, Path, QSelf};
use syn_lower::readers::ty;
use syn_lower::ty::ReturnType;
use syn_lower_leaves::attr::Attribute;
use syn_lower_leaves::block::Block;
use syn_lower_leaves::front::{
    colon, comma, constant, dots, turbofish_at, underscore, unsafe_word,
};
use syn_lower_leaves::leaf::{block, name, outer_attributes, unsigned};
use syn_lower_leaves::lifetime::Lifetime;
use syn_lower_leaves::lit::Lit;
use syn_lower_leaves::punctuated::Punctuated;
use syn_lower_leaves::readers::maybe_lifetime;
use syn_lower_leaves::ty::{BoundLifetimes, PointerMutability};
use syn_lower_spec::label::PathStyle;
use syn_tokens::Delimiter;
use syn_tokens::buffer::{ParseBuffer, Token};
use syn_tokens::error::{Error, ErrorKind, Expected, Result, Wanted};
use syn_tokens::token::{
    And, Async, Await, Break, Colon, Comma, Const, Continue, DotDot, Else, Eq, FatArrow, For, If,
    In, Let, Loop, Move, Mut, Or, Raw, Return, Try, Underscore, Unsafe, Yield,
};
use syn_tokens::tree::{Ident, TokenStream, TokenTree, copy_trees};

/// Whether the tokens of `builtin`'s special syntax come first: `builtin`, `#`, a name and parentheses.
fn is_builtin(trees: &[TokenTree]) -> bool
    ensures { head.find_builtin (toks_of trees.now) ≡ (if result then Some (take 4 (toks_of trees.now), drop 4 (toks_of trees.now)) else None) }
{
    match trees {
        [TokenTree::Ident(builtin), behind @ ..] if builtin.as_str() == "builtin" => match behind {
            [TokenTree::Punct(pound), after @ ..] if pound.ch == '#' => match after {
                [TokenTree::Ident(name), last @ ..] if !is_reserved_word(name.as_str()) =>
                    match last {
                        [TokenTree::Group(group), ..] => group.delimiter == Delimiter::Parenthesis,
                        _ => false,
                    },
                _ => false,
            },
            _ => false,
        },
        _ => false,
    }
}

/// The refusal of special syntax that lacks its name after `builtin` and `#`, or the parentheses after the name.
fn incomplete_builtin(input: &mut ParseBuffer<'_>) -> Error
    ensures noted { input.new.noted ≡ input.old.noted }
    ensures shrinks { weight input.new.rest ≤ weight input.old.rest }
{
    input.skip(2);
    match name(input) {
        Ok(_) => {
            let parentheses = Wanted::Delimiter(Delimiter::Parenthesis);
            input.error(ErrorKind::ExpectedToken(Expected::One(parentheses)))
        }
        Err(error) => error,
    }
}

/// Reads `builtin`, `#`, a name and parentheses, whose tokens are verbatim. It is refused as `ExpectedToken` where the name or the
/// parentheses are missing.
#[tactic(auto, using(syn_tokens::proofs::Views::views), unfolding(syn_expr_spec::specs::Head::builtin))]
fn builtin(input: &mut ParseBuffer<'_>) -> Result<TokenStream>
    ensures value { Reads (λ s. s) (head.builtin.reads input.old.rest) result input.new.rest }
    ensures noted { input.new.noted ≡ input.old.noted }
    ensures shrinks { weight input.new.rest ≤ weight input.old.rest }
{
    if !is_builtin(input.trees()) {
        return Err(incomplete_builtin(input));
    }
    let mut tokens = copy_trees(input.alloc(), input.trees())?;
    tokens.truncate(4);
    input.skip(4);
    Ok(tokens)
}

/// Reads a loop: a label or none, `loop` and its block.
fn loop_leaf(input: &mut ParseBuffer<'_>) -> Result<LeafHead>
    ensures value { Reads leaf_of (leaves.loop_leaf.reads input.old.rest) result input.new.rest }
    ensures noted { input.new.noted ≡ input.old.noted }
    ensures shrinks { weight input.new.rest ≤ weight input.old.rest }
{
    let label = maybe_label(input)?;
    let Some(loop_token) = loop_word(input) else {
        return Err(input.error(ErrorKind::ExpectedToken(Expected::One(Loop::wanted()))));
    };
    let body = body(input)?;
    Ok(LeafHead::Loop(label, loop_token, body))
}

/// Reads a block: a label or none, and the braces.
fn block_leaf(input: &mut ParseBuffer<'_>) -> Result<LeafHead>
    ensures value { Reads leaf_of (leaves.block_leaf.reads input.old.rest) result input.new.rest }
    ensures noted { input.new.noted ≡ input.old.noted }
    ensures shrinks { weight input.new.rest ≤ weight input.old.rest }
{
    let label = maybe_label(input)?;
    let body = body(input)?;
    Ok(LeafHead::Block(label, body))
}

/// Reads a block after `const`.
fn const_leaf(input: &mut ParseBuffer<'_>) -> Result<LeafHead>
    ensures value { Reads leaf_of (leaves.const_leaf.reads input.old.rest) result input.new.rest }
    ensures noted { input.new.noted ≡ input.old.noted }
    ensures shrinks { weight input.new.rest ≤ weight input.old.rest }
{
    let Some(const_token) = constant(input) else {
        return Err(input.error(ErrorKind::ExpectedToken(Expected::One(Const::wanted()))));
    };
    let body = body(input)?;
    Ok(LeafHead::Const(const_token, body))
}

/// Reads a block after `async`, `move` before it or not.
fn async_leaf(input: &mut ParseBuffer<'_>) -> Result<LeafHead>
    ensures value { Reads leaf_of (leaves.async_leaf.reads input.old.rest) result input.new.rest }
    ensures noted { input.new.noted ≡ input.old.noted }
    ensures shrinks { weight input.new.rest ≤ weight input.old.rest }
{
    let Some(async_token) = async_word(input) else {
        return Err(input.error(ErrorKind::ExpectedToken(Expected::One(Async::wanted()))));
    };
    let capture = move_word(input);
    let block = block(input)?;
    Ok(LeafHead::Async(async_token, capture, block))
}

/// Reads a block after `try`.
fn try_leaf(input: &mut ParseBuffer<'_>) -> Result<LeafHead>
    ensures value { Reads leaf_of (leaves.try_leaf.reads input.old.rest) result input.new.rest }
    ensures noted { input.new.noted ≡ input.old.noted }
    ensures shrinks { weight input.new.rest ≤ weight input.old.rest }
{
    let Some(try_token) = try_word(input) else {
        return Err(input.error(ErrorKind::ExpectedToken(Expected::One(Try::wanted()))));
    };
    let block = block(input)?;
    Ok(LeafHead::TryBlock(try_token, block))
}

/// A path, or the macro that `!` and a group after it make.
pub fn path_or_macro(qself: Option<QSelf>, path: Path, end: Option<MacroEnd>) -> LeafHead
    ensures { leaf_of result ≡ head.to_named ((qself_or type_of qself, path_of type_of path), mapped (λ g. (delimiter_of g.1, g.2)) end) }
{
    let Some((bang_token, delimiter, tokens)) = end else {
        return LeafHead::Path(qself, path);
    };
    LeafHead::Macro(Macro {
        path,
        bang_token,
        delimiter,
        tokens,
    })
}

/// Reads a path, qualified by a type or not, or the call of a macro; none begins in an invisible group (Rust Reference,
/// "Path expressions", "Macro Invocation"). It is refused as `ExpectedPart` of a path where none begins, as `ExpectedPart`
/// of a macro where no group is after the `!` of one, and inside as a type is.
#[tactic(auto)]
pub fn named(input: &mut ParseBuffer<'_>) -> Result<LeafHead>
    ensures value { Reads leaf_of (leaves.named.reads input.old.rest) result input.new.rest }
    ensures noted { input.new.noted ≡ input.old.noted }
    ensures shrinks { weight input.new.rest ≤ weight input.old.rest }
{
    let (qself, path) = Grammar { ty }.qpath(input, PathStyle::Expr)?;
    let end = macro_end(input, &qself, &path)?;
    Ok(path_or_macro(qself, path, end))
}

/// Reads a block after a word, special syntax, a path or a macro.
#[tactic(auto)]
fn word_leaf(input: &mut ParseBuffer<'_>) -> Result<LeafHead>
    ensures value { Reads leaf_of (leaves.word_leaf.reads input.old.rest) result input.new.rest }
    ensures noted { input.new.noted ≡ input.old.noted }
    ensures shrinks { weight input.new.rest ≤ weight input.old.rest }
{
    if const_block_at(input) {
        return const_leaf(input);
    }
    if async_block_at(input) {
        return async_leaf(input);
    }
    if try_block_at(input) {
        return try_leaf(input);
    }
    if builtin_at(input) {
        return Ok(LeafHead::Verbatim(builtin(input)?));
    }
    named(input)
}

/// Reads a loop, a block, or what begins with a word.
fn labelled_leaf(input: &mut ParseBuffer<'_>) -> Result<LeafHead>
    ensures value { Reads leaf_of (leaves.labelled_leaf.reads input.old.rest) result input.new.rest }
    ensures noted { input.new.noted ≡ input.old.noted }
    ensures shrinks { weight input.new.rest ≤ weight input.old.rest }
{
    if loop_at(input) {
        return loop_leaf(input);
    }
    if block_at(input) {
        return block_leaf(input);
    }
    if let Some(unsafe_token) = unsafe_word(input) {
        let body = body(input)?;
        return Ok(LeafHead::Unsafe(unsafe_token, body));
    }
    word_leaf(input)
}

/// Reads a leaf, by what comes first: a literal, `_`, a range without a start and an end, a jump without a value,
/// `continue`, a loop, a block, special syntax, a path or a macro (Rust Reference, "Expressions").
///
/// It is refused as `ExpectedPart` of a path where none of them begins, as `ExpectedPart` of a literal at a token that is
/// no literal's, as `ExpectedPart` of a macro where no group is after the `!` of one, and as `ExpectedToken` where another
/// token is missing.
#[tactic(auto, unfolding(crate::specs::View::leaf_form))]
pub fn leaf(input: &mut ParseBuffer<'_>) -> Result<LeafHead>
    ensures value { Reads leaf_of (leaves.leaf_form.reads input.old.rest) result input.new.rest }
    ensures noted { input.new.noted ≡ input.old.noted }
    ensures shrinks { weight input.new.rest ≤ weight input.old.rest }
{
    if literal_at(input) {
        return Ok(LeafHead::Lit(unsigned(input)?));
    }
    if let Some(underscore_token) = underscore(input) {
        return Ok(LeafHead::Infer(underscore_token));
    }
    if range_at(input) {
        return Ok(LeafHead::FullRange(range_limits(input)?));
    }
    if jump_at(input) {
        return Ok(LeafHead::Jump(jump_head(input)?));
    }
    if let Some(continue_token) = continue_word(input) {
        let label = maybe_lifetime(input)?;
        return Ok(LeafHead::Continue(continue_token, label));
    }
    labelled_leaf(input)
}

/// A block with the inner attributes that come first in its braces.
#[derive(Drop, PartialEq)]
pub struct Body {
    /// The inner attributes.
    pub attrs: Vec<Attribute>,
    /// The braces, and the tokens after the attributes.
    pub block: Block,
}

/// A jump up to the value that may follow it.
#[derive(Debug, Drop, PartialEq)]
pub enum JumpHead {
    /// `return`
    Return(Return),
    /// `yield`
    Yield(Yield),
    /// `break`, and a label or none.
    Break(Break, Option<Lifetime>),
}

/// What is closed at both ends and holds no expression.
#[derive(Drop, PartialEq)]
pub enum LeafHead {
    /// `1`
    Lit(Lit),
    /// `_`
    Infer(Underscore),
    /// A range without a start and an end.
    FullRange(RangeLimits),
    /// A jump without a value.
    Jump(JumpHead),
    /// `continue`, and a label or none.
    Continue(Continue, Option<Lifetime>),
    /// `'a: loop { .. }`
    Loop(Option<Label>, Loop, Body),
    /// `'a: { .. }`
    Block(Option<Label>, Body),
    /// `unsafe { .. }`
    Unsafe(Unsafe, Body),
    /// `const { .. }`
    Const(Const, Body),
    /// `async move { .. }`
    Async(Async, Option<Move>, Block),
    /// `try { .. }`
    TryBlock(Try, Block),
    /// Verbatim tokens.
    Verbatim(TokenStream),
    /// A path, and the type that it is qualified by.
    Path(Option<QSelf>, Path),
    /// `a!(..)`
    Macro(Macro),
}

/// What comes after the dot of a trailer, up to its arguments.
#[derive(Drop, PartialEq)]
pub enum TrailerHead {
    /// `await`
    Await(Await),
    /// `method::<T>`, the name of a method and its arguments in angle brackets.
    Method(Ident, Option<AngleBracketedGenericArguments>),
    /// `field`, `0`
    Field(Member),
}

/// What comes before a field's value in a struct expression.
#[derive(Drop, PartialEq)]
pub enum FieldHead {
    /// `..`
    Rest(DotDot),
    /// `#[a] field:`; without the colon the name says the value.
    Field(Vec<Attribute>, Member, Option<Colon>),
}

/// What comes before the guard or the body of an arm.
#[derive(Drop, PartialEq)]
pub enum ArmHead<P> {
    /// `#[a] pattern if`
    Guard(Vec<Attribute>, P, If),
    /// `#[a] pattern =>`
    Arm(Vec<Attribute>, P, FatArrow),
}

/// What comes before the iterator of a `for` loop.
#[derive(Drop, PartialEq)]
pub struct ForHead<P> {
    /// `for`
    pub for_token: For,
    /// The pattern.
    pub pat: P,
    /// `in`
    pub in_token: In,
}

/// A closure up to its body.
#[derive(Drop, PartialEq)]
pub struct ClosureHead<P> {
    /// `for<'a>`
    pub lifetimes: Option<BoundLifetimes>,
    /// `static` and `use`, each or not.
    pub modifiers: ClosureModifiers,
    /// `const`
    pub constness: Option<Const>,
    /// `async`
    pub asyncness: Option<Async>,
    /// `move`
    pub capture: Option<Move>,
    /// The bar before the arguments.
    pub inputs_begin: Or,
    /// The arguments.
    pub inputs: Punctuated<P, Comma>,
    /// The bar after the arguments.
    pub inputs_end: Or,
    /// `-> T`
    pub output: ReturnType,
}

/// What comes before an operand.
#[derive(Drop, PartialEq)]
pub enum PrefixHead<P> {
    /// `*`, `!` or `-`
    Unary(UnOp),
    /// `&`, and `mut` or not.
    Reference(And, Option<Mut>),
    /// `&raw mut`, `&raw const`
    RawAddr(And, Raw, PointerMutability),
    /// The operator of a range without a start.
    RangeTo(RangeLimits),
    /// `let pattern =`
    Let(Let, P, Eq),
    /// A jump before its value.
    Jump(JumpHead),
    /// A closure before its body.
    Closure(ClosureHead<P>),
}

/// Takes the comma after an element or a field, or none at the end. Another token is refused as `ExpectedToken` of `,`.
pub fn comma_or_end(input: &mut ParseBuffer<'_>) -> Result<Option<Comma>>
    ensures value { Reads ending_of (slot.comma_or_end input.old.rest) result input.new.rest }
    ensures noted { input.new.noted ≡ input.old.noted }
    ensures shrinks { weight input.new.rest ≤ weight input.old.rest }
{
    if let Some(comma) = comma(input) {
        return Ok(Some(comma));
    }
    if input.is_empty() {
        return Ok(None);
    }
    Err(input.error(ErrorKind::ExpectedToken(Expected::One(Comma::wanted()))))
}

/// Takes the comma after the body of an arm; none at the end, and none where the body is like a block (Rust Reference,
/// "Match expressions"). Another token is refused as `ExpectedToken` of `,`.
pub fn behind_arm(input: &mut ParseBuffer<'_>, block_like: bool) -> Result<Option<Comma>>
    ensures value { (x : e.Tree) → e.is_block_like x ≡ block_like → Reads ending_of (slot.behind_arm x input.old.rest) result input.new.rest }
    ensures noted { input.new.noted ≡ input.old.noted }
    ensures shrinks { weight input.new.rest ≤ weight input.old.rest }
{
    if let Some(comma) = comma(input) {
        return Ok(Some(comma));
    }
    if input.is_empty() || block_like {
        return Ok(None);
    }
    Err(input.error(ErrorKind::ExpectedToken(Expected::One(Comma::wanted()))))
}

/// Reads the block after the condition of an `if` (Rust Reference, "`if` expressions"). It is refused as `ExpectedToken` of
/// `{`.
#[tactic(auto, unfolding(syn_expr_spec::specs::Slot::ending_at, syn_lower_spec::specs::Part::block, syn_lower_spec::specs::Part::verbatim))]
pub fn behind_condition(input: &mut ParseBuffer<'_>) -> Result<Block>
    ensures value { (x : e.Tree) → Reads (λ b. e.braced (e.body_of [] b.stmts)) (slot.ending_at e.condition x input.old.rest) result input.new.rest }
    ensures noted { input.new.noted ≡ input.old.noted }
    ensures shrinks { weight input.new.rest ≤ weight input.old.rest }
{
    block(input)
}

/// Reads the block after the condition or the iterator of a loop (Rust Reference, "Loop expressions"). It is refused as
/// `ExpectedToken` of `{`, and of `[` at an inner attribute without brackets.
#[tactic(auto, unfolding(syn_expr_spec::specs::Slot::ending_at, syn_expr_spec::specs::Head::body))]
pub fn behind_loop_head(input: &mut ParseBuffer<'_>) -> Result<Body>
    ensures value { (x : e.Tree) → Reads (λ b. e.braced (body_of b)) (slot.ending_at e.loop_head x input.old.rest) result input.new.rest }
    ensures inner { IfOk result (λ b. attributes_inner (body_of b).inner ≡ true) }
    ensures noted { input.new.noted ≡ input.old.noted }
    ensures shrinks { weight input.new.rest ≤ weight input.old.rest }
{
    body(input)
}

/// Takes `else` (Rust Reference, "`if` expressions"). It is refused as `ExpectedToken` of it.
#[tactic(auto, unfolding(syn_expr_spec::specs::Slot::piece_form))]
pub fn chained(input: &mut ParseBuffer<'_>) -> Result<Else>
    ensures value { Reads (λ _. e.chained) ((slot.piece_form slot.otherwise).reads input.old.rest) result input.new.rest }
    ensures noted { input.new.noted ≡ input.old.noted }
    ensures shrinks { weight input.new.rest ≤ weight input.old.rest }
{
    let Some(else_token) = else_word(input) else {
        return Err(input.error(ErrorKind::ExpectedToken(Expected::One(Else::wanted()))));
    };
    Ok(else_token)
}

/// Takes `=>` after the guard of an arm (Rust Reference, "Match guards"). It is refused as `ExpectedToken` of it.
#[tactic(auto, unfolding(syn_expr_spec::specs::Slot::piece_form))]
pub fn guarded(input: &mut ParseBuffer<'_>) -> Result<FatArrow>
    ensures value { Reads (λ _. e.guarded) ((slot.piece_form slot.bodies).reads input.old.rest) result input.new.rest }
    ensures noted { input.new.noted ≡ input.old.noted }
    ensures shrinks { weight input.new.rest ≤ weight input.old.rest }
{
    let Some(fat_arrow_token) = fat_arrow(input) else {
        return Err(input.error(ErrorKind::ExpectedToken(Expected::One(FatArrow::wanted()))));
    };
    Ok(fat_arrow_token)
}

/// Takes the colon after a member; an index needs it.
fn field_colon(input: &mut ParseBuffer<'_>, member: &Member) -> Result<Option<Colon>>
    ensures value { Reads (λ c. is_some c) ((slot.field_colon (member_of member.now)).reads input.old.rest) result input.new.rest }
    ensures noted { input.new.noted ≡ input.old.noted }
    ensures shrinks { weight input.new.rest ≤ weight input.old.rest }
{
    let colon_token = colon(input);
    match member {
        Member::Named(_) => Ok(colon_token),
        Member::Unnamed(_) => match colon_token {
            Some(colon_token) => Ok(Some(colon_token)),
            None => Err(input.error(ErrorKind::ExpectedToken(Expected::One(Colon::wanted())))),
        },
    }
}

/// Reads `..`, or a field up to its value: attributes, a member, and a colon, which only a name may be without (Rust
/// Reference, "Struct expressions"). A missing member is refused as a member's reader refuses it, a missing colon as
/// `ExpectedToken` of it, and an attribute without brackets as `ExpectedToken` of `[`.
#[tactic(auto, unfolding(syn_expr_spec::specs::Slot::piece_form))]
pub fn field(input: &mut ParseBuffer<'_>) -> Result<FieldHead>
    ensures value { Reads field_of ((slot.piece_form slot.fields).reads input.old.rest) result input.new.rest }
    ensures noted { input.new.noted ≡ input.old.noted }
    ensures shrinks { weight input.new.rest ≤ weight input.old.rest }
{
    if let Some(dot2_token) = dots(input) {
        return Ok(FieldHead::Rest(dot2_token));
    }
    let attrs = outer_attributes(input)?;
    let member = member(input)?;
    let colon_token = field_colon(input, &member)?;
    Ok(FieldHead::Field(attrs, member, colon_token))
}

/// Reads the arguments in angle brackets after a method's name, if they are there.
#[tactic(auto, unfolding(syn_lower_spec::specs::Part::arguments, syn_lower_spec::specs::Part::no_arguments))]
fn turbofish(input: &mut ParseBuffer<'_>) -> Result<Option<AngleBracketedGenericArguments>>
    ensures value { Reads turbofish_of ((part.arguments part.type PathStyle.Expr).reads input.old.rest) result input.new.rest }
    ensures noted { input.new.noted ≡ input.old.noted }
    ensures shrinks { weight input.new.rest ≤ weight input.old.rest }
{
    if turbofish_at(input) {
        Ok(Some(Grammar { ty }.angle(input)?))
    } else {
        Ok(None)
    }
}

/// Reads what comes after a dot: `await`, the name of a method and its arguments in angle brackets, or a member (Rust
/// Reference, "Await expressions", "Method-call expressions", "Field access expressions").
///
/// Where there is none of them it is refused as a member is: as `ExpectedUnsuffixedInteger` at an integer with a suffix, as
/// `IndexOutOfRange` at one that is too large, else as `ExpectedMember`. Inside of angle brackets it is refused as a type is.
#[tactic(auto, unfolding(syn_expr_spec::specs::Head::dotted))]
pub fn dotted(input: &mut ParseBuffer<'_>) -> Result<TrailerHead>
    ensures value { Reads trailer_of (head.dotted.reads input.old.rest) result input.new.rest }
    ensures noted { input.new.noted ≡ input.old.noted }
    ensures shrinks { weight input.new.rest ≤ weight input.old.rest }
{
    if let Some(await_token) = await_word(input) {
        return Ok(TrailerHead::Await(await_token));
    }
    if method_at(input) {
        let method = name(input)?;
        let turbofish = turbofish(input)?;
        return Ok(TrailerHead::Method(method, turbofish));
    }
    Ok(TrailerHead::Field(member(input)?))
}

/// Reads a jump up to its value; a lifetime after `break` is its label (Rust Reference, "Return expressions", "Break
/// expressions"). It is refused as `ExpectedExpression` where there is none of the three words.
#[tactic(auto, unfolding(syn_expr_spec::specs::Head::jump_head))]
pub fn jump_head(input: &mut ParseBuffer<'_>) -> Result<JumpHead>
    ensures value { Reads jump_of (head.jump_head.reads input.old.rest) result input.new.rest }
    ensures noted { input.new.noted ≡ input.old.noted }
    ensures shrinks { weight input.new.rest ≤ weight input.old.rest }
{
    if let Some(return_token) = return_word(input) {
        return Ok(JumpHead::Return(return_token));
    }
    if let Some(yield_token) = yield_word(input) {
        return Ok(JumpHead::Yield(yield_token));
    }
    let Some(break_token) = break_word(input) else {
        return Err(input.error(ErrorKind::ExpectedExpression));
    };
    let label = maybe_lifetime(input)?;
    Ok(JumpHead::Break(break_token, label))
}
