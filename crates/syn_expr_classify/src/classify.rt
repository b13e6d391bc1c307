//! Queries about an expression or a type, as callers that print or read what is around it ask them: whether a label is first
//! in an expression, and whether it ends with a group in braces.

ghost use Rattle.std.specs.Prelude.{◌≡◌, false, ◌&&◌, true};
ghost use Rattle.syn_expr_spec.specs.Binding as spec;
ghost use Rattle.syn_expr_spec.specs.Query as query;
ghost use Rattle.syn_lower.specs.View.{type_of, return_of};
ghost use Rattle.syn_expr_classify.specs.Right.{Tells, NodeTells, frame_right};
ghost use Rattle.syn_lower.specs.Ends.{return_depth};
ghost use Rattle.syn_expr_classify.specs.Framed as framed;
ghost use Rattle.syn_expr_ast.specs.Node.{leaf_of, before_of, prefix_of, postfix_of, frame_of};
ghost use Rattle.syn_expr_classify.specs.Node.{verbatim_at, is_labelled, word_behind, is_infixed};
ghost use Rattle.syn_expr_spec.specs.Head.{from_verbatim};
ghost use Rattle.syn_lower_leaves.specs.View.{mapped};
ghost use Rattle.syn_expr_spec.specs.Tree.{outers};
ghost use Rattle.syn_lower_spec.specs.Form.{is_nil};
ghost use Rattle.syn_pat.specs.View.{PatView};
ghost use Rattle.syn_expr_classify.specs.Frames.{frames_hold};

use crate::brace::{
    begins_with_lifetime, ends_with_braces, is_brace, output_brace, path_brace, type_brace,
};
use crate::name::ends_in_name;
use syn_expr_ast::label::{LeafKind, NodeKind, is_block_like};
use syn_expr_ast::node::{Attributes, Closure, Frame, HasKind, HasShape, Leaf, Postfix, Prefix};
use syn_expr_core::expr::Expr;
use syn_expr_spec::kinds::Infix;
use syn_lower::ty::{ReturnType, Type};
use syn_tokens::tree::TokenStream;

/// Whether a match arm with this body needs a comma after it (Rust Reference, "Match expressions"): any does but an `if`, a
/// `match`, a loop and a block that is not `async`, whatever attributes come before it.
pub fn requires_comma_to_be_match_arm<E: HasKind>(expr: &E) -> bool
    ensures { result ≡ spec.requires_comma_to_be_match_arm (E.tree expr.now) }
{
    !is_block_like(expr)
}

/// Whether a statement of this expression needs a semicolon after it (Rust Reference, "Expression statements"): as for a match
/// arm, but a macro that is called with braces needs none.
#[tactic(auto, using(crate::proofs::Labels::likes))]
pub fn requires_semi_to_be_stmt<E: HasKind>(expr: &E) -> bool
    ensures { result ≡ spec.requires_semi_to_be_stmt (E.tree expr.now) }
{
    match expr.kind() {
        NodeKind::Leaf(LeafKind::Macro { braced: true }) => false,
        _ => requires_comma_to_be_match_arm(expr),
    }
}

/// Whether a type ends in a name without arguments (Rust Reference, "Paths in types"): seen through the output of a function
/// pointer or of arguments in parentheses, the last bound of `impl` or `dyn`, and what a pointer or a reference points to.
pub fn trailing_unparameterized_path(ty: &Type) -> bool
    ensures { result ≡ query.trailing_unparameterized_path (type_of ty.now) }
{
    ends_in_name(ty)
}

/// Whether the tokens of an expression begin with a label (Rust Reference, "Loop expressions"), as those of `'a: loop {}` do,
/// and those of `'a: {} + b`. After outer attributes none is first: their `#` is.
pub fn expr_leading_label<E: HasFrames>(expr: &E) -> bool
    ensures { result ≡ query.leading_label (E.tree expr.now) }
{
    begins_with_label(expr, false)
}

/// Whether the tokens of an expression end with a group in braces, as those of `return S {}` and `x as m! {}` do. An `if`
/// always does, whatever comes after its `else`, since a printer puts that into a block.
pub fn expr_trailing_brace<E: HasFrames>(expr: &E) -> bool
    ensures { result ≡ query.trailing_brace (E.tree expr.now) }
{
    node_brace(expr, false)
}

/// What is at the right end.
pub(crate) enum End<'a> {
    /// No type is there: this is the answer.
    Known(bool),
    /// A type, which answers.
    Inside(&'a Type),
}

/// What is at the right end of an output.
pub(crate) fn output_end(output: &ReturnType) -> End<'_>
    ensures name { Tells query.trailing_unparameterized_path result (query.return_unparameterized (return_of output.now)) (return_depth (return_of output.now)) }
    ensures brace { Tells (query.type_brace false) result (query.return_brace (return_of output.now)) (return_depth (return_of output.now)) }
{
    match output {
        ReturnType::Default => End::Known(false),
        ReturnType::Given(_, ty) => End::Inside(ty),
    }
}

impl HasFrames for Expr {
    ghost framed = { framed.tree_framed };
}

/// The verbatim tokens.
fn verbatim(leaf: Leaf<'_>) -> Option<&'_ TokenStream>
    ensures { mapped (λ ts. ts.now) result ≡ from_verbatim (leaf_of leaf.entry) }
{
    match leaf {
        Leaf::Verbatim(tokens) => Some(tokens),
        Leaf::Lit(_)
        | Leaf::Path(_, _)
        | Leaf::Macro(_)
        | Leaf::Infer(_)
        | Leaf::Range(_)
        | Leaf::Jump(_)
        | Leaf::Continue(_, _)
        | Leaf::Block(_, _)
        | Leaf::Loop(_, _, _)
        | Leaf::Unsafe(_, _)
        | Leaf::Const(_, _)
        | Leaf::Async(_, _, _)
        | Leaf::TryBlock(_, _) => None,
    }
}

/// Whether a word comes after the operand with which a node of this kind begins, which of all that may is `as` alone; none
/// where it begins with no operand.
fn word_behind(kind: NodeKind) -> Option<bool>
    ensures { result ≡ word_behind kind }
{
    match kind {
        NodeKind::Infix(op) => Some(op == Infix::Cast),
        NodeKind::Postfix(kind) => Some(kind.is_cast()),
        NodeKind::Tail(_) => Some(false),
        NodeKind::Leaf(_) | NodeKind::Paren | NodeKind::Prefix(_) | NodeKind::Frame(_) => None,
    }
}

/// Whether a node of this kind, which begins with no operand, has a label.
fn is_labelled(kind: NodeKind) -> bool
    ensures { result ≡ is_labelled kind }
{
    match kind {
        NodeKind::Leaf(kind) => kind.is_labelled(),
        NodeKind::Frame(kind) => kind.is_labelled(),
        NodeKind::Paren
        | NodeKind::Prefix(_)
        | NodeKind::Infix(_)
        | NodeKind::Postfix(_)
        | NodeKind::Tail(_) => false,
    }
}

/// The tokens that a node keeps, if it is such.
fn verbatim_tokens<E: HasShape>(expr: &E) -> Option<&TokenStream>
    ensures { mapped (λ ts. ts.now) result ≡ verbatim_at (E.tree expr.now) }
{
    match expr.leaf() {
        Some(leaf) => verbatim(leaf),
        None => None,
    }
}

/// Whether a label is first in an expression; `word`: whether a word comes after it.
#[tactic(auto, using(crate::proofs::Labels::labels, syn_expr_ast::proofs::Sizes::smaller))]
pub(crate) fn begins_with_label<E: HasFrames>(expr: &E, word: bool) -> bool
    ensures { result ≡ query.tree_leads word (E.tree expr.now) }
{
    if !expr.attributes().prints_none_before() {
        return false;
    }
    let kind = expr.kind();
    if let Some(word) = word_behind(kind) {
        return match expr.operands().first() {
            Some(x) => begins_with_label(x, word),
            None => false,
        };
    }
    match verbatim_tokens(expr) {
        Some(tokens) => begins_with_lifetime(tokens, word),
        None => is_labelled(kind),
    }
}

/// What is last in a node.
enum Right {
    /// No operand: whether braces are.
    Known(bool),
    /// An operand; whether braces come before it.
    Operand(bool),
}

/// Whether what holds no expression ends with braces; `before`: whether braces come before it.
fn leaf_brace(leaf: Leaf<'_>, before: bool) -> bool
    ensures { result ≡ query.leaf_brace before (leaf_of leaf.entry) }
{
    match leaf {
        Leaf::Path(qself, path) => path_brace(qself, path, before),
        Leaf::Macro(mac) => is_brace(&mac.delimiter),
        Leaf::Block(_, _)
        | Leaf::Loop(_, _, _)
        | Leaf::Unsafe(_, _)
        | Leaf::Const(_, _)
        | Leaf::Async(_, _, _)
        | Leaf::TryBlock(_, _) => true,
        Leaf::Verbatim(tokens) => ends_with_braces(tokens, before),
        Leaf::Lit(_) | Leaf::Infer(_) | Leaf::Range(_) | Leaf::Jump(_) | Leaf::Continue(_, _) => {
            false
        },
    }
}

/// Whether the head of a closure ends with braces: only its output does.
fn closure_brace<P>(closure: Closure<'_, P>) -> bool
    ensures { result ≡ query.return_brace (return_of closure.entry.output.now) }
{
    output_brace(closure.output)
}

/// Whether braces come before the operand that this has after it: only an output ends with such.
fn prefix_brace<P>(prefix: Prefix<'_, P>) -> bool
    ensures { (pat : P → PatView) → result ≡ query.prefix_brace (prefix_of pat prefix.entry) }
{
    match prefix {
        Prefix::Closure(closure) => closure_brace(closure),
        Prefix::Unary(_)
        | Prefix::Reference(_, _)
        | Prefix::RawAddr(_, _, _)
        | Prefix::Range(_)
        | Prefix::Let(_, _, _) => false,
        Prefix::Jump(_) => false,
    }
}

/// Whether what comes after an operand ends with braces.
fn postfix_brace(postfix: Postfix<'_>) -> bool
    ensures { result ≡ query.postfix_brace (postfix_of postfix.entry) }
{
    match postfix {
        Postfix::Cast(_, ty) => type_brace(ty, false),
        Postfix::Range(_) => false,
    }
}

/// What is last in a frame.
fn frame_right<P>(frame: Frame<'_, P>) -> Right
    ensures { (pat : P → PatView) → result ≡ frame_right (frame_of pat frame.entry) }
{
    match frame {
        Frame::Array(_) | Frame::Tuple(_) | Frame::Repeat(_) | Frame::Group(_) => {
            Right::Known(false)
        }
        Frame::Struct(_, _, _, _)
        | Frame::If(_)
        | Frame::While(_, _)
        | Frame::ForLoop(_, _, _, _)
        | Frame::Match(_, _) => Right::Known(true),
        Frame::Closure(closure) => Right::Operand(closure_brace(closure)),
    }
}

/// Whether a node of this kind is an operator between two operands.
fn is_infixed(kind: NodeKind) -> bool
    ensures { result ≡ is_infixed kind }
{
    matches!(kind, NodeKind::Infix(_))
}

/// Whether braces come before a node, after its attributes: not where any are printed before it.
fn behind(before: bool, attributes: Attributes<'_>) -> bool
    ensures { result ≡ (is_nil (outers (before_of attributes.entry)) && before) }
{
    attributes.prints_none_before() && before
}

/// What is last in a node; `before`: whether braces come before it.
#[tactic(auto, using(crate::proofs::Rights::rights))]
fn node_right<E: HasFrames>(expr: &E, before: bool) -> Right
    ensures { NodeTells result before (E.tree expr.now) }
{
    if let Some(leaf) = expr.leaf() {
        let before = behind(before, expr.attributes());
        return Right::Known(leaf_brace(leaf, before));
    }
    if let Some(prefix) = expr.prefix() {
        return Right::Operand(prefix_brace(prefix));
    }
    if let Some(postfix) = expr.postfix() {
        return Right::Known(postfix_brace(postfix));
    }
    if let Some(frame) = expr.frame() {
        return frame_right(frame);
    }
    if is_infixed(expr.kind()) {
        Right::Operand(false)
    } else {
        Right::Known(false)
    }
}

/// Whether an expression ends with braces; `before`: whether braces come before it.
#[tactic(auto, using(syn_expr_ast::proofs::Sizes::smaller))]
pub(crate) fn node_brace<E: HasFrames>(expr: &E, before: bool) -> bool
    ensures { result ≡ query.tree_brace before (E.tree expr.now) }
{
    match node_right(expr, before) {
        Right::Known(is_brace) => is_brace,
        Right::Operand(before) => match expr.operands().last() {
            Some(x) => node_brace(x, before),
            None => false,
        },
    }
}

/// A type of expressions that can be asked what stands last in them.
pub trait HasFrames: HasShape {
    /// The condition of an `if`, of a loop and of a `match` has its braces after it, and a closure with an output has its
    /// body alone; the attributes of a node are one list.
    ghost framed: { (x : Self) → frames_hold (Self.tree x) ≡ true };
}
