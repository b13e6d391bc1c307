//! Nodes with their operands at their ends, operations after their attributes, and ranges without any operand (Rust
//! Reference, "Operator expressions", "Grouped expressions", "Range expressions").

ghost use Rattle.std.specs.Prelude.{◌≡◌, ◌++◌, false, OnOk, true};
ghost use Rattle.syn_expr_ast.specs.Attrs.{attrs_of};
ghost use Rattle.syn_expr_ast.specs.Node.{before_of, prefix_guards, prefix_of, operator_of, postfix_of};
ghost use Rattle.syn_expr_ast.specs.Pats.{strays};
ghost use Rattle.syn_expr_ast.specs.View.{boxed, range_between};
ghost use Rattle.syn_expr_ast.specs.Label.{prefix_kind};
ghost use Rattle.syn_expr_ast.specs.Printed.{whole};
ghost use Rattle.syn_expr_print.specs.Printing.{spelled};
ghost use Rattle.syn_expr_spec.specs.Next as next;
ghost use Rattle.syn_expr_spec.specs.Stands.{is_range_prefix};
ghost use Rattle.syn_expr_spec.specs.Tree as e;
ghost use Rattle.syn_expr_spec.specs.Tree.{attributed_with, postfix_op, Tree};
ghost use Rattle.syn_expr_tokens.specs.View.{limits_kind};
ghost use Rattle.syn_tokens.specs.Input.{IsFront};
ghost use Rattle.syn_expr_spec.specs.Rule.{is_operation};

use crate::operand::{behind_prefix, left_of, right_of};
use crate::print::{HasPrinter, node, print_in};
use crate::put::frame::{put_operator, put_postfix};
use crate::put::prefix::{PutPat, put_prefix};
use crate::single::summarized::{summarize_one, summarize_two};
use syn_expr_ast::attrs::put_attributes;
use syn_expr_ast::label::PrefixKind;
use syn_expr_ast::node::{Attributes, Jump, Leaf, Operator, Postfix, Prefix, put_leaf};
use syn_expr_ast::put::{PutResult, put_paren, put_parens, put_result};
use syn_expr_fixup::context::enclosed;
use syn_expr_spec::kinds::Infix;
use syn_expr_tokens::limits::RangeLimits;
use syn_lower::attr::Attribute;
use syn_pat::kinds::HasPatTree;
use syn_tokens::token::Paren;
use syn_tokens::tree::TokenStream;

// ---- what is no operation

/// Prints parentheses with what is in them.
#[tactic(auto, using(syn_tokens::proofs::Fronts::fronts, crate::proofs::Shapes::parens))]
fn bare_paren<E: HasPrinter>(tokens: &mut TokenStream, paren: &Paren, x: &E) -> PutResult
    ensures text { OnOk result (tokens.new ≡ tokens.old ++ spelled next.enclosed (e.paren false (E.tree x.now))) }
    ensures front { IsFront tokens.old tokens.new }
{
    let mut content = TokenStream::new(tokens.alloc());
    print_in(&mut content, x, enclosed())?;
    put_paren(tokens, paren, content)
}

/// Prints parentheses with what is in them, after their attributes.
///
/// Memory may run out, here and in all that prints a node by its shape; a part of the tokens may then follow what was there.
#[tactic(auto, using(syn_tokens::proofs::Fronts::fronts))]
pub fn paren<E: HasPrinter>(
    tokens: &mut TokenStream,
    attributes: Attributes<'_>,
    paren: &Paren,
    x: &E,
) -> PutResult
    ensures text { OnOk result (tokens.new ≡ tokens.old ++ whole next.enclosed (attributed_with (before_of attributes.entry) (e.paren false (E.tree x.now)))) }
    ensures front { IsFront tokens.old tokens.new }
{
    put_attributes(tokens, attributes)?;
    bare_paren(tokens, paren, x)?;
    Ok(())
}

/// The kind of what comes before an operand.
fn prefix_kind<P: HasPatTree>(prefix: Prefix<'_, P>) -> PrefixKind
    ensures { result ≡ prefix_kind (prefix_of P.view prefix.entry) }
{
    match prefix {
        Prefix::Unary(_) | Prefix::Reference(_, _) | Prefix::RawAddr(_, _, _) =>
            PrefixKind::Operator,
        Prefix::Range(limits) => PrefixKind::RangeTo(limits.kind()),
        Prefix::Let(_, _, _) => PrefixKind::Let,
        Prefix::Jump(Jump::Return(_)) => PrefixKind::Jump,
        Prefix::Jump(Jump::Yield(_)) => PrefixKind::Jump,
        Prefix::Jump(Jump::Break(_, label)) => PrefixKind::Break {
            labelled: label.is_some(),
        },
        Prefix::Closure(_) => PrefixKind::Closure,
    }
}

/// Prints a prefix and the operand after it.
#[tactic(auto, using(syn_tokens::proofs::Fronts::fronts, crate::proofs::Shapes::prefixes))]
fn prefixed_parts<E: HasPrinter, P: PutPat>(
    tokens: &mut TokenStream,
    prefix: Prefix<'_, P>,
    x: &E,
) -> PutResult
    ensures text { OnOk result (tokens.new ≡ tokens.old ++ spelled next.enclosed (e.prefixed (prefix_of P.view prefix.entry) (strays (prefix_guards P.view prefix.entry) e.none) (E.tree x.now))) }
    ensures front { IsFront tokens.old tokens.new }
{
    let kind = prefix_kind(prefix);
    put_prefix(tokens, prefix)?;
    let mut summaries = summarize_one(tokens, x)?;
    behind_prefix(&node::<E>, tokens, &mut summaries, x, kind, enclosed())
}

/// Prints a node that ends with its operand, after its attributes and what comes before the operand.
#[tactic(auto, using(syn_tokens::proofs::Fronts::fronts))]
pub fn prefixed<E: HasPrinter, P: PutPat>(
    tokens: &mut TokenStream,
    attributes: Attributes<'_>,
    prefix: Prefix<'_, P>,
    x: &E,
) -> PutResult
    requires { is_range_prefix (prefix_of P.view prefix) ≡ false }
    ensures text { OnOk result (tokens.new ≡ tokens.old ++ whole next.enclosed (attributed_with (before_of attributes.entry) (e.prefixed (prefix_of P.view prefix.entry) (strays (prefix_guards P.view prefix.entry) e.none) (E.tree x.now)))) }
    ensures front { IsFront tokens.old tokens.new }
{
    put_attributes(tokens, attributes)?;
    prefixed_parts(tokens, prefix, x)?;
    Ok(())
}

// ---- operations

/// The operator of what is borrowed.
fn infix(operator: Operator<'_>) -> Infix
    ensures { result ≡ operator_of operator.entry }
{
    match operator {
        Operator::Binary(op) => Infix::Binary(op.kind()),
        Operator::Assign(_) => Infix::Assign,
        Operator::Range(limits) => Infix::Range(limits.kind()),
    }
}

/// Prints two operands with their operator.
#[tactic(auto, using(syn_tokens::proofs::Fronts::fronts, crate::proofs::Stacks::takes, crate::proofs::Shapes::infixes))]
fn between<E: HasPrinter>(
    tokens: &mut TokenStream,
    x: &E,
    operator: Operator<'_>,
    y: &E,
) -> PutResult
    ensures text { OnOk result (tokens.new ≡ tokens.old ++ spelled next.enclosed (e.infixed (E.tree x.now) (operator_of operator.entry) (E.tree y.now))) }
    ensures front { IsFront tokens.old tokens.new }
{
    let op = infix(operator);
    let mut sign = TokenStream::new(tokens.alloc());
    put_operator(&mut sign, operator)?;
    let mut summaries = summarize_two(tokens, x, y)?;
    left_of(&node::<E>, tokens, &mut summaries, x, op, enclosed())?;
    put_result(tokens.append(sign))?;
    right_of(&node::<E>, tokens, &mut summaries, y, op, enclosed())
}

/// Prints an operation of two operands, after its attributes in parentheses.
#[tactic(auto, using(syn_tokens::proofs::Fronts::fronts))]
pub fn infixed<E: HasPrinter>(
    tokens: &mut TokenStream,
    attrs: &Vec<Attribute>,
    x: &E,
    operator: Operator<'_>,
    y: &E,
) -> PutResult
    ensures text { OnOk result (tokens.new ≡ tokens.old ++ whole next.enclosed (attributed_with (attrs_of attrs.now) (e.infixed (E.tree x.now) (operator_of operator.entry) (E.tree y.now)))) }
    ensures front { IsFront tokens.old tokens.new }
{
    let mut printed = TokenStream::new(tokens.alloc());
    between(&mut printed, x, operator, y)?;
    operation(tokens, attrs, printed)
}

/// The operator that comes after an operand.
fn postfix_op(postfix: Postfix<'_>) -> Infix
    ensures { result ≡ postfix_op (postfix_of postfix.entry) }
{
    match postfix {
        Postfix::Cast(_, _) => Infix::Cast,
        Postfix::Range(limits) => Infix::Range(limits.kind()),
    }
}

/// Prints an operand, and what comes after it.
#[tactic(auto, using(syn_tokens::proofs::Fronts::fronts, crate::proofs::Shapes::postfixes))]
fn posted<E: HasPrinter>(tokens: &mut TokenStream, x: &E, postfix: Postfix<'_>) -> PutResult
    ensures text { OnOk result (tokens.new ≡ tokens.old ++ spelled next.enclosed (e.postfixed (E.tree x.now) (postfix_of postfix.entry))) }
    ensures front { IsFront tokens.old tokens.new }
{
    let op = postfix_op(postfix);
    let mut end = TokenStream::new(tokens.alloc());
    put_postfix(&mut end, postfix)?;
    let mut summaries = summarize_one(tokens, x)?;
    left_of(&node::<E>, tokens, &mut summaries, x, op, enclosed())?;
    put_result(tokens.append(end))?;
    Ok(())
}

/// Prints a node that begins with its operand, after its attributes in parentheses.
#[tactic(auto, using(syn_tokens::proofs::Fronts::fronts))]
pub fn postfixed<E: HasPrinter>(
    tokens: &mut TokenStream,
    attrs: &Vec<Attribute>,
    x: &E,
    postfix: Postfix<'_>,
) -> PutResult
    ensures text { OnOk result (tokens.new ≡ tokens.old ++ whole next.enclosed (attributed_with (attrs_of attrs.now) (e.postfixed (E.tree x.now) (postfix_of postfix.entry)))) }
    ensures front { IsFront tokens.old tokens.new }
{
    let mut printed = TokenStream::new(tokens.alloc());
    posted(&mut printed, x, postfix)?;
    operation(tokens, attrs, printed)
}

/// Prints a range without a start, after its attributes in parentheses.
#[tactic(auto, using(syn_tokens::proofs::Fronts::fronts))]
fn range_to<E: HasPrinter>(
    tokens: &mut TokenStream,
    attrs: &Vec<Attribute>,
    limits: &RangeLimits,
    y: &E,
) -> PutResult
    ensures text { OnOk result (tokens.new ≡ tokens.old ++ whole next.enclosed (attributed_with (attrs_of attrs.now) (e.prefixed (e.range_to (limits_kind limits.now)) e.none (E.tree y.now)))) }
    ensures front { IsFront tokens.old tokens.new }
{
    let mut printed = TokenStream::new(tokens.alloc());
    prefixed_parts::<E, E::Pat>(&mut printed, Prefix::Range(limits), y)?;
    operation(tokens, attrs, printed)
}

/// Prints a range without a start and an end, after its attributes in parentheses.
#[tactic(auto, using(syn_tokens::proofs::Fronts::fronts, crate::proofs::Shapes::ranges))]
fn full_range(tokens: &mut TokenStream, attrs: &Vec<Attribute>, limits: &RangeLimits) -> PutResult
    ensures text { OnOk result (tokens.new ≡ tokens.old ++ whole next.enclosed (attributed_with (attrs_of attrs.now) (e.leaf (e.full_range (limits_kind limits.now))))) }
    ensures front { IsFront tokens.old tokens.new }
{
    let mut printed = TokenStream::new(tokens.alloc());
    put_leaf(&mut printed, Leaf::Range(limits))?;
    operation(tokens, attrs, printed)
}

/// Prints a range between the ends that are there, after its attributes in parentheses.
#[tactic(auto, using(syn_tokens::proofs::Fronts::fronts))]
pub fn range<E: HasPrinter>(
    tokens: &mut TokenStream,
    attrs: &Vec<Attribute>,
    start: &Option<Box<E>>,
    limits: &RangeLimits,
    end: &Option<Box<E>>,
) -> PutResult
    ensures text { OnOk result (tokens.new ≡ tokens.old ++ whole next.enclosed (attributed_with (attrs_of attrs.now) (range_between (limits_kind limits.now) (boxed E.tree start.now) (boxed E.tree end.now)))) }
    ensures front { IsFront tokens.old tokens.new }
{
    match (start, end) {
        (None, None) => full_range(tokens, attrs, limits),
        (None, Some(y)) => range_to::<E>(tokens, attrs, limits, y),
        (Some(x), None) => postfixed::<E>(tokens, attrs, x, Postfix::Range(limits)),
        (Some(x), Some(y)) => infixed::<E>(tokens, attrs, x, Operator::Range(limits), y),
    }
}

/// Puts attributes, and after them what was printed of an operation: in parentheses, unless there are no attributes. Without
/// these the attributes would be those of its first operand (Rust Reference, "Expression attributes").
///
/// Memory may run out; a part of the tokens may then follow what was there.
#[tactic(auto, using(syn_tokens::proofs::Fronts::fronts, crate::proofs::Attributing::operations))]
pub fn operation(
    tokens: &mut TokenStream,
    attrs: &Vec<Attribute>,
    printed: TokenStream,
) -> PutResult
    ensures text { (t : Tree) → is_operation t ≡ true → printed ≡ spelled next.enclosed t → OnOk result (tokens.new ≡ tokens.old ++ whole next.enclosed (attributed_with (attrs_of attrs.now) t)) }
    ensures front { IsFront tokens.old tokens.new }
{
    let attributes = Attributes::Before(attrs);
    if attributes.has_none_before() {
        put_result(tokens.append(printed))
    } else {
        put_attributes(tokens, attributes)?;
        put_parens(tokens, printed)
    }
}
