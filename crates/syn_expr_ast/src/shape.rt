//! What a kind of expressions asks of the type of expressions to be printed by itself (Rust Reference, "Expressions").

ghost use Rattle.std.specs.Prelude.{◌≡◌, ◌++◌, false, map, OnOk};
ghost use Rattle.syn_expr_ast.specs.Attrs.{attrs_of};
ghost use Rattle.syn_expr_ast.specs.Node.{before_of, framed, frame_guards, frame_of, prefix_guards, prefix_of, operand_children, operands_of, operator_of, postfix_of, trailer_of};
ghost use Rattle.syn_expr_ast.specs.Pats.{strays};
ghost use Rattle.syn_expr_ast.specs.Printed.{field_spelled, whole};
ghost use Rattle.syn_expr_ast.specs.View.{boxed, elements, field_value_of, range_between};
ghost use Rattle.syn_expr_spec.specs.Next.{enclosed};
ghost use Rattle.syn_expr_spec.specs.Stands.{is_range_prefix};
ghost use Rattle.syn_expr_spec.specs.Tree as e;
ghost use Rattle.syn_expr_spec.specs.Tree.{attributed_with};
ghost use Rattle.syn_lower.specs.View.{values, trails};
ghost use Rattle.syn_expr_tokens.specs.View.{limits_kind};
ghost use Rattle.syn_tokens.specs.Input.{IsFront};

use crate::node::{Attributes, Frame, HasShape, Operands, Operator, Postfix, Prefix, Trailer};
use crate::put::PutResult;
use crate::structure::FieldValueOf;
use syn_expr_tokens::limits::RangeLimits;
use syn_lower::attr::Attribute;
use syn_lower::punctuated::Punctuated;
use syn_tokens::token::{Bracket, Comma, Paren};
use syn_tokens::tree::TokenStream;

/// The type of expressions, as what puts a node by itself: after its attributes, with the parentheses that it needs inside and
/// no others. Each shape has a call of its own, which borrows the parts of the node.
///
/// An operation that has attributes is in parentheses after them, since they would be those of its first operand. That
/// memory ran out is all that a call is refused for; a part of the tokens may then follow what was there.
pub trait PutShape: HasShape {
    /// Puts parentheses with what is in them.
    fn put_paren(
        tokens: &mut TokenStream,
        attributes: Attributes<'_>,
        paren: &Paren,
        x: &Self,
    ) -> PutResult
        ensures text { OnOk result (tokens.new ≡ tokens.old ++ whole enclosed (attributed_with (before_of attributes.entry) (e.paren false (Self.tree x.now)))) }
        ensures front { IsFront tokens.old tokens.new };

    /// Puts what comes before an operand, and the operand.
    fn put_prefix(
        tokens: &mut TokenStream,
        attributes: Attributes<'_>,
        prefix: Prefix<'_, Self::Pat>,
        x: &Self,
    ) -> PutResult
        requires { is_range_prefix (prefix_of Self.Pat.view prefix) ≡ false }
        ensures text { OnOk result (tokens.new ≡ tokens.old ++ whole enclosed (attributed_with (before_of attributes.entry) (e.prefixed (prefix_of Self.Pat.view prefix.entry) (strays (prefix_guards Self.Pat.view prefix.entry) e.none) (Self.tree x.now)))) }
        ensures front { IsFront tokens.old tokens.new };

    /// Puts two operands with their operator.
    fn put_infix(
        tokens: &mut TokenStream,
        attrs: &Vec<Attribute>,
        x: &Self,
        operator: Operator<'_>,
        y: &Self,
    ) -> PutResult
        ensures text { OnOk result (tokens.new ≡ tokens.old ++ whole enclosed (attributed_with (attrs_of attrs.now) (e.infixed (Self.tree x.now) (operator_of operator.entry) (Self.tree y.now)))) }
        ensures front { IsFront tokens.old tokens.new };

    /// Puts an operand, and what comes after it.
    fn put_postfix(
        tokens: &mut TokenStream,
        attrs: &Vec<Attribute>,
        x: &Self,
        postfix: Postfix<'_>,
    ) -> PutResult
        ensures text { OnOk result (tokens.new ≡ tokens.old ++ whole enclosed (attributed_with (attrs_of attrs.now) (e.postfixed (Self.tree x.now) (postfix_of postfix.entry)))) }
        ensures front { IsFront tokens.old tokens.new };

    /// Puts a range, between the ends that are there.
    fn put_range(
        tokens: &mut TokenStream,
        attrs: &Vec<Attribute>,
        start: &Option<Box<Self>>,
        limits: &RangeLimits,
        end: &Option<Box<Self>>,
    ) -> PutResult
        ensures text { OnOk result (tokens.new ≡ tokens.old ++ whole enclosed (attributed_with (attrs_of attrs.now) (range_between (limits_kind limits.now) (boxed Self.tree start.now) (boxed Self.tree end.now)))) }
        ensures front { IsFront tokens.old tokens.new };

    /// Puts a base, and a trailer that holds no operand.
    fn put_trailed(
        tokens: &mut TokenStream,
        attributes: Attributes<'_>,
        base: &Self,
        trailer: Trailer<'_>,
    ) -> PutResult
        ensures text { OnOk result (tokens.new ≡ tokens.old ++ whole enclosed (attributed_with (before_of attributes.entry) (e.tail (Self.tree base.now) (trailer_of trailer.entry) e.none))) }
        ensures front { IsFront tokens.old tokens.new };

    /// Puts a base, and a trailer that holds arguments.
    fn put_called(
        tokens: &mut TokenStream,
        attributes: Attributes<'_>,
        base: &Box<Self>,
        trailer: Trailer<'_>,
        args: &Punctuated<Self, Comma>,
    ) -> PutResult
        ensures text { OnOk result (tokens.new ≡ tokens.old ++ whole enclosed (attributed_with (before_of attributes.entry) (e.tail (Self.tree base.now.value) (trailer_of trailer.entry) (elements (map Self.tree (values args.now)) (trails args.now))))) }
        ensures front { IsFront tokens.old tokens.new };

    /// Puts what is indexed, and its index in brackets.
    fn put_indexed(
        tokens: &mut TokenStream,
        attributes: Attributes<'_>,
        base: &Self,
        bracket: &Bracket,
        index: &Self,
    ) -> PutResult
        ensures text { OnOk result (tokens.new ≡ tokens.old ++ whole enclosed (attributed_with (before_of attributes.entry) (e.tail (Self.tree base.now) e.index (e.child e.value e.no_ending (Self.tree index.now) e.none)))) }
        ensures front { IsFront tokens.old tokens.new };

    /// Puts what has its operands in places of their own.
    fn put_frame(
        tokens: &mut TokenStream,
        attributes: Attributes<'_>,
        frame: Frame<'_, Self::Pat>,
        operands: Operands<'_, Self, Self::Arm>,
    ) -> PutResult
        requires { operands_of Self.tree Self.Arm.view operands ≡ framed (operand_children (operands_of Self.tree Self.Arm.view operands)) }
        ensures text { OnOk result (tokens.new ≡ tokens.old ++ whole enclosed (attributed_with (before_of attributes.entry) (e.frame (frame_of Self.Pat.view frame.entry) (strays (frame_guards Self.Pat.view frame.entry) (operand_children (operands_of Self.tree Self.Arm.view operands.entry)))))) }
        ensures front { IsFront tokens.old tokens.new };

    /// Puts a field of a struct expression, without a comma after it.
    fn put_field(tokens: &mut TokenStream, field: &FieldValueOf<Self>) -> PutResult
        ensures text { OnOk result (tokens.new ≡ tokens.old ++ field_spelled (field_value_of Self.tree field.now)) }
        ensures front { IsFront tokens.old tokens.new };
}
