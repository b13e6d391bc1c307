//! What a field, and the structs of kinds, ask of the type of expressions to be read by themselves (Rust Reference,
//! "Expressions", "Struct expressions").

ghost use Rattle.syn_expr_ast.specs.Printed.{ReadsExactly, RefusesOthers};
ghost use Rattle.syn_expr_ast.specs.FieldStands.{FieldStands};
ghost use Rattle.syn_expr_ast.specs.View.{expr_array_of, expr_assign_of, expr_await_of, expr_binary_of, expr_break_of, expr_call_of, expr_cast_of, expr_field_of, expr_if_of, expr_index_of, expr_method_call_of, expr_paren_of, expr_range_of, expr_raw_addr_of, expr_reference_of, expr_repeat_of, expr_return_of, expr_struct_of, expr_try_of, expr_tuple_of, expr_unary_of, expr_while_of, expr_yield_of, field_value_of};
ghost use Rattle.syn_expr_spec.specs.Alone.{Alone, OfKind, ReferenceAlone, StructAlone, behind_attributes, is_array, is_assign, is_await, is_binary, is_break, is_call, is_field, is_index, is_method_call, is_paren, is_raw_addr, is_repeat, is_return, is_try, is_tuple, is_unary, is_while, is_yield};
ghost use Rattle.syn_expr_spec.specs.Stands.{is_if_expr, is_cast, is_range};

use crate::alone::HasExprTree;
use crate::atom::{ExprArrayOf, ExprParenOf, ExprRepeatOf, ExprTupleOf};
use crate::block::{ExprIfOf, ExprWhileOf};
use crate::jump::{ExprBreakOf, ExprReturnOf, ExprYieldOf};
use crate::operation::{
    ExprAssignOf, ExprBinaryOf, ExprCastOf, ExprRangeOf, ExprRawAddrOf, ExprReferenceOf,
    ExprUnaryOf,
};
use crate::structure::{ExprStructOf, FieldValueOf};
use crate::trailer::{
    ExprAwaitOf, ExprCallOf, ExprFieldOf, ExprIndexOf, ExprMethodCallOf, ExprTryOf,
};
use syn_tokens::buffer::{Parse, ParseBuffer};
use syn_tokens::error::{Result, WantedKind};

/// The type of expressions, as what reads a field of a struct expression by itself.
pub trait ParseField: HasExprTree {
    /// Reads a field, without the comma after it. The input stays where it was where it is refused.
    fn parse_field(input: &mut ParseBuffer<'_>) -> Result<FieldValueOf<Self>>
        ensures { ReadsExactly (field_value_of Self.tree) FieldStands input.old result input.new };
}

/// The type of expressions, as what reads those of one kind by themselves. The struct of each kind that holds expressions asks
/// it, and says what is read and as what it is refused.
pub trait ParseKinds: HasExprTree {
    /// Reads an array of its elements, without attributes before it.
    fn parse_expr_array(input: &mut ParseBuffer<'_>) -> Result<ExprArrayOf<Self>>
        ensures { ReadsExactly (expr_array_of Self.tree) (Alone is_array) input.old result input.new };

    /// Reads an expression in parentheses, without attributes before them.
    fn parse_expr_paren(input: &mut ParseBuffer<'_>) -> Result<ExprParenOf<Self>>
        ensures { ReadsExactly (expr_paren_of Self.tree) (Alone is_paren) input.old result input.new };

    /// Reads an array of an element that is repeated, without attributes before it.
    fn parse_expr_repeat(input: &mut ParseBuffer<'_>) -> Result<ExprRepeatOf<Self>>
        ensures { ReadsExactly (expr_repeat_of Self.tree) (Alone is_repeat) input.old result input.new };

    /// Reads an `if` after outer attributes or none, with each `else` that follows.
    fn parse_expr_if(input: &mut ParseBuffer<'_>) -> Result<ExprIfOf<Self>>
        ensures { ReadsExactly (expr_if_of Self.tree) (Alone (behind_attributes is_if_expr)) input.old result input.new };

    /// Reads a `while` after outer attributes and a label, or none.
    fn parse_expr_while(input: &mut ParseBuffer<'_>) -> Result<ExprWhileOf<Self>>
        ensures { ReadsExactly (expr_while_of Self.tree) (Alone (behind_attributes is_while)) input.old result input.new };

    /// Reads `break`, a label or none, and a value where one follows, without attributes before it.
    fn parse_expr_break(input: &mut ParseBuffer<'_>) -> Result<ExprBreakOf<Self>>
        ensures { ReadsExactly (expr_break_of Self.tree) (Alone is_break) input.old result input.new };

    /// Reads `return`, and a value where one follows, without attributes before it.
    fn parse_expr_return(input: &mut ParseBuffer<'_>) -> Result<ExprReturnOf<Self>>
        ensures { ReadsExactly (expr_return_of Self.tree) (Alone is_return) input.old result input.new };

    /// Reads `yield`, and a value where one follows, without attributes before it.
    fn parse_expr_yield(input: &mut ParseBuffer<'_>) -> Result<ExprYieldOf<Self>>
        ensures { ReadsExactly (expr_yield_of Self.tree) (Alone is_yield) input.old result input.new };

    /// Reads `&raw const` or `&raw mut` and the operand, which takes no operator, without attributes before them.
    fn parse_expr_raw_addr(input: &mut ParseBuffer<'_>) -> Result<ExprRawAddrOf<Self>>
        ensures { ReadsExactly (expr_raw_addr_of Self.tree) (Alone is_raw_addr) input.old result input.new };

    /// Reads `&`, `mut` or not, and the operand, which takes no operator, without attributes before them.
    fn parse_expr_reference(input: &mut ParseBuffer<'_>) -> Result<ExprReferenceOf<Self>>
        ensures { ReadsExactly (expr_reference_of Self.tree) ReferenceAlone input.old result input.new };

    /// Reads `*`, `!` or `-` and the operand, which takes no operator, without attributes before them.
    fn parse_expr_unary(input: &mut ParseBuffer<'_>) -> Result<ExprUnaryOf<Self>>
        ensures { ReadsExactly (expr_unary_of Self.tree) (Alone is_unary) input.old result input.new };

    /// Reads a struct expression, without attributes before it.
    fn parse_expr_struct(input: &mut ParseBuffer<'_>) -> Result<ExprStructOf<Self>>
        ensures { ReadsExactly (expr_struct_of Self.tree) StructAlone input.old result input.new };

    /// Reads an expression that is an assignment, with attributes before it or without.
    fn parse_expr_assign(input: &mut ParseBuffer<'_>) -> Result<ExprAssignOf<Self>>
        ensures exact { ReadsExactly (expr_assign_of Self.tree) (OfKind is_assign) input.old result input.new }
        ensures others { RefusesOthers is_assign WantedKind.Assign input.old result };

    /// Reads an expression that is an operation with a binary operator, with attributes before it or without.
    fn parse_expr_binary(input: &mut ParseBuffer<'_>) -> Result<ExprBinaryOf<Self>>
        ensures exact { ReadsExactly (expr_binary_of Self.tree) (OfKind is_binary) input.old result input.new }
        ensures others { RefusesOthers is_binary WantedKind.Binary input.old result };

    /// Reads an expression that is a cast, with attributes before it or without.
    fn parse_expr_cast(input: &mut ParseBuffer<'_>) -> Result<ExprCastOf<Self>>
        ensures exact { ReadsExactly (expr_cast_of Self.tree) (OfKind is_cast) input.old result input.new }
        ensures others { RefusesOthers is_cast WantedKind.Cast input.old result };

    /// Reads an expression that is a range, with attributes before it or without.
    fn parse_expr_range(input: &mut ParseBuffer<'_>) -> Result<ExprRangeOf<Self>>
        ensures exact { ReadsExactly (expr_range_of Self.tree) (OfKind is_range) input.old result input.new }
        ensures others { RefusesOthers is_range WantedKind.Range input.old result };

    /// Reads an expression that is `.await` after an operand, with attributes before it or without.
    fn parse_expr_await(input: &mut ParseBuffer<'_>) -> Result<ExprAwaitOf<Self>>
        ensures exact { ReadsExactly (expr_await_of Self.tree) (OfKind is_await) input.old result input.new }
        ensures others { RefusesOthers is_await WantedKind.Await input.old result };

    /// Reads an expression that is a call, with attributes before it or without.
    fn parse_expr_call(input: &mut ParseBuffer<'_>) -> Result<ExprCallOf<Self>>
        ensures exact { ReadsExactly (expr_call_of Self.tree) (OfKind is_call) input.old result input.new }
        ensures others { RefusesOthers is_call WantedKind.Call input.old result };

    /// Reads an expression that is a field after an operand, with attributes before it or without.
    fn parse_expr_field(input: &mut ParseBuffer<'_>) -> Result<ExprFieldOf<Self>>
        ensures exact { ReadsExactly (expr_field_of Self.tree) (OfKind is_field) input.old result input.new }
        ensures others { RefusesOthers is_field WantedKind.Field input.old result };

    /// Reads an expression that is an index after an operand, with attributes before it or without.
    fn parse_expr_index(input: &mut ParseBuffer<'_>) -> Result<ExprIndexOf<Self>>
        ensures exact { ReadsExactly (expr_index_of Self.tree) (OfKind is_index) input.old result input.new }
        ensures others { RefusesOthers is_index WantedKind.Index input.old result };

    /// Reads an expression that is the call of a method, with attributes before it or without.
    fn parse_expr_method_call(input: &mut ParseBuffer<'_>) -> Result<ExprMethodCallOf<Self>>
        ensures exact { ReadsExactly (expr_method_call_of Self.tree) (OfKind is_method_call) input.old result input.new }
        ensures others { RefusesOthers is_method_call WantedKind.MethodCall input.old result };

    /// Reads an expression that is `?` after an operand, with attributes before it or without.
    fn parse_expr_try(input: &mut ParseBuffer<'_>) -> Result<ExprTryOf<Self>>
        ensures exact { ReadsExactly (expr_try_of Self.tree) (OfKind is_try) input.old result input.new }
        ensures others { RefusesOthers is_try WantedKind.Try input.old result };

    /// Reads an expression that is a tuple, with attributes before it or without.
    fn parse_expr_tuple(input: &mut ParseBuffer<'_>) -> Result<ExprTupleOf<Self>>
        ensures exact { ReadsExactly (expr_tuple_of Self.tree) (OfKind is_tuple) input.old result input.new }
        ensures others { RefusesOthers is_tuple WantedKind.Tuple input.old result };
}

impl<E: ParseField> Parse for FieldValueOf<E> {
    ghost use Rattle.syn_expr_ast.specs.FieldStands.{FieldStands};
    ghost use Rattle.syn_expr_ast.specs.View.{FieldView, field_value_of};

    ghost Seen = { FieldView };

    ghost seen = { field_value_of E.tree };

    /// The field comes before the rest: its attributes, its member, and its value.
    ghost spells = { FieldStands };

    ghost least = { 1 };

    /// Reads a field of a struct expression, without the comma after it: outer attributes, a member, and its value after a
    /// colon, which only a name may be without (Rust Reference, "Struct expressions").
    ///
    /// It is refused, memory aside, only where there is none, and the input then stays where it was: as `ExpectedMember` where
    /// there is no member, as `ExpectedToken` of the colon where an index has none, and as its attributes, its index and its
    /// value are.
    fn parse(input: &mut ParseBuffer<'_>) -> Result<Self>
        ensures { ReadsExactly (field_value_of E.tree) FieldStands input.old result input.new }
    {
        E::parse_field(input)
    }
}
