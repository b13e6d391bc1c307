//! The readers of expressions of one kind by themselves (Rust Reference, "Expressions"). All read on a fork, so that the input
//! stays where it was where they are refused.
//!
//! What is an operand without trailers is read by the reader of all of these. Where there is none of its kind, the tokens that
//! it begins with say why. What has an operand in front is read as an expression.

ghost use Rattle.std.specs.Prelude.{◌≡◌, Some, IfOk};
ghost use Rattle.syn_expr_core.specs.View.{let_of, match_of, closure_of, for_loop_of, tree_of};
ghost use Rattle.syn_expr_attrs.specs.Behind.{Behind};
ghost use Rattle.syn_expr_ast.specs.Attrs.{attrs_of};
ghost use Rattle.syn_expr_ast.specs.Printed.{ReadsExactly, RefusesOthers};
ghost use Rattle.syn_expr_ast.specs.View.{expr_reference_of, expr_struct_of};
ghost use Rattle.syn_expr_spec.specs.Alone.{Alone, OfKind, behind_attributes, is_closure, is_for_loop, is_let, is_match};
ghost use Rattle.syn_expr_spec.specs.AloneRead.{AreAttributed, AreAtoms, attributed_alone, operand_alone, reference_alone, struct_alone};
ghost use Rattle.syn_lower_leaves.specs.Reads.{Reads};

use crate::expr::{
    Expr, ExprArray, ExprAssign, ExprAwait, ExprBinary, ExprBreak, ExprCall, ExprCast, ExprClosure,
    ExprField, ExprForLoop, ExprIf, ExprIndex, ExprLet, ExprMatch, ExprMethodCall, ExprParen,
    ExprRange, ExprRawAddr, ExprReference, ExprRepeat, ExprReturn, ExprStruct, ExprTry, ExprTuple,
    ExprUnary, ExprWhile, ExprYield,
};
use crate::held::HeldExpr;
use crate::of_kind::{Kind, struct_of};
use crate::parse::{expr_at, refusal};
use std::alloc::AllocError;
use syn_expr_ast::alone::named_refusal;
use syn_expr_ast::parse::ParseKinds;
use syn_expr_attrs::{around, before};
use syn_expr_heads::leaf::comma_or_end;
use syn_expr_heads::word::{async_word, maybe_label, move_word};
use syn_expr_parse::known::{PLAIN, at};
use syn_expr_parse::lists::Lists;
use syn_expr_parse::operands::Grammar;
use syn_expr_spec::kinds::Precedence;
use syn_expr_tokens::op::UnOp;
use syn_lower::attr::Attribute;
use syn_lower::ty::{BoundLifetimes, PointerMutability, Type};
use syn_lower_leaves::front::{and, constant, mutable, word};
use syn_lower_leaves::leaf::outer_attributes;
use syn_lower_spec::label::PathStyle;
use syn_lower_types::types::ReadTypes;
use syn_tokens::buffer::{Parse, ParseBuffer};
use syn_tokens::error::{Error, ErrorKind, Expected, Result, WantedKind};
use syn_tokens::token::{
    And, Break, For, If, Let, Match, Or, Raw, Return, Semi, Static, While, Yield,
};

/// A struct of the operands of one kind, without trailers.
pub(crate) trait Operand: Kind {
    /// Reads the tokens that all of the kind begin with, and is refused where they aren't there. Where another kind begins with
    /// the same tokens, it reads as far as they differ.
    fn begins(input: &mut ParseBuffer<'_>) -> Result<()>;
}

/// A struct of a kind before which attributes are read.
pub(crate) trait Attributed: Operand {
    /// It after these attributes.
    fn behind(self, attrs: Vec<Attribute>) -> std::result::Result<Self, AllocError>
        ensures { IfOk result (λ y. Behind (attrs_of attrs) (Self.tree self) (Self.tree y)) };
}

/// Reads an operand of a kind, without trailers. Where it is refused, tokens may have been passed over.
#[tactic(auto, using(syn_expr_spec::proofs::Alone::operands))]
fn operand_of<S: Operand>(input: &mut ParseBuffer<'_>) -> Result<S>
    ensures value { Reads S.tree (operand_alone S.is input.old.rest) result input.new.rest }
    ensures noted { input.new.noted ≡ input.old.noted }
{
    let other = input.error(ErrorKind::UnexpectedToken);
    let mut first = input.fork()?;
    let x = match (Grammar { expr: expr_at }).atom(input, PLAIN) {
        Ok(x) => x,
        Err(e) => return Err(named_refusal(e, S::begins(&mut first))),
    };
    match struct_of(Box::into_inner(x)) {
        Some(x) => Ok(x),
        None => Err(named_refusal(other, S::begins(&mut first))),
    }
}

/// Reads attributes, and an operand of a kind.
#[tactic(auto, using(syn_expr_ast::proofs::Outers::outers, syn_expr_spec::proofs::Alone::bares), unfolding(syn_expr_spec::specs::AloneRead::attributed_alone, syn_expr_ast::specs::Attrs::attrs_of))]
fn attributed_of<S: Attributed>(input: &mut ParseBuffer<'_>) -> Result<S>
    ensures value { Reads S.tree (attributed_alone (operand_alone S.is) input.old.rest) result input.new.rest }
    ensures noted { input.new.noted ≡ input.old.noted }
{
    let attrs = outer_attributes(input)?;
    let x: S = operand_of(input)?;
    Ok(x.behind(attrs)?)
}

/// Reads an operand of a kind, without attributes before it and without trailers.
#[tactic(auto, using(syn_expr_spec::proofs::Alone::tails))]
pub(crate) fn bare_operand<S: Operand>(input: &mut ParseBuffer<'_>) -> Result<S>
    requires atoms { AreAtoms S.is }
    ensures { ReadsExactly S.tree (Alone S.is) input.old result input.new }
{
    let mut ahead = input.fork()?;
    let x = match operand_of(&mut ahead) {
        Ok(x) => x,
        Err(e) => return Err(e),
    };
    input.advance_to(&ahead);
    Ok(x)
}

/// Reads an operand of a kind, after attributes or none, and without trailers.
#[tactic(auto, using(syn_expr_spec::proofs::Alone::tails))]
pub(crate) fn attributed_operand<S: Attributed>(input: &mut ParseBuffer<'_>) -> Result<S>
    requires atoms { AreAtoms S.is }
    requires attributed { AreAttributed S.is }
    ensures { ReadsExactly S.tree (Alone (behind_attributes S.is)) input.old result input.new }
{
    let mut ahead = input.fork()?;
    let x = match attributed_of(&mut ahead) {
        Ok(x) => x,
        Err(e) => return Err(e),
    };
    input.advance_to(&ahead);
    Ok(x)
}

/// Reads an expression of a kind, out of the invisible groups that it is in. Another is refused over all that was read.
#[tactic(auto, using(crate::proofs::KindRead::others, crate::proofs::KindRead::kinds, crate::proofs::Holds::read_tail))]
fn of_kind<S: Kind>(input: &mut ParseBuffer<'_>, wanted: WantedKind) -> Result<S>
    ensures exact { ReadsExactly S.tree (OfKind S.is) input.old result input.new }
    ensures others { RefusesOthers S.is wanted input.old result }
{
    let mut ahead = input.fork()?;
    let x = match expr_at(&mut ahead, PLAIN) {
        Ok(x) => x,
        Err(e) => return Err(refusal(input, PLAIN, e)),
    };
    match struct_of(Box::into_inner(x).ungrouped()) {
        Some(x) => {
            input.advance_to(&ahead);
            Ok(x)
        }
        None => {
            let all = input.span_until(&ahead);
            Err(Error::new(all, ErrorKind::ExpectedExprKind(wanted)))
        }
    }
}

/// Reads `&`, `mut` or not, and an operand.
#[tactic(auto, unfolding(syn_expr_spec::specs::AloneRead::reference_alone, syn_expr_ast::specs::Attrs::attrs_of))]
fn reference(input: &mut ParseBuffer<'_>) -> Result<ExprReference>
    ensures value { Reads (expr_reference_of tree_of) (reference_alone input.old.rest) result input.new.rest }
    ensures noted { input.new.noted ≡ input.old.noted }
{
    let attrs = Vec::new(input.alloc());
    let Some(and_token) = and(input) else {
        return Err(input.error(ErrorKind::ExpectedToken(Expected::One(And::wanted()))));
    };
    let mutability = mutable(input);
    let expr = expr_at(input, at(PLAIN, Precedence::Prefix))?;
    Ok(ExprReference {
        attrs,
        and_token,
        mutability,
        expr,
    })
}

/// Reads a path and what is in the braces of a struct expression.
#[tactic(auto, unfolding(syn_expr_spec::specs::AloneRead::struct_alone))]
fn structure(input: &mut ParseBuffer<'_>) -> Result<ExprStruct>
    ensures value { Reads (expr_struct_of tree_of) (struct_alone input.old.rest) result input.new.rest }
    ensures noted { input.new.noted ≡ input.old.noted }
{
    let (qself, path) = Type::read_qpath(input, PathStyle::Expr)?;
    (Lists { expr: expr_at }).structure_behind(input, qself, path)
}

/// Reads the first expression in delimiters, and lets it go.
fn first_inside(content: &mut ParseBuffer<'_>) -> Result<()> {
    let _held = HeldExpr::parse(content)?;
    Ok(())
}

impl Operand for ExprArray {
    fn begins(input: &mut ParseBuffer<'_>) -> Result<()> {
        let (_brackets, mut content) = input.parse_brackets()?;
        if !content.is_empty() {
            first_inside(&mut content)?;
            let _comma = comma_or_end(&mut content)?;
        }
        Ok(())
    }
}

impl Operand for ExprBreak {
    fn begins(input: &mut ParseBuffer<'_>) -> Result<()> {
        let _break: Break = input.parse()?;
        Ok(())
    }
}

impl Operand for ExprClosure {
    fn begins(input: &mut ParseBuffer<'_>) -> Result<()> {
        if input.peek::<For>() {
            let _lifetimes: BoundLifetimes = input.parse()?;
        }
        let _const = constant(input);
        let _static: Option<Static> = word(input);
        let _async = async_word(input);
        let _move = move_word(input);
        let _bar: Or = input.parse()?;
        Ok(())
    }
}

impl Operand for ExprForLoop {
    fn begins(input: &mut ParseBuffer<'_>) -> Result<()> {
        let _label = maybe_label(input)?;
        let _for: For = input.parse()?;
        Ok(())
    }
}

impl Operand for ExprIf {
    fn begins(input: &mut ParseBuffer<'_>) -> Result<()> {
        let _if: If = input.parse()?;
        Ok(())
    }
}

impl Operand for ExprLet {
    fn begins(input: &mut ParseBuffer<'_>) -> Result<()> {
        let _let: Let = input.parse()?;
        Ok(())
    }
}

impl Operand for ExprMatch {
    fn begins(input: &mut ParseBuffer<'_>) -> Result<()> {
        let _match: Match = input.parse()?;
        Ok(())
    }
}

impl Operand for ExprParen {
    fn begins(input: &mut ParseBuffer<'_>) -> Result<()> {
        let (_parentheses, mut content) = input.parse_parens()?;
        first_inside(&mut content)?;
        if !content.is_empty() {
            return Err(content.error(ErrorKind::UnexpectedToken));
        }
        Ok(())
    }
}

impl Operand for ExprRawAddr {
    fn begins(input: &mut ParseBuffer<'_>) -> Result<()> {
        let _and: And = input.parse()?;
        let _raw: Raw = input.parse()?;
        let _mutability: PointerMutability = input.parse()?;
        Ok(())
    }
}

impl Operand for ExprRepeat {
    fn begins(input: &mut ParseBuffer<'_>) -> Result<()> {
        let (_brackets, mut content) = input.parse_brackets()?;
        first_inside(&mut content)?;
        let _semi: Semi = content.parse()?;
        Ok(())
    }
}

impl Operand for ExprReturn {
    fn begins(input: &mut ParseBuffer<'_>) -> Result<()> {
        let _return: Return = input.parse()?;
        Ok(())
    }
}

impl Operand for ExprUnary {
    fn begins(input: &mut ParseBuffer<'_>) -> Result<()> {
        let _op: UnOp = input.parse()?;
        Ok(())
    }
}

impl Operand for ExprWhile {
    fn begins(input: &mut ParseBuffer<'_>) -> Result<()> {
        let _label = maybe_label(input)?;
        let _while: While = input.parse()?;
        Ok(())
    }
}

impl Operand for ExprYield {
    fn begins(input: &mut ParseBuffer<'_>) -> Result<()> {
        let _yield: Yield = input.parse()?;
        Ok(())
    }
}

impl Attributed for ExprForLoop {
    fn behind(self, attrs: Vec<Attribute>) -> std::result::Result<Self, AllocError> {
        ExprForLoop::behind_more(self, attrs)
    }
}

impl Attributed for ExprIf {
    fn behind(self, attrs: Vec<Attribute>) -> std::result::Result<Self, AllocError> {
        before::if_expr(self, attrs)
    }
}

impl Attributed for ExprMatch {
    fn behind(self, attrs: Vec<Attribute>) -> std::result::Result<Self, AllocError> {
        ExprMatch::behind_more(self, attrs)
    }
}

impl Attributed for ExprWhile {
    fn behind(self, attrs: Vec<Attribute>) -> std::result::Result<Self, AllocError> {
        around::while_expr(self, attrs)
    }
}

#[tactic(auto, using(syn_expr_spec::proofs::Alone::atoms, syn_expr_spec::proofs::Alone::attributed, syn_expr_spec::proofs::Alone::tails))]
impl ParseKinds for Expr {
    fn parse_expr_array(input: &mut ParseBuffer<'_>) -> Result<ExprArray> {
        bare_operand(input)
    }

    fn parse_expr_paren(input: &mut ParseBuffer<'_>) -> Result<ExprParen> {
        bare_operand(input)
    }

    fn parse_expr_repeat(input: &mut ParseBuffer<'_>) -> Result<ExprRepeat> {
        bare_operand(input)
    }

    fn parse_expr_if(input: &mut ParseBuffer<'_>) -> Result<ExprIf> {
        attributed_operand(input)
    }

    fn parse_expr_while(input: &mut ParseBuffer<'_>) -> Result<ExprWhile> {
        attributed_operand(input)
    }

    fn parse_expr_break(input: &mut ParseBuffer<'_>) -> Result<ExprBreak> {
        bare_operand(input)
    }

    fn parse_expr_return(input: &mut ParseBuffer<'_>) -> Result<ExprReturn> {
        bare_operand(input)
    }

    fn parse_expr_yield(input: &mut ParseBuffer<'_>) -> Result<ExprYield> {
        bare_operand(input)
    }

    fn parse_expr_raw_addr(input: &mut ParseBuffer<'_>) -> Result<ExprRawAddr> {
        bare_operand(input)
    }

    fn parse_expr_reference(input: &mut ParseBuffer<'_>) -> Result<ExprReference> {
        let mut ahead = input.fork()?;
        let x = match reference(&mut ahead) {
            Ok(x) => x,
            Err(e) => return Err(e),
        };
        input.advance_to(&ahead);
        Ok(x)
    }

    fn parse_expr_unary(input: &mut ParseBuffer<'_>) -> Result<ExprUnary> {
        bare_operand(input)
    }

    fn parse_expr_struct(input: &mut ParseBuffer<'_>) -> Result<ExprStruct> {
        let mut ahead = input.fork()?;
        let x = match structure(&mut ahead) {
            Ok(x) => x,
            Err(e) => return Err(e),
        };
        input.advance_to(&ahead);
        Ok(x)
    }

    fn parse_expr_assign(input: &mut ParseBuffer<'_>) -> Result<ExprAssign> {
        of_kind(input, WantedKind::Assign)
    }

    fn parse_expr_binary(input: &mut ParseBuffer<'_>) -> Result<ExprBinary> {
        of_kind(input, WantedKind::Binary)
    }

    fn parse_expr_cast(input: &mut ParseBuffer<'_>) -> Result<ExprCast> {
        of_kind(input, WantedKind::Cast)
    }

    fn parse_expr_range(input: &mut ParseBuffer<'_>) -> Result<ExprRange> {
        of_kind(input, WantedKind::Range)
    }

    fn parse_expr_await(input: &mut ParseBuffer<'_>) -> Result<ExprAwait> {
        of_kind(input, WantedKind::Await)
    }

    fn parse_expr_call(input: &mut ParseBuffer<'_>) -> Result<ExprCall> {
        of_kind(input, WantedKind::Call)
    }

    fn parse_expr_field(input: &mut ParseBuffer<'_>) -> Result<ExprField> {
        of_kind(input, WantedKind::Field)
    }

    fn parse_expr_index(input: &mut ParseBuffer<'_>) -> Result<ExprIndex> {
        of_kind(input, WantedKind::Index)
    }

    fn parse_expr_method_call(input: &mut ParseBuffer<'_>) -> Result<ExprMethodCall> {
        of_kind(input, WantedKind::MethodCall)
    }

    fn parse_expr_try(input: &mut ParseBuffer<'_>) -> Result<ExprTry> {
        of_kind(input, WantedKind::Try)
    }

    fn parse_expr_tuple(input: &mut ParseBuffer<'_>) -> Result<ExprTuple> {
        of_kind(input, WantedKind::Tuple)
    }
}

#[tactic(auto, using(syn_expr_spec::proofs::Alone::atoms, syn_expr_spec::proofs::Alone::attributed))]
impl Parse for ExprClosure {
    ghost use Rattle.syn_expr_core.specs.View.{closure_of};
    ghost use Rattle.syn_expr_spec.specs.Alone.{Alone, is_closure};
    ghost use Rattle.syn_expr_spec.specs.Tree.{Tree};

    ghost Seen = { Tree };

    ghost seen = { closure_of };

    /// A closure comes before the rest.
    ghost spells = { Alone is_closure };

    ghost least = { 1 };

    /// Reads a closure, without attributes before it (Rust Reference, "Closure expressions").
    ///
    /// It is refused, memory aside, only where there is none, and the input then stays where it was: as `ExpectedToken`
    /// of `|` or of a block after an output, and as its parts are.
    fn parse(input: &mut ParseBuffer<'_>) -> Result<Self>
        ensures { ReadsExactly closure_of (Alone is_closure) input.old result input.new }
    {
        bare_operand(input)
    }
}

#[tactic(auto, using(syn_expr_spec::proofs::Alone::atoms, syn_expr_spec::proofs::Alone::attributed))]
impl Parse for ExprForLoop {
    ghost use Rattle.syn_expr_core.specs.View.{for_loop_of};
    ghost use Rattle.syn_expr_spec.specs.Alone.{Alone, behind_attributes, is_for_loop};
    ghost use Rattle.syn_expr_spec.specs.Tree.{Tree};

    ghost Seen = { Tree };

    ghost seen = { for_loop_of };

    /// A `for` comes before the rest, after attributes and a label or none.
    ghost spells = { Alone (behind_attributes is_for_loop) };

    ghost least = { 1 };

    /// Reads a `for` after outer attributes and a label, or none (Rust Reference, "Iterator loops"). Inner attributes
    /// come first in its braces.
    ///
    /// It is refused, memory aside, only where there is none, and the input then stays where it was: as its attributes
    /// and its label are, as `ExpectedToken` of `for`, `in` or `{`, and as its pattern and what gives the values are.
    fn parse(input: &mut ParseBuffer<'_>) -> Result<Self>
        ensures { ReadsExactly for_loop_of (Alone (behind_attributes is_for_loop)) input.old result input.new }
    {
        attributed_operand(input)
    }
}

#[tactic(auto, using(syn_expr_spec::proofs::Alone::atoms, syn_expr_spec::proofs::Alone::attributed))]
impl Parse for ExprLet {
    ghost use Rattle.syn_expr_core.specs.View.{let_of};
    ghost use Rattle.syn_expr_spec.specs.Alone.{Alone, is_let};
    ghost use Rattle.syn_expr_spec.specs.Tree.{Tree};

    ghost Seen = { Tree };

    ghost seen = { let_of };

    /// `let`, a pattern, `=` and an operand come before the rest.
    ghost spells = { Alone is_let };

    ghost least = { 1 };

    /// Reads `let`, a pattern, `=` and what is to match it, without attributes before it (Rust Reference, "`if let`
    /// patterns"). This takes the operators that bind tighter than `&&`.
    ///
    /// It is refused, memory aside, only where there is none, and the input then stays where it was: as `ExpectedToken`
    /// of `let` or of `=`, and as the pattern and the operand are.
    fn parse(input: &mut ParseBuffer<'_>) -> Result<Self>
        ensures { ReadsExactly let_of (Alone is_let) input.old result input.new }
    {
        bare_operand(input)
    }
}

#[tactic(auto, using(syn_expr_spec::proofs::Alone::atoms, syn_expr_spec::proofs::Alone::attributed))]
impl Parse for ExprMatch {
    ghost use Rattle.syn_expr_core.specs.View.{match_of};
    ghost use Rattle.syn_expr_spec.specs.Alone.{Alone, behind_attributes, is_match};
    ghost use Rattle.syn_expr_spec.specs.Tree.{Tree};

    ghost Seen = { Tree };

    ghost seen = { match_of };

    /// A `match` comes before the rest, after attributes or none.
    ghost spells = { Alone (behind_attributes is_match) };

    ghost least = { 1 };

    /// Reads a `match` after outer attributes or none (Rust Reference, "`match` expressions"). Inner attributes are
    /// first in its braces.
    ///
    /// It is refused, memory aside, only where there is none, and the input then stays where it was: as its attributes
    /// are, as `ExpectedToken` of `match` or of `{`, and as what it looks at and its arms are.
    fn parse(input: &mut ParseBuffer<'_>) -> Result<Self>
        ensures { ReadsExactly match_of (Alone (behind_attributes is_match)) input.old result input.new }
    {
        attributed_operand(input)
    }
}
