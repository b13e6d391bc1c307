//! Operators and their operands.
#![tactic(auto, using(crate::proofs::Shapes::shapes))]

ghost use Rattle.std.specs.Prelude.{◌≡◌, Some};
ghost use Rattle.syn_expr_spec.specs.Alone.{Alone, OfKind, ReferenceAlone, is_assign, is_binary, is_raw_addr, is_unary};
ghost use Rattle.syn_expr_ast.specs.Printed.{ReadsExactly, RefusesOthers};
ghost use Rattle.syn_expr_spec.specs.Stands.{is_cast, is_range};
ghost use Rattle.syn_expr_spec.specs.Tree.{Tree};
ghost use Rattle.syn_lower.specs.View.{mapped};
ghost use Rattle.syn_pat.specs.View.{PatView};
ghost use Rattle.syn_expr_ast.specs.Node.{prefix_at, prefix_seen, leaf_at, leaf_of, operands_at, operands_of, operator_at, operator_of, postfix_at, postfix_of};
ghost use Rattle.syn_expr_ast.specs.Pats.{ArmView};
ghost use Rattle.syn_expr_ast.specs.View.{expr_assign_of, expr_binary_of, expr_cast_of, expr_range_of, expr_raw_addr_of, expr_reference_of, expr_unary_of};
ghost use Rattle.syn_expr_ast.specs.Label.{kind_at};

use crate::label::{LeafKind, NodeKind, PostfixKind, PrefixKind};
use crate::node::{Attributes, Leaf, Operands, Operator, Postfix, Prefix};
use crate::parse::ParseKinds;
use crate::shape::PutShape;
use syn_expr_spec::kinds::Infix;
use syn_expr_tokens::limits::RangeLimits;
use syn_expr_tokens::op::{BinOp, UnOp};
use syn_lower::attr::Attribute;
use syn_lower::ends_open;
use syn_lower::ty::{PointerMutability, Type};
use syn_tokens::buffer::{Parse, ParseBuffer, ToTokens};
use syn_tokens::error::{Result, WantedKind};
use syn_tokens::token::{And, As, Eq, Mut, Raw};
use syn_tokens::tree::TokenStream;

/// `a = b` (Rust Reference, "Assignment expressions").
#[derive(Debug, Drop, PartialEq, Eq, Hash)]
pub struct ExprAssignOf<E> {
    /// The attributes.
    pub attrs: Vec<Attribute>,
    /// What is assigned to.
    pub left: Box<E>,
    /// `=`
    pub eq_token: Eq,
    /// The value.
    pub right: Box<E>,
}

/// `a + b`, `a += b` (Rust Reference, "Arithmetic and Logical Binary Operators", "Comparison Operators", "Lazy boolean
/// operators", "Compound assignment expressions").
#[derive(Debug, Drop, PartialEq, Eq, Hash)]
pub struct ExprBinaryOf<E> {
    /// The attributes.
    pub attrs: Vec<Attribute>,
    /// The left operand.
    pub left: Box<E>,
    /// The operator.
    pub op: BinOp,
    /// The right operand.
    pub right: Box<E>,
}

/// `a as T` (Rust Reference, "Type cast expressions").
#[derive(Debug, Drop, PartialEq, Eq, Hash)]
pub struct ExprCastOf<E> {
    /// The attributes.
    pub attrs: Vec<Attribute>,
    /// What is cast.
    pub expr: Box<E>,
    /// `as`
    pub as_token: As,
    /// The type that it is cast to.
    pub ty: Box<Type>,
}

/// `a..b`, `a..`, `..=b`, `..` (Rust Reference, "Range expressions").
#[derive(Debug, Drop, PartialEq, Eq, Hash)]
pub struct ExprRangeOf<E> {
    /// The attributes.
    pub attrs: Vec<Attribute>,
    /// Where it starts.
    pub start: Option<Box<E>>,
    /// `..` or `..=`
    pub limits: RangeLimits,
    /// Where it ends.
    pub end: Option<Box<E>>,
}

/// `&raw const a`, `&raw mut a` (Rust Reference, "Raw borrow operators").
#[derive(Debug, Drop, PartialEq, Eq, Hash)]
pub struct ExprRawAddrOf<E> {
    /// The attributes.
    pub attrs: Vec<Attribute>,
    /// `&`
    pub and_token: And,
    /// `raw`
    pub raw: Raw,
    /// `const` or `mut`.
    pub mutability: PointerMutability,
    /// The place that is borrowed.
    pub expr: Box<E>,
}

/// `&a`, `&mut a` (Rust Reference, "Borrow operators").
#[derive(Debug, Drop, PartialEq, Eq, Hash)]
pub struct ExprReferenceOf<E> {
    /// The attributes.
    pub attrs: Vec<Attribute>,
    /// `&`
    pub and_token: And,
    /// `mut`
    pub mutability: Option<Mut>,
    /// What is borrowed.
    pub expr: Box<E>,
}

/// `*a`, `!a`, `-a` (Rust Reference, "The dereference operator", "Negation operators").
#[derive(Debug, Drop, PartialEq, Eq, Hash)]
pub struct ExprUnaryOf<E> {
    /// The attributes.
    pub attrs: Vec<Attribute>,
    /// The operator.
    pub op: UnOp,
    /// The operand.
    pub expr: Box<E>,
}

impl<E> ExprAssignOf<E> {
    /// Its operator.
    pub fn operator(&self) -> Operator<'_>
        ensures { (tree : E → Tree) → Some (operator_of result) ≡ operator_at (expr_assign_of tree self.now) }
    {
        Operator::Assign(&self.eq_token)
    }

    /// Its operands.
    pub fn operands<A>(&self) -> Operands<'_, E, A>
        ensures { (tree : E → Tree) (arm : A → ArmView) → operands_of tree arm result ≡ operands_at (expr_assign_of tree self.now) }
    {
        Operands::Two(&self.left, &self.right)
    }
}

impl<E> ExprBinaryOf<E> {
    /// Its kind.
    pub fn kind(&self) -> NodeKind
        ensures { (tree : E → Tree) → result ≡ kind_at (expr_binary_of tree self.now) }
    {
        NodeKind::Infix(Infix::Binary(self.op.kind()))
    }

    /// Its operator.
    pub fn operator(&self) -> Operator<'_>
        ensures { (tree : E → Tree) → Some (operator_of result) ≡ operator_at (expr_binary_of tree self.now) }
    {
        Operator::Binary(&self.op)
    }

    /// Its operands.
    pub fn operands<A>(&self) -> Operands<'_, E, A>
        ensures { (tree : E → Tree) (arm : A → ArmView) → operands_of tree arm result ≡ operands_at (expr_binary_of tree self.now) }
    {
        Operands::Two(&self.left, &self.right)
    }
}

impl<E> ExprCastOf<E> {
    /// Its kind.
    pub fn kind(&self) -> NodeKind
        ensures { (tree : E → Tree) → result ≡ kind_at (expr_cast_of tree self.now) }
    {
        let ends_open = ends_open(&self.ty);
        NodeKind::Postfix(PostfixKind::Cast { ends_open })
    }

    /// What comes after its operand.
    pub fn postfix(&self) -> Postfix<'_>
        ensures { (tree : E → Tree) → Some (postfix_of result) ≡ postfix_at (expr_cast_of tree self.now) }
    {
        Postfix::Cast(&self.as_token, &self.ty)
    }

    /// Its operands.
    pub fn operands<A>(&self) -> Operands<'_, E, A>
        ensures { (tree : E → Tree) (arm : A → ArmView) → operands_of tree arm result ≡ operands_at (expr_cast_of tree self.now) }
    {
        Operands::One(&self.expr)
    }
}

impl<E> ExprRangeOf<E> {
    /// Its kind.
    pub fn kind(&self) -> NodeKind
        ensures { (tree : E → Tree) → result ≡ kind_at (expr_range_of tree self.now) }
    {
        let limits = self.limits.kind();
        match (&self.start, &self.end) {
            (None, None) => NodeKind::Leaf(LeafKind::FullRange),
            (None, Some(_)) => NodeKind::Prefix(PrefixKind::RangeTo(limits)),
            (Some(_), None) => NodeKind::Postfix(PostfixKind::RangeFrom(limits)),
            (Some(_), Some(_)) => NodeKind::Infix(Infix::Range(limits)),
        }
    }

    /// It, where it has no operand.
    pub fn leaf(&self) -> Option<Leaf<'_>>
        ensures { (tree : E → Tree) → mapped leaf_of result ≡ leaf_at (expr_range_of tree self.now) }
    {
        match (&self.start, &self.end) {
            (None, None) => Some(Leaf::Range(&self.limits)),
            _ => None,
        }
    }

    /// What comes before its operand, where it ends with one.
    pub fn prefix<P>(&self) -> Option<Prefix<'_, P>>
        ensures { (tree : E → Tree) (pat : P → PatView) → mapped (prefix_seen pat) result ≡ prefix_at (expr_range_of tree self.now) }
    {
        match (&self.start, &self.end) {
            (None, Some(_)) => Some(Prefix::Range(&self.limits)),
            _ => None,
        }
    }

    /// What comes after its operand, where it begins with one.
    pub fn postfix(&self) -> Option<Postfix<'_>>
        ensures { (tree : E → Tree) → mapped postfix_of result ≡ postfix_at (expr_range_of tree self.now) }
    {
        match (&self.start, &self.end) {
            (Some(_), None) => Some(Postfix::Range(&self.limits)),
            _ => None,
        }
    }

    /// Its operator, where it has two operands.
    pub fn operator(&self) -> Option<Operator<'_>>
        ensures { (tree : E → Tree) → mapped operator_of result ≡ operator_at (expr_range_of tree self.now) }
    {
        match (&self.start, &self.end) {
            (Some(_), Some(_)) => Some(Operator::Range(&self.limits)),
            _ => None,
        }
    }

    /// Its operands.
    pub fn operands<A>(&self) -> Operands<'_, E, A>
        ensures { (tree : E → Tree) (arm : A → ArmView) → operands_of tree arm result ≡ operands_at (expr_range_of tree self.now) }
    {
        match (&self.start, &self.end) {
            (None, None) => Operands::None,
            (None, Some(y)) => Operands::One(y),
            (Some(x), None) => Operands::One(x),
            (Some(x), Some(y)) => Operands::Two(x, y),
        }
    }
}

impl<E> ExprRawAddrOf<E> {
    /// What comes before its operand.
    pub fn prefix<P>(&self) -> Prefix<'_, P>
        ensures { (tree : E → Tree) (pat : P → PatView) → Some (prefix_seen pat result) ≡ prefix_at (expr_raw_addr_of tree self.now) }
    {
        Prefix::RawAddr(&self.and_token, &self.raw, &self.mutability)
    }

    /// Its operands.
    pub fn operands<A>(&self) -> Operands<'_, E, A>
        ensures { (tree : E → Tree) (arm : A → ArmView) → operands_of tree arm result ≡ operands_at (expr_raw_addr_of tree self.now) }
    {
        Operands::One(&self.expr)
    }
}

impl<E> ExprReferenceOf<E> {
    /// What comes before its operand.
    pub fn prefix<P>(&self) -> Prefix<'_, P>
        ensures { (tree : E → Tree) (pat : P → PatView) → Some (prefix_seen pat result) ≡ prefix_at (expr_reference_of tree self.now) }
    {
        Prefix::Reference(&self.and_token, &self.mutability)
    }

    /// Its operands.
    pub fn operands<A>(&self) -> Operands<'_, E, A>
        ensures { (tree : E → Tree) (arm : A → ArmView) → operands_of tree arm result ≡ operands_at (expr_reference_of tree self.now) }
    {
        Operands::One(&self.expr)
    }
}

impl<E> ExprUnaryOf<E> {
    /// What comes before its operand.
    pub fn prefix<P>(&self) -> Prefix<'_, P>
        ensures { (tree : E → Tree) (pat : P → PatView) → Some (prefix_seen pat result) ≡ prefix_at (expr_unary_of tree self.now) }
    {
        Prefix::Unary(&self.op)
    }

    /// Its operands.
    pub fn operands<A>(&self) -> Operands<'_, E, A>
        ensures { (tree : E → Tree) (arm : A → ArmView) → operands_of tree arm result ≡ operands_at (expr_unary_of tree self.now) }
    {
        Operands::One(&self.expr)
    }
}

#[tactic(auto, using(syn_tokens::proofs::Fronts::fronts))]
impl<E: PutShape> ToTokens for ExprAssignOf<E> {
    ghost use Rattle.syn_expr_ast.specs.Printed.{whole};
    ghost use Rattle.syn_expr_ast.specs.View.{expr_assign_of};
    ghost use Rattle.syn_expr_spec.specs.Next.{enclosed};

    ghost printed = { λ x. whole enclosed (expr_assign_of E.tree x) };

    /// Puts both operands round `=`.
    fn to_tokens(&self, tokens: &mut TokenStream) -> Result<()> {
        let operator = Operator::Assign(&self.eq_token);
        E::put_infix(tokens, &self.attrs, &self.left, operator, &self.right)?;
        Ok(())
    }
}

#[tactic(auto, using(syn_tokens::proofs::Fronts::fronts))]
impl<E: PutShape> ToTokens for ExprBinaryOf<E> {
    ghost use Rattle.syn_expr_ast.specs.Printed.{whole};
    ghost use Rattle.syn_expr_ast.specs.View.{expr_binary_of};
    ghost use Rattle.syn_expr_spec.specs.Next.{enclosed};

    ghost printed = { λ x. whole enclosed (expr_binary_of E.tree x) };

    /// Puts both operands round the operator.
    fn to_tokens(&self, tokens: &mut TokenStream) -> Result<()> {
        let operator = Operator::Binary(&self.op);
        E::put_infix(tokens, &self.attrs, &self.left, operator, &self.right)?;
        Ok(())
    }
}

#[tactic(auto, using(syn_tokens::proofs::Fronts::fronts))]
impl<E: PutShape> ToTokens for ExprCastOf<E> {
    ghost use Rattle.syn_expr_ast.specs.Printed.{whole};
    ghost use Rattle.syn_expr_ast.specs.View.{expr_cast_of};
    ghost use Rattle.syn_expr_spec.specs.Next.{enclosed};

    ghost printed = { λ x. whole enclosed (expr_cast_of E.tree x) };

    /// Puts the operand, `as` and the type.
    fn to_tokens(&self, tokens: &mut TokenStream) -> Result<()> {
        let cast = Postfix::Cast(&self.as_token, &self.ty);
        E::put_postfix(tokens, &self.attrs, &self.expr, cast)?;
        Ok(())
    }
}

#[tactic(auto, using(syn_tokens::proofs::Fronts::fronts))]
impl<E: PutShape> ToTokens for ExprRangeOf<E> {
    ghost use Rattle.syn_expr_ast.specs.Printed.{whole};
    ghost use Rattle.syn_expr_ast.specs.View.{expr_range_of};
    ghost use Rattle.syn_expr_spec.specs.Next.{enclosed};

    ghost printed = { λ x. whole enclosed (expr_range_of E.tree x) };

    /// Puts `..` or `..=` between the ends that are there.
    fn to_tokens(&self, tokens: &mut TokenStream) -> Result<()> {
        E::put_range(tokens, &self.attrs, &self.start, &self.limits, &self.end)?;
        Ok(())
    }
}

#[tactic(auto, using(syn_tokens::proofs::Fronts::fronts))]
impl<E: PutShape> ToTokens for ExprRawAddrOf<E> {
    ghost use Rattle.syn_expr_ast.specs.Printed.{whole};
    ghost use Rattle.syn_expr_ast.specs.View.{expr_raw_addr_of};
    ghost use Rattle.syn_expr_spec.specs.Next.{enclosed};

    ghost printed = { λ x. whole enclosed (expr_raw_addr_of E.tree x) };

    /// Puts `&raw const` or `&raw mut`, and the place.
    fn to_tokens(&self, tokens: &mut TokenStream) -> Result<()> {
        let prefix = Prefix::RawAddr(&self.and_token, &self.raw, &self.mutability);
        E::put_prefix(tokens, Attributes::Before(&self.attrs), prefix, &self.expr)?;
        Ok(())
    }
}

#[tactic(auto, using(syn_tokens::proofs::Fronts::fronts))]
impl<E: PutShape> ToTokens for ExprReferenceOf<E> {
    ghost use Rattle.syn_expr_ast.specs.Printed.{whole};
    ghost use Rattle.syn_expr_ast.specs.View.{expr_reference_of};
    ghost use Rattle.syn_expr_spec.specs.Next.{enclosed};

    ghost printed = { λ x. whole enclosed (expr_reference_of E.tree x) };

    /// Puts `&` or `&mut`, and the operand.
    fn to_tokens(&self, tokens: &mut TokenStream) -> Result<()> {
        let prefix = Prefix::Reference(&self.and_token, &self.mutability);
        E::put_prefix(tokens, Attributes::Before(&self.attrs), prefix, &self.expr)?;
        Ok(())
    }
}

#[tactic(auto, using(syn_tokens::proofs::Fronts::fronts))]
impl<E: PutShape> ToTokens for ExprUnaryOf<E> {
    ghost use Rattle.syn_expr_ast.specs.Printed.{whole};
    ghost use Rattle.syn_expr_ast.specs.View.{expr_unary_of};
    ghost use Rattle.syn_expr_spec.specs.Next.{enclosed};

    ghost printed = { λ x. whole enclosed (expr_unary_of E.tree x) };

    /// Puts the operator, and its operand.
    fn to_tokens(&self, tokens: &mut TokenStream) -> Result<()> {
        let prefix = Prefix::Unary(&self.op);
        E::put_prefix(tokens, Attributes::Before(&self.attrs), prefix, &self.expr)?;
        Ok(())
    }
}

impl<E: ParseKinds> Parse for ExprRawAddrOf<E> {
    ghost use Rattle.syn_expr_ast.specs.View.{expr_raw_addr_of};
    ghost use Rattle.syn_expr_spec.specs.Alone.{Alone, is_raw_addr};
    ghost use Rattle.syn_expr_spec.specs.Tree.{Tree};

    ghost Seen = { Tree };

    ghost seen = { expr_raw_addr_of E.tree };

    /// `&raw const` or `&raw mut` and an operand come before the rest.
    ghost spells = { Alone is_raw_addr };

    ghost least = { 1 };

    /// Reads `&raw const` or `&raw mut` and the operand, which takes no operator, without attributes before them (Rust
    /// Reference, "Raw borrow operators").
    ///
    /// It is refused, memory aside, only where there is none, and the input then stays where it was: as `ExpectedToken`
    /// of `&`, `raw`, or `mut` and `const`, and as the operand is.
    fn parse(input: &mut ParseBuffer<'_>) -> Result<Self>
        ensures { ReadsExactly (expr_raw_addr_of E.tree) (Alone is_raw_addr) input.old result input.new }
    {
        E::parse_expr_raw_addr(input)
    }
}

impl<E: ParseKinds> Parse for ExprReferenceOf<E> {
    ghost use Rattle.syn_expr_ast.specs.View.{expr_reference_of};
    ghost use Rattle.syn_expr_spec.specs.Alone.{ReferenceAlone};
    ghost use Rattle.syn_expr_spec.specs.Tree.{Tree};

    ghost Seen = { Tree };

    ghost seen = { expr_reference_of E.tree };

    /// `&`, `mut` or not, and an operand come before the rest.
    ghost spells = { ReferenceAlone };

    ghost least = { 1 };

    /// Reads `&`, `mut` or not, and the operand, which takes no operator, without attributes before them (Rust
    /// Reference, "Borrow operators"). The word `raw` after `&` is a path here: what comes after it is left.
    ///
    /// It is refused, memory aside, only where there is none, and the input then stays where it was: as `ExpectedToken`
    /// of `&`, and as the operand is.
    fn parse(input: &mut ParseBuffer<'_>) -> Result<Self>
        ensures { ReadsExactly (expr_reference_of E.tree) ReferenceAlone input.old result input.new }
    {
        E::parse_expr_reference(input)
    }
}

impl<E: ParseKinds> Parse for ExprUnaryOf<E> {
    ghost use Rattle.syn_expr_ast.specs.View.{expr_unary_of};
    ghost use Rattle.syn_expr_spec.specs.Alone.{Alone, is_unary};
    ghost use Rattle.syn_expr_spec.specs.Tree.{Tree};

    ghost Seen = { Tree };

    ghost seen = { expr_unary_of E.tree };

    /// `*`, `!` or `-` and an operand come before the rest.
    ghost spells = { Alone is_unary };

    ghost least = { 1 };

    /// Reads `*`, `!` or `-` and the operand, which takes no operator, without attributes before them (Rust Reference,
    /// "Dereference operator", "Negation operators").
    ///
    /// It is refused, memory aside, only where there is none, and the input then stays where it was: as `ExpectedToken`
    /// of one of the three signs, and as the operand is.
    fn parse(input: &mut ParseBuffer<'_>) -> Result<Self>
        ensures { ReadsExactly (expr_unary_of E.tree) (Alone is_unary) input.old result input.new }
    {
        E::parse_expr_unary(input)
    }
}

impl<E: ParseKinds> Parse for ExprAssignOf<E> {
    ghost use Rattle.syn_expr_ast.specs.View.{expr_assign_of};
    ghost use Rattle.syn_expr_spec.specs.Alone.{OfKind, is_assign};
    ghost use Rattle.syn_expr_spec.specs.Tree.{Tree};

    ghost Seen = { Tree };

    ghost seen = { expr_assign_of E.tree };

    /// An expression comes before the rest, by the binding rules, that is an assignment.
    ghost spells = { OfKind is_assign };

    ghost least = { 1 };

    /// Reads an expression that is an assignment, with attributes before it or without (Rust Reference, "Assignment
    /// expressions"). Invisible groups that it is in are looked through, and left out with the attributes before
    /// them.
    ///
    /// It is refused, memory aside, only where there is none, and the input then stays where it was: as an expression is,
    /// and where there is another kind, as `ExpectedExprKind`, from the first token of this to its last.
    fn parse(input: &mut ParseBuffer<'_>) -> Result<Self>
        ensures exact { ReadsExactly (expr_assign_of E.tree) (OfKind is_assign) input.old result input.new }
        ensures others { RefusesOthers is_assign WantedKind.Assign input.old result }
    {
        E::parse_expr_assign(input)
    }
}

impl<E: ParseKinds> Parse for ExprBinaryOf<E> {
    ghost use Rattle.syn_expr_ast.specs.View.{expr_binary_of};
    ghost use Rattle.syn_expr_spec.specs.Alone.{OfKind, is_binary};
    ghost use Rattle.syn_expr_spec.specs.Tree.{Tree};

    ghost Seen = { Tree };

    ghost seen = { expr_binary_of E.tree };

    /// An expression comes before the rest, by the binding rules, that is an operation with a binary operator.
    ghost spells = { OfKind is_binary };

    ghost least = { 1 };

    /// Reads an expression that is an operation with a binary operator, with attributes before it or without (Rust
    /// Reference, "Arithmetic and Logical Binary Operators", "Comparison Operators", "Lazy boolean operators",
    /// "Compound assignment expressions"). Invisible groups that it is in are looked through, and left out with the
    /// attributes before them.
    ///
    /// It is refused, memory aside, only where there is none, and the input then stays where it was: as an expression is,
    /// and where there is another kind, as `ExpectedExprKind`, from the first token of this to its last.
    fn parse(input: &mut ParseBuffer<'_>) -> Result<Self>
        ensures exact { ReadsExactly (expr_binary_of E.tree) (OfKind is_binary) input.old result input.new }
        ensures others { RefusesOthers is_binary WantedKind.Binary input.old result }
    {
        E::parse_expr_binary(input)
    }
}

impl<E: ParseKinds> Parse for ExprCastOf<E> {
    ghost use Rattle.syn_expr_ast.specs.View.{expr_cast_of};
    ghost use Rattle.syn_expr_spec.specs.Alone.{OfKind};
    ghost use Rattle.syn_expr_spec.specs.Stands.{is_cast};
    ghost use Rattle.syn_expr_spec.specs.Tree.{Tree};

    ghost Seen = { Tree };

    ghost seen = { expr_cast_of E.tree };

    /// An expression comes before the rest, by the binding rules, that is a cast.
    ghost spells = { OfKind is_cast };

    ghost least = { 1 };

    /// Reads an expression that is a cast, with attributes before it or without (Rust Reference, "Type cast
    /// expressions"). Invisible groups that it is in are looked through, and left out with the attributes before
    /// them.
    ///
    /// It is refused, memory aside, only where there is none, and the input then stays where it was: as an expression is,
    /// and where there is another kind, as `ExpectedExprKind`, from the first token of this to its last.
    fn parse(input: &mut ParseBuffer<'_>) -> Result<Self>
        ensures exact { ReadsExactly (expr_cast_of E.tree) (OfKind is_cast) input.old result input.new }
        ensures others { RefusesOthers is_cast WantedKind.Cast input.old result }
    {
        E::parse_expr_cast(input)
    }
}

impl<E: ParseKinds> Parse for ExprRangeOf<E> {
    ghost use Rattle.syn_expr_ast.specs.View.{expr_range_of};
    ghost use Rattle.syn_expr_spec.specs.Alone.{OfKind};
    ghost use Rattle.syn_expr_spec.specs.Stands.{is_range};
    ghost use Rattle.syn_expr_spec.specs.Tree.{Tree};

    ghost Seen = { Tree };

    ghost seen = { expr_range_of E.tree };

    /// An expression comes before the rest, by the binding rules, that is a range.
    ghost spells = { OfKind is_range };

    ghost least = { 1 };

    /// Reads an expression that is a range, with attributes before it or without (Rust Reference, "Range expressions").
    /// Invisible groups that it is in are looked through, and left out with the attributes before them.
    ///
    /// It is refused, memory aside, only where there is none, and the input then stays where it was: as an expression is,
    /// and where there is another kind, as `ExpectedExprKind`, from the first token of this to its last.
    fn parse(input: &mut ParseBuffer<'_>) -> Result<Self>
        ensures exact { ReadsExactly (expr_range_of E.tree) (OfKind is_range) input.old result input.new }
        ensures others { RefusesOthers is_range WantedKind.Range input.old result }
    {
        E::parse_expr_range(input)
    }
}
