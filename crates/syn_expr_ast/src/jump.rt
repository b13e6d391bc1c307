//! Jumps.
#![tactic(auto, using(crate::proofs::Shapes::shapes))]

ghost use Rattle.std.specs.Prelude.{◌≡◌, Some};
ghost use Rattle.syn_expr_spec.specs.Alone.{Alone, is_break, is_continue, is_return, is_yield};
ghost use Rattle.syn_expr_ast.specs.Printed.{ReadsExactly};
ghost use Rattle.syn_expr_spec.specs.Tree.{Tree};
ghost use Rattle.syn_expr_spec.specs.Tree as e;
ghost use Rattle.syn_lower.specs.View.{mapped};
ghost use Rattle.syn_pat.specs.View.{PatView};
ghost use Rattle.syn_expr_ast.specs.Node.{prefix_at, prefix_seen, leaf_at, leaf_of, operands_at, operands_of};
ghost use Rattle.syn_expr_ast.specs.Pats.{ArmView};
ghost use Rattle.syn_expr_ast.specs.View.{boxed, expr_break_of, expr_continue_of, expr_return_of, expr_yield_of, jump_with};
ghost use Rattle.syn_expr_ast.specs.Label.{kind_at};

use crate::alone;
use crate::label::{LeafKind, NodeKind, PrefixKind};
use crate::node::{Attributes, Jump, Leaf, Operands, Prefix, put_whole_leaf};
use crate::parse::ParseKinds;
use crate::shape::PutShape;
use syn_lower::attr::Attribute;
use syn_lower::lifetime::Lifetime;
use syn_tokens::buffer::{Parse, ParseBuffer, ToTokens};
use syn_tokens::error::Result;
use syn_tokens::token::{Break, Continue, Return, Yield};
use syn_tokens::tree::TokenStream;

/// `break`, `break 'a b` (Rust Reference, "`break` expressions").
#[derive(Debug, Drop, PartialEq, Eq, Hash)]
pub struct ExprBreakOf<E> {
    /// The attributes.
    pub attrs: Vec<Attribute>,
    /// `break`
    pub break_token: Break,
    /// The label of what is left.
    pub label: Option<Lifetime>,
    /// Its value.
    pub expr: Option<Box<E>>,
}

/// `continue`, `continue 'a` (Rust Reference, "`continue` expressions").
#[derive(Debug, Drop, PartialEq, Eq, Hash)]
pub struct ExprContinue {
    /// The attributes.
    pub attrs: Vec<Attribute>,
    /// `continue`
    pub continue_token: Continue,
    /// The label of the loop that goes on.
    pub label: Option<Lifetime>,
}

/// `return`, `return a` (Rust Reference, "`return` expressions").
#[derive(Debug, Drop, PartialEq, Eq, Hash)]
pub struct ExprReturnOf<E> {
    /// The attributes.
    pub attrs: Vec<Attribute>,
    /// `return`
    pub return_token: Return,
    /// The value that is returned.
    pub expr: Option<Box<E>>,
}

/// `yield`, `yield a`, which is not stable.
#[derive(Debug, Drop, PartialEq, Eq, Hash)]
pub struct ExprYieldOf<E> {
    /// The attributes.
    pub attrs: Vec<Attribute>,
    /// `yield`
    pub yield_token: Yield,
    /// The value that is given.
    pub expr: Option<Box<E>>,
}

/// The value of a jump, if it has one.
fn value<E, A>(value: &Option<Box<E>>) -> Operands<'_, E, A>
    ensures { (tree : E → Tree) (arm : A → ArmView) → operands_of tree arm result ≡ operands_at (jump_with e.returning (boxed tree value.now)) }
{
    match value {
        None => Operands::None,
        Some(x) => Operands::One(x),
    }
}

impl<E> ExprBreakOf<E> {
    /// Its kind.
    pub fn kind(&self) -> NodeKind
        ensures { (tree : E → Tree) → result ≡ kind_at (expr_break_of tree self.now) }
    {
        match &self.expr {
            None => NodeKind::Leaf(LeafKind::Break),
            Some(_) => {
                let labelled = self.label.is_some();
                NodeKind::Prefix(PrefixKind::Break { labelled })
            }
        }
    }

    /// It, where it has no operand.
    pub fn leaf(&self) -> Option<Leaf<'_>>
        ensures { (tree : E → Tree) → mapped leaf_of result ≡ leaf_at (expr_break_of tree self.now) }
    {
        match &self.expr {
            None => Some(Leaf::Jump(Jump::Break(&self.break_token, &self.label))),
            Some(_) => None,
        }
    }

    /// What comes before its operand, where it ends with one.
    pub fn prefix<P>(&self) -> Option<Prefix<'_, P>>
        ensures { (tree : E → Tree) (pat : P → PatView) → mapped (prefix_seen pat) result ≡ prefix_at (expr_break_of tree self.now) }
    {
        match &self.expr {
            None => None,
            Some(_) => Some(Prefix::Jump(Jump::Break(&self.break_token, &self.label))),
        }
    }

    /// Its operands.
    pub fn operands<A>(&self) -> Operands<'_, E, A>
        ensures { (tree : E → Tree) (arm : A → ArmView) → operands_of tree arm result ≡ operands_at (expr_break_of tree self.now) }
    {
        value(&self.expr)
    }
}

impl ExprContinue {
    /// All of it but its attributes, borrowed.
    pub fn leaf(&self) -> Leaf<'_>
        ensures { Some (leaf_of result) ≡ leaf_at (expr_continue_of self.now) }
    {
        Leaf::Continue(&self.continue_token, &self.label)
    }
}

impl<E> ExprReturnOf<E> {
    /// Its kind.
    pub fn kind(&self) -> NodeKind
        ensures { (tree : E → Tree) → result ≡ kind_at (expr_return_of tree self.now) }
    {
        match &self.expr {
            None => NodeKind::Leaf(LeafKind::Jump),
            Some(_) => NodeKind::Prefix(PrefixKind::Jump),
        }
    }

    /// It, where it has no operand.
    pub fn leaf(&self) -> Option<Leaf<'_>>
        ensures { (tree : E → Tree) → mapped leaf_of result ≡ leaf_at (expr_return_of tree self.now) }
    {
        match &self.expr {
            None => Some(Leaf::Jump(Jump::Return(&self.return_token))),
            Some(_) => None,
        }
    }

    /// What comes before its operand, where it ends with one.
    pub fn prefix<P>(&self) -> Option<Prefix<'_, P>>
        ensures { (tree : E → Tree) (pat : P → PatView) → mapped (prefix_seen pat) result ≡ prefix_at (expr_return_of tree self.now) }
    {
        match &self.expr {
            None => None,
            Some(_) => Some(Prefix::Jump(Jump::Return(&self.return_token))),
        }
    }

    /// Its operands.
    pub fn operands<A>(&self) -> Operands<'_, E, A>
        ensures { (tree : E → Tree) (arm : A → ArmView) → operands_of tree arm result ≡ operands_at (expr_return_of tree self.now) }
    {
        value(&self.expr)
    }
}

impl<E> ExprYieldOf<E> {
    /// Its kind.
    pub fn kind(&self) -> NodeKind
        ensures { (tree : E → Tree) → result ≡ kind_at (expr_yield_of tree self.now) }
    {
        match &self.expr {
            None => NodeKind::Leaf(LeafKind::Jump),
            Some(_) => NodeKind::Prefix(PrefixKind::Jump),
        }
    }

    /// It, where it has no operand.
    pub fn leaf(&self) -> Option<Leaf<'_>>
        ensures { (tree : E → Tree) → mapped leaf_of result ≡ leaf_at (expr_yield_of tree self.now) }
    {
        match &self.expr {
            None => Some(Leaf::Jump(Jump::Yield(&self.yield_token))),
            Some(_) => None,
        }
    }

    /// What comes before its operand, where it ends with one.
    pub fn prefix<P>(&self) -> Option<Prefix<'_, P>>
        ensures { (tree : E → Tree) (pat : P → PatView) → mapped (prefix_seen pat) result ≡ prefix_at (expr_yield_of tree self.now) }
    {
        match &self.expr {
            None => None,
            Some(_) => Some(Prefix::Jump(Jump::Yield(&self.yield_token))),
        }
    }

    /// Its operands.
    pub fn operands<A>(&self) -> Operands<'_, E, A>
        ensures { (tree : E → Tree) (arm : A → ArmView) → operands_of tree arm result ≡ operands_at (expr_yield_of tree self.now) }
    {
        value(&self.expr)
    }
}

#[tactic(auto, using(syn_tokens::proofs::Fronts::fronts))]
impl<E: PutShape> ToTokens for ExprBreakOf<E> {
    ghost use Rattle.syn_expr_ast.specs.Printed.{whole};
    ghost use Rattle.syn_expr_ast.specs.View.{expr_break_of};
    ghost use Rattle.syn_expr_spec.specs.Next.{enclosed};

    ghost printed = { λ x. whole enclosed (expr_break_of E.tree x) };

    /// Puts `break`, its label and its value.
    fn to_tokens(&self, tokens: &mut TokenStream) -> Result<()> {
        let jump = Jump::Break(&self.break_token, &self.label);
        let attributes = Attributes::Before(&self.attrs);
        match &self.expr {
            Some(x) => E::put_prefix(tokens, attributes, Prefix::Jump(jump), x)?,
            None => put_whole_leaf(tokens, attributes, Leaf::Jump(jump))?,
        }
        Ok(())
    }
}

#[tactic(auto, using(syn_tokens::proofs::Fronts::fronts))]
impl ToTokens for ExprContinue {
    ghost use Rattle.syn_expr_ast.specs.Printed.{whole};
    ghost use Rattle.syn_expr_ast.specs.View.{expr_continue_of};
    ghost use Rattle.syn_expr_spec.specs.Next.{enclosed};

    ghost printed = { λ x. whole enclosed (expr_continue_of x) };

    /// Puts `continue` and its label.
    fn to_tokens(&self, tokens: &mut TokenStream) -> Result<()> {
        let leaf = Leaf::Continue(&self.continue_token, &self.label);
        put_whole_leaf(tokens, Attributes::Before(&self.attrs), leaf)?;
        Ok(())
    }
}

#[tactic(auto, using(syn_tokens::proofs::Fronts::fronts))]
impl<E: PutShape> ToTokens for ExprReturnOf<E> {
    ghost use Rattle.syn_expr_ast.specs.Printed.{whole};
    ghost use Rattle.syn_expr_ast.specs.View.{expr_return_of};
    ghost use Rattle.syn_expr_spec.specs.Next.{enclosed};

    ghost printed = { λ x. whole enclosed (expr_return_of E.tree x) };

    /// Puts `return` and its value.
    fn to_tokens(&self, tokens: &mut TokenStream) -> Result<()> {
        let jump = Jump::Return(&self.return_token);
        let attributes = Attributes::Before(&self.attrs);
        match &self.expr {
            Some(x) => E::put_prefix(tokens, attributes, Prefix::Jump(jump), x)?,
            None => put_whole_leaf(tokens, attributes, Leaf::Jump(jump))?,
        }
        Ok(())
    }
}

#[tactic(auto, using(syn_tokens::proofs::Fronts::fronts))]
impl<E: PutShape> ToTokens for ExprYieldOf<E> {
    ghost use Rattle.syn_expr_ast.specs.Printed.{whole};
    ghost use Rattle.syn_expr_ast.specs.View.{expr_yield_of};
    ghost use Rattle.syn_expr_spec.specs.Next.{enclosed};

    ghost printed = { λ x. whole enclosed (expr_yield_of E.tree x) };

    /// Puts `yield` and its value.
    fn to_tokens(&self, tokens: &mut TokenStream) -> Result<()> {
        let jump = Jump::Yield(&self.yield_token);
        let attributes = Attributes::Before(&self.attrs);
        match &self.expr {
            Some(x) => E::put_prefix(tokens, attributes, Prefix::Jump(jump), x)?,
            None => put_whole_leaf(tokens, attributes, Leaf::Jump(jump))?,
        }
        Ok(())
    }
}

#[tactic(auto, using(syn_expr_spec::proofs::Alone::plains))]
impl Parse for ExprContinue {
    ghost use Rattle.syn_expr_ast.specs.View.{expr_continue_of};
    ghost use Rattle.syn_expr_spec.specs.Alone.{Alone, is_continue};
    ghost use Rattle.syn_expr_spec.specs.Tree.{Tree};

    ghost Seen = { Tree };

    ghost seen = { expr_continue_of };

    /// `continue`, with a label or without, comes before the rest.
    ghost spells = { Alone is_continue };

    ghost least = { 1 };

    /// Reads `continue` and a label or none, without attributes before it (Rust Reference, "`continue` expressions").
    ///
    /// It is refused, memory aside, only where there is none, and the input then stays where it was: as `ExpectedToken`
    /// of `continue`.
    fn parse(input: &mut ParseBuffer<'_>) -> Result<Self>
        ensures { ReadsExactly expr_continue_of (Alone is_continue) input.old result input.new }
    {
        alone::leaf(input)
    }
}

impl<E: ParseKinds> Parse for ExprBreakOf<E> {
    ghost use Rattle.syn_expr_ast.specs.View.{expr_break_of};
    ghost use Rattle.syn_expr_spec.specs.Alone.{Alone, is_break};
    ghost use Rattle.syn_expr_spec.specs.Tree.{Tree};

    ghost Seen = { Tree };

    ghost seen = { expr_break_of E.tree };

    /// `break` comes before the rest, with a label and a value or without.
    ghost spells = { Alone is_break };

    ghost least = { 1 };

    /// Reads `break`, a label or none, and a value where one follows, without attributes before it (Rust Reference,
    /// "`break` expressions").
    ///
    /// It is refused, memory aside, only where there is none, and the input then stays where it was: as `ExpectedToken`
    /// of `break`, and as its value is.
    fn parse(input: &mut ParseBuffer<'_>) -> Result<Self>
        ensures { ReadsExactly (expr_break_of E.tree) (Alone is_break) input.old result input.new }
    {
        E::parse_expr_break(input)
    }
}

impl<E: ParseKinds> Parse for ExprReturnOf<E> {
    ghost use Rattle.syn_expr_ast.specs.View.{expr_return_of};
    ghost use Rattle.syn_expr_spec.specs.Alone.{Alone, is_return};
    ghost use Rattle.syn_expr_spec.specs.Tree.{Tree};

    ghost Seen = { Tree };

    ghost seen = { expr_return_of E.tree };

    /// `return` comes before the rest, with a value or without.
    ghost spells = { Alone is_return };

    ghost least = { 1 };

    /// Reads `return`, and a value where one follows, without attributes before it (Rust Reference, "`return`
    /// expressions").
    ///
    /// It is refused, memory aside, only where there is none, and the input then stays where it was: as `ExpectedToken`
    /// of `return`, and as its value is.
    fn parse(input: &mut ParseBuffer<'_>) -> Result<Self>
        ensures { ReadsExactly (expr_return_of E.tree) (Alone is_return) input.old result input.new }
    {
        E::parse_expr_return(input)
    }
}

impl<E: ParseKinds> Parse for ExprYieldOf<E> {
    ghost use Rattle.syn_expr_ast.specs.View.{expr_yield_of};
    ghost use Rattle.syn_expr_spec.specs.Alone.{Alone, is_yield};
    ghost use Rattle.syn_expr_spec.specs.Tree.{Tree};

    ghost Seen = { Tree };

    ghost seen = { expr_yield_of E.tree };

    /// `yield` comes before the rest, with a value or without.
    ghost spells = { Alone is_yield };

    ghost least = { 1 };

    /// Reads `yield`, and a value where one follows, without attributes before it.
    ///
    /// It is refused, memory aside, only where there is none, and the input then stays where it was: as `ExpectedToken`
    /// of `yield`, and as its value is.
    fn parse(input: &mut ParseBuffer<'_>) -> Result<Self>
        ensures { ReadsExactly (expr_yield_of E.tree) (Alone is_yield) input.old result input.new }
    {
        E::parse_expr_yield(input)
    }
}
