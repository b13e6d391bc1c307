//! Blocks, `if` and loops.
#![tactic(auto, using(crate::proofs::Shapes::shapes))]

ghost use Rattle.std.specs.Prelude.{◌≡◌, Some};
ghost use Rattle.syn_expr_spec.specs.Alone.{Alone, behind_attributes, is_async, is_block, is_const, is_loop, is_try_block, is_unsafe, is_while};
ghost use Rattle.syn_expr_ast.specs.Printed.{ReadsExactly};
ghost use Rattle.syn_expr_spec.specs.Stands.{is_if_expr};
ghost use Rattle.syn_expr_spec.specs.Tree.{Tree};
ghost use Rattle.syn_pat.specs.View.{PatView};
ghost use Rattle.syn_expr_ast.specs.Attrs.{inner_of};
ghost use Rattle.syn_expr_ast.specs.Node.{braces_of, frame_at, frame_seen, leaf_at, leaf_of, operands_at, operands_of};
ghost use Rattle.syn_expr_ast.specs.Pats.{ArmView};
ghost use Rattle.syn_expr_ast.specs.View.{body_of, expr_async_of, expr_block_of, expr_const_of, expr_if_of, expr_loop_of, expr_try_block_of, expr_unsafe_of, expr_while_of};
ghost use Rattle.syn_expr_ast.specs.Label.{kind_at};

use crate::alone;
use crate::label::{FrameKind, LeafKind, NodeKind};
use crate::node::{Attributes, Braces, Frame, Leaf, Operands, put_whole_leaf};
use crate::parse::ParseKinds;
use crate::shape::PutShape;
use syn_expr_tokens::modifiers::{BlockModifiers, Label};
use syn_lower::attr::Attribute;
use syn_lower::stmt::Block;
use syn_tokens::buffer::{Parse, ParseBuffer, ToTokens};
use syn_tokens::error::Result;
use syn_tokens::token::{Async, Const, Else, If, Loop, Move, Try, Unsafe, While};
use syn_tokens::tree::TokenStream;

/// `async { .. }`, `async move { .. }` (Rust Reference, "`async` blocks").
#[derive(Debug, Drop, PartialEq, Eq, Hash)]
pub struct ExprAsync {
    /// The attributes.
    pub attrs: Vec<Attribute>,
    /// `async`
    pub async_token: Async,
    /// `move`
    pub capture: Option<Move>,
    /// None: no modifier is known.
    pub modifiers: BlockModifiers,
    /// The block.
    pub block: Block,
}

/// `{ .. }`, `'a: { .. }` (Rust Reference, "Block expressions", "Labelled block expressions").
#[derive(Debug, Drop, PartialEq, Eq, Hash)]
pub struct ExprBlock {
    /// The attributes: those before it, and those first in its braces.
    pub attrs: Vec<Attribute>,
    /// Its label.
    pub label: Option<Label>,
    /// The block.
    pub block: Block,
}

/// `const { .. }` (Rust Reference, "`const` blocks").
#[derive(Debug, Drop, PartialEq, Eq, Hash)]
pub struct ExprConst {
    /// The attributes: those before it, and those first in its braces.
    pub attrs: Vec<Attribute>,
    /// `const`
    pub const_token: Const,
    /// None: no modifier is known.
    pub modifiers: BlockModifiers,
    /// The block.
    pub block: Block,
}

/// `if a { .. } else { .. }` (Rust Reference, "`if` expressions").
#[derive(Debug, Drop, PartialEq, Eq, Hash)]
pub struct ExprIfOf<E> {
    /// The attributes.
    pub attrs: Vec<Attribute>,
    /// `if`
    pub if_token: If,
    /// The condition.
    pub cond: Box<E>,
    /// The block that runs where it holds.
    pub then_branch: Block,
    /// `else`, and the block or the `if` after it.
    pub else_branch: Option<(Else, Box<E>)>,
}

/// `loop { .. }` (Rust Reference, "Infinite loops").
#[derive(Debug, Drop, PartialEq, Eq, Hash)]
pub struct ExprLoop {
    /// The attributes: those before it, and those first in its braces.
    pub attrs: Vec<Attribute>,
    /// Its label.
    pub label: Option<Label>,
    /// `loop`
    pub loop_token: Loop,
    /// The block that is repeated.
    pub body: Block,
}

/// `try { .. }`, which is not stable.
#[derive(Debug, Drop, PartialEq, Eq, Hash)]
pub struct ExprTryBlock {
    /// The attributes.
    pub attrs: Vec<Attribute>,
    /// `try`
    pub try_token: Try,
    /// None: no modifier is known.
    pub modifiers: BlockModifiers,
    /// The block.
    pub block: Block,
}

/// `unsafe { .. }` (Rust Reference, "`unsafe` blocks").
#[derive(Debug, Drop, PartialEq, Eq, Hash)]
pub struct ExprUnsafe {
    /// The attributes: those before it, and those first in its braces.
    pub attrs: Vec<Attribute>,
    /// `unsafe`
    pub unsafe_token: Unsafe,
    /// The block.
    pub block: Block,
}

/// `while a { .. }` (Rust Reference, "Predicate loops").
#[derive(Debug, Drop, PartialEq, Eq, Hash)]
pub struct ExprWhileOf<E> {
    /// The attributes: those before it, and those first in its braces.
    pub attrs: Vec<Attribute>,
    /// Its label.
    pub label: Option<Label>,
    /// `while`
    pub while_token: While,
    /// The condition.
    pub cond: Box<E>,
    /// The block that is repeated.
    pub body: Block,
}

/// Braces of a node with these attributes.
fn braces<'a>(attrs: &'a Vec<Attribute>, block: &'a Block) -> Braces<'a>
    ensures { braces_of result ≡ body_of (inner_of attrs.now) block.now.stmts }
{
    Braces { attrs, block }
}

impl ExprAsync {
    /// All of it but its attributes, borrowed.
    pub fn leaf(&self) -> Leaf<'_>
        ensures { Some (leaf_of result) ≡ leaf_at (expr_async_of self.now) }
    {
        Leaf::Async(&self.async_token, &self.capture, &self.block)
    }
}

impl ExprBlock {
    /// Its kind.
    pub fn kind(&self) -> NodeKind
        ensures { result ≡ kind_at (expr_block_of self.now) }
    {
        let labelled = self.label.is_some();
        NodeKind::Leaf(LeafKind::Block { labelled })
    }

    /// All of it but its attributes, borrowed.
    pub fn leaf(&self) -> Leaf<'_>
        ensures { Some (leaf_of result) ≡ leaf_at (expr_block_of self.now) }
    {
        Leaf::Block(&self.label, braces(&self.attrs, &self.block))
    }
}

impl ExprConst {
    /// All of it but its attributes, borrowed.
    pub fn leaf(&self) -> Leaf<'_>
        ensures { Some (leaf_of result) ≡ leaf_at (expr_const_of self.now) }
    {
        Leaf::Const(&self.const_token, braces(&self.attrs, &self.block))
    }
}

impl<E> ExprIfOf<E> {
    /// What it is, but for its operands.
    pub fn frame<P>(&self) -> Frame<'_, P>
        ensures { (tree : E → Tree) (pat : P → PatView) → Some (frame_seen pat result) ≡ frame_at (expr_if_of tree self.now) }
    {
        Frame::If(&self.if_token)
    }

    /// Its operands.
    pub fn operands<A>(&self) -> Operands<'_, E, A>
        ensures { (tree : E → Tree) (arm : A → ArmView) → operands_of tree arm result ≡ operands_at (expr_if_of tree self.now) }
    {
        Operands::If(&self.cond, &self.then_branch, &self.else_branch)
    }
}

impl ExprLoop {
    /// Its kind.
    pub fn kind(&self) -> NodeKind
        ensures { result ≡ kind_at (expr_loop_of self.now) }
    {
        let labelled = self.label.is_some();
        NodeKind::Leaf(LeafKind::BlockLike { labelled })
    }

    /// All of it but its attributes, borrowed.
    pub fn leaf(&self) -> Leaf<'_>
        ensures { Some (leaf_of result) ≡ leaf_at (expr_loop_of self.now) }
    {
        Leaf::Loop(
            &self.label,
            &self.loop_token,
            braces(&self.attrs, &self.body),
        )
    }
}

impl ExprTryBlock {
    /// All of it but its attributes, borrowed.
    pub fn leaf(&self) -> Leaf<'_>
        ensures { Some (leaf_of result) ≡ leaf_at (expr_try_block_of self.now) }
    {
        Leaf::TryBlock(&self.try_token, &self.block)
    }
}

impl ExprUnsafe {
    /// All of it but its attributes, borrowed.
    pub fn leaf(&self) -> Leaf<'_>
        ensures { Some (leaf_of result) ≡ leaf_at (expr_unsafe_of self.now) }
    {
        Leaf::Unsafe(&self.unsafe_token, braces(&self.attrs, &self.block))
    }
}

impl<E> ExprWhileOf<E> {
    /// Its kind.
    pub fn kind(&self) -> NodeKind
        ensures { (tree : E → Tree) → result ≡ kind_at (expr_while_of tree self.now) }
    {
        let labelled = self.label.is_some();
        NodeKind::Frame(FrameKind::BlockLike { labelled })
    }

    /// What it is, but for its operands.
    pub fn frame<P>(&self) -> Frame<'_, P>
        ensures { (tree : E → Tree) (pat : P → PatView) → Some (frame_seen pat result) ≡ frame_at (expr_while_of tree self.now) }
    {
        Frame::While(&self.label, &self.while_token)
    }

    /// Its operands.
    pub fn operands<A>(&self) -> Operands<'_, E, A>
        ensures { (tree : E → Tree) (arm : A → ArmView) → operands_of tree arm result ≡ operands_at (expr_while_of tree self.now) }
    {
        Operands::Loop(&self.cond, braces(&self.attrs, &self.body))
    }
}

#[tactic(auto, using(syn_tokens::proofs::Fronts::fronts))]
impl ToTokens for ExprAsync {
    ghost use Rattle.syn_expr_ast.specs.Printed.{whole};
    ghost use Rattle.syn_expr_ast.specs.View.{expr_async_of};
    ghost use Rattle.syn_expr_spec.specs.Next.{enclosed};

    ghost printed = { λ x. whole enclosed (expr_async_of x) };

    /// Puts `async`, `move` where it is there, and the block.
    fn to_tokens(&self, tokens: &mut TokenStream) -> Result<()> {
        let leaf = Leaf::Async(&self.async_token, &self.capture, &self.block);
        put_whole_leaf(tokens, Attributes::Before(&self.attrs), leaf)?;
        Ok(())
    }
}

#[tactic(auto, using(syn_tokens::proofs::Fronts::fronts))]
impl ToTokens for ExprBlock {
    ghost use Rattle.syn_expr_ast.specs.Printed.{whole};
    ghost use Rattle.syn_expr_ast.specs.View.{expr_block_of};
    ghost use Rattle.syn_expr_spec.specs.Next.{enclosed};

    ghost printed = { λ x. whole enclosed (expr_block_of x) };

    /// Puts a block after its label; the inner attributes come first in its braces.
    fn to_tokens(&self, tokens: &mut TokenStream) -> Result<()> {
        let braces = Braces {
            attrs: &self.attrs,
            block: &self.block,
        };
        let leaf = Leaf::Block(&self.label, braces);
        put_whole_leaf(tokens, Attributes::Around(&self.attrs), leaf)?;
        Ok(())
    }
}

#[tactic(auto, using(syn_tokens::proofs::Fronts::fronts))]
impl ToTokens for ExprConst {
    ghost use Rattle.syn_expr_ast.specs.Printed.{whole};
    ghost use Rattle.syn_expr_ast.specs.View.{expr_const_of};
    ghost use Rattle.syn_expr_spec.specs.Next.{enclosed};

    ghost printed = { λ x. whole enclosed (expr_const_of x) };

    /// Puts `const` and the block; the inner attributes come first in its braces.
    fn to_tokens(&self, tokens: &mut TokenStream) -> Result<()> {
        let braces = Braces {
            attrs: &self.attrs,
            block: &self.block,
        };
        let leaf = Leaf::Const(&self.const_token, braces);
        put_whole_leaf(tokens, Attributes::Around(&self.attrs), leaf)?;
        Ok(())
    }
}

#[tactic(auto, using(syn_tokens::proofs::Fronts::fronts))]
impl<E: PutShape> ToTokens for ExprIfOf<E> {
    ghost use Rattle.syn_expr_ast.specs.Printed.{whole};
    ghost use Rattle.syn_expr_ast.specs.View.{expr_if_of};
    ghost use Rattle.syn_expr_spec.specs.Next.{enclosed};

    ghost printed = { λ x. whole enclosed (expr_if_of E.tree x) };

    /// Puts `if`, the condition and the block, and after `else` an `if`, a block, or anything else in braces.
    fn to_tokens(&self, tokens: &mut TokenStream) -> Result<()> {
        let frame = Frame::If(&self.if_token);
        let operands = Operands::If(&self.cond, &self.then_branch, &self.else_branch);
        E::put_frame(tokens, Attributes::Before(&self.attrs), frame, operands)?;
        Ok(())
    }
}

#[tactic(auto, using(syn_tokens::proofs::Fronts::fronts))]
impl ToTokens for ExprLoop {
    ghost use Rattle.syn_expr_ast.specs.Printed.{whole};
    ghost use Rattle.syn_expr_ast.specs.View.{expr_loop_of};
    ghost use Rattle.syn_expr_spec.specs.Next.{enclosed};

    ghost printed = { λ x. whole enclosed (expr_loop_of x) };

    /// Puts `loop` after its label, and the block; the inner attributes come first in its braces.
    fn to_tokens(&self, tokens: &mut TokenStream) -> Result<()> {
        let braces = Braces {
            attrs: &self.attrs,
            block: &self.body,
        };
        let leaf = Leaf::Loop(&self.label, &self.loop_token, braces);
        put_whole_leaf(tokens, Attributes::Around(&self.attrs), leaf)?;
        Ok(())
    }
}

#[tactic(auto, using(syn_tokens::proofs::Fronts::fronts))]
impl ToTokens for ExprTryBlock {
    ghost use Rattle.syn_expr_ast.specs.Printed.{whole};
    ghost use Rattle.syn_expr_ast.specs.View.{expr_try_block_of};
    ghost use Rattle.syn_expr_spec.specs.Next.{enclosed};

    ghost printed = { λ x. whole enclosed (expr_try_block_of x) };

    /// Puts `try` and the block.
    fn to_tokens(&self, tokens: &mut TokenStream) -> Result<()> {
        let leaf = Leaf::TryBlock(&self.try_token, &self.block);
        put_whole_leaf(tokens, Attributes::Before(&self.attrs), leaf)?;
        Ok(())
    }
}

#[tactic(auto, using(syn_tokens::proofs::Fronts::fronts))]
impl ToTokens for ExprUnsafe {
    ghost use Rattle.syn_expr_ast.specs.Printed.{whole};
    ghost use Rattle.syn_expr_ast.specs.View.{expr_unsafe_of};
    ghost use Rattle.syn_expr_spec.specs.Next.{enclosed};

    ghost printed = { λ x. whole enclosed (expr_unsafe_of x) };

    /// Puts `unsafe` and the block; the inner attributes come first in its braces.
    fn to_tokens(&self, tokens: &mut TokenStream) -> Result<()> {
        let braces = Braces {
            attrs: &self.attrs,
            block: &self.block,
        };
        let leaf = Leaf::Unsafe(&self.unsafe_token, braces);
        put_whole_leaf(tokens, Attributes::Around(&self.attrs), leaf)?;
        Ok(())
    }
}

#[tactic(auto, using(syn_tokens::proofs::Fronts::fronts))]
impl<E: PutShape> ToTokens for ExprWhileOf<E> {
    ghost use Rattle.syn_expr_ast.specs.Printed.{whole};
    ghost use Rattle.syn_expr_ast.specs.View.{expr_while_of};
    ghost use Rattle.syn_expr_spec.specs.Next.{enclosed};

    ghost printed = { λ x. whole enclosed (expr_while_of E.tree x) };

    /// Puts `while` after its label, the condition and the block; the inner attributes come first in its braces.
    fn to_tokens(&self, tokens: &mut TokenStream) -> Result<()> {
        let braces = Braces {
            attrs: &self.attrs,
            block: &self.body,
        };
        let frame = Frame::While(&self.label, &self.while_token);
        let operands = Operands::Loop(&self.cond, braces);
        E::put_frame(tokens, Attributes::Around(&self.attrs), frame, operands)?;
        Ok(())
    }
}

#[tactic(auto, using(syn_expr_spec::proofs::Alone::plains))]
impl Parse for ExprAsync {
    ghost use Rattle.syn_expr_ast.specs.View.{expr_async_of};
    ghost use Rattle.syn_expr_spec.specs.Alone.{Alone, is_async};
    ghost use Rattle.syn_expr_spec.specs.Tree.{Tree};

    ghost Seen = { Tree };

    ghost seen = { expr_async_of };

    /// An `async` block comes before the rest.
    ghost spells = { Alone is_async };

    ghost least = { 1 };

    /// Reads `async`, with `move` or without, and a block, without attributes before it (Rust Reference, "`async`
    /// blocks").
    ///
    /// It is refused, memory aside, only where there is none, and the input then stays where it was: as `ExpectedToken`
    /// of `async` or of `{`.
    fn parse(input: &mut ParseBuffer<'_>) -> Result<Self>
        ensures { ReadsExactly expr_async_of (Alone is_async) input.old result input.new }
    {
        alone::leaf(input)
    }
}

#[tactic(auto, using(syn_expr_spec::proofs::Alone::plains))]
impl Parse for ExprBlock {
    ghost use Rattle.syn_expr_ast.specs.View.{expr_block_of};
    ghost use Rattle.syn_expr_spec.specs.Alone.{Alone, behind_attributes, is_block};
    ghost use Rattle.syn_expr_spec.specs.Tree.{Tree};

    ghost Seen = { Tree };

    ghost seen = { expr_block_of };

    /// A block comes before the rest, after attributes and a label or none.
    ghost spells = { Alone (behind_attributes is_block) };

    ghost least = { 1 };

    /// Reads a block after outer attributes and a label, or none (Rust Reference, "Block expressions", "Labelled block
    /// expressions"). Inner attributes come first in its braces.
    ///
    /// It is refused, memory aside, only where there is none, and the input then stays where it was: as its attributes
    /// and its label are, and as `ExpectedToken` of `{`.
    fn parse(input: &mut ParseBuffer<'_>) -> Result<Self>
        ensures { ReadsExactly expr_block_of (Alone (behind_attributes is_block)) input.old result input.new }
    {
        alone::attributed_leaf(input)
    }
}

#[tactic(auto, using(syn_expr_spec::proofs::Alone::plains))]
impl Parse for ExprConst {
    ghost use Rattle.syn_expr_ast.specs.View.{expr_const_of};
    ghost use Rattle.syn_expr_spec.specs.Alone.{Alone, is_const};
    ghost use Rattle.syn_expr_spec.specs.Tree.{Tree};

    ghost Seen = { Tree };

    ghost seen = { expr_const_of };

    /// A `const` block comes before the rest.
    ghost spells = { Alone is_const };

    ghost least = { 1 };

    /// Reads `const` and a block, without attributes before it (Rust Reference, "`const` blocks"). Inner attributes
    /// come first in its braces.
    ///
    /// It is refused, memory aside, only where there is none, and the input then stays where it was: as `ExpectedToken`
    /// of `const` or of `{`, and as its attributes are.
    fn parse(input: &mut ParseBuffer<'_>) -> Result<Self>
        ensures { ReadsExactly expr_const_of (Alone is_const) input.old result input.new }
    {
        alone::leaf(input)
    }
}

#[tactic(auto, using(syn_expr_spec::proofs::Alone::plains))]
impl Parse for ExprLoop {
    ghost use Rattle.syn_expr_ast.specs.View.{expr_loop_of};
    ghost use Rattle.syn_expr_spec.specs.Alone.{Alone, behind_attributes, is_loop};
    ghost use Rattle.syn_expr_spec.specs.Tree.{Tree};

    ghost Seen = { Tree };

    ghost seen = { expr_loop_of };

    /// A `loop` comes before the rest, after attributes and a label or none.
    ghost spells = { Alone (behind_attributes is_loop) };

    ghost least = { 1 };

    /// Reads a `loop` after outer attributes and a label, or none (Rust Reference, "Infinite loops"). Inner attributes
    /// come first in its braces.
    ///
    /// It is refused, memory aside, only where there is none, and the input then stays where it was: as its attributes
    /// and its label are, and as `ExpectedToken` of `loop` or of `{`.
    fn parse(input: &mut ParseBuffer<'_>) -> Result<Self>
        ensures { ReadsExactly expr_loop_of (Alone (behind_attributes is_loop)) input.old result input.new }
    {
        alone::attributed_leaf(input)
    }
}

#[tactic(auto, using(syn_expr_spec::proofs::Alone::plains))]
impl Parse for ExprTryBlock {
    ghost use Rattle.syn_expr_ast.specs.View.{expr_try_block_of};
    ghost use Rattle.syn_expr_spec.specs.Alone.{Alone, is_try_block};
    ghost use Rattle.syn_expr_spec.specs.Tree.{Tree};

    ghost Seen = { Tree };

    ghost seen = { expr_try_block_of };

    /// A `try` block comes before the rest.
    ghost spells = { Alone is_try_block };

    ghost least = { 1 };

    /// Reads `try` and a block, without attributes before it.
    ///
    /// It is refused, memory aside, only where there is none, and the input then stays where it was: as `ExpectedToken`
    /// of `try` or of `{`.
    fn parse(input: &mut ParseBuffer<'_>) -> Result<Self>
        ensures { ReadsExactly expr_try_block_of (Alone is_try_block) input.old result input.new }
    {
        alone::leaf(input)
    }
}

#[tactic(auto, using(syn_expr_spec::proofs::Alone::plains))]
impl Parse for ExprUnsafe {
    ghost use Rattle.syn_expr_ast.specs.View.{expr_unsafe_of};
    ghost use Rattle.syn_expr_spec.specs.Alone.{Alone, is_unsafe};
    ghost use Rattle.syn_expr_spec.specs.Tree.{Tree};

    ghost Seen = { Tree };

    ghost seen = { expr_unsafe_of };

    /// An `unsafe` block comes before the rest.
    ghost spells = { Alone is_unsafe };

    ghost least = { 1 };

    /// Reads `unsafe` and a block, without attributes before it (Rust Reference, "`unsafe` blocks"). Inner attributes
    /// come first in its braces.
    ///
    /// It is refused, memory aside, only where there is none, and the input then stays where it was: as `ExpectedToken`
    /// of `unsafe` or of `{`, and as its attributes are.
    fn parse(input: &mut ParseBuffer<'_>) -> Result<Self>
        ensures { ReadsExactly expr_unsafe_of (Alone is_unsafe) input.old result input.new }
    {
        alone::leaf(input)
    }
}

impl<E: ParseKinds> Parse for ExprIfOf<E> {
    ghost use Rattle.syn_expr_ast.specs.View.{expr_if_of};
    ghost use Rattle.syn_expr_spec.specs.Alone.{Alone, behind_attributes};
    ghost use Rattle.syn_expr_spec.specs.Stands.{is_if_expr};
    ghost use Rattle.syn_expr_spec.specs.Tree.{Tree};

    ghost Seen = { Tree };

    ghost seen = { expr_if_of E.tree };

    /// An `if` with all that belongs to it comes before the rest, after attributes or none.
    ghost spells = { Alone (behind_attributes is_if_expr) };

    ghost least = { 1 };

    /// Reads an `if` after outer attributes or none, with each `else` that follows (Rust Reference, "`if`
    /// expressions").
    ///
    /// It is refused, memory aside, only where there is none, and the input then stays where it was: as its attributes
    /// are, as `ExpectedToken` of `if` or of a brace, and as its conditions are.
    fn parse(input: &mut ParseBuffer<'_>) -> Result<Self>
        ensures { ReadsExactly (expr_if_of E.tree) (Alone (behind_attributes is_if_expr)) input.old result input.new }
    {
        E::parse_expr_if(input)
    }
}

impl<E: ParseKinds> Parse for ExprWhileOf<E> {
    ghost use Rattle.syn_expr_ast.specs.View.{expr_while_of};
    ghost use Rattle.syn_expr_spec.specs.Alone.{Alone, behind_attributes, is_while};
    ghost use Rattle.syn_expr_spec.specs.Tree.{Tree};

    ghost Seen = { Tree };

    ghost seen = { expr_while_of E.tree };

    /// A `while` comes before the rest, after attributes and a label or none.
    ghost spells = { Alone (behind_attributes is_while) };

    ghost least = { 1 };

    /// Reads a `while` after outer attributes and a label, or none (Rust Reference, "Predicate loops"). Inner
    /// attributes come first in its braces.
    ///
    /// It is refused, memory aside, only where there is none, and the input then stays where it was: as its attributes
    /// and its label are, as `ExpectedToken` of `while` or of `{`, and as its condition is.
    fn parse(input: &mut ParseBuffer<'_>) -> Result<Self>
        ensures { ReadsExactly (expr_while_of E.tree) (Alone (behind_attributes is_while)) input.old result input.new }
    {
        E::parse_expr_while(input)
    }
}
