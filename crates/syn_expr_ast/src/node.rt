//! A look at an expression by its shape: what asks about a node, or goes through a tree, matches a few shapes in place of
//! forty kinds. Nothing is copied: each part is borrowed. The attributes, the shape and the operands of a node are borrowed
//! by calls of their own, since what is borrowed at once of so large a family of types has to be small for the prover.

ghost use Rattle.std.specs.Prelude.{◌≡◌, is_some, ◌++◌, ◌∷◌, [], false, OnOk, codes};
ghost use Rattle.syn_expr_ast.specs.Node as spec;
ghost use Rattle.syn_expr_ast.specs.Label.{kind_at};
ghost use Rattle.syn_lower.specs.View.{mapped, qself_or, path_of, type_of};
ghost use Rattle.syn_expr_ast.specs.Attrs.{inner_of};
ghost use Rattle.syn_expr_ast.specs.Node.{before_of, jump_of, leaf_of};
ghost use Rattle.syn_expr_ast.specs.Printed.{whole};
ghost use Rattle.syn_expr_ast.specs.View.{body_of};
ghost use Rattle.syn_expr_tokens.specs.View.{label_of};
ghost use Rattle.syn_expr_spec.specs.Next.{enclosed};
ghost use Rattle.syn_expr_spec.specs.Stands.{is_range_leaf};
ghost use Rattle.syn_expr_spec.specs.Tree as e;
ghost use Rattle.syn_expr_spec.specs.Tree.{attributed_with, body_own, jump_own, label_own, leaf_own};
ghost use Rattle.syn_lower_spec.specs.Own.{qualified_own};
ghost use Rattle.syn_tokens.specs.Input.{IsFront};
ghost use Rattle.syn_tokens.specs.Tok.{ident};

use crate::alone::{HasArmView, HasExprTree};
use crate::attrs::put_attributes;
use crate::label::NodeKind;
use crate::put::{PutResult, put, put_block, put_result, put_some};
use crate::structure::FieldValueOf;
use std::alloc::AllocError;
use syn_expr_tokens::limits::RangeLimits;
use syn_expr_tokens::member::Member;
use syn_expr_tokens::modifiers::{ClosureModifiers, Label};
use syn_expr_tokens::op::{BinOp, UnOp};
use syn_lower::attr::Attribute;
use syn_lower::lifetime::Lifetime;
use syn_lower::lit::Lit;
use syn_lower::mac::Macro;
use syn_lower::path::{AngleBracketedGenericArguments, Path, QSelf};
use syn_lower::print_qpath;
use syn_lower::punctuated::Punctuated;
use syn_lower::stmt::Block;
use syn_lower::ty::{BoundLifetimes, PointerMutability, ReturnType, Type};
use syn_pat::kinds::HasPatTree;
use syn_tokens::token::{
    And, As, Async, Await, Brace, Bracket, Break, Comma, Const, Continue, Dot, DotDot, Else, Eq,
    For, Group, If, In, Let, Loop, Match, Move, Mut, Or, Paren, Question, Raw, Return, Semi, Try,
    Underscore, Unsafe, While, Yield,
};
use syn_tokens::tree::{Ident, TokenStream};

/// The attributes of a node.
#[derive(Clone, Copy)]
pub enum Attributes<'a> {
    /// It has no place for any: its tokens are kept.
    None,
    /// All come before it.
    Before(&'a Vec<Attribute>),
    /// The outer ones come before it, the inner ones first in its braces.
    Around(&'a Vec<Attribute>),
}

/// Braces with their block, and the attributes of the node that has them: the inner ones come first in the braces.
#[derive(Clone, Copy)]
pub struct Braces<'a> {
    /// The attributes of the node.
    pub attrs: &'a Vec<Attribute>,
    /// The block.
    pub block: &'a Block,
}

/// `return`, `yield` or `break`.
#[derive(Clone, Copy)]
pub enum Jump<'a> {
    /// `return`
    Return(&'a Return),
    /// `yield`
    Yield(&'a Yield),
    /// `break`, and its label.
    Break(&'a Break, &'a Option<Lifetime>),
}

/// What is closed at both ends and holds no expression, and jumps and ranges without an operand.
#[derive(Clone, Copy)]
pub enum Leaf<'a> {
    /// A literal.
    Lit(&'a Lit),
    /// A path, and the type that it is qualified by.
    Path(&'a Option<QSelf>, &'a Path),
    /// A call of a macro.
    Macro(&'a Macro),
    /// `_`
    Infer(&'a Underscore),
    /// A range without a start and an end.
    Range(&'a RangeLimits),
    /// A jump without a value.
    Jump(Jump<'a>),
    /// `continue`, and its label.
    Continue(&'a Continue, &'a Option<Lifetime>),
    /// A block, and its label.
    Block(&'a Option<Label>, Braces<'a>),
    /// `loop`, with its label.
    Loop(&'a Option<Label>, &'a Loop, Braces<'a>),
    /// `unsafe`
    Unsafe(&'a Unsafe, Braces<'a>),
    /// `const`
    Const(&'a Const, Braces<'a>),
    /// `async`, and perhaps `move`.
    Async(&'a Async, &'a Option<Move>, &'a Block),
    /// `try`
    TryBlock(&'a Try, &'a Block),
    /// Verbatim tokens.
    Verbatim(&'a TokenStream),
}

impl Leaf<'_> {
    ghost use Rattle.syn_expr_ast.specs.Node.{leaf_of};
    ghost use Rattle.syn_expr_spec.specs.Rule.{is_plain_leaf};
    ghost use Rattle.syn_expr_spec.specs.WellFormed.{is_verbatim_leaf};

    /// Whether it is a block without a label, and without attributes in its braces: the block of its tokens alone.
    #[tactic(auto, using(crate::proofs::Borrowed::blocks))]
    pub fn is_plain_block(self) -> bool
        ensures plain { result ≡ is_plain_leaf (leaf_of self.entry) }
        ensures verbatim { result ≡ is_verbatim_leaf (leaf_of self.entry) }
    {
        match self {
            Leaf::Block(label, braces) => label.is_none() && braces.is_bare(),
            _ => false,
        }
    }
}

/// A closure up to its body.
pub struct Closure<'a, P> {
    /// `for<..>`
    pub lifetimes: &'a Option<BoundLifetimes>,
    /// `static` and `use`, each or not.
    pub modifiers: &'a ClosureModifiers,
    /// `const`
    pub constness: &'a Option<Const>,
    /// `async`
    pub asyncness: &'a Option<Async>,
    /// `move`
    pub capture: &'a Option<Move>,
    /// The first `|`.
    pub inputs_begin: &'a Or,
    /// The arguments.
    pub inputs: &'a Punctuated<P, Comma>,
    /// The second `|`.
    pub inputs_end: &'a Or,
    /// The output.
    pub output: &'a ReturnType,
}

impl<'a, P> Copy for Closure<'a, P> {}

impl<'a, P> Clone for Closure<'a, P> {
    ghost is_clone = { λ x y. y ≡ x };

    ghost is_infallible = { λ _. Unit {0} };

    fn clone(&self) -> Result<Self, AllocError> {
        Ok(*self)
    }
}

/// The tokens before an operand with which a node ends.
pub enum Prefix<'a, P> {
    /// `!`, `-` or `*`
    Unary(&'a UnOp),
    /// `&`, and perhaps `mut`.
    Reference(&'a And, &'a Option<Mut>),
    /// `&raw const` or `&raw mut`
    RawAddr(&'a And, &'a Raw, &'a PointerMutability),
    /// A range without a start.
    Range(&'a RangeLimits),
    /// `let` with its pattern and `=`.
    Let(&'a Let, &'a Box<P>, &'a Eq),
    /// A jump before its value.
    Jump(Jump<'a>),
    /// A closure without an output.
    Closure(Closure<'a, P>),
}

impl<'a, P> Copy for Prefix<'a, P> {}

impl<'a, P> Clone for Prefix<'a, P> {
    ghost is_clone = { λ x y. y ≡ x };

    ghost is_infallible = { λ _. Unit {0} };

    fn clone(&self) -> Result<Self, AllocError> {
        Ok(*self)
    }
}

/// The operator between two operands.
#[derive(Clone, Copy)]
pub enum Operator<'a> {
    /// A binary operator.
    Binary(&'a BinOp),
    /// `=`
    Assign(&'a Eq),
    /// `..` or `..=`
    Range(&'a RangeLimits),
}

/// The tokens after an operand with which a node begins.
#[derive(Clone, Copy)]
pub enum Postfix<'a> {
    /// `as` and a type.
    Cast(&'a As, &'a Box<Type>),
    /// A range without an end.
    Range(&'a RangeLimits),
}

/// A trailer.
#[derive(Clone, Copy)]
pub enum Trailer<'a> {
    /// `(..)`
    Call(&'a Paren),
    /// `[..]`
    Index(&'a Bracket),
    /// `.name::<..>(..)`
    Method(&'a Dot, &'a Ident, &'a Option<AngleBracketedGenericArguments>, &'a Paren),
    /// `.name` or `.0`
    Field(&'a Dot, &'a Member),
    /// `.await`
    Await(&'a Dot, &'a Await),
    /// `?`
    Try(&'a Question),
}

/// What has its operands in places of their own.
pub enum Frame<'a, P> {
    /// `[a, b]`
    Array(&'a Bracket),
    /// `(a, b)`
    Tuple(&'a Paren),
    /// `[a; n]`
    Repeat(&'a Bracket),
    /// `S { a: b, ..c }`; whether a `..` ends it with no expression after.
    Struct(&'a Option<QSelf>, &'a Path, &'a Brace, bool),
    /// A closure with an output.
    Closure(Closure<'a, P>),
    /// `if`
    If(&'a If),
    /// `while`, with its label.
    While(&'a Option<Label>, &'a While),
    /// `for p in`, with its label.
    ForLoop(&'a Option<Label>, &'a For, &'a Box<P>, &'a In),
    /// `match`, and the braces round its arms.
    Match(&'a Match, &'a Brace),
    /// An invisible group.
    Group(&'a Group),
}

impl<'a, P> Copy for Frame<'a, P> {}

impl<'a, P> Clone for Frame<'a, P> {
    ghost is_clone = { λ x y. y ≡ x };

    ghost is_infallible = { λ _. Unit {0} };

    fn clone(&self) -> Result<Self, AllocError> {
        Ok(*self)
    }
}

/// The operands of a node from left to right, with the tokens between those of a frame.
pub enum Operands<'a, E, A> {
    /// None.
    None,
    /// One: in parentheses, after or before tokens, or the base of a trailer that holds none.
    One(&'a Box<E>),
    /// The operands of an operator.
    Two(&'a Box<E>, &'a Box<E>),
    /// A base, and arguments with commas.
    Call(&'a Box<E>, &'a Punctuated<E, Comma>),
    /// A base and its index.
    Index(&'a Box<E>, &'a Box<E>),
    /// A list with commas.
    Elements(&'a Punctuated<E, Comma>),
    /// What an invisible group holds.
    Grouped(&'a Box<E>),
    /// A value, `;` and how often it is repeated.
    Repeated(&'a Box<E>, &'a Semi, &'a Box<E>),
    /// The fields of a struct expression, `..` and what the other fields are taken of.
    Fields(&'a Punctuated<FieldValueOf<E>, Comma>, &'a Option<DotDot>, &'a Option<Box<E>>),
    /// The condition of an `if`, its block, and what comes after `else`.
    If(&'a Box<E>, &'a Block, &'a Option<(Else, Box<E>)>),
    /// The condition of a loop, or what gives its values, and its block.
    Loop(&'a Box<E>, Braces<'a>),
    /// What a `match` looks at, the attributes of the node, and the arms.
    Arms(&'a Box<E>, &'a Vec<Attribute>, &'a Vec<A>),
    /// The body of a closure with an output.
    Body(&'a Box<E>),
}

impl<'a, E, A> Copy for Operands<'a, E, A> {}

impl<'a, E, A> Clone for Operands<'a, E, A> {
    ghost is_clone = { λ x y. y ≡ x };

    ghost is_infallible = { λ _. Unit {0} };

    fn clone(&self) -> Result<Self, AllocError> {
        Ok(*self)
    }
}

impl<'a, E, A> Operands<'a, E, A> {
    ghost use Rattle.syn_expr_ast.specs.Node.{first_of, last_of, operands_of, second_of};
    ghost use Rattle.syn_expr_ast.specs.Pats.{ArmView};
    ghost use Rattle.syn_expr_spec.specs.Tree.{Tree};

    /// The operand with which a node begins: its first one, and the base of a trailer.
    #[tactic(auto, using(crate::proofs::Borrowed::based))]
    pub fn first(self) -> Option<&'a E>
        ensures { (tree : E → Tree) (arm : A → ArmView) → mapped (λ x. tree x.now) result ≡ first_of (operands_of tree arm self.entry) }
    {
        match self {
            Operands::One(x) | Operands::Two(x, _) | Operands::Call(x, _) | Operands::Index(x, _) =>
                Some(x),
            _ => None,
        }
    }

    /// The second of two operands.
    #[tactic(auto, using(crate::proofs::Borrowed::based))]
    pub fn second(self) -> Option<&'a E>
        ensures { (tree : E → Tree) (arm : A → ArmView) → mapped (λ x. tree x.now) result ≡ second_of (operands_of tree arm self.entry) }
    {
        match self {
            Operands::Two(_, y) => Some(y),
            _ => None,
        }
    }

    /// The operand with which a node ends, or after which its trailer comes.
    #[tactic(auto, using(crate::proofs::Borrowed::based))]
    pub fn last(self) -> Option<&'a E>
        ensures { (tree : E → Tree) (arm : A → ArmView) → mapped (λ x. tree x.now) result ≡ last_of (operands_of tree arm self.entry) }
    {
        match self {
            Operands::One(x)
            | Operands::Two(_, x)
            | Operands::Call(x, _)
            | Operands::Index(x, _)
            | Operands::Body(x) => Some(x),
            _ => None,
        }
    }
}

impl<'a, P> Frame<'a, P> {
    ghost use Rattle.syn_expr_ast.specs.Node.{frame_of};
    ghost use Rattle.syn_expr_spec.specs.Rule.{is_if};
    ghost use Rattle.syn_pat.specs.View.{PatView};

    /// Whether it is an `if`.
    pub fn is_if(self) -> bool
        ensures { (pat : P → PatView) → result ≡ is_if (frame_of pat self.entry) }
    {
        matches!(self, Frame::If(_))
    }
}

/// The type of expressions, as one goes through them.
pub trait HasNode: HasExprTree {
    /// The type of match arms.
    type Arm: HasArmView;

    /// The attributes of a node.
    fn attributes(&self) -> Attributes<'_>
        ensures { spec.before_of result ≡ spec.attributes_at (Self.tree self.now) };

    /// Its operands.
    fn operands(&self) -> Operands<'_, Self, Self::Arm>
        ensures { spec.operands_of Self.tree Self.Arm.view result ≡ spec.operands_at (Self.tree self.now) };
}

/// The type of expressions, as one asks for their kinds.
pub trait HasKind: HasExprTree {
    /// The kind of a node, whatever attributes come before it.
    fn kind(&self) -> NodeKind
        ensures { result ≡ kind_at (Self.tree self.now) };
}

/// The type of expressions, as one looks at them: what a node is but for its operands, borrowed by the shape that it has. Each
/// shape has a call of its own, since what is borrowed at once of so large a family of types has to be small for the prover.
pub trait HasShape: HasNode + HasKind {
    /// The type of patterns.
    type Pat: HasPatTree;

    /// What is closed at both ends and holds no expression, or has no operand.
    fn leaf(&self) -> Option<Leaf<'_>>
        ensures { mapped spec.leaf_of result ≡ spec.leaf_at (Self.tree self.now) };

    /// Parentheses.
    fn paren(&self) -> Option<&Paren>
        ensures { is_some result ≡ spec.is_paren (Self.tree self.now) };

    /// What comes before an operand, with the guards in its patterns.
    fn prefix(&self) -> Option<Prefix<'_, Self::Pat>>
        ensures { mapped (spec.prefix_seen Self.Pat.view) result ≡ spec.prefix_at (Self.tree self.now) };

    /// The operator between two operands.
    fn operator(&self) -> Option<Operator<'_>>
        ensures { mapped spec.operator_of result ≡ spec.operator_at (Self.tree self.now) };

    /// What comes after an operand.
    fn postfix(&self) -> Option<Postfix<'_>>
        ensures { mapped spec.postfix_of result ≡ spec.postfix_at (Self.tree self.now) };

    /// The trailer after its base.
    fn trailer(&self) -> Option<Trailer<'_>>
        ensures { mapped spec.trailer_of result ≡ spec.trailer_at (Self.tree self.now) };

    /// What has its operands in places of their own, with the guards in its patterns.
    fn frame(&self) -> Option<Frame<'_, Self::Pat>>
        ensures { mapped (spec.frame_seen Self.Pat.view) result ≡ spec.frame_at (Self.tree self.now) };
}

/// Puts a path, and the type that it is qualified by.
#[tactic(auto, using(syn_tokens::proofs::Fronts::fronts))]
pub fn put_path(tokens: &mut TokenStream, qself: &Option<QSelf>, path: &Path) -> PutResult
    ensures ok { OnOk result (tokens.new ≡ tokens.old ++ qualified_own (qself_or type_of qself.now, path_of type_of path.now) []) }
    ensures front { IsFront tokens.old tokens.new }
{
    put_result(print_qpath(qself, path, tokens))
}

/// Puts a jump up to its value.
#[tactic(auto, using(syn_tokens::proofs::Fronts::fronts, crate::proofs::Owns::owns), unfolding(syn_tokens::specs::Sign::word_text))]
pub fn put_jump(tokens: &mut TokenStream, jump: Jump<'_>) -> PutResult
    ensures ok { OnOk result (tokens.new ≡ tokens.old ++ jump_own (jump_of jump.entry) []) }
    ensures front { IsFront tokens.old tokens.new }
{
    match jump {
        Jump::Return(word) => put(tokens, word),
        Jump::Yield(word) => put(tokens, word),
        Jump::Break(word, label) => {
            put(tokens, word)?;
            put_some(tokens, label)
        }
    }
}

/// Puts a block, and its label if it has one.
#[tactic(auto, using(syn_tokens::proofs::Fronts::fronts))]
fn put_labeled(
    tokens: &mut TokenStream,
    label: &Option<Label>,
    attrs: &Vec<Attribute>,
    block: &Block,
) -> PutResult
    ensures ok { OnOk result (tokens.new ≡ tokens.old ++ label_own (mapped label_of label.now) (body_own (body_of (inner_of attrs.now) block.now.stmts) [])) }
    ensures front { IsFront tokens.old tokens.new }
{
    put_some(tokens, label)?;
    put_block(tokens, attrs, block)
}

/// Puts a `loop`, and its label if it has one.
#[tactic(auto, using(syn_tokens::proofs::Fronts::fronts))]
fn put_loop(
    tokens: &mut TokenStream,
    label: &Option<Label>,
    word: &Loop,
    attrs: &Vec<Attribute>,
    block: &Block,
) -> PutResult
    ensures ok { OnOk result (tokens.new ≡ tokens.old ++ label_own (mapped label_of label.now) (ident (codes "loop") ∷ body_own (body_of (inner_of attrs.now) block.now.stmts) [])) }
    ensures front { IsFront tokens.old tokens.new }
{
    put_some(tokens, label)?;
    put(tokens, word)?;
    put_block(tokens, attrs, block)
}

/// Puts what holds no expression.
#[tactic(auto, using(syn_tokens::proofs::Fronts::fronts, crate::proofs::Owns::owns), unfolding(syn_tokens::specs::Sign::word_text))]
pub fn put_leaf(tokens: &mut TokenStream, leaf: Leaf<'_>) -> PutResult
    ensures ok { OnOk result (tokens.new ≡ tokens.old ++ leaf_own (leaf_of leaf.entry) []) }
    ensures front { IsFront tokens.old tokens.new }
{
    match leaf {
        Leaf::Lit(lit) => put(tokens, lit),
        Leaf::Path(qself, path) => put_path(tokens, qself, path),
        Leaf::Macro(mac) => put(tokens, mac),
        Leaf::Infer(underscore) => put(tokens, underscore),
        Leaf::Range(limits) => put(tokens, limits),
        Leaf::Jump(jump) => put_jump(tokens, jump),
        Leaf::Continue(word, label) => {
            put(tokens, word)?;
            put_some(tokens, label)
        }
        Leaf::Block(label, Braces { attrs, block }) => put_labeled(tokens, label, attrs, block),
        Leaf::Loop(label, word, Braces { attrs, block }) => {
            put_loop(tokens, label, word, attrs, block)
        }
        Leaf::Unsafe(word, Braces { attrs, block }) => {
            put(tokens, word)?;
            put_block(tokens, attrs, block)
        }
        Leaf::Const(word, Braces { attrs, block }) => {
            put(tokens, word)?;
            put_block(tokens, attrs, block)
        }
        Leaf::Async(word, capture, block) => {
            put(tokens, word)?;
            put_some(tokens, capture)?;
            put(tokens, block)
        }
        Leaf::TryBlock(word, block) => {
            put(tokens, word)?;
            put(tokens, block)
        }
        Leaf::Verbatim(stream) => put(tokens, stream),
    }
}

/// Puts what holds no expression, after its attributes.
#[tactic(auto, using(syn_tokens::proofs::Fronts::fronts))]
pub fn put_whole_leaf(
    tokens: &mut TokenStream,
    attributes: Attributes<'_>,
    leaf: Leaf<'_>,
) -> PutResult
    requires { is_range_leaf (leaf_of leaf) ≡ false }
    ensures text { OnOk result (tokens.new ≡ tokens.old ++ whole enclosed (attributed_with (before_of attributes.entry) (e.leaf (leaf_of leaf.entry)))) }
    ensures front { IsFront tokens.old tokens.new }
{
    put_attributes(tokens, attributes)?;
    put_leaf(tokens, leaf)
}
