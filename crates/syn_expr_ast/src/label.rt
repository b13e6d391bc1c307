//! The kind of a node: as far as readers and printers ask for it, and as far as a summary tells kinds apart.

ghost use Rattle.std.specs.Prelude.{◌≡◌, ◌||◌, not};
ghost use Rattle.syn_expr_ast.specs.Label as spec;
ghost use Rattle.syn_expr_spec.specs.Tree as e;

use crate::node::HasKind;
use syn_expr_spec::kinds::{Infix, Limits, Precedence};
use syn_expr_spec::summary::Sort;

/// What is closed at both ends and holds no expression, and what has no operand.
#[derive(Clone, Copy, Debug, PartialEq, Eq)]
pub enum LeafKind {
    /// A path.
    Path,
    /// A range without a start and an end.
    FullRange,
    /// `return` or `yield` without a value.
    Jump,
    /// `break` without a value.
    Break,
    /// A block that is neither `unsafe` nor the like.
    Block {
        /// It has a label.
        labelled: bool,
    },
    /// A `loop`, and a block that is `unsafe`, `const` or `try`.
    BlockLike {
        /// It has a label.
        labelled: bool,
    },
    /// A call of a macro.
    Macro {
        /// Its delimiter is braces.
        braced: bool,
    },
    /// Verbatim tokens.
    Verbatim {
        /// `#` is the first of them.
        pounded: bool,
    },
    /// Any other.
    Other,
}

/// What comes before an operand.
#[derive(Clone, Copy, Debug, PartialEq, Eq)]
pub enum PrefixKind {
    /// A prefix operator, `&` or `&raw`.
    Operator,
    /// A range without a start.
    RangeTo(Limits),
    /// A `let` with its pattern.
    Let,
    /// `return` or `yield`.
    Jump,
    /// `break`
    Break {
        /// It has a label.
        labelled: bool,
    },
    /// A closure without an output.
    Closure,
}

/// What comes after an operand.
#[derive(Clone, Copy, Debug, PartialEq, Eq)]
pub enum PostfixKind {
    /// `as` and a type.
    Cast {
        /// A `<` after the type would begin its arguments.
        ends_open: bool,
    },
    /// A range without an end.
    RangeFrom(Limits),
}

/// What comes after the base of a trailer.
#[derive(Clone, Copy, Debug, PartialEq, Eq)]
pub enum TrailerKind {
    /// The arguments of a call.
    Call,
    /// An index.
    Index,
    /// A method and its arguments.
    Method,
    /// A field.
    Field {
        /// It has a name, and no number.
        named: bool,
    },
    /// `.await`
    Await,
    /// `?`
    Try,
}

/// What has its operands in places of their own.
#[derive(Clone, Copy, Debug, PartialEq, Eq)]
pub enum FrameKind {
    /// A struct expression.
    Struct,
    /// An `if`, a `while`, a `for` or a `match`.
    BlockLike {
        /// It has a label.
        labelled: bool,
    },
    /// Any other.
    Other,
}

/// The place of such an operand.
#[derive(Clone, Copy, Debug, PartialEq, Eq)]
pub enum PieceKind {
    /// Before the block of an `if`, of a loop, and before the arms of a `match`.
    Condition,
    /// The body of a match arm.
    Arm,
    /// Any other.
    Other,
}

impl LeafKind {
    /// Whether it is a range.
    pub fn is_range(self) -> bool
        ensures { result ≡ spec.is_range_leaf self }
    {
        matches!(self, LeafKind::FullRange)
    }

    /// Whether a trailer may have it as its base.
    pub fn is_base(self) -> bool
        ensures { result ≡ not (spec.is_range_leaf self || spec.is_pounded_leaf self) }
    {
        !(self.is_range() || self.is_pounded())
    }

    /// Whether its first token is `#`.
    pub fn is_pounded(self) -> bool
        ensures { result ≡ spec.is_pounded_leaf self }
    {
        matches!(self, LeafKind::Verbatim { pounded: true })
    }

    /// Whether its first token is that of a label.
    pub fn is_labelled(self) -> bool
        ensures { result ≡ spec.leaf_labelled self }
    {
        matches!(
            self,
            LeafKind::Block { labelled: true } | LeafKind::BlockLike { labelled: true }
        )
    }

    /// What it is, as far as a place may not have it.
    pub fn sort(self) -> Sort
        ensures { result ≡ spec.leaf_sort self }
    {
        match self {
            LeafKind::Block { labelled: false } => Sort::Block,
            LeafKind::Block { labelled: true } | LeafKind::BlockLike { .. } => Sort::BlockLike,
            LeafKind::Macro { braced: true } => Sort::BracedMacro,
            _ => Sort::Other,
        }
    }
}

impl PrefixKind {
    /// The level of the place of its operand.
    pub fn level(self) -> Precedence
        ensures { result ≡ spec.prefix_level self }
    {
        match self {
            PrefixKind::Operator => Precedence::Prefix,
            PrefixKind::RangeTo(_) => Precedence::Range,
            PrefixKind::Let => Precedence::Let,
            PrefixKind::Jump | PrefixKind::Break { .. } | PrefixKind::Closure => Precedence::Jump,
        }
    }

    /// Whether it has but an operator before its operand.
    pub fn is_prefix(self) -> bool
        ensures { result ≡ spec.is_prefix self }
    {
        matches!(self, PrefixKind::Operator)
    }

    /// Whether it is a range.
    pub fn is_range(self) -> bool
        ensures { result ≡ spec.is_range_prefix self }
    {
        matches!(self, PrefixKind::RangeTo(_))
    }

    /// Whether a trailer after it would belong to it, or is refused there.
    pub fn carries(self) -> bool
        ensures { result ≡ not (spec.is_prefix self || spec.is_range_prefix self) }
    {
        !(self.is_prefix() || self.is_range())
    }

    /// Whether a label that is the first of its operand would be its own.
    pub fn is_bare_break(self) -> bool
        ensures { result ≡ spec.is_bare_break self }
    {
        matches!(self, PrefixKind::Break { labelled: false })
    }

    /// What it is, as far as a place may not have it.
    pub fn sort(self) -> Sort
        ensures { result ≡ spec.prefix_sort self }
    {
        match self {
            PrefixKind::Let => Sort::Let,
            _ => Sort::Other,
        }
    }
}

impl PostfixKind {
    /// Its operator.
    pub fn op(self) -> Infix
        ensures { result ≡ spec.postfix_op self }
    {
        match self {
            PostfixKind::Cast { .. } => Infix::Cast,
            PostfixKind::RangeFrom(limits) => Infix::Range(limits),
        }
    }

    /// Whether it is a cast.
    pub fn is_cast(self) -> bool
        ensures { result ≡ spec.is_cast_postfix self }
    {
        matches!(self, PostfixKind::Cast { .. })
    }
}

impl TrailerKind {
    /// Whether it is a call.
    pub fn is_call(self) -> bool
        ensures { result ≡ spec.is_call self }
    {
        matches!(self, TrailerKind::Call)
    }

    /// Whether it is a field with a name.
    pub fn is_named_field(self) -> bool
        ensures { result ≡ spec.is_named_trailer self }
    {
        matches!(self, TrailerKind::Field { named: true })
    }
}

impl FrameKind {
    /// Whether its first token is that of a label.
    pub fn is_labelled(self) -> bool
        ensures { result ≡ spec.frame_labelled self }
    {
        matches!(self, FrameKind::BlockLike { labelled: true })
    }

    /// What it is, as far as a place may not have it.
    pub fn sort(self) -> Sort
        ensures { result ≡ spec.frame_sort self }
    {
        match self {
            FrameKind::Struct => Sort::Struct,
            FrameKind::BlockLike { .. } => Sort::BlockLike,
            FrameKind::Other => Sort::Other,
        }
    }
}

/// The kind of a node, whatever attributes come before it.
#[derive(Clone, Copy, Debug, PartialEq, Eq)]
pub enum NodeKind {
    /// Closed at both ends, without an operand at an end or in a place of its own.
    Leaf(LeafKind),
    /// In parentheses.
    Paren,
    /// Tokens before an operand.
    Prefix(PrefixKind),
    /// An operator between two operands.
    Infix(Infix),
    /// Tokens after an operand.
    Postfix(PostfixKind),
    /// A trailer after its base.
    Tail(TrailerKind),
    /// Operands in places of their own.
    Frame(FrameKind),
}

/// Whether it is a block, a loop, an `if` or a `match`, after attributes too: where it is the whole of a statement or of an
/// arm's body, no operator goes on it (Rust Reference, "Expression statements").
#[tactic(auto, using(crate::proofs::Likes::likes))]
pub fn is_block_like<E: HasKind>(x: &E) -> bool
    ensures { result ≡ e.is_block_like (E.tree x.now) }
{
    match x.kind() {
        NodeKind::Leaf(LeafKind::Block { .. } | LeafKind::BlockLike { .. }) => true,
        NodeKind::Frame(FrameKind::BlockLike { .. }) => true,
        _ => false,
    }
}
