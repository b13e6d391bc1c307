//! Kinds without places in a text: the labels that the trees of the definitions and the code share.

/// The prefix operators that make an `ExprUnary`.
#[derive(Clone, Copy, Debug, PartialEq, Eq, Hash)]
pub enum UnKind {
    /// `*`
    Deref,
    /// `!`
    Not,
    /// `-`
    Neg,
}

/// The binary operators, the compound assignments among them.
#[derive(Clone, Copy, Debug, PartialEq, Eq, Hash)]
pub enum BinKind {
    /// `+`
    Add,
    /// `-`
    Sub,
    /// `*`
    Mul,
    /// `/`
    Div,
    /// `%`
    Rem,
    /// `&&`
    And,
    /// `||`
    Or,
    /// `^`
    BitXor,
    /// `&`
    BitAnd,
    /// `|`
    BitOr,
    /// `<<`
    Shl,
    /// `>>`
    Shr,
    /// `==`
    Eq,
    /// `<`
    Lt,
    /// `<=`
    Le,
    /// `!=`
    Ne,
    /// `>=`
    Ge,
    /// `>`
    Gt,
    /// `+=`
    AddAssign,
    /// `-=`
    SubAssign,
    /// `*=`
    MulAssign,
    /// `/=`
    DivAssign,
    /// `%=`
    RemAssign,
    /// `^=`
    BitXorAssign,
    /// `&=`
    BitAndAssign,
    /// `|=`
    BitOrAssign,
    /// `<<=`
    ShlAssign,
    /// `>>=`
    ShrAssign,
}

/// The operators of ranges.
#[derive(Clone, Copy, Debug, PartialEq, Eq, Hash)]
pub enum Limits {
    /// `..`
    HalfOpen,
    /// `..=`
    Closed,
}

/// The operators that come after a left operand.
#[derive(Clone, Copy, Debug, PartialEq, Eq)]
pub enum Infix {
    /// A binary operator.
    Binary(BinKind),
    /// `=`
    Assign,
    /// `..` or `..=`
    Range(Limits),
    /// `as`
    Cast,
}

/// How tightly an expression binds, loosest first (Rust Reference, "Expression precedence").
#[derive(Clone, Copy, Debug, PartialEq, Eq, PartialOrd)]
pub enum Precedence {
    /// `return`, `break`, `yield` with a value, and closures without an output.
    Jump,
    /// `=` and the compound assignments.
    Assign,
    /// `..` and `..=`
    Range,
    /// `||`
    Or,
    /// `&&`
    And,
    /// `let`
    Let,
    /// `==`, `!=`, `<`, `>`, `<=`, `>=`
    Compare,
    /// `|`
    BitOr,
    /// `^`
    BitXor,
    /// `&`
    BitAnd,
    /// `<<` and `>>`
    Shift,
    /// `+` and `-`
    Sum,
    /// `*`, `/` and `%`
    Product,
    /// `as`
    Cast,
    /// Prefix `*`, `!`, `-`, `&`; and after an outer attribute what is `Unambiguous` otherwise.
    Prefix,
    /// Everything else.
    Unambiguous,
}

impl Precedence {
    /// The loosest precedence.
    pub const MIN: Precedence = Precedence::Jump;
}

/// Where an expression is.
#[derive(Clone, Copy, Debug, PartialEq, Eq)]
pub struct Place {
    /// Infix operators above this level belong to the expression.
    pub level: Precedence,
    /// Before the block of an `if`, `while`, `match` or `for`, where a brace opens that block.
    pub condition: bool,
    /// At the head of a statement or of a match arm's body.
    pub head: bool,
}
