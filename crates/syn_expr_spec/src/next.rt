//! What a printer has to know of the place of a node: what comes after it, and what is round it.

/// The first token after a node, as far as it decides about parentheses.
#[derive(Clone, Copy, Debug, PartialEq, Eq)]
pub enum Next {
    /// Nothing, or a token with which no expression goes on.
    End,
    /// `=` or a compound assignment but `<<=`
    Assign,
    /// `<<=`
    ShiftLeftAssign,
    /// `..` or `..=`
    Range,
    /// `||`
    OrOr,
    /// `&&`
    AndAnd,
    /// `==`, `<=`, `!=`, `>=` or `>`
    Compare,
    /// `<`
    Less,
    /// `|`
    Or,
    /// `^`
    Caret,
    /// `&`
    And,
    /// `<<`
    ShiftLeft,
    /// `>>`
    ShiftRight,
    /// `+`
    Plus,
    /// `-`
    Minus,
    /// `*`
    Star,
    /// `/` or `%`
    Divide,
    /// `as`
    As,
    /// `.` that begins no `..`
    Dot,
    /// `?`
    Question,
    /// A group in parentheses.
    Parenthesis,
    /// A group in brackets.
    Bracket,
    /// A group in braces that opens a block: after a condition.
    Block,
    /// A group in braces elsewhere: after the value of a jump in a condition.
    Brace,
}

/// What the first leaf of a node may be.
#[derive(Clone, Copy, Debug, PartialEq, Eq)]
pub enum Edge {
    /// Anything.
    Free,
    /// Nothing that begins with a brace.
    NoBrace,
    /// At the head of a match arm's body: a block-like leaf is the whole there, or the base of `.` or `?`.
    Arm,
    /// On the left of something at the head of an arm's body: no block-like leaf.
    BelowArm,
    /// At the head of a statement: as in an arm, and a `let` is in parentheses.
    Statement,
    /// On the left of something at the head of a statement: no block-like leaf, no macro with braces, no `let`.
    BelowStatement,
}

/// All that decides about a node's parentheses, but the node itself and what it is to its owner.
#[derive(Clone, Copy, Debug, PartialEq, Eq)]
pub struct Context {
    /// Before the block of an `if`, `while`, `match` or `for`.
    pub condition: bool,
    /// What its first leaf may be.
    pub edge: Edge,
    /// What comes after it.
    pub next: Next,
}
