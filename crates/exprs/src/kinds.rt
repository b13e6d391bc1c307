//! Counts of kinds.

ghost use Rattle.std.specs.Prelude.{◌≡◌, replicate};
ghost use Rattle.exprs.specs.Kinds as spec;
ghost use Rattle.syn_expr_core.specs.View.{tree_of};

use syn_expr::Expr;

/// How many kinds there are.
pub const KINDS: usize = 40;

/// The names of the kinds, as syn has them.
pub const NAMES: [&str; KINDS] = [
    "Array",
    "Assign",
    "Async",
    "Await",
    "Binary",
    "Block",
    "Break",
    "Call",
    "Cast",
    "Closure",
    "Const",
    "Continue",
    "Field",
    "ForLoop",
    "Group",
    "If",
    "Index",
    "Infer",
    "Let",
    "Lit",
    "Loop",
    "Macro",
    "Match",
    "MethodCall",
    "Paren",
    "Path",
    "Range",
    "RawAddr",
    "Reference",
    "Repeat",
    "Return",
    "Struct",
    "Try",
    "TryBlock",
    "Tuple",
    "Unary",
    "Unsafe",
    "While",
    "Yield",
    "Verbatim",
];

/// The number of an expression's kind, in the order of `NAMES`.
#[tactic(auto, using(syn_expr_core::proofs::TreeOf::kinds, syn_expr_core::proofs::TreeOf::members, crate::proofs::KindLaws::laws))]
pub fn kind_of(expr: &Expr) -> usize
    ensures { result ≡ spec.kind_of (tree_of expr.now) }
{
    match expr {
        Expr::Array(_) => 0,
        Expr::Assign(_) => 1,
        Expr::Async(_) => 2,
        Expr::Await(_) => 3,
        Expr::Binary(_) => 4,
        Expr::Block(_) => 5,
        Expr::Break(_) => 6,
        Expr::Call(_) => 7,
        Expr::Cast(_) => 8,
        Expr::Closure(_) => 9,
        Expr::Const(_) => 10,
        Expr::Continue(_) => 11,
        Expr::Field(_) => 12,
        Expr::ForLoop(_) => 13,
        Expr::Group(_) => 14,
        Expr::If(_) => 15,
        Expr::Index(_) => 16,
        Expr::Infer(_) => 17,
        Expr::Let(_) => 18,
        Expr::Lit(_) => 19,
        Expr::Loop(_) => 20,
        Expr::Macro(_) => 21,
        Expr::Match(_) => 22,
        Expr::MethodCall(_) => 23,
        Expr::Paren(_) => 24,
        Expr::Path(_) => 25,
        Expr::Range(_) => 26,
        Expr::RawAddr(_) => 27,
        Expr::Reference(_) => 28,
        Expr::Repeat(_) => 29,
        Expr::Return(_) => 30,
        Expr::Struct(_) => 31,
        Expr::Try(_) => 32,
        Expr::TryBlock(_) => 33,
        Expr::Tuple(_) => 34,
        Expr::Unary(_) => 35,
        Expr::Unsafe(_) => 36,
        Expr::While(_) => 37,
        Expr::Yield(_) => 38,
        Expr::Verbatim(_) => 39,
    }
}

/// How many expressions there are of each kind, in the order of `NAMES`.
#[derive(Drop)]
pub struct Counts {
    /// The numbers.
    pub of: [u64; KINDS],
}

impl Counts {
    /// None of any kind.
    pub fn new() -> Counts
        ensures { result.of ≡ replicate 40 0 }
    {
        Counts { of: [0; KINDS] }
    }

    /// One more of this kind. A count that reaches the greatest `u64` stays there.
    pub fn add(&mut self, kind: usize)
        ensures { self.new.of ≡ spec.counted kind self.old.of }
    {
        if kind < KINDS {
            self.of[kind] = self.of[kind].saturating_add(1);
        }
    }
}
