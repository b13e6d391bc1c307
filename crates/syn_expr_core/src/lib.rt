//! Expressions and the patterns in them, as in syn. Types, paths, attributes, literals and the other lower parts are at the
//! root of `syn_lower`, tokens and their readers at that of `syn_tokens`.
#![tactic(auto)]

mod alone;
mod arm;
pub mod closure;
pub mod control;
pub mod expr;
pub mod held;
mod leftover;
mod make;
mod make_pat;
mod of_kind;
mod parse;
pub mod pat;
mod pattern;
mod print;
mod print_pat;
mod read_pat;
mod single;
mod strays;

pub use held::HeldExpr;
pub use pat::{
    FieldPat, FieldPatKind, FullFieldPat, Pat, PatConst, PatGuard, PatIdent, PatLit, PatMacro,
    PatOr, PatParen, PatPath, PatRange, PatReference, PatRest, PatSlice, PatStruct, PatTuple,
    PatTupleStruct, PatType, PatWild, RangeBound, ShortFieldPat,
};
pub use print::print_counted;
pub use syn_expr_tokens::limits::RangeLimits;
pub use syn_expr_tokens::member::{Index, Member};
pub use syn_expr_tokens::modifiers::{BlockModifiers, ClosureModifiers, Label};
pub use syn_expr_tokens::op::{BinOp, UnOp};
