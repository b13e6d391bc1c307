//! Makers of expressions, without a text: each takes what an expression of its kind is made of, and gives that expression with
//! exactly this tree, at no place and without attributes. `binary(alloc, a, op, b)?` is `a op b`; how a tree is printed, and
//! where it then has parentheses, is the printer's.
//!
//! They are generic in the type that holds an expression and drops it: they take and give values of that type, and a
//! program puts `HeldExpr` in. Patterns, arms and fields are held as `Held`, and lists are vectors. A maker that takes memory is
//! refused where there is none, one that takes a name also where this is no identifier, and one of a literal where the text
//! is none. What it was given is then dropped.
#![tactic(auto)]

mod atoms;
mod blocks;
mod jumps;
mod list;
mod literals;
mod operand;
mod operations;
mod patterns;
mod structs;
mod trailers;

pub use atoms::{array, group, infer, mac, name, paren, path, repeat, tuple, verbatim};
pub use blocks::{
    async_block, block, const_block, if_expr, loop_expr, try_block, unsafe_block, while_expr,
};
pub use jumps::{break_expr, continue_expr, return_expr, yield_expr};
pub use literals::{lit, lit_bool, lit_char, lit_float, lit_int, lit_str};
pub use operations::{assign, binary, cast, range, raw_addr, reference, unary};
pub use patterns::{
    ArmIn, PatIn, arm, closure, for_loop, guarded, ident_pat, let_expr, match_expr,
    tuple_struct_pat, wild_pat,
};
pub use structs::{field_value, struct_expr};
pub use syn_expr_parse::known::{Held, HoldsExpr};
pub use trailers::{await_expr, call, field, index, method_call, try_expr};
