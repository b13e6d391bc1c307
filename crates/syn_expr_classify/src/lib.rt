//! What the layers above ask of an expression and of a type: whether a comma or a semicolon has to follow an expression,
//! whether a label is first in it and braces last, and whether a type ends in a name without arguments.
#![tactic(auto)]

mod brace;
pub mod classify;
mod name;

pub use classify::{
    HasFrames, expr_leading_label, expr_trailing_brace, requires_comma_to_be_match_arm,
    requires_semi_to_be_stmt, trailing_unparameterized_path,
};
