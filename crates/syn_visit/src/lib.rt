//! Going through expressions: a function is called with each operand of a node, looks at it or changes it, and passes itself on
//! to go to all nodes. `visit` has what is here where syn has `Visit`, `visit_mut` what is here for `VisitMut` and `Fold`.
#![tactic(auto)]

mod guards;
mod members;
mod passed;
pub mod visit;
pub mod visit_mut;

pub use visit::{
    any, any_operand, any_operand_with, filter_map, for_each, for_each_operand,
    for_each_operand_with,
};
pub use visit_mut::{for_each_operand_mut, for_each_operand_mut_with, rewrite};
