//! `FixupContext`: whether an expression is put in parentheses, from the summary that a printer makes of each node in one
//! pass.
#![tactic(auto)]

pub mod context;
pub mod fixup;
pub mod summary;

pub use fixup::FixupContext;
pub use summary::{HasArms, collect, collect_arm, collect_field, collect_operands, summary_of};
