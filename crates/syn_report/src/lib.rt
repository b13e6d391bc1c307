//! Refusals that people can read: the line and the column of a place in a text, and reports that show them there.
#![tactic(auto)]

mod mistakes;
mod place;
mod refusal;
mod snippet;

pub use place::LineColumn;
pub use refusal::{report, report_after};
pub use snippet::report_at;
