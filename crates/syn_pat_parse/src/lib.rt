//! The readers of patterns and of what they hold, over any type of patterns and any reader of the patterns inside.
//!
//! Memory aside, they refuse as `ExpectedPart` of a pattern where a pattern is wanted and none begins, of a path where the
//! end of a closed range or a segment is, of a literal at a `-` that no number follows, of a macro after `a!`; as
//! `ExpectedToken` of any other token that is missing; as a type, `Index` and `Member` are refused; and as `UnexpectedToken`
//! at what is left in a group.
#![tactic(auto)]

pub mod choice;
pub mod front;
pub mod grammar;
pub mod kinds;
mod path;
pub mod range;
