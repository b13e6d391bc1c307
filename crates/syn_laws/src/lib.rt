//! What follows of readers, printers and the derived `==` together, as contracts of functions that do nothing.
#![tactic(auto)]

pub mod laws;
pub mod same;
