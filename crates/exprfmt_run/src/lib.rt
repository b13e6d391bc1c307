//! What the program `exprfmt` does, over any reader and writers.
#![tactic(auto)]

pub mod run;
