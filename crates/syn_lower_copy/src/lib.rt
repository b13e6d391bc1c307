//! Copies of the lower parts of expressions: attributes, literals, lifetimes, blocks, paths, macros and types, with their
//! places. Each is refused only where memory runs out, and all that was copied by then is dropped.
//!
//! What holds types is copied by functions that are generic in the type of types, and take the copying of a type: so each is
//! proved by itself. `types` puts `Type` in.
#![tactic(auto)]

pub mod argument;
pub mod bound;
pub mod kind;
pub mod leaf;
pub mod list;
pub mod path;
pub mod seen;
pub mod types;
