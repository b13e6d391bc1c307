//! Bounds, and the lifetimes in front of them (Rust Reference, "Trait and lifetime bounds").

pub use crate::ty::{BoundLifetimes, TraitBound, TypeParamBound};
