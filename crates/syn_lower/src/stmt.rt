//! Blocks (Rust Reference, "Block expressions").

pub use syn_lower_leaves::block::Block;
