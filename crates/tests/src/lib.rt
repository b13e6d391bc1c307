//! Tests of what is no row: all small trees, and deep ones.
#![tactic(auto)]

#[cfg(test)]
mod deep;
#[cfg(test)]
mod small;
