//! The nodes of a few trees, computed by the definitions alone.

ghost use Rattle.syn_visit_kinds.specs.Samples.{Samples};

/// What the nodes of some trees are, and what these are rewritten to.
pub fn samples()
    ensures { Samples }
{}
