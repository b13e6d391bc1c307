//! What is seen of the values that are copied.

ghost use Rattle.syn_lower_types.specs.View as view;
ghost use Rattle.syn_lower_leaves.specs.View.{lifetime_of};

use syn_lower_leaves::lifetime::Lifetime;
use syn_lower_types::path::{GenericArgumentOf, PathSegmentOf};
use syn_lower_types::ty::{BareFnArgOf, TypeParamBoundOf};
use syn_lower_types::types::HasTree;

/// What contracts see of an `A`.
///
/// Lists are copied by code that is generic in this, so that it stands once for values of all types.
pub trait Sees<A> {
    /// What is seen.
    ghost Seen: { Type 0 };

    /// All of a value but its places.
    ghost seen: { A → Seen };
}

/// Types by their trees.
#[derive(Clone, Copy)]
pub struct ByTree {}

impl<T: HasTree> Sees<T> for ByTree {
    ghost use Rattle.syn_lower_spec.specs.Tree.{TypeTree};

    ghost Seen = { TypeTree };

    ghost seen = { T.tree };
}

/// Lifetimes by their words.
#[derive(Clone, Copy)]
pub struct ByWord {}

impl Sees<Lifetime> for ByWord {
    ghost use Rattle.syn_lower_spec.specs.Text.{Text};

    ghost Seen = { Text };

    ghost seen = { lifetime_of };
}

/// Segments of paths by their trees.
#[derive(Clone, Copy)]
pub struct BySegment {}

impl<T: HasTree> Sees<PathSegmentOf<T>> for BySegment {
    ghost use Rattle.syn_lower_spec.specs.Tree.{SegmentTree};

    ghost Seen = { SegmentTree };

    ghost seen = { view.segment_of T.tree };
}

/// Arguments between `<` and `>` by their trees.
#[derive(Clone, Copy)]
pub struct ByGeneric {}

impl<T: HasTree> Sees<GenericArgumentOf<T>> for ByGeneric {
    ghost use Rattle.syn_lower_spec.specs.Tree.{GenericTree};

    ghost Seen = { GenericTree };

    ghost seen = { view.generic_of T.tree };
}

/// Arguments of function pointers by their trees.
#[derive(Clone, Copy)]
pub struct ByArgument {}

impl<T: HasTree> Sees<BareFnArgOf<T>> for ByArgument {
    ghost use Rattle.syn_lower_spec.specs.Tree.{FnArgTree};

    ghost Seen = { FnArgTree };

    ghost seen = { view.arg_of T.tree };
}

/// Bounds by their trees.
#[derive(Clone, Copy)]
pub struct ByBound {}

impl<T: HasTree> Sees<TypeParamBoundOf<T>> for ByBound {
    ghost use Rattle.syn_lower_spec.specs.Tree.{BoundTree};

    ghost Seen = { BoundTree };

    ghost seen = { view.bound_of T.tree };
}
