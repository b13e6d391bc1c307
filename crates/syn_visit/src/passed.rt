//! A function with the type of its errors.

use std::marker::PhantomData;

/// A function that is called with nodes, along with the type of its errors.
///
/// A function that passes itself on has to name each type in its result by the types of its arguments: the type of errors too,
/// which the type of the function doesn't name.
#[derive(Drop)]
pub(crate) struct Passed<'a, F, R> {
    /// The function.
    pub(crate) call: &'a F,
    /// The type of its errors.
    pub(crate) errors: PhantomData<R>,
}
