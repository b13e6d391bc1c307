//! The guards in a pattern, which are the expressions in it.

ghost use Rattle.syn_expr_core.specs.View.{pat_of, tree_of};
ghost use Rattle.syn_visit.specs.Within.{SeesWithin, TakesWithin};
ghost use Rattle.syn_visit_kinds.specs.Changes.{Change, ChangedGuards};
ghost use Rattle.syn_visit_kinds.specs.Walk.{Saw, Shown, Walk};

use crate::members;
use crate::passed::Passed;
use std::marker::PhantomData;
use syn_expr_core::expr::Expr;
use syn_expr_core::pat::Pat;
use syn_visit_kinds::each::{one, punctuated_with};
use syn_visit_kinds::each_pat::{inner, struct_pat, sub_pattern};
use syn_visit_kinds::pat;

/// Calls a function with each guard in a pattern and with the state.
pub(crate) fn pattern<S, R: Drop, F: Fn(&Expr, &mut S) -> Result<(), R>>(
    x: &Pat,
    state: &mut S,
    call: &F,
) -> Result<(), R>
    requires { SeesWithin (F.pre call.now) x.now }
    ensures { Walk (Shown tree_of (Saw (F.post call.now))) (pat_of x.now).guards state.old result state.new }
{
    let passed = Passed {
        call,
        errors: PhantomData,
    };
    within(x, &passed, state)
}

/// As `pattern`, in a form that can pass itself on.
pub(crate) fn within<S, R: Drop, F: Fn(&Expr, &mut S) -> Result<(), R>>(
    x: &Pat,
    passed: &Passed<'_, F, R>,
    state: &mut S,
) -> Result<(), R>
    requires { SeesWithin (F.pre passed.now.call.now) x.now }
    ensures { Walk (Shown tree_of (Saw (F.post passed.now.call.now))) (pat_of x.now).guards state.old result state.new }
{
    match x {
        Pat::Const(_) => Ok(()),
        Pat::Guard(x) => {
            inner(&x.pat, passed, state, &within::<S, R, F>)?;
            one(&x.guard, state, passed.call)
        }
        Pat::Ident(x) => sub_pattern(&x.subpat, passed, state, &within::<S, R, F>),
        Pat::Lit(_) => Ok(()),
        Pat::Macro(_) => Ok(()),
        Pat::Or(x) => punctuated_with(&x.cases, passed, state, &within::<S, R, F>),
        Pat::Paren(x) => inner(&x.pat, passed, state, &within::<S, R, F>),
        Pat::Path(_) => Ok(()),
        Pat::Range(_) => Ok(()),
        Pat::Reference(x) => inner(&x.pat, passed, state, &within::<S, R, F>),
        Pat::Rest(_) => Ok(()),
        Pat::Slice(x) => punctuated_with(&x.elems, passed, state, &within::<S, R, F>),
        Pat::Struct(x) => struct_pat(&x.fields, passed, state, &within::<S, R, F>),
        Pat::Tuple(x) => punctuated_with(&x.elems, passed, state, &within::<S, R, F>),
        Pat::TupleStruct(x) => punctuated_with(&x.elems, passed, state, &within::<S, R, F>),
        Pat::Typed(x) => inner(&x.pat, passed, state, &within::<S, R, F>),
        Pat::Wild(_) => Ok(()),
    }
}

/// Calls a function with each guard in a pattern, which it may change.
pub(crate) fn pattern_mut<R: Drop, F: Fn(&mut Expr) -> Result<(), R>>(
    x: &mut Pat,
    call: &F,
) -> Result<(), R>
    requires { TakesWithin (F.pre call.now) x.old }
    ensures { ChangedGuards (Change tree_of (F.post call.now)) (pat_of x.old) result (pat_of x.new) }
{
    let passed = Passed {
        call,
        errors: PhantomData,
    };
    within_mut(x, &passed)
}

/// As `pattern_mut`, in a form that can pass itself on.
pub(crate) fn within_mut<R: Drop, F: Fn(&mut Expr) -> Result<(), R>>(
    x: &mut Pat,
    passed: &Passed<'_, F, R>,
) -> Result<(), R>
    requires { TakesWithin (F.pre passed.now.call.now) x.old }
    ensures { ChangedGuards (Change tree_of (F.post passed.now.call.now)) (pat_of x.old) result (pat_of x.new) }
{
    match x {
        Pat::Const(_) => Ok(()),
        Pat::Guard(x) => members::guarded_mut(x, passed, &within_mut::<R, F>),
        Pat::Ident(x) => pat::ident_mut(x, passed, &within_mut::<R, F>),
        Pat::Lit(_) => Ok(()),
        Pat::Macro(_) => Ok(()),
        Pat::Or(x) => pat::or_mut(x, passed, &within_mut::<R, F>),
        Pat::Paren(x) => pat::paren_mut(x, passed, &within_mut::<R, F>),
        Pat::Path(_) => Ok(()),
        Pat::Range(_) => Ok(()),
        Pat::Reference(x) => pat::reference_mut(x, passed, &within_mut::<R, F>),
        Pat::Rest(_) => Ok(()),
        Pat::Slice(x) => pat::slice_mut(x, passed, &within_mut::<R, F>),
        Pat::Struct(x) => pat::struct_pat_mut(x, passed, &within_mut::<R, F>),
        Pat::Tuple(x) => pat::tuple_mut(x, passed, &within_mut::<R, F>),
        Pat::TupleStruct(x) => pat::tuple_struct_mut(x, passed, &within_mut::<R, F>),
        Pat::Typed(x) => pat::typed_mut(x, passed, &within_mut::<R, F>),
        Pat::Wild(_) => Ok(()),
    }
}
