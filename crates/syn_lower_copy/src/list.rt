//! Copies of what is in boxes and in lists, by the copying of one value.

ghost use Rattle.std.specs.Option.{ForSome};
ghost use Rattle.std.specs.Prelude.{◌≡◌, Contains, IfOk, IfErr, map};
ghost use Rattle.syn_lower_copy.specs.Copying.{Copies, Takes, RunsOut};
ghost use Rattle.syn_lower_leaves.specs.View.{last_of, trails, values};

use crate::seen::Sees;
use std::alloc::Global;
use syn_lower_leaves::punctuated::Punctuated;
use syn_tokens::error::{ErrorKind, Result};

/// A copy of a value in a box.
pub fn copy_boxed<V: Sees<A> + Copy, A: Drop, F: Fn(&A, Global) -> Result<A>>(
    alloc: Global,
    _by: V,
    x: &Box<A>,
    call: &F,
) -> Result<Box<A>>
    requires takes { Takes (F.pre call.now) alloc x.now.value }
    requires copies { Copies V.seen (F.post call.now) alloc }
    requires runs_out { RunsOut (F.post call.now) alloc }
    ensures copied { IfOk result (λ y. V.seen y.value ≡ V.seen x.now.value) }
    ensures memory { IfErr result (λ e. e.kind ≡ ErrorKind.OutOfMemory) }
{
    let y = call(x, alloc)?;
    Ok(Box::new(alloc, y)?)
}

/// A copy of a value that may be there.
pub fn copy_last<V: Sees<A> + Copy, A: Drop, F: Fn(&A, Global) -> Result<A>>(
    alloc: Global,
    by: V,
    x: &Option<Box<A>>,
    call: &F,
) -> Result<Option<Box<A>>>
    requires takes { ForSome x.now (λ b. Takes (F.pre call.now) alloc b.value) }
    requires copies { Copies V.seen (F.post call.now) alloc }
    requires runs_out { RunsOut (F.post call.now) alloc }
    ensures copied { IfOk result (λ y. map V.seen (last_of y) ≡ map V.seen (last_of x.now)) }
    ensures memory { IfErr result (λ e. e.kind ≡ ErrorKind.OutOfMemory) }
{
    match x {
        Some(x) => Ok(Some(copy_boxed(alloc, by, x, call)?)),
        None => Ok(None),
    }
}

/// The value that a punct follows.
fn value_of<A, P>(pair: &(A, P)) -> &A
    ensures { result.now ≡ pair.now.0 }
{
    &pair.0
}

/// Copies of values with the puncts after them.
fn copy_pairs<V: Sees<A> + Copy, A: Drop, P: Copy + Drop, F: Fn(&A, Global) -> Result<A>>(
    alloc: Global,
    _by: V,
    xs: &[(A, P)],
    call: &F,
) -> Result<Vec<(A, P)>>
    requires takes { (q : _) → Contains xs.now q → Takes (F.pre call.now) alloc q.0 }
    requires copies { Copies V.seen (F.post call.now) alloc }
    requires runs_out { RunsOut (F.post call.now) alloc }
    ensures copied { IfOk result (λ ys. map (λ q. V.seen q.0) ys.items ≡ map (λ q. V.seen q.0) xs.now) }
    ensures memory { IfErr result (λ e. e.kind ≡ ErrorKind.OutOfMemory) }
{
    let mut ys = Vec::new(alloc);
    for x in xs {
        let value = call(value_of(x), alloc)?;
        ys.push((value, x.1))?;
    }
    Ok(ys)
}

/// A copy of a list with puncts.
pub fn copy_punctuated<V: Sees<A> + Copy, A: Drop, P: Copy + Drop, F: Fn(&A, Global) -> Result<A>>(
    alloc: Global,
    by: V,
    x: &Punctuated<A, P>,
    call: &F,
) -> Result<Punctuated<A, P>>
    requires inner { (q : _) → Contains x.now.inner.items q → Takes (F.pre call.now) alloc q.0 }
    requires last { ForSome x.now.last (λ b. Takes (F.pre call.now) alloc b.value) }
    requires copies { Copies V.seen (F.post call.now) alloc }
    requires runs_out { RunsOut (F.post call.now) alloc }
    ensures values { IfOk result (λ y. map V.seen (values y) ≡ map V.seen (values x.now)) }
    ensures trails { IfOk result (λ y. trails y ≡ trails x.now) }
    ensures memory { IfErr result (λ e. e.kind ≡ ErrorKind.OutOfMemory) }
{
    let inner = copy_pairs(alloc, by, &x.inner, call)?;
    let last = copy_last(alloc, by, &x.last, call)?;
    Ok(Punctuated { inner, last })
}

/// Copies of values.
fn copy_each<V: Sees<A> + Copy, A: Drop, F: Fn(&A, Global) -> Result<A>>(
    alloc: Global,
    _by: V,
    xs: &[A],
    call: &F,
) -> Result<Vec<A>>
    requires takes { (x : _) → Contains xs.now x → Takes (F.pre call.now) alloc x }
    requires copies { Copies V.seen (F.post call.now) alloc }
    requires runs_out { RunsOut (F.post call.now) alloc }
    ensures copied { IfOk result (λ ys. map V.seen ys.items ≡ map V.seen xs.now) }
    ensures memory { IfErr result (λ e. e.kind ≡ ErrorKind.OutOfMemory) }
{
    let mut ys = Vec::new(alloc);
    for x in xs {
        ys.push(call(x, alloc)?)?;
    }
    Ok(ys)
}

/// A copy of a list.
pub fn copy_all<V: Sees<A> + Copy, A: Drop, F: Fn(&A, Global) -> Result<A>>(
    alloc: Global,
    by: V,
    xs: &Vec<A>,
    call: &F,
) -> Result<Vec<A>>
    requires takes { (x : _) → Contains xs.now.items x → Takes (F.pre call.now) alloc x }
    requires copies { Copies V.seen (F.post call.now) alloc }
    requires runs_out { RunsOut (F.post call.now) alloc }
    ensures copied { IfOk result (λ ys. map V.seen ys.items ≡ map V.seen xs.now.items) }
    ensures memory { IfErr result (λ e. e.kind ≡ ErrorKind.OutOfMemory) }
{
    copy_each(alloc, by, xs, call)
}
