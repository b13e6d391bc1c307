//! Copies of what is in boxes and in lists, by the copying of one value. Where memory runs out, what was copied is dropped value
//! by value, so that the type of values needn't be `Drop`.

ghost use Rattle.std.specs.Option.{ForSome};
ghost use Rattle.std.specs.Prelude.{◌≡◌, [], Contains, IfErr, IfOk, map};
ghost use Rattle.syn_lower.specs.View.{trails, values};
ghost use Rattle.syn_lower_copy.specs.Copying.{Copies, Takes, RunsOut};
ghost use Rattle.syn_lower_leaves.specs.View.{last_of};

use crate::seen::Drops;
use std::alloc::{AllocError, Global};
use syn_lower::punctuated::Punctuated;
use syn_lower_copy::seen::Sees;
use syn_tokens::error::{Error, ErrorKind, Result};

/// Drops a copy for which there is no memory, and answers the refusal.
fn refused<V: Drops<A> + Copy, A>(_by: V, y: A) -> Error
    ensures { result.kind ≡ ErrorKind.OutOfMemory }
{
    V::drop_copy(y);
    Error::from(AllocError)
}

/// Drops a copy that may be there.
pub fn drop_some<V: Drops<A> + Copy, A>(_by: V, y: Option<Box<A>>) {
    if let Some(y) = y {
        V::drop_copy(Box::into_inner(y));
    }
}

/// Drops copies with the puncts after them.
fn drop_pairs<V: Drops<A> + Copy, A, P: Drop>(_by: V, mut ys: Vec<(A, P)>) {
    while let Some((y, _)) = ys.pop() {
        V::drop_copy(y);
    }
    ys.destroy_empty();
}

/// Drops copies.
fn drop_each<V: Drops<A> + Copy, A>(_by: V, mut ys: Vec<A>) {
    while let Some(y) = ys.pop() {
        V::drop_copy(y);
    }
    ys.destroy_empty();
}

/// A copy of a value in a box.
pub fn copy_boxed<V: Sees<A> + Drops<A> + Copy, A, F: Fn(&A, Global) -> Result<A>>(
    alloc: Global,
    by: V,
    x: &Box<A>,
    call: &F,
) -> Result<Box<A>>
    requires takes { Takes (F.pre call.now) alloc x.now.value }
    requires copies { Copies V.seen (F.post call.now) alloc }
    requires runs_out { RunsOut (F.post call.now) alloc }
    ensures copied { IfOk result (λ y. V.seen y.value ≡ V.seen x.now.value) }
    ensures memory { IfErr result (λ e. e.kind ≡ ErrorKind.OutOfMemory) }
{
    let y = call(x, alloc)?;
    match Box::new(alloc, y) {
        Ok(y) => Ok(y),
        Err(failed) => Err(refused(by, failed.value)),
    }
}

/// A copy of a value that may be there.
fn copy_last<V: Sees<A> + Drops<A> + Copy, A, F: Fn(&A, Global) -> Result<A>>(
    alloc: Global,
    by: V,
    x: &Option<Box<A>>,
    call: &F,
) -> Result<Option<Box<A>>>
    requires takes { ForSome x.now (λ b. Takes (F.pre call.now) alloc b.value) }
    requires copies { Copies V.seen (F.post call.now) alloc }
    requires runs_out { RunsOut (F.post call.now) alloc }
    ensures copied { IfOk result (λ y. map V.seen (last_of y) ≡ map V.seen (last_of x.now)) }
    ensures memory { IfErr result (λ e. e.kind ≡ ErrorKind.OutOfMemory) }
{
    match x {
        Some(x) => Ok(Some(copy_boxed(alloc, by, x, call)?)),
        None => Ok(None),
    }
}

/// The value that a punct follows.
fn value_of<A, P>(pair: &(A, P)) -> &A
    ensures { result.now ≡ pair.now.0 }
{
    &pair.0
}

/// Puts copies of values into a list, with the puncts after them.
fn push_pairs<V: Sees<A> + Drops<A> + Copy, A, P: Copy + Drop, F: Fn(&A, Global) -> Result<A>>(
    alloc: Global,
    by: V,
    xs: &[(A, P)],
    ys: &mut Vec<(A, P)>,
    call: &F,
) -> Result<()>
    requires takes { (q : _) → Contains xs.now q → Takes (F.pre call.now) alloc q.0 }
    requires copies { Copies V.seen (F.post call.now) alloc }
    requires runs_out { RunsOut (F.post call.now) alloc }
    requires empty { ys.old.items ≡ [] }
    ensures copied { IfOk result (λ _. map (λ q. V.seen q.0) ys.new.items ≡ map (λ q. V.seen q.0) xs.now) }
    ensures memory { IfErr result (λ e. e.kind ≡ ErrorKind.OutOfMemory) }
{
    for x in xs {
        let y = call(value_of(x), alloc)?;
        if let Err(failed) = ys.push((y, x.1)) {
            let (y, _) = failed.value;
            return Err(refused(by, y));
        }
    }
    Ok(())
}

/// Copies the values of a list with puncts: puts those that puncts follow into `ys`, and answers the last.
fn copy_parts<V: Sees<A> + Drops<A> + Copy, A, P: Copy + Drop, F: Fn(&A, Global) -> Result<A>>(
    alloc: Global,
    by: V,
    x: &Punctuated<A, P>,
    ys: &mut Vec<(A, P)>,
    call: &F,
) -> Result<Option<Box<A>>>
    requires inner { (q : _) → Contains x.now.inner.items q → Takes (F.pre call.now) alloc q.0 }
    requires last { ForSome x.now.last (λ b. Takes (F.pre call.now) alloc b.value) }
    requires copies { Copies V.seen (F.post call.now) alloc }
    requires runs_out { RunsOut (F.post call.now) alloc }
    requires empty { ys.old.items ≡ [] }
    ensures pairs { IfOk result (λ _. map (λ q. V.seen q.0) ys.new.items ≡ map (λ q. V.seen q.0) x.now.inner.items) }
    ensures last { IfOk result (λ y. map V.seen (last_of y) ≡ map V.seen (last_of x.now.last)) }
    ensures memory { IfErr result (λ e. e.kind ≡ ErrorKind.OutOfMemory) }
{
    push_pairs(alloc, by, &x.inner, ys, call)?;
    copy_last(alloc, by, &x.last, call)
}

/// A copy of a list with puncts.
#[tactic(auto, using(syn_lower_copy::proofs::Lists::values_copied))]
pub fn copy_punctuated<
    V: Sees<A> + Drops<A> + Copy,
    A,
    P: Copy + Drop,
    F: Fn(&A, Global) -> Result<A>,
>(alloc: Global, by: V, x: &Punctuated<A, P>, call: &F) -> Result<Punctuated<A, P>>
    requires inner { (q : _) → Contains x.now.inner.items q → Takes (F.pre call.now) alloc q.0 }
    requires last { ForSome x.now.last (λ b. Takes (F.pre call.now) alloc b.value) }
    requires copies { Copies V.seen (F.post call.now) alloc }
    requires runs_out { RunsOut (F.post call.now) alloc }
    ensures values { IfOk result (λ y. map V.seen (values y) ≡ map V.seen (values x.now)) }
    ensures trails { IfOk result (λ y. trails y ≡ trails x.now) }
    ensures memory { IfErr result (λ e. e.kind ≡ ErrorKind.OutOfMemory) }
{
    let mut inner = Vec::new(alloc);
    match copy_parts(alloc, by, x, &mut inner, call) {
        Ok(last) => Ok(Punctuated { inner, last }),
        Err(e) => {
            drop_pairs(by, inner);
            Err(e)
        }
    }
}

/// Puts copies of values into a list.
fn push_each<V: Sees<A> + Drops<A> + Copy, A, F: Fn(&A, Global) -> Result<A>>(
    alloc: Global,
    by: V,
    xs: &[A],
    ys: &mut Vec<A>,
    call: &F,
) -> Result<()>
    requires takes { (x : _) → Contains xs.now x → Takes (F.pre call.now) alloc x }
    requires copies { Copies V.seen (F.post call.now) alloc }
    requires runs_out { RunsOut (F.post call.now) alloc }
    requires empty { ys.old.items ≡ [] }
    ensures copied { IfOk result (λ _. map V.seen ys.new.items ≡ map V.seen xs.now) }
    ensures memory { IfErr result (λ e. e.kind ≡ ErrorKind.OutOfMemory) }
{
    for x in xs {
        let y = call(x, alloc)?;
        if let Err(failed) = ys.push(y) {
            return Err(refused(by, failed.value));
        }
    }
    Ok(())
}

/// A copy of a list.
pub fn copy_all<V: Sees<A> + Drops<A> + Copy, A, F: Fn(&A, Global) -> Result<A>>(
    alloc: Global,
    by: V,
    xs: &Vec<A>,
    call: &F,
) -> Result<Vec<A>>
    requires takes { (x : _) → Contains xs.now.items x → Takes (F.pre call.now) alloc x }
    requires copies { Copies V.seen (F.post call.now) alloc }
    requires runs_out { RunsOut (F.post call.now) alloc }
    ensures copied { IfOk result (λ ys. map V.seen ys.items ≡ map V.seen xs.now.items) }
    ensures memory { IfErr result (λ e. e.kind ≡ ErrorKind.OutOfMemory) }
{
    let mut ys = Vec::new(alloc);
    match push_each(alloc, by, xs, &mut ys, call) {
        Ok(()) => Ok(ys),
        Err(e) => {
            drop_each(by, ys);
            Err(e)
        }
    }
}
