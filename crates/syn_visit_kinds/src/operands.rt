//! Calls a function on each operand that a box, an option or a list holds, from left to right; the function may change it.

ghost use Rattle.std.specs.Prelude.{◌≡◌, Contains, IfErr, IfOk};
ghost use Rattle.std.specs.Option.{ForSome};
ghost use Rattle.syn_lower_leaves.specs.View.{last_of, trails, values};
ghost use Rattle.syn_visit_kinds.specs.Calls.{Each, Left, LeftWith, Refused, RefusedWith, Takes, TakesWith};
ghost use Rattle.syn_visit_kinds.specs.Changes.{Change, ChangeWith, Changed};

use syn_lower::punctuated::Punctuated;

/// One operand.
pub fn one_mut<T, R: Drop, F: Fn(&mut T) -> Result<(), R>>(x: &mut T, call: &F) -> Result<(), R>
    requires { Takes (F.pre call.now) x.old }
    ensures changed { Change (λ y. y) (F.post call.now) x.old result x.new }
    ensures left { IfOk result (λ _. Left (F.post call.now) x.old x.new) }
    ensures refused { IfErr result (Refused (F.post call.now)) }
{
    call(x)
}

/// One in a box.
pub fn boxed_mut<T, R: Drop, F: Fn(&mut T) -> Result<(), R>>(
    x: &mut Box<T>,
    call: &F,
) -> Result<(), R>
    requires { Takes (F.pre call.now) x.old.value }
    ensures changed { Change (λ y. y) (F.post call.now) x.old.value result x.new.value }
    ensures left { IfOk result (λ _. Left (F.post call.now) x.old.value x.new.value) }
    ensures refused { IfErr result (Refused (F.post call.now)) }
{
    call(x)
}

/// One operand, for a function that is passed something else besides.
fn one_with_mut<T, C, R: Drop, F: Fn(&mut T, &C) -> Result<(), R>>(
    x: &mut T,
    context: &C,
    call: &F,
) -> Result<(), R>
    requires { TakesWith (F.pre call.now) context.now x.old }
    ensures { ChangeWith (λ y. y) (F.post call.now) context.now x.old result x.new }
{
    call(x, context)
}

/// One in a box.
pub fn boxed_with_mut<T, C, R: Drop, F: Fn(&mut T, &C) -> Result<(), R>>(
    x: &mut Box<T>,
    context: &C,
    call: &F,
) -> Result<(), R>
    requires { TakesWith (F.pre call.now) context.now x.old.value }
    ensures changed { ChangeWith (λ y. y) (F.post call.now) context.now x.old.value result x.new.value }
    ensures left { IfOk result (λ _. LeftWith (F.post call.now) context.now x.old.value x.new.value) }
    ensures refused { IfErr result (RefusedWith (F.post call.now) context.now) }
{
    call(x, context)
}

/// An operand that may be there.
pub fn optional_mut<T, R: Drop, F: Fn(&mut T) -> Result<(), R>>(
    x: &mut Option<Box<T>>,
    call: &F,
) -> Result<(), R>
    requires { ForSome x.old (λ b. Takes (F.pre call.now) b.value) }
    ensures changed { Changed (Change (λ y. y) (F.post call.now)) (last_of x.old) result (last_of x.new) }
    ensures left { IfOk result (λ _. Each (Left (F.post call.now)) (last_of x.old) (last_of x.new)) }
    ensures refused { IfErr result (Refused (F.post call.now)) }
{
    match x {
        Some(x) => boxed_mut(x, call),
        None => Ok(()),
    }
}

/// The values that puncts follow.
#[tactic(auto, using(crate::proofs::Upto::upto))]
fn pairs_mut<T, P, R: Drop, F: Fn(&mut T) -> Result<(), R>>(
    xs: &mut Vec<(T, P)>,
    call: &F,
) -> Result<(), R>
    requires { (q : T × P) → Contains xs.old.items q → Takes (F.pre call.now) q.0 }
    ensures { Changed (λ p r q. Change (λ y. y) (F.post call.now) p.0 r q.0) xs.old.items result xs.new.items }
{
    for pair in xs.iter_mut() {
        one_mut(&mut pair.0, call)?;
    }
    Ok(())
}

/// A list with puncts, which stay.
pub fn punctuated_mut<T, P, R: Drop, F: Fn(&mut T) -> Result<(), R>>(
    x: &mut Punctuated<T, P>,
    call: &F,
) -> Result<(), R>
    requires inner { (q : T × P) → Contains x.old.inner.items q → Takes (F.pre call.now) q.0 }
    requires last { ForSome x.old.last (λ b. Takes (F.pre call.now) b.value) }
    ensures changed { Changed (Change (λ y. y) (F.post call.now)) (values x.old) result (values x.new) }
    ensures values { IfOk result (λ _. Each (Left (F.post call.now)) (values x.old) (values x.new)) }
    ensures trails { trails x.new ≡ trails x.old }
    ensures refused { IfErr result (Refused (F.post call.now)) }
{
    pairs_mut(&mut x.inner, call)?;
    optional_mut(&mut x.last, call)
}

/// The same, for a function that is passed something else besides.
pub fn punctuated_with_mut<T, P, C, R: Drop, F: Fn(&mut T, &C) -> Result<(), R>>(
    x: &mut Punctuated<T, P>,
    context: &C,
    call: &F,
) -> Result<(), R>
    requires inner { (q : T × P) → Contains x.old.inner.items q → TakesWith (F.pre call.now) context.now q.0 }
    requires last { ForSome x.old.last (λ b. TakesWith (F.pre call.now) context.now b.value) }
    ensures changed { Changed (ChangeWith (λ y. y) (F.post call.now) context.now) (values x.old) result (values x.new) }
    ensures values { IfOk result (λ _. Each (LeftWith (F.post call.now) context.now) (values x.old) (values x.new)) }
    ensures trails { trails x.new ≡ trails x.old }
    ensures refused { IfErr result (RefusedWith (F.post call.now) context.now) }
{
    punctuated_mut(
        x,
        &|one: &mut T| -> Result<(), R>
            requires { TakesWith (F.pre call.now) context.now one.old }
            ensures { ChangeWith (λ y. y) (F.post call.entry.now) context.entry.now one.old result one.new }
        { one_with_mut(one, context, call) },
    )
}
