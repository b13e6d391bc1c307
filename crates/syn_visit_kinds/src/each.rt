//! Calls a function on each operand that a box, an option or a list holds, from left to right, with a state of the caller's.

ghost use Rattle.std.specs.Option.{ForSome};
ghost use Rattle.std.specs.Prelude.{◌++◌, ◌∷◌, [], Contains, map};
ghost use Rattle.syn_expr_ast.specs.declared.structure.FieldValueOf.{FieldValueOf};
ghost use Rattle.syn_lower_leaves.specs.View.{last_of, values};
ghost use Rattle.syn_visit_kinds.specs.Parts.{else_operand};
ghost use Rattle.syn_visit_kinds.specs.Walk.{Saw, SawWith, Sees, SeesWith, Walk};

use syn_expr_ast::structure::FieldValueOf;
use syn_lower::punctuated::Punctuated;
use syn_tokens::token::{Comma, Else};

/// One operand.
pub fn one<T, S, R: Drop, F: Fn(&T, &mut S) -> Result<(), R>>(
    x: &Box<T>,
    state: &mut S,
    call: &F,
) -> Result<(), R>
    requires { Sees (F.pre call.now) x.now.value }
    ensures { Saw (F.post call.now) x.now.value state.old result state.new }
{
    call(x, state)
}

/// Two operands.
pub fn two<T, S, R: Drop, F: Fn(&T, &mut S) -> Result<(), R>>(
    x: &Box<T>,
    y: &Box<T>,
    state: &mut S,
    call: &F,
) -> Result<(), R>
    requires first { Sees (F.pre call.now) x.now.value }
    requires second { Sees (F.pre call.now) y.now.value }
    ensures { Walk (Saw (F.post call.now)) (x.now.value ∷ y.now.value ∷ []) state.old result state.new }
{
    one(x, state, call)?;
    one(y, state, call)
}

/// An operand that may be there.
pub fn optional<T, S, R: Drop, F: Fn(&T, &mut S) -> Result<(), R>>(
    x: &Option<Box<T>>,
    state: &mut S,
    call: &F,
) -> Result<(), R>
    requires { ForSome x.now (λ b. Sees (F.pre call.now) b.value) }
    ensures { Walk (Saw (F.post call.now)) (last_of x.now) state.old result state.new }
{
    match x {
        Some(x) => one(x, state, call),
        None => Ok(()),
    }
}

/// The value of a pair.
fn first<T, P, S, R: Drop, F: Fn(&T, &mut S) -> Result<(), R>>(
    pair: &(T, P),
    state: &mut S,
    call: &F,
) -> Result<(), R>
    requires { Sees (F.pre call.now) pair.now.0 }
    ensures { Saw (F.post call.now) pair.now.0 state.old result state.new }
{
    call(&pair.0, state)
}

/// The values that puncts follow.
fn pairs<T, P, S, R: Drop, F: Fn(&T, &mut S) -> Result<(), R>>(
    pairs: &[(T, P)],
    state: &mut S,
    call: &F,
) -> Result<(), R>
    requires { (q : T × P) → Contains pairs.now q → Sees (F.pre call.now) q.0 }
    ensures { Walk (λ q. Saw (F.post call.now) q.0) pairs.now state.old result state.new }
{
    for pair in pairs {
        first(pair, state, call)?;
    }
    Ok(())
}

/// The values of a list.
pub fn punctuated<T, P, S, R: Drop, F: Fn(&T, &mut S) -> Result<(), R>>(
    x: &Punctuated<T, P>,
    state: &mut S,
    call: &F,
) -> Result<(), R>
    requires inner { (q : T × P) → Contains x.now.inner.items q → Sees (F.pre call.now) q.0 }
    requires last { ForSome x.now.last (λ b. Sees (F.pre call.now) b.value) }
    ensures { Walk (Saw (F.post call.now)) (values x.now) state.old result state.new }
{
    pairs(&x.inner, state, call)?;
    optional(&x.last, state, call)
}

/// The same, for a function that is passed something else besides.
pub fn punctuated_with<T, P, C, S, R: Drop, F: Fn(&T, &C, &mut S) -> Result<(), R>>(
    x: &Punctuated<T, P>,
    context: &C,
    state: &mut S,
    call: &F,
) -> Result<(), R>
    requires inner { (q : T × P) → Contains x.now.inner.items q → SeesWith (F.pre call.now) context.now q.0 }
    requires last { ForSome x.now.last (λ b. SeesWith (F.pre call.now) context.now b.value) }
    ensures { Walk (SawWith (F.post call.now) context.now) (values x.now) state.old result state.new }
{
    punctuated(
        x,
        state,
        &|one: &T, state: &mut S| -> Result<(), R>
            requires { SeesWith (F.pre call.now) context.now one.now }
            ensures { SawWith (F.post call.entry.now) context.entry.now one.now state.old result state.new }
        { call(one, context, state) },
    )
}

/// The ends of a range.
pub fn ends<T, S, R: Drop, F: Fn(&T, &mut S) -> Result<(), R>>(
    x: &Option<Box<T>>,
    y: &Option<Box<T>>,
    state: &mut S,
    call: &F,
) -> Result<(), R>
    requires start { ForSome x.now (λ b. Sees (F.pre call.now) b.value) }
    requires end { ForSome y.now (λ b. Sees (F.pre call.now) b.value) }
    ensures { Walk (Saw (F.post call.now)) (last_of x.now ++ last_of y.now) state.old result state.new }
{
    optional(x, state, call)?;
    optional(y, state, call)
}

/// An operand, and what is in the parentheses of a call.
pub fn call_expr<T, S, R: Drop, F: Fn(&T, &mut S) -> Result<(), R>>(
    base: &Box<T>,
    args: &Punctuated<T, Comma>,
    state: &mut S,
    call: &F,
) -> Result<(), R>
    requires base { Sees (F.pre call.now) base.now.value }
    requires inner { (q : _) → Contains args.now.inner.items q → Sees (F.pre call.now) q.0 }
    requires last { ForSome args.now.last (λ b. Sees (F.pre call.now) b.value) }
    ensures { Walk (Saw (F.post call.now)) (base.now.value ∷ values args.now) state.old result state.new }
{
    one(base, state, call)?;
    punctuated(args, state, call)
}

/// What comes after `else`.
fn else_branch<T, S, R: Drop, F: Fn(&T, &mut S) -> Result<(), R>>(
    x: &Option<(Else, Box<T>)>,
    state: &mut S,
    call: &F,
) -> Result<(), R>
    requires { ForSome x.now (λ q. Sees (F.pre call.now) q.1.value) }
    ensures { Walk (Saw (F.post call.now)) (else_operand x.now) state.old result state.new }
{
    match x {
        Some(both) => one(&both.1, state, call),
        None => Ok(()),
    }
}

/// The condition of an `if`, and what comes after `else`.
pub fn if_expr<T, S, R: Drop, F: Fn(&T, &mut S) -> Result<(), R>>(
    cond: &Box<T>,
    other: &Option<(Else, Box<T>)>,
    state: &mut S,
    call: &F,
) -> Result<(), R>
    requires cond { Sees (F.pre call.now) cond.now.value }
    requires other { ForSome other.now (λ q. Sees (F.pre call.now) q.1.value) }
    ensures { Walk (Saw (F.post call.now)) (cond.now.value ∷ else_operand other.now) state.old result state.new }
{
    one(cond, state, call)?;
    else_branch(other, state, call)
}

/// The values of fields.
fn fields<T, S, R: Drop, F: Fn(&T, &mut S) -> Result<(), R>>(
    x: &Punctuated<FieldValueOf<T>, Comma>,
    state: &mut S,
    call: &F,
) -> Result<(), R>
    requires inner { (q : _) → Contains x.now.inner.items q → Sees (F.pre call.now) q.0.expr }
    requires last { ForSome x.now.last (λ b. Sees (F.pre call.now) b.value.expr) }
    ensures { Walk (Saw (F.post call.now)) (map (λ (y : FieldValueOf T). y.expr) (values x.now)) state.old result state.new }
{
    punctuated(
        x,
        state,
        &|field: &FieldValueOf<T>, state: &mut S| -> Result<(), R>
            requires { Sees (F.pre call.now) field.now.expr }
            ensures { Saw (F.post call.entry.now) field.now.expr state.old result state.new }
        { call(&field.expr, state) },
    )
}

/// The values of the fields of a struct expression, and what the other fields are taken of.
pub fn struct_expr<T, S, R: Drop, F: Fn(&T, &mut S) -> Result<(), R>>(
    x: &Punctuated<FieldValueOf<T>, Comma>,
    rest: &Option<Box<T>>,
    state: &mut S,
    call: &F,
) -> Result<(), R>
    requires inner { (q : _) → Contains x.now.inner.items q → Sees (F.pre call.now) q.0.expr }
    requires last { ForSome x.now.last (λ b. Sees (F.pre call.now) b.value.expr) }
    requires others { ForSome rest.now (λ b. Sees (F.pre call.now) b.value) }
    ensures { Walk (Saw (F.post call.now)) (map (λ (y : FieldValueOf T). y.expr) (values x.now) ++ last_of rest.now) state.old result state.new }
{
    fields(x, state, call)?;
    optional(rest, state, call)
}
