//! Calls a function on each pattern in a pattern, with a state of the caller's and one more value.

ghost use Rattle.std.specs.Option.{ForSome};
ghost use Rattle.std.specs.Prelude.{◌≡◌, Contains, Some};
ghost use Rattle.syn_lower_leaves.specs.View.{values};
ghost use Rattle.syn_pat.specs.declared.pat.FieldPatKindOf.TheVariants as field;
ghost use Rattle.syn_pat.specs.declared.pat.FieldPatOf.{FieldPatOf};
ghost use Rattle.syn_pat.specs.declared.pat.FullFieldPatOf.{FullFieldPatOf};
ghost use Rattle.syn_visit_kinds.specs.Parts.{else_operand, field_pattern};
ghost use Rattle.syn_visit_kinds.specs.Walk.{SawWith, SeesWith, Walk};

use crate::each::punctuated;
use syn_lower::punctuated::Punctuated;
use syn_pat::pat::{FieldPatKindOf, FieldPatOf};
use syn_tokens::token::{At, Comma};

/// One pattern.
pub fn inner<P, C, S, R: Drop, F: Fn(&P, &C, &mut S) -> Result<(), R>>(
    x: &Box<P>,
    context: &C,
    state: &mut S,
    call: &F,
) -> Result<(), R>
    requires { SeesWith (F.pre call.now) context.now x.now.value }
    ensures { SawWith (F.post call.now) context.now x.now.value state.old result state.new }
{
    call(x, context, state)
}

/// What comes after `@`.
pub fn sub_pattern<P, C, S, R: Drop, F: Fn(&P, &C, &mut S) -> Result<(), R>>(
    x: &Option<(At, Box<P>)>,
    context: &C,
    state: &mut S,
    call: &F,
) -> Result<(), R>
    requires { ForSome x.now (λ q. SeesWith (F.pre call.now) context.now q.1.value) }
    ensures { Walk (SawWith (F.post call.now) context.now) (else_operand x.now) state.old result state.new }
{
    match x {
        Some(both) => inner(&both.1, context, state, call),
        None => Ok(()),
    }
}

/// What a field of a struct pattern holds.
fn field_kind<P, C, S, R: Drop, F: Fn(&P, &C, &mut S) -> Result<(), R>>(
    x: &FieldPatKindOf<P>,
    context: &C,
    state: &mut S,
    call: &F,
) -> Result<(), R>
    requires { (p : FullFieldPatOf P) → x.now ≡ field.Full p → SeesWith (F.pre call.now) context.now p.pat.value }
    ensures { Walk (SawWith (F.post call.now) context.now) (field_pattern x.now) state.old result state.new }
{
    match x {
        FieldPatKindOf::Short(_) => Ok(()),
        FieldPatKindOf::Full(x) => inner(&x.pat, context, state, call),
    }
}

/// The fields of a struct pattern.
pub fn struct_pat<P, C, S, R: Drop, F: Fn(&P, &C, &mut S) -> Result<(), R>>(
    x: &Punctuated<FieldPatOf<P>, Comma>,
    context: &C,
    state: &mut S,
    call: &F,
) -> Result<(), R>
    requires inner { (q : _) (p : FullFieldPatOf P) → Contains x.now.inner.items q → q.0.kind ≡ field.Full p → SeesWith (F.pre call.now) context.now p.pat.value }
    requires last { (b : _) (p : FullFieldPatOf P) → x.now.last ≡ Some b → b.value.kind ≡ field.Full p → SeesWith (F.pre call.now) context.now p.pat.value }
    ensures { Walk (λ (y : FieldPatOf P). Walk (SawWith (F.post call.now) context.now) (field_pattern y.kind)) (values x.now) state.old result state.new }
{
    punctuated(
        x,
        state,
        &|one: &FieldPatOf<P>, state: &mut S| -> Result<(), R>
            requires { (p : FullFieldPatOf P) → one.now.kind ≡ field.Full p → SeesWith (F.pre call.now) context.now p.pat.value }
            ensures { Walk (SawWith (F.post call.entry.now) context.entry.now) (field_pattern one.now.kind) state.old result state.new }
        { field_kind(&one.kind, context, state, call) },
    )
}
