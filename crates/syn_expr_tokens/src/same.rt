//! Equality of operators, members, indices, labels and modifiers, which ignores their places.

ghost use Rattle.std.specs.Cmp.{on_per};
ghost use Rattle.std.proofs.lemmas.Cmp.{on_equiv};
ghost use Rattle.std.specs.Ordering.{on};
ghost use Rattle.syn_expr_spec.specs.contracts.kinds.BinKindPartialEq.TheImpl.Laws as bin_laws;
ghost use Rattle.syn_expr_spec.specs.contracts.kinds.LimitsPartialEq.TheImpl.Laws as limits_laws;
ghost use Rattle.syn_expr_spec.specs.contracts.kinds.UnKindPartialEq.TheImpl.Laws as un_laws;
ghost use Rattle.syn_expr_spec.specs.contracts.kinds.BinKindEq.TheImpl.Laws as bin_eq_laws;
ghost use Rattle.syn_expr_spec.specs.contracts.kinds.BinKindHash.TheImpl.Laws as bin_hash_laws;
ghost use Rattle.syn_expr_spec.specs.contracts.kinds.LimitsEq.TheImpl.Laws as limits_eq_laws;
ghost use Rattle.syn_expr_spec.specs.contracts.kinds.LimitsHash.TheImpl.Laws as limits_hash_laws;
ghost use Rattle.syn_expr_spec.specs.contracts.kinds.UnKindEq.TheImpl.Laws as un_eq_laws;
ghost use Rattle.syn_expr_spec.specs.contracts.kinds.UnKindHash.TheImpl.Laws as un_hash_laws;
ghost use Rattle.syn_lower_spec.specs.Equal.{IsEqualityOf};
ghost use Rattle.syn_expr_tokens.specs.View.{bin_kind, limits_kind, un_kind, label_of, member_of, modifiers_of};

use crate::limits::RangeLimits;
use crate::member::{Index, Member};
use crate::modifiers::{ClosureModifiers, Label};
use crate::op::{BinOp, UnOp};
use std::hash::{Hash, Hasher};
use syn_expr_spec::kinds::{BinKind, Limits, UnKind};

impl PartialEq for BinOp {
    ghost eq = { on bin_kind ⟦<BinKind as PartialEq>⟧.eq };

    ghost laws = { on_per bin_kind bin_laws.laws-law };

    fn eq(&self, other: &BinOp) -> bool {
        self.kind() == other.kind()
    }
}

impl PartialEq for UnOp {
    ghost eq = { on un_kind ⟦<UnKind as PartialEq>⟧.eq };

    ghost laws = { on_per un_kind un_laws.laws-law };

    fn eq(&self, other: &UnOp) -> bool {
        self.kind() == other.kind()
    }
}

impl PartialEq for RangeLimits {
    ghost eq = { on limits_kind ⟦<Limits as PartialEq>⟧.eq };

    ghost laws = { on_per limits_kind limits_laws.laws-law };

    fn eq(&self, other: &RangeLimits) -> bool {
        self.kind() == other.kind()
    }
}

impl Eq for BinOp {
    ghost laws = { on_equiv bin_kind bin_eq_laws.laws-law };
}

impl Hash for BinOp {
    ghost hash_input = { λ x. ⟦<BinKind as Hash>⟧.hash_input (bin_kind x) };

    ghost respects_eq = { λ x y e. bin_hash_laws.respects_eq-law (bin_kind x) (bin_kind y) e };

    fn hash<H: Hasher>(&self, state: &mut H) {
        self.kind().hash(state);
    }
}

impl Eq for UnOp {
    ghost laws = { on_equiv un_kind un_eq_laws.laws-law };
}

impl Hash for UnOp {
    ghost hash_input = { λ x. ⟦<UnKind as Hash>⟧.hash_input (un_kind x) };

    ghost respects_eq = { λ x y e. un_hash_laws.respects_eq-law (un_kind x) (un_kind y) e };

    fn hash<H: Hasher>(&self, state: &mut H) {
        self.kind().hash(state);
    }
}

impl Eq for RangeLimits {
    ghost laws = { on_equiv limits_kind limits_eq_laws.laws-law };
}

impl Hash for RangeLimits {
    ghost hash_input = { λ x. ⟦<Limits as Hash>⟧.hash_input (limits_kind x) };

    ghost respects_eq = { λ x y e. limits_hash_laws.respects_eq-law (limits_kind x) (limits_kind y) e };

    fn hash<H: Hasher>(&self, state: &mut H) {
        self.kind().hash(state);
    }
}

/// Two operators are equal exactly where their kinds are: the contract of a function that does nothing.
#[tactic(auto, using(crate::proofs::Equality::equalities))]
pub fn equal_operators()
    ensures binary { IsEqualityOf bin_kind ⟦<BinOp as PartialEq>⟧.eq }
    ensures prefix { IsEqualityOf un_kind ⟦<UnOp as PartialEq>⟧.eq }
    ensures limits { IsEqualityOf limits_kind ⟦<RangeLimits as PartialEq>⟧.eq }
{}

/// Two members or labels are equal exactly where their names or indices are, and modifiers where both have the same words.
#[tactic(auto, using(crate::proofs::Ties::ties))]
pub fn equal_parts()
    ensures index { IsEqualityOf (λ x. x.index) ⟦<Index as PartialEq>⟧.eq }
    ensures member { IsEqualityOf member_of ⟦<Member as PartialEq>⟧.eq }
    ensures label { IsEqualityOf label_of ⟦<Label as PartialEq>⟧.eq }
    ensures modifiers { IsEqualityOf modifiers_of ⟦<ClosureModifiers as PartialEq>⟧.eq }
{}
