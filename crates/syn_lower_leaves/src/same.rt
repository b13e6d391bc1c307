//! Equality of the parts that hold no others, which ignores their places: what their derived `==` answers, as contracts of
//! functions that do nothing.
#![tactic(auto, using(crate::proofs::LeafTies::leaf_ties))]

ghost use Rattle.syn_lower_spec.specs.Equal.{IsEqualityOf};
ghost use Rattle.syn_lower_leaves.specs.View.{attribute_of, delimiter_of, is_inner, lifetime_of, lit_float_of, lit_int_of, lit_of, lit_str_of};
ghost use Rattle.syn_lower_leaves.specs.declared.lit.Lit.TheVariants as lit;

use crate::attr::{AttrStyle, Attribute};
use crate::block::Block;
use crate::lifetime::Lifetime;
use crate::lit::{Lit, LitBool, LitByte, LitByteStr, LitCStr, LitChar, LitFloat, LitInt, LitStr};
use crate::mac::MacroDelimiter;

/// Two literals are equal exactly where their kinds and texts are, with the sign of a number.
pub fn equal_literals()
    ensures literal { IsEqualityOf lit_of ⟦<Lit as PartialEq>⟧.eq }
    ensures str { IsEqualityOf lit_str_of ⟦<LitStr as PartialEq>⟧.eq }
    ensures byte_str { IsEqualityOf (λ x. lit_of (lit.ByteStr x)) ⟦<LitByteStr as PartialEq>⟧.eq }
    ensures c_str { IsEqualityOf (λ x. lit_of (lit.CStr x)) ⟦<LitCStr as PartialEq>⟧.eq }
    ensures byte { IsEqualityOf (λ x. lit_of (lit.Byte x)) ⟦<LitByte as PartialEq>⟧.eq }
    ensures char { IsEqualityOf (λ x. lit_of (lit.Char x)) ⟦<LitChar as PartialEq>⟧.eq }
    ensures int { IsEqualityOf lit_int_of ⟦<LitInt as PartialEq>⟧.eq }
    ensures float { IsEqualityOf lit_float_of ⟦<LitFloat as PartialEq>⟧.eq }
    ensures bool { IsEqualityOf (λ x. lit_of (lit.Bool x)) ⟦<LitBool as PartialEq>⟧.eq }
{}

/// Two lifetimes, attributes, blocks or delimiters are equal exactly where their trees are.
pub fn equal_leaves()
    ensures lifetime { IsEqualityOf lifetime_of ⟦<Lifetime as PartialEq>⟧.eq }
    ensures style { IsEqualityOf is_inner ⟦<AttrStyle as PartialEq>⟧.eq }
    ensures attribute { IsEqualityOf attribute_of ⟦<Attribute as PartialEq>⟧.eq }
    ensures block { IsEqualityOf (λ x. x.stmts) ⟦<Block as PartialEq>⟧.eq }
    ensures delimiter { IsEqualityOf delimiter_of ⟦<MacroDelimiter as PartialEq>⟧.eq }
{}
