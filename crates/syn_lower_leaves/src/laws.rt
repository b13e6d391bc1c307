//! What follows of the printers, the readers and the tests together, and rows, as contracts of functions that do nothing.

ghost use Rattle.std.specs.Prelude.{map, not, true};
ghost use Rattle.syn_lower_leaves.specs.ReadBack.{IsReadBack, IsRead, all_outer, all_inner, all_printed};
ghost use Rattle.syn_lower_leaves.specs.ValueRows as rows;
ghost use Rattle.syn_lower_leaves.specs.View as view;
ghost use Rattle.syn_lower_spec.specs.Fits as fits;
ghost use Rattle.syn_lower_spec.specs.Fits.{closed};
ghost use Rattle.syn_lower_spec.specs.Mark.{pound};
ghost use Rattle.syn_lower_spec.specs.Part as part;
ghost use Rattle.syn_lower_spec.specs.Part.{pound_bang};
ghost use Rattle.syn_lower_spec.specs.declared.label.LitKind.TheVariants as kind;

use crate::attr::Attribute;
use crate::block::Block;
use crate::lifetime::Lifetime;
use crate::lit::{Lit, LitBool, LitByte, LitByteStr, LitCStr, LitChar, LitFloat, LitInt, LitStr};
use syn_tokens::buffer::{Parse, ToTokens};

/// Each part that passes its test is read back: printed before a rest that doesn't go on with it, it is what its reader
/// finds, and that rest is what is left.
pub fn leaves_are_read_back()
    ensures lifetimes { IsReadBack (λ x. true) closed ⟦<Lifetime as ToTokens>⟧.printed ⟦<Lifetime as Parse>⟧.seen ⟦<Lifetime as Parse>⟧.spells }
    ensures blocks { IsReadBack (λ x. true) closed ⟦<Block as ToTokens>⟧.printed ⟦<Block as Parse>⟧.seen ⟦<Block as Parse>⟧.spells }
    // `Attribute::parse_outer`, `Attribute::parse_inner`
    ensures outer_attributes { IsReadBack all_outer (λ xs rest. not (pound.at rest)) (all_printed ⟦<Attribute as ToTokens>⟧.printed) (map view.attribute_of) (IsRead part.outer_attributes) }
    ensures inner_attributes { IsReadBack all_inner (λ xs rest. not (pound_bang.at rest)) (all_printed ⟦<Attribute as ToTokens>⟧.printed) (map view.attribute_of) (IsRead part.inner_attributes) }
    ensures literals { IsReadBack (λ x. fits.lit_fits (view.lit_of x)) closed ⟦<Lit as ToTokens>⟧.printed ⟦<Lit as Parse>⟧.seen ⟦<Lit as Parse>⟧.spells }
    ensures strings { IsReadBack (λ x. fits.lit_fits (⟦<LitStr as Parse>⟧.seen x)) closed ⟦<LitStr as ToTokens>⟧.printed ⟦<LitStr as Parse>⟧.seen ⟦<LitStr as Parse>⟧.spells }
    ensures byte_strings { IsReadBack (λ x. fits.lit_fits (⟦<LitByteStr as Parse>⟧.seen x)) closed ⟦<LitByteStr as ToTokens>⟧.printed ⟦<LitByteStr as Parse>⟧.seen ⟦<LitByteStr as Parse>⟧.spells }
    ensures c_strings { IsReadBack (λ x. fits.lit_fits (⟦<LitCStr as Parse>⟧.seen x)) closed ⟦<LitCStr as ToTokens>⟧.printed ⟦<LitCStr as Parse>⟧.seen ⟦<LitCStr as Parse>⟧.spells }
    ensures bytes { IsReadBack (λ x. fits.lit_fits (⟦<LitByte as Parse>⟧.seen x)) closed ⟦<LitByte as ToTokens>⟧.printed ⟦<LitByte as Parse>⟧.seen ⟦<LitByte as Parse>⟧.spells }
    ensures chars { IsReadBack (λ x. fits.lit_fits (⟦<LitChar as Parse>⟧.seen x)) closed ⟦<LitChar as ToTokens>⟧.printed ⟦<LitChar as Parse>⟧.seen ⟦<LitChar as Parse>⟧.spells }
    ensures truths { IsReadBack (λ x. fits.lit_fits (⟦<LitBool as Parse>⟧.seen x)) closed ⟦<LitBool as ToTokens>⟧.printed ⟦<LitBool as Parse>⟧.seen ⟦<LitBool as Parse>⟧.spells }
    // a number by itself is read without a sign
    ensures integers { IsReadBack (λ x. fits.of_kind_fits kind.Int (⟦<LitInt as Parse>⟧.seen x)) closed ⟦<LitInt as ToTokens>⟧.printed ⟦<LitInt as Parse>⟧.seen ⟦<LitInt as Parse>⟧.spells }
    ensures floats { IsReadBack (λ x. fits.of_kind_fits kind.Float (⟦<LitFloat as Parse>⟧.seen x)) closed ⟦<LitFloat as ToTokens>⟧.printed ⟦<LitFloat as Parse>⟧.seen ⟦<LitFloat as Parse>⟧.spells }
{}

/// Values of literals from outside.
pub fn literal_values()
    ensures integers { rows.IntRows }
    ensures floats { rows.FloatRows }
    ensures chars { rows.CharRows }
    ensures bytes { rows.ByteRows }
    ensures strings { rows.StrRows }
    ensures byte_strings { rows.ByteStrRows }
{}
