//! The readers of what is inside of types and paths.
#![tactic(auto, using(syn_lower_spec::proofs::Readable::readables))]

ghost use Rattle.std.specs.Prelude.{◌≡◌, Some, true};
ghost use Rattle.syn_lower_types.specs.View as view;
ghost use Rattle.syn_lower_spec.specs.Part as part;

use crate::path::{AngleBracketedGenericArgumentsOf, AssocTypeOf, ParenthesizedGenericArgumentsOf};
use crate::ty::{BareFnArgOf, ReturnTypeOf, TraitBoundOf};
use crate::types::ReadTypes;
use syn_lower_leaves::ahead::{ReadByForm, ahead};
use syn_tokens::buffer::{Parse, ParseBuffer};
use syn_tokens::error::Result;

impl<T: ReadTypes> ReadByForm for ReturnTypeOf<T> {
    ghost use Rattle.syn_lower_spec.specs.Tree.{ReturnTree};

    ghost Seen = { ReturnTree };

    ghost seen = { view.return_of T.tree };

    ghost form = { part.output part.type true };

    ghost least = { 0 };

    fn read(input: &mut ParseBuffer<'_>) -> Result<Self> {
        T::read_output(input)
    }
}

impl<T: ReadTypes> Parse for ReturnTypeOf<T> {
    ghost use Rattle.syn_lower_spec.specs.Tree.{ReturnTree};

    ghost Seen = { ReturnTree };

    ghost seen = { view.return_of T.tree };

    /// `->` and a type come before the rest, or nothing does and the rest begins with no `->`.
    ghost spells = { λ l x rest. (part.output part.type true).behind x l ≡ Some rest };

    ghost least = { 0 };

    /// Reads `->` and a type (Rust Reference, "Functions"), with several bounds after `impl` and `dyn`; where there is no `->`
    /// first, nothing is read. The type is refused as a type is.
    fn parse(input: &mut ParseBuffer<'_>) -> Result<Self> {
        ahead(input)
    }
}

impl<T: ReadTypes> ReadByForm for AngleBracketedGenericArgumentsOf<T> {
    ghost use Rattle.syn_lower_spec.specs.Tree.{ArgumentsTree};

    ghost Seen = { ArgumentsTree };

    ghost seen = { view.angle_of T.tree };

    ghost form = { part.angle_bracketed part.type };

    fn read(input: &mut ParseBuffer<'_>) -> Result<Self> {
        T::read_angle(input)
    }
}

impl<T: ReadTypes> Parse for AngleBracketedGenericArgumentsOf<T> {
    ghost use Rattle.syn_lower_spec.specs.Tree.{ArgumentsTree};

    ghost Seen = { ArgumentsTree };

    ghost seen = { view.angle_of T.tree };

    /// `<`, arguments with commas between and `>` come before the rest, `::` in front or not.
    ghost spells = { λ l x rest. (part.angle_bracketed part.type).behind x l ≡ Some rest };

    ghost least = { 1 };

    /// Reads arguments between `<` and `>`, after `::` or not (Rust Reference, "Paths in expressions", "Paths in types"). It is
    /// refused as `ExpectedToken` of `<` or `>` where that is missing, and inside as the argument is.
    fn parse(input: &mut ParseBuffer<'_>) -> Result<Self> {
        ahead(input)
    }
}

impl<T: ReadTypes> ReadByForm for ParenthesizedGenericArgumentsOf<T> {
    ghost use Rattle.syn_lower_spec.specs.Tree.{ArgumentsTree};

    ghost Seen = { ArgumentsTree };

    ghost seen = { view.round_of T.tree };

    ghost form = { part.parenthesized part.type };

    fn read(input: &mut ParseBuffer<'_>) -> Result<Self> {
        T::read_parenthesized(input)
    }
}

impl<T: ReadTypes> Parse for ParenthesizedGenericArgumentsOf<T> {
    ghost use Rattle.syn_lower_spec.specs.Tree.{ArgumentsTree};

    ghost Seen = { ArgumentsTree };

    ghost seen = { view.round_of T.tree };

    /// Types in parentheses come before the rest, and `->` with a type if that is there.
    ghost spells = { λ l x rest. (part.parenthesized part.type).behind x l ≡ Some rest };

    ghost least = { 1 };

    /// Reads types in parentheses, and `->` with a type of one bound after `impl` and `dyn` (Rust Reference, "Paths in types").
    /// It is refused as `ExpectedToken` of `(` where there are none, as `UnexpectedToken` at what is left in them, and
    /// inside as the type is.
    fn parse(input: &mut ParseBuffer<'_>) -> Result<Self> {
        ahead(input)
    }
}

impl<T: ReadTypes> ReadByForm for AssocTypeOf<T> {
    ghost use Rattle.syn_lower_spec.specs.Tree.{TypeTree};
    ghost use Rattle.syn_lower_spec.specs.Text.{Text};

    ghost Seen = { Text × TypeTree };

    ghost seen = { view.name_and_type T.tree };

    ghost form = { part.assoc part.type };

    fn read(input: &mut ParseBuffer<'_>) -> Result<Self> {
        T::read_assoc(input)
    }
}

impl<T: ReadTypes> Parse for AssocTypeOf<T> {
    ghost use Rattle.syn_lower_spec.specs.Tree.{TypeTree};
    ghost use Rattle.syn_lower_spec.specs.Text.{Text};

    ghost Seen = { Text × TypeTree };

    ghost seen = { view.name_and_type T.tree };

    /// An identifier, a single `=` and a type come before the rest.
    ghost spells = { λ l x rest. (part.assoc part.type).behind x l ≡ Some rest };

    ghost least = { 1 };

    /// Reads a name, `=` and a type (Rust Reference, "Paths in expressions"). It is refused as `ExpectedToken` of an
    /// identifier or of `=` where that is missing, and after it as the type is.
    fn parse(input: &mut ParseBuffer<'_>) -> Result<Self> {
        ahead(input)
    }
}

impl<T: ReadTypes> ReadByForm for BareFnArgOf<T> {
    ghost use Rattle.syn_lower_spec.specs.Tree.{FnArgTree};

    ghost Seen = { FnArgTree };

    ghost seen = { view.arg_of T.tree };

    ghost form = { part.fn_arg part.type };

    fn read(input: &mut ParseBuffer<'_>) -> Result<Self> {
        T::read_fn_arg(input)
    }
}

impl<T: ReadTypes> Parse for BareFnArgOf<T> {
    ghost use Rattle.syn_lower_spec.specs.Tree.{FnArgTree};

    ghost Seen = { FnArgTree };

    ghost seen = { view.arg_of T.tree };

    /// A type comes before the rest, and a name with a single `:` in front or not.
    ghost spells = { λ l x rest. (part.fn_arg part.type).behind x l ≡ Some rest };

    ghost least = { 1 };

    /// Reads an argument of a function pointer (Rust Reference, "Function pointer types"): a type, after an identifier or
    /// `_` with `:` or not. It is refused as the type is.
    fn parse(input: &mut ParseBuffer<'_>) -> Result<Self> {
        ahead(input)
    }
}

impl<T: ReadTypes> ReadByForm for TraitBoundOf<T> {
    ghost use Rattle.syn_lower_spec.specs.Tree.{BoundTree};

    ghost Seen = { BoundTree };

    ghost seen = { view.trait_of T.tree };

    ghost form = { part.trait_bound part.type };

    fn read(input: &mut ParseBuffer<'_>) -> Result<Self> {
        T::read_trait_bound(input)
    }
}

impl<T: ReadTypes> Parse for TraitBoundOf<T> {
    ghost use Rattle.syn_lower_spec.specs.Tree.{BoundTree};

    ghost Seen = { BoundTree };

    ghost seen = { view.trait_of T.tree };

    /// A path as in a type comes before the rest, `?` and `for<..>` in front or not.
    ghost spells = { λ l x rest. (part.trait_bound part.type).behind x l ≡ Some rest };

    ghost least = { 1 };

    /// Reads a trait as a bound (Rust Reference, "Trait and lifetime bounds"): `?` if it is there, `for<..>` if it does, and
    /// a path as in a type. It is refused as the path is, or the lifetimes.
    fn parse(input: &mut ParseBuffer<'_>) -> Result<Self> {
        ahead(input)
    }
}
