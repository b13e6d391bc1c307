//! The readers of the parts that hold others, as callers have them: each answers exactly what its form spells, and leaves
//! the rest.
#![tactic(auto, using(syn_lower_spec::proofs::Readable::readables))]

ghost use Rattle.std.specs.Prelude.{◌≡◌, ◌≤◌, ◌+◌, IfErr, IfOk, Some};
ghost use Rattle.syn_lower_types.specs.View as view;
ghost use Rattle.syn_lower_leaves.specs.Reads.{Reads};
ghost use Rattle.syn_lower_spec.specs.Part as part;
ghost use Rattle.syn_lower_spec.specs.declared.label.PathStyle.TheVariants as place;
ghost use Rattle.syn_tokens.specs.Input.{IsAfter};
ghost use Rattle.syn_tokens.specs.Tok.{weight};

use crate::mac::MacroOf;
use crate::path::{GenericArgumentOf, PathOf, PathSegmentOf};
use crate::ty::TypeParamBoundOf;
use crate::types::ReadTypes;
use syn_lower_leaves::ahead::{ReadByForm, ahead};
use syn_lower_leaves::front;
use syn_lower_leaves::leaf::any_group;
use syn_lower_spec::label::PathStyle;
use syn_tokens::buffer::{Parse, ParseBuffer};
use syn_tokens::error::{ErrorKind, Part, Result};

impl<T: ReadTypes> ReadByForm for PathOf<T> {
    ghost use Rattle.syn_lower_spec.specs.Tree.{PathTree};

    ghost Seen = { PathTree };

    ghost seen = { view.path_of T.tree };

    ghost form = { part.path part.type place.Type };

    fn read(input: &mut ParseBuffer<'_>) -> Result<Self> {
        T::read_path(input, PathStyle::Type)
    }
}

impl<T: ReadTypes> Parse for PathOf<T> {
    ghost use Rattle.syn_lower_spec.specs.Tree.{PathTree};

    ghost Seen = { PathTree };

    ghost seen = { view.path_of T.tree };

    /// A path as in a type comes before the rest.
    ghost spells = { λ l x rest. (part.path part.type place.Type).behind x l ≡ Some rest };

    ghost least = { 1 };

    /// Reads a path as in a type (Rust Reference, "Paths in types"). It is refused as `ExpectedPart` of a path where a segment
    /// is missing, as `ExpectedToken` of `>` after arguments, as `UnexpectedToken` at what is left in parentheses, and inside
    /// as the argument or the type is.
    fn parse(input: &mut ParseBuffer<'_>) -> Result<Self> {
        ahead(input)
    }
}

impl<T: ReadTypes> ReadByForm for PathSegmentOf<T> {
    ghost use Rattle.syn_lower_spec.specs.Tree.{SegmentTree};

    ghost Seen = { SegmentTree };

    ghost seen = { view.segment_of T.tree };

    ghost form = { part.segment part.type place.Type };

    fn read(input: &mut ParseBuffer<'_>) -> Result<Self> {
        T::read_segment(input)
    }
}

impl<T: ReadTypes> Parse for PathSegmentOf<T> {
    ghost use Rattle.syn_lower_spec.specs.Tree.{SegmentTree};

    ghost Seen = { SegmentTree };

    ghost seen = { view.segment_of T.tree };

    /// A segment as in a type comes before the rest.
    ghost spells = { λ l x rest. (part.segment part.type place.Type).behind x l ≡ Some rest };

    ghost least = { 1 };

    /// Reads a segment of a path as in a type (Rust Reference, "Paths in types"). It is refused as `ExpectedPart` of a path
    /// where its word is missing, as `ExpectedToken` of `>` after arguments, as `UnexpectedToken` at what is left in
    /// parentheses, and inside as the argument or the type is.
    fn parse(input: &mut ParseBuffer<'_>) -> Result<Self> {
        ahead(input)
    }
}

impl<T: ReadTypes> ReadByForm for GenericArgumentOf<T> {
    ghost use Rattle.syn_lower_spec.specs.Tree.{GenericTree};

    ghost Seen = { GenericTree };

    ghost seen = { view.generic_of T.tree };

    ghost form = { part.generic part.type };

    fn read(input: &mut ParseBuffer<'_>) -> Result<Self> {
        T::read_generic(input)
    }
}

impl<T: ReadTypes> Parse for GenericArgumentOf<T> {
    ghost use Rattle.syn_lower_spec.specs.Tree.{GenericTree};

    ghost Seen = { GenericTree };

    ghost seen = { view.generic_of T.tree };

    /// An argument between `<` and `>` comes before the rest.
    ghost spells = { λ l x rest. (part.generic part.type).behind x l ≡ Some rest };

    ghost least = { 1 };

    /// Reads an argument between `<` and `>` (Rust Reference, "Paths in expressions"). It is refused as `ExpectedPart` of a
    /// literal at a `-` that no number follows, and else as the type is.
    fn parse(input: &mut ParseBuffer<'_>) -> Result<Self> {
        ahead(input)
    }
}

impl<T: ReadTypes> ReadByForm for TypeParamBoundOf<T> {
    ghost use Rattle.syn_lower_spec.specs.Tree.{BoundTree};

    ghost Seen = { BoundTree };

    ghost seen = { view.bound_of T.tree };

    ghost form = { part.bound part.type };

    fn read(input: &mut ParseBuffer<'_>) -> Result<Self> {
        T::read_bound(input)
    }
}

impl<T: ReadTypes> Parse for TypeParamBoundOf<T> {
    ghost use Rattle.syn_lower_spec.specs.Tree.{BoundTree};

    ghost Seen = { BoundTree };

    ghost seen = { view.bound_of T.tree };

    /// A bound comes before the rest.
    ghost spells = { λ l x rest. (part.bound part.type).behind x l ≡ Some rest };

    ghost least = { 1 };

    /// Reads a bound (Rust Reference, "Trait and lifetime bounds"). It is refused as `ExpectedToken` of `>` or a lifetime after
    /// `for`, and else as the path is.
    fn parse(input: &mut ParseBuffer<'_>) -> Result<Self> {
        ahead(input)
    }
}

#[tactic(auto, using(crate::proofs::ReadingParts::macros))]
impl<T: ReadTypes> ReadByForm for MacroOf<T> {
    ghost use Rattle.syn_lower_spec.specs.Part.{MacroTree};

    ghost Seen = { MacroTree };

    ghost seen = { view.macro_of T.tree };

    ghost form = { part.macro };

    fn read(input: &mut ParseBuffer<'_>) -> Result<Self> {
        let path = T::read_path(input, PathStyle::Mod)?;
        let Some(bang_token) = front::not_ne(input) else {
            return Err(input.error(ErrorKind::ExpectedPart(Part::Macro)));
        };
        let (delimiter, tokens) = any_group(input)?;
        Ok(MacroOf {
            path,
            bang_token,
            delimiter,
            tokens,
        })
    }
}

impl<T: ReadTypes> Parse for MacroOf<T> {
    ghost use Rattle.syn_lower_spec.specs.Part.{MacroTree};

    ghost Seen = { MacroTree };

    ghost seen = { view.macro_of T.tree };

    /// A path without arguments, `!` and a group come before the rest.
    ghost spells = { λ l x rest. part.macro.behind x l ≡ Some rest };

    ghost least = { 1 };

    /// Reads the call of a macro (Rust Reference, "Macro Invocation"); it is refused as `ExpectedPart` of a path or a macro.
    fn parse(input: &mut ParseBuffer<'_>) -> Result<Self> {
        ahead(input)
    }
}

impl<T: ReadTypes> PathOf<T> {
    /// Reads a path without arguments (Rust Reference, "Simple paths"). It is read exactly where one is, unless memory
    /// runs out; it is refused as `ExpectedPart` of a path where a segment is missing, and the input stays where it was.
    #[tactic(auto, using(crate::proofs::ReadingParts::mod_path_reading))]
    pub fn parse_mod_style(input: &mut ParseBuffer<'_>) -> Result<PathOf<T>>
        ensures value { Reads (view.path_of T.tree) ((part.path part.type PathStyle.Mod).reads input.old.rest) result input.new.rest }
        ensures noted { input.new.noted ≡ input.old.noted }
        ensures after { IsAfter input.old input.new }
        ensures stays { IfErr result (λ _. input.new ≡ input.old) }
        ensures moves { IfOk result (λ x. 1 + weight input.new.rest ≤ weight input.old.rest) }
    {
        let mut ahead = input.fork()?;
        let x = T::read_path(&mut ahead, PathStyle::Mod)?;
        input.advance_to(&ahead);
        Ok(x)
    }
}
