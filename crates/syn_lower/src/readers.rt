//! The reader of types, which ties the knot of `grammar`, and those that are on it.
#![tactic(auto, using(syn_lower_spec::proofs::Readable::readables))]

ghost use Rattle.std.specs.Prelude.{◌≡◌, ◌≤◌, ◌+◌, IfErr, IfOk, Some, true, false, if◌then◌else◌};
ghost use Rattle.syn_lower_types.specs.View as view;
ghost use Rattle.syn_lower_leaves.specs.Reads.{Reads};
ghost use Rattle.syn_lower.specs.View.{path_of, qself_or, type_of};
ghost use Rattle.syn_lower_spec.specs.Part as part;
ghost use Rattle.syn_tokens.specs.Input.{IsAfter};
ghost use Rattle.syn_tokens.specs.Tok.{weight};

use crate::grammar::Grammar;
use crate::path::{Path, QSelf};
use crate::ty::Type;
use syn_lower_leaves::ahead::{ReadByForm, ahead};
use syn_lower_spec::label::PathStyle;
use syn_lower_types::path::{
    AngleBracketedGenericArgumentsOf, AssocTypeOf, GenericArgumentOf,
    ParenthesizedGenericArgumentsOf, PathOf, PathSegmentOf, QSelfOf, style,
};
use syn_lower_types::ty::{BareFnArgOf, ReturnTypeOf, TraitBoundOf, TypeParamBoundOf};
use syn_lower_types::types::ReadTypes;
use syn_tokens::buffer::{Parse, ParseBuffer};
use syn_tokens::error::Result;

/// Reads a type; after its `impl` or `dyn` there may be several bounds, or one.
#[tactic(auto, using(syn_lower_spec::proofs::Parts::type_is))]
pub fn ty(input: &mut ParseBuffer<'_>, several: bool) -> Result<Box<Type>>
    ensures value { Reads (λ x. type_of x.value) ((part.type several).reads input.old.rest) result input.new.rest }
    ensures noted { input.new.noted ≡ input.old.noted }
    ensures shrinks { weight input.new.rest ≤ weight input.old.rest }
{
    Grammar { ty }.at_place(input, several)
}

/// Reads a type, out of its box.
fn whole_type(input: &mut ParseBuffer<'_>, several: bool) -> Result<Type>
    ensures value { Reads type_of ((part.type several).reads input.old.rest) result input.new.rest }
    ensures noted { input.new.noted ≡ input.old.noted }
{
    let x = ty(input, several)?;
    Ok(Box::into_inner(x))
}

impl ReadTypes for Type {
    fn read_type(input: &mut ParseBuffer<'_>, several: bool) -> Result<Self>
        ensures value { Reads type_of ((part.type several).reads input.old.rest) result input.new.rest }
        ensures noted { input.new.noted ≡ input.old.noted }
    {
        whole_type(input, several)
    }

    fn read_path(input: &mut ParseBuffer<'_>, style: PathStyle) -> Result<PathOf<Self>>
        ensures value { Reads (view.path_of type_of) ((part.path part.type style).reads input.old.rest) result input.new.rest }
        ensures noted { input.new.noted ≡ input.old.noted }
    {
        Grammar { ty }.path(input, style)
    }

    fn read_qpath(
        input: &mut ParseBuffer<'_>,
        style: PathStyle,
    ) -> Result<(Option<QSelfOf<Self>>, PathOf<Self>)>
        ensures value { Reads (λ q. (view.qself_or type_of q.0, view.path_of type_of q.1)) ((part.qpath part.type style).reads input.old.rest) result input.new.rest }
        ensures noted { input.new.noted ≡ input.old.noted }
    {
        Grammar { ty }.qpath(input, style)
    }

    fn read_segment(input: &mut ParseBuffer<'_>) -> Result<PathSegmentOf<Self>>
        ensures value { Reads (view.segment_of type_of) ((part.segment part.type PathStyle.Type).reads input.old.rest) result input.new.rest }
        ensures noted { input.new.noted ≡ input.old.noted }
    {
        Grammar { ty }.segment(input, PathStyle::Type)
    }

    fn read_generic(input: &mut ParseBuffer<'_>) -> Result<GenericArgumentOf<Self>>
        ensures value { Reads (view.generic_of type_of) ((part.generic part.type).reads input.old.rest) result input.new.rest }
        ensures noted { input.new.noted ≡ input.old.noted }
    {
        Grammar { ty }.generic(input)
    }

    fn read_angle(input: &mut ParseBuffer<'_>) -> Result<AngleBracketedGenericArgumentsOf<Self>>
        ensures value { Reads (view.angle_of type_of) ((part.angle_bracketed part.type).reads input.old.rest) result input.new.rest }
        ensures noted { input.new.noted ≡ input.old.noted }
    {
        Grammar { ty }.angle(input)
    }

    fn read_parenthesized(
        input: &mut ParseBuffer<'_>,
    ) -> Result<ParenthesizedGenericArgumentsOf<Self>>
        ensures value { Reads (view.round_of type_of) ((part.parenthesized part.type).reads input.old.rest) result input.new.rest }
        ensures noted { input.new.noted ≡ input.old.noted }
    {
        Grammar { ty }.parenthesized(input)
    }

    fn read_assoc(input: &mut ParseBuffer<'_>) -> Result<AssocTypeOf<Self>>
        ensures value { Reads (view.name_and_type type_of) ((part.assoc part.type).reads input.old.rest) result input.new.rest }
        ensures noted { input.new.noted ≡ input.old.noted }
    {
        Grammar { ty }.assoc(input)
    }

    fn read_output(input: &mut ParseBuffer<'_>) -> Result<ReturnTypeOf<Self>>
        ensures value { Reads (view.return_of type_of) ((part.output part.type true).reads input.old.rest) result input.new.rest }
        ensures noted { input.new.noted ≡ input.old.noted }
    {
        Grammar { ty }.output(input, true)
    }

    fn read_bound(input: &mut ParseBuffer<'_>) -> Result<TypeParamBoundOf<Self>>
        ensures value { Reads (view.bound_of type_of) ((part.bound part.type).reads input.old.rest) result input.new.rest }
        ensures noted { input.new.noted ≡ input.old.noted }
    {
        Grammar { ty }.bound(input)
    }

    fn read_trait_bound(input: &mut ParseBuffer<'_>) -> Result<TraitBoundOf<Self>>
        ensures value { Reads (view.trait_of type_of) ((part.trait_bound part.type).reads input.old.rest) result input.new.rest }
        ensures noted { input.new.noted ≡ input.old.noted }
    {
        Grammar { ty }.trait_bound(input)
    }

    fn read_fn_arg(input: &mut ParseBuffer<'_>) -> Result<BareFnArgOf<Self>>
        ensures value { Reads (view.arg_of type_of) ((part.fn_arg part.type).reads input.old.rest) result input.new.rest }
        ensures noted { input.new.noted ≡ input.old.noted }
    {
        Grammar { ty }.fn_arg(input)
    }
}

impl ReadByForm for Type {
    ghost use Rattle.syn_lower_spec.specs.Tree.{TypeTree};

    ghost Seen = { TypeTree };

    ghost seen = { type_of };

    ghost form = { part.type true };

    fn read(input: &mut ParseBuffer<'_>) -> Result<Self> {
        whole_type(input, true)
    }
}

impl Parse for Type {
    ghost use Rattle.syn_lower_spec.specs.Tree.{TypeTree};

    ghost Seen = { TypeTree };

    ghost seen = { type_of };

    /// A type comes before the rest; after its `impl` or `dyn` there may be several bounds.
    ghost spells = { λ l x rest. (part.type true).behind x l ≡ Some rest };

    ghost least = { 1 };

    /// Reads a type (Rust Reference, "Types"), with several bounds after `impl` and `dyn`.
    ///
    /// It is refused as `ExpectedPart` of a type where it or a type inside is missing, of a path where a bound or a segment
    /// is, of a macro where no group follows the `!` of one, and of a literal where no number follows the `-` of an argument;
    /// as `ExpectedExpression` where an array has no length; as `ExpectedToken` where there is another token than the one that
    /// must, and as `UnexpectedToken` where one is left in a group.
    fn parse(input: &mut ParseBuffer<'_>) -> Result<Self> {
        ahead(input)
    }
}

impl Type {
    /// Reads a type with one bound after `impl` and `dyn`, as after `as` (Rust Reference, "Type cast expressions"). It is
    /// read exactly where one is, unless memory runs out. It is refused as `parse` refuses a type, and the input then
    /// stays where it was.
    #[tactic(auto, using(crate::proofs::ReadingParts::one_bound_reading))]
    pub fn without_plus(input: &mut ParseBuffer<'_>) -> Result<Type>
        ensures value { Reads type_of ((part.type false).reads input.old.rest) result input.new.rest }
        ensures noted { input.new.noted ≡ input.old.noted }
        ensures after { IsAfter input.old input.new }
        ensures stays { IfErr result (λ _. input.new ≡ input.old) }
        ensures moves { IfOk result (λ x. 1 + weight input.new.rest ≤ weight input.old.rest) }
    {
        let mut ahead = input.fork()?;
        let x = whole_type(&mut ahead, false)?;
        input.advance_to(&ahead);
        Ok(x)
    }
}

/// Reads a path and the type that it is qualified by, if there is one: `<T as a::b>::c`, or the path alone, in an
/// expression's style (`::` before `<`) or in a type's (Rust Reference, "Paths", "Qualified paths"). It is read exactly
/// where one is, unless memory runs out. It is refused as `ExpectedPart` of a path where a segment is missing, as
/// `ExpectedToken` where `>` or the `::` after it is, and inside as a type is; the input then stays where it was.
#[tactic(auto, using(crate::proofs::ReadingParts::qpath_reading))]
pub fn qpath(input: &mut ParseBuffer<'_>, expr_style: bool) -> Result<(Option<QSelf>, Path)>
    ensures value { Reads (λ q. (qself_or type_of q.0, path_of type_of q.1)) ((part.qpath part.type (if expr_style then PathStyle.Expr else PathStyle.Type)).reads input.old.rest) result input.new.rest }
    ensures noted { input.new.noted ≡ input.old.noted }
    ensures after { IsAfter input.old input.new }
    ensures stays { IfErr result (λ _. input.new ≡ input.old) }
    ensures moves { IfOk result (λ q. 1 + weight input.new.rest ≤ weight input.old.rest) }
{
    let mut ahead = input.fork()?;
    let x = Grammar { ty }.qpath(&mut ahead, style(expr_style))?;
    input.advance_to(&ahead);
    Ok(x)
}
