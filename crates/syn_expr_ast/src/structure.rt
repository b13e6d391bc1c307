//! Struct expressions and their fields.
#![tactic(auto, using(crate::proofs::Shapes::shapes))]

ghost use Rattle.std.specs.Prelude.{◌≡◌, Some};
ghost use Rattle.syn_expr_spec.specs.Alone.{StructAlone};
ghost use Rattle.syn_expr_ast.specs.Printed.{ReadsExactly};
ghost use Rattle.syn_expr_spec.specs.Tree.{Tree};
ghost use Rattle.syn_pat.specs.View.{PatView};
ghost use Rattle.syn_expr_ast.specs.Node.{frame_at, frame_seen, operands_at, operands_of};
ghost use Rattle.syn_expr_ast.specs.Pats.{ArmView};
ghost use Rattle.syn_expr_ast.specs.View.{expr_struct_of};

use crate::node::{Attributes, Frame, Operands};
use crate::parse::ParseKinds;
use crate::shape::PutShape;
use syn_expr_tokens::member::Member;
use syn_lower::attr::Attribute;
use syn_lower::path::{Path, QSelf};
use syn_lower::punctuated::Punctuated;
use syn_tokens::buffer::{Parse, ParseBuffer, ToTokens};
use syn_tokens::error::Result;
use syn_tokens::token::{Brace, Colon, Comma, DotDot};
use syn_tokens::tree::TokenStream;

/// `S { a: 1, b, ..rest }` (Rust Reference, "Struct expressions").
#[derive(Debug, Drop, PartialEq, Eq, Hash)]
pub struct ExprStructOf<E> {
    /// The attributes.
    pub attrs: Vec<Attribute>,
    /// The type in front of the path.
    pub qself: Option<QSelf>,
    /// The path of the struct or variant.
    pub path: Path,
    /// The braces.
    pub brace_token: Brace,
    /// The fields.
    pub fields: Punctuated<FieldValueOf<E>, Comma>,
    /// `..`
    pub dot2_token: Option<DotDot>,
    /// Where the other fields come from.
    pub rest: Option<Box<E>>,
}

/// `a: 1`, `0: x`, `b` (Rust Reference, "Struct expressions").
#[derive(Debug, Drop, PartialEq, Eq, Hash)]
pub struct FieldValueOf<E> {
    /// The attributes.
    pub attrs: Vec<Attribute>,
    /// The name or index of the field.
    pub member: Member,
    /// `:`; without it the value is the variable of that name, and is not spelled.
    pub colon_token: Option<Colon>,
    /// The value.
    pub expr: E,
}

impl<E> ExprStructOf<E> {
    /// What it is, but for its operands.
    pub fn frame<P>(&self) -> Frame<'_, P>
        ensures { (tree : E → Tree) (pat : P → PatView) → Some (frame_seen pat result) ≡ frame_at (expr_struct_of tree self.now) }
    {
        Frame::Struct(
            &self.qself,
            &self.path,
            &self.brace_token,
            self.dot2_token.is_some() && self.rest.is_none(),
        )
    }

    /// Its operands.
    pub fn operands<A>(&self) -> Operands<'_, E, A>
        ensures { (tree : E → Tree) (arm : A → ArmView) → operands_of tree arm result ≡ operands_at (expr_struct_of tree self.now) }
    {
        Operands::Fields(&self.fields, &self.dot2_token, &self.rest)
    }
}

#[tactic(auto, using(syn_tokens::proofs::Fronts::fronts))]
impl<E: PutShape> ToTokens for ExprStructOf<E> {
    ghost use Rattle.syn_expr_ast.specs.Printed.{whole};
    ghost use Rattle.syn_expr_ast.specs.View.{expr_struct_of};
    ghost use Rattle.syn_expr_spec.specs.Next.{enclosed};

    ghost printed = { λ x. whole enclosed (expr_struct_of E.tree x) };

    /// Puts the path, and in braces the fields with their commas, `..` and what the other fields are taken of.
    fn to_tokens(&self, tokens: &mut TokenStream) -> Result<()> {
        let dots = self.dot2_token.is_some() && self.rest.is_none();
        let frame = Frame::Struct(&self.qself, &self.path, &self.brace_token, dots);
        let operands = Operands::Fields(&self.fields, &self.dot2_token, &self.rest);
        E::put_frame(tokens, Attributes::Before(&self.attrs), frame, operands)?;
        Ok(())
    }
}

#[tactic(auto, using(syn_tokens::proofs::Fronts::fronts))]
impl<E: PutShape> ToTokens for FieldValueOf<E> {
    ghost use Rattle.syn_expr_ast.specs.Printed.{field_spelled};
    ghost use Rattle.syn_expr_ast.specs.View.{field_value_of};

    ghost printed = { λ x. field_spelled (field_value_of E.tree x) };

    /// Puts the attributes and the name or index, and after a colon the value. No comma comes after it.
    fn to_tokens(&self, tokens: &mut TokenStream) -> Result<()> {
        E::put_field(tokens, self)?;
        Ok(())
    }
}

impl<E: ParseKinds> Parse for ExprStructOf<E> {
    ghost use Rattle.syn_expr_ast.specs.View.{expr_struct_of};
    ghost use Rattle.syn_expr_spec.specs.Alone.{StructAlone};
    ghost use Rattle.syn_expr_spec.specs.Tree.{Tree};

    ghost Seen = { Tree };

    ghost seen = { expr_struct_of E.tree };

    /// A struct expression comes before the rest; its path may be `try`.
    ghost spells = { StructAlone };

    ghost least = { 1 };

    /// Reads a struct expression, without attributes before it (Rust Reference, "Struct expressions"). Its path may be
    /// `try`.
    ///
    /// It is refused, memory aside, only where there is none, and the input then stays where it was: as a path is, as
    /// `ExpectedToken` of `{` or of a comma, and as its fields are.
    fn parse(input: &mut ParseBuffer<'_>) -> Result<Self>
        ensures { ReadsExactly (expr_struct_of E.tree) StructAlone input.old result input.new }
    {
        E::parse_expr_struct(input)
    }
}
