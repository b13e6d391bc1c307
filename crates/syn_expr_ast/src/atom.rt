//! Kinds that are closed at both ends: literals, paths, macros, and what is in brackets or parentheses.

ghost use Rattle.std.specs.Prelude.{◌≡◌, Some, ◌&&◌, map};
ghost use Rattle.syn_expr_spec.specs.Alone.{Alone, LitAlone, MacroAlone, OfKind, PathAlone, behind_attributes, is_array, is_infer, is_paren, is_repeat, is_tuple};
ghost use Rattle.syn_expr_ast.specs.Printed.{ReadsExactly, RefusesOthers};
ghost use Rattle.syn_expr_spec.specs.Tree.{Tree};
ghost use Rattle.syn_pat.specs.View.{PatView};
ghost use Rattle.syn_expr_ast.specs.Node.{frame_at, frame_seen, leaf_at, leaf_of, operands_at, operands_of};
ghost use Rattle.syn_expr_ast.specs.Pats.{ArmView};
ghost use Rattle.syn_expr_ast.specs.View.{expr_array_of, expr_group_of, expr_infer_of, expr_lit_of, expr_macro_of, expr_paren_of, expr_path_of, expr_repeat_of, expr_tuple_of};
ghost use Rattle.syn_expr_ast.specs.Label.{kind_at};
ghost use Rattle.std.specs.Str.{bytes_eq};
ghost use Rattle.syn_expr_spec.specs.Path as paths;
ghost use Rattle.syn_lower.specs.View.{arguments_of, path_of, qself_or, segment_of, type_of, values};
ghost use Rattle.syn_lower_spec.specs.Part as part;

use crate::alone;
use crate::label::{LeafKind, NodeKind};
use crate::node::{Attributes, Frame, Leaf, Operands, put_whole_leaf};
use crate::parse::ParseKinds;
use crate::shape::PutShape;
use syn_lower::attr::Attribute;
use syn_lower::lit::Lit;
use syn_lower::mac::{Macro, MacroDelimiter};
use syn_lower::path::{Path, PathSegment, QSelf};
use syn_lower::punctuated::Punctuated;
use syn_lower_types::fits::has_none;
use syn_tokens::buffer::{Parse, ParseBuffer, ToTokens};
use syn_tokens::error::{Result, WantedKind};
use syn_tokens::token::{Bracket, Comma, Group, Paren, PathSep, Semi, Underscore};
use syn_tokens::tree::TokenStream;

/// `[a, b]` (Rust Reference, "Array expressions").
#[tactic(auto, using(crate::proofs::Shapes::shapes))]
#[derive(Debug, Drop, PartialEq, Eq, Hash)]
pub struct ExprArrayOf<E> {
    /// The attributes.
    pub attrs: Vec<Attribute>,
    /// The brackets.
    pub bracket_token: Bracket,
    /// The elements.
    pub elems: Punctuated<E, Comma>,
}

/// An expression in delimiters that are not seen, which a macro's expansion leaves.
#[tactic(auto, using(crate::proofs::Shapes::shapes))]
#[derive(Debug, Drop, PartialEq, Eq, Hash)]
pub struct ExprGroupOf<E> {
    /// The attributes.
    pub attrs: Vec<Attribute>,
    /// The delimiters.
    pub group_token: Group,
    /// What they enclose.
    pub expr: Box<E>,
}

/// `_`, to be inferred, or as a place that is assigned to and dropped (Rust Reference, "Underscore expressions").
#[tactic(auto, using(crate::proofs::Shapes::shapes))]
#[derive(Debug, Drop, PartialEq, Eq, Hash)]
pub struct ExprInfer {
    /// The attributes.
    pub attrs: Vec<Attribute>,
    /// `_`
    pub underscore_token: Underscore,
}

/// A literal (Rust Reference, "Literal expressions").
#[tactic(auto, using(crate::proofs::Shapes::shapes))]
#[derive(Debug, Drop, PartialEq, Eq, Hash)]
pub struct ExprLit {
    /// The attributes.
    pub attrs: Vec<Attribute>,
    /// The literal.
    pub lit: Lit,
}

/// The call of a macro (Rust Reference, "Macro Invocation").
#[tactic(auto, using(crate::proofs::Shapes::shapes))]
#[derive(Debug, Drop, PartialEq, Eq, Hash)]
pub struct ExprMacro {
    /// The attributes.
    pub attrs: Vec<Attribute>,
    /// The call.
    pub mac: Macro,
}

/// `(a)` (Rust Reference, "Grouped expressions").
#[tactic(auto, using(crate::proofs::Shapes::shapes))]
#[derive(Debug, Drop, PartialEq, Eq, Hash)]
pub struct ExprParenOf<E> {
    /// The attributes.
    pub attrs: Vec<Attribute>,
    /// The parentheses.
    pub paren_token: Paren,
    /// What they enclose.
    pub expr: Box<E>,
}

/// `a::b`, `<T as A>::b` (Rust Reference, "Path expressions").
#[tactic(auto, using(crate::proofs::Shapes::shapes))]
#[derive(Debug, Drop, PartialEq, Eq, Hash)]
pub struct ExprPath {
    /// The attributes.
    pub attrs: Vec<Attribute>,
    /// The type in front of it.
    pub qself: Option<QSelf>,
    /// The path.
    pub path: Path,
}

/// `[a; n]` (Rust Reference, "Array expressions").
#[tactic(auto, using(crate::proofs::Shapes::shapes))]
#[derive(Debug, Drop, PartialEq, Eq, Hash)]
pub struct ExprRepeatOf<E> {
    /// The attributes.
    pub attrs: Vec<Attribute>,
    /// The brackets.
    pub bracket_token: Bracket,
    /// The value of each element.
    pub expr: Box<E>,
    /// `;`
    pub semi_token: Semi,
    /// How many there are.
    pub len: Box<E>,
}

/// `()`, `(a,)`, `(a, b)` (Rust Reference, "Tuple expressions").
#[tactic(auto, using(crate::proofs::Shapes::shapes))]
#[derive(Debug, Drop, PartialEq, Eq, Hash)]
pub struct ExprTupleOf<E> {
    /// The attributes.
    pub attrs: Vec<Attribute>,
    /// The parentheses.
    pub paren_token: Paren,
    /// The elements.
    pub elems: Punctuated<E, Comma>,
}

#[tactic(auto, using(crate::proofs::Shapes::shapes))]
impl<E> ExprArrayOf<E> {
    /// What it is, but for its operands.
    pub fn frame<P>(&self) -> Frame<'_, P>
        ensures { (tree : E → Tree) (pat : P → PatView) → Some (frame_seen pat result) ≡ frame_at (expr_array_of tree self.now) }
    {
        Frame::Array(&self.bracket_token)
    }

    /// Its operands.
    pub fn operands<A>(&self) -> Operands<'_, E, A>
        ensures { (tree : E → Tree) (arm : A → ArmView) → operands_of tree arm result ≡ operands_at (expr_array_of tree self.now) }
    {
        Operands::Elements(&self.elems)
    }
}

#[tactic(auto, using(crate::proofs::Shapes::shapes))]
impl<E> ExprGroupOf<E> {
    /// What it is, but for its operands.
    pub fn frame<P>(&self) -> Frame<'_, P>
        ensures { (tree : E → Tree) (pat : P → PatView) → Some (frame_seen pat result) ≡ frame_at (expr_group_of tree self.now) }
    {
        Frame::Group(&self.group_token)
    }

    /// Its operands.
    pub fn operands<A>(&self) -> Operands<'_, E, A>
        ensures { (tree : E → Tree) (arm : A → ArmView) → operands_of tree arm result ≡ operands_at (expr_group_of tree self.now) }
    {
        Operands::Grouped(&self.expr)
    }
}

#[tactic(auto, using(crate::proofs::Shapes::shapes))]
impl ExprInfer {
    /// All of it but its attributes, borrowed.
    pub fn leaf(&self) -> Leaf<'_>
        ensures { Some (leaf_of result) ≡ leaf_at (expr_infer_of self.now) }
    {
        Leaf::Infer(&self.underscore_token)
    }
}

#[tactic(auto, using(crate::proofs::Shapes::shapes))]
impl ExprLit {
    /// All of it but its attributes, borrowed.
    pub fn leaf(&self) -> Leaf<'_>
        ensures { Some (leaf_of result) ≡ leaf_at (expr_lit_of self.now) }
    {
        Leaf::Lit(&self.lit)
    }
}

#[tactic(auto, using(crate::proofs::Shapes::shapes))]
impl ExprMacro {
    /// Its kind.
    pub fn kind(&self) -> NodeKind
        ensures { result ≡ kind_at (expr_macro_of self.now) }
    {
        let braced = matches!(self.mac.delimiter, MacroDelimiter::Brace(_));
        NodeKind::Leaf(LeafKind::Macro { braced })
    }

    /// All of it but its attributes, borrowed.
    pub fn leaf(&self) -> Leaf<'_>
        ensures { Some (leaf_of result) ≡ leaf_at (expr_macro_of self.now) }
    {
        Leaf::Macro(&self.mac)
    }
}

#[tactic(auto, using(crate::proofs::Shapes::shapes))]
impl<E> ExprParenOf<E> {
    /// Its operands.
    pub fn operands<A>(&self) -> Operands<'_, E, A>
        ensures { (tree : E → Tree) (arm : A → ArmView) → operands_of tree arm result ≡ operands_at (expr_paren_of tree self.now) }
    {
        Operands::One(&self.expr)
    }
}

#[tactic(auto, using(crate::proofs::Shapes::shapes))]
impl ExprPath {
    /// All of it but its attributes, borrowed.
    pub fn leaf(&self) -> Leaf<'_>
        ensures { Some (leaf_of result) ≡ leaf_at (expr_path_of self.now) }
    {
        Leaf::Path(&self.qself, &self.path)
    }
}

#[tactic(auto, using(crate::proofs::Shapes::shapes))]
impl<E> ExprRepeatOf<E> {
    /// What it is, but for its operands.
    pub fn frame<P>(&self) -> Frame<'_, P>
        ensures { (tree : E → Tree) (pat : P → PatView) → Some (frame_seen pat result) ≡ frame_at (expr_repeat_of tree self.now) }
    {
        Frame::Repeat(&self.bracket_token)
    }

    /// Its operands.
    pub fn operands<A>(&self) -> Operands<'_, E, A>
        ensures { (tree : E → Tree) (arm : A → ArmView) → operands_of tree arm result ≡ operands_at (expr_repeat_of tree self.now) }
    {
        Operands::Repeated(&self.expr, &self.semi_token, &self.len)
    }
}

#[tactic(auto, using(crate::proofs::Shapes::shapes))]
impl<E> ExprTupleOf<E> {
    /// What it is, but for its operands.
    pub fn frame<P>(&self) -> Frame<'_, P>
        ensures { (tree : E → Tree) (pat : P → PatView) → Some (frame_seen pat result) ≡ frame_at (expr_tuple_of tree self.now) }
    {
        Frame::Tuple(&self.paren_token)
    }

    /// Its operands.
    pub fn operands<A>(&self) -> Operands<'_, E, A>
        ensures { (tree : E → Tree) (arm : A → ArmView) → operands_of tree arm result ≡ operands_at (expr_tuple_of tree self.now) }
    {
        Operands::Elements(&self.elems)
    }
}

#[tactic(auto, using(syn_tokens::proofs::Fronts::fronts))]
impl<E: PutShape> ToTokens for ExprArrayOf<E> {
    ghost use Rattle.syn_expr_ast.specs.Printed.{whole};
    ghost use Rattle.syn_expr_ast.specs.View.{expr_array_of};
    ghost use Rattle.syn_expr_spec.specs.Next.{enclosed};

    ghost printed = { λ x. whole enclosed (expr_array_of E.tree x) };

    /// Puts the elements in brackets, with their commas.
    fn to_tokens(&self, tokens: &mut TokenStream) -> Result<()> {
        let frame = Frame::Array(&self.bracket_token);
        let operands = Operands::Elements(&self.elems);
        E::put_frame(tokens, Attributes::Before(&self.attrs), frame, operands)?;
        Ok(())
    }
}

#[tactic(auto, using(syn_tokens::proofs::Fronts::fronts))]
impl<E: PutShape> ToTokens for ExprGroupOf<E> {
    ghost use Rattle.syn_expr_ast.specs.Printed.{whole};
    ghost use Rattle.syn_expr_ast.specs.View.{expr_group_of};
    ghost use Rattle.syn_expr_spec.specs.Next.{enclosed};

    ghost printed = { λ x. whole enclosed (expr_group_of E.tree x) };

    /// Puts an invisible group.
    fn to_tokens(&self, tokens: &mut TokenStream) -> Result<()> {
        let frame = Frame::Group(&self.group_token);
        let operands = Operands::Grouped(&self.expr);
        E::put_frame(tokens, Attributes::Before(&self.attrs), frame, operands)?;
        Ok(())
    }
}

#[tactic(auto, using(syn_tokens::proofs::Fronts::fronts))]
impl ToTokens for ExprInfer {
    ghost use Rattle.syn_expr_ast.specs.Printed.{whole};
    ghost use Rattle.syn_expr_ast.specs.View.{expr_infer_of};
    ghost use Rattle.syn_expr_spec.specs.Next.{enclosed};

    ghost printed = { λ x. whole enclosed (expr_infer_of x) };

    /// Puts `_`.
    fn to_tokens(&self, tokens: &mut TokenStream) -> Result<()> {
        let leaf = Leaf::Infer(&self.underscore_token);
        put_whole_leaf(tokens, Attributes::Before(&self.attrs), leaf)?;
        Ok(())
    }
}

#[tactic(auto, using(syn_tokens::proofs::Fronts::fronts))]
impl ToTokens for ExprLit {
    ghost use Rattle.syn_expr_ast.specs.Printed.{whole};
    ghost use Rattle.syn_expr_ast.specs.View.{expr_lit_of};
    ghost use Rattle.syn_expr_spec.specs.Next.{enclosed};

    ghost printed = { λ x. whole enclosed (expr_lit_of x) };

    /// Puts a literal.
    fn to_tokens(&self, tokens: &mut TokenStream) -> Result<()> {
        let leaf = Leaf::Lit(&self.lit);
        put_whole_leaf(tokens, Attributes::Before(&self.attrs), leaf)?;
        Ok(())
    }
}

#[tactic(auto, using(syn_tokens::proofs::Fronts::fronts))]
impl ToTokens for ExprMacro {
    ghost use Rattle.syn_expr_ast.specs.Printed.{whole};
    ghost use Rattle.syn_expr_ast.specs.View.{expr_macro_of};
    ghost use Rattle.syn_expr_spec.specs.Next.{enclosed};

    ghost printed = { λ x. whole enclosed (expr_macro_of x) };

    /// Puts the call of a macro.
    fn to_tokens(&self, tokens: &mut TokenStream) -> Result<()> {
        let leaf = Leaf::Macro(&self.mac);
        put_whole_leaf(tokens, Attributes::Before(&self.attrs), leaf)?;
        Ok(())
    }
}

#[tactic(auto, using(syn_tokens::proofs::Fronts::fronts))]
impl<E: PutShape> ToTokens for ExprParenOf<E> {
    ghost use Rattle.syn_expr_ast.specs.Printed.{whole};
    ghost use Rattle.syn_expr_ast.specs.View.{expr_paren_of};
    ghost use Rattle.syn_expr_spec.specs.Next.{enclosed};

    ghost printed = { λ x. whole enclosed (expr_paren_of E.tree x) };

    /// Puts parentheses, with what they enclose.
    fn to_tokens(&self, tokens: &mut TokenStream) -> Result<()> {
        E::put_paren(
            tokens,
            Attributes::Before(&self.attrs),
            &self.paren_token,
            &self.expr,
        )?;
        Ok(())
    }
}

#[tactic(auto, using(syn_tokens::proofs::Fronts::fronts))]
impl ToTokens for ExprPath {
    ghost use Rattle.syn_expr_ast.specs.Printed.{whole};
    ghost use Rattle.syn_expr_ast.specs.View.{expr_path_of};
    ghost use Rattle.syn_expr_spec.specs.Next.{enclosed};

    ghost printed = { λ x. whole enclosed (expr_path_of x) };

    /// Puts a path, and the type that it is qualified by.
    fn to_tokens(&self, tokens: &mut TokenStream) -> Result<()> {
        let leaf = Leaf::Path(&self.qself, &self.path);
        put_whole_leaf(tokens, Attributes::Before(&self.attrs), leaf)?;
        Ok(())
    }
}

#[tactic(auto, using(syn_tokens::proofs::Fronts::fronts))]
impl<E: PutShape> ToTokens for ExprRepeatOf<E> {
    ghost use Rattle.syn_expr_ast.specs.Printed.{whole};
    ghost use Rattle.syn_expr_ast.specs.View.{expr_repeat_of};
    ghost use Rattle.syn_expr_spec.specs.Next.{enclosed};

    ghost printed = { λ x. whole enclosed (expr_repeat_of E.tree x) };

    /// Puts a value, `;` and how often it is repeated, in brackets.
    fn to_tokens(&self, tokens: &mut TokenStream) -> Result<()> {
        let frame = Frame::Repeat(&self.bracket_token);
        let operands = Operands::Repeated(&self.expr, &self.semi_token, &self.len);
        E::put_frame(tokens, Attributes::Before(&self.attrs), frame, operands)?;
        Ok(())
    }
}

#[tactic(auto, using(syn_tokens::proofs::Fronts::fronts))]
impl<E: PutShape> ToTokens for ExprTupleOf<E> {
    ghost use Rattle.syn_expr_ast.specs.Printed.{whole};
    ghost use Rattle.syn_expr_ast.specs.View.{expr_tuple_of};
    ghost use Rattle.syn_expr_spec.specs.Next.{enclosed};

    ghost printed = { λ x. whole enclosed (expr_tuple_of E.tree x) };

    /// Puts the elements in parentheses, with their commas; after one alone there is always a comma.
    fn to_tokens(&self, tokens: &mut TokenStream) -> Result<()> {
        let frame = Frame::Tuple(&self.paren_token);
        let operands = Operands::Elements(&self.elems);
        E::put_frame(tokens, Attributes::Before(&self.attrs), frame, operands)?;
        Ok(())
    }
}

#[tactic(auto, using(syn_expr_spec::proofs::Alone::plains))]
impl Parse for ExprInfer {
    ghost use Rattle.syn_expr_ast.specs.View.{expr_infer_of};
    ghost use Rattle.syn_expr_spec.specs.Alone.{Alone, behind_attributes, is_infer};
    ghost use Rattle.syn_expr_spec.specs.Tree.{Tree};

    ghost Seen = { Tree };

    ghost seen = { expr_infer_of };

    /// `_` comes before the rest, after attributes or none.
    ghost spells = { Alone (behind_attributes is_infer) };

    ghost least = { 1 };

    /// Reads `_` after outer attributes or none (Rust Reference, "Underscore expressions").
    ///
    /// It is refused, memory aside, only where there is none, and the input then stays where it was: as its attributes
    /// are, and as `ExpectedToken` of `_`.
    fn parse(input: &mut ParseBuffer<'_>) -> Result<Self>
        ensures { ReadsExactly expr_infer_of (Alone (behind_attributes is_infer)) input.old result input.new }
    {
        alone::attributed_leaf(input)
    }
}

#[tactic(auto, using(crate::proofs::Shapes::shapes))]
impl Parse for ExprLit {
    ghost use Rattle.syn_expr_ast.specs.View.{expr_lit_of};
    ghost use Rattle.syn_expr_spec.specs.Alone.{LitAlone};
    ghost use Rattle.syn_expr_spec.specs.Tree.{Tree};

    ghost Seen = { Tree };

    ghost seen = { expr_lit_of };

    /// A literal, or `-` and a number, comes before the rest.
    ghost spells = { LitAlone };

    ghost least = { 1 };

    /// Reads a literal, a number with its sign too, without attributes before it (Rust Reference, "Literal
    /// expressions").
    ///
    /// It is refused, memory aside, only where there is none, and the input then stays where it was: as `ExpectedPart` of
    /// a literal.
    fn parse(input: &mut ParseBuffer<'_>) -> Result<Self>
        ensures { ReadsExactly expr_lit_of LitAlone input.old result input.new }
    {
        alone::lit(input)
    }
}

#[tactic(auto, using(crate::proofs::Shapes::shapes))]
impl Parse for ExprMacro {
    ghost use Rattle.syn_expr_ast.specs.View.{expr_macro_of};
    ghost use Rattle.syn_expr_spec.specs.Alone.{MacroAlone};
    ghost use Rattle.syn_expr_spec.specs.Tree.{Tree};

    ghost Seen = { Tree };

    ghost seen = { expr_macro_of };

    /// A path without arguments, `!` and a group come before the rest.
    ghost spells = { MacroAlone };

    ghost least = { 1 };

    /// Reads the call of a macro, without attributes before it (Rust Reference, "Macro Invocation").
    ///
    /// It is refused, memory aside, only where there is none, and the input then stays where it was: as a `Macro` is.
    fn parse(input: &mut ParseBuffer<'_>) -> Result<Self>
        ensures { ReadsExactly expr_macro_of MacroAlone input.old result input.new }
    {
        alone::mac(input)
    }
}

#[tactic(auto, using(crate::proofs::Shapes::shapes))]
impl Parse for ExprPath {
    ghost use Rattle.syn_expr_ast.specs.View.{expr_path_of};
    ghost use Rattle.syn_expr_spec.specs.Alone.{PathAlone};
    ghost use Rattle.syn_expr_spec.specs.Tree.{Tree};

    ghost Seen = { Tree };

    ghost seen = { expr_path_of };

    /// A path, as in an expression, comes before the rest, after attributes or none.
    ghost spells = { PathAlone };

    ghost least = { 1 };

    /// Reads a path, qualified by a type or not, after outer attributes or none (Rust Reference, "Paths in
    /// expressions", "Qualified paths"). Whatever follows is left, a brace and the `!` of a macro too.
    ///
    /// It is refused, memory aside, only where there is none, and the input then stays where it was: as its attributes
    /// are, and as a path is.
    fn parse(input: &mut ParseBuffer<'_>) -> Result<Self>
        ensures { ReadsExactly expr_path_of PathAlone input.old result input.new }
    {
        alone::path(input)
    }
}

#[tactic(auto, using(crate::proofs::Shapes::shapes))]
impl<E: ParseKinds> Parse for ExprArrayOf<E> {
    ghost use Rattle.syn_expr_ast.specs.View.{expr_array_of};
    ghost use Rattle.syn_expr_spec.specs.Alone.{Alone, is_array};
    ghost use Rattle.syn_expr_spec.specs.Tree.{Tree};

    ghost Seen = { Tree };

    ghost seen = { expr_array_of E.tree };

    /// An array of its elements comes before the rest.
    ghost spells = { Alone is_array };

    ghost least = { 1 };

    /// Reads an array of its elements, without attributes before it (Rust Reference, "Array expressions").
    ///
    /// It is refused, memory aside, only where there is none, and the input then stays where it was: as `ExpectedToken`
    /// of `[`, of a comma after an element, and as its elements are.
    fn parse(input: &mut ParseBuffer<'_>) -> Result<Self>
        ensures { ReadsExactly (expr_array_of E.tree) (Alone is_array) input.old result input.new }
    {
        E::parse_expr_array(input)
    }
}

#[tactic(auto, using(crate::proofs::Shapes::shapes))]
impl<E: ParseKinds> Parse for ExprParenOf<E> {
    ghost use Rattle.syn_expr_ast.specs.View.{expr_paren_of};
    ghost use Rattle.syn_expr_spec.specs.Alone.{Alone, is_paren};
    ghost use Rattle.syn_expr_spec.specs.Tree.{Tree};

    ghost Seen = { Tree };

    ghost seen = { expr_paren_of E.tree };

    /// An expression in parentheses comes before the rest.
    ghost spells = { Alone is_paren };

    ghost least = { 1 };

    /// Reads an expression in parentheses, without attributes before them (Rust Reference, "Grouped expressions").
    ///
    /// It is refused, memory aside, only where there is none, and the input then stays where it was: as `ExpectedToken`
    /// of `(`, as `UnexpectedToken` where a comma or more comes after the expression, and as this is.
    fn parse(input: &mut ParseBuffer<'_>) -> Result<Self>
        ensures { ReadsExactly (expr_paren_of E.tree) (Alone is_paren) input.old result input.new }
    {
        E::parse_expr_paren(input)
    }
}

#[tactic(auto, using(crate::proofs::Shapes::shapes))]
impl<E: ParseKinds> Parse for ExprRepeatOf<E> {
    ghost use Rattle.syn_expr_ast.specs.View.{expr_repeat_of};
    ghost use Rattle.syn_expr_spec.specs.Alone.{Alone, is_repeat};
    ghost use Rattle.syn_expr_spec.specs.Tree.{Tree};

    ghost Seen = { Tree };

    ghost seen = { expr_repeat_of E.tree };

    /// An array of an element that is repeated comes before the rest.
    ghost spells = { Alone is_repeat };

    ghost least = { 1 };

    /// Reads an array of an element that is repeated, without attributes before it (Rust Reference, "Array
    /// expressions").
    ///
    /// It is refused, memory aside, only where there is none, and the input then stays where it was: as `ExpectedToken`
    /// of `[`, of `;` after the element, as `UnexpectedToken` where more comes after the length, and as both are.
    fn parse(input: &mut ParseBuffer<'_>) -> Result<Self>
        ensures { ReadsExactly (expr_repeat_of E.tree) (Alone is_repeat) input.old result input.new }
    {
        E::parse_expr_repeat(input)
    }
}

#[tactic(auto, using(crate::proofs::Shapes::shapes))]
impl<E: ParseKinds> Parse for ExprTupleOf<E> {
    ghost use Rattle.syn_expr_ast.specs.View.{expr_tuple_of};
    ghost use Rattle.syn_expr_spec.specs.Alone.{OfKind, is_tuple};
    ghost use Rattle.syn_expr_spec.specs.Tree.{Tree};

    ghost Seen = { Tree };

    ghost seen = { expr_tuple_of E.tree };

    /// An expression comes before the rest, by the binding rules, that is a tuple.
    ghost spells = { OfKind is_tuple };

    ghost least = { 1 };

    /// Reads an expression that is a tuple, with attributes before it or without (Rust Reference, "Tuple expressions").
    /// Invisible groups that it is in are looked through, and left out with the attributes before them.
    ///
    /// It is refused, memory aside, only where there is none, and the input then stays where it was: as an expression is,
    /// and where there is another kind, as `ExpectedExprKind`, from the first token of this to its last.
    fn parse(input: &mut ParseBuffer<'_>) -> Result<Self>
        ensures exact { ReadsExactly (expr_tuple_of E.tree) (OfKind is_tuple) input.old result input.new }
        ensures others { RefusesOthers is_tuple WantedKind.Tuple input.old result }
    {
        E::parse_expr_tuple(input)
    }
}

/// Whether a segment is this word without arguments.
fn is_plain(segment: &PathSegment, word: &str) -> bool
    ensures { result ≡ bytes_eq segment.now.ident word.now && part.has_none (arguments_of segment.now.arguments) }
{
    segment.ident.as_str() == word && has_none(&segment.arguments)
}

/// Whether this word is the only segment.
#[tactic(auto, unfolding(syn_lower_leaves::specs::View::values))]
fn is_sole(segments: &Punctuated<PathSegment, PathSep>, word: &str) -> bool
    ensures { result ≡ paths.is_sole word.now (map (segment_of type_of) (values segments.now)) }
{
    match (segments.inner.as_slice(), &segments.last) {
        ([], Some(segment)) => is_plain(segment, word),
        ([(segment, _)], None) => is_plain(segment, word),
        _ => false,
    }
}

/// Whether a path is this word alone.
pub fn is_word_alone(qself: &Option<QSelf>, path: &Path, word: &str) -> bool
    ensures { result ≡ paths.is_word_alone word.now (qself_or type_of qself.now) (path_of type_of path.now) }
{
    qself.is_none() && path.leading_colon.is_none() && is_sole(&path.segments, word)
}
