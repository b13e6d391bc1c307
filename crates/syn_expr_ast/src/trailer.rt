//! What comes after an operand: calls, indices, fields, `.await` and `?`.
#![tactic(auto, using(crate::proofs::Shapes::shapes))]

ghost use Rattle.std.specs.Prelude.{◌≡◌, Some};
ghost use Rattle.syn_expr_spec.specs.Alone.{OfKind, is_await, is_call, is_field, is_index, is_method_call, is_try};
ghost use Rattle.syn_expr_ast.specs.Printed.{ReadsExactly, RefusesOthers};
ghost use Rattle.syn_expr_spec.specs.Tree.{Tree};
ghost use Rattle.syn_expr_ast.specs.Node.{operands_at, operands_of, trailer_at, trailer_of};
ghost use Rattle.syn_expr_ast.specs.Pats.{ArmView};
ghost use Rattle.syn_expr_ast.specs.View.{expr_await_of, expr_call_of, expr_field_of, expr_index_of, expr_method_call_of, expr_try_of};
ghost use Rattle.syn_expr_ast.specs.Label.{kind_at};

use crate::label::{NodeKind, TrailerKind};
use crate::node::{Attributes, Operands, Trailer};
use crate::parse::ParseKinds;
use crate::shape::PutShape;
use syn_expr_tokens::member::Member;
use syn_lower::attr::Attribute;
use syn_lower::path::AngleBracketedGenericArguments;
use syn_lower::punctuated::Punctuated;
use syn_tokens::buffer::{Parse, ParseBuffer, ToTokens};
use syn_tokens::error::{Result, WantedKind};
use syn_tokens::token::{Await, Bracket, Comma, Dot, Paren, Question};
use syn_tokens::tree::{Ident, TokenStream};

/// `a.await` (Rust Reference, "Await expressions").
#[derive(Debug, Drop, PartialEq, Eq, Hash)]
pub struct ExprAwaitOf<E> {
    /// The attributes.
    pub attrs: Vec<Attribute>,
    /// What is awaited.
    pub base: Box<E>,
    /// `.`
    pub dot_token: Dot,
    /// `await`
    pub await_token: Await,
}

/// `f(a, b)` (Rust Reference, "Call expressions").
#[derive(Debug, Drop, PartialEq, Eq, Hash)]
pub struct ExprCallOf<E> {
    /// The attributes.
    pub attrs: Vec<Attribute>,
    /// What is called.
    pub func: Box<E>,
    /// The parentheses.
    pub paren_token: Paren,
    /// The arguments.
    pub args: Punctuated<E, Comma>,
}

/// `a.b`, `a.0` (Rust Reference, "Field access expressions", "Tuple indexing expressions").
#[derive(Debug, Drop, PartialEq, Eq, Hash)]
pub struct ExprFieldOf<E> {
    /// The attributes.
    pub attrs: Vec<Attribute>,
    /// What has the field.
    pub base: Box<E>,
    /// `.`
    pub dot_token: Dot,
    /// The name or index of the field.
    pub member: Member,
}

/// `a[i]` (Rust Reference, "Array and slice indexing expressions").
#[derive(Debug, Drop, PartialEq, Eq, Hash)]
pub struct ExprIndexOf<E> {
    /// The attributes.
    pub attrs: Vec<Attribute>,
    /// What is indexed.
    pub expr: Box<E>,
    /// The brackets.
    pub bracket_token: Bracket,
    /// The index.
    pub index: Box<E>,
}

/// `a.f(b)`, `a.f::<T>(b)` (Rust Reference, "Method-call expressions").
#[derive(Debug, Drop, PartialEq, Eq, Hash)]
pub struct ExprMethodCallOf<E> {
    /// The attributes.
    pub attrs: Vec<Attribute>,
    /// What the method is called on.
    pub receiver: Box<E>,
    /// `.`
    pub dot_token: Dot,
    /// The name of the method.
    pub method: Ident,
    /// `::<T>`
    pub turbofish: Option<AngleBracketedGenericArguments>,
    /// The parentheses.
    pub paren_token: Paren,
    /// The arguments.
    pub args: Punctuated<E, Comma>,
}

/// `a?` (Rust Reference, "The try propagation expression").
#[derive(Debug, Drop, PartialEq, Eq, Hash)]
pub struct ExprTryOf<E> {
    /// The attributes.
    pub attrs: Vec<Attribute>,
    /// What is tried.
    pub expr: Box<E>,
    /// `?`
    pub question_token: Question,
}

impl<E> ExprAwaitOf<E> {
    /// Its trailer.
    pub fn trailer(&self) -> Trailer<'_>
        ensures { (tree : E → Tree) → Some (trailer_of result) ≡ trailer_at (expr_await_of tree self.now) }
    {
        Trailer::Await(&self.dot_token, &self.await_token)
    }

    /// Its operands.
    pub fn operands<A>(&self) -> Operands<'_, E, A>
        ensures { (tree : E → Tree) (arm : A → ArmView) → operands_of tree arm result ≡ operands_at (expr_await_of tree self.now) }
    {
        Operands::One(&self.base)
    }
}

impl<E> ExprCallOf<E> {
    /// Its trailer.
    pub fn trailer(&self) -> Trailer<'_>
        ensures { (tree : E → Tree) → Some (trailer_of result) ≡ trailer_at (expr_call_of tree self.now) }
    {
        Trailer::Call(&self.paren_token)
    }

    /// Its operands.
    pub fn operands<A>(&self) -> Operands<'_, E, A>
        ensures { (tree : E → Tree) (arm : A → ArmView) → operands_of tree arm result ≡ operands_at (expr_call_of tree self.now) }
    {
        Operands::Call(&self.func, &self.args)
    }
}

impl<E> ExprFieldOf<E> {
    /// Its kind.
    pub fn kind(&self) -> NodeKind
        ensures { (tree : E → Tree) → result ≡ kind_at (expr_field_of tree self.now) }
    {
        let named = matches!(self.member, Member::Named(_));
        NodeKind::Tail(TrailerKind::Field { named })
    }

    /// Its trailer.
    pub fn trailer(&self) -> Trailer<'_>
        ensures { (tree : E → Tree) → Some (trailer_of result) ≡ trailer_at (expr_field_of tree self.now) }
    {
        Trailer::Field(&self.dot_token, &self.member)
    }

    /// Its operands.
    pub fn operands<A>(&self) -> Operands<'_, E, A>
        ensures { (tree : E → Tree) (arm : A → ArmView) → operands_of tree arm result ≡ operands_at (expr_field_of tree self.now) }
    {
        Operands::One(&self.base)
    }
}

impl<E> ExprIndexOf<E> {
    /// Its trailer.
    pub fn trailer(&self) -> Trailer<'_>
        ensures { (tree : E → Tree) → Some (trailer_of result) ≡ trailer_at (expr_index_of tree self.now) }
    {
        Trailer::Index(&self.bracket_token)
    }

    /// Its operands.
    pub fn operands<A>(&self) -> Operands<'_, E, A>
        ensures { (tree : E → Tree) (arm : A → ArmView) → operands_of tree arm result ≡ operands_at (expr_index_of tree self.now) }
    {
        Operands::Index(&self.expr, &self.index)
    }
}

impl<E> ExprMethodCallOf<E> {
    /// Its trailer.
    pub fn trailer(&self) -> Trailer<'_>
        ensures { (tree : E → Tree) → Some (trailer_of result) ≡ trailer_at (expr_method_call_of tree self.now) }
    {
        Trailer::Method(
            &self.dot_token,
            &self.method,
            &self.turbofish,
            &self.paren_token,
        )
    }

    /// Its operands.
    pub fn operands<A>(&self) -> Operands<'_, E, A>
        ensures { (tree : E → Tree) (arm : A → ArmView) → operands_of tree arm result ≡ operands_at (expr_method_call_of tree self.now) }
    {
        Operands::Call(&self.receiver, &self.args)
    }
}

impl<E> ExprTryOf<E> {
    /// Its trailer.
    pub fn trailer(&self) -> Trailer<'_>
        ensures { (tree : E → Tree) → Some (trailer_of result) ≡ trailer_at (expr_try_of tree self.now) }
    {
        Trailer::Try(&self.question_token)
    }

    /// Its operands.
    pub fn operands<A>(&self) -> Operands<'_, E, A>
        ensures { (tree : E → Tree) (arm : A → ArmView) → operands_of tree arm result ≡ operands_at (expr_try_of tree self.now) }
    {
        Operands::One(&self.expr)
    }
}

#[tactic(auto, using(syn_tokens::proofs::Fronts::fronts))]
impl<E: PutShape> ToTokens for ExprAwaitOf<E> {
    ghost use Rattle.syn_expr_ast.specs.Printed.{whole};
    ghost use Rattle.syn_expr_ast.specs.View.{expr_await_of};
    ghost use Rattle.syn_expr_spec.specs.Next.{enclosed};

    ghost printed = { λ x. whole enclosed (expr_await_of E.tree x) };

    /// Puts the base and `.await`.
    fn to_tokens(&self, tokens: &mut TokenStream) -> Result<()> {
        let trailer = Trailer::Await(&self.dot_token, &self.await_token);
        E::put_trailed(tokens, Attributes::Before(&self.attrs), &self.base, trailer)?;
        Ok(())
    }
}

#[tactic(auto, using(syn_tokens::proofs::Fronts::fronts))]
impl<E: PutShape> ToTokens for ExprCallOf<E> {
    ghost use Rattle.syn_expr_ast.specs.Printed.{whole};
    ghost use Rattle.syn_expr_ast.specs.View.{expr_call_of};
    ghost use Rattle.syn_expr_spec.specs.Next.{enclosed};

    ghost printed = { λ x. whole enclosed (expr_call_of E.tree x) };

    /// Puts what is called, and the arguments in parentheses.
    fn to_tokens(&self, tokens: &mut TokenStream) -> Result<()> {
        let trailer = Trailer::Call(&self.paren_token);
        E::put_called(
            tokens,
            Attributes::Before(&self.attrs),
            &self.func,
            trailer,
            &self.args,
        )?;
        Ok(())
    }
}

#[tactic(auto, using(syn_tokens::proofs::Fronts::fronts))]
impl<E: PutShape> ToTokens for ExprFieldOf<E> {
    ghost use Rattle.syn_expr_ast.specs.Printed.{whole};
    ghost use Rattle.syn_expr_ast.specs.View.{expr_field_of};
    ghost use Rattle.syn_expr_spec.specs.Next.{enclosed};

    ghost printed = { λ x. whole enclosed (expr_field_of E.tree x) };

    /// Puts the base, `.` and the name or index.
    fn to_tokens(&self, tokens: &mut TokenStream) -> Result<()> {
        let trailer = Trailer::Field(&self.dot_token, &self.member);
        E::put_trailed(tokens, Attributes::Before(&self.attrs), &self.base, trailer)?;
        Ok(())
    }
}

#[tactic(auto, using(syn_tokens::proofs::Fronts::fronts))]
impl<E: PutShape> ToTokens for ExprIndexOf<E> {
    ghost use Rattle.syn_expr_ast.specs.Printed.{whole};
    ghost use Rattle.syn_expr_ast.specs.View.{expr_index_of};
    ghost use Rattle.syn_expr_spec.specs.Next.{enclosed};

    ghost printed = { λ x. whole enclosed (expr_index_of E.tree x) };

    /// Puts what is indexed, and the index in brackets.
    fn to_tokens(&self, tokens: &mut TokenStream) -> Result<()> {
        let bracket = &self.bracket_token;
        E::put_indexed(
            tokens,
            Attributes::Before(&self.attrs),
            &self.expr,
            bracket,
            &self.index,
        )?;
        Ok(())
    }
}

#[tactic(auto, using(syn_tokens::proofs::Fronts::fronts))]
impl<E: PutShape> ToTokens for ExprMethodCallOf<E> {
    ghost use Rattle.syn_expr_ast.specs.Printed.{whole};
    ghost use Rattle.syn_expr_ast.specs.View.{expr_method_call_of};
    ghost use Rattle.syn_expr_spec.specs.Next.{enclosed};

    ghost printed = { λ x. whole enclosed (expr_method_call_of E.tree x) };

    /// Puts the receiver, `.` and the method with its generic arguments, and the arguments in parentheses.
    fn to_tokens(&self, tokens: &mut TokenStream) -> Result<()> {
        let trailer = Trailer::Method(
            &self.dot_token,
            &self.method,
            &self.turbofish,
            &self.paren_token,
        );
        E::put_called(
            tokens,
            Attributes::Before(&self.attrs),
            &self.receiver,
            trailer,
            &self.args,
        )?;
        Ok(())
    }
}

#[tactic(auto, using(syn_tokens::proofs::Fronts::fronts))]
impl<E: PutShape> ToTokens for ExprTryOf<E> {
    ghost use Rattle.syn_expr_ast.specs.Printed.{whole};
    ghost use Rattle.syn_expr_ast.specs.View.{expr_try_of};
    ghost use Rattle.syn_expr_spec.specs.Next.{enclosed};

    ghost printed = { λ x. whole enclosed (expr_try_of E.tree x) };

    /// Puts the base and `?`.
    fn to_tokens(&self, tokens: &mut TokenStream) -> Result<()> {
        let trailer = Trailer::Try(&self.question_token);
        E::put_trailed(tokens, Attributes::Before(&self.attrs), &self.expr, trailer)?;
        Ok(())
    }
}

impl<E: ParseKinds> Parse for ExprAwaitOf<E> {
    ghost use Rattle.syn_expr_ast.specs.View.{expr_await_of};
    ghost use Rattle.syn_expr_spec.specs.Alone.{OfKind, is_await};
    ghost use Rattle.syn_expr_spec.specs.Tree.{Tree};

    ghost Seen = { Tree };

    ghost seen = { expr_await_of E.tree };

    /// An expression comes before the rest, by the binding rules, that is `.await` after an operand.
    ghost spells = { OfKind is_await };

    ghost least = { 1 };

    /// Reads an expression that is `.await` after an operand, with attributes before it or without (Rust Reference,
    /// "Await expressions"). Invisible groups that it is in are looked through, and left out with the attributes
    /// before them.
    ///
    /// It is refused, memory aside, only where there is none, and the input then stays where it was: as an expression is,
    /// and where there is another kind, as `ExpectedExprKind`, from the first token of this to its last.
    fn parse(input: &mut ParseBuffer<'_>) -> Result<Self>
        ensures exact { ReadsExactly (expr_await_of E.tree) (OfKind is_await) input.old result input.new }
        ensures others { RefusesOthers is_await WantedKind.Await input.old result }
    {
        E::parse_expr_await(input)
    }
}

impl<E: ParseKinds> Parse for ExprCallOf<E> {
    ghost use Rattle.syn_expr_ast.specs.View.{expr_call_of};
    ghost use Rattle.syn_expr_spec.specs.Alone.{OfKind, is_call};
    ghost use Rattle.syn_expr_spec.specs.Tree.{Tree};

    ghost Seen = { Tree };

    ghost seen = { expr_call_of E.tree };

    /// An expression comes before the rest, by the binding rules, that is a call.
    ghost spells = { OfKind is_call };

    ghost least = { 1 };

    /// Reads an expression that is a call, with attributes before it or without (Rust Reference, "Call expressions").
    /// Invisible groups that it is in are looked through, and left out with the attributes before them.
    ///
    /// It is refused, memory aside, only where there is none, and the input then stays where it was: as an expression is,
    /// and where there is another kind, as `ExpectedExprKind`, from the first token of this to its last.
    fn parse(input: &mut ParseBuffer<'_>) -> Result<Self>
        ensures exact { ReadsExactly (expr_call_of E.tree) (OfKind is_call) input.old result input.new }
        ensures others { RefusesOthers is_call WantedKind.Call input.old result }
    {
        E::parse_expr_call(input)
    }
}

impl<E: ParseKinds> Parse for ExprFieldOf<E> {
    ghost use Rattle.syn_expr_ast.specs.View.{expr_field_of};
    ghost use Rattle.syn_expr_spec.specs.Alone.{OfKind, is_field};
    ghost use Rattle.syn_expr_spec.specs.Tree.{Tree};

    ghost Seen = { Tree };

    ghost seen = { expr_field_of E.tree };

    /// An expression comes before the rest, by the binding rules, that is a field after an operand.
    ghost spells = { OfKind is_field };

    ghost least = { 1 };

    /// Reads an expression that is a field after an operand, with attributes before it or without (Rust Reference,
    /// "Field access expressions", "Tuple indexing expressions"). Invisible groups that it is in are looked
    /// through, and left out with the attributes before them.
    ///
    /// It is refused, memory aside, only where there is none, and the input then stays where it was: as an expression is,
    /// and where there is another kind, as `ExpectedExprKind`, from the first token of this to its last.
    fn parse(input: &mut ParseBuffer<'_>) -> Result<Self>
        ensures exact { ReadsExactly (expr_field_of E.tree) (OfKind is_field) input.old result input.new }
        ensures others { RefusesOthers is_field WantedKind.Field input.old result }
    {
        E::parse_expr_field(input)
    }
}

impl<E: ParseKinds> Parse for ExprIndexOf<E> {
    ghost use Rattle.syn_expr_ast.specs.View.{expr_index_of};
    ghost use Rattle.syn_expr_spec.specs.Alone.{OfKind, is_index};
    ghost use Rattle.syn_expr_spec.specs.Tree.{Tree};

    ghost Seen = { Tree };

    ghost seen = { expr_index_of E.tree };

    /// An expression comes before the rest, by the binding rules, that is an index after an operand.
    ghost spells = { OfKind is_index };

    ghost least = { 1 };

    /// Reads an expression that is an index after an operand, with attributes before it or without (Rust Reference,
    /// "Array and slice indexing expressions"). Invisible groups that it is in are looked through, and left out
    /// with the attributes before them.
    ///
    /// It is refused, memory aside, only where there is none, and the input then stays where it was: as an expression is,
    /// and where there is another kind, as `ExpectedExprKind`, from the first token of this to its last.
    fn parse(input: &mut ParseBuffer<'_>) -> Result<Self>
        ensures exact { ReadsExactly (expr_index_of E.tree) (OfKind is_index) input.old result input.new }
        ensures others { RefusesOthers is_index WantedKind.Index input.old result }
    {
        E::parse_expr_index(input)
    }
}

impl<E: ParseKinds> Parse for ExprMethodCallOf<E> {
    ghost use Rattle.syn_expr_ast.specs.View.{expr_method_call_of};
    ghost use Rattle.syn_expr_spec.specs.Alone.{OfKind, is_method_call};
    ghost use Rattle.syn_expr_spec.specs.Tree.{Tree};

    ghost Seen = { Tree };

    ghost seen = { expr_method_call_of E.tree };

    /// An expression comes before the rest, by the binding rules, that is the call of a method.
    ghost spells = { OfKind is_method_call };

    ghost least = { 1 };

    /// Reads an expression that is the call of a method, with attributes before it or without (Rust Reference,
    /// "Method-call expressions"). Invisible groups that it is in are looked through, and left out with the
    /// attributes before them.
    ///
    /// It is refused, memory aside, only where there is none, and the input then stays where it was: as an expression is,
    /// and where there is another kind, as `ExpectedExprKind`, from the first token of this to its last.
    fn parse(input: &mut ParseBuffer<'_>) -> Result<Self>
        ensures exact { ReadsExactly (expr_method_call_of E.tree) (OfKind is_method_call) input.old result input.new }
        ensures others { RefusesOthers is_method_call WantedKind.MethodCall input.old result }
    {
        E::parse_expr_method_call(input)
    }
}

impl<E: ParseKinds> Parse for ExprTryOf<E> {
    ghost use Rattle.syn_expr_ast.specs.View.{expr_try_of};
    ghost use Rattle.syn_expr_spec.specs.Alone.{OfKind, is_try};
    ghost use Rattle.syn_expr_spec.specs.Tree.{Tree};

    ghost Seen = { Tree };

    ghost seen = { expr_try_of E.tree };

    /// An expression comes before the rest, by the binding rules, that is `?` after an operand.
    ghost spells = { OfKind is_try };

    ghost least = { 1 };

    /// Reads an expression that is `?` after an operand, with attributes before it or without (Rust Reference, "The
    /// try propagation expression"). Invisible groups that it is in are looked through, and left out with the
    /// attributes before them.
    ///
    /// It is refused, memory aside, only where there is none, and the input then stays where it was: as an expression is,
    /// and where there is another kind, as `ExpectedExprKind`, from the first token of this to its last.
    fn parse(input: &mut ParseBuffer<'_>) -> Result<Self>
        ensures exact { ReadsExactly (expr_try_of E.tree) (OfKind is_try) input.old result input.new }
        ensures others { RefusesOthers is_try WantedKind.Try input.old result }
    {
        E::parse_expr_try(input)
    }
}
