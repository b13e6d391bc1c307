//! The reader of what is in the braces of a struct expression (Rust Reference, "Struct expressions").

ghost use Rattle.std.specs.Prelude.{◌≡◌, ◌≤◌, ◌+◌, None};
ghost use Rattle.syn_expr_parse.specs.Reads.{Callable, ReadsExpr};
ghost use Rattle.syn_expr_ast.specs.View.{boxed, expr_struct_of, field_value_of};
ghost use Rattle.syn_expr_parse.specs.Fields.{base, braced, entry, one_field, value_at};
ghost use Rattle.syn_expr_parse.specs.View.{entry_of, fields_of};
ghost use Rattle.syn_expr_tokens.specs.View.{member_of};
ghost use Rattle.syn_expr_spec.specs.AloneRead as alone;
ghost use Rattle.syn_expr_spec.specs.Read as read;
ghost use Rattle.syn_lower.specs.View.{path_of, qself_or, type_of};
ghost use Rattle.syn_lower_leaves.specs.Reads.{Reads};
ghost use Rattle.syn_tokens.specs.Tok.{weight};

use crate::kinds::ReadExprs;
use crate::known::{Held, PLAIN, given_up};
use crate::lists::Lists;
use crate::operands::named;
use syn_expr_ast::atom::is_word_alone;
use syn_expr_ast::structure::{ExprStructOf, FieldValueOf};
use syn_expr_heads::leaf::{FieldHead, comma_or_end, field};
use syn_expr_spec::kinds::Place;
use syn_expr_tokens::member::Member;
use syn_lower::path::{Path, QSelf};
use syn_lower::punctuated::Punctuated;
use syn_tokens::buffer::{ParseBuffer, Token};
use syn_tokens::error::{ErrorKind, Expected, Result};
use syn_tokens::token::{Colon, Comma, DotDot};

/// One of what is in the braces.
#[derive(Drop)]
pub enum Entry<E> {
    /// A field, and the comma after it.
    Field(FieldValueOf<E>, Option<Comma>),
    /// `..`, and the expression after it.
    Rest(DotDot, Option<Box<E>>),
}

/// What is in the braces.
#[derive(Drop)]
pub struct Fields<E> {
    /// The fields.
    pub fields: Punctuated<FieldValueOf<E>, Comma>,
    /// `..`
    pub dot2_token: Option<DotDot>,
    /// Where the other fields come from.
    pub rest: Option<Box<E>>,
}

/// Fields after which there is no `..`.
fn without_rest<E>(fields: Punctuated<FieldValueOf<E>, Comma>) -> Fields<E>
    ensures { result ≡ record { fields = fields; dot2_token = None; rest = None } }
{
    Fields {
        fields,
        dot2_token: None,
        rest: None,
    }
}

impl<E: ReadExprs + Drop, F: Fn(&mut ParseBuffer<'_>, Place) -> Result<Box<E>>> Lists<F> {
    /// Reads the value of a field after its colon; without one a name says it.
    // Not in the frame of its caller, which is on the stack once for each level of a tree.
    #[inline(never)]
    fn value(&self, input: &mut ParseBuffer<'_>, member: &Member, has_colon: bool) -> Result<E>
        requires callable { Callable (weight input.old.rest + 1) (F.pre self.now.expr) }
        requires reads { ReadsExpr E.tree (F.post self.now.expr) }
        ensures value { Reads E.tree (value_at (member_of member.now) has_colon input.old.rest) result input.new.rest }
        ensures noted { input.new.noted ≡ input.old.noted }
        ensures shrinks { weight input.new.rest ≤ weight input.old.rest }
    {
        if has_colon {
            let x = (self.expr)(input, PLAIN)?;
            return Ok(Box::into_inner(x));
        }
        match member {
            Member::Named(name) => named(input.alloc(), name),
            Member::Unnamed(_) => {
                Err(input.error(ErrorKind::ExpectedToken(Expected::One(Colon::wanted()))))
            }
        }
    }

    /// Reads a field by itself, without the comma after it: outer attributes, a member, and its value after a colon, which
    /// only a name may be without (Rust Reference, "Struct expressions"). It is refused as `ExpectedMember` where there
    /// is no member, as `ExpectedToken` of the colon where an index has none, and as its attributes and its value are.
    #[tactic(auto, unfolding(crate::specs::Fields::one_field, syn_expr_ast::specs::Attrs::attrs_of))]
    pub fn field_value(&self, input: &mut ParseBuffer<'_>) -> Result<FieldValueOf<E>>
        requires callable { Callable (weight input.old.rest + 1) (F.pre self.now.expr) }
        requires reads { ReadsExpr E.tree (F.post self.now.expr) }
        ensures value { Reads (field_value_of E.tree) (one_field input.old.rest) result input.new.rest }
        ensures noted { input.new.noted ≡ input.old.noted }
        ensures shrinks { weight input.new.rest ≤ weight input.old.rest }
    {
        let no_member = input.error(ErrorKind::ExpectedMember);
        match field(input)? {
            FieldHead::Rest(_) => Err(no_member),
            FieldHead::Field(attrs, member, colon_token) => {
                let expr = self.value(input, &member, colon_token.is_some())?;
                Ok(FieldValueOf {
                    attrs,
                    member,
                    colon_token,
                    expr,
                })
            }
        }
    }

    /// Reads the expression after `..`, to the end of the input, or nothing there.
    // Not in the frame of its caller, which is on the stack once for each level of a tree.
    #[inline(never)]
    #[tactic(auto)]
    fn base(&self, input: &mut ParseBuffer<'_>) -> Result<Option<Box<E>>>
        requires callable { Callable (weight input.old.rest + 1) (F.pre self.now.expr) }
        requires reads { ReadsExpr E.tree (F.post self.now.expr) }
        ensures value { Reads (boxed E.tree) (base input.old.rest) result input.new.rest }
        ensures noted { input.new.noted ≡ input.old.noted }
        ensures shrinks { weight input.new.rest ≤ weight input.old.rest }
    {
        if input.is_empty() {
            return Ok(None);
        }
        let x = (self.expr)(input, PLAIN)?;
        if !input.is_empty() {
            return Err(given_up(x, input.error(ErrorKind::UnexpectedToken)));
        }
        Ok(Some(x))
    }

    /// Reads a field with its comma, or `..` and what is after it.
    // Not in the frame of its caller, which is on the stack once for each level of a tree.
    #[inline(never)]
    #[tactic(auto, unfolding(crate::specs::Fields::entry, syn_expr_ast::specs::Attrs::attrs_of))]
    fn entry(&self, input: &mut ParseBuffer<'_>) -> Result<Entry<E>>
        requires callable { Callable (weight input.old.rest + 1) (F.pre self.now.expr) }
        requires reads { ReadsExpr E.tree (F.post self.now.expr) }
        ensures value { Reads (entry_of E.tree) (entry input.old.rest) result input.new.rest }
        ensures noted { input.new.noted ≡ input.old.noted }
        ensures shrinks { weight input.new.rest ≤ weight input.old.rest }
    {
        match field(input)? {
            FieldHead::Rest(dot2_token) => {
                let rest = self.base(input)?;
                Ok(Entry::Rest(dot2_token, rest))
            }
            FieldHead::Field(attrs, member, colon_token) => {
                let expr = Held {
                    value: self.value(input, &member, colon_token.is_some())?,
                };
                let comma = comma_or_end(input)?;
                let field = FieldValueOf {
                    attrs,
                    member,
                    colon_token,
                    expr: expr.into_inner(),
                };
                Ok(Entry::Field(field, comma))
            }
        }
    }

    /// Reads what is in the braces, to the end of the input.
    // Not in the frame of its caller, which is on the stack once for each level of a tree.
    #[inline(never)]
    #[tactic(auto, using(crate::proofs::FieldTurns::turns))]
    fn fields(&self, input: &mut ParseBuffer<'_>) -> Result<Fields<E>>
        requires callable { Callable (weight input.old.rest + 1) (F.pre self.now.expr) }
        requires reads { ReadsExpr E.tree (F.post self.now.expr) }
        ensures value { Reads (fields_of E.tree) (braced input.old.rest) result input.new.rest }
        ensures noted { input.new.noted ≡ input.old.noted }
        ensures shrinks { weight input.new.rest ≤ weight input.old.rest }
    {
        let mut held = Held {
            value: Punctuated::new(input.alloc()),
        };
        'fields: while !input.is_empty() {
            match self.entry(input)? {
                Entry::Rest(dot2_token, rest) => {
                    return Ok(Fields {
                        fields: held.into_inner(),
                        dot2_token: Some(dot2_token),
                        rest,
                    });
                }
                Entry::Field(field, comma) => {
                    held.value.push_value(field)?;
                    let Some(comma) = comma else {
                        return Ok(without_rest(held.into_inner()));
                    };
                    held.value.push_punct(comma)?;
                }
            }
        }
        Ok(without_rest(held.into_inner()))
    }

    /// Reads a struct expression after its path, whatever path that is: the braces, in them fields with commas between, and
    /// perhaps `..` after them, with an expression or without (Rust Reference, "Struct expressions"). Another token is refused
    /// as `ExpectedToken` of `{`, a missing comma as `ExpectedToken` of it, what comes after the expression of `..` as
    /// `UnexpectedToken`, and a field as `field` refuses it.
    #[tactic(auto, using(crate::proofs::Structures::behind), unfolding(syn_expr_ast::specs::Attrs::attrs_of))]
    pub fn structure_behind(
        &self,
        input: &mut ParseBuffer<'_>,
        qself: Option<QSelf>,
        path: Path,
    ) -> Result<ExprStructOf<E>>
        requires callable { Callable (weight input.old.rest) (F.pre self.now.expr) }
        requires reads { ReadsExpr E.tree (F.post self.now.expr) }
        ensures value { Reads (expr_struct_of E.tree) (alone.structure_behind (qself_or type_of qself, path_of type_of path) input.old.rest) result input.new.rest }
        ensures noted { input.new.noted ≡ input.old.noted }
        ensures shrinks { weight input.new.rest ≤ weight input.old.rest }
    {
        let (brace_token, mut content) = input.parse_braces()?;
        let Fields {
            fields,
            dot2_token,
            rest,
        } = self.fields(&mut content)?;
        let attrs = Vec::new(input.alloc());
        Ok(ExprStructOf {
            attrs,
            qself,
            path,
            brace_token,
            fields,
            dot2_token,
            rest,
        })
    }

    /// Reads a struct expression after its path, where there may be one: there is none before the block of a condition, nor after
    /// the path `try`. There it is refused as `UnexpectedToken`, else as `structure_behind` refuses it.
    // Not in the frame of its caller, which is on the stack once for each level of a tree.
    #[inline(never)]
    #[tactic(auto, using(crate::proofs::Structures::structures))]
    pub fn structure(
        &self,
        input: &mut ParseBuffer<'_>,
        place: Place,
        qself: Option<QSelf>,
        path: Path,
    ) -> Result<Box<E>>
        requires callable { Callable (weight input.old.rest) (F.pre self.now.expr) }
        requires reads { ReadsExpr E.tree (F.post self.now.expr) }
        ensures value { Reads (λ b. E.tree b.value) (read.structure_read read.expr place (qself_or type_of qself, path_of type_of path) input.old.rest) result input.new.rest }
        ensures noted { input.new.noted ≡ input.old.noted }
        ensures shrinks { weight input.new.rest ≤ weight input.old.rest }
    {
        if place.condition || is_word_alone(&qself, &path, "try") {
            return Err(input.error(ErrorKind::UnexpectedToken));
        }
        let x = self.structure_behind(input, qself, path)?;
        Ok(Box::new(input.alloc(), E::struct_expr(x))?)
    }
}
