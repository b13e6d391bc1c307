//! The tokens round operands in places of their own, and between and after operands.

ghost use Rattle.std.specs.Prelude.{◌≡◌, ◌++◌, [], OnOk, ◌∷◌, codes};
ghost use Rattle.syn_expr_ast.specs.Node.{frame_of, operator_of, postfix_of, trailer_of};
ghost use Rattle.syn_expr_ast.specs.View.{field_value_of};
ghost use Rattle.syn_expr_print.specs.Framed.{framed_own, field_own};
ghost use Rattle.syn_expr_spec.specs.Tree.{frame_own, infix_own, postfix_own, trailer_own};
ghost use Rattle.syn_tokens.specs.Input.{IsFront};
ghost use Rattle.syn_lower_spec.specs.PatOwn.{attributes_own, pat_own};
ghost use Rattle.syn_lower_spec.specs.Own.{alone, joint};
ghost use Rattle.syn_tokens.specs.Tok.{ident};

use crate::put::prefix::{PutPat, put_closure};
use syn_expr_ast::alone::{HasArmView, HasExprTree};
use syn_expr_ast::attrs::{put_all, put_outer};
use syn_expr_ast::node::{Frame, Operator, Postfix, Trailer, put_path};
use syn_expr_ast::put::{PutResult, put, put_some, put_tree};
use syn_expr_ast::structure::FieldValueOf;
use syn_lower::attr::Attribute;
use syn_lower::ty::Type;
use syn_tokens::token::{Comma, DotDot, Else, FatArrow, If, Semi};
use syn_tokens::tree::TokenStream;

/// Puts what comes before the operands of a node whose operands no delimiter encloses; before others nothing.
#[tactic(auto, using(syn_tokens::proofs::Fronts::fronts, syn_expr_ast::proofs::Owns::owns), unfolding(syn_tokens::specs::Sign::word_text))]
pub fn put_frame_head<P: PutPat>(tokens: &mut TokenStream, frame: Frame<'_, P>) -> PutResult
    ensures ok { OnOk result (tokens.new ≡ tokens.old ++ frame_own (frame_of P.view frame.entry) []) }
    ensures front { IsFront tokens.old tokens.new }
{
    match frame {
        Frame::Array(_) => Ok(()),
        Frame::Tuple(_) => Ok(()),
        Frame::Repeat(_) => Ok(()),
        Frame::Struct(_, _, _, _) => Ok(()),
        Frame::Closure(closure) => put_closure(tokens, closure),
        Frame::If(word) => put(tokens, word),
        Frame::While(label, word) => {
            put_some(tokens, label)?;
            put(tokens, word)
        }
        Frame::ForLoop(label, word, pat, behind) => {
            put_some(tokens, label)?;
            put(tokens, word)?;
            P::put_pat(pat, tokens)?;
            put(tokens, behind)
        }
        Frame::Match(word, _) => put(tokens, word),
        Frame::Group(_) => Ok(()),
    }
}

/// Puts the delimiter round the operands of a node, with what comes before it and after the operands in it; `inside` is
/// what is printed of the operands. Of a node whose operands no delimiter encloses nothing is put.
#[tactic(auto, using(syn_tokens::proofs::Fronts::fronts, syn_expr_ast::proofs::Owns::owns))]
pub fn put_framed<P: PutPat>(
    tokens: &mut TokenStream,
    frame: Frame<'_, P>,
    mut inside: TokenStream,
) -> PutResult
    ensures ok { OnOk result (tokens.new ≡ tokens.old ++ framed_own (frame_of P.view frame.entry) inside) }
    ensures front { IsFront tokens.old tokens.new }
{
    match frame {
        Frame::Array(bracket) => put_tree(tokens, bracket.enclose(inside)),
        Frame::Tuple(paren) => put_tree(tokens, paren.enclose(inside)),
        Frame::Repeat(bracket) => put_tree(tokens, bracket.enclose(inside)),
        Frame::Struct(qself, path, brace, dots) => {
            if dots {
                put_dots(&mut inside)?;
            }
            put_path(tokens, qself, path)?;
            put_tree(tokens, brace.enclose(inside))
        }
        Frame::Closure(_) => Ok(()),
        Frame::If(_) => Ok(()),
        Frame::While(_, _) => Ok(()),
        Frame::ForLoop(_, _, _, _) => Ok(()),
        Frame::Match(_, _) => Ok(()),
        Frame::Group(group) => put_tree(tokens, group.enclose(inside)),
    }
}

/// Puts a field up to its value: its outer attributes, its name or index, and a colon if there is one.
#[tactic(auto, using(syn_tokens::proofs::Fronts::fronts, syn_expr_ast::proofs::Owns::fields), unfolding(syn_tokens::specs::Sign::sign_text, syn_expr_ast::specs::Attrs::attrs_of, syn_expr_ast::specs::Attrs::outer_of))]
pub fn put_field_head<E: HasExprTree>(
    tokens: &mut TokenStream,
    field: &FieldValueOf<E>,
) -> PutResult
    ensures ok { OnOk result (tokens.new ≡ tokens.old ++ field_own (field_value_of E.tree field.now) []) }
    ensures front { IsFront tokens.old tokens.new }
{
    put_outer(tokens, &field.attrs)?;
    put(tokens, &field.member)?;
    put_some(tokens, &field.colon_token)
}

/// What is round the guard and the value of an arm.
pub struct ArmHead<'a, P> {
    /// The attributes.
    pub attrs: &'a Vec<Attribute>,
    /// The pattern, with its guard.
    pub pat: &'a P,
    /// `if`, where the arm has a guard of its own.
    pub if_token: Option<&'a If>,
    /// `=>`
    pub arrow: &'a FatArrow,
    /// `,`
    pub comma: &'a Option<Comma>,
}

/// The type of arms, as one prints them.
pub trait HasArmHead: HasArmView {
    ghost use Rattle.std.specs.Prelude.{◌≡◌, is_some};
    ghost use Rattle.syn_expr_ast.specs.Attrs.{attrs_of};
    ghost use Rattle.syn_expr_print.specs.Framed.{has_guard};

    /// The type of patterns.
    type Pat: PutPat;

    /// What is round the guard and the value.
    fn head(&self) -> ArmHead<'_, Self::Pat>
        ensures attrs { attrs_of result.attrs.now ≡ (Self.view self.now).attrs }
        ensures pat { Self.Pat.view result.pat.now ≡ (Self.view self.now).pat }
        ensures guard { is_some result.if_token ≡ has_guard (Self.view self.now) }
        ensures comma { is_some result.comma.now ≡ (Self.view self.now).comma };
}

/// Puts an arm up to its `if` or `=>`: its attributes and its pattern, without the guard.
#[tactic(auto, using(syn_tokens::proofs::Fronts::fronts, syn_expr_ast::proofs::Attributes::heads), unfolding(syn_expr_ast::specs::Attrs::attrs_of))]
pub fn put_arm_head<A: HasArmHead>(tokens: &mut TokenStream, arm: &A) -> PutResult
    ensures ok { OnOk result (tokens.new ≡ tokens.old ++ attributes_own (A.view arm.now).attrs (pat_own (A.view arm.now).pat.tree [])) }
    ensures front { IsFront tokens.old tokens.new }
{
    let ArmHead {
        attrs,
        pat,
        if_token: _,
        arrow: _,
        comma: _,
    } = arm.head();
    put_all(tokens, attrs)?;
    pat.put_pat(tokens)
}

/// Puts the operator between two operands.
#[tactic(auto, using(syn_tokens::proofs::Fronts::fronts, syn_expr_ast::proofs::Owns::owns), unfolding(syn_tokens::specs::Sign::sign_text))]
pub fn put_operator(tokens: &mut TokenStream, operator: Operator<'_>) -> PutResult
    ensures ok { OnOk result (tokens.new ≡ tokens.old ++ infix_own (operator_of operator.entry) []) }
    ensures front { IsFront tokens.old tokens.new }
{
    match operator {
        Operator::Binary(op) => put(tokens, op),
        Operator::Assign(eq) => put(tokens, eq),
        Operator::Range(limits) => put(tokens, limits),
    }
}

/// Puts what comes after an operand with which a node begins.
#[tactic(auto, using(syn_tokens::proofs::Fronts::fronts, syn_expr_ast::proofs::Owns::owns), unfolding(syn_tokens::specs::Sign::word_text))]
pub fn put_postfix(tokens: &mut TokenStream, postfix: Postfix<'_>) -> PutResult
    ensures ok { OnOk result (tokens.new ≡ tokens.old ++ postfix_own (postfix_of postfix.entry) []) }
    ensures front { IsFront tokens.old tokens.new }
{
    match postfix {
        Postfix::Cast(word, ty) => {
            put(tokens, word)?;
            put::<Type>(tokens, ty)
        }
        Postfix::Range(limits) => put(tokens, limits),
    }
}

/// Puts a trailer; `inside` is what its delimiter encloses, if it has one.
#[tactic(auto, using(syn_tokens::proofs::Fronts::fronts, syn_expr_ast::proofs::Owns::owns), unfolding(syn_tokens::specs::Sign::sign_text, syn_tokens::specs::Sign::word_text))]
pub fn put_trailer(tokens: &mut TokenStream, trailer: Trailer<'_>, inside: TokenStream) -> PutResult
    ensures ok { OnOk result (tokens.new ≡ tokens.old ++ trailer_own (trailer_of trailer.entry) inside []) }
    ensures front { IsFront tokens.old tokens.new }
{
    match trailer {
        Trailer::Call(paren) => put_tree(tokens, paren.enclose(inside)),
        Trailer::Index(bracket) => put_tree(tokens, bracket.enclose(inside)),
        Trailer::Method(dot, name, turbofish, paren) => {
            put(tokens, dot)?;
            put(tokens, name)?;
            put_some(tokens, turbofish)?;
            put_tree(tokens, paren.enclose(inside))
        }
        Trailer::Field(dot, member) => {
            put(tokens, dot)?;
            put(tokens, member)
        }
        Trailer::Await(dot, word) => {
            put(tokens, dot)?;
            put(tokens, word)
        }
        Trailer::Try(question) => put(tokens, question),
    }
}

/// Puts a comma that has no place.
#[tactic(auto, using(syn_tokens::proofs::Fronts::fronts), unfolding(syn_tokens::specs::Sign::sign_text))]
pub fn put_comma(tokens: &mut TokenStream) -> PutResult
    ensures ok { OnOk result (tokens.new ≡ tokens.old ++ alone 44 ∷ []) }
    ensures front { IsFront tokens.old tokens.new }
{
    put(tokens, &Comma::default())
}

/// Puts `..` that has no place.
#[tactic(auto, using(syn_tokens::proofs::Fronts::fronts), unfolding(syn_tokens::specs::Sign::sign_text))]
pub fn put_dots(tokens: &mut TokenStream) -> PutResult
    ensures ok { OnOk result (tokens.new ≡ tokens.old ++ joint 46 ∷ alone 46 ∷ []) }
    ensures front { IsFront tokens.old tokens.new }
{
    put(tokens, &DotDot::default())
}

/// Puts `;`.
#[tactic(auto, using(syn_tokens::proofs::Fronts::fronts), unfolding(syn_tokens::specs::Sign::sign_text))]
pub fn put_semi(tokens: &mut TokenStream, semi: &Semi) -> PutResult
    ensures ok { OnOk result (tokens.new ≡ tokens.old ++ alone 59 ∷ []) }
    ensures front { IsFront tokens.old tokens.new }
{
    put(tokens, semi)
}

/// Puts `else`.
#[tactic(auto, using(syn_tokens::proofs::Fronts::fronts), unfolding(syn_tokens::specs::Sign::word_text))]
pub fn put_else(tokens: &mut TokenStream, word: &Else) -> PutResult
    ensures ok { OnOk result (tokens.new ≡ tokens.old ++ ident (codes "else") ∷ []) }
    ensures front { IsFront tokens.old tokens.new }
{
    put(tokens, word)
}

/// Puts `if`, as it comes before a guard.
#[tactic(auto, using(syn_tokens::proofs::Fronts::fronts), unfolding(syn_tokens::specs::Sign::word_text))]
pub fn put_if(tokens: &mut TokenStream, word: &If) -> PutResult
    ensures ok { OnOk result (tokens.new ≡ tokens.old ++ ident (codes "if") ∷ []) }
    ensures front { IsFront tokens.old tokens.new }
{
    put(tokens, word)
}

/// Puts `=>`.
#[tactic(auto, using(syn_tokens::proofs::Fronts::fronts), unfolding(syn_tokens::specs::Sign::sign_text))]
pub fn put_arrow(tokens: &mut TokenStream, arrow: &FatArrow) -> PutResult
    ensures ok { OnOk result (tokens.new ≡ tokens.old ++ joint 61 ∷ alone 62 ∷ []) }
    ensures front { IsFront tokens.old tokens.new }
{
    put(tokens, arrow)
}
