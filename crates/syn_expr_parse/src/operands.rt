//! The readers of operands: by what comes first, with their trailers and attributes (Rust Reference, "Expressions",
//! "Expression attributes").

ghost use Rattle.std.specs.Prelude.{◌≡◌, ◌≤◌, ◌∷◌, false, true, drop, not, Some, IfOk, IfErr, MatchOption};
ghost use Rattle.syn_lower_spec.specs.PatFits.{attributes_outer};
ghost use Rattle.syn_expr_parse.specs.Reads.{Callable, ReadsExpr};
ghost use Rattle.syn_expr_ast.specs.Attrs.{attrs_of};
ghost use Rattle.syn_expr_parse.specs.Groups as groups;
ghost use Rattle.syn_expr_parse.specs.Groups.{closed_path};
ghost use Rattle.syn_expr_parse.specs.Operators.{outer_operand};
ghost use Rattle.syn_expr_spec.specs.Read as read;
ghost use Rattle.syn_expr_spec.specs.Slot as slot;
ghost use Rattle.syn_expr_spec.specs.Tree as e;
ghost use Rattle.syn_expr_spec.specs.Path as paths;
ghost use Rattle.syn_lower.specs.View.{path_of, qself_or, trails, type_of};
ghost use Rattle.syn_lower_leaves.specs.Reads.{Reads};
ghost use Rattle.syn_expr_spec.specs.Stands as stands;
ghost use Rattle.syn_lower_spec.specs.Mark as mark;
ghost use Rattle.syn_tokens.specs.Tok.{ident, weight};
ghost use Rattle.syn_tokens.specs.View.{toks_of};
ghost use Rattle.syn_expr_parse.specs.Names as names;

use crate::atoms::{Atoms, leaf, standing};
use crate::blocks::Blocks;
use crate::kinds::{ReadExprs, ReadPats};
use crate::known::{LetGo, PLAIN, given_up, takes_attributes};
use crate::lists::Lists;
use crate::operations::first_operator;
use crate::{known, make};
use std::alloc::Global;
use syn_expr_ast::alone::{IsExpr, named_refusal};
use syn_expr_ast::atom::{ExprPath, is_word_alone};
use syn_expr_heads::leaf::path_or_macro;
use syn_expr_heads::word::{if_word, match_word};
use syn_expr_spec::kinds::Place;
use syn_expr_tokens::atom::{Atom, atom_at};
use syn_expr_tokens::op::brace_at;
use syn_lexer::front::is_reserved_word;
use syn_lower::grammar::{Grammar as TypeGrammar, is_bare, macro_end};
use syn_lower::path::{Path, PathArguments, PathSegment, QSelf};
use syn_lower::punctuated::Punctuated;
use syn_lower::readers::ty;
use syn_lower_leaves::attr::Attribute;
use syn_lower_leaves::leaf::{lifetime_at, outer_attributes};
use syn_lower_spec::label::PathStyle;
use syn_tokens::Delimiter;
use syn_tokens::buffer::ParseBuffer;
use syn_tokens::error::{Error, ErrorKind, Expected, Result};
use syn_tokens::token::{Group, If, Match, Ne, Not, PathSep, Pound};
use syn_tokens::tree::{Ident, Span, TokenTree, copy_ident, copy_trees};

/// An operand with the attributes that come before it, given the tokens of these: they are the first of an operand's tokens
/// that are kept. Before a range without a start they are refused, at its operator, which is at the span.
// Not in the frame of its caller, which is on the stack once for each level of a tree.
#[inline(never)]
#[tactic(auto, using(crate::proofs::Attributes::outers))]
fn with_outer<E: ReadExprs + Drop>(
    input: &ParseBuffer<'_>,
    place: Place,
    tokens: &[TokenTree],
    attrs: Vec<Attribute>,
    x: Box<E>,
    span: Span,
) -> Result<Box<E>>
    requires outer { attributes_outer (attrs_of attrs) ≡ true }
    ensures { Reads (λ b. E.tree b.value) (outer_operand place (toks_of tokens.now) (attrs_of attrs) (E.tree x.value) input.now.rest) result input.now.rest }
{
    match Box::into_inner(x).into_verbatim() {
        Ok(more) => {
            let mut kept = copy_trees(input.alloc(), tokens)?;
            kept.append(more)?;
            Ok(make::boxed(input.alloc(), E::verbatim(kept))?)
        }
        Err(x) => {
            if !takes_attributes(place, &x) {
                x.let_go();
                return Err(Error::new(span, ErrorKind::RangeAttributes));
            }
            Ok(make::boxed(input.alloc(), x.with_attrs(attrs)?)?)
        }
    }
}

/// Whether what comes first goes on the path that an invisible group before it holds: `::`, the `!` of a macro, or the
/// brace of a struct expression where there may be one.
#[tactic(auto, unfolding(syn_tokens::specs::Sign::sign_text, syn_lower_spec::specs::Mark::sign_at))]
fn goes_on(input: &ParseBuffer<'_>, place: Place, qself: &Option<QSelf>, path: &Path) -> bool
    ensures { result ≡ paths.goes_on_path (not place.condition) (qself_or type_of qself.now, path_of type_of path.now) input.now.rest }
{
    !is_word_alone(qself, path, "try")
        && (input.peek::<PathSep>()
            || is_bare(qself, path) && input.peek::<Not>() && !input.peek::<Ne>()
            || !place.condition && brace_at(input))
}

/// Reads a name that is alone.
// Not in the frame of its caller, which is on the stack once for each level of a tree.
#[inline(never)]
fn named_alone<E: IsExpr + Drop>(input: &mut ParseBuffer<'_>, name: &Ident) -> Result<Box<E>>
    requires first { input.old.rest ≡ ident name.now ∷ drop 1 input.old.rest }
    ensures value { Reads (λ b. E.tree b.value) (Some (stands.path_of name.now, drop 1 input.old.rest)) result input.new.rest }
    ensures noted { input.new.noted ≡ input.old.noted }
    ensures shrinks { weight input.new.rest ≤ weight input.old.rest }
{
    let name = copy_ident(input.alloc(), name)?;
    input.skip(1);
    Ok(make::name(input.alloc(), name)?)
}

impl<E: ReadExprs + Drop, F: Fn(&mut ParseBuffer<'_>, Place) -> Result<Box<E>> + Copy> Grammar<F>
where
    E::Pat: ReadPats + Drop,
    <E as IsExpr>::Arm: LetGo + Drop,
{
    /// Reads what comes after a path: the `!` and the group of a macro, the braces of a struct expression, or nothing.
    // It is a part of its callers, so that a struct expression has no frame more for it.
    #[inline(always)]
    #[tactic(auto, using(syn_expr_ast::proofs::Inner::named_inner), unfolding(crate::specs::Groups::behind_path))]
    fn behind_path(
        &self,
        input: &mut ParseBuffer<'_>,
        place: Place,
        qself: Option<QSelf>,
        path: Path,
    ) -> Result<Box<E>>
        requires callable { Callable (weight input.old.rest) (F.pre self.now.expr) }
        requires reads { ReadsExpr E.tree (F.post self.now.expr) }
        ensures value { Reads (λ b. E.tree b.value) (groups.behind_path place (qself_or type_of qself, path_of type_of path) input.old.rest) result input.new.rest }
        ensures noted { input.new.noted ≡ input.old.noted }
        ensures shrinks { weight input.new.rest ≤ weight input.old.rest }
    {
        let end = macro_end(input, &qself, &path)?;
        if end.is_none() && brace_at(input) && !place.condition {
            let lists = Lists { expr: self.expr };
            return lists.structure(input, place, qself, path);
        }
        standing(input, place, path_or_macro(qself, path, end))
    }

    /// Reads a path, the call of a macro, or a struct expression.
    // As `group`, `if_expr` and `match_expr`, it has a frame of its own: that of `core` is on the stack once for each level of a
    // tree.
    #[inline(never)]
    #[tactic(auto, unfolding(crate::specs::Groups::named))]
    fn named(&self, input: &mut ParseBuffer<'_>, place: Place) -> Result<Box<E>>
        requires callable { Callable (weight input.old.rest) (F.pre self.now.expr) }
        requires reads { ReadsExpr E.tree (F.post self.now.expr) }
        ensures value { Reads (λ b. E.tree b.value) (groups.named place input.old.rest) result input.new.rest }
        ensures noted { input.new.noted ≡ input.old.noted }
        ensures shrinks { weight input.new.rest ≤ weight input.old.rest }
    {
        let (qself, path) = known::qpath(input)?;
        self.behind_path(input, place, qself, path)
    }

    /// Reads the segments that go on a path, and what comes after them.
    #[tactic(auto, using(crate::proofs::Groups::segments), unfolding(crate::specs::Groups::extended))]
    fn extended(
        &self,
        input: &mut ParseBuffer<'_>,
        place: Place,
        qself: Option<QSelf>,
        path: Path,
    ) -> Result<Box<E>>
        requires callable { Callable (weight input.old.rest) (F.pre self.now.expr) }
        requires reads { ReadsExpr E.tree (F.post self.now.expr) }
        requires closed { trails path.segments ≡ false }
        ensures value { Reads (λ b. E.tree b.value) (groups.extended place (qself_or type_of qself, path_of type_of path) input.old.rest) result input.new.rest }
        ensures noted { input.new.noted ≡ input.old.noted }
        ensures shrinks { weight input.new.rest ≤ weight input.old.rest }
    {
        let types = TypeGrammar { ty };
        let segments = types.more_segments(input, PathStyle::Expr, path.segments)?;
        let path = Path {
            leading_colon: path.leading_colon,
            segments,
        };
        self.behind_path(input, place, qself, path)
    }

    /// Reads what goes on the path that an invisible group holds; else the operand in it is one by itself.
    #[tactic(auto, using(crate::proofs::Groups::closed))]
    fn behind_group(
        &self,
        input: &mut ParseBuffer<'_>,
        place: Place,
        group_token: Group,
        x: Box<E>,
    ) -> Result<Box<E>>
        requires callable { Callable (weight input.old.rest) (F.pre self.now.expr) }
        requires reads { ReadsExpr E.tree (F.post self.now.expr) }
        requires closed { closed_path (E.tree x.value) ≡ true }
        ensures value { Reads (λ b. E.tree b.value) (groups.behind_group place (E.tree x.value) input.old.rest) result input.new.rest }
        ensures noted { input.new.noted ≡ input.old.noted }
        ensures shrinks { weight input.new.rest ≤ weight input.old.rest }
    {
        let alloc = input.alloc();
        match Box::into_inner(x).into_path() {
            Ok((qself, path)) => {
                if goes_on(input, place, &qself, &path) {
                    return self.extended(input, place, qself, path);
                }
                let path = make::path(alloc, qself, path)?;
                Ok(make::group(alloc, group_token, path)?)
            }
            Err(x) => {
                let x = make::boxed(alloc, x)?;
                Ok(make::group(alloc, group_token, x)?)
            }
        }
    }

    /// Reads an invisible group: an operand, or the front of a path that goes on after it. One that holds a lifetime alone is
    /// refused as `ExpectedExpression`, where it is.
    #[inline(never)]
    #[tactic(auto, using(crate::proofs::Groups::groups), unfolding(crate::specs::Groups::group))]
    fn group(&self, input: &mut ParseBuffer<'_>, place: Place) -> Result<Box<E>>
        requires callable { Callable (weight input.old.rest) (F.pre self.now.expr) }
        requires reads { ReadsExpr E.tree (F.post self.now.expr) }
        ensures value { Reads (λ b. E.tree b.value) (groups.group place input.old.rest) result input.new.rest }
        ensures noted { input.new.noted ≡ input.old.noted }
        ensures shrinks { weight input.new.rest ≤ weight input.old.rest }
    {
        let none = input.error(ErrorKind::ExpectedExpression);
        let (group_token, mut content) = input.parse_group()?;
        let begins = if lifetime_at(&content) && content.len() == 2 {
            Err(none)
        } else {
            Ok(())
        };
        let x = match (self.expr)(&mut content, PLAIN) {
            Ok(x) => x,
            Err(e) => return Err(named_refusal(e, begins)),
        };
        if !content.is_empty() {
            return Err(given_up(x, content.error(ErrorKind::UnexpectedToken)));
        }
        self.behind_group(input, place, group_token, x)
    }

    /// Reads an `if`.
    #[inline(never)]
    fn if_expr(&self, input: &mut ParseBuffer<'_>, place: Place) -> Result<Box<E>>
        requires callable { Callable (weight input.old.rest) (F.pre self.now.expr) }
        requires reads { ReadsExpr E.tree (F.post self.now.expr) }
        requires first { slot.if_word.at input.old.rest ≡ true }
        ensures value { Reads (λ b. E.tree b.value) (read.framed_by read.expr place e.if_expr (drop 1 input.old.rest)) result input.new.rest }
        ensures noted { input.new.noted ≡ input.old.noted }
        ensures shrinks { weight input.new.rest ≤ weight input.old.rest }
    {
        let Some(if_token) = if_word(input) else {
            return Err(input.error(ErrorKind::ExpectedToken(Expected::One(If::wanted()))));
        };
        let blocks = Blocks { expr: self.expr };
        blocks.if_expr(input, place, if_token)
    }

    /// Reads a `match`.
    #[inline(never)]
    fn match_expr(&self, input: &mut ParseBuffer<'_>, place: Place) -> Result<Box<E>>
        requires callable { Callable (weight input.old.rest) (F.pre self.now.expr) }
        requires reads { ReadsExpr E.tree (F.post self.now.expr) }
        requires first { slot.match_word.at input.old.rest ≡ true }
        ensures value { Reads (λ b. E.tree b.value) (read.framed_by read.expr place e.match_expr (drop 1 input.old.rest)) result input.new.rest }
        ensures noted { input.new.noted ≡ input.old.noted }
        ensures shrinks { weight input.new.rest ≤ weight input.old.rest }
    {
        let Some(match_token) = match_word(input) else {
            return Err(input.error(ErrorKind::ExpectedToken(Expected::One(Match::wanted()))));
        };
        let blocks = Blocks { expr: self.expr };
        blocks.match_expr(input, place, match_token)
    }

    /// Reads an operand without trailers, by what comes first. It is refused as its parts are, as `ExpectedExpression` where none
    /// begins, and as `ExpectedLoopOrBlock` where neither a loop nor a block is after a label.
    #[tactic(auto, using(crate::proofs::Firsts::firsts, crate::proofs::Names::name_alone, crate::proofs::Operators::prefix_first))]
    pub fn atom(&self, input: &mut ParseBuffer<'_>, place: Place) -> Result<Box<E>>
        requires callable { Callable (weight input.old.rest) (F.pre self.now.expr) }
        requires reads { ReadsExpr E.tree (F.post self.now.expr) }
        ensures value { Reads (λ b. E.tree b.value) (read.atom read.expr place input.old.rest) result input.new.rest }
        ensures noted { input.new.noted ≡ input.old.noted }
        ensures shrinks { weight input.new.rest ≤ weight input.old.rest }
    {
        // Most operands are a name alone, which is read at once.
        if let Some(name) = name_alone(input) {
            return named_alone(input, name);
        }
        if let Some(op) = first_operator(input) {
            input.skip(1);
            return self.prefixed(input, place, op);
        }
        let lists = Lists { expr: self.expr };
        let blocks = Blocks { expr: self.expr };
        let atoms = Atoms { expr: self.expr };
        match atom_at(input) {
            Atom::Leaf => leaf(input, place),
            Atom::Prefix => atoms.prefix(input, place),
            Atom::Parenthesis => lists.round(input),
            Atom::Bracket => lists.bracket(input),
            Atom::Become => atoms.tail_call(input),
            Atom::If => self.if_expr(input, place),
            Atom::Loop => blocks.loop_head(input, place),
            Atom::Match => self.match_expr(input, place),
            Atom::Group => self.group(input, place),
            Atom::Named => self.named(input, place),
        }
    }

    /// Reads an operand with its trailers.
    #[tactic(auto, unfolding(syn_expr_spec::specs::Read::core, crate::specs::Operators::trailers))]
    fn core(&self, input: &mut ParseBuffer<'_>, place: Place) -> Result<Box<E>>
        requires callable { Callable (weight input.old.rest) (F.pre self.now.expr) }
        requires reads { ReadsExpr E.tree (F.post self.now.expr) }
        ensures value { Reads (λ b. E.tree b.value) (read.core read.expr place input.old.rest) result input.new.rest }
        ensures noted { input.new.noted ≡ input.old.noted }
        ensures shrinks { weight input.new.rest ≤ weight input.old.rest }
    {
        let base = self.atom(input, place)?;
        self.trail(input, place, base)
    }

    /// Reads an operand after its attributes. Before a range without a start they are refused as `RangeAttributes`, but at a
    /// head.
    #[tactic(auto, unfolding(syn_expr_spec::specs::Read::operand, syn_tokens::specs::Sign::sign_text, syn_lower_spec::specs::Mark::sign_at))]
    fn operand(&self, input: &mut ParseBuffer<'_>, place: Place) -> Result<Box<E>>
        requires callable { Callable (weight input.old.rest) (F.pre self.now.expr) }
        requires reads { ReadsExpr E.tree (F.post self.now.expr) }
        ensures value { Reads (λ b. E.tree b.value) (read.operand read.expr place input.old.rest) result input.new.rest }
        ensures noted { input.new.noted ≡ input.old.noted }
        ensures shrinks { weight input.new.rest ≤ weight input.old.rest }
    {
        if !input.peek::<Pound>() {
            return self.core(input, place);
        }
        self.read_attributed(input, place)
    }

    /// Reads attributes, and the operand after them.
    // Not in the frame of its caller, which is on the stack once for each level of a tree.
    #[inline(never)]
    #[tactic(auto, using(crate::proofs::Attributes::attributes), unfolding(syn_expr_spec::specs::Read::operand, syn_expr_ast::specs::Attrs::attrs_of))]
    fn read_attributed(&self, input: &mut ParseBuffer<'_>, place: Place) -> Result<Box<E>>
        requires callable { Callable (weight input.old.rest) (F.pre self.now.expr) }
        requires reads { ReadsExpr E.tree (F.post self.now.expr) }
        requires first { mark.pound.at input.old.rest ≡ true }
        ensures value { Reads (λ b. E.tree b.value) (read.operand read.expr place input.old.rest) result input.new.rest }
        ensures noted { input.new.noted ≡ input.old.noted }
        ensures shrinks { weight input.new.rest ≤ weight input.old.rest }
    {
        let start = input.fork()?;
        let attrs = outer_attributes(input)?;
        let tokens = start.until(input);
        let span = known::operator_span(input);
        let x = self.core(input, place)?;
        with_outer(input, place, tokens, attrs, x, span)
    }

    /// Reads the expression at a place: an operand, and the operations that it begins.
    ///
    /// It is refused as what it holds is: an operand, its trailers and the operations.
    #[tactic(auto, unfolding(syn_expr_spec::specs::Read::at_place, crate::specs::Operators::operations))]
    pub fn at_place(&self, input: &mut ParseBuffer<'_>, place: Place) -> Result<Box<E>>
        requires callable { Callable (weight input.old.rest) (F.pre self.now.expr) }
        requires reads { ReadsExpr E.tree (F.post self.now.expr) }
        ensures value { Reads (λ b. E.tree b.value) (read.at_place read.expr place input.old.rest) result input.new.rest }
        ensures noted { input.new.noted ≡ input.old.noted }
        ensures shrinks { weight input.new.rest ≤ weight input.old.rest }
    {
        let first = self.operand(input, place)?;
        self.climb(input, place, first)
    }
}

/// The path of this name alone, as an expression; refused only where memory runs out.
#[tactic(auto, unfolding(syn_expr_ast::specs::Attrs::attrs_of))]
pub(crate) fn named<E: IsExpr>(alloc: Global, name: &Ident) -> Result<E>
    ensures value { IfOk result (λ x. E.tree x ≡ stands.path_of name.now) }
    ensures memory { IfErr result (λ e. e.kind ≡ ErrorKind.OutOfMemory) }
{
    let attrs = Vec::new(alloc);
    let ident = copy_ident(alloc, name)?;
    let mut segments = Punctuated::new(alloc);
    segments.push_value(PathSegment {
        ident,
        arguments: PathArguments::None,
    })?;
    let path = Path {
        leading_colon: None,
        segments,
    };
    Ok(E::path(ExprPath {
        attrs,
        qself: None,
        path,
    }))
}

/// The readers over that of the expressions inside: they are methods that take it as a function, so that each is proved by
/// itself, whatever the type of expressions is.
#[derive(Clone, Copy)]
pub struct Grammar<F> {
    /// Reads an expression at a place.
    pub expr: F,
}

/// Whether what comes after a name may go on it: `::`, the `!` of a macro, the brace of a struct expression, or the `#`
/// after `builtin`.
fn may_go_on(behind: &[TokenTree]) -> bool
    ensures { result ≡ names.may_go_on (toks_of behind.now) }
{
    match behind {
        [TokenTree::Punct(punct), ..] => matches!(punct.ch, ':' | '!' | '#'),
        [TokenTree::Group(group), ..] => group.delimiter == Delimiter::Brace,
        _ => false,
    }
}

/// The name that comes first, where nothing after it may go on it: the path of it is an operand.
pub(crate) fn name_alone<'a>(input: &ParseBuffer<'a>) -> Option<&'a Ident>
    ensures { MatchOption result (names.is_alone input.now.rest ≡ false) (λ name. (names.is_alone input.now.rest ≡ true) × (input.now.rest ≡ ident name.now ∷ drop 1 input.now.rest)) }
{
    match input.trees() {
        [TokenTree::Ident(name), behind @ ..]
            if !may_go_on(behind) && !is_reserved_word(name.as_str()) => { Some(name) }
        _ => None,
    }
}
