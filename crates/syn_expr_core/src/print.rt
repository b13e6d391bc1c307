//! The printers of expressions, as callers have them: of an expression, and of one kind by itself (Rust Reference,
//! "Expressions").

ghost use Rattle.std.specs.Prelude.{◌≡◌, ◌++◌, ◌*◌, ◌-◌, ◌^◌, ◌≤◌, min, IfErr, IfOk, OnOk, false};
ghost use Rattle.syn_expr_core.specs.View.{tree_of, pat_of, arm_of};
ghost use Rattle.syn_expr_ast.specs.Printed.{whole};
ghost use Rattle.syn_tokens.specs.Input.{IsFront};
ghost use Rattle.syn_expr_ast.specs.Node.{before_of, framed, frame_guards, frame_of, prefix_guards, prefix_of, operand_children, operands_of};
ghost use Rattle.syn_expr_ast.specs.Pats.{strays};
ghost use Rattle.syn_expr_spec.specs.Next.{enclosed};
ghost use Rattle.syn_expr_spec.specs.Stands.{is_range_prefix};
ghost use Rattle.syn_expr_spec.specs.Tree as e;
ghost use Rattle.syn_expr_spec.specs.Tree.{attributed_with, size};

use crate::closure::ExprClosure;
use crate::control::{Arm, ExprForLoop, ExprLet, ExprMatch};
use crate::expr::Expr;
use crate::pat::Pat;
use syn_expr_ast::node::{
    Attributes, Braces, Closure, Frame, Operands, Operator, Postfix, Prefix, Trailer,
};
use syn_expr_ast::put::PutResult;
use syn_expr_ast::shape::PutShape;
use syn_expr_ast::structure::FieldValueOf;
use syn_expr_fixup::context::enclosed;
use syn_expr_print::print::{HasPrinter, print_in};
use syn_expr_print::single::ends::prefixed;
use syn_expr_print::single::frames::frame;
use syn_expr_print::single::part::arm;
use syn_expr_print::single::{ends, frames, part, trails};
use syn_expr_spec::next::Context;
use syn_expr_tokens::limits::RangeLimits;
use syn_lower::attr::Attribute;
use syn_lower::punctuated::Punctuated;
use syn_lower::ty::ReturnType;
use syn_tokens::buffer::ToTokens;
use syn_tokens::error::{ErrorKind, Result};
use syn_tokens::token::{Bracket, Comma, Paren};
use syn_tokens::tree::TokenStream;

impl HasPrinter for Expr {}

/// Prints an expression where it is, after the tokens that are there: with the parentheses that it needs in this context
/// and inside (Rust Reference, "Expression precedence"); in a statement a `let` and a macro with braces get redundant
/// ones, and so may an operation after attributes. It answers how often a node was visited: each at least once, and at most
/// twice, also in guards that aren't printed. A count that reaches the greatest `u64` stays there.
///
/// It is refused only because memory ran out; a part of the tokens may then come after the old ones.
pub fn print_counted(expr: &Expr, tokens: &mut TokenStream, context: Context) -> Result<u64>
    ensures text { OnOk result (tokens.new ≡ tokens.old ++ whole context (tree_of expr.now)) }
    ensures front { IsFront tokens.old tokens.new }
    ensures least { IfOk result (λ n. min (size (tree_of expr.now)) (2 ^ 64 - 1) ≤ n) }
    ensures most { IfOk result (λ n. n ≤ min (2 * size (tree_of expr.now)) (2 ^ 64 - 1)) }
    ensures err { IfErr result (λ e. e.kind ≡ ErrorKind.OutOfMemory) }
{
    Ok(print_in(tokens, expr, context)?)
}

impl ToTokens for Expr {
    ghost use Rattle.syn_expr_core.specs.View.{tree_of};
    ghost use Rattle.syn_expr_ast.specs.Printed.{whole};
    ghost use Rattle.syn_expr_spec.specs.Next as next;

    ghost printed = { λ x. whole next.enclosed (tree_of x) };

    /// Prints it as between delimiters, where it is by itself.
    fn to_tokens(&self, tokens: &mut TokenStream) -> Result<()> {
        print_counted(self, tokens, enclosed())?;
        Ok(())
    }
}

#[tactic(auto, using(syn_tokens::proofs::Fronts::fronts, crate::proofs::TreeOf::members))]
impl ToTokens for ExprClosure {
    ghost use Rattle.syn_expr_core.specs.View.{closure_of};
    ghost use Rattle.syn_expr_ast.specs.Printed.{whole};
    ghost use Rattle.syn_expr_spec.specs.Next.{enclosed};

    ghost printed = { λ x. whole enclosed (closure_of x) };

    /// Puts the closure up to its body, and the body; after an output that is a block, or in braces.
    fn to_tokens(&self, tokens: &mut TokenStream) -> Result<()> {
        let attributes = Attributes::Before(&self.attrs);
        let closure = Closure {
            lifetimes: &self.lifetimes,
            modifiers: &self.modifiers,
            constness: &self.constness,
            asyncness: &self.asyncness,
            capture: &self.capture,
            inputs_begin: &self.inputs_begin,
            inputs: &self.inputs,
            inputs_end: &self.inputs_end,
            output: &self.output,
        };
        match &self.output {
            ReturnType::Default => {
                prefixed::<Expr, Pat>(tokens, attributes, Prefix::Closure(closure), &self.body)?
            }
            ReturnType::Given(_, _) => {
                let body = Operands::Body(&self.body);
                frame::<Expr, Pat>(tokens, attributes, Frame::Closure(closure), body)?
            }
        }
        Ok(())
    }
}

#[tactic(auto, using(syn_tokens::proofs::Fronts::fronts, crate::proofs::TreeOf::members))]
impl ToTokens for ExprForLoop {
    ghost use Rattle.syn_expr_core.specs.View.{for_loop_of};
    ghost use Rattle.syn_expr_ast.specs.Printed.{whole};
    ghost use Rattle.syn_expr_spec.specs.Next.{enclosed};

    ghost printed = { λ x. whole enclosed (for_loop_of x) };

    /// Puts `for` after its label, the pattern, what gives the values, and the block; the inner attributes come first in its
    /// braces.
    fn to_tokens(&self, tokens: &mut TokenStream) -> Result<()> {
        let braces = Braces {
            attrs: &self.attrs,
            block: &self.body,
        };
        let head = Frame::ForLoop(&self.label, &self.for_token, &self.pat, &self.in_token);
        let operands = Operands::Loop(&self.expr, braces);
        frame::<Expr, Pat>(tokens, Attributes::Around(&self.attrs), head, operands)?;
        Ok(())
    }
}

#[tactic(auto, using(syn_tokens::proofs::Fronts::fronts, crate::proofs::TreeOf::members))]
impl ToTokens for ExprLet {
    ghost use Rattle.syn_expr_core.specs.View.{let_of};
    ghost use Rattle.syn_expr_ast.specs.Printed.{whole};
    ghost use Rattle.syn_expr_spec.specs.Next.{enclosed};

    ghost printed = { λ x. whole enclosed (let_of x) };

    /// Puts `let`, the pattern, `=` and the scrutinee.
    fn to_tokens(&self, tokens: &mut TokenStream) -> Result<()> {
        let attributes = Attributes::Before(&self.attrs);
        let let_expr = Prefix::Let(&self.let_token, &self.pat, &self.eq_token);
        prefixed::<Expr, Pat>(tokens, attributes, let_expr, &self.expr)?;
        Ok(())
    }
}

#[tactic(auto, using(syn_tokens::proofs::Fronts::fronts, crate::proofs::TreeOf::members))]
impl ToTokens for ExprMatch {
    ghost use Rattle.syn_expr_core.specs.View.{match_of};
    ghost use Rattle.syn_expr_ast.specs.Printed.{whole};
    ghost use Rattle.syn_expr_spec.specs.Next.{enclosed};

    ghost printed = { λ x. whole enclosed (match_of x) };

    /// Puts `match`, what it looks at, and the arms in braces; the inner attributes come first in these.
    fn to_tokens(&self, tokens: &mut TokenStream) -> Result<()> {
        let head = Frame::Match(&self.match_token, &self.brace_token);
        let operands = Operands::Arms(&self.expr, &self.attrs, &self.arms);
        frame::<Expr, Pat>(tokens, Attributes::Around(&self.attrs), head, operands)?;
        Ok(())
    }
}

#[tactic(auto, using(syn_tokens::proofs::Fronts::fronts, crate::proofs::TreeOf::members))]
impl ToTokens for Arm {
    ghost use Rattle.std.specs.Prelude.{◌++◌};
    ghost use Rattle.syn_expr_core.specs.View.{arm_of};
    ghost use Rattle.syn_expr_print.specs.Placed.{arm_spelled, comma_if};

    ghost printed = { λ x. arm_spelled (arm_of x) ++ comma_if (arm_of x).comma };

    /// Puts the attributes, the pattern, the guard, `=>`, the value, and the comma where it has one.
    fn to_tokens(&self, tokens: &mut TokenStream) -> Result<()> {
        arm::<Expr>(tokens, self)?;
        Ok(())
    }
}

impl PutShape for Expr {
    fn put_paren(
        tokens: &mut TokenStream,
        attributes: Attributes<'_>,
        paren: &Paren,
        x: &Expr,
    ) -> PutResult {
        ends::paren(tokens, attributes, paren, x)
    }

    fn put_prefix(
        tokens: &mut TokenStream,
        attributes: Attributes<'_>,
        prefix: Prefix<'_, Pat>,
        x: &Expr,
    ) -> PutResult
        requires { is_range_prefix (prefix_of pat_of prefix) ≡ false }
        ensures text { OnOk result (tokens.new ≡ tokens.old ++ whole enclosed (attributed_with (before_of attributes.entry) (e.prefixed (prefix_of pat_of prefix.entry) (strays (prefix_guards pat_of prefix.entry) e.none) (tree_of x.now)))) }
        ensures front { IsFront tokens.old tokens.new }
    {
        ends::prefixed(tokens, attributes, prefix, x)
    }

    fn put_infix(
        tokens: &mut TokenStream,
        attrs: &Vec<Attribute>,
        x: &Expr,
        operator: Operator<'_>,
        y: &Expr,
    ) -> PutResult {
        ends::infixed(tokens, attrs, x, operator, y)
    }

    fn put_postfix(
        tokens: &mut TokenStream,
        attrs: &Vec<Attribute>,
        x: &Expr,
        postfix: Postfix<'_>,
    ) -> PutResult {
        ends::postfixed(tokens, attrs, x, postfix)
    }

    fn put_range(
        tokens: &mut TokenStream,
        attrs: &Vec<Attribute>,
        start: &Option<Box<Expr>>,
        limits: &RangeLimits,
        end: &Option<Box<Expr>>,
    ) -> PutResult {
        ends::range(tokens, attrs, start, limits, end)
    }

    fn put_trailed(
        tokens: &mut TokenStream,
        attributes: Attributes<'_>,
        base: &Expr,
        trailer: Trailer<'_>,
    ) -> PutResult {
        trails::trailed(tokens, attributes, base, trailer)
    }

    fn put_called(
        tokens: &mut TokenStream,
        attributes: Attributes<'_>,
        base: &Box<Expr>,
        trailer: Trailer<'_>,
        args: &Punctuated<Expr, Comma>,
    ) -> PutResult {
        trails::call(tokens, attributes, base, trailer, args)
    }

    fn put_indexed(
        tokens: &mut TokenStream,
        attributes: Attributes<'_>,
        base: &Expr,
        bracket: &Bracket,
        index: &Expr,
    ) -> PutResult {
        trails::indexed(tokens, attributes, base, bracket, index)
    }

    fn put_frame(
        tokens: &mut TokenStream,
        attributes: Attributes<'_>,
        frame: Frame<'_, Pat>,
        operands: Operands<'_, Expr, Arm>,
    ) -> PutResult
        requires { operands_of tree_of arm_of operands ≡ framed (operand_children (operands_of tree_of arm_of operands)) }
        ensures text { OnOk result (tokens.new ≡ tokens.old ++ whole enclosed (attributed_with (before_of attributes.entry) (e.frame (frame_of pat_of frame.entry) (strays (frame_guards pat_of frame.entry) (operand_children (operands_of tree_of arm_of operands.entry)))))) }
        ensures front { IsFront tokens.old tokens.new }
    {
        frames::frame::<Expr, Pat>(tokens, attributes, frame, operands)
    }

    fn put_field(tokens: &mut TokenStream, field: &FieldValueOf<Expr>) -> PutResult {
        part::field(tokens, field)
    }
}
