//! The reader of patterns, which ties the knot of `syn_pat_parse`, and those that are on it.

ghost use Rattle.std.specs.Prelude.{◌≡◌, ◌≤◌, [], true, false, IfErr, IfOk};
ghost use Rattle.syn_expr_core.specs.View.{guard_of, pat_of};
ghost use Rattle.syn_lower_leaves.specs.Reads.{Reads};
ghost use Rattle.syn_lower_spec.specs.Pat as pat;
ghost use Rattle.syn_pat.specs.View.{view_with};
ghost use Rattle.syn_pat_parse.specs.Reads.{unattributed};
ghost use Rattle.syn_tokens.specs.Input.{IsAfter};
ghost use Rattle.syn_tokens.specs.Tok.{weight};

use crate::pat::{
    Pat, PatConst, PatGuard, PatIdent, PatLit, PatMacro, PatOr, PatParen, PatPath, PatRange,
    PatReference, PatRest, PatSlice, PatStruct, PatTuple, PatTupleStruct, PatType, PatWild,
};
use syn_expr_parse::kinds::ReadPats;
use syn_lower::attr::Attribute;
use syn_pat_parse::grammar::Grammar;
use syn_pat_parse::kinds::ReadPat;
use syn_tokens::buffer::ParseBuffer;
use syn_tokens::error::Result;

#[tactic(auto, using(crate::proofs::TreeOf::members, crate::proofs::ReadPat::bares))]
impl PatGuard {
    /// It with these attributes in the place of its own.
    fn with_attrs(self, attrs: Vec<Attribute>) -> PatGuard
        ensures { guard_of result ≡ view_with attrs (unattributed (guard_of self).tree) (guard_of self).guards }
    {
        PatGuard { attrs, ..self }
    }
}

#[tactic(auto, using(crate::proofs::TreeOf::pats, crate::proofs::ReadPat::bares))]
impl ReadPat for Pat {
    fn is_rest(&self) -> bool
        ensures { result ≡ pat.is_rest (pat_of self.now).tree }
    {
        match self {
            Pat::Rest(x) => x.attrs.is_empty(),
            _ => false,
        }
    }

    fn with_attrs(self, attrs: Vec<Attribute>) -> Pat
        ensures { pat_of result ≡ view_with attrs (unattributed (pat_of self).tree) (pat_of self).guards }
    {
        match self {
            Pat::Const(x) => Pat::Const(PatConst { attrs, ..x }),
            Pat::Guard(x) => Pat::Guard(x.with_attrs(attrs)),
            Pat::Ident(x) => Pat::Ident(PatIdent { attrs, ..x }),
            Pat::Lit(x) => Pat::Lit(PatLit { attrs, ..x }),
            Pat::Macro(x) => Pat::Macro(PatMacro { attrs, ..x }),
            Pat::Or(x) => Pat::Or(PatOr { attrs, ..x }),
            Pat::Paren(x) => Pat::Paren(PatParen { attrs, ..x }),
            Pat::Path(x) => Pat::Path(PatPath { attrs, ..x }),
            Pat::Range(x) => Pat::Range(PatRange { attrs, ..x }),
            Pat::Reference(x) => Pat::Reference(PatReference { attrs, ..x }),
            Pat::Rest(x) => Pat::Rest(PatRest { attrs, ..x }),
            Pat::Slice(x) => Pat::Slice(PatSlice { attrs, ..x }),
            Pat::Struct(x) => Pat::Struct(PatStruct { attrs, ..x }),
            Pat::Tuple(x) => Pat::Tuple(PatTuple { attrs, ..x }),
            Pat::TupleStruct(x) => Pat::TupleStruct(PatTupleStruct { attrs, ..x }),
            Pat::Typed(x) => Pat::Typed(PatType { attrs, ..x }),
            Pat::Wild(x) => Pat::Wild(PatWild { attrs, ..x }),
        }
    }
}

/// Reads a pattern, with alternatives or without.
#[tactic(auto, using(syn_lower_spec::proofs::Pats::pattern_is))]
fn pat_at(input: &mut ParseBuffer<'_>, multi: bool) -> Result<Pat>
    ensures value { Reads (λ x. (pat_of x).tree) ((pat.pattern multi).reads input.old.rest) result input.new.rest }
    ensures unguarded { IfOk result (λ x. (pat_of x).guards ≡ []) }
    ensures noted { input.new.noted ≡ input.old.noted }
    ensures shrinks { weight input.new.rest ≤ weight input.old.rest }
{
    Grammar { pat: pat_at }.at_width(input, multi)
}

impl ReadPats for Pat {
    fn read_pattern(input: &mut ParseBuffer<'_>, multi: bool) -> Result<Pat> {
        pat_at(input, multi)
    }

    fn read_closure_arg(input: &mut ParseBuffer<'_>) -> Result<Pat> {
        Grammar { pat: pat_at }.closure_arg(input)
    }
}

/// Reads a pattern on a fork, so that the input stays where it was where the pattern is refused.
#[tactic(auto, using(crate::proofs::ReadPat::pattern_tail))]
fn ahead(input: &mut ParseBuffer<'_>, multi: bool) -> Result<Pat>
    ensures value { Reads (λ x. (pat_of x).tree) ((pat.pattern multi).reads input.old.rest) result input.new.rest }
    ensures unguarded { IfOk result (λ x. (pat_of x).guards ≡ []) }
    ensures noted { input.new.noted ≡ input.old.noted }
    ensures after { IsAfter input.old input.new }
    ensures stays { IfErr result (λ _. input.new ≡ input.old) }
    ensures shrinks { weight input.new.rest ≤ weight input.old.rest }
{
    let mut ahead = input.fork()?;
    let x = match pat_at(&mut ahead, multi) {
        Ok(x) => x,
        Err(e) => return Err(e),
    };
    input.advance_to(&ahead);
    Ok(x)
}

impl Pat {
    /// Reads a pattern without alternatives; a `|` after it is left (Rust Reference, "Patterns", `PatternNoTopAlt`).
    ///
    /// It is read exactly where one is, unless memory runs out, and has neither attributes nor a guard. It is refused as
    /// `ExpectedPart` of a pattern where it or a pattern inside is missing, of a path where the end of a closed range or a
    /// segment is, of a literal where no number follows a `-`, and of a macro where no group follows the `!` of one; as
    /// `ExpectedToken` where a required token is missing, as `UnexpectedToken` where one is left in a group,
    /// and inside as members, types and attributes are. The input then stays where it was.
    pub fn parse_single(input: &mut ParseBuffer<'_>) -> Result<Pat>
        ensures value { Reads (λ x. (pat_of x).tree) ((pat.pattern false).reads input.old.rest) result input.new.rest }
        ensures unguarded { IfOk result (λ x. (pat_of x).guards ≡ []) }
        ensures noted { input.new.noted ≡ input.old.noted }
        ensures after { IsAfter input.old input.new }
        ensures stays { IfErr result (λ _. input.new ≡ input.old) }
        ensures shrinks { weight input.new.rest ≤ weight input.old.rest }
    {
        ahead(input, false)
    }

    /// Reads a pattern with alternatives or without, and `|` before the first or not (Rust Reference, "Or-patterns"). A
    /// single one without `|` is read as itself, all else as a `Pat::Or`. It is read and refused as `parse_single` reads and
    /// refuses a pattern.
    pub fn parse_multi_with_leading_vert(input: &mut ParseBuffer<'_>) -> Result<Pat>
        ensures value { Reads (λ x. (pat_of x).tree) ((pat.pattern true).reads input.old.rest) result input.new.rest }
        ensures unguarded { IfOk result (λ x. (pat_of x).guards ≡ []) }
        ensures noted { input.new.noted ≡ input.old.noted }
        ensures after { IsAfter input.old input.new }
        ensures stays { IfErr result (λ _. input.new ≡ input.old) }
        ensures shrinks { weight input.new.rest ≤ weight input.old.rest }
    {
        ahead(input, true)
    }
}
