//! The readers of patterns that begin with a path: paths, macros, structs, tuple structs and ranges (Rust Reference, "Path
//! patterns", "Macro Invocation", "Struct patterns", "Tuple struct patterns", "Range patterns").

ghost use Rattle.std.specs.Prelude.{◌≡◌, ◌≤◌, ◌+◌, [], flat_map, is_some, map, true, IfOk};
ghost use Rattle.syn_lexer.specs.declared.front.Delimiter.TheVariants as del;
ghost use Rattle.syn_lower_leaves.specs.Reads.{Reads};
ghost use Rattle.syn_lower_spec.specs.Form as form;
ghost use Rattle.syn_lower_spec.specs.Mark as mark;
ghost use Rattle.syn_lower_spec.specs.Pat as pat;
ghost use Rattle.syn_lower_spec.specs.Tree.{no_qself};
ghost use Rattle.syn_pat.specs.View as view;
ghost use Rattle.syn_pat_parse.specs.Reads.{Callable, ReadsPat, by_path, unmarked_end};
ghost use Rattle.syn_tokens.specs.Front as front_spec;
ghost use Rattle.syn_tokens.specs.Tok.{weight};

use crate::front as first;
use crate::grammar::Grammar;
use crate::kinds::ReadPat;
use crate::range::range_end;
use syn_lower::grammar::macro_end;
use syn_lower::mac::Macro;
use syn_lower::path::{Path, QSelf};
use syn_lower::qpath;
use syn_lower_leaves::front;
use syn_lower_leaves::punctuated::Punctuated;
use syn_pat::kinds::IsPat;
use syn_pat::pat::{
    FieldPatOf, PatMacro, PatPath, PatRange, PatStructOf, PatTupleStructOf, RangeBound,
};
use syn_tokens::buffer::{ParseBuffer, Token};
use syn_tokens::error::{ErrorKind, Result};
use syn_tokens::token::{Brace, Comma, DotDot, Paren};

/// The fields of a struct, and `..` after them.
type Inside<P> = (Punctuated<FieldPatOf<P>, Comma>, Option<DotDot>);

/// Reads a range after the path that it begins with, or nothing more.
fn path_or_range<P: IsPat>(
    input: &mut ParseBuffer<'_>,
    qself: Option<QSelf>,
    path: Path,
) -> Result<P>
    ensures value { Reads (λ x. (P.view x).tree) (by_path (view.qself_or view.type_of qself, view.path_of view.type_of path) ((form.when pat.dots.at (form.shown pat.to_range_more pat.from_range_more pat.range_end) (form.pure pat.no_more pat.is_no_more)).reads input.old.rest)) result input.new.rest }
    ensures unguarded { IfOk result (λ x. (P.view x).guards ≡ []) }
    ensures noted { input.new.noted ≡ input.old.noted }
    ensures shrinks { weight input.new.rest ≤ weight input.old.rest }
{
    let attrs = Vec::new(input.alloc());
    if !first::dots_at(input) {
        return Ok(P::path(PatPath { attrs, qself, path }));
    }
    let (limits, end) = range_end(input)?;
    Ok(P::range(PatRange {
        attrs,
        start: Some(RangeBound::Path { qself, path }),
        limits,
        end,
    }))
}

impl<P: ReadPat + Drop, F: Fn(&mut ParseBuffer<'_>, bool) -> Result<P>> Grammar<F> {
    /// Reads fields with commas between, to `..` or the end of a group.
    #[tactic(auto, using(crate::proofs::Loops::fields))]
    fn fields(&self, input: &mut ParseBuffer<'_>) -> Result<Punctuated<FieldPatOf<P>, Comma>>
        requires callable { Callable (weight input.old.rest + 1) (F.pre self.now.pat) }
        requires reads { ReadsPat P.view (F.post self.now.pat) }
        ensures value { Reads (λ p. (map (view.field_pat_of P.view) (view.values p), view.trails p)) ((form.listed mark.comma pat.fields_stop (pat.field pat.pattern)).reads input.old.rest) result input.new.rest }
        ensures unguarded { IfOk result (λ p. flat_map (λ y. view.field_guards P.view y.kind) (view.values p) ≡ []) }
        ensures noted { input.new.noted ≡ input.old.noted }
        ensures shrinks { weight input.new.rest ≤ weight input.old.rest }
    {
        let mut found = Punctuated::new(input.alloc());
        'items: while !first::fields_stop(input) {
            found.push_value(self.field(input)?)?;
            let Some(comma) = front::comma(input) else {
                return Ok(found);
            };
            found.push_punct(comma)?;
        }
        Ok(found)
    }

    /// Reads the inside of the braces of a struct: its fields, and `..` where a field might follow.
    #[tactic(auto, using(crate::proofs::Rests::rests), unfolding(syn_lower_spec::specs::Pat::struct_inside))]
    fn struct_inside(&self, input: &mut ParseBuffer<'_>) -> Result<Inside<P>>
        requires callable { Callable (weight input.old.rest + 1) (F.pre self.now.pat) }
        requires reads { ReadsPat P.view (F.post self.now.pat) }
        ensures value { Reads (λ p. ((map (view.field_pat_of P.view) (view.values p.0), view.trails p.0), is_some p.1)) ((pat.struct_inside pat.pattern).reads input.old.rest) result input.new.rest }
        ensures unguarded { IfOk result (λ p. flat_map (λ y. view.field_guards P.view y.kind) (view.values p.0) ≡ []) }
        ensures noted { input.new.noted ≡ input.old.noted }
        ensures shrinks { weight input.new.rest ≤ weight input.old.rest }
    {
        let fields = self.fields(input)?;
        if fields.empty_or_trailing() {
            let rest = front::dots(input);
            return Ok((fields, rest));
        }
        Ok((fields, None))
    }

    /// Reads the braces of a struct after its path.
    #[tactic(auto)]
    fn struct_pat(&self, input: &mut ParseBuffer<'_>, path: Path) -> Result<P>
        requires callable { Callable (weight input.old.rest) (F.pre self.now.pat) }
        requires reads { ReadsPat P.view (F.post self.now.pat) }
        ensures value { Reads (λ x. (P.view x).tree) (by_path (no_qself, view.path_of view.type_of path) ((form.shown pat.to_struct_end pat.from_struct_end (form.inside del.Brace (pat.struct_inside pat.pattern))).reads input.old.rest)) result input.new.rest }
        ensures unguarded { IfOk result (λ x. (P.view x).guards ≡ []) }
        ensures noted { input.new.noted ≡ input.old.noted }
        ensures shrinks { weight input.new.rest ≤ weight input.old.rest }
    {
        let attrs = Vec::new(input.alloc());
        let (brace_token, mut content) = input.parse_braces()?;
        let (fields, rest) = self.struct_inside(&mut content)?;
        if !content.is_empty() {
            return Err(content.error(ErrorKind::UnexpectedToken));
        }
        Ok(P::struct_pat(PatStructOf {
            attrs,
            path,
            brace_token,
            fields,
            rest,
        }))
    }

    /// Reads the parentheses of a tuple struct after its path.
    #[tactic(auto)]
    fn tuple_struct(&self, input: &mut ParseBuffer<'_>, path: Path) -> Result<P>
        requires callable { Callable (weight input.old.rest) (F.pre self.now.pat) }
        requires reads { ReadsPat P.view (F.post self.now.pat) }
        ensures value { Reads (λ x. (P.view x).tree) (by_path (no_qself, view.path_of view.type_of path) ((form.shown pat.to_tuple_end pat.from_tuple_end (form.inside del.Parenthesis (form.listed mark.comma front_spec.is_empty (pat.pattern true)))).reads input.old.rest)) result input.new.rest }
        ensures unguarded { IfOk result (λ x. (P.view x).guards ≡ []) }
        ensures noted { input.new.noted ≡ input.old.noted }
        ensures shrinks { weight input.new.rest ≤ weight input.old.rest }
    {
        let attrs = Vec::new(input.alloc());
        let (paren_token, mut content) = input.parse_parens()?;
        let elems = self.elems(&mut content)?;
        if !content.is_empty() {
            return Err(content.error(ErrorKind::UnexpectedToken));
        }
        Ok(P::tuple_struct(PatTupleStructOf {
            attrs,
            path,
            paren_token,
            elems,
        }))
    }

    /// Reads what comes after a path that no type qualifies: a struct, a tuple struct, the rest of a range, or nothing.
    #[tactic(auto, unfolding(syn_lower_spec::specs::Mark::brace_at, syn_lower_spec::specs::Mark::round_at))]
    fn behind_plain(&self, input: &mut ParseBuffer<'_>, path: Path) -> Result<P>
        requires callable { Callable (weight input.old.rest) (F.pre self.now.pat) }
        requires reads { ReadsPat P.view (F.post self.now.pat) }
        ensures value { Reads (λ x. (P.view x).tree) (by_path (no_qself, view.path_of view.type_of path) ((unmarked_end (no_qself, view.path_of view.type_of path)).reads input.old.rest)) result input.new.rest }
        ensures unguarded { IfOk result (λ x. (P.view x).guards ≡ []) }
        ensures noted { input.new.noted ≡ input.old.noted }
        ensures shrinks { weight input.new.rest ≤ weight input.old.rest }
    {
        if input.peek::<Brace>() {
            return self.struct_pat(input, path);
        }
        if input.peek::<Paren>() {
            return self.tuple_struct(input, path);
        }
        path_or_range(input, None, path)
    }

    /// Reads what comes after a path where no macro's `!` does. A qualified path begins no struct.
    #[tactic(auto)]
    fn behind_unmarked(
        &self,
        input: &mut ParseBuffer<'_>,
        qself: Option<QSelf>,
        path: Path,
    ) -> Result<P>
        requires callable { Callable (weight input.old.rest) (F.pre self.now.pat) }
        requires reads { ReadsPat P.view (F.post self.now.pat) }
        ensures value { Reads (λ x. (P.view x).tree) (by_path (view.qself_or view.type_of qself, view.path_of view.type_of path) ((unmarked_end (view.qself_or view.type_of qself, view.path_of view.type_of path)).reads input.old.rest)) result input.new.rest }
        ensures unguarded { IfOk result (λ x. (P.view x).guards ≡ []) }
        ensures noted { input.new.noted ≡ input.old.noted }
        ensures shrinks { weight input.new.rest ≤ weight input.old.rest }
    {
        match qself {
            Some(qself) => path_or_range(input, Some(qself), path),
            None => self.behind_plain(input, path),
        }
    }

    /// Reads what comes after a path: the rest of a macro, or what makes no macro.
    #[tactic(auto, using(crate::proofs::Paths::ends))]
    fn behind_path(
        &self,
        input: &mut ParseBuffer<'_>,
        qself: Option<QSelf>,
        path: Path,
    ) -> Result<P>
        requires callable { Callable (weight input.old.rest) (F.pre self.now.pat) }
        requires reads { ReadsPat P.view (F.post self.now.pat) }
        ensures value { Reads (λ x. (P.view x).tree) (by_path (view.qself_or view.type_of qself, view.path_of view.type_of path) ((pat.path_end pat.pattern (view.qself_or view.type_of qself, view.path_of view.type_of path)).reads input.old.rest)) result input.new.rest }
        ensures unguarded { IfOk result (λ x. (P.view x).guards ≡ []) }
        ensures noted { input.new.noted ≡ input.old.noted }
        ensures shrinks { weight input.new.rest ≤ weight input.old.rest }
    {
        let Some((bang_token, delimiter, tokens)) = macro_end(input, &qself, &path)? else {
            return self.behind_unmarked(input, qself, path);
        };
        let attrs = Vec::new(input.alloc());
        let mac = Macro {
            path,
            bang_token,
            delimiter,
            tokens,
        };
        Ok(P::mac(PatMacro { attrs, mac }))
    }

    /// Reads a pattern that begins with a path.
    #[tactic(auto, unfolding(syn_lower_spec::specs::Pat::path_pat))]
    pub fn path(&self, input: &mut ParseBuffer<'_>) -> Result<P>
        requires callable { Callable (weight input.old.rest) (F.pre self.now.pat) }
        requires reads { ReadsPat P.view (F.post self.now.pat) }
        ensures value { Reads (λ x. (P.view x).tree) ((pat.path_pat pat.pattern).reads input.old.rest) result input.new.rest }
        ensures unguarded { IfOk result (λ x. (P.view x).guards ≡ []) }
        ensures noted { input.new.noted ≡ input.old.noted }
        ensures shrinks { weight input.new.rest ≤ weight input.old.rest }
    {
        let (qself, path) = qpath(input, true)?;
        self.behind_path(input, qself, path)
    }
}
