//! Whether a type ends with a group in braces. Where nothing is spelled, as by a path without segments, the answer is that of
//! what is before it. Of verbatim tokens the last one decides.

ghost use Rattle.std.specs.Prelude.{◌≡◌, ◌&&◌, false, map};
ghost use Rattle.syn_expr_classify.specs.Right.{Tells};
ghost use Rattle.syn_expr_spec.specs.Query as query;
ghost use Rattle.syn_expr_spec.specs.Rule.{is_brace_delimiter};
ghost use Rattle.syn_lower.specs.Ends.{depth, segments_depth, arguments_depth, bounds_depth};
ghost use Rattle.syn_lower_types.specs.View.{delimiter_of};
ghost use Rattle.syn_lower.specs.View.{type_of, values, trails, segment_of, path_of, qself_or, return_of, bound_of};
ghost use Rattle.syn_lower_spec.specs.Tree as t;
ghost use Rattle.syn_tokens.specs.View.{toks_of};

use crate::classify::{End, output_end};
use syn_lower::mac::MacroDelimiter;
use syn_lower::path::{Path, PathArguments, PathSegment, QSelf};
use syn_lower::punctuated::Punctuated;
use syn_lower::ty::{ReturnType, Type, TypeParamBound};
use syn_lower_leaves::lifetime::Lifetime;
use syn_tokens::buffer::Token;
use syn_tokens::token::Plus;
use syn_tokens::tree::{TokenStream, TokenTree};
use syn_tokens::{Delimiter, Spacing};

/// What is at the right end of a segment.
fn segment_end(segment: &PathSegment) -> End<'_>
    ensures { let s = segment_of type_of segment.now in Tells (query.type_brace false) result (query.arguments_brace s.arguments) (arguments_depth s.arguments) }
{
    match &segment.arguments {
        PathArguments::None | PathArguments::AngleBracketed(_) => End::Known(false),
        PathArguments::Parenthesized(x) => output_end(&x.output),
    }
}

/// What is at the right end of the segments of a path; `before`: whether braces come before them.
#[tactic(auto, using(crate::proofs::Lasts::braces, syn_lower::proofs::Lasts::lasts))]
fn segments_end(path: &Path, before: bool) -> End<'_>
    ensures { let ss = t.segments_of (path_of type_of path.now).segments in Tells (query.type_brace false) result (query.segments_brace before ss (trails path.now.segments)) (segments_depth ss) }
{
    match path.segments.last() {
        Some(segment) => {
            if path.segments.trailing_punct() {
                End::Known(false)
            } else {
                segment_end(segment)
            }
        }
        None => End::Known(before),
    }
}

/// What is at the right end of a path, which may be qualified by a type; `before`: whether braces come before it.
fn path_end<'a>(qself: &Option<QSelf>, path: &'a Path, before: bool) -> End<'a>
    ensures { let p = path_of type_of path.now in let ss = t.segments_of p.segments in
        Tells (query.type_brace false) result (query.type_brace before (t.path (qself_or type_of qself.now) p.leading ss p.trailing)) (segments_depth ss) }
{
    match qself {
        Some(qself) if path.segments.len() <= qself.position => End::Known(false),
        Some(_) => segments_end(path, false),
        None => segments_end(path, before && path.leading_colon.is_none()),
    }
}

/// What is at the right end of bounds.
#[tactic(auto, using(crate::proofs::Lasts::braces, syn_lower::proofs::Lasts::lasts))]
fn bounds_end(bounds: &Punctuated<TypeParamBound, Plus>) -> End<'_>
    ensures { let bs = t.bounds_of (map bound_of (values bounds.now)) in Tells (query.type_brace false) result (query.bounds_brace bs (trails bounds.now)) (bounds_depth bs) }
{
    match bounds.last() {
        Some(TypeParamBound::Trait(x)) => {
            if bounds.trailing_punct() {
                End::Known(false)
            } else {
                segments_end(&x.path, false)
            }
        }
        Some(TypeParamBound::Lifetime(_)) | None => End::Known(false),
    }
}

/// Whether the delimiter of a macro is braces.
pub(crate) fn is_brace(delimiter: &MacroDelimiter) -> bool
    ensures { result ≡ is_brace_delimiter (delimiter_of delimiter.now) }
{
    matches!(delimiter, MacroDelimiter::Brace(_))
}

/// What is at the right end of a type; `before`: whether braces come before it.
#[tactic(auto, using(syn_lower::proofs::Makes::makes))]
fn type_end(ty: &Type, before: bool) -> End<'_>
    ensures { Tells (query.type_brace false) result (query.type_brace before (type_of ty.now)) (depth (type_of ty.now)) }
{
    match ty {
        Type::Path(x) => path_end(&x.qself, &x.path, before),
        Type::Macro(x) => End::Known(is_brace(&x.mac.delimiter)),
        Type::Reference(x) => End::Inside(&x.elem),
        Type::Ptr(x) => End::Inside(&x.elem),
        Type::FnPtr(x) => output_end(&x.output),
        Type::ImplTrait(x) => bounds_end(&x.bounds),
        Type::TraitObject(x) => bounds_end(&x.bounds),
        Type::Slice(_)
        | Type::Array(_)
        | Type::Tuple(_)
        | Type::Paren(_)
        | Type::Never(_)
        | Type::Infer(_) => End::Known(false),
    }
}

/// Whether a type ends with braces; `before`: whether braces come before it.
pub(crate) fn type_brace(ty: &Type, before: bool) -> bool
    ensures { result ≡ query.type_brace before (type_of ty.now) }
{
    match type_end(ty, before) {
        End::Known(is_brace) => is_brace,
        End::Inside(inner) => type_brace(inner, false),
    }
}

/// Whether a path ends with braces, which may be qualified by a type; `before`: whether braces come before it.
pub(crate) fn path_brace(qself: &Option<QSelf>, path: &Path, before: bool) -> bool
    ensures { let p = path_of type_of path.now in result ≡ query.type_brace before (t.path (qself_or type_of qself.now) p.leading (t.segments_of p.segments) p.trailing) }
{
    match path_end(qself, path, before) {
        End::Known(is_brace) => is_brace,
        End::Inside(inner) => type_brace(inner, false),
    }
}

/// Whether an output ends with braces.
pub(crate) fn output_brace(output: &ReturnType) -> bool
    ensures { result ≡ query.return_brace (return_of output.now) }
{
    match output {
        ReturnType::Default => false,
        ReturnType::Given(_, ty) => type_brace(ty, false),
    }
}

/// Whether the apostrophe of a lifetime is all there is.
#[tactic(auto, using(crate::proofs::Verbatim::quotes))]
fn is_sole_quote(trees: &[TokenTree]) -> bool
    ensures { result ≡ query.is_sole_quote (toks_of trees.now) }
{
    match trees {
        [TokenTree::Punct(quote)] => quote.ch == '\'' && quote.spacing == Spacing::Joint,
        _ => false,
    }
}

/// Whether verbatim tokens begin with a lifetime, or are its apostrophe before a word.
pub(crate) fn begins_with_lifetime(tokens: &TokenStream, word: bool) -> bool
    ensures { result ≡ query.verbatim_leads word tokens.now }
{
    let trees = tokens.trees();
    Lifetime::peek(trees) || word && is_sole_quote(trees)
}

/// Whether a group in braces ends verbatim tokens; `before`: whether it ends what comes before them.
#[tactic(auto, using(crate::proofs::Verbatim::lasts))]
pub(crate) fn ends_with_braces(tokens: &TokenStream, before: bool) -> bool
    ensures { result ≡ query.last_braces before tokens.now }
{
    match tokens.trees() {
        [] => before,
        [.., TokenTree::Group(group)] => group.delimiter == Delimiter::Brace,
        [
            ..,
            TokenTree::Ident(_) | TokenTree::Punct(_) | TokenTree::Literal(_),
        ] => false,
    }
}
