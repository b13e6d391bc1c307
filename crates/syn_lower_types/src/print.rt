//! The printers of paths, of what is in them, and of macros: each writes its own spelling, the last punct of each token
//! alone.

ghost use Rattle.std.specs.Prelude.{length, ◌≡◌, ◌++◌, ◌∷◌, IfErr, OnOk, OnErr};
ghost use Rattle.syn_lower_types.specs.Printed.{grouped, colon2, closed_printed, inside_printed, path_printed, qself_end_printed, qualified_printed, qpath_printed, round_printed};
ghost use Rattle.syn_lower_types.specs.View.{delimiter_of, values};
ghost use Rattle.syn_lower_spec.specs.Own.{alone, joint, at_most};
ghost use Rattle.syn_tokens.specs.Input.{IsFront};

mod ty;

use crate::mac::{MacroDelimiter, MacroOf};
use crate::path::{
    AngleBracketedGenericArgumentsOf, AssocTypeOf, GenericArgumentOf,
    ParenthesizedGenericArgumentsOf, PathArgumentsOf, PathOf, PathSegmentOf, QSelfOf,
};
use crate::ty::ReturnTypeOf;
use syn_lower_leaves::print::print_some;
use syn_lower_leaves::punctuated::Punctuated;
use syn_tokens::buffer::ToTokens;
use syn_tokens::error::{ErrorKind, Result};
use syn_tokens::token::{As, Comma, Gt, Paren, PathSep, RArrow};
use syn_tokens::tree::{TokenStream, copy_trees};

impl<T: ToTokens> ToTokens for PathSegmentOf<T> {
    ghost use Rattle.syn_lower_types.specs.Printed.{segment_printed};

    ghost printed = { segment_printed T.printed };

    #[tactic(auto, using(syn_tokens::proofs::Fronts::fronts))]
    fn to_tokens(&self, tokens: &mut TokenStream) -> Result<()> {
        self.ident.to_tokens(tokens)?;
        self.arguments.to_tokens(tokens)
    }
}

/// Prints a path.
#[inline(never)]
#[tactic(auto, using(syn_tokens::proofs::Fronts::fronts), unfolding(syn_tokens::specs::Sign::sign_text))]
fn print_path<T: ToTokens>(path: &PathOf<T>, tokens: &mut TokenStream) -> Result<()>
    ensures ok { OnOk result (tokens.new ≡ tokens.old ++ path_printed T.printed path.now) }
    ensures err { OnErr result (IsFront tokens.old tokens.new) }
    ensures memory { IfErr result (λ e. e.kind ≡ ErrorKind.OutOfMemory) }
{
    print_some(&path.leading_colon, tokens)?;
    path.segments.to_tokens(tokens)
}

impl<T: ToTokens> ToTokens for PathOf<T> {
    ghost use Rattle.syn_lower_types.specs.Printed.{path_printed};

    ghost printed = { path_printed T.printed };

    #[inline(always)]
    #[tactic(auto, unfolding(syn_lower_leaves::specs::Printed::punctuated_printed, syn_lower_leaves::specs::Printed::option_printed))]
    fn to_tokens(&self, tokens: &mut TokenStream) -> Result<()> {
        match &self.segments.last {
            // Most paths are one word.
            Some(segment)
                if self.leading_colon.is_none()
                    && self.segments.inner.is_empty()
                    && matches!(segment.arguments, PathArgumentsOf::None) => {
                segment.ident.to_tokens(tokens)
            }
            _ => print_path(self, tokens),
        }
    }
}

impl<T: ToTokens> ToTokens for AngleBracketedGenericArgumentsOf<T> {
    ghost use Rattle.syn_lower_types.specs.Printed.{angle_printed};

    ghost printed = { angle_printed T.printed };

    #[tactic(auto, using(syn_tokens::proofs::Fronts::fronts), unfolding(syn_tokens::specs::Sign::sign_text))]
    fn to_tokens(&self, tokens: &mut TokenStream) -> Result<()> {
        print_some(&self.colon2_token, tokens)?;
        self.lt_token.to_tokens(tokens)?;
        self.args.to_tokens(tokens)?;
        self.gt_token.to_tokens(tokens)
    }
}

impl<T: ToTokens> ToTokens for AssocTypeOf<T> {
    ghost use Rattle.syn_lower_types.specs.Printed.{assoc_printed};

    ghost printed = { assoc_printed T.printed };

    #[tactic(auto, using(syn_tokens::proofs::Fronts::fronts), unfolding(syn_tokens::specs::Sign::sign_text))]
    fn to_tokens(&self, tokens: &mut TokenStream) -> Result<()> {
        self.ident.to_tokens(tokens)?;
        self.eq_token.to_tokens(tokens)?;
        self.ty.to_tokens(tokens)
    }
}

/// Prints a group of these tokens.
fn print_group(
    delimiter: &MacroDelimiter,
    inside: TokenStream,
    tokens: &mut TokenStream,
) -> Result<()>
    ensures ok { OnOk result (tokens.new ≡ tokens.old ++ grouped (delimiter_of delimiter.now) inside) }
    ensures err { OnErr result (IsFront tokens.old tokens.new) }
    ensures memory { IfErr result (λ e. e.kind ≡ ErrorKind.OutOfMemory) }
{
    let group = match delimiter {
        MacroDelimiter::Paren(paren) => paren.enclose(inside),
        MacroDelimiter::Brace(brace) => brace.enclose(inside),
        MacroDelimiter::Bracket(bracket) => bracket.enclose(inside),
    };
    tokens.push(group)?;
    Ok(())
}

impl<T: ToTokens> ToTokens for MacroOf<T> {
    ghost use Rattle.syn_lower_types.specs.Printed.{macro_printed};

    ghost printed = { macro_printed T.printed };

    #[tactic(auto, using(syn_tokens::proofs::Fronts::fronts), unfolding(syn_tokens::specs::Sign::sign_text))]
    fn to_tokens(&self, tokens: &mut TokenStream) -> Result<()> {
        self.path.to_tokens(tokens)?;
        self.bang_token.to_tokens(tokens)?;
        let inside = copy_trees(tokens.alloc(), self.tokens.trees())?;
        print_group(&self.delimiter, inside, tokens)
    }
}

/// How many of `count` segments come before `>`: no more than there are.
fn inside_count(position: usize, count: usize) -> usize
    ensures { result ≡ at_most position count }
{
    if position <= count { position } else { count }
}

/// Prints the `>` after the last of the segments that are inside.
#[tactic(auto, using(syn_tokens::proofs::Fronts::fronts), unfolding(syn_tokens::specs::Sign::sign_text))]
fn print_close(left: usize, gt: &Gt, tokens: &mut TokenStream) -> Result<()>
    ensures ok { OnOk result (tokens.new ≡ tokens.old ++ closed_printed left) }
    ensures err { OnErr result (IsFront tokens.old tokens.new) }
    ensures memory { IfErr result (λ e. e.kind ≡ ErrorKind.OutOfMemory) }
{
    if left == 1 {
        gt.to_tokens(tokens)
    } else {
        Ok(())
    }
}

/// Prints `::`.
#[tactic(auto, unfolding(syn_tokens::specs::Sign::sign_text))]
fn print_colons(colons: &PathSep, tokens: &mut TokenStream) -> Result<()>
    ensures ok { OnOk result (tokens.new ≡ tokens.old ++ colon2 colons.now) }
    ensures err { OnErr result (IsFront tokens.old tokens.new) }
    ensures memory { IfErr result (λ e. e.kind ≡ ErrorKind.OutOfMemory) }
{
    colons.to_tokens(tokens)
}

/// Prints segments of which `left` come before `>`.
#[tactic(auto, using(syn_tokens::proofs::Fronts::fronts))]
fn print_inside<S: ToTokens>(
    mut left: usize,
    gt: &Gt,
    mut pairs: &[(S, PathSep)],
    last: &Option<Box<S>>,
    tokens: &mut TokenStream,
) -> Result<()>
    ensures ok { OnOk result (tokens.new ≡ tokens.old ++ inside_printed S.printed left pairs.entry.now last.now) }
    ensures err { OnErr result (IsFront tokens.old tokens.new) }
    ensures memory { IfErr result (λ e. e.kind ≡ ErrorKind.OutOfMemory) }
{
    'pairs: while let [(segment, colons), more @ ..] = pairs {
        segment.to_tokens(tokens)?;
        print_close(left, gt, tokens)?;
        print_colons(colons, tokens)?;
        left = left.saturating_sub(1);
        pairs = more;
    }
    if let Some(segment) = last {
        segment.to_tokens(tokens)?;
        print_close(left, gt, tokens)?;
    }
    Ok(())
}

/// Prints what comes after the type of a qualified path.
#[tactic(auto, using(syn_tokens::proofs::Fronts::fronts), unfolding(syn_tokens::specs::Sign::sign_text, syn_tokens::specs::Sign::word_text))]
fn print_qself_end(
    inside: usize,
    as_token: &Option<As>,
    gt: &Gt,
    tokens: &mut TokenStream,
) -> Result<()>
    ensures ok { OnOk result (tokens.new ≡ tokens.old ++ qself_end_printed inside) }
    ensures err { OnErr result (IsFront tokens.old tokens.new) }
    ensures memory { IfErr result (λ e. e.kind ≡ ErrorKind.OutOfMemory) }
{
    if inside == 0 {
        return gt.to_tokens(tokens);
    }
    match as_token {
        Some(word) => word.to_tokens(tokens),
        None => As::default().to_tokens(tokens),
    }
}

/// Prints a path after the type that it is qualified by.
#[inline(never)]
#[tactic(auto, using(syn_tokens::proofs::Fronts::fronts), unfolding(syn_tokens::specs::Sign::sign_text))]
fn print_qualified<T: ToTokens>(
    qself: &QSelfOf<T>,
    path: &PathOf<T>,
    tokens: &mut TokenStream,
) -> Result<()>
    ensures ok { OnOk result (tokens.new ≡ tokens.old ++ qualified_printed T.printed qself.now path.now (at_most qself.now.position (length (values path.now.segments)))) }
    ensures err { OnErr result (IsFront tokens.old tokens.new) }
    ensures memory { IfErr result (λ e. e.kind ≡ ErrorKind.OutOfMemory) }
{
    let inside = inside_count(qself.position, path.segments.len());
    qself.lt_token.to_tokens(tokens)?;
    qself.ty.to_tokens(tokens)?;
    print_qself_end(inside, &qself.as_token, &qself.gt_token, tokens)?;
    print_some(&path.leading_colon, tokens)?;
    print_inside(
        inside,
        &qself.gt_token,
        &path.segments.inner,
        &path.segments.last,
        tokens,
    )
}

/// Prints a path and the type that it is qualified by, if there is one: `<T as a::b>::c`, or the path alone. `position`
/// says how many segments come before `>`; where the path has fewer, all do. `as` is printed exactly where there are
/// such segments, whatever `as_token` is. It is refused as `OutOfMemory` alone.
#[inline(always)]
pub fn print_with_qself<T: ToTokens>(
    qself: &Option<QSelfOf<T>>,
    path: &PathOf<T>,
    tokens: &mut TokenStream,
) -> Result<()>
    ensures ok { OnOk result (tokens.new ≡ tokens.old ++ qpath_printed T.printed qself.now path.now) }
    ensures err { OnErr result (IsFront tokens.old tokens.new) }
    ensures memory { IfErr result (λ e. e.kind ≡ ErrorKind.OutOfMemory) }
{
    match qself {
        Some(qself) => print_qualified(qself, path, tokens),
        None => path.to_tokens(tokens),
    }
}

/// Prints values in parentheses, and what follows them.
#[tactic(auto, using(syn_tokens::proofs::Fronts::fronts), unfolding(crate::specs::Printed::round_printed, syn_tokens::specs::Sign::sign_text))]
fn print_round<T: ToTokens, R: ToTokens>(
    paren: &Paren,
    inputs: &Punctuated<T, Comma>,
    output: &R,
    tokens: &mut TokenStream,
) -> Result<()>
    ensures ok { OnOk result (tokens.new ≡ tokens.old ++ round_printed T.printed R.printed inputs.now output.now) }
    ensures err { OnErr result (IsFront tokens.old tokens.new) }
    ensures memory { IfErr result (λ e. e.kind ≡ ErrorKind.OutOfMemory) }
{
    let mut inside = TokenStream::new(tokens.alloc());
    inputs.to_tokens(&mut inside)?;
    tokens.push(paren.enclose(inside))?;
    output.to_tokens(tokens)
}

/// Prints `->` and a type.
#[tactic(auto, using(syn_tokens::proofs::Fronts::fronts), unfolding(syn_tokens::specs::Sign::sign_text))]
fn print_arrow<T: ToTokens>(arrow: &RArrow, ty: &T, tokens: &mut TokenStream) -> Result<()>
    ensures ok { OnOk result (tokens.new ≡ tokens.old ++ joint 45 ∷ alone 62 ∷ T.printed ty.now) }
    ensures err { OnErr result (IsFront tokens.old tokens.new) }
    ensures memory { IfErr result (λ e. e.kind ≡ ErrorKind.OutOfMemory) }
{
    arrow.to_tokens(tokens)?;
    ty.to_tokens(tokens)
}

impl<T: ToTokens> ToTokens for GenericArgumentOf<T> {
    ghost use Rattle.syn_lower_types.specs.Printed.{generic_printed};

    ghost printed = { generic_printed T.printed };

    fn to_tokens(&self, tokens: &mut TokenStream) -> Result<()> {
        match self {
            GenericArgumentOf::Lifetime(x) => x.to_tokens(tokens),
            GenericArgumentOf::Const(x) => x.to_tokens(tokens),
            GenericArgumentOf::AssocType(x) => x.to_tokens(tokens),
            GenericArgumentOf::Ty(x) => x.to_tokens(tokens),
        }
    }
}

impl<T: ToTokens> ToTokens for PathArgumentsOf<T> {
    ghost use Rattle.syn_lower_types.specs.Printed.{arguments_printed};

    ghost printed = { arguments_printed T.printed };

    #[tactic(auto, using(syn_tokens::proofs::Fronts::fronts))]
    fn to_tokens(&self, tokens: &mut TokenStream) -> Result<()> {
        match self {
            PathArgumentsOf::None => Ok(()),
            PathArgumentsOf::AngleBracketed(x) => x.to_tokens(tokens),
            PathArgumentsOf::Parenthesized(x) => x.to_tokens(tokens),
        }
    }
}

impl<T: ToTokens> ToTokens for ParenthesizedGenericArgumentsOf<T> {
    ghost use Rattle.syn_lower_types.specs.Printed.{parenthesized_printed};

    ghost printed = { parenthesized_printed T.printed };

    #[tactic(auto, using(syn_tokens::proofs::Fronts::fronts), unfolding(syn_tokens::specs::Sign::sign_text))]
    fn to_tokens(&self, tokens: &mut TokenStream) -> Result<()> {
        print_round(&self.paren_token, &self.inputs, &self.output, tokens)
    }
}

impl<T: ToTokens> ToTokens for ReturnTypeOf<T> {
    ghost use Rattle.syn_lower_types.specs.Printed.{return_printed};

    ghost printed = { return_printed T.printed };

    #[tactic(auto, using(syn_tokens::proofs::Fronts::fronts), unfolding(syn_tokens::specs::Sign::sign_text))]
    fn to_tokens(&self, tokens: &mut TokenStream) -> Result<()> {
        match self {
            ReturnTypeOf::Default => Ok(()),
            ReturnTypeOf::Given(arrow, ty) => print_arrow(arrow, &**ty, tokens),
        }
    }
}
