//! Calls on paths.

use crate::built::once_read_again;
use crate::parts::set;
use rows::{of_front, put, put_by, rest, verdict, with, words};
use std::alloc::Global;
use syn_lower::{
    AngleBracketedGenericArguments, Path, PathArguments, PathSegment, PathStyle, Punctuated, QSelf,
    TypePath, print_qpath, qpath, qpath_is_read_back,
};
use syn_tokens::{Ident, ParseBuffer, Result, Span, TokenStream, lex, parse_str};

/// A word, reserved or not.
pub fn word(alloc: Global, text: &str) -> Result<Ident> {
    Ident::new(alloc, text, Span::call_site())
}

/// Puts a word without arguments behind a path.
fn lengthen(alloc: Global, path: &mut Path, text: &str) -> Result<()> {
    let (ident, arguments) = (word(alloc, text)?, PathArguments::None);
    path.segments.push(PathSegment { ident, arguments })
}

/// Makes a path one of the words of a text, without arguments.
pub fn respell(alloc: Global, path: &mut Path, texts: &str) -> Result<()> {
    set(&mut path.segments, Punctuated::new(alloc));
    for text in texts.split_whitespace() {
        lengthen(alloc, path, text)?;
    }
    Ok(())
}

/// The word that a path is.
fn word_of(alloc: Global, path: &Path) -> Result<String> {
    match path.get_ident() {
        Some(ident) if path.is_ident(ident.as_str()) => words(alloc, ident.as_str()),
        Some(_) => words(alloc, "another word"),
        None => words(alloc, "no word"),
    }
}

/// What is printed of the path of a word, unless it is another word.
pub fn from_ident(alloc: Global, text: &str) -> Result<String> {
    let path = Path::from_ident(alloc, word(alloc, text)?);
    with(path, |path| {
        let word = word_of(alloc, path)?;
        if word.as_str() == text {
            put(alloc, path)
        } else {
            Ok(word)
        }
    })
}

/// What is printed of the arguments of a path's first segment.
fn arguments(alloc: Global, path: &Path) -> Result<String> {
    match path.segments.first() {
        Some(segment) => put(alloc, &segment.arguments),
        None => words(alloc, "no segment"),
    }
}

/// The styles of paths in which a part is read back, given the three verdicts.
fn of_styles(as_type: bool, as_expr: bool, as_mod: bool) -> &'static str {
    match (as_type, as_expr, as_mod) {
        (true, true, true) => "Type Expr Mod",
        (true, true, false) => "Type Expr",
        (true, false, false) => "Type",
        (false, false, false) => "refused",
        _ => "other styles",
    }
}

/// Asks for each style of paths whether a part is read back.
macro_rules! styles {
    ($part:expr) => {
        of_styles(
            $part.is_read_back(PathStyle::Type),
            $part.is_read_back(PathStyle::Expr),
            $part.is_read_back(PathStyle::Mod),
        )
    };
}

/// The styles in which a path of these words is read back, as it is or with `::` after it.
fn styles_of_words(alloc: Global, path: &mut Path, call: &str, text: &str) -> Result<String> {
    respell(alloc, path, text)?;
    if call == "ended Path" && !path.segments.empty_or_trailing() {
        path.segments.push_punct(Default::default())?;
    }
    words(alloc, styles!(path))
}

/// What a call answers for the path that a text is, and for further words.
pub fn of_path(alloc: Global, call: &str, path: &str, text: &str) -> Result<String> {
    with(parse_str::<Path>(alloc, path), |it| match call {
        "Path::get_ident" => word_of(alloc, it),
        "PathArguments::to_tokens" => arguments(alloc, it),
        "read Path" => once_read_again(alloc, it, true, styles!(it)),
        "longer Path" => {
            lengthen(alloc, it, "B")?;
            verdict(alloc, it, it.is_read_back(PathStyle::Type))
        }
        _ => styles_of_words(alloc, it, call, text),
    })
}

/// The styles in which the arguments of a segment are read back, or it with the word `self`; or the verdict on it in a style.
pub fn of_segment(alloc: Global, call: &str, text: &str) -> Result<String> {
    with(parse_str::<PathSegment>(alloc, text), |it| match call {
        "PathArguments" => words(alloc, styles!(it.arguments)),
        "PathSegment Type" => verdict(alloc, it, it.is_read_back(PathStyle::Type)),
        "PathSegment Expr" => verdict(alloc, it, it.is_read_back(PathStyle::Expr)),
        _ => {
            set(&mut it.ident, word(alloc, "self")?);
            words(alloc, styles!(it))
        }
    })
}

/// The styles in which arguments are read back.
pub fn of_arguments(alloc: Global, text: &str) -> Result<String> {
    let read = parse_str::<AngleBracketedGenericArguments>(alloc, text);
    with(read, |it| words(alloc, styles!(it)))
}

/// How many segments of the path of a type are inside, of how many, and whether `as` and `::` in front are.
pub fn held(alloc: Global, text: &str) -> Result<String> {
    with(parse_str::<TypePath>(alloc, text), |it| {
        let Some(qself) = &it.qself else {
            return words(alloc, "no type in front");
        };
        let (position, count) = (qself.position, it.path.segments.len());
        let (has_as, has_colons) = (qself.as_token.is_some(), it.path.leading_colon.is_some());
        Ok(format!(in alloc; "{position} of {count}, as: {has_as}, colons: {has_colons}")?)
    })
}

/// A path behind a type, or alone.
type Qualified = (Option<QSelf>, Path);

/// Whether a path is read back where `as` alone comes before it, or where no segment is left after `>`.
fn misplaced(alloc: Global, it: &mut Qualified, expr: bool) -> Result<String> {
    let mut is_read_back = false;
    for position in [0, 5] {
        if let Some(qself) = &mut it.0 {
            qself.as_token = Some(Default::default());
            qself.position = position;
        }
        is_read_back = is_read_back || qpath_is_read_back(&it.0, &it.1, expr);
    }
    words(alloc, if is_read_back { "read back" } else { "refused" })
}

/// Whether a path is read back as the same.
fn again(alloc: Global, it: &Qualified, expr: bool) -> Result<String> {
    if !qpath_is_read_back(&it.0, &it.1, expr) {
        return words(alloc, "refused");
    }
    let mut tokens = TokenStream::new(alloc);
    print_qpath(&it.0, &it.1, &mut tokens)?;
    let mut input = ParseBuffer::new(&tokens)?;
    let is_same = with(qpath(&mut input, expr), |read| Ok(*read == *it))?;
    words(
        alloc,
        if is_same && input.is_empty() {
            "same"
        } else {
            "another"
        },
    )
}

/// What a call answers for the path, after a type or alone, that a text begins with: read as in types or as in expressions.
pub fn qualified(alloc: Global, call: &str, name: &str, text: &str) -> Result<String> {
    let tokens = lex(alloc, text)?;
    let mut input = ParseBuffer::new(&tokens)?;
    let expr = !name.ends_with("type");
    let read = qpath(&mut input, expr);
    of_front(&tokens, &input, read, |it| match call {
        "left_by" => rest(&input),
        "qpath_again" => again(alloc, it, expr),
        "misplaced" => misplaced(alloc, it, expr),
        _ => put_by(alloc, |list| print_qpath(&it.0, &it.1, list)),
    })
}
