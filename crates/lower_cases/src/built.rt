//! Calls on parts as they are read and as users change them: whether they are read back, and as the same.

use crate::parts::set;
use crate::paths::{of_arguments, of_path, of_segment, respell, word};
use rows::{verdict, with, words};
use std::alloc::Global;
use syn_lower::{
    Abi, AssocType, BareFnArg, GenericArgument, Lit, LitStr, Macro, ParenthesizedGenericArguments,
    Punctuated, Type, TypeParamBound,
};
use syn_tokens::{Parse, Result, ToTokens, lex, parse_str};

/// Reads a text in place of a part.
fn put_in<T: Parse + Drop>(alloc: Global, part: &mut T, text: &str) -> Result<()> {
    set(part, parse_str::<T>(alloc, text)?);
    Ok(())
}

/// Reads a text behind a list.
fn add<T: Parse + Drop, P: Default + Drop>(list: &mut Punctuated<T, P>, text: &str) -> Result<()> {
    list.push(parse_str::<T>(list.alloc(), text)?)
}

/// Reads the words of a text in place of a list.
fn fill<T: Parse + Drop, P: Default + Drop>(list: &mut Punctuated<T, P>, text: &str) -> Result<()> {
    set(list, Punctuated::new(list.alloc()));
    for word in text.split_whitespace() {
        add(list, word)?;
    }
    Ok(())
}

/// Gives an ABI this name.
fn name_abi(alloc: Global, abi: &mut Option<Abi>, text: &str) -> Result<()> {
    if let Some(abi) = abi {
        set(&mut abi.name, Some(parse_str::<LitStr>(alloc, text)?));
    }
    Ok(())
}

/// Replaces a part of a type by the one in a text, as the element type of a slice. It is the part that `own_test` looks at.
fn change(alloc: Global, it: &mut Type, text: &str) -> Result<()> {
    match it {
        Type::Path(it) => respell(alloc, &mut it.path, text),
        Type::Reference(it) => put_in(alloc, &mut *it.elem, text),
        Type::Ptr(it) => put_in(alloc, &mut *it.elem, text),
        Type::Slice(it) => put_in(alloc, &mut *it.elem, text),
        Type::Array(it) => put_in(alloc, &mut it.len, text),
        Type::Tuple(it) => fill(&mut it.elems, text),
        Type::Paren(it) => put_in(alloc, &mut *it.elem, text),
        Type::FnPtr(it) => name_abi(alloc, &mut it.abi, text),
        Type::ImplTrait(it) => fill(&mut it.bounds, text),
        Type::TraitObject(it) => fill(&mut it.bounds, text),
        _ => Ok(()),
    }
}

/// The answer of the own test of a type's kind.
fn own_test(it: &Type, several: bool) -> bool {
    match it {
        Type::Path(it) => it.is_read_back(),
        Type::Macro(it) => it.is_read_back(),
        Type::Reference(it) => it.is_read_back(),
        Type::Ptr(it) => it.is_read_back(),
        Type::Slice(it) => it.is_read_back(),
        Type::Array(it) => it.is_read_back(),
        Type::Tuple(it) => it.is_read_back(),
        Type::Paren(it) => it.is_read_back(),
        Type::Never(_) | Type::Infer(_) => true,
        Type::FnPtr(it) => match &it.abi {
            Some(abi) => it.is_read_back() && abi.is_read_back(),
            None => it.is_read_back(),
        },
        Type::ImplTrait(it) => it.is_read_back(several),
        Type::TraitObject(it) => it.is_read_back(several),
    }
}

/// How many bounds there may be where a part is read back, by its tests for several bounds and for one.
fn by_bounds(with_several: bool, with_one: bool) -> &'static str {
    match (with_several, with_one) {
        (true, true) => "one bound",
        (true, false) => "several bounds",
        (false, true) => "one bound only",
        (false, false) => "refused",
    }
}

/// An answer for a part, which has to be read again as the same where it passes its test.
pub fn once_read_again<T: Parse + ToTokens + PartialEq + Drop>(
    alloc: Global,
    part: &T,
    is_passed: bool,
    answer: &str,
) -> Result<String> {
    if is_passed && verdict(alloc, part, true)?.as_str() != "same" {
        words(alloc, "another")
    } else {
        words(alloc, answer)
    }
}

/// How many bounds there may be where a type, for `changed` once a part is replaced, is read back. Its own test has to agree.
pub fn of_type(alloc: Global, call: &str, part: &str, text: &str) -> Result<String> {
    with(parse_str::<Type>(alloc, part), |it| {
        if call == "changed" {
            change(alloc, it, text)?;
        }
        let (several, one) = (it.is_read_back(true), it.is_read_back(false));
        if own_test(it, true) == several && own_test(it, false) == one {
            once_read_again(alloc, it, several, by_bounds(several, one))
        } else {
            words(alloc, "not agreed")
        }
    })
}

/// The same of arguments in parentheses with the output that a text is, as which they have to be read back.
fn of_output(alloc: Global, it: &mut ParenthesizedGenericArguments, text: &str) -> Result<String> {
    put_in(alloc, &mut it.output, text)?;
    let (several, one) = (it.output.is_read_back(true), it.output.is_read_back(false));
    if it.is_read_back() == one {
        once_read_again(alloc, it, one, by_bounds(several, one))
    } else {
        words(alloc, "not agreed")
    }
}

/// Whether a bound of these words is read back, by its own test too, which has to agree.
fn of_bound(alloc: Global, it: &mut TypeParamBound, text: &str) -> Result<String> {
    let TypeParamBound::Trait(bound) = it else {
        return words(alloc, "no trait");
    };
    respell(alloc, &mut bound.path, text)?;
    match (bound.is_read_back(), it.is_read_back()) {
        (true, true) => words(alloc, "read back"),
        (false, false) => words(alloc, "refused"),
        _ => words(alloc, "not agreed"),
    }
}

/// What is answered of a part that this text is, or in which a part is replaced by it; mostly the verdict.
pub fn of_name(alloc: Global, name: &str, text: &str) -> Result<String> {
    macro_rules! verdict_on {
        ($Type:ty, $part:expr, $it:ident => $change:expr) => {
            with(parse_str::<$Type>(alloc, $part), |$it| {
                $change;
                verdict(alloc, $it, $it.is_read_back())
            })
        };
    }
    match name {
        "Lit" => verdict_on!(Lit, text, it => ()),
        "GenericArgument" => verdict_on!(GenericArgument, text, it => ()),
        "constant" =>
            verdict_on!(GenericArgument, "A", it => set(it, GenericArgument::Const(lex(alloc, text)?))),
        "TypeParamBound" => verdict_on!(TypeParamBound, text, it => ()),
        "AssocType" =>
            verdict_on!(AssocType, "A = B", it => set(&mut it.ident, word(alloc, text)?)),
        "BareFnArg" =>
            verdict_on!(BareFnArg, "A", it => set(&mut it.name, Some((word(alloc, text)?, Default::default())))),
        "Macro" => verdict_on!(Macro, "a::b!(c)", it => put_in(alloc, &mut it.path, text)?),
        "trait_bound" => {
            let read = parse_str::<TypeParamBound>(alloc, "A");
            with(read, |it| of_bound(alloc, it, text))
        }
        "with_output" => {
            let read = parse_str::<ParenthesizedGenericArguments>(alloc, "()");
            with(read, |it| of_output(alloc, it, text))
        }
        "longer Path" | "read Path" => of_path(alloc, name, text, ""),
        "Path" | "ended Path" => of_path(alloc, name, "a", text),
        "AngleBracketedGenericArguments" => of_arguments(alloc, text),
        _ => of_segment(alloc, name, text),
    }
}
