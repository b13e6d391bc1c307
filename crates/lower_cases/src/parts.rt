//! Calls on a part by the name of its type, as on a `Path`: the tokens that are left after it is read, its printed text, and
//! whether two parts are equal.

use crate::texts::{places_of, yes_or_no};
use rows::{compared, front, hash_of, left, printed, verdict, words};
use std::alloc::Global;
use std::hash::Hash;
use syn_expr_tokens::{limits, member, modifiers, op};
use syn_tokens::token::{self, ShlEq, Underscore, While};
use syn_tokens::{Parse, ParseBuffer, Result, ToTokens, Token, parse_str, to_text};

/// Puts a value in place of another, which is dropped here. It is generic, since a function that drops a value of one type has to
/// prove the drop of each part of that type again.
pub fn set<T: Drop>(place: &mut T, value: T) {
    *place = value;
}

/// What a call answers for a `T`.
fn of_type<T: Parse + ToTokens + PartialEq + Drop>(
    alloc: Global,
    call: &str,
    text: &str,
) -> Result<String> {
    match call {
        "left" => left::<T>(alloc, text),
        "front" => front::<T>(alloc, text),
        "printed" => printed::<T>(alloc, text),
        "places" => places_of(&parse_str::<T>(alloc, text)?.to_token_stream(alloc)?),
        "compared" => compared::<T>(alloc, text),
        "again" => verdict(alloc, &parse_str::<T>(alloc, text)?, true),
        _ => words(alloc, "no such call"),
    }
}

/// Calls a function for the type of these modules that has this name.
macro_rules! by_name {
    ($alloc:expr, $name:expr, $function:ident $arguments:tt; $($module:ident: $($Type:ident)*;)*) => {
        match $name {
            $($(stringify!($Type) => $function::<$module::$Type> $arguments,)*)*
            _ => words($alloc, "no such type"),
        }
    };
}

/// What a call answers for the part that has this name.
pub fn of_part(alloc: Global, call: &str, name: &str, text: &str) -> Result<String> {
    match name {
        "token::Sign" => of_type::<ShlEq>(alloc, call, text),
        "token::Word" => of_type::<While>(alloc, call, text),
        "token::Underscore" => of_type::<Underscore>(alloc, call, text),
        _ => by_name!(alloc, name, of_type(alloc, call, text);
            syn_tokens: Ident Literal TokenTree TokenStream;
            token: Comma DotDotEq PlusEq Underscore Yield;
            syn_lower: Lifetime Lit LitStr LitByteStr LitCStr LitByte LitChar LitInt LitFloat
                LitBool Block Path PathSegment AngleBracketedGenericArguments
                ParenthesizedGenericArguments GenericArgument AssocType ReturnType Macro TraitBound
                TypeParamBound BoundLifetimes PointerMutability Abi BareFnArg
                Type TypeArray TypeFnPtr TypeImplTrait TypeInfer TypeMacro TypeNever TypeParen
                TypePath TypePtr TypeReference TypeSlice TypeTraitObject TypeTuple;
            modifiers: Label; member: Index Member; op: BinOp UnOp; limits: RangeLimits;
        ),
    }
}

/// Whether what two texts are read as is equal, by the hashes too.
fn alike_as<T: Parse + PartialEq + Hash + Drop>(
    alloc: Global,
    left: &str,
    right: &str,
) -> Result<String> {
    let (left, right) = (parse_str::<T>(alloc, left)?, parse_str::<T>(alloc, right)?);
    let is_same_hash = hash_of(&left) == hash_of(&right);
    words(
        alloc,
        match left == right {
            true if is_same_hash => "equal",
            true => "equal, but not by hashes",
            false => "different",
        },
    )
}

/// Whether what two texts are read as, `~` between them, is equal, by the hashes too.
pub fn alike(alloc: Global, name: &str, texts: &str) -> Result<String> {
    let (left, right) = texts.split_once('~').unwrap_or((texts, ""));
    by_name!(alloc, name, alike_as(alloc, left, right);
        syn_tokens: TokenStream TokenTree Ident Literal;
    )
}

/// Whether a token type is seen, read and printed as this text.
fn is_spelled<T: Default + Drop + Parse + PartialEq + ToTokens + Token>(
    alloc: Global,
    text: &str,
) -> Result<String> {
    let tokens = T::default().to_token_stream(alloc)?;
    let is_printed = to_text(&tokens)?.as_str() == text;
    let is_seen = ParseBuffer::new(&tokens)?.peek::<T>();
    let is_read = parse_str::<T>(alloc, text)? == T::default();
    yes_or_no(alloc, is_printed && is_seen && is_read)
}

/// Whether the token type that has this name is seen, read and printed as this text.
pub fn spelled(alloc: Global, name: &str, text: &str) -> Result<String> {
    by_name!(alloc, name, is_spelled(alloc, text);
        token:
        And At Caret Colon Comma Dollar Dot Eq Gt Lt Minus Not Or Percent Plus Pound Question Semi
        Slash Star Tilde
        AndAnd AndEq CaretEq DotDot EqEq FatArrow Ge LArrow Le MinusEq Ne OrEq OrOr PathSep
        PercentEq PlusEq RArrow Shl Shr SlashEq StarEq
        DotDotDot DotDotEq ShlEq ShrEq
        As Async Await Become Break Const Continue Dyn Else Extern Fn For If Impl In Let Loop Match
        Move Mut Raw Ref Return Static Try Underscore Unsafe Use While Yield;
    )
}
