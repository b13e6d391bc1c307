//! `Type`, with the readers of all that holds types, and syn's names of all lower parts.
//!
//! Memory aside, they refuse as `ExpectedPart` of a type where a type is wanted and none begins, of a path where a bound or
//! a segment is, of a macro after `a!`, of a literal at a `-` that no number follows; as `ExpectedExpression` where an
//! array's length is missing; as `ExpectedToken` of any other token that is missing; and as `UnexpectedToken` at what is
//! left in a group.
#![tactic(auto)]

pub mod ends;
pub mod fn_pointer;
pub mod generics;
pub mod grammar;
mod kinds;
pub mod mac;
pub mod path;
pub mod print;
pub mod read_back;
pub mod readers;
pub mod stmt;
pub mod ty;

pub use ends::ends_open;
pub use mac::{Macro, MacroDelimiter};
pub use path::{
    AngleBracketedGenericArguments, AssocType, GenericArgument, ParenthesizedGenericArguments,
    Path, PathArguments, PathSegment, PathStyle, QSelf,
};
pub use print::print_qpath;
pub use read_back::qpath_is_read_back;
pub use readers::qpath;
pub use stmt::Block;
pub use syn_lower_leaves::attr::{AttrStyle, Attribute};
pub use syn_lower_leaves::error::{LitError, LitErrorKind};
pub use syn_lower_leaves::lifetime::Lifetime;
pub use syn_lower_leaves::lit::{
    Lit, LitBool, LitByte, LitByteStr, LitCStr, LitChar, LitFloat, LitInt, LitStr,
};
pub use syn_lower_leaves::punctuated::Punctuated;
pub use syn_lower_leaves::{attr, lifetime, lit, punctuated};
pub use ty::{
    Abi, BareFnArg, BoundLifetimes, PointerMutability, ReturnType, TraitBound, Type, TypeArray,
    TypeFnPtr, TypeImplTrait, TypeInfer, TypeMacro, TypeNever, TypeParamBound, TypeParen, TypePath,
    TypePtr, TypeReference, TypeSlice, TypeTraitObject, TypeTuple,
};
