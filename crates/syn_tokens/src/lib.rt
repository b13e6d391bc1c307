//! Token trees and streams of them, with their lexer, their text and their places, `ParseBuffer` and the traits `Parse`,
//! `ToTokens`, `Token` and `Spanned`.
#![tactic(auto)]

mod alias;
pub mod buffer;
pub mod error;
pub mod floats;
pub mod lexer;
mod make;
pub mod parse;
pub mod same;
pub mod spanned;
pub mod text;
pub mod token;
pub mod tree;

pub use buffer::{Parse, ParseBuffer, ToTokens, Token};
pub use error::{
    AfterCast, Error, ErrorKind, Expected, LexError, Part, Result, Wanted, WantedKind,
};
pub use lexer::lex;
pub use parse::{parse_any_word, parse_str, parse2};
pub use syn_lexer::front::{Delimiter, Spacing};
pub use text::to_text;
pub use tree::{
    Group, Ident, Literal, Punct, Span, TokenStream, TokenTree, copy_ident, copy_literal,
    copy_tree, copy_trees,
};
