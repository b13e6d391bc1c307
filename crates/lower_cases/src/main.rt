//! Reads rows of tokens and of lower parts, and prints each that does not hold. Each argument is a file of rows. A call begins
//! with a word by which its function is found here, and mostly names a type behind it.
#![tactic(auto)]

mod buffers;
mod built;
mod groups;
mod leaves;
mod lists;
mod literals;
mod parts;
mod paths;
mod reports;
mod texts;

use rows::{check_file, noting, put_read};
use std::alloc::Global;
use std::{env, io};
use syn_lexer::front::is_reserved_word;
use syn_lower::{LitFloat, LitInt, LitStr};
use syn_lower_leaves::leaf::is_truth;
use syn_tidy::tidy;
use syn_tokens::{Result, Span, lex, parse_str};

/// What a call answers for a text as it is.
fn plain(alloc: Global, call: &str, text: &str) -> Result<String> {
    let (first, name) = call.split_once(' ').unwrap_or((call, ""));
    match first {
        "lexeme" | "is_ident" | "is_literal" => texts::of_characters(alloc, first, text),
        "is_reserved_word" => texts::yes_or_no(alloc, is_reserved_word(text)),
        "is_truth" => texts::yes_or_no(alloc, is_truth(text)),
        "lex" => texts::lexed(alloc, text),
        "tidy" => tidy(alloc, &lex(alloc, text)?),
        "lex_a_million" => texts::lexed(alloc, text.repeat(alloc, 1_000_000)?.as_str()),
        "Ident::new" => texts::ident(alloc, text),
        "Literal::new" => texts::literal(alloc, text),
        "Ident::is" => texts::is_named(alloc, text),
        "ten_places" | "peek_lifetime" | "infix" => texts::of_list(alloc, first, text),
        "token" | "to_token_stream" => texts::of_trees(alloc, first, text),
        _ if first.starts_with("copy_") => texts::of_trees(alloc, first, text),
        "cut" => lists::cut(alloc, name, text),
        _ if first.starts_with("TokenStream::") => lists::grown(alloc, first, text),
        _ if first.starts_with("Punctuated::") => lists::separated(alloc, first, text),
        "lexed_again" => texts::lexed_again(alloc, name, text),
        "behind" => buffers::behind(alloc, name, text),
        "quoted" => buffers::quoted(alloc, name, text),
        "unlisted" => buffers::unlisted(alloc, text),
        "joined" => buffers::joined(alloc, text),
        "bracketed" => noting::name_in_brackets(alloc, text),
        "groups" | "ParseBuffer::new" => groups::in_order(alloc, text, "(a) {b} [c]"),
        "groups_of" => groups::in_order(alloc, name, text),
        "nested" => groups::nested(alloc, text),
        "closing" => groups::closing(alloc, text),
        "enclosed" => groups::enclosed(alloc, text),
        "seen" => groups::seen(alloc, text),
        "before_group" => groups::before_group(alloc, name, text),
        "refusal" => reports::refusal(alloc, text),
        "expected" | "Error::fmt" => reports::expected(alloc, first, text),
        "place" => reports::place(alloc, text),
        "report" => reports::reported(alloc, 0, name, text),
        "report_after_98" => reports::reported(alloc, 98, name, text),
        "report_at" => reports::found(alloc, name, text),
        "attributes_compared" => leaves::compared(alloc, name, text),
        "attributes_again" => leaves::again(alloc, name, text),
        "left_by" if name.starts_with("qpath") => paths::qualified(alloc, first, name, text),
        "left_by" => leaves::read(alloc, first, name, text),
        "BlockModifiers::require_empty" => leaves::modifiers(alloc),
        _ => of_part(alloc, first, name, text),
    }
}

/// What a call on a part answers for a text as it is.
fn of_part(alloc: Global, first: &str, name: &str, text: &str) -> Result<String> {
    match first {
        "own_kinds" => literals::own_kinds(alloc, text),
        "kind_of" => literals::kind_of_text(alloc, text),
        "LitInt::new" => put_read(alloc, LitInt::new(alloc, text, Span::call_site())),
        "LitFloat::new" => put_read(alloc, LitFloat::new(alloc, text, Span::call_site())),
        "kind" | "value" | "parsed" => literals::of_literal(alloc, first, text),
        _ if first.starts_with("Lit") => literals::of_literal(alloc, first, text),
        "Path::get_ident" | "PathArguments::to_tokens" => paths::of_path(alloc, first, text, ""),
        "Path::from_ident" => paths::from_ident(alloc, text),
        "held" => paths::held(alloc, text),
        "qpath" | "qpath_again" | "misplaced" => paths::qualified(alloc, first, name, text),
        "bounds" => built::of_type(alloc, first, text, ""),
        "changed" => built::of_type(alloc, first, name, text),
        "trait_bound" | "with_output" => built::of_name(alloc, first, text),
        "styles" | "fits" => built::of_name(alloc, name, text),
        "Type::without_plus" => leaves::read(alloc, first, first, text),
        _ if first.contains("parse_") => leaves::read(alloc, first, first, text),
        "spelled" => parts::spelled(alloc, name, text),
        "alike" => parts::alike(alloc, name, text),
        _ => parts::of_part(alloc, first, name, text),
    }
}

/// What a call answers. Behind `escaped` the text is that of a string literal.
fn answer(alloc: Global, call: &str, text: &str) -> Result<String> {
    match call.strip_prefix("escaped ") {
        Some(call) => match parse_str::<LitStr>(alloc, text)?.value(alloc) {
            Ok(text) => plain(alloc, call, text.as_str()),
            Err(e) => literals::refused(alloc, e),
        },
        None => plain(alloc, call, text),
    }
}

fn main(rt: HostRuntime) -> io::Result<()> {
    for file in env::args(&rt)?.skip(1) {
        check_file(&rt, file.as_str(), &answer)?;
    }
    Ok(())
}
