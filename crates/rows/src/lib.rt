//! Rows of examples. A row is a line of a file: what is called, a text, and what has to be answered, with ` | ` between
//! them, or with ` ¦ ` where one of them has a `|`. An empty line and one that begins with `# ` are no rows.
//!
//! A blank at the end of a text, a tab and the end of a line are in rows as their pictures: `␠`, `␉`, `␊` and `␍`.
#![tactic(auto)]

pub mod cuts;
pub mod groups;
pub mod noting;

use std::alloc::Global;
use std::hash::{DefaultHasher, Hash, Hasher};
use std::{fs, io};
use syn_tokens::{
    Error, ErrorKind, Parse, ParseBuffer, Result, ToTokens, TokenStream, copy_trees, lex,
    parse_str, parse2, to_text,
};

/// The parts of a row: what is called, the text, and what has to be answered.
fn parts(row: &str) -> Option<(&str, &str, &str)> {
    let (_, from_separator) = row.split_at_checked(row.find(['|', '¦'])?)?;
    let separator = from_separator.chars().next()?;
    let (call, more) = row.split_once(separator)?;
    let (text, wanted) = more.split_once(separator)?;
    let text = text.strip_prefix(' ').unwrap_or(text);
    Some((call.trim(), text.trim_end(), wanted.trim()))
}

/// A text with characters for their pictures.
fn unpictured(alloc: Global, text: &str) -> Result<String> {
    let text = text.replace(alloc, '␠', " ")?;
    let text = text.as_str().replace(alloc, '␉', "\t")?;
    let text = text.as_str().replace(alloc, '␊', "\n")?;
    Ok(text.as_str().replace(alloc, '␍', "\r")?)
}

/// A text with pictures for the ends of lines and for tabs.
fn pictured(alloc: Global, text: &str) -> Result<String> {
    let text = text.replace(alloc, '\t', "␉")?;
    let text = text.as_str().replace(alloc, '\n', "␊")?;
    Ok(text.as_str().replace(alloc, '\r', "␍")?)
}

/// An answer as rows have it: for a refusal its place and its text.
pub fn told(alloc: Global, answer: Result<String>) -> Result<String> {
    match answer {
        Ok(text) => pictured(alloc, text.as_str()),
        Err(e) if e.kind == ErrorKind::OutOfMemory => Err(e),
        Err(Error { span, kind }) => Ok(format!(in alloc; "{}..{} {kind}", span.lo, span.hi)?),
    }
}

/// What is answered where a row does not hold.
fn other_answer<F: Fn(Global, &str, &str) -> Result<String>>(
    alloc: Global,
    row: &str,
    answer: &F,
) -> Result<Option<String>>
    requires { F.IsAlwaysCallable answer.now }
{
    let Some((call, text, wanted)) = parts(row) else {
        return Ok(Some(words(alloc, "no row")?));
    };
    let text = unpictured(alloc, text)?;
    let answer = told(alloc, answer(alloc, call, text.as_str()))?;
    Ok(if answer.as_str().trim() == wanted {
        None
    } else {
        Some(answer)
    })
}

/// Reads the rows of a file, prints each that does not hold with what was answered, and then how many hold.
pub fn check_file<F: Fn(Global, &str, &str) -> Result<String>>(
    rt: &HostRuntime,
    file: &str,
    answer: &F,
) -> io::Result<()>
    requires { F.IsAlwaysCallable answer.now }
{
    let rows = fs::read_to_string(rt, file)?;
    let mut held = 0u64;
    for row in rows.as_str().split('\n') {
        if !row.trim().is_empty() && !row.starts_with("# ") {
            match other_answer(rt.alloc(), row, answer) {
                Ok(None) => held = held.saturating_add(1),
                Ok(Some(answer)) => println!(rt; "{file}: {row}: {answer}")?,
                Err(e) => {
                    let kind = e.kind;
                    println!(rt; "{file}: {row}: {kind}")?
                }
            }
        }
    }
    println!(rt; "{file}: {held} rows hold")
}

/// An answer in a few words.
pub fn words(alloc: Global, text: &str) -> Result<String> {
    Ok(String::from_str(alloc, text)?)
}

/// The hash of a value.
pub fn hash_of<T: Hash>(value: &T) -> u64 {
    let mut state = DefaultHasher::new();
    value.hash(&mut state);
    state.finish()
}

/// The text of what is left.
pub fn rest(input: &ParseBuffer<'_>) -> Result<String> {
    to_text(&copy_trees(input.alloc(), input.trees())?)
}

/// What is answered for what was read at the front of a list. A refusal has to leave all of it.
pub fn of_front<T: Drop, F: FnOnce(&mut T) -> Result<String>>(
    tokens: &TokenStream,
    input: &ParseBuffer<'_>,
    read: Result<T>,
    answer: F,
) -> Result<String>
    requires { F.IsAlwaysCallable answer }
{
    match read {
        Ok(mut value) => answer(&mut value),
        Err(_) if input.len() < tokens.len() => words(
            tokens.alloc(),
            "refused, and not all is left",
        ),
        Err(e) => Err(e),
    }
}

/// What is left of a list behind what was read at its front.
pub fn left_behind<T: Drop>(
    tokens: &TokenStream,
    input: &ParseBuffer<'_>,
    read: Result<T>,
) -> Result<String> {
    of_front(tokens, input, read, |_| rest(input))
}

/// What is left of a text behind a `T`.
pub fn left<T: Parse + Drop>(alloc: Global, text: &str) -> Result<String> {
    let tokens = lex(alloc, text)?;
    let mut input = ParseBuffer::new(&tokens)?;
    let read = T::parse(&mut input);
    left_behind(&tokens, &input, read)
}

/// What is printed behind old tokens, as many as their list has room for: the first one behind them asks for memory. Whatever
/// the printer answers, the old tokens have to be in front, and they are the list again once it is cut where they ended.
pub fn put_by<F: FnOnce(&mut TokenStream) -> Result<()>>(alloc: Global, print: F) -> Result<String>
    requires { F.IsAlwaysCallable print }
{
    let old = lex(alloc, "old (a b) + c")?;
    let mut tokens = copy_trees(alloc, old.trees())?;
    let answer = match print(&mut tokens) {
        Ok(()) => text_behind(&tokens, old.len()),
        Err(e) => Err(e),
    };
    tokens.truncate(old.len());
    if tokens == old {
        answer
    } else {
        words(alloc, "the old tokens do not stand in front")
    }
}

/// The text of a list without its first trees.
fn text_behind(tokens: &TokenStream, count: usize) -> Result<String> {
    let mut input = ParseBuffer::new(tokens)?;
    input.skip(count);
    rest(&input)
}

/// What is printed of a value, behind old tokens.
pub fn put<T: ToTokens>(alloc: Global, value: &T) -> Result<String> {
    put_by(alloc, |tokens| value.to_tokens(tokens))
}

/// What is printed of a value that was read.
pub fn put_read<T: ToTokens + Drop>(alloc: Global, read: Result<T>) -> Result<String> {
    put(alloc, &read?)
}

/// What is printed of the `T` that a whole text is read as.
pub fn printed<T: Parse + ToTokens + Drop>(alloc: Global, text: &str) -> Result<String> {
    put_read(alloc, parse_str::<T>(alloc, text))
}

/// What is printed of what was read at the front of a list.
pub fn put_front<T: ToTokens + Drop>(
    tokens: &TokenStream,
    input: &ParseBuffer<'_>,
    read: Result<T>,
) -> Result<String> {
    of_front(tokens, input, read, |value| put(tokens.alloc(), value))
}

/// What is printed of the `T` that a text begins with.
pub fn front<T: Parse + ToTokens + Drop>(alloc: Global, text: &str) -> Result<String> {
    let tokens = lex(alloc, text)?;
    let mut input = ParseBuffer::new(&tokens)?;
    let read = T::parse(&mut input);
    put_front(&tokens, &input, read)
}

/// Whether a part that passes a test is read again as the same from what is printed of it.
pub fn verdict<T: Parse + ToTokens + PartialEq + Drop>(
    alloc: Global,
    part: &T,
    is_passed: bool,
) -> Result<String> {
    if !is_passed {
        return words(alloc, "refused");
    }
    let is_same = parse2::<T>(part.to_token_stream(alloc)?)? == *part;
    words(alloc, if is_same { "same" } else { "another" })
}

/// What is answered for a value that was read.
pub fn with<T: Drop, A: Drop, F: FnOnce(&mut T) -> Result<A>>(
    read: Result<T>,
    answer: F,
) -> Result<A>
    requires { F.IsAlwaysCallable answer }
{
    answer(&mut read?)
}

/// Whether two values that were read are equal.
pub fn are_equal<T: PartialEq + Drop>(one: Result<T>, other: Result<T>) -> Result<bool> {
    Ok(one? == other?)
}

/// Whether what two texts are read as, `~` between them, is equal.
pub fn compared<T: Parse + PartialEq + Drop>(alloc: Global, texts: &str) -> Result<String> {
    let (left, right) = texts.split_once('~').unwrap_or((texts, ""));
    let is_equal = are_equal(parse_str::<T>(alloc, left), parse_str::<T>(alloc, right))?;
    words(alloc, if is_equal { "equal" } else { "different" })
}
