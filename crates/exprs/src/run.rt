//! What a run writes, over any writers.

ghost use Rattle.std.specs.Prelude.{◌≡◌, ◌&&◌, [], ◌∷◌, ◌++◌, map, string_bytes, IfOk, MatchOption, OnOk};
ghost use Rattle.std.specs.Io.KnownBytes.{Appends};
ghost use Rattle.exprs.specs.Answers as spec;
ghost use Rattle.exprs.specs.View.{source_of};

use crate::answer::answer_of;
use crate::args::Settings;
use crate::kinds::Counts;
use std::alloc::{AllocError, Global};
use std::io;
use std::io::Write;
use syn_expr::Error;
use syn_report::report_after;

/// The text of a file, and its name.
#[derive(Clone, Copy)]
struct Source<'a> {
    name: &'a str,
    text: &'a str,
}

/// The report of a refusal of a part of a file, with the file's name before it and a newline. So many lines of the file come
/// before the part.
fn refusal(
    alloc: Global,
    name: &str,
    lines: usize,
    part: &str,
    e: Error,
) -> Result<String, AllocError>
    ensures { IfOk result (λ s. spec.IsRefusal name.now lines part.now e (string_bytes s)) }
{
    let report = report_after(alloc, lines, part, &e)?;
    format!(in alloc; "{name}: {report}\n")
}

/// Writes the line of an expression, unless kinds are counted.
#[tactic(auto, using(crate::proofs::Parts::appends_none))]
fn write_line<W: Write>(kinds: bool, line: &str, output: &mut W) -> io::Result<()>
    ensures { OnOk result (Appends (W.contents output.old) (W.contents output.new) (spec.line_unless kinds line.now)) }
{
    if !kinds {
        output.write_all(line.as_bytes())?;
    }
    Ok(())
}

/// Writes a report.
fn write_report<E: Write>(report: &str, errors: &mut E) -> io::Result<()>
    ensures { OnOk result (Appends (E.contents errors.old) (E.contents errors.new) report.now) }
{
    errors.write_all(report.as_bytes())
}

/// Writes the report of a refusal of a part of a file.
fn write_refusal<E: Write>(
    alloc: Global,
    name: &str,
    lines: usize,
    part: &str,
    e: Error,
    errors: &mut E,
) -> io::Result<()>
    ensures { OnOk result (spec.TakesRefusal name.now lines part.now e (spec.writer (E.contents errors.old) (E.contents errors.new))) }
{
    let report = refusal(alloc, name, lines, part, e)?;
    write_report(report.as_str(), errors)
}

/// Writes the answer for the expression in a part of a file, which has so many lines before it: its line, or why it was refused.
/// A part that is blank has none. The result is whether nothing was refused.
#[tactic(auto, using(crate::proofs::Parts::writes_blank))]
fn write_part<W: Write, E: Write>(
    alloc: Global,
    settings: Settings,
    source: Source<'_>,
    lines: usize,
    part: &str,
    counts: &mut Counts,
    output: &mut W,
    errors: &mut E,
) -> io::Result<bool>
    ensures { IfOk result (λ b. spec.Writes (source_of settings source.entry.name.now source.entry.text.now) lines part.now b (spec.room (spec.writer (W.contents output.old) (W.contents output.new)) (spec.writer (E.contents errors.old) (E.contents errors.new)) counts.old.of counts.new.of)) }
{
    if part.trim().is_empty() {
        return Ok(true);
    }
    match answer_of(alloc, settings, part) {
        Ok(answer) => {
            counts.add(answer.kind);
            write_line(settings.kinds, answer.line.as_str(), output)?;
            Ok(true)
        }
        Err(e) => {
            write_refusal(alloc, source.name, lines, part, e, errors)?;
            Ok(false)
        }
    }
}

/// What ends an expression.
fn separator(blocks: bool) -> &'static str
    ensures { result.now ≡ spec.separator blocks }
{
    if blocks { "\n\n" } else { "\n" }
}

/// The part before the first separator, and what comes after this separator, if there is one.
fn first_part<'a>(text: &'a str, separator: &str) -> Option<(&'a str, &'a str)>
    ensures { MatchOption result (spec.HasNone separator.now text.now) (λ p. spec.CutsFirst separator.now text.now p.0.now p.1.now) }
{
    text.split_once(separator)
}

/// How many lines end in a text.
fn line_ends(text: &str) -> usize
    ensures { result ≡ spec.line_ends text.now }
{
    text.bytes().filter(|b| *b == b'\n').count()
}

/// Whether both are so.
fn both(first: bool, second: bool) -> bool
    ensures { result ≡ (first && second) }
{
    first && second
}

/// Writes the answers for all expressions of a text, one after the other. The result is whether none was refused.
fn write_text<W: Write, E: Write>(
    alloc: Global,
    settings: Settings,
    source: Source<'_>,
    counts: &mut Counts,
    output: &mut W,
    errors: &mut E,
) -> io::Result<bool>
    ensures { IfOk result (λ b. spec.WritesAll (source_of settings source.entry.name.now source.entry.text.now) b (spec.room (spec.writer (W.contents output.old) (W.contents output.new)) (spec.writer (E.contents errors.old) (E.contents errors.new)) counts.old.of counts.new.of)) }
{
    let end = separator(settings.blocks);
    let mut rest = source.text;
    let mut lines = 0usize;
    let mut all = true;
    'parts: while let Some((part, more)) = first_part(rest, end) {
        let read = write_part(alloc, settings, source, lines, part, counts, output, errors)?;
        all = both(all, read);
        lines = lines.saturating_add(line_ends(part).saturating_add(line_ends(end)));
        rest = more;
    }
    let read = write_part(alloc, settings, source, lines, rest, counts, output, errors)?;
    Ok(both(all, read))
}

/// A line without what is in it, if that is blank.
fn without_blanks(line: &str) -> &str
    ensures { result.now ≡ spec.without_blanks line.now }
{
    if line.trim().is_empty() { "" } else { line }
}

/// Adds a line, or nothing if it is blank.
fn push_unless_blank(text: &mut String, line: &str) -> Result<(), AllocError>
    ensures { OnOk result (string_bytes text.new ≡ string_bytes text.old ++ spec.without_blanks line.now) }
{
    text.push_str(without_blanks(line))?;
    Ok(())
}

/// The same, and its end.
fn push_line(text: &mut String, line: &str) -> Result<(), AllocError>
    ensures { OnOk result (string_bytes text.new ≡ string_bytes text.old ++ spec.without_blanks line.now ++ 10 ∷ []) }
{
    push_unless_blank(text, line)?;
    text.push('\n')?;
    Ok(())
}

/// A text whose blank lines are empty.
fn with_empty_lines(alloc: Global, text: &str) -> Result<String, AllocError>
    ensures { IfOk result (λ s. spec.HasEmptyLines text.now (string_bytes s)) }
{
    let mut emptied = String::new(alloc);
    let mut rest = text;
    'lines: while let Some((line, more)) = first_part(rest, "\n") {
        push_line(&mut emptied, line)?;
        rest = more;
    }
    push_unless_blank(&mut emptied, rest)?;
    Ok(emptied)
}

/// Writes the answers for all expressions of the text of a file. In blocks its blank lines are made empty first, so that a block
/// ends before each of them. The result is whether none was refused.
fn write_source<W: Write, E: Write>(
    alloc: Global,
    settings: Settings,
    source: Source<'_>,
    counts: &mut Counts,
    output: &mut W,
    errors: &mut E,
) -> io::Result<bool>
    ensures { IfOk result (λ b. spec.WritesText settings.blocks (source_of settings source.entry.name.now source.entry.text.now) b (spec.room (spec.writer (W.contents output.old) (W.contents output.new)) (spec.writer (E.contents errors.old) (E.contents errors.new)) counts.old.of counts.new.of)) }
{
    if !settings.blocks {
        return write_text(alloc, settings, source, counts, output, errors);
    }
    let text = with_empty_lines(alloc, source.text)?;
    let emptied = Source {
        name: source.name,
        text: text.as_str(),
    };
    write_text(alloc, settings, emptied, counts, output, errors)
}

/// Writes that a file of this name is no UTF-8.
fn write_not_utf8<E: Write>(alloc: Global, name: &str, errors: &mut E) -> io::Result<()>
    ensures { OnOk result (Appends (E.contents errors.old) (E.contents errors.new) (spec.not_utf8 name.now)) }
{
    let line = format!(in alloc; "{name}: input is not UTF-8\n")?;
    errors.write_all(line.as_str().as_bytes())
}

/// Writes a line for each expression of a file of this name to `output`, or nothing if kinds are counted, and a report for
/// each that was refused to `errors`. If the file is no UTF-8, `errors` says so. The result is whether each expression was
/// read.
pub fn write_file<W: Write, E: Write>(
    alloc: Global,
    settings: Settings,
    name: &str,
    bytes: &[u8],
    counts: &mut Counts,
    output: &mut W,
    errors: &mut E,
) -> io::Result<bool>
    ensures { IfOk result (λ b. spec.WritesFile settings.blocks (source_of settings name.now bytes.now) b (spec.room (spec.writer (W.contents output.old) (W.contents output.new)) (spec.writer (E.contents errors.old) (E.contents errors.new)) counts.old.of counts.new.of)) }
{
    match str::from_utf8(bytes) {
        Ok(text) => {
            let source = Source { name, text };
            write_source(alloc, settings, source, counts, output, errors)
        }
        Err(_) => {
            write_not_utf8(alloc, name, errors)?;
            Ok(false)
        }
    }
}

/// Writes a line for a kind that was counted: how often, and its name.
fn write_count<W: Write>(alloc: Global, count: u64, name: &str, output: &mut W) -> io::Result<()>
    ensures { OnOk result (Appends (W.contents output.old) (W.contents output.new) (spec.count_line count name.now)) }
{
    if count > 0 {
        let line = format!(in alloc; "{count} {name}\n")?;
        output.write_all(line.as_str().as_bytes())?;
    }
    Ok(())
}

/// Writes a line for each kind that was counted, in the order of `names`.
pub fn write_counts<W: Write>(
    alloc: Global,
    counts: &[u64],
    names: &[&str],
    output: &mut W,
) -> io::Result<()>
    ensures { OnOk result (Appends (W.contents output.old) (W.contents output.new) (spec.count_lines counts.now (map (λ n. n.now) names.now))) }
{
    for (name, count) in names.iter().zip(counts) {
        write_count(alloc, *count, name, output)?;
    }
    Ok(())
}
