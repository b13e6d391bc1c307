//! What the program does, over any reader and writers: they are calls, and the contracts tell of each call that is made.

ghost use Rattle.std.specs.Prelude.{◌≡◌, ◌≢◌, ◌⊎◌, ℕ, List, Some, true, IfOk, IfErr, IfSome, string_bytes, chars, vec_items, MatchResult};
ghost use Rattle.std.specs.Str.{IsUtf8};
ghost use Rattle.std.specs.IoError.{error_kind};
ghost use Rattle.std.specs.declared.io.ErrorKind.TheVariants.{OutOfMemory};
ghost use Rattle.syn_expr_core.specs.View.{tree_of};
ghost use Rattle.syn_expr.specs.Texts.{position_of, NothingStands};
ghost use Rattle.syn_expr.specs.Promises.{PrintedAs};
ghost use Rattle.exprfmt_run.specs.Run as spec;
ghost use Rattle.exprfmt_run.specs.Run.{GainsFront};
ghost use Rattle.exprfmt_run.specs.Calls.{reader, writer};
ghost use Rattle.exprfmt_run.specs.FaultView.{outcome_of};
ghost use Rattle.std.specs.Io.KnownBytes.{Appends};

use std::alloc::Global;
use std::fmt::{InlineText, Write as _};
use std::io;
use std::io::{Read, Write};
use syn_expr::print::{Position, print_counted};
use syn_expr::{Expr, flatten_in_place};
use syn_tokens::error::{Error, ErrorKind, Result};
use syn_tokens::parse::parse_str;
use syn_tokens::text::to_text;
use syn_tokens::tree::{Span, TokenStream};

/// The position of this name.
pub fn named(name: &str) -> Option<Position>
    ensures named { (p : Position) → name.now ≡ spec.word p → result ≡ Some p }
    ensures word { IfSome result (λ p. name.now ≡ spec.word p) }
{
    match name {
        "plain" => Some(Position::Plain),
        "stmt" => Some(Position::Stmt),
        "cond" => Some(Position::Cond),
        "arm" => Some(Position::Arm),
        _ => None,
    }
}

/// Whether this is the word by which parentheses are taken away.
pub fn is_bare(word: &str) -> bool
    ensures known { word.now ≡ spec.bare_word → result ≡ true }
    ensures word { result ≡ true → word.now ≡ spec.bare_word }
{
    word == "bare"
}

/// Why nothing was printed.
#[derive(Clone, Copy)]
enum Fault {
    /// The lexer or the reader refused the input, or memory ran out.
    Refused(Error),
    /// The input is no UTF-8.
    NotUtf8,
    /// A read or a write failed.
    Failed,
}

const OUT_OF_MEMORY: Error = Error {
    span: Span { lo: 0, hi: 0 },
    kind: ErrorKind::OutOfMemory,
};

/// Makes of an expression that was read what is printed of it: with `bare` it loses its parentheses.
fn prepare(bare: bool, expr: &mut Expr) -> Result<()>
    ensures tree { IfOk result (λ _. tree_of expr.new ≡ spec.meant bare (tree_of expr.old)) }
    ensures refused { IfErr result (λ e. e.kind ≡ ErrorKind.OutOfMemory) }
{
    if bare {
        flatten_in_place(expr)?;
    }
    Ok(())
}

/// The tokens of the printed expression.
fn printed(alloc: Global, position: Position, expr: &Expr) -> Result<TokenStream>
    ensures value { IfOk result (λ ts. PrintedAs (position_of position) (tree_of expr.now) ts) }
    ensures refused { IfErr result (λ e. e.kind ≡ ErrorKind.OutOfMemory) }
{
    let (tokens, _) = print_counted(alloc, expr, position.fixup())?;
    Ok(tokens)
}

/// The line for a text, with its newline.
fn line_of_text(alloc: Global, position: Position, bare: bool, text: &str) -> Result<String>
    ensures value { IfOk result (λ s. spec.IsLine (position_of position) bare (chars text.now) (string_bytes s)) }
    ensures refused { IfErr result (λ e. (e.kind ≡ ErrorKind.OutOfMemory) ⊎ NothingStands (chars text.now)) }
{
    let mut expr = parse_str::<Expr>(alloc, text)?;
    prepare(bare, &mut expr)?;
    let tokens = printed(alloc, position, &expr)?;
    let mut line = to_text(&tokens)?;
    line.push('\n')?;
    Ok(line)
}

/// The line for an input.
fn line_of(
    alloc: Global,
    position: Position,
    bare: bool,
    bytes: &[u8],
) -> std::result::Result<String, Fault>
    ensures value { IfOk result (λ s. IsUtf8 bytes.now × spec.IsLine (position_of position) bare (chars bytes.now) (string_bytes s)) }
    ensures refused { IfErr result (λ f. spec.Follows (position_of position) bare bytes.now (outcome_of f)) }
{
    let text = match str::from_utf8(bytes) {
        Ok(text) => text,
        Err(_) => return Err(Fault::NotUtf8),
    };
    match line_of_text(alloc, position, bare, text) {
        Ok(line) => Ok(line),
        Err(e) => Err(Fault::Refused(e)),
    }
}

/// The fault of a read that failed.
fn read_fault(e: &io::Error) -> Fault
    ensures memory { error_kind e.now ≡ OutOfMemory → outcome_of result ≡ spec.out_of_memory }
    ensures other { error_kind e.now ≢ OutOfMemory → outcome_of result ≡ spec.failed }
{
    if e.kind() == io::ErrorKind::OutOfMemory {
        Fault::Refused(OUT_OF_MEMORY)
    } else {
        Fault::Failed
    }
}

/// The line for what is read.
fn line_of_rest<R: FnOnce() -> io::Result<Vec<u8>>>(
    alloc: Global,
    position: Position,
    bare: bool,
    read: R,
) -> std::result::Result<String, Fault>
    requires { R.IsAlwaysCallable read }
    ensures value { let input = reader R.FnOnce vec_items read in IfOk result (λ s. (bytes : List ℕ) × input.Gives bytes × IsUtf8 bytes × spec.IsLine (position_of position) bare (chars bytes) (string_bytes s)) }
    ensures refused { let input = reader R.FnOnce vec_items read in IfErr result (λ f. spec.FollowsFrom (position_of position) bare input (outcome_of f)) }
{
    match read() {
        Ok(bytes) => line_of(alloc, position, bare, bytes.as_slice()),
        Err(e) => Err(read_fault(&e)),
    }
}

/// Room for the line of a refusal: the longest text with the greatest places has fewer than 200 bytes. (This bound isn't
/// proved, so the contract of `report` allows for a line that doesn't fit.)
const REFUSAL_SIZE: usize = 256;

/// Writes why nothing was printed. It takes no memory but a room of fixed size: a line that did not fit there would be
/// that of memory that ran out.
fn report<E: FnMut(&[u8]) -> io::Result<()>>(errors: &mut E, fault: Fault)
    requires { E.IsAlwaysCallable errors.old }
    ensures { spec.Reports (outcome_of fault) (writer E.FnMut errors.old errors.new) }
{
    let _ = match fault {
        Fault::Refused(e) => {
            let (lo, hi, kind) = (e.span.lo, e.span.hi, e.kind);
            let mut line = InlineText::<REFUSAL_SIZE>::new();
            match writeln!(line, "refused at {lo}..{hi}: {kind}") {
                Ok(()) => errors(line.as_str().as_bytes()),
                Err(_) => errors(b"refused at 0..0: out of memory\n"),
            }
        }
        Fault::NotUtf8 => errors(b"input is not UTF-8\n"),
        Fault::Failed => errors(b"input or output failed\n"),
    };
}

/// Reads by `read`, which has to answer all bytes of the input, as one expression, and prints it for the position: one line to
/// `output`. With `bare` the expression first loses its parentheses. If nothing can be printed, one line to `errors` says why: the
/// lexer or the reader refused the text, memory ran out, the input is no UTF-8, or a read or a write failed. The result is the
/// status: 0 if the expression was printed, else 1. `read` is called once. `output` is called once, with the whole line, or not at
/// all; and so is `errors`. Whether a call failed is what its own answer said. A run on the printed line, without its line feed,
/// prints the same line, if the input was read as an ordinary tree: one without verbatim tokens and without a path that is `try`.
pub fn run<
    R: FnOnce() -> io::Result<Vec<u8>>,
    W: FnMut(&[u8]) -> io::Result<()>,
    E: FnMut(&[u8]) -> io::Result<()>,
>(alloc: Global, position: Position, bare: bool, read: R, output: &mut W, errors: &mut E) -> u8
    requires input { R.IsAlwaysCallable read }
    requires output { W.IsAlwaysCallable output.old }
    requires errors { E.IsAlwaysCallable errors.old }
    ensures { spec.Ran (position_of position) bare (reader R.FnOnce vec_items read) result (writer W.FnMut output.old output.new) (writer E.FnMut errors.old errors.new) }
{
    let line = match line_of_rest(alloc, position, bare, read) {
        Ok(line) => line,
        Err(fault) => {
            report(errors, fault);
            return 1;
        }
    };
    match output(line.as_bytes()) {
        Ok(()) => 0,
        Err(_) => {
            report(errors, Fault::Failed);
            1
        }
    }
}

/// Writes the line of usage to `errors`. It answers 2, the status of a call with unknown arguments.
pub fn usage<E: FnMut(&[u8]) -> io::Result<()>>(errors: &mut E) -> u8
    requires { E.IsAlwaysCallable errors.old }
    ensures status { result ≡ 2 }
    ensures text { spec.Writes (writer E.FnMut errors.old errors.new) spec.usage }
{
    let _ = errors(b"usage: exprfmt plain|stmt|cond|arm [bare]\n");
    2
}

/// Writes to `errors` why the arguments could not be taken: that memory ran out, with status 1; or the usage, with that
/// of `usage`, where one of them is no UTF-8 and so no word of the program.
pub fn args_failed<E: FnMut(&[u8]) -> io::Result<()>>(errors: &mut E, e: &io::Error) -> u8
    requires { E.IsAlwaysCallable errors.old }
    ensures memory { error_kind e.now ≡ OutOfMemory → (result ≡ 1) × spec.Writes (writer E.FnMut errors.old errors.new) (spec.line spec.out_of_memory) }
    ensures other { error_kind e.now ≢ OutOfMemory → (result ≡ 2) × spec.Writes (writer E.FnMut errors.old errors.new) spec.usage }
{
    if e.kind() == io::ErrorKind::OutOfMemory {
        let _ = errors(b"refused at 0..0: out of memory\n");
        1
    } else {
        usage(errors)
    }
}

/// All bytes that a reader has left.
pub fn read_rest<R: Read>(alloc: Global, reader: &mut R) -> io::Result<Vec<u8>>
    ensures { IfOk result (λ bytes. IfSome (R.remaining reader.old) (λ left. bytes.items ≡ left)) }
{
    let mut bytes = Vec::new(alloc);
    reader.read_to_end(&mut bytes)?;
    Ok(bytes)
}

/// Writes the whole text, as `Write::write_all` does, whose clauses say nothing of a write that failed. A write that
/// was interrupted is tried again. If a write fails, the writer has gained a front of the text, and nothing else.
pub fn write_whole<W: Write>(writer: &mut W, text: &[u8]) -> io::Result<()>
    ensures { MatchResult result (λ _. Appends (W.contents writer.old) (W.contents writer.new) text.now) (λ _. GainsFront (W.contents writer.old) text.now (W.contents writer.new)) }
{
    let mut rest = text;
    // It is bounded, so that it ends even if each write is interrupted.
    'writes: for _ in 0..u64::MAX {
        if rest.is_empty() {
            return Ok(());
        }
        match writer.write(rest) {
            Ok(0) => return Err(io::ErrorKind::WriteZero.into()),
            Ok(n) => rest = &rest[n..],
            Err(e) => {
                if e.kind() != io::ErrorKind::Interrupted {
                    return Err(e);
                }
            }
        }
    }
    Err(io::ErrorKind::Interrupted.into())
}
