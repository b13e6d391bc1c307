//! Where in a text an offset is.

ghost use Rattle.std.specs.Prelude.{◌≡◌, ◌+◌, ◌<◌, ◌≤◌, ◌^◌, length, chars, if◌then◌else◌};
ghost use Rattle.std.specs.List.{suffix_len};
ghost use Rattle.syn_report.specs.Place as spec;

/// A line and a column of a text, as proc_macro2's `LineColumn` counts them.
#[derive(Clone, Copy, Debug, PartialEq, Eq, PartialOrd, Ord, Hash)]
pub struct LineColumn {
    /// The line, from 1. A line ends with `\n`, and so with `\r\n` too.
    pub line: usize,
    /// The column, from 0: how many characters come before it on the line. Each counts as one, also a tab, a wide
    /// character and a `\r`.
    pub column: usize,
}

impl LineColumn {
    /// The line and the column of a place in a text. `offset` counts the bytes before it. An offset inside of a character
    /// counts as the start of that character, one past the end of the text as its end.
    pub fn of(text: &str, offset: usize) -> LineColumn
        ensures at { result ≡ spec.line_column offset (chars text.now) }
        ensures fits { result.column ≤ length text.now }
    {
        Place::of(text, offset).at
    }
}

/// An offset in a text.
#[derive(Clone, Copy)]
pub(crate) struct Place<'a> {
    /// Its line and column.
    pub(crate) at: LineColumn,
    /// The text from the start of its line on.
    pub(crate) line: &'a str,
    /// The text after it.
    pub(crate) behind: &'a str,
    /// How many characters are before it.
    pub(crate) count: usize,
    /// How many characters of an operator are right before it.
    pub(crate) joined: usize,
}

/// Whether an operator may have a character (Rust Reference, "Operator expressions"). `/` is left out, since a comment may follow
/// an operator at once.
pub(crate) fn is_operator(c: char) -> bool
    ensures { result ≡ spec.is_operator c }
{
    matches!(
        c,
        '+' | '-' | '*' | '%' | '^' | '!' | '&' | '|' | '=' | '<' | '>'
    )
}

impl<'a> Place<'a> {
    /// The place after a character, which has this text after it.
    fn after(&self, c: char, behind: &'a str) -> Place<'a>
        requires lines { self.now.at.line + 1 < 2 ^ 64 }
        requires columns { self.now.at.column + 1 < 2 ^ 64 }
        requires count { self.now.count + 1 < 2 ^ 64 }
        requires joined { self.now.joined + 1 < 2 ^ 64 }
        ensures line_number { result.at.line ≡ (if spec.ends_line c then self.now.at.line + 1 else self.now.at.line) }
        ensures column { result.at.column ≡ (if spec.ends_line c then 0 else self.now.at.column + 1) }
        ensures line { result.line.now ≡ (if spec.ends_line c then result.behind.now else self.now.line.now) }
        ensures behind { result.behind.now ≡ behind.now }
        ensures count { result.count ≡ self.now.count + 1 }
        ensures joined { result.joined ≡ (if spec.is_operator c then self.now.joined + 1 else 0) }
    {
        let LineColumn { line, column } = self.at;
        let count = self.count + 1;
        let joined = if is_operator(c) { self.joined + 1 } else { 0 };
        if c == '\n' {
            Place {
                at: LineColumn {
                    line: line + 1,
                    column: 0,
                },
                line: behind,
                behind,
                count,
                joined,
            }
        } else {
            Place {
                at: LineColumn {
                    line,
                    column: column + 1,
                },
                line: self.line,
                behind,
                count,
                joined,
            }
        }
    }

    /// The place of an offset, which counts bytes.
    pub(crate) fn of(text: &'a str, offset: usize) -> Place<'a>
        ensures at { result.at ≡ spec.line_column offset (chars text.now) }
        ensures line { chars result.line.now ≡ spec.from_line offset (chars text.now) }
        ensures behind { chars result.behind.now ≡ spec.behind offset (chars text.now) }
        ensures count { result.count ≡ length (spec.before offset (chars text.now)) }
        ensures joined { result.joined ≡ suffix_len spec.is_operator (spec.before offset (chars text.now)) }
        ensures fits { result.at.column ≤ length text.now }
    {
        let mut place = Place {
            at: LineColumn { line: 1, column: 0 },
            line: text,
            behind: text,
            count: 0,
            joined: 0,
        };
        let mut left = offset;
        let mut chars = text.chars();
        while let Some(c) = chars.next() {
            let width = c.len_utf8();
            if width > left {
                return place;
            }
            left -= width;
            place = place.after(c, chars.as_str());
        }
        place
    }
}
