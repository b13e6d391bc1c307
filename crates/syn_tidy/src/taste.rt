//! Where people put spaces between tokens. No promise rests on it: a layout has the spaces that it needs, whatever is wanted here.

ghost use Rattle.std.specs.Prelude.{◌≡◌, IfErr};

use std::alloc::Global;
use syn_lexer::front::is_reserved_word;
use syn_tokens::error::ErrorKind;
use syn_tokens::{Delimiter, Result, Spacing, TokenTree};

/// What was walked past last, as far as the next space depends on it.
#[derive(Clone, Copy, PartialEq, Eq)]
enum Last {
    /// What a call or an index follows at once: an operand, but for a block.
    Operand,
    /// A word that begins with a capital letter: generic arguments may follow at once.
    Capital,
    /// A group in braces.
    Braces,
    /// `for`.
    For,
    /// `fn`.
    Fn,
    /// A prefix operator.
    Prefix,
    /// The `#` of an attribute, or `#!`.
    Pound,
    /// The `!` of a macro.
    Bang,
    /// Anything else.
    Other,
}

/// What is known of the trees that were walked past.
#[derive(Clone, Copy)]
struct Walk {
    /// Whether a space is wanted behind the last of them.
    right: bool,
    /// Whether an operand has ended.
    is_ended: bool,
    /// What was last.
    last: Last,
    /// How many trees of the last sign or lifetime are to come.
    inner: usize,
    /// Whether the parameters of a closure are open.
    is_closure: bool,
    /// Whether a type is read.
    is_type: bool,
    /// How many `<` of generic arguments are open.
    open: usize,
    /// At how many open `<` that of a `for` is the last; 0 where none is.
    binder: usize,
    /// How many `>` are to come.
    closing: usize,
    /// Whether a `>` that comes next is that of `->` or `=>`.
    is_arrow: bool,
}

/// The next tree, or the first of the next sign or lifetime.
#[derive(Clone, Copy)]
struct Step {
    /// Whether a space is wanted before it.
    left: bool,
    /// What is known behind it.
    walk: Walk,
}

impl Walk {
    fn new(closing: usize) -> Walk {
        Walk {
            right: false,
            is_ended: false,
            last: Last::Other,
            inner: 0,
            is_closure: false,
            is_type: false,
            open: 0,
            binder: 0,
            closing,
            is_arrow: false,
        }
    }

    /// Behind what ends an operand or not, and wants a space behind it or not.
    fn past(self, is_ended: bool, right: bool, last: Last) -> Walk {
        Walk {
            is_ended,
            right,
            last,
            ..self
        }
    }

    /// Behind a tree, as far as the `>` that are to come go.
    fn counted(self, tree: &TokenTree) -> Walk {
        let is_closing = is_closing(self.is_arrow, tree);
        Walk {
            closing: if is_closing {
                self.closing.saturating_sub(1)
            } else {
                self.closing
            },
            is_arrow: begins_arrow(tree),
            ..self
        }
    }

    /// The step past a tree, with these behind it.
    fn step(self, tree: &TokenTree, behind: &[TokenTree]) -> Step {
        let walk = self.counted(tree);
        if walk.inner > 0 {
            return walk.inside();
        }
        match tree {
            TokenTree::Ident(word) => walk.word(word.as_str()),
            TokenTree::Literal(_) => walk.on(true, true, true, Last::Operand),
            TokenTree::Group(group) => walk.group(group.delimiter),
            TokenTree::Punct(punct) => {
                let second = joined(punct.spacing, behind);
                let third = match behind {
                    [TokenTree::Punct(next), more @ ..] => joined(next.spacing, more),
                    _ => '\0',
                };
                walk.sign(punct.ch, second, third, behind)
            }
        }
    }

    /// The step past one more tree of a sign or lifetime.
    fn inside(self) -> Step {
        Step {
            left: false,
            walk: Walk {
                inner: self.inner.saturating_sub(1),
                ..self
            },
        }
    }

    /// A step past one tree, or past the first of some.
    fn on(self, left: bool, right: bool, is_ended: bool, last: Last) -> Step {
        let left = self.right && left;
        Step {
            left,
            walk: self.past(is_ended, right, last),
        }
    }

    /// The step past the first of so many puncts.
    fn first_of(self, len: usize, left: bool, right: bool, is_ended: bool, last: Last) -> Step {
        let walk = Walk {
            inner: len.saturating_sub(1),
            ..self
        };
        walk.on(left, right, is_ended, last)
    }

    fn typed(self, is_type: bool) -> Walk {
        Walk { is_type, ..self }
    }

    fn word(self, text: &str) -> Step {
        let is_keyword = is_keyword(text) || text == "raw" && self.last == Last::Prefix;
        let walk = self.typed(self.is_type || text == "as");
        walk.on(true, true, !is_keyword, last_of(text, is_keyword))
    }

    /// Whether a group in parentheses or brackets follows at once.
    fn is_called(self) -> bool {
        match self.last {
            Last::Fn | Last::Bang => true,
            Last::Braces => false,
            _ => self.is_ended,
        }
    }

    fn group(self, delimiter: Delimiter) -> Step {
        let is_attribute = self.last == Last::Pound;
        match delimiter {
            Delimiter::Parenthesis | Delimiter::Bracket => {
                let last = if is_attribute {
                    Last::Other
                } else {
                    Last::Operand
                };
                self.on(!self.is_called(), true, !is_attribute, last)
            }
            Delimiter::Brace | Delimiter::None => {
                self.typed(false).on(true, true, true, Last::Braces)
            }
        }
    }

    /// The step past the first punct of a sign. The second and the third are there if they are joint.
    fn sign(self, first: char, second: char, third: char, behind: &[TokenTree]) -> Step {
        let len = sign_len(first, second, third);
        match first {
            '\'' => self.first_of(2, true, true, false, Last::Other),
            '<' if self.opens(second, third) => self.opening(),
            '>' if self.open > 0 => self.closing(),
            '.' | ':' => self.dots(first, len),
            '!' if len == 1 => self.bang(behind),
            '|' if len == 1 => self.bar(),
            '-' | '*' | '&' if !self.is_ended && (len == 1 || second == '&') => {
                self.first_of(len, true, false, false, Last::Prefix)
            }
            '-' if second == '>' => self.typed(true).first_of(2, true, true, false, Last::Other),
            _ if len == 1 => self.single(first),
            _ => self
                .typed(false)
                .first_of(len, true, true, false, Last::Other),
        }
    }

    /// The step past a sign of one punct that is none of the others.
    fn single(self, punct: char) -> Step {
        match punct {
            '$' => self.on(true, false, false, Last::Other),
            '#' => self.on(true, false, false, Last::Pound),
            ',' | ';' => self
                .typed(self.is_type && self.open > 0)
                .on(false, true, false, Last::Other),
            '?' => self.on(!self.is_ended, self.is_ended, self.is_ended, Last::Operand),
            _ => self
                .typed(self.is_type && punct == '+')
                .on(true, true, false, Last::Other),
        }
    }

    /// The step past the first punct of `.`, `..`, `...`, `..=`, `:` or `::`.
    fn dots(self, first: char, len: usize) -> Step {
        if len > 1 {
            self.first_of(len, !self.is_ended, false, false, Last::Other)
        } else if first == '.' {
            self.on(false, false, false, Last::Other)
        } else {
            self.typed(true).on(false, true, false, Last::Other)
        }
    }

    fn bang(self, behind: &[TokenTree]) -> Step {
        match behind {
            _ if self.last == Last::Pound => self.on(true, false, false, Last::Pound),
            [TokenTree::Group(group), ..] if self.is_ended => self.on(
                false,
                group.delimiter == Delimiter::Brace,
                false,
                Last::Bang,
            ),
            _ if self.is_ended => self.on(true, true, false, Last::Other),
            _ => self.on(true, false, false, Last::Prefix),
        }
    }

    fn bar(self) -> Step {
        if self.is_closure {
            let walk = Walk {
                is_closure: false,
                is_type: false,
                ..self
            };
            walk.on(false, true, false, Last::Other)
        } else if self.is_ended {
            self.typed(false).on(true, true, false, Last::Other)
        } else {
            let walk = Walk {
                is_closure: true,
                ..self
            };
            walk.on(true, false, false, Last::Other)
        }
    }

    /// Whether a `<` opens generic arguments or a qualified path.
    fn opens(self, second: char, third: char) -> bool {
        let is_alone = match second {
            '=' | '-' => false,
            '<' => third != '=',
            _ => true,
        };
        let is_open = !self.is_ended || self.is_type || self.last == Last::Capital;
        is_alone && is_open && self.closing > 0
    }

    fn opening(self) -> Step {
        let open = self.open.saturating_add(1);
        let walk = Walk {
            open,
            binder: if self.last == Last::For {
                open
            } else {
                self.binder
            },
            ..self
        };
        let is_head = self.last == Last::For || self.last == Last::Fn;
        walk.on(!self.is_ended && !is_head, false, false, Last::Other)
    }

    fn closing(self) -> Step {
        let is_binder = self.open == self.binder;
        let walk = Walk {
            open: self.open.saturating_sub(1),
            binder: if is_binder { 0 } else { self.binder },
            ..self
        };
        walk.on(false, true, !is_binder, Last::Operand)
    }
}

/// Whether a tree is a `>` and no arrow's.
fn is_closing(is_arrow: bool, tree: &TokenTree) -> bool {
    match tree {
        TokenTree::Punct(punct) => punct.ch == '>' && !is_arrow,
        TokenTree::Group(_) | TokenTree::Ident(_) | TokenTree::Literal(_) => false,
    }
}

/// Whether a `>` behind a tree is that of `->` or `=>`.
fn begins_arrow(tree: &TokenTree) -> bool {
    match tree {
        TokenTree::Punct(punct) => {
            punct.spacing == Spacing::Joint && (punct.ch == '-' || punct.ch == '=')
        }
        TokenTree::Group(_) | TokenTree::Ident(_) | TokenTree::Literal(_) => false,
    }
}

/// The punct behind one with this spacing, if it is joint.
fn joined(spacing: Spacing, behind: &[TokenTree]) -> char {
    match behind {
        [TokenTree::Punct(next), ..] if spacing == Spacing::Joint => next.ch,
        _ => '\0',
    }
}

/// How many puncts the longest sign is that begins with these (Rust Reference, "Punctuation").
fn sign_len(first: char, second: char, third: char) -> usize {
    match (first, second, third) {
        ('.', '.', '.' | '=') | ('<', '<', '=') | ('>', '>', '=') => 3,
        _ if is_sign(first, second) => 2,
        _ => 1,
    }
}

/// Whether two puncts are a sign.
fn is_sign(first: char, second: char) -> bool {
    match first {
        '^' | '*' | '/' | '%' | '+' | '!' => second == '=',
        '&' | '|' => second == '=' || second == first,
        ':' | '.' => second == first,
        '-' => second == '=' || second == '>',
        '=' => second == '=' || second == '>',
        '>' => second == '=' || second == '>',
        '<' => second == '=' || second == '-' || second == '<',
        _ => false,
    }
}

/// Whether a word is a keyword that is no operand.
fn is_keyword(text: &str) -> bool {
    match text {
        "self" | "Self" | "super" | "crate" | "true" | "false" | "await" | "_" => false,
        _ => is_reserved_word(text),
    }
}

fn last_of(text: &str, is_keyword: bool) -> Last {
    match text.as_bytes() {
        b"for" => Last::For,
        b"fn" => Last::Fn,
        _ if is_keyword => Last::Other,
        [first, ..] if first.is_ascii_uppercase() => Last::Capital,
        _ => Last::Operand,
    }
}

/// How many `>` there are that are no arrow's.
fn closing_count(trees: &[TokenTree]) -> usize {
    let mut count: usize = 0;
    let mut is_arrow = false;
    for tree in trees {
        if is_closing(is_arrow, tree) {
            count = count.saturating_add(1);
        }
        is_arrow = begins_arrow(tree);
    }
    count
}

/// Whether people put a space before each of these trees.
pub fn wanted(alloc: Global, trees: &[TokenTree]) -> Result<Vec<bool>>
    ensures { IfErr result (λ e. e.kind ≡ ErrorKind.OutOfMemory) }
{
    let mut spaces = Vec::new(alloc);
    let mut walk = Walk::new(closing_count(trees));
    let mut rest = trees;
    while let [tree, behind @ ..] = rest {
        let step = walk.step(tree, behind);
        spaces.push(step.left)?;
        walk = step.walk;
        rest = behind;
    }
    Ok(spaces)
}
