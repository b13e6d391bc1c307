//! Every tree of at most five nodes over two paths, ranges, `return`, `?` and operators of some levels, printed in each
//! position. The printed text is read there as the same tree. Without any one of its pairs of parentheses it is refused or read
//! as another tree, and so it is without all of them, if it has any.

use rows::{rest, with};
use std::alloc::Global;
use std::test::Fail;
use syn_expr::{
    ErrorKind, Expr, ParseBuffer, Position, Result, expr_to_text, flatten, is_well_formed, lex,
    parse_str,
};

/// The trees of one node.
const LEAVES: [&str; 4] = ["a", "b", "..", "return"];

/// What comes before and after an operand that is the only one.
const AROUND_ONE: [(&str, &str); 5] = [
    ("-", ""),
    ("..", ""),
    ("return", ""),
    ("", ".."),
    ("", "?"),
];

/// What is between two operands.
const BETWEEN_TWO: [&str; 6] = ["=", "..", "||", "<", "+", "*"];

/// How many nodes a tree has at most. The tests take seconds as they are built; `rt try --test`, which looks for bad
/// accesses too, wants `--seconds 600` for this many, and no more than its own limit for one node less.
const NODES: usize = 5;

/// How many trees there are by the number of their nodes: of one the leaves; of more 5 for each tree of one node less,
/// and 6 for each two trees that have one node less together.
const COUNTS: [usize; NODES] = [4, 20, 196, 1940, 21508];

/// The texts of the leaves.
fn leaves(alloc: Global) -> Result<Vec<String>> {
    let mut texts = Vec::new(alloc);
    for leaf in LEAVES {
        texts.push(String::from_str(alloc, leaf)?)?;
    }
    Ok(texts)
}

/// Adds the texts of the trees over one of these.
fn push_around(texts: &mut Vec<String>, operands: &[String]) -> Result<()> {
    let alloc = *texts.allocator();
    for operand in operands {
        for (before, behind) in AROUND_ONE {
            texts.push(format!(in alloc; "{before} ({operand}) {behind}")?)?;
        }
    }
    Ok(())
}

/// Adds the texts of the trees over one of `lefts` and one of `rights`.
fn push_between(texts: &mut Vec<String>, lefts: &[String], rights: &[String]) -> Result<()> {
    let alloc = *texts.allocator();
    for left in lefts {
        for right in rights {
            for between in BETWEEN_TWO {
                texts.push(format!(in alloc; "({left}) {between} ({right})")?)?;
            }
        }
    }
    Ok(())
}

/// The texts of the trees of one node more than those given, which are all smaller ones by the number of their nodes.
fn larger(alloc: Global, smaller: &[Vec<String>]) -> Result<Vec<String>> {
    let Some((last, front)) = smaller.split_last() else {
        return leaves(alloc);
    };
    let mut texts = Vec::new(alloc);
    push_around(&mut texts, last)?;
    for (lefts, rights) in front.iter().zip(front.iter().rev()) {
        push_between(&mut texts, lefts, rights)?;
    }
    Ok(texts)
}

/// The texts of all trees, by the number of their nodes, each operand in parentheses.
fn all_texts(alloc: Global) -> Result<Vec<Vec<String>>> {
    let mut all = Vec::new(alloc);
    for _ in 0..NODES {
        all.push(larger(alloc, &all)?)?;
    }
    Ok(all)
}

#[test]
fn no_tree_is_missing(rt: HostRuntime) -> std::result::Result<(), Fail> {
    let all = all_texts(rt.alloc())?;
    assert_eq!(rt; all.len(), NODES);
    for (texts, count) in all.iter().zip(COUNTS) {
        assert_eq!(rt; texts.len(), count);
    }
    Ok(())
}

/// What comes after an expression in a position.
fn behind(position: Position) -> &'static str {
    match position {
        Position::Plain => "",
        Position::Stmt => ";",
        Position::Cond => "{}",
        Position::Arm => ",",
    }
}

/// Whether what was read is this.
fn is_this<T: PartialEq + Drop>(read: Result<T>, this: &T) -> Result<bool> {
    match read {
        Ok(read) => Ok(read == *this),
        Err(e) if e.kind == ErrorKind::OutOfMemory => Err(e),
        Err(_) => Ok(false),
    }
}

/// An expression that was read, without its parentheses.
pub fn flattened(read: Result<Expr>) -> Result<Expr> {
    match read {
        Ok(expr) => flatten(expr),
        Err(e) => Err(e),
    }
}

/// Whether this expression, which has no parentheses, is what a text is read as before what may come after it in a position.
fn is_read_as(alloc: Global, position: Position, text: &str, expr: &Expr) -> Result<bool> {
    let behind = behind(position);
    let tokens = lex(alloc, format!(in alloc; "{text} {behind}")?.as_str())?;
    let mut input = ParseBuffer::new(&tokens)?;
    let is_read = is_this(flattened(position.parse(&mut input)), expr)?;
    Ok(is_read && rest(&input)?.as_str() == behind)
}

/// A text in which one pair of parentheses is replaced by blanks: the pair whose `(` is the character of this number.
fn without_pair(alloc: Global, text: &str, start: usize) -> Result<String> {
    let mut without = String::new(alloc);
    // How many parentheses are open: of the pair, and in it.
    let mut open = 0usize;
    for (number, char) in text.chars().enumerate() {
        let is_in = open > 0;
        if char == '(' && (is_in || number == start) {
            open = open.saturating_add(1);
        } else if char == ')' {
            open = open.saturating_sub(1);
        }
        // The pair begins where none was open before, and ends where none is open any more.
        let is_pair = is_in != (open > 0);
        without.push(if is_pair { ' ' } else { char })?;
    }
    Ok(without)
}

/// Whether an expression is also read from this text of it without one of its pairs. Each was added: no kind here has any.
fn has_spare_pair(alloc: Global, position: Position, text: &str, expr: &Expr) -> Result<bool> {
    for (number, char) in text.chars().enumerate() {
        if char == '(' {
            let without = without_pair(alloc, text, number)?;
            if is_read_as(alloc, position, without.as_str(), expr)? {
                return Ok(true);
            }
        }
    }
    Ok(false)
}

/// Whether this text of an expression is read back, and is not without any of its pairs, nor without all where it has some.
fn is_its_text(alloc: Global, position: Position, text: &str, expr: &Expr) -> Result<bool> {
    let own = text.replace(alloc, '(', " ")?;
    let own = own.as_str().replace(alloc, ')', " ")?;
    let is_bare = own.as_str() == text;
    Ok(
        is_read_as(alloc, position, own.as_str(), expr)? == is_bare
            && is_read_as(alloc, position, text, expr)?
            && !has_spare_pair(alloc, position, text, expr)?,
    )
}

/// Whether the tree of a text is well-formed, and what is printed of it in a position is its text.
fn holds(alloc: Global, position: Position, text: &str) -> Result<bool> {
    with(flattened(parse_str(alloc, text)), |expr| {
        let printed = expr_to_text(alloc, expr, position)?;
        Ok(is_well_formed(expr) && is_its_text(alloc, position, printed.as_str(), expr)?)
    })
}

/// Tries each tree in a position.
fn check_all(alloc: Global, position: Position) -> std::result::Result<(), Fail> {
    for texts in &all_texts(alloc)? {
        for text in texts {
            if !holds(alloc, position, text.as_str())? {
                return Err(Fail::new(format_args!("{text} is not read back, or has a spare pair")));
            }
        }
    }
    Ok(())
}

#[test]
fn plain(rt: HostRuntime) -> std::result::Result<(), Fail> {
    check_all(rt.alloc(), Position::Plain)
}

#[test]
fn statements(rt: HostRuntime) -> std::result::Result<(), Fail> {
    check_all(rt.alloc(), Position::Stmt)
}

#[test]
fn conditions(rt: HostRuntime) -> std::result::Result<(), Fail> {
    check_all(rt.alloc(), Position::Cond)
}

#[test]
fn arms(rt: HostRuntime) -> std::result::Result<(), Fail> {
    check_all(rt.alloc(), Position::Arm)
}
