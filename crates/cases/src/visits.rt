//! Walks, copies and hashes. A walk tells which expressions its function was called with, in order, and where it stopped; one
//! that changes an expression tells the text of the result. A copy equals its original, has the same spans, and prints the same
//! text. A hash ignores spans.

use rows::{hash_of, put, with, words};
use std::alloc::Global;
use std::hash::Hash;
use syn_copy::{copy_arm, copy_expr, copy_pat};
use syn_expr::{Arm, Expr, Parse, Result, ToTokens, parse_str, to_text};
use syn_expr_parse::known::{Held, LetGo};
use syn_visit::{
    any, any_operand, any_operand_with, for_each, for_each_operand, for_each_operand_mut,
    for_each_operand_mut_with, for_each_operand_with, rewrite,
};

/// Appends a mark, the printed text of an expression, and `;`.
fn put_marked(x: &Expr, mark: &&str, out: &mut String) -> Result<()> {
    let alloc = *out.allocator();
    let text = to_text(&x.to_token_stream(alloc)?)?;
    out.push_str(format!(in alloc; "{mark}{text} ; ")?.as_str())?;
    Ok(())
}

/// Appends the printed text of an expression, and `;`.
fn put_one(x: &Expr, out: &mut String) -> Result<()> {
    put_marked(x, &"", out)
}

/// Counts a node, and refuses parentheses.
fn count(x: &Expr, nodes: &mut u32) -> std::result::Result<(), ()> {
    if let Expr::Paren(_) = x {
        return Err(());
    }
    *nodes = nodes.saturating_add(1);
    Ok(())
}

/// How many nodes come before parentheses.
fn counted(alloc: Global, x: &Expr) -> Result<String> {
    let mut nodes = 0u32;
    match for_each(x, &mut nodes, &count) {
        Ok(()) => Ok(format!(in alloc; "{nodes}, to the end")?),
        Err(()) => Ok(format!(in alloc; "{nodes}")?),
    }
}

/// The nodes or the operands of an expression, or how many nodes come before parentheses.
pub fn visit(alloc: Global, of: &str, x: &Expr) -> Result<String> {
    let mut out = String::new(alloc);
    let visited = match of {
        "nodes" => for_each(x, &mut out, &put_one),
        "operands" => for_each_operand(x, &mut out, put_one),
        "operands after =" => for_each_operand_with(x, &"= ", &mut out, put_marked),
        _ => return counted(alloc, x),
    };
    visited?;
    Ok(out)
}

/// Whether an expression is a `?`.
fn is_question(x: &Expr) -> bool {
    matches!(x, Expr::Try(_))
}

/// The same, if it is looked for.
fn is_wanted(x: &Expr, is_looked_for: &bool) -> bool {
    *is_looked_for && is_question(x)
}

/// Whether there is a `?`: at the top of an operand, and anywhere.
pub fn questions(alloc: Global, x: &Expr) -> Result<String> {
    let (on_top, anywhere) = (any_operand(x, is_question), any(x, &is_question));
    if any_operand_with(x, &true, is_wanted) != on_top || any_operand_with(x, &false, is_wanted) {
        return words(alloc, "not the same");
    }
    Ok(format!(in alloc; "{on_top} {anywhere}")?)
}

/// Takes the `mut` from a reference, if it is to be shared, and refuses parentheses.
fn share(x: &mut Expr, is_shared: &bool) -> std::result::Result<(), ()> {
    match x {
        Expr::Reference(x) if *is_shared => {
            x.mutability = None;
            Ok(())
        }
        Expr::Paren(_) => Err(()),
        _ => Ok(()),
    }
}

/// Takes the `mut` from a reference, and refuses parentheses.
fn share_all(x: &mut Expr) -> std::result::Result<(), ()> {
    share(x, &true)
}

/// What is printed of an expression in which references are shared, and where one was refused `refused`.
pub fn changed(alloc: Global, name: &str, of: &str, x: &mut Expr) -> Result<String> {
    let answer = match (name, of) {
        ("rewrite", _) => rewrite(x, &share_all),
        (_, "unshared") => for_each_operand_mut_with(x, &false, share),
        _ => for_each_operand_mut(x, share_all),
    };
    let text = put(alloc, x)?;
    match answer {
        Ok(()) => Ok(text),
        Err(()) => Ok(format!(in alloc; "{text} refused")?),
    }
}

/// What is printed of an expression, and what is shown of it, with all places in it.
fn shown(alloc: Global, expr: &Expr) -> Result<String> {
    let printed = put(alloc, expr)?;
    Ok(format!(in alloc; "{printed} {expr:?}")?)
}

/// Whether a copy equals its original.
fn is_equal<T: LetGo + PartialEq>(copy: Result<Held<T>>, part: &T) -> Result<bool> {
    Ok(copy?.value == *part)
}

/// Whether the copy of an arm equals it, and the copy of its pattern too.
fn is_arm_copied(alloc: Global, arm: &Arm) -> Result<bool> {
    Ok(is_equal(copy_arm(alloc, arm), arm)? && is_equal(copy_pat(alloc, &arm.pat), &arm.pat)?)
}

/// How many arms of a `match` are copied, up to one that isn't.
fn arms_copied(alloc: Global, expr: &Expr) -> Result<String> {
    let mut count = 0u32;
    if let Expr::Match(x) = expr {
        for arm in &x.arms {
            if !is_arm_copied(alloc, arm)? {
                break;
            }
            count = count.saturating_add(1);
        }
    }
    Ok(format!(in alloc; "{count} arms")?)
}

/// Whether an expression is copied, or how many of its arms are.
pub fn copied(alloc: Global, of: &str, expr: &Expr) -> Result<String> {
    if of == "arms" {
        return arms_copied(alloc, expr);
    }
    let is_same = with(copy_expr(alloc, expr), |copy| {
        Ok(copy.expr == *expr && shown(alloc, &copy.expr)? == shown(alloc, expr)?)
    })?;
    words(alloc, if is_same { "the same" } else { "another" })
}

/// The hash of the value that a text is read as, if its printed tokens are read as an equal value with the same hash.
fn steady_hash<T: Parse + ToTokens + Hash + PartialEq + Drop>(
    alloc: Global,
    text: &str,
) -> Result<Option<u64>> {
    let value = parse_str::<T>(alloc, text)?;
    let again = parse_str::<T>(alloc, put(alloc, &value)?.as_str())?;
    let hash = hash_of(&value);
    Ok((again == value && hash_of(&again) == hash).then_some(hash))
}

/// How many texts, each in a line of its own, have hashes of their own, up to one that has none.
pub fn hashed<T: Parse + ToTokens + Hash + PartialEq + Drop>(
    alloc: Global,
    texts: &str,
) -> Result<String> {
    let mut hashes = Vec::new(alloc);
    for text in texts.split('\n') {
        match steady_hash::<T>(alloc, text)? {
            Some(hash) if !hashes.contains(&hash) => hashes.push(hash)?,
            _ => break,
        }
    }
    Ok(format!(in alloc; "{} hashes", hashes.len())?)
}
