//! Each kind of expression read by itself and printed by itself. Parts of expressions: members, indices, labels, modifiers and
//! pieces. And an expression inside of parentheses, where it is refused.

use rows::groups::{printed, then, tokens_of};
use rows::{left_behind, of_front, put, put_by, put_read, words};
use std::alloc::Global;
use syn_expr::{
    Expr, Index, Label, Member, Parse, ParseBuffer, Result, ToTokens, TokenStream, lex, parse_str,
};

/// What is printed of the `T` that a text begins with, as an expression, and after `then` what is left.
fn read<T: Parse>(alloc: Global, text: &str) -> Result<String>
where
    Expr: From<T>,
{
    let tokens = tokens_of(alloc, text)?;
    let mut input = ParseBuffer::new(&tokens)?;
    let read = match T::parse(&mut input) {
        Ok(kind) => Ok(Expr::from(kind)),
        Err(e) => Err(e),
    };
    of_front(&tokens, &input, read, |expr| {
        then(printed(alloc, expr), &input)
    })
}

/// What a read of the kind of this name answers.
pub fn alone(alloc: Global, of: &str, text: &str) -> Result<String> {
    macro_rules! by_name {
        ($($kind:ident)*) => {
            match of {
                $(stringify!($kind) => read::<syn_expr::$kind>(alloc, text),)*
                _ => words(alloc, "no such kind"),
            }
        };
    }
    by_name!(
        ExprArray ExprAssign ExprAsync ExprAwait ExprBinary ExprBlock ExprBreak ExprCall ExprCast
        ExprClosure ExprConst ExprContinue ExprField ExprForLoop ExprIf ExprIndex ExprInfer ExprLet
        ExprLit ExprLoop ExprMacro ExprMatch ExprMethodCall ExprParen ExprPath ExprRange ExprRawAddr
        ExprReference ExprRepeat ExprReturn ExprStruct ExprTry ExprTryBlock ExprTuple ExprUnary
        ExprUnsafe ExprWhile ExprYield
    )
}

/// Whether a member is a name.
pub fn member(alloc: Global, text: &str) -> Result<String> {
    let is_named = parse_str::<Member>(alloc, text)?.is_named();
    words(alloc, if is_named { "a name" } else { "an index" })
}

/// What is printed of the index that is made of a number, and where it is: it has to be the one that the text is read as.
pub fn index(alloc: Global, text: &str) -> Result<String> {
    let number = text.parse::<usize>().unwrap_or(0);
    if !Index::fits(number) {
        return words(alloc, "does not fit");
    }
    let (index, member) = (Index::from_usize(number), Member::from_usize(number));
    let is_index = parse_str::<Index>(alloc, text)? == index;
    if member.is_named() || !is_index || parse_str::<Member>(alloc, text)? != member {
        return words(alloc, "another index");
    }
    let (printed, span) = (put(alloc, &member)?, index.span);
    Ok(format!(in alloc; "{printed} at {}..{}", span.lo, span.hi)?)
}

/// Whether an expression has no modifiers.
pub fn modifiers(alloc: Global, expr: &Expr) -> Result<String> {
    let asked = match expr {
        Expr::Closure(x) => x.modifiers.require_empty(),
        Expr::Async(x) => x.modifiers.require_empty(),
        Expr::Const(x) => x.modifiers.require_empty(),
        Expr::TryBlock(x) => x.modifiers.require_empty(),
        _ => Ok(()),
    };
    asked?;
    words(alloc, "none")
}

/// Prints an expression by the printer of its kind.
fn put_kind(expr: &Expr, tokens: &mut TokenStream) -> Result<()> {
    macro_rules! each {
        ($($kind:ident)*) => {
            match expr {
                $(Expr::$kind(x) => x.to_tokens(tokens),)*
            }
        };
    }
    each!(
        Array Assign Async Await Binary Block Break Call Cast Closure Const Continue Field ForLoop
        Group If Index Infer Let Lit Loop Macro Match MethodCall Paren Path Range RawAddr Reference
        Repeat Return Struct Try TryBlock Tuple Unary Unsafe Verbatim While Yield
    )
}

/// The printed text of an expression's struct, as of the `ExprBinary` in an `Expr::Binary`. It has to be that of the `Expr`.
pub fn same_kind(alloc: Global, expr: &Expr) -> Result<String> {
    let kind = put_by(alloc, |tokens| put_kind(expr, tokens))?;
    if kind == put(alloc, expr)? {
        Ok(kind)
    } else {
        words(alloc, "the expression is printed as another")
    }
}

/// Puts the arms or the fields that an expression has.
pub fn put_pieces(expr: &Expr, tokens: &mut TokenStream) -> Result<()> {
    match expr {
        Expr::Match(x) => {
            for arm in &x.arms {
                arm.to_tokens(tokens)?;
            }
        }
        Expr::Struct(x) => {
            for field in &x.fields {
                field.to_tokens(tokens)?;
            }
        }
        _ => {}
    }
    Ok(())
}

/// Why the expression is refused that a text has in parentheses, read by itself there.
pub fn inside(alloc: Global, text: &str) -> Result<String> {
    let tokens = lex(alloc, text)?;
    let mut input = ParseBuffer::new(&tokens)?;
    let (_, mut content) = input.parse_parens()?;
    put_read(alloc, content.parse::<Expr>())
}

/// What is left behind the label that a text may begin with.
pub fn behind_label(alloc: Global, text: &str) -> Result<String> {
    let tokens = lex(alloc, text)?;
    let mut input = ParseBuffer::new(&tokens)?;
    let read = Label::parse_optional(&mut input);
    left_behind(&tokens, &input, read)
}
