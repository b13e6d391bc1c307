//! Expressions that makers make.
//!
//! A text is makers in their order. A maker takes its operands from the end of what was made before it: for a list all that is
//! left, and one that may be left out if there is one. Behind a colon is what it takes that isn't made. A word that is no maker
//! is a name.

use rows::put;
use std::alloc::Global;
use std::mem::replace;
use syn_expr_ast::alone::IsExpr;
use syn_expr_ast::structure::FieldValueOf;
use syn_expr_make as make;
use syn_expr_make::{ArmIn, Held, HoldsExpr, PatIn};
use syn_expr_parse::known::LetGo;
use syn_pat::kinds::IsPat;
use syn_tokens::{Error, ErrorKind, Parse, ParseBuffer, Result, Span, ToTokens, TokenStream, lex};

/// What was made so far, of a type that holds expressions.
#[derive(Drop)]
struct Made<H: HoldsExpr + Drop>
where
    PatIn<H>: IsPat + LetGo,
    ArmIn<H>: LetGo,
    H::Expr: LetGo,
{
    alloc: Global,
    exprs: Vec<H>,
    pats: Vec<Held<PatIn<H>>>,
    arms: Vec<Held<ArmIn<H>>>,
    fields: Vec<Held<FieldValueOf<H::Expr>>>,
}

/// What is in the braces of each block.
fn stmts(alloc: Global) -> Result<TokenStream> {
    lex(alloc, "x; y")
}

/// The `T` that a text begins with.
// Unlike `parse_str` it asks for no `T` that may be dropped: a program that drops a type or a path proves the drop of all
// that is in one.
fn read<T: Parse>(alloc: Global, text: &str) -> Result<T> {
    let tokens = lex(alloc, text)?;
    T::parse(&mut ParseBuffer::new(&tokens)?)
}

/// The last of what was made, which is taken.
fn last<T: Drop>(made: &mut Vec<T>) -> Result<T> {
    match made.pop() {
        Some(x) => Ok(x),
        None => Err(Error::new(Span::call_site(), ErrorKind::ExpectedExpression)),
    }
}

/// All of what was made, which is taken.
fn all<T: Drop>(made: &mut Vec<T>) -> Vec<T> {
    let empty = Vec::new(*made.allocator());
    replace(made, empty)
}

impl<H: HoldsExpr + Drop> Made<H>
where
    PatIn<H>: IsPat + LetGo,
    ArmIn<H>: LetGo,
{
    /// The last expression, which is taken.
    fn expr(&mut self) -> Result<H> {
        last(&mut self.exprs)
    }

    /// Makes what a word says.
    fn make(&mut self, word: &str) -> Result<()> {
        let (maker, argument) = word.split_once(':').unwrap_or((word, ""));
        match maker {
            "arm" => {
                let arm = make::arm(self.alloc, last(&mut self.pats)?, self.expr()?)?;
                Ok(self.arms.push(arm)?)
            }
            "field_value" => {
                let (name, value) = (read(self.alloc, argument)?, self.expr()?);
                let field = make::field_value(self.alloc, name, value);
                Ok(self.fields.push(field)?)
            }
            "guarded" | "ident_pat" | "tuple_struct_pat" | "wild_pat" => {
                let pat = self.pat(maker, argument)?;
                Ok(self.pats.push(pat)?)
            }
            _ => {
                let expr = self.of_lists(maker, argument)?;
                Ok(self.exprs.push(expr)?)
            }
        }
    }

    /// Makes a pattern.
    fn pat(&mut self, maker: &str, argument: &str) -> Result<Held<PatIn<H>>> {
        let alloc = self.alloc;
        match maker {
            "guarded" => make::guarded(alloc, last(&mut self.pats)?, self.expr()?),
            "ident_pat" => make::ident_pat(alloc, argument),
            "wild_pat" => Ok(make::wild_pat(alloc)),
            _ => make::tuple_struct_pat(alloc, read(alloc, argument)?, all(&mut self.pats)),
        }
    }

    /// Makes what has a list in it, or something else.
    fn of_lists(&mut self, maker: &str, argument: &str) -> Result<H> {
        let alloc = self.alloc;
        match maker {
            "array" => make::array(alloc, all(&mut self.exprs)),
            "tuple" => make::tuple(alloc, all(&mut self.exprs)),
            "struct_expr" => {
                let path = read(alloc, argument)?;
                make::struct_expr(alloc, path, all(&mut self.fields), self.exprs.pop())
            }
            "call" => make::call(alloc, self.expr()?, all(&mut self.exprs)),
            "closure" => {
                make::closure(alloc, argument == "move", all(&mut self.pats), self.expr()?)
            }
            "match_expr" => make::match_expr(alloc, self.expr()?, all(&mut self.arms)),
            "method_call" => {
                make::method_call(alloc, self.expr()?, argument, all(&mut self.exprs))
            }
            _ => self.of_options(maker, argument),
        }
    }

    /// Makes what has something in it that may be left out, or something else.
    fn of_options(&mut self, maker: &str, argument: &str) -> Result<H> {
        let alloc = self.alloc;
        match maker {
            "break_expr" => make::break_expr(alloc, self.exprs.pop()),
            "return_expr" => make::return_expr(alloc, self.exprs.pop()),
            "yield_expr" => make::yield_expr(alloc, self.exprs.pop()),
            "if_expr" => { make::if_expr(alloc, self.expr()?, stmts(alloc)?, self.exprs.pop()) }
            "range" => {
                let (limits, end) = (read(alloc, argument)?, self.exprs.pop());
                make::range(alloc, self.exprs.pop(), limits, end)
            }
            "range_from" => { make::range(alloc, self.exprs.pop(), read(alloc, argument)?, None) }
            _ => self.of_operands(maker, argument),
        }
    }

    /// Makes what has one or two operands or an operand and a pattern in it, or something else.
    fn of_operands(&mut self, maker: &str, argument: &str) -> Result<H> {
        let alloc = self.alloc;
        match maker {
            "for_loop" => {
                make::for_loop(alloc, last(&mut self.pats)?, self.expr()?, stmts(alloc)?)
            }
            "let_expr" => make::let_expr(alloc, last(&mut self.pats)?, self.expr()?),
            "binary" => {
                let right = self.expr()?;
                make::binary(alloc, self.expr()?, read(alloc, argument)?, right)
            }
            "assign" | "index" | "repeat" => {
                let right = self.expr()?;
                of_two(alloc, maker, self.expr()?, right)
            }
            "await_expr"
            | "cast"
            | "field"
            | "group"
            | "paren"
            | "raw_addr"
            | "reference"
            | "try_expr"
            | "unary"
            | "while_expr" => { of_one(alloc, maker, argument, self.expr()?) }
            _ => of_tokens(alloc, maker, argument),
        }
    }
}

/// Makes what has two operands.
fn of_two<H: HoldsExpr + Drop>(alloc: Global, maker: &str, left: H, right: H) -> Result<H> {
    match maker {
        "assign" => make::assign(alloc, left, right),
        "index" => make::index(alloc, left, right),
        _ => make::repeat(alloc, left, right),
    }
}

/// Makes what has one operand.
fn of_one<H: HoldsExpr + Drop>(alloc: Global, maker: &str, argument: &str, x: H) -> Result<H> {
    match maker {
        "await_expr" => make::await_expr(alloc, x),
        "cast" => make::cast(alloc, x, read(alloc, argument)?),
        "field" => make::field(alloc, x, read(alloc, argument)?),
        "group" => make::group(alloc, x),
        "paren" => make::paren(alloc, x),
        "raw_addr" => make::raw_addr(alloc, argument == "mut", x),
        "reference" => make::reference(alloc, argument == "mut", x),
        "try_expr" => make::try_expr(alloc, x),
        "unary" => make::unary(alloc, read(alloc, argument)?, x),
        _ => make::while_expr(alloc, x, stmts(alloc)?),
    }
}

/// Makes what has tokens alone, a literal, a block or a name.
fn of_tokens<H: HoldsExpr + Drop>(alloc: Global, maker: &str, argument: &str) -> Result<H> {
    match maker {
        "lit" => Ok(make::lit(alloc, read(alloc, argument)?)),
        "lit_bool" => make::lit_bool(alloc, true),
        "lit_char" => make::lit_char(alloc, '\''),
        "lit_float" => make::lit_float(alloc, argument),
        "lit_int" => make::lit_int(alloc, argument),
        "lit_str" if argument == "escapes" => make::lit_str(alloc, "say \"hi\"\t\\ \n日本"),
        "lit_str" => make::lit_str(alloc, argument),
        "mac" => Ok(make::mac(alloc, read(alloc, argument)?)),
        "path" => Ok(make::path(alloc, read(alloc, argument)?)),
        "continue_expr" => Ok(make::continue_expr(alloc)),
        "infer" => Ok(make::infer(alloc)),
        "async_block" => Ok(make::async_block(alloc, argument == "move", stmts(alloc)?)),
        "block" => Ok(make::block(alloc, stmts(alloc)?)),
        "const_block" => Ok(make::const_block(alloc, stmts(alloc)?)),
        "loop_expr" => Ok(make::loop_expr(alloc, stmts(alloc)?)),
        "try_block" => Ok(make::try_block(alloc, stmts(alloc)?)),
        "unsafe_block" => Ok(make::unsafe_block(alloc, stmts(alloc)?)),
        "verbatim" => Ok(make::verbatim(stmts(alloc)?)),
        _ => make::name(alloc, maker),
    }
}

/// What is printed of the last expression that the words of a text make.
pub fn answer<H: HoldsExpr + ToTokens + Drop>(alloc: Global, text: &str) -> Result<String>
where
    PatIn<H>: IsPat + LetGo,
    ArmIn<H>: LetGo,
{
    let mut made: Made<H> = Made {
        alloc,
        exprs: Vec::new(alloc),
        pats: Vec::new(alloc),
        arms: Vec::new(alloc),
        fields: Vec::new(alloc),
    };
    for word in text.split_whitespace() {
        made.make(word)?;
    }
    put(alloc, &made.expr()?)
}
