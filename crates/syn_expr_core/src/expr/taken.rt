//! An expression taken apart by its kind, for what takes one kind out of it.

ghost use Rattle.std.specs.Prelude.{◌≡◌, Some};
ghost use Rattle.syn_expr_core.specs.Taken.{nothing, taken_of};

use crate::expr::{
    Expr, ExprArray, ExprAssign, ExprAwait, ExprBinary, ExprBreak, ExprCall, ExprCast, ExprClosure,
    ExprField, ExprForLoop, ExprIf, ExprIndex, ExprLet, ExprMatch, ExprMethodCall, ExprParen,
    ExprRange, ExprRawAddr, ExprRepeat, ExprReturn, ExprTry, ExprTuple, ExprUnary, ExprWhile,
    ExprYield,
};

/// An expression taken apart: the struct of its kind in the place for it, and nothing in the others.
// One match for all kinds: a match by value that takes one variant is dear to prove, since it says of each other one what is left.
#[derive(Drop)]
pub(crate) struct Taken {
    pub(crate) array: Option<ExprArray>,
    pub(crate) assign: Option<ExprAssign>,
    pub(crate) await_expr: Option<ExprAwait>,
    pub(crate) binary: Option<ExprBinary>,
    pub(crate) break_expr: Option<ExprBreak>,
    pub(crate) call: Option<ExprCall>,
    pub(crate) cast: Option<ExprCast>,
    pub(crate) closure: Option<ExprClosure>,
    pub(crate) field: Option<ExprField>,
    pub(crate) for_loop: Option<ExprForLoop>,
    pub(crate) if_expr: Option<ExprIf>,
    pub(crate) index: Option<ExprIndex>,
    pub(crate) let_expr: Option<ExprLet>,
    pub(crate) match_expr: Option<ExprMatch>,
    pub(crate) method_call: Option<ExprMethodCall>,
    pub(crate) paren: Option<ExprParen>,
    pub(crate) range: Option<ExprRange>,
    pub(crate) raw_addr: Option<ExprRawAddr>,
    pub(crate) repeat: Option<ExprRepeat>,
    pub(crate) return_expr: Option<ExprReturn>,
    pub(crate) try_expr: Option<ExprTry>,
    pub(crate) tuple: Option<ExprTuple>,
    pub(crate) unary: Option<ExprUnary>,
    pub(crate) while_expr: Option<ExprWhile>,
    pub(crate) yield_expr: Option<ExprYield>,
    pub(crate) another: Option<Expr>,
}

impl Taken {
    fn nothing() -> Taken
        ensures { result ≡ nothing }
    {
        Taken {
            array: None,
            assign: None,
            await_expr: None,
            binary: None,
            break_expr: None,
            call: None,
            cast: None,
            closure: None,
            field: None,
            for_loop: None,
            if_expr: None,
            index: None,
            let_expr: None,
            match_expr: None,
            method_call: None,
            paren: None,
            range: None,
            raw_addr: None,
            repeat: None,
            return_expr: None,
            try_expr: None,
            tuple: None,
            unary: None,
            while_expr: None,
            yield_expr: None,
            another: None,
        }
    }

    /// An expression of a kind that has no place.
    fn another(x: Expr) -> Taken
        ensures { result ≡ record nothing { another = Some x } }
    {
        Taken {
            another: Some(x),
            ..Taken::nothing()
        }
    }
}

impl Expr {
    /// It taken apart.
    #[tactic(auto, using(crate::proofs::Node::outs))]
    pub(crate) fn taken(self) -> Taken
        ensures { result ≡ taken_of self }
    {
        match self {
            Expr::Array(x) => Taken {
                array: Some(x),
                ..Taken::nothing()
            },
            Expr::Assign(x) => Taken {
                assign: Some(x),
                ..Taken::nothing()
            },
            Expr::Async(x) => Taken::another(Expr::Async(x)),
            Expr::Await(x) => Taken {
                await_expr: Some(x),
                ..Taken::nothing()
            },
            Expr::Binary(x) => Taken {
                binary: Some(x),
                ..Taken::nothing()
            },
            Expr::Block(x) => Taken::another(Expr::Block(x)),
            Expr::Break(x) => Taken {
                break_expr: Some(x),
                ..Taken::nothing()
            },
            Expr::Call(x) => Taken {
                call: Some(x),
                ..Taken::nothing()
            },
            Expr::Cast(x) => Taken {
                cast: Some(x),
                ..Taken::nothing()
            },
            Expr::Closure(x) => Taken {
                closure: Some(x),
                ..Taken::nothing()
            },
            Expr::Const(x) => Taken::another(Expr::Const(x)),
            Expr::Continue(x) => Taken::another(Expr::Continue(x)),
            Expr::Field(x) => Taken {
                field: Some(x),
                ..Taken::nothing()
            },
            Expr::ForLoop(x) => Taken {
                for_loop: Some(x),
                ..Taken::nothing()
            },
            Expr::Group(x) => Taken::another(Expr::Group(x)),
            Expr::If(x) => Taken {
                if_expr: Some(x),
                ..Taken::nothing()
            },
            Expr::Index(x) => Taken {
                index: Some(x),
                ..Taken::nothing()
            },
            Expr::Infer(x) => Taken::another(Expr::Infer(x)),
            Expr::Let(x) => Taken {
                let_expr: Some(x),
                ..Taken::nothing()
            },
            Expr::Lit(x) => Taken::another(Expr::Lit(x)),
            Expr::Loop(x) => Taken::another(Expr::Loop(x)),
            Expr::Macro(x) => Taken::another(Expr::Macro(x)),
            Expr::Match(x) => Taken {
                match_expr: Some(x),
                ..Taken::nothing()
            },
            Expr::MethodCall(x) => Taken {
                method_call: Some(x),
                ..Taken::nothing()
            },
            Expr::Paren(x) => Taken {
                paren: Some(x),
                ..Taken::nothing()
            },
            Expr::Path(x) => Taken::another(Expr::Path(x)),
            Expr::Range(x) => Taken {
                range: Some(x),
                ..Taken::nothing()
            },
            Expr::RawAddr(x) => Taken {
                raw_addr: Some(x),
                ..Taken::nothing()
            },
            Expr::Reference(x) => Taken::another(Expr::Reference(x)),
            Expr::Repeat(x) => Taken {
                repeat: Some(x),
                ..Taken::nothing()
            },
            Expr::Return(x) => Taken {
                return_expr: Some(x),
                ..Taken::nothing()
            },
            Expr::Struct(x) => Taken::another(Expr::Struct(x)),
            Expr::Try(x) => Taken {
                try_expr: Some(x),
                ..Taken::nothing()
            },
            Expr::TryBlock(x) => Taken::another(Expr::TryBlock(x)),
            Expr::Tuple(x) => Taken {
                tuple: Some(x),
                ..Taken::nothing()
            },
            Expr::Unary(x) => Taken {
                unary: Some(x),
                ..Taken::nothing()
            },
            Expr::Unsafe(x) => Taken::another(Expr::Unsafe(x)),
            Expr::While(x) => Taken {
                while_expr: Some(x),
                ..Taken::nothing()
            },
            Expr::Yield(x) => Taken {
                yield_expr: Some(x),
                ..Taken::nothing()
            },
            Expr::Verbatim(x) => Taken::another(Expr::Verbatim(x)),
        }
    }
}
