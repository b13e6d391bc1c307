//! Whether what a node is but for its operands is read back in its place.

ghost use Rattle.std.specs.Prelude.{◌≡◌};
ghost use Rattle.syn_expr_ast.specs.Node.{braces_of, leaf_of, postfix_of, trailer_of};
ghost use Rattle.syn_expr_ast.specs.View.{turbofish_of};
ghost use Rattle.syn_expr_tokens.specs.View.{member_of};
ghost use Rattle.syn_expr_spec.specs.Tree as e;
ghost use Rattle.syn_expr_spec.specs.WellFormed as spec;
ghost use Rattle.syn_lower.specs.View.{type_of, path_of, qself_or};
ghost use Rattle.syn_lower_leaves.specs.View.{lit_of};
ghost use Rattle.syn_lower_spec.specs.Fits.{arguments_fit, unsigned_fits};
ghost use Rattle.syn_lower_spec.specs.PatFits.{member_fits};
ghost use Rattle.syn_lower_spec.specs.declared.label.PathStyle.TheVariants as style;
ghost use Rattle.syn_lower_spec.specs.Part as part;

use syn_expr_ast::atom::is_word_alone;
use syn_expr_ast::attrs::is_in_order;
use syn_expr_ast::node::{Braces, Leaf, Postfix, Trailer};
use syn_expr_spec::kinds::Infix;
use syn_expr_tokens::limits::RangeLimits;
use syn_expr_tokens::member::Member;
use syn_lexer::front::is_reserved_word;
use syn_lower::lit::Lit;
use syn_lower::path::{AngleBracketedGenericArguments, Path, PathStyle, QSelf};
use syn_lower::qpath_is_read_back;
use syn_tokens::buffer::Token;
use syn_tokens::token::{Not, Pound};
use syn_tokens::tree::TokenStream;

/// Whether a literal is read back, and has no sign: one with a sign is two expressions.
#[tactic(auto, unfolding(syn_lower_spec::specs::Fits::lit_fits))]
fn lit_fits(lit: &Lit) -> bool
    ensures { result ≡ unsigned_fits (lit_of lit.now) }
{
    match lit {
        Lit::Str(x) => x.is_read_back(),
        Lit::ByteStr(x) => x.is_read_back(),
        Lit::CStr(x) => x.is_read_back(),
        Lit::Byte(x) => x.is_read_back(),
        Lit::Char(x) => x.is_read_back(),
        Lit::Int(x) => x.is_read_back(),
        Lit::Float(x) => x.is_read_back(),
        Lit::Bool(x) => x.is_read_back(),
    }
}

/// Whether a path is read back as an expression: `try` alone is not.
pub fn path_fits(qself: &Option<QSelf>, path: &Path) -> bool
    ensures { result ≡ spec.leaf_fits (e.path (qself_or type_of qself.now) (path_of type_of path.now)) }
{
    qpath_is_read_back(qself, path, true) && !is_word_alone(qself, path, "try")
}

/// Whether `#` and `!` come first.
#[tactic(auto, unfolding(syn_tokens::specs::Sign::sign_text, syn_lower_spec::specs::Mark::sign_at))]
fn begins_with_inner(tokens: &TokenStream) -> bool
    ensures { result ≡ part.pound_bang.at tokens.now }
{
    match tokens.trees() {
        [_, more @ ..] => Pound::peek(tokens.trees()) && Not::peek(more),
        [] => false,
    }
}

/// Whether what is in braces is read back: no outer attribute of the node comes after an inner one, and the tokens don't
/// begin as an inner attribute does.
pub fn braces_fit(braces: Braces<'_>) -> bool
    ensures { result ≡ spec.body_fits (braces_of braces.entry) }
{
    is_in_order(braces.attrs) && !begins_with_inner(&braces.block.stmts)
}

/// Whether what holds no expression is read back.
pub fn leaf_fits(leaf: Leaf<'_>) -> bool
    ensures { result ≡ spec.leaf_fits (leaf_of leaf.entry) }
{
    match leaf {
        Leaf::Lit(x) => lit_fits(x),
        Leaf::Path(qself, path) => path_fits(qself, path),
        Leaf::Macro(x) => x.is_read_back(),
        Leaf::Range(limits) => matches!(limits, RangeLimits::HalfOpen(_)),
        Leaf::Block(_, braces) => braces_fit(braces),
        Leaf::Loop(_, _, braces) => braces_fit(braces),
        Leaf::Unsafe(_, braces) => braces_fit(braces),
        Leaf::Const(_, braces) => braces_fit(braces),
        Leaf::Jump(_) => true,
        Leaf::Infer(_) | Leaf::Continue(_, _) | Leaf::Async(_, _, _) | Leaf::TryBlock(_, _) => {
            true
        }
        Leaf::Verbatim(_) => false,
    }
}

/// Whether an operator has an operand on its right: a cast has none.
pub fn infix_fits(op: Infix) -> bool
    ensures { result ≡ spec.infix_fits op }
{
    op != Infix::Cast
}

/// Whether what comes after an operand is read back.
pub fn postfix_fits(postfix: Postfix<'_>) -> bool
    ensures { result ≡ spec.postfix_fits (postfix_of postfix.entry) }
{
    match postfix {
        Postfix::Cast(_, ty) => ty.is_read_back(false),
        Postfix::Range(limits) => matches!(limits, RangeLimits::HalfOpen(_)),
    }
}

/// Whether a member is read back: a name that is no reserved word, and each index.
#[tactic(auto, using(crate::proofs::Indices::indices))]
pub fn member_fits(member: &Member) -> bool
    ensures { result ≡ member_fits (member_of member.now) }
{
    match member {
        Member::Named(name) => !is_reserved_word(name.as_str()),
        Member::Unnamed(index) => {
            prove!(index.index <= u32::MAX);
            true
        }
    }
}

/// Whether the arguments in angle brackets of a method are read back, if it has any.
fn turbofish_fits(turbofish: &Option<AngleBracketedGenericArguments>) -> bool
    ensures { result ≡ arguments_fit style.Expr (turbofish_of turbofish.now) }
{
    match turbofish {
        Some(x) => x.is_read_back(PathStyle::Expr),
        None => true,
    }
}

/// Whether a trailer is read back, but for what it encloses.
pub fn trailer_fits(trailer: Trailer<'_>) -> bool
    ensures { result ≡ spec.trailer_fits (trailer_of trailer.entry) }
{
    match trailer {
        Trailer::Method(_, name, turbofish, _) => {
            !is_reserved_word(name.as_str()) && turbofish_fits(turbofish)
        }
        Trailer::Field(_, member) => member_fits(member),
        Trailer::Call(_) | Trailer::Index(_) | Trailer::Await(_, _) | Trailer::Try(_) => true,
    }
}
