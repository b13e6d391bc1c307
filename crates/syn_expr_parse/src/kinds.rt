//! What the readers of the kinds of expressions ask of the types of expressions and of patterns.

ghost use Rattle.std.specs.Prelude.{◌≡◌, ◌≤◌, IfOk, [], MatchResult, true, false};
ghost use Rattle.syn_expr_parse.specs.Kind.{is_path};
ghost use Rattle.syn_expr_ast.specs.Attrs.{attrs_of};
ghost use Rattle.syn_expr_spec.specs.Stands.{holds_block, is_attributed, is_verbatim};
ghost use Rattle.syn_expr_spec.specs.Tree as e;
ghost use Rattle.syn_lower.specs.View.{path_of, qself_or, type_of};
ghost use Rattle.syn_lower_leaves.specs.Reads.{Reads};
ghost use Rattle.syn_lower_spec.specs.Pat as pat;
ghost use Rattle.syn_lower_spec.specs.PatFits.{attributes_outer};
ghost use Rattle.syn_tokens.specs.Tok.{weight};

use crate::known::LetGo;
use std::alloc::AllocError;
use syn_expr_ast::alone::IsExpr;
use syn_expr_ast::node::{HasKind, HasNode};
use syn_lower::path::{Path, QSelf};
use syn_lower_leaves::attr::Attribute;
use syn_pat::kinds::HasPatTree;
use syn_tokens::buffer::ParseBuffer;
use syn_tokens::error::Result;
use syn_tokens::tree::TokenStream;

/// The type of patterns: it has readers. What they read holds no guard.
pub trait ReadPats: HasPatTree + LetGo {
    /// Reads a pattern; after it there may be `|` and more, or one alone.
    fn read_pattern(input: &mut ParseBuffer<'_>, multi: bool) -> Result<Self>
        ensures value { Reads (λ x. (Self.view x).tree) ((pat.pattern multi).reads input.old.rest) result input.new.rest }
        ensures unguarded { IfOk result (λ x. (Self.view x).guards ≡ []) }
        ensures noted { input.new.noted ≡ input.old.noted }
        ensures shrinks { weight input.new.rest ≤ weight input.old.rest };

    /// Reads the argument of a closure.
    fn read_closure_arg(input: &mut ParseBuffer<'_>) -> Result<Self>
        ensures value { Reads (λ x. (Self.view x).tree) (pat.closure_arg.reads input.old.rest) result input.new.rest }
        ensures unguarded { IfOk result (λ x. (Self.view x).guards ≡ []) }
        ensures noted { input.new.noted ≡ input.old.noted }
        ensures shrinks { weight input.new.rest ≤ weight input.old.rest };
}

/// The type of expressions: one is made of each kind, and is asked for its kind, its tokens and its path, and given
/// attributes.
pub trait ReadExprs: IsExpr + HasNode + HasKind + LetGo {
    /// Whether it is like a block, or what holds one in invisible groups is: where it is the whole of a statement or of an arm's
    /// body, no operator goes on it (Rust Reference, "Expression statements").
    fn holds_block(&self) -> bool
        ensures { result ≡ holds_block (Self.tree self.now) };

    /// The verbatim tokens, where it is of these; else it is given back.
    fn into_verbatim(self) -> std::result::Result<TokenStream, Self>
        ensures { MatchResult result (λ ts. Self.tree self ≡ e.leaf (e.verbatim ts)) (λ x. (x ≡ self) × (is_verbatim (Self.tree self) ≡ false)) };

    /// The path, and the type that it is qualified by, where it is one without attributes; else it is given back.
    fn into_path(self) -> std::result::Result<(Option<QSelf>, Path), Self>
        ensures { MatchResult result (λ p. Self.tree self ≡ e.leaf (e.path (qself_or type_of p.0) (path_of type_of p.1))) (λ x. (x ≡ self) × (is_path (Self.tree self) ≡ false)) };

    /// It with outer attributes before it, where none come before it and it isn't of verbatim tokens.
    fn with_attrs(self, attrs: Vec<Attribute>) -> std::result::Result<Self, AllocError>
        requires outer { attributes_outer (attrs_of attrs) ≡ true }
        requires bare { is_attributed (Self.tree self) ≡ false }
        requires not_verbatim { is_verbatim (Self.tree self) ≡ false }
        ensures { IfOk result (λ x. Self.tree x ≡ e.attributed_with (attrs_of attrs) (Self.tree self)) };
}
