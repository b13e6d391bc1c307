//! Identifiers and literals that a program makes.

ghost use Rattle.std.specs.Prelude.{◌≡◌, ◌⊎◌, chars, IfOk, IfErr};
ghost use Rattle.syn_tokens.specs.Lex.{IsIdentText, IsLiteralText, refusal, or_unknown};

use crate::error::{Error, ErrorKind, LexError, Result};
use crate::lexer::{chars_of, lex};
use crate::text::SharedText;
use crate::tree::{Ident, Literal, Span};
use std::alloc::Global;
use syn_lexer::front::{is_ident, is_literal};

/// Why a text that is no single token is refused: as the lexer refuses it, else as an unknown character.
fn refusal(alloc: Global, text: &str, span: Span) -> Error
    ensures place { result.span ≡ span }
    ensures kind { (result.kind ≡ ErrorKind.OutOfMemory) ⊎ (result.kind ≡ ErrorKind.Lex (or_unknown (refusal (chars text.now)))) }
{
    let kind = match lex(alloc, text) {
        Ok(_) => ErrorKind::Lex(LexError::UnknownCharacter),
        Err(e) => e.kind,
    };
    Error { span, kind }
}

impl Ident {
    /// A word with this text, at this place. A text that is not one identifier or reserved word (Rust Reference,
    /// "Identifiers") is refused at that place: as the lexer refuses it, else as an unknown character.
    pub fn new(alloc: Global, text: &str, span: Span) -> Result<Ident>
        ensures made { IfOk result (λ i. (i ≡ text.now) × IsIdentText (chars text.now)) }
        ensures refused { IfErr result (λ e. (e.kind ≡ ErrorKind.OutOfMemory) ⊎ ¬ IsIdentText (chars text.now)) }
        ensures place { IfErr result (λ e. (e.kind ≡ ErrorKind.OutOfMemory) ⊎ (e.span ≡ span)) }
        ensures kind { IfErr result (λ e. (e.kind ≡ ErrorKind.OutOfMemory) ⊎ (e.kind ≡ ErrorKind.Lex (or_unknown (refusal (chars text.now))))) }
    {
        let all = chars_of(alloc, text)?;
        if !is_ident(all.as_slice()) {
            return Err(refusal(alloc, text, span));
        }
        let text = SharedText::new(alloc, text)?;
        Ok(Ident::read(text, span))
    }
}

impl Literal {
    /// A literal with this text, at this place. A text that is not one literal token (Rust Reference, "Literal
    /// expressions") is refused at that place: as the lexer refuses it, else as an unknown character.
    pub fn new(alloc: Global, text: &str, span: Span) -> Result<Literal>
        ensures made { IfOk result (λ l. (l ≡ text.now) × IsLiteralText (chars text.now)) }
        ensures refused { IfErr result (λ e. (e.kind ≡ ErrorKind.OutOfMemory) ⊎ ¬ IsLiteralText (chars text.now)) }
        ensures place { IfErr result (λ e. (e.kind ≡ ErrorKind.OutOfMemory) ⊎ (e.span ≡ span)) }
        ensures kind { IfErr result (λ e. (e.kind ≡ ErrorKind.OutOfMemory) ⊎ (e.kind ≡ ErrorKind.Lex (or_unknown (refusal (chars text.now))))) }
    {
        let all = chars_of(alloc, text)?;
        if !is_literal(all.as_slice()) {
            return Err(refusal(alloc, text, span));
        }
        let text = SharedText::new(alloc, text)?;
        Ok(Literal::read(text, span))
    }
}
