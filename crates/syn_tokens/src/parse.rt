//! The readers and printers of the token trees themselves, which copy; and the readers of whole lists and texts.

ghost use Rattle.std.specs.Prelude.{◌≡◌, ◌≤◌, ◌+◌, ◌⊎◌, ℕ, List, [], ◌∷◌, IfOk, IfErr, false, chars};
ghost use Rattle.syn_lexer.specs.Keywords.{is_reserved_word};
ghost use Rattle.syn_tokens.specs.Input.{Reaches, IsAfter, Gives, IsRefused, start_of};
ghost use Rattle.syn_tokens.specs.Tok.{Tok, weight};
ghost use Rattle.syn_tokens.specs.Leaf as spec;
ghost use Rattle.syn_tokens.specs.Tok as tok;
ghost use Rattle.syn_tokens.specs.View.{tok_of};
ghost use Rattle.syn_tokens.specs.declared.error.ErrorKind.TheVariants as kind;
ghost use Rattle.syn_tokens.specs.declared.error.Expected.TheVariants as expected;
ghost use Rattle.syn_tokens.specs.declared.error.Part.TheVariants as part;
ghost use Rattle.syn_tokens.specs.declared.error.Wanted.TheVariants as wanted;
ghost use Rattle.syn_tokens.specs.Lex.{Spells, IsRefusedAs, refusal};

use crate::buffer::{Parse, ParseBuffer, ToTokens, Token};
use crate::error::{Error, ErrorKind, Expected, Part, Result, Wanted};
use crate::lexer::lex;
use crate::tree::{
    Ident, Literal, TokenStream, TokenTree, copy_ident, copy_literal, copy_tree, copy_trees,
};
use std::alloc::Global;
use syn_lexer::front::is_reserved_word;

impl Token for Ident {
    ghost sees = { spec.sees_ident };

    fn peek(rest: &[TokenTree]) -> bool {
        match rest {
            [TokenTree::Ident(ident), ..] => !is_reserved_word(ident.as_str()),
            _ => false,
        }
    }
}

#[tactic(auto, using(crate::proofs::Inputs::tails, crate::proofs::Weights::firsts))]
impl Parse for Ident {
    ghost Seen = { List ℕ };

    ghost seen = { λ v. v };

    ghost spells = { λ ts v rest. (ts ≡ tok.ident v ∷ rest) × (is_reserved_word v ≡ false) };

    ghost least = { 1 };

    ghost refuses = { λ _ k. (k ≡ kind.OutOfMemory) ⊎ (k ≡ kind.ExpectedToken (expected.One wanted.Identifier)) };

    /// Takes a word that is not reserved, raw or not (Rust Reference, "Identifiers"). Anything else is refused at that
    /// token as `ExpectedToken`, an identifier; and `OutOfMemory` comes, since the word is copied.
    fn parse(input: &mut ParseBuffer<'_>) -> Result<Self> {
        match input.first() {
            Some(TokenTree::Ident(ident)) if !is_reserved_word(ident.as_str()) => {
                let ident = copy_ident(input.alloc(), ident)?;
                input.skip(1);
                Ok(ident)
            }
            _ => Err(input.error(ErrorKind::ExpectedToken(Expected::One(Wanted::Identifier)))),
        }
    }
}

impl ToTokens for Ident {
    ghost printed = { λ v. tok.ident v ∷ [] };

    fn to_tokens(&self, tokens: &mut TokenStream) -> Result<()> {
        let ident = copy_ident(tokens.alloc(), self)?;
        tokens.push(TokenTree::Ident(ident))?;
        Ok(())
    }
}

/// Reads any word, a reserved one too. It is refused as an identifier is.
#[tactic(auto, using(crate::proofs::Inputs::tails, crate::proofs::Weights::firsts))]
pub fn parse_any_word(input: &mut ParseBuffer<'_>) -> Result<Ident>
    ensures read { IfOk result (λ v. input.old.rest ≡ tok.ident v ∷ input.new.rest) }
    ensures found { (v : List ℕ) (rest : List Tok) → input.old.rest ≡ tok.ident v ∷ rest → Reaches (λ a. a) v rest input.old.noted result input.new }
    ensures after { IsAfter input.old input.new }
    ensures moves { IfOk result (λ v. 1 + weight input.new.rest ≤ weight input.old.rest) }
    ensures refused { IfErr result (λ e. (e.kind ≡ ErrorKind.OutOfMemory) ⊎ (e.kind ≡ ErrorKind.ExpectedToken (Expected.One Wanted.Identifier))) }
{
    let Some(TokenTree::Ident(ident)) = input.first() else {
        return Err(input.error(ErrorKind::ExpectedToken(Expected::One(Wanted::Identifier))));
    };
    let ident = copy_ident(input.alloc(), ident)?;
    input.skip(1);
    Ok(ident)
}

impl Token for Literal {
    ghost sees = { spec.sees_literal };

    fn peek(rest: &[TokenTree]) -> bool {
        matches!(rest, [TokenTree::Literal(_), ..])
    }
}

#[tactic(auto, using(crate::proofs::Inputs::tails, crate::proofs::Weights::firsts))]
impl Parse for Literal {
    ghost Seen = { List ℕ };

    ghost seen = { λ v. v };

    ghost spells = { λ ts v rest. ts ≡ tok.literal v ∷ rest };

    ghost least = { 1 };

    ghost refuses = { λ _ k. (k ≡ kind.OutOfMemory) ⊎ (k ≡ kind.ExpectedPart part.Literal) };

    /// Takes a literal token (Rust Reference, "Literal expressions"), no sign, `true` or `false`. Anything else is
    /// refused at that token as `ExpectedPart`, a literal; and `OutOfMemory` comes, since the literal is copied.
    fn parse(input: &mut ParseBuffer<'_>) -> Result<Self> {
        match input.first() {
            Some(TokenTree::Literal(literal)) => {
                let literal = copy_literal(input.alloc(), literal)?;
                input.skip(1);
                Ok(literal)
            }
            _ => Err(input.error(ErrorKind::ExpectedPart(Part::Literal))),
        }
    }
}

impl ToTokens for Literal {
    ghost printed = { λ v. tok.literal v ∷ [] };

    fn to_tokens(&self, tokens: &mut TokenStream) -> Result<()> {
        let literal = copy_literal(tokens.alloc(), self)?;
        tokens.push(TokenTree::Literal(literal))?;
        Ok(())
    }
}

#[tactic(auto, using(crate::proofs::Inputs::tails, crate::proofs::Weights::firsts))]
impl Parse for TokenTree {
    ghost Seen = { tok.Tok };

    ghost seen = { tok_of };

    ghost spells = { λ ts t rest. ts ≡ t ∷ rest };

    ghost least = { 1 };

    ghost refuses = { λ _ k. (k ≡ kind.OutOfMemory) ⊎ (k ≡ kind.UnexpectedToken) };

    /// Takes the next token or group. The end is refused as `UnexpectedToken`; and `OutOfMemory` comes, since the tree is
    /// copied.
    fn parse(input: &mut ParseBuffer<'_>) -> Result<Self> {
        match input.first() {
            Some(tree) => {
                let tree = copy_tree(input.alloc(), tree)?;
                input.skip(1);
                Ok(tree)
            }
            None => Err(input.error(ErrorKind::UnexpectedToken)),
        }
    }
}

impl ToTokens for TokenTree {
    ghost printed = { λ v. tok_of v ∷ [] };

    fn to_tokens(&self, tokens: &mut TokenStream) -> Result<()> {
        let tree = copy_tree(tokens.alloc(), self)?;
        tokens.push(tree)?;
        Ok(())
    }
}

#[tactic(auto, using(crate::proofs::Inputs::tails, crate::proofs::Weights::firsts, crate::proofs::Inputs::drop_all))]
impl Parse for TokenStream {
    ghost Seen = { List tok.Tok };

    ghost seen = { λ v. v };

    ghost spells = { λ ts v rest. (ts ≡ v) × (rest ≡ []) };

    ghost least = { 0 };

    ghost refuses = { λ _ k. k ≡ kind.OutOfMemory };

    /// Takes all that is left. It is refused only as `OutOfMemory`, since the trees are copied.
    fn parse(input: &mut ParseBuffer<'_>) -> Result<Self> {
        let stream = copy_trees(input.alloc(), input.trees())?;
        input.skip(input.len());
        Ok(stream)
    }
}

impl ToTokens for TokenStream {
    ghost printed = { λ v. v };

    fn to_tokens(&self, tokens: &mut TokenStream) -> Result<()> {
        let stream = copy_trees(tokens.alloc(), self.trees())?;
        tokens.append(stream)?;
        Ok(())
    }
}

/// Reads a `T` from the whole list, which a refusal gives up. It is refused as the reader of `T` refuses it. After a `T`,
/// the first token that nothing read in a group is refused as `UnexpectedToken`, then a token that is left after it.
pub fn parse2<T: Parse + Drop>(tokens: TokenStream) -> Result<T>
    // What was read is spelled by the whole list.
    ensures read { IfOk result (λ v. T.spells tokens (T.seen v) []) }
    // What the whole list spells is read, unless memory runs out.
    ensures found { (s : T.Seen) → T.spells tokens s [] → Gives T.seen s result }
    // It is refused as the reader of a `T` refuses it, or at the token that this left over.
    ensures refused { IfErr result (λ e. IsRefused (T.refuses tokens) (T.spells tokens) (T.notes (start_of tokens)) e) }
{
    let mut input = match ParseBuffer::new(&tokens) {
        Ok(input) => input,
        Err(e) => return Err(e),
    };
    let value = match T::parse(&mut input) {
        Ok(value) => value,
        Err(e) => return Err(e),
    };
    if let Some(span) = input.leftover() {
        return Err(Error {
            span,
            kind: ErrorKind::UnexpectedToken,
        });
    }
    Ok(value)
}

/// Reads a `T` from the whole text: cuts it into tokens, and reads these. It is refused as `lex` refuses the text, else
/// as `parse2` refuses its tokens; places are in bytes from the start of the text.
pub fn parse_str<T: Parse + Drop>(alloc: Global, text: &str) -> Result<T>
    // What was read is spelled by the tokens of the text.
    ensures read { IfOk result (λ v. (ts : List Tok) × Spells (chars text.now) ts × T.spells ts (T.seen v) []) }
    // What the tokens of the text spell is read, unless memory runs out.
    ensures found { (s : T.Seen) (ts : List Tok) → Spells (chars text.now) ts → T.spells ts s [] → Gives T.seen s result }
    // It is refused as the text is, or where memory runs out, or as its tokens are.
    ensures refused { IfErr result (λ e. (e.kind ≡ ErrorKind.OutOfMemory) ⊎ IsRefusedAs (refusal (chars text.now)) e.kind ⊎ ((ts : List Tok) × Spells (chars text.now) ts × IsRefused (T.refuses ts) (T.spells ts) (T.notes (start_of ts)) e)) }
{
    match lex(alloc, text) {
        Ok(tokens) => parse2::<T>(tokens),
        Err(e) => Err(e),
    }
}
