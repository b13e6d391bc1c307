//! Reading on a fork: what each reader of a part has in common with the others.

ghost use Rattle.std.specs.Prelude.{◌≡◌, ◌≤◌, ◌+◌, IfErr, IfOk, List, None, Some};
ghost use Rattle.syn_lower_spec.specs.Laws.{IsReadable};
ghost use Rattle.syn_tokens.specs.Input.{IsAfter, Reaches};
ghost use Rattle.syn_tokens.specs.Tok.{Tok, weight};

use syn_tokens::buffer::ParseBuffer;
use syn_tokens::error::Result;

/// A part that is read by a form.
pub trait ReadByForm {
    ghost use Rattle.std.specs.Prelude.{List, ℕ};
    ghost use Rattle.syn_lower_leaves.specs.Reads.{Reads};
    ghost use Rattle.syn_lower_spec.specs.Form.{Form};
    ghost use Rattle.syn_tokens.specs.Tok.{Tok};
    ghost use Rattle.syn_tokens.specs.declared.error.ErrorKind.{ErrorKind};

    /// What contracts see of a value.
    ghost Seen: { Type 0 };

    ghost seen: { Self → Seen };

    ghost form: { Form Seen };

    /// What a read takes at least, in weight.
    ghost least: { ℕ } = { 1 };

    /// `refuses list kind`: what a read of the list may be refused as.
    ghost refuses: { List Tok → ErrorKind → Type 0 } = { λ _ _. Unit {0} };

    /// Reads a value. Where it is refused, tokens may have been passed over.
    fn read(input: &mut ParseBuffer<'_>) -> Result<Self>
        ensures value { Reads seen (form.reads input.old.rest) result input.new.rest }
        ensures noted { input.new.noted ≡ input.old.noted }
        ensures refused { IfErr result (λ e. refuses input.old.rest e.kind) };
}

/// Reads a part on a fork, so that the input stays where it was where the part is refused.
pub fn ahead<T: ReadByForm>(input: &mut ParseBuffer<'_>) -> Result<T>
    requires { IsReadable T.least T.form }
    ensures read { IfOk result (λ v. T.form.behind (T.seen v) input.old.rest ≡ Some input.new.rest) }
    ensures found { (s : T.Seen) (rest : List Tok) → T.form.behind s input.old.rest ≡ Some rest → Reaches T.seen s rest input.old.noted result input.new }
    ensures after { IsAfter input.old input.new }
    ensures noted { input.new.noted ≡ input.old.noted }
    ensures stays { IfErr result (λ _. input.new ≡ input.old) }
    ensures moves { IfOk result (λ v. T.least + weight input.new.rest ≤ weight input.old.rest) }
    ensures refused { IfErr result (λ e. T.refuses input.old.rest e.kind) }
{
    let mut ahead = input.fork()?;
    let x = T::read(&mut ahead)?;
    input.advance_to(&ahead);
    Ok(x)
}
