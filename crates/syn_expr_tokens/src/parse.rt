//! The readers of members, indices and labels, as the trait has them: each answers exactly what its form spells, and leaves
//! the rest.

ghost use Rattle.std.specs.Prelude.{◌≡◌, ◌≤◌, ◌⊎◌, IfErr, IfOk, Some};
ghost use Rattle.syn_expr_tokens.specs.View as spec;
ghost use Rattle.syn_expr_tokens.specs.Refusal as refusal;
ghost use Rattle.syn_expr_tokens.specs.View.{label_of, member_of};
ghost use Rattle.syn_lower_leaves.specs.Reads.{Reads};
ghost use Rattle.syn_lower_leaves.specs.View.{mapped};
ghost use Rattle.syn_lower_spec.specs.Pat as pat;
ghost use Rattle.syn_tokens.specs.Input.{IsAfter};
ghost use Rattle.syn_tokens.specs.Tok.{weight};
ghost use Rattle.syn_tokens.specs.declared.error.ErrorKind.TheVariants.{OutOfMemory};

use crate::member::{Index, Member};
use crate::modifiers::Label;
use crate::reader::{index, label, member};
use syn_lower_leaves::ahead::{ReadByForm, ahead};
use syn_lower_leaves::leaf::lifetime_at;
use syn_tokens::buffer::{Parse, ParseBuffer};
use syn_tokens::error::Result;

#[tactic(auto, using(crate::proofs::Reading::index_reading))]
impl Parse for Index {
    ghost use Rattle.std.specs.Prelude.{ℕ};

    ghost Seen = { ℕ };

    ghost seen = { λ x. x.index };

    /// An integer of this value without a suffix comes before the rest.
    ghost spells = { λ l x rest. refusal.index.behind x l ≡ Some rest };

    ghost least = { 1 };

    ghost refuses = { λ l kind. kind ≡ refusal.index_refusal l };

    /// Reads an index (Rust Reference, "Tuple indexing expressions"). An integer with a suffix, or another token, is
    /// refused as `ExpectedUnsuffixedInteger`, an integer above 4294967295 as `IndexOutOfRange`. It takes no memory.
    fn parse(input: &mut ParseBuffer<'_>) -> Result<Self> {
        index(input)
    }
}

#[tactic(auto, using(crate::proofs::Reading::member_reading))]
impl Parse for Member {
    ghost use Rattle.syn_lower_spec.specs.Pat.{MemberTree};

    ghost Seen = { MemberTree };

    ghost seen = { member_of };

    /// A name, or an integer of this value without a suffix, comes before the rest.
    ghost spells = { λ l x rest. pat.member.behind x l ≡ Some rest };

    ghost least = { 1 };

    ghost refuses = { λ l kind. (kind ≡ OutOfMemory) ⊎ (kind ≡ refusal.member_refusal l) };

    /// Reads a member, a name or an index (Rust Reference, "Field access expressions", "Tuple indexing expressions"). An
    /// integer with a suffix is refused as `ExpectedUnsuffixedInteger`, one above 4294967295 as `IndexOutOfRange`, and
    /// another token as `ExpectedMember`.
    fn parse(input: &mut ParseBuffer<'_>) -> Result<Self> {
        member(input)
    }
}

impl ReadByForm for Label {
    ghost use Rattle.syn_lower_spec.specs.Text.{Text};

    ghost Seen = { Text };

    ghost seen = { label_of };

    ghost form = { spec.labeled };

    ghost refuses = { λ l kind. (kind ≡ OutOfMemory) ⊎ (kind ≡ refusal.label_refusal l) };

    fn read(input: &mut ParseBuffer<'_>) -> Result<Self> {
        label(input)
    }
}

#[tactic(auto, using(crate::proofs::Reading::labeled_readable))]
impl Parse for Label {
    ghost use Rattle.syn_lower_spec.specs.Text.{Text};

    ghost Seen = { Text };

    ghost seen = { label_of };

    /// A lifetime and `:` come before the rest.
    ghost spells = { λ l x rest. spec.labeled.behind x l ≡ Some rest };

    ghost least = { 1 };

    ghost refuses = { λ l kind. (kind ≡ OutOfMemory) ⊎ (kind ≡ refusal.label_refusal l) };

    /// Reads a label (Rust Reference, "Loop labels"); it is refused as `ExpectedToken` of a lifetime or of `:`.
    fn parse(input: &mut ParseBuffer<'_>) -> Result<Self> {
        ahead(input)
    }
}

impl Label {
    /// Reads a label where a lifetime comes first (Rust Reference, "Loop labels"), and else nothing. Without `:` after
    /// the lifetime it is refused as `ExpectedToken` of `:`, and the input stays where it was.
    #[tactic(auto, using(crate::proofs::Reading::label_reading))]
    pub fn parse_optional(input: &mut ParseBuffer<'_>) -> Result<Option<Label>>
        ensures value { Reads (mapped label_of) (spec.label.reads input.old.rest) result input.new.rest }
        ensures noted { input.new.noted ≡ input.old.noted }
        ensures after { IsAfter input.old input.new }
        ensures stays { IfErr result (λ _. input.new ≡ input.old) }
        ensures moves { IfOk result (λ x. weight input.new.rest ≤ weight input.old.rest) }
        ensures refused { IfErr result (λ e. (e.kind ≡ OutOfMemory) ⊎ (e.kind ≡ refusal.wanted_colon)) }
    {
        if !lifetime_at(input) {
            return Ok(None);
        }
        let mut ahead = input.fork()?;
        let x = label(&mut ahead)?;
        input.advance_to(&ahead);
        Ok(Some(x))
    }
}
