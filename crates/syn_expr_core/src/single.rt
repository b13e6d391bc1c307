//! Arms and fields by themselves (Rust Reference, "`match` expressions", "Struct expressions").

ghost use Rattle.std.specs.Prelude.{◌≡◌, [], map, IfErr, IfOk, MatchResult};
ghost use Rattle.syn_expr_core.specs.View.{arm_of};
ghost use Rattle.syn_expr_parse.specs.Arms.{ArmStands};
ghost use Rattle.syn_expr_ast.specs.Printed.{ReadsExactly};
ghost use Rattle.syn_expr_ast.specs.Pats.{arms};
ghost use Rattle.syn_expr_spec.specs.Slot as slot;
ghost use Rattle.syn_expr_spec.specs.Stands.{Operands};
ghost use Rattle.syn_expr_spec.specs.Tree.{Children};

use crate::expr::{Arm, Expr, FieldValue};
use crate::parse::expr_at;
use syn_expr_ast::parse::ParseField;
use syn_expr_parse::blocks::Blocks;
use syn_expr_parse::lists::Lists;
use syn_tokens::buffer::{Parse, ParseBuffer};
use syn_tokens::error::{ErrorKind, Result};

impl Parse for Arm {
    ghost use Rattle.syn_expr_core.specs.View.{arm_of};
    ghost use Rattle.syn_expr_parse.specs.Arms.{ArmStands};
    ghost use Rattle.syn_expr_ast.specs.Pats.{ArmView};

    ghost Seen = { ArmView };

    ghost seen = { arm_of };

    /// The arm comes before the rest: its pattern, its guard and its body.
    ghost spells = { ArmStands };

    ghost least = { 1 };

    /// Reads an arm of a `match`: outer attributes, a pattern with alternatives, a guard or none, `=>`, its body, and a comma,
    /// which none has to be at the end and after a block (Rust Reference, "`match` expressions").
    ///
    /// It is refused, memory aside, only where there is none, and the input then stays where it was: as `ExpectedToken` where a
    /// token is missing, and as its attributes, its pattern, its guard and its body are.
    #[tactic(auto, using(crate::proofs::Parts::arm_tail))]
    fn parse(input: &mut ParseBuffer<'_>) -> Result<Self>
        ensures { ReadsExactly arm_of ArmStands input.old result input.new }
    {
        let mut ahead = input.fork()?;
        let x = match (Blocks { expr: expr_at }).arm(&mut ahead) {
            Ok(x) => x,
            Err(e) => return Err(e),
        };
        input.advance_to(&ahead);
        Ok(x)
    }
}

impl Arm {
    /// Reads the arms of a `match` to the end of the input, as they are in its braces (Rust Reference, "`match`
    /// expressions"). They are read exactly where there are arms up to the end, unless memory runs out. It is refused as the
    /// reader of an arm refuses one, and the input then stays where it was.
    #[tactic(auto, using(crate::proofs::Parts::all_arms))]
    pub fn parse_multiple(input: &mut ParseBuffer<'_>) -> Result<Vec<Arm>>
        ensures read { IfOk result (λ v. Operands slot.arms input.old.rest (arms (map arm_of v.items)) []) }
        ensures found { (ks : Children) → Operands slot.arms input.old.rest ks [] → MatchResult result (λ v. arms (map arm_of v.items) ≡ ks) (λ e. e.kind ≡ ErrorKind.OutOfMemory) }
        ensures end { IfOk result (λ _. input.new.rest ≡ []) }
        ensures noted { input.new.noted ≡ input.old.noted }
        ensures stays { IfErr result (λ _. input.new ≡ input.old) }
    {
        let mut ahead = input.fork()?;
        let arms = match (Blocks { expr: expr_at }).arms(&mut ahead) {
            Ok(arms) => arms,
            Err(e) => return Err(e),
        };
        input.advance_to(&ahead);
        Ok(arms)
    }
}

impl ParseField for Expr {
    /// Reads a field on a fork, so that the input stays where it was where it is refused.
    #[tactic(auto, using(crate::proofs::Parts::field_tail))]
    fn parse_field(input: &mut ParseBuffer<'_>) -> Result<FieldValue> {
        let mut ahead = input.fork()?;
        let x = match (Lists { expr: expr_at }).field_value(&mut ahead) {
            Ok(x) => x,
            Err(e) => return Err(e),
        };
        input.advance_to(&ahead);
        Ok(x)
    }
}
