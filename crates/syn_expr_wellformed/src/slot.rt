//! Where the operands of a node are.

ghost use Rattle.std.specs.Prelude.{◌≡◌, false};
ghost use Rattle.syn_expr_ast.specs.Node.{frame_of, trailer_of};
ghost use Rattle.syn_expr_wellformed.specs.Slots.{dots_of, slot_of, is_elements, is_single, is_counted, is_fields, is_conditions, is_loops, is_scrutinees, is_outputs};
ghost use Rattle.syn_expr_wellformed.specs.Well as spec;
ghost use Rattle.syn_expr_spec.specs.WellFormed as well;
ghost use Rattle.syn_pat.specs.View.{PatView};

use syn_expr_ast::node::{Frame, HasShape, Trailer};

/// Where the operands of a node are.
#[derive(Clone, Copy)]
pub enum Slot {
    /// In a list with commas.
    Elements,
    /// One in brackets.
    Single,
    /// Before `;`, and after it.
    Counted,
    /// In a struct expression; whether `..` ends it with no expression after.
    Fields(bool),
    /// Before the block of an `if`.
    Conditions,
    /// Before the block of a loop.
    Loops,
    /// Before the arms of a `match`.
    Scrutinees,
    /// After the output of a closure.
    Outputs,
    /// In no place of their own.
    Done,
}

impl Slot {
    /// Whether they are in a list with commas.
    pub(crate) fn is_elements(self) -> bool
        ensures { result ≡ is_elements (slot_of self) }
    {
        matches!(self, Slot::Elements)
    }

    /// Whether they are as one in brackets.
    pub(crate) fn is_single(self) -> bool
        ensures { result ≡ is_single (slot_of self) }
    {
        matches!(self, Slot::Single)
    }

    /// Whether they come before `;` and after it.
    pub(crate) fn is_counted(self) -> bool
        ensures { result ≡ is_counted (slot_of self) }
    {
        matches!(self, Slot::Counted)
    }

    /// Whether they are in a struct expression.
    pub(crate) fn is_fields(self) -> bool
        ensures { result ≡ is_fields (slot_of self) }
    {
        matches!(self, Slot::Fields(_))
    }

    /// Whether they come before the block of an `if`.
    pub(crate) fn is_conditions(self) -> bool
        ensures { result ≡ is_conditions (slot_of self) }
    {
        matches!(self, Slot::Conditions)
    }

    /// Whether they come before the block of a loop.
    pub(crate) fn is_loops(self) -> bool
        ensures { result ≡ is_loops (slot_of self) }
    {
        matches!(self, Slot::Loops)
    }

    /// Whether they come before the arms of a `match`.
    pub(crate) fn is_scrutinees(self) -> bool
        ensures { result ≡ is_scrutinees (slot_of self) }
    {
        matches!(self, Slot::Scrutinees)
    }

    /// Whether they come after the output of a closure.
    pub(crate) fn is_outputs(self) -> bool
        ensures { result ≡ is_outputs (slot_of self) }
    {
        matches!(self, Slot::Outputs)
    }

    /// Whether `..` ends the fields.
    pub(crate) fn has_dots(self) -> bool
        ensures { result ≡ dots_of self }
    {
        matches!(self, Slot::Fields(true))
    }

    /// Whether there may be none.
    pub(crate) fn may_stop(self) -> bool
        ensures { result ≡ well.may_stop (slot_of self) }
    {
        matches!(self, Slot::Elements | Slot::Fields(_) | Slot::Done)
    }
}

/// Where the operands of a trailer are.
fn trailer_slot(trailer: Trailer<'_>) -> Slot
    ensures slot { slot_of result ≡ well.trailer_slot (trailer_of trailer.entry) }
    ensures dots { dots_of result ≡ false }
{
    match trailer {
        Trailer::Call(_) | Trailer::Method(_, _, _, _) => Slot::Elements,
        Trailer::Index(_) => Slot::Single,
        Trailer::Field(_, _) | Trailer::Await(_, _) | Trailer::Try(_) => Slot::Done,
    }
}

/// Where the operands of a frame are.
fn frame_slot<P>(frame: Frame<'_, P>) -> Slot
    ensures slot { (pat : P → PatView) → slot_of result ≡ well.frame_slot (frame_of pat frame.entry) }
    ensures dots { (pat : P → PatView) → dots_of result ≡ spec.frame_dots (frame_of pat frame.entry) }
{
    match frame {
        Frame::Array(_) | Frame::Tuple(_) => Slot::Elements,
        Frame::Repeat(_) => Slot::Counted,
        Frame::Struct(_, _, _, dots) => Slot::Fields(dots),
        Frame::Closure(_) => Slot::Outputs,
        Frame::If(_) => Slot::Conditions,
        Frame::While(_, _) | Frame::ForLoop(_, _, _, _) => Slot::Loops,
        Frame::Match(_, _) => Slot::Scrutinees,
        Frame::Group(_) => Slot::Done,
    }
}

/// Where the operands of a node are.
#[tactic(auto, using(crate::proofs::Owns::slots))]
pub fn operand_slot<E: HasShape>(expr: &E) -> Slot
    ensures slot { slot_of result ≡ spec.slot_at (E.tree expr.now) }
    ensures dots { dots_of result ≡ spec.dots_at (E.tree expr.now) }
{
    if let Some(trailer) = expr.trailer() {
        return trailer_slot(trailer);
    }
    match expr.frame() {
        Some(frame) => frame_slot(frame),
        None => Slot::Done,
    }
}
