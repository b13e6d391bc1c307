//! The tokens of all that is no operand: what comes before, between and after the operands of an expression, and what
//! holds none. Each is appended to a stream: it is refused only where memory runs out, and what was there before stays in
//! front.

pub mod frame;
pub mod prefix;
