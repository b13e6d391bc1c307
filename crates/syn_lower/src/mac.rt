//! Calls of macros (Rust Reference, "Macro Invocation").

use crate::ty::Type;
pub use syn_lower_leaves::mac::MacroDelimiter;
use syn_lower_types::mac::MacroOf;

/// The call of a macro. What it is given is kept as tokens.
pub type Macro = MacroOf<Type>;
