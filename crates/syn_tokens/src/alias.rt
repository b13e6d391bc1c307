//! The names of the signs and of the words, which `token` passes on.

use crate::token::{Sign, Word};

/// `&`
pub type And = Sign<1, 0>;

/// `&&`
pub type AndAnd = Sign<2, 1>;

/// `&=`
pub type AndEq = Sign<2, 2>;

/// `@`
pub type At = Sign<1, 3>;

/// `^`
pub type Caret = Sign<1, 4>;

/// `^=`
pub type CaretEq = Sign<2, 5>;

/// `:`
pub type Colon = Sign<1, 6>;

/// `,`
pub type Comma = Sign<1, 7>;

/// `$`
pub type Dollar = Sign<1, 8>;

/// `.`
pub type Dot = Sign<1, 9>;

/// `..`
pub type DotDot = Sign<2, 10>;

/// `...`
pub type DotDotDot = Sign<3, 11>;

/// `..=`
pub type DotDotEq = Sign<3, 12>;

/// `=`
pub type Eq = Sign<1, 13>;

/// `==`
pub type EqEq = Sign<2, 14>;

/// `=>`
pub type FatArrow = Sign<2, 15>;

/// `>=`
pub type Ge = Sign<2, 16>;

/// `>`
pub type Gt = Sign<1, 17>;

/// `<-`
pub type LArrow = Sign<2, 18>;

/// `<=`
pub type Le = Sign<2, 19>;

/// `<`
pub type Lt = Sign<1, 20>;

/// `-`
pub type Minus = Sign<1, 21>;

/// `-=`
pub type MinusEq = Sign<2, 22>;

/// `!=`
pub type Ne = Sign<2, 23>;

/// `!`
pub type Not = Sign<1, 24>;

/// `|`
pub type Or = Sign<1, 25>;

/// `|=`
pub type OrEq = Sign<2, 26>;

/// `||`
pub type OrOr = Sign<2, 27>;

/// `::`
pub type PathSep = Sign<2, 28>;

/// `%`
pub type Percent = Sign<1, 29>;

/// `%=`
pub type PercentEq = Sign<2, 30>;

/// `+`
pub type Plus = Sign<1, 31>;

/// `+=`
pub type PlusEq = Sign<2, 32>;

/// `#`
pub type Pound = Sign<1, 33>;

/// `?`
pub type Question = Sign<1, 34>;

/// `->`
pub type RArrow = Sign<2, 35>;

/// `;`
pub type Semi = Sign<1, 36>;

/// `<<`
pub type Shl = Sign<2, 37>;

/// `<<=`
pub type ShlEq = Sign<3, 38>;

/// `>>`
pub type Shr = Sign<2, 39>;

/// `>>=`
pub type ShrEq = Sign<3, 40>;

/// `/`
pub type Slash = Sign<1, 41>;

/// `/=`
pub type SlashEq = Sign<2, 42>;

/// `*`
pub type Star = Sign<1, 43>;

/// `*=`
pub type StarEq = Sign<2, 44>;

/// `~`
pub type Tilde = Sign<1, 45>;

/// `as`
pub type As = Word<0>;

/// `async`
pub type Async = Word<1>;

/// `await`
pub type Await = Word<2>;

/// `become`
pub type Become = Word<3>;

/// `break`
pub type Break = Word<4>;

/// `const`
pub type Const = Word<5>;

/// `continue`
pub type Continue = Word<6>;

/// `dyn`
pub type Dyn = Word<7>;

/// `else`
pub type Else = Word<8>;

/// `extern`
pub type Extern = Word<9>;

/// `fn`
pub type Fn = Word<10>;

/// `for`
pub type For = Word<11>;

/// `if`
pub type If = Word<12>;

/// `impl`
pub type Impl = Word<13>;

/// `in`
pub type In = Word<14>;

/// `let`
pub type Let = Word<15>;

/// `loop`
pub type Loop = Word<16>;

/// `match`
pub type Match = Word<17>;

/// `move`
pub type Move = Word<18>;

/// `mut`
pub type Mut = Word<19>;

/// `raw`
pub type Raw = Word<20>;

/// `ref`
pub type Ref = Word<21>;

/// `return`
pub type Return = Word<22>;

/// `static`
pub type Static = Word<23>;

/// `try`
pub type Try = Word<24>;

/// `unsafe`
pub type Unsafe = Word<25>;

/// `use`
pub type Use = Word<26>;

/// `while`
pub type While = Word<27>;

/// `yield`
pub type Yield = Word<28>;
