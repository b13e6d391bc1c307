//! Copies of literals, which share the texts of what they copy.

ghost use Rattle.std.specs.Prelude.{◌≡◌, IfOk, IfErr};
ghost use Rattle.syn_lower_leaves.specs.View.{lit_float_of, lit_int_of, lit_of, lit_str_of};

use crate::lit::{Lit, LitBool, LitByte, LitByteStr, LitCStr, LitChar, LitFloat, LitInt, LitStr};
use std::alloc::Global;
use syn_tokens::error::{ErrorKind, Result};
use syn_tokens::tree::{copy_ident, copy_literal};

impl LitStr {
    /// A copy, with its place. It is refused only where memory runs out.
    pub fn copy(&self, alloc: Global) -> Result<LitStr>
        ensures copied { IfOk result (λ y. lit_str_of y ≡ lit_str_of self.now) }
        ensures memory { IfErr result (λ e. e.kind ≡ ErrorKind.OutOfMemory) }
    {
        let token = copy_literal(alloc, &self.token)?;
        Ok(LitStr { token })
    }
}

impl LitByteStr {
    /// A copy, with its place. It is refused only where memory runs out.
    pub fn copy(&self, alloc: Global) -> Result<LitByteStr>
        ensures copied { IfOk result (λ y. y.token ≡ self.now.token) }
        ensures memory { IfErr result (λ e. e.kind ≡ ErrorKind.OutOfMemory) }
    {
        let token = copy_literal(alloc, &self.token)?;
        Ok(LitByteStr { token })
    }
}

impl LitCStr {
    /// A copy, with its place. It is refused only where memory runs out.
    pub fn copy(&self, alloc: Global) -> Result<LitCStr>
        ensures copied { IfOk result (λ y. y.token ≡ self.now.token) }
        ensures memory { IfErr result (λ e. e.kind ≡ ErrorKind.OutOfMemory) }
    {
        let token = copy_literal(alloc, &self.token)?;
        Ok(LitCStr { token })
    }
}

impl LitByte {
    /// A copy, with its place. It is refused only where memory runs out.
    pub fn copy(&self, alloc: Global) -> Result<LitByte>
        ensures copied { IfOk result (λ y. y.token ≡ self.now.token) }
        ensures memory { IfErr result (λ e. e.kind ≡ ErrorKind.OutOfMemory) }
    {
        let token = copy_literal(alloc, &self.token)?;
        Ok(LitByte { token })
    }
}

impl LitChar {
    /// A copy, with its place. It is refused only where memory runs out.
    pub fn copy(&self, alloc: Global) -> Result<LitChar>
        ensures copied { IfOk result (λ y. y.token ≡ self.now.token) }
        ensures memory { IfErr result (λ e. e.kind ≡ ErrorKind.OutOfMemory) }
    {
        let token = copy_literal(alloc, &self.token)?;
        Ok(LitChar { token })
    }
}

impl LitInt {
    /// A copy, with its place and its sign. It is refused only where memory runs out.
    pub fn copy(&self, alloc: Global) -> Result<LitInt>
        ensures copied { IfOk result (λ y. lit_int_of y ≡ lit_int_of self.now) }
        ensures memory { IfErr result (λ e. e.kind ≡ ErrorKind.OutOfMemory) }
    {
        let token = copy_literal(alloc, &self.token)?;
        Ok(LitInt {
            minus_token: self.minus_token,
            token,
        })
    }
}

impl LitFloat {
    /// A copy, with its place and its sign. It is refused only where memory runs out.
    pub fn copy(&self, alloc: Global) -> Result<LitFloat>
        ensures copied { IfOk result (λ y. lit_float_of y ≡ lit_float_of self.now) }
        ensures memory { IfErr result (λ e. e.kind ≡ ErrorKind.OutOfMemory) }
    {
        let token = copy_literal(alloc, &self.token)?;
        Ok(LitFloat {
            minus_token: self.minus_token,
            token,
        })
    }
}

impl LitBool {
    /// A copy, with its place. It is refused only where memory runs out.
    pub fn copy(&self, alloc: Global) -> Result<LitBool>
        ensures copied { IfOk result (λ y. y.word ≡ self.now.word) }
        ensures memory { IfErr result (λ e. e.kind ≡ ErrorKind.OutOfMemory) }
    {
        let word = copy_ident(alloc, &self.word)?;
        Ok(LitBool { word })
    }
}

impl Lit {
    /// A copy, with its place. It is refused only where memory runs out.
    pub fn copy(&self, alloc: Global) -> Result<Lit>
        ensures copied { IfOk result (λ y. lit_of y ≡ lit_of self.now) }
        ensures memory { IfErr result (λ e. e.kind ≡ ErrorKind.OutOfMemory) }
    {
        match self {
            Lit::Str(x) => Ok(Lit::Str(x.copy(alloc)?)),
            Lit::ByteStr(x) => Ok(Lit::ByteStr(x.copy(alloc)?)),
            Lit::CStr(x) => Ok(Lit::CStr(x.copy(alloc)?)),
            Lit::Byte(x) => Ok(Lit::Byte(x.copy(alloc)?)),
            Lit::Char(x) => Ok(Lit::Char(x.copy(alloc)?)),
            Lit::Int(x) => Ok(Lit::Int(x.copy(alloc)?)),
            Lit::Float(x) => Ok(Lit::Float(x.copy(alloc)?)),
            Lit::Bool(x) => Ok(Lit::Bool(x.copy(alloc)?)),
        }
    }
}
