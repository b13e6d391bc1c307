//! The values of literals (Rust Reference, "Literal expressions"), their digits and their suffixes.
//!
//! A literal whose text the compiler refuses has no value, as `'\q'`, and a value that is too large for the type that is asked
//! for is none of it.

ghost use Rattle.std.specs.Fmt.{decimal};
ghost use Rattle.std.specs.Prelude.{◌≡◌, ◌⊎◌, Some, None, IfOk, IfErr, chars, string_bytes, encode_utf8_all, option_map};
ghost use Rattle.syn_lower_leaves.specs.Parsed.{Parses};
ghost use Rattle.syn_lower_leaves.specs.Value as spec;
ghost use Rattle.syn_lower_leaves.specs.View.{signed};

use crate::error::{LitError, LitErrorKind};
use crate::lit::{LitBool, LitByte, LitByteStr, LitChar, LitFloat, LitInt, LitStr};
use crate::number::{float_digits, float_suffix, int_suffix, int_value};
use crate::quoted::{byte_str_value, byte_value, char_value, str_value};
use std::alloc::{AllocError, Global};
use syn_tokens::tree::Literal;

/// The characters of a token.
fn chars_of(alloc: Global, token: &Literal) -> Result<Vec<char>, AllocError>
    ensures { IfOk result (λ v. v.items ≡ chars token.now) }
{
    token.as_str().chars().collect::<Vec<char>>(alloc)
}

/// The refusal of a literal that has no value.
fn no_value(token: &Literal) -> LitError
    ensures { result.kind ≡ LitErrorKind.Malformed }
{
    LitError {
        span: token.span(),
        kind: LitErrorKind::Malformed,
    }
}

/// The refusal of a literal that is too large.
fn too_large(token: &Literal) -> LitError
    ensures { result.kind ≡ LitErrorKind.OutOfRange }
{
    LitError {
        span: token.span(),
        kind: LitErrorKind::OutOfRange,
    }
}

impl LitStr {
    /// Its value. It is refused as a malformed literal where it has none, and where memory runs out.
    pub fn value(&self, alloc: Global) -> Result<String, LitError>
        ensures value { IfOk result (λ s. Some (string_bytes s) ≡ option_map encode_utf8_all (spec.str_value (chars self.now.token))) }
        ensures refused { IfErr result (λ e. (e.kind ≡ LitErrorKind.OutOfMemory) ⊎ ((e.kind ≡ LitErrorKind.Malformed) × (spec.str_value (chars self.now.token) ≡ None))) }
    {
        let text = chars_of(alloc, &self.token)?;
        match str_value(alloc, text.as_slice())? {
            Some(value) => Ok(value),
            None => Err(no_value(&self.token)),
        }
    }
}

impl LitByteStr {
    /// Its value. It is refused as a malformed literal where it has none, and where memory runs out.
    pub fn value(&self, alloc: Global) -> Result<Vec<u8>, LitError>
        ensures value { IfOk result (λ v. Some v.items ≡ spec.byte_str_value (chars self.now.token)) }
        ensures refused { IfErr result (λ e. (e.kind ≡ LitErrorKind.OutOfMemory) ⊎ ((e.kind ≡ LitErrorKind.Malformed) × (spec.byte_str_value (chars self.now.token) ≡ None))) }
    {
        let text = chars_of(alloc, &self.token)?;
        match byte_str_value(alloc, text.as_slice())? {
            Some(value) => Ok(value),
            None => Err(no_value(&self.token)),
        }
    }
}

impl LitChar {
    /// Its value. It is refused as a malformed literal where it has none, and where memory runs out, since its characters are
    /// listed.
    pub fn value(&self, alloc: Global) -> Result<char, LitError>
        ensures value { IfOk result (λ c. spec.char_value (chars self.now.token) ≡ Some c) }
        ensures refused { IfErr result (λ e. (e.kind ≡ LitErrorKind.OutOfMemory) ⊎ ((e.kind ≡ LitErrorKind.Malformed) × (spec.char_value (chars self.now.token) ≡ None))) }
    {
        let text = chars_of(alloc, &self.token)?;
        match char_value(text.as_slice()) {
            Some(value) => Ok(value),
            None => Err(no_value(&self.token)),
        }
    }
}

impl LitByte {
    /// Its value. It is refused as a malformed literal where it has none, and where memory runs out, since its characters are
    /// listed.
    pub fn value(&self, alloc: Global) -> Result<u8, LitError>
        ensures value { IfOk result (λ b. spec.byte_value (chars self.now.token) ≡ Some b) }
        ensures refused { IfErr result (λ e. (e.kind ≡ LitErrorKind.OutOfMemory) ⊎ ((e.kind ≡ LitErrorKind.Malformed) × (spec.byte_value (chars self.now.token) ≡ None))) }
    {
        let text = chars_of(alloc, &self.token)?;
        match byte_value(text.as_slice()) {
            Some(value) => Ok(value),
            None => Err(no_value(&self.token)),
        }
    }
}

impl LitBool {
    /// Its value.
    pub fn value(&self) -> bool
        ensures { result ≡ spec.bool_value self.now.word }
    {
        self.word.is("true")
    }
}

impl LitInt {
    /// Its suffix, which may be empty.
    pub fn suffix(&self) -> &str
        ensures { result.now ≡ spec.int_suffix self.now.token }
    {
        int_suffix(self.token.as_str())
    }

    /// Its value in decimal digits, after a `-` where it has a sign. It is refused where its value is above that of any integer
    /// type (`OutOfRange`), and where memory runs out.
    pub fn base10_digits(&self, alloc: Global) -> Result<String, LitError>
        ensures value { IfOk result (λ s. Some (string_bytes s) ≡ option_map (λ n. signed self.now.minus_token (decimal n)) (spec.in_u128 (spec.int_value self.now.token))) }
        ensures refused { IfErr result (λ e. (e.kind ≡ LitErrorKind.OutOfMemory) ⊎ ((e.kind ≡ LitErrorKind.OutOfRange) × (spec.in_u128 (spec.int_value self.now.token) ≡ None))) }
    {
        let Some(value) = int_value(self.token.as_str()) else {
            return Err(too_large(&self.token));
        };
        let digits = match self.minus_token {
            Some(_) => format!(in alloc; "-{value}")?,
            None => format!(in alloc; "{value}")?,
        };
        Ok(digits)
    }

    /// Its value as an integer of the type that is asked for, whatever its suffix. It is refused where the type has no such
    /// value (`OutOfRange`).
    pub fn base10_parse<N: TryFrom<u128> + TryFrom<i128>>(&self) -> Result<N, LitError>
    where
        <N as TryFrom<u128>>::Error: Drop,
        <N as TryFrom<i128>>::Error: Drop,
        ensures { Parses N.TryFrom-1.try_from_gives N.TryFrom-2.try_from_gives self.now.minus_token (spec.in_u128 (spec.int_value self.now.token)) result }
    {
        let Some(value) = int_value(self.token.as_str()) else {
            return Err(too_large(&self.token));
        };
        if self.minus_token.is_none() {
            return match <N as TryFrom<u128>>::try_from(value) {
                Ok(value) => Ok(value),
                Err(_error) => Err(too_large(&self.token)),
            };
        }
        match 0i128.checked_sub_unsigned(value) {
            Some(value) => match <N as TryFrom<i128>>::try_from(value) {
                Ok(value) => Ok(value),
                Err(_error) => Err(too_large(&self.token)),
            },
            None => Err(too_large(&self.token)),
        }
    }
}

impl LitFloat {
    /// Its suffix, which may be empty.
    pub fn suffix(&self) -> &str
        ensures { result.now ≡ spec.float_suffix self.now.token }
    {
        float_suffix(self.token.as_str())
    }
    /// Its digits, with its dot and its exponent, after a `-` where it has a sign; underscores are left out. It is refused
    /// only where memory runs out.
    pub fn base10_digits(&self, alloc: Global) -> Result<String, AllocError>
        ensures { IfOk result (λ s. string_bytes s ≡ signed self.now.minus_token (spec.float_digits self.now.token)) }
    {
        let digits = float_digits(alloc, self.token.as_str())?;
        match self.minus_token {
            Some(_) => Ok(format!(in alloc; "-{digits}")?),
            None => Ok(digits),
        }
    }
}
