//! Members of structs and tuples (Rust Reference, "Field access expressions", "Tuple indexing expressions").

ghost use Rattle.std.specs.Prelude.{◌≡◌, ◌<◌, nat_lt};
ghost use Rattle.syn_expr_tokens.specs.View as view;
ghost use Rattle.syn_expr_tokens.specs.declared.member.Member.TheVariants as variants;
ghost use Rattle.syn_lower_spec.specs.Pat as spec;

use syn_tokens::tree::{Ident, Span};

/// A member: a name, or an index. Equality and hashing ignore places.
#[derive(Debug, Drop)]
#[derive_where(PartialEq, Eq, Hash)]
pub enum Member {
    /// A name, as in `point.x`.
    Named(Ident),
    /// An index, as in `pair.0`.
    Unnamed(Index),
}

/// The index of a member without a name. Equality and hashing ignore its place.
#[derive(Debug, Drop)]
#[derive_where(PartialEq, Eq, Hash)]
pub struct Index {
    /// The index.
    pub index: u32,
    /// Where it is.
    #[derive_where(skip(EqHashOrd))]
    pub span: Span,
}

impl Index {
    /// Whether `from_usize` takes a number: those below 4294967295, as in syn. An index that is read may be 4294967295 too.
    pub fn fits(index: usize) -> bool
        ensures { result ≡ nat_lt index 4294967295 }
    {
        index < 4294967295
    }

    /// The index of a number below 4294967295, at no place. Ask `fits` first.
    pub fn from_usize(index: usize) -> Index
        requires fits { index < 4294967295 }
        ensures { result ≡ record { index = index; span = record { lo = 0; hi = 0 } } }
    {
        Index {
            index: index as u32,
            span: Span::call_site(),
        }
    }
}

impl Member {
    /// The member of a number below 4294967295, at no place. Ask `Index::fits` first.
    pub fn from_usize(index: usize) -> Member
        requires fits { index < 4294967295 }
        ensures { result ≡ variants.Unnamed (record { index = index; span = record { lo = 0; hi = 0 } }) }
    {
        Member::Unnamed(Index::from_usize(index))
    }

    /// Whether it is a name.
    pub fn is_named(&self) -> bool
        ensures { result ≡ view.is_named self.now }
    {
        matches!(self, Member::Named(_))
    }
}

impl From<Ident> for Member {
    ghost from_gives = { λ x m. view.member_of m ≡ spec.a_name x };

    fn from(ident: Ident) -> Member {
        Member::Named(ident)
    }
}

impl From<Index> for Member {
    ghost from_gives = { λ x m. m ≡ variants.Unnamed x };

    fn from(index: Index) -> Member {
        Member::Unnamed(index)
    }
}
