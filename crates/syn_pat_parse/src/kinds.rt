//! What the readers ask of the type of patterns, beside that it is made of a struct of each kind.

ghost use Rattle.std.specs.Prelude.{◌≡◌};
ghost use Rattle.syn_lower_spec.specs.Pat as pat;
ghost use Rattle.syn_pat.specs.View.{view_with};
ghost use Rattle.syn_pat_parse.specs.Reads.{unattributed};

use syn_lower::attr::Attribute;
use syn_pat::kinds::IsPat;

/// A type of patterns that readers read.
pub trait ReadPat: IsPat {
    /// Whether it is `..` alone, without attributes.
    fn is_rest(&self) -> bool
        ensures { result ≡ pat.is_rest (Self.view self.now).tree };

    /// The pattern with these attributes in the place of its own.
    fn with_attrs(self, attrs: Vec<Attribute>) -> Self
        ensures { Self.view result ≡ view_with attrs (unattributed (Self.view self).tree) (Self.view self).guards };
}
