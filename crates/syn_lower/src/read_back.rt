//! Whether types are read back from their own tokens. The tests of the parts, and what it means that one is read back,
//! are in `syn_lower_types::read_back`. Here are the tests of `Type`, on which they stand.

ghost use Rattle.std.specs.Prelude.{◌≡◌, true, false};
ghost use Rattle.syn_lower.specs.View.{type_of};
ghost use Rattle.syn_lower_spec.specs.Fits as spec;

use crate::ty::Type;
use syn_lower_types::fits::{bounds_end_before_colons, output_ends_before_colons};
pub use syn_lower_types::read_back::qpath_is_read_back;
use syn_lower_types::types::FitTypes;

#[tactic(auto, using(crate::proofs::Makes::makes))]
impl FitTypes for Type {
    #[cycle(fits)]
    fn fits_where(&self, several: bool) -> bool {
        match self {
            Type::Path(x) => x.is_read_back(),
            Type::Macro(x) => x.is_read_back(),
            Type::Reference(x) => x.is_read_back(),
            Type::Ptr(x) => x.is_read_back(),
            Type::Slice(x) => x.is_read_back(),
            Type::Array(x) => x.is_read_back(),
            Type::Tuple(x) => x.is_read_back(),
            Type::Paren(x) => x.is_read_back(),
            Type::Never(_) => true,
            Type::Infer(_) => true,
            Type::FnPtr(x) => x.is_read_back(),
            Type::ImplTrait(x) => x.is_read_back(several),
            Type::TraitObject(x) => x.is_read_back(several),
        }
    }

    #[cycle(fits)]
    #[tactic(auto, using(crate::proofs::Makes::makes, syn_lower_types::proofs::Fitting::colons))]
    fn ends_before_colons(&self) -> bool {
        match self {
            Type::Path(_) => false,
            Type::Macro(_) => true,
            Type::Reference(x) => x.elem.ends_before_colons(),
            Type::Ptr(x) => x.elem.ends_before_colons(),
            Type::Slice(_) => true,
            Type::Array(_) => true,
            Type::Tuple(_) => true,
            Type::Paren(_) => true,
            Type::Never(_) => true,
            Type::Infer(_) => true,
            Type::FnPtr(x) => output_ends_before_colons(&x.output),
            Type::ImplTrait(x) => bounds_end_before_colons(&x.bounds),
            Type::TraitObject(x) => bounds_end_before_colons(&x.bounds),
        }
    }
}

impl Type {
    /// Whether it is read back; after its `impl` or `dyn` there may be several bounds (`parse`), or one (`without_plus`).
    pub fn is_read_back(&self, several: bool) -> bool
        ensures { result ≡ spec.type_fits several (type_of self.now) }
    {
        self.fits_where(several)
    }
}
