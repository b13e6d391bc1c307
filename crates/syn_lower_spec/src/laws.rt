//! What is true of the lower parts, as contracts of functions that do nothing.

ghost use Rattle.syn_lower_spec.specs.Laws as spec;
ghost use Rattle.syn_lower_spec.specs.Ends as ends;
ghost use Rattle.syn_lower_spec.specs.PatLaws as pat;
ghost use Rattle.syn_lower_spec.specs.Samples as sample;

/// Each part is read exactly where its tokens are, and what is left is what comes after it.
pub fn parts_are_exact()
    ensures { spec.PartsAreExact }
{}

/// What passes the test of a part and is printed is read back as the same part, before whatever doesn't go on with it.
pub fn parts_are_read_back()
    ensures { spec.PartsAreReadBack }
{}

/// Nothing but what passes the test of a part is read back: where the own tokens of a part, and any after them, are
/// read as that part, it passes its test, and the tokens after don't go on with it and are what is left.
pub fn parts_that_are_read_back_fit()
    ensures { spec.PartsThatAreReadBackFit }
{}

/// A part is read back in its place, from its own tokens with nothing after them, exactly where it passes its test.
pub fn tests_are_exact()
    ensures { spec.TestsAreExact }
{}

/// A type is spelled by its kind, and by what spells the types in it.
pub fn types_are_spelled_by_kind()
    ensures { spec.TypesAreSpelledByKind }
{}

/// No list has two types in front, nor two rests.
pub fn one_type()
    ensures { spec.OneType }
{}

/// Patterns without guards, and the arguments of closures, are read exactly where their tokens are.
pub fn patterns_are_exact()
    ensures { pat.PatternsAreExact }
{}

/// A pattern is spelled by its kind, and by what spells the patterns in it.
pub fn patterns_are_spelled_by_kind()
    ensures { pat.PatternsAreSpelledByKind }
{}

/// No list has two patterns in front, nor two rests.
pub fn one_pattern()
    ensures { pat.OnePattern }
{}

/// A pattern that passes its test and is printed is read back as the same pattern, before whatever doesn't go on
/// with it.
pub fn patterns_are_read_back()
    ensures { pat.PatternsAreReadBack }
{}

/// Nothing but what passes its test is read back: where the own tokens of a pattern, and any after them, are read as
/// that pattern, it passes its test, and the tokens after don't go on with it and are what is left.
pub fn patterns_that_are_read_back_fit()
    ensures { pat.PatternsThatAreReadBackFit }
{}

/// A pattern is read back in its place, from its own tokens with nothing after them, exactly where it passes its test.
pub fn pattern_tests_are_exact()
    ensures { pat.PatternTestsAreExact }
{}

/// What doesn't go on with a type, an output, a path, a pattern or an argument of a closure; and before `<`, which types
/// go on.
pub fn parts_end()
    ensures { ends.PartsEnd }
{}

/// Before which tokens types, outputs and paths end.
pub fn types_end_at()
    ensures { ends.TypesEndAt }
{}

/// Before which tokens patterns end.
pub fn patterns_end_at()
    ensures { ends.PatternsEndAt }
{}

/// Types and paths that are easily read wrongly, as the Rust Reference has them.
pub fn type_samples()
    ensures { sample.TypeSamples }
{}

/// Arguments between `<` and `>` that are easily read wrongly: associated types, and negative numbers.
pub fn generic_samples()
    ensures { sample.GenericSamples }
{}

/// The value of an index in each base, the greatest, and texts that are none.
pub fn index_samples()
    ensures { sample.IndexSamples }
{}

/// Patterns that are easily read wrongly, as the Rust Reference has them.
pub fn pattern_samples()
    ensures { sample.PatternSamples }
{}

/// A pattern of each kind, and its tree.
pub fn pattern_kinds()
    ensures { sample.PatternKinds }
{}

/// What is left after a pattern, and lists that begin with none.
pub fn pattern_rests()
    ensures { sample.PatternRests }
{}

/// Arguments of closures.
pub fn closure_args()
    ensures { sample.ClosureArgs }
{}

/// The text that an index is printed as is the one that its number has by `Display`.
pub fn indices_are_decimal()
    ensures { pat.IndicesAreDecimal }
{}
