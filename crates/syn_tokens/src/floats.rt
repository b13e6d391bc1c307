//! Floats after a dot are read as several tokens.

ghost use Rattle.syn_tokens.specs.Floats.{JoinsAgain};

/// `x.0.1` is cut into the tokens `x`, `.` and `0.1`, and read as `x . 0 . 1`: a list is split at the floats after a
/// dot. A split list that remembers its floats can be joined again (a law about definitions; it does nothing).
pub fn floats_are_joined_again()
    ensures { JoinsAgain }
{}
