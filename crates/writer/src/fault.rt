//! Why something is not written.

ghost use Rattle.std.specs.Prelude.{Some, codes};

use std::error::Error;
use std::fmt;

/// It would make the line longer than its limit.
#[derive(Clone, Copy, Debug, PartialEq, Eq)]
pub struct DoesNotFit;

impl fmt::Display for DoesNotFit {
    ghost output = { λ fault. Some (codes "the line would be longer than its limit") };

    fn fmt<W: fmt::Write>(&self, f: &mut fmt::Formatter<W>) -> fmt::Result {
        f.write_str("the line would be longer than its limit")
    }
}

impl Error for DoesNotFit {}
