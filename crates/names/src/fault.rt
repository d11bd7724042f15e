//! Why a name is not added to a table.

ghost use Rattle.std.specs.Prelude.{Some};
ghost use Rattle.names.specs.Faults.{fault_text};

use std::error::Error;
use std::fmt;

/// The name has more than 64 bytes, or the table has no room for it.
#[derive(Clone, Copy, Debug, PartialEq, Eq)]
pub enum NameFault {
    TooLong,
    Full,
}

impl fmt::Display for NameFault {
    ghost output = { λ fault. Some (fault_text fault) };

    fn fmt<W: fmt::Write>(&self, f: &mut fmt::Formatter<W>) -> fmt::Result {
        f.write_str(match self {
            NameFault::TooLong => "the name has more than 64 bytes",
            NameFault::Full => "the table of names has no room for the name",
        })
    }
}

impl Error for NameFault {}
