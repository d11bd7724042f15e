//! Why a store takes no rule, and why none is made.

ghost use Rattle.std.specs.Prelude.{◌≡◌, Some, codes};
ghost use Rattle.rules.specs.declared.fault.MakeFault.TheVariants.{Memory};
ghost use Rattle.rules.specs.Faults.{fault_text};

use std::alloc::AllocError;
use std::error::Error;
use std::fmt;

/// The store takes no more rules, or no more nodes.
#[derive(Clone, Copy, Debug, PartialEq, Eq)]
pub struct Full;

impl fmt::Display for Full {
    ghost output = { λ _. Some (codes "the store is full") };

    fn fmt<W: fmt::Write>(&self, f: &mut fmt::Formatter<W>) -> fmt::Result {
        write!(f, "the store is full")
    }
}

impl Error for Full {}

/// Why no store is made: a size that no store has, or want of memory.
#[derive(Clone, Copy, Debug, PartialEq, Eq)]
pub enum MakeFault {
    Size,
    Memory,
}

impl fmt::Display for MakeFault {
    ghost output = { λ fault. Some (fault_text fault) };

    fn fmt<W: fmt::Write>(&self, f: &mut fmt::Formatter<W>) -> fmt::Result {
        match self {
            MakeFault::Size => write!(f, "no store has this size"),
            MakeFault::Memory => write!(f, "there is no memory for the store"),
        }
    }
}

impl Error for MakeFault {}

impl From<AllocError> for MakeFault {
    ghost from_gives = { λ _ r. r ≡ Memory };

    fn from(_fault: AllocError) -> MakeFault {
        Self::Memory
    }
}
