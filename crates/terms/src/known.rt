//! The places of the names that every table of names begins with, and the limits of a text.

ghost use Rattle.std.specs.Prelude.{◌≡◌, ◌<◌, [], slice_index_or};
ghost use Rattle.terms.specs.Known.{known};
ghost use Rattle.terms.specs.BuiltIns.{built_in, is_built_in};

use crate::built_in::BuiltIn;

// Numbers and no variants of `BuiltIn`: a node holds any name by its number, that of a predicate or not.
pub const TRUE: u16 = 0;

pub const COMMA: u16 = 3;

pub const SEMICOLON: u16 = 4;

pub const CALL: u16 = 6;

pub const EMPTY_LIST: u16 = 45;

pub const LIST_CELL: u16 = 46;

/// How many names are known before any text is read.
pub const KNOWN: usize = 48;

pub const MAX_NODES: usize = 256;

pub const MAX_VARIABLES: usize = 32;

pub const MAX_ARGUMENTS: usize = 8;

pub const MAX_NAME: usize = 64;

/// Whether the name at a place and so many arguments are those of a built-in predicate.
pub fn is_built_in(name: u16, arity: usize) -> bool
    ensures placed { result ≡ built_in name arity }
    ensures named { name < 48 → result ≡ is_built_in (slice_index_or known name []) arity }
{
    match BuiltIn::try_from(name) {
        Ok(known) => known.takes(arity),
        Err(_) => false,
    }
}
