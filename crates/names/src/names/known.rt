//! A new table, which holds the known names.

ghost use Rattle.std.specs.Prelude.{◌≡◌, IfOk};
ghost use Rattle.names.specs.View.{list};
ghost use Rattle.terms.specs.Known.{known};

use crate::names::{MAX_BYTES, MAX_NAMES, Names};
use std::alloc::{AllocError, Global};
use terms::known::KNOWN;

// The known names, in order of their numbers.
const NAMES: [&[u8]; KNOWN] = [
    b"true",
    b"fail",
    b"false",
    b",",
    b";",
    b"!",
    b"call",
    b"\\+",
    b"catch",
    b"throw",
    b"findall",
    b"=",
    b"is",
    b"=:=",
    b"=\\=",
    b"<",
    b"=<",
    b">",
    b">=",
    b"asserta",
    b"assertz",
    b"retract",
    b"+",
    b"-",
    b"*",
    b"//",
    b"mod",
    b"abs",
    b"error",
    b"instantiation_error",
    b"type_error",
    b"callable",
    b"list",
    b"evaluable",
    b"existence_error",
    b"procedure",
    b"evaluation_error",
    b"zero_divisor",
    b"int_overflow",
    b"representation_error",
    b"max_arity",
    b"permission_error",
    b"modify",
    b"static_procedure",
    b"/",
    b"[]",
    b".",
    b":-",
];

impl Names {
    /// A table of the known names, with all the memory that it will ever use.
    pub fn new(heap: Global) -> Result<Names, AllocError>
        ensures { IfOk result (λ t. list t ≡ known) }
    {
        let mut bytes = Vec::with_capacity(heap, MAX_BYTES)?;
        let mut bounds = Vec::with_capacity(heap, MAX_NAMES + 1)?;
        bounds.push(0)?;
        for name in NAMES {
            bytes.extend_from_slice(name)?;
            bounds.push(bytes.len() as u16)?;
        }
        Ok(Names { bytes, bounds })
    }
}
