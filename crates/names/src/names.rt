//! The table: all names one after another, and where each begins and ends.

mod add;
mod known;
mod look;
pub mod mark;

ghost use Rattle.std.specs.Prelude.{◌≡◌, ◌≤◌, true, vec_len, vec_capacity};
ghost use Rattle.names.specs.Listed.{begins, distinct, short};
ghost use Rattle.names.specs.Table.{ascends, names_of};
ghost use Rattle.terms.specs.Known.{known};

pub const MAX_NAMES: usize = 512;

pub const MAX_BYTES: usize = 8192;

/// The name with the number i is `bytes[bounds[i]..bounds[i + 1]]`, so there is one bound more than there are names.
/// Two vectors and not one of texts, since memory is fixed: all of it is reserved when the table is made.
#[derive(Drop)]
pub struct Names {
    bytes: Vec<u8>,
    bounds: Vec<u16>,
    ghost few: { vec_len bounds ≤ 513 },
    ghost small: { vec_len bytes ≤ 8192 },
    ghost room: { 513 ≤ vec_capacity bounds },
    ghost space: { 8192 ≤ vec_capacity bytes },
    ghost cut: { ascends (vec_len bytes) bounds.items ≡ true },
    ghost brief: { short (names_of bytes.items bounds.items) ≡ true },
    ghost apart: { distinct (names_of bytes.items bounds.items) ≡ true },
    ghost first: { begins known (names_of bytes.items bounds.items) ≡ true },
}
