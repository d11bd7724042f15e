//! A line of bytes in memory that is reserved when it is made.

mod name;
mod number;
mod term;
mod text;

ghost use Rattle.std.specs.Prelude.{◌≤◌, vec_len, vec_capacity};

/// At most `limit` bytes, and the variables that were written, in order of first appearance.
/// Each variable has a byte of its own at least, so that there are no more variables than bytes.
/// No model: each contract is one definition over the line before and after, and a value of a model makes none shorter.
/// Two buffers, since memory is fixed: both are reserved when the line is made.
#[derive(Drop)]
pub struct LineWriter {
    bytes: Vec<u8>,
    limit: usize,
    seen: Vec<u32>,
    ghost few: { vec_len bytes ≤ limit },
    ghost room: { limit ≤ vec_capacity bytes },
    ghost small: { limit ≤ 65536 },
    ghost fewer: { vec_len seen ≤ vec_len bytes },
    ghost space: { limit ≤ vec_capacity seen },
}
