//! Reading rules and queries from their texts.

ghost use Rattle.std.specs.Prelude.{◌≤◌, vec_capacity};

use crate::builder::Builder;
use reader::op::Op;

mod read;

/// No text is longer than a line.
pub const MAX_TEXT: usize = 1024;

/// The memory that reading needs, reserved when the reader is made.
/// It is fixed: nothing allocates afterwards.
#[derive(Drop)]
pub struct TextReader {
    ops: Vec<Op>,
    builder: Builder,
    ghost room: { 1024 ≤ vec_capacity ops },
}
