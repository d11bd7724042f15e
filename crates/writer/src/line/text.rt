//! How a line is made, and bytes as they are.

ghost use Rattle.std.specs.Prelude.{◌≡◌, ◌+◌, ◌≤◌, min, [], ◌++◌, length, IfOk, vec_len, vec_capacity};
ghost use Rattle.writer.specs.Lines.{line_bytes, line_seen, line_limit, PutsBytes, TextAdded};

use crate::fault::DoesNotFit;
use crate::line::LineWriter;
use std::alloc::{AllocError, Global};

// No line has more bytes than this.
// The same number as the greatest space of a store, and another limit.
const MOST: usize = 65536;

// Puts the text behind the bytes, in the memory that is reserved for it.
// Byte by byte: most texts have one or two, and std's `extend_from_slice` takes more time for so few.
fn append(bytes: &mut Vec<u8>, text: &[u8])
    requires { vec_len bytes.old + length text.now ≤ vec_capacity bytes.old }
    ensures items { bytes.new.items ≡ bytes.old.items ++ text.now }
    ensures len { vec_len bytes.new ≡ vec_len bytes.old + length text.now }
    ensures capacity { vec_capacity bytes.new ≡ vec_capacity bytes.old }
{
    for byte in text {
        bytes.push_reserved(*byte);
    }
}

impl LineWriter {
    /// An empty line for at most `limit` bytes, or 65,536 where that is less.
    pub fn new(heap: Global, limit: usize) -> Result<LineWriter, AllocError>
        ensures { IfOk result (λ w. (line_bytes w ≡ []) × (line_seen w ≡ []) × (line_limit w ≡ min limit 65536)) }
    {
        let limit = limit.min(MOST);
        let bytes = Vec::with_capacity(heap, limit)?;
        let seen = Vec::with_capacity(heap, limit)?;
        Ok(LineWriter { bytes, limit, seen })
    }

    /// A new line: no bytes, and no variable seen.
    pub fn clear(&mut self)
        ensures bytes { line_bytes self.new ≡ [] }
        ensures seen { line_seen self.new ≡ [] }
        ensures limit { line_limit self.new ≡ line_limit self.old }
    {
        self.seen.clear();
        self.bytes.clear();
    }

    pub fn bytes(&self) -> &[u8]
        ensures { result.now ≡ line_bytes self.now }
    {
        self.bytes.as_slice()
    }

    /// Adds the bytes as they are, or none of them where they do not all fit.
    pub fn text(&mut self, text: &[u8]) -> Result<(), DoesNotFit>
        ensures { TextAdded self.old self.new text.now result }
    {
        if text.len() > self.limit - self.bytes.len() {
            return Err(DoesNotFit);
        }
        append(&mut self.bytes, text);
        Ok(())
    }

    // The same, as a part of what is written: one such contract joins with the next.
    pub(super) fn put(&mut self, text: &[u8]) -> Result<(), DoesNotFit>
        ensures { PutsBytes self.old self.new text.now result }
    {
        self.text(text)
    }
}
