//! A line as it is read: how far, and the steps that build what was read.

ghost use Rattle.std.specs.Prelude.{◌≡◌, ◌≢◌, ◌+◌, ◌<◌, ◌≤◌, true, [], length, drop, vec_len, vec_capacity};
ghost use Rattle.tokens.specs.declared.kind.Kind.TheVariants.{Stray as a_stray};
ghost use Rattle.tokens.specs.Scanning.{head_kind, Inside};
ghost use Rattle.grammar.specs.Places.{first_is};

use crate::fault::{TermFault, unexpected};
use crate::op::Op;
use std::mem;
use tokens::kind::{Kind, Run};
use tokens::scan::{kind_at, run_end};

mod sentence;
mod term;

/// The place that is reached, and the steps so far. Each byte that is passed leaves room for one step.
#[derive(Drop)]
pub struct Cursor<'a> {
    pub line: &'a [u8],
    pub pos: usize,
    pub ops: Vec<Op>,
    pub ghost within: { pos ≤ length line.now },
    pub ghost room: { vec_len ops + length line.now ≤ vec_capacity ops + pos },
}

impl<'a> Cursor<'a> {
    ghost use Rattle.reader.specs.Reading.{Faulted};
    ghost use Rattle.reader.specs.Cursors.{Starts, Skips, Passes};

    /// At the first byte of the line, with no steps and the whole memory for them.
    pub fn new(line: &'a [u8], memory: &mut Vec<Op>) -> Cursor<'a>
        requires { length line.now ≤ vec_capacity memory.old }
        ensures starts { Starts line.now result }
        ensures taken { memory.new.items ≡ [] }
        ensures same_room { vec_capacity result.ops ≡ vec_capacity memory.old }
    {
        let heap = *memory.allocator();
        let mut ops = mem::replace(memory, Vec::new(heap));
        ops.clear();
        Cursor { line, pos: 0, ops }
    }

    /// The steps, and the memory that they lie in.
    pub fn into_ops(self) -> Vec<Op>
        ensures { result ≡ self.entry.ops }
    {
        let Cursor {
            line: _,
            pos: _,
            ops,
        } = self;
        ops
    }

    // The kind of the byte at the place.
    fn kind(&self) -> Kind
        ensures value { result ≡ head_kind (drop self.now.pos self.now.line.now) }
        ensures inside { Inside result self.now.pos self.now.line.now }
    {
        kind_at(self.line, self.pos)
    }

    // Whether this byte stands at the place.
    fn is_at(&self, b: u8) -> bool
        ensures value { result ≡ first_is b (drop self.now.pos self.now.line.now) }
        ensures inside { result ≡ true → self.now.pos < length self.now.line.now }
    {
        self.line.get(self.pos) == Some(&b)
    }

    // Passes the spaces at the place.
    fn skip_spaces(&mut self)
        ensures { Skips self.old self.new }
    {
        self.pos = run_end(self.line, self.pos, Run::Spaces);
    }

    // Passes the byte at the place, which must be of this kind.
    fn pass(&mut self, kind: Kind, left: u8) -> Result<(), TermFault>
        requires { kind ≢ a_stray }
        ensures { Passes kind left self.old self.new result }
    {
        if self.kind() != kind {
            return Err(self.unexpected(left));
        }
        self.pos += 1;
        Ok(())
    }

    // What is wrong at the place, where no token that stands there may stand.
    fn unexpected(&self, left: u8) -> TermFault
        ensures { Faulted self.now.line.now self.now.pos result left }
    {
        unexpected(self.line, self.pos, left)
    }
}
