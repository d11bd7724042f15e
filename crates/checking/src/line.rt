//! One line of input, of which no more is kept than a line may have.

ghost use Rattle.std.specs.Prelude.{◌≡◌, ◌≤◌, ℕ, List, [], ◌∷◌, ◌++◌, length, IfOk};
ghost use Rattle.checking.specs.Lines.{Keeps, is_blank, is_skipped, problem_of, first_after, bad_from};

use std::alloc::{AllocError, Global};
use std::marker::Model;

/// A line has at most 1,024 bytes, five of which are those of the command.
pub const MAX_LINE: usize = 1019;

/// Why a line is refused whatever it says: the place of a byte that is no printable ASCII character, or its length.
#[derive(Clone, Copy, Debug, PartialEq, Eq)]
pub enum LineProblem {
    BadByte(usize),
    TooLong,
}

/// The first bytes of a line, one more than a line may have where it is longer, and its first byte that is no space.
/// One buffer, since memory is fixed: it is reserved when the line is made.
#[derive(Drop)]
pub struct LineBuffer {
    bytes: Vec<u8>,
    first: Option<u8>,
}

impl Model for LineBuffer {
    ghost use Rattle.checking.specs.Kept.{Kept};

    ghost Value = { Kept };

    ghost use Rattle.std.specs.Prelude.{◌≤◌, vec_len, vec_capacity};
    ghost use Rattle.checking.specs.Kept.{kept_of};

    ghost view = { λ b. kept_of b.bytes.items b.first };

    ghost invariant = { λ b. (1020 ≤ vec_capacity b.bytes) × (vec_len b.bytes ≤ 1020) };
}

impl LineBuffer {
    /// A line of no bytes.
    pub fn new(heap: Global) -> Result<LineBuffer, AllocError>
        ensures { IfOk result (λ b. Keeps b []) }
    {
        let bytes = Vec::with_capacity(heap, MAX_LINE + 1)?;
        Ok(LineBuffer { bytes, first: None })
    }

    /// Begins a new line.
    pub fn clear(&mut self)
        ensures { Keeps self.new [] }
    {
        self.bytes.clear();
        self.first = None;
    }

    /// One byte more: whatever line was kept, it is kept with this byte behind it.
    pub fn push(&mut self, byte: u8)
        ensures { (s : List ℕ) → Keeps self.old s → Keeps self.new (s ++ byte ∷ []) }
    {
        self.first = first_after(self.first, byte);
        if self.bytes.len() <= MAX_LINE {
            self.bytes.push_reserved(byte);
        }
    }

    /// Whether the line has no bytes.
    pub fn is_empty(&self) -> bool
        ensures { (s : List ℕ) → Keeps self.now s → result ≡ is_blank s }
    {
        self.bytes.is_empty()
    }

    /// The bytes of the line, or of a longer one its first.
    pub fn bytes(&self) -> &[u8]
        ensures value { result.now ≡ self.now.bytes }
        ensures short { length result.now ≤ 1019 }
    {
        &self.bytes[..MAX_LINE.min(self.bytes.len())]
    }

    /// Whether the line has only spaces or is a comment.
    pub fn is_skipped(&self) -> bool
        ensures { (s : List ℕ) → Keeps self.now s → result ≡ is_skipped s }
    {
        self.first.is_none_or(|byte| byte == b'%')
    }

    /// Why the line is refused whatever it says, if it is.
    pub fn problem(&self) -> Option<LineProblem>
        ensures { (s : List ℕ) → Keeps self.now s → result ≡ problem_of s }
    {
        if self.bytes.len() > MAX_LINE {
            return Some(LineProblem::TooLong);
        }
        bad_byte(&self.bytes)
    }
}

// The first byte that is no space, with one byte more.
fn first_after(first: Option<u8>, byte: u8) -> Option<u8>
    ensures { result ≡ first_after first byte }
{
    first.or(Some(byte).filter(|b| *b != b' '))
}

// The first byte that may not stand in a line.
fn bad_byte(bytes: &[u8]) -> Option<LineProblem>
    ensures { result ≡ bad_from 0 bytes.now }
{
    bytes
        .iter()
        .position(|byte| !matches!(*byte, b' '..=b'~'))
        .map(LineProblem::BadByte)
}
