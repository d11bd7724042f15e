//! Parts of a text.

ghost use Rattle.std.specs.Prelude.{◌≡◌, ◌+◌, ◌-◌, ◌<◌};
ghost use Rattle.reader.specs.Ops.{part};

/// A part of a text, from its first place to the place behind it.
#[derive(Clone, Copy, Debug, PartialEq, Eq)]
pub struct Span {
    pub start: usize,
    pub end: usize,
}

impl Span {
    /// Without its first and its last byte.
    pub fn inside(self) -> Span
        requires { self.start < self.end }
        ensures { result ≡ record { start = self.start + 1; end = self.end - 1 } }
    {
        Span {
            start: self.start + 1,
            end: self.end - 1,
        }
    }
}

/// The part of the text that the span is, as far as there is one.
pub fn part<'a>(text: &'a [u8], span: Span) -> &'a [u8]
    ensures { result.now ≡ part text.now span.start span.end }
{
    let last = span.end.min(text.len());
    let first = span.start.min(last);
    &text[first..last]
}
