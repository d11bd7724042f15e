//! Names, in quotes where they need them.

ghost use Rattle.std.specs.Prelude.{◌≡◌, [], ◌∷◌};
ghost use Rattle.tokens.specs.Bytes.{in_run, small};
ghost use Rattle.writing.specs.Writing.{all, bare, doubled, name_text};
ghost use Rattle.writer.specs.Lines.{PutsBytes};
ghost use Rattle.writer.specs.Pieces.{small_word, symbol_name, solo_name};

use crate::fault::DoesNotFit;
use crate::line::LineWriter;
use tokens::kind::{Run, in_run};

fn all_in(bytes: &[u8], run: Run) -> bool
    ensures { result ≡ all (in_run run) bytes.now }
{
    bytes.iter().all(|byte| in_run(run, *byte))
}

// A small letter, and then letters, digits and `_`.
fn is_small_word(name: &[u8]) -> bool
    ensures { result ≡ small_word name.now }
{
    match name {
        [first, rest @ ..] => matches!(first, b'a'..=b'z') && all_in(rest, Run::Word),
        [] => false,
    }
}

// Symbols, but for `:-`.
fn is_symbol_name(name: &[u8]) -> bool
    ensures { result ≡ symbol_name name.now }
{
    !name.is_empty() && name != b":-".as_slice() && all_in(name, Run::Symbols)
}

#[tactic(auto, using(crate::proofs::RunProperties::same_of_lengths))]
fn is_solo_name(name: &[u8]) -> bool
    ensures { result ≡ solo_name name.now }
{
    matches!(name, b";" | b"!")
}

// Whether the name reads as itself without quotes.
fn is_bare(name: &[u8]) -> bool
    ensures { result ≡ bare name.now }
{
    is_small_word(name) || is_symbol_name(name) || is_solo_name(name)
}

impl LineWriter {
    pub(super) fn name(&mut self, name: &[u8]) -> Result<(), DoesNotFit>
        ensures { PutsBytes self.old self.new (name_text name.now) result }
    {
        if is_bare(name) {
            return self.put(name);
        }
        self.put(b"'")?;
        self.doubled(name)?;
        self.put(b"'")
    }

    // The bytes of a name, each quote twice.
    fn doubled(&mut self, name: &[u8]) -> Result<(), DoesNotFit>
        ensures { PutsBytes self.old self.new (doubled name.now) result }
    {
        for byte in name {
            self.quoted_byte(*byte)?;
        }
        Ok(())
    }

    fn quoted_byte(&mut self, byte: u8) -> Result<(), DoesNotFit>
        ensures { PutsBytes self.old self.new (doubled (byte ∷ [])) result }
    {
        if byte == b'\'' {
            self.put(b"''")
        } else {
            self.put(&[byte])
        }
    }
}
