//! Numbers and variables.

ghost use Rattle.std.specs.Prelude.{◌≡◌, ◌≤◌, ◌++◌, length};
ghost use Rattle.terms.specs.Term.{var};
ghost use Rattle.writer.specs.Lines.{PutsBytes, PutsTerm};
ghost use Rattle.writer.specs.Pieces.{spot_of};
ghost use Rattle.writer.specs.Shown.{place_in};
ghost use Rattle.writing.specs.Writing.{placed};

use crate::fault::DoesNotFit;
use crate::line::LineWriter;
use crate::piece::{Spot, after, before};
use itoa::{Buffer, Integer};

// The first place of a variable, or the number of variables where it is not among them.
// A number and no `Option`: where the variable is new, its number is the answer too.
fn place(seen: &[u32], variable: u32) -> usize
    ensures value { result ≡ place_in seen.now variable }
    ensures within { result ≤ length seen.now }
{
    seen.iter()
        .position(|v| *v == variable)
        .unwrap_or(seen.len())
}

impl LineWriter {
    // A number by its decimal digits, behind a sign and between what its spot asks for.
    pub(super) fn number<I: Integer>(
        &mut self,
        spot: Spot,
        sign: &[u8],
        number: I,
    ) -> Result<(), DoesNotFit>
        ensures { PutsBytes self.old self.new (placed (spot_of spot) (sign.now ++ I.text number)) result }
    {
        self.put(before(spot))?;
        self.put(sign)?;
        self.put(Buffer::new().format(number).as_bytes())?;
        self.put(after(spot))
    }

    // A variable by its number; a new one gets the next.
    pub(super) fn variable(&mut self, spot: Spot, variable: u32) -> Result<(), DoesNotFit>
        ensures { PutsTerm self.old self.new spot (var variable) result }
    {
        let place = place(&self.seen, variable);
        self.number(spot, b"_", place)?;
        if place == self.seen.len() {
            self.seen.push_reserved(variable);
        }
        Ok(())
    }
}
