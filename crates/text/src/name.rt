//! The bytes of a name as it is written.

ghost use Rattle.std.specs.Prelude.{◌≡◌, ◌≤◌, ◌↔◌, false, length, vec_capacity, IsOk, OnOk, IsOkUnless};
ghost use Rattle.tokens.specs.Scanning.{undouble};
ghost use Rattle.text.specs.declared.fault.LimitFault.TheVariants.{LongName};

use crate::fault::LimitFault;
use terms::known::MAX_NAME;

/// Writes the bytes of a quoted name, each doubled quote as one, into the buffer, unless they are more than 64.
/// The buffer is the builder's memory, so the room is said here and not by a type.
pub fn unquote(inside: &[u8], buffer: &mut Vec<u8>) -> Result<(), LimitFault>
    requires { 64 ≤ vec_capacity buffer.old }
    ensures room { vec_capacity buffer.new ≡ vec_capacity buffer.old }
    ensures short { IsOk result ↔ (length (undouble false inside.now) ≤ 64) }
    ensures long { IsOkUnless result LongName }
    ensures items { OnOk result (buffer.new.items ≡ undouble false inside.now) }
{
    buffer.clear();
    let mut rest = inside;
    // a slice pattern takes a doubled quote as one byte; an iterator would need a state beside it
    loop {
        let (byte, behind) = match rest {
            [] | [b'\''] => return Ok(()),
            [b'\'', byte, behind @ ..] | [byte, behind @ ..] => (*byte, behind),
        };
        if buffer.len() >= MAX_NAME {
            return Err(LimitFault::LongName);
        }
        buffer.push_reserved(byte);
        rest = behind;
    }
}
