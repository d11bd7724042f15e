//! The numbers of variables, in the order in which they are met.

ghost use Rattle.std.specs.Prelude.{◌≡◌, ◌≤◌, vec_len, vec_capacity};
ghost use Rattle.text.specs.Numbering.{found_in, is_lone};
ghost use Rattle.text.specs.Building.{cuts, Numbers};
ghost use Rattle.reader.specs.Ops.{part as cut};

use crate::fault::LimitFault;
use reader::span::{Span, part};
use terms::known::MAX_VARIABLES;

// The place of the first of the variables that has the name; a lone `_` has none.
fn find(variables: &[Span], text: &[u8], name: &[u8]) -> Option<usize>
    ensures { result ≡ found_in (cuts text.now variables.now) name.now }
{
    if is_lone(name) {
        return None;
    }
    variables
        .iter()
        .position(|known| part(text, *known) == name)
}

// Whether the name is a lone `_`.
fn is_lone(name: &[u8]) -> bool
    ensures { result ≡ is_lone name.now }
{
    name == b"_".as_slice()
}

/// The number of a variable: that of an earlier one of the same name, else the next; `_` is always new.
/// The variables are the builder's memory, so the room is said here and not by a type.
pub fn number(variables: &mut Vec<Span>, text: &[u8], span: Span) -> Result<u32, LimitFault>
    requires few { vec_len variables.old ≤ 32 }
    requires room { 32 ≤ vec_capacity variables.old }
    ensures same_room { vec_capacity variables.new ≡ vec_capacity variables.old }
    ensures still_few { vec_len variables.new ≤ 32 }
    ensures value { Numbers (cuts text.now variables.old.items) (cut text.now span.start span.end)
        (cuts text.now variables.new.items) result }
{
    let name = part(text, span);
    if let Some(known) = find(variables.as_slice(), text, name) {
        return Ok(known as u32);
    }
    let next = variables.len();
    if next >= MAX_VARIABLES {
        return Err(LimitFault::Variables);
    }
    variables.push_reserved(span);
    Ok(next as u32)
}
