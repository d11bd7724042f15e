//! One name more.

ghost use Rattle.std.specs.Prelude.{◌≡◌, ◌+◌, ◌<◌, ◌≤◌, [], ◌∷◌, ◌++◌, length, IfOk, Some, None, vec_len, vec_capacity};
ghost use Rattle.names.specs.Interned.{interned, list_after};
ghost use Rattle.names.specs.Listed.{Extends, name_at, place_of, total};
ghost use Rattle.names.specs.View.{list};

use crate::fault::NameFault;
use crate::names::{MAX_BYTES, MAX_NAMES, Names};
use terms::known::MAX_NAME;

impl Names {
    /// The number of the name, which is added at the end if it is not yet in the table.
    /// The names before it keep theirs.
    pub fn intern(&mut self, name: &[u8]) -> Result<u16, NameFault>
        ensures value { result ≡ interned (list self.old) name.now }
        ensures after { list self.new ≡ list_after (list self.old) name.now }
        ensures kept { Extends (list self.old) (list self.new) }
        ensures holds { IfOk result (λ place. name_at (list self.new) place ≡ Some name.now) }
    {
        if name.len() > MAX_NAME {
            return Err(NameFault::TooLong);
        }
        if let Some(place) = self.find(name) {
            return Ok(place);
        }
        let place = self.len();
        let end = self.used() + name.len();
        if place >= MAX_NAMES || end > MAX_BYTES {
            return Err(NameFault::Full);
        }
        self.add(name);
        Ok(place as u16)
    }

    // How many bytes the names have in all.
    fn used(&self) -> usize
        ensures value { result ≡ total (list self.now) }
        ensures bound { result ≤ 8192 }
    {
        self.bytes.len()
    }

    // Adds a name for which there is room.
    fn add(&mut self, name: &[u8])
        requires new { place_of (list self.old) name.now ≡ None }
        requires brief { length name.now ≤ 64 }
        requires few { length (list self.old) < 512 }
        requires room { total (list self.old) + length name.now ≤ 8192 }
        ensures { list self.new ≡ list self.old ++ name.now ∷ [] }
    {
        let end = self.bytes.len() + name.len();
        self.bytes.extend_from_slice(name).unwrap();
        self.bounds.push_reserved(end as u16);
    }
}
