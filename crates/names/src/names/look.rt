//! What a table tells: how many names it has, the name with a number, and the number of a name.

ghost use Rattle.std.specs.Prelude.{◌≡◌, ◌<◌, ◌≤◌, [], length, IfSome, Some, slice_index_or};
ghost use Rattle.names.specs.Listed.{Lawful, Tells, name_at, place_of};
ghost use Rattle.names.specs.View.{list};
ghost use Rattle.std.specs.Option.{option_map};

use crate::names::Names;

impl Names {
    /// How many names there are.
    pub fn len(&self) -> usize
        ensures value { result ≡ length (list self.now) }
        ensures bound { (48 ≤ result) × (result ≤ 512) }
        ensures lawful { Lawful (list self.now) }
    {
        self.bounds.len() - 1
    }

    // The name with the number i.
    fn at(&self, i: usize) -> &[u8]
        requires { i < length (list self.now) }
        ensures { result.now ≡ slice_index_or (list self.now) i [] }
    {
        let start = self.bounds[i] as usize;
        let end = self.bounds[i + 1] as usize;
        &self.bytes[start..end]
    }

    /// The bytes of the name with that number. No other number has the same name.
    pub fn get(&self, name: u16) -> Option<&[u8]>
        ensures value { option_map (λ x. x.now) result ≡ name_at (list self.now) name }
        ensures place { IfSome result (λ x. place_of (list self.now) x.now ≡ Some name) }
    {
        let i = name as usize;
        if i < self.len() {
            Some(self.at(i))
        } else {
            None
        }
    }

    /// The number of the name, if it is in the table.
    #[tactic(auto, using(crate::proofs::ListedProperties::tells))]
    pub fn find(&self, name: &[u8]) -> Option<u16>
        ensures value { result ≡ place_of (list self.now) name.now }
        ensures tells { Tells (list self.now) name.now result }
    {
        self.place(name).map(|place| place as u16)
    }

    // The same as an index.
    fn place(&self, name: &[u8]) -> Option<usize>
        ensures value { result ≡ place_of (list self.now) name.now }
        ensures bound { IfSome result (λ place. place < 512) }
    {
        // over numbers: an iterator of names would need laws of its own
        (0..self.len()).find(|i| self.at(*i) == name)
    }
}
