//! Back to the names that were there at an earlier time.

ghost use Rattle.std.specs.Prelude.{◌≡◌, ◌≤◌, max, length, take};
ghost use Rattle.names.specs.View.{list};

use crate::names::Names;
use terms::known::KNOWN;

/// How many names there were.
#[derive(Clone, Copy, Debug, PartialEq, Eq)]
pub struct Mark {
    count: u16,
}

impl Names {
    pub fn mark(&self) -> Mark
        ensures value { result.count ≡ length (list self.now) }
        ensures bound { 48 ≤ result.count }
    {
        Mark {
            count: self.len() as u16,
        }
    }

    /// Forgets the names that were added since the mark. The known names always stay.
    pub fn back_to(&mut self, mark: Mark)
        ensures { list self.new ≡ take (max mark.count 48) (list self.old) }
    {
        let keep = (mark.count as usize).max(KNOWN);
        if keep < self.len() {
            let end = self.bounds[keep] as usize;
            self.bytes.truncate(end);
            self.bounds.truncate(keep + 1);
        }
    }
}
