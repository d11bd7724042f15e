//! How the live labels are searched.

ghost use Rattle.std.specs.Prelude.{◌≡◌, ◌≤◌, ◌==◌, drop, length, position};
ghost use Rattle.rules.specs.Meaning.{first_of};
ghost use Rattle.tablestore.specs.Rows.{own};
ghost use Rattle.tablestore.specs.Views.{rules_of, live_of};

use crate::table::TableStore;
use rules::Indicator;

impl TableStore {
    // How many live labels stand before this one; none if it is not there.
    // Apart from its callers: inlined into `erase`, the search keeps eight numbers in step where it needs two.
    #[inline(never)]
    pub(crate) fn place(&self, label: u32) -> Option<usize>
        ensures { result ≡ position (λ live. live == label) (live_of self.now) }
    {
        self.live.iter().position(|live| *live == label)
    }

    // The first live label of this indicator from a place on.
    pub(crate) fn first_from(&self, indicator: Indicator, from: usize) -> Option<u32>
        requires { from ≤ length (live_of self.now) }
        ensures { result
            ≡ first_of (own (rules_of self.now) (drop from (live_of self.now)) indicator.name indicator.arity) }
    {
        self.live[from..]
            .iter()
            .find(|label| self.table.is_of(**label, indicator))
            .copied()
    }
}
