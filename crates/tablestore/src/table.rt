//! The table: the rules by label, and the labels of the live rules in one order.

ghost use Rattle.std.specs.Prelude.{◌≡◌, ◌≤◌, true, length, vec_len, vec_capacity};
ghost use Rattle.rules.specs.Meaning.{Fresh, distinct};
ghost use Rattle.rules.specs.Calls.{Makes};
ghost use Rattle.rules.specs.Tables.{IsWithin};
ghost use Rattle.tablestore.specs.Rows.{below};

use rules::{MakeFault, RuleTable};
use std::alloc::Global;

/// The live rules of an indicator have the order of their labels in `live`. All memory is reserved when the store is
/// made.
#[derive(Drop)]
pub struct TableStore {
    pub(crate) table: RuleTable<()>,
    pub(crate) live: Vec<u32>,
    ghost within: { IsWithin table },
    ghost reserved: { table.labels ≤ vec_capacity live },
    ghost few: { vec_len live ≤ length table.kept },
    ghost used: { below (length table.kept) live.items ≡ true },
    ghost once: { distinct live.items ≡ true },
}

impl TableStore {
    ghost use Rattle.tablestore.specs.Views.{meaning_of};

    /// An empty store for so many rules and so many nodes of all rules: 1 to 1,024 rules, 256 to 65,536 nodes.
    pub fn new(heap: Global, labels: usize, space: usize) -> Result<TableStore, MakeFault>
        ensures { Makes (λ s. Fresh labels space (meaning_of s)) labels space result }
    {
        let table = RuleTable::new(heap, labels, space)?;
        let live = Vec::with_capacity(heap, labels)?;
        Ok(TableStore { table, live })
    }
}
