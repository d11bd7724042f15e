//! The store: the rules by label, and the rings of their labels.

ghost use Rattle.std.specs.Prelude.{◌≡◌, ◌+◌, false, length, vec_len, slice_index_or};
ghost use Rattle.rules.specs.declared.indicator.Indicator.{Indicator};
ghost use Rattle.rules.specs.Meaning.{Fresh, ever_added};
ghost use Rattle.rules.specs.Calls.{Makes};
ghost use Rattle.rules.specs.Tables.{rules_in, IsWithin};
ghost use Rattle.chainstore.specs.Rings.{head_of};
ghost use Rattle.chainstore.specs.Linked.{Linked};

use crate::rings::{HEADS, Rings};
use crate::side::Side;
use rules::{MakeFault, RuleTable};
use std::alloc::Global;

mod calls;

/// The rules, each with the end at which it was added while it is in its row, and the rings: that of an indicator goes
/// from its head through the cells of its row and back. Of each head, `known` says whether a rule of its indicator was
/// ever added.
#[derive(Drop)]
pub struct ChainStore {
    table: RuleTable<Option<Side>>,
    rings: Rings,
    // a flag for each of the 4,608 indicators, since memory is fixed and a call takes constant time
    known: Vec<bool>,
    ghost within: { IsWithin table },
    ghost cells: { length rings.links ≡ 4608 + length table.kept },
    ghost spare: { rings.labels ≡ table.labels },
    ghost flags: { vec_len known ≡ 4608 },
    ghost noted: { (i : Indicator) → slice_index_or known.items (head_of i.name i.arity) false
        ≡ ever_added (rules_in table.kept) i.name i.arity },
    ghost linked: { Linked table.kept rings.links },
}

impl ChainStore {
    ghost use Rattle.chainstore.specs.Views.{meaning_of};

    /// An empty store for so many labels, 1 to 1,024, and so many nodes, 256 to 65,536.
    pub fn new(heap: Global, labels: usize, space: usize) -> Result<ChainStore, MakeFault>
        ensures { Makes (λ s. Fresh labels space (meaning_of s)) labels space result }
    {
        let table = RuleTable::new(heap, labels, space)?;
        let rings = Rings::new(heap, labels)?;
        let known = vec![in heap; false; HEADS]?;
        Ok(ChainStore {
            table,
            rings,
            known,
        })
    }
}
