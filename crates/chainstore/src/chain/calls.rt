//! The calls of a rule store.

ghost use Rattle.std.specs.Prelude.{◌≡◌, ◌<◌, length};
ghost use Rattle.rules.specs.Meaning.{holds};
ghost use Rattle.rules.specs.Calls.{Adds, value_of};
ghost use Rattle.chainstore.specs.Rows.{row_of};
ghost use Rattle.chainstore.specs.Rings.{after_at, label_of, end_of};
ghost use Rattle.chainstore.specs.Views.{meaning_of, links_of};

use crate::chain::ChainStore;
use crate::rings::{HEADS, head_of, label_of};
use crate::side::Side;
use rules::{Full, Indicator, Rule, RuleStore};

impl RuleStore for ChainStore {
    ghost meaning = { meaning_of };

    fn add_front(&mut self, rule: Rule<'_>) -> Result<u32, Full> {
        self.add(rule, Side::Front)
    }

    fn add_back(&mut self, rule: Rule<'_>) -> Result<u32, Full> {
        self.add(rule, Side::Back)
    }

    fn next(&self, indicator: Indicator, after: Option<u32>) -> Option<u32> {
        match after {
            None => self.label_after(head_of(indicator)),
            Some(label) if self.is_live(label, indicator) => {
                self.label_after(HEADS as u32 + label)
            }
            Some(_) => None,
        }
    }

    fn read(&self, label: u32) -> Option<Rule<'_>> {
        self.table.read(label)
    }

    fn erase(&mut self, label: u32) {
        let side = self.table.note(label).flatten();
        if side.is_some() {
            self.rings.remove(HEADS as u32 + label);
            self.table.set_note(label, None);
        }
    }

    fn is_known(&self, indicator: Indicator) -> bool {
        self.known[head_of(indicator) as usize]
    }
}

impl ChainStore {
    // Adds the rule at one end of its row. Full, changing nothing, if it has no room.
    fn add(&mut self, rule: Rule<'_>, side: Side) -> Result<u32, Full>
        ensures { Adds (end_of side) (meaning_of self.old) (value_of rule.entry) result
            (meaning_of self.new) }
    {
        let label = self.table.add(rule, Some(side))?;
        let head = head_of(rule.indicator);
        self.rings.add(head, side);
        self.known[head as usize] = true;
        Ok(label)
    }

    // The label behind a cell; none if the head follows.
    fn label_after(&self, cell: u32) -> Option<u32>
        requires { cell < length (links_of self.now) }
        ensures { result ≡ label_of (after_at (links_of self.now) cell) }
    {
        label_of(self.rings.after(cell))
    }

    // Whether the label stands in the row of this indicator.
    fn is_live(&self, label: u32, indicator: Indicator) -> bool
        ensures { result ≡ holds label (row_of self.now.table.kept indicator.name indicator.arity) }
    {
        self.table.is_of(label, indicator) && self.table.note(label).flatten().is_some()
    }
}
