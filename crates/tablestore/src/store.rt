//! The table as a rule store.

ghost use Rattle.tablestore.specs.Views.{meaning_of};

use crate::table::TableStore;
use rules::{Full, Indicator, Rule, RuleStore};

impl RuleStore for TableStore {
    ghost meaning = { meaning_of };

    fn add_front(&mut self, rule: Rule<'_>) -> Result<u32, Full> {
        let label = self.table.add(rule, ())?;
        self.live.insert(0, label).unwrap();
        Ok(label)
    }

    fn add_back(&mut self, rule: Rule<'_>) -> Result<u32, Full> {
        let label = self.table.add(rule, ())?;
        self.live.push(label).unwrap();
        Ok(label)
    }

    fn next(&self, indicator: Indicator, after: Option<u32>) -> Option<u32> {
        match after {
            None => self.first_from(indicator, 0),
            Some(label) if self.table.is_of(label, indicator) => {
                self.first_from(indicator, self.place(label)? + 1)
            }
            Some(_) => None,
        }
    }

    fn read(&self, label: u32) -> Option<Rule<'_>> {
        self.table.read(label)
    }

    fn erase(&mut self, label: u32) {
        if let Some(at) = self.place(label) {
            self.live.remove(at);
        }
    }

    fn is_known(&self, indicator: Indicator) -> bool {
        self.table.has_of(indicator)
    }
}
