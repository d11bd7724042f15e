//! The trait of rule stores. Its ghost member says what a store means; the contracts speak of that alone.

ghost use Rattle.std.specs.Prelude.{◌≡◌};
ghost use Rattle.std.specs.Option.{option_map};
ghost use Rattle.rules.specs.Meaning.{Meaning, Lawful, next_in, rule_at, front, back};
ghost use Rattle.rules.specs.Calls.{Adds, Erases, value_of};

use crate::fault::Full;
use crate::indicator::Indicator;
use crate::rule::Rule;

pub trait RuleStore {
    // every rule ever added by its label, for each indicator the row of labels of its live rules,
    // and the known indicators
    ghost meaning: { Self → Meaning };

    /// Adds the rule before all others of its indicator, under the next label.
    /// Full, changing nothing, if it has no room.
    fn add_front(&mut self, rule: Rule<'_>) -> Result<u32, Full>
        ensures { Adds front (meaning self.old) (value_of rule.entry) result (meaning self.new) };

    /// The same behind all others.
    fn add_back(&mut self, rule: Rule<'_>) -> Result<u32, Full>
        ensures { Adds back (meaning self.old) (value_of rule.entry) result (meaning self.new) };

    /// The label of the first live rule, or of the next one after a label; none after a label that is not in the row.
    fn next(&self, indicator: Indicator, after: Option<u32>) -> Option<u32>
        ensures value { result ≡ next_in ((meaning self.now).row indicator.name indicator.arity) after }
        ensures lawful { Lawful (meaning self.now) };

    /// The rule with a label, live or erased.
    fn read(&self, label: u32) -> Option<Rule<'_>>
        ensures { option_map value_of result ≡ rule_at (meaning self.now).rules label };

    /// Takes the rule out of its row, if it is there.
    fn erase(&mut self, label: u32)
        ensures { Erases (meaning self.old) label (meaning self.new) };

    /// Whether a rule of this indicator was ever added.
    fn is_known(&self, indicator: Indicator) -> bool
        ensures { result ≡ (meaning self.now).known indicator.name indicator.arity };
}
