//! A table of rules: what a store of any make keeps of the rules that were ever added.

ghost use Rattle.std.specs.Prelude.{◌≡◌, ◌<◌, length};
ghost use Rattle.std.specs.Option.{option_map};
ghost use Rattle.rules.specs.Meaning.{rule_at, is_of_rule, ever_added, is_full_of, is_size};
ghost use Rattle.rules.specs.Calls.{value_of, Makes};
ghost use Rattle.rules.specs.Tables.{rules_in, note_at, noted, Enters, IsEmpty};

use crate::entry::Entry;
use crate::fault::{Full, MakeFault};
use crate::indicator::Indicator;
use crate::rule::Rule;
use std::alloc::Global;
use std::marker::Model;
use terms::Node;

/// The rules by label, each with a note, and the nodes of all rules one behind the other, in the order of the labels.
/// All memory is reserved when a table is made.
/// Nodes in one run and no boxes, since memory is fixed.
#[derive(Drop)]
pub struct RuleTable<T> {
    nodes: Vec<Node>,
    entries: Vec<Entry<T>>,
    labels: usize,
    space: usize,
}

impl<T> Model for RuleTable<T> {
    ghost use Rattle.std.specs.Prelude.{vec_capacity};
    ghost use Rattle.rules.specs.Tables.{Table};

    ghost Value = { Table T };

    ghost use Rattle.rules.specs.Entries.{kept_of, IsSound};

    ghost view = { λ t. record {
      kept = kept_of t.nodes.items t.entries.items;
      labels = t.labels;
      space = t.space;
    } };

    ghost invariant = { λ t. IsSound t.nodes.items t.entries.items (vec_capacity t.nodes) (vec_capacity t.entries)
        t.labels t.space };
}

impl<T: Copy> RuleTable<T> {
    /// An empty table for so many labels, 1 to 1,024, and so many nodes of all rules, 256 to 65,536.
    pub fn new(heap: Global, labels: usize, space: usize) -> Result<RuleTable<T>, MakeFault>
        ensures { Makes (IsEmpty labels space) labels space result }
    {
        if !is_size(labels, space) {
            return Err(MakeFault::Size);
        }
        let nodes = Vec::with_capacity(heap, space)?;
        let entries = Vec::with_capacity(heap, labels)?;
        Ok(RuleTable {
            nodes,
            entries,
            labels,
            space,
        })
    }

    /// Enters the rule under the next label. Full, changing nothing, if no label is left or its nodes would pass the
    /// space.
    pub fn add(&mut self, rule: Rule<'_>, note: T) -> Result<u32, Full>
        ensures { Enters self.old (value_of rule.entry) note result self.new }
    {
        if self.is_full(rule) {
            return Err(Full);
        }
        let label = self.entries.len() as u32;
        let start = self.nodes.len() as u32;
        self.nodes.extend_from_slice(rule.nodes).unwrap();
        self.entries.push_reserved(Entry {
            start,
            size: rule.nodes.len() as u32,
            head: rule.head,
            body: rule.body,
            variables: rule.variables,
            indicator: rule.indicator,
            note,
        });
        Ok(label)
    }

    // Whether no label is left, or this rule's nodes would pass the space.
    fn is_full(&self, rule: Rule<'_>) -> bool
        ensures { result ≡ is_full_of self.now.labels self.now.space (rules_in self.now.kept) (value_of rule.entry) }
    {
        self.labels <= self.entries.len() || self.space - self.nodes.len() < rule.nodes.len()
    }

    /// The rule with a label.
    pub fn read(&self, label: u32) -> Option<Rule<'_>>
        ensures { option_map value_of result ≡ rule_at (rules_in self.now.kept) label }
    {
        let entry = self.entries.get(label as usize)?;
        let start = entry.start as usize;
        let end = start + entry.size as usize;
        Some(Rule {
            nodes: &self.nodes.as_slice()[start..end],
            head: entry.head,
            body: entry.body,
            variables: entry.variables,
            indicator: entry.indicator,
        })
    }

    /// Whether there is a rule with this label, and it is of this indicator.
    pub fn is_of(&self, label: u32, indicator: Indicator) -> bool
        ensures { result ≡ is_of_rule (rule_at (rules_in self.now.kept) label) indicator.name indicator.arity }
    {
        self.entries
            .get(label as usize)
            .is_some_and(|entry| entry.indicator == indicator)
    }

    /// Whether a rule of this indicator was ever added.
    pub fn has_of(&self, indicator: Indicator) -> bool
        ensures { result ≡ ever_added (rules_in self.now.kept) indicator.name indicator.arity }
    {
        self.entries
            .iter()
            .any(|entry| entry.indicator == indicator)
    }

    /// The note on the rule with a label.
    pub fn note(&self, label: u32) -> Option<T>
        ensures { result ≡ note_at self.now.kept label }
    {
        self.entries.get(label as usize).map(|entry| entry.note)
    }

    /// Changes the note on the rule with a label.
    pub fn set_note(&mut self, label: u32, note: T)
        requires { label < length self.old.kept }
        ensures { self.new ≡ record self.old { kept = noted self.old.kept label note } }
    {
        self.entries[label as usize].note = note;
    }
}

const MOST_LABELS: usize = 1024;

const LEAST_SPACE: usize = 256;

const MOST_SPACE: usize = 65536;

// Whether a store can have so many labels and so many nodes.
fn is_size(labels: usize, space: usize) -> bool
    ensures { result ≡ is_size labels space }
{
    (1..=MOST_LABELS).contains(&labels) && (LEAST_SPACE..=MOST_SPACE).contains(&space)
}

#[cfg(test)]
mod tests {
    use super::RuleTable;

    #[test]
    fn a_table_of_a_size_is_made(rt: HostRuntime) {
        assert!(rt; RuleTable::<u8>::new(rt.alloc(), 1024, 65536).is_ok());
        assert!(rt; RuleTable::<u8>::new(rt.alloc(), 1025, 65536).is_err());
    }
}
