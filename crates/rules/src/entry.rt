//! A rule as a table keeps it.

use crate::indicator::Indicator;

// Where its nodes stand among the nodes of all rules, how many they are, what else the rule has, and a note on it.
#[derive(Clone, Copy, Debug, PartialEq, Eq)]
pub(crate) struct Entry<T> {
    pub(crate) start: u32,
    pub(crate) size: u32,
    pub(crate) head: u32,
    pub(crate) body: u32,
    pub(crate) variables: u32,
    pub(crate) indicator: Indicator,
    pub(crate) note: T,
}
