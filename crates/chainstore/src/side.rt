//! The end at which a rule was added.

/// An end of a row. A store notes on each rule at which it was added, while the rule is in its row; then no more.
#[derive(Clone, Copy, Debug, PartialEq, Eq)]
pub enum Side {
    Front,
    Back,
}
