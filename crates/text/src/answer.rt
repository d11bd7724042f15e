//! Rules and queries in rows.

/// A rule in a row: the places of its head and body, and how many variables it has.
#[derive(Clone, Copy, Debug, PartialEq, Eq)]
pub struct RuleText {
    pub head: u32,
    pub body: u32,
    pub variables: usize,
}

/// A query in a row: its place, and how many variables it has.
#[derive(Clone, Copy, Debug, PartialEq, Eq)]
pub struct QueryText {
    pub goal: u32,
    pub variables: usize,
}
