//! In which form a term is copied.

/// As the term stands, or as a goal: there a variable or an integer V at a goal position becomes call(V).
#[derive(Clone, Copy, Debug, PartialEq, Eq)]
pub enum Form {
    Plain,
    Goal,
}
