//! What a query means: its steps, its search tree, and the promises that join them. The definitions are in `specs/`.

#![tactic(auto)]

pub mod promises;
