//! Worked examples of queries, over texts as the grammar reads them.

#![tactic(auto)]

pub mod examples;
