//! A rule store that keeps a ring of links for each indicator: its calls take constant time, apart from copying nodes.

#![tactic(auto)]

pub mod chain;
mod rings;
mod side;

pub use chain::ChainStore;
