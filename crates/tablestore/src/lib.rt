//! A rule store that walks one row of live labels.

#![tactic(auto)]

mod find;
mod store;
mod table;

pub use table::TableStore;
