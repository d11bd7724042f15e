//! What a rule store means, the trait of rule stores, and what follows for every store.

#![tactic(auto)]

mod entry;
pub mod fault;
pub mod indicator;
pub mod laws;
pub mod rule;
pub mod store;
pub mod table;
pub mod walk;

pub use fault::{Full, MakeFault};
pub use indicator::Indicator;
pub use rule::Rule;
pub use store::RuleStore;
pub use table::RuleTable;
