//! The table of names of a Prolog engine: each name is stored once, and is spoken of by its number.

#![tactic(auto)]

mod fault;
mod names;

pub use fault::NameFault;
pub use names::Names;
pub use names::mark::Mark;
