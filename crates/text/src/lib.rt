//! Rules and queries from their texts: read by the grammar, within the limits, as rows of nodes.

#![tactic(auto)]

pub mod answer;
mod builder;
pub mod fault;
mod finish;
mod integer;
mod name;
pub mod text_reader;
mod variables;

pub use fault::{HeadFault, LimitFault, TextFault};
pub use reader::span;
pub use text_reader::TextReader;
