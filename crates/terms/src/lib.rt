//! Terms as rows of nodes: each argument stands before the node that uses it.

#![tactic(auto)]

pub mod built_in;
pub mod copy;
pub mod form;
pub mod known;
pub mod node;
pub mod row;

pub use node::Node;
pub use row::Row;
