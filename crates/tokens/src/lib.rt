//! Tokens as parts of a line.

#![tactic(auto)]

pub mod kind;
pub mod scan;
