//! The recursive reader: from the bytes of a rule or query to a row of building steps, or to the fault.

#![tactic(auto)]

pub mod cursor;
pub mod fault;
pub mod op;
pub mod sentence;
pub mod span;
