//! Checking rules line by line: what is said of each line of an owner's file.

#![tactic(auto)]

pub mod checker;
pub mod line;
pub mod refusal;

pub use checker::RuleChecker;
pub use line::{LineBuffer, LineProblem};
pub use refusal::{Fault, FaultKind, Refusal};
