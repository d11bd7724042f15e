//! Arithmetic on integers of 32 bits: the functions that evaluate, the comparisons, and their laws.

#![tactic(auto)]

pub mod comparison;
pub mod function;
pub mod laws;

pub use comparison::Comparison;
pub use function::{ArithmeticFault, Binary, Unary};
