//! A rule, as it is added to a store and as it is read from it.

use crate::indicator::Indicator;
use terms::Node;

/// The nodes of head and body, arguments first, the places of the two, the number of variables, and the head's
/// indicator.
#[derive(Clone, Copy, Debug, PartialEq, Eq)]
pub struct Rule<'a> {
    pub nodes: &'a [Node],
    pub head: u32,
    pub body: u32,
    pub variables: u32,
    pub indicator: Indicator,
}
