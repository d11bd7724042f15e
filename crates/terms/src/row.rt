//! A row of nodes in memory that is reserved when the row is made.

ghost use Rattle.std.specs.Prelude.{◌≡◌, ◌≤◌, true, vec_len, vec_capacity};
ghost use Rattle.terms.specs.Rows.{fitting_from};

use crate::node::Node;

mod change;
mod read;

/// At most `limit` nodes, of which each has at most eight arguments, and they stand before it.
/// Ghost fields and no model, which would be no plainer: crates above read from a row itself that its nodes fit.
/// Nodes by number and no boxes, since memory is fixed: all of it is reserved when the row is made.
#[derive(Drop)]
pub struct Row {
    nodes: Vec<Node>,
    limit: usize,
    ghost few: { vec_len nodes ≤ limit },
    ghost room: { limit ≤ vec_capacity nodes },
    ghost small: { limit ≤ 65536 },
    ghost before: { fitting_from 0 nodes.items ≡ true },
}
