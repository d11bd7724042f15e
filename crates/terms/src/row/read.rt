//! What a row holds.

ghost use Rattle.std.specs.Prelude.{◌≡◌, length};
ghost use Rattle.terms.specs.Places.{node_at};
ghost use Rattle.terms.specs.RowViews.{row_nodes, row_limit};

use crate::node::Node;
use crate::row::Row;

impl Row {
    pub fn len(&self) -> usize
        ensures { result ≡ length (row_nodes self.now) }
    {
        self.nodes.len()
    }

    /// How many nodes the row may come to have.
    pub fn limit(&self) -> usize
        ensures { result ≡ row_limit self.now }
    {
        self.limit
    }

    /// The node at a place; None past the end.
    pub fn node(&self, at: u32) -> Option<Node>
        ensures { result ≡ node_at (row_nodes self.now) at }
    {
        self.nodes.get(at as usize).copied()
    }

    pub fn nodes(&self) -> &[Node]
        ensures { result.now ≡ row_nodes self.now }
    {
        self.nodes.as_slice()
    }
}
