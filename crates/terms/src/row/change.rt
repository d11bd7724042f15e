//! How a row is made, grows and is cut back.

ghost use Rattle.std.specs.Prelude.{◌≡◌, min, [], take, IfOk};
ghost use Rattle.terms.specs.Rows.{all_below, fitting};
ghost use Rattle.terms.specs.Places.{place_for, with_node};
ghost use Rattle.terms.specs.RowViews.{row_nodes, row_limit, Becomes};

use crate::known::MAX_ARGUMENTS;
use crate::node::Node;
use crate::row::Row;
use std::alloc::{AllocError, Global};

// No row has more nodes than this.
// The same number as the greatest line of a writer, and another limit.
const MOST: usize = 65536;

impl Row {
    /// An empty row for at most `limit` nodes, or 65,536 where that is less.
    pub fn new(heap: Global, limit: usize) -> Result<Row, AllocError>
        ensures empty { IfOk result (λ row. row_nodes row ≡ []) }
        ensures limit { IfOk result (λ row. row_limit row ≡ min limit 65536) }
    {
        let limit = limit.min(MOST);
        let nodes = Vec::with_capacity(heap, limit)?;
        Ok(Row { nodes, limit })
    }

    /// Adds a node at the end and answers its place. None, with the row as it was, exactly where the row is full
    /// or the node may not stand there: it has more than eight arguments, or one that does not stand before it.
    pub fn push(&mut self, node: Node) -> Option<u32>
        ensures place { result ≡ place_for (row_limit self.old) (row_nodes self.old) node }
        ensures row { Becomes self.old self.new (with_node (row_limit self.old) (row_nodes self.old) node) }
    {
        let at = self.nodes.len();
        if at < self.limit && fits(node, at) {
            self.nodes.push_reserved(node);
            Some(at as u32)
        } else {
            None
        }
    }

    pub fn clear(&mut self)
        ensures { Becomes self.old self.new [] }
    {
        self.nodes.clear();
    }

    /// Keeps the first `n` nodes.
    pub fn truncate(&mut self, n: usize)
        ensures { Becomes self.old self.new (take n (row_nodes self.old)) }
    {
        self.nodes.truncate(n);
    }
}

// Whether a node may stand at a place: it has at most eight arguments, and they stand before it.
fn fits(node: Node, at: usize) -> bool
    ensures { result ≡ fitting at node }
{
    match node {
        Node::Var(_) | Node::Int(_) => true,
        Node::App { arity, args, .. } => arity as usize <= MAX_ARGUMENTS
            && all_before(&args[..arity as usize], at),
    }
}

// Whether all these places stand before `at`.
fn all_before(places: &[u32], at: usize) -> bool
    ensures { result ≡ all_below at places.now }
{
    places.iter().all(|place| (*place as usize) < at)
}
