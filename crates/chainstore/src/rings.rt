//! Rings of cells: first 4,608 heads, one for each of nine arities of 512 names, and then a cell for each label.

ghost use Rattle.std.specs.Prelude.{◌≡◌, ◌+◌, ◌<◌, ◌≤◌, length, IfOk};
ghost use Rattle.chainstore.specs.Rings.{head_of, label_of, after_at, before_at, end_of, Alone};
ghost use Rattle.chainstore.specs.Rings.{Inserted, InsertedAt, Bridged};

use crate::side::Side;
use rules::Indicator;
use std::alloc::{AllocError, Global};
use std::marker::Model;

pub const HEADS: usize = 4608;

/// The head of an indicator's ring.
pub fn head_of(indicator: Indicator) -> u32
    ensures value { result ≡ head_of indicator.name indicator.arity }
    ensures upper_bound { result < 4608 }
{
    indicator.name() as u32 * 9 + indicator.arity() as u32
}

/// The label whose cell this is; none for a head.
pub fn label_of(cell: u32) -> Option<u32>
    ensures { result ≡ label_of cell }
{
    cell.checked_sub(HEADS as u32)
}

/// The cells before and after a cell in its ring.
#[derive(Clone, Copy, Debug, PartialEq, Eq)]
pub struct Link {
    pub before: u32,
    pub after: u32,
}

/// The links of all cells, by cell: a label is taken out of its ring in constant time, in memory that was reserved.
/// `labels` is not read: by it the invariant says for how many cells there is room.
#[derive(Drop)]
pub struct Rings {
    links: Vec<Link>,
    labels: usize,
}

impl Model for Rings {
    ghost use Rattle.std.specs.Prelude.{vec_capacity};
    ghost use Rattle.chainstore.specs.Rings.{Cells, IsSound};

    ghost Value = { Cells };

    ghost view = { λ r. record { links = r.links.items; labels = r.labels } };

    ghost invariant = { λ r. IsSound r.links.items (vec_capacity r.links) r.labels };
}

impl Rings {
    /// Each head alone in its ring, and memory for the cells of so many labels.
    pub fn new(heap: Global, labels: usize) -> Result<Rings, AllocError>
        requires { labels ≤ 1024 }
        ensures heads { IfOk result (λ r. length r.links ≡ 4608) }
        ensures alone { IfOk result (λ r. Alone 4608 r.links) }
        ensures labels { IfOk result (λ r. r.labels ≡ labels) }
    {
        let mut links = Vec::with_capacity(heap, HEADS + labels)?;
        // the number is the link itself, and no index
        for head in 0..HEADS as u32 {
            links.push_reserved(Link {
                before: head,
                after: head,
            });
        }
        Ok(Rings { links, labels })
    }

    /// The cell behind a cell.
    pub fn after(&self, cell: u32) -> u32
        requires { cell < length self.now.links }
        ensures { result ≡ after_at self.now.links cell }
    {
        self.links[cell as usize].after
    }

    /// Adds the cell of the next label at one end of a ring: behind its head, or before it.
    pub fn add(&mut self, head: u32, side: Side)
        requires head_in_bounds { head < length self.old.links }
        requires room { length self.old.links < 4608 + self.old.labels }
        ensures { InsertedAt (end_of side) self.old head self.new }
    {
        let link = self.links[head as usize];
        // an enum and no closure: the ends differ in nothing but the neighbour
        match side {
            Side::Front => self.insert(head, link.after),
            Side::Back => self.insert(link.before, head),
        }
    }

    /// Takes a cell out of its ring.
    pub fn remove(&mut self, cell: u32)
        requires { cell < length self.old.links }
        ensures { Bridged self.old (before_at self.old.links cell) (after_at self.old.links cell) self.new }
    {
        let link = self.links[cell as usize];
        self.bridge(link.before, link.after);
    }

    // Adds a cell between two.
    fn insert(&mut self, before: u32, after: u32)
        requires before_in_bounds { before < length self.old.links }
        requires after_in_bounds { after < length self.old.links }
        requires room { length self.old.links < 4608 + self.old.labels }
        ensures { Inserted self.old before after self.new }
    {
        let cell = self.links.len() as u32;
        self.links.push_reserved(Link { before, after });
        self.bridge(before, cell);
        self.bridge(cell, after);
    }

    // Makes two cells neighbours, so that what stood between them is no longer in the ring.
    fn bridge(&mut self, before: u32, after: u32)
        requires before_in_bounds { before < length self.old.links }
        requires after_in_bounds { after < length self.old.links }
        ensures { Bridged self.old before after self.new }
    {
        self.links[before as usize].after = after;
        self.links[after as usize].before = before;
    }
}
