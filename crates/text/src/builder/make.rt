//! An empty builder, and what a builder holds.

ghost use Rattle.std.specs.Prelude.{◌≡◌, [], IfOk};
ghost use Rattle.terms.specs.RowViews.{row_nodes};
ghost use Rattle.text.specs.Builders.{Empty};

use crate::builder::Builder;
use reader::span::Span;
use std::alloc::{AllocError, Global};
use terms::Row;
use terms::known::{MAX_NAME, MAX_NODES, MAX_VARIABLES};

impl Builder {
    pub fn new(heap: Global) -> Result<Builder, AllocError>
        ensures { IfOk result Empty }
    {
        let row = Row::new(heap, MAX_NODES)?;
        let stack = Vec::with_capacity(heap, MAX_NODES)?;
        let variables = Vec::with_capacity(heap, MAX_VARIABLES)?;
        let spelled = Vec::with_capacity(heap, MAX_NAME)?;
        Ok(Builder {
            row,
            stack,
            variables,
            spelled,
        })
    }

    /// Forgets what was built.
    pub fn clear(&mut self)
        ensures { Empty self.new }
    {
        self.stack.clear();
        self.row.clear();
        self.variables.clear();
    }

    pub fn row(&self) -> &Row
        ensures { result.now ≡ self.now.row }
    {
        &self.row
    }

    /// The places of the terms that are not yet part of another.
    pub fn stack(&self) -> &[u32]
        ensures { result.now ≡ self.now.stack.items }
    {
        self.stack.as_slice()
    }

    /// The variables, each as the part of the text where it was met first.
    pub fn variables(&self) -> &[Span]
        ensures { result.now ≡ self.now.variables.items }
    {
        self.variables.as_slice()
    }
}
