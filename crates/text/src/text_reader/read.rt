//! What a text is: a rule, a query, or why it is refused.

ghost use Rattle.std.specs.Prelude.{◌≡◌, ◌≤◌, ◌↔◌, [], length, IfOk, IsOk, OnOk, IsOkUnless};
ghost use Rattle.names.specs.Listed.{Extends};
ghost use Rattle.names.specs.View.{list};
ghost use Rattle.terms.specs.RowViews.{row_nodes, row_limit, SameLimit};
ghost use Rattle.text.specs.Finishing.{StoresRule, AsksQuery};
ghost use Rattle.text.specs.Readers.{reader_spans};
ghost use Rattle.text.specs.Rules.{RuleRead, QueryRead};
ghost use Rattle.text.specs.declared.fault.TextFault.TheVariants.{TooLong};

use crate::answer::{QueryText, RuleText};
use crate::builder::Builder;
use crate::fault::{LimitFault, TextFault};
use crate::finish::{finish_query, finish_rule};
use crate::text_reader::{MAX_TEXT, TextReader};
use names::Names;
use reader::sentence::{Shape, read_query, read_rule};
use reader::span::Span;
use std::alloc::{AllocError, Global};
use terms::Row;

impl TextReader {
    /// A reader that has read nothing.
    pub fn new(heap: Global) -> Result<TextReader, AllocError>
        ensures { IfOk result (λ t. reader_spans t ≡ []) }
    {
        let ops = Vec::with_capacity(heap, MAX_TEXT)?;
        let builder = Builder::new(heap)?;
        Ok(TextReader { ops, builder })
    }

    /// The rule that the text is, in `row`; a fact has the body `true`. A text that is refused enters no name.
    /// The limits allow a text 256 nodes, so `read` speaks of a row that takes just as many.
    pub fn rule(
        &mut self,
        text: &[u8],
        names: &mut Names,
        row: &mut Row,
    ) -> Result<RuleText, TextFault>
        ensures read { row_limit row.old ≡ 256
            → RuleRead (list names.old) text.now (list names.new) (row_nodes row.new)
            (reader_spans self.new) result }
        ensures limit { SameLimit row.old row.new }
    {
        self.begin(text, row)?;
        let shape = read_rule(text, &mut self.ops)?;
        let mark = names.mark();
        let rule = self.stored_rule(shape, text, names, row);
        if rule.is_err() {
            names.back_to(mark);
        }
        rule
    }

    /// The query that the text is, in `row`. A text that is refused enters no name.
    /// It reads and builds by other functions than `rule`; what the two share is `begin`.
    /// The row is the caller's, so each function says that its limit stays (`SameLimit`).
    pub fn query(
        &mut self,
        text: &[u8],
        names: &mut Names,
        row: &mut Row,
    ) -> Result<QueryText, TextFault>
        ensures read { row_limit row.old ≡ 256
            → QueryRead (list names.old) text.now (list names.new) (row_nodes row.new)
            (reader_spans self.new) result }
        ensures limit { SameLimit row.old row.new }
    {
        self.begin(text, row)?;
        read_query(text, &mut self.ops)?;
        let mark = names.mark();
        let query = self.asked_query(text, names, row).map_err(TextFault::Limit);
        if query.is_err() {
            names.back_to(mark);
        }
        query
    }

    /// The variables of the text that was read last, each where it was met first.
    pub fn variables(&self) -> &[Span]
        ensures { result.now ≡ reader_spans self.now }
    {
        self.builder.variables()
    }

    // An empty row and no steps, for a text that is not too long.
    fn begin(&mut self, text: &[u8], row: &mut Row) -> Result<(), TextFault>
        ensures short { IsOk result ↔ (length text.now ≤ 1024) }
        ensures long { IsOkUnless result TooLong }
        ensures no_steps { OnOk result (self.new.ops.items ≡ []) }
        ensures no_nodes { row_nodes row.new ≡ [] }
        ensures limit { row_limit row.new ≡ row_limit row.old }
    {
        row.clear();
        if text.len() > MAX_TEXT {
            return Err(TextFault::TooLong);
        }
        self.ops.clear();
        Ok(())
    }

    // The rule that the steps build, if it is within the limits and can be stored.
    fn stored_rule(
        &mut self,
        shape: Shape,
        text: &[u8],
        names: &mut Names,
        row: &mut Row,
    ) -> Result<RuleText, TextFault>
        ensures kept { Extends (list names.old) (list names.new) }
        ensures stored { StoresRule shape text.now self.old.ops.items (list names.old) (list names.new)
            row.old row.new self.new.builder result }
        ensures limit { SameLimit row.old row.new }
    {
        self.builder
            .build_rule(shape, text, self.ops.as_slice(), names)?;
        finish_rule(&self.builder, row)
    }

    // The query that the steps build, if it is within the limits.
    // It shares no step with `stored_rule`. Text, names and row stay apart: a struct of two `&mut` would be no plainer.
    fn asked_query(
        &mut self,
        text: &[u8],
        names: &mut Names,
        row: &mut Row,
    ) -> Result<QueryText, LimitFault>
        ensures kept { Extends (list names.old) (list names.new) }
        ensures asked { AsksQuery text.now self.old.ops.items (list names.old) (list names.new)
            row.old row.new self.new.builder result }
        ensures limit { SameLimit row.old row.new }
    {
        self.builder.build(text, self.ops.as_slice(), names)?;
        finish_query(&self.builder, row)
    }
}
