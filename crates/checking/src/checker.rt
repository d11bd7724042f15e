//! The checker of rules: reads a rule, and writes it as the engine understands it.

ghost use Rattle.std.specs.Prelude.{◌≡◌, ℕ, List, [], IfOk, slice_index_or};
ghost use Rattle.tokens.specs.Bytes.{same};
ghost use Rattle.names.specs.View.{list};
ghost use Rattle.terms.specs.Known.{known, true_name};
ghost use Rattle.terms.specs.Places.{node_at};
ghost use Rattle.terms.specs.RowViews.{row_nodes, row_limit};
ghost use Rattle.writer.specs.Lines.{line_bytes, line_limit};
ghost use Rattle.checking.specs.Lines.{Keeps};
ghost use Rattle.checking.specs.Checked.{Checked, Wrote, is_true};
ghost use Rattle.text.specs.Readers.{reader_spans};

use crate::line::LineBuffer;
use crate::refusal::Refusal;
use names::Names;
use std::alloc::{AllocError, Global};
use terms::known::MAX_NODES;
use terms::{Node, Row};
use text::TextReader;
use text::answer::RuleText;
use writer::{DoesNotFit, LineWriter};

// More bytes than any rule within the limits has when it is written.
const MAX_WRITTEN: usize = 65536;

/// All memory is reserved when the checker is made. Accepted rules bring their names into the table.
#[derive(Drop)]
pub struct RuleChecker {
    reader: TextReader,
    names: Names,
    row: Row,
    writer: LineWriter,
    ghost nodes: { row_limit row ≡ 256 },
    ghost wide: { line_limit writer ≡ 65536 },
}

impl RuleChecker {
    /// A checker that knows no names but those that every table begins with.
    pub fn new(heap: Global) -> Result<RuleChecker, AllocError>
        ensures { IfOk result (λ k. list k.names ≡ known) }
    {
        let reader = TextReader::new(heap)?;
        let names = Names::new(heap)?;
        let row = Row::new(heap, MAX_NODES)?;
        let writer = LineWriter::new(heap, MAX_WRITTEN)?;
        Ok(RuleChecker {
            reader,
            names,
            row,
            writer,
        })
    }

    /// The rule that the line is, or why it is refused; a refused line leaves the names as they were.
    pub fn check(&mut self, line: &LineBuffer) -> Result<RuleText, Refusal>
        ensures { (s : List ℕ) → Keeps line.now s
            → Checked (list self.old.names) s (list self.new.names) (row_nodes self.new.row)
            (reader_spans self.new.reader) result }
    {
        if let Some(problem) = line.problem() {
            return Err(Refusal::Line(problem));
        }
        Ok(
            self.reader
                .rule(line.bytes(), &mut self.names, &mut self.row)?,
        )
    }

    /// Writes the rule: `head.` if its body is `true`, else `head :- body.`
    pub fn write(&mut self, rule: RuleText) -> Result<(), DoesNotFit>
        ensures { Wrote (list self.old.names) (row_nodes self.old.row) rule (line_bytes self.new.writer) result }
    {
        self.writer.clear();
        self.writer.term(&self.row, rule.head, &self.names)?;
        if self.is_true(rule.body) {
            return self.writer.text(b".");
        }
        self.writer.text(b" :- ")?;
        self.writer.term(&self.row, rule.body, &self.names)?;
        self.writer.text(b".")
    }

    /// What was written last.
    pub fn written(&self) -> &[u8]
        ensures { result.now ≡ line_bytes self.now.writer }
    {
        self.writer.bytes()
    }

    // Whether the term at a place is the constant `true`.
    fn is_true(&self, at: u32) -> bool
        ensures { result ≡ is_true (list self.now.names) (node_at (row_nodes self.now.row) at) }
    {
        match self.row.node(at) {
            Some(Node::App { name, arity: 0, .. }) => self.is_named_true(name),
            _ => false,
        }
    }

    fn is_named_true(&self, name: u16) -> bool
        ensures { result ≡ same (slice_index_or (list self.now.names) name []) true_name }
    {
        self.names.get(name).unwrap_or(b"") == b"true".as_slice()
    }
}
