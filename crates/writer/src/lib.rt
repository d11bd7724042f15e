//! Writes terms to lines of bytes, with variables numbered in the order in which they appear.

#![tactic(auto)]

ghost use Rattle.writer.specs.ReadsBack.{QueryReadsBack, FactReadsBack, RuleReadsBack};

mod fault;
mod line;
mod piece;

pub use fault::DoesNotFit;
pub use line::LineWriter;

/// What is written within the allowed brackets reads back as itself: a term on a line of its own as a query and as a
/// fact, and a head, ` :- ` and a body as a rule.
pub fn reads_back()
    ensures query { QueryReadsBack }
    ensures fact { FactReadsBack }
    ensures rule { RuleReadsBack }
{}
