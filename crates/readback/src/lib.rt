//! What the writer writes, the reader reads back as the same term.

#![tactic(auto)]

ghost use Rattle.readback.specs.ReadBack.{IntegerReadsBack, QueryReadsBack, FactReadsBack, RuleReadsBack};
ghost use Rattle.readback.specs.Renaming.{NumberedInOrder, NumberedOnce, NothingLost, SameText, HeadAndBodyAlike};

/// A term that is written as a query, as a fact, or as the head or the body of a rule reads back as the same term, its
/// variables numbered by first appearance.
pub fn terms_read_back()
    ensures integer { IntegerReadsBack }
    ensures query { QueryReadsBack }
    ensures fact { FactReadsBack }
    ensures rule { RuleReadsBack }
{}

/// Numbered by first appearance, a term has its variables in order and is still the same term: nothing is lost, and
/// its text does not change.
pub fn numbering_is_faithful()
    ensures order { NumberedInOrder }
    ensures once { NumberedOnce }
    ensures restored { NothingLost }
    ensures text { SameText }
    ensures alike { HeadAndBodyAlike }
{}
