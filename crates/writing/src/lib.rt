//! How terms are written, and what is proved of it.

#![tactic(auto)]

ghost use Rattle.writing.specs.Quoting.{BareNamesRead, OthersNeedQuotes};
ghost use Rattle.writing.specs.ReadBack.{QueryReadsBack, FactReadsBack, RuleReadsBack};

/// A term that is written within the allowed brackets reads back as itself: as a query, as a fact, and as the head or
/// the body of a rule.
pub fn reads_back()
    ensures query { QueryReadsBack }
    ensures fact { FactReadsBack }
    ensures rule { RuleReadsBack }
{}

/// A name is written in quotes exactly where it would not be read as itself without them.
pub fn quotes_where_needed()
    ensures bare { BareNamesRead }
    ensures others { OthersNeedQuotes }
{}
