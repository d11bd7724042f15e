//! The grammar of rules and queries, and what is proved of it.

#![tactic(auto)]

ghost use Rattle.grammar.specs.Theorem.{Exact, OneSentence, AllRead};

/// The reader of bytes that the definitions give is right about every text: it reads exactly the texts of the
/// grammar, and stops at the least place where no text goes on.
pub fn reads_exactly()
    ensures { Exact }
{}

/// A text is at most one rule or query, and is read as that.
pub fn reads_one_way()
    ensures one { OneSentence }
    ensures read { AllRead }
{}
