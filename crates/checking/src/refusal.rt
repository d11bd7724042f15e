//! Why a line is refused: the number, the place and kind of a fault of the grammar, and a sentence for the owner.

ghost use Rattle.std.specs.Prelude.{◌≡◌, Some};
ghost use Rattle.checking.specs.Refusals.{number_of, fault_of, word_of, sentence_of, line_sentence, grammar_fault};
ghost use Rattle.checking.specs.declared.refusal.Refusal.TheVariants.{Line as of_line, Text as of_text};

use crate::line::LineProblem;
use reader::fault::{LineFault, TermFault};
use std::error::Error;
use std::fmt;
use text::TextFault;
use tokens::scan::TokenFault::{Stray, Unclosed};

/// A line that is refused whatever it says, or a text that is no rule.
#[derive(Clone, Copy, Debug, PartialEq, Eq)]
pub enum Refusal {
    Line(LineProblem),
    Text(TextFault),
}

impl From<LineProblem> for Refusal {
    ghost from_gives = { λ e r. r ≡ of_line e };

    fn from(problem: LineProblem) -> Refusal {
        Refusal::Line(problem)
    }
}

impl From<TextFault> for Refusal {
    ghost from_gives = { λ e r. r ≡ of_text e };

    fn from(fault: TextFault) -> Refusal {
        Refusal::Text(fault)
    }
}

/// What of a text breaks the grammar: a token, a term in brackets, or the line.
#[derive(Clone, Copy, Debug, PartialEq, Eq)]
pub enum FaultKind {
    Token,
    Term,
    Line,
}

/// The index of the first bad byte, and what it breaks.
#[derive(Clone, Copy, Debug, PartialEq, Eq)]
pub struct Fault {
    pub place: usize,
    pub kind: FaultKind,
}

impl FaultKind {
    /// The word for it.
    pub fn word(&self) -> &'static str
        ensures { result.now ≡ word_of self.now }
    {
        match self {
            FaultKind::Token => "token",
            FaultKind::Term => "term",
            FaultKind::Line => "line",
        }
    }
}

impl fmt::Display for FaultKind {
    ghost output = { λ kind. Some (word_of kind) };

    fn fmt<W: fmt::Write>(&self, f: &mut fmt::Formatter<W>) -> fmt::Result {
        f.write_str(self.word())
    }
}

impl From<LineFault> for Fault {
    ghost from_gives = { λ e r. r ≡ grammar_fault e };

    fn from(fault: LineFault) -> Fault {
        let (place, kind) = match fault {
            LineFault::Term(TermFault::Token(Stray(at) | Unclosed(at))) => (at, FaultKind::Token),
            LineFault::Term(TermFault::Unexpected { at, .. }) => (at, FaultKind::Term),
            LineFault::Unexpected(at) => (at, FaultKind::Line),
        };
        Fault { place, kind }
    }
}

impl Refusal {
    /// The number under which the line is refused.
    pub fn number(&self) -> u8
        ensures { result ≡ number_of self.now }
    {
        match self {
            Refusal::Line(_) | Refusal::Text(TextFault::TooLong) => 1,
            Refusal::Text(TextFault::Grammar(_)) => 4,
            Refusal::Text(TextFault::Limit(_)) => 5,
            Refusal::Text(TextFault::Head(_)) => 6,
        }
    }

    /// Where the grammar is broken, and by what.
    pub fn fault(&self) -> Option<Fault>
        ensures { result ≡ fault_of self.now }
    {
        match self {
            Refusal::Text(TextFault::Grammar(fault)) => Some(Fault::from(*fault)),
            _ => None,
        }
    }

    /// What is wrong, in a sentence.
    pub fn sentence(&self) -> &'static str
        ensures { result.now ≡ sentence_of self.now }
    {
        match self {
            Refusal::Line(problem) => problem.sentence(),
            Refusal::Text(TextFault::TooLong) => LineProblem::TooLong.sentence(),
            Refusal::Text(text_fault) => text_fault.sentence(),
        }
    }
}

impl LineProblem {
    /// What is wrong, in a sentence.
    pub fn sentence(&self) -> &'static str
        ensures { result.now ≡ line_sentence self.now }
    {
        match self {
            LineProblem::BadByte(_) => "The line has a byte that is no printable ASCII character.",
            LineProblem::TooLong => "The line is longer than 1019 bytes.",
        }
    }
}

impl fmt::Display for LineProblem {
    ghost output = { λ problem. Some (line_sentence problem) };

    fn fmt<W: fmt::Write>(&self, f: &mut fmt::Formatter<W>) -> fmt::Result {
        f.write_str(self.sentence())
    }
}

impl Error for LineProblem {}

impl fmt::Display for Refusal {
    ghost output = { λ refusal. Some (sentence_of refusal) };

    fn fmt<W: fmt::Write>(&self, f: &mut fmt::Formatter<W>) -> fmt::Result {
        f.write_str(self.sentence())
    }
}

impl Error for Refusal {}
