//! Why a text is not taken as a rule or query.

ghost use Rattle.std.specs.Prelude.{◌≡◌, Some};
ghost use Rattle.text.specs.Faults.{limit_of};
ghost use Rattle.text.specs.Sentences.{head_sentence, limit_sentence, text_sentence};
ghost use Rattle.text.specs.declared.fault.TextFault.TheVariants.{Grammar as in_grammar, Limit as in_limits};

use names::NameFault;
use reader::fault::LineFault;
use std::error::Error;
use std::fmt;

/// Which limit the text passes.
#[derive(Clone, Copy, Debug, PartialEq, Eq)]
pub enum LimitFault {
    Integer,
    LongName,
    Arguments,
    Variables,
    Nodes,
    Names,
}

/// Why a rule of the grammar and within the limits cannot be stored.
#[derive(Clone, Copy, Debug, PartialEq, Eq)]
pub enum HeadFault {
    VariableHead,
    IntegerHead,
    BuiltInHead,
    IntegerBody,
}

/// Longer than any line, not in the grammar, beyond a limit, or no rule that can be stored.
#[derive(Clone, Copy, Debug, PartialEq, Eq)]
pub enum TextFault {
    TooLong,
    Grammar(LineFault),
    Limit(LimitFault),
    Head(HeadFault),
}

impl From<NameFault> for LimitFault {
    ghost from_gives = { λ e r. r ≡ limit_of e };

    fn from(fault: NameFault) -> LimitFault {
        match fault {
            NameFault::TooLong => LimitFault::LongName,
            NameFault::Full => LimitFault::Names,
        }
    }
}

impl From<LineFault> for TextFault {
    ghost from_gives = { λ e r. r ≡ in_grammar e };

    fn from(fault: LineFault) -> TextFault {
        TextFault::Grammar(fault)
    }
}

impl From<LimitFault> for TextFault {
    ghost from_gives = { λ e r. r ≡ in_limits e };

    fn from(fault: LimitFault) -> TextFault {
        TextFault::Limit(fault)
    }
}

impl LimitFault {
    /// What is wrong, in a sentence.
    pub fn sentence(&self) -> &'static str
        ensures { result.now ≡ limit_sentence self.now }
    {
        match self {
            LimitFault::Integer => "An integer does not fit into 32 bits.",
            LimitFault::LongName => "A name is longer than 64 bytes.",
            LimitFault::Arguments => "A term has more than 8 arguments.",
            LimitFault::Variables => "The rule has more than 32 variables.",
            LimitFault::Nodes => "The rule has more than 256 nodes.",
            LimitFault::Names => "The table of names is full.",
        }
    }
}

impl fmt::Display for LimitFault {
    ghost output = { λ fault. Some (limit_sentence fault) };

    fn fmt<W: fmt::Write>(&self, f: &mut fmt::Formatter<W>) -> fmt::Result {
        f.write_str(self.sentence())
    }
}

impl Error for LimitFault {}

impl HeadFault {
    /// What is wrong, in a sentence.
    pub fn sentence(&self) -> &'static str
        ensures { result.now ≡ head_sentence self.now }
    {
        match self {
            HeadFault::VariableHead => "The head is a variable.",
            HeadFault::IntegerHead => "The head is an integer.",
            HeadFault::BuiltInHead => "The head is a built-in predicate.",
            HeadFault::IntegerBody => "The body is an integer.",
        }
    }
}

impl fmt::Display for HeadFault {
    ghost output = { λ fault. Some (head_sentence fault) };

    fn fmt<W: fmt::Write>(&self, f: &mut fmt::Formatter<W>) -> fmt::Result {
        f.write_str(self.sentence())
    }
}

impl Error for HeadFault {}

impl TextFault {
    /// What is wrong, in a sentence.
    pub fn sentence(&self) -> &'static str
        ensures { result.now ≡ text_sentence self.now }
    {
        match self {
            TextFault::TooLong => "The text is longer than 1024 bytes.",
            TextFault::Grammar(grammar) => grammar.sentence(),
            TextFault::Limit(limit) => limit.sentence(),
            TextFault::Head(head) => head.sentence(),
        }
    }
}

impl fmt::Display for TextFault {
    ghost output = { λ fault. Some (text_sentence fault) };

    fn fmt<W: fmt::Write>(&self, f: &mut fmt::Formatter<W>) -> fmt::Result {
        f.write_str(self.sentence())
    }
}

impl Error for TextFault {}
