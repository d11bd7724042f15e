//! Faults of a text, each inside the next: of a token, of a term, of the line.

ghost use Rattle.std.specs.Prelude.{◌≡◌, Some};
ghost use Rattle.reader.specs.Faults.{line_of, line_text, term_text};
ghost use Rattle.reader.specs.Reading.{Faulted};
ghost use Rattle.reader.specs.declared.fault.TermFault.TheVariants.{Token as of_token};

use std::error::Error;
use std::fmt;
use tokens::kind::Kind;
use tokens::scan::{TokenFault, kind_at, next_token};

/// At most so many brackets may stand open at one place.
pub const BRACKETS: u8 = 64;

/// A fault of a token, or a byte that no term has there, with the number of brackets still allowed.
#[derive(Clone, Copy, Debug, PartialEq, Eq)]
pub enum TermFault {
    Token(TokenFault),
    Unexpected { at: usize, left: u8 },
}

/// A fault of a term, or a byte outside all brackets that no line has there.
#[derive(Clone, Copy, Debug, PartialEq, Eq)]
pub enum LineFault {
    Term(TermFault),
    Unexpected(usize),
}

/// What is wrong at a place where no token that stands there may stand: the token itself, or that it stands there.
pub fn unexpected(line: &[u8], at: usize, left: u8) -> TermFault
    ensures { Faulted line.now at result left }
{
    if at >= line.len() {
        return TermFault::Unexpected { at, left };
    }
    match kind_at(line, at) {
        Kind::Stray => TermFault::Token(TokenFault::Stray(at)),
        Kind::Quote => match next_token(line, at) {
            Ok(_) => TermFault::Unexpected { at, left },
            Err(_) => TermFault::Token(TokenFault::Unclosed(at)),
        },
        _ => TermFault::Unexpected { at, left },
    }
}

impl From<TokenFault> for TermFault {
    ghost from_gives = { λ e r. r ≡ of_token e };

    fn from(e: TokenFault) -> TermFault {
        TermFault::Token(e)
    }
}

// Where no bracket is open it is the line that cannot go on so.
impl From<TermFault> for LineFault {
    ghost from_gives = { λ e r. r ≡ line_of e };

    fn from(e: TermFault) -> LineFault {
        match e {
            TermFault::Unexpected { at, left } if left == BRACKETS => LineFault::Unexpected(at),
            other => LineFault::Term(other),
        }
    }
}

impl TermFault {
    /// What is wrong, in a sentence.
    pub fn sentence(&self) -> &'static str
        ensures { result.now ≡ term_text self.now }
    {
        match self {
            TermFault::Token(fault) => fault.sentence(),
            TermFault::Unexpected { .. } => "The term inside the brackets cannot go on like this.",
        }
    }
}

impl fmt::Display for TermFault {
    ghost output = { λ fault. Some (term_text fault) };

    fn fmt<W: fmt::Write>(&self, f: &mut fmt::Formatter<W>) -> fmt::Result {
        f.write_str(self.sentence())
    }
}

impl Error for TermFault {}

impl LineFault {
    /// What is wrong, in a sentence.
    pub fn sentence(&self) -> &'static str
        ensures { result.now ≡ line_text self.now }
    {
        match self {
            LineFault::Term(fault) => fault.sentence(),
            LineFault::Unexpected(_) => "The rule cannot go on like this.",
        }
    }
}

impl fmt::Display for LineFault {
    ghost output = { λ fault. Some (line_text fault) };

    fn fmt<W: fmt::Write>(&self, f: &mut fmt::Formatter<W>) -> fmt::Result {
        f.write_str(self.sentence())
    }
}

impl Error for LineFault {}
