//! The built-in predicates by the place of their name among the known ones.

ghost use Rattle.std.specs.Prelude.{◌≡◌, Some};
ghost use Rattle.terms.specs.BuiltIns.{NamedBy, built_in, fault_text, place};

use crate::known::MAX_ARGUMENTS;
use std::error::Error;
use std::fmt;

/// A built-in predicate, in the order of the names.
#[derive(Clone, Copy, Debug, PartialEq, Eq)]
pub enum BuiltIn {
    True,
    Fail,
    False,
    And,
    Or,
    Cut,
    Call,
    Not,
    Catch,
    Throw,
    FindAll,
    Unify,
    Is,
    Equal,
    NotEqual,
    Less,
    AtMost,
    Greater,
    AtLeast,
    AssertA,
    AssertZ,
    Retract,
}

/// The place of a name that is not that of a built-in predicate.
#[derive(Clone, Copy, Debug, PartialEq, Eq)]
pub struct NotBuiltIn(pub u16);

impl TryFrom<u16> for BuiltIn {
    type Error = NotBuiltIn;

    ghost try_from_gives = { NamedBy };

    fn try_from(name: u16) -> Result<Self, NotBuiltIn> {
        Ok(match name {
            0 => BuiltIn::True,
            1 => BuiltIn::Fail,
            2 => BuiltIn::False,
            3 => BuiltIn::And,
            4 => BuiltIn::Or,
            5 => BuiltIn::Cut,
            6 => BuiltIn::Call,
            7 => BuiltIn::Not,
            8 => BuiltIn::Catch,
            9 => BuiltIn::Throw,
            10 => BuiltIn::FindAll,
            11 => BuiltIn::Unify,
            12 => BuiltIn::Is,
            13 => BuiltIn::Equal,
            14 => BuiltIn::NotEqual,
            15 => BuiltIn::Less,
            16 => BuiltIn::AtMost,
            17 => BuiltIn::Greater,
            18 => BuiltIn::AtLeast,
            19 => BuiltIn::AssertA,
            20 => BuiltIn::AssertZ,
            21 => BuiltIn::Retract,
            _ => return Err(NotBuiltIn(name)),
        })
    }
}

impl BuiltIn {
    /// Whether it takes so many arguments: `call` takes one to eight, and each other one number of them.
    pub fn takes(self, arguments: usize) -> bool
        ensures { result ≡ built_in (place self) arguments }
    {
        match self {
            BuiltIn::True | BuiltIn::Fail | BuiltIn::False | BuiltIn::Cut => arguments == 0,
            BuiltIn::Call => (1..=MAX_ARGUMENTS).contains(&arguments),
            BuiltIn::Not
            | BuiltIn::Throw
            | BuiltIn::AssertA
            | BuiltIn::AssertZ
            | BuiltIn::Retract => arguments == 1,
            BuiltIn::And
            | BuiltIn::Or
            | BuiltIn::Unify
            | BuiltIn::Is
            | BuiltIn::Equal
            | BuiltIn::NotEqual
            | BuiltIn::Less
            | BuiltIn::AtMost
            | BuiltIn::Greater
            | BuiltIn::AtLeast => arguments == 2,
            BuiltIn::Catch | BuiltIn::FindAll => arguments == 3,
        }
    }
}

impl fmt::Display for NotBuiltIn {
    ghost output = { λ fault. Some (fault_text fault) };

    fn fmt<W: fmt::Write>(&self, f: &mut fmt::Formatter<W>) -> fmt::Result {
        write!(
            f,
            "the name at {} is not that of a built-in predicate",
            self.0
        )
    }
}

impl Error for NotBuiltIn {}
