//! The indicator of a predicate: its name and how many arguments it has.

ghost use Rattle.std.specs.Prelude.{◌≡◌, ◌∷◌, ◌++◌, true, is_some, IfSome, Some, decimal};
ghost use Rattle.rules.specs.Indicators.{fits};

use std::fmt;

/// A name by its number in the table of names, of which there are at most 512, and at most eight arguments.
#[derive(Clone, Copy, Debug, PartialEq, Eq)]
pub struct Indicator {
    name: u16,
    arity: u8,
    ghost small: { fits name arity ≡ true },
}

impl Indicator {
    /// None if there is no such name or more than eight arguments.
    pub fn new(name: u16, arity: u8) -> Option<Indicator>
        ensures made { is_some result ≡ fits name arity }
        ensures value { IfSome result (λ i. (i.name ≡ name) × (i.arity ≡ arity)) }
    {
        if name < 512 && arity <= 8 {
            Some(Indicator { name, arity })
        } else {
            None
        }
    }

    pub fn name(&self) -> u16
        ensures { result ≡ self.now.name }
    {
        self.name
    }

    pub fn arity(&self) -> u8
        ensures { result ≡ self.now.arity }
    {
        self.arity
    }
}

impl fmt::Display for Indicator {
    // name and arity in decimal, with a slash between them
    ghost output = { λ i. Some (decimal i.name ++ 47 ∷ decimal i.arity) };

    fn fmt<W: fmt::Write>(&self, f: &mut fmt::Formatter<W>) -> fmt::Result {
        let Indicator { name, arity } = *self;
        write!(f, "{name}/{arity}")
    }
}
