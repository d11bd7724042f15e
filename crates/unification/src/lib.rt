//! Unification of terms, bindings and canonical copies: their laws, as contracts.

#![tactic(auto)]

ghost use Rattle.unification.specs.Theorem.{Lawful, Usable, Canonical};

/// The bindings found make both terms the same, and every unifier agrees with them; where none is found there is none.
pub fn unification_is_most_general()
    ensures { Lawful }
{}

/// Under earlier bindings: they stay well-formed, and follow from what was asked.
pub fn bindings_carry_on()
    ensures { Usable }
{}

/// Terms that differ in the numbers of variables alone have one copy.
pub fn copies_are_canonical()
    ensures { Canonical }
{}
