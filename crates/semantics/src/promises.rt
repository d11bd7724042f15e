//! The promises, each as the contract of a function.

ghost use Rattle.semantics.specs.Theorem.{Complete, Counted, OneStep};
ghost use Rattle.semantics.specs.Prolog.{prolog};

/// What the steps of a query tell are the first leaves of its search tree and its end, in every language and for every
/// query: none left out, none twice, the end honest, and reached within a number of steps that the tree fixes.
pub fn complete_list()
    ensures { Complete }
{}

/// From any state there is one step at most, and none exactly at the end.
pub fn one_step()
    ensures { OneStep prolog }
{}

/// The number of steps that is told with an answer, an end or none is the number of steps made.
pub fn steps_are_counted()
    ensures { Counted prolog }
{}
