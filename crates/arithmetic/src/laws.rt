//! The laws of the divisions, as the contract of a function.

ghost use Rattle.arithmetic.specs.Laws.{ArithmeticLaws};

/// Quotient and remainder make up the dividend, what is left is small and has the right sign; with worked values.
pub fn remainder_is_lawful()
    ensures { ArithmeticLaws }
{}
