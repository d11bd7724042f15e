//! The laws of stores, as the contract of a function.

ghost use Rattle.rules.specs.Laws.{StoresAgree};

/// Stores that mean the same answer the same; what is added is kept; what is erased is gone;
/// what holds of stores stays so.
pub fn stores_agree()
    ensures { StoresAgree }
{}
