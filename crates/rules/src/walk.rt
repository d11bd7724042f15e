//! The labels of a row, by the calls of any store.

ghost use Rattle.std.specs.Prelude.{◌≡◌, OnOk};

use crate::indicator::Indicator;
use crate::store::RuleStore;
use std::alloc::AllocError;

/// Puts the labels of the row of an indicator into `out`, from the first on, in place of what it holds.
pub fn walk<S: RuleStore>(
    store: &S,
    indicator: Indicator,
    out: &mut Vec<u32>,
) -> Result<(), AllocError>
    ensures { OnOk result (out.new.items ≡ (S.RuleStore.meaning store.now).row indicator.name indicator.arity) }
{
    out.clear();
    let mut at = store.next(indicator, None);
    while let Some(label) = at {
        out.push(label)?;
        at = store.next(indicator, Some(label));
    }
    Ok(())
}
