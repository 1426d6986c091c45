//! The codes of lists: how many items there are, and the code of each.
ghost use Rattle.std.specs.Prelude.{◌≡◌, ◌<◌, ◌^◌, ℕ, [], ◌++◌, List, length, OnOk};
ghost use Rattle.step_codes.specs.Adding.{Adds};
ghost use Rattle.step_codes.specs.ListCodes.{items_onto, list_onto, AllFit};

use crate::coded::{Code, Coded};
use std::alloc::{AllocError, Allocator};

/// Adds the code of a list: how many items it has, and the code of each.
pub fn push_list<T: Coded>(code: &mut Vec<u8>, items: &[T]) -> Result<(), AllocError>
    ensures added { OnOk result
        (Adds code.old.items code.new.items (list_onto T.onto items.now)) }
    ensures fits { OnOk result (AllFit T.fits items.now) }
{
    (items.len() as u64).push(code)?;
    for item in items {
        item.push(code)?;
    }
    Ok(())
}

/// Takes a list, and adds its items to another one. An error where memory is refused.
pub fn take_list<T: Coded + Drop, A: Allocator>(
    code: &mut Code<'_>,
    into: &mut Vec<T, A>,
) -> Result<(), AllocError>
    ensures { OnOk result ((items : List T) → (rest : List ℕ) → length items < 2 ^ 64
        → AllFit T.fits items → code.old ≡ list_onto T.onto items rest
        → (into.new.items ≡ into.old.items ++ items) × (code.new ≡ rest)) }
{
    let count = u64::take(code);
    for _ in 0..count {
        into.push(T::take(code))?;
    }
    Ok(())
}
