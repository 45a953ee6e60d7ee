//! Merging what became of the orders of several files.
ghost use Rattle.std.specs.Prelude.{◌≡◌, List, length, IfOk, sum_by};
ghost use Rattle.std.specs.List.{flat_map};
ghost use Rattle.std.specs.List.Sorted.{IsNonDecreasingBy, IsPermutation};
ghost use Rattle.hm_orders.specs.declared.report.Done.{Done};
ghost use Rattle.hm_orders.specs.Interleaving.{ArePartsOf};

use crate::report::{Done, DoneList};
use hm_edge::Memory;
use std::alloc::Global;

/// Merges what became of the orders of each file, in order of files, into one list in order of root numbers.
///
/// # Errors
///
/// [`Memory`] where it ran out; the parts are gone then.
pub fn merge(alloc: Global, parts: Vec<DoneList>) -> Result<DoneList, Memory>
    ensures whole { IfOk result (λ all. IsPermutation (flat_map (λ part. part) parts.items) all) }
    ensures in_order { IfOk result (λ all. IsNonDecreasingBy (λ done. done.root) all) }
    ensures merged { IfOk result
        (λ all. (dones : List Done) → ArePartsOf parts.items dones → all ≡ dones) }
{
    let mut all = joined(alloc, parts)?;
    all.sort_unstable_by_key(|done| done.root);
    Ok(DoneList::new(all))
}

/// The parts, one behind another. Memory for all of them is taken first.
fn joined(alloc: Global, parts: Vec<DoneList>) -> Result<Vec<Done>, Memory>
    ensures { IfOk result (λ all. all.items ≡ flat_map (λ part. part) parts.items) }
{
    let Ok(room) = usize::try_from(count(&parts)) else {
        return Err(Memory);
    };
    let mut all = Vec::with_capacity(alloc, room)?;
    for part in parts {
        all.append(&mut part.into_items())?;
    }
    Ok(all)
}

/// How many orders the parts have together, which may pass a `usize` as far as the types tell.
fn count(parts: &[DoneList]) -> u128
    ensures { result ≡ sum_by (λ part. length part) parts.now }
{
    parts.iter().map(|part| part.items().len() as u128).sum()
}
