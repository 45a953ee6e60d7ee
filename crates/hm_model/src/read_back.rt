//! A caller that reads back what it stored.
ghost use Rattle.std.specs.Prelude.{◌≡◌, ◌<◌, ◌↔◌, IsErr, IfOk, OnErr};
ghost use Rattle.hm_model.specs.declared.object.Field.TheVariants.{Number};
ghost use Rattle.hm_model.specs.Sight.{IsSet};
ghost use Rattle.hm_model.specs.Calls.{MayStore};
ghost use Rattle.hm_model.specs.Reading.{ReadsBack};

use crate::caller::Caller;
use crate::root::{Full, Root};
use crate::usage::Usage;

/// Stores a number into an object and fetches it again, over any heap and under any usage.
///
/// The fetch stands in a history that has the store. So it answers the stored number, unless another caller stored to
/// the object between. All root places name what they named.
pub fn store_and_fetch<U: Usage, C: Caller<U>>(
    c: &mut C,
    at: Root,
    i: u32,
    value: u64,
) -> Result<u64, Full>
    requires at { IsSet (C.sight c.old) at }
    requires field { i < 10 }
    requires allowed { MayStore U.lawful U.allowed (C.sight c.old) at (Number i value) }
    ensures read { IfOk result
        (ReadsBack U.lawful U.allowed (C.sight c.old) (C.sight c.new) at i value) }
    ensures full { IsErr result ↔ ((C.sight c.old).room ≡ 0) }
    ensures names { (C.sight c.new).roots ≡ (C.sight c.old).roots }
    ensures unchanged { OnErr result (C.sight c.new ≡ C.sight c.old) }
{
    c.store_number(at, i, value)?;
    Ok(c.fetch_number(at, i))
}
