//! Root places: whether they are set, and unsetting those that a call took as its own.
ghost use Rattle.std.specs.Prelude.{◌≡◌, ◌<◌, ◌≤◌, ◌+◌, IfSome};
ghost use Rattle.hm_model.specs.Sight.{IsSet, Rests, name_of, root_of};
ghost use Rattle.hm_list.specs.Places.{SameOutside, AreUnset};

use hm_model::{Caller, Root, Usage};

/// The place, if it is set.
pub fn set_place<U: Usage, C: Caller<U>>(c: &C, at: Root) -> Option<Root>
    requires { at.0 < 256 }
    ensures place { IfSome result (λ r. r ≡ at) }
    ensures set { IfSome result (IsSet (C.sight c.now)) }
    ensures name { name_of (C.sight c.now) result ≡ root_of (C.sight c.now) at }
{
    if c.is_set(at) { Some(at) } else { None }
}

/// Unsets the places from one up to another.
pub fn clear_places<U: Usage, C: Caller<U>>(c: &mut C, from: Root, to: Root)
    requires { to.0 ≤ 256 }
    ensures rests { Rests (C.sight c.old) (C.sight c.new) }
    ensures others { SameOutside (C.sight c.old) (C.sight c.new) from.0 to.0 }
    ensures unset { AreUnset (C.sight c.new) from.0 to.0 }
{
    for i in from.0..to.0 {
        c.clear_root(Root(i));
    }
}
