//! Walking a list of cells.
ghost use Rattle.std.specs.Prelude.{◌≡◌, ◌<◌, ◌≤◌, ◌+◌, Some, None, length, if◌then◌else◌};
ghost use Rattle.hm_model.specs.Sight.{IsSet};
ghost use Rattle.hm_model.specs.Building.{Builds};
ghost use Rattle.hm_list.specs.Pairs.{first_of, lookup, is_same};
ghost use Rattle.hm_list.specs.Cells.{pair_in, pairs_at, HasList};
ghost use Rattle.hm_list.specs.Places.{SameOutside, AreUnset};
ghost use Rattle.hm_list.specs.Fronts.{Takes};

use crate::key::{Key, Pair, is_key_less, is_key_same};
use crate::places::clear_places;
use hm_model::{Caller, NodeUsage, Root};

/// The pair that a cell holds.
fn pair_of(numbers: [u64; 10]) -> Pair
    ensures { result ≡ pair_in numbers }
{
    let [a, b, c, d, e, f, g, h, _, _] = numbers;
    Pair {
        key: Key { a, b },
        load: [c, d, e, f, g, h],
    }
}

/// Takes the first pair off: the place then names the rest of the list. The four places after it are written too.
pub(crate) fn take_first<U: NodeUsage, C: Caller<U>>(c: &mut C, at: Root) -> Pair
    requires set { IsSet (C.sight c.old) at }
    requires places { at.0 + 5 ≤ 256 }
    ensures builds { Builds U.lawful U.allowed (C.sight c.old) (C.sight c.new) 0 }
    ensures longer { length (C.sight c.new).mine ≡ length (C.sight c.old).mine + 1 }
    ensures others { SameOutside (C.sight c.old) (C.sight c.new) at.0 (at.0 + 5) }
    ensures taken { Takes U.node (C.sight c.old) (C.sight c.new) at result }
{
    let hand = Root(at.0 + 1);
    let cell = c.fetch(at, hand);
    c.copy_root(hand, at);
    pair_of(cell.numbers)
}

/// The load of the pair, if it has the key.
fn load_under(pair: Pair, key: Key) -> Option<[u64; 6]>
    ensures { result ≡ (if is_same pair.key key then Some pair.load else None) }
{
    if is_key_same(pair.key, key) {
        Some(pair.load)
    } else {
        None
    }
}

/// The first pair of the list, in place `top`.
fn read_first<U: NodeUsage, C: Caller<U>>(c: &mut C, list: Root, top: Root) -> Option<Pair>
    requires list { HasList U.node (C.sight c.old) list }
    requires top { top.0 ≤ 64 }
    requires below { list.0 < top.0 }
    ensures builds { Builds U.lawful U.allowed (C.sight c.old) (C.sight c.new) 0 }
    ensures others { SameOutside (C.sight c.old) (C.sight c.new) top.0 (top.0 + 6) }
    ensures first { result ≡ first_of (pairs_at (C.sight c.old) list) }
{
    c.copy_root(list, top);
    if c.is_set(top) {
        let pair = take_first(c, top);
        Some(pair)
    } else {
        None
    }
}

/// The first pair of the list. None exactly where the list is empty.
///
/// The call fetches and makes nothing. It takes the six places from `top` on as its own and leaves them unset.
pub fn first<U: NodeUsage, C: Caller<U>>(c: &mut C, list: Root, top: Root) -> Option<Pair>
    requires list { HasList U.node (C.sight c.old) list }
    requires top { top.0 ≤ 64 }
    requires below { list.0 < top.0 }
    ensures builds { Builds U.lawful U.allowed (C.sight c.old) (C.sight c.new) 0 }
    ensures others { SameOutside (C.sight c.old) (C.sight c.new) top.0 (top.0 + 6) }
    ensures unset { AreUnset (C.sight c.new) top.0 (top.0 + 6) }
    ensures listed { HasList U.node (C.sight c.new) list }
    ensures same { pairs_at (C.sight c.new) list ≡ pairs_at (C.sight c.old) list }
    ensures first { result ≡ first_of (pairs_at (C.sight c.old) list) }
{
    let found = read_first(c, list, top);
    clear_places(c, top, Root(top.0 + 6));
    found
}

/// What the list has under the key, walking with place `top`.
fn search<U: NodeUsage, C: Caller<U>>(
    c: &mut C,
    list: Root,
    key: Key,
    top: Root,
) -> Option<[u64; 6]>
    requires list { HasList U.node (C.sight c.old) list }
    requires top { top.0 ≤ 64 }
    requires below { list.0 < top.0 }
    ensures builds { Builds U.lawful U.allowed (C.sight c.old) (C.sight c.new) 0 }
    ensures others { SameOutside (C.sight c.old) (C.sight c.new) top.0 (top.0 + 6) }
    ensures found { result ≡ lookup key (pairs_at (C.sight c.old) list) }
{
    c.copy_root(list, top);
    while c.is_set(top) {
        let pair = take_first(c, top);
        if !is_key_less(pair.key, key) {
            return load_under(pair, key);
        }
    }
    None
}

/// What the list has under the key. None exactly where the key is not there.
///
/// The call fetches and makes nothing. It takes the six places from `top` on as its own and leaves them unset.
pub fn find<U: NodeUsage, C: Caller<U>>(
    c: &mut C,
    list: Root,
    key: Key,
    top: Root,
) -> Option<[u64; 6]>
    requires list { HasList U.node (C.sight c.old) list }
    requires top { top.0 ≤ 64 }
    requires below { list.0 < top.0 }
    ensures builds { Builds U.lawful U.allowed (C.sight c.old) (C.sight c.new) 0 }
    ensures others { SameOutside (C.sight c.old) (C.sight c.new) top.0 (top.0 + 6) }
    ensures unset { AreUnset (C.sight c.new) top.0 (top.0 + 6) }
    ensures listed { HasList U.node (C.sight c.new) list }
    ensures same { pairs_at (C.sight c.new) list ≡ pairs_at (C.sight c.old) list }
    ensures found { result ≡ lookup key (pairs_at (C.sight c.old) list) }
{
    let found = search(c, list, key, top);
    clear_places(c, top, Root(top.0 + 6));
    found
}
