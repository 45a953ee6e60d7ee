//! Changing a list of cells: its front is made anew.
ghost use Rattle.std.specs.Prelude.{◌≡◌, ◌<◌, ◌≤◌, ◌+◌, [], ◌∷◌, IfOk, OnOk, OnErr, Ok, Err, false, length, is_some, if◌then◌else◌};
ghost use Rattle.hm_model.specs.Sight.{Rests, root_of, name_at};
ghost use Rattle.hm_model.specs.Building.{Builds};
ghost use Rattle.hm_list.specs.Pairs.{lookup, insert, delete};
ghost use Rattle.hm_list.specs.Cells.{numbers_of, pairs_at, LeadsTo, HasList};
ghost use Rattle.hm_list.specs.Places.{SameOutside, SameOutsideBut, AreUnset};
ghost use Rattle.hm_list.specs.Fronts.{PutsInFront, IsSought};

use crate::key::{Key, Pair, Refused, is_key_less, is_key_same};
use crate::places::{clear_places, set_place};
use crate::walk::take_first;
use hm_model::{Caller, Full, NodeUsage, Root};
use std::alloc::{AllocError, Global};

/// What a walk passed on the way to a key.
#[derive(Drop)]
struct Front {
    /// The pairs with lesser keys.
    passed: Vec<Pair>,
    /// Whether the key itself was there.
    found: bool,
}

/// The numbers of a cell.
fn cell_numbers(pair: Pair) -> [u64; 10]
    ensures numbers { result ≡ numbers_of pair }
    ensures six { length pair.load ≡ 6 }
{
    let [c, d, e, f, g, h] = pair.load;
    [pair.key.a, pair.key.b, c, d, e, f, g, h, 0, 0]
}

/// A new first cell.
fn push_front<U: NodeUsage, C: Caller<U>>(c: &mut C, pair: Pair, at: Root) -> Result<(), Full>
    requires { at.0 < 256 }
    ensures builds { Builds U.lawful U.allowed (C.sight c.old) (C.sight c.new) 1 }
    ensures others { SameOutside (C.sight c.old) (C.sight c.new) at.0 (at.0 + 1) }
    ensures put { OnOk result (PutsInFront U.node (C.sight c.old) (C.sight c.new) at (pair ∷ [])) }
    ensures full { OnErr result ((C.sight c.new).room ≡ 0) }
{
    let next = set_place(c, at);
    let numbers = cell_numbers(pair);
    c.create(at, [next, None, None, None], numbers)
}

/// New cells, from the last pair to the first.
fn push_fronts<U: NodeUsage, C: Caller<U>>(c: &mut C, front: &[Pair], at: Root) -> Result<(), Full>
    requires { at.0 < 256 }
    ensures builds { Builds U.lawful U.allowed (C.sight c.old) (C.sight c.new) (length front.now) }
    ensures others { SameOutside (C.sight c.old) (C.sight c.new) at.0 (at.0 + 1) }
    ensures put { OnOk result (PutsInFront U.node (C.sight c.old) (C.sight c.new) at front.now) }
    ensures full { OnErr result ((C.sight c.new).room ≡ 0) }
{
    let mut i = front.len();
    while i > 0 {
        i -= 1;
        push_front(c, front[i], at)?;
    }
    Ok(())
}

/// Sets the place to what the next one names, where told.
fn step_past<U: NodeUsage, C: Caller<U>>(c: &mut C, past: bool, top: Root)
    requires { top.0 + 6 ≤ 256 }
    ensures rests { Rests (C.sight c.old) (C.sight c.new) }
    ensures others { SameOutside (C.sight c.old) (C.sight c.new) top.0 (top.0 + 1) }
    ensures here { name_at (C.sight c.new).roots top.0
        ≡ (if past then name_at (C.sight c.old).roots (top.0 + 1)
        else name_at (C.sight c.old).roots top.0) }
{
    if past {
        c.copy_root(Root(top.0 + 1), top);
    } else {
        c.copy_root(top, top);
    }
}

/// Walks to where the key belongs. Place `top` then names what comes after it.
fn seek<U: NodeUsage, C: Caller<U>>(
    alloc: Global,
    c: &mut C,
    list: Root,
    key: Key,
    top: Root,
) -> Result<Front, AllocError>
    requires list { HasList U.node (C.sight c.old) list }
    requires top { top.0 ≤ 64 }
    requires below { list.0 < top.0 }
    ensures builds { Builds U.lawful U.allowed (C.sight c.old) (C.sight c.new) 0 }
    ensures others { SameOutside (C.sight c.old) (C.sight c.new) top.0 (top.0 + 6) }
    ensures sought { IfOk result (λ f. IsSought U.node (C.sight c.new) top key
        (pairs_at (C.sight c.old) list) f.passed.items f.found) }
{
    let mut passed = Vec::new(alloc);
    let cursor = Root(top.0 + 1);
    c.copy_root(list, cursor);
    while c.is_set(cursor) {
        c.copy_root(cursor, top);
        let pair = take_first(c, cursor);
        if !is_key_less(pair.key, key) {
            let found = is_key_same(pair.key, key);
            step_past(c, found, top);
            return Ok(Front { passed, found });
        }
        passed.push(pair)?;
    }
    step_past(c, true, top);
    Ok(Front {
        passed,
        found: false,
    })
}

/// Puts the pair in, walking with place `top`.
fn insert_pair<U: NodeUsage, C: Caller<U>>(
    alloc: Global,
    c: &mut C,
    list: Root,
    pair: Pair,
    top: Root,
) -> Result<(), Refused>
    requires list { HasList U.node (C.sight c.old) list }
    requires top { top.0 ≤ 64 }
    requires below { list.0 < top.0 }
    ensures builds { Builds U.lawful U.allowed (C.sight c.old) (C.sight c.new)
        (length (pairs_at (C.sight c.old) list) + 1) }
    ensures memory { result ≡ Err Refused.Memory
        → Builds U.lawful U.allowed (C.sight c.old) (C.sight c.new) 0 }
    ensures others { SameOutsideBut (C.sight c.old) (C.sight c.new) top.0 (top.0 + 6) list.0 }
    ensures put { OnOk result (LeadsTo U.node (C.sight c.new) list
        (insert pair (pairs_at (C.sight c.old) list))) }
    ensures names { OnErr result (root_of (C.sight c.new) list ≡ root_of (C.sight c.old) list) }
    ensures full { result ≡ Err Refused.Full → (C.sight c.new).room ≡ 0 }
{
    let Ok(front) = seek(alloc, c, list, pair.key, top) else {
        return Err(Refused::Memory);
    };
    let Ok(()) = push_front(c, pair, top) else {
        return Err(Refused::Full);
    };
    let Ok(()) = push_fronts(c, front.passed.as_slice(), top) else {
        return Err(Refused::Full);
    };
    c.copy_root(top, list);
    Ok(())
}

/// Puts the pair in, in place of one with the same key.
///
/// After a refusal the list is as it was, and the place names what it named. [`Refused::Full`] comes only where the
/// caller's room is 0 as the call answers. The call fetches, and makes at most one cell more than the list has; after
/// [`Refused::Memory`] it has made none. It takes the six places from `top` on as its own and leaves them unset, also
/// after a refusal.
pub fn put<U: NodeUsage, C: Caller<U>>(
    alloc: Global,
    c: &mut C,
    list: Root,
    pair: Pair,
    top: Root,
) -> Result<(), Refused>
    requires list { HasList U.node (C.sight c.old) list }
    requires top { top.0 ≤ 64 }
    requires below { list.0 < top.0 }
    ensures builds { Builds U.lawful U.allowed (C.sight c.old) (C.sight c.new)
        (length (pairs_at (C.sight c.old) list) + 1) }
    ensures memory { result ≡ Err Refused.Memory
        → Builds U.lawful U.allowed (C.sight c.old) (C.sight c.new) 0 }
    ensures others { SameOutsideBut (C.sight c.old) (C.sight c.new) top.0 (top.0 + 6) list.0 }
    ensures unset { AreUnset (C.sight c.new) top.0 (top.0 + 6) }
    ensures listed { HasList U.node (C.sight c.new) list }
    ensures put { OnOk result (pairs_at (C.sight c.new) list
        ≡ insert pair (pairs_at (C.sight c.old) list)) }
    ensures kept { OnErr result (pairs_at (C.sight c.new) list ≡ pairs_at (C.sight c.old) list) }
    ensures names { OnErr result (root_of (C.sight c.new) list ≡ root_of (C.sight c.old) list) }
    ensures full { result ≡ Err Refused.Full → (C.sight c.new).room ≡ 0 }
{
    let answer = insert_pair(alloc, c, list, pair, top);
    clear_places(c, top, Root(top.0 + 6));
    answer
}

/// Takes the key out, walking with place `top`. Answers whether it was there.
fn delete_key<U: NodeUsage, C: Caller<U>>(
    alloc: Global,
    c: &mut C,
    list: Root,
    key: Key,
    top: Root,
) -> Result<bool, Refused>
    requires list { HasList U.node (C.sight c.old) list }
    requires top { top.0 ≤ 64 }
    requires below { list.0 < top.0 }
    ensures builds { Builds U.lawful U.allowed (C.sight c.old) (C.sight c.new)
        (length (pairs_at (C.sight c.old) list)) }
    ensures absent { result ≡ Ok false
        → Builds U.lawful U.allowed (C.sight c.old) (C.sight c.new) 0 }
    ensures memory { result ≡ Err Refused.Memory
        → Builds U.lawful U.allowed (C.sight c.old) (C.sight c.new) 0 }
    ensures others { SameOutsideBut (C.sight c.old) (C.sight c.new) top.0 (top.0 + 6) list.0 }
    ensures found { IfOk result (λ b. b ≡ is_some (lookup key (pairs_at (C.sight c.old) list))) }
    ensures removed { OnOk result (LeadsTo U.node (C.sight c.new) list
        (delete key (pairs_at (C.sight c.old) list))) }
    ensures names { OnErr result (root_of (C.sight c.new) list ≡ root_of (C.sight c.old) list) }
    ensures same { result ≡ Ok false → root_of (C.sight c.new) list ≡ root_of (C.sight c.old) list }
    ensures full { result ≡ Err Refused.Full → (C.sight c.new).room ≡ 0 }
{
    let Ok(front) = seek(alloc, c, list, key, top) else {
        return Err(Refused::Memory);
    };
    if !front.found {
        return Ok(false);
    }
    let Ok(()) = push_fronts(c, front.passed.as_slice(), top) else {
        return Err(Refused::Full);
    };
    c.copy_root(top, list);
    Ok(true)
}

/// Takes the key out. False exactly where it was not there; then the place names what it named and nothing is made.
///
/// After a refusal the list is as it was, and the place names what it named. [`Refused::Full`] comes only where the
/// caller's room is 0 as the call answers. The call fetches, and makes at most as many cells as the list has; after
/// [`Refused::Memory`] it has made none. It takes the six places from `top` on as its own and leaves them unset, also
/// after a refusal.
pub fn remove<U: NodeUsage, C: Caller<U>>(
    alloc: Global,
    c: &mut C,
    list: Root,
    key: Key,
    top: Root,
) -> Result<bool, Refused>
    requires list { HasList U.node (C.sight c.old) list }
    requires top { top.0 ≤ 64 }
    requires below { list.0 < top.0 }
    ensures builds { Builds U.lawful U.allowed (C.sight c.old) (C.sight c.new)
        (length (pairs_at (C.sight c.old) list)) }
    ensures absent { result ≡ Ok false
        → Builds U.lawful U.allowed (C.sight c.old) (C.sight c.new) 0 }
    ensures memory { result ≡ Err Refused.Memory
        → Builds U.lawful U.allowed (C.sight c.old) (C.sight c.new) 0 }
    ensures others { SameOutsideBut (C.sight c.old) (C.sight c.new) top.0 (top.0 + 6) list.0 }
    ensures unset { AreUnset (C.sight c.new) top.0 (top.0 + 6) }
    ensures listed { HasList U.node (C.sight c.new) list }
    ensures found { IfOk result (λ b. b ≡ is_some (lookup key (pairs_at (C.sight c.old) list))) }
    ensures removed { OnOk result (pairs_at (C.sight c.new) list
        ≡ delete key (pairs_at (C.sight c.old) list)) }
    ensures kept { OnErr result (pairs_at (C.sight c.new) list ≡ pairs_at (C.sight c.old) list) }
    ensures names { OnErr result (root_of (C.sight c.new) list ≡ root_of (C.sight c.old) list) }
    ensures same { result ≡ Ok false → root_of (C.sight c.new) list ≡ root_of (C.sight c.old) list }
    ensures full { result ≡ Err Refused.Full → (C.sight c.new).room ≡ 0 }
{
    let answer = delete_key(alloc, c, list, key, top);
    clear_places(c, top, Root(top.0 + 6));
    answer
}
