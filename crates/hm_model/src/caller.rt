//! The calls of a caller.
ghost use Rattle.std.specs.Prelude.{◌≡◌, ◌≢◌, ◌<◌, ◌+◌, ◌≤◌, ◌↔◌};
ghost use Rattle.std.specs.Prelude.{IsTrue, IsSome, IfSome, None, IsErr, IfErr, OnOk, OnErr, Err};

use crate::root::{Full, Root, Snapshot, StoreIfRefused};
use crate::usage::Usage;

/// A mutator thread's handle on a heap of shared objects.
///
/// It has 256 root places. A place is unset, or names an object. Each call on an object makes one entry of the heap's
/// history, and a call that is refused as full makes none. No call takes memory or a lock, or waits.
///
/// The condition `allowed` of a create and of a store asks for the usage's leave: the entry has to be allowed in every
/// lawful store to which allowed entries of other callers lead from what this caller has seen, wherever it stands
/// there. A conditional store asks it only of the stores in which the object has the given stamp.
pub trait Caller<U: Usage> {
    ghost use Rattle.hm_model.specs.declared.object.Field.TheVariants.{Number};
    ghost use Rattle.hm_model.specs.Sight.{Sight, IsSet, AreSet, root_of};
    ghost use Rattle.hm_model.specs.Sight.{Rests, SetsRoot, Continues};
    ghost use Rattle.hm_model.specs.Calls.{IsOutside, refer_to, IfChanged};
    ghost use Rattle.hm_model.specs.Calls.{MayCreate, MayStore, MayStoreIf};
    ghost use Rattle.hm_model.specs.Calls.{Creates, FetchesAll, FetchesNumber, FetchesRef};
    ghost use Rattle.hm_model.specs.Calls.{Stores, StoresAll, FindsChanged};

    /// What contracts see of the caller.
    ghost sight: { Self → Sight U };

    /// Whether the place names an object.
    fn is_set(&self, r: Root) -> bool
        requires { r.0 < 256 }
        ensures { IsTrue result ↔ IsSome (root_of (sight self.now) r) };

    /// Place `to` then names what `from` names, or nothing where that is unset.
    fn copy_root(&mut self, from: Root, to: Root)
        requires from { from.0 < 256 }
        requires to { to.0 < 256 }
        ensures names { SetsRoot (sight self.old) (sight self.new) to.0
            (root_of (sight self.old) from) }
        ensures same { Rests (sight self.old) (sight self.new) };

    /// The place is then unset.
    fn clear_root(&mut self, r: Root)
        requires { r.0 < 256 }
        ensures names { SetsRoot (sight self.old) (sight self.new) r.0 None }
        ensures same { Rests (sight self.old) (sight self.new) };

    /// Makes an object that names what the given places name. Place `into` then names it.
    fn create(
        &mut self,
        into: Root,
        refs: [Option<Root>; 4],
        numbers: [u64; 10],
    ) -> Result<(), Full>
        requires into { into.0 < 256 }
        requires refs { AreSet (sight self.old) refs }
        requires allowed { MayCreate U.lawful U.allowed (sight self.old) refs numbers }
        ensures created { OnOk result
            (Creates U.lawful U.allowed (sight self.old) (sight self.new) into refs numbers) }
        ensures full { IsErr result ↔ ((sight self.old).room ≡ 0) }
        ensures unchanged { OnErr result (sight self.new ≡ sight self.old) }
        ensures same { Continues U.lawful U.allowed (sight self.old) (sight self.new) };

    /// Reads the whole object. Place `hand.0 + i` then names its reference `i`, or is unset where that is none.
    fn fetch(&mut self, from: Root, hand: Root) -> Snapshot
        requires from { IsSet (sight self.old) from }
        requires hand { hand.0 + 4 ≤ 256 }
        requires outside { IsOutside from hand }
        ensures fetched { FetchesAll U.lawful U.allowed
            (sight self.old) (sight self.new) from hand result }
        ensures stamp { result.stamp < u64.MAX }
        ensures same { Continues U.lawful U.allowed (sight self.old) (sight self.new) };

    /// Reads number `i`.
    fn fetch_number(&mut self, from: Root, i: u32) -> u64
        requires from { IsSet (sight self.old) from }
        requires field { i < 10 }
        ensures fetched { FetchesNumber U.lawful U.allowed
            (sight self.old) (sight self.new) from i result }
        ensures same { Continues U.lawful U.allowed (sight self.old) (sight self.new) };

    /// Reads reference `i` into a place. Where there is none, the place is unset and the answer is false.
    fn fetch_ref(&mut self, from: Root, i: u32, into: Root) -> bool
        requires from { IsSet (sight self.old) from }
        requires field { i < 4 }
        requires into { into.0 < 256 }
        requires other { into.0 ≢ from.0 }
        ensures fetched { FetchesRef U.lawful U.allowed
            (sight self.old) (sight self.new) from i into result }
        ensures same { Continues U.lawful U.allowed (sight self.old) (sight self.new) };

    /// Replaces number `i`.
    fn store_number(&mut self, at: Root, i: u32, value: u64) -> Result<(), Full>
        requires at { IsSet (sight self.old) at }
        requires field { i < 10 }
        requires allowed { MayStore U.lawful U.allowed (sight self.old) at (Number i value) }
        ensures stored { OnOk result
            (Stores U.lawful U.allowed (sight self.old) (sight self.new) at (Number i value)) }
        ensures full { IsErr result ↔ ((sight self.old).room ≡ 0) }
        ensures unchanged { OnErr result (sight self.new ≡ sight self.old) }
        ensures same { Continues U.lawful U.allowed (sight self.old) (sight self.new) };

    /// Replaces reference `i` by what the given place names, or by none.
    fn store_ref(&mut self, at: Root, i: u32, value: Option<Root>) -> Result<(), Full>
        requires at { IsSet (sight self.old) at }
        requires field { i < 4 }
        requires value { IfSome value (IsSet (sight self.old)) }
        requires allowed { MayStore U.lawful U.allowed (sight self.old) at
            (refer_to (sight self.old) i value) }
        ensures stored { OnOk result (Stores U.lawful U.allowed (sight self.old) (sight self.new) at
            (refer_to (sight self.old) i value)) }
        ensures full { IsErr result ↔ ((sight self.old).room ≡ 0) }
        ensures unchanged { OnErr result (sight self.new ≡ sight self.old) }
        ensures same { Continues U.lawful U.allowed (sight self.old) (sight self.new) };

    /// Replaces all fields, on the condition that the object still has the given stamp. That there is room is tested
    /// first.
    fn store_if(
        &mut self,
        at: Root,
        stamp: u64,
        refs: [Option<Root>; 4],
        numbers: [u64; 10],
    ) -> Result<(), StoreIfRefused>
        requires at { IsSet (sight self.old) at }
        requires refs { AreSet (sight self.old) refs }
        requires allowed { MayStoreIf U.lawful U.allowed (sight self.old) at stamp refs numbers }
        ensures stored { OnOk result (StoresAll U.lawful U.allowed
            (sight self.old) (sight self.new) at stamp refs numbers) }
        ensures changed { IfErr result (λ e. IfChanged e (FindsChanged U.lawful U.allowed
            (sight self.old) (sight self.new) at stamp refs numbers)) }
        ensures stamp { IfErr result (λ e. IfChanged e (λ found. found < u64.MAX)) }
        ensures full { (result ≡ Err StoreIfRefused.Full) ↔ ((sight self.old).room ≡ 0) }
        ensures unchanged { result ≡ Err StoreIfRefused.Full
            → sight self.new ≡ sight self.old }
        ensures same { Continues U.lawful U.allowed (sight self.old) (sight self.new) };
}
