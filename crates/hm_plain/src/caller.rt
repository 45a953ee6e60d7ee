//! The one caller of a plain heap.
ghost use Rattle.std.specs.Prelude.{◌≡◌, ◌+◌, ◌<◌, ◌≤◌, ◌≢◌, ◌↔◌, IsTrue, IsErr, IsSome, IfErr, IfSome, Err, None, OnOk, OnErr, length};

use crate::call::Call;
use crate::diary::Diary;
use crate::object::{Change, Object};
use crate::objects::Objects;
use crate::roots::{index_at, indices_at};
use hm_model::{Caller, Full, Root, Snapshot, StoreIfRefused, Tended, Tried, Usage, Worker};
use std::marker::Model;

/// A caller over objects that are found by their index. Contracts see it as every caller.
#[derive(Drop)]
pub struct PlainCaller<U: Usage> {
    diary: Diary<U>,
    objects: Objects,
    roots: [Option<u32>; 256],
}

impl<U: Usage> Model for PlainCaller<U> {
    ghost use Rattle.hm_model.specs.Sight.{Sight};
    ghost use Rattle.hm_plain.specs.Sights.{sight_of, Agree};

    ghost Value = { Sight U };

    ghost view = { λ c. sight_of c.diary c.objects c.roots };

    ghost invariant = { λ c. Agree c.diary c.objects c.roots };
}

impl<U: Usage> PlainCaller<U> {
    ghost use Rattle.hm_model.specs.Store.{AreThere};
    ghost use Rattle.hm_model.specs.Effect.{FieldStands};
    ghost use Rattle.hm_model.specs.Sight.{IsSet, IsUntended, present, Continues};
    ghost use Rattle.hm_model.specs.Calls.{Fetches, Stores, MayStore};
    ghost use Rattle.hm_model.specs.History.{store_of};
    ghost use Rattle.hm_plain.specs.Calls.{contents_of_object, field_of};
    ghost use Rattle.hm_plain.specs.Indices.{indexed_names, numbered};
    ghost use Rattle.hm_plain.specs.Sights.{sight_of, version_count, fresh_roots};

    /// The caller of a heap that has its starting objects alone, of which one is the common object.
    pub(crate) fn fresh(diary: Diary<U>, objects: Objects, common: u32) -> PlainCaller<U>
        requires common { common < length objects.contents }
        requires alone { diary.mine ≡ diary.seen }
        requires store { numbered objects.contents ≡ store_of diary.seen }
        requires used { objects.used ≡ version_count diary.seen }
        requires versions { objects.used + objects.room ≡ diary.versions }
        ensures { result ≡ sight_of diary objects (fresh_roots common) }
    {
        let mut roots = [None; 256];
        roots[0] = Some(common);
        PlainCaller {
            diary,
            objects,
            roots,
        }
    }

    // What the object at a place holds, by a Fetch.
    fn read(&mut self, from: Root) -> Object
        requires { IsSet self.old from }
        ensures fetched { Fetches U.lawful U.allowed
            self.old self.new from (contents_of_object result) }
        ensures roots { self.new.roots ≡ self.old.roots }
        ensures there { AreThere (present self.new) (indexed_names result.refs) }
        ensures stamp { result.stamp < u64.MAX }
        ensures untended { IsUntended self.old self.new }
    {
        let at = self.roots[from.0 as usize].unwrap();
        let answer = *self.objects.at(at);
        self.diary.enter(&Call::Fetch { at, answer });
        answer
    }

    // A Store into the object at a place.
    fn store(&mut self, at: Root, change: Change) -> Result<(), Full>
        requires at { IsSet self.old at }
        requires field { FieldStands (present self.old) (field_of change) }
        requires allowed { MayStore U.lawful U.allowed self.old at (field_of change) }
        ensures stored { OnOk result
            (Stores U.lawful U.allowed self.old self.new at (field_of change)) }
        ensures full { IsErr result ↔ (self.old.room ≡ 0) }
        ensures unchanged { OnErr result (self.new ≡ self.old) }
        ensures same { Continues U.lawful U.allowed self.old self.new }
    {
        if self.objects.is_full() {
            return Err(Full);
        }
        let at = self.roots[at.0 as usize].unwrap();
        self.diary.enter(&Call::Store { at, change });
        self.objects.store(at, change);
        Ok(())
    }
}

impl<U: Usage> Caller<U> for PlainCaller<U> {
    ghost sight = { λ c. c };

    fn is_set(&self, r: Root) -> bool {
        self.roots[r.0 as usize].is_some()
    }

    fn copy_root(&mut self, from: Root, to: Root) {
        self.roots[to.0 as usize] = self.roots[from.0 as usize];
    }

    fn clear_root(&mut self, r: Root) {
        self.roots[r.0 as usize] = None;
    }

    fn create(
        &mut self,
        into: Root,
        refs: [Option<Root>; 4],
        numbers: [u64; 10],
    ) -> Result<(), Full> {
        if self.objects.is_full() {
            return Err(Full);
        }
        let refs = indices_at(&self.roots, refs);
        let at = self.objects.add(refs, numbers);
        self.diary.enter(&Call::Create { at, refs, numbers });
        self.roots[into.0 as usize] = Some(at);
        Ok(())
    }

    fn fetch(&mut self, from: Root, hand: Root) -> Snapshot {
        let answer = self.read(from);
        let hand = hand.0 as usize;
        self.roots[hand..hand + 4].copy_from_slice(&answer.refs);
        answer.snapshot()
    }

    fn fetch_number(&mut self, from: Root, i: u32) -> u64 {
        self.read(from).numbers[i as usize]
    }

    fn fetch_ref(&mut self, from: Root, i: u32, into: Root) -> bool {
        let index = self.read(from).refs[i as usize];
        self.roots[into.0 as usize] = index;
        index.is_some()
    }

    fn store_number(&mut self, at: Root, i: u32, value: u64) -> Result<(), Full> {
        self.store(at, Change::Number { i, value })
    }

    fn store_ref(&mut self, at: Root, i: u32, value: Option<Root>) -> Result<(), Full> {
        let value = index_at(&self.roots, value);
        self.store(at, Change::Refer { i, value })
    }

    fn store_if(
        &mut self,
        at: Root,
        stamp: u64,
        refs: [Option<Root>; 4],
        numbers: [u64; 10],
    ) -> Result<(), StoreIfRefused> {
        if self.objects.is_full() {
            return Err(StoreIfRefused::Full);
        }
        let at = self.roots[at.0 as usize].unwrap();
        let refs = indices_at(&self.roots, refs);
        let answer = self.objects.at(at).tried(stamp);
        self.diary.enter(&Call::StoreIf {
            at,
            stamp,
            refs,
            numbers,
            answer,
        });
        match answer {
            Tried::Stored => {
                self.objects.replace(at, refs, numbers);
                Ok(())
            }
            Tried::Changed { stamp } => Err(StoreIfRefused::Changed { stamp }),
        }
    }
}

impl<U: Usage> Worker<U> for PlainCaller<U> {
    ghost use Rattle.hm_model.specs.Tending.{allowed_versions};
    ghost use Rattle.hm_plain.specs.Sights.{IsPlain};

    /// There is nothing to collect.
    fn tend(&mut self) -> Tended
        ensures nothing { result ≡ Tended.Nothing }
        ensures tends { self.new ≡ record self.old { tends = self.old.tends + 1 } }
        ensures plain { IsPlain self.new }
    {
        self.diary.tend();
        Tended::Nothing
    }

    /// How many versions are taken: one for each object that was made, and one for each store.
    fn used(&self) -> u32
        ensures used { result ≡ self.now.used }
        ensures room { self.now.room ≡ allowed_versions self.now }
        ensures plain { IsPlain self.now }
    {
        self.objects.used()
    }

    /// Nothing is ever freed.
    fn free(&self) -> u32
        ensures free { result ≡ self.now.free }
        ensures room { self.now.room ≡ allowed_versions self.now }
        ensures plain { IsPlain self.now }
    {
        let _ = &self.objects;
        0
    }
}
