//! The history of a machine, with the plain store that it leaves.
ghost use Rattle.std.specs.Prelude.{◌≡◌, ◌<◌, ◌^◌, ◌++◌, ◌∷◌, [], length, map, slice_get, None, IfOk, IfSome, OnOk, OnErr, option_and_then, option_copied};
ghost use Rattle.hm_model.specs.Store.{contents_of, IsThere, made_count, with_changed};
ghost use Rattle.hm_model.specs.Effect.{Stands, caller_of, effect_of};
ghost use Rattle.hm_model.specs.History.{store_of};
ghost use Rattle.hm_core.specs.Chronicles.{HasNextStamp, StandsAt};

use crate::contents::{new_contents, with_all, with_field};
use hm_model::{Contents, Entry, Name, Tried};
use std::alloc::{AllocError, Global};
use std::marker::Model;

/// Entries, one after another, and the objects as they leave them.
#[derive(Drop)]
pub(crate) struct Chronicle {
    entries: Vec<Entry>,
    /// The plain store of these entries.
    store: Vec<(Name, Contents)>,
    /// For each maker, where its objects stand in the store, in order of making.
    places: Vec<Vec<usize>>,
}

impl Model for Chronicle {
    ghost use Rattle.std.specs.Prelude.{length, map};
    ghost use Rattle.hm_core.specs.Chronicles.{ChronicleState, IsChronicle};

    ghost Value = { ChronicleState };

    ghost view = { λ c. record {
      makers = length c.places.items;
      entries = c.entries.items;
    } };

    ghost invariant = { λ c. IsChronicle c.entries.items c.store.items
        (map (λ places. places.items) c.places.items) };
}

impl Chronicle {
    ghost use Rattle.hm_core.specs.Chronicles.{ChronicleState};

    /// No entries yet, of so many callers.
    pub fn new(alloc: Global, makers: u32) -> Result<Chronicle, AllocError>
        ensures { IfOk result (λ c. c ≡ record { makers = makers; entries = [] }) }
    {
        let mut places = Vec::with_capacity(alloc, makers as usize)?;
        for _ in 0..makers {
            places.push(Vec::new(alloc))?;
        }
        Ok(Chronicle {
            entries: Vec::new(alloc),
            store: Vec::new(alloc),
            places,
        })
    }

    /// How many entries there are.
    pub fn count(&self) -> usize
        ensures { result ≡ length self.now.entries }
    {
        self.entries.len()
    }

    /// The plain store, in order of making.
    pub fn store(&self) -> &[(Name, Contents)]
        ensures { result.now ≡ store_of self.now.entries }
    {
        self.store.as_slice()
    }

    /// How many objects a caller has made.
    pub fn made(&self, maker: u32) -> u64
        requires { maker < self.now.makers }
        ensures { result ≡ made_count maker (store_of self.now.entries) }
    {
        self.places[maker as usize].len() as u64
    }

    /// What an object holds, where it is there.
    pub fn contents(&self, name: Name) -> Option<&Contents>
        ensures { option_copied result ≡ contents_of (store_of self.now.entries) name }
    {
        let place = self.place(name)?;
        Some(&self.store[place].1)
    }

    // Where an object stands in the store, where it is there.
    fn place(&self, name: Name) -> Option<usize>
        ensures there { IfSome result (StandsAt (store_of self.now.entries) name) }
        ensures none { result ≡ None → contents_of (store_of self.now.entries) name ≡ None }
    {
        place_of(self.places.as_slice(), name)
    }

    /// One entry more. Without memory nothing changes.
    pub fn append(&mut self, entry: &Entry) -> Result<(), AllocError>
        requires stands { Stands (store_of self.old.entries) entry.now }
        requires caller { caller_of entry.now < self.old.makers }
        requires stamp { HasNextStamp (store_of self.old.entries) entry.now (2 ^ 64) }
        ensures appended { OnOk result (self.new ≡ record {
          makers = self.old.makers;
          entries = self.old.entries ++ entry.now ∷ [];
        }) }
        ensures unchanged { OnErr result (self.new ≡ self.old) }
    {
        match *entry {
            Entry::Create {
                name,
                refs,
                numbers,
                ..
            } => self.create(entry, name, new_contents(refs, numbers)),
            Entry::Store { name, field, .. } => {
                let now = with_field(self.contents(name).unwrap(), field);
                self.change(entry, name, now)
            }
            Entry::StoreIf {
                name,
                refs,
                numbers,
                answer: Tried::Stored,
                ..
            } => {
                let now = with_all(self.contents(name).unwrap(), refs, numbers);
                self.change(entry, name, now)
            }
            Entry::Fetch { .. } | Entry::StoreIf { .. } => self.enter(entry),
        }
    }

    // An entry that stores nothing. Without memory nothing changes.
    fn enter(&mut self, entry: &Entry) -> Result<(), AllocError>
        requires stands { Stands (store_of self.old.entries) entry.now }
        requires effect { effect_of (store_of self.old.entries) entry.now
            ≡ store_of self.old.entries }
        ensures appended { OnOk result (self.new ≡ record {
          makers = self.old.makers;
          entries = self.old.entries ++ entry.now ∷ [];
        }) }
        ensures unchanged { OnErr result (self.new ≡ self.old) }
    {
        self.entries.push(*entry)?;
        Ok(())
    }

    // An entry that makes an object. Without memory nothing changes.
    fn create(&mut self, entry: &Entry, name: Name, contents: Contents) -> Result<(), AllocError>
        requires stands { Stands (store_of self.old.entries) entry.now }
        requires effect { effect_of (store_of self.old.entries) entry.now
            ≡ store_of self.old.entries ++ (name, contents) ∷ [] }
        requires maker { name.maker < self.old.makers }
        requires count { name.count ≡ made_count name.maker (store_of self.old.entries) }
        requires fresh { contents_of (store_of self.old.entries) name ≡ None }
        ensures appended { OnOk result (self.new ≡ record {
          makers = self.old.makers;
          entries = self.old.entries ++ entry.now ∷ [];
        }) }
        ensures unchanged { OnErr result (self.new ≡ self.old) }
    {
        self.entries.try_reserve(1)?;
        self.store.try_reserve(1)?;
        let place = self.store.len();
        self.places[name.maker as usize].push(place)?;
        self.store.push((name, contents)).unwrap();
        self.entries.push(*entry).unwrap();
        Ok(())
    }

    // An entry after which an object holds something else. Without memory nothing changes.
    fn change(&mut self, entry: &Entry, name: Name, now: Contents) -> Result<(), AllocError>
        requires stands { Stands (store_of self.old.entries) entry.now }
        requires effect { effect_of (store_of self.old.entries) entry.now
            ≡ with_changed (λ _. now) name (store_of self.old.entries) }
        requires there { IsThere (store_of self.old.entries) name }
        ensures appended { OnOk result (self.new ≡ record {
          makers = self.old.makers;
          entries = self.old.entries ++ entry.now ∷ [];
        }) }
        ensures unchanged { OnErr result (self.new ≡ self.old) }
    {
        let place = self.place(name).unwrap();
        self.entries.push(*entry)?;
        self.store[place] = (name, now);
        Ok(())
    }
}

// Where the places have an object.
fn place_of(places: &[Vec<usize>], name: Name) -> Option<usize>
    ensures { result ≡ option_and_then (λ ps. slice_get ps name.count)
        (slice_get (map (λ v. v.items) places.now) name.maker) }
{
    let places = places.get(name.maker as usize)?;
    places.get(name.count as usize).copied()
}
