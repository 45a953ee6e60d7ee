//! The table of objects. Memory for all of them is taken when it is made.

use crate::object::{Change, Object};
use hm_model::Start;
use std::alloc::{AllocError, Global};
use std::marker::Model;

/// Objects by their index.
#[derive(Drop)]
pub(crate) struct Objects {
    items: Vec<Object>,
    /// How many versions are taken: one for each create and each store.
    used: u32,
    /// How many are left.
    room: u32,
}

impl Model for Objects {
    ghost use Rattle.std.specs.Prelude.{map, vec_capacity};
    ghost use Rattle.hm_plain.specs.Calls.{contents_of_object};
    ghost use Rattle.hm_plain.specs.Stocks.{Stock, IsSound};

    ghost Value = { Stock };

    ghost view = { λ o. record {
      contents = map contents_of_object o.items.items;
      used = o.used;
      room = o.room;
    } };

    ghost invariant = { λ o. IsSound o.items.items o.used o.room (vec_capacity o.items) };
}

impl Objects {
    ghost use Rattle.std.specs.Prelude.{◌≡◌, ◌+◌, ◌<◌, ◌≤◌, ◌↔◌, [], ◌∷◌, ◌++◌, length, IfOk, IsTrue};
    ghost use Rattle.hm_model.specs.Effect.{new_contents, with_field, with_all};
    ghost use Rattle.hm_model.specs.History.{store_of, opening_of, starting_count};
    ghost use Rattle.hm_plain.specs.Indices.{AreBelow, indexed_names, numbered};
    ghost use Rattle.hm_plain.specs.Calls.{contents_of_object, field_of, IsWithin};
    ghost use Rattle.hm_plain.specs.Stocks.{most_versions, Holds, Takes, Changes, AddsSide};

    /// No object yet, and room for this many versions.
    pub fn reserve(alloc: Global, room: u32) -> Result<Objects, AllocError>
        requires { room ≤ most_versions }
        ensures { IfOk result (λ o. o ≡ record { contents = []; used = 0; room = room }) }
    {
        Ok(Objects {
            items: Vec::with_capacity(alloc, room as usize)?,
            used: 0,
            room,
        })
    }

    /// Whether all versions are taken.
    pub fn is_full(&self) -> bool
        ensures { IsTrue result ↔ (self.now.room ≡ 0) }
    {
        self.room == 0
    }

    /// How many versions are taken.
    pub fn used(&self) -> u32
        ensures { result ≡ self.now.used }
    {
        self.used
    }

    /// What the object at an index holds.
    pub fn at(&self, index: u32) -> &Object
        requires { index < length self.now.contents }
        ensures holds { Holds self.now index (contents_of_object result.now) }
        ensures refs { AreBelow (length self.now.contents) result.now.refs }
        ensures stamp { result.now.stamp ≤ most_versions }
    {
        &self.items[index as usize]
    }

    /// Makes an object with stamp 0, and answers its index.
    pub fn add(&mut self, refs: [Option<u32>; 4], numbers: [u64; 10]) -> u32
        requires room { 0 < self.old.room }
        requires refs { AreBelow (length self.old.contents) refs }
        ensures index { result ≡ length self.old.contents }
        ensures takes { Takes self.old self.new
            (self.old.contents ++ new_contents (indexed_names refs) numbers ∷ []) }
    {
        let index = self.items.len() as u32;
        self.items
            .push(Object {
                stamp: 0,
                refs,
                numbers,
            })
            .unwrap();
        self.used += 1;
        self.room -= 1;
        index
    }

    /// Changes one field of the object at an index.
    pub fn store(&mut self, index: u32, change: Change)
        requires room { 0 < self.old.room }
        requires index { index < length self.old.contents }
        requires field { IsWithin (length self.old.contents) change }
        ensures { Changes self.old self.new index (with_field (field_of change)) }
    {
        self.items[index as usize].store(change);
        self.used += 1;
        self.room -= 1;
    }

    /// Replaces all fields of the object at an index.
    pub fn replace(&mut self, index: u32, refs: [Option<u32>; 4], numbers: [u64; 10])
        requires room { 0 < self.old.room }
        requires index { index < length self.old.contents }
        requires refs { AreBelow (length self.old.contents) refs }
        ensures { Changes self.old self.new index (with_all (indexed_names refs) numbers) }
    {
        self.items[index as usize].replace(refs, numbers);
        self.used += 1;
        self.room -= 1;
    }

    /// Makes the objects that a heap starts with. The common object comes last.
    pub fn open(&mut self, start: Start)
        requires empty { self.old.contents ≡ [] }
        requires room { starting_count start ≤ self.old.room }
        ensures count { length self.new.contents ≡ starting_count start }
        ensures store { numbered self.new.contents ≡ store_of (opening_of start) }
        ensures used { self.new.used ≡ self.old.used + starting_count start }
        ensures room { self.new.room + starting_count start ≡ self.old.room }
    {
        let [a, b, c, d] = start.sides;
        let sides = [
            self.add_side(a),
            self.add_side(b),
            self.add_side(c),
            self.add_side(d),
        ];
        self.add(sides, start.numbers);
    }

    // A side object, if it is given.
    fn add_side(&mut self, side: Option<[u64; 10]>) -> Option<u32>
        requires { 0 < self.old.room }
        ensures { AddsSide self.old self.new side result }
    {
        let numbers = side?;
        Some(self.add([None; 4], numbers))
    }
}
