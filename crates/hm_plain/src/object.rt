//! One object, with indices in place of names.

use hm_model::{Snapshot, Tried};

/// What an object holds.
#[derive(Clone, Copy)]
pub(crate) struct Object {
    /// How often the object was stored to.
    pub stamp: u64,
    /// The objects that it names.
    pub refs: [Option<u32>; 4],
    pub numbers: [u64; 10],
}

/// A new value for one field of an object.
#[derive(Clone, Copy)]
pub(crate) enum Change {
    /// Number `i`, below 10.
    Number { i: u32, value: u64 },
    /// Reference `i`, below 4.
    Refer { i: u32, value: Option<u32> },
}

impl Object {
    ghost use Rattle.std.specs.Prelude.{◌≡◌, ◌+◌, ◌<◌, ◌^◌, ℕ};
    ghost use Rattle.hm_model.specs.Effect.{Answers, with_field, with_all};
    ghost use Rattle.hm_model.specs.Calls.{snapshot_of};
    ghost use Rattle.hm_plain.specs.Indices.{AreBelow, indexed_names};
    ghost use Rattle.hm_plain.specs.Calls.{contents_of_object, field_of, IsWithin};

    /// Changes one field, and raises the stamp by one.
    pub fn store(&mut self, change: Change)
        requires stamp { self.old.stamp + 1 < 2 ^ 64 }
        requires field { (n : ℕ) × IsWithin n change }
        ensures contents { contents_of_object self.new ≡
            with_field (field_of change) (contents_of_object self.old) }
        ensures refs { (n : ℕ) → AreBelow n self.old.refs → IsWithin n change
            → AreBelow n self.new.refs }
    {
        match change {
            Change::Number { i, value } => self.numbers[i as usize] = value,
            Change::Refer { i, value } => self.refs[i as usize] = value,
        }
        self.stamp += 1;
    }

    /// Replaces all fields, and raises the stamp by one.
    pub fn replace(&mut self, refs: [Option<u32>; 4], numbers: [u64; 10])
        requires { self.old.stamp + 1 < 2 ^ 64 }
        ensures contents { contents_of_object self.new ≡
            with_all (indexed_names refs) numbers (contents_of_object self.old) }
        ensures refs { self.new.refs ≡ refs }
    {
        *self = Object {
            stamp: self.stamp + 1,
            refs,
            numbers,
        };
    }

    /// What a fetch answers.
    pub fn snapshot(&self) -> Snapshot
        ensures { result ≡ snapshot_of (contents_of_object self.now) }
    {
        Snapshot {
            stamp: self.stamp,
            numbers: self.numbers,
            set: self.refs.map(|index| index.is_some()),
        }
    }

    /// How a conditional store ends that gives this stamp.
    pub fn tried(&self, stamp: u64) -> Tried
        ensures { Answers self.now.stamp stamp result }
    {
        if self.stamp == stamp {
            Tried::Stored
        } else {
            Tried::Changed { stamp: self.stamp }
        }
    }
}
