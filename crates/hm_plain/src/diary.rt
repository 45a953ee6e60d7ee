//! A history that is carried in the view of one seat, and never stored.
ghost use Rattle.hm_model.specs.declared.entry.Entry.{Entry};

use crate::call::Call;
use atomic_table::{Play, Seat, Table, TableRule};
use hm_model::{Entry, Start, Usage};
use std::alloc::{AllocError, Global};
use std::collections::LinkedList;
use std::marker::{Brand, Model, PhantomData};

/// What the one seat of a plain heap knows. No value of this type is ever made.
pub(crate) struct View<U> {
    pub usage: U,
    pub start: Start,
    /// How many versions the heap has.
    pub versions: u64,
    pub seen: LinkedList<Entry>,
    pub mine: LinkedList<Entry>,
    /// How often its caller tended.
    pub tends: u64,
}

/// What the table is told once, when it is made.
#[derive(Drop)]
pub(crate) struct Opening<U> {
    pub usage: U,
    pub start: Start,
    pub versions: u64,
}

/// The rule of the table: the history is lawful.
pub(crate) struct Lawfully;

impl<U: Usage> TableRule<(), View<U>, Opening<U>> for Lawfully {
    ghost use Rattle.hm_plain.specs.Views.{EachView, IsKept, opened};

    ghost holds = { λ _ s. EachView (IsKept U.lawful U.allowed) s };

    ghost first = { λ k. opened k.usage k.start k.versions };
}

/// The entry that a step makes. Each call picks it.
pub(crate) trait Entering {
    ghost entry: { Entry };
}

impl Entering for Brand {
    ghost use Rattle.hm_plain.specs.Views.{some_entry};

    ghost entry = { some_entry };
}

/// A step at which the entry is made.
pub(crate) struct Makes<J>(PhantomData<J>);

impl<J: Entering, U: Usage> Play<(), View<U>> for Makes<J> {
    ghost use Rattle.std.specs.Prelude.{◌≡◌};
    ghost use Rattle.hm_plain.specs.Views.{Adds};

    ghost then = { λ _ m _ w. Adds U.lawful U.allowed m.0 w.0 J.entry × (w.1 ≡ m.1) };
}

/// A step at which the seat's caller tends.
pub(crate) struct Tends;

impl<U> Play<(), View<U>> for Tends {
    ghost use Rattle.std.specs.Prelude.{◌≡◌};
    ghost use Rattle.hm_plain.specs.Views.{tended};

    ghost then = { λ _ m _ w. (w.0 ≡ tended m.0) × (w.1 ≡ m.1) };
}

/// A history that contracts see as what its one seat knows.
#[derive(Drop)]
pub(crate) struct Diary<U: Usage> {
    table: Table<(), View<U>, Opening<U>, Lawfully, Global>,
    seat: Seat<(), View<U>>,
}

impl<U: Usage> Model for Diary<U> {
    ghost use Rattle.std.specs.Prelude.{◌≡◌, ◌<◌};
    ghost use Rattle.hm_plain.specs.declared.diary.View.{View};

    ghost Value = { View U };

    ghost view = { λ d. d.seat.me.0 };

    ghost invariant = { λ d. (d.seat.table_id ≡ d.table.shared.table_id)
        × (0 < d.table.shared.table_id.words) };
}

impl<U: Usage> Diary<U> {
    ghost use Rattle.std.specs.Prelude.{◌≡◌, IfOk};
    ghost use Rattle.hm_model.specs.Effect.{caller_of};
    ghost use Rattle.hm_model.specs.History.{store_of, opening_of, IsSizedStart};
    ghost use Rattle.hm_plain.specs.Calls.{entry_of};
    ghost use Rattle.hm_plain.specs.Views.{opened, tended, MayAdd, Adds};

    /// A history that has the opening alone.
    pub fn open(
        alloc: Global,
        usage: U,
        start: Start,
        versions: u64,
    ) -> Result<Diary<U>, AllocError>
        requires sized { IsSizedStart start }
        requires lawful { U.lawful usage (store_of (opening_of start)) }
        ensures { IfOk result (λ d. d ≡ opened usage start versions) }
    {
        let opening = Opening {
            usage,
            start,
            versions,
        };
        let (table, seat) = Table::of_words(alloc, &[0], &opening)?;
        Ok(Diary { table, seat })
    }

    /// Makes an entry, by one load. No byte of the call is read: it is there for the pick alone.
    pub fn enter(&mut self, call: &Call)
        requires { MayAdd U.lawful U.allowed self.old (entry_of call.now) }
        ensures { Adds U.lawful U.allowed self.old self.new (entry_of call.now) }
    {
        self.step::<Brand>(call);
    }

    /// Counts a tend, by one load. The count is never stored.
    pub fn tend(&mut self)
        ensures { self.new ≡ tended self.old }
    {
        let table = &self.table;
        table.shared.load::<Tends>(&mut self.seat, 0);
    }

    fn step<J: Entering>(&mut self, _call: &Call)
        requires own { caller_of J.entry ≡ 0 }
        requires may { MayAdd U.lawful U.allowed self.old J.entry }
        ensures { Adds U.lawful U.allowed self.old self.new J.entry }
    {
        let table = &self.table;
        table.shared.load::<Makes<J>>(&mut self.seat, 0);
    }
}
