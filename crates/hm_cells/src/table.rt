//! The Table, its rule, and one step on it.
ghost use Rattle.std.specs.Prelude.{◌≡◌, ◌<◌};

use crate::grip::Grip;
use crate::knowledge::{Knowledge, Opening};
use crate::plan::Plan;
use atomic_table::{Join, Play, Seat, Split, Table, TableRule};
use hm_model::Usage;
use hm_moves::Move;
use hm_shape::{STAGE_AT, Shape};
use std::alloc::{AllocError, Global};
use std::marker::{Brand, Model, PhantomData};

/// The rule: words and views show a good state of the machine.
pub(crate) struct ByTheMachine;

impl<U: Usage> TableRule<(), Knowledge<U>, Opening<U>> for ByTheMachine {
    ghost use Rattle.hm_cells.specs.Grips.{site_of};
    ghost use Rattle.hm_cells.specs.Shows.{Shows, knowledge};
    ghost use Rattle.hm_cells.specs.Making.{first_view};

    ghost holds = { λ o s. Shows U.lawful U.allowed (site_of o) s };

    ghost first = { λ o. knowledge (first_view (site_of o)) };
}

/// The move that a call makes. Each call picks it.
pub(crate) trait Moving {
    ghost use Rattle.std.specs.Prelude.{ℕ};
    ghost use Rattle.hm_moves.specs.declared.moving.Move.{Move};

    ghost picked: { Move };

    // The place at which the seat carries that caller.
    ghost place: { ℕ };
}

impl Moving for Brand {
    ghost use Rattle.hm_cells.specs.Shows.{some_move};

    ghost picked = { some_move };

    ghost place = { 0 };
}

/// A step that is a move of a caller of the seat.
pub(crate) struct Moves<J>(PhantomData<J>);

impl<J: Moving, U: Usage> Play<(), Knowledge<U>> for Moves<J> {
    ghost use Rattle.std.specs.Prelude.{◌≡◌};
    ghost use Rattle.hm_cells.specs.Shows.{Learns};

    ghost then = { λ _ m x w. Learns U.lawful U.allowed J.picked J.place m.0 x w.0 × (w.1 ≡ m.1) };
}

/// A step that moves no word: a caller of the seat lets go of a version, and sees what it is sure of.
pub(crate) struct Looking<J>(PhantomData<J>);

impl<J: Moving, U: Usage> Play<(), Knowledge<U>> for Looking<J> {
    ghost use Rattle.std.specs.Prelude.{◌≡◌};
    ghost use Rattle.hm_cells.specs.Shows.{LookTells};

    ghost then = { λ _ m _ w. LookTells U.lawful U.allowed J.picked.let_go J.place m.0 w.0 × (w.1 ≡ m.1) };
}

/// The last caller of a seat gets a seat of its own.
pub(crate) struct LastOut;

impl<U> Split<Knowledge<U>> for LastOut {
    ghost use Rattle.hm_moves.specs.After.{view};
    ghost use Rattle.hm_cells.specs.Shows.{knowledge};
    ghost use Rattle.hm_cells.specs.Making.{front, back};

    ghost left = { λ k. knowledge (view k.view.seen (front k.view.parts)) };

    ghost right = { λ k. knowledge (view k.view.seen (back k.view.parts)) };
}

/// A note with a copy of what was seen gets a seat of its own, and the caller lets go of a version.
pub(crate) struct NoteOut<J>(PhantomData<J>);

impl<J: Moving, U> Split<Knowledge<U>> for NoteOut<J> {
    ghost use Rattle.hm_cells.specs.Shows.{noted, noting};

    ghost left = { noting J.picked.let_go };

    ghost right = { noted };
}

/// A note with a copy of what was seen gets a seat of its own, and the seat goes on as it was.
pub(crate) struct CopyOut;

impl<U> Split<Knowledge<U>> for CopyOut {
    ghost use Rattle.hm_cells.specs.Shows.{noted};

    ghost left = { λ k. k };

    ghost right = { noted };
}

/// A seat takes another in, and has then seen the longer of two histories.
pub(crate) struct Meeting;

impl<U> Join<Knowledge<U>> for Meeting {
    ghost use Rattle.hm_cells.specs.Shows.{met, spent};

    ghost both = { met };

    ghost spent = { spent };
}

/// A seat takes another in, and keeps the shorter of two histories in mind.
pub(crate) struct Gathering;

impl<U> Join<Knowledge<U>> for Gathering {
    ghost use Rattle.hm_cells.specs.Ending.{gathered};
    ghost use Rattle.hm_cells.specs.Shows.{spent};

    ghost both = { gathered };

    ghost spent = { spent };
}

/// A step that moves no word: a seat hears that what it keeps in mind begins what it has seen.
pub(crate) struct Hearing;

impl<U> Play<(), Knowledge<U>> for Hearing {
    ghost use Rattle.std.specs.Prelude.{◌≡◌};
    ghost use Rattle.hm_cells.specs.Ending.{Heard};

    ghost then = { λ _ m _ w. Heard m.0 w.0 × (w.1 ≡ m.1) };
}

/// What a Table was told, where nothing is asked of its word.
pub(crate) struct Told;

impl<U> TableRule<(), (), Opening<U>> for Told {
    ghost holds = { λ _ _. Unit {0} };

    ghost first = { λ _. tt };
}

/// A Table of one word, which no call looks at. What it was told outlives the words of a heap: contracts see by it what
/// all callers of a closed heap agreed on.
pub(crate) type Agreement<U> = Table<(), (), Opening<U>, Told, Global>;

/// The words of a heap.
///
/// Contracts see of them which Table they are, and what all seats agree on.
#[derive(Drop)]
pub struct Cells<U: Usage> {
    table: Table<(), Knowledge<U>, Opening<U>, ByTheMachine, Global>,
    agreement: Agreement<U>,
    shape: Shape,
}

impl<U: Usage> Model for Cells<U> {
    ghost use Rattle.hm_cells.specs.Facts.{Made};

    ghost Value = { Made U };

    ghost use Rattle.hm_cells.specs.Grips.{site_of};
    ghost use Rattle.hm_cells.specs.Shows.{IsLaid};

    ghost view = { λ c. record {
      table = c.table.shared.table_id;
      site = site_of c.table.shared.key;
    } };

    ghost invariant = { λ c.
        IsLaid c.table.shared.table_id (site_of c.table.shared.key)
        (site_of c.agreement.shared.key) c.shape };
}

impl<U: Usage> Cells<U> {
    ghost use mathlib.Core.Option.{some};
    ghost use lib.ListN.{get_elem?};
    ghost use Rattle.std.specs.Prelude.{◌∷◌, [], ◌≤◌, IfOk, Some, length};
    ghost use Rattle.hm_shape.specs.Words.{word_count};
    ghost use Rattle.hm_model.specs.History.{store_of, opening_of, starting_count};
    ghost use Rattle.hm_moves.specs.declared.part.Part.{Part};
    ghost use Rattle.hm_moves.specs.After.{view};
    ghost use Rattle.hm_cells.specs.Grips.{site_of};
    ghost use Rattle.hm_cells.specs.Shows.{IsReady, Loads, Stores, Exchanges, Learns, LookTells, knowledge, noted, noting, met};
    ghost use Rattle.hm_moves.specs.FirstWords.{AreFirst, first_words};
    ghost use Rattle.hm_cells.specs.Making.{first_view, front, back};
    ghost use Rattle.hm_cells.specs.Ending.{CarriesAll, EndsWith, Gathers};

    /// A fresh Table over the words of a fresh heap. Its one seat carries all callers.
    pub(crate) fn open(
        alloc: Global,
        words: &[u64],
        opening: &Opening<U>,
    ) -> Result<(Cells<U>, Seat<(), Knowledge<U>>), AllocError>
        requires objects { starting_count opening.now.start ≤ opening.now.shape.versions }
        requires lawful { U.lawful opening.now.usage (store_of (opening_of opening.now.start)) }
        requires words { words.now ≡ first_words opening.now.shape opening.now.start }
        requires first { AreFirst opening.now.shape opening.now.start words.now }
        ensures site { IfOk result (λ r. r.0.site ≡ site_of opening.now) }
        ensures table { IfOk result (λ r. r.1.table_id ≡ r.0.table) }
        ensures seat { IfOk result (λ r.
            r.1.me ≡ (knowledge (first_view (site_of opening.now)), [])) }
    {
        let (table, seat) = Table::of_words(alloc, words, opening)?;
        let (agreement, _seat) = Table::of_words(alloc, &[0], opening)?;
        Ok((
            Cells {
                table,
                agreement,
                shape: opening.shape,
            },
            seat,
        ))
    }

    /// The shape that the cells were made with.
    pub fn shape(&self) -> Shape
        ensures { result ≡ self.now.site.shape }
    {
        self.shape
    }

    /// A load of a word. Grip and plan are for the pick alone.
    pub(crate) fn load<J: Moving>(
        &self,
        seat: &mut Seat<(), Knowledge<U>>,
        _grip: &Grip<U>,
        word: u64,
        _plan: &Plan,
    ) -> u64
        requires own { seat.old.table_id ≡ self.now.table }
        requires word { word < word_count self.now.site.shape }
        requires ready { IsReady U.lawful U.allowed seat.old.me.0 J.picked J.place
            (Loads J.picked word) }
        ensures own { seat.new.table_id ≡ seat.old.table_id }
        ensures slots { seat.new.me.1 ≡ seat.old.me.1 }
        ensures told { Learns U.lawful U.allowed J.picked J.place
            seat.old.me.0 result seat.new.me.0 }
    {
        let table = &self.table;
        table.shared.load::<Moves<J>>(seat, word as usize)
    }

    /// A store of a word. Grip and plan are for the pick alone.
    pub(crate) fn store<J: Moving>(
        &self,
        seat: &mut Seat<(), Knowledge<U>>,
        _grip: &Grip<U>,
        word: u64,
        value: u64,
        _plan: &Plan,
    )
        requires own { seat.old.table_id ≡ self.now.table }
        requires word { word < word_count self.now.site.shape }
        requires ready { IsReady U.lawful U.allowed seat.old.me.0 J.picked J.place
            (Stores U.lawful U.allowed J.picked word value) }
        ensures own { seat.new.table_id ≡ seat.old.table_id }
        ensures slots { seat.new.me.1 ≡ seat.old.me.1 }
        ensures told { Learns U.lawful U.allowed J.picked J.place
            seat.old.me.0 value seat.new.me.0 }
    {
        let table = &self.table;
        table.shared.store::<Moves<J>>(seat, word as usize, value);
    }

    /// An exchange of a word, from one number to another. Answers what it found. Grip and plan are for the pick alone.
    pub(crate) fn exchange<J: Moving>(
        &self,
        seat: &mut Seat<(), Knowledge<U>>,
        _grip: &Grip<U>,
        word: u64,
        from: u64,
        to: u64,
        _plan: &Plan,
    ) -> u64
        requires own { seat.old.table_id ≡ self.now.table }
        requires word { word < word_count self.now.site.shape }
        requires ready { IsReady U.lawful U.allowed seat.old.me.0 J.picked J.place
            (Exchanges J.picked word from to) }
        ensures own { seat.new.table_id ≡ seat.old.table_id }
        ensures slots { seat.new.me.1 ≡ seat.old.me.1 }
        ensures told { Learns U.lawful U.allowed J.picked J.place
            seat.old.me.0 result seat.new.me.0 }
    {
        let table = &self.table;
        table
            .shared
            .compare_exchange::<Moves<J>>(seat, word as usize, from, to)
    }

    /// A load by which the seat's caller lets go of a version. The grip is for the pick alone.
    pub(crate) fn look<J: Moving>(&self, seat: &mut Seat<(), Knowledge<U>>, _grip: &Grip<U>)
        requires own { seat.old.table_id ≡ self.now.table }
        requires carries { (p : Part U) × (get_elem? seat.old.me.0.view.parts J.place ≡ some p) }
        ensures own { seat.new.table_id ≡ seat.old.table_id }
        ensures slots { seat.new.me.1 ≡ seat.old.me.1 }
        ensures told { LookTells U.lawful U.allowed J.picked.let_go J.place
            seat.old.me.0 seat.new.me.0 }
    {
        let table = &self.table;
        table.shared.load::<Looking<J>>(seat, 0);
    }

    /// The last caller of a seat gets a seat of its own.
    pub(crate) fn last_out(&self, seat: &mut Seat<(), Knowledge<U>>) -> Seat<(), Knowledge<U>>
        requires { seat.old.table_id ≡ self.now.table }
        ensures own { seat.new.table_id ≡ seat.old.table_id }
        ensures kept { seat.new.me ≡ (
          knowledge (view seat.old.me.0.view.seen
              (front seat.old.me.0.view.parts)),
          seat.old.me.1,
        ) }
        ensures table { result.table_id ≡ seat.old.table_id }
        ensures new { result.me ≡ (
          knowledge (view seat.old.me.0.view.seen
              (back seat.old.me.0.view.parts)),
          [],
        ) }
    {
        self.table.shared.split_seat::<LastOut>(seat)
    }

    /// A note is split off a seat, whose caller lets go of a version. The grip is for the pick alone.
    pub(crate) fn note_out<J: Moving>(
        &self,
        seat: &mut Seat<(), Knowledge<U>>,
        _grip: &Grip<U>,
    ) -> Seat<(), Knowledge<U>>
        requires { seat.old.table_id ≡ self.now.table }
        ensures own { seat.new.table_id ≡ seat.old.table_id }
        ensures kept { seat.new.me ≡ (noting J.picked.let_go seat.old.me.0, seat.old.me.1) }
        ensures table { result.table_id ≡ seat.old.table_id }
        ensures new { result.me ≡ (noted seat.old.me.0, []) }
    {
        self.table.shared.split_seat::<NoteOut<J>>(seat)
    }

    /// A seat takes another in, and has then seen all that either had.
    pub(crate) fn gather(&self, seat: &mut Seat<(), Knowledge<U>>, other: Seat<(), Knowledge<U>>)
        requires own { seat.old.table_id ≡ self.now.table }
        requires other { other.table_id ≡ self.now.table }
        requires none { other.me.1 ≡ [] }
        ensures own { seat.new.table_id ≡ seat.old.table_id }
        ensures slots { seat.new.me.1 ≡ seat.old.me.1 }
        ensures gathers { Gathers seat.old.me.0 other.me.0 seat.new.me.0 }
    {
        let table = &self.table;
        table.shared.join_seat::<Gathering>(seat, other);
        // After the joining. The load decides nothing: by it contracts know that both histories begin the longer one.
        table.shared.load::<Hearing>(seat, 0);
    }

    /// Closes the Table, with a seat that carries every caller. The note that is left has seen the whole history;
    /// beside it come what all callers agreed on, and the stage's word at the end.
    pub(crate) fn finish(
        self,
        mut seat: Seat<(), Knowledge<U>>,
    ) -> (Seat<(), Knowledge<U>>, Agreement<U>, u64)
        requires own { seat.table_id ≡ self.table }
        requires all { CarriesAll self.site.shape.callers seat.me.0.view.parts }
        ensures note { result.0.me ≡ (noted seat.me.0, []) }
        ensures agreed { site_of result.1.shared.key ≡ self.site }
        ensures ends { EndsWith U.lawful U.allowed self.site seat.me.0.view result.2 }
    {
        let Cells {
            table,
            agreement,
            shape: _,
        } = self;
        // The note goes out first, since the Table is closed with the seat that carries the callers: only of that seat
        // is it known at the end what it has seen.
        let note = table.shared.split_seat::<CopyOut>(&mut seat);
        let closed = table.close_with(seat);
        let stage = closed.word(STAGE_AT as usize);
        closed.free();
        (note, agreement, stage)
    }

    /// A seat takes another in.
    pub(crate) fn meet(&self, seat: &mut Seat<(), Knowledge<U>>, other: Seat<(), Knowledge<U>>)
        requires own { seat.old.table_id ≡ self.now.table }
        requires other { other.table_id ≡ self.now.table }
        requires none { other.me.1 ≡ [] }
        ensures own { seat.new.table_id ≡ seat.old.table_id }
        ensures met { seat.new.me ≡ (met seat.old.me.0 other.me.0, seat.old.me.1) }
    {
        self.table.shared.join_seat::<Meeting>(seat, other);
    }
}
