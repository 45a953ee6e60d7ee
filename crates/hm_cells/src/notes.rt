//! Notes: what a caller has seen, for another caller.
ghost use Rattle.std.specs.Prelude.{◌≡◌};
ghost use Rattle.hm_cells.specs.Facts.{Fits, IsSound, names_at};
ghost use Rattle.hm_cells.specs.Calls.{Meets, rested};

use crate::knowledge::Knowledge;
use crate::pass::Pass;
use crate::table::Cells;
use atomic_table::Seat;
use hm_model::Usage;
use std::marker::{Brand, Model};

/// A copy of the history that a caller had seen. Contracts see which cells it is of, and that history.
#[derive(Drop)]
pub struct Note<U: Usage> {
    seat: Seat<(), Knowledge<U>>,
}

impl<U: Usage> Model for Note<U> {
    ghost use Rattle.hm_cells.specs.Calls.{NoteFacts};

    ghost Value = { NoteFacts };

    ghost use Rattle.std.specs.Prelude.{◌≡◌, []};

    ghost view = { λ n. record { cells = n.seat.table_id; seen = n.seat.me.0.view.seen } };

    ghost invariant = { λ n. (n.seat.me.0.view.parts ≡ []) × (n.seat.me.1 ≡ []) };
}

/// Splits off a note with a copy of what the caller has seen. This is one step of the Table, which moves no word.
pub fn split<U: Usage>(cells: &Cells<U>, pass: &mut Pass<U>) -> Note<U>
    requires { Fits pass.old cells.now }
    ensures pass { pass.new ≡ rested pass.old pass.old.seen 1 }
    ensures names { names_at pass.new ≡ names_at pass.old }
    ensures note { result ≡ record { cells = pass.old.cells; seen = pass.old.seen } }
    ensures sound { IsSound U.lawful U.allowed pass.new }
{
    let seat = cells.note_out::<Brand>(&mut pass.seat, &pass.grip);
    Note { seat }
}

/// Takes a note in. The caller has then seen the longer of its own history and the note's.
///
/// These are two steps: the note's seat is joined to the caller's, and then the stage word is loaded. The load
/// decides nothing; by it contracts know what the caller is sure of once it has seen more.
pub fn meet<U: Usage>(cells: &Cells<U>, pass: &mut Pass<U>, note: Note<U>)
    requires cells { Fits pass.old cells.now }
    requires note { note.cells ≡ cells.now.table }
    ensures met { Meets U.lawful U.allowed pass.old note.seen pass.new }
    ensures sound { IsSound U.lawful U.allowed pass.new }
{
    let Note { seat } = note;
    cells.meet(&mut pass.seat, seat);
    // After the joining, so that what the caller is sure of is told of the longer history.
    cells.look::<Brand>(&mut pass.seat, &pass.grip);
}
