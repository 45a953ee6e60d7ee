//! Replies to a First and to a Second.
ghost use Rattle.std.specs.Prelude.{◌≡◌, not, Some};
ghost use Rattle.hm_cells.specs.Calls.{replying};
ghost use Rattle.hm_cells.specs.Facts.{Fits, sight_of};
ghost use Rattle.hm_cycle.specs.Standing.{Keeps, standing_of};
ghost use Rattle.hm_cycle.specs.Cycling.{MayAnswer, kind_by};

use hm_cells::{Cells, Pass, a_pass_is_sound, store_reply};
use hm_model::Usage;
use hm_shape::ReplyKind;

/// Replies to the stage that the pass has seen, a First in which its scan has ended clean, or a Second. It replies Clean
/// and answers true where the mark is unset, which it always is in a First. Else it replies Dirty and answers false.
pub fn reply<U: Usage>(cells: &Cells<U>, pass: &mut Pass<U>) -> bool
    requires cells { Fits pass.old cells.now }
    requires may { MayAnswer pass.old }
    ensures clean { result ≡ not pass.old.part.cycle.scan.mark }
    ensures reply { standing_of pass.new ≡ record (standing_of pass.old) {
      reply = Some (replying pass.old (kind_by result));
    } }
    ensures sight { sight_of pass.new ≡ sight_of pass.old }
    ensures keeps { Keeps U.lawful U.allowed pass.old pass.new }
{
    a_pass_is_sound(pass);
    let clean = !pass.marked();
    store_reply(cells, pass, kind_of(clean));
    clean
}

// A reply that is not clean is dirty.
fn kind_of(clean: bool) -> ReplyKind
    ensures { result ≡ kind_by clean }
{
    if clean {
        ReplyKind::Clean
    } else {
        ReplyKind::Dirty
    }
}
