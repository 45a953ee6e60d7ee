//! Why a caller's work is halted, and what it does at want of room.
ghost use Rattle.std.specs.Prelude.{◌≡◌, ◌+◌, ◌<◌, ◌≤◌, false, true, OnOk, IfErr};
ghost use Rattle.hm_model.specs.Tending.{KeepsNames};
ghost use Rattle.hm_desk.specs.Stalling.{IfFull, IsUsedUp, WasFull};

use crate::tending::make_room;
use hm_cellbook::BookUsage;
use hm_model::Worker;

/// Why work is halted.
#[derive(Clone, Copy, Debug, PartialEq, Eq)]
pub(crate) enum Halt {
    /// The caller's room was 0, and the counts are the caller's.
    Full { used: u32, free: u32 },
    /// There was no memory.
    Memory,
}

/// What a caller does that found its room 0: it tends for more, unless it has tended for this before, and answers
/// `Ok` where it may try again, since versions were freed or its counts have changed.
pub(crate) fn meet_full<C: Worker<BookUsage>>(c: &mut C, tended: &mut bool) -> Result<(), Halt>
    requires { (C.sight c.old).room ≡ 0 }
    ensures same { KeepsNames (C.sight c.old) (C.sight c.new) }
    ensures tends { (C.sight c.old).tends ≤ (C.sight c.new).tends }
    ensures tended { tended.old ≡ false → (C.sight c.old).tends < (C.sight c.new).tends }
    ensures moves { (C.sight c.new).moves ≤ (C.sight c.old).moves + 8 }
    ensures still { tended.old ≡ true → (C.sight c.new).moves ≡ (C.sight c.old).moves }
    ensures once { OnOk result ((tended.old ≡ false) × (tended.new ≡ true)) }
    ensures full { IfErr result (λ halt. IfFull halt (WasFull (C.sight c.old))) }
    ensures up { IfErr result (λ halt. IfFull halt (IsUsedUp (C.sight c.new))) }
{
    let (used, free) = (c.used(), c.free());
    if *tended {
        return Err(Halt::Full { used, free });
    }
    *tended = true;
    if make_room(c) || c.used() != used || c.free() != free {
        return Ok(());
    }
    Err(Halt::Full { used, free })
}
