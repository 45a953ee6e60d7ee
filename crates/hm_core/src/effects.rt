//! What an accepted step makes of the machine.
ghost use Rattle.std.specs.Prelude.{◌≡◌, ◌≢◌, ◌+◌, ◌++◌, ◌^◌, ◌<◌, ◌⊎◌, None, [], length, IfSome, OnErr, IfOk, OnOk, Contains, slice_index};
ghost use Rattle.hm_model.specs.Effect.{Stands, caller_of};
ghost use Rattle.hm_model.specs.History.{store_of};
ghost use Rattle.hm_moves.specs.Acts.{listed};
ghost use Rattle.hm_moves.specs.After.{count_of};
ghost use Rattle.hm_moves.specs.Cycles.{found_end};
ghost use Rattle.hm_core.specs.Hands.{ending};
ghost use Rattle.hm_core.specs.Chronicles.{HasNextStamp};
ghost use Rattle.hm_core.specs.Running.{known_with, row_with, seat_with};

use crate::chronicle::Chronicle;
use crate::cuts::{becomes, entry, publishes};
use crate::hand::Hand;
use crate::machine::{Machine, Row};
use crate::rows::{end, ends_cycle, free};
use crate::seat::Seat;
use hm_model::Entry;
use hm_moves::{Act, Known, Move};
use hm_shape::STAGE_AT;
use std::alloc::AllocError;

impl Machine {
    ghost use Rattle.hm_moves.specs.Good.{applied};
    ghost use Rattle.hm_moves.specs.Allowed.{IsLawfulMove};
    ghost use Rattle.hm_moves.specs.Acts.{word_of};
    ghost use Rattle.hm_core.specs.Stepping.{IsAwake};
    ghost use Rattle.hm_core.specs.Running.{any_store, any_entry, core_of, own_part, own_view, site_of};
    ghost use Rattle.hm_core.specs.Taking.{split_off, joined_to};

    // A caller takes a move, which answers the word that it found. Without memory nothing changes.
    pub(crate) fn take(&mut self, caller: u32, m: &Move) -> Result<u64, AllocError>
        requires awake { IsAwake (core_of self.old) caller (own_view self.old caller)
            (own_part self.old caller) }
        requires may { IsLawfulMove any_store any_entry (core_of self.old).heap
            (own_part self.old caller) m.now }
        ensures taken { OnOk result (core_of self.new ≡ applied (core_of self.old) caller 0
            (own_view self.old caller) (own_part self.old caller) m.now) }
        ensures word { IfOk result (λ x. x
            ≡ slice_index self.old.words (word_of (own_part self.old caller) m.now.act)) }
        ensures site { site_of self.new ≡ site_of self.old }
        ensures unchanged { OnErr result (self.new ≡ self.old) }
    {
        let _stage = self.words[STAGE_AT as usize];
        let at = self.word_of(caller, &m.act) as usize;
        let x = self.words[at];
        let found = self.finds(&m.act, x);
        let fresh = publishes(&m.act, x);
        let ends = ends_cycle(&m.act, x);
        let row = self.row_of(caller) as usize;
        let seat = &mut self.seats[caller as usize];
        let hand = &mut self.hands[caller as usize];
        enter(
            &mut self.chronicle,
            seat,
            hand,
            &m.act,
            x,
            entry(&m.act, caller, x),
        )?;
        free(
            &mut self.rows,
            self.shape,
            caller,
            &self.hands[caller as usize],
            &m.act,
        );
        end(
            &mut self.rows,
            &mut self.known,
            self.shape,
            self.hands.as_slice(),
            ends,
        );
        self.done += u32::from(ends);
        self.words[at] = becomes(&m.act, x);
        self.hands[caller as usize].follow(self.shape, caller, m, x, found);
        publish(&mut self.known, &mut self.rows[row], fresh);
        Ok(x)
    }

    // A note is split off the caller's seat. Without memory nothing changes.
    pub(crate) fn split(&mut self, caller: u32, let_go: Option<Known>) -> Result<(), AllocError>
        requires awake { IsAwake (core_of self.old) caller (own_view self.old caller)
            (own_part self.old caller) }
        ensures split { OnOk result (core_of self.new ≡ split_off self.old caller let_go) }
        ensures site { site_of self.new ≡ site_of self.old }
        ensures unchanged { OnErr result (self.new ≡ self.old) }
    {
        let seen = self.seats[caller as usize].seen();
        self.seats.push(Seat::note(self.alloc, seen))?;
        self.hands[caller as usize].release(self.shape, let_go);
        Ok(())
    }

    // The caller's seat takes the callers of another, and has seen the longer of the two histories. Without
    // memory nothing changes.
    pub(crate) fn meet(
        &mut self,
        caller: u32,
        other: usize,
        let_go: Option<Known>,
    ) -> Result<(), AllocError>
        requires awake { IsAwake (core_of self.old) caller (own_view self.old caller)
            (own_part self.old caller) }
        requires other { other ≢ caller }
        requires there { other < length self.old.seats }
        ensures joined { OnOk result (core_of self.new ≡ joined_to self.old caller let_go other) }
        ensures site { site_of self.new ≡ site_of self.old }
        ensures unchanged { OnErr result (self.new ≡ self.old) }
    {
        let parts = self.seats[other].copy_parts(self.alloc)?;
        let seen = self.seats[other].seen();
        self.seats[caller as usize].carry(seen, parts.as_slice())?;
        self.seats[other].spend();
        self.hands[caller as usize].release(self.shape, let_go);
        Ok(())
    }
}

// An end that is found is listed, and an entry is made, if there is one, of which its seat has then seen the whole
// history. Without memory nothing changes.
fn enter(
    chronicle: &mut Chronicle,
    seat: &mut Seat,
    hand: &mut Hand,
    act: &Act,
    found: u64,
    entry: Option<Entry>,
) -> Result<(), AllocError>
    requires stands { IfSome entry (Stands (store_of chronicle.old.entries)) }
    requires caller { IfSome entry (λ e. caller_of e < chronicle.old.makers) }
    requires stamp { IfSome entry
        (λ e. HasNextStamp (store_of chronicle.old.entries) e (2 ^ 64)) }
    ensures entries { OnOk result (chronicle.new ≡ record {
      makers = chronicle.old.makers;
      entries = chronicle.old.entries ++ listed entry;
    }) }
    ensures seen { OnOk result
        (seat.new ≡ seat_with seat.old (length chronicle.old.entries) entry) }
    ensures noted { OnOk result (hand.new ≡ ending hand.old (found_end act.now found)) }
    ensures unchanged { OnErr result (chronicle.new ≡ chronicle.old) }
    ensures unseen { OnErr result (seat.new ≡ seat.old) }
    ensures unnoted { OnErr result (hand.new ≡ hand.old) }
{
    hand.note_end(act, found)?;
    match make(chronicle, seat, entry) {
        Ok(()) => Ok(()),
        Err(error) => {
            hand.drop_end(act, found);
            Err(error)
        }
    }
}

// An entry is made, if there is one, and its seat has then seen the whole history. Without memory nothing
// changes.
fn make(chronicle: &mut Chronicle, seat: &mut Seat, entry: Option<Entry>) -> Result<(), AllocError>
    requires stands { IfSome entry (Stands (store_of chronicle.old.entries)) }
    requires caller { IfSome entry (λ e. caller_of e < chronicle.old.makers) }
    requires stamp { IfSome entry
        (λ e. HasNextStamp (store_of chronicle.old.entries) e (2 ^ 64)) }
    ensures entries { OnOk result (chronicle.new ≡ record {
      makers = chronicle.old.makers;
      entries = chronicle.old.entries ++ listed entry;
    }) }
    ensures seen { OnOk result
        (seat.new ≡ seat_with seat.old (length chronicle.old.entries) entry) }
    ensures unchanged { OnErr result (chronicle.new ≡ chronicle.old) }
    ensures unseen { OnErr result (seat.new ≡ seat.old) }
{
    if let Some(entry) = entry {
        chronicle.append(&entry)?;
        seat.see(chronicle.count());
    }
    Ok(())
}

// A version is known, if one is published, and counts in its row.
fn publish(known: &mut Vec<Option<Known>>, row: &mut Row, fresh: Option<Known>)
    requires below { IfSome fresh (λ k. k.version.0 < length known.old.items) }
    requires used { IfSome fresh (λ k. row.old.used + 1 < 2 ^ 32) }
    requires made { IfSome fresh (λ k. row.old.made + 1 < 2 ^ 64) }
    ensures known { known.new.items ≡ known_with known.old.items fresh }
    ensures row { row.new ≡ row_with row.old fresh }
{
    if let Some(version) = fresh {
        known[version.version.0 as usize] = fresh;
        row.used += 1;
        row.made += 1;
    }
}
