//! How far a caller's scan has come, and what it knows as from-space.
ghost use Rattle.std.specs.Prelude.{◌≡◌, ℕ, nat_le, is_some, Option, ◌*◌, ◌&&◌, not, None, length, slice_index_or};
ghost use Rattle.std.specs.List.{list_all, list_any};
ghost use Rattle.hm_moves.specs.declared.part.Known.{Known};
ghost use Rattle.hm_shape.specs.Versions.{owner_of, region_of};
ghost use Rattle.hm_moves.specs.Acts.{looked_at, looked_word};
ghost use Rattle.hm_moves.specs.Cycles.{field_count, gives_from};

use crate::cuts::word_looked_at;
use crate::hand::Hand;
use crate::names::{FIELDS, field_word};
use crate::track::Track;
use hm_moves::{Act, Build, Known, Look, Move};
use hm_shape::{Shape, Version};

impl Hand {
    ghost use Rattle.hm_core.specs.Hands.{IsLookWord, part_by};
    ghost use Rattle.hm_moves.specs.declared.moving.Act.TheVariants.{Builds};
    ghost use Rattle.hm_moves.specs.declared.moving.Move.{Move};
    ghost use Rattle.hm_moves.specs.Allowed.{IsWordOf};
    ghost use Rattle.hm_moves.specs.Cycles.{is_at_cursor as cursor_at, is_scan as part_scans, known_from, meets as part_meets, passes as part_passes, stops as part_stops};

    // Whether it knows a version as from-space.
    pub(crate) fn knows_from(&self, shape: Shape, v: Version) -> bool
        ensures { (q : ℕ) → result ≡ known_from (part_by shape q self.now) v }
    {
        knows_from(self.track(), shape, v)
    }

    // Whether what is found is known as from-space.
    pub(crate) fn meets(&self, shape: Shape, found: Option<Known>) -> bool
        ensures { result ≡ part_meets (part_by shape 0 self.now) found }
    {
        match found {
            Some(known) => knows_from(self.track(), shape, known.version),
            None => false,
        }
    }

    // Whether a move is a load of a scan.
    pub(crate) fn is_scan(&self, m: &Move) -> bool
        ensures { (s : Shape) → result ≡ part_scans (part_by s 0 self.now) m.now m.now.act }
    {
        match m.act {
            Act::Looks(_) => m.scan && self.track().is_scanning(),
            _ => false,
        }
    }

    // Whether a move passes the word at the cursor.
    pub(crate) fn passes(&self, shape: Shape, m: &Move, found: Option<Known>) -> bool
        requires { IsLookWord m.now.act }
        ensures { result ≡ part_passes (part_by shape 0 self.now) m.now found m.now.act }
    {
        match m.act {
            Act::Looks(look) => self.is_scan(m) && self.goes_on(shape, &look, found),
            Act::Builds(build) => self.shortens(&build),
            Act::Ticks(_) | Act::Shifts(_) => false,
        }
    }

    // Whether a step that builds shortens the word at the cursor.
    fn shortens(&self, build: &Build) -> bool
        ensures { (s : Shape) (m : Move) (found : Option Known)
            → result ≡ part_passes (part_by s 0 self.now) m found (Builds build.now) }
    {
        match *build {
            Build::Shorten { at, i, .. } => self.has_masks() && self.is_at_cursor(at.version, i),
            _ => false,
        }
    }

    // Whether a move stops at the cursor: a load of a scan that finds from-space there.
    pub(crate) fn stops(&self, shape: Shape, m: &Move, found: Option<Known>) -> bool
        requires { IsLookWord m.now.act }
        ensures { result ≡ part_stops (part_by shape 0 self.now) m.now found m.now.act }
    {
        match m.act {
            Act::Looks(look) => self.is_scan(m) && self.is_held_up(shape, &look, found),
            Act::Builds(_) | Act::Ticks(_) | Act::Shifts(_) => false,
        }
    }

    // Whether a load of a scan is at the cursor, and finds nothing of from-space.
    fn goes_on(&self, shape: Shape, look: &Look, found: Option<Known>) -> bool
        requires { IsWordOf look.now }
        ensures { result ≡ (list_all is_some self.now.cycle.scan.masks
            && cursor_at (part_by shape 0 self.now) (looked_at look.now) (looked_word look.now)
            && not (part_meets (part_by shape 0 self.now) found)) }
    {
        self.is_there(look) && !self.meets(shape, found)
    }

    // Whether a load of a scan is at the cursor, and finds from-space.
    fn is_held_up(&self, shape: Shape, look: &Look, found: Option<Known>) -> bool
        requires { IsWordOf look.now }
        ensures { result ≡ (list_all is_some self.now.cycle.scan.masks
            && cursor_at (part_by shape 0 self.now) (looked_at look.now) (looked_word look.now)
            && part_meets (part_by shape 0 self.now) found) }
    {
        self.is_there(look) && self.meets(shape, found)
    }

    // Whether a load is at the cursor of a caller that has a mask of every caller.
    fn is_there(&self, look: &Look) -> bool
        requires { IsWordOf look.now }
        ensures { (s : Shape) (q : ℕ) → result ≡ (list_all is_some self.now.cycle.scan.masks
            && cursor_at (part_by s q self.now) (looked_at look.now) (looked_word look.now)) }
    {
        if !self.has_masks() {
            return false;
        }
        let (version, i) = word_looked_at(look);
        self.is_at_cursor(version, u64::from(i))
    }

    // Whether the caller has a mask of every caller.
    fn has_masks(&self) -> bool
        ensures { result ≡ list_all is_some self.now.cycle.scan.masks }
    {
        self.track().has_masks()
    }

    // Whether the cursor is at a word of a version.
    fn is_at_cursor(&self, v: Version, i: u64) -> bool
        ensures { (s : Shape) (q : ℕ) (at : Known) → at.version ≡ v
            → result ≡ cursor_at (part_by s q self.now) at i }
    {
        let cursor = self.track().cursor();
        match self.own().get((cursor / FIELDS) as usize) {
            Some(known) => known.version.0 == v.0 && i == u64::from(field_word(cursor % FIELDS)),
            None => false,
        }
    }

    // Whether the caller has all masks, and its scan has passed all its words.
    pub(crate) fn has_passed(&self) -> bool
        ensures { result ≡ (list_all is_some self.now.cycle.scan.masks
            && nat_le (field_count * length self.now.hands.own) self.now.cycle.scan.cursor) }
    {
        self.has_masks() && self.own().len() as u64 <= self.track().cursor() / FIELDS
    }
}

// Whether a caller knows a version as from-space.
fn knows_from(track: &Track, shape: Shape, v: Version) -> bool
    ensures { result
        ≡ gives_from (slice_index_or track.now.scan.masks (owner_of shape v) None)
        (region_of shape v) }
{
    let owner = v.0 / (shape.regions * shape.versions);
    let region = v.0 / shape.versions % shape.regions;
    track.gives_from(owner, region)
}

// Whether it knows one of some versions so.
pub(crate) fn knows_any_from(track: &Track, shape: Shape, list: &[Known]) -> bool
    ensures { result ≡ list_any (λ k. gives_from
        (slice_index_or track.now.scan.masks (owner_of shape k.version) None)
        (region_of shape k.version)) list.now }
{
    list.iter()
        .any(|known| knows_from(track, shape, known.version))
}
