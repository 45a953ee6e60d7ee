//! A caller's scan of its own part.
ghost use Rattle.std.specs.Prelude.{◌≡◌, ◌≢◌, ◌*◌, ◌%◌, ◌<◌, ◌≤◌, true, false, [], ◌∷◌, OnOk, OnErr, length, Some};
ghost use Rattle.std.specs.Option.{option_to_list};
ghost use Rattle.hm_moves.specs.Cycles.{field_count, field_word, holds_from, is_scanning, known_from};
ghost use Rattle.hm_cells.specs.Facts.{IsSound, with_hand};
ghost use Rattle.hm_ops.specs.Resting.{IsResting, Keeps, Works};
ghost use Rattle.hm_scan.specs.Scanning.{AreClear, AreOtherPlaces, IsClearAt, IsFullAt, IsPassed, IsUnderWay, IsWordAtCursor, Looked, Scans, ScansOn, ScansTo, Stops, version_at_cursor};

use hm_cells::{Cells, Pass, Want, load_field, load_link, load_reply, load_roles, shorten};
use hm_model::{Root, Usage};
use hm_ops::{Copied, bring_out, settle};
use hm_shape::{LINK, Version};

/// How many root places a caller has.
const ROOTS: u32 = 256;

/// How many words of a version name versions: its link and its references.
const FIELDS: u64 = 5;

/// The most versions that a caller holds between two calls.
const MOST_HELD: u32 = 400;

/// How a scan ended.
#[derive(Clone, Copy, Debug, PartialEq, Eq)]
pub enum Scanned {
    /// Nothing of the caller names from-space, and it holds none of it. So many copies were made.
    Clean { copied: u64 },
    /// A copy was needed, and the caller has no room.
    NoRoom,
}

// A copy was needed, and there was no room for it.
#[derive(Clone, Copy, Debug, PartialEq, Eq)]
struct Lacking;

/// Replaces what the caller names of from-space, at its root places and in the links and references of its versions in
/// To and Old, by the current versions of those objects, which are copied out where they are of from-space too. It has
/// to have seen a First and not replied to it.
///
/// Where a copy is needed and the room is 0, it answers `NoRoom`. What was replaced stays, and a later scan begins anew.
pub fn scan<U: Usage>(cells: &Cells<U>, pass: &mut Pass<U>) -> Scanned
    requires rests { IsResting pass.old cells.now }
    requires first { is_scanning pass.old.part ≡ true }
    ensures scans { ScansTo pass.old result pass.new }
    ensures keeps { Keeps U.lawful U.allowed pass.new cells.now }
{
    let room = pass.room();
    begin(cells, pass);
    if replace_all(cells, pass).is_err() {
        return Scanned::NoRoom;
    }
    let_go(cells, pass);
    pass.end_scan();
    Scanned::Clean {
        copied: room - pass.room(),
    }
}

// A scan begins with a load of the caller's own roles, by which its mark is taken away. It takes the masks of the other
// callers too, where it has not all.
fn begin<U: Usage>(cells: &Cells<U>, pass: &mut Pass<U>)
    requires keeps { Keeps U.lawful U.allowed pass.old cells.now }
    requires first { is_scanning pass.old.part ≡ true }
    ensures scans { Scans pass.old pass.new }
    ensures way { IsUnderWay pass.new }
    ensures keeps { Keeps U.lawful U.allowed pass.new cells.now }
{
    if pass.has_masks() {
        let own = pass.number();
        load_roles(cells, pass, own);
    } else {
        load_masks(cells, pass);
    }
}

// Takes the masks of all callers, its own among them.
fn load_masks<U: Usage>(cells: &Cells<U>, pass: &mut Pass<U>)
    requires keeps { Keeps U.lawful U.allowed pass.old cells.now }
    requires first { is_scanning pass.old.part ≡ true }
    ensures scans { Scans pass.old pass.new }
    ensures way { IsUnderWay pass.new }
    ensures keeps { Keeps U.lawful U.allowed pass.new cells.now }
{
    for p in 0..cells.shape().callers {
        load_roles(cells, pass, p);
    }
}

// Replaces what root places name, and then what the caller's own versions do.
fn replace_all<U: Usage>(cells: &Cells<U>, pass: &mut Pass<U>) -> Result<(), Lacking>
    requires keeps { Keeps U.lawful U.allowed pass.old cells.now }
    requires way { IsUnderWay pass.old }
    ensures on { ScansOn pass.old pass.new }
    ensures roots { OnOk result (AreClear pass.new) }
    ensures words { OnOk result (field_count * length pass.new.part.hands.own
        ≤ pass.new.part.cycle.scan.cursor) }
    ensures full { OnErr result (IsFullAt pass.new) }
    ensures keeps { Keeps U.lawful U.allowed pass.new cells.now }
{
    bring_roots(cells, pass)?;
    bring_words(cells, pass)
}

// Replaces what root places name of from-space, in order of number.
fn bring_roots<U: Usage>(cells: &Cells<U>, pass: &mut Pass<U>) -> Result<(), Lacking>
    requires keeps { Keeps U.lawful U.allowed pass.old cells.now }
    requires way { IsUnderWay pass.old }
    ensures on { ScansOn pass.old pass.new }
    ensures roots { OnOk result (AreClear pass.new) }
    ensures full { OnErr result (IsFullAt pass.new) }
    ensures keeps { Keeps U.lawful U.allowed pass.new cells.now }
{
    for r in 0..ROOTS {
        bring_root(cells, pass, Root(r))?;
    }
    Ok(())
}

// Replaces what a root place names, where that is of from-space.
fn bring_root<U: Usage>(cells: &Cells<U>, pass: &mut Pass<U>, r: Root) -> Result<(), Lacking>
    requires keeps { Keeps U.lawful U.allowed pass.old cells.now }
    requires way { IsUnderWay pass.old }
    requires place { r.0 < 256 }
    ensures on { ScansOn pass.old pass.new }
    ensures clear { OnOk result (IsClearAt pass.new r.0) }
    ensures full { OnErr result (IsFullAt pass.new) }
    ensures others { AreOtherPlaces pass.old r.0 pass.new }
    ensures keeps { Keeps U.lawful U.allowed pass.new cells.now }
{
    let Some(v) = pass.root(r) else {
        return Ok(());
    };
    if !pass.known_from(v) {
        return Ok(());
    }
    let brought = bring_out(cells, pass, v, true);
    if let Some(later) = brought.later {
        settle(pass, r, later);
    }
    if_room(brought.copied)
}

// Whether there was room where a copy was needed.
fn if_room(copied: Copied) -> Result<(), Lacking>
    ensures ok { OnOk result (copied ≢ Copied.NoRoom) }
    ensures full { OnErr result (copied ≡ Copied.NoRoom) }
{
    match copied {
        Copied::Already | Copied::Moved => Ok(()),
        Copied::NoRoom => Err(Lacking),
    }
}

// Replaces what the links and references of the caller's own versions name of from-space. Copies that are made
// meanwhile come behind those, and are looked at too.
fn bring_words<U: Usage>(cells: &Cells<U>, pass: &mut Pass<U>) -> Result<(), Lacking>
    requires keeps { Keeps U.lawful U.allowed pass.old cells.now }
    requires way { IsUnderWay pass.old }
    ensures on { ScansOn pass.old pass.new }
    ensures roots { pass.new.roots ≡ pass.old.roots }
    ensures words { OnOk result (field_count * length pass.new.part.hands.own
        ≤ pass.new.part.cycle.scan.cursor) }
    ensures full { OnErr result (IsFullAt pass.new) }
    ensures keeps { Keeps U.lawful U.allowed pass.new cells.now }
{
    while let Some(own) = own_at_cursor(pass) {
        pass_word(cells, pass, own)?;
    }
    Ok(())
}

// The version whose word the scan has come to, if any is left.
fn own_at_cursor<U: Usage>(pass: &Pass<U>) -> Option<Version>
    requires { IsSound U.lawful U.allowed pass.now }
    ensures { result ≡ version_at_cursor pass.now.part }
{
    pass.published((pass.cursor() / FIELDS) as u32)
}

// The number of the word in that version.
fn word_at(cursor: u64) -> u32
    ensures { result ≡ field_word (cursor % field_count) }
{
    match cursor % FIELDS {
        0 => LINK,
        field => field as u32 + 1,
    }
}

// Looks at the word at the cursor, and replaces what it names of from-space: the cursor then passes it.
fn pass_word<U: Usage>(cells: &Cells<U>, pass: &mut Pass<U>, own: Version) -> Result<(), Lacking>
    requires keeps { Keeps U.lawful U.allowed pass.old cells.now }
    requires way { IsUnderWay pass.old }
    requires at { version_at_cursor pass.old.part ≡ Some own }
    ensures on { ScansOn pass.old pass.new }
    ensures roots { pass.new.roots ≡ pass.old.roots }
    ensures passed { OnOk result (IsPassed pass.old pass.new) }
    ensures full { OnErr result (IsFullAt pass.new) }
    ensures keeps { Keeps U.lawful U.allowed pass.new cells.now }
{
    let i = word_at(pass.cursor());
    let Some(found) = load_word(cells, pass, own, i) else {
        return Ok(());
    };
    if pass.known_from(found) {
        return replace(cells, pass, own, i, found);
    }
    pass.release(found);
    Ok(())
}

// A scan's load of the word at the cursor. What it names is in hand then.
fn load_word<U: Usage>(
    cells: &Cells<U>,
    pass: &mut Pass<U>,
    own: Version,
    i: u32,
) -> Option<Version>
    requires keeps { Keeps U.lawful U.allowed pass.old cells.now }
    requires way { IsUnderWay pass.old }
    requires at { version_at_cursor pass.old.part ≡ Some own }
    requires word { IsWordAtCursor pass.old i }
    ensures on { ScansOn pass.old pass.new }
    ensures roots { pass.new.roots ≡ pass.old.roots }
    ensures looked { Looked pass.old result pass.new }
    ensures hand { pass.new.hand ≡ option_to_list result }
    ensures works { Works U.lawful U.allowed pass.new cells.now }
{
    if i == LINK {
        return load_link(cells, pass, own, Want::Nothing, true);
    }
    Version::named(load_field(cells, pass, own, i, true))
}

// Stores the current version of an object in the word at the cursor, which names an earlier one.
fn replace<U: Usage>(
    cells: &Cells<U>,
    pass: &mut Pass<U>,
    own: Version,
    i: u32,
    found: Version,
) -> Result<(), Lacking>
    requires works { Works U.lawful U.allowed pass.old cells.now }
    requires way { IsUnderWay pass.old }
    requires at { version_at_cursor pass.old.part ≡ Some own }
    requires word { IsWordAtCursor pass.old i }
    requires hand { pass.old.hand ≡ found ∷ [] }
    requires stops { Stops pass.old found pass.old }
    requires from { known_from pass.old.part found ≡ true }
    ensures on { ScansOn pass.old pass.new }
    ensures roots { pass.new.roots ≡ pass.old.roots }
    ensures passed { OnOk result (IsPassed pass.old pass.new) }
    ensures full { OnErr result (IsFullAt pass.new) }
    ensures keeps { Keeps U.lawful U.allowed pass.new cells.now }
{
    let brought = bring_out(cells, pass, found, true);
    let Some(current) = brought.later else {
        // Nothing came behind it, so there was no room for its copy.
        pass.release(found);
        return Err(Lacking);
    };
    match brought.copied {
        Copied::NoRoom => {
            release_both(pass, found, current);
            Err(Lacking)
        }
        Copied::Already | Copied::Moved => {
            shorten(cells, pass, own, i, current);
            release_both(pass, found, current);
            Ok(())
        }
    }
}

// Releases what is in hand.
fn release_both<U: Usage>(pass: &mut Pass<U>, found: Version, current: Version)
    requires { pass.old.hand ≡ found ∷ current ∷ [] }
    ensures { pass.new ≡ with_hand pass.old [] }
{
    pass.release(found);
    pass.release(current);
}

// Lets go of all that no root place names: of one version by each load of the caller's own reply.
fn let_go<U: Usage>(cells: &Cells<U>, pass: &mut Pass<U>)
    requires keeps { Keeps U.lawful U.allowed pass.old cells.now }
    requires clear { AreClear pass.old }
    ensures on { ScansOn pass.old pass.new }
    ensures roots { pass.new.roots ≡ pass.old.roots }
    ensures own { pass.new.part.hands.own ≡ pass.old.part.hands.own }
    ensures cursor { pass.new.part.cycle.scan.cursor ≡ pass.old.part.cycle.scan.cursor }
    ensures holds { holds_from pass.new.part ≡ false }
    ensures keeps { Keeps U.lawful U.allowed pass.new cells.now }
{
    let own = pass.number();
    for _ in 0..MOST_HELD {
        load_reply(cells, pass, own);
    }
}
