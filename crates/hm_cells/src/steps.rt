//! The steps of the machine on versions: one call a step.
ghost use Rattle.std.specs.Prelude.{◌≡◌, ◌<◌, ◌≤◌, ◌^◌, ◌++◌, ◌⊎◌, true, false, None, Some, IfOk, IfSome, if◌then◌else◌};
ghost use Rattle.std.specs.Option.{option_to_list};
ghost use Rattle.hm_shape.specs.Layout.{first_number, first_reference, version_words};
ghost use Rattle.hm_shape.specs.Versions.{IsVersionOf};
ghost use Rattle.hm_shape.specs.Words.{naming_word};
ghost use Rattle.hm_moves.specs.declared.moving.Act.TheVariants.{Looks, Builds};
ghost use Rattle.hm_moves.specs.declared.moving.Look.TheVariants.{LoadLink};
ghost use Rattle.hm_moves.specs.declared.moving.Build.TheVariants.{StoreOwn, Publish, LinkStore, Shorten};
ghost use Rattle.hm_moves.specs.Places.{IsFit};
ghost use Rattle.hm_moves.specs.After.{is_naming};
ghost use Rattle.hm_moves.specs.Acts.{next_version, field_look};
ghost use Rattle.hm_moves.specs.Allowed.{HasHand, HasRoom, IsPast, Names, done_limit};
ghost use Rattle.hm_moves.specs.Cycles.{known_from};
ghost use Rattle.hm_model.specs.Sight.{MayEnter};
ghost use Rattle.hm_cells.specs.Facts.{Fits, IsHeldAt, IsLookable, IsSound, known_at, sight_of};
ghost use Rattle.hm_cells.specs.Calls.{IsOwnAt, IsWhole, IsWholeCopy, MayPublish, MayStore, MayWant, Steps, Takes, copied, drafted, linked, link_found, own_at, stored, turned, version_in, wanted};
ghost use Rattle.hm_cells.specs.Owns.{IsGround, loading, stops_at};

use crate::grip::Grip;
use crate::own::Own;
use crate::pass::Pass;
use crate::plan::Plan;
use crate::table::Cells;
use crate::want::Want;
use hm_model::Usage;
use hm_shape::{FIRST_NUMBER, FIRST_REFERENCE, LINK, Version};
use std::marker::Brand;

/// A load of word `i` of a version, from 1 to 15. The version that a reference names is then held, and in
/// hand.
///
/// `scan` tells a load of a scan, by a caller that has seen a First and not replied to it: only that moves the cursor
/// on, and what it finds of from-space sets no mark.
pub fn load_field<U: Usage>(
    cells: &Cells<U>,
    pass: &mut Pass<U>,
    v: Version,
    i: u32,
    scan: bool,
) -> u64
    requires cells { Fits pass.old cells.now }
    requires look { IsLookable pass.old v }
    requires word { (0 < i) × (i < version_words) }
    requires hand { HasHand pass.old.part }
    ensures took { Steps U.lawful U.allowed
        pass.old scan (Looks (field_look (known_at pass.old v) i)) result pass.new }
    ensures fit { IsFit pass.old.part.site.shape (done_limit pass.old.part) (known_at pass.old v) }
    ensures sound { IsSound U.lawful U.allowed pass.new }
{
    let at = v.word_of(pass.own.shape, i);
    let plan = Plan::LoadField { v, i, scan };
    let word = cells.load::<Brand>(&mut pass.seat, &pass.grip, at, &plan);
    note(&mut pass.own, &mut pass.grip, scan, v, i, named_by(i, word));
    word
}

// The version that word `i` of a version names, where that is a reference.
fn named_by(i: u32, word: u64) -> Option<Version>
    ensures named { first_reference ≤ i → i < first_number → word ≤ 2 ^ 32
        → result ≡ version_in word }
    ensures none { (i < first_reference) ⊎ (first_number ≤ i) → result ≡ None }
{
    if (FIRST_REFERENCE..FIRST_NUMBER).contains(&i) {
        Version::named(word)
    } else {
        None
    }
}

// What a step on word `i` of a version found is noted, and in hand before the next step, which lets go of a held
// version that nothing names. A scan that finds from-space has not ended clean.
fn note<U: Usage>(
    own: &mut Own,
    grip: &mut Grip<U>,
    scan: bool,
    v: Version,
    i: u32,
    found: Option<Version>,
)
    requires ground { IsGround own.old }
    requires found { IfSome found (IsVersionOf own.old.shape) }
    ensures own { own.new ≡ loading own.old scan v i found }
    ensures grip { grip.new ≡ record grip.old {
      hand = grip.old.hand ++ option_to_list found;
      scanned = if stops_at own.old scan found then None else grip.old.scanned;
    } }
{
    if own.load(scan, v, i, found) {
        grip.note_scan(None);
    }
    grip.take(found);
}

/// A load of the link of a version. Answers the next version of its object, which is then held, and in hand.
/// Where there is none, the wanted entry is made: a Fetch of what the version holds, or a StoreIf that
/// answers Changed.
///
/// `scan` tells a load of a scan, as in [`load_field`].
pub fn load_link<U: Usage>(
    cells: &Cells<U>,
    pass: &mut Pass<U>,
    v: Version,
    want: Want,
    scan: bool,
) -> Option<Version>
    requires cells { Fits pass.old cells.now }
    requires look { IsLookable pass.old v }
    requires want { MayWant pass.old (known_at pass.old v) want }
    requires hand { HasHand pass.old.part }
    ensures took { Steps U.lawful U.allowed pass.old scan
        (Looks (LoadLink (known_at pass.old v) (wanted pass.old (known_at pass.old v) want)))
        (naming_word result) pass.new }
    ensures fit { IsFit pass.old.part.site.shape (done_limit pass.old.part) (known_at pass.old v) }
    ensures sound { IsSound U.lawful U.allowed pass.new }
{
    let at = v.word_of(pass.own.shape, LINK);
    let plan = Plan::LoadLink { v, want, scan };
    // The load that finds no link makes the entry: one step later another version may hang there.
    let word = cells.load::<Brand>(&mut pass.seat, &pass.grip, at, &plan);
    let next = Version::named(word);
    note(&mut pass.own, &mut pass.grip, scan, v, LINK, next);
    next
}

/// A store of word `i` of the caller's next version, from 0 to 15. A link or reference has to name a held
/// version, or none.
pub fn store_own<U: Usage>(cells: &Cells<U>, pass: &mut Pass<U>, i: u32, word: u64)
    requires cells { Fits pass.old cells.now }
    requires room { HasRoom pass.old.part }
    requires word { i < version_words }
    requires named { is_naming i ≡ true → Names pass.old.part.hands.held word }
    ensures took { Takes U.lawful U.allowed pass.old (Builds (StoreOwn i word)) word pass.new }
    ensures sound { IsSound U.lawful U.allowed pass.new }
{
    let at = pass.next_version().word_of(pass.own.shape, i);
    let plan = Plan::StoreOwn { i, word };
    // No word names this version yet, so its words go in any order, and anew after an exchange that failed.
    cells.store::<Brand>(&mut pass.seat, &pass.grip, at, word, &plan);
}

/// A store of 0 in the link of the caller's next version, which is published as the first of a new object,
/// with what its words 1 to 15 say. It is then held, and in hand.
pub fn publish<U: Usage>(cells: &Cells<U>, pass: &mut Pass<U>) -> Version
    requires cells { Fits pass.old cells.now }
    requires room { HasRoom pass.old.part }
    requires hand { HasHand pass.old.part }
    requires whole { IsWhole pass.old.part }
    requires allowed { MayPublish U.lawful U.allowed pass.old }
    ensures took { Takes U.lawful U.allowed pass.old (Builds (Publish (drafted pass.old.part))) 0
        pass.new }
    ensures version { result ≡ next_version pass.old.part }
    ensures sound { IsSound U.lawful U.allowed pass.new }
{
    let next = pass.next_version();
    let at = next.word_of(pass.own.shape, LINK);
    // The link goes last: from here on others may come to this version, and no word of it changes any more.
    cells.store::<Brand>(&mut pass.seat, &pass.grip, at, 0, &Plan::Publish);
    // Counted before another own word is stored, which would else go into the version just published.
    pass.own.used += 1;
    pass.grip.take(Some(next));
    next
}

/// An exchange of the link of a version, from 0 to the caller's next version, which is written as a changed
/// copy of it. Where 0 is found, the wanted entry is made, a Store or a StoreIf that answers Stored, and the
/// next version is published and answered by `Ok`. Else `Err` has the next version of the object. Either is
/// then held, and in hand.
pub fn link_store<U: Usage>(
    cells: &Cells<U>,
    pass: &mut Pass<U>,
    v: Version,
    want: Want,
) -> Result<Version, Version>
    requires cells { Fits pass.old cells.now }
    requires look { IsLookable pass.old v }
    requires want { MayStore pass.old (known_at pass.old v) want }
    requires room { HasRoom pass.old.part }
    requires hand { HasHand pass.old.part }
    requires whole { IsWholeCopy pass.old.part (turned pass.old (known_at pass.old v) want) }
    requires allowed { MayEnter U.lawful U.allowed (sight_of pass.old)
        (stored pass.old (known_at pass.old v) want) }
    ensures took { Takes U.lawful U.allowed pass.old
        (Builds (LinkStore (known_at pass.old v) (linked pass.old (known_at pass.old v) want)
        (Some (stored pass.old (known_at pass.old v) want))))
        (link_found result) pass.new }
    ensures version { IfOk result (λ next. next ≡ next_version pass.old.part) }
    ensures fit { IsFit pass.old.part.site.shape (done_limit pass.old.part) (known_at pass.old v) }
    ensures sound { IsSound U.lawful U.allowed pass.new }
{
    let next = pass.next_version();
    let at = v.word_of(pass.own.shape, LINK);
    let plan = Plan::LinkStore { v, want };
    // One exchange finds that there is no link, hangs the copy and makes the entry. By a load and then a store two
    // callers could both find none, and the later copy would take the link from the earlier: a lost store.
    let word = cells.exchange::<Brand>(&mut pass.seat, &pass.grip, at, 0, next.name(), &plan);
    match Version::named(word) {
        None => {
            // As in publish: the place is taken before another own word is stored.
            pass.own.used += 1;
            pass.grip.take(Some(next));
            Ok(next)
        }
        Some(later) => {
            // Not counted: nobody has seen the copy, and the next attempt writes into the same place.
            note(&mut pass.own, &mut pass.grip, false, v, LINK, Some(later));
            Err(later)
        }
    }
}

/// An exchange of the link of a version that the caller knows as from-space, from 0 to the caller's next version,
/// which is written as a copy of it. It makes no entry. Where 0 is found, the copy is published and answered by `Ok`;
/// it has the stamp of the version. Else `Err` has the next version of the object. Either is then held, and in hand.
pub fn link_copy<U: Usage>(
    cells: &Cells<U>,
    pass: &mut Pass<U>,
    v: Version,
) -> Result<Version, Version>
    requires cells { Fits pass.old cells.now }
    requires look { IsLookable pass.old v }
    requires known { known_from pass.old.part v ≡ true }
    requires room { HasRoom pass.old.part }
    requires hand { HasHand pass.old.part }
    requires whole { IsWholeCopy pass.old.part (known_at pass.old v).contents }
    ensures took { Takes U.lawful U.allowed pass.old
        (Builds (LinkStore (known_at pass.old v) (copied pass.old (known_at pass.old v)) None))
        (link_found result) pass.new }
    ensures version { IfOk result (λ next. next ≡ next_version pass.old.part) }
    ensures fit { IsFit pass.old.part.site.shape (done_limit pass.old.part) (known_at pass.old v) }
    ensures sound { IsSound U.lawful U.allowed pass.new }
{
    let next = pass.next_version();
    let at = v.word_of(pass.own.shape, LINK);
    let plan = Plan::LinkCopy { v };
    // From 0 alone, as in link_store: a copy behind a version that has a link would cut off what comes after it.
    let word = cells.exchange::<Brand>(&mut pass.seat, &pass.grip, at, 0, next.name(), &plan);
    match Version::named(word) {
        None => {
            pass.own.used += 1;
            pass.grip.take(Some(next));
            Ok(next)
        }
        Some(later) => {
            note(&mut pass.own, &mut pass.grip, false, v, LINK, Some(later));
            Err(later)
        }
    }
}

/// A store of the name of a held version in word `i` of the caller's own version, its link or a reference, at which its
/// scan has stopped: the held one is a later version of the object that the word names, and not known as from-space.
pub fn shorten<U: Usage>(cells: &Cells<U>, pass: &mut Pass<U>, v: Version, i: u32, u: Version)
    requires cells { Fits pass.old cells.now }
    requires own { IsOwnAt pass.old v }
    requires word { is_naming i ≡ true }
    requires held { IsHeldAt pass.old u }
    requires known { known_from pass.old.part u ≡ false }
    requires past { IsPast pass.old.part (own_at pass.old v) i (known_at pass.old u) }
    ensures took { Takes U.lawful U.allowed pass.old
        (Builds (Shorten (own_at pass.old v) i (known_at pass.old u)))
        (naming_word (Some u)) pass.new }
    ensures sound { IsSound U.lawful U.allowed pass.new }
{
    let at = v.word_of(pass.own.shape, i);
    let plan = Plan::Shorten { v, i, u };
    cells.store::<Brand>(&mut pass.seat, &pass.grip, at, u.name(), &plan);
    pass.own.pass(v, i);
}
