//! A move cut into the word that it moves, what that becomes, and what it makes and finds.
ghost use Rattle.std.specs.Prelude.{◌≡◌, ◌+◌, ◌<◌, ◌^◌, length};
ghost use Rattle.hm_model.specs.declared.entry.Entry.TheVariants.{Create};
ghost use Rattle.hm_moves.specs.Acts.{word_of as moved_word, becomes as word_after, entry_of, publishes as published_by, finds as found_by, field_look as field_load};
ghost use Rattle.hm_moves.specs.Acts.{build_word, built_word, listed, looked_at, looked_word};
ghost use Rattle.hm_moves.specs.Allowed.{HoldsClean, IsLaterThan, IsWordOf, MayBuild, MayTake};
ghost use Rattle.hm_moves.specs.Cycles.{found_end};
ghost use Rattle.hm_shape.specs.Layout.{version_words};
ghost use Rattle.hm_core.specs.Stepping.{act_of as act_by, copy_known as copy_of, first_known as first_of, later_known as later_of, own_reply, HasPlace, IsPackable};

use crate::contents::{new_contents, with_all, with_field};
use crate::machine::Machine;
use crate::step::StepKind;
use crate::ticking::{becomes_shifted, becomes_ticked, seen_of, shift_at, shift_of, tick_at};
use hm_model::{Entry, Tried};
use hm_moves::{Act, Build, End, Known, Look, Shift, Tick};
use hm_shape::{FIRST_NUMBER, FIRST_REFERENCE, LINK, Reply, ReplyKind, STAMP, Version};

// What the word that an act moves becomes, where this was found.
pub(crate) fn becomes(act: &Act, found: u64) -> u64
    requires { IsPackable act.now }
    ensures { result ≡ word_after act.now found }
{
    match *act {
        Act::Looks(_) => found,
        Act::Builds(build) => becomes_built(&build, found),
        Act::Ticks(tick) => becomes_ticked(&tick, found),
        Act::Shifts(shift) => becomes_shifted(&shift, found),
    }
}

// So for a step that builds.
fn becomes_built(build: &Build, found: u64) -> u64
    ensures { result ≡ built_word build.now found }
{
    match *build {
        Build::StoreOwn { word, .. } => word,
        Build::Publish { .. } => 0,
        Build::LinkStore { fresh, .. } => {
            if found == 0 {
                fresh.version.name()
            } else {
                found
            }
        }
        Build::Shorten { target, .. } => target.version.name(),
    }
}

// The entry that a caller makes by an act, where this was found.
pub(crate) fn entry(act: &Act, caller: u32, found: u64) -> Option<Entry>
    ensures { result ≡ entry_of caller act.now found }
{
    match *act {
        Act::Looks(Look::LoadLink { want, .. }) if found == 0 => want,
        Act::Builds(Build::Publish { fresh }) => Some(create_of(caller, &fresh)),
        Act::Builds(Build::LinkStore { entry, .. }) if found == 0 => entry,
        _ => None,
    }
}

// The version that an act publishes, where this was found.
pub(crate) fn publishes(act: &Act, found: u64) -> Option<Known>
    ensures { result ≡ published_by act.now found }
{
    match *act {
        Act::Builds(Build::Publish { fresh }) => Some(fresh),
        Act::Builds(Build::LinkStore { fresh, .. }) if found == 0 => Some(fresh),
        _ => None,
    }
}

// The end of a chain that an act finds: of a load of a link that finds 0.
pub(crate) fn end_found(act: &Act, found: u64) -> Option<End>
    ensures { listed result ≡ found_end act.now found }
{
    match *act {
        Act::Looks(Look::LoadLink { at, .. }) if found == 0 => Some(End {
            name: at.name,
            rank: at.rank,
        }),
        _ => None,
    }
}

// The Create by which a caller publishes the first version of an object.
pub(crate) fn create_of(caller: u32, fresh: &Known) -> Entry
    ensures { result ≡ Create caller fresh.now.name
        fresh.now.contents.refs fresh.now.contents.numbers }
{
    let refs = fresh.contents.refs;
    let numbers = fresh.contents.numbers;
    Entry::Create {
        caller,
        name: fresh.name,
        refs,
        numbers,
    }
}

// The load of word `i` of a version.
fn field_look(at: Known, i: u32) -> Look
    requires { 0 < i }
    ensures { result ≡ field_load at i }
{
    if i == STAMP {
        Look::LoadStamp { at }
    } else if i < FIRST_NUMBER {
        Look::LoadReference {
            at,
            i: u64::from(i - FIRST_REFERENCE),
        }
    } else {
        Look::LoadNumber {
            at,
            i: u64::from(i - FIRST_NUMBER),
        }
    }
}

// The version of which a load is, and which of its words.
pub(crate) fn word_looked_at(look: &Look) -> (Version, u32)
    requires { IsWordOf look.now }
    ensures version { result.0 ≡ (looked_at look.now).version }
    ensures word { result.1 ≡ looked_word look.now }
    ensures below { result.1 < version_words }
{
    match *look {
        Look::LoadStamp { at } => (at.version, STAMP),
        Look::LoadReference { at, i } => (at.version, FIRST_REFERENCE + i as u32),
        Look::LoadNumber { at, i } => (at.version, FIRST_NUMBER + i as u32),
        Look::LoadLink { at, .. } => (at.version, LINK),
    }
}

// The first version of the object that a Create makes.
fn first_known(version: Version, entry: &Entry) -> Option<Known>
    ensures { result ≡ first_of version entry.now }
{
    match *entry {
        Entry::Create {
            name,
            refs,
            numbers,
            ..
        } => Some(Known {
            version,
            name,
            rank: 0,
            contents: new_contents(refs, numbers),
        }),
        _ => None,
    }
}

// The version that an entry which stores makes of one.
fn later_known(version: Version, at: &Known, entry: &Entry) -> Option<Known>
    requires stamp { at.now.contents.stamp + 1 < 2 ^ 64 }
    requires rank { at.now.rank + 1 < 2 ^ 64 }
    ensures { result ≡ later_of version at.now entry.now }
{
    let contents = match *entry {
        Entry::Store { field, .. } => with_field(&at.contents, field),
        Entry::StoreIf {
            refs,
            numbers,
            answer: Tried::Stored,
            ..
        } => with_all(&at.contents, refs, numbers),
        _ => return None,
    };
    Some(Known {
        version,
        name: at.name,
        rank: at.rank + 1,
        contents,
    })
}

// A copy of a version, to come behind it.
fn copy_known(version: Version, at: &Known) -> Known
    requires { at.now.rank + 1 < 2 ^ 64 }
    ensures { result ≡ copy_of version at.now }
{
    Known {
        version,
        name: at.name,
        rank: at.rank + 1,
        contents: at.contents,
    }
}

impl Machine {
    ghost use Rattle.hm_model.specs.Store.{IsThere};
    ghost use Rattle.hm_model.specs.History.{store_of};
    ghost use Rattle.hm_shape.specs.Versions.{IsVersionOf};
    ghost use Rattle.hm_shape.specs.Words.{word_at};
    ghost use Rattle.hm_core.specs.declared.step.StepKind.TheVariants.{LinkCopy, LinkStore};
    ghost use Rattle.hm_core.specs.Stepping.{IsAwake};
    ghost use Rattle.hm_core.specs.Running.{core_of, index_of, own_part, own_view};

    // The act of a caller that a kind is, if it is one.
    pub(crate) fn act_of(&self, caller: u32, kind: &StepKind) -> Option<Act>
        requires caller { caller < self.now.shape.callers }
        requires place { HasPlace (own_part self.now caller) kind.now }
        ensures { result ≡ act_by (index_of self.now.known) (own_part self.now caller) kind.now }
    {
        match *kind {
            StepKind::LoadField { v, i, .. } => Some(Act::Looks(field_look(self.known(v)?, i))),
            StepKind::LoadLink { v, entry, .. } => Some(Act::Looks(Look::LoadLink {
                at: self.known(v)?,
                want: entry,
            })),
            StepKind::StoreOwn { i, word } => Some(Act::Builds(Build::StoreOwn {
                i: u64::from(i),
                word,
            })),
            StepKind::Publish { entry } => Some(Act::Builds(Build::Publish {
                fresh: first_known(self.next_version(caller), &entry)?,
            })),
            StepKind::LinkStore { v, entry } => self.link_store(caller, v, &entry),
            StepKind::Split | StepKind::Meet { .. } => None,
            StepKind::LoadStage => Some(Act::Ticks(Tick::LoadStage)),
            StepKind::MoveStage { to } => Some(Act::Ticks(Tick::MoveStage {
                from: self.hand(caller).track().stage(),
                to: seen_of(to),
            })),
            StepKind::LoadReply { p } => Some(Act::Ticks(Tick::LoadReply { of: p })),
            StepKind::StoreReply { kind } => Some(Act::Ticks(Tick::StoreReply {
                reply: self.own_reply(caller, kind),
            })),
            StepKind::LoadRoles { p } => Some(Act::Shifts(Shift::LoadRoles { of: p })),
            StepKind::StoreRoles { roles } => {
                Some(Act::Shifts(shift_of(self.hand(caller).region(), roles)?))
            }
            StepKind::LinkCopy { v } => self.link_copy(caller, v),
            StepKind::Shorten { v, i, u } => Some(Act::Builds(Build::Shorten {
                at: self.known(v)?,
                i: u64::from(i),
                target: self.known(u)?,
            })),
        }
    }

    // The exchange of a link by which a caller stores behind a version.
    fn link_store(&self, caller: u32, v: Version, entry: &Entry) -> Option<Act>
        requires caller { caller < self.now.shape.callers }
        requires place { HasPlace (own_part self.now caller) (LinkStore v entry.now) }
        ensures { result ≡ act_by (index_of self.now.known) (own_part self.now caller)
            (LinkStore v entry.now) }
    {
        let at = self.known(v)?;
        Some(Act::Builds(Build::LinkStore {
            at,
            fresh: later_known(self.next_version(caller), &at, entry)?,
            entry: Some(*entry),
        }))
    }

    // And the one by which it copies a version.
    fn link_copy(&self, caller: u32, v: Version) -> Option<Act>
        requires caller { caller < self.now.shape.callers }
        requires place { HasPlace (own_part self.now caller) (LinkCopy v) }
        ensures { result ≡ act_by (index_of self.now.known) (own_part self.now caller)
            (LinkCopy v) }
    {
        let at = self.known(v)?;
        Some(Act::Builds(Build::LinkStore {
            at,
            fresh: copy_known(self.next_version(caller), &at),
            entry: None,
        }))
    }

    // The caller's reply to the stage that it has seen.
    pub(crate) fn own_reply(&self, caller: u32, kind: ReplyKind) -> Reply
        requires { caller < self.now.shape.callers }
        ensures { result ≡ own_reply (own_part self.now caller) kind }
    {
        Reply {
            number: self.hand(caller).track().stage().number,
            kind,
        }
    }

    // The number of the word that an act moves.
    pub(crate) fn word_of(&self, caller: u32, act: &Act) -> u64
        requires caller { caller < self.now.shape.callers }
        requires awake { IsAwake (core_of self.now) caller (own_view self.now caller)
            (own_part self.now caller) }
        requires may { MayTake (IsThere (store_of self.now.history)) (λ e. Unit {0})
            (HoldsClean self.now.words (own_part self.now caller))
            (IsLaterThan self.now.shape (core_of self.now).heap) (own_part self.now caller)
            act.now }
        ensures value { result ≡ moved_word (own_part self.now caller) act.now }
        ensures below { result < length self.now.words }
    {
        let _shape = &self.shape;
        match *act {
            Act::Looks(look) => {
                let (version, i) = word_looked_at(&look);
                version.word_of(self.shape, i)
            }
            Act::Builds(build) => {
                let (version, i) = self.place_built(caller, &build);
                version.word_of(self.shape, i)
            }
            Act::Ticks(tick) => tick_at(self.shape, caller, &tick),
            Act::Shifts(shift) => shift_at(self.shape, caller, &shift),
        }
    }

    // The version whose word a step moves that builds, and which of its words.
    fn place_built(&self, caller: u32, build: &Build) -> (Version, u32)
        requires caller { caller < self.now.shape.callers }
        requires awake { IsAwake (core_of self.now) caller (own_view self.now caller)
            (own_part self.now caller) }
        requires may { MayBuild (IsThere (store_of self.now.history)) (λ e. Unit {0})
            (HoldsClean self.now.words (own_part self.now caller))
            (IsLaterThan self.now.shape (core_of self.now).heap) (own_part self.now caller)
            build.now }
        ensures value { build_word (own_part self.now caller) build.now
            ≡ word_at self.now.shape result.0 result.1 }
        ensures version { IsVersionOf self.now.shape result.0 }
        ensures word { result.1 < version_words }
    {
        let _shape = &self.shape;
        match *build {
            Build::LinkStore { at, .. } => (at.version, LINK),
            Build::StoreOwn { i, .. } => (self.next_version(caller), i as u32),
            Build::Publish { .. } => (self.next_version(caller), LINK),
            Build::Shorten { at, i, .. } => (at.version, i as u32),
        }
    }

    // The version that an act finds, where the word may name one.
    pub(crate) fn finds(&self, act: &Act, found: u64) -> Option<Known>
        ensures { result ≡ found_by (index_of self.now.known) act.now found }
    {
        match *act {
            Act::Looks(Look::LoadReference { .. } | Look::LoadLink { .. })
            | Act::Builds(Build::LinkStore { .. }) => self.named(found),
            _ => None,
        }
    }
}
