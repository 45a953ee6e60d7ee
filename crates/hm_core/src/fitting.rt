//! Which entries fit a step: what its caller has written, and the version that it looks into.
ghost use Rattle.std.specs.Prelude.{◌≡◌, ◌≢◌, ◌+◌, ◌<◌, ◌↔◌, ℕ, Bool, Some, None, IsTrue, IfSome, slice_index, slice_index_or};
ghost use Rattle.hm_shape.specs.Layout.{first_number, first_reference};
ghost use Rattle.hm_model.specs.declared.object.Contents.{Contents};
ghost use Rattle.hm_core.specs.declared.step.StepKind.TheVariants.{LoadLink, Publish, LinkStore, LinkCopy};
ghost use Rattle.hm_model.specs.declared.entry.Tried.TheVariants.{Changed};

use crate::contents::{new_contents, with_all, with_field};
use crate::machine::Machine;
use crate::step::StepKind;
use hm_model::{Contents, Entry, Field, Name, Tried};
use hm_moves::Known;
use hm_shape::{FIRST_NUMBER, FIRST_REFERENCE, LINK, STAMP, Version};

impl Machine {
    ghost use Rattle.hm_model.specs.History.{store_of};
    ghost use Rattle.hm_model.specs.Store.{IsSized, IsThere};
    ghost use Rattle.hm_moves.specs.Allowed.{IsWritten, Spells, IsBuilt, AreKnown, IsKnownField, IsGiven, Reads, Turns, HasRoom};
    ghost use Rattle.hm_core.specs.Stepping.{IsAwake, IsLookable, HoldsWhatItNeeds, HasPlace, IsPlain, Fits};
    ghost use Rattle.hm_core.specs.Running.{core_of, own_part, own_view, IsSmall, IsSound};

    // Whether each reference is none, or names an object that is there.
    fn are_there(&self, refs: &[Option<Name>; 4]) -> bool
        ensures { IsTrue result ↔ AreKnown (IsThere (store_of self.now.history)) refs.now }
    {
        for name in refs {
            if !self.is_none_or_there(*name) {
                return false;
            }
        }
        true
    }

    // Whether a reference is none, or names an object that is there.
    fn is_none_or_there(&self, name: Option<Name>) -> bool
        ensures { IsTrue result ↔ IfSome name (IsThere (store_of self.now.history)) }
    {
        match name {
            Some(name) => self.is_there(name),
            None => true,
        }
    }

    // Whether a field is one of an object's, and what it takes is there.
    fn is_field_there(&self, field: Field) -> bool
        ensures { IsTrue result ↔ IsKnownField (IsThere (store_of self.now.history)) field }
    {
        match field {
            Field::Number { i, .. } => i < 10,
            Field::Refer { i, value } => i < 4 && self.is_none_or_there(value),
        }
    }

    // Whether an entry reads a version: it is the caller's own, answers what the version holds, and changes
    // nothing.
    fn reads(&self, caller: u32, at: &Known, entry: &Entry) -> bool
        requires { caller < self.now.shape.callers }
        ensures { IsTrue result ↔ Reads (IsThere (store_of self.now.history))
            (own_part self.now caller) at.now entry.now }
    {
        match *entry {
            Entry::Fetch {
                caller: q,
                name,
                answer,
            } => is_own_on(caller, at, q, name) && is_same(&answer, &at.contents),
            Entry::StoreIf {
                caller: q,
                name,
                stamp,
                refs,
                numbers,
                answer,
            } => {
                is_own_on(caller, at, q, name) && self.misses(at, stamp, &refs, &numbers, answer)
            }
            Entry::Create { .. } | Entry::Store { .. } => false,
        }
    }

    // Whether a conditional store answers that the version has another stamp, which is the version's.
    fn misses(
        &self,
        at: &Known,
        stamp: u64,
        refs: &[Option<Name>; 4],
        numbers: &[u64; 10],
        answer: Tried,
    ) -> bool
        ensures { IsTrue result ↔ ((now : ℕ) × (answer ≡ Changed now)
            × IsGiven (IsThere (store_of self.now.history)) refs.now numbers.now
            × (at.now.contents.stamp ≢ stamp) × (now ≡ at.now.contents.stamp)) }
    {
        match answer {
            Tried::Stored => false,
            Tried::Changed { stamp: now } => {
                if at.contents.stamp == stamp || now != at.contents.stamp {
                    return false;
                }
                self.is_given(refs, numbers)
            }
        }
    }

    // Whether what a conditional store is given is there.
    fn is_given(&self, refs: &[Option<Name>; 4], _numbers: &[u64; 10]) -> bool
        ensures { IsTrue result
            ↔ IsGiven (IsThere (store_of self.now.history)) refs.now _numbers.now }
    {
        self.are_there(refs)
    }

    // Whether a written word spells a reference.
    fn spells(&self, caller: u32, word: Option<u64>, name: Option<Name>) -> bool
        requires { caller < self.now.shape.callers }
        ensures { IsTrue result ↔ ((w : ℕ) × (word ≡ Some w)
            × Spells (own_part self.now caller).hands.held w name) }
    {
        match word {
            Some(word) => self.hand(caller).spells(word, name),
            None => false,
        }
    }

    // Whether the words 1 to 15 of the caller's next version are written and are these contents.
    fn is_built(&self, caller: u32, contents: &Contents) -> bool
        requires caller { caller < self.now.shape.callers }
        requires sized { IsSized contents.now.refs contents.now.numbers }
        ensures built { IsTrue result ↔ IsBuilt (own_part self.now caller).hands.held
            (own_part self.now caller).draft.written contents.now }
        ensures sound { IsSound self.now }
    {
        let _shape = &self.shape;
        if self.written(caller, STAMP) != Some(contents.stamp) {
            return false;
        }
        if !self.are_spelled(caller, &contents.refs) {
            return false;
        }
        self.are_numbers(caller, &contents.numbers)
    }

    // Whether the references are spelled by the written words.
    fn are_spelled(&self, caller: u32, refs: &[Option<Name>; 4]) -> bool
        requires { caller < self.now.shape.callers }
        ensures { IsTrue result ↔ ((i : ℕ) → i < 4
            → (w : ℕ) × IsWritten (own_part self.now caller).draft.written (first_reference + i) w
            × Spells (own_part self.now caller).hands.held w (slice_index_or refs.now i None)) }
    {
        for i in 0..4u32 {
            let word = self.written(caller, FIRST_REFERENCE + i);
            if !self.spells(caller, word, refs[i as usize]) {
                return false;
            }
        }
        true
    }

    // Whether the numbers are the written words.
    fn are_numbers(&self, caller: u32, numbers: &[u64; 10]) -> bool
        requires { caller < self.now.shape.callers }
        ensures { IsTrue result ↔ ((i : ℕ) → i < 10
            → IsWritten (own_part self.now caller).draft.written (first_number + i)
            (slice_index numbers.now i)) }
    {
        for i in 0..10u32 {
            if self.written(caller, FIRST_NUMBER + i) != Some(numbers[i as usize]) {
                return false;
            }
        }
        true
    }

    // Whether a Create is the caller's own next one, of objects that are there, and as its next version is
    // written.
    fn creates(&self, caller: u32, entry: &Entry) -> bool
        requires caller { caller < self.now.shape.callers }
        requires room { HasRoom (own_part self.now caller) }
        ensures { IsTrue result
            ↔ Fits (core_of self.now) (own_part self.now caller) (Publish entry.now) }
    {
        match *entry {
            Entry::Create {
                caller: q,
                name,
                refs,
                numbers,
            } => {
                if q != caller || !is_same_name(name, self.next_name(caller)) {
                    return false;
                }
                if !self.are_there(&refs) {
                    return false;
                }
                self.is_built(caller, &new_contents(refs, numbers))
            }
            Entry::Fetch { .. } | Entry::Store { .. } | Entry::StoreIf { .. } => false,
        }
    }

    // Whether a caller's next version, as it is written, comes behind a version by an entry of the caller's
    // own.
    fn hangs(&self, caller: u32, v: Version, entry: &Entry) -> bool
        requires caller { caller < self.now.shape.callers }
        requires awake { IsAwake (core_of self.now) caller (own_view self.now caller)
            (own_part self.now caller) }
        requires look { IsLookable (own_part self.now caller) v }
        requires room { HasRoom (own_part self.now caller) }
        ensures { IsTrue result
            ↔ Fits (core_of self.now) (own_part self.now caller) (LinkStore v entry.now) }
    {
        match self.known(v) {
            Some(at) => match self.turned(caller, &at, entry) {
                Some(contents) => {
                    if self.written(caller, LINK) != Some(0) {
                        return false;
                    }
                    self.is_built(caller, &contents)
                }
                None => false,
            },
            None => false,
        }
    }

    // Whether a caller's next version is written as a copy of a version, to come behind it.
    fn copies(&self, caller: u32, v: Version) -> bool
        requires caller { caller < self.now.shape.callers }
        requires awake { IsAwake (core_of self.now) caller (own_view self.now caller)
            (own_part self.now caller) }
        requires look { IsLookable (own_part self.now caller) v }
        requires room { HasRoom (own_part self.now caller) }
        ensures { IsTrue result
            ↔ Fits (core_of self.now) (own_part self.now caller) (LinkCopy v) }
    {
        match self.known(v) {
            Some(at) => {
                if self.written(caller, LINK) != Some(0) {
                    return false;
                }
                self.is_built(caller, &at.contents)
            }
            None => false,
        }
    }

    // What an entry of the caller's own turns the contents of a version into, where it stands there.
    fn turned(&self, caller: u32, at: &Known, entry: &Entry) -> Option<Contents>
        requires caller { caller < self.now.shape.callers }
        requires small { IsSmall at.now }
        ensures turned { IfSome result (λ x. Turns (IsThere (store_of self.now.history))
            (own_part self.now caller) at.now x entry.now) }
        ensures only { (x : Contents) → Turns (IsThere (store_of self.now.history))
            (own_part self.now caller) at.now x entry.now → result ≡ Some x }
    {
        match *entry {
            Entry::Store {
                caller: q,
                name,
                field,
            } => {
                if !is_own_on(caller, at, q, name) || !self.is_field_there(field) {
                    return None;
                }
                Some(with_field(&at.contents, field))
            }
            Entry::StoreIf {
                caller: q,
                name,
                stamp,
                refs,
                numbers,
                answer,
            } => {
                if !is_own_on(caller, at, q, name) || answer != Tried::Stored {
                    return None;
                }
                if at.contents.stamp != stamp || !self.is_given(&refs, &numbers) {
                    return None;
                }
                Some(with_all(&at.contents, refs, numbers))
            }
            Entry::Create { .. } | Entry::Fetch { .. } => None,
        }
    }

    // Whether what a load of a link may make reads the version.
    fn wants(&self, caller: u32, v: Version, want: Option<Entry>) -> bool
        requires caller { caller < self.now.shape.callers }
        requires awake { IsAwake (core_of self.now) caller (own_view self.now caller)
            (own_part self.now caller) }
        requires look { IsLookable (own_part self.now caller) v }
        ensures { (scan : Bool) → IsTrue result
            ↔ Fits (core_of self.now) (own_part self.now caller) (LoadLink v want scan) }
    {
        match self.known(v) {
            Some(at) => match want {
                Some(entry) => self.reads(caller, &at, &entry),
                None => true,
            },
            None => false,
        }
    }

    // Whether words and answer fit the entry and the version.
    pub(crate) fn fits(&self, caller: u32, kind: &StepKind) -> bool
        requires caller { caller < self.now.shape.callers }
        requires awake { IsAwake (core_of self.now) caller (own_view self.now caller)
            (own_part self.now caller) }
        requires needs { HoldsWhatItNeeds (own_part self.now caller) kind.now }
        requires place { HasPlace (own_part self.now caller) kind.now }
        ensures { IsTrue result ↔ Fits (core_of self.now) (own_part self.now caller) kind.now }
    {
        match *kind {
            StepKind::LoadLink { v, entry, .. } => self.wants(caller, v, entry),
            StepKind::Publish { entry } => self.creates(caller, &entry),
            StepKind::LinkStore { v, entry } => self.hangs(caller, v, &entry),
            StepKind::LinkCopy { v } => self.copies(caller, v),
            StepKind::LoadField { .. } | StepKind::StoreOwn { .. } => self.is_plain(caller, kind),
            _ => true,
        }
    }

    // A load of a field and a store of an own word fit.
    fn is_plain(&self, caller: u32, kind: &StepKind) -> bool
        requires caller { caller < self.now.shape.callers }
        requires awake { IsAwake (core_of self.now) caller (own_view self.now caller)
            (own_part self.now caller) }
        requires needs { HoldsWhatItNeeds (own_part self.now caller) kind.now }
        requires place { HasPlace (own_part self.now caller) kind.now }
        requires plain { IsPlain kind.now }
        ensures fits { Fits (core_of self.now) (own_part self.now caller) kind.now }
        ensures always { IsTrue result }
    {
        let _shape = &self.shape;
        true
    }
}

// Whether an entry is a caller's own, on the object of a version.
fn is_own_on(caller: u32, at: &Known, q: u32, name: Name) -> bool
    ensures { IsTrue result ↔ ((q ≡ caller) × (name ≡ at.now.name)) }
{
    q == caller && is_same_name(name, at.name)
}

// Whether two names are the same.
fn is_same_name(a: Name, b: Name) -> bool
    ensures { IsTrue result ↔ (a ≡ b) }
{
    a.maker == b.maker && a.count == b.count
}

// Whether two contents are the same.
fn is_same(a: &Contents, b: &Contents) -> bool
    ensures { IsTrue result ↔ (a.now ≡ b.now) }
{
    a == b
}
