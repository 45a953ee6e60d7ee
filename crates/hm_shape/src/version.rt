//! The numbers of versions.
//!
//! The versions of a region are numbered in a row, and so are the regions of a caller, and the callers. So the version
//! at place i of region g of caller p has the number (p G + g) S + i, with G regions a caller and S versions a region.
ghost use Rattle.std.specs.Prelude.{◌≡◌, ℕ, ◌*◌, ◌^◌, ◌<◌, ◌≤◌, ◌↔◌, ◌⊎◌, Option, Some, IsNone};

use crate::shape::Shape;

/// The word of a version that holds its link, which names the next version of the same object, or none.
/// In the field: the forwarding pointer.
pub const LINK: u32 = 0;

/// The word of a version that holds its stamp.
pub const STAMP: u32 = LINK + 1;

/// The word of a version that holds its first reference; the other three follow.
pub const FIRST_REFERENCE: u32 = STAMP + 1;

/// The word of a version that holds its first number; the other nine follow.
pub const FIRST_NUMBER: u32 = FIRST_REFERENCE + 4;

/// How many words a version has: its link, its stamp, 4 references and 10 numbers.
pub const VERSION_WORDS: u32 = FIRST_NUMBER + 10;

/// The number of a version: of one copy of an object.
#[derive(Clone, Copy, Debug, PartialEq, Eq, PartialOrd, Ord, Hash)]
pub struct Version(pub u32);

impl Version {
    ghost use Rattle.hm_shape.specs.Versions.{IsAt, IsVersionOf, owner_of, place_of, region_of};
    ghost use Rattle.hm_shape.specs.Words.{naming_word, word_at, word_count};

    /// The version at this place of this region of this caller.
    pub fn at(shape: Shape, owner: u32, region: u32, place: u32) -> Version
        requires owner { owner < shape.callers }
        requires region { region < shape.regions }
        requires place { place < shape.versions }
        ensures there { IsAt shape result owner region place }
        ensures below { IsVersionOf shape result }
        ensures owner { owner_of shape result ≡ owner }
        ensures region { region_of shape result ≡ region }
        ensures place { place_of shape result ≡ place }
    {
        Version((owner * shape.regions + region) * shape.versions + place)
    }

    /// The caller in whose region the version lies.
    pub fn owner(&self, shape: Shape) -> u32
        requires { IsVersionOf shape self.now }
        ensures value { result ≡ owner_of shape self.now }
        ensures there { IsAt shape self.now
            result (region_of shape self.now) (place_of shape self.now) }
        ensures only { (owner region place : ℕ)
            → IsAt shape self.now owner region place → result ≡ owner }
    {
        self.0 / (shape.regions * shape.versions)
    }

    /// The region of its owner in which the version lies.
    pub fn region(&self, shape: Shape) -> u32
        requires { IsVersionOf shape self.now }
        ensures value { result ≡ region_of shape self.now }
        ensures there { IsAt shape self.now
            (owner_of shape self.now) result (place_of shape self.now) }
        ensures only { (owner region place : ℕ)
            → IsAt shape self.now owner region place → result ≡ region }
    {
        self.0 / shape.versions % shape.regions
    }

    /// The place of its region at which the version lies.
    pub fn place(&self, shape: Shape) -> u32
        requires { IsVersionOf shape self.now }
        ensures value { result ≡ place_of shape self.now }
        ensures there { IsAt shape self.now
            (owner_of shape self.now) (region_of shape self.now) result }
        ensures only { (owner region place : ℕ)
            → IsAt shape self.now owner region place → result ≡ place }
    {
        self.0 % shape.versions
    }

    /// The number of the version's word `i` in the Table. No other word of a version has it.
    pub fn word_of(&self, shape: Shape, i: u32) -> u64
        requires version { IsVersionOf shape self.now }
        requires word { i < VERSION_WORDS }
        ensures value { result ≡ word_at shape self.now i }
        ensures behind { 2 * shape.callers < result }
        ensures below { result < word_count shape }
        ensures apart { (other : Version) (j : ℕ) → j < VERSION_WORDS
            → word_at shape other j ≡ result → (other ≡ self.now) × (j ≡ i) }
    {
        let first = 2 * u64::from(shape.callers) + 1;
        first + u64::from(VERSION_WORDS) * u64::from(self.0) + u64::from(i)
    }

    /// The word that names the version.
    pub fn name(&self) -> u64
        ensures { result ≡ naming_word (Some self.now) }
    {
        u64::from(self.0) + 1
    }

    /// The version that the word names; none where it is 0, and where it is past the name of the last `u32`.
    pub fn named(word: u64) -> Option<Version>
        ensures named { word ≤ 2 ^ 32 → naming_word result ≡ word }
        ensures back { (version : Option Version) → word ≤ 2 ^ 32 → naming_word version ≡ word
            → result ≡ version }
        ensures none { IsNone result ↔ ((word ≡ 0) ⊎ (2 ^ 32 < word)) }
    {
        let number = word.checked_sub(1)?;
        u32::try_from(number).ok().map(Version)
    }
}
