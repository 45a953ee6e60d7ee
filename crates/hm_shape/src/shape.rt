//! The shape of a heap, and the map of its Table.
//!
//! With n callers the words of the Table are these:
//!
//! ```text
//!   0       1 .. n       n + 1 .. 2n   2n + 1 ..
//! +-------+------------+-------------+-----------+-----------+-- -
//! | stage | replies of | roles of    | version 0 | version 1 | ...
//! |       | callers    | callers     |           |           |
//! |       | 0 .. n - 1 | 0 .. n - 1  | 16 words  | 16 words  |
//! +-------+------------+-------------+-----------+-----------+-- -
//! ```
//!
//! Word i of version v is the word 2n + 1 + 16 v + i. The words of one version are these:
//!
//! ```text
//!   0      1       2 .. 5       6 .. 15
//! +------+-------+------------+---------+
//! | link | stamp | references | numbers |
//! +------+-------+------------+---------+
//! ```
//!
//! The link and each reference name a version, or none.
ghost use Rattle.std.specs.Prelude.{◌≡◌, ◌≢◌, ◌*◌, ◌<◌, ◌≤◌, ◌↔◌, IfOk, Err};
ghost use Rattle.hm_shape.specs.Ranges.{IsOutside, IsWithin};

use crate::version::VERSION_WORDS;

/// The most callers of a heap: one for each file of a replay.
pub const MOST_CALLERS: u32 = 8;

/// The regions of each caller: two that it fills, one into which it copies after a join, and one kept free for a
/// join that comes again.
pub const REGIONS: u32 = 4;

/// The fewest versions of a region: few enough to fill a heap by hand.
pub const LEAST_VERSIONS: u32 = 4;

/// The most versions of a region: with the most callers the versions take 256 MiB.
pub const MOST_VERSIONS: u32 = 65536;

/// The number of the word that holds the stage.
pub const STAGE_AT: u64 = 0;

/// How many callers, regions and versions a heap has.
#[derive(Clone, Copy, Debug, PartialEq, Eq)]
pub struct Shape {
    /// How many callers, from 1 to 8. In the field: mutator threads.
    pub callers: u32,
    /// How many regions each caller has: 4. In the field: semispaces.
    pub regions: u32,
    /// How many versions each region has room for, from 4 to 65536.
    pub versions: u32,
    pub ghost callers_fit: { IsWithin 1 8 callers },
    pub ghost regions_fit: { regions ≡ 4 },
    pub ghost versions_fit: { IsWithin 4 65536 versions },
}

/// Which number of a shape is out of its range; of several the first.
#[derive(Clone, Copy, Debug, PartialEq, Eq)]
pub enum ShapeRefused {
    Callers,
    Regions,
    Versions,
}

impl Shape {
    ghost use Rattle.hm_shape.specs.Versions.{version_count};
    ghost use Rattle.hm_shape.specs.Words.{reply_at, roles_at, stage_at, word_count};

    /// The shape of these numbers, or which of them is the first out of its range.
    pub fn new(callers: u32, regions: u32, versions: u32) -> Result<Shape, ShapeRefused>
        ensures numbers { IfOk result (λ shape. (shape.callers ≡ callers)
            × (shape.regions ≡ regions) × (shape.versions ≡ versions)) }
        ensures callers { (result ≡ Err ShapeRefused.Callers) ↔ IsOutside 1 8 callers }
        ensures regions { (result ≡ Err ShapeRefused.Regions)
            ↔ (IsWithin 1 8 callers × (regions ≢ 4)) }
        ensures versions { (result ≡ Err ShapeRefused.Versions)
            ↔ (IsWithin 1 8 callers × (regions ≡ 4)
            × IsOutside 4 65536 versions) }
    {
        if !(1..=MOST_CALLERS).contains(&callers) {
            return Err(ShapeRefused::Callers);
        }
        if regions != REGIONS {
            return Err(ShapeRefused::Regions);
        }
        if !(LEAST_VERSIONS..=MOST_VERSIONS).contains(&versions) {
            return Err(ShapeRefused::Versions);
        }
        Ok(Shape {
            callers,
            regions,
            versions,
        })
    }

    /// How many versions the heap has room for.
    pub fn version_count(&self) -> u32
        ensures { result ≡ version_count self.now }
    {
        self.callers * self.regions * self.versions
    }

    /// How many words the Table has.
    pub fn word_count(&self) -> u64
        ensures { result ≡ word_count self.now }
    {
        2 * u64::from(self.callers) + 1 + u64::from(VERSION_WORDS) * u64::from(self.version_count())
    }

    /// The number of the word that holds the caller's reply. It is behind the stage's word.
    pub fn reply_at(&self, caller: u32) -> u64
        requires { caller < self.now.callers }
        ensures value { result ≡ reply_at caller }
        ensures behind { stage_at < result }
        ensures below { result ≤ self.now.callers }
    {
        STAGE_AT + 1 + u64::from(caller)
    }

    /// The number of the word that holds the roles of the caller's regions. It is behind those of all replies.
    pub fn roles_at(&self, caller: u32) -> u64
        requires { caller < self.now.callers }
        ensures value { result ≡ roles_at self.now caller }
        ensures behind { self.now.callers < result }
        ensures below { result ≤ 2 * self.now.callers }
    {
        STAGE_AT + 1 + u64::from(self.callers) + u64::from(caller)
    }
}
