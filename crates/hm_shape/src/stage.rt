//! The stage of a heap's collecting, which all its callers see in one word.
//!
//! ```text
//!   63 .. 32   31 .. 2      1 .. 0
//! +----------+------------+-------+
//! | number   | done count | phase |
//! +----------+------------+-------+
//! ```
//!
//! Each word is that of one stage. A fresh heap has the word 0: Idle, number 0, no cycle done.
ghost use Rattle.std.specs.Prelude.{◌≡◌, ◌<◌, ◌^◌, Some, IfSome, IsSome};

/// How many phases there are: what a done count of 1 adds to the word of a stage.
const PHASES: u64 = 4;

/// What a number of 1 adds to the word of a stage: a done count and a phase take 32 bits.
const NUMBER_UNIT: u64 = 1 << 32;

/// Done counts are below this, so that they take 30 bits.
pub const DONE_END: u32 = 1 << 30;

/// What the callers of a heap do in a stage.
#[derive(Clone, Copy, Debug, PartialEq, Eq)]
pub enum Phase {
    /// No cycle of collecting is under way.
    Idle,
    /// Each caller makes from-space of the regions that it has used, and takes a fresh one.
    Join,
    /// Each caller scans: what it still names in from-space is copied out.
    First,
    /// Each caller tells whether it has met from-space since its scan.
    Second,
}

impl Phase {
    ghost use Rattle.hm_shape.specs.Words.{phase_number};

    // The number of the phase.
    fn number(self) -> u64
        ensures { result ≡ phase_number self }
    {
        match self {
            Phase::Idle => 0,
            Phase::Join => 1,
            Phase::First => 2,
            Phase::Second => 3,
        }
    }

    // The phase of the number.
    fn numbered(number: u64) -> Phase
        requires { number < PHASES }
        ensures { phase_number result ≡ number }
    {
        match number {
            0 => Phase::Idle,
            1 => Phase::Join,
            2 => Phase::First,
            _ => Phase::Second,
        }
    }
}

/// A stage of collecting.
#[derive(Clone, Copy, Debug, PartialEq, Eq)]
pub struct Stage {
    /// How many stages came before this one.
    pub number: u32,
    /// How many cycles of collecting are done. It is below [`DONE_END`], 2^30.
    pub done: u32,
    /// What the callers do in it.
    pub phase: Phase,
    pub ghost done_fits: { done < 2 ^ 30 },
}

impl Stage {
    ghost use Rattle.hm_shape.specs.Words.{stage_word};

    /// The word of the stage. No other stage has it.
    pub fn pack(&self) -> u64
        ensures value { result ≡ stage_word self.now }
        ensures apart { (other : Stage) → stage_word other ≡ result → other ≡ self.now }
    {
        u64::from(self.number) * NUMBER_UNIT + u64::from(self.done) * PHASES + self.phase.number()
    }

    /// The stage of the word. Each word has one, so the answer is never `None`.
    pub fn unpack(word: u64) -> Option<Stage>
        ensures found { IsSome result }
        ensures packs { IfSome result (λ stage. stage_word stage ≡ word) }
        ensures back { (stage : Stage) → stage_word stage ≡ word → result ≡ Some stage }
    {
        let low = word % NUMBER_UNIT;
        Some(Stage {
            number: (word / NUMBER_UNIT) as u32,
            done: (low / PHASES) as u32,
            phase: Phase::numbered(low % PHASES),
        })
    }
}
