//! What words ask for.
ghost use Rattle.std.specs.Prelude.{◌≡◌};
ghost use Rattle.hm_words.specs.declared.asked.WordsRefused.TheVariants as refused;
ghost use Rattle.hm_words.specs.Reading.{refused_parse};

use clap::error::ErrorKind;
use hm_book::Limits;
use std::alloc::{AllocError, AllocFailed};

/// What a replay is made with.
#[derive(Clone, Copy, Debug, PartialEq, Eq)]
pub struct Settings {
    /// The versions of each caller, from 64 to 65536.
    pub versions: u32,
    /// The orders that the book admits; `low` is at most `high`.
    pub limits: Limits,
}

/// What the words ask for.
#[derive(Debug, Drop)]
pub enum Asked<'a> {
    /// To replay the files of these names, at least one, in this order.
    Replay {
        settings: Settings,
        files: Vec<&'a str>,
    },
    /// To make `count` orders from a number, and replay them with so many versions.
    Generate {
        versions: u32,
        number: u64,
        /// At most 1,000,000.
        count: u64,
    },
}

/// Why the words were not read.
#[derive(Clone, Copy, Debug, PartialEq, Eq)]
pub enum WordsRefused {
    /// The words ask for nothing that there is.
    Refused,
    /// Memory ran out.
    Memory,
}

impl From<AllocError> for WordsRefused {
    ghost from_gives = { λ _ answer. answer ≡ refused.Memory };

    fn from(_error: AllocError) -> WordsRefused {
        WordsRefused::Memory
    }
}

impl<T: Drop> From<AllocFailed<T>> for WordsRefused {
    ghost from_gives = { λ _ answer. answer ≡ refused.Memory };

    fn from(_failed: AllocFailed<T>) -> WordsRefused {
        WordsRefused::Memory
    }
}

impl From<clap::Error> for WordsRefused {
    ghost from_gives = { λ error answer. answer ≡ refused_parse error };

    // Want of memory alone is told apart.
    fn from(error: clap::Error) -> WordsRefused {
        match error.kind() {
            ErrorKind::OutOfMemory => WordsRefused::Memory,
            _ => WordsRefused::Refused,
        }
    }
}
