//! Calls, as the diary is told them: entries with indices in place of names.

use crate::object::{Change, Object};
use hm_model::Tried;

/// One entry that is about to be made.
#[derive(Clone, Copy)]
pub(crate) enum Call {
    Create {
        at: u32,
        refs: [Option<u32>; 4],
        numbers: [u64; 10],
    },
    Fetch {
        at: u32,
        answer: Object,
    },
    Store {
        at: u32,
        change: Change,
    },
    StoreIf {
        at: u32,
        stamp: u64,
        refs: [Option<u32>; 4],
        numbers: [u64; 10],
        answer: Tried,
    },
}
