//! The moves of the pure machine whose steps the shared heap takes: its state, what a move makes of it, and what is kept,
//! also while versions are given up, die, and their places are used again.
//!
//! A *moment* of the heap has the words of the Table, what is known of each published version, the *places* (how many of
//! each region are used, what for, how many versions were ever published there, how often it was freed, and whether it is
//! dead), the history of all entries, and a *view* for each seat. A view has the history that the seat has seen, and a
//! part for each caller that it carries; the view of a note has none. A caller's part has its draft, the versions in its
//! hands, its calls, and what it knows of the collector's cycle: the stage and the replies that it saw, its regions and
//! its last join, its masks, its mark, and how far its scan has come. No call of the running heap makes these values:
//! contracts and proofs alone speak of them. [`first_words`] alone runs: it computes the words of a fresh Table.
//!
//! # The cycle
//!
//! Nobody frees a version. A caller gives whole regions up as it joins a cycle (they are *From*), all callers take out of
//! them what they still name, and when all have replied twice that nothing is left, the regions are *dead*: their
//! versions are published no more, and their owner uses them again. hm_rounds tells the argument, with drawings of the
//! stage and of the roles of a region, and why there are two rounds and not one; docs/COLLECTING.md has it step by step.
//!
//! # Moves
//!
//! A *move* of a caller is one act, a load, a store or an exchange of one word, by which it may let go of a version. An
//! act is of a group, and what a group does not touch is the same for all acts of it (`specs/Acts.antt`). It is given by
//! cuts, each a function of the caller's part and of the word that was found: the word that it moves, what that becomes,
//! the entry that it makes, the version that it publishes, and the version that it finds.
//!
//! | Group | Act | Word moved | What it may make |
//! |---|---|---|---|
//! | [`Act::Looks`] | [`Look::LoadStamp`], [`Look::LoadReference`], [`Look::LoadNumber`] | a load of a word of a version | none |
//! | | [`Look::LoadLink`] | a load of a link | where it finds 0, the wanted Fetch, or StoreIf that answers Changed |
//! | [`Act::Builds`] | [`Build::StoreOwn`] | a store of a word of the caller's next version | none |
//! | | [`Build::Publish`] | a store of 0 into the link of that version | a Create; the version is published |
//! | | [`Build::LinkStore`] | an exchange of a link from 0 to that version | where it finds 0, a Store or a StoreIf that answers Stored, or none with a copy; the version is published |
//! | | [`Build::Shorten`] | a store of a later version's name into a link or reference of an own one | none |
//! | [`Act::Ticks`] | [`Tick::LoadStage`], [`Tick::LoadReply`] | a load of the stage, or of a reply | none |
//! | | [`Tick::MoveStage`] | an exchange of the stage from the one seen to the next one | where that is Idle, a cycle is done: the versions of From regions leave the index |
//! | | [`Tick::StoreReply`] | a store of the caller's reply | none |
//! | [`Act::Shifts`] | [`Shift::LoadRoles`] | a load of a caller's roles | none |
//! | | [`Shift::Join`], [`Shift::Turn`], [`Shift::Reuse`] | a store of the caller's own roles | the regions change, and dead ones are freed |
//!
//! `specs/Cycles.antt` has what marks, the cursor of a scan and bareness are, `specs/Shifts.antt` what an act does to
//! stage and regions, `specs/After.antt` what a whole move makes of the heap and of the caller, `specs/Allowed.antt` when a
//! caller may make it. Besides, a caller may let go of a version alone, a seat may be split, so that a note is cut off it,
//! and joined with another. A caller whose seat was joined stays as it is in the view that took the seat.
//!
//! # What is kept
//!
//! What every moment keeps is a record of sub-records, one for each part of the state (`specs/Good.antt`):
//!
//! - *placed*: published versions lie in just the used places of each region that is not dead;
//! - *ranked*: no rank passes the number of versions that were ever published, and no region was filled more often than it
//!   was free;
//! - *contents*: the words of each published version are its contents;
//! - *chained*: links go to later versions, the last version of an object has the greatest rank and what the plain
//!   store holds, and no two versions of an object have one rank;
//! - *history*: it is lawful, each seat has seen a beginning of it, and each caller's entries are its calls there;
//! - *draft*: the words that a caller has written are in the Table, and name versions that it holds;
//! - *hands*: what a caller holds is published, and it lists just the published versions of its own regions, each once;
//! - *met*: where a caller's scan has stopped, the word at its cursor names the version that it found there;
//! - *collects*: words, places and callers show a state of the rules of use again, which hm_rounds has over all callers
//!   at once, one function a fact (`specs/Showing.antt`). No definition of a move mentions that state: each move is one or
//!   two steps of it, and so the argument of hm_rounds never goes through seats.
//!
//! From this follow the safety rule and the rule of the cycle (`specs/Safe.antt`, `specs/Collecting.antt`), for every
//! machine that a fresh one leads to, and that chains end (`specs/Ends.antt`); the laws in `src/laws.rt` say so:
//!
//! - [`every_list_of_moves_keeps_a_machine_good`], and [`a_good_machine_is_safe`];
//! - [`what_is_reached_is_not_given_out_again`]: no version that a held version reaches is published anew;
//! - [`a_move_tells_the_truth`]: what a move tells its caller, who does not see the machine (`specs/Told.antt`), is so.
#![tactic(auto)]

mod laws;
mod moving;
mod part;
mod starting;
#[cfg(test)]
mod tests;

pub use laws::{
    a_good_machine_is_safe, a_move_tells_the_truth, every_list_of_moves_keeps_a_machine_good,
    what_is_reached_is_not_given_out_again,
};
pub use moving::{Act, Build, Look, Move, Shift, Tick};
pub use part::{Calls, Clock, Cycle, Draft, End, Hands, Known, Part, Scan, Seen, Site, Ties, View};
pub use starting::first_words;
