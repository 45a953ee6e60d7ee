//! The pure machine whose steps the shared heap takes, as plain data that run.
//!
//! A [`Step`] gives a kind of step with the numbers of versions. Seven kinds are those of object calls: loads, stores and
//! exchanges of versions' words, and splits and meetings of seats. Eight are those by which callers collect the heap:
//! loads and moves of the stage, replies, roles, copies out of from-space and shortened names. The heads of hm_moves and
//! hm_rounds tell the cycle, docs/COLLECTING.md has it word by word. `specs/Stepping.antt` tells which act a kind is and
//! what it needs, and `specs/Taking.antt` has these conditions in the order in which they are tested.
//!
//! [`Machine`] takes these steps on plain data: the words, what is known of the version of each number, what is counted
//! of each region, the history with the plain store that it leaves, each caller's draft, the versions that it may look
//! into and what it knows of the cycle, and how much each seat has seen (`specs/Running.antt`). [`Machine::apply`] refuses
//! a step for the first condition that fails, and else leaves the state that the cuts make; it gives no version out again
//! that a held or published version reaches (`specs/Giving.antt`). What is known of a version is found by its number, and
//! an object by its name, in constant time; the versions that a caller holds or has published are searched; the end of a
//! cycle takes time in the number of versions. [`machine_after`] has the safety rule and the rule of the cycle after every
//! list of steps, that chains end, and that the list was played step by step (`specs/Playing.antt`).
#![tactic(auto)]

mod apply;
mod checks;
mod chronicle;
mod contents;
mod copying;
mod cuts;
mod cycles;
mod effects;
mod fitting;
mod hand;
mod laws;
mod machine;
mod names;
mod roles;
mod rows;
mod scanning;
mod seat;
mod starting;
mod step;
mod ticking;
mod track;

pub use laws::machine_after;
pub use machine::{Machine, Memory};
pub use step::{Other, Step, StepKind, StepRefused};
