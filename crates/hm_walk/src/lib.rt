//! What tries the plain machine of hm_core: tests alone, over its public calls.
//!
//! - *Lists of steps* with what each answers: object calls (`seven.rt`); whole cycles of one caller and of two, with a second
//!   round (`cycle.rt`); object calls beside a cycle (`beside.rt`); what random walks rarely meet (`rare.rt`). Those of
//!   docs/COLLECTING.md are among them.
//! - *Refusals* of the kinds of step that a cycle needs, each once (`refused.rt`).
//! - *Random walks* of one, two and three callers (`walk.rt`), 100,000 steps in all from a fixed generator, in which every
//!   kind is taken and every refusal comes but `Holds` and `Memory`. On the way the words of the Table are read by a check
//!   that knows nothing of the machine but its words (`reach.rt`): what can be reached from what callers hold is there, and
//!   is what it was written as.
#![tactic(auto)]

#[cfg(test)]
mod beside;
#[cfg(test)]
mod cycle;
#[cfg(test)]
mod plan;
#[cfg(test)]
mod play;
#[cfg(test)]
mod rare;
#[cfg(test)]
mod reach;
#[cfg(test)]
mod refused;
#[cfg(test)]
mod seven;
#[cfg(test)]
mod table;
#[cfg(test)]
mod walk;
#[cfg(test)]
mod work;
