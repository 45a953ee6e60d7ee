//! What is known of a version, of a caller, and of a seat. Contracts and proofs alone have values of these types.
use hm_model::{Contents, Entry, Name, Start};
use hm_shape::{Phase, Reply, Roles, Shape, Version};
use std::collections::LinkedList;

/// What all seats of one heap agree on.
#[derive(Clone, Copy)]
pub struct Site<U> {
    pub usage: U,
    pub shape: Shape,
    pub start: Start,
}

/// What is known of a published version. Nothing of it changes until the version's region dies.
#[derive(Clone, Copy, Debug, PartialEq, Eq)]
pub struct Known {
    pub version: Version,
    /// The object of which it is a version.
    pub name: Name,
    /// How many versions of the object come before it at least.
    pub rank: u64,
    /// What it holds, with names in place of the words that name versions.
    pub contents: Contents,
}

/// The next version of a caller, which it writes before it publishes it.
pub struct Draft {
    /// The caller's To region, in which it lies.
    pub region: u32,
    /// How many places of that region are used. The next version lies at the first place that is not.
    pub used: u32,
    /// Its 16 words, each where it is written and counts as written.
    pub written: LinkedList<Option<u64>>,
}

/// The versions that a caller may look into, and those of its regions left behind.
pub struct Hands {
    /// Those that it holds, each once, in order of holding.
    pub held: LinkedList<Known>,
    /// Those that it published in its To and Old regions, in order of publishing.
    pub own: LinkedList<Known>,
    /// Those that it published before, in regions that are From, in order of publishing. Of a dead region they are
    /// listed until it is freed.
    pub left: LinkedList<Known>,
}

/// What a caller has called.
pub struct Calls {
    /// Its entries, in order.
    pub mine: LinkedList<Entry>,
}

/// A stage of collecting, as a caller saw it.
#[derive(Clone, Copy, Debug, PartialEq, Eq)]
pub struct Seen {
    /// How many stages came before it.
    pub number: u32,
    /// How many cycles of collecting are done.
    pub done: u32,
    pub phase: Phase,
}

/// What a caller knows of the stage and of replies to it.
pub struct Clock {
    /// The stage that it saw last.
    pub stage: Seen,
    /// Its last reply, if it has replied to a stage.
    pub reply: Option<Reply>,
    /// Of each caller the reply that it loaded since it saw that stage, if any.
    pub replies: LinkedList<Option<Reply>>,
    /// How often it has moved the stage.
    pub moves: u64,
}

/// The regions of a caller, and its last join.
pub struct Ties {
    /// What each of its regions is used for.
    pub roles: Roles,
    /// Whether it has joined, and freed nothing since.
    pub joined: bool,
    /// The number of the Join in which it joined last, if it ever joined.
    pub join: Option<u32>,
    /// How many cycles were done then, 0 where it never joined.
    pub done: u32,
}

/// The end of an object's chain, as a caller found it: its version of this rank had no link.
#[derive(Clone, Copy, Debug, PartialEq, Eq)]
pub struct End {
    pub name: Name,
    pub rank: u64,
}

/// What a caller knows of from-space, and how far its scan has come.
pub struct Scan {
    /// Of each caller the roles that it has loaded as a mask, if any.
    pub masks: LinkedList<Option<Roles>>,
    /// Whether it has met from-space outside of its scan.
    pub mark: bool,
    /// How many links and references of its own To and Old versions its scan has passed.
    pub cursor: u64,
    /// The ends of chains that it has found since it last loaded roles.
    pub ends: LinkedList<End>,
    /// Whether it holds nothing of from-space, nor do its own versions name any.
    pub bare: bool,
    /// The version of from-space that the word at its cursor names, where its scan has stopped there.
    pub met: Option<Known>,
}

/// What a caller knows of the collector's cycle.
pub struct Cycle {
    pub clock: Clock,
    pub ties: Ties,
    pub scan: Scan,
}

/// What is kept of one caller.
pub struct Part<U> {
    pub site: Site<U>,
    /// Which of the heap's callers it is.
    pub number: u32,
    pub draft: Draft,
    pub hands: Hands,
    pub calls: Calls,
    pub cycle: Cycle,
}

/// What a seat knows: the history that it has seen, and a part for each caller that it carries.
pub struct View<U> {
    pub seen: LinkedList<Entry>,
    pub parts: LinkedList<Part<U>>,
}
