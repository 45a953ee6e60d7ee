//! What seats know. Contracts and proofs alone have values of these types, but for what a table is told.
use hm_model::{Entry, Start};
use hm_moves::{Site, View};
use hm_shape::{Shape, Version};
use std::collections::LinkedList;

/// What a table is told once, when it is made.
#[derive(Drop)]
pub(crate) struct Opening<U> {
    pub usage: U,
    pub shape: Shape,
    pub start: Start,
}

/// What a seat of the cells' Table knows.
pub(crate) struct Knowledge<U> {
    pub view: View<U>,
    /// How many steps the calls on its pass took.
    pub steps: u64,
    /// What it had seen when it met another seat, until it looks at the Table again.
    pub before: LinkedList<Entry>,
}

/// What the seat of a grip knows.
pub(crate) struct Holding<U> {
    pub site: Site<U>,
    /// The versions in hand, in order, each as often as it was taken and not released.
    pub hand: LinkedList<Version>,
    /// How often its caller tended.
    pub tends: u64,
}
