//! What is published.
use std::collections::LinkedList;
use std::sync::Arc;

/// A publication, as the list has it. No value of it is made.
pub struct Entry<V> {
    pub number: u32,
    pub value: V,
}

/// A value with what all values of one board have in common.
pub trait Kindred: Drop {
    /// Whether two values may stand in one list.
    ghost akin: { Self → Self → Type 0 };

    /// Each value may stand beside itself.
    ghost itself: { (x : Self) → akin x x };

    /// What may stand beside one value may stand together.
    ghost together: { (x y z : Self) → akin x y → akin x z → akin y z };
}

/// A publication, as a running board has it.
#[derive(Drop)]
pub struct Put<V: Drop> {
    pub number: u32,
    pub value: Arc<V>,
}

/// What the rule of a board knows of a place: the list that it read last, and the numbers
/// that it read. No value of it is made.
pub struct View<V> {
    pub seen: LinkedList<Entry<V>>,
    pub reads: LinkedList<u32>,
}
