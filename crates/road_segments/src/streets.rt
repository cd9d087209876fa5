//! What the segments of one way have in common.

use road_base::{Text, Words};

/// A way that the vehicle may use in some direction, as its segments know it.
pub struct Street {
    /// the way's id
    pub way: i64,
    /// the way's `name`, or empty
    pub name: Text,
    /// the names of its classes, in the order of the profile
    pub classes: Words,
    /// thousandths of km/h
    pub speed: u32,
    /// in the order of the way's nodes
    pub forward: bool,
    /// against it
    pub backward: bool,
    /// whether the way is a roundabout
    pub round: bool,
}

impl Drop for Street {
    fn drop(self) {
        let Street {
            way: _way,
            name: _name,
            classes: _classes,
            speed: _speed,
            forward: _forward,
            backward: _backward,
            round: _round,
        } = self;
    }
}
