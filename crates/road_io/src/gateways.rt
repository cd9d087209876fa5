//! The gate between entering a metric and answering under it.

/// A gate that each answer passes after it has entered a metric, so that a test can hold it there while
/// others publish.
pub trait Gate {
    /// Lets the answer of this seat, under the metric of this number, go on. May wait.
    fn pass(&self, seat: u32, number: u32);
}

/// The gate of the running program, which holds nobody.
#[derive(Clone, Copy, Debug)]
pub struct OpenGate;

impl Gate for OpenGate {
    fn pass(&self, _seat: u32, _number: u32) {}
}
