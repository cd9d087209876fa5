//! Rows, and what is wrong with one.

ghost use Rattle.std.specs.Prelude.{◌≡◌};
ghost use Rattle.traffic_files.specs.declared.rows.TrafficFault.TheVariants.{Memory};

use std::alloc::{AllocError, AllocFailed};

/// The speed from one node to the next, and how far one gets there for a unit of weight.
#[derive(Clone, Copy, Debug, PartialEq, Eq, Drop)]
pub struct SpeedRow {
    pub from: i64,
    pub to: i64,
    /// In thousandths of km/h: 0, which closes the way there, or from 1000 to 1000000.
    pub speed: u32,
    /// In thousandths of a metre for each unit of the printed weight, from 278 to 1000000, where the row has one.
    pub rate: Option<u32>,
}

/// What it costs to go over these three nodes in turn.
#[derive(Clone, Copy, Debug, PartialEq, Eq, Drop)]
pub struct TurnRow {
    pub from: i64,
    pub via: i64,
    pub to: i64,
    /// In deciseconds, at most 1000000.
    pub penalty: u32,
    /// In tenths of the printed weight, at most 1000000, where the row has one.
    pub weight: Option<u32>,
}

/// Which of the two files.
#[derive(Clone, Copy, Debug, PartialEq, Eq, Drop)]
pub enum TrafficFile {
    Speeds,
    Turns,
}

/// What is wrong with a row.
#[derive(Clone, Copy, Debug, PartialEq, Eq, Drop)]
pub enum RowKind {
    /// It has too few fields or too many.
    BadCount,
    /// A node's id isn't of its form or out of range.
    BadId,
    /// A speed, a rate, a penalty or a weight is no decimal, or a speed has a sign.
    BadNumber,
    /// A speed is above 1000 km/h, a penalty above 100000 s, a weight above 100000, or a rate not above 0 or
    /// above 1000; told only of a row whose numbers are all decimals.
    OutOfRange,
}

/// The first faulty row of a file, counted from 1.
#[derive(Clone, Copy, Debug, PartialEq, Eq, Drop)]
pub struct RowFault {
    pub file: TrafficFile,
    pub row: u64,
    pub kind: RowKind,
}

/// Why a file was not read.
#[derive(Clone, Copy, Debug, PartialEq, Eq, Drop)]
pub enum TrafficFault {
    /// A row is faulty.
    Row(RowFault),
    /// There was no memory for the rows.
    Memory,
}

impl From<AllocError> for TrafficFault {
    ghost from_gives = { λ _ e. e ≡ Memory };

    fn from(_error: AllocError) -> TrafficFault {
        TrafficFault::Memory
    }
}

impl<T: Drop> From<AllocFailed<T>> for TrafficFault {
    ghost from_gives = { λ _ e. e ≡ Memory };

    fn from(_error: AllocFailed<T>) -> TrafficFault {
        TrafficFault::Memory
    }
}
