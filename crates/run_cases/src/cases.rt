//! What a run is over, and which of its calls fails.

use crate::towns::{SETTINGS, TOWN};
use road_base::Text;
use road_io::{MemFiles, MemSink, MemSource};
use std::alloc::{AllocError, Global};

/// The call that fails, of a kind that the object is named by whose calls these are; calls count from 1.
#[derive(Clone, Copy)]
pub struct Fault<'a> {
    pub kind: &'a str,
    pub number: u64,
}

impl<'a> Fault<'a> {
    /// No call fails.
    pub fn none() -> Fault<'a> {
        Fault {
            kind: "none",
            number: 0,
        }
    }

    /// The numbers of the calls of this kind that fail.
    pub fn of(self, alloc: Global, kind: &str) -> Result<Vec<u64>, AllocError> {
        let mut numbers = Vec::new(alloc);
        if self.kind == kind {
            numbers.push(self.number)?;
        }
        Ok(numbers)
    }
}

/// A run on words, over a map, settings, a speeds file of these rows and an input that comes in pieces of this size; a
/// size of 0 is no limit. The output has this much room. A `read` of the files may fail, a `take` of the input or a
/// `put` of the output.
#[derive(Clone, Copy)]
pub struct Case<'a> {
    pub words: &'a str,
    pub map: &'a [u8],
    pub settings: &'a [u8],
    pub rows: &'a [u8],
    pub input: &'a [u8],
    pub piece: usize,
    pub room: usize,
    pub fault: Fault<'a>,
}

impl<'a> Case<'a> {
    /// A run of `ask` over the town.
    pub fn over_town(input: &'a [u8]) -> Case<'a> {
        Case {
            words: "ask town.opl settings.toml",
            map: TOWN,
            settings: SETTINGS,
            rows: b"",
            input,
            piece: 0,
            room: 4096,
            fault: Fault::none(),
        }
    }
}

/// A file of this name.
pub fn named(alloc: Global, name: &str, bytes: &[u8]) -> Result<(Text, Vec<u8>), AllocError> {
    Ok((Text::copy_of(alloc, name)?, Vec::from_slice(alloc, bytes)?))
}

/// The words of a text, with a blank between each two of them.
pub fn words(alloc: Global, text: &str) -> Result<Vec<String>, AllocError> {
    let mut words = Vec::new(alloc);
    for word in text.split(' ') {
        if !word.is_empty() {
            words.push(String::from_str(alloc, word)?)?;
        }
    }
    Ok(words)
}

/// The files of a case's map, settings and rows of speeds, and one of no rows of turns.
pub fn files_of(alloc: Global, case: Case<'_>) -> Result<Vec<(Text, Vec<u8>)>, AllocError> {
    let mut list = Vec::new(alloc);
    list.push(named(alloc, "town.opl", case.map)?)?;
    list.push(named(alloc, "settings.toml", case.settings)?)?;
    list.push(named(alloc, "speeds.csv", case.rows)?)?;
    list.push(named(alloc, "turns.csv", b"")?)?;
    Ok(list)
}

/// The same as a case reads them.
pub fn files(alloc: Global, case: Case<'_>) -> Result<MemFiles, AllocError> {
    let failing = case.fault.of(alloc, "read")?;
    Ok(MemFiles::of(alloc, files_of(alloc, case)?, failing))
}

/// The input of a case.
pub fn input_of(alloc: Global, case: Case<'_>) -> Result<MemSource, AllocError> {
    let mut pieces = Vec::new(alloc);
    if case.piece > 0 {
        pieces.push(case.piece)?;
    }
    let failing = case.fault.of(alloc, "take")?;
    let bytes = Vec::from_slice(alloc, case.input)?;
    Ok(MemSource::of(bytes, pieces, failing))
}

/// The output of a case.
pub fn output_of(alloc: Global, case: Case<'_>) -> Result<MemSink, AllocError> {
    MemSink::of(alloc, case.room, case.fault.of(alloc, "put")?)
}
