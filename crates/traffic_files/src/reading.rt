//! A file to its rows.

ghost use Rattle.std.specs.Prelude.{◌≡◌, ◌+◌, ◌-◌, ◌<◌, ◌^◌, Ok, IfOk, IfErr};
ghost use Rattle.traffic_files.specs.Files.{IsFaultOf, SpeedsRead, TurnsRead};
ghost use Rattle.traffic_files.specs.Ranges.{ArePenaltiesInRange, AreSpeedsInRange};
ghost use Rattle.traffic_files.specs.declared.rows.TrafficFault.TheVariants.{Row};

use crate::records::{speed_row, turn_row};
use crate::rows::{RowFault, RowKind, SpeedRow, TrafficFault, TrafficFile, TurnRow};
use csv::{ByteRecord, ReaderBuilder};
use std::alloc::Global;

/// The rows of a speeds file, `from_osm_id,to_osm_id,edge_speed_in_km_h[,rate]` each, in file order.
///
/// The file is CSV without a header row: rows are its records, counted from 1, of any length, and blanks round a
/// field are dropped. A speed is a decimal without a sign; of the digits behind its point three are kept. A
/// speed from 0.001 to 0.999 counts as 1 km/h. A rate is a decimal, metres for each unit of the printed weight, of
/// which three digits behind the point are kept too; one from 0.001 to 0.277 counts as 0.278.
///
/// The first faulty row is told, and of its faults the first of these: `BadCount` for a number of fields other
/// than 3 or 4, `BadId`, `BadNumber`, and `OutOfRange` for a speed above 1000 km/h, or a rate above 1000, of 0 or
/// with a minus sign. Want of memory may come at any time; any error of `csv` is told as that, since it gives no
/// other over a slice.
pub fn read_speeds(alloc: Global, bytes: &[u8]) -> Result<Vec<SpeedRow>, TrafficFault>
    ensures rows { IfOk result (λ rows. SpeedsRead bytes.now (Ok rows.items)) }
    ensures in_range { IfOk result (λ rows. AreSpeedsInRange rows.items) }
    ensures fault { IfErr result (IsFaultOf (SpeedsRead bytes.now)) }
{
    let mut reader = ReaderBuilder::new()
        .has_headers(false)
        .flexible(true)
        .from_reader(alloc, bytes);
    let mut record = ByteRecord::new(alloc);
    let mut rows = Vec::new(alloc);
    'records: for _ in 0..u64::MAX {
        let Ok(more) = reader.read_byte_record(&mut record) else {
            return Err(TrafficFault::Memory);
        };
        if !more {
            return Ok(rows);
        }
        match speed_row(&record) {
            Ok(row) => rows.push(row)?,
            Err(kind) => return Err(fault(TrafficFile::Speeds, rows.len(), kind)),
        }
    }
    Err(TrafficFault::Memory)
}

/// The rows of a turns file, `from_osm_id,via_osm_id,to_osm_id,penalty_in_seconds[,weight]` each, in file order.
///
/// The file is read as a speeds file is. A penalty is a decimal, of which one digit behind the point is kept; one
/// below zero counts as 0. A weight is read alike. `BadCount` is for a number of fields other than 4 or 5, and
/// `OutOfRange` for a penalty above 100000 s or a weight above 100000.
pub fn read_turns(alloc: Global, bytes: &[u8]) -> Result<Vec<TurnRow>, TrafficFault>
    ensures rows { IfOk result (λ rows. TurnsRead bytes.now (Ok rows.items)) }
    ensures in_range { IfOk result (λ rows. ArePenaltiesInRange rows.items) }
    ensures fault { IfErr result (IsFaultOf (TurnsRead bytes.now)) }
{
    let mut reader = ReaderBuilder::new()
        .has_headers(false)
        .flexible(true)
        .from_reader(alloc, bytes);
    let mut record = ByteRecord::new(alloc);
    let mut rows = Vec::new(alloc);
    'records: for _ in 0..u64::MAX {
        let Ok(more) = reader.read_byte_record(&mut record) else {
            return Err(TrafficFault::Memory);
        };
        if !more {
            return Ok(rows);
        }
        match turn_row(&record) {
            Ok(row) => rows.push(row)?,
            Err(kind) => return Err(fault(TrafficFile::Turns, rows.len(), kind)),
        }
    }
    Err(TrafficFault::Memory)
}

// What is wrong with the row behind this many good ones.
fn fault(file: TrafficFile, good: usize, kind: RowKind) -> TrafficFault
    requires { good < 2 ^ 64 - 1 }
    ensures { result ≡ Row (record { file = file; row = good + 1; kind = kind }) }
{
    let row = good as u64 + 1;
    TrafficFault::Row(RowFault { file, row, kind })
}
