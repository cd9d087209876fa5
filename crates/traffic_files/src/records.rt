//! Records to rows.

ghost use Rattle.std.specs.Prelude.{◌≡◌};
ghost use Rattle.csv.specs.Records.{fields_of};
ghost use Rattle.traffic_files.specs.Fields.{optional_at};
ghost use Rattle.traffic_files.specs.Numbers.{rate_of, tenths_of};
ghost use Rattle.traffic_files.specs.Rows.{both_numbers, speed_row_of, turn_row_of};

use crate::fields::{id_at, text_at};
use crate::numbers::{NumberFault, rate_in, speed_in, tenths_in};
use crate::rows::{RowKind, SpeedRow, TurnRow};
use csv::ByteRecord;

// The row that a record of a speeds file stands for.
pub(crate) fn speed_row(fields: &ByteRecord) -> Result<SpeedRow, RowKind>
    ensures { result ≡ speed_row_of (fields_of fields.now) }
{
    if fields.len() < 3 || fields.len() > 4 {
        return Err(RowKind::BadCount);
    }
    let (Some(from), Some(to)) = (id_at(fields, 0), id_at(fields, 1)) else {
        return Err(RowKind::BadId);
    };
    let (speed, rate) = both_numbers(speed_in(text_at(fields, 2)), rate_at(fields, 3))?;
    Ok(SpeedRow {
        from,
        to,
        speed,
        rate,
    })
}

// The row that a record of a turns file stands for.
pub(crate) fn turn_row(fields: &ByteRecord) -> Result<TurnRow, RowKind>
    ensures { result ≡ turn_row_of (fields_of fields.now) }
{
    if fields.len() < 4 || fields.len() > 5 {
        return Err(RowKind::BadCount);
    }
    let (Some(from), Some(via), Some(to)) = (id_at(fields, 0), id_at(fields, 1), id_at(fields, 2))
    else {
        return Err(RowKind::BadId);
    };
    let (penalty, weight) = both_numbers(tenths_in(text_at(fields, 3)), weight_at(fields, 4))?;
    Ok(TurnRow {
        from,
        via,
        to,
        penalty,
        weight,
    })
}

// The rate at a place, if the record has that many fields.
fn rate_at(fields: &ByteRecord, place: usize) -> Result<Option<u32>, NumberFault>
    ensures { result ≡ optional_at rate_of (fields_of fields.now) place }
{
    if fields.len() <= place {
        return Ok(None);
    }
    let rate = rate_in(text_at(fields, place))?;
    Ok(Some(rate))
}

// The weight at a place, if the record has that many fields.
fn weight_at(fields: &ByteRecord, place: usize) -> Result<Option<u32>, NumberFault>
    ensures { result ≡ optional_at tenths_of (fields_of fields.now) place }
{
    if fields.len() <= place {
        return Ok(None);
    }
    let weight = tenths_in(text_at(fields, place))?;
    Ok(Some(weight))
}

// The two numbers of a row: one that is no decimal is told before any that is out of range.
fn both_numbers(
    number: Result<u32, NumberFault>,
    other: Result<Option<u32>, NumberFault>,
) -> Result<(u32, Option<u32>), RowKind>
    ensures { result ≡ both_numbers number other }
{
    match (number, other) {
        (Ok(number), Ok(other)) => Ok((number, other)),
        (Err(NumberFault::NoDecimal), _) | (_, Err(NumberFault::NoDecimal)) => {
            Err(RowKind::BadNumber)
        }
        _ => Err(RowKind::OutOfRange),
    }
}
