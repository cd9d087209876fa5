//! The fields of a record.

ghost use Rattle.std.specs.Prelude.{◌≡◌, reverse};
ghost use Rattle.csv.specs.Records.{fields_of};
ghost use Rattle.decimal_text.specs.ObjectId.{id_of};
ghost use Rattle.traffic_files.specs.Fields.{skip_blanks, text_at};

use csv::ByteRecord;
use decimal_text::id;

// The field at a place without the blanks round it, nothing where there is none.
#[tactic(auto, unfolding(crate::specs::Fields::without_blanks))]
pub(crate) fn text_at(fields: &ByteRecord, place: usize) -> &[u8]
    ensures { result.now ≡ text_at (fields_of fields.now) place }
{
    match fields.get(place) {
        Some(field) => trim_end(trim_start(field)),
        None => &[],
    }
}

// The id that the field at a place writes.
pub(crate) fn id_at(fields: &ByteRecord, place: usize) -> Option<i64>
    ensures { result ≡ id_of (text_at (fields_of fields.now) place) }
{
    id(text_at(fields, place))
}

// The text from its first byte that is no blank.
fn trim_start(mut text: &[u8]) -> &[u8]
    ensures { result.now ≡ skip_blanks text.entry.now }
{
    while let [first, rest @ ..] = text {
        if *first != b' ' {
            break;
        }
        text = rest;
    }
    text
}

// The text up to its last byte that is no blank.
fn trim_end(mut text: &[u8]) -> &[u8]
    ensures { result.now ≡ reverse (skip_blanks (reverse text.entry.now)) }
{
    while let [rest @ .., last] = text {
        if *last != b' ' {
            break;
        }
        text = rest;
    }
    text
}
