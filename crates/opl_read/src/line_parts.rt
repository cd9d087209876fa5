//! What the fields of a line say of its object.

ghost use Rattle.std.specs.Prelude.{◌≡◌, ◌∷◌, Ok, IfOk, IfErr, IfNone, IfSome, OnOk};
ghost use Rattle.opl_read.specs.Cutting.{fields_of, has};
ghost use Rattle.opl_read.specs.Faults.{IsLineErrorOf, mapped};
ghost use Rattle.opl_read.specs.LineParts.{no_parts, letters_of, with_content, with_field, with_fields, with_letter, HasNoLetter, location_of, kept_object};

use crate::content::{coordinate_of, deleted_of, refs_of, tags_of};
use crate::cutting::first_field;
use crate::line_faults::{FaultKind, LineError};
use crate::members::members_of;
use road_base::{Ids, Kind, Members, Node, Object, Point, Relation, Tags, Way};
use smallvec::SmallVec;
use std::alloc::Global;
use std::marker::Model;

const GREATEST_LONGITUDE: u64 = 180_000_000;

const GREATEST_LATITUDE: u64 = 90_000_000;

// More letters than an object of any kind may have.
const MOST_LETTERS: usize = 16;

// The letters of the fields so far, and what they say.
#[derive(Drop)]
pub(crate) struct Parts {
    letters: SmallVec<u8, MOST_LETTERS>,
    tags: Tags,
    nodes: Ids,
    members: Members,
    lon: Option<i64>,
    lat: Option<i64>,
    deleted: bool,
}

impl Model for Parts {
    ghost use Rattle.opl_read.specs.LineParts.{LineParts};

    ghost Value = { LineParts };

    ghost view = { λ p. record { letters = p.letters.items; tags = p.tags; nodes = p.nodes; members = p.members; lon = p.lon; lat = p.lat; deleted = p.deleted } };
}

// The parts that the fields of a text make.
pub(crate) fn parts_of(alloc: Global, kind: Kind, text: &str) -> Result<Parts, LineError>
    ensures parts { IfOk result (λ parts. with_fields kind no_parts (fields_of text.now) ≡ Ok parts) }
    ensures fault { IfErr result (IsLineErrorOf (with_fields kind no_parts (fields_of text.now))) }
{
    let mut parts = no_parts(alloc);
    let mut rest = text;
    while let Some((field, more)) = first_field(rest) {
        add_field(alloc, kind, &mut parts, field)?;
        rest = more;
    }
    Ok(parts)
}

fn no_parts(alloc: Global) -> Parts
    ensures { result ≡ no_parts }
{
    Parts {
        letters: SmallVec::new(alloc),
        tags: Tags::new(alloc),
        nodes: Ids::of(Vec::new(alloc)),
        members: Members::of(Vec::new(alloc)),
        lon: None,
        lat: None,
        deleted: false,
    }
}

// Adds a field to the parts.
fn add_field(alloc: Global, kind: Kind, parts: &mut Parts, field: &str) -> Result<(), LineError>
    ensures parts { OnOk result (with_field kind parts.old field.now ≡ Ok parts.new) }
    ensures fault { IfErr result (IsLineErrorOf (with_field kind parts.old field.now)) }
{
    let Some((letter, content)) = split_letter(field) else {
        return Err(LineError::Fault(FaultKind::BadField));
    };
    if !may_have(kind, letter) {
        return Err(LineError::Fault(FaultKind::BadField));
    }
    if parts.has(letter) {
        return Err(LineError::Fault(FaultKind::BadField));
    }
    add_allowed(alloc, letter, content, parts)
}

// The letter of a field, which is ASCII, and its content.
fn split_letter(field: &str) -> Option<(u8, &str)>
    ensures none { IfNone result (HasNoLetter field.now) }
    ensures parts { IfSome result (λ found. field.now ≡ found.0 ∷ found.1.now) }
{
    let bytes = field.as_bytes();
    if bytes.is_empty() || bytes[0] >= 128 {
        return None;
    }
    Some((bytes[0], &field[1..]))
}

// Adds a field that may be there.
fn add_allowed(alloc: Global, letter: u8, content: &str, parts: &mut Parts) -> Result<(), LineError>
    ensures parts { OnOk result (mapped (with_letter letter) (with_content letter content.now parts.old) ≡ Ok parts.new) }
    ensures fault { IfErr result (IsLineErrorOf (mapped (with_letter letter) (with_content letter content.now parts.old))) }
{
    add_content(alloc, letter, content, parts)?;
    parts.letters.push(letter)?;
    Ok(())
}

// Whether an object of this kind may have a field of this letter.
fn may_have(kind: Kind, letter: u8) -> bool
    ensures { result ≡ has letter (letters_of kind) }
{
    match kind {
        Kind::Node => matches!(
            letter,
            b'v' | b'd' | b'c' | b't' | b'i' | b'u' | b'T' | b'x' | b'y'
        ),
        Kind::Way => matches!(
            letter,
            b'v' | b'd' | b'c' | b't' | b'i' | b'u' | b'T' | b'N'
        ),
        Kind::Relation => matches!(
            letter,
            b'v' | b'd' | b'c' | b't' | b'i' | b'u' | b'T' | b'M'
        ),
    }
}

// Adds what a field's content says.
fn add_content(alloc: Global, letter: u8, content: &str, parts: &mut Parts) -> Result<(), LineError>
    ensures parts { OnOk result (with_content letter content.now parts.old ≡ Ok parts.new) }
    ensures fault { IfErr result (IsLineErrorOf (with_content letter content.now parts.old)) }
{
    match letter {
        b'T' => parts.tags = tags_of(alloc, content)?,
        b'N' => parts.nodes = refs_of(alloc, content)?,
        b'M' => parts.members = members_of(alloc, content)?,
        b'x' => parts.lon = coordinate_of(GREATEST_LONGITUDE, content)?,
        b'y' => parts.lat = coordinate_of(GREATEST_LATITUDE, content)?,
        b'd' => parts.deleted = deleted_of(content)?,
        _ => {}
    }
    Ok(())
}

impl Parts {
    // Whether a field of this letter was there.
    fn has(&self, letter: u8) -> bool
        ensures { result ≡ has letter self.now.letters }
    {
        self.letters.contains(&letter)
    }

    // The object of a kind and an id, none where it is deleted.
    pub(crate) fn into_object(self, kind: Kind, id: i64) -> Option<Object>
        ensures { result ≡ kept_object kind id self }
    {
        if self.deleted {
            return None;
        }
        match kind {
            Kind::Node => Some(Object::Node(Node {
                id,
                point: location(self.lon, self.lat),
                tags: self.tags,
            })),
            Kind::Way => Some(Object::Way(Way {
                id,
                tags: self.tags,
                nodes: self.nodes,
            })),
            Kind::Relation => Some(Object::Relation(Relation {
                id,
                tags: self.tags,
                members: self.members,
            })),
        }
    }
}

// The point of two coordinates, where both are there.
fn location(lon: Option<i64>, lat: Option<i64>) -> Option<Point>
    ensures { result ≡ location_of lon lat }
{
    match (lon, lat) {
        (Some(lon), Some(lat)) => Point::of(lon, lat),
        _ => None,
    }
}
